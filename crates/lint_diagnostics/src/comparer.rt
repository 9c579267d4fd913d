//! Rules in two forms.
ghost use Rattle.std.specs.Prelude.{◌≡◌, ℕ, List, IfNone, IfOk, IfSome, chars};
ghost use Rattle.base_ast.specs.Optimized.{optimized_rules_of};
ghost use Rattle.front_spanned.specs.Nodes.{rule_views};
ghost use Rattle.lint_diagnostics.specs.Differences.{AreForms, AreOptimized, Distinguishes, EndsAs, IsSpelled};
ghost use Rattle.lint_diagnostics.specs.Differences.{CannotRun, IsComparer, LacksForms, ShowsDifference};
ghost use Rattle.base_ast.specs.declared.optimized.OptimizedRule.{OptimizedRule};
ghost use Rattle.base_language.specs.Language.Expression.{Grammar};
ghost use Rattle.matcher_support.specs.Compiled.{IsCompiled, IsCompiledOf};
ghost use Rattle.pest_meta.specs.Written.{IsWritten};

use crate::difference::{Difference, RuleEnd};
use crate::texts::candidate_texts;
use base_ast::deep::Deep;
use base_ast::optimized::OptimizedRule;
use front_optimizer::{optimize, unroll_rules};
use front_spanned::{ParserRule, copy_rules};
use matcher_engine::block::{BlockStop, compile_block};
use matcher_program::answers::Stop;
use matcher_program::compile::Unfit;
use matcher_support::compiled::CompiledGrammar;
use matcher_support::unicode_properties::UnicodeProperties;
use std::alloc::{AllocError, Global};

/// The greatest number of steps of a run on one text.
const MOST_STEPS: u64 = 400;

/// The rules of a grammar as they are written, and both forms of them as compiled grammars.
#[derive(Drop)]
pub struct RunnableForms {
    pub rules: Deep<Vec<OptimizedRule>>,
    pub written: Vec<u8>,
    pub optimized: Vec<u8>,
}

/// The rules of a grammar as they are written, and as pest runs them.
#[derive(Drop)]
pub struct Comparer<'t> {
    pub grammar: &'t str,
    /// Both forms of the rules, or `None` if the rules cannot be run.
    pub forms: Option<RunnableForms>,
}

impl<'t> Comparer<'t> {
    /// Compiles `rules` in both forms. Condition: `rules` are the rules that the text `grammar`
    /// spells. The only error is an allocation failure.
    pub fn new(
        alloc: Global,
        grammar: &'t str,
        rules: &[ParserRule<'_>],
    ) -> Result<Comparer<'t>, AllocError>
        requires { IsSpelled grammar.now (rule_views rules.now) }
        ensures grammar { IfOk result (λ comparer. comparer.grammar.now ≡ grammar.entry.now) }
        ensures forms { IfOk result IsComparer }
        ensures lacking { IfOk result (λ comparer. IfNone comparer.forms (LacksForms grammar.entry.now)) }
    {
        let forms = forms_of(alloc, rules)?;
        Ok(Comparer { grammar, forms })
    }

    /// Returns a text on which the rule named `rule` as pest runs it ends at another position than
    /// the rule as it is written. Returns `None` if no such text is found.
    ///
    /// Only some texts are tried, and texts of fewer pieces come first. The returned text need not
    /// be the shortest one. The time has a fixed bound, except for the time to make an index of the
    /// rules. The only error is an allocation failure.
    pub fn distinguishing_text(
        &self,
        alloc: Global,
        rule: &str,
    ) -> Result<Option<Difference>, AllocError>
        requires { IsComparer self.now }
        ensures { IfOk result (λ found.
            IfSome found (ShowsDifference self.now.grammar.now (chars rule.now))) }
    {
        let Some(forms) = &self.forms else {
            return Ok(None);
        };
        let texts = candidate_texts(alloc, &forms.rules.value, rule)?;
        forms.first_difference(alloc, rule, &texts)
    }
}

impl RunnableForms {
    /// Returns the first of `texts` on which the rule named `rule` ends otherwise.
    fn first_difference(
        &self,
        alloc: Global,
        rule: &str,
        texts: &[String],
    ) -> Result<Option<Difference>, AllocError>
        ensures { (g h : List OptimizedRule) → IsCompiled g self.now.written.items
            → IsCompiled h self.now.optimized.items → IfOk result (λ found. IfSome found
            (Distinguishes (optimized_rules_of g) (optimized_rules_of h) (chars rule.now))) }
    {
        let Some(written) = CompiledGrammar::read(alloc, &self.written)? else {
            return Ok(None);
        };
        let Some(optimized) = CompiledGrammar::read(alloc, &self.optimized)? else {
            return Ok(None);
        };
        find_first(alloc, &written, &optimized, rule, texts)
    }
}

/// Returns the first of `texts` on which the rule named `rule` ends otherwise by the second grammar.
fn find_first(
    alloc: Global,
    written: &CompiledGrammar<'_>,
    optimized: &CompiledGrammar<'_>,
    rule: &str,
    texts: &[String],
) -> Result<Option<Difference>, AllocError>
    ensures { (g h : Grammar) → IsCompiledOf g written.now → IsCompiledOf h optimized.now
        → IfOk result (λ found. IfSome found (Distinguishes g h (chars rule.now))) }
{
    for text in texts {
        if let Some(difference) = difference_on(alloc, written, optimized, rule, text.as_str())? {
            return Ok(Some(difference));
        }
    }
    Ok(None)
}

/// Returns `text` with both ends of the rule named `rule`, if the ends are known and not the same.
fn difference_on(
    alloc: Global,
    written: &CompiledGrammar<'_>,
    optimized: &CompiledGrammar<'_>,
    rule: &str,
    text: &str,
) -> Result<Option<Difference>, AllocError>
    ensures { (g h : Grammar) → IsCompiledOf g written.now → IsCompiledOf h optimized.now
        → IfOk result (λ found. IfSome found (Distinguishes g h (chars rule.now))) }
{
    let Some(first) = end_of(alloc, written, rule, text)? else {
        return Ok(None);
    };
    let Some(second) = end_of(alloc, optimized, rule, text)? else {
        return Ok(None);
    };
    if first == second {
        return Ok(None);
    }
    let text = String::from_str(alloc, text)?;
    Ok(Some(Difference {
        text,
        written: first,
        optimized: second,
    }))
}

/// Returns the end of a rule on a text, or none if the run takes too many steps, or has no outcome.
fn end_of(
    alloc: Global,
    rules: &CompiledGrammar<'_>,
    rule: &str,
    text: &str,
) -> Result<Option<RuleEnd>, AllocError>
    ensures { (g : Grammar) → IsCompiledOf g rules.now
        → IfOk result (λ found. IfSome found (EndsAs g (chars rule.now) text.now)) }
{
    match rules.match_text(alloc, rule, text, Some(MOST_STEPS)) {
        Ok(found) => Ok(Some(RuleEnd::At(found.end))),
        Err(BlockStop::NoMatch(_)) => Ok(Some(RuleEnd::Failure)),
        Err(BlockStop::Stopped(Stop::Memory)) => Err(AllocError),
        Err(_) => Ok(None),
    }
}

/// Compiles rules in both forms, or returns none if they cannot be run.
fn forms_of(alloc: Global, rules: &[ParserRule<'_>]) -> Result<Option<RunnableForms>, AllocError>
    ensures forms { (grammar : List ℕ) → IsSpelled grammar (rule_views rules.now)
        → IfOk result (λ found. IfSome found (AreForms grammar)) }
    ensures lacking { (grammar : List ℕ) → IsSpelled grammar (rule_views rules.now)
        → IfOk result (λ found. IfNone found (LacksForms grammar)) }
{
    let as_written = write_out(alloc, rules)?;
    let Some(written) = compile(alloc, &as_written.value)? else {
        return Ok(None);
    };
    let as_optimized = optimize_copy(alloc, rules)?;
    let Some(optimized) = compile(alloc, &as_optimized.value)? else {
        return Ok(None);
    };
    Ok(Some(RunnableForms {
        rules: as_written,
        written,
        optimized,
    }))
}

/// Returns rules as they are written, in the form that runs.
fn write_out(
    alloc: Global,
    rules: &[ParserRule<'_>],
) -> Result<Deep<Vec<OptimizedRule>>, AllocError>
    ensures { (grammar : List ℕ) → IsSpelled grammar (rule_views rules.now)
        → IfOk result (λ written. IsWritten grammar (optimized_rules_of written.value.items)) }
{
    let copies = copy_rules(alloc, rules)?;
    match unroll_rules(alloc, copies.into_inner()) {
        Ok(written) => Ok(Deep { value: written }),
        Err(_) => Err(AllocError),
    }
}

/// Returns rules as the optimizer leaves them.
fn optimize_copy(
    alloc: Global,
    rules: &[ParserRule<'_>],
) -> Result<Deep<Vec<OptimizedRule>>, AllocError>
    ensures { (grammar : List ℕ) → IsSpelled grammar (rule_views rules.now)
        → IfOk result (λ optimized. AreOptimized grammar (optimized_rules_of optimized.value.items)) }
{
    let copies = copy_rules(alloc, rules)?;
    match optimize(alloc, copies.into_inner()) {
        Ok(optimized) => Ok(Deep { value: optimized }),
        Err(_) => Err(AllocError),
    }
}

/// Compiles rules, or returns none if they cannot be run.
fn compile(alloc: Global, rules: &[OptimizedRule]) -> Result<Option<Vec<u8>>, AllocError>
    ensures compiled { IfOk result (λ found. IfSome found (λ block. IsCompiled rules.now block.items)) }
    ensures unfit { IfOk result (λ found. IfNone found (CannotRun (optimized_rules_of rules.now))) }
{
    match compile_block(alloc, rules, &UnicodeProperties) {
        Ok(block) => Ok(Some(block)),
        Err(Unfit::Memory) => Err(AllocError),
        Err(Unfit::UnknownName(_) | Unfit::Bound(_)) => Ok(None),
    }
}
