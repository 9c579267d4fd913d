//! A grammar that is opened once: its trees, builtins and rules, or why it is refused, as data.
ghost use Rattle.std.specs.Prelude.{[], ◌≡◌, IfErr, IfOk, None};
ghost use Rattle.base_language.specs.Pieces.Faults.{IsMemory};
ghost use Rattle.front_names.specs.GrammarNames.{AreWrittenAt, forest_complaints, forest_first_calls};
ghost use Rattle.front_reader.specs.Refusals.{IsReadAs, first_flaw_in};
ghost use Rattle.front_spanned.specs.Nodes.{rule_views};
ghost use Rattle.front_syntax.specs.Parses.{ParseRefuses};
ghost use Rattle.base_language.specs.declared.grammar.Rule.TheVariants.{grammar_rules};
ghost use Rattle.pest_meta.specs.Opening.{AreErrorsOf, IsForestOf, IsOpenError, IsUnvalidatedError, of_names, of_read};
ghost use Rattle.pest_meta.specs.Spelling.{IsRefusedWith};
ghost use Rattle.pest_meta.specs.WithSpans.{SpellsWithSpans};

use crate::parser::{ParserRule, PestParser};
use crate::validator::find_in_rules;
use base_ast::deep::Deep;
use base_language::grammar::Rule;
use base_language::runtime::{Error, Fault};
use front_names::{NameError, NameFinding, check_forest, name_errors};
use front_nodes::forest::Forest;
use front_reader::rules::{Flaw, ReadError, flaw_errors, read_forest};
use front_validator::RuleFinding;
use front_validator::validator::errors_in;
use std::alloc::{AllocError, Global};

/// A grammar that was parsed.
#[derive(Drop)]
pub struct OpenGrammar<'i> {
    /// All trees of the text.
    pub forest: Forest<'i>,
    /// The builtins that the grammar uses, as `validator::validate_pairs` returns them.
    pub builtins: Vec<&'i str>,
    /// Its rules, as `parser::consume_rules_with_spans` returns them.
    pub rules: Deep<Vec<ParserRule<'i>>>,
}

/// Why `open` refuses a text. `parse_and_optimize` makes its errors from these reasons.
#[derive(Drop)]
pub enum OpenError<'i> {
    /// An allocation failed, or the text has 2^32 bytes or more.
    Memory(AllocError),
    /// The text is no grammar. This is the syntax error.
    Syntax(Error<Rule>),
    /// Some names are wrong. These are all findings about names, in the order of the errors.
    Names(Vec<NameFinding<'i>>),
    /// The text cannot be read as rules. This is the first flaw in text order.
    Flaw(Flaw<'i>),
    /// The rules are wrong. These are all findings in them, in the order of the errors.
    Rules(Vec<RuleFinding<'i>>),
}

/// Parses and validates the grammar `text`.
///
/// # Errors
/// The first variant of `OpenError` that applies, in the order of the variants. `Memory` is also returned
/// if `text` has 2^32 bytes or more.
pub fn open<'i>(alloc: Global, text: &'i str) -> Result<OpenGrammar<'i>, OpenError<'i>>
    ensures forest { IfOk result (λ opened. IsForestOf text.entry.now opened.forest) }
    ensures rules { IfOk result (λ opened.
        SpellsWithSpans text.entry.now opened.builtins.items (rule_views opened.rules.value.items)) }
    ensures refused { IfErr result (IsOpenError text.entry.now) }
{
    let opened = open_unvalidated(alloc, text)?;
    let findings = find_in_rules(alloc, &opened.rules.value)?;
    if !findings.is_empty() {
        return Err(OpenError::Rules(findings));
    }
    Ok(opened)
}

/// Parses the grammar `text` and checks its names, but does not validate its rules.
///
/// # Errors
/// Those of `open`, except `OpenError::Rules`.
pub fn open_unvalidated<'i>(alloc: Global, text: &'i str) -> Result<OpenGrammar<'i>, OpenError<'i>>
    ensures forest { IfOk result (λ opened. IsForestOf text.entry.now opened.forest) }
    ensures named { IfOk result (λ opened. forest_complaints opened.forest ≡ []) }
    ensures builtins { IfOk result (λ opened.
        AreWrittenAt (forest_first_calls opened.forest) opened.builtins.items) }
    ensures rules { IfOk result (λ opened.
        IsReadAs opened.forest (rule_views opened.rules.value.items)) }
    ensures flawless { IfOk result (λ opened. first_flaw_in opened.forest ≡ None) }
    ensures refused { IfErr result (IsUnvalidatedError text.entry.now) }
{
    let forest = parse_forest(alloc, text)?;
    let builtins = check_forest(alloc, &forest)?;
    let rules = read_forest(alloc, &forest)?;
    Ok(OpenGrammar {
        forest,
        builtins,
        rules: Deep { value: rules },
    })
}

/// Parses the text of a grammar.
fn parse_forest<'i>(alloc: Global, text: &'i str) -> Result<Forest<'i>, OpenError<'i>>
    ensures forest { IfOk result (IsForestOf text.entry.now) }
    ensures refused { IfErr result (IsUnvalidatedError text.entry.now) }
{
    match PestParser::forest(alloc, Rule::grammar_rules, text) {
        Ok(forest) => Ok(forest),
        Err(fault) => Err(syntax_error(text, fault)),
    }
}

/// Returns why a text is not opened for which a parse has this fault.
fn syntax_error<'i>(text: &'i str, fault: Fault) -> OpenError<'i>
    requires { ParseRefuses grammar_rules text.now fault }
    ensures { IsUnvalidatedError text.entry.now result }
{
    let mut errors = match fault {
        Fault::Memory(error) => return OpenError::Memory(error),
        Fault::Grammar(errors) => errors,
    };
    match errors.pop() {
        Some(error) => OpenError::Syntax(error),
        None => unreachable!(),
    }
}

impl OpenError<'_> {
    /// Returns the errors with which `parse_and_optimize` refuses `text`. Condition: `open` returned `self`
    /// for `text`.
    ///
    /// # Errors
    /// `Fault::Memory` if an allocation fails, or if `self` is `OpenError::Memory`.
    pub fn into_errors(self, alloc: Global, text: &str) -> Result<Vec<Error<Rule>>, Fault>
        requires { IsOpenError text.now self }
        ensures made { IfOk result (λ errors. AreErrorsOf self.entry errors.items) }
        ensures told { IfOk result (λ errors. IsRefusedWith text.now errors.items) }
        ensures memory { IfErr result IsMemory }
    {
        match self {
            OpenError::Memory(error) => Err(error.into()),
            OpenError::Syntax(error) => Ok(vec![in alloc; error]?),
            OpenError::Names(findings) => name_errors(alloc, text, &findings),
            OpenError::Flaw(flaw) => flaw_errors(alloc, flaw),
            OpenError::Rules(findings) => errors_in(alloc, text, &findings),
        }
    }
}

impl<'i> From<NameError<'i>> for OpenError<'i> {
    ghost from_gives = { λ error opened. opened ≡ of_names error };

    fn from(error: NameError<'i>) -> Self {
        match error {
            NameError::Memory(error) => OpenError::Memory(error),
            NameError::Found(findings) => OpenError::Names(findings),
        }
    }
}

impl<'i> From<ReadError<'i>> for OpenError<'i> {
    ghost from_gives = { λ error opened. opened ≡ of_read error };

    fn from(error: ReadError<'i>) -> Self {
        match error {
            ReadError::Memory(error) => OpenError::Memory(error),
            ReadError::Found(flaw) => OpenError::Flaw(flaw),
        }
    }
}

impl From<AllocError> for OpenError<'_> {
    ghost use Rattle.std.specs.Prelude.{◌≡◌, alloc_error};
    ghost use Rattle.pest_meta.specs.declared.opened.OpenError.TheVariants.{Memory};

    ghost from_gives = { λ _ error. error ≡ Memory alloc_error };

    fn from(error: AllocError) -> Self {
        OpenError::Memory(error)
    }
}
