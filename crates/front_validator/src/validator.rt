//! The validator's public calls: nullability, failure, and the errors in rules.
ghost use Rattle.std.specs.Prelude.{◌≡◌, ◌↔◌, [], IsTrue, IfOk, IfErr, alloc_error, map};
ghost use Rattle.base_language.specs.Language.WellFormed.{IsNullable, CannotFail, IsWellFormed};
ghost use Rattle.front_spanned.specs.Erasure.{without_spans, rules_without_spans};
ghost use Rattle.front_spanned.specs.Nodes.{piece_of, rule_views, unplaced};
ghost use Rattle.front_analysis.specs.Analysis.{IsAnalysis};
ghost use Rattle.front_analysis.specs.Names.{grammar_of};
ghost use Rattle.front_validator.specs.Placed.{AreIn, ArePiecesOf};
ghost use Rattle.front_validator.specs.Reported.{AreReported};

use crate::reported::errors_of;
pub use crate::reported::{errors_in, findings_in};
use base_language::grammar::Rule;
use base_language::runtime::{Error, Fault, Span};
use front_analysis::{Analysis, Question, analyze, answer_for};
use front_spanned::{ParserExpr, ParserRule};
use std::alloc::Global;

/// Reports whether an expression may succeed without taking anything. Its names mean these rules (the
/// last of a name). Empty strings, `SOI`, `EOI`, predicates, `e?`, `e*`, `e{,n}` and repetitions from 0
/// times on may. So may a sequence if both sides may, and a choice if one side may. A call may if the
/// rule's body may, and all else may if its operand may. The only fault is an allocation failure.
pub fn is_non_progressing<'i>(
    alloc: Global,
    expr: &ParserExpr<'i>,
    rules: &Vec<ParserRule<'i>>,
) -> Result<bool, Fault>
    ensures exact { IfOk result (λ yes. IsTrue yes
        ↔ IsNullable (rules_without_spans (rule_views rules.now.items)) (without_spans (unplaced expr.now))) }
    ensures memory { IfErr result (λ fault. fault ≡ Fault.Memory alloc_error) }
{
    Ok(answer_for(alloc, expr, rules.as_slice(), Question::TakesNothing)?)
}

/// Reports whether an expression cannot fail. Its names mean these rules (the last of a name). Empty
/// strings, `e?`, `e*`, `e{,n}` and repetitions from 0 times on cannot. Nor can a sequence if both sides
/// can't, or a choice if one side can't. Nor can a call if the rule's body can't, or all else but `!e` if
/// its operand can't. The only fault is an allocation failure.
pub fn is_non_failing<'i>(
    alloc: Global,
    expr: &ParserExpr<'i>,
    rules: &Vec<ParserRule<'i>>,
) -> Result<bool, Fault>
    ensures exact { IfOk result (λ yes. IsTrue yes
        ↔ CannotFail (rules_without_spans (rule_views rules.now.items)) (without_spans (unplaced expr.now))) }
    ensures memory { IfErr result (λ fault. fault ≡ Fault.Memory alloc_error) }
{
    Ok(answer_for(alloc, expr, rules.as_slice(), Question::CannotFail)?)
}

/// Returns the errors in rules, sorted by span (at one span repetitions, then those of `endless`, then
/// choices, then skipped rules, then left recursion, then tags): a repetition `e*`, `e+` or `e{n,}` whose
/// body cannot fail or may take nothing; an alternative with others after it that cannot fail; a rule
/// named `WHITESPACE` or `COMMENT` that cannot fail or may take nothing; left recursion, at most one for
/// a name: the trail of rules by which the walk over the body of the name's last rule comes back, at the
/// first call of the rule to which it comes; a tag on a Silent rule, or on a builtin that is no rule's
/// name. An error has the span of its fault. `endless` are the spans of repetitions that never end for a
/// reason that this function does not look for. The only fault is an allocation failure.
pub fn validate_rules<'i>(
    alloc: Global,
    rules: &Vec<ParserRule<'i>>,
    endless: &[Span<'i>],
) -> Result<Vec<Error<Rule>>, Fault>
    ensures exact { IfOk result (λ errors.
        AreReported (rule_views rules.now.items) (map piece_of endless.now) errors.items) }
    ensures accepted { IfOk result (λ errors. errors.items ≡ []
        → IsWellFormed (rules_without_spans (rule_views rules.now.items))) }
    ensures memory { IfErr result (λ fault. fault ≡ Fault.Memory alloc_error) }
{
    let groundwork = analyze(alloc, rules.as_slice())?;
    validate_by(alloc, &groundwork, endless)
}

/// Returns the errors of `validate_rules`, given the shared analysis of the rules. The only fault is an
/// allocation failure.
pub fn validate_by<'i>(
    alloc: Global,
    groundwork: &Analysis<'_, 'i>,
    endless: &[Span<'i>],
) -> Result<Vec<Error<Rule>>, Fault>
    requires groundwork { IsAnalysis groundwork.now }
    ensures exact { IfOk result (λ errors.
        AreReported (rule_views groundwork.now.grammar.rules.now) (map piece_of endless.now) errors.items) }
    ensures accepted { IfOk result (λ errors. errors.items ≡ []
        → IsWellFormed (grammar_of groundwork.now.grammar.rules.now)) }
    ensures memory { IfErr result (λ fault. fault ≡ Fault.Memory alloc_error) }
{
    let found = findings_in(alloc, groundwork, endless)?;
    errors_of(alloc, found.as_slice())
}

/// Returns the errors of `validate_rules` if all spans of the rules, and those of `endless`, are of
/// one text. One walk over it finds the locations of all errors. The only fault is an allocation failure.
pub fn validate_rules_in<'i>(
    alloc: Global,
    text: &str,
    rules: &Vec<ParserRule<'i>>,
    endless: &[Span<'i>],
) -> Result<Vec<Error<Rule>>, Fault>
    requires rules_in_text { AreIn text.now (rule_views rules.now.items) }
    requires endless_in_text { ArePiecesOf text.now (map piece_of endless.now) }
    ensures exact { IfOk result (λ errors.
        AreReported (rule_views rules.now.items) (map piece_of endless.now) errors.items) }
    ensures accepted { IfOk result (λ errors. errors.items ≡ []
        → IsWellFormed (rules_without_spans (rule_views rules.now.items))) }
    ensures memory { IfErr result (λ fault. fault ≡ Fault.Memory alloc_error) }
{
    let groundwork = analyze(alloc, rules.as_slice())?;
    validate_by_in(alloc, text, &groundwork, endless)
}

/// Returns the errors of `validate_rules_in`, given the shared analysis of the rules. The only fault is
/// an allocation failure.
pub fn validate_by_in<'i>(
    alloc: Global,
    text: &str,
    groundwork: &Analysis<'_, 'i>,
    endless: &[Span<'i>],
) -> Result<Vec<Error<Rule>>, Fault>
    requires groundwork { IsAnalysis groundwork.now }
    requires rules_in_text { AreIn text.now (rule_views groundwork.now.grammar.rules.now) }
    requires endless_in_text { ArePiecesOf text.now (map piece_of endless.now) }
    ensures exact { IfOk result (λ errors.
        AreReported (rule_views groundwork.now.grammar.rules.now) (map piece_of endless.now) errors.items) }
    ensures accepted { IfOk result (λ errors. errors.items ≡ []
        → IsWellFormed (grammar_of groundwork.now.grammar.rules.now)) }
    ensures memory { IfErr result (λ fault. fault ≡ Fault.Memory alloc_error) }
{
    let found = findings_in(alloc, groundwork, endless)?;
    errors_in(alloc, text, found.as_slice())
}
