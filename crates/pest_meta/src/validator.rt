//! Errors in a grammar's names and rules.
ghost use Rattle.std.specs.Prelude.{◌≡◌, [], IfErr, IfOk, alloc_error};
ghost use Rattle.base_language.specs.Language.WellFormed.{IsWellFormed};
ghost use Rattle.front_spanned.specs.Erasure.{rules_without_spans};
ghost use Rattle.front_spanned.specs.Nodes.{rule_views};
ghost use Rattle.front_stack_loops.specs.Certain.{AreReports};
ghost use Rattle.front_validator.specs.Placed.{AreIn};
ghost use Rattle.front_validator.specs.Reporting.{findings_of};
ghost use Rattle.pest_meta.specs.Findings.{AreErrorsOfFindings, AreFindings};

use base_language::grammar::Rule;
use base_language::runtime::{Error, Fault};
use front_analysis::analyze;
pub use front_names::{
    unicode_property_names, validate_already_defined, validate_pairs, validate_pest_keywords,
    validate_rust_keywords, validate_undefined,
};
use front_spanned::ParserRule;
use front_stack_loops::sorted_reports_in;
pub use front_stack_loops::validate_stack_repetition;
use front_validator::RuleFinding;
use front_validator::validator::{findings_in, validate_by, validate_by_in};
pub use front_validator::validator::{is_non_failing, is_non_progressing};
use std::alloc::{AllocError, Global};

/// Returns the errors in `rules`, sorted by the start of their spans, and then by the end, in
/// bytes. If several errors have the same span, they are in the order of this list:
/// - The body of a repetition `e*`, `e+` or `e{n,}` cannot fail, or may consume nothing. If it
///   cannot fail, the message is
///   `expression inside repetition cannot fail and will repeat infinitely`. Otherwise it is
///   `expression inside repetition is non-progressing and will repeat infinitely`.
/// - A repetition never ends because of the stack (`validate_stack_repetition`). The message is the
///   second one above.
/// - An alternative cannot fail, and is not the last one of its choice. The message is
///   `expression cannot fail; following choices cannot be reached`.
/// - The body of the rule `WHITESPACE` cannot fail, or may consume nothing. If it cannot fail, the
///   message is `WHITESPACE cannot fail and will repeat infinitely`. Otherwise it is
///   `WHITESPACE is non-progressing and will repeat infinitely`. The rule `COMMENT` has the same
///   messages, with its own name.
/// - A rule is left-recursive. The error is at the call that closes the cycle, at most once for a
///   name. The message is such as
///   `rule a is left-recursive (a -> b -> a); pest::pratt_parser might be useful in this case`.
/// - A tag is on a call of a Silent rule. The message is
///   `tags on silent rules will not appear in the output`. If the tag is on a builtin that is no
///   rule's name, it is `tags on built-in rules will not appear in the output`.
///
/// # Errors
/// `Fault::Memory` if an allocation fails.
pub fn validate_ast<'i>(
    alloc: Global,
    rules: &Vec<ParserRule<'i>>,
) -> Result<Vec<Error<Rule>>, Fault>
    ensures exact { IfOk result (λ errors. AreErrorsOfFindings (rule_views rules.now.items) errors.items) }
    ensures accepted { IfOk result (λ errors. errors.items ≡ []
        → IsWellFormed (rules_without_spans (rule_views rules.now.items))) }
    ensures silent { IfOk result (λ errors. errors.items ≡ [] → AreReports (rule_views rules.now.items) []) }
    ensures memory { IfErr result (λ fault. fault ≡ Fault.Memory alloc_error) }
{
    let groundwork = analyze(alloc, rules.as_slice())?;
    let endless = sorted_reports_in(alloc, &groundwork)?;
    validate_by(alloc, &groundwork, endless.as_slice())
}

/// Returns the errors of `validate_ast` for `rules`. Condition: the spans of `rules` are all spans
/// of `text`. The lines and columns of all errors are found in one walk over `text`.
///
/// # Errors
/// `Fault::Memory` if an allocation fails.
pub fn validate_ast_in<'i>(
    alloc: Global,
    text: &str,
    rules: &Vec<ParserRule<'i>>,
) -> Result<Vec<Error<Rule>>, Fault>
    requires in_text { AreIn text.now (rule_views rules.now.items) }
    ensures exact { IfOk result (λ errors. AreErrorsOfFindings (rule_views rules.now.items) errors.items) }
    ensures accepted { IfOk result (λ errors. errors.items ≡ []
        → IsWellFormed (rules_without_spans (rule_views rules.now.items))) }
    ensures silent { IfOk result (λ errors. errors.items ≡ [] → AreReports (rule_views rules.now.items) []) }
    ensures memory { IfErr result (λ fault. fault ≡ Fault.Memory alloc_error) }
{
    let groundwork = analyze(alloc, rules.as_slice())?;
    let endless = sorted_reports_in(alloc, &groundwork)?;
    validate_by_in(alloc, text, &groundwork, endless.as_slice())
}

/// Returns the findings in `rules`, in the order of the errors that `validate_ast` makes from them.
///
/// # Errors
/// `AllocError` if an allocation fails.
pub fn find_in_rules<'i>(
    alloc: Global,
    rules: &Vec<ParserRule<'i>>,
) -> Result<Vec<RuleFinding<'i>>, AllocError>
    ensures found { IfOk result (λ found.
        AreFindings (rule_views rules.now.items) (findings_of found.items)) }
    ensures accepted { IfOk result (λ found. findings_of found.items ≡ []
        → IsWellFormed (rules_without_spans (rule_views rules.now.items))) }
{
    let groundwork = analyze(alloc, rules.as_slice())?;
    let endless = sorted_reports_in(alloc, &groundwork)?;
    findings_in(alloc, &groundwork, endless.as_slice())
}
