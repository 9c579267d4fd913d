//! Warnings as diagnostics.
ghost use Rattle.std.specs.Prelude.{◌≡◌, ◌≢◌, IfOk, OnOk, ◌++◌, List, filter, flat_map, map, not};
ghost use Rattle.std.specs.List.{AllZip};
ghost use Rattle.front_spanned.specs.Nodes.{piece_of, rule_views};
ghost use Rattle.lint_findings.specs.Codes as spec;
ghost use Rattle.lint_findings.specs.Codes.{all_warnings_of, is_optional, severity_of, warnings_of};
ghost use Rattle.lint_findings.specs.Reports.{ReportsWarning};
ghost use Rattle.lint_findings.specs.declared.codes.Code.TheVariants as variant;
ghost use Rattle.lint_findings.specs.declared.codes.Severity.TheVariants as severity;
ghost use Rattle.lint_warnings.specs.Lists.{texts_of};

use crate::bodies::{RuleBody, bodies_of};
use crate::choices::diagnose_choices;
use crate::codes::{Code, Severity};
use crate::diagnostic::Diagnostic;
use crate::facts::{Facts, all_facts};
use crate::helps::listed_help;
use crate::names::{builtin_names, keyword_names};
use crate::remedies::{add_fix, fix_of_warning};
use base_language::runtime::Span;
use front_spanned::ParserRule;
use lint_hints::Related;
use lint_patterns::{
    first_bodies, many_copies, open_starts, repeated_alternatives, repeated_bodies,
};
use lint_warnings::{Suspect, blanks_in_tokens, suspect_spans, uncalled_rules};
use std::alloc::{AllocError, Global};
use std::collections::HashMap;

/// Returns the warnings of `rules`, code by code, without those that are reported only on request.
/// The rules with the names `starts` are starts, which need no call. The only error is an
/// allocation failure.
pub fn diagnose_rules(
    alloc: Global,
    rules: &[ParserRule<'_>],
    starts: &[&str],
) -> Result<Vec<Diagnostic>, AllocError>
    ensures { IfOk result (λ diagnostics. AllZip ReportsWarning
        (warnings_of (texts_of starts.now) (rule_views rules.now)) diagnostics.items) }
{
    let all = codes_of(alloc, all_facts())?;
    let codes = standard_codes(alloc, &all)?;
    diagnose_codes(alloc, &codes, rules, starts)
}

/// Returns the warnings of `diagnose_rules`, and then those that are reported only on request. The
/// only error is an allocation failure.
pub fn diagnose_all_rules(
    alloc: Global,
    rules: &[ParserRule<'_>],
    starts: &[&str],
) -> Result<Vec<Diagnostic>, AllocError>
    ensures { IfOk result (λ diagnostics. AllZip ReportsWarning
        (all_warnings_of (texts_of starts.now) (rule_views rules.now)) diagnostics.items) }
{
    let mut diagnostics = diagnose_rules(alloc, rules, starts)?;
    let all = codes_of(alloc, all_facts())?;
    let codes = optional_codes(alloc, &all)?;
    let mut others = diagnose_codes(alloc, &codes, rules, starts)?;
    diagnostics.append(&mut others)?;
    Ok(diagnostics)
}

/// The codes of some facts, in order.
fn codes_of(alloc: Global, facts: &[Facts]) -> Result<Vec<Code>, AllocError>
    ensures { IfOk result (λ codes. codes.items ≡ map (λ f. f.code) facts.now) }
{
    facts.iter().map(|facts| facts.code).collect(alloc)
}

/// The codes but for those that are reported only if all are asked for.
fn standard_codes(alloc: Global, codes: &[Code]) -> Result<Vec<Code>, AllocError>
    ensures { IfOk result (λ standard. standard.items ≡ filter (λ c. not (is_optional c)) codes.now) }
{
    codes
        .iter()
        .copied()
        .filter(|code| !code.is_optional())
        .collect(alloc)
}

/// The codes that are reported only if all are asked for.
fn optional_codes(alloc: Global, codes: &[Code]) -> Result<Vec<Code>, AllocError>
    ensures { IfOk result (λ optional. optional.items ≡ filter is_optional codes.now) }
{
    codes
        .iter()
        .copied()
        .filter(|code| code.is_optional())
        .collect(alloc)
}

/// The warnings of some codes, code by code.
fn diagnose_codes(
    alloc: Global,
    codes: &[Code],
    rules: &[ParserRule<'_>],
    starts: &[&str],
) -> Result<Vec<Diagnostic>, AllocError>
    ensures { IfOk result (λ diagnostics. AllZip ReportsWarning
        (flat_map (spec.warnings_with (texts_of starts.now) (rule_views rules.now)) codes.now)
        diagnostics.items) }
{
    let mut diagnostics = Vec::new(alloc);
    for code in codes {
        add_code(alloc, *code, rules, starts, &mut diagnostics)?;
    }
    Ok(diagnostics)
}

/// Adds the warnings of one code.
fn add_code(
    alloc: Global,
    code: Code,
    rules: &[ParserRule<'_>],
    starts: &[&str],
    diagnostics: &mut Vec<Diagnostic>,
) -> Result<(), AllocError>
    ensures { OnOk result ((earlier : List spec.Warning)
        → AllZip ReportsWarning earlier diagnostics.old.items
        → AllZip ReportsWarning
        (earlier ++ spec.warnings_with (texts_of starts.now) (rule_views rules.now) code)
        diagnostics.new.items) }
{
    let mut others = diagnose_code(alloc, code, rules, starts)?;
    diagnostics.append(&mut others)?;
    Ok(())
}

/// The warnings of one code; that of an error has none.
fn diagnose_code(
    alloc: Global,
    code: Code,
    rules: &[ParserRule<'_>],
    starts: &[&str],
) -> Result<Vec<Diagnostic>, AllocError>
    ensures { IfOk result (λ diagnostics. AllZip ReportsWarning
        (spec.warnings_with (texts_of starts.now) (rule_views rules.now) code) diagnostics.items) }
{
    match code.severity() {
        Severity::Error => Ok(Vec::new(alloc)),
        Severity::Warning => diagnose_warning(alloc, code, rules, starts),
    }
}

/// The warnings of a warning's code.
fn diagnose_warning(
    alloc: Global,
    code: Code,
    rules: &[ParserRule<'_>],
    starts: &[&str],
) -> Result<Vec<Diagnostic>, AllocError>
    requires { severity_of code ≡ severity.Warning }
    ensures { IfOk result (λ diagnostics. AllZip ReportsWarning
        (spec.warnings_with (texts_of starts.now) (rule_views rules.now) code) diagnostics.items) }
{
    match code {
        Code::Unreachable => diagnose_choices(alloc, rules),
        _ => diagnose_spans(alloc, code, rules, starts),
    }
}

/// The warnings of another code than that of choices, one for each span.
fn diagnose_spans(
    alloc: Global,
    code: Code,
    rules: &[ParserRule<'_>],
    starts: &[&str],
) -> Result<Vec<Diagnostic>, AllocError>
    requires warning { severity_of code ≡ severity.Warning }
    requires other { code ≢ variant.Unreachable }
    ensures { IfOk result (λ diagnostics. AllZip ReportsWarning
        (spec.warnings_with (texts_of starts.now) (rule_views rules.now) code) diagnostics.items) }
{
    let spans = spans_of(alloc, code, rules, starts)?;
    let twins = twins_of(alloc, code, rules)?;
    let bodies = bodies_for(alloc, code, &spans)?;
    report_spans(alloc, code, &spans, &twins, &bodies)
}

/// Returns the warning that the optimizer changes a list in the rule with this name. The warning
/// has notes. The only error is an allocation failure.
pub fn diagnose_list(
    alloc: Global,
    name: Span<'_>,
    notes: Vec<Related>,
) -> Result<Diagnostic, AllocError>
    ensures warning { IfOk result
        (ReportsWarning (spec.warning variant.RewrittenList (piece_of name.entry))) }
    ensures notes { IfOk result (λ diagnostic. diagnostic.related ≡ notes) }
{
    let mut diagnostic = report_span(alloc, Code::RewrittenList, name, false)?;
    diagnostic.related = notes;
    Ok(diagnostic)
}

/// Returns a map from the byte at which a warning of the code begins to the bytes of the earlier
/// part that is the same. It is empty if warnings of the code do not report such a part.
fn twins_of(
    alloc: Global,
    code: Code,
    rules: &[ParserRule<'_>],
) -> Result<HashMap<usize, (usize, usize)>, AllocError> {
    match code {
        Code::RepeatedBody => first_bodies(alloc, rules),
        _ => Ok(HashMap::new(alloc)),
    }
}

/// The bodies of rules in the text of some spans, if the fixes for a code change them.
fn bodies_for(alloc: Global, code: Code, spans: &[Span<'_>]) -> Result<Vec<RuleBody>, AllocError> {
    match (code, spans.first()) {
        (Code::MissingEnd | Code::BlanksInToken, Some(span)) => bodies_of(alloc, span.get_input()),
        _ => Ok(Vec::new(alloc)),
    }
}

/// A warning of a code at each of these spans, with its fix, and a note on its twin, if it has one.
fn report_spans(
    alloc: Global,
    code: Code,
    spans: &[Span<'_>],
    twins: &HashMap<usize, (usize, usize)>,
    bodies: &[RuleBody],
) -> Result<Vec<Diagnostic>, AllocError>
    requires { severity_of code ≡ severity.Warning }
    ensures { IfOk result (λ diagnostics.
        AllZip (λ span. ReportsWarning (spec.warning code (piece_of span))) spans.now diagnostics.items) }
{
    let mut diagnostics = Vec::new(alloc);
    for span in spans {
        let diagnostic = report_with_twin(alloc, code, *span, twins, bodies)?;
        diagnostics.push(diagnostic)?;
    }
    Ok(diagnostics)
}

/// A warning of a code at a span, with its fix, and a note on its twin, if it has one.
fn report_with_twin(
    alloc: Global,
    code: Code,
    span: Span<'_>,
    twins: &HashMap<usize, (usize, usize)>,
    bodies: &[RuleBody],
) -> Result<Diagnostic, AllocError>
    requires { severity_of code ≡ severity.Warning }
    ensures { IfOk result (ReportsWarning (spec.warning code (piece_of span.entry))) }
{
    let mut diagnostic = report_span(alloc, code, span, false)?;
    diagnostic.related = twin_notes(alloc, span.start(), twins)?;
    let fix = fix_of_warning(alloc, code, span, bodies)?;
    diagnostic.help = add_fix(diagnostic.help, fix);
    Ok(diagnostic)
}

/// A note on the twin of the warning that begins at a byte, if it has one.
fn twin_notes(
    alloc: Global,
    start: usize,
    twins: &HashMap<usize, (usize, usize)>,
) -> Result<Vec<Related>, AllocError> {
    let mut notes = Vec::new(alloc);
    if let Some((first, last)) = twins.get(&start) {
        notes.push(Related::new(alloc, *first, *last, "this one has the same")?)?;
    }
    Ok(notes)
}

/// A warning of a code at a span, which may repeat what is before it.
pub(crate) fn report_span(
    alloc: Global,
    code: Code,
    span: Span<'_>,
    is_repeat: bool,
) -> Result<Diagnostic, AllocError>
    requires { severity_of code ≡ severity.Warning }
    ensures { IfOk result (ReportsWarning (spec.warning code (piece_of span.entry))) }
{
    let mut diagnostic = Diagnostic::new(alloc, code, span.start(), span.end(), code.message())?;
    diagnostic.help = listed_help(alloc, code, span.as_str(), is_repeat)?;
    Ok(diagnostic)
}

/// The spans at which rules have a warning of a code, but of that of choices.
fn spans_of<'i>(
    alloc: Global,
    code: Code,
    rules: &[ParserRule<'i>],
    starts: &[&str],
) -> Result<Vec<Span<'i>>, AllocError>
    requires { code ≢ variant.Unreachable }
    ensures { IfOk result (λ spans. map piece_of spans.items
        ≡ spec.spans_of code (texts_of starts.now) (rule_views rules.now)) }
{
    match code {
        Code::UncalledRule => uncalled_rules(alloc, rules, starts),
        Code::Unreachable => unreachable!(),
        Code::MissingEnd => open_starts(alloc, rules, starts),
        Code::ReversedRange => suspect_spans(alloc, Suspect::ReversedRange, rules),
        Code::ReversedCount => suspect_spans(alloc, Suspect::ReversedCount, rules),
        Code::IdleTest => suspect_spans(alloc, Suspect::IdleTest, rules),
        Code::NeverMatches => suspect_spans(alloc, Suspect::Unmatchable, rules),
        Code::BlanksInToken => blanks_in_tokens(alloc, rules),
        Code::ManyCopies => many_copies(alloc, rules),
        Code::RepeatedAlternative => repeated_alternatives(alloc, rules),
        Code::KeywordName => keyword_names(alloc, rules),
        Code::BuiltinName => builtin_names(alloc, rules),
        Code::RepeatedBody => repeated_bodies(alloc, rules),
        Code::StackRead => suspect_spans(alloc, Suspect::StackRead, rules),
        _ => Ok(Vec::new(alloc)),
    }
}
