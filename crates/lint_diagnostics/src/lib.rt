//! The diagnostics of the text of a grammar: its errors, or its warnings if it has no errors. Also
//! texts on which a rule as pest runs it does not end at the same position as the rule as it is
//! written.
#![tactic(auto)]

mod comparer;
mod difference;
mod fixes;
mod samples;
mod texts;

ghost use Rattle.std.specs.Prelude.{◌≡◌, IfOk, IfSome, chars, false, map, string_bytes, true};
ghost use Rattle.std.specs.List.{AllZip, list_any};
ghost use Rattle.lint_findings.specs.Codes.{chosen_warnings};
ghost use Rattle.lint_findings.specs.Reports.{ReportsWarning, is_error};
ghost use Rattle.lint_findings.specs.Fragments.{fragment_of};
ghost use Rattle.lint_findings.specs.Starts.{names_of};
ghost use Rattle.lint_diagnostics.specs.Diagnosis.{IsDiagnosis, IsDiagnosisWith, IsFullDiagnosis};
ghost use Rattle.lint_diagnostics.specs.Diagnosis.{AreTrueNotes, ReportRules, ReportWarnings, all_starts};
ghost use Rattle.lint_diagnostics.specs.Diagnosis.{ReportsList};
ghost use Rattle.lint_diagnostics.specs.Differences.{IsComparer, IsSpelled};
ghost use Rattle.lint_diagnostics.specs.Messages.{ReportsDifference};
ghost use Rattle.front_spanned.specs.Nodes.{piece_of, rule_views};
ghost use Rattle.lint_warnings.specs.Lists.{texts_of};
ghost use Rattle.pest_meta.specs.Spelling.{HasAnswer};

pub use crate::comparer::Comparer;
pub use crate::difference::{Difference, RuleEnd};
pub use crate::fixes::fix_text;
use base_language::runtime::Span;
use front_names::Builtin;
use front_spanned::ParserRule;
pub use lint_findings::{
    Applicability, Applied, Code, Diagnostic, Fix, Help, Mended, Options, Related, Severity,
};
use lint_findings::{
    Fragment, diagnose_all_rules, diagnose_list, diagnose_refusal, diagnose_rules, diagnose_starts,
    leave_out_allowed, stated_starts,
};
use lint_patterns::rewritten_lists;
use pest_meta::open;
use std::alloc::{AllocError, Global};

/// The greatest number of warnings of rewritten lists in a text that have a note.
const MOST_NOTES: usize = 10;

/// The greatest number of rules of a grammar whose warnings have notes. For a note, all rules are
/// compiled in both forms.
const MOST_RULES: usize = 200;

/// Returns the diagnostics of the grammar `text`. If `parse_and_optimize` refuses the text, they are its
/// errors, in their order. Otherwise they are its warnings, except those that comments allow.
///
/// # Errors
/// `AllocError` if an allocation fails.
pub fn diagnose(
    alloc: Global,
    text: &str,
    options: Options<'_>,
) -> Result<Vec<Diagnostic>, AllocError>
    ensures diagnosis { IfOk result (λ diagnostics. IsDiagnosis (texts_of options.entry.starts.now) text.now
        diagnostics.items) }
    ensures accepted { IfOk result (λ diagnostics.
        list_any is_error diagnostics.items ≡ false → HasAnswer text.now) }
{
    diagnose_with(alloc, text, options.starts, false)
}

/// Returns the diagnostics of `diagnose`, and also the warnings that are reported only on request.
///
/// # Errors
/// `AllocError` if an allocation fails.
pub fn diagnose_all(
    alloc: Global,
    text: &str,
    options: Options<'_>,
) -> Result<Vec<Diagnostic>, AllocError>
    ensures diagnosis { IfOk result (λ diagnostics. IsFullDiagnosis (texts_of options.entry.starts.now)
        text.now diagnostics.items) }
    ensures accepted { IfOk result (λ diagnostics.
        list_any is_error diagnostics.items ≡ false → HasAnswer text.now) }
{
    diagnose_with(alloc, text, options.starts, true)
}

/// The diagnostics of a text, with all warnings or not.
fn diagnose_with(
    alloc: Global,
    text: &str,
    starts: &[&str],
    has_all: bool,
) -> Result<Vec<Diagnostic>, AllocError>
    ensures diagnosis { IfOk result (λ diagnostics. IsDiagnosisWith has_all (texts_of starts.now) text.now
        diagnostics.items) }
    ensures accepted { IfOk result (λ diagnostics.
        list_any is_error diagnostics.items ≡ false → HasAnswer text.now) }
{
    match open(alloc, text) {
        Ok(opened) => diagnose_accepted(alloc, text, &opened.rules.value, starts, has_all),
        Err(error) => diagnose_refusal(alloc, text, &error),
    }
}

/// The warnings of an accepted text with these rules, all of them or not.
fn diagnose_accepted(
    alloc: Global,
    text: &str,
    rules: &[ParserRule<'_>],
    starts: &[&str],
    has_all: bool,
) -> Result<Vec<Diagnostic>, AllocError>
    requires { IsSpelled text.now (rule_views rules.now) }
    ensures { IfOk result (λ diagnostics.
        ReportWarnings has_all (texts_of starts.now) text.now diagnostics.items) }
{
    let stated = stated_starts(alloc, text)?;
    let mut diagnostics = diagnose_starts(alloc, rules, &stated)?;
    let warnings = warn_from(alloc, text, rules, starts, &stated, has_all)?;
    let mut left = leave_out_allowed(alloc, text, rules, warnings)?;
    diagnostics.append(&mut left)?;
    Ok(diagnostics)
}

/// The warnings of rules that a text spells, all of them or not, if starts are also those that it states
/// itself.
fn warn_from(
    alloc: Global,
    text: &str,
    rules: &[ParserRule<'_>],
    starts: &[&str],
    stated: &[Fragment<'_>],
    has_all: bool,
) -> Result<Vec<Diagnostic>, AllocError>
    requires { IsSpelled text.now (rule_views rules.now) }
    ensures { IfOk result (λ diagnostics. ReportRules has_all
        (all_starts (texts_of starts.now) (names_of (map fragment_of stated.now))) text.now
        (rule_views rules.now) diagnostics.items) }
{
    let all = join_starts(alloc, starts, stated)?;
    warn_of(alloc, text, rules, &all, has_all)
}

/// Starts, and those that a text states itself. If it states some, `SOI` is among them, so that the first
/// rule is not taken for a start.
fn join_starts<'s>(
    alloc: Global,
    starts: &[&'s str],
    stated: &[Fragment<'s>],
) -> Result<Vec<&'s str>, AllocError>
    ensures { IfOk result (λ all. texts_of all.items
        ≡ all_starts (texts_of starts.now) (names_of (map fragment_of stated.now))) }
{
    let mut all = Vec::new(alloc);
    all.extend_from_slice(starts)?;
    if stated.is_empty() {
        return Ok(all);
    }
    for name in stated {
        all.push(name.text)?;
    }
    all.push(Builtin::Soi.name())?;
    Ok(all)
}

/// The warnings of rules that a text spells, all of them or not.
fn warn_of(
    alloc: Global,
    text: &str,
    rules: &[ParserRule<'_>],
    starts: &[&str],
    has_all: bool,
) -> Result<Vec<Diagnostic>, AllocError>
    requires { IsSpelled text.now (rule_views rules.now) }
    ensures { IfOk result (λ diagnostics. ReportRules has_all (texts_of starts.now) text.now
        (rule_views rules.now) diagnostics.items) }
{
    let mut diagnostics = warn_of_codes(alloc, rules, starts, has_all)?;
    let names = rewritten_lists(alloc, rules)?;
    let mut others = diagnose_lists(alloc, text, rules, &names)?;
    diagnostics.append(&mut others)?;
    Ok(diagnostics)
}

/// The warnings of rules with these names, in which pest runs a list otherwise than it is written.
fn diagnose_lists(
    alloc: Global,
    text: &str,
    rules: &[ParserRule<'_>],
    names: &[Span<'_>],
) -> Result<Vec<Diagnostic>, AllocError>
    requires { IsSpelled text.now (rule_views rules.now) }
    ensures { IfOk result (λ diagnostics. AllZip (λ name. ReportsList text.now (piece_of name)) names.now
        diagnostics.items) }
{
    if names.is_empty() {
        return Ok(Vec::new(alloc));
    }
    let comparer = comparer_of(alloc, text, rules)?;
    compare_lists(alloc, &comparer, rules, names)
}

/// The rules of a text in both forms, or in none if there are too many rules.
fn comparer_of<'t>(
    alloc: Global,
    text: &'t str,
    rules: &[ParserRule<'_>],
) -> Result<Comparer<'t>, AllocError>
    requires { IsSpelled text.now (rule_views rules.now) }
    ensures grammar { IfOk result (λ comparer. comparer.grammar.now ≡ text.entry.now) }
    ensures forms { IfOk result IsComparer }
{
    if rules.len() > MOST_RULES {
        return Ok(Comparer {
            grammar: text,
            forms: None,
        });
    }
    Comparer::new(alloc, text, rules)
}

/// The same warnings, with the rules of the text in both forms.
fn compare_lists(
    alloc: Global,
    comparer: &Comparer<'_>,
    rules: &[ParserRule<'_>],
    names: &[Span<'_>],
) -> Result<Vec<Diagnostic>, AllocError>
    requires { IsComparer comparer.now }
    ensures { IfOk result (λ diagnostics.
        AllZip (λ name. ReportsList comparer.now.grammar.now (piece_of name)) names.now diagnostics.items) }
{
    let mut diagnostics = Vec::new(alloc);
    for name in names {
        let notes = notes_of(alloc, comparer, rules, *name, diagnostics.len())?;
        let diagnostic = diagnose_list(alloc, *name, notes)?;
        diagnostics.push(diagnostic)?;
    }
    Ok(diagnostics)
}

/// The note for the warning of that number, of a rule with this name: a text on which the rule ends otherwise
/// as pest runs it. None if none is found, and after some warnings.
fn notes_of(
    alloc: Global,
    comparer: &Comparer<'_>,
    rules: &[ParserRule<'_>],
    name: Span<'_>,
    number: usize,
) -> Result<Vec<Related>, AllocError>
    requires { IsComparer comparer.now }
    ensures { IfOk result (λ notes.
        AreTrueNotes comparer.now.grammar.now (piece_of name.entry) notes.items) }
{
    let mut notes = Vec::new(alloc);
    if number >= MOST_NOTES {
        return Ok(notes);
    }
    let Some(message) = find_difference(alloc, comparer, name.as_str())? else {
        return Ok(notes);
    };
    let (start, end) = body_of(rules, name);
    notes.push(Related {
        start,
        end,
        message,
    })?;
    Ok(notes)
}

/// The bytes of the body of the rule whose name this is.
fn body_of(rules: &[ParserRule<'_>], name: Span<'_>) -> (usize, usize) {
    for rule in rules {
        if rule.span.start() == name.start() {
            return (rule.node.span.start(), rule.node.span.end());
        }
    }
    (name.start(), name.end())
}

/// A message about a text on which the rule of a name ends otherwise as pest runs it, if one is found.
fn find_difference(
    alloc: Global,
    comparer: &Comparer<'_>,
    rule: &str,
) -> Result<Option<String>, AllocError>
    requires { IsComparer comparer.now }
    ensures { IfOk result (λ found. IfSome found (λ message.
        ReportsDifference comparer.now.grammar.now (chars rule.now) (string_bytes message))) }
{
    match comparer.distinguishing_text(alloc, rule)? {
        Some(difference) => difference.message(alloc),
        None => Ok(None),
    }
}

/// The warnings of rules but for those of lists.
fn warn_of_codes(
    alloc: Global,
    rules: &[ParserRule<'_>],
    starts: &[&str],
    has_all: bool,
) -> Result<Vec<Diagnostic>, AllocError>
    ensures { IfOk result (λ diagnostics. AllZip ReportsWarning
        (chosen_warnings has_all (texts_of starts.now) (rule_views rules.now)) diagnostics.items) }
{
    if has_all {
        diagnose_all_rules(alloc, rules, starts)
    } else {
        diagnose_rules(alloc, rules, starts)
    }
}
