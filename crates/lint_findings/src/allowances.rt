//! Comments that allow warnings.
ghost use Rattle.std.specs.Prelude.{◌≡◌, ◌∷◌, ◌++◌, [], ◌-◌, ◌<◌, ◌≤◌, IfOk, OnOk};
ghost use Rattle.std.specs.Prelude.{bytes_eq, filter, length, map, true};
ghost use Rattle.std.specs.List.{AllZip, suffix_len};
ghost use Rattle.lint_findings.specs.Allowances as spec;
ghost use Rattle.lint_findings.specs.Allowances.{ArePartsOf, LeavesOutAllowed, WarnsOf};
ghost use Rattle.lint_findings.specs.Fragments.{fragment_of, parts_at};
ghost use Rattle.lint_findings.specs.Starts.{is_comment};
ghost use Rattle.front_spanned.specs.Nodes.{rule_view, rule_views};

use crate::codes::Code;
use crate::diagnostic::Diagnostic;
use crate::facts::all_facts;
use crate::fragments::Fragment;
use crate::helps::allowance_help;
use crate::starts::is_comment;
use front_spanned::ParserRule;
use std::alloc::{AllocError, Global};

/// How a comment that allows warnings begins.
const PREFIX: &str = "// pest-lint:";

/// The most comments of a text that count.
const MOST_ALLOWANCES: usize = 256;

/// A comment that allows warnings of a code in the rule below it. Positions are bytes.
#[derive(Clone, Copy)]
pub struct Allowance {
    /// The code that the comment names, or `None` if no code has this name.
    pub code: Option<Code>,
    /// The byte at which the comment begins.
    pub start: usize,
    /// The byte after the comment.
    pub end: usize,
    /// The byte at which the name of the rule begins.
    pub first: usize,
    /// The byte after the body of the rule.
    pub last: usize,
}

/// Returns `diagnostics` without the warnings that comments in `text` allow. For each such comment
/// that allows nothing, one warning is added. `rules` are the rules of `text`.
///
/// A comment `// pest-lint: allow(CODE)` allows the warnings of the code that begin in the rule
/// below it. The comment must be one of the lines that begin with `//` directly above the line of
/// the rule's name. The first 256 such comments of a text count. A further one is reported as a
/// comment that allows nothing.
///
/// # Errors
/// `AllocError` if an allocation fails.
pub fn leave_out_allowed(
    alloc: Global,
    text: &str,
    rules: &[ParserRule<'_>],
    diagnostics: Vec<Diagnostic>,
) -> Result<Vec<Diagnostic>, AllocError>
    ensures { IfOk result (λ left. ArePartsOf text.now (rule_views rules.now)
        → LeavesOutAllowed text.now (rule_views rules.now) diagnostics.items left.items) }
{
    let allowances = find_allowances(alloc, text, rules)?;
    let (counted, others) = allowances.split_at(allowances.len().min(MOST_ALLOWANCES));
    let useless = unused_among(alloc, counted, &diagnostics)?;
    let mut warnings = warn_of(alloc, &useless, true)?;
    warnings.append(&mut warn_of(alloc, others, false)?)?;
    let mut left = diagnostics;
    retain_others(counted, &mut left);
    left.append(&mut warnings)?;
    Ok(left)
}

/// The allowances in a text of these rules, in order.
fn find_allowances(
    alloc: Global,
    text: &str,
    rules: &[ParserRule<'_>],
) -> Result<Vec<Allowance>, AllocError>
    ensures { IfOk result (λ found. ArePartsOf text.now (rule_views rules.now)
        → found.items ≡ spec.allowances_in text.now (rule_views rules.now)) }
{
    let mut found = Vec::new(alloc);
    let mut from = 0;
    for rule in rules {
        let gap = Fragment::between(text, from, rule.span.start());
        add_allowances(alloc, gap, rule, &mut found)?;
        from = rule.node.span.end();
    }
    Ok(found)
}

/// Adds what the comments right above a rule allow, which are in the text before its name.
fn add_allowances(
    alloc: Global,
    gap: Fragment<'_>,
    rule: &ParserRule<'_>,
    found: &mut Vec<Allowance>,
) -> Result<(), AllocError>
    ensures { OnOk result (found.new.items ≡ found.old.items ++ map (spec.allowance_of (rule_view rule.now))
        (filter spec.is_allowance (spec.comments_above (parts_at 10 (fragment_of gap.entry))))) }
{
    let lines = gap.split(alloc, '\n')?;
    for comment in comments_above(&lines) {
        add_allowance(alloc, *comment, rule, found)?;
    }
    Ok(())
}

/// Adds what a comment above a rule allows, if it is one that allows warnings.
fn add_allowance(
    alloc: Global,
    comment: Fragment<'_>,
    rule: &ParserRule<'_>,
    found: &mut Vec<Allowance>,
) -> Result<(), AllocError>
    ensures { OnOk result (found.new.items ≡ found.old.items ++ map (spec.allowance_of (rule_view rule.now))
        (filter spec.is_allowance (fragment_of comment.entry ∷ []))) }
{
    if !is_allowance(comment) {
        return Ok(());
    }
    let allowance = allowance_of(alloc, comment, rule)?;
    found.push(allowance)?;
    Ok(())
}

/// Whether a comment is one that allows warnings.
fn is_allowance(comment: Fragment<'_>) -> bool
    ensures { result ≡ spec.is_allowance (fragment_of comment.entry) }
{
    comment.text.starts_with(PREFIX)
}

/// The comments right above the last of some lines, which has nothing before a rule's name.
fn comments_above<'l, 't>(lines: &'l [Fragment<'t>]) -> &'l [Fragment<'t>]
    ensures { map fragment_of result.now ≡ spec.comments_above (map fragment_of lines.entry.now) }
{
    if !has_blank_end(lines) {
        return &lines[..0];
    }
    let above = &lines[..lines.len() - 1];
    &above[first_of_comments(above)..]
}

/// Whether the last of some lines is blank.
fn has_blank_end(lines: &[Fragment<'_>]) -> bool
    ensures within { result ≡ true → 0 < length lines.now }
    ensures blank { result ≡ spec.has_blank_end (map fragment_of lines.now) }
{
    match lines.last() {
        Some(line) => line.text.is_empty(),
        None => false,
    }
}

/// The index of the first of the comments at the end of `lines`.
fn first_of_comments(lines: &[Fragment<'_>]) -> usize
    ensures within { result ≤ length lines.now }
    ensures first { result ≡ length lines.now - suffix_len is_comment (map fragment_of lines.now) }
{
    let mut first = lines.len();
    while first > 0 && is_comment(lines[first - 1]) {
        first -= 1;
    }
    first
}

/// The allowance that a comment above a rule is.
fn allowance_of(
    alloc: Global,
    comment: Fragment<'_>,
    rule: &ParserRule<'_>,
) -> Result<Allowance, AllocError>
    ensures { IfOk result (λ allowance.
        allowance ≡ spec.allowance_of (rule_view rule.now) (fragment_of comment.entry)) }
{
    Ok(Allowance {
        code: code_in(alloc, comment.text)?,
        start: comment.start,
        end: comment.end,
        first: rule.span.start(),
        last: rule.node.span.end(),
    })
}

/// The code that a comment allows, if it is such a comment.
fn code_in(alloc: Global, comment: &str) -> Result<Option<Code>, AllocError>
    ensures { IfOk result (λ answer. answer ≡ spec.code_in comment.now) }
{
    for facts in all_facts() {
        if is_comment_of(alloc, comment, facts.code)? {
            return Ok(Some(facts.code));
        }
    }
    Ok(None)
}

/// Whether a comment is the one that allows a code.
fn is_comment_of(alloc: Global, comment: &str, code: Code) -> Result<bool, AllocError>
    ensures { IfOk result (λ answer. answer ≡ bytes_eq comment.now (spec.comment_of code)) }
{
    let name = code.name();
    let expected = format!(in alloc; "// pest-lint: allow({name})")?;
    Ok(comment == expected.as_str())
}

/// The allowances that allow none of these diagnostics.
fn unused_among(
    alloc: Global,
    allowances: &[Allowance],
    diagnostics: &[Diagnostic],
) -> Result<Vec<Allowance>, AllocError>
    ensures { IfOk result (λ found.
        found.items ≡ filter (spec.is_unused diagnostics.now) allowances.now) }
{
    allowances
        .iter()
        .copied()
        .filter(|allowance| is_unused(diagnostics, *allowance))
        .collect(alloc)
}

/// Whether an allowance allows none of these diagnostics, and its code is not one that is reported only if it
/// is asked for.
fn is_unused(diagnostics: &[Diagnostic], allowance: Allowance) -> bool
    ensures { result ≡ spec.is_unused diagnostics.now allowance }
{
    !is_of_option(allowance) && !is_used(diagnostics, allowance)
}

/// Whether an allowance allows one of these diagnostics.
fn is_used(diagnostics: &[Diagnostic], allowance: Allowance) -> bool
    ensures { result ≡ spec.is_used diagnostics.now allowance }
{
    diagnostics
        .iter()
        .any(|diagnostic| is_allowed_by(diagnostic, allowance))
}

/// Whether the code of an allowance is reported only if it is asked for.
fn is_of_option(allowance: Allowance) -> bool
    ensures { result ≡ spec.is_of_option allowance.code }
{
    match allowance.code {
        Some(code) => code.is_optional(),
        None => false,
    }
}

/// Whether an allowance allows a diagnostic.
fn is_allowed_by(diagnostic: &Diagnostic, allowance: Allowance) -> bool
    ensures { result ≡ spec.allows diagnostic.now allowance }
{
    let has_code = match allowance.code {
        Some(code) => code.name() == diagnostic.code.name(),
        None => false,
    };
    has_code && allowance.first <= diagnostic.start && diagnostic.start < allowance.last
}

/// Whether one of these allowances allows a diagnostic.
fn is_allowed(allowances: &[Allowance], diagnostic: &Diagnostic) -> bool
    ensures { result ≡ spec.is_allowed allowances.now diagnostic.now }
{
    allowances
        .iter()
        .any(|allowance| is_allowed_by(diagnostic, *allowance))
}

/// Removes the diagnostics that one of these allowances allows.
fn retain_others(allowances: &[Allowance], diagnostics: &mut Vec<Diagnostic>)
    ensures { diagnostics.new.items ≡ filter (spec.is_left allowances.now) diagnostics.old.items }
{
    diagnostics.retain(|diagnostic| !is_allowed(allowances, diagnostic));
}

/// The warnings of allowances that allow nothing, or that do not count.
fn warn_of(
    alloc: Global,
    allowances: &[Allowance],
    are_counted: bool,
) -> Result<Vec<Diagnostic>, AllocError>
    ensures { IfOk result (λ warnings. AllZip WarnsOf allowances.now warnings.items) }
{
    let mut warnings = Vec::new(alloc);
    for allowance in allowances {
        let warning = warning_of(alloc, *allowance, are_counted)?;
        warnings.push(warning)?;
    }
    Ok(warnings)
}

/// The warning of such an allowance.
fn warning_of(
    alloc: Global,
    allowance: Allowance,
    is_counted: bool,
) -> Result<Diagnostic, AllocError>
    ensures { IfOk result (WarnsOf allowance) }
{
    let code = Code::UnusedAllowance;
    let message = code.message();
    let mut warning = Diagnostic::new(alloc, code, allowance.start, allowance.end, message)?;
    warning.help = allowance_help(alloc, allowance.code, is_counted)?;
    Ok(warning)
}
