//! Warnings of the linter that are about what a rule matches, by the rules in which they are.
ghost use Rattle.std.specs.Prelude.{◌≡◌, ◌<◌, ℕ, List, All, IfOk, OnOk, length, map};
ghost use Rattle.base_language.specs.Pieces.Saying.{Span as Piece, piece_of};
ghost use Rattle.doc_pages.specs.Warnings.{AllSaid, AreWarnings, HasAllWarnings, IsWarning, KeepsWarnings, Says, Warns};
ghost use Rattle.front_spanned.specs.Nodes.{rule_views};
ghost use Rattle.front_spanned.specs.Spanned.{SpannedRule};
ghost use Rattle.lint_findings.specs.declared.codes.Code.{Code as Kind};

use crate::source::RuleSource;
use base_language::runtime::Span;
use front_spanned::ParserRule;
use lint_findings::Code;
use lint_warnings::{Suspect, suspect_spans, unreachable_alternatives};
use std::alloc::{AllocError, Global};

/// A warning for a part of a rule.
#[derive(Clone, Copy)]
pub struct RuleWarning<'i> {
    /// Its code, which has its message.
    pub code: Code,
    /// The part that it is about.
    pub text: &'i str,
}

/// Finds for each rule its warnings: alternatives that are never taken, and ranges that match nothing. The
/// only error is an allocation failure.
pub fn find_warnings<'i>(
    alloc: Global,
    sources: &[RuleSource<'i>],
    rules: &[ParserRule<'i>],
) -> Result<Vec<Vec<RuleWarning<'i>>>, AllocError>
    ensures of_each_rule { IfOk result (λ lists. length lists.items ≡ length sources.now) }
    ensures definite { IfOk result (λ lists. AreWarnings (rule_views rules.now) lists.items) }
    ensures none_missing { IfOk result (λ lists. 0 < length sources.now
        → HasAllWarnings (rule_views rules.now) lists.items) }
{
    let unreachable = unreachable_alternatives(alloc, rules)?;
    let reversed = suspect_spans(alloc, Suspect::ReversedRange, rules)?;
    let mut warnings = no_warnings(alloc, sources.len())?;
    add_warnings(sources, Code::Unreachable, &unreachable, &mut warnings)?;
    add_warnings(sources, Code::ReversedRange, &reversed, &mut warnings)?;
    Ok(warnings)
}

/// No warnings for each of `count` rules.
fn no_warnings<'i>(alloc: Global, count: usize) -> Result<Vec<Vec<RuleWarning<'i>>>, AllocError>
    ensures of_each_rule { IfOk result (λ lists. length lists.items ≡ count) }
    ensures none { (rules : List SpannedRule) → IfOk result (λ lists. AreWarnings rules lists.items) }
{
    let mut warnings: Vec<Vec<RuleWarning<'i>>> = Vec::new(alloc);
    for _rule in 0..count {
        warnings.push(Vec::new(alloc))?;
    }
    Ok(warnings)
}

/// Adds a warning of a code for each of these parts, to the rule in which it is.
fn add_warnings<'i>(
    sources: &[RuleSource<'i>],
    code: Code,
    parts: &[Span<'i>],
    warnings: &mut Vec<Vec<RuleWarning<'i>>>,
) -> Result<(), AllocError>
    ensures alike { OnOk result (length warnings.new.items ≡ length warnings.old.items) }
    ensures definite { OnOk result ((rules : List SpannedRule)
        → AllSaid code (map piece_of parts.now) rules
        → AreWarnings rules warnings.old.items → AreWarnings rules warnings.new.items) }
    ensures kept { OnOk result (KeepsWarnings warnings.old.items warnings.new.items) }
    ensures added { OnOk result (0 < length sources.now → length warnings.old.items ≡ length sources.now
        → All (Warns warnings.new.items code) (map piece_of parts.now)) }
{
    for part in parts {
        let start = part.start();
        let after = sources.partition_point(|rule| rule.start <= start);
        let warning = RuleWarning {
            code,
            text: part.as_str(),
        };
        add_warning(after.saturating_sub(1), warning, warnings)?;
    }
    Ok(())
}

/// Adds a warning to those of the rule of a number, if there is one.
fn add_warning<'i>(
    rule: usize,
    warning: RuleWarning<'i>,
    warnings: &mut Vec<Vec<RuleWarning<'i>>>,
) -> Result<(), AllocError>
    ensures alike { OnOk result (length warnings.new.items ≡ length warnings.old.items) }
    ensures definite { OnOk result ((rules : List SpannedRule) → IsWarning rules warning.entry
        → AreWarnings rules warnings.old.items → AreWarnings rules warnings.new.items) }
    ensures kept { OnOk result (KeepsWarnings warnings.old.items warnings.new.items) }
    ensures added { OnOk result (rule < length warnings.old.items → (kind : Kind) (piece : Piece)
        → Says kind piece warning.entry → Warns warnings.new.items kind piece) }
{
    if let Some(others) = warnings.get_mut(rule) {
        others.push(warning)?;
    }
    Ok(())
}
