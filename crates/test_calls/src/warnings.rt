//! Warnings that are definite.
ghost use Rattle.std.specs.Prelude.{◌≡◌, IfOk, map};
ghost use Rattle.front_spanned.specs.Nodes.{piece_of, rule_views};
ghost use Rattle.lint_warnings.specs.Choices.{unreachable_alternatives};
ghost use Rattle.lint_warnings.specs.Lists.{texts_of};
ghost use Rattle.lint_warnings.specs.Rules.{uncalled_rules};
ghost use Rattle.lint_warnings.specs.Suspects.{suspects};
ghost use Rattle.lint_warnings.specs.declared.suspects.Suspect.TheVariants as suspect;

use base_language::runtime::Span;
use front_spanned::ParserRule;
use std::alloc::{AllocError, Global};

/// Returns the alternatives that are never taken.
pub fn never_taken<'i>(alloc: Global, rules: &[ParserRule<'i>]) -> Result<Vec<Span<'i>>, AllocError>
    ensures { IfOk result (λ places.
        map piece_of places.items ≡ unreachable_alternatives (rule_views rules.now)) }
{
    lint_warnings::unreachable_alternatives(alloc, rules)
}

/// Returns the rules that no other rule calls, if rules of some names are starts.
pub fn never_called<'n, 'i>(
    alloc: Global,
    rules: &'n [ParserRule<'i>],
    starts: &'n [&'n str],
) -> Result<Vec<Span<'i>>, AllocError>
    ensures { IfOk result (λ places. map piece_of places.items
        ≡ uncalled_rules (texts_of starts.entry.now) (rule_views rules.entry.now)) }
{
    lint_warnings::uncalled_rules(alloc, rules, starts)
}

/// Returns the counts whose first number is above their last.
pub fn reversed_counts<'i>(
    alloc: Global,
    rules: &[ParserRule<'i>],
) -> Result<Vec<Span<'i>>, AllocError>
    ensures { IfOk result (λ places.
        map piece_of places.items ≡ suspects suspect.ReversedCount (rule_views rules.now)) }
{
    lint_warnings::suspect_spans(alloc, lint_warnings::Suspect::ReversedCount, rules)
}
