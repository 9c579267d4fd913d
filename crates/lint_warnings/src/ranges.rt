//! Ranges that match nothing.
ghost use Rattle.std.specs.Prelude.{◌≡◌};
ghost use Rattle.std.specs.Str.{chars};
ghost use Rattle.front_spanned.specs.Nodes.{view};
ghost use Rattle.lint_warnings.specs.Ranges as spec;

use front_spanned::{ParserExpr, ParserNode};

/// Whether a node is a range whose first bound is above its last.
pub(crate) fn is_reversed(node: &ParserNode<'_>) -> bool
    ensures { result ≡ spec.is_reversed (view node.now) }
{
    match &node.expr {
        ParserExpr::Range(first, last) => is_above(first.as_str(), last.as_str()),
        _ => false,
    }
}

/// Whether the first character of a text is above that of another.
fn is_above(first: &str, last: &str) -> bool
    ensures { result ≡ spec.is_above (chars first.now) (chars last.now) }
{
    match (first.chars().next(), last.chars().next()) {
        (Some(low), Some(high)) => high < low,
        _ => false,
    }
}
