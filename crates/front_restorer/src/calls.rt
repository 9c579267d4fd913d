//! Flags of the rules that are called, and expressions that need no visit.
ghost use Rattle.std.specs.Prelude.{◌≡◌, [], Bool, true, false};
ghost use Rattle.base_language.specs.Language.Text.{Text};
ghost use Rattle.base_ast.specs.Optimized.{optimized_expression_of};
ghost use Rattle.front_restorer.specs.Changing.{changes_by, restored_by};
ghost use Rattle.base_graphs.specs.Least.{is_set_at};
ghost use Rattle.front_restorer.specs.Calls.{names_in, number_changes};

use base_ast::optimized::OptimizedExpr;
use base_graphs::is_set;

/// Reports whether the flag of the rule of a name is set.
pub(crate) fn is_flagged(flags: &[bool], rule: Option<usize>) -> bool
    ensures { result ≡ number_changes (is_set_at flags.now) rule }
{
    match rule {
        Some(rule) => is_set(flags, rule),
        None => false,
    }
}

/// Reports whether an expression has no operand, or is a wrapper, so that no name occurs in it, and it
/// stays as it is.
pub(crate) fn is_settled(expr: &OptimizedExpr) -> bool
    ensures names { result ≡ true → names_in (optimized_expression_of expr.now) ≡ [] }
    ensures quiet { result ≡ true → (p : Text → Bool)
        → changes_by p (optimized_expression_of expr.now) ≡ false }
    ensures stays { result ≡ true → (p : Text → Bool)
        → restored_by p (optimized_expression_of expr.now) ≡ optimized_expression_of expr.now }
{
    match expr {
        OptimizedExpr::Str(_) => true,
        OptimizedExpr::Insens(_) => true,
        OptimizedExpr::Range(_, _) => true,
        OptimizedExpr::PeekSlice(_, _) => true,
        OptimizedExpr::Skip(_) => true,
        OptimizedExpr::RestoreOnErr(_) => true,
        _ => false,
    }
}
