//! Callers of the maps of expressions, which show the use of their contracts.
ghost use Rattle.std.specs.Prelude.{◌≡◌, IfOk};
ghost use Rattle.base_ast.specs.Ast.{expression_of};
ghost use Rattle.base_ast.specs.Optimized.{optimized_expression_of};
ghost use Rattle.test_calling.specs.Caseless.{caseless};

use base_ast::ast::Expr;
use base_ast::optimized::OptimizedExpr;
use base_language::runtime::Fault;
use std::alloc::Global;

/// Makes literals ignore the case of ASCII letters, so that every `"a"` becomes `^"a"`.
pub fn without_case(alloc: Global, expr: Expr) -> Result<Expr, Fault>
    ensures { IfOk result (λ e. expression_of e ≡ caseless (expression_of expr)) }
{
    expr.map_top_down(alloc, |e| match e {
        Expr::Str(text) => Ok(Expr::Insens(text)),
        other => Ok(other),
    })
}

/// Returns the expression unchanged, by a map from the top down.
pub fn same_top_down(alloc: Global, expr: Expr) -> Result<Expr, Fault>
    ensures { IfOk result (λ e. expression_of e ≡ expression_of expr) }
{
    expr.map_top_down(alloc, |e| Ok(e))
}

/// Returns the expression unchanged, by a map from the bottom up.
pub fn same_bottom_up(alloc: Global, expr: Expr) -> Result<Expr, Fault>
    ensures { IfOk result (λ e. expression_of e ≡ expression_of expr) }
{
    expr.map_bottom_up(alloc, |e| Ok(e))
}

/// Returns the optimized expression unchanged, by a map from the top down.
pub fn same_optimized_top_down(alloc: Global, expr: OptimizedExpr) -> Result<OptimizedExpr, Fault>
    ensures { IfOk result (λ e. optimized_expression_of e ≡ optimized_expression_of expr) }
{
    expr.map_top_down(alloc, |e| Ok(e))
}

/// Returns the optimized expression unchanged, by a map from the bottom up.
pub fn same_optimized_bottom_up(alloc: Global, expr: OptimizedExpr) -> Result<OptimizedExpr, Fault>
    ensures { IfOk result (λ e. optimized_expression_of e ≡ optimized_expression_of expr) }
{
    expr.map_bottom_up(alloc, |e| Ok(e))
}
