//! Traversals: a pass at each node of an expression, from the root down or from the leaves up.
//!
//! Both use the maps of expressions, which are iterative: neither width nor depth takes stack space.
ghost use Rattle.std.specs.Prelude.{◌≡◌, ◌≤◌, IfOk, Ok};
ghost use Rattle.std.specs.Bool.{OnTrue};
ghost use Rattle.base_language.specs.Language.Expression.{Expression};
ghost use Rattle.base_ast.specs.Ast.{expression_of};
ghost use Rattle.base_ast.specs.Operands.{count_of_nodes, operands};
ghost use Rattle.front_optimizer.specs.Children.{said_of};
ghost use Rattle.front_optimizer.specs.Traversals.{TopDown, BottomUp, AllStay};

use base_ast::ast::Expr;
use base_ast::deep::Deep;
use base_language::runtime::Fault;
use std::alloc::{AllocError, Global};

/// A pass over the nodes of an expression.
pub(crate) trait Pass {
    ghost gives: { Self → Expression → Expression → Type 0 };

    /// Reports whether a node stays.
    fn stays_at(&self, node: &Expr) -> bool
        ensures { OnTrue result (gives self.now (expression_of node.now) (expression_of node.now)) };
}

/// A pass from the root down, which makes no expression larger.
pub(crate) trait Shrink: Pass {
    fn shrink(&self, alloc: Global, expr: Expr) -> Result<Expr, AllocError>
        ensures gives { IfOk result (λ e. Self.gives self.now (expression_of expr) (expression_of e)) }
        ensures smaller { IfOk result
            (λ e. count_of_nodes (expression_of e) ≤ count_of_nodes (expression_of expr)) };
}

/// Runs `pass` at each node from the root down.
pub(crate) fn top_down<P: Shrink>(alloc: Global, pass: &P, expr: Expr) -> Result<Expr, AllocError>
    ensures { IfOk result (λ e. TopDown (P.gives pass.now) (expression_of expr) (expression_of e)) }
{
    let expr = Deep { value: expr };
    let is_done = all_stay(alloc, pass, &expr.value)?;
    let expr = expr.into_inner();
    if is_done {
        return Ok(expr);
    }
    let mapped = expr.map_top_down(alloc, |node| Ok(pass.shrink(alloc, node)?));
    only_memory(mapped)
}

/// A pass from the leaves up.
pub(crate) trait Finish: Pass {
    fn finish(&self, alloc: Global, expr: Expr) -> Result<Expr, AllocError>
        ensures { IfOk result (λ e. Self.gives self.now (expression_of expr) (expression_of e)) };
}

/// Runs `pass` at each node from the leaves up.
pub(crate) fn bottom_up<P: Finish>(alloc: Global, pass: &P, expr: Expr) -> Result<Expr, AllocError>
    ensures { IfOk result (λ e. BottomUp (P.gives pass.now) (expression_of expr) (expression_of e)) }
{
    let expr = Deep { value: expr };
    let is_done = all_stay(alloc, pass, &expr.value)?;
    let expr = expr.into_inner();
    if is_done {
        return Ok(expr);
    }
    let mapped = expr.map_bottom_up(alloc, |node| Ok(pass.finish(alloc, node)?));
    only_memory(mapped)
}

/// Reports whether every node stays, so that none needs to be rebuilt.
pub(crate) fn all_stay<P: Pass>(alloc: Global, pass: &P, expr: &Expr) -> Result<bool, AllocError>
    ensures { IfOk result (λ yes. OnTrue yes (AllStay (P.gives pass.now) (expression_of expr.now))) }
{
    let mut waiting = Vec::new(alloc);
    waiting.push(expr)?;
    'nodes: while let Some(node) = waiting.pop() {
        if !pass.stays_at(node) {
            return Ok(false);
        }
        match children_of(node) {
            Children::Nothing => {}
            Children::One(inner) => {
                waiting.push(inner)?;
            }
            Children::Two(left, right) => {
                waiting.push(right)?;
                waiting.push(left)?;
            }
        }
    }
    Ok(true)
}

/// The operands of an expression.
#[derive(Drop)]
pub(crate) enum Children<'a> {
    Nothing,
    One(&'a Expr),
    Two(&'a Expr, &'a Expr),
}

/// Returns the operands of an expression.
pub(crate) fn children_of<'a>(expr: &'a Expr) -> Children<'a>
    ensures { said_of result ≡ operands (expression_of expr.now) }
{
    match expr {
        Expr::PosPred(inner)
        | Expr::NegPred(inner)
        | Expr::Opt(inner)
        | Expr::Rep(inner)
        | Expr::RepOnce(inner)
        | Expr::RepExact(inner, _)
        | Expr::RepMin(inner, _)
        | Expr::RepMax(inner, _)
        | Expr::RepMinMax(inner, _, _)
        | Expr::Push(inner)
        | Expr::NodeTag(inner, _) => Children::One(&**inner),
        Expr::Seq(left, right) | Expr::Choice(left, right) => Children::Two(&**left, &**right),
        Expr::Str(_) | Expr::Insens(_) | Expr::Ident(_) => Children::Nothing,
        Expr::Range(_, _) | Expr::PeekSlice(_, _) => Children::Nothing,
        Expr::Skip(_) | Expr::PushLiteral(_) => Children::Nothing,
    }
}

// Unwraps the answer of a map whose closure has no fault but an allocation failure.
fn only_memory(mapped: Result<Expr, Fault>) -> Result<Expr, AllocError>
    ensures { IfOk result (λ e. mapped ≡ Ok e) }
{
    match mapped {
        Ok(expr) => Ok(expr),
        Err(_) => Err(AllocError),
    }
}
