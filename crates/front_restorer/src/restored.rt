//! The restoration of one expression: wrappers round operands that change the stack.
ghost use Rattle.std.specs.Prelude.{◌≡◌, ◌+◌, IfOk, OnOk, length};
ghost use Rattle.front_restorer.specs.Frames.{flagged, flagged_by};
ghost use Rattle.front_restorer.specs.Calls.{names_in};
ghost use Rattle.front_restorer.specs.Changing.{IsRightAbout, IsNoPair, restored_by, wrapped_by};
ghost use Rattle.front_restorer.specs.KnownChanges.{HasNumbersFrom, changes_stack};
ghost use Rattle.base_ast.specs.Optimized.{optimized_expression_of};

use crate::calls::is_settled;
use crate::changes::{Changes, is_next_changing};
use crate::frames::{RestoredExpr, close_frame, nothing, open_expr, wrap};
use base_ast::deep::Deep;
use base_ast::optimized::OptimizedExpr;
use base_ast::rebuilt::Step;
use std::alloc::{AllocError, Global};
use std::mem;

/// The number of levels that are restored recursively; deeper ones are restored iteratively.
pub(crate) const LEVELS: usize = 64;

/// Restores an expression in place. The rules of its names are listed from the index `place` on. No
/// node is rebuilt but for wrappers. At most `levels` levels recurse. Answers whether the expression then
/// changes the stack. Both sides of a `~` or a `|` are tested before one is restored, so that memory
/// gives both at once.
#[cycle(restored)]
pub(crate) fn restore(
    alloc: Global,
    changes: &Changes,
    place: &mut usize,
    levels: usize,
    expr: &mut OptimizedExpr,
) -> Result<bool, AllocError>
    requires noted { HasNumbersFrom changes.now (optimized_expression_of expr.old) place.old }
    ensures place { OnOk result
        (place.new ≡ place.old + length (names_in (optimized_expression_of expr.old))) }
    ensures told { IfOk result
        (λ yes. IsRightAbout (changes_stack changes.now) yes (optimized_expression_of expr.new)) }
    ensures made { OnOk result (optimized_expression_of expr.new
        ≡ restored_by (changes_stack changes.now) (optimized_expression_of expr.old)) }
{
    if levels == 0 {
        return restore_deep(alloc, changes, place, expr);
    }
    match expr {
        OptimizedExpr::Seq(left, right) => {
            let is_left_settled = is_settled(left);
            let is_right_settled = is_settled(right);
            let is_first_changing = !is_left_settled
                && restore(alloc, changes, place, levels - 1, left)?;
            let is_second_changing = !is_right_settled
                && restore(alloc, changes, place, levels - 1, right)?;
            Ok(is_first_changing || is_second_changing)
        }
        OptimizedExpr::Choice(left, right) => {
            let is_left_settled = is_settled(left);
            let is_right_settled = is_settled(right);
            if !is_left_settled {
                restore_wrapped(alloc, changes, place, levels - 1, left)?;
            }
            if !is_right_settled {
                restore_wrapped(alloc, changes, place, levels - 1, right)?;
            }
            Ok(false)
        }
        _ => restore_one(alloc, changes, place, levels - 1, expr),
    }
}

// Restores an operand, and puts a wrapper round it if it then changes the stack.
#[cycle(restored)]
fn restore_wrapped(
    alloc: Global,
    changes: &Changes,
    place: &mut usize,
    levels: usize,
    expr: &mut Box<OptimizedExpr>,
) -> Result<(), AllocError>
    requires noted { HasNumbersFrom changes.now (optimized_expression_of expr.old.value) place.old }
    ensures place { OnOk result
        (place.new ≡ place.old + length (names_in (optimized_expression_of expr.old.value))) }
    ensures made { OnOk result (optimized_expression_of expr.new.value
        ≡ wrapped_by (changes_stack changes.now)
        (restored_by (changes_stack changes.now) (optimized_expression_of expr.old.value))) }
{
    let is_changing = restore(alloc, changes, place, levels, expr)?;
    wrap(alloc, expr, is_changing)
}

// Restores a deeper expression.
fn restore_deep(
    alloc: Global,
    changes: &Changes,
    place: &mut usize,
    expr: &mut OptimizedExpr,
) -> Result<bool, AllocError>
    requires noted { HasNumbersFrom changes.now (optimized_expression_of expr.old) place.old }
    ensures place { OnOk result
        (place.new ≡ place.old + length (names_in (optimized_expression_of expr.old))) }
    ensures told { IfOk result
        (λ yes. IsRightAbout (changes_stack changes.now) yes (optimized_expression_of expr.new)) }
    ensures made { OnOk result (optimized_expression_of expr.new
        ≡ restored_by (changes_stack changes.now) (optimized_expression_of expr.old)) }
{
    let whole = mem::replace(expr, nothing());
    let RestoredExpr {
        expr: whole,
        changes: is_changing,
    } = restore_iteratively(alloc, changes, place, whole)?;
    *expr = whole.into_inner();
    Ok(is_changing)
}

// Restores an expression iteratively, with a list of frames.
fn restore_iteratively(
    alloc: Global,
    changes: &Changes,
    place: &mut usize,
    expr: OptimizedExpr,
) -> Result<RestoredExpr, AllocError>
    requires noted { HasNumbersFrom changes.now (optimized_expression_of expr) place.old }
    ensures place { OnOk result (place.new ≡ place.old + length (names_in (optimized_expression_of expr))) }
    ensures made { IfOk result (λ whole. flagged whole ≡ flagged_by (changes_stack changes.now) expr) }
{
    let mut outside = Vec::new(alloc);
    let mut step = open_expr(changes, place, expr);
    'steps: loop {
        match step {
            Step::Inside(around, operand) => {
                let operand = Deep { value: operand };
                outside.push(around)?;
                step = open_expr(changes, place, operand.into_inner());
            }
            Step::Made(whole) => match outside.pop() {
                Some(around) => step = close_frame(alloc, around, whole)?,
                None => return Ok(whole),
            },
        }
    }
}

// Restores an expression in place that is no `~` and no `|`. At most `levels` levels below it recurse.
#[cycle(restored)]
fn restore_one(
    alloc: Global,
    changes: &Changes,
    place: &mut usize,
    levels: usize,
    expr: &mut OptimizedExpr,
) -> Result<bool, AllocError>
    requires single { IsNoPair (optimized_expression_of expr.old) }
    requires noted { HasNumbersFrom changes.now (optimized_expression_of expr.old) place.old }
    ensures place { OnOk result
        (place.new ≡ place.old + length (names_in (optimized_expression_of expr.old))) }
    ensures told { IfOk result
        (λ yes. IsRightAbout (changes_stack changes.now) yes (optimized_expression_of expr.new)) }
    ensures made { OnOk result (optimized_expression_of expr.new
        ≡ restored_by (changes_stack changes.now) (optimized_expression_of expr.old)) }
{
    match expr {
        OptimizedExpr::Ident(name) => Ok(is_next_changing(changes, place, name)),
        OptimizedExpr::PosPred(inner) => Ok(restore(alloc, changes, place, levels, inner)?),
        OptimizedExpr::NegPred(inner) => Ok(restore(alloc, changes, place, levels, inner)?),
        OptimizedExpr::Push(inner) => {
            restore(alloc, changes, place, levels, inner)?;
            Ok(true)
        }
        OptimizedExpr::PushLiteral(_) => Ok(true),
        OptimizedExpr::NodeTag(inner, _) => Ok(restore(alloc, changes, place, levels, inner)?),
        OptimizedExpr::Opt(inner) => {
            restore_wrapped(alloc, changes, place, levels, inner)?;
            Ok(false)
        }
        OptimizedExpr::Rep(inner) => {
            restore_wrapped(alloc, changes, place, levels, inner)?;
            Ok(false)
        }
        OptimizedExpr::RepOnce(inner) => {
            restore_wrapped(alloc, changes, place, levels, inner)?;
            Ok(false)
        }
        _ => Ok(false),
    }
}
