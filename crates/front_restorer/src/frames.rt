//! Continuation frames of the iterative restorer, and its steps.
ghost use Rattle.std.specs.Prelude.{◌≡◌, ◌≤◌, ◌<◌, ◌+◌, [], Bool, IfOk, OnOk};
ghost use Rattle.base_language.specs.Language.Text.{Text};
ghost use Rattle.base_ast.specs.Optimized.{optimized_expression_of};
ghost use Rattle.front_restorer.specs.Frames.{flagged, flagged_by, is_wrapping, names_around, names_beside};
ghost use Rattle.front_restorer.specs.Frames.{names_left, names_to_meet, step_as, waits_around, waits_of};
ghost use Rattle.front_restorer.specs.Frames.{filled_in, with_operand, work_left, work_in, wrapped_if};
ghost use Rattle.front_restorer.specs.KnownChanges.{IsNext, ReadsOn, changes_stack};

use crate::changes::{Changes, is_next_changing};
use base_ast::deep::Deep;
use base_ast::optimized::OptimizedExpr;
use base_ast::rebuilt::Step;
use std::alloc::{AllocError, Global};
use std::mem;

/// A restored expression.
#[derive(Drop)]
pub struct RestoredExpr {
    pub expr: Deep<OptimizedExpr>,
    /// Whether the expression changes the stack.
    pub changes: bool,
}

/// A continuation frame of the restorer.
#[derive(Drop)]
pub struct RestorerFrame {
    pub sign: FrameOperator,
    /// The box from which the operand was taken, for the restored operand.
    pub room: Box<OptimizedExpr>,
}

/// The operator of a frame, with the other operand.
#[derive(Drop)]
pub enum FrameOperator {
    PosPred,
    NegPred,
    Opt,
    Rep,
    RepOnce,
    Push,
    NodeTag(String),
    /// The left side of a `~` or a `|` is being restored, and the right one waits.
    FirstOfSeq(Deep<Box<OptimizedExpr>>),
    FirstOfChoice(Deep<Box<OptimizedExpr>>),
    /// The right side of a `~` or a `|` is being restored, and the left one is: that of a `~` with
    /// whether it changes the stack, that of a `|` in its wrapper.
    SecondOfSeq(Deep<Box<OptimizedExpr>>, bool),
    SecondOfChoice(Deep<Box<OptimizedExpr>>),
}

impl FrameOperator {
    /// Reports whether an operand that changes the stack gets a wrapper there.
    fn is_wrapping(&self) -> bool
        ensures { result ≡ is_wrapping self.now }
    {
        match self {
            FrameOperator::Opt => true,
            FrameOperator::Rep => true,
            FrameOperator::RepOnce => true,
            FrameOperator::FirstOfChoice(_) => true,
            FrameOperator::SecondOfChoice(_) => true,
            _ => false,
        }
    }
}

/// Returns a placeholder for an expression that was taken out.
pub(crate) fn nothing() -> OptimizedExpr {
    OptimizedExpr::PeekSlice(0, None)
}

/// Puts a wrapper round an expression that changes the stack.
pub(crate) fn wrap(
    alloc: Global,
    expr: &mut Box<OptimizedExpr>,
    is_changing: bool,
) -> Result<(), AllocError>
    ensures { OnOk result (optimized_expression_of expr.new.value
        ≡ wrapped_if is_changing (optimized_expression_of expr.old.value)) }
{
    if is_changing {
        let wrapper = Box::new(alloc, nothing())?;
        let wrapped = mem::replace(expr, wrapper);
        drop(Box::replace(expr, OptimizedExpr::RestoreOnErr(wrapped)));
    }
    Ok(())
}

/// Puts an expression into a box that was made before.
fn put(room: Box<OptimizedExpr>, expr: OptimizedExpr) -> Box<OptimizedExpr>
    ensures { result.value ≡ expr }
{
    let mut room = room;
    drop(Box::replace(&mut room, expr));
    room
}

/// Returns a step with a restored expression.
fn made_step(expr: OptimizedExpr, changes: bool) -> Step<OptimizedExpr, RestorerFrame, RestoredExpr>
    ensures { result ≡ Step.Made (record { expr = record { value = expr }; changes = changes }) }
{
    let expr = Deep { value: expr };
    Step::Made(RestoredExpr { expr, changes })
}

/// Returns a step into an operand, which is taken out of its box.
fn enter_operand(
    sign: FrameOperator,
    operand: Box<OptimizedExpr>,
) -> Step<OptimizedExpr, RestorerFrame, RestoredExpr>
    ensures meaning { (p : Text → Bool)
        → step_as p result ≡ with_operand p sign (flagged_by p operand.value) }
    ensures names { names_left result ≡ names_beside sign (names_to_meet operand.value) }
    ensures work { work_left result ≡ 1 + (waits_of sign + work_in operand.value) }
{
    let mut room = operand;
    let operand = Box::replace(&mut room, nothing());
    Step::Inside(RestorerFrame { sign, room }, operand)
}

/// Restores an expression without operands, or enters its first operand. The rule of a name is read at
/// the index `place`, which then moves on.
pub(crate) fn open_expr(
    changes: &Changes,
    place: &mut usize,
    expr: OptimizedExpr,
) -> Step<OptimizedExpr, RestorerFrame, RestoredExpr>
    requires { IsNext changes.now (names_to_meet expr) place.old }
    ensures meaning { step_as (changes_stack changes.now) result
        ≡ flagged_by (changes_stack changes.now) expr }
    ensures reads { ReadsOn changes.now (names_to_meet expr) place.old (names_left result) place.new }
    ensures work { work_left result ≤ work_in expr }
{
    use OptimizedExpr as E;
    let (sign, operand) = match expr {
        E::PosPred(inner) => (FrameOperator::PosPred, inner),
        E::NegPred(inner) => (FrameOperator::NegPred, inner),
        E::Opt(inner) => (FrameOperator::Opt, inner),
        E::Rep(inner) => (FrameOperator::Rep, inner),
        E::RepOnce(inner) => (FrameOperator::RepOnce, inner),
        E::Push(inner) => (FrameOperator::Push, inner),
        E::NodeTag(inner, tag) => (FrameOperator::NodeTag(tag), inner),
        E::Seq(left, right) => (FrameOperator::FirstOfSeq(Deep { value: right }), left),
        E::Choice(left, right) => (FrameOperator::FirstOfChoice(Deep { value: right }), left),
        E::Ident(name) => {
            let is_changing = is_next_changing(changes, place, &name);
            return made_step(E::Ident(name), is_changing);
        }
        E::PushLiteral(text) => return made_step(E::PushLiteral(text), true),
        leaf => return made_step(leaf, false),
    };
    enter_operand(sign, operand)
}

/// Rebuilds the whole once its last operand is restored, or enters the next operand.
pub(crate) fn close_frame(
    alloc: Global,
    around: RestorerFrame,
    operand: RestoredExpr,
) -> Result<Step<OptimizedExpr, RestorerFrame, RestoredExpr>, AllocError>
    ensures meaning { IfOk result (λ step. (p : Text → Bool)
        → step_as p step ≡ filled_in p around (flagged operand)) }
    ensures names { IfOk result (λ step. names_left step ≡ names_around around []) }
    ensures work { IfOk result (λ step. work_left step < waits_around around) }
{
    use OptimizedExpr as E;
    let RestorerFrame { sign, room } = around;
    let RestoredExpr { expr, changes } = operand;
    let mut operand = Deep {
        value: put(room, expr.into_inner()),
    };
    wrap(alloc, &mut operand.value, sign.is_wrapping() && changes)?;
    let operand = operand.into_inner();
    let step = match sign {
        FrameOperator::PosPred => made_step(E::PosPred(operand), changes),
        FrameOperator::NegPred => made_step(E::NegPred(operand), changes),
        FrameOperator::Opt => made_step(E::Opt(operand), false),
        FrameOperator::Rep => made_step(E::Rep(operand), false),
        FrameOperator::RepOnce => made_step(E::RepOnce(operand), false),
        FrameOperator::Push => made_step(E::Push(operand), true),
        FrameOperator::NodeTag(tag) => made_step(E::NodeTag(operand, tag), changes),
        FrameOperator::FirstOfSeq(right) => {
            let sign = FrameOperator::SecondOfSeq(Deep { value: operand }, changes);
            enter_operand(sign, right.into_inner())
        }
        FrameOperator::FirstOfChoice(right) => {
            let sign = FrameOperator::SecondOfChoice(Deep { value: operand });
            enter_operand(sign, right.into_inner())
        }
        FrameOperator::SecondOfSeq(left, is_left_changing) => made_step(
            E::Seq(left.into_inner(), operand),
            is_left_changing || changes,
        ),
        FrameOperator::SecondOfChoice(left) => made_step(
            E::Choice(left.into_inner(), operand),
            false,
        ),
    };
    Ok(step)
}
