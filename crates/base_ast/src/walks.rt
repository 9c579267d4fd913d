//! Maps and iterators of both types of expressions, each written once over trees that can be destructured
//! and rebuilt.
//!
//! A map keeps its continuation frames on an explicit stack, so nesting takes no stack space.
mod bottom_up;
mod frames;
mod preorder;
mod top_down;

ghost use Rattle.std.specs.Prelude.{◌≡◌, IfOk};
ghost use Rattle.base_language.specs.Language.Expression.{Expression};
ghost use Rattle.base_ast.specs.Frames.{Unary, around, joined, IsOpened};

use crate::deep::Release;
use crate::shape::Joint;
pub(crate) use bottom_up::map_bottom_up;
pub(crate) use preorder::take_first;
use std::alloc::AllocError;
pub(crate) use top_down::map_top_down;

/// A destructured expression.
#[derive(Drop)]
pub(crate) enum Node<E, S> {
    /// An expression without operands, or a wrapper.
    Leaf(E),
    One(S, Box<E>),
    Two(Joint, Box<E>, Box<E>),
}

/// A continuation frame of a map: the context of the operand that it visits, with the box from which the
/// operand was taken.
pub(crate) enum WalkFrame<E: Release, S: Drop> {
    Around(S, Box<E>),
    /// The operand is the left one, whose box comes first, and the right one is still to be met.
    Before(Joint, Box<E>, Box<E>),
    /// The operand is the right one, whose box comes last, and the left one is done.
    After(Joint, Box<E>, Box<E>),
}

impl<E: Release, S: Drop> Drop for WalkFrame<E, S> {
    fn drop(self) {
        match self {
            WalkFrame::Around(sign, operand) => {
                drop(sign);
                operand.release();
            }
            WalkFrame::Before(joint, left, right) | WalkFrame::After(joint, left, right) => {
                drop(joint);
                left.release();
                right.release();
            }
        }
    }
}

/// How a map goes on.
#[derive(Drop)]
pub(crate) enum Onward<E> {
    /// This is to be met next.
    Next(E),
    /// This expression and all in it are done.
    Done(E),
}

/// Expressions that can be destructured and rebuilt.
pub(crate) trait Tree: Release {
    /// Operators over one operand.
    type Sign: Drop;

    ghost says: { Self → Expression };

    ghost stands_for: { Self.Sign → Unary };

    /// Its sign and operands.
    fn open(self) -> Node<Self, Self::Sign>
        ensures { IsOpened says stands_for (says self) result };

    /// Rebuilds an expression from an operator and its operand.
    fn enclose(sign: Self::Sign, operand: Box<Self>) -> Self
        ensures { says result ≡ around (stands_for sign) (says operand.value) };

    /// Rebuilds an expression from an operator and its two operands.
    fn join(joint: Joint, left: Box<Self>, right: Box<Self>) -> Self
        ensures { says result ≡ joined joint (says left.value) (says right.value) };

    /// Takes an expression out of its box, and leaves one without operands there.
    fn take(place: &mut Box<Self>) -> Self
        ensures { result ≡ place.old.value };

    /// Copies the expression.
    fn copy(&self) -> Result<Self, AllocError>
        ensures { IfOk result (λ copy. says copy ≡ says self.now) };
}
