//! Copies of trees, made iteratively.
ghost use Rattle.std.specs.Prelude.{◌≡◌, ◌*◌, IfOk, ⊤};
ghost use Rattle.base_ast.specs.Copying.{waits_of, with_operand};

use super::{Shape, Shaped};
use crate::deep::{Deep, Release};
use crate::rebuilt::{Rebuild, Step, rebuild_tree};
use std::alloc::{AllocError, Global};

/// Copies a tree. The only error is allocation failure.
pub fn copy_tree<T: Shaped + Release>(tree: &T) -> Result<T, AllocError>
    ensures { IfOk result (λ copy. T.says copy ≡ T.says tree.now) }
{
    match tree.shape()? {
        Shape::Leaf(copy) => Ok(copy),
        Shape::One(sign, operand) => Ok(T::enclose(sign, copy_box(operand)?)),
        Shape::Two(joint, left, right) => {
            let left = Deep {
                value: copy_box(left)?,
            };
            let right = copy_box(right)?;
            Ok(T::join(joint, left.into_inner(), right))
        }
    }
}

/// Copies a tree into a box of its own. The only error is allocation failure.
pub fn copy_box<T: Shaped + Release>(tree: &Box<T>) -> Result<Box<T>, AllocError>
    ensures { IfOk result (λ copy. T.says copy.value ≡ T.says tree.now.value) }
{
    let alloc = *Box::allocator(tree);
    let mut outside: Vec<Around<'_, T, T::Sign, T::Joint>> = Vec::new(alloc);
    let value = rebuild_tree(alloc, tree, &mut outside)?;
    Ok(Deep { value }.into_box(alloc)?.into_inner())
}

/// The context of an operand while it is copied.
enum Around<'a, T: Release, S: Drop, J: Drop> {
    Sign(S),
    /// The operand is the left one, and this the right one.
    First(J, &'a Box<T>),
    /// The operand is the right one, and this the copy of the left one.
    Second(J, Deep<Box<T>>),
}

impl<'a, T: Release, S: Drop, J: Drop> Drop for Around<'a, T, S, J> {
    fn drop(self) {
        match self {
            Around::Sign(sign) => drop(sign),
            Around::First(joint, _) => drop(joint),
            Around::Second(joint, left) => {
                drop(joint);
                drop(left);
            }
        }
    }
}

impl<'a, T: Shaped + Release> Rebuild for Around<'a, T, T::Sign, T::Joint> {
    type Source = &'a Box<T>;

    type Target = T;

    ghost Meaning = { T.Meaning };

    ghost says = { λ tree. T.says tree.now.value };

    ghost made = { λ tree. T.says tree };

    ghost fills = { λ around operand. with_operand T.says T.around T.between around operand };

    ghost is_right = { λ _. ⊤ };

    ghost is_ready = { λ _. ⊤ };

    ghost size = { λ tree. 4 * T.heaviness tree.now.value };

    ghost waits = { λ around. waits_of T.heaviness around };

    fn open(
        tree: &'a Box<T>,
    ) -> Result<Step<&'a Box<T>, Around<'a, T, T::Sign, T::Joint>, T>, AllocError> {
        match tree.shape()? {
            Shape::Leaf(copy) => Ok(Step::Made(copy)),
            Shape::One(sign, operand) => Ok(Step::Inside(Around::Sign(sign), operand)),
            Shape::Two(joint, left, right) => Ok(Step::Inside(Around::First(joint, right), left)),
        }
    }

    fn close(
        self,
        alloc: Global,
        copy: T,
    ) -> Result<Step<&'a Box<T>, Around<'a, T, T::Sign, T::Joint>, T>, AllocError> {
        let copy = Deep { value: copy }.into_box(alloc)?;
        match self {
            Around::Sign(sign) => Ok(Step::Made(T::enclose(sign, copy.into_inner()))),
            Around::First(joint, right) => Ok(Step::Inside(Around::Second(joint, copy), right)),
            Around::Second(joint, left) => {
                Ok(Step::Made(T::join(joint, left.into_inner(), copy.into_inner())))
            }
        }
    }
}
