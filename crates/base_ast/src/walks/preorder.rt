//! The next expression of a walk.
ghost use Rattle.std.specs.Prelude.{◌≡◌, ◌<◌, ◌∷◌, [], length, IfOk, MatchOption, OnErr};
ghost use Rattle.base_ast.specs.TopDownIterators.{waiting};

use super::{Node, Tree};
use crate::deep::Deep;
use std::alloc::AllocError;

/// Pops an expression from a stack, pushes its operands, and returns a copy of it. After an error the
/// expression is lost.
pub(crate) fn take_first<E: Tree>(stack: &mut Deep<Vec<E>>) -> Result<Option<E>, AllocError>
    ensures given { IfOk result (λ given. MatchOption given
        ((waiting E.says stack.old.value.items ≡ []) × (waiting E.says stack.new.value.items ≡ []))
        (λ x. waiting E.says stack.old.value.items ≡ E.says x ∷ waiting E.says stack.new.value.items)) }
    ensures some { OnErr result (0 < length (waiting E.says stack.old.value.items)) }
{
    let Some(expr) = stack.value.pop() else {
        return Ok(None);
    };
    let expr = Deep { value: expr };
    let copy = Deep {
        value: expr.value.copy()?,
    };
    match expr.into_inner().open() {
        Node::Leaf(leaf) => leaf.release(),
        Node::One(sign, operand) => {
            drop(sign);
            stack.push(Deep {
                value: Box::into_inner(operand),
            })?;
        }
        Node::Two(joint, left, right) => {
            drop(joint);
            let left = Deep {
                value: Box::into_inner(left),
            };
            stack.push(Deep {
                value: Box::into_inner(right),
            })?;
            stack.push(left)?;
        }
    }
    Ok(Some(copy.into_inner()))
}
