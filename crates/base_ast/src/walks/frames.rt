//! One step of a map: an expression is destructured, or rebuilt from its frame.
ghost use Rattle.std.specs.Prelude.{◌≡◌, ◌++◌, ◌∷◌, [], alloc_error, IfErr, IfOk, OnOk};
ghost use Rattle.base_ast.specs.Frames.{Closes, Opens};

use super::{Node, Onward, Tree, WalkFrame};
use crate::deep::{Deep, Release};
use base_language::runtime::Fault;

/// Returns the next node of a walk at an expression, and pushes a frame for its context. The only error is
/// allocation failure.
pub(crate) fn open_node<E: Tree>(
    frames: &mut Vec<WalkFrame<E, E::Sign>>,
    expr: E,
) -> Result<Onward<E>, Fault>
    ensures opens { IfOk result (λ next.
        Opens E.says E.stands_for (E.says expr) frames.old.items next frames.new.items) }
    ensures memory { IfErr result (λ fault. fault ≡ Fault.Memory alloc_error) }
{
    match expr.open() {
        Node::Leaf(leaf) => Ok(Onward::Done(leaf)),
        Node::One(sign, mut room) => {
            let operand = Deep {
                value: E::take(&mut room),
            };
            keep(frames, WalkFrame::Around(sign, room))?;
            Ok(Onward::Next(operand.into_inner()))
        }
        Node::Two(joint, mut room, right) => {
            let left = Deep {
                value: E::take(&mut room),
            };
            keep(frames, WalkFrame::Before(joint, room, right))?;
            Ok(Onward::Next(left.into_inner()))
        }
    }
}

impl<E: Tree> WalkFrame<E, E::Sign> {
    /// Returns the next node after an operand of this frame, which followed `frames`, is done. The only
    /// error is allocation failure.
    pub(crate) fn close(
        self,
        frames: &mut Vec<WalkFrame<E, E::Sign>>,
        done: E,
    ) -> Result<Onward<E>, Fault>
        ensures closes { IfOk result (λ next.
            Closes E.says E.stands_for frames.old.items done self next frames.new.items) }
        ensures memory { IfErr result (λ fault. fault ≡ Fault.Memory alloc_error) }
    {
        match self {
            WalkFrame::Around(sign, room) => Ok(Onward::Done(E::enclose(sign, fill(room, done)))),
            WalkFrame::After(joint, left, room) => {
                Ok(Onward::Done(E::join(joint, left, fill(room, done))))
            }
            WalkFrame::Before(joint, room, mut right) => {
                let next = Deep {
                    value: E::take(&mut right),
                };
                keep(frames, WalkFrame::After(joint, fill(room, done), right))?;
                Ok(Onward::Next(next.into_inner()))
            }
        }
    }
}

/// Puts an expression into a box from which one was taken.
fn fill<E: Drop>(room: Box<E>, expr: E) -> Box<E>
    ensures { result.value ≡ expr }
{
    let mut room = room;
    let _ = Box::replace(&mut room, expr);
    room
}

// Pushes a frame.
fn keep<E: Release, S: Drop>(
    frames: &mut Vec<WalkFrame<E, S>>,
    frame: WalkFrame<E, S>,
) -> Result<(), Fault>
    ensures kept { OnOk result (frames.new.items ≡ frames.old.items ++ (frame ∷ [])) }
    ensures memory { IfErr result (λ fault. fault ≡ Fault.Memory alloc_error) }
{
    Ok(frames.push(frame)?)
}
