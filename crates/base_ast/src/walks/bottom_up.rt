//! Maps that meet a node after its operands.
ghost use Rattle.std.specs.Prelude.{IfErr, IfOk};
ghost use Rattle.base_ast.specs.Maps.{MapsBottomUp, RefusesBottomUp};

use super::frames::open_node;
use super::{Onward, Tree};
use base_language::runtime::Fault;
use std::alloc::Global;

/// Applies `f` to the operands of each node, and then to the node with their results.
pub(crate) fn map_bottom_up<E: Tree, F: FnMut(E) -> Result<E, Fault> + Drop>(
    alloc: Global,
    expr: E,
    f: F,
) -> Result<E, Fault>
    requires { F.IsAlwaysCallable f }
    ensures mapped { IfOk result (MapsBottomUp E.says F.step f expr) }
    ensures refused { IfErr result (RefusesBottomUp E.says F.step f expr) }
{
    let mut f = f;
    let mut frames = Vec::new(alloc);
    let mut next = Onward::Next(expr);
    'along: loop {
        match next {
            Onward::Next(expr) => next = open_node(&mut frames, expr)?,
            Onward::Done(whole) => {
                let done = f(whole)?;
                match frames.pop() {
                    Some(frame) => next = frame.close(&mut frames, done)?,
                    None => return Ok(done),
                }
            }
        }
    }
}
