//! Maps that meet a node before its operands.
ghost use Rattle.std.specs.Prelude.{IfErr, IfOk};
ghost use Rattle.base_ast.specs.Maps.{MapsTopDown, RefusesTopDown, NeverGrows};

use super::frames::open_node;
use super::{Onward, Tree};
use base_language::runtime::Fault;
use std::alloc::Global;

/// Applies `f` to each node, and then to the operands of its answer.
pub(crate) fn map_top_down<E: Tree, F: FnMut(E) -> Result<E, Fault> + Drop>(
    alloc: Global,
    expr: E,
    f: F,
) -> Result<E, Fault>
    requires callable { F.IsAlwaysCallable f }
    requires smaller { NeverGrows E.says F.step }
    ensures mapped { IfOk result (MapsTopDown E.says F.step f expr) }
    ensures refused { IfErr result (RefusesTopDown E.says F.step f expr) }
{
    let mut f = f;
    let mut frames = Vec::new(alloc);
    let mut next = Onward::Next(expr);
    'along: loop {
        match next {
            Onward::Next(expr) => next = open_node(&mut frames, f(expr)?)?,
            Onward::Done(done) => match frames.pop() {
                Some(frame) => next = frame.close(&mut frames, done)?,
                None => return Ok(done),
            },
        }
    }
}
