//! Nodes in which something may be reported. Nearly every endless repetition takes something from every
//! stack, and there no stack needs to be looked at.
ghost use Rattle.std.specs.Prelude.{◌≡◌, ℕ, IfOk, Some, false, ◌||◌, slice_get};
ghost use Rattle.base_graphs.specs.Least.{is_set_at};
ghost use Rattle.front_stack_loops.specs.Answers.{some_part};
ghost use Rattle.front_stack_loops.specs.Reportable as spec;
ghost use Rattle.front_stack_loops.specs.Reportable.{AreInPostorder, AreReportable, AreLoopFlags};

use crate::facts::{Question, answers, is_part_set, is_root_set};
use crate::table::{Parts, PassNode};
use base_graphs::is_set;
use std::alloc::{AllocError, Global};

/// Whether a node repeats without end a body that may be read as taking nothing.
fn may_loop(still: &[bool], parts: Parts) -> bool
    ensures { result ≡ spec.may_loop (is_set_at still.now) parts }
{
    match parts {
        Parts::Nothing => false,
        Parts::Inside(body, _, _, endless) => endless && is_set(still, body),
        Parts::Both(_, _, _) => false,
    }
}

/// Whether a node is such a repetition, or has one inside by the flags of its operands.
fn has_loop(still: &[bool], flags: &[bool], parts: Parts) -> bool
    ensures { result ≡ (spec.may_loop (is_set_at still.now) parts || some_part (is_set_at flags.now) parts) }
{
    may_loop(still, parts) || is_part_set(flags, parts)
}

/// Returns which nodes are such repetitions, or have one inside.
fn with_loops<'n, 'i>(
    alloc: Global,
    nodes: &[PassNode<'n, 'i>],
    still: &[bool],
) -> Result<Vec<bool>, AllocError>
    requires { AreInPostorder nodes.now }
    ensures { IfOk result (λ flags. AreLoopFlags nodes.now still.now flags.items) }
{
    let mut flags = Vec::with_capacity(alloc, nodes.len())?;
    for place in 0..nodes.len() {
        let parts = nodes[place].kind.parts();
        let flag = has_loop(still, flags.as_slice(), parts);
        flags.push(flag)?;
    }
    Ok(flags)
}

/// Returns in which nodes something may be reported.
pub(crate) fn reportable_nodes<'n, 'i>(
    alloc: Global,
    roots: &[usize],
    nodes: &[PassNode<'n, 'i>],
) -> Result<Vec<bool>, AllocError>
    requires { AreInPostorder nodes.now }
    ensures { IfOk result (λ flags. AreReportable nodes.now roots.now flags.items) }
{
    let still = answers(alloc, Question::MayBeStill, roots, nodes)?;
    with_loops(alloc, nodes, still.as_slice())
}

/// Whether the flag of some body is set.
pub(crate) fn is_some_root_set(roots: &[usize], flags: &[bool]) -> bool
    ensures { result ≡ false → (r i : ℕ) → slice_get roots.now r ≡ Some i → is_set_at flags.now i ≡ false }
{
    for rule in 0..roots.len() {
        if is_root_set(roots, flags, rule) {
            return true;
        }
    }
    false
}
