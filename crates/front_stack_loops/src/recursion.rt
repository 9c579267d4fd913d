//! Recursive rules, and ranks by which the calls of the others come to an end.
ghost use Rattle.std.specs.Prelude.{◌≡◌, ◌↔◌, ◌<◌, ◌≤◌, ℕ, IfOk, Some, true, length, slice_get};
ghost use Rattle.front_stack_loops.specs.Leading.{AreCalls, AreRaised, AreRanked, CallFalls, IsRanked, LeadsBack, PartsFall, bit, rank_in};
ghost use Rattle.front_stack_loops.specs.Table.{called_by, parts_of};

use crate::facts::{Question, answers, is_root_set};
use crate::groups::recursive_by;
use crate::owners::links_of;
use crate::table::{Parts, PassNode};
use base_graphs::{find_components, is_set};
use std::alloc::{AllocError, Global};

/// Recursive rules and the ranks of nodes.
#[derive(Drop)]
pub struct Calls {
    /// For each rule whether it reaches itself.
    pub recursive: Vec<bool>,
    /// For each node a number: not below those of its operands, and above that of a body that it calls, if
    /// the rule that is called doesn't reach itself.
    pub ranks: Vec<usize>,
}

/// Returns the rank of a node.
fn rank_of(ranks: &[usize], node: usize) -> usize
    ensures { result ≡ rank_in ranks.now node }
{
    match ranks.get(node) {
        Some(rank) => *rank,
        None => 0,
    }
}

/// Whether the operands of a node have no higher rank.
fn parts_fall(ranks: &[usize], node: usize, parts: Parts) -> bool
    ensures { result ≡ true → PartsFall ranks.now node parts }
{
    let own = rank_of(ranks, node);
    match parts {
        Parts::Nothing => true,
        Parts::Inside(body, _, _, _) => rank_of(ranks, body) <= own,
        Parts::Both(first, second, _) => {
            rank_of(ranks, first) <= own && rank_of(ranks, second) <= own
        }
    }
}

/// Whether the body of a rule that is called at a node has no higher rank, and a lower one if the call is
/// followed.
fn call_falls(
    roots: &[usize],
    recursive: &[bool],
    ranks: &[usize],
    node: usize,
    callee: Option<usize>,
) -> bool
    ensures { result ≡ true → CallFalls roots.now recursive.now ranks.now node callee }
{
    let Some(rule) = callee else {
        return true;
    };
    let Some(body) = roots.get(rule) else {
        return true;
    };
    let own = rank_of(ranks, node);
    let below = rank_of(ranks, *body);
    below < own || (below == own && is_set(recursive, rule))
}

/// Whether a node fits into the order of ranks.
fn is_ranked<'n, 'i>(
    roots: &[usize],
    recursive: &[bool],
    ranks: &[usize],
    place: usize,
    node: PassNode<'n, 'i>,
) -> bool
    ensures { result ≡ true → IsRanked roots.now recursive.now ranks.now place node.entry }
{
    rank_of(ranks, place) <= roots.len()
        && parts_fall(ranks, place, node.kind.parts())
        && call_falls(roots, recursive, ranks, place, node.kind.called_rule())
}

/// Whether all nodes do.
fn are_ranked<'n, 'i>(
    roots: &[usize],
    nodes: &[PassNode<'n, 'i>],
    recursive: &[bool],
    ranks: &[usize],
) -> bool
    ensures { result ≡ true → AreRanked nodes.now roots.now recursive.now ranks.now }
{
    for place in 0..nodes.len() {
        if !is_ranked(roots, recursive, ranks, place, nodes[place]) {
            return false;
        }
    }
    true
}

fn bit(flag: bool) -> usize
    ensures value { result ≡ bit flag }
    ensures small { result ≤ 1 }
{
    if flag { 1 } else { 0 }
}

/// Returns the ranks, each raised by one if its flag is set.
fn raise_ranks(
    alloc: Global,
    ranks: &[usize],
    flags: &[bool],
    most: usize,
) -> Result<Vec<usize>, AllocError>
    requires alike { length ranks.now ≡ length flags.now }
    requires low { (i : ℕ) → rank_in ranks.now i ≤ most }
    requires small { most < 18446744073709551615 }
    ensures { IfOk result (λ found. AreRaised ranks.now flags.now found.items) }
{
    let mut found = Vec::new(alloc);
    for place in 0..flags.len() {
        let rank = rank_of(ranks, place);
        let more = bit(is_set(flags, place));
        found.push(rank + more)?;
    }
    Ok(found)
}

/// Returns the calls of all rules, by a search for each rule from every node: the rank of a node is the
/// number of rules that it leads to.
fn search_calls<'n, 'i>(
    alloc: Global,
    roots: &[usize],
    nodes: &[PassNode<'n, 'i>],
) -> Result<Calls, AllocError>
    ensures { IfOk result (λ calls. AreCalls nodes.now roots.now calls.recursive.items calls.ranks.items) }
{
    let mut recursive = Vec::new(alloc);
    let mut ranks = vec![in alloc; 0; nodes.len()]?;
    for rule in 0..roots.len() {
        let flags = answers(alloc, Question::LeadsTo(rule), roots, nodes)?;
        recursive.push(is_root_set(roots, flags.as_slice(), rule))?;
        ranks = raise_ranks(alloc, ranks.as_slice(), flags.as_slice(), rule)?;
    }
    Ok(Calls { recursive, ranks })
}

/// Returns for each node the rank of its rule.
fn ranks_of_nodes<'n, 'i>(
    alloc: Global,
    nodes: &[PassNode<'n, 'i>],
    ranks: &[usize],
) -> Result<Vec<usize>, AllocError> {
    let mut found = Vec::with_capacity(alloc, nodes.len())?;
    for node in nodes {
        found.push(rank_of(ranks, node.rule))?;
    }
    Ok(found)
}

/// Returns which rules reach themselves, and the ranks of nodes. Components of the call graph give the
/// rules that certainly do; the ranks certify that no other does. If the certificate is refused, each rule
/// is searched for by itself, which takes far longer.
pub(crate) fn calls_of<'n, 'i>(
    alloc: Global,
    roots: &[usize],
    nodes: &[PassNode<'n, 'i>],
) -> Result<Calls, AllocError>
    ensures { IfOk result (λ calls. AreCalls nodes.now roots.now calls.recursive.items calls.ranks.items) }
{
    let links = links_of(alloc, roots, nodes)?;
    let groups = find_components(alloc, links.as_slice(), roots.len())?;
    let recursive = recursive_by(alloc, roots, nodes, links.as_slice(), &groups)?;
    let ranks = ranks_of_nodes(alloc, nodes, groups.ranks.as_slice())?;
    if are_ranked(roots, nodes, recursive.as_slice(), ranks.as_slice()) {
        return Ok(Calls { recursive, ranks });
    }
    search_calls(alloc, roots, nodes)
}
