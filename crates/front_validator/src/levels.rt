//! Levels of nodes: the strongly connected components of a relation between nodes. A node's level is at
//! least those of the nodes to which it leads, and nodes that lead to each other share one. A linear pass
//! checks the levels as a certificate.
ghost use Rattle.std.specs.Prelude.{◌≡◌, ◌≤◌, IfOk, true};
ghost use Rattle.front_validator.specs.Cycles.{NoneRises, rank_at};
ghost use Rattle.front_validator.specs.Levels.{AllRest, IsRootWithin, Rests};

use crate::cycles::{none_rises, number_at};
use crate::relations::{Relation, links_of};
use base_graphs::{Components, find_components, is_set};
use front_analysis::{Facts, NodeKind};
use std::alloc::{AllocError, Global};

/// Computes a level for each node. Nothing is promised of them.
fn search_levels(
    alloc: Global,
    facts: &Facts,
    relation: Relation,
) -> Result<Vec<usize>, AllocError> {
    let links = links_of(alloc, facts, relation)?;
    let components = find_components(alloc, links.as_slice(), facts.table.kinds.len())?;
    let Components { ranks, .. } = components;
    Ok(ranks)
}

fn is_within(levels: &[usize], low: usize, high: usize) -> bool
    ensures { result ≡ true → rank_at levels.now low ≤ rank_at levels.now high }
{
    number_at(levels, low) <= number_at(levels, high)
}

fn is_root_within(facts: &Facts, levels: &[usize], rule: usize, high: usize) -> bool
    ensures { result ≡ true → IsRootWithin facts.now levels.now rule high }
{
    match facts.table.roots.get(rule) {
        Some(root) => !is_set(facts.nullable.as_slice(), *root) || is_within(levels, *root, high),
        None => true,
    }
}

/// Reports whether the nodes that decide whether a node may take nothing have no higher level.
fn rests(facts: &Facts, levels: &[usize], node: usize, kind: NodeKind) -> bool
    ensures { result ≡ true → Rests facts.now levels.now node kind }
{
    match kind {
        NodeKind::Call(rule) => is_root_within(facts, levels, rule, node),
        NodeKind::Inside(body) | NodeKind::OnceAgain(body) => is_within(levels, body, node),
        NodeKind::Seq(first, second) | NodeKind::Choice(first, second) => {
            is_within(levels, first, node) && is_within(levels, second, node)
        }
        _ => true,
    }
}

/// Reports whether all nodes are so.
fn all_rest(facts: &Facts, levels: &[usize]) -> bool
    ensures { result ≡ true → AllRest facts.now levels.now }
{
    for node in 0..facts.table.kinds.len() {
        if !rests(facts, levels, node, facts.table.kind_at(node)) {
            return false;
        }
    }
    true
}

/// Computes levels by the nodes that decide whether a node may take nothing. If the check fails, there
/// are none.
pub(crate) fn levels_of(alloc: Global, facts: &Facts) -> Result<Vec<usize>, AllocError>
    ensures { IfOk result (λ levels. AllRest facts.now levels.items) }
{
    let levels = search_levels(alloc, facts, Relation::Nullability)?;
    if all_rest(facts, levels.as_slice()) {
        return Ok(levels);
    }
    Ok(Vec::new(alloc))
}

/// Computes levels by left calls. If the check fails, there are none.
pub(crate) fn left_levels(alloc: Global, facts: &Facts) -> Result<Vec<usize>, AllocError>
    ensures { IfOk result (λ levels. NoneRises facts.now levels.items) }
{
    let levels = search_levels(alloc, facts, Relation::LeftCalls)?;
    if none_rises(facts, levels.as_slice()) {
        return Ok(levels);
    }
    Ok(Vec::new(alloc))
}
