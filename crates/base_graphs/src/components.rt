//! Postorder, and strongly connected components by Kosaraju's algorithm.
ghost use Rattle.std.specs.Prelude.{◌≡◌, IfOk, length};
ghost use Rattle.base_graphs.specs.Numbers.{AreNumbers};

use crate::links::Link;
use crate::search::search_graph;
use std::alloc::{AllocError, Global};

/// The strongly connected components of a graph.
#[derive(Drop)]
pub struct Components {
    /// The representative of each node's component.
    pub leaders: Vec<usize>,
    /// A number for each node, one for each component: links to other components lead to lower numbers.
    pub ranks: Vec<usize>,
    /// Indices of links that lead from the leaders to the other nodes, in the order of the search.
    pub down: Vec<usize>,
    /// Indices of links that lead from the other nodes to the leaders, in the order of the search.
    pub up: Vec<usize>,
}

/// Returns the numbers below `count`.
pub fn numbers(alloc: Global, count: usize) -> Result<Vec<usize>, AllocError>
    ensures { IfOk result (λ found. AreNumbers count found.items) }
{
    let mut found = Vec::with_capacity(alloc, count)?;
    for number in 0..count {
        found.push(number)?;
    }
    Ok(found)
}

/// Returns for each of `count` nodes its number in postorder: links to nodes that do not lead back lead to
/// lower numbers.
pub fn postorder(alloc: Global, links: &[Link], count: usize) -> Result<Vec<usize>, AllocError>
    ensures { IfOk result (λ order. length order.items ≡ count) }
{
    let roots = numbers(alloc, count)?;
    let found = search_graph(alloc, links, true, count, roots.as_slice())?;
    let mut order = vec![in alloc; 0; count]?;
    for (number, node) in found.finished.iter().enumerate() {
        if let Some(place) = order.get_mut(*node) {
            *place = number;
        }
    }
    Ok(order)
}

/// Returns each node's leader, the root from which it was found.
fn leaders_of(
    alloc: Global,
    roots: &[usize],
    origins: &[Option<usize>],
) -> Result<Vec<usize>, AllocError> {
    let mut leaders = Vec::with_capacity(alloc, origins.len())?;
    for (node, origin) in origins.iter().enumerate() {
        let leader = match origin {
            Some(place) => roots.get(*place).copied(),
            None => None,
        };
        leaders.push(leader.unwrap_or(node))?;
    }
    Ok(leaders)
}

/// Returns the numbers, 0 if there is none.
fn ranks_of(alloc: Global, origins: &[Option<usize>]) -> Result<Vec<usize>, AllocError> {
    let mut ranks = Vec::with_capacity(alloc, origins.len())?;
    for origin in origins {
        ranks.push(origin.unwrap_or(0))?;
    }
    Ok(ranks)
}

/// Returns the components of a graph of `count` nodes. The first search follows the links, and gives a
/// postorder; the second one follows them backwards from its last node on, and finds one component per
/// root.
pub fn find_components(
    alloc: Global,
    links: &[Link],
    count: usize,
) -> Result<Components, AllocError> {
    let nodes = numbers(alloc, count)?;
    let first = search_graph(alloc, links, true, count, nodes.as_slice())?;
    let order = first.finished.as_slice();
    let second = search_graph(alloc, links, false, count, order)?;
    Ok(Components {
        leaders: leaders_of(alloc, order, second.origins.as_slice())?,
        ranks: ranks_of(alloc, second.origins.as_slice())?,
        down: first.steps,
        up: second.steps,
    })
}
