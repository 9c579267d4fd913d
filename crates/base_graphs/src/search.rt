//! Depth-first search along links.
use crate::links::{Link, LinkLists};
use std::alloc::{AllocError, Global};

/// The state and result of a depth-first search.
#[derive(Drop)]
pub(crate) struct Search {
    /// For each node the index, in the order of roots, of the root from which it was found; `None` before
    /// that.
    pub(crate) origins: Vec<Option<usize>>,
    /// The links by which nodes were found, in that order.
    pub(crate) steps: Vec<usize>,
    /// The path of the search: nodes that are not finished, each found from the one before.
    waiting: Vec<usize>,
    /// The finished nodes, in postorder.
    pub(crate) finished: Vec<usize>,
}

impl Search {
    /// Records the root from which a node is found, and pushes the node on the path, unless it was found
    /// before.
    fn find(&mut self, node: usize, origin: usize) -> Result<bool, AllocError> {
        let Some(known) = self.origins.get_mut(node) else {
            return Ok(false);
        };
        if known.is_some() {
            return Ok(false);
        }
        *known = Some(origin);
        self.waiting.push(node)?;
        Ok(true)
    }

    /// Follows the next link of the node on top of the path, or finishes the node if it has none left.
    fn step(
        &mut self,
        links: &[Link],
        lists: &mut LinkLists,
        node: usize,
        origin: usize,
    ) -> Result<(), AllocError> {
        let Some(place) = lists.next_link(node) else {
            self.waiting.pop();
            self.finished.push(node)?;
            return Ok(());
        };
        if let Some(link) = links.get(place) {
            if self.find(lists.end_of(*link), origin)? {
                self.steps.push(place)?;
            }
        }
        Ok(())
    }

    /// Searches from a root.
    fn search_from(
        &mut self,
        links: &[Link],
        lists: &mut LinkLists,
        root: usize,
        origin: usize,
    ) -> Result<(), AllocError> {
        self.find(root, origin)?;
        let most = links.len().saturating_add(self.origins.len());
        for _ in 0..most {
            let Some(node) = self.waiting.last().copied() else {
                return Ok(());
            };
            self.step(links, lists, node, origin)?;
        }
        Ok(())
    }
}

/// Searches a graph of `count` nodes from these roots, the last one first: along its links, or backwards.
pub(crate) fn search_graph(
    alloc: Global,
    links: &[Link],
    down: bool,
    count: usize,
    roots: &[usize],
) -> Result<Search, AllocError> {
    let mut lists = LinkLists::new(alloc, links, down, count)?;
    let mut search = Search {
        origins: vec![in alloc; None; count]?,
        steps: Vec::new(alloc),
        waiting: Vec::new(alloc),
        finished: Vec::with_capacity(alloc, count)?,
    };
    for done in 0..roots.len() {
        let origin = roots.len() - 1 - done;
        search.search_from(links, &mut lists, roots[origin], origin)?;
    }
    Ok(search)
}
