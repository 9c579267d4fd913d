//! Links between nodes, as lists for each node.
use std::alloc::{AllocError, Global};

/// A directed edge of a graph.
#[derive(Clone, Copy)]
pub struct Link {
    pub source: usize,
    pub target: usize,
}

/// The links of each node as linked lists: the first link of a node, and the next one after each link.
#[derive(Drop)]
pub(crate) struct LinkLists {
    /// Whether links are followed from source to target, and not backwards.
    down: bool,
    heads: Vec<Option<usize>>,
    nexts: Vec<Option<usize>>,
}

impl LinkLists {
    /// Builds the lists of links of all nodes.
    pub(crate) fn new(
        alloc: Global,
        links: &[Link],
        down: bool,
        count: usize,
    ) -> Result<LinkLists, AllocError> {
        let mut lists = LinkLists {
            down,
            heads: vec![in alloc; None; count]?,
            nexts: Vec::with_capacity(alloc, links.len())?,
        };
        for (place, link) in links.iter().enumerate() {
            lists.put(place, *link)?;
        }
        Ok(lists)
    }

    /// Puts a link at the head of its list.
    fn put(&mut self, place: usize, link: Link) -> Result<(), AllocError> {
        let mut next = None;
        let node = if self.down { link.source } else { link.target };
        if let Some(head) = self.heads.get_mut(node) {
            next = *head;
            *head = Some(place);
        }
        self.nexts.push(next)?;
        Ok(())
    }

    /// Takes the next link of a node off its list.
    pub(crate) fn next_link(&mut self, node: usize) -> Option<usize> {
        let head = self.heads.get_mut(node)?;
        let link = (*head)?;
        *head = match self.nexts.get(link) {
            Some(next) => *next,
            None => None,
        };
        Some(link)
    }

    /// Returns the node to which a link leads, in the direction in which links are followed.
    pub(crate) fn end_of(&self, link: Link) -> usize {
        if self.down { link.target } else { link.source }
    }
}
