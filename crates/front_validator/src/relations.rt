//! Relations between nodes, as links of a graph.
use base_graphs::{Link, is_set};
use front_analysis::{Facts, NodeKind, dependencies_of};
use std::alloc::{AllocError, Global};

/// Returns the nodes that decide whether a node may take nothing, two at most. A call of a rule that
/// takes something leads nowhere.
fn deciding_nodes(facts: &Facts, kind: NodeKind) -> (Option<usize>, Option<usize>) {
    match kind {
        NodeKind::EndCall(_) => (None, None),
        NodeKind::Call(rule) => {
            if facts.table.is_root_set(facts.nullable.as_slice(), rule) {
                dependencies_of(&facts.table, kind)
            } else {
                (None, None)
            }
        }
        _ => dependencies_of(&facts.table, kind),
    }
}

/// Returns the nodes to which the left calls of a node lead directly, two at most.
fn left_called_nodes(facts: &Facts, kind: NodeKind) -> (Option<usize>, Option<usize>) {
    match kind {
        NodeKind::Seq(first, _) if !is_set(facts.nullable.as_slice(), first) => (Some(first), None),
        _ => dependencies_of(&facts.table, kind),
    }
}

/// The relation that leads from a node to others.
#[derive(Clone, Copy)]
pub enum Relation {
    /// The nodes that decide whether the node may take nothing.
    Nullability,
    /// The nodes of the left calls.
    LeftCalls,
}

impl Relation {
    /// Returns the nodes to which a node leads directly, two at most.
    fn targets(self, facts: &Facts, kind: NodeKind) -> (Option<usize>, Option<usize>) {
        match self {
            Relation::Nullability => deciding_nodes(facts, kind),
            Relation::LeftCalls => left_called_nodes(facts, kind),
        }
    }
}

/// Adds a link, if there is a node to which it leads.
fn push_link(
    links: &mut Vec<Link>,
    source: usize,
    target: Option<usize>,
) -> Result<(), AllocError> {
    if let Some(target) = target {
        links.push(Link { source, target })?;
    }
    Ok(())
}

/// Returns the links of all nodes by a relation.
pub(crate) fn links_of(
    alloc: Global,
    facts: &Facts,
    relation: Relation,
) -> Result<Vec<Link>, AllocError> {
    let mut links = Vec::with_capacity(alloc, facts.table.kinds.len())?;
    for (node, kind) in facts.table.kinds.iter().enumerate() {
        let (first, second) = relation.targets(facts, *kind);
        push_link(&mut links, node, second)?;
        push_link(&mut links, node, first)?;
    }
    Ok(links)
}
