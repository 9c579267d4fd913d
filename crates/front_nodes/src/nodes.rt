//! Nodes of trees, and how they are read.
ghost use Rattle.std.specs.Prelude.{◌≡◌, MatchOption};
ghost use Rattle.base_language.specs.Pieces.TokenTrees.{NoTokens, Token};
ghost use Rattle.front_nodes.specs.Nodes.{trees_of};

use base_language::grammar::Rule;

/// A rule with the part of a text that it matched, in bytes, and how many nodes are inside it. These follow
/// it, each before those inside itself.
#[derive(Clone, Copy)]
pub struct TokenNode {
    pub rule: Rule,
    pub start: u32,
    pub end: u32,
    pub inner: u32,
}

/// The first of some trees: its rule, where it starts and ends in bytes, the nodes inside it and those after
/// it.
#[derive(Clone, Copy)]
pub struct FirstTree<'t> {
    pub rule: Rule,
    pub start: usize,
    pub end: usize,
    pub inner: &'t [TokenNode],
    pub others: &'t [TokenNode],
}

/// Returns the first of the trees of these nodes, or `None` if there is no tree.
#[inline(always)]
pub fn first_tree(nodes: &[TokenNode]) -> Option<FirstTree<'_>>
    ensures { MatchOption result (trees_of nodes.entry.now ≡ NoTokens)
        (λ first. trees_of nodes.entry.now
        ≡ Token first.rule first.start first.end (trees_of first.inner.now) (trees_of first.others.now)) }
{
    let [first, behind @ ..] = nodes else {
        return None;
    };
    let count = (first.inner as usize).min(behind.len());
    let (inner, others) = behind.split_at(count);
    Some(FirstTree {
        rule: first.rule,
        start: first.start as usize,
        end: first.end as usize,
        inner,
        others,
    })
}
