//! The trees of a text.
ghost use Rattle.std.specs.Prelude.{◌≡◌, IfOk, OnOk};
ghost use Rattle.base_language.specs.Pieces.TreeViews as of_code;
ghost use Rattle.front_nodes.specs.Nodes.{AreNestedIn, AreNestedIn-prop, nodes_of, trees_of};
ghost use Rattle.front_nodes.specs.Writing.{with_inner};

use crate::nodes::TokenNode;
use base_language::grammar::Rule;
use base_language::runtime::{Pairs, TokenTree, first_tree};
use std::alloc::{AllocError, Global};

/// The trees of one text, by their nodes.
#[derive(Drop)]
pub struct Forest<'i> {
    text: &'i str,
    nodes: Vec<TokenNode>,
    pub ghost nested: { AreNestedIn text.now nodes.items } by { AreNestedIn-prop text.now nodes.items },
}

impl<'i> Forest<'i> {
    ghost use Rattle.base_language.specs.Pieces.Pairs.{pairs_text, pairs_trees};
    ghost use Rattle.front_nodes.specs.Forests.{forest_text, forest_trees};

    /// Makes the trees of a text from their nodes.
    pub fn new(text: &'i str, nodes: Vec<TokenNode>) -> Forest<'i>
        requires nested { AreNestedIn text.now nodes.items }
        ensures text { forest_text result ≡ text.now }
        ensures trees { forest_trees result ≡ trees_of nodes.items }
    {
        Forest { text, nodes }
    }

    /// Makes the trees of pairs. The only error is an allocation failure, as which 2^32 bytes or nodes count.
    pub fn of_pairs(alloc: Global, pairs: &Pairs<'i, Rule>) -> Result<Forest<'i>, AllocError>
        ensures text { IfOk result (λ forest. forest_text forest ≡ pairs_text pairs.now) }
        ensures trees { IfOk result (λ forest. forest_trees forest ≡ pairs_trees pairs.now) }
    {
        let nodes = write_nodes(alloc, pairs.trees())?;
        Ok(Forest {
            text: pairs.get_input(),
            nodes,
        })
    }

    /// Returns the text.
    pub fn get_input(&self) -> &'i str
        ensures { result.now ≡ forest_text self.now }
    {
        self.text
    }

    /// Returns the nodes.
    pub fn nodes(&self) -> &[TokenNode]
        ensures { trees_of result.now ≡ forest_trees self.entry.now }
    {
        &self.nodes
    }
}

/// A tree whose descendants are not all written yet: the number of its node, and the trees after it.
#[derive(Clone, Copy)]
struct OpenTree<'t> {
    number: usize,
    others: &'t [TokenTree<Rule>],
}

/// Returns the node of a tree without descendants.
fn node_at(rule: Rule, start: usize, end: usize) -> Result<TokenNode, AllocError>
    ensures { IfOk result (λ node. node ≡ record { rule = rule; start = start; end = end; inner = 0 }) }
{
    let (Ok(start), Ok(end)) = (u32::try_from(start), u32::try_from(end)) else {
        return Err(AllocError);
    };
    Ok(TokenNode {
        rule,
        start,
        end,
        inner: 0,
    })
}

/// Lets the nodes after that of a number be inside it.
fn close_tree(nodes: &mut Vec<TokenNode>, number: usize) -> Result<(), AllocError>
    ensures { OnOk result (nodes.new.items ≡ with_inner number nodes.old.items) }
{
    let count = nodes.len();
    if number < count {
        let Ok(inner) = u32::try_from(count - number - 1) else {
            return Err(AllocError);
        };
        nodes[number].inner = inner;
    }
    Ok(())
}

/// Writes the nodes of trees. Trees that are open are on an explicit stack, so depth takes memory and no
/// stack space.
fn write_nodes(alloc: Global, trees: &[TokenTree<Rule>]) -> Result<Vec<TokenNode>, AllocError>
    ensures { IfOk result (λ nodes. nodes.items ≡ nodes_of (of_code.trees_of trees.now)) }
{
    let mut nodes = Vec::new(alloc);
    let mut begun = Vec::new(alloc);
    let mut rest = trees;
    'trees: loop {
        match first_tree(rest) {
            Some(tree) => {
                begun.push(OpenTree {
                    number: nodes.len(),
                    others: tree.others,
                })?;
                nodes.push(node_at(tree.rule, tree.start, tree.end)?)?;
                rest = tree.inner;
            }
            None => match begun.pop() {
                Some(last) => {
                    close_tree(&mut nodes, last.number)?;
                    rest = last.others;
                }
                None => return Ok(nodes),
            },
        }
    }
}
