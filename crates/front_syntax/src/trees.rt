//! Token trees from their nodes.
ghost use Rattle.std.specs.Prelude.{◌≡◌, ◌≢◌, ◌≤◌, ◌-◌, ◌+◌, ◌∷◌, [], IfOk, IfSome, MatchOption, OnOk, length, reverse, suc};
ghost use Rattle.base_language.specs.Language.State as spec;
ghost use Rattle.base_language.specs.Pieces.MetaRules.{name_of};
ghost use Rattle.base_language.specs.Pieces.NamedTrees.{named_trees_of};
ghost use Rattle.front_nodes.specs.Nodes as of_nodes;
ghost use Rattle.front_syntax.specs.Building.{first_sizes, nodes_from, other_sizes, tree_around};
ghost use Rattle.front_syntax.specs.Nodes.{AreNodesOf};

use base_language::grammar::Rule;
use base_language::runtime::TokenTree;
use front_code::numbers::rule_at;
use front_nodes::nodes::{FirstTree, TokenNode};
use matcher_code::state::TreeNode;
use std::alloc::{AllocError, Global};

/// Returns the first of the trees of these nodes, or `None` if there is no tree.
#[inline(always)]
pub fn first_tree(trees: &[TokenNode]) -> Option<FirstTree<'_>>
    ensures { MatchOption result (of_nodes.named_trees_of trees.entry.now ≡ spec.None')
        (λ first. of_nodes.named_trees_of trees.entry.now
        ≡ spec.Tree (name_of first.rule) first.start first.end
        (of_nodes.named_trees_of first.inner.now) (of_nodes.named_trees_of first.others.now)) }
{
    front_nodes::nodes::first_tree(trees)
}

/// Returns the first of the trees of these nodes, of which there is one at least.
#[inline(always)]
pub fn leading_tree(trees: &[TokenNode]) -> FirstTree<'_>
    requires { of_nodes.named_trees_of trees.now ≢ spec.None' }
    ensures { of_nodes.named_trees_of trees.entry.now
        ≡ spec.Tree (name_of result.rule) result.start result.end
        (of_nodes.named_trees_of result.inner.now) (of_nodes.named_trees_of result.others.now) }
{
    match first_tree(trees) {
        Some(first) => first,
        None => unreachable!(),
    }
}

/// Takes off the last size, unless no node is left to be covered.
fn take_size(sizes: &mut Vec<usize>, nodes: usize) -> Option<usize>
    ensures count { MatchOption result
        ((first_sizes nodes (reverse sizes.old.items) ≡ []) × (sizes.new.items ≡ sizes.old.items))
        (λ size. first_sizes nodes (reverse sizes.old.items)
        ≡ size ∷ first_sizes (nodes - size) (reverse sizes.new.items)) }
    ensures others { MatchOption result
        (other_sizes nodes (reverse sizes.old.items) ≡ reverse sizes.old.items)
        (λ size. other_sizes nodes (reverse sizes.old.items)
        ≡ other_sizes (nodes - size) (reverse sizes.new.items)) }
    ensures fewer { IfSome result (λ size. length sizes.new.items + 1 ≡ length sizes.old.items) }
{
    if nodes == 0 {
        return None;
    }
    sizes.pop()
}

/// Takes off the last sizes of trees, until they cover `nodes` nodes, and counts them.
fn take_sizes(sizes: &mut Vec<usize>, nodes: usize) -> usize
    ensures count { result ≡ length (first_sizes nodes (reverse sizes.old.items)) }
    ensures others { reverse sizes.new.items ≡ other_sizes nodes (reverse sizes.old.items) }
    ensures fewer { length sizes.new.items + result ≡ length sizes.old.items }
{
    let mut count = 0;
    let mut left = nodes;
    'sizes: while let Some(size) = take_size(sizes, left) {
        count += 1;
        left = left.saturating_sub(size);
    }
    count
}

/// Adds the tree of the node of a number before the trees of the nodes after it, and takes its descendants
/// from these. `sizes` has the number of nodes of each tree.
fn add_tree(
    node: TreeNode,
    number: usize,
    trees: &mut Vec<TokenTree<Rule>>,
    sizes: &mut Vec<usize>,
) -> Result<(), AllocError>
    requires { length trees.old.items ≡ length sizes.old.items }
    ensures same { OnOk result (length trees.new.items ≡ length sizes.new.items) }
    ensures sizes { OnOk result (reverse sizes.new.items
        ≡ (node.after - number) ∷ other_sizes (node.after - suc number) (reverse sizes.old.items)) }
    ensures trees { OnOk result (named_trees_of trees.new.items ≡ tree_around node
        (length (first_sizes (node.after - suc number) (reverse sizes.old.items)))
        (named_trees_of trees.old.items)) }
{
    let size = (node.after as usize).saturating_sub(number);
    let count = take_sizes(sizes, size.saturating_sub(1));
    let inner = trees.split_off(trees.len() - count)?;
    trees.push(TokenTree::new(
        rule_at(node.rule),
        node.start as usize,
        node.end as usize,
        inner,
    ))?;
    sizes.push(size)?;
    Ok(())
}

/// Builds the trees of these nodes. The last tree comes first.
pub(crate) fn build_trees(
    alloc: Global,
    nodes: &[TreeNode],
) -> Result<Vec<TokenTree<Rule>>, AllocError>
    ensures { (us : spec.Trees) → AreNodesOf nodes.now us → IfOk result (λ t. named_trees_of t.items ≡ us) }
{
    let mut trees = Vec::new(alloc);
    let mut sizes = Vec::new(alloc);
    let mut left = nodes.len();
    while left > 0 {
        left -= 1;
        add_tree(nodes[left], left, &mut trees, &mut sizes)?;
    }
    Ok(trees)
}

/// Returns the nodes of a run with their rules, each with the number of nodes inside it.
pub(crate) fn with_rules(alloc: Global, nodes: &[TreeNode]) -> Result<Vec<TokenNode>, AllocError>
    ensures { (us : spec.Trees) → AreNodesOf nodes.now us
        → IfOk result (λ ns. of_nodes.named_trees_of ns.items ≡ us) }
{
    let mut all = Vec::with_capacity(alloc, nodes.len())?;
    for number in 0..nodes.len() {
        let node = nodes[number];
        let inner = (node.after as usize)
            .saturating_sub(number)
            .saturating_sub(1);
        all.push(TokenNode {
            rule: rule_at(node.rule),
            start: node.start,
            end: node.end,
            inner: inner as u32,
        })?;
    }
    Ok(all)
}
