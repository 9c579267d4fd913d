//! The trees that pairs are made of.
ghost use Rattle.std.specs.Prelude.{◌≡◌, IfOk, MatchOption, map};
ghost use Rattle.base_language.specs.Pieces.TokenTrees.{NoTokens, Token};
ghost use Rattle.base_language.specs.Pieces.TreeViews.{tree_of, trees_of};

use std::alloc::{AllocError, Global};
use std::mem::swap;

/// A rule with the part of a text that it matched, in bytes, and the trees of the rules inside it.
///
/// A tree of any depth is dropped iteratively wherever it goes out of scope, without allocating.
pub struct TokenTree<R> {
    pub(crate) rule: R,
    pub(crate) start: usize,
    pub(crate) end: usize,
    /// The last tree comes first.
    pub(crate) inner: Vec<TokenTree<R>>,
}

impl<R> TokenTree<R> {
    /// Makes the tree of `rule` from byte `start` up to byte `end`. Of the trees inside it the last comes
    /// first.
    pub fn new(rule: R, start: usize, end: usize, inner: Vec<TokenTree<R>>) -> TokenTree<R>
        ensures { tree_of result ≡ Token rule start end (trees_of inner.items) NoTokens }
    {
        TokenTree {
            rule,
            start,
            end,
            inner,
        }
    }
}

/// The parts of a tree.
#[derive(Drop)]
pub(crate) struct TreeParts<R> {
    pub(crate) rule: R,
    pub(crate) start: usize,
    pub(crate) end: usize,
    /// The last tree comes first.
    pub(crate) inner: Vec<TokenTree<R>>,
}

impl<R> TokenTree<R> {
    /// Destructures the tree.
    pub(crate) fn into_parts(self) -> TreeParts<R>
        ensures { tree_of self
            ≡ Token result.rule result.start result.end (trees_of result.inner.items) NoTokens }
    {
        let TokenTree {
            rule,
            start,
            end,
            inner,
        } = self;
        TreeParts {
            rule,
            start,
            end,
            inner,
        }
    }
}

impl<R: Drop> Drop for TokenTree<R> {
    /// Drops the trees from the last to the first of each list. The list above one that is entered replaces
    /// the trees inside it: so the way back up takes no memory.
    fn drop(self) {
        let mut trees = self.into_parts().inner;
        let mut above = Vec::new(*trees.allocator());
        loop {
            match trees.last_mut() {
                Some(last) => {
                    swap(&mut last.inner, &mut above);
                    swap(&mut trees, &mut above);
                }
                None => {
                    swap(&mut trees, &mut above);
                    let Some(emptied) = trees.pop() else {
                        return;
                    };
                    above = emptied.into_parts().inner;
                }
            }
        }
    }
}

/// The first of some trees, by reference: its rule, where it starts and ends in bytes, the trees
/// inside it and those after it. Of the trees the last comes first.
#[derive(Clone, Copy)]
pub struct FirstTree<'t, R> {
    pub rule: R,
    pub start: usize,
    pub end: usize,
    pub inner: &'t [TokenTree<R>],
    pub others: &'t [TokenTree<R>],
}

/// Returns the first of these trees, of which the last comes first, or `None` if there is no tree.
pub fn first_tree<R: Copy>(trees: &[TokenTree<R>]) -> Option<FirstTree<'_, R>>
    ensures { MatchOption result (trees_of trees.entry.now ≡ NoTokens)
        (λ first. trees_of trees.entry.now
        ≡ Token first.rule first.start first.end (trees_of first.inner.now) (trees_of first.others.now)) }
{
    let [others @ .., first] = trees else {
        return None;
    };
    Some(FirstTree {
        rule: first.rule,
        start: first.start,
        end: first.end,
        inner: &first.inner,
        others,
    })
}

/// A tree whose copy is begun, the trees after it that are still to be copied, and the copies of those
/// before it.
#[derive(Drop)]
struct Begun<'t, R> {
    tree: &'t TokenTree<R>,
    others: &'t [TokenTree<R>],
    copies: Vec<TokenTree<R>>,
}

/// Copies `trees`, in order. Trees whose copies are begun are on an explicit stack, so depth takes memory
/// and no stack space.
pub(crate) fn copies<R: Copy>(
    alloc: Global,
    trees: &Vec<TokenTree<R>>,
) -> Result<Vec<TokenTree<R>>, AllocError>
    ensures { IfOk result (λ copies. map tree_of copies.items ≡ map tree_of trees.now.items) }
{
    let mut begun = Vec::new(alloc);
    let mut copies = Vec::with_capacity(alloc, trees.len())?;
    let mut left = trees.as_slice();
    loop {
        match left {
            [tree, others @ ..] => {
                begun.push(Begun {
                    tree,
                    others,
                    copies,
                })?;
                copies = Vec::with_capacity(alloc, tree.inner.len())?;
                left = tree.inner.as_slice();
            }
            [] => {
                let Some(last) = begun.pop() else {
                    return Ok(copies);
                };
                let tree = last.tree;
                let copy = TokenTree::new(tree.rule, tree.start, tree.end, copies);
                copies = last.copies;
                copies.push(copy)?;
                left = last.others;
            }
        }
    }
}
