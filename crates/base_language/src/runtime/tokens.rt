//! Pairs: rules with the parts of a text that they matched.
ghost use Rattle.std.specs.Prelude.{◌≤◌, length};
ghost use Rattle.std.specs.Str.{IsCharBoundary};
ghost use Rattle.base_language.specs.Pieces.TokenTrees.{AreNested, AreNested-prop};
ghost use Rattle.base_language.specs.Pieces.TreeViews.{trees_of, AreNestedIn, AreNestedIn-prop};

use super::faults::Fault;
use super::places::Span;
use super::trees::{TokenTree, TreeParts, copies};
use std::alloc::{AllocError, Global};

/// A rule with the part of a text that it matched, and the pairs of the rules inside it.
#[derive(Drop)]
pub struct Pair<'i, R> {
    text: &'i str,
    rule: R,
    start: usize,
    end: usize,
    /// The last tree comes first.
    inner: Vec<TokenTree<R>>,
    pub ghost ordered: { start ≤ end },
    pub ghost starts_at_character: { IsCharBoundary text.now start },
    pub ghost ends_at_character: { IsCharBoundary text.now end },
    pub ghost nested: { AreNested text.now (trees_of inner.items) start end } by { AreNested-prop _ _ _ _ },
}

/// Pairs of one text, one after another.
#[derive(Drop)]
pub struct Pairs<'i, R> {
    text: &'i str,
    /// The last tree comes first.
    rest: Vec<TokenTree<R>>,
    pub ghost nested: { AreNestedIn text.now rest.items } by { AreNestedIn-prop text.now rest.items },
}

impl<'i, R: Copy> Pair<'i, R> {
    ghost use Rattle.std.specs.Prelude.{◌≡◌, slice_range};
    ghost use Rattle.base_language.specs.Pieces.Span.{span_text, span_start, span_end};
    ghost use Rattle.base_language.specs.Pieces.Pairs.{pair_text, pair_rule, pair_start, pair_end, pair_inner, pairs_text, pairs_trees};

    /// Returns the rule.
    pub fn as_rule(&self) -> R
        ensures { result ≡ pair_rule self.now }
    {
        self.rule
    }

    /// Returns the part of the text that the rule matched.
    pub fn as_str(&self) -> &'i str
        ensures { result.now ≡ slice_range (pair_text self.now) (pair_start self.now) (pair_end self.now) }
    {
        &self.text[self.start..self.end]
    }

    /// Returns the matched part as a span.
    pub fn as_span(&self) -> Span<'i>
        ensures text { span_text result ≡ pair_text self.now }
        ensures start { span_start result ≡ pair_start self.now }
        ensures end { span_end result ≡ pair_end self.now }
    {
        Span::of(self.text, self.start, self.end)
    }

    /// Returns the pairs of the rules inside this one, in the part that it matched.
    pub fn into_inner(self) -> Pairs<'i, R>
        ensures text { pairs_text result ≡ pair_text self.entry }
        ensures trees { pairs_trees result ≡ pair_inner self.entry }
        ensures nested { AreNested (pairs_text result) (pairs_trees result)
            (pair_start self.entry) (pair_end self.entry) }
    {
        Pairs {
            text: self.text,
            rest: self.inner,
        }
    }
}

impl<'i, R: Copy> Pairs<'i, R> {
    ghost use Rattle.std.specs.Prelude.{◌≡◌, IfOk, IfErr, alloc_error};
    ghost use Rattle.base_language.specs.Pieces.TokenTrees.{preorder};
    ghost use Rattle.base_language.specs.Pieces.Pairs.{pairs_text, pairs_trees, flat_text, flat_pairs};

    /// Makes the pairs of these trees of `text`. Of the trees the last comes first.
    pub fn new(text: &'i str, trees: Vec<TokenTree<R>>) -> Pairs<'i, R>
        requires nested { AreNested text.now (trees_of trees.items) 0 (length text.now) }
        ensures text { pairs_text result ≡ text.now }
        ensures trees { pairs_trees result ≡ trees_of trees.items }
    {
        Pairs { text, rest: trees }
    }

    /// Returns the text that they are parts of.
    pub fn get_input(&self) -> &'i str
        ensures { result.now ≡ pairs_text self.now }
    {
        self.text
    }

    /// Returns their trees, by reference. The last comes first.
    pub fn trees(&self) -> &[TokenTree<R>]
        ensures { trees_of result.now ≡ pairs_trees self.entry.now }
    {
        &self.rest
    }

    /// Collects these pairs and all pairs inside them, in preorder. The only error is allocation failure.
    pub fn flatten(self, alloc: Global) -> Result<FlatPairs<'i, R>, Fault>
        ensures text { IfOk result (λ flat. flat_text flat ≡ pairs_text self.entry) }
        ensures pairs { IfOk result (λ flat. flat_pairs flat ≡ preorder (pairs_trees self.entry)) }
        ensures memory { IfErr result (λ fault. fault ≡ Fault.Memory alloc_error) }
    {
        Ok(FlatPairs {
            text: self.text,
            rest: self.rest,
            alloc,
        })
    }
}

impl<'i, R: Copy> Clone for Pairs<'i, R> {
    ghost use Rattle.base_language.specs.Pieces.Pairs.{IsSamePairs};

    ghost is_clone = { IsSamePairs };

    fn clone(&self) -> Result<Pairs<'i, R>, AllocError> {
        Ok(Pairs {
            text: self.text,
            rest: copies(*self.rest.allocator(), &self.rest)?,
        })
    }
}

impl<'i, R: Copy> Iterator for Pairs<'i, R> {
    type Item = Pair<'i, R>;

    ghost use Rattle.std.specs.Iterator.{at_most};
    ghost use Rattle.base_language.specs.Pieces.Pairs.{pairs_left, TakesFirstPair};

    ghost next_gives = { TakesFirstPair };

    ghost remaining = { λ pairs. at_most (pairs_left pairs) };

    fn next(&mut self) -> Option<Pair<'i, R>> {
        let TreeParts {
            rule,
            start,
            end,
            inner,
        } = self.rest.pop()?.into_parts();
        Some(Pair {
            text: self.text,
            rule,
            start,
            end,
            inner,
        })
    }
}

/// Pairs of one text and all pairs inside them, each before those inside it. After an error there are
/// none.
#[derive(Drop)]
pub struct FlatPairs<'i, R> {
    text: &'i str,
    /// The remaining trees, the last first.
    rest: Vec<TokenTree<R>>,
    alloc: Global,
    pub ghost nested: { AreNestedIn text.now rest.items } by { AreNestedIn-prop text.now rest.items },
}

impl<'i, R: Copy> FlatPairs<'i, R> {
    ghost use Rattle.std.specs.Prelude.{◌≡◌, ◌<◌, length, IfOk, OnErr};
    ghost use Rattle.base_language.specs.Pieces.Pairs.{flat_text, flat_pairs, TakesFirstOfAll};

    /// Takes the next pair, which has its own copy of the pairs inside it. After an error it is lost.
    fn take_first(&mut self) -> Result<Option<Pair<'i, R>>, AllocError>
        ensures ok { IfOk result (λ taken. TakesFirstOfAll self.old taken self.new) }
        ensures text { flat_text self.new ≡ flat_text self.old }
        ensures some { OnErr result (0 < length (flat_pairs self.old)) }
    {
        let Some(tree) = self.rest.pop() else {
            return Ok(None);
        };
        let TreeParts {
            rule,
            start,
            end,
            mut inner,
        } = tree.into_parts();
        let copies = copies(self.alloc, &inner)?;
        self.rest.append(&mut inner)?;
        Ok(Some(Pair {
            text: self.text,
            rule,
            start,
            end,
            inner: copies,
        }))
    }
}

impl<'i, R: Copy> Iterator for FlatPairs<'i, R> {
    type Item = Result<Pair<'i, R>, Fault>;

    ghost use Rattle.std.specs.Prelude.{length};
    ghost use Rattle.std.specs.Iterator.{at_most};
    ghost use Rattle.base_language.specs.Pieces.Pairs.{flat_pairs, TakesFirstOrFails};

    ghost next_gives = { TakesFirstOrFails };

    ghost remaining = { λ flat. at_most (length (flat_pairs flat)) };

    fn next(&mut self) -> Option<Result<Pair<'i, R>, Fault>> {
        match self.take_first() {
            Ok(taken) => taken.map(Ok),
            Err(error) => {
                self.rest.clear();
                Some(Err(Fault::Memory(error)))
            }
        }
    }
}
