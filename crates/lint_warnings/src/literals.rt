//! Literals and the texts that one of them begins, and calls.
ghost use Rattle.std.specs.Prelude.{◌≡◌, ◌++◌, ◌∷◌, ◌==◌, [], List, ℕ, IsTrue, OnOk, false, true, take, option_map};
ghost use Rattle.std.specs.List.{list_any};
ghost use Rattle.std.specs.Str.{IsCharBoundary, chars};
ghost use Rattle.base_language.specs.Language.Matching.{any_begins};
ghost use Rattle.base_language.specs.Language.Text.{Text};
ghost use Rattle.front_spanned.specs.Erasure.{without_spans};
ghost use Rattle.front_spanned.specs.Nodes.{view};
ghost use Rattle.lint_warnings.specs.Choices.{beginning_of, call_of, first_call_of, literal_of};
ghost use Rattle.lint_warnings.specs.Lists.{IsKnown, Knows};

use front_spanned::{ParserExpr, ParserNode};
use std::alloc::{AllocError, Global};
use std::collections::HashSet;

/// Texts, and how many bytes each has, each number once.
#[derive(Drop)]
pub(crate) struct Literals<'n> {
    pub texts: HashSet<&'n str>,
    pub lengths: Vec<usize>,
}

impl<'n> Literals<'n> {
    /// No texts.
    pub(crate) fn new(alloc: Global) -> Literals<'n>
        ensures { Knows [] result }
    {
        Literals {
            texts: HashSet::new(alloc),
            lengths: Vec::new(alloc),
        }
    }

    /// Adds a text.
    pub(crate) fn add(&mut self, text: &'n str) -> Result<(), AllocError>
        ensures { OnOk result ((texts : List Text)
            → Knows texts self.old → Knows (texts ++ chars text.entry.now ∷ []) self.new) }
    {
        self.texts.insert(text)?;
        add_length(text.len(), &mut self.lengths)
    }

    /// Whether one of the texts begins a text. That takes a look-up for each length that they have.
    pub(crate) fn begin(&self, text: &str) -> bool
        ensures { (texts : List Text) → Knows texts self.now
            → result ≡ any_begins texts (chars text.now) }
    {
        for length in &self.lengths {
            if self.has_front(text, *length) {
                return true;
            }
        }
        false
    }

    /// Whether the first `length` bytes of `text` are one of the texts.
    fn has_front(&self, text: &str, length: usize) -> bool
        ensures front { IsTrue result → IsCharBoundary text.now length }
        ensures found { IsTrue result → IsKnown self.now (take length text.now) ≡ true }
        ensures missing { result ≡ false → IsCharBoundary text.now length
            → IsKnown self.now (take length text.now) ≡ false }
    {
        text.is_char_boundary(length) && self.texts.contains(&&text[..length])
    }
}

/// Adds a length that is not there.
fn add_length(length: usize, lengths: &mut Vec<usize>) -> Result<(), AllocError>
    ensures there { OnOk result (list_any (λ n. n == length) lengths.new.items ≡ true) }
    ensures kept { OnOk result ((m : ℕ) → list_any (λ n. n == m) lengths.old.items ≡ true
        → list_any (λ n. n == m) lengths.new.items ≡ true) }
{
    if !lengths.contains(&length) {
        lengths.push(length)?;
    }
    Ok(())
}

/// The literal that a node is.
pub(crate) fn literal<'n, 'i>(node: &'n ParserNode<'i>) -> Option<&'n str>
    ensures { option_map (λ text. chars text.now) result ≡ literal_of (without_spans (view node.entry.now)) }
{
    match &node.expr {
        ParserExpr::Str(text) => Some(text.as_str()),
        _ => None,
    }
}

/// The literal with which all that a node matches begins, if it is one or a sequence that begins so.
pub(crate) fn beginning<'n, 'i>(node: &'n ParserNode<'i>) -> Option<&'n str>
    ensures { option_map (λ text. chars text.now) result
        ≡ beginning_of (without_spans (view node.entry.now)) }
{
    let mut first = node;
    'parts: loop {
        match &first.expr {
            ParserExpr::Seq(left, _) => first = left,
            _ => return literal(first),
        }
    }
}

/// The name that a node calls.
pub(crate) fn call<'n, 'i>(node: &'n ParserNode<'i>) -> Option<&'n str>
    ensures { option_map (λ name. chars name.now) result ≡ call_of (without_spans (view node.entry.now)) }
{
    match &node.expr {
        ParserExpr::Ident(name) => Some(name.as_str()),
        _ => None,
    }
}

/// The name that a node calls first, if it is a call or a sequence that begins so.
pub(crate) fn first_call<'n, 'i>(node: &'n ParserNode<'i>) -> Option<&'n str>
    ensures { option_map (λ name. chars name.now) result
        ≡ first_call_of (without_spans (view node.entry.now)) }
{
    let mut first = node;
    'parts: loop {
        match &first.expr {
            ParserExpr::Seq(left, _) => first = left,
            _ => return call(first),
        }
    }
}
