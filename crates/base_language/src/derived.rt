//! Laws of the derived clone, `==`, order and hash of this crate's types, on the ghost members of the
//! derived impls, which the derived methods are proved to answer.
ghost use Rattle.std.specs.Prelude.{◌≡◌, ◌↔◌, ℕ, Some, IsTrue, Contains, slice_get};
ghost use Rattle.std.specs.Ordering.{nat_cmp};
ghost use Rattle.std.specs.Hash as fed;
ghost use Rattle.base_language.specs.Pieces.Comparing.{ascending_rules, SamePlace, SaySame, SameError};
ghost use Rattle.base_language.specs.Pieces.Saying.{piece_of};

use crate::grammar::Rule;
use crate::runtime::{Error, ErrorVariant, InputLocation, LineColLocation, Position, Span};
use std::hash::Hash;

/// Two rules are equal if they are one variant.
pub fn equality_of_rules()
    ensures { (a b : Rule) → IsTrue (⟦<Rule as PartialEq>⟧.eq a b) ↔ (a ≡ b) }
{}

/// `EOI` is the least rule, and the others are in the order of the meta-grammar: two rules compare as their
/// indices in this list, which has them all.
pub fn order_of_rules()
    ensures listed { (rule : Rule) → Contains ascending_rules rule }
    ensures cmp { (a b : Rule) (i j : ℕ)
        → slice_get ascending_rules i ≡ Some a → slice_get ascending_rules j ≡ Some b
        → ⟦<Rule as Ord>⟧.cmp a b ≡ nat_cmp i j }
    ensures partial_cmp { (a b : Rule)
        → ⟦<Rule as PartialOrd>⟧.partial_cmp a b ≡ Some (⟦<Rule as Ord>⟧.cmp a b) }
{}

/// A hasher is fed a rule's index in that order, as a `usize`, and nothing else.
pub fn hash_of_rules()
    ensures { (rule : Rule) (i : ℕ) → slice_get ascending_rules i ≡ Some rule
        → ⟦<Rule as Hash>⟧.hash_input rule ≡ fed.usize i }
{}

/// A clone of a rule is that rule, and is never refused.
pub fn clones_of_rules()
    ensures copies { (a b : Rule) → ⟦<Rule as Clone>⟧.is_clone a b → b ≡ a }
    ensures infallible { (rule : Rule) → ⟦<Rule as Clone>⟧.is_infallible rule }
{}

/// A clone of a span is that span, and is never refused.
pub fn clones_of_spans()
    ensures copies { (a b : Span) → ⟦<Span<'static> as Clone>⟧.is_clone a b → b ≡ a }
    ensures infallible { (span : Span) → ⟦<Span<'static> as Clone>⟧.is_infallible span }
{}

/// A clone of a position is that position, and is never refused.
pub fn clones_of_positions()
    ensures copies { (a b : Position) → ⟦<Position<'static> as Clone>⟧.is_clone a b → b ≡ a }
    ensures infallible { (position : Position) → ⟦<Position<'static> as Clone>⟧.is_infallible position }
{}

/// A clone of a location in bytes is that location, and is never refused.
pub fn clones_of_locations()
    ensures copies { (a b : InputLocation) → ⟦<InputLocation as Clone>⟧.is_clone a b → b ≡ a }
    ensures infallible { (location : InputLocation) → ⟦<InputLocation as Clone>⟧.is_infallible location }
{}

/// A clone of a location by line and column is that location, and is never refused.
pub fn clones_of_lines_and_columns()
    ensures copies { (a b : LineColLocation) → ⟦<LineColLocation as Clone>⟧.is_clone a b → b ≡ a }
    ensures infallible { (location : LineColLocation) → ⟦<LineColLocation as Clone>⟧.is_infallible location }
{}

/// Two spans are equal if they go from one byte to one byte of texts that are equal.
pub fn equality_of_spans()
    ensures { (a b : Span) → IsTrue (⟦<Span<'static> as PartialEq>⟧.eq a b)
        ↔ (piece_of a ≡ piece_of b) }
{}

/// Two positions are equal if they are before one byte of texts that are equal.
pub fn equality_of_positions()
    ensures { (a b : Position) → IsTrue (⟦<Position<'static> as PartialEq>⟧.eq a b) ↔ SamePlace a b }
{}

/// Two variants are equal if both times no rule matched, or both messages are equal.
pub fn equality_of_variants()
    ensures { (a b : ErrorVariant) → IsTrue (⟦<ErrorVariant as PartialEq>⟧.eq a b) ↔ SaySame a b }
{}

/// Two locations in bytes are equal if they are one position, or one start and one end.
pub fn equality_of_locations()
    ensures { (a b : InputLocation) → IsTrue (⟦<InputLocation as PartialEq>⟧.eq a b) ↔ (a ≡ b) }
{}

/// So are two locations by line and column.
pub fn equality_of_lines_and_columns()
    ensures { (a b : LineColLocation) → IsTrue (⟦<LineColLocation as PartialEq>⟧.eq a b) ↔ (a ≡ b) }
{}

/// Two errors are equal if their messages, positions and printed lines are equal.
pub fn equality_of_errors<R>()
    ensures { (a b : Error R) → IsTrue (⟦<Error<R> as PartialEq>⟧.eq a b) ↔ SameError a b }
{}
