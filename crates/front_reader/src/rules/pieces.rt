//! Pieces of the text, and the numbers that are written there.
ghost use Rattle.std.specs.Prelude.{◌≡◌, slice_range};
ghost use Rattle.base_language.specs.Pieces.Saying.{piece};
ghost use Rattle.front_reader.specs.Flaws.{not_a_count, past_u32, past_i32};
ghost use Rattle.front_reader.specs.Pieces.{IsPiece};
ghost use Rattle.front_reader.specs.Reading.{number, integer};
ghost use Rattle.front_grammar.specs.Shape.{IsNumber, IsInteger};
ghost use Rattle.front_reader.specs.Views.{Answers};
ghost use Rattle.front_spanned.specs.Nodes.{piece_of};
ghost use Rattle.front_reader.specs.declared.rules.flaws.ReadError.TheVariants.{Found};

use crate::rules::flaws::{Cause, Flaw, ReadError};
use base_language::runtime::Span;
use front_nodes::nodes::FirstTree;

/// Returns the span of the text from the byte `start` to the byte `end`.
pub fn span_at<'i>(text: &'i str, start: usize, end: usize) -> Span<'i>
    requires { IsPiece text.now start end }
    ensures { piece_of result ≡ piece text.entry.now start end }
{
    Span::of(text, start, end)
}

/// Returns the span of a tree.
pub fn span_of<'i>(text: &'i str, tree: FirstTree<'_>) -> Span<'i>
    requires { IsPiece text.now tree.start tree.end }
    ensures { piece_of result ≡ piece text.entry.now tree.entry.start tree.entry.end }
{
    span_at(text, tree.start, tree.end)
}

/// Returns the text of a tree.
pub fn text_of<'i>(text: &'i str, tree: FirstTree<'_>) -> &'i str
    requires { IsPiece text.now tree.start tree.end }
    ensures { result.now ≡ slice_range text.entry.now tree.entry.start tree.entry.end }
{
    &text[tree.start..tree.end]
}

/// Makes the error of a flaw.
pub fn error_of<'i>(cause: Cause, span: Span<'i>) -> ReadError<'i>
    ensures { result ≡ Found (record { cause = cause; span = span.entry }) }
{
    ReadError::Found(Flaw { cause, span })
}

/// Returns the number of a tree, as the least number of repetitions. One that fits no `u32` is a flaw.
pub fn number<'i>(text: &'i str, tree: FirstTree<'_>) -> Result<u32, ReadError<'i>>
    requires place { IsPiece text.now tree.start tree.end }
    requires digits { IsNumber text.now tree.start tree.end }
    ensures { Answers (past_u32 text.entry.now tree.entry.start tree.entry.end) result
        (λ n. n ≡ number text.entry.now tree.entry.start tree.entry.end) }
{
    match text_of(text, tree).parse::<u32>() {
        Ok(n) => Ok(n),
        Err(_) => Err(error_of(Cause::PastU32, span_of(text, tree))),
    }
}

/// Returns the number of a tree, as the greatest number of repetitions. One that fits no `u32` is a flaw,
/// and so is 0.
pub fn count<'i>(text: &'i str, tree: FirstTree<'_>) -> Result<u32, ReadError<'i>>
    requires place { IsPiece text.now tree.start tree.end }
    requires digits { IsNumber text.now tree.start tree.end }
    ensures { Answers (not_a_count text.entry.now tree.entry.start tree.entry.end) result
        (λ n. n ≡ number text.entry.now tree.entry.start tree.entry.end) }
{
    let n = number(text, tree)?;
    if n == 0 {
        return Err(error_of(Cause::ZeroTimes, span_of(text, tree)));
    }
    Ok(n)
}

/// Returns the number of a slice that a tree spells. One that fits no `i32` is a flaw.
pub fn slice_number<'i>(text: &'i str, tree: FirstTree<'_>) -> Result<i32, ReadError<'i>>
    requires place { IsPiece text.now tree.start tree.end }
    requires digits { IsInteger text.now tree.start tree.end }
    ensures { Answers (past_i32 text.entry.now tree.entry.start tree.entry.end) result
        (λ n. n ≡ integer text.entry.now tree.entry.start tree.entry.end) }
{
    match text_of(text, tree).parse::<i32>() {
        Ok(n) => Ok(n),
        Err(_) => Err(error_of(Cause::PastI32, span_of(text, tree))),
    }
}
