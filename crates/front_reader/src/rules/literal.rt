//! Literals and their escapes.
ghost use Rattle.std.specs.Prelude.{◌≡◌, ◌<◌, ℕ, IfOk, IfSome, MatchOption, [], ◌∷◌, chars, length, string_bytes};
ghost use Rattle.std.specs.Char.{IsScalar};
ghost use Rattle.front_nodes.specs.Nodes.{named_trees_of};
ghost use Rattle.front_reader.specs.Literal.{braced, digits, escape, extended, two_digits};
ghost use Rattle.front_reader.specs.Pieces.{IsPiece, AreInText};
ghost use Rattle.front_grammar.specs.Shape.{IsQuoted};
ghost use Rattle.front_reader.specs.Views.{AnswersLiteral, IsSameNumber, NamesFirst, Unescapes};

use crate::rules::flaws::{Cause, ReadError};
use crate::rules::pieces::{error_of, span_of, text_of};
use front_nodes::nodes::{FirstTree, TokenNode};
use front_syntax::trees::leading_tree;
use std::alloc::{AllocError, Global};

/// Returns the first character of a text, and the rest.
fn first(text: &str) -> Option<(char, &str)>
    ensures parts { MatchOption result (chars text.entry.now ≡ [])
        (λ x. chars text.entry.now ≡ x.0 ∷ chars x.1.now) }
    ensures scalar { IfSome result (λ x. IsScalar x.0) }
    ensures shorter { IfSome result (λ x. length x.1.now < length text.entry.now) }
{
    let mut characters = text.chars();
    match characters.next() {
        Some(c) => Some((c, characters.as_str())),
        None => None,
    }
}

/// Appends one more hexadecimal digit to a number. Past the greatest scalar value the result is some
/// number past it.
fn append_digit(value: u32, digit: char) -> u32
    ensures { (n : ℕ) → IsSameNumber value n → IsSameNumber result (extended n digit) }
{
    let digit = digit.to_digit(16).unwrap_or(0);
    value.saturating_mul(16).saturating_add(digit)
}

/// Returns the number that two hexadecimal digits name, and the rest after them.
fn two_digits(text: &str) -> Option<(u32, &str)>
    ensures names { NamesFirst two_digits text.entry.now result }
    ensures shorter { IfSome result (λ x. length x.1.now < length text.entry.now) }
{
    let (high, rest) = first(text)?;
    let (low, rest) = first(rest)?;
    Some((append_digit(append_digit(0, high), low), rest))
}

/// Returns the number that hexadecimal digits up to a brace name, and the rest after the brace.
fn digits(text: &str) -> Option<(u32, &str)>
    ensures names { NamesFirst (digits 0) text.entry.now result }
    ensures shorter { IfSome result (λ x. length x.1.now < length text.entry.now) }
{
    let mut value = 0;
    let mut rest = text;
    while let Some((c, after)) = first(rest) {
        if c == '}' {
            return Some((value, after));
        }
        value = append_digit(value, c);
        rest = after;
    }
    None
}

/// Returns the number that an escape names, given the text after its backslash, and the rest after the
/// escape.
fn escape(text: &str) -> Option<(u32, &str)>
    ensures names { NamesFirst escape text.entry.now result }
    ensures shorter { IfSome result (λ x. length x.1.now < length text.entry.now) }
{
    let (c, rest) = first(text)?;
    match c {
        'x' => two_digits(rest),
        'u' => {
            let (_, rest) = first(rest)?;
            digits(rest)
        }
        'r' => Some((13, rest)),
        'n' => Some((10, rest)),
        't' => Some((9, rest)),
        '0' => Some((0, rest)),
        _ => Some((c as u32, rest)),
    }
}

/// Returns the text with its escapes read, or none if one names no character.
fn unescape(alloc: Global, text: &str) -> Result<Option<String>, AllocError>
    ensures { IfOk result (λ o. Unescapes (λ s. chars (string_bytes s)) (chars text.now) o) }
{
    let mut read = String::new(alloc);
    let mut rest = text;
    while let Some((c, after)) = first(rest) {
        if c != '\\' {
            read.push(c)?;
            rest = after;
            continue;
        }
        let Some((value, after)) = escape(after) else {
            break;
        };
        let Some(c) = char::from_u32(value) else {
            return Ok(None);
        };
        read.push(c)?;
        rest = after;
    }
    Ok(Some(read))
}

/// Returns the text that a literal denotes, if the trees `quoted` in it are a quote, the quoted text
/// and a quote. An escape that names no character is a flaw of the whole literal.
pub fn literal<'i>(
    alloc: Global,
    text: &'i str,
    tree: FirstTree<'_>,
    quoted: &[TokenNode],
) -> Result<String, ReadError<'i>>
    requires place { IsPiece text.now tree.start tree.end }
    requires shape { IsQuoted (named_trees_of quoted.now) }
    requires nested { AreInText text.now (named_trees_of quoted.now) }
    ensures { AnswersLiteral text.entry.now tree.entry.start tree.entry.end
        (named_trees_of quoted.now) result }
{
    let quote = leading_tree(quoted);
    let inside = leading_tree(quote.others);
    match unescape(alloc, text_of(text, inside))? {
        Some(read) => Ok(read),
        None => Err(error_of(Cause::NoScalarValue, span_of(text, tree))),
    }
}
