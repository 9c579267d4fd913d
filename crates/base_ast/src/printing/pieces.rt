//! Expressions of both kinds as text, with an explicit stack of pieces: nesting takes no stack space.
ghost use Rattle.std.specs.Prelude.{◌≡◌, ◌<◌, ◌+◌, ◌*◌, ◌++◌, ℕ, OnOk, codes};
ghost use Rattle.std.specs.Fmt.{WritesOnOk};
ghost use Rattle.base_ast.specs.Pieces.{leaf_bytes, bytes_of_parts, heft_of_parts, bytes_at, inside, piece_bytes, piece_load, Puts};
ghost use Rattle.base_ast.specs.PrintedBytes.{ByPlace, enclosed, predicate_bytes, sequence_bytes, choice_bytes};

use super::{
    Counts, fmt_counts, fmt_insensitive, fmt_literal, fmt_push_literal, fmt_range, fmt_skip,
    fmt_slice,
};
use std::alloc::Global;
use std::fmt;

/// The position of an expression: alone, on the right of a `~` or a `|`, or before a postfix operator.
#[derive(Clone, Copy)]
pub(crate) enum Place {
    Alone,
    AfterTilde,
    AfterBar,
    BeforePostfix,
}

/// An expression without operands.
#[derive(Clone, Copy)]
pub(crate) enum Leaf<'a> {
    Str(&'a str),
    Insens(&'a str),
    Range(&'a str, &'a str),
    Ident(&'a str),
    PeekSlice(i32, Option<i32>),
    Skip(&'a [String]),
    PushLiteral(&'a str),
}

/// An operator with its operands.
#[derive(Drop)]
pub(crate) enum Parts<'a, E> {
    Leaf(Leaf<'a>),
    /// A predicate with its sign.
    Predicate(&'static str, &'a Box<E>),
    Sequence(&'a Box<E>, &'a Box<E>),
    Choice(&'a Box<E>, &'a Box<E>),
    /// An operand with a postfix operator.
    Postfix(&'a Box<E>, &'static str),
    Counted(&'a Box<E>, Counts),
    Push(&'a Box<E>),
    /// A tag and the tagged expression.
    Tag(&'a str, &'a Box<E>),
    /// A wrapper, which prints as its operand.
    Wrapper(&'a Box<E>),
}

/// Expressions that can be printed.
pub(crate) trait Printed {
    // the bytes of an expression at each position
    ghost bytes: { Self → ByPlace };

    // how much there is to be written
    ghost heft: { Self → ℕ };

    /// Returns the operator with its operands.
    fn parts(&self) -> Parts<'_, Self>
        ensures bytes { bytes_of_parts bytes result ≡ bytes self.now }
        ensures lighter { heft_of_parts heft result < heft self.now };
}

/// A piece of text that is still to be written.
#[derive(Clone, Copy)]
enum Piece<'a, E> {
    Sign(&'static str),
    Counts(Counts),
    Leaf(Leaf<'a>),
    Part(Place, &'a E),
}

/// Writes an expression at the position `Alone`. Fails if a write or memory for the stack of pieces is
/// refused.
pub(crate) fn fmt_printed<W: fmt::Write, E: Printed>(
    f: &mut fmt::Formatter<W>,
    expr: &E,
) -> fmt::Result
    ensures { WritesOnOk W.write_str_gives f.old result (E.bytes expr.now).alone f.new }
{
    match expr.parts() {
        Parts::Leaf(leaf) => fmt_leaf(f, leaf),
        Parts::Predicate(_, inner)
        | Parts::Sequence(inner, _)
        | Parts::Choice(inner, _)
        | Parts::Postfix(inner, _)
        | Parts::Counted(inner, _)
        | Parts::Push(inner)
        | Parts::Tag(_, inner)
        | Parts::Wrapper(inner) => fmt_iteratively(f, *Box::allocator(inner), expr),
    }
}

/// Writes an expression without operands.
fn fmt_leaf<W: fmt::Write>(f: &mut fmt::Formatter<W>, leaf: Leaf<'_>) -> fmt::Result
    ensures { WritesOnOk W.write_str_gives f.old result (leaf_bytes leaf.entry) f.new }
{
    match leaf {
        Leaf::Str(text) => fmt_literal(f, text, '"'),
        Leaf::Insens(text) => fmt_insensitive(f, text),
        Leaf::Range(low, high) => fmt_range(f, low, high),
        Leaf::Ident(name) => f.write_str(name),
        Leaf::PeekSlice(start, end) => fmt_slice(f, start, end),
        Leaf::Skip(texts) => fmt_skip(f, texts),
        Leaf::PushLiteral(text) => fmt_push_literal(f, text),
    }
}

/// Writes an expression piece by piece.
fn fmt_iteratively<W: fmt::Write, E: Printed>(
    f: &mut fmt::Formatter<W>,
    alloc: Global,
    expr: &E,
) -> fmt::Result
    ensures { WritesOnOk W.write_str_gives f.old result (E.bytes expr.now).alone f.new }
{
    let mut pieces = Vec::new(alloc);
    put(&mut pieces, Piece::Part(Place::Alone, expr))?;
    while let Some(piece) = pieces.pop() {
        match piece {
            Piece::Sign(sign) => f.write_str(sign)?,
            Piece::Counts(counts) => fmt_counts(f, counts)?,
            Piece::Leaf(leaf) => fmt_leaf(f, leaf)?,
            Piece::Part(place, part) => put_parts(&mut pieces, place, part.parts())?,
        }
    }
    Ok(())
}

/// Puts a piece on the list.
fn put<'a, E: Printed>(pieces: &mut Vec<Piece<'a, E>>, piece: Piece<'a, E>) -> fmt::Result
    ensures { OnOk result (Puts E.bytes E.heft pieces.old.items pieces.new.items
        (piece_bytes E.bytes piece.entry) (piece_load E.heft piece.entry)) }
{
    match pieces.push(piece) {
        Ok(()) => Ok(()),
        Err(_) => Err(fmt::Error),
    }
}

/// Puts the pieces of an expression on the list, the first of them last.
fn put_parts<'a, E: Printed>(
    pieces: &mut Vec<Piece<'a, E>>,
    place: Place,
    parts: Parts<'a, E>,
) -> fmt::Result
    ensures { OnOk result (Puts E.bytes E.heft pieces.old.items pieces.new.items
        (bytes_at place (bytes_of_parts E.bytes parts.entry)) (6 * heft_of_parts E.heft parts.entry + 5)) }
{
    match parts {
        Parts::Leaf(leaf) => put(pieces, Piece::Leaf(leaf)),
        Parts::Predicate(sign, inner) => put_predicate(pieces, place, sign, inner),
        Parts::Sequence(left, right) => put_sequence(pieces, place, left, right),
        Parts::Choice(left, right) => put_choice(pieces, place, left, right),
        Parts::Postfix(inner, sign) => put_before(pieces, inner, Piece::Sign(sign)),
        Parts::Counted(inner, counts) => put_before(pieces, inner, Piece::Counts(counts)),
        Parts::Push(inner) => put_within(pieces, "PUSH(", inner),
        Parts::Tag(tag, inner) => put_tagged(pieces, tag, inner),
        Parts::Wrapper(inner) => put(pieces, Piece::Part(inside_wrapper(place), inner)),
    }
}

/// Returns the position of a wrapper's operand.
fn inside_wrapper(place: Place) -> Place
    ensures { result ≡ inside place }
{
    match place {
        Place::BeforePostfix => Place::BeforePostfix,
        _ => Place::Alone,
    }
}

/// Puts a predicate on the list: in parentheses before a postfix operator.
fn put_predicate<'a, E: Printed>(
    pieces: &mut Vec<Piece<'a, E>>,
    place: Place,
    sign: &'static str,
    inner: &'a E,
) -> fmt::Result
    ensures { OnOk result (Puts E.bytes E.heft pieces.old.items pieces.new.items
        (bytes_at place (predicate_bytes sign.now (E.bytes inner.now))) (6 * E.heft inner.now + 3)) }
{
    match place {
        Place::BeforePostfix => {
            put(pieces, Piece::Sign(")"))?;
            put_signed(pieces, sign, inner)?;
            put(pieces, Piece::Sign("("))
        }
        _ => put_signed(pieces, sign, inner),
    }
}

/// Pushes a predicate's sign and its operand.
fn put_signed<'a, E: Printed>(
    pieces: &mut Vec<Piece<'a, E>>,
    sign: &'static str,
    inner: &'a E,
) -> fmt::Result
    ensures { OnOk result (Puts E.bytes E.heft pieces.old.items pieces.new.items
        (sign.now ++ (E.bytes inner.now).alone) (6 * E.heft inner.now + 1)) }
{
    put(pieces, Piece::Part(Place::Alone, inner))?;
    put(pieces, Piece::Sign(sign))
}

/// Pushes an operand and the piece after it.
fn put_before<'a, E: Printed>(
    pieces: &mut Vec<Piece<'a, E>>,
    inner: &'a E,
    sign: Piece<'a, E>,
) -> fmt::Result
    ensures { OnOk result (Puts E.bytes E.heft pieces.old.items pieces.new.items
        ((E.bytes inner.now).before_postfix ++ piece_bytes E.bytes sign.entry)
        (6 * E.heft inner.now + piece_load E.heft sign.entry)) }
{
    put(pieces, sign)?;
    put(pieces, Piece::Part(Place::BeforePostfix, inner))
}

/// Pushes an expression between an opening and a closing parenthesis.
fn put_within<'a, E: Printed>(
    pieces: &mut Vec<Piece<'a, E>>,
    opening: &'static str,
    inner: &'a E,
) -> fmt::Result
    ensures { OnOk result (Puts E.bytes E.heft pieces.old.items pieces.new.items
        (opening.now ++ (E.bytes inner.now).alone ++ codes ")") (6 * E.heft inner.now + 2)) }
{
    put(pieces, Piece::Sign(")"))?;
    put(pieces, Piece::Part(Place::Alone, inner))?;
    put(pieces, Piece::Sign(opening))
}

/// Puts an expression with its tag on the list, in parentheses.
fn put_tagged<'a, E: Printed>(
    pieces: &mut Vec<Piece<'a, E>>,
    tag: &'a str,
    inner: &'a E,
) -> fmt::Result
    ensures { OnOk result (Puts E.bytes E.heft pieces.old.items pieces.new.items
        (enclosed (codes "#" ++ tag.entry.now ++ codes " = " ++ (E.bytes inner.now).alone))
        (6 * E.heft inner.now + 5)) }
{
    put(pieces, Piece::Sign(")"))?;
    put(pieces, Piece::Part(Place::Alone, inner))?;
    put(pieces, Piece::Sign(" = "))?;
    put(pieces, Piece::Leaf(Leaf::Ident(tag)))?;
    put(pieces, Piece::Sign("(#"))
}

/// Puts a sequence on the list: in parentheses, but not on the right of a `~`.
fn put_sequence<'a, E: Printed>(
    pieces: &mut Vec<Piece<'a, E>>,
    place: Place,
    left: &'a E,
    right: &'a E,
) -> fmt::Result
    ensures { OnOk result (Puts E.bytes E.heft pieces.old.items pieces.new.items
        (bytes_at place (sequence_bytes (E.bytes left.now) (E.bytes right.now)))
        (6 * (E.heft left.now + E.heft right.now) + 3)) }
{
    match place {
        Place::AfterTilde => put_sides(pieces, left, " ~ ", Piece::Part(Place::AfterTilde, right)),
        _ => {
            put(pieces, Piece::Sign(")"))?;
            put_sides(pieces, left, " ~ ", Piece::Part(Place::AfterTilde, right))?;
            put(pieces, Piece::Sign("("))
        }
    }
}

/// Puts a choice on the list: in parentheses, but not on the right of a `|`.
fn put_choice<'a, E: Printed>(
    pieces: &mut Vec<Piece<'a, E>>,
    place: Place,
    left: &'a E,
    right: &'a E,
) -> fmt::Result
    ensures { OnOk result (Puts E.bytes E.heft pieces.old.items pieces.new.items
        (bytes_at place (choice_bytes (E.bytes left.now) (E.bytes right.now)))
        (6 * (E.heft left.now + E.heft right.now) + 3)) }
{
    match place {
        Place::AfterBar => put_sides(pieces, left, " | ", Piece::Part(Place::AfterBar, right)),
        _ => {
            put(pieces, Piece::Sign(")"))?;
            put_sides(pieces, left, " | ", Piece::Part(Place::AfterBar, right))?;
            put(pieces, Piece::Sign("("))
        }
    }
}

/// Puts two sides and the sign between them on the list.
fn put_sides<'a, E: Printed>(
    pieces: &mut Vec<Piece<'a, E>>,
    left: &'a E,
    sign: &'static str,
    right: Piece<'a, E>,
) -> fmt::Result
    ensures { OnOk result (Puts E.bytes E.heft pieces.old.items pieces.new.items
        ((E.bytes left.now).alone ++ sign.now ++ piece_bytes E.bytes right.entry)
        (6 * E.heft left.now + 1 + piece_load E.heft right.entry)) }
{
    put(pieces, right)?;
    put(pieces, Piece::Sign(sign))?;
    put(pieces, Piece::Part(Place::Alone, left))
}
