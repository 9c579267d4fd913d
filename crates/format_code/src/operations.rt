//! Operations as bytes.
ghost use Rattle.std.specs.Prelude.{◌≡◌, IfOk, flat_map, length, true};
ghost use Rattle.format_code.specs.Kinds.{uses_stack};
ghost use Rattle.matcher_code.specs.Operations.{op_of, ops_in};
ghost use Rattle.matcher_code.specs.Words.{words_in};
ghost use Rattle.matcher_code.specs.declared.code.Op.TheVariants as op;

use crate::lists::word_bytes;
use matcher_code::code::Op;
use std::alloc::{AllocError, Global};

/// Returns the five words of an operation.
fn words_of(op: Op) -> [u32; 5]
    ensures same { op_of result ≡ op }
    ensures five { length result ≡ 5 }
{
    match op {
        Op::Fail => [0, 0, 0, 0, 0],
        Op::Call {
            to,
            rule,
            next,
            fail,
            counts,
        } => [if counts { 2 } else { 1 }, to, rule, next, fail],
        Op::Sub { to, next, fail } => [3, to, next, fail, 0],
        Op::Return => [4, 0, 0, 0, 0],
        Op::Back => [5, 0, 0, 0, 0],
        Op::Switch { table } => [6, table, 0, 0, 0],
        Op::One { set, next, fail } => [7, set, next, fail, 0],
        Op::IsOne { set, next, fail } => [8, set, next, fail, 0],
        Op::All { set, next } => [9, set, next, 0, 0],
        Op::Trivia {
            set,
            stops,
            next,
            slow,
        } => [10, set, stops, next, slow],
        Op::Text { text, next, fail } => [11, text, next, fail, 0],
        Op::AnyCase { text, next, fail } => [12, text, next, fail, 0],
        Op::Until { firsts, list, next } => [13, firsts, list, next, 0],
        Op::Try { next, fail } => [14, next, fail, 0, 0],
        Op::Commit { next } => [15, next, 0, 0, 0],
        Op::Ahead { next } => [16, next, 0, 0, 0],
        Op::Note { next } => [17, next, 0, 0, 0],
        Op::Start { next, fail } => [18, next, fail, 0, 0],
        Op::End { next, fail } => [19, next, fail, 0, 0],
        Op::Leaf { rule, next } => [20, rule, next, 0, 0],
        Op::Nested {
            opening,
            closing,
            next,
            fail,
        } => [21, opening, closing, next, fail],
        Op::Push { .. }
        | Op::PushText { .. }
        | Op::Peek { .. }
        | Op::Pop { .. }
        | Op::Discard { .. }
        | Op::PeekAll { .. }
        | Op::PopAll { .. }
        | Op::Slice { .. } => stack_words(op),
        Op::Halt => [31, 0, 0, 0, 0],
        Op::Not { next, fail } => [32, next, fail, 0, 0],
        Op::Miss { rule, next } => [33, rule, next, 0, 0],
        Op::Lose => [255, 0, 0, 0, 0],
    }
}

/// Returns the five words of an operation on the stack.
fn stack_words(op: Op) -> [u32; 5]
    requires { uses_stack op ≡ true }
    ensures same { op_of result ≡ op }
    ensures five { length result ≡ 5 }
{
    match op {
        Op::Push { next } => [22, next, 0, 0, 0],
        Op::PushText { text, next } => [23, text, next, 0, 0],
        Op::Peek { next, fail } => [24, next, fail, 0, 0],
        Op::Pop { next, fail } => [25, next, fail, 0, 0],
        Op::Discard { next, fail } => [26, next, fail, 0, 0],
        Op::PeekAll { next, fail } => [27, next, fail, 0, 0],
        Op::PopAll { next, fail } => [28, next, fail, 0, 0],
        Op::Slice {
            from,
            to,
            next,
            fail,
        } => slice_words(from, to, next, fail),
        _ => unreachable!(),
    }
}

/// Returns the five words of the operation on a slice of the stack.
fn slice_words(from: i32, to: Option<i32>, next: u32, fail: u32) -> [u32; 5]
    ensures same { op_of result ≡ op.Slice from to next fail }
    ensures five { length result ≡ 5 }
{
    let start = from.cast_unsigned();
    match to {
        None => [29, start, next, fail, 0],
        Some(to) => [30, start, to.cast_unsigned(), next, fail],
    }
}

/// Returns the twenty bytes of five words.
#[inline(always)]
fn piece_of(words: [u32; 5]) -> [[u8; 4]; 5]
    ensures words { words_in (flat_map (λ x. x) result) ≡ words }
    ensures size { length (flat_map (λ x. x) result) ≡ 20 }
{
    let [kind, a, b, c, d] = words;
    [
        word_bytes(kind),
        word_bytes(a),
        word_bytes(b),
        word_bytes(c),
        word_bytes(d),
    ]
}

/// Returns operations as pieces of twenty bytes.
pub(crate) fn op_pieces(alloc: Global, ops: &[Op]) -> Result<Vec<[[u8; 4]; 5]>, AllocError>
    ensures { IfOk result (λ pieces. ops_in (flat_map (λ x. x) (flat_map (λ x. x) pieces.items)) ≡ ops.now) }
{
    let mut pieces = Vec::with_capacity(alloc, ops.len())?;
    for op in ops {
        pieces.push(piece_of(words_of(*op)))?;
    }
    Ok(pieces)
}
