//! Operations in bytes.
ghost use Rattle.std.specs.Prelude.{◌≡◌};
ghost use Rattle.matcher_code.specs.Operations.{op_in, op_of};
ghost use Rattle.matcher_code.specs.declared.code.Op.TheVariants as op;

use crate::code::Op;

/// Returns the operation of five words.
#[inline(always)]
fn op_of(words: [u32; 5]) -> Op
    ensures { result ≡ op_of words }
{
    let [kind, a, b, c, d] = words;
    match kind {
        0 => Op::Fail,
        1 => call(a, b, c, d, false),
        2 => call(a, b, c, d, true),
        3 => Op::Sub {
            to: a,
            next: b,
            fail: c,
        },
        4 => Op::Return,
        5 => Op::Back,
        6 => Op::Switch { table: a },
        7 => Op::One {
            set: a,
            next: b,
            fail: c,
        },
        8 => Op::IsOne {
            set: a,
            next: b,
            fail: c,
        },
        9 => Op::All { set: a, next: b },
        10 => Op::Trivia {
            set: a,
            stops: b,
            next: c,
            slow: d,
        },
        11 => Op::Text {
            text: a,
            next: b,
            fail: c,
        },
        12 => Op::AnyCase {
            text: a,
            next: b,
            fail: c,
        },
        13 => Op::Until {
            firsts: a,
            list: b,
            next: c,
        },
        14 => Op::Try { next: a, fail: b },
        15 => Op::Commit { next: a },
        16 => Op::Ahead { next: a },
        17 => Op::Note { next: a },
        18 => Op::Start { next: a, fail: b },
        19 => Op::End { next: a, fail: b },
        20 => Op::Leaf { rule: a, next: b },
        21 => Op::Nested {
            opening: a,
            closing: b,
            next: c,
            fail: d,
        },
        22 => Op::Push { next: a },
        23 => Op::PushText { text: a, next: b },
        24 => Op::Peek { next: a, fail: b },
        25 => Op::Pop { next: a, fail: b },
        26 => Op::Discard { next: a, fail: b },
        27 => Op::PeekAll { next: a, fail: b },
        28 => Op::PopAll { next: a, fail: b },
        29 => Op::Slice {
            from: a.cast_signed(),
            to: None,
            next: b,
            fail: c,
        },
        30 => Op::Slice {
            from: a.cast_signed(),
            to: Some(b.cast_signed()),
            next: c,
            fail: d,
        },
        31 => Op::Halt,
        32 => Op::Not { next: a, fail: b },
        33 => Op::Miss { rule: a, next: b },
        _ => Op::Lose,
    }
}

/// Returns a call.
fn call(to: u32, rule: u32, next: u32, fail: u32, counts: bool) -> Op
    ensures { result ≡ op.Call to rule next fail counts }
{
    Op::Call {
        to,
        rule,
        next,
        fail,
        counts,
    }
}

/// Returns the operation of twenty bytes.
#[inline(always)]
pub(crate) fn read_op(piece: &[u8; 20]) -> Op
    ensures { result ≡ op_in piece.now }
{
    let (words, _) = piece.as_chunks::<4>();
    op_of([
        u32::from_le_bytes(words[0]),
        u32::from_le_bytes(words[1]),
        u32::from_le_bytes(words[2]),
        u32::from_le_bytes(words[3]),
        u32::from_le_bytes(words[4]),
    ])
}
