//! Texts of the stack.
ghost use Rattle.matcher_code.specs.Bytecodes.{lists_in};
ghost use Rattle.std.specs.Prelude.{◌≡◌, ◌≤◌, ◌-◌, IfSome, drop, length, map, reverse, take};
ghost use Rattle.base_language.specs.Language.Matching.{concatenated, end_place, place};
ghost use Rattle.matcher_machine.specs.Stacks.{bytes_of, length_if};

use crate::stack::StackText;
use matcher_code::bytecode::Bytecode;
use matcher_code::reading::{bytes_between, match_bytes, text_of};

/// Returns the bytes of a text on the stack.
#[inline(always)]
fn bytes_of<'a>(code: &Bytecode<'a>, text: &'a str, held: StackText) -> &'a [u8]
    ensures { result.now ≡ bytes_of (lists_in code.now) text.entry.now held }
{
    match held {
        StackText::Input { from, to } => bytes_between(text, from, to),
        StackText::Program { text: number } => text_of(code, number),
    }
}

/// Returns the length of a text of the stack, if it is next.
#[inline(always)]
pub(crate) fn match_held(
    code: &Bytecode<'_>,
    text: &str,
    held: StackText,
    at: usize,
) -> Option<usize>
    ensures value { result ≡ length_if (bytes_of (lists_in code.now) text.now held) (drop at text.now) }
    ensures within { IfSome result (λ size. size ≤ length text.now - at) }
{
    match_bytes(bytes_of(code, text, held), text, at)
}

/// Converts a number of a slice to an index among `count` texts; negative ones count from the end.
pub(crate) fn index_of(count: usize, number: i32) -> Option<usize>
    ensures { result ≡ place count number }
{
    if number >= 0 {
        let index = number as usize;
        if index <= count { Some(index) } else { None }
    } else {
        let back = number.unsigned_abs() as usize;
        if back <= count {
            Some(count - back)
        } else {
            None
        }
    }
}

/// Converts the end of a slice, which is that of the stack if there is none.
pub(crate) fn end_of(count: usize, number: Option<i32>) -> Option<usize>
    ensures { result ≡ end_place count number }
{
    match number {
        Some(number) => index_of(count, number),
        None => Some(count),
    }
}

/// Returns the length of the texts between two indices, counted from the last one, one after another, if they
/// are next.
pub(crate) fn match_between(
    code: &Bytecode<'_>,
    text: &str,
    texts: &[StackText],
    start: usize,
    end: usize,
    at: usize,
) -> Option<usize>
    requires within { end ≤ length texts.now }
    ensures value { result ≡ length_if (concatenated
        (take (end - start) (drop start (reverse (map (bytes_of (lists_in code.now) text.now) texts.now)))))
        (drop at text.now) }
    ensures within { IfSome result (λ size. size ≤ length text.now - at) }
{
    let mut size: usize = 0;
    for index in start..end {
        match match_held(code, text, texts[texts.len() - 1 - index], at + size) {
            Some(more) => size += more,
            None => return None,
        }
    }
    Some(size)
}
