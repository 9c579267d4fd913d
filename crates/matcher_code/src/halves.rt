//! Ranges of characters in bytes.
ghost use Rattle.std.specs.Prelude.{◌≡◌, ◌≤◌, ℕ, IfSome, None, false, length, map, max, min, true};
ghost use Rattle.matcher_code.specs.Halves.{is_found};
ghost use Rattle.matcher_code.specs.Lists.{is_covered};
ghost use Rattle.matcher_code.specs.Words.{pair_in};

use crate::words::pair_in;

/// Returns whether the number of a character is in one of some ranges.
pub(crate) fn is_covered(ranges: &[[u8; 8]], c: u32) -> bool
    ensures { result ≡ is_covered (map pair_in ranges.now) c }
{
    for piece in ranges {
        let (low, high) = pair_in(piece);
        if low <= c && c <= high {
            return true;
        }
    }
    false
}

/// Characters that follow one another, from the first to the last, by their numbers.
#[derive(Clone, Copy, Debug)]
pub(crate) struct CharRange {
    pub first: u32,
    pub last: u32,
}

/// Returns the larger of two numbers.
#[inline(always)]
fn larger(a: u32, b: u32) -> u32
    ensures { result ≡ max a b }
{
    if a < b { b } else { a }
}

/// Returns the smaller of two numbers.
#[inline(always)]
fn smaller(a: u32, b: u32) -> u32
    ensures { result ≡ min a b }
{
    if a < b { a } else { b }
}

/// Returns characters around one that is in some ranges, all of which a search by halves finds there, or none
/// if it does not find that one.
pub(crate) fn find_range(ranges: &[[u8; 8]], c: u32) -> Option<CharRange>
    ensures all { IfSome result (λ range. (d : ℕ) → range.first ≤ d → d ≤ range.last
        → is_found (map pair_in ranges.now) d ≡ true) }
    ensures around { IfSome result (λ range. (range.first ≤ c) × (c ≤ range.last)) }
    ensures none { result ≡ None → is_found (map pair_in ranges.now) c ≡ false }
{
    let mut low = 0;
    let mut high = ranges.len();
    let mut first = 0;
    let mut last = u32::MAX;
    while low < high {
        let middle = low + (high - low) / 2;
        let (_, end) = pair_in(&ranges[middle]);
        if end < c {
            low = middle + 1;
            first = larger(first, end + 1);
        } else {
            high = middle;
            last = smaller(last, end);
        }
    }
    match ranges.get(low) {
        Some(piece) => {
            let (start, end) = pair_in(piece);
            if start <= c && c <= end {
                Some(CharRange {
                    first: larger(first, start),
                    last: smaller(last, end),
                })
            } else {
                None
            }
        }
        None => None,
    }
}
