//! Words, and parts of lists, in bytes.
ghost use Rattle.std.specs.Prelude.{◌≡◌, [], get_or, map};
ghost use Rattle.matcher_code.specs.Words.{pair_in, part, parts_in, word};

/// Returns the number of a word.
#[inline(always)]
pub fn word(piece: &[u8; 4]) -> u32
    ensures { result ≡ word piece.now }
{
    u32::from_le_bytes(*piece)
}

/// Returns the numbers of a pair of words.
#[inline(always)]
pub(crate) fn pair_in(piece: &[u8; 8]) -> (u32, u32)
    ensures { result ≡ pair_in piece.now }
{
    let [a, b, c, d, e, f, g, h] = *piece;
    (
        u32::from_le_bytes([a, b, c, d]),
        u32::from_le_bytes([e, f, g, h]),
    )
}

/// Returns the part of a list from one place to another, as much of it as there is.
#[inline(always)]
pub fn part<T>(items: &[T], from: usize, to: usize) -> &[T]
    ensures { result.now ≡ part items.entry.now from to }
{
    let rest = match items.get(from..) {
        Some(rest) => rest,
        None => &[],
    };
    match rest.get(..to.saturating_sub(from)) {
        Some(some) => some,
        None => rest,
    }
}

/// Returns the part of a number, from its place to the next.
#[inline(always)]
pub fn part_at<'a, T>(places: &[[u8; 4]], items: &'a [T], number: u32) -> &'a [T]
    ensures { result.now ≡ get_or (parts_in (map word places.now) items.entry.now) number [] }
{
    let Some(to) = places.get(number as usize + 1) else {
        return &[];
    };
    let Some(from) = places.get(number as usize) else {
        return &[];
    };
    part(items, word(from) as usize, word(to) as usize)
}
