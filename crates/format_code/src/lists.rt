//! Words, and lists of lists, as bytes.
ghost use Rattle.std.specs.Prelude.{◌≡◌, ◌<◌, ◌*◌, ◌^◌, ◌++◌, ◌∷◌, IfOk, OnOk, flat_map, length, map};
ghost use Rattle.std.specs.Int.{to_le_bytes, w32};
ghost use Rattle.matcher_code.specs.Words.{pairs_in, words_in};
ghost use Rattle.format_code.specs.Sections.{ends_from};

use std::alloc::{AllocError, Global};

/// Returns the bytes of a word, the lowest first.
#[inline(always)]
pub(crate) fn word_bytes(word: u32) -> [u8; 4]
    ensures bytes { result ≡ to_le_bytes w32 word }
    ensures fits { word < 2 ^ 32 }
{
    word.to_le_bytes()
}

/// Appends a word.
pub(crate) fn push_word(bytes: &mut Vec<u8>, word: u32) -> Result<(), AllocError>
    ensures bytes { OnOk result (bytes.new.items ≡ bytes.old.items ++ to_le_bytes w32 word) }
    ensures fits { word < 2 ^ 32 }
{
    bytes.extend_from_slice(&word.to_le_bytes())
}

/// Returns words as pieces of four bytes.
pub(crate) fn word_pieces(alloc: Global, words: &[u32]) -> Result<Vec<[u8; 4]>, AllocError>
    ensures { IfOk result (λ pieces. words_in (flat_map (λ x. x) pieces.items) ≡ words.now) }
{
    let mut pieces = Vec::new(alloc);
    pieces.resize(words.len(), [0; 4])?;
    for index in 0..words.len() {
        pieces[index] = word_bytes(words[index]);
    }
    Ok(pieces)
}

/// Returns words as bytes.
pub(crate) fn words_bytes(alloc: Global, words: &[u32]) -> Result<Vec<u8>, AllocError>
    ensures words { IfOk result (λ bytes. words_in bytes.items ≡ words.now) }
    ensures size { IfOk result (λ bytes. length bytes.items ≡ length words.now * 4) }
{
    let mut bytes = Vec::with_capacity(alloc, words.len().saturating_mul(4))?;
    for word in words {
        push_word(&mut bytes, *word)?;
    }
    Ok(bytes)
}

/// Returns pairs of words as bytes.
pub(crate) fn pairs_bytes(alloc: Global, pairs: &[(u32, u32)]) -> Result<Vec<u8>, AllocError>
    ensures { IfOk result (λ bytes. pairs_in bytes.items ≡ pairs.now) }
{
    let mut bytes = Vec::with_capacity(alloc, pairs.len().saturating_mul(8))?;
    for (low, high) in pairs {
        push_word(&mut bytes, *low)?;
        push_word(&mut bytes, *high)?;
    }
    Ok(bytes)
}

/// Returns the places where lists begin that stand one after another from a place on, and the place
/// where they end. Errors: allocation failed, or a place does not fit.
pub(crate) fn places_of<T>(
    alloc: Global,
    start: usize,
    lists: &[&[T]],
) -> Result<Vec<u32>, AllocError>
    ensures fits { OnOk result (start < 2 ^ 32) }
    ensures places { IfOk result (λ places. places.items ≡ start ∷ ends_from start (map
        (λ l. l.now) lists.now)) }
{
    let Ok(first) = u32::try_from(start) else {
        return Err(AllocError);
    };
    let mut places = Vec::new(alloc);
    places.push(first)?;
    let mut end = start;
    for list in lists {
        end = end.saturating_add(list.len());
        if end > u32::MAX as usize {
            return Err(AllocError);
        }
        places.push(end as u32)?;
    }
    Ok(places)
}

/// Appends lists, one after another. After an error some of them are appended.
pub(crate) fn append<T: Copy>(items: &mut Vec<T>, lists: &[&[T]]) -> Result<(), AllocError>
    ensures { OnOk result (items.new.items ≡ items.old.items ++ flat_map (λ l. l.now) lists.now) }
{
    for list in lists {
        items.extend_from_slice(list)?;
    }
    Ok(())
}

/// Returns lists as one, one after another.
pub(crate) fn join<T: Copy>(alloc: Global, lists: &[&[T]]) -> Result<Vec<T>, AllocError>
    ensures { IfOk result (λ items. items.items ≡ flat_map (λ l. l.now) lists.now) }
{
    let mut items = Vec::new(alloc);
    append(&mut items, lists)?;
    Ok(items)
}
