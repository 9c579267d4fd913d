//! Sections of bytes.
ghost use Rattle.std.specs.Prelude.{◌≡◌, ◌<◌, ℕ, IfOk, [], get_or, length, map};
ghost use Rattle.format_code.specs.Sections.{section};

use crate::lists::{append, places_of, words_bytes};
use matcher_code::words::part_at;
use std::alloc::{AllocError, Global};

/// Returns a section of bytes that begin with the places of their sections; a missing one is empty.
pub fn section(bytes: &[u8], number: u32) -> &[u8]
    ensures { result.now ≡ section bytes.entry.now number }
{
    let (places, _) = bytes.as_chunks::<4>();
    part_at(places, bytes, number)
}

/// Makes room up to the last of some places.
fn reserve_to_end(bytes: &mut Vec<u8>, places: &[u32]) -> Result<(), AllocError>
    ensures { bytes.new.items ≡ bytes.old.items }
{
    match places.last() {
        Some(end) => bytes.reserve((*end as usize).saturating_sub(bytes.len())),
        None => Ok(()),
    }
}

/// Returns bytes of some sections, which begin with their places. Errors: allocation failed, or a place does
/// not fit.
pub fn join_sections(alloc: Global, sections: &[&[u8]]) -> Result<Vec<u8>, AllocError>
    ensures { IfOk result (λ bytes. (k : ℕ) → k < length sections.now
        → section bytes.items k ≡ get_or (map (λ s. s.now) sections.now) k []) }
{
    let start = sections.len().saturating_add(1).saturating_mul(4);
    let places = places_of(alloc, start, sections)?;
    let mut bytes = words_bytes(alloc, &places)?;
    reserve_to_end(&mut bytes, &places)?;
    append(&mut bytes, sections)?;
    Ok(bytes)
}
