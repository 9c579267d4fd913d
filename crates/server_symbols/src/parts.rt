//! Parts of texts (as they are, and replaced).
ghost use Rattle.std.specs.Prelude.{◌≡◌, IfOk};
ghost use Rattle.std.specs.List.{slice_range};
ghost use Rattle.server_symbols.specs.Parts.{replaced};

use crate::tokens::Extent;
use std::alloc::{AllocError, Global};

/// Returns the bytes from `start` up to `end`, or up to the end of the text.
pub(crate) fn part(text: &[u8], start: usize, end: usize) -> &[u8]
    ensures { result.now ≡ slice_range text.entry.now start end }
{
    let end = end.min(text.len());
    if start < end {
        &text[start..end]
    } else {
        &text[..0]
    }
}

/// Returns a text in which parts are replaced, which are given in order.
pub(crate) fn replace_all(
    alloc: Global,
    text: &[u8],
    parts: &[Extent],
    replacement: &[u8],
) -> Result<Vec<u8>, AllocError>
    ensures { IfOk result (λ edited. edited.items ≡ replaced text.now 0 parts.now replacement.now) }
{
    let mut edited = Vec::new(alloc);
    let mut cursor = 0;
    let mut rest = parts;
    while let Some((extent, after)) = rest.split_first() {
        edited.extend_from_slice(part(text, cursor, extent.start))?;
        edited.extend_from_slice(replacement)?;
        cursor = extent.end;
        rest = after;
    }
    edited.extend_from_slice(part(text, cursor, text.len()))?;
    Ok(edited)
}
