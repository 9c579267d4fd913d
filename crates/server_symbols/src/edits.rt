//! Edits between texts: few that make one the other.
ghost use Rattle.std.specs.Prelude.{◌≡◌, IfOk, true};
ghost use Rattle.server_symbols.specs.Edits.{AreInOrder, Edits, edited};

use crate::parts::part;
use crate::tokens::{Extent, Token, tokens_of};
use std::alloc::{AllocError, Global};

/// An edit: the bytes of a text that are replaced, and those of another text in their place.
#[derive(Clone, Copy, Debug, PartialEq, Eq)]
pub struct Edit {
    pub old: Extent,
    pub new: Extent,
}

/// Returns edits, in order and apart from one another, that change `text` to `other`. If both have the same
/// tokens except for white space, only the white space that differs is replaced. If not, the whole text is.
pub fn edits_between(alloc: Global, text: &str, other: &str) -> Result<Vec<Edit>, AllocError>
    ensures { IfOk result (λ edits. Edits text.now other.now edits.items) }
{
    let edits = candidate_edits(alloc, text, other)?;
    if is_edited(alloc, text.as_bytes(), other.as_bytes(), &edits)? {
        Ok(edits)
    } else {
        whole_edit(alloc, text.as_bytes(), other.as_bytes())
    }
}

/// Returns the edit that replaces all of a text.
fn whole_edit(alloc: Global, text: &[u8], other: &[u8]) -> Result<Vec<Edit>, AllocError>
    ensures { IfOk result (λ edits. Edits text.now other.now edits.items) }
{
    let mut edits = Vec::new(alloc);
    edits.push(Edit {
        old: extent_of(0, text.len()),
        new: extent_of(0, other.len()),
    })?;
    Ok(edits)
}

/// Returns the bytes from `start` up to `end`.
fn extent_of(start: usize, end: usize) -> Extent
    ensures start { result.start ≡ start }
    ensures end { result.end ≡ end }
{
    Extent { start, end }
}

/// Returns the edits of what differs between and at tokens of the same index.
fn candidate_edits(alloc: Global, text: &str, other: &str) -> Result<Vec<Edit>, AllocError> {
    let tokens = tokens_of(alloc, text)?;
    let other_tokens = tokens_of(alloc, other)?;
    let mut edits = Vec::new(alloc);
    let mut cursor = Edit {
        old: extent_of(0, 0),
        new: extent_of(0, 0),
    };
    for (token, other_token) in tokens.iter().zip(other_tokens.iter()) {
        push_gap(text, other, cursor, *token, *other_token, &mut edits)?;
        cursor = Edit {
            old: token.extent(),
            new: other_token.extent(),
        };
        push_different(text, other, cursor, &mut edits)?;
    }
    let gap = Edit {
        old: extent_of(cursor.old.end, text.len()),
        new: extent_of(cursor.new.end, other.len()),
    };
    push_different(text, other, gap, &mut edits)?;
    Ok(edits)
}

/// Adds the edit of what is before two tokens.
fn push_gap(
    text: &str,
    other: &str,
    cursor: Edit,
    token: Token,
    other_token: Token,
    edits: &mut Vec<Edit>,
) -> Result<(), AllocError> {
    let gap = Edit {
        old: extent_of(cursor.old.end, token.start),
        new: extent_of(cursor.new.end, other_token.start),
    };
    push_different(text, other, gap, edits)
}

/// Adds an edit, if it changes something.
fn push_different(
    text: &str,
    other: &str,
    edit: Edit,
    edits: &mut Vec<Edit>,
) -> Result<(), AllocError> {
    let old = part(text.as_bytes(), edit.old.start, edit.old.end);
    let new = part(other.as_bytes(), edit.new.start, edit.new.end);
    if old != new {
        edits.push(edit)?;
    }
    Ok(())
}

/// Whether edits are in order, and make one text another one.
fn is_edited(alloc: Global, text: &[u8], other: &[u8], edits: &[Edit]) -> Result<bool, AllocError>
    ensures { IfOk result (λ answer. answer ≡ true → Edits text.now other.now edits.now) }
{
    if !are_in_order(edits) {
        return Ok(false);
    }
    let edited = apply_edits(alloc, text, other, edits)?;
    Ok(edited.as_slice() == other)
}

/// Whether edits are in order, and apart from one another.
fn are_in_order(edits: &[Edit]) -> bool
    ensures { result ≡ true → AreInOrder 0 edits.now }
{
    let mut cursor = 0;
    let mut rest = edits;
    while let Some((edit, after)) = rest.split_first() {
        if edit.old.start < cursor || edit.old.end < edit.old.start {
            return false;
        }
        cursor = edit.old.end;
        rest = after;
    }
    true
}

/// Returns a text after edits.
fn apply_edits(
    alloc: Global,
    text: &[u8],
    other: &[u8],
    edits: &[Edit],
) -> Result<Vec<u8>, AllocError>
    ensures { IfOk result (λ bytes. bytes.items ≡ edited text.now other.now 0 edits.now) }
{
    let mut bytes = Vec::new(alloc);
    let mut cursor = 0;
    let mut rest = edits;
    while let Some((edit, after)) = rest.split_first() {
        bytes.extend_from_slice(part(text, cursor, edit.old.start))?;
        bytes.extend_from_slice(part(other, edit.new.start, edit.new.end))?;
        cursor = edit.old.end;
        rest = after;
    }
    bytes.extend_from_slice(part(text, cursor, text.len()))?;
    Ok(bytes)
}
