//! Changes of a text, applied.
ghost use Rattle.std.specs.Prelude.{◌≡◌, ◌≤◌, ◌++◌, IfOk, string_bytes, take, drop};
ghost use Rattle.std.specs.Str.{IsCharBoundary};
ghost use Rattle.server_protocol.specs.TextChanges.{AreChanged, IsChanged};

use crate::positions::{Encoding, Range, offset_of};
use std::alloc::{AllocError, Global};

/// A change of a text: a range that is replaced, or none if all of the text is, and the new text.
#[derive(Clone, Copy)]
pub struct Change<'c> {
    pub range: Option<Range>,
    pub text: &'c str,
}

/// Returns a text after a change.
pub fn apply_change(
    alloc: Global,
    text: &str,
    encoding: Encoding,
    change: Change<'_>,
) -> Result<String, AllocError>
    ensures { IfOk result (λ changed. IsChanged encoding text.now change.entry (string_bytes changed)) }
{
    let Some(range) = change.range else {
        return String::from_str(alloc, change.text);
    };
    let start = offset_of(text, encoding, range.start);
    let end = offset_of(text, encoding, range.end);
    replace_range(alloc, text, start, start.max(end), change.text)
}

/// Returns a text in which the bytes from `start` up to `end` are replaced.
fn replace_range(
    alloc: Global,
    text: &str,
    start: usize,
    end: usize,
    inserted: &str,
) -> Result<String, AllocError>
    requires start { IsCharBoundary text.now start }
    requires end { IsCharBoundary text.now end }
    ensures { IfOk result (λ changed.
        string_bytes changed ≡ take start text.now ++ inserted.now ++ drop end text.now) }
{
    let mut changed = String::from_str(alloc, &text[..start])?;
    changed.push_str(inserted)?;
    changed.push_str(&text[end..])?;
    Ok(changed)
}

/// Returns a text after changes, each of the text that the one before it left.
pub fn apply_changes(
    alloc: Global,
    text: &str,
    encoding: Encoding,
    changes: &[Change<'_>],
) -> Result<String, AllocError>
    ensures { IfOk result (λ changed. AreChanged encoding text.now changes.now (string_bytes changed)) }
{
    let mut changed = String::from_str(alloc, text)?;
    for change in changes {
        changed = apply_change(alloc, changed.as_str(), encoding, *change)?;
    }
    Ok(changed)
}
