//! The parameters of messages.
ghost use Rattle.std.specs.List.{AllZip};
ghost use Rattle.std.specs.Prelude.{◌≡◌, IfOk, MatchOption, map, option_map};
ghost use Rattle.server_protocol.specs.Asked as spec;
ghost use Rattle.server_protocol.specs.Changes as changes;
ghost use Rattle.serde_json.specs.View.{items_view, view};

use crate::{Change, Position, Range};
use serde_json::Value;
use std::alloc::{AllocError, Global};

/// Returns the text at a path of a value.
pub fn text_at<'v>(value: &'v Value, path: &str) -> Option<&'v str>
    ensures { option_map (λ text. text.now) result ≡ spec.text_in path.now (view value.now) }
{
    value.pointer(path).and_then(Value::as_str)
}

/// Returns the number at a path of a value.
pub fn number_at(value: &Value, path: &str) -> Option<usize>
    ensures { result ≡ spec.number_in path.now (view value.now) }
{
    match value.pointer(path).and_then(Value::as_u64) {
        Some(number) => Some(number as usize),
        None => None,
    }
}

/// Whether there is `true` at a path of a value.
pub fn is_true_at(value: &Value, path: &str) -> bool
    ensures { result ≡ spec.is_true_in path.now (view value.now) }
{
    value
        .pointer(path)
        .and_then(Value::as_bool)
        .unwrap_or(false)
}

/// Whether there is a list with this text at a path of a value.
pub fn lists_at(value: &Value, path: &str, text: &str) -> bool
    ensures { result ≡ spec.lists_in path.now text.now (view value.now) }
{
    match value.pointer(path).and_then(Value::as_array) {
        Some(items) => has_item(items, text),
        None => false,
    }
}

/// Whether a text is among items.
fn has_item(items: &[Value], text: &str) -> bool
    ensures { result ≡ spec.has_item text.now (items_view items.now) }
{
    let mut rest = items;
    while let Some((item, after)) = rest.split_first() {
        if is_text(item, text) {
            return true;
        }
        rest = after;
    }
    false
}

/// Whether a value is a text.
fn is_text(value: &Value, text: &str) -> bool
    ensures { result ≡ spec.is_text text.now (view value.now) }
{
    match value.as_str() {
        Some(found) => found == text,
        None => false,
    }
}

/// Returns a position.
pub fn position_of(value: &Value) -> Option<Position>
    ensures { result ≡ spec.position_in (view value.now) }
{
    position_from(number_at(value, "/line"), number_at(value, "/character"))
}

/// Returns the position of a line and a character, if there are both.
fn position_from(line: Option<usize>, character: Option<usize>) -> Option<Position>
    ensures { result ≡ spec.position_from line character }
{
    let line = line?;
    let character = character?;
    Some(Position { line, character })
}

/// Returns the position in the parameters of a request.
pub fn asked_position(params: &Value) -> Option<Position>
    ensures { result ≡ spec.asked_position (view params.now) }
{
    params.get("position").and_then(position_of)
}

/// Returns the range in the parameters of a request.
pub fn asked_range(params: &Value) -> Option<Range>
    ensures { result ≡ changes.asked_range (view params.now) }
{
    params.get("range").and_then(range_of)
}

/// Returns a range.
pub fn range_of(value: &Value) -> Option<Range>
    ensures { result ≡ changes.range_in (view value.now) }
{
    range_from(
        value.get("start").and_then(position_of),
        value.get("end").and_then(position_of),
    )
}

/// Returns the range of two positions, if there are both.
fn range_from(start: Option<Position>, end: Option<Position>) -> Option<Range>
    ensures { result ≡ changes.range_from start end }
{
    let start = start?;
    let end = end?;
    Some(Range { start, end })
}

/// Returns the version of a document.
pub fn version_of(params: &Value) -> Option<i64>
    ensures { result ≡ changes.version_in (view params.now) }
{
    let version = params.pointer("/textDocument/version")?;
    version.as_i64()
}

/// Returns the changes in parameters, or none if one of them is no change.
pub fn changes_in<'v>(
    alloc: Global,
    params: &'v Value,
) -> Result<Option<Vec<Change<'v>>>, AllocError>
    ensures { IfOk result (λ found. MatchOption found (changes.LacksChanges (view params.now))
        (λ list. changes.AreChangesIn (view params.now) list.items)) }
{
    match params.get("contentChanges").and_then(Value::as_array) {
        Some(values) => changes_of(alloc, values),
        None => Ok(None),
    }
}

/// Returns the changes in a list, or none if one of them is no change.
fn changes_of<'v>(alloc: Global, values: &'v [Value]) -> Result<Option<Vec<Change<'v>>>, AllocError>
    ensures { IfOk result (λ found. MatchOption found (changes.HasNoChange (map view values.now))
        (λ list. AllZip changes.IsChangeIn (map view values.now) list.items)) }
{
    let mut changes = Vec::new(alloc);
    let mut rest = values;
    while let Some((value, after)) = rest.split_first() {
        let Some(change) = change_of(value) else {
            return Ok(None);
        };
        changes.push(change)?;
        rest = after;
    }
    Ok(Some(changes))
}

/// Returns a change. One without a range replaces all of the text.
fn change_of(value: &Value) -> Option<Change<'_>>
    ensures { MatchOption result (changes.IsNoChange (view value.now))
        (changes.IsChangeIn (view value.now)) }
{
    let text = text_at(value, "/text")?;
    let range = changed_range(value)?;
    Some(Change { range, text })
}

/// Returns the range of a change, if it has one. Fails if that is no range.
fn changed_range(value: &Value) -> Option<Option<Range>>
    ensures { result ≡ changes.changed_range (view value.now) }
{
    match value.get("range") {
        None => Some(None),
        Some(range) => Some(Some(range_of(range)?)),
    }
}
