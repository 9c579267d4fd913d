//! Structures as values: positions, ranges, locations and edits.
ghost use Rattle.std.specs.Prelude.{◌≡◌, IfOk};
ghost use Rattle.server_protocol.specs.Values as spec;
ghost use Rattle.server_protocol.specs.Shown.{index_encoding, index_text};
ghost use Rattle.serde_json.specs.View.{items_view, view};

use crate::{Position, PositionIndex};
use serde_json::{Map, Value, json, put};
use server_symbols::Extent;
use std::alloc::{AllocError, Global};

/// Returns a position as a value.
pub fn position_value(alloc: Global, position: Position) -> Result<Value, AllocError>
    ensures { IfOk result (λ v. view v ≡ spec.position_data position) }
{
    json!(in alloc; {
        "line": position.line as u64,
        "character": position.character as u64,
    })
}

/// Returns the range of an extent as a value.
pub fn range_value(
    alloc: Global,
    index: &PositionIndex<'_>,
    extent: Extent,
) -> Result<Value, AllocError>
    ensures { IfOk result (λ v. view v
        ≡ spec.range_data (index_encoding index.now) (index_text index.now) extent) }
{
    let start = position_value(alloc, index.position_of(extent.start))?;
    let end = position_value(alloc, index.position_of(extent.end))?;
    json!(in alloc; { "start": start, "end": end })
}

/// Returns the location of an extent in the document of a URI as a value.
pub fn location_value(
    alloc: Global,
    uri: &str,
    index: &PositionIndex<'_>,
    extent: Extent,
) -> Result<Value, AllocError>
    ensures { IfOk result (λ v. view v
        ≡ spec.location_data uri.now (index_encoding index.now) (index_text index.now) extent) }
{
    let range = range_value(alloc, index, extent)?;
    json!(in alloc; { "uri": uri, "range": range })
}

/// Returns the edit that replaces an extent as a value.
pub fn edit_value(
    alloc: Global,
    index: &PositionIndex<'_>,
    extent: Extent,
    replacement: &str,
) -> Result<Value, AllocError>
    ensures { IfOk result (λ v. view v ≡ spec.edit_data (index_encoding index.now)
        (index_text index.now) replacement.now extent) }
{
    let range = range_value(alloc, index, extent)?;
    json!(in alloc; { "range": range, "newText": replacement })
}

/// Returns the edits of one document as a value.
pub fn workspace_edit_value(
    alloc: Global,
    uri: &str,
    edits: Vec<Value>,
) -> Result<Value, AllocError>
    ensures { IfOk result (λ v. view v ≡ spec.workspace_edit_data uri.now (items_view edits.items)) }
{
    let mut changes = Map::new(alloc);
    put(&mut changes, alloc, uri, Value::Array(edits))?;
    json!(in alloc; { "changes": Value::Object(changes) })
}
