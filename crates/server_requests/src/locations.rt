//! Locations and edits: values for the document of a request.
ghost use Rattle.std.specs.Prelude.{◌≡◌, ◌++◌, ◌∷◌, [], IfOk, OnOk, map};
ghost use Rattle.server_requests.specs.Locations as spec;
ghost use Rattle.serde_json.specs.View.{view};

use crate::context::Context;
use serde_json::Value;
use server_protocol::values::{edit_value, location_value, range_value};
use server_symbols::Extent;
use std::alloc::{AllocError, Global};

/// Returns the range of an extent.
pub fn range_at(alloc: Global, context: &Context<'_>, extent: Extent) -> Result<Value, AllocError>
    ensures { IfOk result (λ v. view v ≡ spec.range_at context.now extent) }
{
    range_value(alloc, &context.index, extent)
}

/// Returns the location of an extent.
pub fn location_at(
    alloc: Global,
    context: &Context<'_>,
    extent: Extent,
) -> Result<Value, AllocError>
    ensures { IfOk result (λ v. view v ≡ spec.location_at context.now extent) }
{
    location_value(alloc, context.uri, &context.index, extent)
}

/// Returns the locations of extents.
pub fn locations_at(
    alloc: Global,
    context: &Context<'_>,
    extents: &[Extent],
) -> Result<Value, AllocError>
    ensures { IfOk result (λ v. view v ≡ spec.locations_at context.now extents.now) }
{
    let mut locations = Vec::new(alloc);
    let mut rest = extents;
    while let Some((extent, after)) = rest.split_first() {
        push_location(alloc, context, *extent, &mut locations)?;
        rest = after;
    }
    Ok(Value::Array(locations))
}

/// Adds the location of an extent.
fn push_location(
    alloc: Global,
    context: &Context<'_>,
    extent: Extent,
    locations: &mut Vec<Value>,
) -> Result<(), AllocError>
    ensures { OnOk result (map view locations.new.items
        ≡ map view locations.old.items ++ spec.location_at context.now extent ∷ []) }
{
    let location = location_at(alloc, context, extent)?;
    locations.push(location)?;
    Ok(())
}

/// Returns the edit that replaces an extent.
pub fn edit_at(
    alloc: Global,
    context: &Context<'_>,
    extent: Extent,
    replacement: &str,
) -> Result<Value, AllocError>
    ensures { IfOk result (λ v. view v ≡ spec.edit_at context.now replacement.now extent) }
{
    edit_value(alloc, &context.index, extent, replacement)
}
