//! Formatting.
ghost use Rattle.std.specs.Prelude.{◌≡◌, ◌++◌, ◌∷◌, [], IfOk, OnOk, filter, map};
ghost use Rattle.server_features.specs.Formatting as spec;
ghost use Rattle.server_features.specs.Formatting.{AreFormatting, AreRangeFormatting, Formats};
ghost use Rattle.server_features.specs.Formatting.{HasEdits, HasEditsWithin, HasValue, IsFormattedAs};
ghost use Rattle.serde_json.specs.View.{view};

use base_language::runtime::Fault;
use format_grammar::{Formatted, LineEnds, Options, format};
use serde_json::Value;
use server_protocol::messages::{Answer, ErrorCode};
use server_requests::context::{Context, part_of};
use server_requests::locations::edit_at;
use server_symbols::{Definition, Edit, Extent, edits_between};
use std::alloc::{AllocError, Global};

/// Returns the edits that format a document, or none if it cannot be formatted.
pub fn format_document(alloc: Global, context: &Context<'_>) -> Result<Answer, AllocError>
    ensures { IfOk result (AreFormatting context.now) }
{
    match formatted_text(alloc, context.text)? {
        Some(formatted) => all_edits(alloc, context, formatted.as_str()),
        None => Ok(Answer::Result(Value::Null)),
    }
}

/// Returns the edits that format the rules that a range touches.
pub fn format_range(
    alloc: Global,
    context: &Context<'_>,
    params: &Value,
) -> Result<Answer, AllocError>
    ensures { IfOk result (AreRangeFormatting context.now (view params.now)) }
{
    let Some(extent) = context.extent(params) else {
        return Ok(Answer::Error(ErrorCode::InvalidParams, "no range"));
    };
    let around = rules_around(context.definitions, extent);
    format_extent(alloc, context, around)
}

/// Returns the bytes of an extent and of the definitions that it touches.
fn rules_around(definitions: &[Definition], extent: Extent) -> Extent
    ensures { result ≡ spec.rules_around extent extent definitions.now }
{
    let mut around = extent;
    let mut rest = definitions;
    while let Some((definition, after)) = rest.split_first() {
        around = with_touched(extent, around, definition.whole);
        rest = after;
    }
    around
}

/// Returns an extent with a definition, if that touches another extent.
fn with_touched(extent: Extent, around: Extent, whole: Extent) -> Extent
    ensures { result ≡ spec.with_touched extent around whole }
{
    if do_touch(extent, whole) {
        join(around, whole)
    } else {
        around
    }
}

/// Whether two extents touch.
pub(crate) fn do_touch(extent: Extent, other: Extent) -> bool
    ensures { result ≡ spec.do_touch extent other }
{
    other.start <= extent.end && extent.start <= other.end
}

/// Returns the bytes from the first start to the last end of two extents.
fn join(extent: Extent, other: Extent) -> Extent
    ensures { result ≡ spec.join extent other }
{
    Extent {
        start: extent.start.min(other.start),
        end: extent.end.max(other.end),
    }
}

/// Returns the edits that format a document, those inside an extent.
fn format_extent(alloc: Global, context: &Context<'_>, extent: Extent) -> Result<Answer, AllocError>
    ensures { IfOk result (Formats (HasEditsWithin extent) context.now) }
{
    match formatted_text(alloc, context.text)? {
        Some(formatted) => edits_within(alloc, context, formatted.as_str(), extent),
        None => Ok(Answer::Result(Value::Null)),
    }
}

/// Returns the formatted text of a grammar, if it is formatted.
fn formatted_text(alloc: Global, text: &str) -> Result<Option<String>, AllocError>
    ensures { IfOk result (IsFormattedAs text.now) }
{
    let mut options = Options::default();
    options.line_ends = LineEnds::OfFirstLine;
    match format(alloc, text, options) {
        Ok(Formatted::Text(formatted)) => Ok(Some(formatted)),
        Ok(Formatted::Unchanged) => Ok(None),
        Err(Fault::Grammar(_)) => Ok(None),
        Err(Fault::Memory(error)) => Err(error),
    }
}

/// Returns the edits that make a document another text.
fn all_edits(alloc: Global, context: &Context<'_>, formatted: &str) -> Result<Answer, AllocError>
    ensures { IfOk result (HasValue (HasEdits context.now formatted.now)) }
{
    let edits = edits_between(alloc, context.text, formatted)?;
    let value = edits_value(alloc, context, formatted, &edits)?;
    Ok(Answer::Result(value))
}

/// Returns the edits inside an extent that make a document another text.
fn edits_within(
    alloc: Global,
    context: &Context<'_>,
    formatted: &str,
    extent: Extent,
) -> Result<Answer, AllocError>
    ensures { IfOk result (HasValue (HasEditsWithin extent context.now formatted.now)) }
{
    let edits = edits_between(alloc, context.text, formatted)?;
    let within = edits_in(alloc, extent, &edits)?;
    let value = edits_value(alloc, context, formatted, &within)?;
    Ok(Answer::Result(value))
}

/// Returns the edits that are inside an extent.
fn edits_in(alloc: Global, extent: Extent, edits: &[Edit]) -> Result<Vec<Edit>, AllocError>
    ensures { IfOk result (λ within. within.items ≡ filter (spec.is_within extent) edits.now) }
{
    edits
        .iter()
        .copied()
        .filter(|edit| is_within(extent, *edit))
        .collect(alloc)
}

/// Whether an edit is inside an extent.
fn is_within(extent: Extent, edit: Edit) -> bool
    ensures { result ≡ spec.is_within extent edit }
{
    extent.start <= edit.old.start && edit.old.end <= extent.end
}

/// Returns edits to a formatted text as a value.
fn edits_value(
    alloc: Global,
    context: &Context<'_>,
    formatted: &str,
    edits: &[Edit],
) -> Result<Value, AllocError>
    ensures { IfOk result (λ v. view v ≡ spec.edits_data context.now formatted.now edits.now) }
{
    let mut values = Vec::new(alloc);
    let mut rest = edits;
    while let Some((edit, after)) = rest.split_first() {
        push_edit(alloc, context, formatted, *edit, &mut values)?;
        rest = after;
    }
    Ok(Value::Array(values))
}

/// Adds an edit to a formatted text.
fn push_edit(
    alloc: Global,
    context: &Context<'_>,
    formatted: &str,
    edit: Edit,
    values: &mut Vec<Value>,
) -> Result<(), AllocError>
    ensures { OnOk result (map view values.new.items
        ≡ map view values.old.items ++ spec.edit_for context.now formatted.now edit ∷ []) }
{
    let value = edit_to(alloc, context, formatted, edit)?;
    values.push(value)?;
    Ok(())
}

/// Returns an edit to a formatted text as a value.
fn edit_to(
    alloc: Global,
    context: &Context<'_>,
    formatted: &str,
    edit: Edit,
) -> Result<Value, AllocError>
    ensures { IfOk result (λ v. view v ≡ spec.edit_for context.now formatted.now edit) }
{
    edit_at(alloc, context, edit.old, part_of(formatted, edit.new))
}
