//! Definitions, references and renames.
ghost use Rattle.std.specs.Prelude.{◌≡◌, ◌++◌, ◌∷◌, [], IfOk, OnOk, filter, map, if◌then◌else◌};
ghost use Rattle.server_requests.specs.Answers as answers;
ghost use Rattle.server_requests.specs.Answers.{AreDefinitions, AreReferences, IsRename, IsResult, references_to, rename_data};
ghost use Rattle.server_requests.specs.Calls as spec;
ghost use Rattle.server_requests.specs.Calls.{AreStarts, is_call};
ghost use Rattle.server_requests.specs.Locations as places;
ghost use Rattle.server_requests.specs.Refusals as reasons;
ghost use Rattle.server_requests.specs.Refusals.{IsPrepared, IsPreparedAt, prepared_data};
ghost use Rattle.server_symbols.specs.Occurrences.{names_of, occurrences};
ghost use Rattle.serde_json.specs.View.{view};

use crate::context::{Context, Name, part_of};
use crate::locations::{edit_at, locations_at, range_at};
use serde_json::{Value, json};
use server_protocol::messages::{Answer, ErrorCode};
use server_protocol::params::{is_true_at, text_at};
use server_protocol::values::workspace_edit_value;
use server_symbols::{
    Definition, Extent, RenameRefusal, Renaming, definitions_named, occurrences_of, rename,
};
use std::alloc::{AllocError, Global};
use std::collections::HashSet;

/// Returns the locations of the definitions of the rule at a position.
pub fn definition(
    alloc: Global,
    context: &Context<'_>,
    params: &Value,
) -> Result<Answer, AllocError>
    ensures { IfOk result (AreDefinitions context.now (view params.now)) }
{
    match context.name(params) {
        Some(name) => Ok(Answer::Result(definitions_value(alloc, context, name.text)?)),
        None => Ok(Answer::Result(Value::Null)),
    }
}

/// Returns the locations of the definitions of the rules named `name`.
fn definitions_value(alloc: Global, context: &Context<'_>, name: &str) -> Result<Value, AllocError>
    ensures { IfOk result (λ v. view v ≡ places.locations_at context.now
        (names_of context.now.text.now name.now context.now.definitions.now)) }
{
    let extents = definitions_named(alloc, context.text, context.definitions, name)?;
    locations_at(alloc, context, &extents)
}

/// Returns the locations at which the rule at a position is called. If the parameters ask for it, the
/// definitions are among them.
pub fn references(
    alloc: Global,
    context: &Context<'_>,
    params: &Value,
) -> Result<Answer, AllocError>
    ensures { IfOk result (AreReferences context.now (view params.now)) }
{
    let has_definitions = is_true_at(params, "/context/includeDeclaration");
    match context.name(params) {
        Some(name) => {
            let value = references_value(alloc, context, name.text, has_definitions)?;
            Ok(Answer::Result(value))
        }
        None => Ok(Answer::Result(Value::Null)),
    }
}

/// Returns the locations at which the rules named `name` are called. If it is asked for, the definitions are
/// among them.
fn references_value(
    alloc: Global,
    context: &Context<'_>,
    name: &str,
    has_definitions: bool,
) -> Result<Value, AllocError>
    ensures { IfOk result (λ v. view v ≡ places.locations_at context.now
        (references_to context.now name.now has_definitions)) }
{
    let extents = occurrences_of(alloc, context.text, context.tokens, name)?;
    if has_definitions {
        return locations_at(alloc, context, &extents);
    }
    let calls = calls_among(alloc, context.definitions, &extents)?;
    locations_at(alloc, context, &calls)
}

/// Returns those of some names that are no definition's.
fn calls_among(
    alloc: Global,
    definitions: &[Definition],
    extents: &[Extent],
) -> Result<Vec<Extent>, AllocError>
    ensures { IfOk result (λ calls. calls.items ≡ filter (is_call definitions.now) extents.now) }
{
    let starts = starts_of(alloc, definitions)?;
    extents_outside(alloc, &starts, extents)
}

/// Returns the bytes at which the names of definitions begin.
fn starts_of(alloc: Global, definitions: &[Definition]) -> Result<HashSet<usize>, AllocError>
    ensures { IfOk result (AreStarts definitions.now) }
{
    let mut starts = HashSet::new(alloc);
    let mut rest = definitions;
    while let Some((definition, after)) = rest.split_first() {
        starts.insert(definition.name.start)?;
        rest = after;
    }
    Ok(starts)
}

/// Returns the extents that begin at none of these bytes.
fn extents_outside(
    alloc: Global,
    starts: &HashSet<usize>,
    extents: &[Extent],
) -> Result<Vec<Extent>, AllocError>
    ensures { IfOk result (λ found. found.items ≡ filter (spec.is_outside starts.now) extents.now) }
{
    extents
        .iter()
        .copied()
        .filter(|extent| is_outside(starts, *extent))
        .collect(alloc)
}

/// Whether an extent begins at none of these bytes.
fn is_outside(starts: &HashSet<usize>, extent: Extent) -> bool
    ensures { result ≡ spec.is_outside starts.now extent }
{
    !starts.contains(&extent.start)
}

/// Returns the occurrences of the name at a position.
pub fn highlights(
    alloc: Global,
    context: &Context<'_>,
    params: &Value,
) -> Result<Answer, AllocError>
    ensures { IfOk result IsResult }
{
    match context.name(params) {
        Some(name) => Ok(Answer::Result(highlights_value(alloc, context, name.text)?)),
        None => Ok(Answer::Result(Value::Null)),
    }
}

/// Returns the occurrences of a name as highlights: the names of definitions are writes, and all others are
/// reads.
fn highlights_value(alloc: Global, context: &Context<'_>, name: &str) -> Result<Value, AllocError> {
    let extents = occurrences_of(alloc, context.text, context.tokens, name)?;
    let starts = starts_of(alloc, context.definitions)?;
    let mut highlights = Vec::new(alloc);
    for extent in &extents {
        let range = range_at(alloc, context, *extent)?;
        let kind = highlight_kind(is_outside(&starts, *extent));
        highlights.push(json!(in alloc; { "range": range, "kind": kind })?)?;
    }
    Ok(Value::Array(highlights))
}

/// Returns the protocol's number of a read, for a call, or of a write.
fn highlight_kind(is_call: bool) -> u64 {
    if is_call { 2 } else { 3 }
}

/// Returns the range of the name at a position, if a rule of that name is defined.
pub fn prepare_rename(
    alloc: Global,
    context: &Context<'_>,
    params: &Value,
) -> Result<Answer, AllocError>
    ensures { IfOk result (IsPrepared context.now (view params.now)) }
{
    match context.name(params) {
        Some(name) => prepare_at(alloc, context, name),
        None => Ok(Answer::Result(Value::Null)),
    }
}

/// Returns the range of a name, if a rule of that name is defined.
fn prepare_at(alloc: Global, context: &Context<'_>, name: Name<'_>) -> Result<Answer, AllocError>
    ensures { IfOk result (IsPreparedAt context.now name.entry) }
{
    let definitions = definitions_named(alloc, context.text, context.definitions, name.text)?;
    if definitions.is_empty() {
        return Ok(Answer::Error(ErrorCode::RequestFailed, reason_of(RenameRefusal::NoRule)));
    }
    Ok(Answer::Result(name_value(alloc, context, name)?))
}

/// Returns the range of a name, and the name.
fn name_value(alloc: Global, context: &Context<'_>, name: Name<'_>) -> Result<Value, AllocError>
    ensures { IfOk result (λ v. view v ≡ prepared_data context.now name.entry) }
{
    let range = range_at(alloc, context, name.extent)?;
    json!(in alloc; { "range": range, "placeholder": name.text })
}

/// Returns the edits that rename the rule at a position. The position may also be in a name that a comment at
/// the head of the document states.
pub fn rename_rule(
    alloc: Global,
    context: &Context<'_>,
    stated: &[Extent],
    params: &Value,
) -> Result<Answer, AllocError>
    ensures { IfOk result (IsRename context.now stated.now (view params.now)) }
{
    let Some(new_name) = text_at(params, "/newName") else {
        return Ok(Answer::Error(ErrorCode::InvalidParams, "no new name"));
    };
    let Some(name) = context.name(params) else {
        return Ok(Answer::Error(
            ErrorCode::RequestFailed,
            "there is no name at this position",
        ));
    };
    let mentions = mentions_of(alloc, context.text, stated, name.text)?;
    match rename(alloc, context.text, name.text, new_name, &mentions)? {
        Renaming::Refused(refusal) => Ok(Answer::Error(
            ErrorCode::RequestFailed,
            reason_of(refusal),
        )),
        Renaming::Edits(extents) => {
            let value = rename_edits(alloc, context, &extents, new_name)?;
            Ok(Answer::Result(value))
        }
    }
}

/// Returns those of some extents that have this name.
fn mentions_of(
    alloc: Global,
    text: &str,
    stated: &[Extent],
    name: &str,
) -> Result<Vec<Extent>, AllocError>
    ensures { IfOk result (λ found. found.items ≡ filter (answers.is_mention text.now name.now) stated.now) }
{
    stated
        .iter()
        .copied()
        .filter(|extent| is_mention(text, name, *extent))
        .collect(alloc)
}

/// Whether an extent has this name.
fn is_mention(text: &str, name: &str, extent: Extent) -> bool
    ensures { result ≡ answers.is_mention text.now name.now extent }
{
    part_of(text, extent) == name
}

/// Returns the edits that write a name at extents.
fn rename_edits(
    alloc: Global,
    context: &Context<'_>,
    extents: &[Extent],
    new_name: &str,
) -> Result<Value, AllocError>
    ensures { IfOk result (λ v. view v ≡ rename_data context.now new_name.now extents.now) }
{
    let mut edits = Vec::new(alloc);
    let mut rest = extents;
    while let Some((extent, after)) = rest.split_first() {
        push_edit(alloc, context, *extent, new_name, &mut edits)?;
        rest = after;
    }
    workspace_edit_value(alloc, context.uri, edits)
}

/// Adds the edit that writes a name at an extent.
fn push_edit(
    alloc: Global,
    context: &Context<'_>,
    extent: Extent,
    new_name: &str,
    edits: &mut Vec<Value>,
) -> Result<(), AllocError>
    ensures { OnOk result (map view edits.new.items ≡ map view edits.old.items
        ++ places.edit_at context.now new_name.now extent ∷ []) }
{
    let edit = edit_at(alloc, context, extent, new_name)?;
    edits.push(edit)?;
    Ok(())
}

/// Returns why a rename is refused, in words.
fn reason_of(refusal: RenameRefusal) -> &'static str
    ensures { result.now ≡ reasons.reason_of refusal }
{
    match refusal {
        RenameRefusal::NoRule => "no rule of this name is defined here",
        RenameRefusal::NoIdentifier => {
            "a name consists of letters, digits and `_`, and does not begin with a digit"
        }
        RenameRefusal::Keyword => "the new name is a keyword",
        RenameRefusal::Builtin => "the new name is that of a builtin",
        RenameRefusal::Taken => "the new name is taken",
        RenameRefusal::NoGrammar => "the grammar has a syntax error",
        RenameRefusal::OtherTokens => "the grammar would mean something else",
    }
}
