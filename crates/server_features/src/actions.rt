//! Code actions: the remedies of diagnostics.
ghost use Rattle.std.specs.Prelude.{◌≡◌, ◌++◌, ◌∷◌, [], IfOk, List, OnOk, map, string_bytes};
ghost use Rattle.server_features.specs.Actions as spec;
ghost use Rattle.server_features.specs.Actions.{AddsAction, AreActions, AreActionsAt, AreActionsOf, FixesAll, IsActionFor};
ghost use Rattle.serde_json.specs.Data.{Data, array, item, no_items};
ghost use Rattle.serde_json.specs.View.{view};

use crate::diagnoses::{Diagnoses, Diagnosis};
use crate::diagnostics::{diagnostic_value, extent_of};
use crate::formatting::do_touch;
use crate::remedies::{Remedy, remedy_of};
use lint_diagnostics::{Diagnostic, Options, fix_text};
use serde_json::{Value, json};
use server_protocol::messages::{Answer, ErrorCode};
use server_protocol::params::lists_at;
use server_protocol::values::workspace_edit_value;
use server_requests::context::Context;
use server_requests::locations::edit_at;
use server_symbols::Extent;
use std::alloc::{AllocError, Global};

/// The most remedies that are answered at once.
const MOST_ACTIONS: usize = 20;

/// Returns the remedies of the diagnostics that a range touches, at most 20. If the parameters ask for
/// `source.fixAll`, the answer is the action that applies all safe fixes. If no diagnosis of the text is
/// kept, the text is diagnosed.
pub fn code_actions(
    alloc: Global,
    context: &Context<'_>,
    diagnoses: &Diagnoses,
    params: &Value,
) -> Result<Answer, AllocError>
    ensures { IfOk result (AreActions context.now (view params.now)) }
{
    let Some(extent) = context.extent(params) else {
        return Ok(Answer::Error(ErrorCode::InvalidParams, "no range"));
    };
    if asks_to_fix_all(params) {
        return Ok(Answer::Result(fix_all_at(alloc, context)?));
    }
    if !is_asked_for(params) {
        return Ok(Answer::Result(Value::Array(Vec::new(alloc))));
    }
    Ok(Answer::Result(actions_at(alloc, context, diagnoses, extent)?))
}

/// Whether the action that applies all safe fixes is asked for.
fn asks_to_fix_all(params: &Value) -> bool
    ensures { result ≡ spec.asks_to_fix_all (view params.now) }
{
    lists_at(params, "/context/only", "source.fixAll")
}

/// Returns the action that applies all safe fixes to a document's text, as a list of it. If there is no safe
/// fix, the list is empty.
fn fix_all_at(alloc: Global, context: &Context<'_>) -> Result<Value, AllocError>
    ensures { IfOk result (λ v. FixesAll context.now (view v)) }
{
    let mended = fix_text(alloc, context.text, Options { starts: &[] }, false)?;
    if mended.applied.is_empty() {
        return Ok(Value::Array(Vec::new(alloc)));
    }
    let action = fix_all_value(alloc, context, mended.text.as_str())?;
    let list = list_of(alloc, action)?;
    Ok(list)
}

/// Returns a list with one value.
fn list_of(alloc: Global, value: Value) -> Result<Value, AllocError>
    ensures { IfOk result (λ v. view v ≡ array (item (view value) no_items)) }
{
    let mut values = Vec::new(alloc);
    values.push(value)?;
    Ok(Value::Array(values))
}

/// Returns the action that replaces a document's text by `fixed`.
fn fix_all_value(alloc: Global, context: &Context<'_>, fixed: &str) -> Result<Value, AllocError>
    ensures { IfOk result (λ v. view v ≡ spec.fix_all_data context.now fixed.now) }
{
    let mut edits = Vec::new(alloc);
    let extent = extent_of(0, context.text.len());
    let edit = edit_at(alloc, context, extent, fixed)?;
    edits.push(edit)?;
    let edit = workspace_edit_value(alloc, context.uri, edits)?;
    json!(in alloc; {
        "title": "Apply all safe fixes",
        "kind": "source.fixAll",
        "edit": edit,
    })
}

/// Whether quick fixes are asked for.
fn is_asked_for(params: &Value) -> bool
    ensures { result ≡ spec.is_asked_for (view params.now) }
{
    params.pointer("/context/only").is_none() || lists_at(params, "/context/only", "quickfix")
}

/// Returns the remedies of the diagnostics that an extent touches, as a value.
fn actions_at(
    alloc: Global,
    context: &Context<'_>,
    diagnoses: &Diagnoses,
    extent: Extent,
) -> Result<Value, AllocError>
    ensures { IfOk result (λ v. AreActionsAt context.now extent (view v)) }
{
    match diagnoses.get(context.uri, context.text) {
        Some(diagnosis) => actions_by(alloc, context, extent, diagnosis),
        None => actions_by(
            alloc,
            context,
            extent,
            &Diagnosis::new(alloc, context.text, context.definitions)?,
        ),
    }
}

/// Returns the remedies of those diagnostics of a document's text that an extent touches, as a value.
fn actions_by(
    alloc: Global,
    context: &Context<'_>,
    extent: Extent,
    diagnosis: &Diagnosis,
) -> Result<Value, AllocError>
    requires { string_bytes diagnosis.now.text ≡ context.now.text.now }
    ensures { IfOk result (λ v. AreActionsAt context.now extent (view v)) }
{
    let actions = actions_of(alloc, context, extent, &diagnosis.diagnostics)?;
    Ok(Value::Array(actions))
}

/// Returns the remedies of those of some diagnostics that an extent touches, at most 20.
fn actions_of(
    alloc: Global,
    context: &Context<'_>,
    extent: Extent,
    diagnostics: &[Diagnostic],
) -> Result<Vec<Value>, AllocError>
    ensures { IfOk result (λ actions.
        AreActionsOf context.now extent 20 diagnostics.now (map view actions.items)) }
{
    let mut actions = Vec::new(alloc);
    let mut rest = diagnostics;
    while let Some((diagnostic, after)) = rest.split_first() {
        if actions.len() >= MOST_ACTIONS {
            return Ok(actions);
        }
        push_touched(alloc, context, extent, diagnostic, &mut actions)?;
        rest = after;
    }
    Ok(actions)
}

/// Adds the remedy of a diagnostic, if an extent touches it.
fn push_touched(
    alloc: Global,
    context: &Context<'_>,
    extent: Extent,
    diagnostic: &Diagnostic,
    actions: &mut Vec<Value>,
) -> Result<(), AllocError>
    ensures { OnOk result (AddsAction context.now extent diagnostic.now
        (map view actions.old.items) (map view actions.new.items)) }
{
    if !do_touch(extent, extent_of(diagnostic.start, diagnostic.end)) {
        return Ok(());
    }
    push_action(alloc, context, diagnostic, actions)
}

/// Adds the remedy of a diagnostic, if it has one.
fn push_action(
    alloc: Global,
    context: &Context<'_>,
    diagnostic: &Diagnostic,
    actions: &mut Vec<Value>,
) -> Result<(), AllocError>
    ensures { OnOk result ((values : List Data) × IsActionFor context.now diagnostic.now values
        × (map view actions.new.items ≡ map view actions.old.items ++ values)) }
{
    if let Some(remedy) = remedy_of(alloc, context, diagnostic)? {
        push_remedy(alloc, context, diagnostic, &remedy, actions)?;
    }
    Ok(())
}

/// Adds the remedy of a diagnostic.
fn push_remedy(
    alloc: Global,
    context: &Context<'_>,
    diagnostic: &Diagnostic,
    remedy: &Remedy,
    actions: &mut Vec<Value>,
) -> Result<(), AllocError>
    ensures { OnOk result (map view actions.new.items ≡ map view actions.old.items
        ++ spec.action_data context.now diagnostic.now remedy.now ∷ []) }
{
    let action = action_value(alloc, context, diagnostic, remedy)?;
    actions.push(action)?;
    Ok(())
}

/// Returns a remedy as a value.
fn action_value(
    alloc: Global,
    context: &Context<'_>,
    diagnostic: &Diagnostic,
    remedy: &Remedy,
) -> Result<Value, AllocError>
    ensures { IfOk result (λ v. view v ≡ spec.action_data context.now diagnostic.now remedy.now) }
{
    let edit = remedy_value(alloc, context, remedy)?;
    let has_related = context.client.has_related;
    let value = diagnostic_value(alloc, &context.index, context.uri, has_related, diagnostic)?;
    json!(in alloc; {
        "title": &remedy.title,
        "kind": "quickfix",
        "isPreferred": remedy.is_preferred,
        "diagnostics": [value],
        "edit": edit,
    })
}

/// Returns the edit of a remedy as a value.
fn remedy_value(alloc: Global, context: &Context<'_>, remedy: &Remedy) -> Result<Value, AllocError>
    ensures { IfOk result (λ v. view v ≡ spec.remedy_data context.now remedy.now) }
{
    let mut edits = Vec::new(alloc);
    let edit = edit_at(alloc, context, remedy.extent, remedy.replacement.as_str())?;
    edits.push(edit)?;
    workspace_edit_value(alloc, context.uri, edits)
}
