//! Folds and selections.
ghost use Rattle.std.specs.Prelude.{IfOk};
ghost use Rattle.server_requests.specs.Answers.{IsResult, IsResultUnlessInvalid};

use crate::context::Context;
use crate::locations::range_at;
use serde_json::{Value, json};
use server_protocol::messages::{Answer, ErrorCode};
use server_protocol::params::position_of;
use server_protocol::{Position, offset_of};
use server_symbols::{Extent, Fold, folds_of, selections_at};
use std::alloc::{AllocError, Global};

/// Returns what can be folded in a document: the bodies of its rules, and its comments.
pub fn folding_ranges(alloc: Global, context: &Context<'_>) -> Result<Answer, AllocError>
    ensures { IfOk result IsResult }
{
    let folds = folds_of(alloc, context.tokens, context.definitions)?;
    let mut values = Vec::new(alloc);
    for fold in &folds {
        push_fold(alloc, context, *fold, &mut values)?;
    }
    Ok(Answer::Result(Value::Array(values)))
}

/// Adds a comment or a body, if it has several lines. Of a body the line with the closing brace stays.
fn push_fold(
    alloc: Global,
    context: &Context<'_>,
    fold: Fold,
    values: &mut Vec<Value>,
) -> Result<(), AllocError> {
    let start = context.index.position_of(fold.extent.start).line;
    let last = context.index.position_of(fold.extent.end).line;
    let end = if fold.is_comment {
        last
    } else {
        last.saturating_sub(1)
    };
    if end <= start {
        return Ok(());
    }
    let kind = if fold.is_comment { "comment" } else { "region" };
    let value =
        json!(in alloc; { "startLine": start as u64, "endLine": end as u64, "kind": kind })?;
    values.push(value)?;
    Ok(())
}

/// Returns the parts of a document around each of the positions in parameters.
pub fn selection_ranges(
    alloc: Global,
    context: &Context<'_>,
    params: &Value,
) -> Result<Answer, AllocError>
    ensures { IfOk result IsResultUnlessInvalid }
{
    let Some(positions) = params.get("positions").and_then(Value::as_array) else {
        return Ok(Answer::Error(ErrorCode::InvalidParams, "no positions"));
    };
    let mut values = Vec::new(alloc);
    for value in positions {
        let Some(position) = position_of(value) else {
            return Ok(Answer::Error(ErrorCode::InvalidParams, "no position"));
        };
        values.push(selection_value(alloc, context, position)?)?;
    }
    Ok(Answer::Result(Value::Array(values)))
}

/// Returns the parts of a document around a position, each with the next larger one.
fn selection_value(
    alloc: Global,
    context: &Context<'_>,
    position: Position,
) -> Result<Value, AllocError> {
    let offset = offset_of(context.text, context.client.encoding, position);
    let parts = selections_at(
        alloc,
        context.text,
        context.tokens,
        context.definitions,
        offset,
    )?;
    let mut value = Value::Null;
    for part in parts.iter().rev() {
        value = part_value(alloc, context, *part, value)?;
    }
    Ok(value)
}

/// Returns a part, with the next larger one if there is one.
fn part_value(
    alloc: Global,
    context: &Context<'_>,
    part: Extent,
    parent: Value,
) -> Result<Value, AllocError> {
    let range = range_at(alloc, context, part)?;
    if parent.is_null() {
        json!(in alloc; { "range": range })
    } else {
        json!(in alloc; { "range": range, "parent": parent })
    }
}
