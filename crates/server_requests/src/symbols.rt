//! Symbols of documents.
ghost use Rattle.std.specs.Prelude.{IfOk};
ghost use Rattle.server_requests.specs.Answers.{IsResult};

use crate::context::Context;
use crate::locations::{location_at, range_at};
use serde_json::{Value, json};
use server_protocol::client::Client;
use server_protocol::documents::{Document, Documents};
use server_protocol::messages::Answer;
use server_symbols::Definition;
use std::alloc::{AllocError, Global};

/// The protocol's number of a function. Rules are shown as functions.
const FUNCTION: u64 = 12;

/// Returns the rules of a document.
pub fn document_symbols(alloc: Global, context: &Context<'_>) -> Result<Answer, AllocError>
    ensures { IfOk result IsResult }
{
    let mut symbols = Vec::new(alloc);
    for definition in context.definitions {
        symbols.push(symbol(alloc, context, definition)?)?;
    }
    Ok(Answer::Result(Value::Array(symbols)))
}

/// Returns a rule as the client can show it.
fn symbol(
    alloc: Global,
    context: &Context<'_>,
    definition: &Definition,
) -> Result<Value, AllocError> {
    if context.client.has_nested_symbols {
        nested_symbol(alloc, context, definition)
    } else {
        flat_symbol(alloc, context, definition)
    }
}

/// Returns a rule as a `DocumentSymbol`.
fn nested_symbol(
    alloc: Global,
    context: &Context<'_>,
    definition: &Definition,
) -> Result<Value, AllocError> {
    let range = range_at(alloc, context, definition.whole)?;
    let selection = range_at(alloc, context, definition.name)?;
    json!(in alloc; {
        "name": context.part(definition.name),
        "detail": modifier_name(definition.modifier),
        "kind": FUNCTION,
        "range": range,
        "selectionRange": selection,
    })
}

/// Returns a rule as a `SymbolInformation`.
fn flat_symbol(
    alloc: Global,
    context: &Context<'_>,
    definition: &Definition,
) -> Result<Value, AllocError> {
    let location = location_at(alloc, context, definition.name)?;
    json!(in alloc; {
        "name": context.part(definition.name),
        "kind": FUNCTION,
        "location": location,
    })
}

/// Returns what a modifier means.
pub fn modifier_name(modifier: Option<u8>) -> &'static str {
    match modifier {
        Some(b'_') => "silent",
        Some(b'@') => "atomic",
        Some(b'$') => "compound-atomic",
        Some(b'!') => "non-atomic",
        _ => "",
    }
}

/// Returns the rules of all documents in whose names a text occurs, up to the case of ASCII letters.
pub fn workspace_symbols(
    alloc: Global,
    client: Client,
    documents: &Documents,
    query: &str,
) -> Result<Answer, AllocError>
    ensures { IfOk result IsResult }
{
    let entries = documents.entries(alloc)?;
    let mut symbols = Vec::new(alloc);
    for entry in &entries {
        push_document(alloc, client, entry, query, &mut symbols)?;
    }
    Ok(Answer::Result(Value::Array(symbols)))
}

/// Adds the rules of a document with its URI in whose names a text occurs.
fn push_document(
    alloc: Global,
    client: Client,
    entry: &(&String, &Document),
    query: &str,
    symbols: &mut Vec<Value>,
) -> Result<(), AllocError> {
    let context = Context::new(client, entry.0.as_str(), entry.1);
    push_matches(alloc, &context, query, symbols)
}

/// Adds the rules of a document in whose names a text occurs.
fn push_matches(
    alloc: Global,
    context: &Context<'_>,
    query: &str,
    symbols: &mut Vec<Value>,
) -> Result<(), AllocError> {
    for definition in context.definitions {
        if is_within(query.as_bytes(), context.part(definition.name).as_bytes()) {
            symbols.push(flat_symbol(alloc, context, definition)?)?;
        }
    }
    Ok(())
}

/// Whether a text occurs in a name, up to the case of ASCII letters.
fn is_within(text: &[u8], name: &[u8]) -> bool {
    if text.is_empty() {
        return true;
    }
    for start in 0..name.len() {
        if has_prefix(&name[start..], text) {
            return true;
        }
    }
    false
}

/// Whether a text begins with another one, up to the case of ASCII letters.
fn has_prefix(text: &[u8], prefix: &[u8]) -> bool {
    prefix.len() <= text.len() && text[..prefix.len()].eq_ignore_ascii_case(prefix)
}
