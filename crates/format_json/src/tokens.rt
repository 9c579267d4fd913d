//! Tokens as JSON.
ghost use Rattle.std.specs.Prelude.{◌≡◌, IfOk, string_bytes};
ghost use Rattle.serde_json.specs.View.{view};
ghost use Rattle.serde_json.specs.Written.{compact_text};
ghost use Rattle.format_json.specs.Tokens.{event_data, tokens_data};

use front_syntax::grammar::TokenEvent;
use serde_json::{Value, json};
use std::alloc::{AllocError, Global};

/// Returns tokens as JSON. The only error is an allocation failure.
#[tactic(auto, using(crate::proofs::Floats::tokens_without_floats))]
pub fn tokens_text(alloc: Global, events: &[TokenEvent]) -> Result<String, AllocError>
    ensures { IfOk result (λ text. string_bytes text ≡ compact_text (tokens_data events.now)) }
{
    tokens_value(alloc, events)?.to_string(alloc)
}

/// Returns tokens as a value.
fn tokens_value(alloc: Global, events: &[TokenEvent]) -> Result<Value, AllocError>
    ensures { IfOk result (λ value. view value ≡ tokens_data events.now) }
{
    let mut values = Vec::new(alloc);
    for event in events {
        values.push(event_value(alloc, *event)?)?;
    }
    Ok(Value::Array(values))
}

/// Returns a token as a value.
fn event_value(alloc: Global, event: TokenEvent) -> Result<Value, AllocError>
    ensures { IfOk result (λ value. view value ≡ event_data event) }
{
    match event {
        TokenEvent::Start { rule, pos, partner } => json!(in alloc; [rule.name(), pos, partner]),
        TokenEvent::End { pos, partner } => json!(in alloc; [pos, partner]),
    }
}
