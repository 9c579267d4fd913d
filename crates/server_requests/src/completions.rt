//! Completions.
ghost use Rattle.std.specs.List.{list_any};
ghost use Rattle.std.specs.Prelude.{◌≡◌, IfOk, string_bytes};
ghost use Rattle.std.specs.Str.{IsCharBoundary};
ghost use Rattle.server_requests.specs.Completions as spec;
ghost use Rattle.server_requests.specs.Completions.{AreCompletions, AreCompletionsAt};
ghost use Rattle.serde_json.specs.View.{view};

use crate::builtins::describe;
use crate::context::{Context, is_name};
use front_names::{Builtin, unicode_property_names};
use serde_json::{Value, json};
use server_protocol::messages::{Answer, ErrorCode};
use server_symbols::{Token, tokens_of};
use std::alloc::{AllocError, Global};

/// The protocol's numbers of a function, a constant and a keyword.
const FUNCTION: u64 = 3;

const CONSTANT: u64 = 21;

const KEYWORD: u64 = 14;

/// A completion other than a name: its label, and its text as a snippet.
#[derive(Clone, Copy)]
struct CallForm {
    label: &'static str,
    snippet: &'static str,
}

/// The forms that take arguments.
static FORMS: [CallForm; 3] = [
    CallForm {
        label: "PUSH",
        snippet: "PUSH(${1:expression})",
    },
    CallForm {
        label: "PUSH_LITERAL",
        snippet: "PUSH_LITERAL(\"${1:text}\")",
    },
    CallForm {
        label: "PEEK",
        snippet: "PEEK[${1:start}..${2:end}]",
    },
];

/// Returns what can be written at a position: the document's rules, builtins, and forms with arguments, or
/// nothing if no name can be written, as in a comment or a literal.
pub fn completions(
    alloc: Global,
    context: &Context<'_>,
    params: &Value,
) -> Result<Answer, AllocError>
    ensures { IfOk result (AreCompletions context.now (view params.now)) }
{
    let Some(offset) = context.offset(params) else {
        return Ok(Answer::Error(ErrorCode::InvalidParams, "no position"));
    };
    Ok(Answer::Result(completions_at(alloc, context, offset)?))
}

/// Returns what can be written at an offset, as a value. A name can be written if a letter there would be
/// part of a name.
fn completions_at(alloc: Global, context: &Context<'_>, offset: usize) -> Result<Value, AllocError>
    requires { IsCharBoundary context.now.text.now offset }
    ensures { IfOk result (λ v. AreCompletionsAt context.now offset (view v)) }
{
    let typed = with_letter(alloc, context.text, offset)?;
    let tokens = tokens_of(alloc, typed.as_str())?;
    if has_name_over(&tokens, offset) {
        all_completions(alloc, context)
    } else {
        Ok(Value::Array(Vec::new(alloc)))
    }
}

/// Returns what can be written at a position of a name, as a value.
fn all_completions(alloc: Global, context: &Context<'_>) -> Result<Value, AllocError> {
    let mut items = Vec::new(alloc);
    for definition in context.definitions {
        items.push(label_item(alloc, context.part(definition.name), FUNCTION)?)?;
    }
    push_builtins(alloc, &mut items)?;
    push_properties(alloc, &mut items)?;
    push_forms(alloc, context.client.has_snippets, &mut items)?;
    Ok(Value::Array(items))
}

/// Returns a text with a letter put at an offset.
fn with_letter(alloc: Global, text: &str, offset: usize) -> Result<String, AllocError>
    requires { IsCharBoundary text.now offset }
    ensures { IfOk result (λ typed. string_bytes typed ≡ spec.with_letter text.now offset) }
{
    let mut typed = String::from_str(alloc, &text[..offset])?;
    typed.push_str("a")?;
    typed.push_str(&text[offset..])?;
    Ok(typed)
}

/// Whether a byte is in a name.
fn has_name_over(tokens: &[Token], offset: usize) -> bool
    ensures { result ≡ list_any (spec.is_name_over offset) tokens.now }
{
    tokens.iter().any(|token| is_name_over(offset, *token))
}

/// Whether a token is a name that has a byte.
fn is_name_over(offset: usize, token: Token) -> bool
    ensures { result ≡ spec.is_name_over offset token }
{
    is_name(token.class) && token.start <= offset && offset < token.end
}

/// Returns a completion without details.
fn label_item(alloc: Global, label: &str, kind: u64) -> Result<Value, AllocError> {
    json!(in alloc; { "label": label, "kind": kind })
}

/// Returns a constant as a completion.
fn constant_item(alloc: Global, name: &str, doc: &str) -> Result<Value, AllocError> {
    json!(in alloc; { "label": name, "kind": CONSTANT, "detail": doc })
}

/// Adds the builtins.
fn push_builtins(alloc: Global, items: &mut Vec<Value>) -> Result<(), AllocError> {
    for builtin in Builtin::all() {
        items.push(constant_item(alloc, builtin.name(), describe(*builtin))?)?;
    }
    Ok(())
}

/// Adds the names of Unicode properties.
fn push_properties(alloc: Global, items: &mut Vec<Value>) -> Result<(), AllocError> {
    for name in unicode_property_names() {
        items.push(constant_item(alloc, *name, "a character with this Unicode property")?)?;
    }
    Ok(())
}

/// Adds the forms with arguments.
fn push_forms(alloc: Global, has_snippets: bool, items: &mut Vec<Value>) -> Result<(), AllocError> {
    for form in &FORMS {
        items.push(form_item(alloc, form, has_snippets)?)?;
    }
    Ok(())
}

/// Returns a form as a completion.
fn form_item(alloc: Global, form: &CallForm, has_snippets: bool) -> Result<Value, AllocError> {
    if has_snippets {
        json!(in alloc; {
            "label": form.label,
            "kind": KEYWORD,
            "insertText": form.snippet,
            "insertTextFormat": 2u64,
        })
    } else {
        label_item(alloc, form.label, KEYWORD)
    }
}
