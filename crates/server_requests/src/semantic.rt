//! Semantic tokens.
ghost use Rattle.std.specs.Prelude.{◌<◌, IfOk, length};
ghost use Rattle.server_requests.specs.Answers.{IsResult};

use crate::context::Context;
use front_names::is_builtin;
use serde_json::{Value, json};
use server_protocol::Position;
use server_protocol::messages::Answer;
use server_symbols::{Token, TokenClass};
use std::alloc::{AllocError, Global};

/// The types of the legend.
static TYPES: [&str; 7] = [
    "function", "keyword", "string", "number", "operator", "comment", "variable",
];

/// The modifiers of the legend.
static MODIFIERS: [&str; 3] = ["declaration", "defaultLibrary", "documentation"];

/// Returns the types of the legend.
pub fn types() -> &'static [&'static str] {
    &TYPES
}

/// Returns the modifiers of the legend.
pub fn modifiers() -> &'static [&'static str] {
    &MODIFIERS
}

/// The type of a token, as an index of the legend, and its modifiers, as a set of bits.
#[derive(Clone, Copy)]
struct TokenStyle {
    kind: usize,
    modifiers: usize,
}

/// Returns the tokens of a document, those of one line, each by its distance from the one before it.
pub fn semantic_tokens(alloc: Global, context: &Context<'_>) -> Result<Answer, AllocError>
    ensures { IfOk result IsResult }
{
    let mut numbers = Vec::new(alloc);
    let mut last = Position {
        line: 0,
        character: 0,
    };
    for number in 0..context.tokens.len() {
        last = push_token(context, number, last, &mut numbers)?;
    }
    let value = json!(in alloc; { "data": Value::Array(numbers) })?;
    Ok(Answer::Result(value))
}

/// Adds the token of a number, if it is shown and on one line: its line, its first code unit, both from
/// the start of the last token, its length, its type and its modifiers. Returns the start of the last token.
fn push_token(
    context: &Context<'_>,
    number: usize,
    last: Position,
    numbers: &mut Vec<Value>,
) -> Result<Position, AllocError>
    requires { number < length context.now.tokens.now }
{
    let token = context.tokens[number];
    let Some(style) = style_of(context, token, &context.tokens[number + 1..]) else {
        return Ok(last);
    };
    let start = context.index.position_of(token.start);
    let end = context.index.position_of(token.end);
    if start.line != end.line {
        return Ok(last);
    }
    push_number(start.line.saturating_sub(last.line), numbers)?;
    push_number(units_after(last, start), numbers)?;
    push_number(end.character.saturating_sub(start.character), numbers)?;
    push_number(style.kind, numbers)?;
    push_number(style.modifiers, numbers)?;
    Ok(start)
}

/// Adds a number.
fn push_number(count: usize, numbers: &mut Vec<Value>) -> Result<(), AllocError> {
    numbers.push(Value::from(count as u64))?;
    Ok(())
}

/// Returns how far a position is from an earlier one of its line, or from the start of its line.
fn units_after(last: Position, start: Position) -> usize {
    if start.line <= last.line {
        start.character.saturating_sub(last.character)
    } else {
        start.character
    }
}

/// Returns how a token is shown that others come after.
fn style_of(context: &Context<'_>, token: Token, after: &[Token]) -> Option<TokenStyle> {
    match token.class {
        TokenClass::Name => {
            Some(name_style(context.part(token.extent()), begins_with_equals(after)))
        }
        TokenClass::Text | TokenClass::Character => Some(style(2, 0)),
        TokenClass::Number => Some(style(3, 0)),
        TokenClass::Comment => Some(style(5, 0)),
        TokenClass::Doc | TokenClass::GrammarDoc => Some(style(5, 4)),
        TokenClass::Tag => Some(style(6, 0)),
        TokenClass::Sign(sign) => sign_style(sign),
        TokenClass::Unknown => None,
    }
}

/// Returns a style.
fn style(kind: usize, modifiers: usize) -> TokenStyle {
    TokenStyle { kind, modifiers }
}

/// Returns how a sign is shown; brackets and the like are not.
fn sign_style(sign: u8) -> Option<TokenStyle> {
    if is_operator(sign) {
        Some(style(4, 0))
    } else {
        None
    }
}

/// Whether a sign is shown.
fn is_operator(sign: u8) -> bool {
    matches!(
        sign,
        b'~' | b'|' | b'*' | b'+' | b'?' | b'&' | b'!' | b'=' | b'^' | b'@' | b'$'
    )
}

/// Returns how a name is shown, that of a definition or not.
fn name_style(name: &str, is_defined: bool) -> TokenStyle {
    if is_keyword(name) {
        style(1, 0)
    } else if is_defined {
        style(0, 1)
    } else {
        called_style(is_builtin(name))
    }
}

/// Whether a name is a keyword.
fn is_keyword(name: &str) -> bool {
    name == "_" || name == "PUSH" || name == "PUSH_LITERAL"
}

/// Returns how a called name is shown, that of a builtin or not.
fn called_style(is_builtin: bool) -> TokenStyle {
    if is_builtin { style(0, 2) } else { style(0, 0) }
}

/// Whether a `=` comes next.
fn begins_with_equals(tokens: &[Token]) -> bool {
    match tokens.split_first() {
        Some((token, _)) => token.is_sign(b'='),
        None => false,
    }
}
