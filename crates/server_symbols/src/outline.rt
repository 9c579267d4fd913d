//! Definitions of rules.
ghost use Rattle.std.specs.Prelude.{◌≡◌, ◌&&◌, ◌++◌, IfOk, OnOk, bytes_eq, map};
ghost use Rattle.server_symbols.specs.Occurrences as spec;
ghost use Rattle.server_symbols.specs.Parts as parts;
ghost use Rattle.server_symbols.specs.Tokens as classes;

use crate::parts::part;
use crate::tokens::{Extent, Token, TokenClass};
use std::alloc::{AllocError, Global};

/// A definition of a rule.
#[derive(Clone, Copy, Debug)]
pub struct Definition {
    /// Its name.
    pub name: Extent,
    /// The definition, from its doc comment or its name to its closing brace, or up to the next definition.
    pub whole: Extent,
    /// Its body with the braces, if it has one.
    pub body: Option<Extent>,
    /// The byte of its modifier, if it has one.
    pub modifier: Option<u8>,
    /// Whether its closing brace is reached.
    is_closed: bool,
}

impl Definition {
    /// Returns a definition of which the name is read, with the byte at which its doc comment begins.
    fn new(name: Token, start: usize) -> Definition
        ensures { result.name ≡ spec.extent_of name }
    {
        Definition {
            name: name.extent(),
            whole: Extent {
                start,
                end: name.end,
            },
            body: None,
            modifier: None,
            is_closed: false,
        }
    }

    /// Adds a token. Returns how many braces are open after it.
    fn extend(&mut self, text: &[u8], token: Token, depth: usize) -> usize
        ensures { self.new.name ≡ self.old.name }
    {
        if self.is_closed {
            return 0;
        }
        self.whole.end = token.end;
        let Some(body) = self.body else {
            return self.begin_body(text, token);
        };
        self.extend_body(body.start, token, depth)
    }

    /// Adds a token before the body. Returns how many braces are open after it.
    fn begin_body(&mut self, text: &[u8], token: Token) -> usize
        ensures { self.new.name ≡ self.old.name }
    {
        if token.is_sign(b'{') {
            self.body = Some(token.extent());
            return 1;
        }
        self.set_modifier(text, token);
        0
    }

    /// Takes a modifier, if the token is one.
    fn set_modifier(&mut self, text: &[u8], token: Token)
        ensures { self.new.name ≡ self.old.name }
    {
        if let Some(byte) = text.get(token.start) {
            if matches!(byte, b'_' | b'@' | b'$' | b'!')
                && token.end == token.start.saturating_add(1)
            {
                self.modifier = Some(*byte);
            }
        }
    }

    /// Adds a token to the body. Returns how many braces are open after it.
    fn extend_body(&mut self, start: usize, token: Token, depth: usize) -> usize
        ensures { self.new.name ≡ self.old.name }
    {
        self.body = Some(Extent {
            start,
            end: token.end,
        });
        if token.is_sign(b'{') {
            return depth.saturating_add(1);
        }
        if token.is_sign(b'}') {
            self.is_closed = depth <= 1;
            return depth.saturating_sub(1);
        }
        depth
    }
}

/// Returns the definitions of rules, by the tokens of a text: each name before a `=`. A definition ends
/// with the brace that closes its body, or with the last token before the next definition.
pub fn definitions_of(
    alloc: Global,
    text: &str,
    tokens: &[Token],
) -> Result<Vec<Definition>, AllocError>
    ensures { IfOk result (λ definitions.
        map classes.name_of definitions.items ≡ classes.defined_names tokens.now) }
{
    let mut definitions = Vec::new(alloc);
    let mut depth = 0;
    let mut doc = None;
    let mut rest = tokens;
    while let Some((token, after)) = rest.split_first() {
        let start = doc.unwrap_or(token.start);
        doc = doc_after(*token, doc);
        depth = push_token(&mut definitions, text, start, *token, after, depth)?;
        rest = after;
    }
    Ok(definitions)
}

/// Adds a token: a definition, if it is the name of one, or to the last definition. Returns how many braces
/// are open after it.
fn push_token(
    definitions: &mut Vec<Definition>,
    text: &str,
    start: usize,
    token: Token,
    after: &[Token],
    depth: usize,
) -> Result<usize, AllocError>
    ensures { OnOk result (map classes.name_of definitions.new.items
        ≡ map classes.name_of definitions.old.items ++ classes.defined_at token after.now) }
{
    if is_definition(token, after) {
        definitions.push(Definition::new(token, start))?;
        return Ok(0);
    }
    if token.is_comment() {
        return Ok(depth);
    }
    extend_last(definitions, text, token, depth)
}

/// Returns the byte at which the doc comments begin that end before the next token.
fn doc_after(token: Token, doc: Option<usize>) -> Option<usize> {
    match token.class {
        TokenClass::Doc => Some(doc.unwrap_or(token.start)),
        TokenClass::Comment => doc,
        _ => None,
    }
}

/// Adds a token to the last definition, if there is one. Returns how many braces are open after it.
fn extend_last(
    definitions: &mut Vec<Definition>,
    text: &str,
    token: Token,
    depth: usize,
) -> Result<usize, AllocError>
    ensures { OnOk result (map classes.name_of definitions.new.items
        ≡ map classes.name_of definitions.old.items) }
{
    let Some(mut definition) = definitions.pop() else {
        return Ok(0);
    };
    let depth = definition.extend(text.as_bytes(), token, depth);
    definitions.push(definition)?;
    Ok(depth)
}

/// Whether a token is a name before a `=`.
fn is_definition(token: Token, after: &[Token]) -> bool
    ensures { result ≡ (spec.is_name token.class && classes.is_equals_next after.now) }
{
    matches!(token.class, TokenClass::Name) && is_equals_next(after)
}

/// Whether the first token that is no comment is a `=`.
fn is_equals_next(tokens: &[Token]) -> bool
    ensures { result ≡ classes.is_equals_next tokens.now }
{
    let mut rest = tokens;
    while let Some((token, after)) = rest.split_first() {
        if !token.is_comment() {
            return token.is_sign(b'=');
        }
        rest = after;
    }
    false
}

/// Returns the names of the definitions of this name.
pub fn definitions_named(
    alloc: Global,
    text: &str,
    definitions: &[Definition],
    name: &str,
) -> Result<Vec<Extent>, AllocError>
    ensures { IfOk result (λ found. found.items ≡ spec.names_of text.now name.now definitions.now) }
{
    let mut found = Vec::new(alloc);
    let mut rest = definitions;
    while let Some((definition, after)) = rest.split_first() {
        push_name(text, definition.name, name, &mut found)?;
        rest = after;
    }
    Ok(found)
}

/// Adds the bytes of a definition's name, if it is this one.
fn push_name(
    text: &str,
    extent: Extent,
    name: &str,
    found: &mut Vec<Extent>,
) -> Result<(), AllocError>
    ensures { OnOk result
        (found.new.items ≡ found.old.items ++ spec.extent_named text.now name.now extent) }
{
    if is_named(text, extent, name) {
        found.push(extent)?;
    }
    Ok(())
}

/// Whether these bytes of a text are a name.
pub(crate) fn is_named(text: &str, extent: Extent, name: &str) -> bool
    ensures { result ≡ bytes_eq (parts.part text.now extent) name.now }
{
    part(text.as_bytes(), extent.start, extent.end) == name.as_bytes()
}
