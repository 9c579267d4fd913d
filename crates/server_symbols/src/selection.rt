//! Parts around an offset, from the innermost to the outermost.
ghost use Rattle.std.specs.Prelude.{◌≡◌, ◌++◌, [], IfOk, None, OnOk};
ghost use Rattle.server_symbols.specs.Selections as spec;
ghost use Rattle.server_symbols.specs.Selections.{AreNested};

use crate::outline::Definition;
use crate::tokens::{Extent, Token};
use std::alloc::{AllocError, Global};

/// The most brackets around an offset that are answered.
const MOST_BRACKETS: usize = 60;

/// Returns the parts of a text around an offset, from the innermost to the outermost, no two of them the
/// same: the token, what is in brackets around it (the innermost 60), the body, the definition, and all of
/// the text.
pub fn selections_at(
    alloc: Global,
    text: &str,
    tokens: &[Token],
    definitions: &[Definition],
    offset: usize,
) -> Result<Vec<Extent>, AllocError>
    ensures parts { IfOk result (λ extents.
        extents.items ≡ spec.selections text.now tokens.now definitions.now offset) }
    ensures nested { IfOk result (λ extents. AreNested extents.items) }
{
    let mut parts = Vec::new(alloc);
    push_token(tokens, offset, &mut parts)?;
    let mut brackets = brackets_from(alloc, tokens, offset)?;
    brackets.truncate(MOST_BRACKETS);
    parts.extend_from_slice(&brackets)?;
    push_definition(definitions, offset, &mut parts)?;
    parts.push(Extent {
        start: 0,
        end: text.len(),
    })?;
    nest(alloc, &parts)
}

/// Whether an offset is in an extent, or at its end.
fn is_around(offset: usize, extent: Extent) -> bool
    ensures { result ≡ spec.is_around offset extent }
{
    extent.start <= offset && offset <= extent.end
}

/// Adds the token that an offset is in, or at the end of.
fn push_token(tokens: &[Token], offset: usize, parts: &mut Vec<Extent>) -> Result<(), AllocError>
    ensures { OnOk result
        (parts.new.items ≡ parts.old.items ++ spec.token_around offset tokens.now) }
{
    if let Some(extent) = token_around(tokens, offset) {
        parts.push(extent)?;
    }
    Ok(())
}

/// Returns the last token that an offset is in, or at the end of.
fn token_around(tokens: &[Token], offset: usize) -> Option<Extent>
    ensures { result ≡ spec.last_around offset None tokens.now }
{
    let mut found = None;
    let mut rest = tokens;
    while let Some((token, after)) = rest.split_first() {
        found = extent_around(token.extent(), offset).or(found);
        rest = after;
    }
    found
}

/// Returns an extent, if an offset is in it or at its end.
fn extent_around(extent: Extent, offset: usize) -> Option<Extent>
    ensures { result ≡ spec.if_around offset extent }
{
    if is_around(offset, extent) {
        Some(extent)
    } else {
        None
    }
}

/// Adds the body and the whole of the definition that an offset is in.
fn push_definition(
    definitions: &[Definition],
    offset: usize,
    parts: &mut Vec<Extent>,
) -> Result<(), AllocError>
    ensures { OnOk result
        (parts.new.items ≡ parts.old.items ++ spec.definition_around offset definitions.now) }
{
    let Some(definition) = definition_around(definitions, offset) else {
        return Ok(());
    };
    push_body(definition.body, offset, parts)?;
    push_around(parts, definition.whole, offset)
}

/// Adds a body, if there is one and an offset is in it.
fn push_body(body: Option<Extent>, offset: usize, parts: &mut Vec<Extent>) -> Result<(), AllocError>
    ensures { OnOk result (parts.new.items ≡ parts.old.items ++ spec.body_around offset body) }
{
    match body {
        Some(extent) => push_around(parts, extent, offset),
        None => Ok(()),
    }
}

/// Returns the first definition that an offset is in.
fn definition_around(definitions: &[Definition], offset: usize) -> Option<Definition>
    ensures { result ≡ spec.definition_at offset definitions.now }
{
    let mut rest = definitions;
    while let Some((definition, after)) = rest.split_first() {
        if is_around(offset, definition.whole) {
            return Some(*definition);
        }
        rest = after;
    }
    None
}

/// Adds an extent, if the offset is in it.
fn push_around(parts: &mut Vec<Extent>, extent: Extent, offset: usize) -> Result<(), AllocError>
    ensures { OnOk result (parts.new.items ≡ parts.old.items ++ spec.kept_around offset extent) }
{
    if is_around(offset, extent) {
        parts.push(extent)?;
    }
    Ok(())
}

/// Returns what is in brackets around an offset, the innermost first.
fn brackets_from(alloc: Global, tokens: &[Token], offset: usize) -> Result<Vec<Extent>, AllocError>
    ensures { IfOk result (λ extents.
        extents.items ≡ spec.brackets_from offset [] tokens.now) }
{
    let mut starts = Vec::new(alloc);
    let mut brackets = Vec::new(alloc);
    let mut rest = tokens;
    while let Some((token, after)) = rest.split_first() {
        push_closed(*token, offset, &starts, &mut brackets)?;
        set_open(*token, &mut starts)?;
        rest = after;
    }
    Ok(brackets)
}

/// Adds the brackets that a token closes, if the offset is between them.
fn push_closed(
    token: Token,
    offset: usize,
    starts: &[usize],
    brackets: &mut Vec<Extent>,
) -> Result<(), AllocError>
    ensures { OnOk result
        (brackets.new.items ≡ brackets.old.items ++ spec.closed_by offset starts.now token) }
{
    if token.is_opening() {
        return Ok(());
    }
    if token.is_closing() {
        return push_pair(starts.last().copied(), token, offset, brackets);
    }
    Ok(())
}

/// Adds the bytes from an opening bracket up to a closing one, if the offset is between them.
fn push_pair(
    start: Option<usize>,
    token: Token,
    offset: usize,
    brackets: &mut Vec<Extent>,
) -> Result<(), AllocError>
    ensures { OnOk result
        (brackets.new.items ≡ brackets.old.items ++ spec.pair_around offset start token) }
{
    let Some(start) = start else {
        return Ok(());
    };
    if is_between(start, offset, token.start) {
        brackets.push(Extent {
            start,
            end: token.end,
        })?;
    }
    Ok(())
}

/// Whether an offset is between the starts of two brackets.
fn is_between(start: usize, offset: usize, end: usize) -> bool
    ensures { result ≡ spec.is_between start offset end }
{
    start < offset && offset <= end
}

/// Takes a token: a bracket that is open after it, or one that no longer is.
fn set_open(token: Token, starts: &mut Vec<usize>) -> Result<(), AllocError>
    ensures { OnOk result (starts.new.items ≡ spec.open_after starts.old.items token) }
{
    if token.is_opening() {
        starts.push(token.start)?;
    } else if token.is_closing() {
        let _ = starts.pop();
    }
    Ok(())
}

/// Returns those of some parts that are larger than all before.
fn nest(alloc: Global, parts: &[Extent]) -> Result<Vec<Extent>, AllocError>
    ensures { IfOk result (λ extents. extents.items ≡ spec.grown_by [] parts.now) }
{
    let mut extents = Vec::new(alloc);
    let mut rest = parts;
    while let Some((extent, after)) = rest.split_first() {
        push_larger(&mut extents, *extent)?;
        rest = after;
    }
    Ok(extents)
}

/// Adds an extent, if it is larger than the last one and has that in it.
fn push_larger(extents: &mut Vec<Extent>, extent: Extent) -> Result<(), AllocError>
    ensures { OnOk result (extents.new.items ≡ spec.grown extents.old.items extent) }
{
    if may_follow(extents.last().copied(), extent) {
        extents.push(extent)?;
    }
    Ok(())
}

/// Whether an extent is larger than the last one and has that in it.
fn may_follow(last: Option<Extent>, extent: Extent) -> bool
    ensures { result ≡ spec.may_follow last extent }
{
    match last {
        Some(last) => is_larger(extent, last),
        None => true,
    }
}

/// Whether an extent has another one in it, and is not that one.
fn is_larger(extent: Extent, inner: Extent) -> bool
    ensures { result ≡ spec.is_larger extent inner }
{
    extent.start <= inner.start
        && inner.end <= extent.end
        && (extent.start < inner.start || inner.end < extent.end)
}
