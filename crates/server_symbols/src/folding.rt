//! Folds of texts: the parts that can be folded.
ghost use Rattle.std.specs.Prelude.{◌≡◌, ◌++◌, IfOk, OnOk};
ghost use Rattle.server_symbols.specs.Folds as spec;

use crate::outline::Definition;
use crate::tokens::{Extent, Token, TokenClass};
use std::alloc::{AllocError, Global};

/// A part of a text that can be folded.
#[derive(Clone, Copy, Debug)]
pub struct Fold {
    pub extent: Extent,
    pub is_comment: bool,
}

/// Returns what can be folded: bodies, and comments. Whether a part has several lines is for the caller to
/// see.
pub fn folds_of(
    alloc: Global,
    tokens: &[Token],
    definitions: &[Definition],
) -> Result<Vec<Fold>, AllocError>
    ensures { IfOk result (λ folds. folds.items ≡ spec.folds tokens.now definitions.now) }
{
    let mut folds = Vec::new(alloc);
    push_bodies(definitions, &mut folds)?;
    push_comments(tokens, &mut folds)?;
    Ok(folds)
}

/// Adds the bodies of definitions.
fn push_bodies(definitions: &[Definition], folds: &mut Vec<Fold>) -> Result<(), AllocError>
    ensures { OnOk result
        (folds.new.items ≡ folds.old.items ++ spec.body_folds definitions.now) }
{
    let mut rest = definitions;
    while let Some((definition, after)) = rest.split_first() {
        push_body(definition.body, folds)?;
        rest = after;
    }
    Ok(())
}

/// Adds a body, if there is one.
fn push_body(body: Option<Extent>, folds: &mut Vec<Fold>) -> Result<(), AllocError>
    ensures { OnOk result (folds.new.items ≡ folds.old.items ++ spec.body_fold body) }
{
    if let Some(extent) = body {
        folds.push(Fold {
            extent,
            is_comment: false,
        })?;
    }
    Ok(())
}

/// Adds the comments, of which neighbours of one class are one.
fn push_comments(tokens: &[Token], folds: &mut Vec<Fold>) -> Result<(), AllocError>
    ensures { OnOk result
        (folds.new.items ≡ folds.old.items ++ spec.comment_folds tokens.now) }
{
    match tokens.split_first() {
        Some((first, others)) => push_from(*first, others, folds),
        None => Ok(()),
    }
}

/// Adds the comments from a token on.
fn push_from(first: Token, others: &[Token], folds: &mut Vec<Fold>) -> Result<(), AllocError>
    ensures { OnOk result
        (folds.new.items ≡ folds.old.items ++ spec.folds_from first others.now) }
{
    let mut last = first;
    let mut rest = others;
    while let Some((token, after)) = rest.split_first() {
        last = push_unless_joined(last, *token, folds)?;
        rest = after;
    }
    push_comment(last, folds)
}

/// Returns two neighbours as one if they are comments of one class, or else adds the first and returns the
/// second.
fn push_unless_joined(last: Token, token: Token, folds: &mut Vec<Fold>) -> Result<Token, AllocError>
    ensures { IfOk result (λ next. (next ≡ spec.next_token last token)
        × (folds.new.items ≡ folds.old.items ++ spec.folds_before last token)) }
{
    if is_same_comment(last.class, token.class) {
        return Ok(Token {
            end: token.end,
            ..last
        });
    }
    push_comment(last, folds)?;
    Ok(token)
}

/// Whether two classes are the same one of comments.
fn is_same_comment(class: TokenClass, other: TokenClass) -> bool
    ensures { result ≡ spec.is_same_comment class other }
{
    match class {
        TokenClass::Comment => matches!(other, TokenClass::Comment),
        TokenClass::Doc => matches!(other, TokenClass::Doc),
        TokenClass::GrammarDoc => matches!(other, TokenClass::GrammarDoc),
        _ => false,
    }
}

/// Adds a token, if it is a comment.
fn push_comment(token: Token, folds: &mut Vec<Fold>) -> Result<(), AllocError>
    ensures { OnOk result (folds.new.items ≡ folds.old.items ++ spec.comment_fold token) }
{
    if token.is_comment() {
        folds.push(Fold {
            extent: token.extent(),
            is_comment: true,
        })?;
    }
    Ok(())
}
