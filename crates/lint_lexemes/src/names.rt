//! The names of a grammar: the positions of their definitions, and which name is nearest to another.
ghost use Rattle.std.specs.Prelude.{◌≡◌, ◌+◌, ◌^◌, ◌<◌, ◌++◌, Contains, IfOk, IfSome, OnOk};
ghost use Rattle.lint_lexemes.specs.Lexemes as spec;
ghost use Rattle.lint_lexemes.specs.Lexemes.{AreDefined, bytes_of};

use crate::lexer::{Lexeme, lexemes};
use crate::site::is_sign;
use std::alloc::{AllocError, Global};
use strsim::osa_distance;

/// Names of more bytes are not compared.
const LONGEST_NAME: usize = 64;

/// The bytes of the names that a text defines, in order. A name is defined before a `=` outside of bodies.
pub fn definitions(alloc: Global, text: &str) -> Result<Vec<(usize, usize)>, AllocError>
    ensures { IfOk result (λ names. AreDefined text.now names.items) }
{
    let lexemes = lexemes(alloc, text)?;
    names_in(alloc, &lexemes)
}

/// The bytes of the names before a `=` outside of braces.
fn names_in(alloc: Global, lexemes: &[Lexeme]) -> Result<Vec<(usize, usize)>, AllocError>
    ensures { IfOk result (λ names. names.items ≡ spec.names_in 0 lexemes.now) }
{
    let mut names = Vec::new(alloc);
    let mut depth = 0usize;
    let mut rest = lexemes;
    while let Some((lexeme, after)) = rest.split_first() {
        if depth == 0 {
            push_name(*lexeme, after, &mut names)?;
        }
        depth = depth_after(depth, *lexeme);
        rest = after;
    }
    Ok(names)
}

/// Adds the bytes of a name before a `=`.
fn push_name(
    lexeme: Lexeme,
    after: &[Lexeme],
    names: &mut Vec<(usize, usize)>,
) -> Result<(), AllocError>
    ensures { OnOk result (names.new.items ≡ names.old.items ++ spec.name_before lexeme after.now) }
{
    if lexeme.class.is_name() && is_equals_next(after) {
        names.push((lexeme.start, lexeme.end))?;
    }
    Ok(())
}

/// Whether lexemes begin with a `=`.
fn is_equals_next(lexemes: &[Lexeme]) -> bool
    ensures { result ≡ spec.is_equals_next lexemes.now }
{
    match lexemes.first() {
        Some(lexeme) => is_sign(*lexeme, b'='),
        None => false,
    }
}

/// How many braces are open after one more lexeme.
fn depth_after(depth: usize, lexeme: Lexeme) -> usize
    requires { depth + 1 < 2 ^ 64 }
    ensures { result ≡ spec.depth_after depth lexeme.class }
{
    if is_sign(lexeme, b'{') {
        return depth + 1;
    }
    if is_sign(lexeme, b'}') {
        return depth.saturating_sub(1);
    }
    depth
}

/// The name among some that is nearest to one by edits, of which swapping two letters is one, at most a third
/// of its length. A name that differs in the case of letters alone comes first, else the first of several.
pub fn nearest_name<'n>(
    alloc: Global,
    name: &str,
    names: &'n [&'n str],
) -> Result<Option<&'n str>, AllocError>
    ensures { IfOk result (λ nearest. IfSome nearest (λ found.
        Contains (bytes_of names.entry.now) found.now)) }
{
    let mut best = None;
    let mut bound = name.len() / 3 + 1;
    if name.len() > LONGEST_NAME {
        return Ok(None);
    }
    for other in names {
        if other.eq_ignore_ascii_case(name) {
            return Ok(Some(*other));
        }
        if other.len().abs_diff(name.len()) >= bound {
            continue;
        }
        let distance = osa_distance(alloc, name, other)?;
        if distance < bound {
            bound = distance;
            best = Some(*other);
        }
    }
    Ok(best)
}
