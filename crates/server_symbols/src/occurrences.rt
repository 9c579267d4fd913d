//! Occurrences of names.
ghost use Rattle.std.specs.Prelude.{◌≡◌, ◌++◌, IfOk, OnOk};
ghost use Rattle.server_symbols.specs.Occurrences as spec;

use crate::outline::is_named;
use crate::tokens::{Extent, Token, TokenClass};
use std::alloc::{AllocError, Global};

/// Returns the extents of a name, as the name of a rule that is defined or called, in order.
pub fn occurrences_of(
    alloc: Global,
    text: &str,
    tokens: &[Token],
    name: &str,
) -> Result<Vec<Extent>, AllocError>
    ensures { IfOk result (λ found. found.items ≡ spec.occurrences text.now name.now tokens.now) }
{
    let mut found = Vec::new(alloc);
    let mut rest = tokens;
    while let Some((token, after)) = rest.split_first() {
        push_occurrence(text, *token, name, &mut found)?;
        rest = after;
    }
    Ok(found)
}

/// Adds the bytes of a token, if it is this name.
fn push_occurrence(
    text: &str,
    token: Token,
    name: &str,
    found: &mut Vec<Extent>,
) -> Result<(), AllocError>
    ensures { OnOk result
        (found.new.items ≡ found.old.items ++ spec.occurrence_at text.now name.now token) }
{
    if is_name(token.class) && is_named(text, token.extent(), name) {
        found.push(token.extent())?;
    }
    Ok(())
}

/// Whether a class is that of names.
fn is_name(class: TokenClass) -> bool
    ensures { result ≡ spec.is_name class }
{
    matches!(class, TokenClass::Name)
}
