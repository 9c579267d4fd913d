//! Refused renames: the reasons.
ghost use Rattle.std.specs.List.{list_all};
ghost use Rattle.std.specs.Prelude.{◌≡◌, ◌==◌, ◌∷◌, [], IfOk, length, map, not};
ghost use Rattle.base_language.specs.Language.Builtins.{is_one_of};
ghost use Rattle.base_language.specs.Language.Grammar.{keywords};
ghost use Rattle.base_language.specs.Pieces.Saying.{piece, piece_of};
ghost use Rattle.front_names.specs.Names.{rust_keywords};
ghost use Rattle.server_symbols.specs.NewNames as spec;

use base_language::grammar::Rule;
use base_language::runtime::{Error, Span};
use front_names::{validate_pest_keywords, validate_rust_keywords};
use std::alloc::{AllocError, Global};

/// The reason for which a rule is not renamed.
#[derive(Clone, Copy, Debug, PartialEq, Eq)]
pub enum RenameRefusal {
    /// No rule of the old name is defined.
    NoRule,
    /// The new name is no identifier.
    NoIdentifier,
    /// The new name is a keyword of pest or of Rust.
    Keyword,
    /// The new name is that of a builtin.
    Builtin,
    /// A rule of the new name is defined or called.
    Taken,
    /// The text is no grammar.
    NoGrammar,
    /// The edited text has other tokens than the text with the new name in place of the old one.
    OtherTokens,
}

/// Whether bytes are an identifier.
pub(crate) fn is_identifier(name: &[u8]) -> bool
    ensures { result ≡ spec.is_identifier name.now }
{
    match name.split_first() {
        Some((first, others)) => is_first(*first) && are_others(others),
        None => false,
    }
}

/// Whether a byte can be the first of an identifier.
pub(crate) fn is_first(byte: u8) -> bool
    ensures { result ≡ spec.is_first byte }
{
    byte.is_ascii_alphabetic() || byte == b'_'
}

/// Whether a byte can be another of an identifier.
pub(crate) fn is_other(byte: u8) -> bool
    ensures { result ≡ spec.is_other byte }
{
    byte.is_ascii_alphanumeric() || byte == b'_'
}

/// Whether all bytes can be others of an identifier.
fn are_others(bytes: &[u8]) -> bool
    ensures { result ≡ list_all spec.is_other bytes.now }
{
    let mut rest = bytes;
    while let Some((byte, after)) = rest.split_first() {
        if !is_other(*byte) {
            return false;
        }
        rest = after;
    }
    true
}

/// Whether a name is a keyword of pest or of Rust.
pub(crate) fn is_keyword(alloc: Global, name: &str) -> Result<bool, AllocError>
    ensures { IfOk result (λ answer. answer ≡ spec.is_keyword name.now) }
{
    Ok(is_pest_keyword(alloc, name)? || is_rust_keyword(alloc, name)?)
}

/// Whether pest reserves a name.
fn is_pest_keyword(alloc: Global, name: &str) -> Result<bool, AllocError>
    ensures { IfOk result (λ answer. answer ≡ is_one_of keywords name.now) }
{
    let definitions = definition_of(alloc, name)?;
    match validate_pest_keywords(alloc, &definitions) {
        Ok(errors) => Ok(has_error(&errors)),
        Err(_) => Err(AllocError),
    }
}

/// Whether Rust reserves a name.
fn is_rust_keyword(alloc: Global, name: &str) -> Result<bool, AllocError>
    ensures { IfOk result (λ answer. answer ≡ is_one_of rust_keywords name.now) }
{
    let definitions = definition_of(alloc, name)?;
    match validate_rust_keywords(alloc, &definitions) {
        Ok(errors) => Ok(has_error(&errors)),
        Err(_) => Err(AllocError),
    }
}

/// Returns a name as that of the one definition.
fn definition_of<'n>(alloc: Global, name: &'n str) -> Result<Vec<Span<'n>>, AllocError>
    ensures { IfOk result (λ spans.
        map piece_of spans.items ≡ piece name.now 0 (length name.now) ∷ []) }
{
    let mut spans = Vec::new(alloc);
    match Span::new(name, 0, name.len()) {
        Some(span) => {
            spans.push(span)?;
            Ok(spans)
        }
        None => Ok(spans),
    }
}

/// Whether there is an error.
fn has_error(errors: &[Error<Rule>]) -> bool
    ensures { result ≡ not (length errors.now == 0) }
{
    !errors.is_empty()
}
