//! Hints: how a syntax error of a grammar may be mended, judged by the lexemes around its position.
#![tactic(auto)]

ghost use Rattle.std.specs.Prelude.{◌↔◌, IfOk, IsSome};

mod classes;
mod foreign;
mod help;
mod literals;
mod mistakes;
mod outer;
mod properties;
mod signs;
mod terms;

use crate::foreign::at_foreign;
use crate::help::{Remedy, say};
pub use crate::help::{Applicability, Fix, Help, Hint, Related};
use crate::literals::{at_character, in_character, in_text, open_literal};
pub use crate::mistakes::{
    ForeignMistake, LiteralMistake, Mistake, OuterMistake, SignMistake, TermMistake,
};
use crate::outer::{at_definition, before_rule, inner_doc, late_doc, starts_doc};
pub use crate::properties::{is_pest_property, pest_property_text};
use crate::signs::at_sign;
use crate::terms::{at_digits, at_end, at_name, at_term, in_count};
use lint_lexemes::{LexemeClass, Site};
pub use lint_lexemes::{definitions, nearest_name};
use std::alloc::{AllocError, Global};

/// A hint for the syntax error of a text at a byte. A mistake is only known if the lexemes around the byte
/// show it, and the help is that of the mistake. The time is linear in the text.
pub fn hint_at(alloc: Global, text: &str, position: usize) -> Result<Hint, AllocError>
    ensures { IfOk result (λ hint. IsSome hint.mistake ↔ IsSome hint.help) }
{
    let site = Site::new(alloc, text, position)?;
    let remedy = remedy_at(alloc, &site)?;
    let related = related_at(alloc, &site)?;
    Hint::new(alloc, remedy, related)
}

/// The remedy of the error, by where it is.
fn remedy_at(alloc: Global, site: &Site<'_>) -> Result<Option<Remedy>, AllocError> {
    if site.is_outside() {
        return at_definition(alloc, site);
    }
    if starts_doc(site) {
        return inner_doc(alloc, site);
    }
    if site.starts_rule() {
        return before_rule(alloc, site);
    }
    if site.is_in_count() {
        return in_count(alloc, site);
    }
    if site.is_within(b'[') {
        return Ok(say(SignMistake::PeekBounds));
    }
    remedy_inside(alloc, site)
}

/// The remedy of an error in a body, by the lexeme at its position.
fn remedy_inside(alloc: Global, site: &Site<'_>) -> Result<Option<Remedy>, AllocError> {
    let here = site.here();
    let is_inside = here.start < site.position;
    match here.class {
        LexemeClass::Text | LexemeClass::OpenText if is_inside => Ok(in_text(site, here)),
        LexemeClass::Character if is_inside => in_character(alloc, site, here),
        LexemeClass::Character | LexemeClass::OpenCharacter => at_character(alloc, site, here),
        LexemeClass::Text | LexemeClass::OpenText => at_term(alloc, site),
        LexemeClass::Name => at_name(alloc, site, here),
        LexemeClass::Digits => at_digits(alloc, site, here),
        LexemeClass::Foreign => at_foreign(alloc, site, here),
        LexemeClass::Sign(byte) => at_sign(alloc, site, here, byte),
        LexemeClass::GrammarDoc => late_doc(alloc, here),
        LexemeClass::OpenComment => Ok(say(OuterMistake::OpenComment)),
        LexemeClass::Edge => at_end(alloc, site),
    }
}

/// Where what is open at the error began: the innermost bracket, a string or a comment.
fn related_at(alloc: Global, site: &Site<'_>) -> Result<Vec<Related>, AllocError> {
    let mut related = Vec::new(alloc);
    let open = open_literal(site);
    if let Some(lexeme) = open.or(site.unclosed_bracket()) {
        if lexeme.start < site.position {
            let end = lexeme.start.saturating_add(1);
            related.push(Related::new(alloc, lexeme.start, end, "it is opened here")?)?;
        }
    }
    Ok(related)
}
