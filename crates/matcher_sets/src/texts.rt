//! First characters of texts.
ghost use Rattle.std.specs.Prelude.{◌≡◌, ◌<◌, ◌∷◌, ◌==◌, ℕ, [], IfNone, IfOk, IfSome, chars, length, map, true};
ghost use Rattle.base_ast.specs.Ast.{text_of};
ghost use Rattle.base_language.specs.Language.Matching.{any_begins};
ghost use Rattle.base_language.specs.Language.Text.{Text};
ghost use Rattle.matcher_code.specs.Lists.{is_covered};
ghost use Rattle.matcher_code.specs.Laid.{StartIn};

use crate::ranges::{first_character, push_first, push_range};
use matcher_code::ranges::Ranges;
use std::alloc::{AllocError, Global};

/// Returns whether a text is one character.
pub(crate) fn is_single(text: &str) -> bool
    ensures { result ≡ true → (length (chars text.now) == 1) ≡ true }
{
    let mut characters = text.chars();
    match characters.next() {
        Some(_) => characters.as_str().is_empty(),
        None => false,
    }
}

/// Returns the ranges of texts of one character, or `None` if there is another text.
pub fn single_characters(alloc: Global, texts: &Vec<String>) -> Result<Option<Ranges>, AllocError>
    ensures { IfOk result (λ made. IfSome made (λ ranges. (c : ℕ) (u : Text) → c < 1114112
        → any_begins (map text_of texts.now.items) (c ∷ u) ≡ is_covered ranges.items c)) }
{
    let mut ranges = Vec::new(alloc);
    for text in texts {
        if !is_single(text.as_str()) {
            return Ok(None);
        }
        push_first(&mut ranges, text.as_str())?;
    }
    Ok(Some(ranges))
}

/// Returns the ranges of all characters.
pub fn all_characters(alloc: Global) -> Result<Ranges, AllocError>
    ensures { IfOk result (λ ranges. (c : ℕ) → c < 1114112 → is_covered ranges.items c ≡ true) }
{
    let mut ranges = Vec::new(alloc);
    push_range(&mut ranges, 0, 0x10_ffff)?;
    Ok(ranges)
}

/// Returns the ranges of the first characters of texts, or `None` if one of them is empty.
pub fn first_characters(alloc: Global, texts: &Vec<String>) -> Result<Option<Ranges>, AllocError>
    ensures starts { IfOk result (λ made. IfSome made (λ ranges.
        StartIn ranges.items (map text_of texts.now.items))) }
    ensures empty { IfOk result (λ made. IfNone made (any_begins (map text_of texts.now.items) [] ≡ true)) }
{
    let mut ranges = Vec::new(alloc);
    for text in texts {
        let c = match first_character(text.as_str()) {
            Some(c) => c,
            None => return Ok(None),
        };
        push_range(&mut ranges, c as u32, c as u32)?;
    }
    Ok(Some(ranges))
}
