//! Characters of sets.

use crate::chance::Chance;
use front_names::CharSet;
use matcher_program::properties::Properties;
use matcher_support::unicode_properties::UnicodeProperties;
use std::alloc::{AllocError, Global};

/// Returns those characters of a set that are often typed.
fn letters_of(set: CharSet) -> &'static str {
    match set {
        CharSet::Any => "abcxyz 019_-.é漢",
        CharSet::AsciiDigit => "0123456789",
        CharSet::AsciiNonzeroDigit => "123456789",
        CharSet::AsciiBinDigit => "01",
        CharSet::AsciiOctDigit => "01234567",
        CharSet::AsciiHexDigit => "0123456789abcdefABCDEF",
        CharSet::AsciiAlphaLower => "abcdefghijklmnopqrstuvwxyz",
        CharSet::AsciiAlphaUpper => "ABCDEFGHIJKLMNOPQRSTUVWXYZ",
        CharSet::AsciiAlpha => "abcdefghijklmnopqrstuvwxyzABC",
        CharSet::AsciiAlphanumeric => "abcdefghijklmnopqrstuvwxyzABC0123456789",
        CharSet::Ascii => "abcxyz ABC019_-.!\"#$%&'()*+,/:;<=>?@[\\]^`{|}~",
    }
}

/// Returns a character of `set`, chosen by `chance`.
pub fn character_of(set: CharSet, chance: &mut Chance) -> char {
    let letters = letters_of(set);
    let count = u32::try_from(letters.chars().count()).unwrap_or(1);
    let index = chance.below(count) as usize;
    letters.chars().nth(index).unwrap_or('a')
}

/// Returns a character from `low` to `high`, both included, chosen by `chance`. If the chosen
/// number is no character, it returns the one of `low`.
pub fn character_between(low: u32, high: u32, chance: &mut Chance) -> char {
    let count = high.saturating_sub(low).saturating_add(1);
    let number = low.saturating_add(chance.below(count));
    char::from_u32(number).unwrap_or(char::from_u32(low).unwrap_or('a'))
}

/// Returns a character with the Unicode property of the given name. Returns `None` if no property
/// has the name. The only error is an allocation failure.
pub fn character_with(
    alloc: Global,
    property: &str,
    chance: &mut Chance,
) -> Result<Option<char>, AllocError> {
    let Some(ranges) = UnicodeProperties.ranges(alloc, property)? else {
        return Ok(None);
    };
    let count = u32::try_from(ranges.len().min(12)).unwrap_or(0);
    let index = chance.below(count) as usize;
    match ranges.get(index) {
        Some((low, high)) => Ok(Some(character_between(*low, *high, chance))),
        None => Ok(None),
    }
}
