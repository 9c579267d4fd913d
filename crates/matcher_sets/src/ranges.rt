//! Ranges of forms.
ghost use Rattle.std.specs.Prelude.{◌≡◌, ℕ, IfNone, IfOk, IfSome, OnOk, chars, false, nat_eq, true};
ghost use Rattle.base_language.specs.Language.Builtins.{is_between};
ghost use Rattle.base_language.specs.Language.Matching.{starts_in};
ghost use Rattle.matcher_program.specs.Programs.{characters_of, is_one, is_set, set_of};
ghost use Rattle.matcher_sets.specs.Ranges.{Adds, Covers};

use matcher_code::ranges::Ranges;
use matcher_program::form::{Class, Form};
use std::alloc::{AllocError, Global};

/// Returns the ranges of a builtin's set.
fn class_ranges(class: Class) -> &'static [(u32, u32)]
    ensures { Covers result.now (set_of class) }
{
    match class {
        Class::Any => &[(0, 0x10_ffff)],
        Class::Digit => &[(48, 57)],
        Class::NonzeroDigit => &[(49, 57)],
        Class::BinDigit => &[(48, 49)],
        Class::OctDigit => &[(48, 55)],
        Class::HexDigit => &[(48, 57), (97, 102), (65, 70)],
        Class::AlphaLower => &[(97, 122)],
        Class::AlphaUpper => &[(65, 90)],
        Class::Alpha => &[(65, 90), (97, 122)],
        Class::Alphanumeric => &[(65, 90), (97, 122), (48, 57)],
        Class::Ascii => &[(0, 127)],
    }
}

/// Returns the first character of a text.
pub(crate) fn first_character(text: &str) -> Option<char>
    ensures none { IfNone result ((d : ℕ) → starts_in (λ e. nat_eq e d) (chars text.now) ≡ false) }
    ensures some { IfSome result (λ c. (d : ℕ)
        → starts_in (λ e. nat_eq e d) (chars text.now) ≡ nat_eq c d) }
{
    text.chars().next()
}

/// Appends a range.
pub(crate) fn push_range(ranges: &mut Ranges, low: u32, high: u32) -> Result<(), AllocError>
    ensures { OnOk result (Adds ranges.old.items ranges.new.items (is_between low high)) }
{
    ranges.push((low, high))?;
    Ok(())
}

/// Appends the ranges of a builtin's set.
fn push_class(ranges: &mut Ranges, class: Class) -> Result<(), AllocError>
    ensures { OnOk result (Adds ranges.old.items ranges.new.items (set_of class)) }
{
    ranges.extend_from_slice(class_ranges(class))?;
    Ok(())
}

/// Appends the first character of a text.
pub(crate) fn push_first(ranges: &mut Ranges, text: &str) -> Result<(), AllocError>
    ensures { OnOk result (Adds ranges.old.items ranges.new.items
        (λ c. starts_in (λ d. nat_eq d c) (chars text.now))) }
{
    let c = match first_character(text) {
        Some(c) => c,
        None => return Ok(()),
    };
    push_range(ranges, c as u32, c as u32)?;
    Ok(())
}

/// Appends the ranges of a form that matches one character, and is no choice.
fn push_one(ranges: &mut Ranges, form: &Form) -> Result<(), AllocError>
    requires { is_one form.now ≡ true }
    ensures { OnOk result (Adds ranges.old.items ranges.new.items (characters_of form.now)) }
{
    match form {
        Form::Str(text) => push_first(ranges, text.as_str()),
        Form::Range(low, high) => push_range(ranges, *low as u32, *high as u32),
        Form::One(class) => push_class(ranges, *class),
        _ => Ok(()),
    }
}

/// Returns the ranges of a form that matches one character.
pub(crate) fn ranges_of(alloc: Global, form: &Form) -> Result<Ranges, AllocError>
    requires { is_set form.now ≡ true }
    ensures { IfOk result (λ ranges. Covers ranges.items (characters_of form.now)) }
{
    let mut ranges = Vec::new(alloc);
    let mut rest = form;
    'alternatives: while let Form::Choice(left, right) = rest {
        push_one(&mut ranges, left)?;
        rest = right;
    }
    push_one(&mut ranges, rest)?;
    Ok(ranges)
}
