//! Differences of sets.
ghost use Rattle.matcher_code.specs.Lists.{is_covered};
ghost use Rattle.std.specs.Prelude.{◌≡◌, ◌==◌, ◌&&◌, ◌||◌, IfOk, IfSome, OnOk, chars, length, nat_eq, not, true};
ghost use Rattle.base_language.specs.Language.Builtins.{is_between};
ghost use Rattle.matcher_program.specs.Programs.{is_set};
ghost use Rattle.matcher_program.specs.declared.form.Program.{Program};
ghost use Rattle.matcher_program.specs.declared.form.Form.TheVariants as form;
ghost use Rattle.matcher_sets.specs.Differences.{AddsFirsts, AddsForm, AreSides, HasFirsts, HasRanges, HasRefused, IsIncluded, is_above, is_below};
ghost use Rattle.matcher_sets.specs.Ranges.{Adds, Covers};
ghost use Rattle.matcher_sets.specs.Forms.{IsBoundIn};

use crate::ranges::{push_range, ranges_of};
use crate::texts::is_single;
use matcher_code::ranges::Ranges;
use matcher_program::form::{Form, Program};
use std::alloc::{AllocError, Global};

/// The largest number of ranges that are left out of a set, or that a choice has before its first
/// alternative.
pub const MOST_RANGES: usize = 256;

/// Returns the form of a literal, if that is one character.
fn single_form<'f>(form: &'f Form, text: &str) -> Option<&'f Form>
    requires is { is_set form.now ≡ (length (chars text.now) == 1) }
    ensures one { IfSome result (λ set. is_set set.now ≡ true) }
    ensures same { IfSome result (λ set. set.now ≡ form.entry.now) }
{
    if is_single(text) { Some(form) } else { None }
}

/// Returns the form of a set of characters.
fn included_set(form: &Form) -> Option<&Form>
    ensures { IfSome result (λ set. IsIncluded form.entry.now set.now) }
{
    match form {
        Form::Set(set) => Some(set),
        Form::Range(_, _) | Form::One(_) => Some(form),
        Form::Str(text) => single_form(form, text.as_str()),
        _ => None,
    }
}

/// Appends the part of a range that is below a character.
fn push_below(ranges: &mut Ranges, low: u32, high: u32, from: u32) -> Result<(), AllocError>
    ensures { OnOk result (Adds ranges.old.items ranges.new.items
        (λ c. is_below from c && is_between low high c)) }
{
    if low < from {
        let last = from - 1;
        push_range(ranges, low, high.min(last))
    } else {
        Ok(())
    }
}

/// Appends the part of a range that is above a character.
fn push_above(ranges: &mut Ranges, low: u32, high: u32, to: u32) -> Result<(), AllocError>
    ensures { OnOk result (Adds ranges.old.items ranges.new.items
        (λ c. is_above to c && is_between low high c)) }
{
    if to < high {
        let first = to + 1;
        push_range(ranges, low.max(first), high)
    } else {
        Ok(())
    }
}

/// Appends the parts of a range that are outside of another.
fn push_outside(
    ranges: &mut Ranges,
    low: u32,
    high: u32,
    from: u32,
    to: u32,
) -> Result<(), AllocError>
    ensures { OnOk result (Adds ranges.old.items ranges.new.items
        (λ c. not (is_between from to c) && is_between low high c)) }
{
    push_below(ranges, low, high, from)?;
    push_above(ranges, low, high, to)?;
    Ok(())
}

/// Returns the parts of ranges that are outside of a range.
fn outside_range(alloc: Global, ranges: &Ranges, from: u32, to: u32) -> Result<Ranges, AllocError>
    ensures { IfOk result (λ rest. Covers rest.items
        (λ c. not (is_between from to c) && is_covered ranges.now.items c)) }
{
    let mut rest = Vec::new(alloc);
    for (low, high) in ranges {
        push_outside(&mut rest, *low, *high, from, to)?;
    }
    Ok(rest)
}

/// Returns the parts of ranges that are outside of others.
pub fn outside_ranges(alloc: Global, ranges: Ranges, others: &Ranges) -> Result<Ranges, AllocError>
    ensures { IfOk result (λ rest. Covers rest.items
        (λ c. not (is_covered others.now.items c) && is_covered ranges.items c)) }
{
    let mut rest = ranges;
    for (from, to) in others {
        rest = outside_range(alloc, &rest, *from, *to)?;
    }
    Ok(rest)
}

/// Appends the ranges of a property. Returns whether there is such a property.
fn push_property(
    program: &Program,
    ranges: &mut Ranges,
    name: &String,
    number: usize,
) -> Result<bool, AllocError>
    requires bound { IsBoundIn program.now (form.Property name.now number) }
    ensures { IfOk result (λ is. is ≡ true
        → AddsForm program.now (form.Property name.now number) ranges.old.items ranges.new.items) }
{
    let property = match program.properties.get(number) {
        Some(property) => property,
        None => return Ok(false),
    };
    ranges.extend_from_slice(&property.ranges)?;
    Ok(true)
}

/// Appends the ranges of a form that has the expression of a set. Returns whether it has one.
fn push_included(
    alloc: Global,
    program: &Program,
    ranges: &mut Ranges,
    form: &Form,
) -> Result<bool, AllocError>
    requires bound { IsBoundIn program.now form.now }
    ensures { IfOk result (λ is. is ≡ true
        → AddsForm program.now form.now ranges.old.items ranges.new.items) }
{
    match included_set(form) {
        Some(set) => {
            let more = ranges_of(alloc, set)?;
            ranges.extend_from_slice(&more)?;
            Ok(true)
        }
        None => Ok(false),
    }
}

/// Appends the ranges of a form of a set of characters. Returns whether it is one.
fn push_set(
    alloc: Global,
    program: &Program,
    ranges: &mut Ranges,
    form: &Form,
) -> Result<bool, AllocError>
    requires bound { IsBoundIn program.now form.now }
    ensures { IfOk result (λ is. is ≡ true
        → AddsForm program.now form.now ranges.old.items ranges.new.items) }
{
    match form {
        Form::Property(name, number) => push_property(program, ranges, name, *number),
        _ => push_included(alloc, program, ranges, form),
    }
}

/// Returns the alternative of a choice whose ranges are taken next, and the other one, which is looked into.
/// Choices nest on the left as they are written, on the right as they are optimized.
fn alternative_and_rest<'f>(left: &'f Form, right: &'f Form) -> (&'f Form, &'f Form)
    ensures { AreSides left.entry.now right.entry.now result.0.now result.1.now }
{
    match right {
        Form::Choice(_, _) => (left, right),
        _ => (right, left),
    }
}

/// Returns whether a form may be a set of characters.
fn may_be_set(form: &Form) -> bool {
    match form {
        Form::Property(_, _) => true,
        _ => included_set(form).is_some(),
    }
}

/// Returns whether the alternatives of a choice, or the form itself if it is none, may be sets of characters.
fn may_be_sets(form: &Form) -> bool {
    let mut rest = form;
    'alternatives: while let Form::Choice(left, right) = rest {
        let (alternative, other) = alternative_and_rest(left, right);
        if !may_be_set(alternative) {
            return false;
        }
        rest = other;
    }
    may_be_set(rest)
}

/// Returns the ranges of a choice of sets of characters, of which one may be such a choice again, or `None`
/// if it is another form, or the ranges are too many.
pub fn choice_ranges(
    alloc: Global,
    program: &Program,
    form: &Form,
) -> Result<Option<Ranges>, AllocError>
    requires bound { IsBoundIn program.now form.now }
    ensures { IfOk result (λ made. IfSome made (λ ranges. HasRanges program.now form.now ranges.items)) }
{
    if !may_be_sets(form) {
        return Ok(None);
    }
    let mut ranges = Vec::new(alloc);
    let mut rest = form;
    'alternatives: while let Form::Choice(left, right) = rest {
        let (alternative, other) = alternative_and_rest(left, right);
        if ranges.len() > MOST_RANGES || !push_set(alloc, program, &mut ranges, alternative)? {
            return Ok(None);
        }
        rest = other;
    }
    if !push_set(alloc, program, &mut ranges, rest)? {
        return Ok(None);
    }
    Ok(Some(ranges))
}

/// Appends the ranges of the characters with which a newline begins.
fn push_newline(ranges: &mut Ranges) -> Result<bool, AllocError>
    ensures adds { OnOk result (Adds ranges.old.items ranges.new.items (λ c. nat_eq 10 c || nat_eq 13 c)) }
    ensures is { IfOk result (λ is. is ≡ true) }
{
    push_range(ranges, 10, 10)?;
    push_range(ranges, 13, 13)?;
    Ok(true)
}

/// Appends the ranges of the characters of which a form takes one or more when one is next, if it fails
/// elsewhere. Returns whether it does.
pub(crate) fn push_firsts(
    alloc: Global,
    program: &Program,
    ranges: &mut Ranges,
    form: &Form,
) -> Result<bool, AllocError>
    requires bound { IsBoundIn program.now form.now }
    ensures { IfOk result (λ is. is ≡ true
        → AddsFirsts program.now form.now ranges.old.items ranges.new.items) }
{
    match form {
        Form::Newline => push_newline(ranges),
        _ => push_set(alloc, program, ranges, form),
    }
}

/// Returns the ranges of the characters of which a form takes one or more when one is next. The form is a
/// choice of sets of characters and of newlines, which fails elsewhere. If it is another form, or the ranges
/// are too many, the result is `None`.
pub fn first_ranges(
    alloc: Global,
    program: &Program,
    form: &Form,
) -> Result<Option<Ranges>, AllocError>
    requires bound { IsBoundIn program.now form.now }
    ensures { IfOk result (λ made. IfSome made (λ ranges. HasFirsts program.now form.now ranges.items)) }
{
    let mut ranges = Vec::new(alloc);
    let mut rest = form;
    'alternatives: while let Form::Choice(left, right) = rest {
        let (alternative, other) = alternative_and_rest(left, right);
        if ranges.len() > MOST_RANGES || !push_firsts(alloc, program, &mut ranges, alternative)? {
            return Ok(None);
        }
        rest = other;
    }
    if !push_firsts(alloc, program, &mut ranges, rest)? {
        return Ok(None);
    }
    Ok(Some(ranges))
}

/// Returns the ranges of the characters that a form refuses, if it matches nothing before all others.
pub fn refused_ranges(
    alloc: Global,
    program: &Program,
    form: &Form,
) -> Result<Option<Ranges>, AllocError>
    requires bound { IsBoundIn program.now form.now }
    ensures { IfOk result (λ made. IfSome made (λ ranges. HasRefused program.now form.now ranges.items)) }
{
    match form {
        Form::NegPred(body) => first_ranges(alloc, program, body),
        _ => Ok(None),
    }
}
