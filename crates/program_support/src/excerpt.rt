//! Excerpts: the part of a line that is shown around a position, with a mark below it.
ghost use Rattle.std.specs.Prelude.{◌≡◌, ◌+◌, ◌*◌, ◌≤◌, ◌++◌, IfOk, OnOk, chars, length, nat_lt, string_bytes, take};
ghost use Rattle.std.specs.Char.Escape.{escape_unicode};
ghost use Rattle.std.specs.List.{flat_map, repeat};
ghost use Rattle.std.specs.Str.{IsCharBoundary};
ghost use Rattle.base_language.specs.Pieces.PrintedError.{marked_count, start_of};
ghost use Rattle.program_support.specs.Excerpts.{IsExcerpt, IsPartOf, blanks_below, columns_of, dashes, dots, excerpt_lines, margin, mark_at, mark_below, shown_part, shown_width};

use crate::escape::{escape_lines, is_hidden_in_lines};
use base_language::grammar::Rule;
use base_language::runtime::{Error, LineColLocation};
use std::alloc::{AllocError, Global};
use unicode_width::UnicodeWidthChar;

/// The most columns of a line that are shown.
const COLUMNS: usize = 160;
/// The most columns before a place in a line that is cut on both sides.
const BEFORE: usize = 60;
/// The most columns from the place on.
const AFTER: usize = 100;

/// The bytes of a line that are shown, and whether the line has more bytes before and after them.
#[derive(Clone, Copy, Debug, PartialEq, Eq)]
pub struct Window {
    pub start: usize,
    pub end: usize,
    pub is_cut_before: bool,
    pub is_cut_after: bool,
}

/// The end of a text that fits some columns, or its beginning.
#[derive(Clone, Copy)]
struct Fit {
    bytes: usize,
    columns: usize,
    /// Whether all of the line fits.
    is_whole: bool,
}

/// Returns the part that is shown of a line: the one that begins at the byte `line_start` of `text`, around
/// the byte `place`. A line of up to 160 columns is shown as a whole. The time does not depend on the length
/// of the line.
pub fn window_at(text: &str, line_start: usize, place: usize) -> Window
    ensures before { result.start ≤ place }
    ensures after { place ≤ result.end }
    ensures few { result.end ≤ result.start + 1280 }
{
    let before = part(text, line_start, place);
    let after = text.get(place..).unwrap_or("");
    let (most_before, most_after) = columns_around(before, after);
    let first = fit_end(before, most_before);
    let last = fit_beginning(after, most_after);
    Window {
        start: place.saturating_sub(first.bytes),
        end: place.saturating_add(last.bytes),
        is_cut_before: !first.is_whole,
        is_cut_after: !last.is_whole,
    }
}

/// Returns how much of the first line of `text` fits `most` columns.
fn fit_beginning(text: &str, most: usize) -> Fit
    ensures { result.bytes ≤ 4 * most }
{
    let mut fit = Fit::nothing();
    for character in text.chars() {
        if matches!(character, '\n' | '\r') {
            return fit;
        }
        let wider = fit.with(character);
        if wider.columns > most {
            return fit.cut();
        }
        fit = wider;
    }
    fit
}

/// Returns how much of the end of `text`, which is one line, fits `most` columns.
fn fit_end(text: &str, most: usize) -> Fit
    ensures { result.bytes ≤ 4 * most }
{
    let mut fit = Fit::nothing();
    for character in text.chars().rev() {
        let wider = fit.with(character);
        if wider.columns > most {
            return fit.cut();
        }
        fit = wider;
    }
    fit
}

impl Fit {
    /// Nothing of a text.
    fn nothing() -> Fit
        ensures bytes { result.bytes ≡ 0 }
        ensures columns { result.columns ≡ 0 }
    {
        Fit {
            bytes: 0,
            columns: 0,
            is_whole: true,
        }
    }

    /// One more character, of one column at least.
    fn with(self, character: char) -> Fit
        ensures { self.bytes ≤ 4 * self.columns → result.bytes ≤ 4 * result.columns }
    {
        let columns = shown_width(character).max(1);
        Fit {
            bytes: self.bytes.saturating_add(character.len_utf8()),
            columns: self.columns.saturating_add(columns),
            is_whole: self.is_whole,
        }
    }

    /// The same part of a text that has more bytes.
    fn cut(self) -> Fit
        ensures { result.bytes ≡ self.bytes }
    {
        Fit {
            is_whole: false,
            ..self
        }
    }
}

/// A line in four parts. The parts `before` and `after` are shown; the place lies between them.
#[derive(Clone, Copy)]
struct CutLine<'l> {
    hidden_before: &'l str,
    before: &'l str,
    after: &'l str,
    hidden_after: &'l str,
}

/// Returns three lines on an error: an empty one, what is shown of its line, and a mark below that. Hidden
/// characters are escapes, and `…` is in the place of each part of the line that is not shown.
pub fn show_line(alloc: Global, error: &Error<Rule>) -> Result<String, AllocError>
    ensures { IfOk result (λ lines. IsExcerpt error.now (string_bytes lines)) }
{
    let (number, column) = start_of(&error.line_col);
    let line = error.line();
    let cut = cut_line(line, column.saturating_sub(1));
    let shown = show_cut(alloc, cut)?;
    let mark = mark_of(alloc, &error.line_col, line, cut)?;
    let shown_text = shown.as_str();
    let mark_text = mark.as_str();
    lines_of(alloc, number, shown_text, mark_text)
}

/// Cuts a line on both sides of the position after the first `count` characters. A line of up to 160 columns
/// is shown as a whole.
fn cut_line(line: &str, count: usize) -> CutLine<'_>
    ensures line { line.entry.now ≡ result.hidden_before.now
        ++ (result.before.now ++ (result.after.now ++ result.hidden_after.now)) }
    ensures place { chars (result.hidden_before.now ++ result.before.now)
        ≡ take count (chars line.entry.now) }
{
    let (to_place, from_place) = split_at_char(line, count);
    let (most_before, most_after) = columns_around(to_place, from_place);
    let fit = fit_end(to_place, most_before);
    let (hidden_before, before) = split_at_byte(to_place, to_place.len().saturating_sub(fit.bytes));
    let (after, hidden_after) = split_at_byte(
        from_place,
        fit_beginning(from_place, most_after).bytes,
    );
    CutLine {
        hidden_before,
        before,
        after,
        hidden_after,
    }
}

/// Returns how many columns are shown before a place and after it, by the texts on both sides.
fn columns_around(before: &str, after: &str) -> (usize, usize)
    ensures before { result.0 ≤ 160 }
    ensures after { result.1 ≤ 160 }
{
    let most_before = COLUMNS - fit_beginning(after, COLUMNS).columns.min(AFTER);
    let most_after = COLUMNS - fit_end(before, COLUMNS).columns.min(BEFORE);
    (most_before, most_after)
}

/// Splits a text after its first `count` characters, or at its end if it has fewer.
#[tactic(auto, using(crate::proofs::Splitting::bytes_more))]
fn split_at_char(text: &str, count: usize) -> (&str, &str)
    ensures whole { text.entry.now ≡ result.0.now ++ result.1.now }
    ensures first { chars result.0.now ≡ take count (chars text.entry.now) }
{
    let mut byte = 0usize;
    for character in text.chars().take(count) {
        byte = byte.saturating_add(character.len_utf8());
    }
    split_at_byte(text, byte)
}

/// Splits a text before a byte, or at its end if no character begins there.
fn split_at_byte(text: &str, byte: usize) -> (&str, &str)
    ensures whole { text.entry.now ≡ result.0.now ++ result.1.now }
    ensures first { IsCharBoundary text.entry.now byte → result.0.now ≡ take byte text.entry.now }
{
    text.split_at_checked(byte).unwrap_or((text, ""))
}

/// Returns the lines of an excerpt.
fn lines_of(alloc: Global, number: usize, shown: &str, mark: &str) -> Result<String, AllocError>
    ensures { IfOk result (λ lines. string_bytes lines ≡ excerpt_lines number shown.now mark.now) }
{
    let margin = margin_of(alloc, number)?;
    format!(in alloc; "{margin} |\n{number} | {shown}\n{margin} | {mark}\n")
}

/// Returns the line and the column, from 1, at which an error begins.
pub(crate) fn start_of(place: &LineColLocation) -> (usize, usize)
    ensures { result ≡ start_of place.now }
{
    match *place {
        LineColLocation::Pos(start) => start,
        LineColLocation::Span(start, _) => start,
    }
}

/// Returns a blank for each digit of `number`.
pub fn margin_of(alloc: Global, number: usize) -> Result<String, AllocError>
    ensures { IfOk result (λ blanks. string_bytes blanks ≡ margin number) }
{
    let digits = number.to_string(alloc)?;
    " ".repeat(alloc, digits.len())
}

/// Returns what is shown of a line that is cut.
fn show_cut(alloc: Global, cut: CutLine<'_>) -> Result<String, AllocError>
    ensures { IfOk result (λ shown. string_bytes shown ≡ shown_part cut.entry.hidden_before.now
        cut.entry.before.now cut.entry.after.now cut.entry.hidden_after.now) }
{
    let before = escape_lines(alloc, cut.before)?;
    let after = escape_lines(alloc, cut.after)?;
    let first = dots(!cut.hidden_before.is_empty());
    let last = dots(!cut.hidden_after.is_empty());
    format!(in alloc; "{first}{before}{after}{last}")
}

/// Returns `…` if a line is cut.
pub fn dots(is_cut: bool) -> &'static str
    ensures { result.now ≡ dots is_cut }
{
    if is_cut { "…" } else { "" }
}

/// Returns the mark of an error at `place`, below what is shown of its line.
fn mark_of(
    alloc: Global,
    place: &LineColLocation,
    line: &str,
    cut: CutLine<'_>,
) -> Result<String, AllocError>
    ensures { IfOk result (λ mark. string_bytes mark ≡ mark_below place.now (chars line.now)
        cut.entry.hidden_before.now (chars cut.entry.before.now) (chars cut.entry.after.now)) }
{
    let mut mark = String::new(alloc);
    mark.push_str(if cut.hidden_before.is_empty() {
        ""
    } else {
        " "
    })?;
    push_blanks(alloc, cut.before, &mut mark)?;
    push_mark_at(alloc, place, line, cut.after, &mut mark)?;
    Ok(mark)
}

/// Appends the mark of `place` in a line. The text `after` is what is shown of the line from the place on.
fn push_mark_at(
    alloc: Global,
    place: &LineColLocation,
    line: &str,
    after: &str,
    out: &mut String,
) -> Result<(), AllocError>
    ensures { OnOk result (string_bytes out.new
        ≡ string_bytes out.old ++ mark_at place.now (chars line.now) (chars after.now)) }
{
    match *place {
        LineColLocation::Pos(_) => out.push_str("^---"),
        LineColLocation::Span(start, end) => {
            let count = marked_count(start, end, line);
            push_span_mark(alloc, after, count, out)
        }
    }
}

/// Appends the mark of a span of `count` characters. The text `after` is what is shown of its line from its
/// start on.
fn push_span_mark(
    alloc: Global,
    after: &str,
    count: usize,
    out: &mut String,
) -> Result<(), AllocError>
    ensures { OnOk result (string_bytes out.new ≡ string_bytes out.old
        ++ dashes (columns_of (take count (chars after.now))) (nat_lt (length (chars after.now)) count)) }
{
    let (marked, _) = split_at_char(after, count);
    let is_cut = after.chars().count() < count;
    push_dashes(alloc, width_of(marked), is_cut, out)
}

/// Returns how many characters of a line a span marks, which ends in that line or in a later one.
fn marked_count(start: (usize, usize), end: (usize, usize), line: &str) -> usize
    ensures { result ≡ marked_count start end (chars line.now) }
{
    if end.0 == start.0 {
        end.1.saturating_sub(start.1)
    } else {
        line.chars()
            .count()
            .saturating_sub(start.1.saturating_sub(1))
    }
}

/// Appends what is printed below a text: a tab below a tab, and a blank for each other column.
fn push_blanks(alloc: Global, text: &str, out: &mut String) -> Result<(), AllocError>
    ensures { OnOk result (string_bytes out.new
        ≡ string_bytes out.old ++ flat_map blanks_below (chars text.now)) }
{
    for character in text.chars() {
        push_blanks_below(alloc, character, out)?;
    }
    Ok(())
}

/// Appends what is printed below a character.
fn push_blanks_below(alloc: Global, character: char, out: &mut String) -> Result<(), AllocError>
    ensures { OnOk result (string_bytes out.new ≡ string_bytes out.old ++ blanks_below character) }
{
    if character == '\t' {
        out.push_str("\t")
    } else {
        push_repeated(alloc, " ", shown_width(character), out)
    }
}

/// Appends a mark of `columns` columns, at least one, without its end if it is cut.
fn push_dashes(
    alloc: Global,
    columns: usize,
    is_cut: bool,
    out: &mut String,
) -> Result<(), AllocError>
    ensures { OnOk result (string_bytes out.new ≡ string_bytes out.old ++ dashes columns is_cut) }
{
    out.push_str("^")?;
    if columns < 2 {
        return Ok(());
    }
    push_repeated(alloc, "-", columns - 2, out)?;
    out.push_str(if is_cut { "-" } else { "^" })
}

/// Appends a text `count` times.
fn push_repeated(
    alloc: Global,
    text: &str,
    count: usize,
    out: &mut String,
) -> Result<(), AllocError>
    ensures { OnOk result (string_bytes out.new ≡ string_bytes out.old ++ repeat count text.now) }
{
    out.push_str(text.repeat(alloc, count)?.as_str())
}

/// Returns the columns that a text takes on a terminal.
fn width_of(text: &str) -> usize
    ensures { result ≡ columns_of (chars text.now) }
{
    let mut width = 0usize;
    for character in text.chars() {
        width = width.saturating_add(shown_width(character));
    }
    width
}

/// Returns the number of columns of a character on a terminal: that of its escape if it is hidden, and one
/// for a tab.
fn shown_width(character: char) -> usize
    ensures { result ≡ shown_width character }
{
    if is_hidden_in_lines(character) {
        escape_width(character)
    } else {
        character.width().unwrap_or(1)
    }
}

/// Returns the columns of the escape of a character.
fn escape_width(character: char) -> usize
    ensures { result ≡ length (escape_unicode character) }
{
    match u32::from(character) {
        0..=0xf => 5,
        0x10..=0xff => 6,
        0x100..=0xfff => 7,
        0x1000..=0xffff => 8,
        0x10000..=0xfffff => 9,
        _ => 10,
    }
}

/// Returns the bytes `start..end` of `text`, or the empty text if these are not whole characters.
pub fn part(text: &str, start: usize, end: usize) -> &str
    ensures { IsPartOf text.entry.now result.now }
{
    match text.get(start..end) {
        Some(part) => part,
        None => "",
    }
}
