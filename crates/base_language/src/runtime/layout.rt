//! The margin beside the line that an error prints, and the marks under it.
ghost use Rattle.std.specs.Prelude.{◌≡◌, ◌+◌, ◌-◌, ◌≤◌, Some, length, take, map, replicate};
ghost use Rattle.std.specs.Fmt.{decimal, WritesOnOk};
ghost use Rattle.std.specs.Str.{chars};
ghost use Rattle.base_language.specs.Pieces.PrintedError.{blank_under, marks, marked_count, marks_under, start_of, underline, margin};

use super::errors::LineColLocation;
use std::fmt;

/// One blank for each digit of this number.
#[derive(Clone, Copy)]
pub(crate) struct Margin(pub usize);

/// The marks under the printed line of an error at `place`, as line and column.
#[derive(Clone, Copy)]
pub(crate) struct Underline<'a> {
    pub place: LineColLocation,
    pub line: &'a str,
}

impl fmt::Display for Margin {
    ghost output = { λ number. Some (margin number.0) };

    fn fmt<W: fmt::Write>(&self, f: &mut fmt::Formatter<W>) -> fmt::Result {
        for _digit in 0..digit_count(self.0) {
            f.write_str(" ")?;
        }
        Ok(())
    }
}

/// Counts the digits of `number`.
fn digit_count(number: usize) -> usize
    ensures { result ≡ length (decimal number) }
{
    let mut count = 1;
    let mut rest = number;
    while rest >= 10 {
        rest /= 10;
        count += 1;
    }
    count
}

impl fmt::Display for Underline<'_> {
    ghost output = { λ under. Some (underline under.place (chars under.line.now)) };

    fn fmt<W: fmt::Write>(&self, f: &mut fmt::Formatter<W>) -> fmt::Result {
        let (_, column) = self.place.start();
        write_blanks(f, self.line, column.saturating_sub(1))?;
        match self.place {
            LineColLocation::Pos(_) => f.write_str("^---"),
            LineColLocation::Span(start, end) => {
                write_marks(f, marked_count(start, end, self.line))
            }
        }
    }
}

/// Counts the characters of `line` that an error from `start` to `end` marks: its own, or those up to the
/// line's end if it ends in a later line.
fn marked_count(start: (usize, usize), end: (usize, usize), line: &str) -> usize
    ensures { result ≡ marked_count start end (chars line.now) }
{
    let (start_line, start_column) = start;
    let (end_line, end_column) = end;
    if end_line == start_line {
        end_column.saturating_sub(start_column)
    } else {
        line.chars()
            .count()
            .saturating_sub(start_column.saturating_sub(1))
    }
}

/// Writes the characters printed under the first `count` characters of `line`: a tab for a tab, else a
/// blank.
fn write_blanks<W: fmt::Write>(f: &mut fmt::Formatter<W>, line: &str, count: usize) -> fmt::Result
    ensures { WritesOnOk W.write_str_gives f.old result
        (map blank_under (take count (chars line.now))) f.new }
{
    for c in line.chars().take(count) {
        f.write_str(if c == '\t' { "\t" } else { " " })?;
    }
    Ok(())
}

/// Writes the marks under `count` characters: `^`, dashes and `^`, or one `^` under one or none.
fn write_marks<W: fmt::Write>(f: &mut fmt::Formatter<W>, count: usize) -> fmt::Result
    ensures { WritesOnOk W.write_str_gives f.old result (marks count) f.new }
{
    if count < 2 {
        return f.write_str("^");
    }
    f.write_str("^")?;
    for _dash in 0..count - 2 {
        f.write_str("-")?;
    }
    f.write_str("^")
}
