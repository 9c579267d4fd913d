//! Excerpts of lines.
ghost use Rattle.std.specs.Prelude.{◌≡◌, ◌++◌, OnOk, string_bytes};
ghost use Rattle.program_support.specs.Excerpts.{margin};

use crate::Origin;
use crate::visible::{push_visible, visible_width};
use program_support::excerpt::{Window, dots, margin_of, part, window_at};
use std::alloc::{AllocError, Global};

/// Adds three lines: an empty one, the excerpt at a span's start, and a mark below what it spans there.
pub(crate) fn push_excerpt(
    alloc: Global,
    origin: Origin<'_>,
    start: usize,
    end: usize,
    out: &mut String,
) -> Result<(), AllocError> {
    let location = origin.lines.locate(origin.text, start);
    let window = window_at(origin.text, location.line_start, start);
    push_margin(alloc, location.line, out)?;
    write!(out, " |\n{} | ", location.line)?;
    push_cut(origin.text, window, out)?;
    out.push('\n')?;
    push_margin(alloc, location.line, out)?;
    out.push_str(" | ")?;
    push_mark(alloc, origin.text, window, start, end, out)?;
    out.push('\n')
}

/// Adds a blank for each digit of `number`.
fn push_margin(alloc: Global, number: usize, out: &mut String) -> Result<(), AllocError>
    ensures { OnOk result (string_bytes out.new ≡ string_bytes out.old ++ margin number) }
{
    out.push_str(margin_of(alloc, number)?.as_str())
}

/// Adds what a window shows of a line, with dots at the ends at which the line is cut.
fn push_cut(text: &str, window: Window, out: &mut String) -> Result<(), AllocError> {
    out.push_str(dots(window.is_cut_before))?;
    push_visible(part(text, window.start, window.end), out)?;
    out.push_str(dots(window.is_cut_after))
}

/// Adds a mark below the bytes `start..end` of what a window shows, at least one column wide.
fn push_mark(
    alloc: Global,
    text: &str,
    window: Window,
    start: usize,
    end: usize,
    out: &mut String,
) -> Result<(), AllocError> {
    let before = visible_width(part(text, window.start, start));
    let blanks = before.saturating_add(usize::from(window.is_cut_before));
    let width = visible_width(part(text, start, end.min(window.end))).max(1);
    out.push_str(" ".repeat(alloc, blanks)?.as_str())?;
    out.push_str("^".repeat(alloc, width)?.as_str())
}
