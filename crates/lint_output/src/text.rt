//! Blocks of text.
ghost use Rattle.std.specs.Prelude.{◌≡◌, IfOk, string_bytes};
ghost use Rattle.lint_output.specs.Locations.{IsIndexOf, location_at};
ghost use Rattle.lint_output.specs.Prints as spec;
ghost use Rattle.lint_output.specs.Prints.{IsBlock, IsPlacedBlock, block, heading};

use crate::Origin;
use crate::excerpts::push_excerpt;
use crate::lines::Location;
use crate::visible::{push_visible, to_visible};
use lint_findings::{Diagnostic, Fix, Help, Related, Severity};
use program_support::excerpt::{dots, margin_of, part, window_at};
use std::alloc::{AllocError, Global};

/// A diagnostic as text: severity, code and message; file, line and column; the line with a mark; the other
/// parts of the text that matter; the help; an empty line. No character of the grammar or of the file's name
/// reaches a terminal that could change it.
pub fn to_text(
    alloc: Global,
    origin: Origin<'_>,
    diagnostic: &Diagnostic,
    has_colour: bool,
) -> Result<String, AllocError>
    ensures shape { IfOk result (λ text. IsBlock has_colour diagnostic.now (string_bytes text)) }
    ensures places { IfOk result (λ text. IsIndexOf origin.entry.text.now origin.entry.lines.now
        → IsPlacedBlock has_colour origin.entry.name.now diagnostic.now
        (location_at origin.entry.text.now diagnostic.now.start) (string_bytes text)) }
{
    let first = origin.lines.locate(origin.text, diagnostic.start);
    let rest = details(alloc, origin, diagnostic, has_colour)?;
    let rest = rest.as_str();
    block_of(alloc, origin.name, diagnostic, first, rest, has_colour)
}

/// A block of a diagnostic that begins at a location of a file, with what is printed below that.
fn block_of(
    alloc: Global,
    name: &str,
    diagnostic: &Diagnostic,
    first: Location,
    rest: &str,
    has_colour: bool,
) -> Result<String, AllocError>
    ensures { IfOk result (λ text.
        string_bytes text ≡ block has_colour name.now diagnostic.now first rest.now) }
{
    let heading = heading_of(diagnostic.severity, has_colour);
    let code = diagnostic.code.name();
    let top = top_lines(alloc, name, diagnostic.message.as_str(), first)?;
    format!(in alloc; "{heading}[{code}]: {top}{rest}\n")
}

/// A message, and the line of a file, line and column below it.
fn top_lines(
    alloc: Global,
    name: &str,
    message: &str,
    first: Location,
) -> Result<String, AllocError>
    ensures { IfOk result (λ text. string_bytes text ≡ spec.top_lines name.now message.now first) }
{
    let message = to_visible(alloc, message)?;
    let place = place_line(alloc, name, first)?;
    format!(in alloc; "{message}\n{place}\n")
}

/// The excerpt of a diagnostic, the other parts that matter, and the help.
fn details(
    alloc: Global,
    origin: Origin<'_>,
    diagnostic: &Diagnostic,
    has_colour: bool,
) -> Result<String, AllocError> {
    let mut out = String::new(alloc);
    push_excerpt(alloc, origin, diagnostic.start, diagnostic.end, &mut out)?;
    push_related(alloc, origin, &diagnostic.related, &mut out)?;
    if let Some(help) = &diagnostic.help {
        push_help(origin, help, has_colour, &mut out)?;
    }
    Ok(out)
}

/// A severity's name, in its colour if that is asked for.
fn heading_of(severity: Severity, has_colour: bool) -> &'static str
    ensures { result.now ≡ heading has_colour severity }
{
    match (severity, has_colour) {
        (Severity::Error, true) => "\x1b[1;31merror\x1b[0m",
        (Severity::Error, false) => "error",
        (Severity::Warning, true) => "\x1b[1;33mwarning\x1b[0m",
        (Severity::Warning, false) => "warning",
    }
}

/// A file, line and column, after an arrow.
fn place_line(alloc: Global, name: &str, first: Location) -> Result<String, AllocError>
    ensures { IfOk result (λ text. string_bytes text ≡ spec.place_line name.now first) }
{
    let margin = margin_of(alloc, first.line)?;
    let name = to_visible(alloc, name)?;
    format!(in alloc; "{margin}--> {name}:{}:{}", first.line, first.column)
}

/// Adds the file, line and column of a span, and its line with a mark.
fn push_place(
    alloc: Global,
    origin: Origin<'_>,
    start: usize,
    end: usize,
    out: &mut String,
) -> Result<(), AllocError> {
    let first = origin.lines.locate(origin.text, start);
    out.push_str(place_line(alloc, origin.name, first)?.as_str())?;
    out.push('\n')?;
    push_excerpt(alloc, origin, start, end, out)
}

/// Adds the parts of the text that matter to a diagnostic, each with its message.
fn push_related(
    alloc: Global,
    origin: Origin<'_>,
    related: &[Related],
    out: &mut String,
) -> Result<(), AllocError> {
    for item in related {
        out.push_str("note: ")?;
        push_visible(item.message.as_str(), out)?;
        out.push('\n')?;
        push_place(alloc, origin, item.start, item.end, out)?;
    }
    Ok(())
}

/// Adds a help, and the line as its fix mends it.
fn push_help(
    origin: Origin<'_>,
    help: &Help,
    has_colour: bool,
    out: &mut String,
) -> Result<(), AllocError> {
    out.push_str(help_heading(has_colour))?;
    push_visible(help.message.as_str(), out)?;
    out.push('\n')?;
    match &help.fix {
        Some(fix) => push_fix(origin, fix, out),
        None => Ok(()),
    }
}

/// The words before a help, in colour if that is asked for.
fn help_heading(has_colour: bool) -> &'static str {
    if has_colour {
        "\x1b[1;36mhelp\x1b[0m: "
    } else {
        "help: "
    }
}

/// Adds the line of a fix as it is after it.
fn push_fix(origin: Origin<'_>, fix: &Fix, out: &mut String) -> Result<(), AllocError> {
    let location = origin.lines.locate(origin.text, fix.start);
    let before = window_at(origin.text, location.line_start, fix.start);
    let after = window_at(origin.text, location.line_start, fix.end);
    write!(out, "{} + ", location.line)?;
    out.push_str(dots(before.is_cut_before))?;
    push_visible(part(origin.text, before.start, fix.start), out)?;
    push_replacement(fix.replacement.as_str(), out)?;
    push_visible(part(origin.text, fix.end, after.end), out)?;
    out.push_str(dots(after.is_cut_after))?;
    out.push('\n')
}

/// Adds a replacement: of more than 160 bytes, the first columns.
fn push_replacement(text: &str, out: &mut String) -> Result<(), AllocError> {
    if text.len() <= 160 {
        return push_visible(text, out);
    }
    let window = window_at(text, 0, 0);
    push_visible(part(text, 0, window.end), out)?;
    out.push_str(dots(window.is_cut_after))
}
