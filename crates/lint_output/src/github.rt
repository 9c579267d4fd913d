//! Annotations of GitHub.
ghost use Rattle.std.specs.Prelude.{◌≡◌, ◌++◌, IfOk, OnOk, encode_utf8_all, string_bytes};
ghost use Rattle.lint_output.specs.Annotations.{command, located_command, message_part, place_text, property, property_part};
ghost use Rattle.lint_output.specs.Annotations.{with_help};
ghost use Rattle.lint_output.specs.Locations.{IsIndexOf};
ghost use Rattle.lint_output.specs.Prints.{IsAnnotation};
ghost use Rattle.lint_output.specs.Visible.{written_by};

use crate::Origin;
use crate::lines::Location;
use crate::visible::push_shown;
use lint_findings::Diagnostic;
use std::alloc::{AllocError, Global};

/// A diagnostic as a workflow command: `::error file=..,line=..,col=..,..::MESSAGE` and a line feed.
pub fn to_annotation(
    alloc: Global,
    origin: Origin<'_>,
    diagnostic: &Diagnostic,
) -> Result<String, AllocError>
    ensures shape { IfOk result (λ text. IsAnnotation diagnostic.now (string_bytes text)) }
    ensures text { IfOk result (λ text. IsIndexOf origin.entry.text.now origin.entry.lines.now
        → string_bytes text ≡ command origin.entry.name.now origin.entry.text.now diagnostic.now) }
{
    let first = origin.lines.locate(origin.text, diagnostic.start);
    let last = origin.lines.locate(origin.text, diagnostic.end);
    command_of(alloc, origin.name, diagnostic, first, last)
}

/// A diagnostic between two locations of a file as a command.
fn command_of(
    alloc: Global,
    name: &str,
    diagnostic: &Diagnostic,
    first: Location,
    last: Location,
) -> Result<String, AllocError>
    ensures { IfOk result (λ text.
        string_bytes text ≡ located_command name.now diagnostic.now first last) }
{
    let severity = diagnostic.severity.name();
    let file = escape_property(alloc, name)?;
    let place = place_properties(alloc, first, last)?;
    let title = escape_property(alloc, diagnostic.code.name())?;
    let message = full_message(alloc, diagnostic)?;
    let message = escape_message(alloc, message.as_str())?;
    format!(in alloc; "::{severity} file={file},{place},title={title}::{message}\n")
}

/// The properties of a command that are lines and columns.
fn place_properties(alloc: Global, first: Location, last: Location) -> Result<String, AllocError>
    ensures { IfOk result (λ text. string_bytes text ≡ place_text first last) }
{
    format!(in alloc;
        "line={},col={},endLine={},endColumn={}",
        first.line, first.column, last.line, last.column
    )
}

/// A message, with what a command may not have written as `%XX`.
fn escape_message(alloc: Global, text: &str) -> Result<String, AllocError>
    ensures { IfOk result (λ escaped. string_bytes escaped ≡ written_by message_part text.now) }
{
    let mut escaped = String::new(alloc);
    for character in text.chars() {
        push_message_part(character, &mut escaped)?;
    }
    Ok(escaped)
}

/// The message of a diagnostic and of its help.
pub(crate) fn full_message(alloc: Global, diagnostic: &Diagnostic) -> Result<String, AllocError>
    ensures { IfOk result (λ text.
        string_bytes text ≡ with_help (string_bytes diagnostic.now.message) diagnostic.now.help) }
{
    let message = diagnostic.message.as_str();
    match &diagnostic.help {
        Some(help) => format!(in alloc; "{message}; help: {}", help.message),
        None => String::from_str(alloc, message),
    }
}

/// A property of a command, with what it may not have written as `%XX`.
fn escape_property(alloc: Global, text: &str) -> Result<String, AllocError>
    ensures { IfOk result (λ escaped. string_bytes escaped ≡ property text.now) }
{
    let mut escaped = String::new(alloc);
    for character in text.chars() {
        push_property_part(character, &mut escaped)?;
    }
    Ok(escaped)
}

/// Adds a character of a message.
fn push_message_part(character: char, out: &mut String) -> Result<(), AllocError>
    ensures { OnOk result (string_bytes out.new
        ≡ string_bytes out.old ++ encode_utf8_all (message_part character)) }
{
    match character {
        '%' => out.push_str("%25"),
        _ => push_shown(character, out),
    }
}

/// Adds a character of a property.
fn push_property_part(character: char, out: &mut String) -> Result<(), AllocError>
    ensures { OnOk result (string_bytes out.new
        ≡ string_bytes out.old ++ encode_utf8_all (property_part character)) }
{
    match character {
        ':' => out.push_str("%3A"),
        ',' => out.push_str("%2C"),
        _ => push_message_part(character, out),
    }
}
