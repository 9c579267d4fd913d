//! Messages of the programs, and the position of an error of a grammar.
ghost use Rattle.std.specs.Prelude.{◌≡◌, ◌++◌, IfOk, codes, string_bytes};
ghost use Rattle.std.specs.Option.{option_copied};
ghost use Rattle.base_language.specs.Pieces.PrintedError.{error_text, message_of};
ghost use Rattle.program_support.specs.Escapes.{escaped_bytes, escaped_lines};
ghost use Rattle.program_support.specs.Messages.{ArePartsOf, IsPlaced, IsReport, ShowsError, ShowsNext, error_lines, file_prefix, placed_lines};

use crate::escape::{escape, escape_lines};
use crate::excerpt::{margin_of, show_line, start_of};
use base_language::grammar::Rule;
use base_language::runtime::{Error, ErrorVariant};
use std::alloc::{AllocError, Global};

/// Returns the message that a file cannot be read, and why.
pub fn cannot_read(alloc: Global, name: &str, why: &str) -> Result<String, AllocError>
    ensures { IfOk result (λ message. string_bytes message ≡ codes "cannot read "
        ++ (escaped_bytes name.now ++ (codes ": " ++ (why.now ++ codes "\n")))) }
{
    let name = escape(alloc, name)?;
    format!(in alloc; "cannot read {name}: {why}\n")
}

/// Returns the message that a file cannot be written, and why.
pub fn cannot_write(alloc: Global, name: &str, why: &str) -> Result<String, AllocError>
    ensures { IfOk result (λ message. string_bytes message ≡ codes "cannot write "
        ++ (escaped_bytes name.now ++ (codes ": " ++ (why.now ++ codes "\n")))) }
{
    let name = escape(alloc, name)?;
    format!(in alloc; "cannot write {name}: {why}\n")
}

/// Returns the message that a file cannot be read, since it is not UTF-8.
pub fn is_not_utf8(alloc: Global, name: &str) -> Result<String, AllocError>
    ensures { IfOk result (λ message. string_bytes message
        ≡ codes "cannot read " ++ escaped_bytes name.now ++ codes ": it is not UTF-8\n") }
{
    let name = escape(alloc, name)?;
    format!(in alloc; "cannot read {name}: it is not UTF-8\n")
}

/// Returns the position of an error in the file named `name`, and its line.
pub fn place_error(alloc: Global, name: &str, error: &Error<Rule>) -> Result<String, AllocError>
    ensures { IfOk result (λ placed. IsPlaced name.now (error_text error.now) (string_bytes placed)) }
{
    let prefix = format!(in alloc; "{name}:")?;
    let lines = show_line(alloc, error)?;
    let start = start_of(&error.line_col);
    place_lines(alloc, prefix.as_str(), start, lines.as_str())
}

/// Returns a line and a column after a text, and lines below.
fn place_lines(
    alloc: Global,
    prefix: &str,
    start: (usize, usize),
    lines: &str,
) -> Result<String, AllocError>
    ensures { IfOk result (λ placed. string_bytes placed ≡ placed_lines prefix.now start lines.now) }
{
    let (line, column) = start;
    let margin = margin_of(alloc, line)?;
    format!(in alloc; "{margin}--> {prefix}{line}:{column}\n{lines}")
}

/// Returns the report of a grammar's errors: `grammar error`, and each error after an empty line, without a
/// last line feed. The text is that of printed errors, but hidden characters are escapes, lines of more than
/// 160 columns are cut, and marks are below what they mark.
pub fn show_report(alloc: Global, errors: &[Error<Rule>]) -> Result<String, AllocError>
    ensures { IfOk result (λ report. IsReport errors.now (string_bytes report)) }
{
    let parts = show_errors(alloc, errors)?;
    format!(in alloc; "grammar error{parts}")
}

/// Returns each error after an empty line.
fn show_errors(alloc: Global, errors: &[Error<Rule>]) -> Result<String, AllocError>
    ensures { IfOk result (λ parts. ArePartsOf ShowsNext errors.now (string_bytes parts)) }
{
    let mut parts = String::new(alloc);
    for error in errors {
        let part = show_next(alloc, error)?;
        parts.push_str(part.as_str())?;
    }
    Ok(parts)
}

/// Returns an error after an empty line.
fn show_next(alloc: Global, error: &Error<Rule>) -> Result<String, AllocError>
    ensures { IfOk result (λ part. ShowsNext error.now (string_bytes part)) }
{
    let shown = show_error(alloc, None, error)?;
    format!(in alloc; "\n\n{shown}")
}

/// Returns the place of an error, with the name of its file if there is one, its line with a mark, and its
/// message, without a last line feed.
pub fn show_error(
    alloc: Global,
    file: Option<&str>,
    error: &Error<Rule>,
) -> Result<String, AllocError>
    ensures { IfOk result (λ shown. ShowsError (option_copied file.entry) error.now (string_bytes shown)) }
{
    let prefix = file_prefix(alloc, file)?;
    let lines = show_line(alloc, error)?;
    let message = show_message(alloc, &error.variant)?;
    let start = start_of(&error.line_col);
    error_lines(
        alloc,
        prefix.as_str(),
        start,
        lines.as_str(),
        message.as_str(),
    )
}

/// Returns the name of a file and a colon, or nothing without a file.
fn file_prefix(alloc: Global, file: Option<&str>) -> Result<String, AllocError>
    ensures { IfOk result (λ prefix. string_bytes prefix ≡ file_prefix (option_copied file.entry)) }
{
    match file {
        Some(name) => {
            let name = escape(alloc, name)?;
            format!(in alloc; "{name}:")
        }
        None => Ok(String::new(alloc)),
    }
}

/// Returns a line and a column after a text, lines below, and a message.
fn error_lines(
    alloc: Global,
    prefix: &str,
    start: (usize, usize),
    lines: &str,
    message: &str,
) -> Result<String, AllocError>
    ensures { IfOk result (λ shown.
        string_bytes shown ≡ error_lines prefix.now start lines.now message.now) }
{
    let placed = place_lines(alloc, prefix, start, lines)?;
    let margin = margin_of(alloc, start.0)?;
    format!(in alloc; "{placed}{margin} |\n{margin} = {message}")
}

/// Returns the message of an error, with escapes of hidden characters.
fn show_message(alloc: Global, variant: &ErrorVariant) -> Result<String, AllocError>
    ensures { IfOk result (λ message.
        string_bytes message ≡ escaped_lines (message_of variant.now)) }
{
    let message = format!(in alloc; "{variant}")?;
    escape_lines(alloc, message.as_str())
}
