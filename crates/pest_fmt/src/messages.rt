//! Messages on standard error.
ghost use Rattle.std.specs.Prelude.{◌≡◌, ◌++◌, IfOk, codes, string_bytes};
ghost use Rattle.pest_fmt.specs.Messages.{IsRefusal, TellsError};
ghost use Rattle.program_support.specs.Escapes.{escaped_bytes};

use base_language::grammar::Rule;
use base_language::runtime::{Error, InputLocation};
use front_reader::rules::common_name;
use front_syntax::grammar::PestParser;
use program_support::escape::{escape, escape_lines};
use program_support::messages::place_error;
use program_support::syntax::syntax_message;
use std::alloc::{AllocError, Global};

/// Returns the message that a file is left alone, since its formatted text would be another grammar.
pub fn cannot_format(alloc: Global, name: &str) -> Result<String, AllocError>
    ensures { IfOk result (λ message. string_bytes message ≡ codes "cannot format " ++ escaped_bytes name.now
        ++ codes ": its formatted text would have other tokens or comments\n") }
{
    let name = escape(alloc, name)?;
    format!(in alloc;
        "cannot format {name}: its formatted text would have other tokens or comments\n"
    )
}

/// Returns the message that a file is left alone, since its text is no grammar: for each error what was
/// expected and found, the place, and the line.
pub fn refusal_message(
    alloc: Global,
    name: &str,
    text: &str,
    errors: &[Error<Rule>],
) -> Result<String, AllocError>
    ensures { IfOk result (λ message. IsRefusal name.now errors.now (string_bytes message)) }
{
    let name = escape(alloc, name)?;
    let expected = expected_names(alloc, text)?;
    let mut message = String::new(alloc);
    for error in errors {
        let part = error_message(alloc, name.as_str(), text, &expected, error)?;
        message.push_str(part.as_str())?;
    }
    escape_lines(alloc, message.as_str())
}

/// Returns what was expected and found at an error, the place, and the line.
fn error_message(
    alloc: Global,
    name: &str,
    text: &str,
    expected: &[&str],
    error: &Error<Rule>,
) -> Result<String, AllocError>
    ensures { IfOk result (λ part. TellsError name.now error.now (string_bytes part)) }
{
    let told = syntax_message(alloc, text, start_of(error), expected)?;
    let placed = place_error(alloc, name, error)?;
    format!(in alloc; "cannot format {name}: {told}\n{placed}")
}

/// Returns the names of the rules that are expected where a text is refused.
fn expected_names(alloc: Global, text: &str) -> Result<Vec<&'static str>, AllocError> {
    let rules = PestParser::expected_set(alloc, Rule::grammar_rules, text)?;
    rules.iter().map(|rule| common_name(*rule)).collect(alloc)
}

/// Returns the byte at which an error begins.
fn start_of(error: &Error<Rule>) -> usize {
    match error.location {
        InputLocation::Pos(place) => place,
        InputLocation::Span((start, _)) => start,
    }
}
