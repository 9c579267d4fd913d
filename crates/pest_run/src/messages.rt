//! Messages.
ghost use Rattle.std.specs.Prelude.{◌≡◌, ◌++◌, IfOk, OnOk, codes, length, string_bytes};
ghost use Rattle.std.specs.Str.{IsCharBoundary};
ghost use Rattle.matcher_program.specs.ExpectedNames.{name_texts};
ghost use Rattle.matcher_support.specs.Expectations.{list_text};
ghost use Rattle.base_language.specs.Language.Expression.{Grammar};
ghost use Rattle.matcher_engine.specs.Walks.{AreNamesOf};
ghost use Rattle.program_support.specs.Escapes.{escaped_bytes};
ghost use Rattle.pest_run.specs.Messages.{end_text, expected_or_none, expected_text, expected_too, failure_text, is_more, more_steps, no_rule_text, not_found_text, note_between, place_text, stack_text, steps_text, suggestion, unnamed_end_text, unnamed_text, unread_text};
ghost use Rattle.base_language.specs.Pieces.LineColumn.{line_column};

use crate::rule_names::near_names;
use base_language::runtime::Position;
use matcher_support::attempts::NamedAttempts;
use matcher_support::expectations::{add_names, failure_message};
use program_support::escape::escape;
use std::alloc::{AllocError, Global};

/// The greatest number of names that a message suggests.
const SUGGESTED: usize = 5;

/// Returns the message that no rule has a name, with the first of the rules' names that are near it. The only
/// error is an allocation failure.
pub fn no_rule_message(alloc: Global, names: &[&str], name: &str) -> Result<String, AllocError>
    ensures { IfOk result (λ message. (g : Grammar) → AreNamesOf g names.now
        → string_bytes message ≡ no_rule_text g name.now) }
{
    let mut near = near_names(alloc, names, name)?;
    near.truncate(SUGGESTED);
    let question = suggest(alloc, &near)?;
    let shown = escape(alloc, name)?;
    let mut message = String::from_str(alloc, "the grammar has no rule ")?;
    message.push_str(shown.as_str())?;
    message.push_str(question.as_str())?;
    Ok(message)
}

/// Returns the question whether one of some names is meant, if there is any. The only error is an allocation
/// failure.
fn suggest(alloc: Global, names: &[&str]) -> Result<String, AllocError>
    ensures { IfOk result (λ question. string_bytes question ≡ suggestion (name_texts names.now)) }
{
    let mut question = String::new(alloc);
    if !names.is_empty() {
        question.push_str("; did you mean ")?;
        add_names(&mut question, names)?;
        question.push_str("?")?;
    }
    Ok(question)
}

/// Returns the message that a file cannot be read, and why. The only error is an allocation failure.
pub fn unread_message(alloc: Global, name: &str, why: &str) -> Result<String, AllocError>
    ensures { IfOk result (λ message. string_bytes message ≡ unread_text name.now why.now) }
{
    let shown_name = escape(alloc, name)?;
    let shown_why = escape(alloc, why)?;
    let mut message = String::from_str(alloc, "cannot read ")?;
    message.push_str(shown_name.as_str())?;
    message.push_str(": ")?;
    message.push_str(shown_why.as_str())?;
    Ok(message)
}

/// Returns the message that a file is not run as a compiled grammar, and why. The only error is an allocation
/// failure.
pub fn code_message(alloc: Global, name: &str, why: &str) -> Result<String, AllocError>
    ensures { IfOk result (λ message. string_bytes message
        ≡ codes "cannot run " ++ escaped_bytes name.now ++ codes ": " ++ why.now) }
{
    let file = escape(alloc, name)?;
    let mut message = String::from_str(alloc, "cannot run ")?;
    message.push_str(file.as_str())?;
    message.push_str(": ")?;
    message.push_str(why)?;
    Ok(message)
}

/// Returns a number of steps to try if `steps` steps are not enough.
pub fn more_steps(steps: u64) -> u64
    ensures { result ≡ more_steps steps }
{
    steps.saturating_mul(16)
}

/// Returns the message that a match was stopped after this many steps, with a number to try. The only error
/// is an allocation failure.
pub fn steps_message(alloc: Global, steps: u64) -> Result<String, AllocError>
    ensures { IfOk result (λ message. string_bytes message ≡ steps_text steps) }
{
    let more = more_steps(steps);
    format!(in alloc; "the match was stopped after {steps} steps; --steps {more} allows more")
}

/// Returns the message as `steps_message`, with the name of a rule that uses the stack. The only error is an
/// allocation failure.
pub fn stack_message(alloc: Global, steps: u64, user: &str) -> Result<String, AllocError>
    ensures { IfOk result (λ message. string_bytes message ≡ stack_text steps user.now) }
{
    let name = escape(alloc, user)?;
    let mut message = steps_message(alloc, steps)?;
    message.push_str(" (rule ")?;
    message.push_str(name.as_str())?;
    message.push_str(" uses the stack)")?;
    Ok(message)
}

/// Returns the message that the expected set of a failure was not found in `steps` steps. The only error is
/// an allocation failure.
pub fn unnamed_message(alloc: Global, steps: u64) -> Result<String, AllocError>
    ensures { IfOk result (λ message. string_bytes message ≡ unnamed_text steps) }
{
    let more = more_steps(steps);
    format!(in alloc;
        "what is expected here was not found in {steps} steps; --steps {more} allows more"
    )
}

/// Returns whether more than a line's end is left of a text.
pub fn is_more(rest: &str) -> bool
    ensures { result ≡ is_more rest.now }
{
    !(rest.is_empty() || rest == "\n" || rest == "\r\n")
}

/// The message if no name is expected.
const NONE_EXPECTED: &str =
    "no rule is expected here: what failed gives no token, or stands below a `!`";

/// Returns the message on a failure: that some names are expected there, and that others are not, in pest's
/// words if there are any. The only error is an allocation failure.
pub fn describe_failure(alloc: Global, failure: &NamedAttempts<'_>) -> Result<String, AllocError>
    ensures { IfOk result (λ message. string_bytes message
        ≡ failure_text (name_texts failure.now.positives.items)
        (name_texts failure.now.negatives.items)) }
{
    names_message(alloc, &failure.positives, &failure.negatives)
}

/// Returns the message that some names are expected, and that others are not.
pub(crate) fn names_message(
    alloc: Global,
    positives: &[&str],
    negatives: &[&str],
) -> Result<String, AllocError>
    ensures { IfOk result (λ message. string_bytes message
        ≡ failure_text (name_texts positives.now) (name_texts negatives.now)) }
{
    match negatives {
        [] => expected_message(alloc, positives),
        [_, ..] => unexpected_message(alloc, positives, negatives),
    }
}

/// Returns the message that these names are expected, or that none is.
fn expected_message(alloc: Global, names: &[&str]) -> Result<String, AllocError>
    ensures { IfOk result (λ message. string_bytes message ≡ expected_or_none (name_texts names.now)) }
{
    match names {
        [] => String::from_str(alloc, NONE_EXPECTED),
        [_, ..] => failure_message(alloc, names),
    }
}

/// Returns the message that names are not expected, and which ones are.
fn unexpected_message(
    alloc: Global,
    positives: &[&str],
    negatives: &[&str],
) -> Result<String, AllocError>
    ensures { IfOk result (λ message. string_bytes message
        ≡ codes "unexpected " ++ list_text (name_texts negatives.now)
        ++ expected_too (name_texts positives.now)) }
{
    let mut message = String::from_str(alloc, "unexpected ")?;
    add_names(&mut message, negatives)?;
    add_expected_too(alloc, &mut message, positives)?;
    Ok(message)
}

/// Adds to a message the names that are expected, too, if there are any.
fn add_expected_too(alloc: Global, message: &mut String, names: &[&str]) -> Result<(), AllocError>
    ensures { OnOk result (string_bytes message.new
        ≡ string_bytes message.old ++ expected_too (name_texts names.now)) }
{
    if names.is_empty() {
        return Ok(());
    }
    let expected = failure_message(alloc, names)?;
    message.push_str("; ")?;
    message.push_str(expected.as_str())
}

/// Returns the note that a match ends at one byte, and the text at another. If the furthest failure is not
/// before the end of the match, the note also has the names that are expected there. Both positions are
/// between two characters. The only error is an allocation failure.
pub fn end_message(
    alloc: Global,
    text: &str,
    end: usize,
    place: usize,
    names: &[&str],
) -> Result<String, AllocError>
    requires end { IsCharBoundary text.now end }
    requires place { IsCharBoundary text.now place }
    ensures { IfOk result (λ note. string_bytes note ≡ end_text text.now end place (name_texts names.now)) }
{
    let Some(failed) = Position::new(text, place) else {
        unreachable!()
    };
    let mut note = end_note(alloc, text, end)?;
    if end <= place {
        add_expected(alloc, &mut note, failed.line_col(), names)?;
    }
    Ok(note)
}

/// Returns the note that a match ends at one byte, and the text at another, and that the names that are
/// expected at the furthest failure were not found in `steps` steps. Both positions are between two
/// characters. The only error is an allocation failure.
pub fn unnamed_note(
    alloc: Global,
    text: &str,
    end: usize,
    place: usize,
    steps: u64,
) -> Result<String, AllocError>
    requires end { IsCharBoundary text.now end }
    requires place { IsCharBoundary text.now place }
    ensures { IfOk result (λ note. string_bytes note ≡ unnamed_end_text text.now end place steps) }
{
    let Some(failed) = Position::new(text, place) else {
        unreachable!()
    };
    let mut note = end_note(alloc, text, end)?;
    let shown = show_place(alloc, failed.line_col())?;
    let limit = steps_note(alloc, steps)?;
    note.push_str("; what is expected at ")?;
    note.push_str(shown.as_str())?;
    note.push_str(limit.as_str())?;
    Ok(note)
}

/// Returns the note that a match ends at the byte `end`, between two characters, and at which byte the text
/// ends. The only error is an allocation failure.
fn end_note(alloc: Global, text: &str, end: usize) -> Result<String, AllocError>
    requires { IsCharBoundary text.now end }
    ensures { IfOk result (λ note. string_bytes note
        ≡ note_between (line_column text.now end) (line_column text.now (length text.now))) }
{
    let Some(ended) = Position::new(text, end) else {
        unreachable!()
    };
    let Some(last) = Position::new(text, text.len()) else {
        unreachable!()
    };
    note_between(alloc, ended.line_col(), last.line_col())
}

/// Returns the words that something was not found in `steps` steps. The only error is an allocation failure.
fn steps_note(alloc: Global, steps: u64) -> Result<String, AllocError>
    ensures { IfOk result (λ words. string_bytes words ≡ not_found_text steps) }
{
    let more = more_steps(steps);
    format!(in alloc; " was not found in {steps} steps; --steps {more} allows more")
}

/// Adds to a note the names that are expected at a position, if there are any.
fn add_expected(
    alloc: Global,
    note: &mut String,
    place: (usize, usize),
    names: &[&str],
) -> Result<(), AllocError>
    ensures { OnOk result (string_bytes note.new
        ≡ string_bytes note.old ++ expected_text place (name_texts names.now)) }
{
    if names.is_empty() {
        return Ok(());
    }
    let message = failure_message(alloc, names)?;
    let shown = show_place(alloc, place)?;
    note.push_str("; ")?;
    note.push_str(message.as_str())?;
    note.push_str(" at ")?;
    note.push_str(shown.as_str())
}

/// Returns the note that a match ends at the first of two positions, and its text at the second. The only
/// error is an allocation failure.
fn note_between(
    alloc: Global,
    end: (usize, usize),
    last: (usize, usize),
) -> Result<String, AllocError>
    ensures { IfOk result (λ note. string_bytes note ≡ note_between end last) }
{
    let shown_end = show_place(alloc, end)?;
    let shown_last = show_place(alloc, last)?;
    let mut note = String::from_str(alloc, "note: matched up to ")?;
    note.push_str(shown_end.as_str())?;
    note.push_str(", the text ends at ")?;
    note.push_str(shown_last.as_str())?;
    Ok(note)
}

/// Returns a line and a column as text. The only error is an allocation failure.
pub fn show_place(alloc: Global, place: (usize, usize)) -> Result<String, AllocError>
    ensures { IfOk result (λ text. string_bytes text ≡ place_text place) }
{
    let (line, column) = place;
    format!(in alloc; "{line}:{column}")
}
