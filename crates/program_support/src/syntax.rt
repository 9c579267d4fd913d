//! The sentence of a syntax error.
ghost use Rattle.std.specs.Prelude.{◌≡◌, ◌++◌, IfOk, codes, string_bytes};
ghost use Rattle.program_support.specs.Messages.{TellsSyntax, expected_text, unexpected_text};

use std::alloc::{AllocError, Global};

/// Returns the sentence of a syntax error at a byte of a text: the names that are expected there, and what is
/// found. At most six names are written, with `or` before the last one. If there are more, `or something
/// else` is written. The only error is an allocation failure.
pub fn syntax_message(
    alloc: Global,
    text: &str,
    position: usize,
    expected: &[&str],
) -> Result<String, AllocError>
    ensures { IfOk result (λ message. TellsSyntax (string_bytes message)) }
{
    let found = found_at(alloc, text, position)?;
    if expected.is_empty() {
        return unexpected_message(alloc, found.as_str());
    }
    let names = join_names(alloc, expected)?;
    expected_message(alloc, names.as_str(), found.as_str())
}

/// Returns the sentence that nothing can go on with what is found.
fn unexpected_message(alloc: Global, found: &str) -> Result<String, AllocError>
    ensures { IfOk result (λ message. string_bytes message ≡ unexpected_text found.now) }
{
    format!(in alloc; "nothing of a grammar can go on with {found}")
}

/// Returns the sentence that names are expected in place of what is found.
fn expected_message(alloc: Global, names: &str, found: &str) -> Result<String, AllocError>
    ensures { IfOk result (λ message. string_bytes message ≡ expected_text names.now found.now) }
{
    format!(in alloc; "expected {names}, and found {found}")
}

/// Returns the character at a byte of a text, in words.
fn found_at(alloc: Global, text: &str, position: usize) -> Result<String, AllocError> {
    let rest = text.get(position..).unwrap_or("");
    match rest.chars().next() {
        None => String::from_str(alloc, "the end of the text"),
        Some('\n' | '\r') => String::from_str(alloc, "the end of the line"),
        Some('`') => String::from_str(alloc, "a grave accent"),
        Some('\u{feff}') => String::from_str(alloc, "a byte order mark"),
        Some(c) => format!(in alloc; "`{c}`"),
    }
}

/// Joins at most six names, with `or` before the last one. If there are more, `or something else` is added.
fn join_names(alloc: Global, names: &[&str]) -> Result<String, AllocError> {
    let mut text = String::new(alloc);
    let count = names.len();
    for (i, name) in names.iter().take(if count > 6 { 5 } else { 6 }).enumerate() {
        if i > 0 {
            text.push_str(if i.saturating_add(1) == count {
                " or "
            } else {
                ", "
            })?;
        }
        text.push_str(name)?;
    }
    if count > 6 {
        text.push_str(" or something else")?;
    }
    Ok(text)
}
