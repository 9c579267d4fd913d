//! Texts in messages: no character of theirs can change how a terminal shows the rest.
ghost use Rattle.std.specs.Prelude.{◌≡◌, ◌++◌, IfOk, OnOk, encode_utf8_all, string_bytes};
ghost use Rattle.std.specs.Char.Escape.{escape_unicode};
ghost use Rattle.program_support.specs.Escapes.{escaped_bytes, escaped_lines, is_hidden, is_hidden_in_lines, shown_character};

use std::alloc::{AllocError, Global};

/// Returns a text with each hidden character as an escape, as `\u{1b}`.
pub fn escape(alloc: Global, text: &str) -> Result<String, AllocError>
    ensures { IfOk result (λ escaped. string_bytes escaped ≡ escaped_bytes text.now) }
{
    let mut escaped = String::new(alloc);
    for character in text.chars() {
        push_shown(character, is_hidden(character), &mut escaped)?;
    }
    Ok(escaped)
}

/// Returns `text` with each hidden character as an escape, except for tabs and line feeds.
pub fn escape_lines(alloc: Global, text: &str) -> Result<String, AllocError>
    ensures { IfOk result (λ escaped. string_bytes escaped ≡ escaped_lines text.now) }
{
    let mut escaped = String::new(alloc);
    for character in text.chars() {
        push_shown(character, is_hidden_in_lines(character), &mut escaped)?;
    }
    Ok(escaped)
}

/// Returns whether a character is shown as an escape: a control character, or one that formats a text and has
/// no shape of its own, as those that turn the direction of a line and the invisible tags.
pub fn is_hidden(character: char) -> bool
    ensures { result ≡ is_hidden character }
{
    match character {
        '\u{0}'..='\u{1f}' | '\u{7f}'..='\u{9f}' => true,
        '\u{ad}' | '\u{61c}' | '\u{180e}' | '\u{200b}'..='\u{200f}' => true,
        '\u{2028}'..='\u{202e}' | '\u{2060}'..='\u{206f}' => true,
        '\u{feff}' | '\u{fff9}'..='\u{fffb}' => true,
        '\u{13430}'..='\u{1343f}' | '\u{1bca0}'..='\u{1bca3}' => true,
        '\u{1d173}'..='\u{1d17a}' | '\u{e0001}' | '\u{e0020}'..='\u{e007f}' => true,
        _ => false,
    }
}

/// Returns whether a character is hidden, and neither a tab nor a line feed.
pub(crate) fn is_hidden_in_lines(character: char) -> bool
    ensures { result ≡ is_hidden_in_lines character }
{
    match character {
        '\t' | '\n' => false,
        _ => is_hidden(character),
    }
}

/// Appends a character, or its escape.
fn push_shown(character: char, is_escaped: bool, text: &mut String) -> Result<(), AllocError>
    ensures { OnOk result (string_bytes text.new
        ≡ string_bytes text.old ++ encode_utf8_all (shown_character is_escaped character)) }
{
    if is_escaped {
        push_escape(character, text)
    } else {
        text.push(character)
    }
}

/// Appends the escape of a character.
fn push_escape(character: char, text: &mut String) -> Result<(), AllocError>
    ensures { OnOk result (string_bytes text.new
        ≡ string_bytes text.old ++ encode_utf8_all (escape_unicode character)) }
{
    for sign in character.escape_unicode() {
        text.push(sign)?;
    }
    Ok(())
}
