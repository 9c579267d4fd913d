//! Pictures of control characters.
ghost use Rattle.std.specs.Prelude.{◌≡◌, ◌++◌, ◌+◌, ◌<◌, IfOk, OnOk, encode_utf8_all, string_bytes};
ghost use Rattle.lint_output.specs.Visible as spec;
ghost use Rattle.lint_output.specs.Visible.{shown, visible};

use program_support::escape::is_hidden;
use std::alloc::{AllocError, Global};
use unicode_width::UnicodeWidthChar;

/// The columns of a tab.
const TAB: &str = "    ";

/// A text with a picture of each control character in its place, and blanks for tabs.
pub fn to_visible(alloc: Global, text: &str) -> Result<String, AllocError>
    ensures { IfOk result (λ bytes. string_bytes bytes ≡ visible text.now) }
{
    let mut visible = String::new(alloc);
    push_visible(text, &mut visible)?;
    Ok(visible)
}

/// Adds a text, with a picture of each control character in its place, and blanks for tabs.
pub(crate) fn push_visible(text: &str, out: &mut String) -> Result<(), AllocError>
    ensures { OnOk result (string_bytes out.new ≡ string_bytes out.old ++ visible text.now) }
{
    for character in text.chars() {
        push_shown(character, out)?;
    }
    Ok(())
}

/// Adds a character, a picture of it, or blanks for a tab.
pub(crate) fn push_shown(character: char, out: &mut String) -> Result<(), AllocError>
    ensures { OnOk result (string_bytes out.new
        ≡ string_bytes out.old ++ encode_utf8_all (shown character)) }
{
    if character == '\t' {
        out.push_str(TAB)
    } else {
        out.push(picture(character))
    }
}

/// Returns the number of columns of a text that is printed so.
pub(crate) fn visible_width(text: &str) -> usize {
    let mut width = 0usize;
    for c in text.chars() {
        let columns = if c == '\t' {
            TAB.len()
        } else {
            picture(c).width().unwrap_or(1)
        };
        width = width.saturating_add(columns);
    }
    width
}

/// A character, or a picture of one that might change how the others are shown.
fn picture(c: char) -> char
    ensures { result ≡ spec.picture c }
{
    match c {
        '\0'..='\x1f' => control_picture(c),
        '\x7f' => '\u{2421}',
        _ if is_hidden(c) => '\u{fffd}',
        _ => c,
    }
}

/// The picture of an ASCII control character.
fn control_picture(c: char) -> char
    requires { c < 32 }
    ensures { result ≡ c + 0x2400 }
{
    char::from_u32(u32::from(c) + 0x2400).unwrap_or('\u{fffd}')
}
