//! Escaping: texts as they are written into markup, and as they are shown on a terminal.
ghost use Rattle.std.specs.Prelude.{◌≡◌, ◌++◌, OnOk, encode_utf8_all, string_bytes};
ghost use Rattle.doc_markup.specs.Escape.{escaped_bytes, escaped_character, visible, visible_bytes, visible_character};

use std::alloc::AllocError;

/// Appends a text, escaped: `<`, `>`, `&` and both quotes become entities, and U+FFFD replaces each
/// character that is not shown or changes the direction of a line. The only error is an allocation failure.
pub fn push_escaped(text: &str, page: &mut String) -> Result<(), AllocError>
    ensures { OnOk result (string_bytes page.new ≡ string_bytes page.old ++ escaped_bytes text.now) }
{
    for character in text.chars() {
        push_escaped_character(character, page)?;
    }
    Ok(())
}

/// Appends a character, escaped.
fn push_escaped_character(character: char, page: &mut String) -> Result<(), AllocError>
    ensures { OnOk result (string_bytes page.new
        ≡ string_bytes page.old ++ encode_utf8_all (escaped_character character)) }
{
    match character {
        '<' => page.push_str("&lt;"),
        '>' => page.push_str("&gt;"),
        '&' => page.push_str("&amp;"),
        '"' => page.push_str("&quot;"),
        '\'' => page.push_str("&#39;"),
        _ => page.push(visible(character)),
    }
}

/// Returns a character, or U+FFFD in place of one that is not shown or changes the direction of a line.
pub(crate) fn visible(character: char) -> char
    ensures { result ≡ visible character }
{
    match character {
        '\u{0}'..='\u{8}' | '\u{b}'..='\u{1f}' | '\u{7f}'..='\u{9f}' => '\u{fffd}',
        '\u{61c}' | '\u{200e}' | '\u{200f}' | '\u{2028}'..='\u{202e}' => '\u{fffd}',
        '\u{2066}'..='\u{206f}' | '\u{feff}' | '\u{fffe}' | '\u{ffff}' => '\u{fffd}',
        _ => character,
    }
}

/// Appends a text with an escape, as `\u{1b}`, in place of each character that is not shown or changes the
/// direction of a line, so that a terminal obeys no part of it. The only error is an allocation failure.
pub fn push_visible(text: &str, page: &mut String) -> Result<(), AllocError>
    ensures { OnOk result (string_bytes page.new ≡ string_bytes page.old ++ visible_bytes text.now) }
{
    for character in text.chars() {
        push_visible_character(character, page)?;
    }
    Ok(())
}

/// Appends a character, or its escape.
fn push_visible_character(character: char, page: &mut String) -> Result<(), AllocError>
    ensures { OnOk result (string_bytes page.new ≡ string_bytes page.old ++ visible_character character) }
{
    if visible(character) == character {
        page.push(character)
    } else {
        write!(page, "\\u{{{:x}}}", u32::from(character))
    }
}
