//! JSON without hidden characters.
ghost use Rattle.std.specs.Prelude.{◌≡◌, ◌++◌, ◌<◌, IfOk, OnOk, codes, encode_utf8_all, string_bytes};
ghost use Rattle.program_support.specs.Escapes.{escaped_json, four_digits, hex_digit, json_character, json_escape};

use crate::escape::is_hidden;
use std::alloc::{AllocError, Global};

/// Returns a JSON text without blanks, with each hidden character as an escape, such as `\u202e`. Such
/// characters are in strings only, where the escape means the same. The only error is an allocation failure.
pub fn escape_json(alloc: Global, json: &str) -> Result<String, AllocError>
    ensures { IfOk result (λ escaped. string_bytes escaped ≡ escaped_json json.now) }
{
    let mut escaped = String::new(alloc);
    for character in json.chars() {
        push_character(character, &mut escaped)?;
    }
    Ok(escaped)
}

/// Appends a character, or its escape if it is hidden.
fn push_character(character: char, text: &mut String) -> Result<(), AllocError>
    ensures { OnOk result (string_bytes text.new
        ≡ string_bytes text.old ++ encode_utf8_all (json_character character)) }
{
    if is_hidden(character) {
        push_escape(u32::from(character), text)
    } else {
        text.push(character)
    }
}

/// Appends the escape of a character: of one unit of UTF-16, or of two from U+10000 on.
fn push_escape(code: u32, text: &mut String) -> Result<(), AllocError>
    ensures { OnOk result (string_bytes text.new
        ≡ string_bytes text.old ++ encode_utf8_all (json_escape code)) }
{
    if code < 0x10000 {
        return push_unit(code, text);
    }
    let above = code - 0x10000;
    push_unit(0xd800 + above / 0x400, text)?;
    push_unit(0xdc00 + above % 0x400, text)
}

/// Appends the escape of a unit of UTF-16.
fn push_unit(unit: u32, text: &mut String) -> Result<(), AllocError>
    ensures { OnOk result (string_bytes text.new
        ≡ string_bytes text.old ++ encode_utf8_all (codes "\\u" ++ four_digits unit)) }
{
    text.push_str("\\u")?;
    push_digits(unit, text)
}

/// Appends the last four hexadecimal digits of a number.
fn push_digits(number: u32, text: &mut String) -> Result<(), AllocError>
    ensures { OnOk result (string_bytes text.new
        ≡ string_bytes text.old ++ encode_utf8_all (four_digits number)) }
{
    text.push(hex_digit(number / 4096 % 16))?;
    text.push(hex_digit(number / 256 % 16))?;
    text.push(hex_digit(number / 16 % 16))?;
    text.push(hex_digit(number % 16))
}

/// Returns the hexadecimal digit of a number.
fn hex_digit(value: u32) -> char
    requires { value < 16 }
    ensures value { result ≡ hex_digit value }
    ensures ascii { result < 128 }
{
    match value {
        0..=9 => char::from(b'0' + value as u8),
        _ => char::from(b'a' + (value - 10) as u8),
    }
}
