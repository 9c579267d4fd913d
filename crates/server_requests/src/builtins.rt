//! Meanings of builtins.

use front_names::{Builtin, CharSet};

/// Returns what the builtin or the call form of a name matches, or `None` if neither but perhaps a Unicode
/// property has it.
pub fn builtin_doc(name: &str) -> Option<&'static str> {
    match Builtin::from_name(name) {
        Some(builtin) => Some(describe(builtin)),
        None => call_doc(name),
    }
}

/// Returns what a call form that is no builtin matches.
fn call_doc(name: &str) -> Option<&'static str> {
    match name {
        "PUSH" => Some("what its operand matches; puts that text on the stack"),
        "PUSH_LITERAL" => Some("nothing; puts its string on the stack"),
        _ => None,
    }
}

/// Returns what a builtin matches.
pub(crate) fn describe(builtin: Builtin) -> &'static str {
    match builtin {
        Builtin::Set(set) => describe_set(set),
        Builtin::Soi => "the start of the text",
        Builtin::Eoi => "the end of the text",
        Builtin::Newline => "`\\n`, `\\r\\n` or `\\r`",
        Builtin::Peek => "the text on top of the stack, which stays there",
        Builtin::Pop => "the text on top of the stack, which is removed",
        Builtin::Drop => "nothing; removes the top of the stack",
        Builtin::PeekAll => "all texts of the stack from the top down, which stay there",
        Builtin::PopAll => "all texts of the stack from the top down, which are removed",
    }
}

/// Returns what the builtin of a set of characters matches.
fn describe_set(set: CharSet) -> &'static str {
    match set {
        CharSet::Any => "any character",
        CharSet::AsciiDigit => "`'0'..'9'`",
        CharSet::AsciiNonzeroDigit => "`'1'..'9'`",
        CharSet::AsciiBinDigit => "`'0'..'1'`",
        CharSet::AsciiOctDigit => "`'0'..'7'`",
        CharSet::AsciiHexDigit => "`'0'..'9'`, `'a'..'f'` or `'A'..'F'`",
        CharSet::AsciiAlphaLower => "`'a'..'z'`",
        CharSet::AsciiAlphaUpper => "`'A'..'Z'`",
        CharSet::AsciiAlpha => "`'a'..'z'` or `'A'..'Z'`",
        CharSet::AsciiAlphanumeric => "`'0'..'9'`, `'a'..'z'` or `'A'..'Z'`",
        CharSet::Ascii => "`'\\x00'..'\\x7F'`",
    }
}
