//! The tokens of W3C's EBNF, and the bytes that are written for them.
//!
//! A string has no escapes there: a quote is written between the other quotes, and a character that is not
//! shown by its number, as `#xa`. In a comment a blank comes before each slash, so no text ends it.
ghost use Rattle.std.specs.Prelude.{◌≡◌, ◌∷◌, ◌++◌, [], OnOk, codes, encode_utf8_all, string_bytes};
ghost use Rattle.doc_markup.specs.Ebnf.{bound_bytes, comment_bytes, comment_character, ebnf_bytes, ebnf_token_bytes, ebnf_word_text, either_case_bytes, is_plain, numbered, plain_bytes, plain_character};

use crate::escape::visible;
use std::alloc::AllocError;

/// A word of EBNF.
#[derive(Clone, Copy)]
pub enum EbnfWord {
    Bar,
    Blank,
    Open,
    Close,
    Optional,
    Star,
    Plus,
    /// The brackets and the middle of a range of characters.
    RangeStart,
    RangeMiddle,
    RangeEnd,
    /// A string of one `"`.
    DoubleQuote,
    /// The start of a comment, and of one on a tag.
    CommentStart,
    TagStart,
    CommentEnd,
    /// The end of a line, in any form.
    LineEnd,
}

/// A token of EBNF.
#[derive(Drop)]
pub enum EbnfToken<'t> {
    Word(EbnfWord),
    /// A text that is printed as it is: a name, or the plain characters of a string between quotes.
    Name(&'t str),
    String(&'t str),
    /// A character by its number.
    Numbered(char),
    /// A letter in both cases.
    EitherCase(char),
    /// A bound of a range of characters.
    Bound(char),
    /// A text in a comment.
    Comment(&'t str),
    /// A text in a comment that was composed.
    ComposedComment(String),
}

impl EbnfWord {
    /// The word as it is written.
    fn text(self) -> &'static str
        ensures { result.now ≡ ebnf_word_text self }
    {
        match self {
            EbnfWord::Bar => " | ",
            EbnfWord::Blank => " ",
            EbnfWord::Open => "(",
            EbnfWord::Close => ")",
            EbnfWord::Optional => "?",
            EbnfWord::Star => "*",
            EbnfWord::Plus => "+",
            EbnfWord::RangeStart => "[",
            EbnfWord::RangeMiddle => "-",
            EbnfWord::RangeEnd => "]",
            EbnfWord::DoubleQuote => "'\"'",
            EbnfWord::CommentStart => "/* ",
            EbnfWord::TagStart => "/* #",
            EbnfWord::CommentEnd => " */",
            EbnfWord::LineEnd => "(#xa | #xd #xa | #xd)",
        }
    }
}

/// Appends the bytes of tokens. The only error is an allocation failure.
pub fn push_ebnf(tokens: &[EbnfToken<'_>], page: &mut String) -> Result<(), AllocError>
    ensures { OnOk result (string_bytes page.new ≡ string_bytes page.old ++ ebnf_bytes tokens.now) }
{
    for token in tokens {
        push_token(token, page)?;
    }
    Ok(())
}

/// Appends the bytes of a token.
fn push_token(token: &EbnfToken<'_>, page: &mut String) -> Result<(), AllocError>
    ensures { OnOk result (string_bytes page.new ≡ string_bytes page.old ++ ebnf_token_bytes token.now) }
{
    match token {
        EbnfToken::Word(word) => page.push_str(word.text()),
        EbnfToken::Name(name) => push_plain(name, page),
        EbnfToken::String(text) => {
            page.push_str("\"")?;
            push_plain(text, page)?;
            page.push_str("\"")
        }
        EbnfToken::Numbered(character) => push_numbered(*character, page),
        EbnfToken::EitherCase(letter) => push_either_case(*letter, page),
        EbnfToken::Bound(character) => push_bound(*character, page),
        EbnfToken::Comment(text) => push_comment(text, page),
        EbnfToken::ComposedComment(text) => push_comment(text.as_str(), page),
    }
}

/// Returns whether a character is printed as it is in a string: if it is visible and not `"`.
pub fn is_plain(character: char) -> bool
    ensures { result ≡ is_plain character }
{
    !matches!(character, '\t' | '\n' | '"') && visible(character) == character
}

/// Appends the plain characters of a text.
pub(crate) fn push_plain(text: &str, page: &mut String) -> Result<(), AllocError>
    ensures { OnOk result (string_bytes page.new ≡ string_bytes page.old ++ plain_bytes text.now) }
{
    for character in text.chars() {
        push_plain_character(character, page)?;
    }
    Ok(())
}

/// Appends a character, if it is plain.
fn push_plain_character(character: char, page: &mut String) -> Result<(), AllocError>
    ensures { OnOk result (string_bytes page.new
        ≡ string_bytes page.old ++ encode_utf8_all (plain_character character)) }
{
    if is_plain(character) {
        page.push(character)
    } else {
        Ok(())
    }
}

/// Appends a character by its number.
fn push_numbered(character: char, page: &mut String) -> Result<(), AllocError>
    ensures { OnOk result (string_bytes page.new ≡ string_bytes page.old ++ numbered character) }
{
    write!(page, "#x{:x}", u32::from(character))
}

/// Appends a letter in both cases, as `[Aa]`.
fn push_either_case(letter: char, page: &mut String) -> Result<(), AllocError>
    ensures { OnOk result (string_bytes page.new ≡ string_bytes page.old ++ either_case_bytes letter) }
{
    page.push_str("[")?;
    push_bound(letter.to_ascii_uppercase(), page)?;
    push_bound(letter.to_ascii_lowercase(), page)?;
    page.push_str("]")
}

/// Appends a bound of a range of characters: a letter or a digit as itself, and others by their numbers.
fn push_bound(character: char, page: &mut String) -> Result<(), AllocError>
    ensures { OnOk result (string_bytes page.new ≡ string_bytes page.old ++ bound_bytes character) }
{
    if character.is_ascii_alphanumeric() {
        page.push(character)
    } else {
        push_numbered(character, page)
    }
}

/// Appends a text in a comment. The only error is an allocation failure.
pub fn push_comment(text: &str, page: &mut String) -> Result<(), AllocError>
    ensures { OnOk result (string_bytes page.new ≡ string_bytes page.old ++ comment_bytes text.now) }
{
    for character in text.chars() {
        push_comment_character(character, page)?;
    }
    Ok(())
}

/// Appends a character of a comment.
fn push_comment_character(character: char, page: &mut String) -> Result<(), AllocError>
    ensures { OnOk result (string_bytes page.new
        ≡ string_bytes page.old ++ encode_utf8_all (comment_character character)) }
{
    match character {
        '/' => page.push_str(" /"),
        _ => page.push(visible(character)),
    }
}
