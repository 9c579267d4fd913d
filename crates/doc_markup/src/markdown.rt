//! The tokens of Markdown, and the bytes that are written for them.
//!
//! As in markup, texts of a grammar occur in tokens that are escaped alone. Escaped is each ASCII
//! punctuation character, by a backslash; in a block of code each line is indented by four blanks instead,
//! and none can end it.
ghost use Rattle.std.specs.Prelude.{◌≡◌, ◌++◌, OnOk, encode_utf8_all, string_bytes};
ghost use Rattle.doc_markup.specs.Markdown.{code_bytes, code_character, inline_bytes, inline_character, markdown_bytes, markdown_token_bytes, rule_link_bytes, word_text};

use crate::escape::{push_escaped, visible};
use std::alloc::AllocError;

/// A word of Markdown, or of the HTML in it.
#[derive(Clone, Copy)]
pub enum MarkdownWord {
    /// The start of an item of a list.
    Item,
    /// The start of a block of code.
    CodeBlock,
    /// The start and the end of code in a line.
    CodeStart,
    CodeEnd,
    /// The mark at the start and the end of emphasis.
    Emphasis,
    LineFeed,
    /// The end of a block: two line feeds.
    BlockEnd,
    Comma,
    UsedIn,
    NoOtherRule,
    Implicitly,
    BeginsWith,
    AndMore,
    MayMatchNothing,
    Warning,
    Colon,
}

/// A token of Markdown.
#[derive(Drop)]
pub enum MarkdownToken<'t> {
    Word(MarkdownWord),
    /// A text in a line, escaped.
    Text(&'t str),
    /// A text in a line that was composed, escaped.
    Label(String),
    /// A text in a block of code, its lines after the first indented.
    Code(&'t str),
    /// A link to the rule of this number that shows its name, or nothing if there is no such rule.
    RuleLink(usize),
}

impl MarkdownWord {
    /// The word as it is written.
    fn text(self) -> &'static str
        ensures { result.now ≡ word_text self }
    {
        match self {
            MarkdownWord::Item => "- ",
            MarkdownWord::CodeBlock => "    ",
            MarkdownWord::CodeStart => "<code>",
            MarkdownWord::CodeEnd => "</code>",
            MarkdownWord::Emphasis => "*",
            MarkdownWord::LineFeed => "\n",
            MarkdownWord::BlockEnd => "\n\n",
            MarkdownWord::Comma => ", ",
            MarkdownWord::UsedIn => "Used in: ",
            MarkdownWord::NoOtherRule => "no other rule",
            MarkdownWord::Implicitly => "sequences and repetitions, implicitly",
            MarkdownWord::BeginsWith => "Begins with: ",
            MarkdownWord::AndMore => " and more",
            MarkdownWord::MayMatchNothing => "May match nothing",
            MarkdownWord::Warning => "Warning: ",
            MarkdownWord::Colon => ": ",
        }
    }
}

/// Appends the bytes of tokens. `names` has the names of the rules. The only error is an allocation failure.
pub fn push_markdown(
    tokens: &[MarkdownToken<'_>],
    names: &[&str],
    page: &mut String,
) -> Result<(), AllocError>
    ensures { OnOk result (string_bytes page.new
        ≡ string_bytes page.old ++ markdown_bytes names.now tokens.now) }
{
    for token in tokens {
        push_token(token, names, page)?;
    }
    Ok(())
}

/// Appends the bytes of a token.
fn push_token(
    token: &MarkdownToken<'_>,
    names: &[&str],
    page: &mut String,
) -> Result<(), AllocError>
    ensures { OnOk result (string_bytes page.new
        ≡ string_bytes page.old ++ markdown_token_bytes names.now token.now) }
{
    match token {
        MarkdownToken::Word(word) => page.push_str(word.text()),
        MarkdownToken::Text(text) => push_inline(text, page),
        MarkdownToken::Label(text) => push_inline(text.as_str(), page),
        MarkdownToken::Code(text) => push_code(text, page),
        MarkdownToken::RuleLink(rule) => push_rule_link(names.get(*rule).copied(), page),
    }
}

/// Appends a link to a name.
fn push_rule_link(name: Option<&str>, page: &mut String) -> Result<(), AllocError>
    ensures { OnOk result (string_bytes page.new ≡ string_bytes page.old ++ rule_link_bytes name.entry) }
{
    match name {
        Some(name) => {
            page.push_str("[")?;
            push_inline(name, page)?;
            page.push_str("](#")?;
            push_inline(name, page)?;
            page.push_str(")")
        }
        None => Ok(()),
    }
}

/// Appends a text in a line, escaped. The only error is an allocation failure.
pub fn push_inline(text: &str, page: &mut String) -> Result<(), AllocError>
    ensures { OnOk result (string_bytes page.new ≡ string_bytes page.old ++ inline_bytes text.now) }
{
    for character in text.chars() {
        push_inline_character(character, page)?;
    }
    Ok(())
}

/// Appends a character of a text in a line, escaped.
fn push_inline_character(character: char, page: &mut String) -> Result<(), AllocError>
    ensures { OnOk result (string_bytes page.new
        ≡ string_bytes page.old ++ encode_utf8_all (inline_character character)) }
{
    match character {
        '\t' | '\n' => page.push(' '),
        '!'..='/' | ':'..='@' | '['..='`' | '{'..='~' => {
            page.push('\\')?;
            page.push(character)
        }
        _ => page.push(visible(character)),
    }
}

/// Appends a text in a block of code, its lines after the first indented. The only error is an allocation
/// failure.
pub fn push_code(text: &str, page: &mut String) -> Result<(), AllocError>
    ensures { OnOk result (string_bytes page.new ≡ string_bytes page.old ++ code_bytes text.now) }
{
    for character in text.chars() {
        push_code_character(character, page)?;
    }
    Ok(())
}

/// Appends a character of a block of code.
fn push_code_character(character: char, page: &mut String) -> Result<(), AllocError>
    ensures { OnOk result (string_bytes page.new
        ≡ string_bytes page.old ++ encode_utf8_all (code_character character)) }
{
    match character {
        '\n' => page.push_str("\n    "),
        _ => page.push(visible(character)),
    }
}
