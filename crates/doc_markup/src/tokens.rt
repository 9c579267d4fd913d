//! The tokens of markup, and the bytes that are written for them.
//!
//! Markup itself is one of a fixed set of words. Texts of a grammar occur in tokens that are escaped alone,
//! and a link refers to a rule by its number, so that it cannot lead anywhere else.
ghost use Rattle.std.specs.Prelude.{◌≡◌, ◌++◌, OnOk, codes, string_bytes};
ghost use Rattle.doc_markup.specs.Escape.{escaped_bytes};
ghost use Rattle.doc_markup.specs.Tokens.{link_bytes, markup_bytes, name_bytes, token_bytes};

use crate::escape::push_escaped;
use crate::template::{diagram_style, namespace};
use crate::vocabulary::{Attribute, Class, PathCommand, Tag};
use std::alloc::AllocError;

/// A token of markup.
#[derive(Drop)]
pub enum Markup<'t> {
    /// The start of a tag: `<a`.
    Open(Tag),
    /// The end of a tag: `>`.
    TagEnd,
    /// The end of the tag of an element without content: `/>`.
    EmptyTagEnd,
    /// An end tag: `</a>`.
    Close(Tag),
    /// An attribute up to its value: ` x="`.
    Attribute(Attribute),
    /// The end of an attribute's value.
    Quote,
    /// A class attribute.
    Class(Class),
    /// The attributes of a drawing.
    Namespace,
    /// An element with the style of diagrams.
    Style,
    /// A line feed.
    LineFeed,
    /// A command of a path.
    Command(PathCommand),
    /// A number, in decimal.
    Number(u64),
    /// A text, escaped.
    Text(&'t str),
    /// A text that was composed, escaped.
    Label(String),
    /// The name of the rule of this number, escaped, or nothing if there is no such rule.
    RuleName(usize),
    /// An attribute that links to the rule of this number, or nothing if there is no such rule.
    Link(usize),
}

/// Appends the bytes of tokens. `names` has the names of the rules. The only error is an allocation failure.
pub fn push_markup(
    tokens: &[Markup<'_>],
    names: &[&str],
    page: &mut String,
) -> Result<(), AllocError>
    ensures { OnOk result (string_bytes page.new
        ≡ string_bytes page.old ++ markup_bytes names.now tokens.now) }
{
    for token in tokens {
        push_token(token, names, page)?;
    }
    Ok(())
}

/// Appends the bytes of a token.
fn push_token(token: &Markup<'_>, names: &[&str], page: &mut String) -> Result<(), AllocError>
    ensures { OnOk result (string_bytes page.new ≡ string_bytes page.old ++ token_bytes names.now token.now) }
{
    match token {
        Markup::Open(tag) => push_three("<", tag.name(), "", page),
        Markup::TagEnd => page.push_str(">"),
        Markup::EmptyTagEnd => page.push_str("/>"),
        Markup::Close(tag) => push_three("</", tag.name(), ">", page),
        Markup::Attribute(attribute) => push_three(" ", attribute.name(), "=\"", page),
        Markup::Quote => page.push_str("\""),
        Markup::Class(class) => push_three(" class=\"", class.name(), "\"", page),
        Markup::Namespace => page.push_str(namespace()),
        Markup::Style => push_three("<style>\n", diagram_style(), "</style>\n", page),
        Markup::LineFeed => page.push_str("\n"),
        Markup::Command(command) => page.push_str(command.text()),
        Markup::Number(number) => write!(page, "{number}"),
        Markup::Text(text) => push_escaped(text, page),
        Markup::Label(text) => push_escaped(text.as_str(), page),
        Markup::RuleName(rule) => push_name(names.get(*rule).copied(), page),
        Markup::Link(rule) => push_link(names.get(*rule).copied(), page),
    }
}

/// Appends a name, escaped.
fn push_name(name: Option<&str>, page: &mut String) -> Result<(), AllocError>
    ensures { OnOk result (string_bytes page.new ≡ string_bytes page.old ++ name_bytes name.entry) }
{
    match name {
        Some(name) => push_escaped(name, page),
        None => Ok(()),
    }
}

/// Appends a link to a name.
fn push_link(name: Option<&str>, page: &mut String) -> Result<(), AllocError>
    ensures { OnOk result (string_bytes page.new ≡ string_bytes page.old ++ link_bytes name.entry) }
{
    match name {
        Some(name) => {
            page.push_str(" href=\"#")?;
            push_escaped(name, page)?;
            page.push_str("\"")
        }
        None => Ok(()),
    }
}

/// Appends three texts.
fn push_three(start: &str, middle: &str, end: &str, page: &mut String) -> Result<(), AllocError>
    ensures { OnOk result (string_bytes page.new
        ≡ string_bytes page.old ++ start.now ++ middle.now ++ end.now) }
{
    page.push_str(start)?;
    page.push_str(middle)?;
    page.push_str(end)
}
