//! The formatter of grammars.
#![tactic(auto)]

ghost use Rattle.std.specs.Prelude.{◌≡◌, IfOk, MatchResult, true};
ghost use Rattle.base_language.specs.declared.grammar.Rule.TheVariants.{grammar_rules};
ghost use Rattle.front_syntax.specs.Parses.{ParseRefuses};
ghost use Rattle.front_syntax.specs.declared.events.TokenEvent.TheVariants.{End};
ghost use Rattle.format_grammar.specs.Formatting.{AreTokens, IsAnswer, IsFormatted, SameComments, SameTokens};
ghost use Rattle.format_grammar.specs.Reading.{SameRules};
ghost use Rattle.format_grammar.specs.Tokens as token;
ghost use Rattle.format_grammar.specs.declared.LineEnds.TheVariants.{LineFeed};

mod builder;
mod comparison;
mod contents;
mod forms;
mod gaps;
pub mod laws;
mod layout;
mod operators;
mod pieces;
mod spacing;

use crate::builder::{Builder, build};
use crate::comparison::{ends_once, has_clean_lines, is_same};
use crate::laws::same_tokens_have_the_same_rules;
use crate::layout::{Style, print};
use base_language::grammar::Rule;
use base_language::runtime::Fault;
use front_syntax::events::TokenEvent;
use front_syntax::grammar::PestParser;
use std::alloc::{AllocError, Global};

/// The line ends of formatted texts.
#[derive(Clone, Copy, PartialEq, Eq)]
pub enum LineEnds {
    /// Line feeds.
    LineFeed,
    /// The line end of the text's first line: a line feed, or a carriage return and a line feed.
    OfFirstLine,
}

/// The options of the formatter.
#[derive(Clone, Copy)]
pub struct Options {
    /// The greatest number of columns of a line that can be broken.
    pub width: usize,
    /// The number of columns of one level of indentation.
    pub indent: usize,
    pub line_ends: LineEnds,
}

impl Default for Options {
    ghost is_default = { λ options. (options.width ≡ 100) × (options.indent ≡ 4)
        × (options.line_ends ≡ LineFeed) };

    /// Returns the default options: a width of 100 columns, an indentation of four columns, and
    /// line feeds.
    fn default() -> Options {
        Options {
            width: 100,
            indent: 4,
            line_ends: LineEnds::LineFeed,
        }
    }
}

/// The result of formatting.
#[derive(Drop)]
pub enum Formatted {
    /// The formatted text.
    Text(String),
    /// The printed text failed the check of tokens, comments and line ends. So the given text should stay as
    /// it is.
    Unchanged,
}

/// Formats the grammar `text`. The formatted text has the same tokens as `text`. A comment stays
/// between the same two tokens, if infix operators are not counted: a comment may move to the other
/// side of an operator. Of the comments, only blanks at the ends of lines are removed. The
/// formatted text is empty, or ends with one line feed. If `options` asks for line feeds, no line
/// outside of literals ends with a blank.
///
/// If the printed text fails the check of these facts, `Formatted::Unchanged` is returned.
///
/// Names need not be defined. If `PestParser::parse` accepts `text` for `grammar_rules`, the result is not
/// `Fault::Grammar`.
///
/// # Errors
/// - `Fault::Grammar` with the error of `PestParser::parse`, if the text is no grammar.
/// - `Fault::Memory` if an allocation fails.
pub fn format(alloc: Global, text: &str, options: Options) -> Result<Formatted, Fault>
    ensures { MatchResult result (IsAnswer options.line_ends text.now)
        (ParseRefuses grammar_rules text.now) }
{
    let events = PestParser::tokens(alloc, Rule::grammar_rules, text)?;
    let candidate = print_grammar(alloc, text, &events, options)?;
    if is_formatted(alloc, text, &events, candidate.as_str(), options.line_ends)? {
        Ok(Formatted::Text(candidate))
    } else {
        Ok(Formatted::Unchanged)
    }
}

/// Returns the printed text of the grammar `text` with the tokens `entries`, by `options`. The
/// caller checks the result.
fn print_grammar(
    alloc: Global,
    text: &str,
    events: &[TokenEvent],
    options: Options,
) -> Result<String, AllocError> {
    let Builder {
        pieces,
        mut items,
        ..
    } = build(alloc, text, events)?;
    let style = Style {
        width: options.width,
        indent: options.indent,
        line_end: line_end_of(text, options.line_ends),
    };
    print(alloc, text, &pieces, &mut items, style)
}

/// Returns the line end that the options ask for.
fn line_end_of(text: &str, line_ends: LineEnds) -> &'static str {
    match (line_ends, text.split_once('\n')) {
        (LineEnds::OfFirstLine, Some((line, _))) if line.ends_with('\r') => "\r\n",
        _ => "\n",
    }
}

/// Returns whether the text of a grammar with these tokens may stay as it is.
#[tactic(auto, using(crate::proofs::Unchanged::its_own))]
fn is_its_own(text: &str, events: &[TokenEvent], line_ends: LineEnds) -> bool
    requires { AreTokens text.now events.now }
    ensures { result ≡ true → IsFormatted line_ends text.now text.now }
{
    let bytes = text.as_bytes();
    has_lines(bytes, events, line_ends) && ends_once(bytes)
}

/// Returns whether a text is the formatted text of a grammar with these tokens. An equal text is not read
/// again.
fn is_formatted(
    alloc: Global,
    text: &str,
    events: &[TokenEvent],
    candidate: &str,
    line_ends: LineEnds,
) -> Result<bool, AllocError>
    requires { AreTokens text.now events.now }
    ensures { IfOk result (λ answer. answer ≡ true → IsFormatted line_ends text.now candidate.now) }
{
    if candidate == text {
        Ok(is_its_own(text, events, line_ends))
    } else {
        is_equivalent(alloc, text, events, candidate, line_ends)
    }
}

/// Reads a text, and returns whether it is the formatted text of a grammar with these tokens.
fn is_equivalent(
    alloc: Global,
    text: &str,
    events: &[TokenEvent],
    candidate: &str,
    line_ends: LineEnds,
) -> Result<bool, AllocError>
    requires { AreTokens text.now events.now }
    ensures { IfOk result (λ answer. answer ≡ true → IsFormatted line_ends text.now candidate.now) }
{
    let others = match PestParser::tokens(alloc, Rule::grammar_rules, candidate) {
        Ok(others) => others,
        Err(Fault::Grammar(_)) => return Ok(false),
        Err(Fault::Memory(error)) => return Err(error),
    };
    let bytes = candidate.as_bytes();
    if !has_lines(bytes, &others, line_ends) || !ends_once(bytes) {
        return Ok(false);
    }
    is_same_grammar(alloc, text, events, candidate, &others)
}

/// Returns whether two grammars have the same tokens and the same comments. Their rules are the same then,
/// and are not read.
fn is_same_grammar(
    alloc: Global,
    text: &str,
    events: &[TokenEvent],
    other: &str,
    others: &[TokenEvent],
) -> Result<bool, AllocError>
    requires text { AreTokens text.now events.now }
    requires other { AreTokens other.now others.now }
    ensures tokens { IfOk result (λ same. same ≡ true
        → SameTokens text.now events.now other.now others.now) }
    ensures comments { IfOk result (λ same. same ≡ true
        → SameComments text.now events.now other.now others.now) }
    ensures rules { IfOk result (λ same. same ≡ true → SameRules text.now other.now) }
{
    same_tokens_have_the_same_rules();
    let bytes = text.as_bytes();
    let other_bytes = other.as_bytes();
    is_same(alloc, bytes, events, other_bytes, others)
}

/// Returns whether no line outside of literals ends with a blank, if lines are to end with line feeds.
fn has_lines(text: &[u8], events: &[TokenEvent], line_ends: LineEnds) -> bool
    ensures { result ≡ true → line_ends ≡ LineFeed
        → token.has_clean_lines text.now (End 0 0) events.now ≡ true }
{
    match line_ends {
        LineEnds::LineFeed => has_clean_lines(text, events),
        LineEnds::OfFirstLine => true,
    }
}
