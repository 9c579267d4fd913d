//! Expressions in EBNF, iteratively, with a stack of steps.
use base_ast::ast::Expr;
use doc_markup::{EbnfToken, EbnfWord, is_plain};
use front_names::{Builtin, CharSet};
use std::alloc::{AllocError, Global};
use std::collections::HashMap;

/// The place of an expression in another one.
#[derive(Clone, Copy)]
enum TermContext {
    /// As a whole, or as an alternative.
    Alternative,
    /// As an item of a sequence.
    Item,
    /// Before an operator.
    Operand,
}

impl TermContext {
    /// Whether an operator follows.
    fn is_operand(self) -> bool {
        matches!(self, TermContext::Operand)
    }
}

/// A step of the walk.
#[derive(Drop)]
enum TermStep<'e> {
    Visit(&'e Expr, TermContext),
    Token(EbnfToken<'e>),
}

/// The tokens so far.
#[derive(Drop)]
struct TermWriter<'e> {
    alloc: Global,
    tokens: Vec<EbnfToken<'e>>,
    /// The steps that are still to be done, the next one last.
    steps: Vec<TermStep<'e>>,
}

/// Returns the tokens of an expression. The only error is an allocation failure.
pub fn expression_tokens<'e>(
    alloc: Global,
    expr: &'e Expr,
    numbers: &HashMap<String, usize>,
) -> Result<Vec<EbnfToken<'e>>, AllocError> {
    let mut writer = TermWriter {
        alloc,
        tokens: Vec::new(alloc),
        steps: Vec::new(alloc),
    };
    writer.later(TermStep::Visit(expr, TermContext::Alternative))?;
    for _ in 0..u64::MAX {
        let Some(step) = writer.steps.pop() else {
            break;
        };
        writer.run(step, numbers)?;
    }
    let TermWriter { tokens, .. } = writer;
    Ok(tokens)
}

impl<'e> TermWriter<'e> {
    /// Runs a step.
    fn run(
        &mut self,
        step: TermStep<'e>,
        numbers: &HashMap<String, usize>,
    ) -> Result<(), AllocError> {
        match step {
            TermStep::Token(token) => self.token(token),
            TermStep::Visit(expr, context) => self.visit(expr, context, numbers),
        }
    }

    /// Writes an expression, or adds the steps that write it.
    fn visit(
        &mut self,
        expr: &'e Expr,
        context: TermContext,
        numbers: &HashMap<String, usize>,
    ) -> Result<(), AllocError> {
        match expr {
            Expr::Str(text) => self.literal(text.as_str(), context),
            Expr::Insens(text) => self.either_case(text.as_str(), context),
            Expr::Range(first, last) => self.range(first.as_str(), last.as_str()),
            Expr::Ident(name) => self.call(name.as_str(), context, numbers),
            Expr::Seq(left, right) => {
                self.open(context.is_operand())?;
                self.later(TermStep::Visit(right, TermContext::Item))?;
                self.word_later(EbnfWord::Blank)?;
                self.later(TermStep::Visit(left, TermContext::Item))
            }
            Expr::Choice(left, right) => {
                self.open(!matches!(context, TermContext::Alternative))?;
                self.later(TermStep::Visit(right, TermContext::Alternative))?;
                self.word_later(EbnfWord::Bar)?;
                self.later(TermStep::Visit(left, TermContext::Alternative))
            }
            Expr::Push(inner) => { self.remark_on(EbnfWord::CommentStart, "PUSH", inner, context) }
            Expr::NodeTag(inner, tag) => {
                self.remark_on(EbnfWord::TagStart, tag.as_str(), inner, context)
            }
            _ => self.repetition(expr, context),
        }
    }

    /// Writes a repetition, or in a comment an expression that has no counterpart.
    fn repetition(&mut self, expr: &'e Expr, context: TermContext) -> Result<(), AllocError> {
        match expr {
            Expr::Opt(inner) => self.postfix(inner, EbnfWord::Optional, Times::Plain, context),
            Expr::Rep(inner) => self.postfix(inner, EbnfWord::Star, Times::Plain, context),
            Expr::RepOnce(inner) => self.postfix(inner, EbnfWord::Plus, Times::Plain, context),
            Expr::RepExact(inner, n) => self.repeat(inner, *n, Times::Exactly(*n), context),
            Expr::RepMin(inner, 0) => self.postfix(inner, EbnfWord::Star, Times::Plain, context),
            Expr::RepMin(inner, n) => self.repeat(inner, *n, Times::AtLeast(*n), context),
            Expr::RepMax(inner, n) => self.repeat(inner, 0, Times::AtMost(*n), context),
            Expr::RepMinMax(inner, m, n) => {
                self.repeat(inner, *m, Times::Between(*m, *n), context)
            }
            _ => {
                self.open(context.is_operand())?;
                self.remark(expr)
            }
        }
    }

    /// Writes an expression that has no counterpart, as it is printed, in a comment.
    fn remark(&mut self, expr: &Expr) -> Result<(), AllocError> {
        let printed = expr.to_string(self.alloc)?;
        self.comment(EbnfToken::ComposedComment(printed))
    }

    /// Writes a comment.
    fn comment(&mut self, text: EbnfToken<'e>) -> Result<(), AllocError> {
        self.word(EbnfWord::CommentStart)?;
        self.token(text)?;
        self.word(EbnfWord::CommentEnd)
    }

    /// Writes an operand after a comment.
    fn remark_on(
        &mut self,
        start: EbnfWord,
        remark: &'e str,
        operand: &'e Expr,
        context: TermContext,
    ) -> Result<(), AllocError> {
        self.open(context.is_operand())?;
        self.word(start)?;
        self.token(EbnfToken::Comment(remark))?;
        self.word(EbnfWord::CommentEnd)?;
        self.word(EbnfWord::Blank)?;
        self.later(TermStep::Visit(operand, TermContext::Item))
    }

    /// Writes a repetition of at least so often, with a comment on how often.
    fn repeat(
        &mut self,
        operand: &'e Expr,
        least: u32,
        times: Times,
        context: TermContext,
    ) -> Result<(), AllocError> {
        let sign = if least == 0 {
            EbnfWord::Star
        } else {
            EbnfWord::Plus
        };
        self.postfix(operand, sign, times, context)
    }

    /// Writes an operand with a sign after it, and a comment on how often it is repeated.
    fn postfix(
        &mut self,
        operand: &'e Expr,
        sign: EbnfWord,
        times: Times,
        context: TermContext,
    ) -> Result<(), AllocError> {
        self.open(context.is_operand())?;
        if let Some(text) = times.text(self.alloc)? {
            self.word_later(EbnfWord::CommentEnd)?;
            self.later(TermStep::Token(EbnfToken::ComposedComment(text)))?;
            self.word_later(EbnfWord::CommentStart)?;
            self.word_later(EbnfWord::Blank)?;
        }
        self.word_later(sign)?;
        self.later(TermStep::Visit(operand, TermContext::Operand))
    }

    /// Writes a call of a rule, a builtin as a class of characters, or another builtin in a comment.
    fn call(
        &mut self,
        name: &'e str,
        context: TermContext,
        numbers: &HashMap<String, usize>,
    ) -> Result<(), AllocError> {
        if numbers.contains_key(name) {
            return self.token(EbnfToken::Name(name));
        }
        match Builtin::from_name(name) {
            Some(Builtin::Newline) => self.word(EbnfWord::LineEnd),
            Some(Builtin::Set(set)) => self.class(ranges_of(set)),
            _ => {
                self.open(context.is_operand())?;
                self.comment(EbnfToken::Comment(name))
            }
        }
    }

    /// Writes a class of characters.
    fn class(&mut self, ranges: &[(char, char)]) -> Result<(), AllocError> {
        self.word(EbnfWord::RangeStart)?;
        for (first, last) in ranges {
            self.bounds(*first, *last)?;
        }
        self.word(EbnfWord::RangeEnd)
    }

    /// Writes a range between the first characters of two texts.
    fn range(&mut self, first: &str, last: &str) -> Result<(), AllocError> {
        self.word(EbnfWord::RangeStart)?;
        if let (Some(first), Some(last)) = (first.chars().next(), last.chars().next()) {
            self.bounds(first, last)?;
        }
        self.word(EbnfWord::RangeEnd)
    }

    /// Writes the bounds of a range.
    fn bounds(&mut self, first: char, last: char) -> Result<(), AllocError> {
        self.token(EbnfToken::Bound(first))?;
        self.word(EbnfWord::RangeMiddle)?;
        self.token(EbnfToken::Bound(last))
    }

    /// Writes a literal: strings of plain characters, and other characters between them.
    fn literal(&mut self, text: &'e str, context: TermContext) -> Result<(), AllocError> {
        let has_parentheses = context.is_operand() && !is_string(text);
        self.open(has_parentheses)?;
        if text.is_empty() {
            self.token(EbnfToken::String(text))?;
        }
        let mut rest = text;
        for place in 0..text.len() {
            if rest.is_empty() {
                break;
            }
            if place > 0 {
                self.word(EbnfWord::Blank)?;
            }
            rest = self.part(rest)?;
        }
        Ok(())
    }

    /// Writes the first string of plain characters of a text, or its first character, and returns the rest.
    fn part(&mut self, text: &'e str) -> Result<&'e str, AllocError> {
        let end = text.find(|c: char| !is_plain(c)).unwrap_or(text.len());
        let (plain, rest) = text.split_at(end);
        if !plain.is_empty() {
            self.token(EbnfToken::String(plain))?;
            return Ok(rest);
        }
        let mut others = rest.chars();
        match others.next() {
            Some('"') => self.word(EbnfWord::DoubleQuote)?,
            Some(character) => self.token(EbnfToken::Numbered(character))?,
            None => {}
        }
        Ok(others.as_str())
    }

    /// Writes a text that is matched in either case, letter by letter.
    fn either_case(&mut self, text: &'e str, context: TermContext) -> Result<(), AllocError> {
        self.open(context.is_operand())?;
        if text.is_empty() {
            self.token(EbnfToken::String(text))?;
        }
        for (place, character) in text.chars().enumerate() {
            if place > 0 {
                self.word(EbnfWord::Blank)?;
            }
            self.letter(character)?;
        }
        Ok(())
    }

    /// Writes a character that is matched in either case.
    fn letter(&mut self, character: char) -> Result<(), AllocError> {
        if character.is_ascii_alphabetic() {
            self.token(EbnfToken::EitherCase(character))
        } else {
            self.token(EbnfToken::Numbered(character))
        }
    }

    /// Writes a parenthesis, and adds the step that closes it, if there is to be one.
    fn open(&mut self, has_parentheses: bool) -> Result<(), AllocError> {
        if has_parentheses {
            self.word(EbnfWord::Open)?;
            self.word_later(EbnfWord::Close)?;
        }
        Ok(())
    }

    /// Writes a token.
    fn token(&mut self, token: EbnfToken<'e>) -> Result<(), AllocError> {
        self.tokens.push(token)?;
        Ok(())
    }

    /// Writes a word.
    fn word(&mut self, word: EbnfWord) -> Result<(), AllocError> {
        self.token(EbnfToken::Word(word))
    }

    /// Adds a step.
    fn later(&mut self, step: TermStep<'e>) -> Result<(), AllocError> {
        self.steps.push(step)?;
        Ok(())
    }

    /// Adds the step of a word.
    fn word_later(&mut self, word: EbnfWord) -> Result<(), AllocError> {
        self.later(TermStep::Token(EbnfToken::Word(word)))
    }
}

/// How often an operand is repeated.
#[derive(Clone, Copy)]
enum Times {
    /// As its sign says.
    Plain,
    Exactly(u32),
    AtLeast(u32),
    AtMost(u32),
    Between(u32, u32),
}

impl Times {
    /// Returns the number of repetitions in words, if the sign does not say it.
    fn text(self, alloc: Global) -> Result<Option<String>, AllocError> {
        match self {
            Times::Plain => Ok(None),
            Times::Exactly(n) => Ok(Some(format!(in alloc; "{n} times")?)),
            Times::AtLeast(n) => Ok(Some(format!(in alloc; "{n} times or more")?)),
            Times::AtMost(n) => Ok(Some(format!(in alloc; "up to {n} times")?)),
            Times::Between(m, n) => Ok(Some(format!(in alloc; "{m} to {n} times")?)),
        }
    }
}

/// Whether a text is one string of EBNF.
fn is_string(text: &str) -> bool {
    text.chars().all(|c| is_plain(c))
}

/// The ranges of the characters of a set.
fn ranges_of(set: CharSet) -> &'static [(char, char)] {
    match set {
        CharSet::Any => &[('\0', '\u{10ffff}')],
        CharSet::Ascii => &[('\0', '\u{7f}')],
        CharSet::AsciiDigit => &[('0', '9')],
        CharSet::AsciiNonzeroDigit => &[('1', '9')],
        CharSet::AsciiBinDigit => &[('0', '1')],
        CharSet::AsciiOctDigit => &[('0', '7')],
        CharSet::AsciiHexDigit => &[('0', '9'), ('a', 'f'), ('A', 'F')],
        CharSet::AsciiAlphaLower => &[('a', 'z')],
        CharSet::AsciiAlphaUpper => &[('A', 'Z')],
        CharSet::AsciiAlpha => &[('a', 'z'), ('A', 'Z')],
        CharSet::AsciiAlphanumeric => &[('a', 'z'), ('A', 'Z'), ('0', '9')],
    }
}
