//! Builds the pieces of a grammar from its tokens.
use crate::forms::{ExpressionForm, find_forms};
use crate::gaps::{Comment, Gap, find_line_feed, has_line_end, scan_gap, trim_end};
use crate::operators::{count_moved, move_comments, stay_after};
use crate::pieces::{Fill, Item, ItemKind, Piece, Separator};
use base_language::grammar::Rule;
use front_syntax::events::TokenEvent;
use std::alloc::{AllocError, Global};

/// An expression that is not yet complete.
#[derive(Clone, Copy)]
struct OpenExpression {
    form: ExpressionForm,
    /// Whether one of its alternatives is open.
    in_alternative: bool,
    /// Whether nothing of the expression was read.
    is_fresh: bool,
}

/// The pieces of the tokens read so far.
#[derive(Drop)]
pub struct Builder<'t> {
    text: &'t str,
    pub pieces: Vec<Piece>,
    pub items: Vec<Item>,
    /// The byte after the last word.
    cursor: usize,
    /// The separator between the last word and the next one.
    after: Separator,
    /// Whether the last word opened braces or parentheses.
    is_opening: bool,
    /// How many alternatives start with the next word.
    starting: usize,
    expressions: Vec<OpenExpression>,
    /// For each open parenthesis, whether it is a group.
    parentheses: Vec<bool>,
    /// Whether the next parentheses hold a literal alone.
    holds_literal: bool,
    /// Whether a blank follows the next comma.
    has_two_counts: bool,
    /// The number of the first event that is not yet written.
    next: usize,
}

/// A token.
#[derive(Clone, Copy)]
struct Token {
    rule: Rule,
    /// Its first byte.
    pos: usize,
    /// The byte after it.
    end: usize,
    /// The number of its last event.
    last: usize,
    /// The byte of the event after that.
    next: usize,
}

/// Returns the byte of the event of a number, or this byte.
fn position_of(events: &[TokenEvent], i: usize, pos: usize) -> usize {
    match events.get(i) {
        Some(TokenEvent::Start { pos, .. }) => *pos,
        Some(TokenEvent::End { pos, .. }) => *pos,
        None => pos,
    }
}

/// Builds the pieces of a grammar with these tokens.
pub fn build<'t>(
    alloc: Global,
    text: &'t str,
    events: &[TokenEvent],
) -> Result<Builder<'t>, AllocError> {
    let forms = find_forms(alloc, text, events)?;
    let mut builder = Builder {
        text,
        pieces: Vec::new(alloc),
        items: Vec::new(alloc),
        cursor: 0,
        after: Separator::Nothing,
        is_opening: false,
        starting: 0,
        expressions: Vec::new(alloc),
        parentheses: Vec::new(alloc),
        holds_literal: false,
        has_two_counts: false,
        next: 0,
    };
    for i in 0..events.len() {
        if i < builder.next {
            continue;
        }
        match events[i] {
            TokenEvent::Start { rule, pos, partner } => {
                let end = position_of(events, partner, pos);
                let token = Token {
                    rule,
                    pos,
                    end,
                    last: partner,
                    next: position_of(events, partner.saturating_add(1), end),
                };
                builder.start(
                    alloc,
                    token,
                    forms.get(i).copied().unwrap_or(ExpressionForm::Sequence),
                )?;
            }
            TokenEvent::End { partner, .. } => {
                if let Some(
                    TokenEvent::Start {
                        rule: Rule::expression,
                        ..
                    },
                ) = events.get(partner)
                {
                    builder.end_expression()?;
                }
            }
        }
    }
    Ok(builder)
}

impl<'t> Builder<'t> {
    /// Reads the start of a token; `form` is that of an expression.
    fn start(
        &mut self,
        alloc: Global,
        token: Token,
        form: ExpressionForm,
    ) -> Result<(), AllocError> {
        let Token { rule, pos, end, .. } = token;
        match rule {
            Rule::grammar_rule => self.item(alloc, pos, ItemKind::Rule),
            Rule::EOI => self.outer_gap(alloc, pos),
            Rule::grammar_doc => {
                self.item(alloc, pos, ItemKind::GrammarDoc)?;
                self.doc(pos, end, token.last)
            }
            Rule::line_doc => {
                self.set_kind(ItemKind::RuleDoc);
                self.doc(pos, end, token.last)
            }
            Rule::expression => {
                self.expressions.push(OpenExpression {
                    form,
                    in_alternative: false,
                    is_fresh: true,
                })?;
                Ok(())
            }
            Rule::term => {
                self.start_term();
                Ok(())
            }
            Rule::string | Rule::character => {
                self.next = token.last;
                self.text(alloc, pos, end, Separator::Nothing)
            }
            Rule::_push | Rule::_push_literal | Rule::peek_slice | Rule::insensitive_string => {
                self.keyword(alloc, rule, pos)
            }
            Rule::repeat_min_max => {
                self.has_two_counts = true;
                Ok(())
            }
            Rule::choice_operator => self.bar(alloc, token),
            Rule::sequence_operator => self.operator(alloc, token, Fill::BesideShort),
            _ => self.leaf(alloc, rule, pos, end),
        }
    }

    /// Reads a token without children.
    fn leaf(
        &mut self,
        alloc: Global,
        rule: Rule,
        pos: usize,
        end: usize,
    ) -> Result<(), AllocError> {
        match rule {
            Rule::opening_brace if self.expressions.is_empty() => {
                self.open_body(alloc, pos, end)
            }
            Rule::closing_brace if self.expressions.is_empty() => {
                self.close_body(alloc, pos, end)
            }
            Rule::opening_paren => self.open_parenthesis(alloc, pos, end),
            Rule::closing_paren => self.close_parenthesis(alloc, pos, end),
            Rule::assignment_operator => {
                self.text(alloc, pos, end, Separator::Blank)?;
                self.after = Separator::Blank;
                Ok(())
            }
            Rule::identifier if self.expressions.is_empty() => {
                self.text(alloc, pos, end, Separator::Nothing)?;
                self.pieces.push(Piece::Indent)?;
                Ok(())
            }
            Rule::comma => {
                self.text(alloc, pos, end, Separator::Nothing)?;
                if self.has_two_counts {
                    self.after = Separator::Blank;
                }
                self.has_two_counts = false;
                Ok(())
            }
            Rule::identifier
            | Rule::silent_modifier
            | Rule::atomic_modifier
            | Rule::compound_atomic_modifier
            | Rule::non_atomic_modifier
            | Rule::opening_brace
            | Rule::closing_brace
            | Rule::opening_brack
            | Rule::closing_brack
            | Rule::tag_id
            | Rule::positive_predicate_operator
            | Rule::negative_predicate_operator
            | Rule::optional_operator
            | Rule::repeat_operator
            | Rule::repeat_once_operator
            | Rule::number
            | Rule::integer
            | Rule::range_operator => self.text(alloc, pos, end, Separator::Nothing),
            _ => Ok(()),
        }
    }

    /// Writes the word that a token begins with, which has no token of its own.
    fn keyword(&mut self, alloc: Global, rule: Rule, pos: usize) -> Result<(), AllocError> {
        let word = match rule {
            Rule::_push => "PUSH",
            Rule::_push_literal => "PUSH_LITERAL",
            Rule::peek_slice => "PEEK",
            _ => "^",
        };
        self.holds_literal = rule == Rule::_push_literal;
        self.before_word(alloc, pos, Separator::Nothing)?;
        self.pieces.push(Piece::Word(word))?;
        self.cursor = pos.saturating_add(word.len());
        Ok(())
    }

    /// Writes bytes of the text as a word, with this before it.
    fn text(
        &mut self,
        alloc: Global,
        start: usize,
        end: usize,
        before: Separator,
    ) -> Result<(), AllocError> {
        self.before_word(alloc, start, before)?;
        self.pieces.push(Piece::Text { start, end })?;
        self.cursor = end;
        Ok(())
    }

    /// Writes the comments before a word that starts at a byte, and the separator from the last word.
    fn before_word(
        &mut self,
        alloc: Global,
        start: usize,
        before: Separator,
    ) -> Result<(), AllocError> {
        let separator = self.after.join(before);
        self.gap(alloc, start, separator)?;
        self.after = Separator::Nothing;
        self.is_opening = false;
        for _ in 0..self.starting {
            self.pieces.push(Piece::Open)?;
            self.pieces.push(Piece::Indent)?;
        }
        self.starting = 0;
        Ok(())
    }

    /// Writes the comments of the gap before a byte, and the separator of the words around it.
    fn gap(&mut self, alloc: Global, end: usize, separator: Separator) -> Result<(), AllocError> {
        let gap = scan_gap(alloc, self.text.as_bytes(), self.cursor, end)?;
        let Some(first) = gap.comments.first().copied() else {
            return self.separate(separator);
        };
        if self.is_opening && is_after_line(&gap, first) {
            self.separate(separator.before_operand())?;
            self.comments(&gap)?;
            self.separate(separator.before_operator())
        } else {
            self.comments(&gap)?;
            self.separate(separator)
        }
    }

    /// Writes a separator.
    fn separate(&mut self, separator: Separator) -> Result<(), AllocError> {
        match separator {
            Separator::Nothing => {}
            Separator::Blank => self.pieces.push(Piece::Blank)?,
            Separator::Line {
                is_blank,
                is_operator,
            } => self.line(is_blank, is_operator, Fill::Never)?,
        }
        Ok(())
    }

    /// Writes a possible line end.
    fn line(&mut self, is_blank: bool, is_operator: bool, fill: Fill) -> Result<(), AllocError> {
        self.pieces.push(Piece::Line {
            is_blank,
            is_operator,
            fill,
        })?;
        Ok(())
    }

    /// Writes the comments of a gap between two words of a rule.
    fn comments(&mut self, gap: &Gap) -> Result<(), AllocError> {
        let mut may_be_apart = !self.is_opening;
        let mut ends_line = false;
        for comment in &gap.comments {
            if comment.line_ends > 0 || ends_line {
                self.pieces.push(Piece::LineEnd {
                    has_empty_line: may_be_apart && comment.line_ends > 1,
                })?;
            } else {
                self.pieces.push(Piece::Blank)?;
            }
            self.comment(comment)?;
            ends_line = comment.is_line;
            may_be_apart = true;
        }
        let last = if ends_line || gap.line_ends > 0 {
            Piece::LineEnd {
                has_empty_line: false,
            }
        } else {
            Piece::Blank
        };
        self.pieces.push(last)?;
        Ok(())
    }

    /// Writes the lines of a comment.
    fn comment(&mut self, comment: &Comment) -> Result<(), AllocError> {
        let bytes = self.text.as_bytes();
        let mut start = comment.start;
        for _ in comment.start..comment.end {
            let line_end = find_line_feed(bytes, start, comment.end);
            self.pieces.push(Piece::Comment {
                start,
                end: trim_end(bytes, start, line_end),
            })?;
            if line_end >= comment.end {
                break;
            }
            self.pieces.push(Piece::CommentLineEnd)?;
            start = line_end.saturating_add(1);
        }
        Ok(())
    }

    /// Writes a doc comment, and passes over the tokens in it.
    fn doc(&mut self, pos: usize, end: usize, partner: usize) -> Result<(), AllocError> {
        let end_of_line = trim_end(self.text.as_bytes(), pos, end);
        self.pieces.push(Piece::Text {
            start: pos,
            end: end_of_line,
        })?;
        self.cursor = end;
        self.next = partner;
        self.end_item();
        Ok(())
    }

    /// Starts an item at a byte.
    fn item(&mut self, alloc: Global, pos: usize, kind: ItemKind) -> Result<(), AllocError> {
        let empty_line = self.outer_comments(alloc, pos)?;
        self.start_item(kind, empty_line)
    }

    /// Writes the comments before a byte between two items.
    fn outer_gap(&mut self, alloc: Global, pos: usize) -> Result<(), AllocError> {
        self.outer_comments(alloc, pos)?;
        Ok(())
    }

    /// Writes the comments before a byte between two items, and returns whether an empty line follows them.
    fn outer_comments(&mut self, alloc: Global, pos: usize) -> Result<bool, AllocError> {
        let gap = scan_gap(alloc, self.text.as_bytes(), self.cursor, pos)?;
        let mut is_trailing = !self.items.is_empty();
        for comment in &gap.comments {
            if is_trailing && comment.line_ends == 0 {
                self.pieces.push(Piece::Blank)?;
                self.comment(comment)?;
            } else {
                self.start_item(ItemKind::Comment, comment.line_ends > 1)?;
                self.comment(comment)?;
                self.end_item();
            }
            is_trailing = !comment.is_line;
        }
        self.cursor = pos;
        Ok(gap.line_ends > 1)
    }

    /// Starts an item on a line of its own.
    fn start_item(&mut self, kind: ItemKind, after_empty_line: bool) -> Result<(), AllocError> {
        self.pieces.push(Piece::LineEnd {
            has_empty_line: false,
        })?;
        let first = self.pieces.len();
        self.items.push(Item {
            kind,
            first,
            end: first,
            after_empty_line,
        })?;
        Ok(())
    }

    /// Ends the last item with the last piece.
    fn end_item(&mut self) {
        let end = self.pieces.len();
        if let Some(item) = self.items.last_mut() {
            item.end = end;
        }
    }

    /// Sets the kind of the last item.
    fn set_kind(&mut self, kind: ItemKind) {
        if let Some(item) = self.items.last_mut() {
            item.kind = kind;
        }
    }

    /// Writes the brace that opens a rule's body.
    fn open_body(&mut self, alloc: Global, pos: usize, end: usize) -> Result<(), AllocError> {
        self.before_word(alloc, pos, Separator::Nothing)?;
        self.pieces.push(Piece::Dedent)?;
        self.pieces.push(Piece::Open)?;
        self.pieces.push(Piece::Text { start: pos, end })?;
        self.pieces.push(Piece::Indent)?;
        self.cursor = end;
        self.after = Separator::Line {
            is_blank: true,
            is_operator: false,
        };
        self.is_opening = true;
        Ok(())
    }

    /// Writes the brace that closes a rule's body.
    fn close_body(&mut self, alloc: Global, pos: usize, end: usize) -> Result<(), AllocError> {
        self.gap(alloc, pos, Separator::Nothing)?;
        self.pieces.push(Piece::Dedent)?;
        self.line(true, false, Fill::Never)?;
        self.pieces.push(Piece::Text { start: pos, end })?;
        self.pieces.push(Piece::Close)?;
        self.cursor = end;
        self.end_item();
        Ok(())
    }

    /// Writes a parenthesis that opens.
    fn open_parenthesis(
        &mut self,
        alloc: Global,
        pos: usize,
        end: usize,
    ) -> Result<(), AllocError> {
        let is_group = !self.holds_literal;
        self.holds_literal = false;
        self.parentheses.push(is_group)?;
        if !is_group {
            return self.text(alloc, pos, end, Separator::Nothing);
        }
        self.before_word(alloc, pos, Separator::Nothing)?;
        self.pieces.push(Piece::Open)?;
        self.pieces.push(Piece::Text { start: pos, end })?;
        self.pieces.push(Piece::Indent)?;
        self.cursor = end;
        self.after = Separator::Line {
            is_blank: false,
            is_operator: false,
        };
        self.is_opening = true;
        Ok(())
    }

    /// Writes a parenthesis that closes.
    fn close_parenthesis(
        &mut self,
        alloc: Global,
        pos: usize,
        end: usize,
    ) -> Result<(), AllocError> {
        let is_group = self.parentheses.pop().unwrap_or(false);
        if !is_group {
            return self.text(alloc, pos, end, Separator::Nothing);
        }
        self.gap(alloc, pos, Separator::Nothing)?;
        self.pieces.push(Piece::Dedent)?;
        self.line(false, false, Fill::Never)?;
        self.pieces.push(Piece::Text { start: pos, end })?;
        self.pieces.push(Piece::Close)?;
        self.cursor = end;
        Ok(())
    }

    /// Writes a bar, before the first alternative or between two.
    fn bar(&mut self, alloc: Global, token: Token) -> Result<(), AllocError> {
        self.close_alternative()?;
        let (form, is_first) = match self.expressions.last_mut() {
            Some(around) => {
                let is_fresh = around.is_fresh;
                around.is_fresh = false;
                (around.form, is_fresh)
            }
            None => (ExpressionForm::Choice, false),
        };
        if !is_first {
            let fill = match form {
                ExpressionForm::Words => Fill::WhereItFits,
                _ => Fill::Never,
            };
            return self.operator(alloc, token, fill);
        }
        let line = Separator::Line {
            is_blank: false,
            is_operator: true,
        };
        self.text(alloc, token.pos, token.end, line)?;
        self.after = Separator::Blank;
        Ok(())
    }

    /// Writes an infix operator, and before it the comments that are on the line of the operand before, or on
    /// their own. A line end of the text beside a `~` stays one in a broken group.
    fn operator(&mut self, alloc: Global, token: Token, fill: Fill) -> Result<(), AllocError> {
        let bytes = self.text.as_bytes();
        let mut before = scan_gap(alloc, bytes, self.cursor, token.pos)?;
        let after = scan_gap(alloc, bytes, token.end, token.next)?;
        let fill = match fill {
            Fill::BesideShort if has_line_end(&before) || has_line_end(&after) => Fill::Never,
            _ => fill,
        };
        self.cursor = if stay_after(&before, &after) {
            token.end
        } else {
            let moved = count_moved(&before, &after);
            move_comments(&mut before, &after, moved)?;
            after
                .comments
                .get(moved)
                .map_or(token.next, |comment| comment.start)
        };
        if !before.comments.is_empty() {
            self.comments(&before)?;
        }
        self.line(true, true, fill)?;
        self.pieces.push(Piece::Text {
            start: token.pos,
            end: token.end,
        })?;
        self.after = Separator::Blank;
        Ok(())
    }

    /// Starts a term. In a choice, the term begins an alternative, unless it is inside one.
    fn start_term(&mut self) {
        if let Some(around) = self.expressions.last_mut() {
            around.is_fresh = false;
            if around.form != ExpressionForm::Sequence && !around.in_alternative {
                around.in_alternative = true;
                self.starting = self.starting.saturating_add(1);
            }
        }
    }

    /// Ends the alternative that is open, if there is one.
    fn close_alternative(&mut self) -> Result<(), AllocError> {
        let Some(around) = self.expressions.last_mut() else {
            return Ok(());
        };
        if around.in_alternative {
            around.in_alternative = false;
            self.pieces.push(Piece::Dedent)?;
            self.pieces.push(Piece::Close)?;
        }
        Ok(())
    }

    /// Ends an expression.
    fn end_expression(&mut self) -> Result<(), AllocError> {
        self.close_alternative()?;
        self.expressions.pop();
        Ok(())
    }
}

/// Returns whether the first comment after an opening brace or parenthesis begins a line if the group is
/// broken. It does if it begins a line in the text, or if the next token is on its line.
fn is_after_line(gap: &Gap, first: Comment) -> bool {
    if first.line_ends > 0 {
        return true;
    }
    if first.is_line {
        return false;
    }
    match gap.comments.get(1) {
        Some(second) => second.line_ends == 0,
        None => gap.line_ends == 0,
    }
}
