//! The forms of expressions, found before they are built.
use crate::gaps::{has_line_end, scan_gap};
use base_language::grammar::Rule;
use front_syntax::events::TokenEvent;
use std::alloc::{AllocError, Global};

/// The form of an expression.
#[derive(Clone, Copy, PartialEq, Eq)]
pub enum ExpressionForm {
    Sequence,
    /// A choice, whose alternatives are groups of their own.
    Choice,
    /// A choice that is filled: its alternatives are terms without parentheses, two of them are on one line,
    /// and the lines of its braces or parentheses are more than one.
    Words,
}

/// An expression of which not all is read.
#[derive(Clone, Copy)]
struct Open {
    /// The number of its first event.
    first: usize,
    has_bar: bool,
    /// Whether all alternatives are terms without parentheses.
    has_words: bool,
    /// Whether two alternatives are on one line.
    is_packed: bool,
}

/// Returns the position of the event of a number, or 0.
fn position_of(events: &[TokenEvent], i: usize) -> usize {
    match events.get(i) {
        Some(TokenEvent::Start { pos, .. }) => *pos,
        Some(TokenEvent::End { pos, .. }) => *pos,
        None => 0,
    }
}

/// Returns the forms of the expressions, by the numbers of their events.
pub fn find_forms(
    alloc: Global,
    text: &str,
    events: &[TokenEvent],
) -> Result<Vec<ExpressionForm>, AllocError> {
    let mut forms = vec![in alloc; ExpressionForm::Sequence; events.len()]?;
    let mut around: Vec<Open> = Vec::new(alloc);
    for i in 0..events.len() {
        match events[i] {
            TokenEvent::Start {
                rule: Rule::expression,
                ..
            } => around.push(Open {
                first: i,
                has_bar: false,
                has_words: true,
                is_packed: false,
            })?,
            TokenEvent::Start { rule, .. } => {
                if let Some(open) = around.last_mut() {
                    *open = read_token(alloc, text, events, i, rule, *open)?;
                }
            }
            TokenEvent::End { partner, .. } => {
                if is_open(&around, partner) {
                    close(text, events, i, &mut around, &mut forms);
                }
            }
        }
    }
    Ok(forms)
}

/// Returns whether the innermost open expression has this first event.
fn is_open(around: &[Open], first: usize) -> bool {
    match around.last() {
        Some(open) => open.first == first,
        None => false,
    }
}

/// Closes the innermost open expression, whose last event has the number `last`.
fn close(
    text: &str,
    events: &[TokenEvent],
    last: usize,
    around: &mut Vec<Open>,
    forms: &mut [ExpressionForm],
) {
    if let Some(open) = around.pop() {
        if let Some(form) = forms.get_mut(open.first) {
            *form = form_of(text, events, open, last);
        }
    }
}

/// Returns what is known of an expression after the start of a token in it, the event of the number `i`.
fn read_token(
    alloc: Global,
    text: &str,
    events: &[TokenEvent],
    i: usize,
    rule: Rule,
    open: Open,
) -> Result<Open, AllocError> {
    match rule {
        Rule::sequence_operator | Rule::opening_paren => Ok(Open {
            has_words: false,
            ..open
        }),
        Rule::choice_operator => {
            let is_infix = i > open.first.saturating_add(1);
            let is_packed = open.is_packed
                || (is_infix && open.has_words && is_on_one_line(alloc, text, events, i)?);
            Ok(Open {
                has_bar: true,
                is_packed,
                ..open
            })
        }
        _ => Ok(open),
    }
}

/// Returns the byte after the last word before the event of a number. Tokens with children end after the
/// comments after their last word.
fn end_before(events: &[TokenEvent], i: usize) -> usize {
    for k in (0..i).rev() {
        match events.get(k) {
            Some(TokenEvent::End { pos, partner }) if partner.saturating_add(1) == k => return *pos,
            Some(TokenEvent::End { .. }) => {}
            _ => return position_of(events, k),
        }
    }
    0
}

/// Returns whether no line ends around the infix operator whose first event has the number `i`.
fn is_on_one_line(
    alloc: Global,
    text: &str,
    events: &[TokenEvent],
    i: usize,
) -> Result<bool, AllocError> {
    let bytes = text.as_bytes();
    let end = position_of(events, i.saturating_add(1));
    let before = scan_gap(alloc, bytes, end_before(events, i), position_of(events, i))?;
    let after = scan_gap(alloc, bytes, end, position_of(events, i.saturating_add(2)))?;
    Ok(!has_line_end(&before) && !has_line_end(&after))
}

/// Returns the form of an expression whose last event has the number `last`.
fn form_of(text: &str, events: &[TokenEvent], open: Open, last: usize) -> ExpressionForm {
    if !open.has_bar {
        return ExpressionForm::Sequence;
    }
    if !open.has_words || !open.is_packed {
        return ExpressionForm::Choice;
    }
    let start = end_before(events, open.first);
    let end = position_of(events, last.saturating_add(1));
    if text.get(start..end).is_some_and(|body| body.contains('\n')) {
        ExpressionForm::Words
    } else {
        ExpressionForm::Choice
    }
}
