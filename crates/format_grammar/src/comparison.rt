//! Whether two texts have the same tokens and the same comments.
ghost use Rattle.std.specs.Prelude.{◌≡◌, ◌-◌, [], ◌++◌, IfOk, OnOk, false, length, true};
ghost use Rattle.std.specs.List.{slice_range};
ghost use Rattle.format_grammar.specs.Comments as comment;
ghost use Rattle.format_grammar.specs.Formatting.{EndsOnce};
ghost use Rattle.format_grammar.specs.Tokens as token;
ghost use Rattle.front_syntax.specs.declared.events.TokenEvent.TheVariants.{End};

use crate::contents::{comments_of, has_blank_end, is_all_white, trim_lines};
use base_language::derived::equality_of_rules;
use base_language::grammar::Rule;
use front_syntax::events::TokenEvent;
use std::alloc::{AllocError, Global};

/// Returns the bytes `start..end`, up to the end of the text.
fn part(text: &[u8], start: usize, end: usize) -> &[u8]
    ensures { result.now ≡ slice_range text.entry.now start end }
{
    let end = end.min(text.len());
    if start < end {
        &text[start..end]
    } else {
        &text[..0]
    }
}

/// Returns the byte at which a token starts or ends.
fn place_of(event: TokenEvent) -> usize
    ensures { result ≡ token.place_of event }
{
    match event {
        TokenEvent::Start { pos, .. } => pos,
        TokenEvent::End { pos, .. } => pos,
    }
}

/// Returns whether two rules are the same.
fn is_same_rule(rule: Rule, other: Rule) -> bool
    ensures { result ≡ true → rule ≡ other }
{
    equality_of_rules();
    rule == other
}

/// Returns whether two events are equal, except for their positions.
fn is_same_event(event: TokenEvent, other: TokenEvent) -> bool
    ensures { result ≡ true → token.unplaced event ≡ token.unplaced other }
{
    match (event, other) {
        (
            TokenEvent::Start { rule, partner, .. },
            TokenEvent::Start {
                rule: other_rule,
                partner: other_partner,
                ..
            },
        ) => is_same_rule(rule, other_rule) && partner == other_partner,
        (
            TokenEvent::End { partner, .. },
            TokenEvent::End {
                partner: other_partner,
                ..
            },
        ) => partner == other_partner,
        _ => false,
    }
}

/// Returns whether two pieces, of tokens without children, are equal: of doc comments without the blanks at
/// their ends.
fn is_same_token(
    alloc: Global,
    rule: Rule,
    text: &[u8],
    other_rule: Rule,
    other: &[u8],
) -> Result<bool, AllocError>
    ensures { IfOk result (λ same. same ≡ true
        → token.token_text rule text.now ≡ token.token_text other_rule other.now) }
{
    if !is_same_rule(rule, other_rule) {
        return Ok(false);
    }
    if text == other {
        return Ok(true);
    }
    match rule {
        Rule::inner_doc => is_same_line(alloc, text, other),
        _ => Ok(false),
    }
}

/// Returns whether two pieces are the same without the blanks at the ends of their lines.
fn is_same_line(alloc: Global, text: &[u8], other: &[u8]) -> Result<bool, AllocError>
    ensures { IfOk result (λ same. same ≡ true
        → comment.trimmed_line text.now ≡ comment.trimmed_line other.now) }
{
    let line = trim_lines(alloc, text)?;
    let other_line = trim_lines(alloc, other)?;
    Ok(line.as_slice() == other_line.as_slice())
}

/// Returns whether two gaps are white space alone.
#[tactic(auto, using(crate::proofs::WhiteGaps::same_white))]
fn are_white(gap: &[u8], other: &[u8]) -> bool
    ensures { result ≡ true → comment.comments_of gap.now ≡ comment.comments_of other.now }
{
    is_all_white(gap) && is_all_white(other)
}

/// Returns whether two gaps have the same comments.
fn is_same_gap(alloc: Global, gap: &[u8], other: &[u8]) -> Result<bool, AllocError>
    ensures { IfOk result (λ same. same ≡ true
        → comment.comments_of gap.now ≡ comment.comments_of other.now) }
{
    if gap == other {
        return Ok(true);
    }
    if are_white(gap, other) {
        return Ok(true);
    }
    let comments = comments_of(alloc, gap)?;
    let other_comments = comments_of(alloc, other)?;
    Ok(comments.as_slice() == other_comments.as_slice())
}

/// Returns whether two neighbouring events of each text, the last ones and those after them, have the same
/// text between them, if they are the start and the end of a token without children.
fn is_same_leaf(
    alloc: Global,
    text: &[u8],
    last: TokenEvent,
    event: TokenEvent,
    other: &[u8],
    other_last: TokenEvent,
    other_event: TokenEvent,
) -> Result<bool, AllocError>
    ensures { IfOk result (λ same. same ≡ true
        → token.text_between text.now last event ≡ token.text_between other.now other_last other_event) }
{
    match (last, event, other_last, other_event) {
        (
            TokenEvent::Start { rule, pos, .. },
            TokenEvent::End { pos: end, .. },
            TokenEvent::Start {
                rule: other_rule,
                pos: other_pos,
                ..
            },
            TokenEvent::End { pos: other_end, .. },
        ) => is_same_token(
            alloc,
            rule,
            part(text, pos, end),
            other_rule,
            part(other, other_pos, other_end),
        ),
        (TokenEvent::Start { .. }, TokenEvent::End { .. }, _, _) => Ok(false),
        (_, _, TokenEvent::Start { .. }, TokenEvent::End { .. }) => Ok(false),
        _ => Ok(true),
    }
}

/// Returns the gap between two neighbouring events; an empty one if they are the start and the end of a
/// token without children.
fn gap_between(text: &[u8], last: TokenEvent, event: TokenEvent) -> &[u8]
    ensures { comment.comments_of result.now ≡ token.comments_between text.entry.now last event }
{
    match (last, event) {
        (TokenEvent::Start { .. }, TokenEvent::End { .. }) => &text[..0],
        _ => part(text, place_of(last), place_of(event)),
    }
}

/// Returns whether a rule is an infix operator, or the leading bar.
fn is_operator(rule: Rule) -> bool
    ensures { result ≡ token.is_operator rule }
{
    matches!(rule, Rule::choice_operator | Rule::sequence_operator)
}

/// Returns whether no token begins between the gap of two neighbouring events and the next gap, except for
/// an infix operator.
fn leads_on(last: TokenEvent, event: TokenEvent) -> bool
    ensures { result ≡ token.leads_on last event }
{
    match (last, event) {
        (TokenEvent::Start { rule, .. }, _) => is_operator(rule),
        (TokenEvent::End { .. }, TokenEvent::Start { rule, .. }) => is_operator(rule),
        (TokenEvent::End { .. }, TokenEvent::End { .. }) => true,
    }
}

/// The comments of two texts in the gaps that lead on to the next one.
#[derive(Drop)]
struct Leading {
    comments: Vec<u8>,
    others: Vec<u8>,
}

impl Leading {
    /// Returns whether the comments of two gaps, with those kept before them, are the same. If the gaps lead
    /// on, all are kept for the next ones.
    fn is_same(
        &mut self,
        alloc: Global,
        gap: &[u8],
        other: &[u8],
        leads_on: bool,
    ) -> Result<bool, AllocError>
        ensures kept { IfOk result (λ same. leads_on ≡ true
            → (self.new.comments.items ≡ self.old.comments.items ++ comment.comments_of gap.now)
            × (self.new.others.items ≡ self.old.others.items ++ comment.comments_of other.now)) }
        ensures same { IfOk result (λ same. same ≡ true → leads_on ≡ false
            → self.old.comments.items ++ comment.comments_of gap.now
            ≡ self.old.others.items ++ comment.comments_of other.now) }
        ensures used { IfOk result (λ same. same ≡ true → leads_on ≡ false
            → (self.new.comments.items ≡ []) × (self.new.others.items ≡ [])) }
    {
        if !leads_on && self.comments.is_empty() && self.others.is_empty() {
            return is_same_gap(alloc, gap, other);
        }
        add_comments(alloc, gap, &mut self.comments)?;
        add_comments(alloc, other, &mut self.others)?;
        if leads_on {
            return Ok(true);
        }
        let is_same = self.comments.as_slice() == self.others.as_slice();
        self.comments.clear();
        self.others.clear();
        Ok(is_same)
    }
}

/// Adds the comments of a gap.
fn add_comments(alloc: Global, gap: &[u8], comments: &mut Vec<u8>) -> Result<(), AllocError>
    ensures { OnOk result (comments.new.items ≡ comments.old.items ++ comment.comments_of gap.now) }
{
    if is_all_white(gap) {
        return Ok(());
    }
    let added = comments_of(alloc, gap)?;
    comments.extend_from_slice(&added)
}

/// Returns whether two texts have the same tokens and the same comments.
pub fn is_same(
    alloc: Global,
    text: &[u8],
    events: &[TokenEvent],
    other: &[u8],
    others: &[TokenEvent],
) -> Result<bool, AllocError>
    ensures tokens { IfOk result (λ same. same ≡ true
        → token.tokens_after text.now (End 0 0) events.now
        ≡ token.tokens_after other.now (End 0 0) others.now) }
    ensures comments { IfOk result (λ same. same ≡ true
        → token.comments_after text.now [] (End 0 0) events.now
        ≡ token.comments_after other.now [] (End 0 0) others.now) }
{
    let mut last = TokenEvent::End { pos: 0, partner: 0 };
    let mut other_last = last;
    let mut rest = events;
    let mut other_rest = others;
    let mut leading = Leading {
        comments: Vec::new(alloc),
        others: Vec::new(alloc),
    };
    while let Some((event, after)) = rest.split_first() {
        let Some((other_event, other_after)) = other_rest.split_first() else {
            return Ok(false);
        };
        let gap = gap_between(text, last, *event);
        let other_gap = gap_between(other, other_last, *other_event);
        let leads = leads_on(last, *event);
        let is_same = leads == leads_on(other_last, *other_event)
            && is_same_event(*event, *other_event)
            && is_same_leaf(alloc, text, last, *event, other, other_last, *other_event)?
            && leading.is_same(alloc, gap, other_gap, leads)?;
        if !is_same {
            return Ok(false);
        }
        last = *event;
        other_last = *other_event;
        rest = after;
        other_rest = other_after;
    }
    if !other_rest.is_empty() {
        return Ok(false);
    }
    let gap = part(text, place_of(last), text.len());
    let other_gap = part(other, place_of(other_last), other.len());
    leading.is_same(alloc, gap, other_gap, false)
}

/// Returns whether no line ends with a blank between two neighbouring events, or in a doc comment before
/// them.
fn is_clean_between(text: &[u8], last: TokenEvent, event: TokenEvent) -> bool
    ensures { result ≡ true → token.is_clean_between text.now last event ≡ true }
{
    match (last, event) {
        (TokenEvent::Start { .. }, TokenEvent::End { .. }) => true,
        _ => !has_blank_end(part(text, place_of(last).saturating_sub(1), place_of(event))),
    }
}

/// Returns whether no line ends with a blank in a gap or a doc comment.
pub fn has_clean_lines(text: &[u8], events: &[TokenEvent]) -> bool
    ensures { result ≡ true → token.has_clean_lines text.now (End 0 0) events.now ≡ true }
{
    let mut last = TokenEvent::End { pos: 0, partner: 0 };
    let mut rest = events;
    while let Some((event, after)) = rest.split_first() {
        if !is_clean_between(text, last, *event) {
            return false;
        }
        last = *event;
        rest = after;
    }
    true
}

/// Returns whether a text is empty, or ends with one line feed.
pub fn ends_once(text: &[u8]) -> bool
    ensures { result ≡ true → EndsOnce text.now }
{
    let length = text.len();
    if length < 2 {
        return length == 0;
    }
    text[length - 1] == b'\n' && text[length - 2] != b'\n'
}
