//! Renamed rules.
ghost use Rattle.std.specs.Prelude.{◌≡◌, ◌≢◌, ◌++◌, [], IfOk, MatchBool, MatchOption, OnOk, true};
ghost use Rattle.base_language.specs.declared.grammar.Rule.TheVariants.{grammar_rules};
ghost use Rattle.front_syntax.specs.Parses.{AreTokensOf};
ghost use Rattle.front_syntax.specs.declared.events.TokenEvent.TheVariants.{End};
ghost use Rattle.server_symbols.specs.NewNames.{IsNewName};
ghost use Rattle.server_symbols.specs.Renaming as spec;
ghost use Rattle.server_symbols.specs.Renaming.{IsRenaming};

use crate::parts::{part, replace_all};
use crate::refusals::{RenameRefusal, is_identifier, is_keyword};
use crate::tokens::Extent;
use base_language::derived::equality_of_rules;
use base_language::grammar::Rule;
use base_language::runtime::Fault;
use front_names::is_builtin;
use front_syntax::events::TokenEvent;
use front_syntax::grammar::PestParser;
use std::alloc::{AllocError, Global};

/// The answer to a rename.
#[derive(Debug, Drop)]
pub enum Renaming {
    /// The extents that are to be replaced by the new name.
    Edits(Vec<Extent>),
    Refused(RenameRefusal),
}

/// Renames a rule. The edits are where comments at the head of the text mention it, and where its name is an
/// identifier of the grammar, in definitions and in calls. They are given out only if the new name is a
/// free one, and the edited text is a grammar with the same tokens, except for the new name and
/// documentation.
pub fn rename(
    alloc: Global,
    text: &str,
    name: &str,
    new_name: &str,
    mentions: &[Extent],
) -> Result<Renaming, AllocError>
    ensures { IfOk result (IsRenaming text.now name.now new_name.now mentions.now) }
{
    if !is_identifier(new_name.as_bytes()) {
        return Ok(Renaming::Refused(RenameRefusal::NoIdentifier));
    }
    if is_builtin(new_name) {
        return Ok(Renaming::Refused(RenameRefusal::Builtin));
    }
    if is_keyword(alloc, new_name)? {
        return Ok(Renaming::Refused(RenameRefusal::Keyword));
    }
    match events_of(alloc, text)? {
        Some(events) => rename_among(alloc, text, &events, name, new_name, mentions),
        None => Ok(Renaming::Refused(RenameRefusal::NoGrammar)),
    }
}

/// Renames a rule of a grammar with these tokens, if there is such a rule and the new name is not taken.
fn rename_among(
    alloc: Global,
    text: &str,
    events: &[TokenEvent],
    name: &str,
    new_name: &str,
    mentions: &[Extent],
) -> Result<Renaming, AllocError>
    requires events { AreTokensOf grammar_rules text.now events.now }
    requires name { IsNewName new_name.now }
    ensures { IfOk result (IsRenaming text.now name.now new_name.now mentions.now) }
{
    let bytes = text.as_bytes();
    if !is_defined(bytes, name.as_bytes(), events) {
        return Ok(Renaming::Refused(RenameRefusal::NoRule));
    }
    if is_taken(alloc, bytes, name.as_bytes(), events, new_name.as_bytes())? {
        return Ok(Renaming::Refused(RenameRefusal::Taken));
    }
    rename_in(alloc, text, events, name, new_name, mentions)
}

/// Whether a rule other than the one of this name has the new name.
fn is_taken(
    alloc: Global,
    text: &[u8],
    name: &[u8],
    events: &[TokenEvent],
    new_name: &[u8],
) -> Result<bool, AllocError>
    ensures { IfOk result (λ answer. MatchBool answer
        (spec.places_after text.now new_name.now (End 0 0) events.now ≢ [])
        (spec.IsFree text.now name.now new_name.now events.now)) }
{
    if name == new_name {
        return Ok(false);
    }
    let places = places_of(alloc, text, new_name, events)?;
    Ok(!places.is_empty())
}

/// Renames a rule of a grammar with these tokens.
fn rename_in(
    alloc: Global,
    text: &str,
    events: &[TokenEvent],
    name: &str,
    new_name: &str,
    mentions: &[Extent],
) -> Result<Renaming, AllocError>
    requires events { AreTokensOf grammar_rules text.now events.now }
    requires name { IsNewName new_name.now }
    requires defined { spec.is_defined text.now name.now events.now ≡ true }
    requires free { spec.IsFree text.now name.now new_name.now events.now }
    ensures { IfOk result (IsRenaming text.now name.now new_name.now mentions.now) }
{
    let bytes = text.as_bytes();
    let places = places_of(alloc, bytes, name.as_bytes(), events)?;
    let mut edits = mentions.to_vec(alloc)?;
    edits.extend_from_slice(&places)?;
    let edited = replace_all(alloc, bytes, &edits, new_name.as_bytes())?;
    if is_renaming(alloc, bytes, events, name, &edited, new_name)? {
        Ok(Renaming::Edits(edits))
    } else {
        Ok(Renaming::Refused(RenameRefusal::OtherTokens))
    }
}

/// Returns the starts and ends of a grammar's tokens, or none if a text is no grammar.
fn events_of(alloc: Global, text: &str) -> Result<Option<Vec<TokenEvent>>, AllocError>
    ensures { IfOk result (λ found. MatchOption found (spec.IsNoGrammar text.now)
        (λ events. AreTokensOf grammar_rules text.now events.items)) }
{
    match PestParser::tokens(alloc, Rule::grammar_rules, text) {
        Ok(events) => Ok(Some(events)),
        Err(Fault::Grammar(_)) => Ok(None),
        Err(Fault::Memory(error)) => Err(error),
    }
}

/// Whether two rules are the same.
fn is_same_rule(rule: Rule, other: Rule) -> bool
    ensures { result ≡ true → rule ≡ other }
{
    equality_of_rules();
    rule == other
}

/// Whether a rule is that of identifiers.
fn is_identifier_rule(rule: Rule) -> bool
    ensures { result ≡ spec.is_identifier rule }
{
    matches!(rule, Rule::identifier)
}

/// Whether a rule is that of definitions.
fn is_definition_rule(rule: Rule) -> bool
    ensures { result ≡ spec.is_definition_rule rule }
{
    matches!(rule, Rule::grammar_rule)
}

/// Whether a rule is that of documentation.
fn is_doc_rule(rule: Rule) -> bool
    ensures { result ≡ spec.is_doc_rule rule }
{
    matches!(rule, Rule::inner_doc)
}

/// Whether a part of a text is an identifier of this name.
fn is_place(text: &[u8], rule: Rule, start: usize, end: usize, name: &[u8]) -> bool
    ensures { result ≡ spec.is_place text.now name.now rule start end }
{
    is_identifier_rule(rule) && part(text, start, end) == name
}

/// Returns the extents in which a name is an identifier of a grammar with these tokens.
fn places_of(
    alloc: Global,
    text: &[u8],
    name: &[u8],
    events: &[TokenEvent],
) -> Result<Vec<Extent>, AllocError>
    ensures { IfOk result (λ found. found.items ≡ spec.places_after text.now name.now (End 0 0) events.now) }
{
    let mut found = Vec::new(alloc);
    let mut last = TokenEvent::End { pos: 0, partner: 0 };
    let mut rest = events;
    while let Some((event, after)) = rest.split_first() {
        push_place(text, name, last, *event, &mut found)?;
        last = *event;
        rest = after;
    }
    Ok(found)
}

/// Adds the extent between two neighbouring events, if it is an identifier of this name.
fn push_place(
    text: &[u8],
    name: &[u8],
    last: TokenEvent,
    event: TokenEvent,
    found: &mut Vec<Extent>,
) -> Result<(), AllocError>
    ensures { OnOk result
        (found.new.items ≡ found.old.items ++ spec.place_between text.now name.now last event) }
{
    if let (TokenEvent::Start { rule, pos, .. }, TokenEvent::End { pos: end, .. }) = (last, event) {
        if is_place(text, rule, pos, end, name) {
            found.push(Extent { start: pos, end })?;
        }
    }
    Ok(())
}

/// Whether a rule of this name is defined in a grammar with these tokens.
fn is_defined(text: &[u8], name: &[u8], events: &[TokenEvent]) -> bool
    ensures { result ≡ spec.is_defined text.now name.now events.now }
{
    let mut before = TokenEvent::End { pos: 0, partner: 0 };
    let mut last = before;
    let mut rest = events;
    while let Some((event, after)) = rest.split_first() {
        if is_definition_of(text, name, before, last, *event) {
            return true;
        }
        before = last;
        last = *event;
        rest = after;
    }
    false
}

/// Whether three neighbouring events are the start of a definition and its name, which is this one.
fn is_definition_of(
    text: &[u8],
    name: &[u8],
    before: TokenEvent,
    last: TokenEvent,
    event: TokenEvent,
) -> bool
    ensures { result ≡ spec.defines text.now name.now before last event }
{
    match (before, last, event) {
        (
            TokenEvent::Start { rule: outer, .. },
            TokenEvent::Start { rule, pos, .. },
            TokenEvent::End { pos: end, .. },
        ) => { is_definition_rule(outer) && is_place(text, rule, pos, end, name) }
        _ => false,
    }
}

/// Whether an edited text is a grammar with the tokens of a text, except for a new name and documentation.
fn is_renaming(
    alloc: Global,
    text: &[u8],
    events: &[TokenEvent],
    name: &str,
    edited: &[u8],
    new_name: &str,
) -> Result<bool, AllocError>
    ensures { IfOk result (λ answer. answer ≡ true
        → spec.IsEdited text.now name.now new_name.now events.now edited.now) }
{
    match str::from_utf8(edited) {
        Ok(edited_text) => is_edited(alloc, text, events, name, edited_text, new_name),
        Err(_) => Ok(false),
    }
}

/// Whether an edited text is a grammar with the tokens of a text, except for a new name and documentation.
fn is_edited(
    alloc: Global,
    text: &[u8],
    events: &[TokenEvent],
    name: &str,
    edited: &str,
    new_name: &str,
) -> Result<bool, AllocError>
    ensures { IfOk result (λ answer. answer ≡ true
        → spec.IsEdited text.now name.now new_name.now events.now edited.now) }
{
    let Some(others) = events_of(alloc, edited)? else {
        return Ok(false);
    };
    Ok(is_renamed(
        text,
        events,
        name.as_bytes(),
        edited.as_bytes(),
        &others,
        new_name.as_bytes(),
    ))
}

/// Whether a text has the tokens of another one, with a new name in place of one, except for documentation.
fn is_renamed(
    text: &[u8],
    events: &[TokenEvent],
    name: &[u8],
    edited: &[u8],
    others: &[TokenEvent],
    new_name: &[u8],
) -> bool
    ensures { result ≡ true → spec.tokens_after edited.now (End 0 0) others.now
        ≡ spec.renamed_after text.now name.now new_name.now (End 0 0) events.now }
{
    let mut last = TokenEvent::End { pos: 0, partner: 0 };
    let mut other_last = last;
    let mut rest = events;
    let mut other_rest = others;
    while let Some((event, after)) = rest.split_first() {
        let Some((other, other_after)) = other_rest.split_first() else {
            return false;
        };
        if !is_same_event(*event, *other)
            || !is_renamed_between(
                text, last, *event, name, edited, other_last, *other, new_name,
            )
        {
            return false;
        }
        last = *event;
        other_last = *other;
        rest = after;
        other_rest = other_after;
    }
    other_rest.is_empty()
}

/// Whether two events are the same, except for their positions.
fn is_same_event(event: TokenEvent, other: TokenEvent) -> bool
    ensures { result ≡ true → spec.unplaced other ≡ spec.unplaced event }
{
    match (event, other) {
        (
            TokenEvent::Start { rule, partner, .. },
            TokenEvent::Start {
                rule: other_rule,
                partner: other_partner,
                ..
            },
        ) => is_same_rule(rule, other_rule) && partner == other_partner,
        (
            TokenEvent::End { partner, .. },
            TokenEvent::End {
                partner: other_partner,
                ..
            },
        ) => partner == other_partner,
        _ => false,
    }
}

/// Whether tokens that hold no others are documentation, have the same text, or the old and the new name. The
/// events are neighbours.
fn is_renamed_between(
    text: &[u8],
    last: TokenEvent,
    event: TokenEvent,
    name: &[u8],
    edited: &[u8],
    other_last: TokenEvent,
    other: TokenEvent,
    new_name: &[u8],
) -> bool
    ensures { result ≡ true → spec.text_between edited.now other_last other
        ≡ spec.renamed_between text.now name.now new_name.now last event }
{
    match (last, event, other_last, other) {
        (
            TokenEvent::Start { rule, pos, .. },
            TokenEvent::End { pos: end, .. },
            TokenEvent::Start {
                rule: other_rule,
                pos: other_pos,
                ..
            },
            TokenEvent::End { pos: other_end, .. },
        ) => {
            let other_token = part(edited, other_pos, other_end);
            if is_doc_rule(rule) || is_doc_rule(other_rule) {
                is_doc_rule(rule) && is_doc_rule(other_rule)
            } else if is_place(text, rule, pos, end, name) {
                other_token == new_name
            } else {
                other_token == part(text, pos, end)
            }
        }
        (TokenEvent::Start { .. }, TokenEvent::End { .. }, _, _) => false,
        (_, _, TokenEvent::Start { .. }, TokenEvent::End { .. }) => false,
        _ => true,
    }
}
