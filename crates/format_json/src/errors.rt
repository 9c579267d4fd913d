//! Errors and names as JSON.
ghost use Rattle.std.specs.Prelude.{◌≡◌, IfOk, OnOk, codes, string_bytes};
ghost use Rattle.serde_json.specs.Data.{member, object, put as with_member, string};
ghost use Rattle.serde_json.specs.View.{members_view, view};
ghost use Rattle.serde_json.specs.Written.{compact_text};
ghost use Rattle.base_language.specs.Pieces.PrintedError.{error_line};
ghost use Rattle.format_json.specs.Errors.{error_data, error_members, errors_data, line_col_data, location_data, message_members, names_data, pair_data, rule_names_data};

use crate::members::put_text;
use base_language::grammar::Rule;
use base_language::runtime::{Error, ErrorVariant, InputLocation, LineColLocation};
use serde_json::{Map, Value, json, put};
use std::alloc::{AllocError, Global};

/// Returns errors as JSON; syntax errors have the expected rules. The only error is an allocation failure.
#[tactic(auto, using(crate::proofs::Floats::errors_without_floats))]
pub fn errors_text(
    alloc: Global,
    errors: &[Error<Rule>],
    expected: &[Rule],
) -> Result<String, AllocError>
    ensures { IfOk result (λ text. string_bytes text ≡ compact_text (errors_data expected.now errors.now)) }
{
    errors_value(alloc, errors, expected)?.to_string(alloc)
}

/// Returns names as JSON. The only error is an allocation failure.
#[tactic(auto, using(crate::proofs::Floats::names_without_floats))]
pub fn names_text(alloc: Global, names: &[&str]) -> Result<String, AllocError>
    ensures { IfOk result (λ text. string_bytes text ≡ compact_text (names_data names.now)) }
{
    names_value(alloc, names)?.to_string(alloc)
}

/// Returns errors as a value.
fn errors_value(
    alloc: Global,
    errors: &[Error<Rule>],
    expected: &[Rule],
) -> Result<Value, AllocError>
    ensures { IfOk result (λ value. view value ≡ errors_data expected.now errors.now) }
{
    let mut values = Vec::new(alloc);
    for error in errors {
        values.push(error_value(alloc, error, expected)?)?;
    }
    Ok(Value::Array(values))
}

/// Returns names as a value.
pub(crate) fn names_value(alloc: Global, names: &[&str]) -> Result<Value, AllocError>
    ensures { IfOk result (λ value. view value ≡ names_data names.now) }
{
    let mut values = Vec::new(alloc);
    for name in names {
        values.push(Value::try_from_str(alloc, name)?)?;
    }
    Ok(Value::Array(values))
}

/// Returns the names of rules, as a value.
fn rule_names_value(alloc: Global, rules: &[Rule]) -> Result<Value, AllocError>
    ensures { IfOk result (λ value. view value ≡ rule_names_data rules.now) }
{
    let mut values = Vec::new(alloc);
    for rule in rules {
        values.push(Value::try_from_str(alloc, rule.name())?)?;
    }
    Ok(Value::Array(values))
}

/// Returns an error as a value.
fn error_value(alloc: Global, error: &Error<Rule>, expected: &[Rule]) -> Result<Value, AllocError>
    ensures { IfOk result (λ value. view value ≡ error_data expected.now error.now) }
{
    match &error.variant {
        ErrorVariant::ParsingError => syntax_error_value(alloc, error, expected),
        ErrorVariant::CustomError { message } => custom_error_value(alloc, error, message.as_str()),
    }
}

/// Returns a syntax error as a value.
fn syntax_error_value(
    alloc: Global,
    error: &Error<Rule>,
    expected: &[Rule],
) -> Result<Value, AllocError>
    ensures { let places = line_col_data error.now.line_col in
        let location = location_data error.now.location in
        IfOk result (λ value. view value ≡ object (error_members expected.now ErrorVariant.ParsingError
        (message_members (error_line error.now) places location))) }
{
    let mut members = Map::new(alloc);
    let expected = rule_names_value(alloc, expected)?;
    put(&mut members, alloc, "expected", expected)?;
    put_text(alloc, &mut members, "kind", "parsing")?;
    put_message(alloc, &mut members, error, "unknown parsing error")?;
    Ok(Value::Object(members))
}

/// Returns an error with a message of its own as a value.
fn custom_error_value(
    alloc: Global,
    error: &Error<Rule>,
    message: &str,
) -> Result<Value, AllocError>
    ensures { let places = line_col_data error.now.line_col in
        let location = location_data error.now.location in
        IfOk result (λ value. view value ≡ object (member (codes "kind") (string (codes "custom"))
        (message_members (error_line error.now) places location message.now))) }
{
    let mut members = Map::new(alloc);
    put_text(alloc, &mut members, "kind", "custom")?;
    put_message(alloc, &mut members, error, message)?;
    Ok(Value::Object(members))
}

/// Adds the members of an error's line, of its location and of a message.
fn put_message(
    alloc: Global,
    members: &mut Map<String, Value>,
    error: &Error<Rule>,
    message: &str,
) -> Result<(), AllocError>
    ensures { let places = line_col_data error.now.line_col in
        let location = location_data error.now.location in
        OnOk result (members_view members.new.entries
        ≡ with_member (codes "message") (string message.now) (with_member (codes "location") location
        (with_member (codes "line_col") places (with_member (codes "line") (string (error_line error.now))
        (members_view members.old.entries))))) }
{
    put_text(alloc, members, "line", error.line())?;
    put(
        members,
        alloc,
        "line_col",
        line_col_value(alloc, error.line_col)?,
    )?;
    put(
        members,
        alloc,
        "location",
        location_value(alloc, error.location)?,
    )?;
    put_text(alloc, members, "message", message)
}

/// Returns the location of an error, as a value.
fn location_value(alloc: Global, location: InputLocation) -> Result<Value, AllocError>
    ensures { IfOk result (λ value. view value ≡ location_data location) }
{
    match location {
        InputLocation::Pos(place) => json!(in alloc; [place]),
        InputLocation::Span((start, end)) => json!(in alloc; [start, end]),
    }
}

/// Returns the lines and columns of an error, as a value.
fn line_col_value(alloc: Global, places: LineColLocation) -> Result<Value, AllocError>
    ensures { IfOk result (λ value. view value ≡ line_col_data places) }
{
    match places {
        LineColLocation::Pos(place) => { json!(in alloc; [pair_value(alloc, place)?]) }
        LineColLocation::Span(start, end) => {
            json!(in alloc; [pair_value(alloc, start)?, pair_value(alloc, end)?])
        }
    }
}

/// Returns a line and a column, as a value.
fn pair_value(alloc: Global, place: (usize, usize)) -> Result<Value, AllocError>
    ensures { IfOk result (λ value. view value ≡ pair_data place) }
{
    json!(in alloc; [place.0, place.1])
}
