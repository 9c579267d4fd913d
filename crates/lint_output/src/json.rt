//! Lines of JSON.
ghost use Rattle.std.specs.Prelude.{◌≡◌, IfOk, false, map, string_bytes};
ghost use Rattle.serde_json.specs.Data.{array, string};
ghost use Rattle.serde_json.specs.View.{items_of, members_view, view};
ghost use Rattle.serde_json.specs.Written.{has_float};
ghost use Rattle.lint_output.specs.Json.{applicability_name, fix_data, help_data, json_line, last_members, later_members, line_data, located_line};
ghost use Rattle.lint_output.specs.Json.{mended_data, part_data, related_data};
ghost use Rattle.lint_output.specs.Locations.{IsIndexOf};
ghost use Rattle.lint_output.specs.Prints.{IsLine};

use crate::Origin;
use crate::lines::Location;
use crate::objects::{put_size, put_text};
use lint_findings::{Applicability, Diagnostic, Fix, Help, Related};
use program_support::json::escape_json;
use serde_json::{Map, Value, json, put};
use std::alloc::{AllocError, Global};

/// A diagnostic as a line of JSON.
pub fn to_json_line(
    alloc: Global,
    origin: Origin<'_>,
    diagnostic: &Diagnostic,
) -> Result<String, AllocError>
    ensures shape { IfOk result (λ line. IsLine (string_bytes line)) }
    ensures text { IfOk result (λ line. IsIndexOf origin.entry.text.now origin.entry.lines.now
        → string_bytes line
        ≡ json_line (line_data origin.entry.name.now origin.entry.text.now diagnostic.now)) }
{
    let related = related_value(alloc, origin, &diagnostic.related)?;
    let first = origin.lines.locate(origin.text, diagnostic.start);
    let last = origin.lines.locate(origin.text, diagnostic.end);
    let value = diagnostic_value(alloc, origin.name, diagnostic, related, first, last)?;
    to_line(alloc, &value)
}

/// A value as a line of JSON, with escapes of hidden characters.
pub(crate) fn to_line(alloc: Global, value: &Value) -> Result<String, AllocError>
    ensures shape { IfOk result (λ line. IsLine (string_bytes line)) }
    ensures text { IfOk result (λ line. has_float (view value.now) ≡ false
        → string_bytes line ≡ json_line (view value.now)) }
{
    let text = value.to_string(alloc)?;
    let mut line = escape_json(alloc, text.as_str())?;
    line.push_str("\n")?;
    Ok(line)
}

/// A diagnostic between two locations of a file as an object, with the other parts that matter.
fn diagnostic_value(
    alloc: Global,
    name: &str,
    diagnostic: &Diagnostic,
    related: Value,
    first: Location,
    last: Location,
) -> Result<Value, AllocError>
    ensures { IfOk result (λ value.
        view value ≡ located_line name.now diagnostic.now (view related) first last) }
{
    let mut members = later_members(alloc, name, diagnostic, related, first, last)?;
    put_size(alloc, &mut members, "end_column", last.column)?;
    put_size(alloc, &mut members, "end", diagnostic.end)?;
    put_size(alloc, &mut members, "column", first.column)?;
    put_text(alloc, &mut members, "code", diagnostic.code.name())?;
    Ok(Value::Object(members))
}

/// The members of a diagnostic from `end_line` on.
fn later_members(
    alloc: Global,
    name: &str,
    diagnostic: &Diagnostic,
    related: Value,
    first: Location,
    last: Location,
) -> Result<Map<String, Value>, AllocError>
    ensures { IfOk result (λ members. members_view members.entries
        ≡ later_members name.now diagnostic.now (view related) first last) }
{
    let mut members = last_members(alloc, diagnostic, related, first)?;
    let help = help_value(alloc, &diagnostic.help)?;
    put(&mut members, alloc, "help", help)?;
    let fix = mended_value(alloc, &diagnostic.help)?;
    put(&mut members, alloc, "fix", fix)?;
    put_text(alloc, &mut members, "file", name)?;
    let expected = names_value(alloc, &diagnostic.expected)?;
    put(&mut members, alloc, "expected", expected)?;
    put_size(alloc, &mut members, "end_line", last.line)?;
    Ok(members)
}

/// The members of a diagnostic from `kind` on.
fn last_members(
    alloc: Global,
    diagnostic: &Diagnostic,
    related: Value,
    first: Location,
) -> Result<Map<String, Value>, AllocError>
    ensures { IfOk result (λ members.
        members_view members.entries ≡ last_members diagnostic.now (view related) first) }
{
    let mut members = Map::new(alloc);
    put_size(alloc, &mut members, "start", diagnostic.start)?;
    put(&mut members, alloc, "related", related)?;
    put_text(alloc, &mut members, "message", diagnostic.message.as_str())?;
    put_size(alloc, &mut members, "line", first.line)?;
    put_text(alloc, &mut members, "kind", diagnostic.severity.name())?;
    Ok(members)
}

/// Names as an array.
fn names_value(alloc: Global, names: &[&str]) -> Result<Value, AllocError>
    ensures { IfOk result (λ value. view value ≡ array (items_of (map (λ name. string name.now) names.now))) }
{
    let mut values = Vec::new(alloc);
    for name in names {
        values.push(Value::try_from_str(alloc, name)?)?;
    }
    Ok(Value::Array(values))
}

/// The parts of a text that matter to a diagnostic, as an array.
fn related_value(
    alloc: Global,
    origin: Origin<'_>,
    related: &[Related],
) -> Result<Value, AllocError>
    ensures { IfOk result (λ value. IsIndexOf origin.entry.text.now origin.entry.lines.now
        → view value ≡ related_data origin.entry.text.now related.now) }
{
    let mut values = Vec::new(alloc);
    for item in related {
        let first = origin.lines.locate(origin.text, item.start);
        values.push(part_value(alloc, item, first)?)?;
    }
    Ok(Value::Array(values))
}

/// A part of a text, at a location, as an object.
fn part_value(alloc: Global, item: &Related, first: Location) -> Result<Value, AllocError>
    ensures { IfOk result (λ value. view value ≡ part_data item.now first) }
{
    json!(in alloc; {
        "start": item.start,
        "end": item.end,
        "line": first.line,
        "column": first.column,
        "message": item.message.as_str()
    })
}

/// The message of a help, or null.
fn help_value(alloc: Global, help: &Option<Help>) -> Result<Value, AllocError>
    ensures { IfOk result (λ value. view value ≡ help_data help.now) }
{
    match help {
        Some(help) => Value::try_from_str(alloc, help.message.as_str()),
        None => Ok(Value::Null),
    }
}

/// The fix of a help, or null.
fn mended_value(alloc: Global, help: &Option<Help>) -> Result<Value, AllocError>
    ensures { IfOk result (λ value. view value ≡ mended_data help.now) }
{
    match help {
        Some(help) => fix_value(alloc, &help.fix),
        None => Ok(Value::Null),
    }
}

/// The name of an applicability.
fn applicability_name(applicability: Applicability) -> &'static str
    ensures { result.now ≡ applicability_name applicability }
{
    match applicability {
        Applicability::Safe => "safe",
        Applicability::Unsafe => "unsafe",
    }
}

/// A fix as an object, or null.
fn fix_value(alloc: Global, fix: &Option<Fix>) -> Result<Value, AllocError>
    ensures { IfOk result (λ value. view value ≡ fix_data fix.now) }
{
    match fix {
        Some(fix) => json!(in alloc; {
            "applicability": applicability_name(fix.applicability),
            "start": fix.start,
            "end": fix.end,
            "replacement": fix.replacement.as_str()
        }),
        None => Ok(Value::Null),
    }
}
