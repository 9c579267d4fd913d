//! Logs of SARIF 2.1.0.
ghost use Rattle.std.specs.Prelude.{◌≡◌, IfOk, false, string_bytes};
ghost use Rattle.serde_json.specs.Data.{array};
ghost use Rattle.serde_json.specs.View.{items_view, view};
ghost use Rattle.serde_json.specs.Written.{items_have_float};
ghost use Rattle.lint_output.specs.Json.{json_line};
ghost use Rattle.lint_output.specs.Locations.{IsIndexOf};
ghost use Rattle.lint_output.specs.Sarif.{change_data, file_fix_data, fixes_for, fixes_of, list_data, located_data, locations_data, log_data};
ghost use Rattle.lint_output.specs.Sarif.{IsRule, place_data, region_data, replacement_data, result_data, rule_data, run_data, text_data};

use crate::Origin;
use crate::github::full_message;
use crate::json::to_line;
use crate::lines::Location;
use lint_findings::{Code, Diagnostic, Fix, Help};
use serde_json::{Value, json};
use std::alloc::{AllocError, Global};

/// A diagnostic as a result of a log.
pub fn sarif_result(
    alloc: Global,
    origin: Origin<'_>,
    diagnostic: &Diagnostic,
) -> Result<Value, AllocError>
    ensures { IfOk result (λ value. IsIndexOf origin.entry.text.now origin.entry.lines.now
        → view value ≡ result_data origin.entry.name.now origin.entry.text.now diagnostic.now) }
{
    let fixes = fixes_value(alloc, origin, &diagnostic.help)?;
    let first = origin.lines.locate(origin.text, diagnostic.start);
    let last = origin.lines.locate(origin.text, diagnostic.end);
    located_value(alloc, origin.name, diagnostic, fixes, first, last)
}

/// A diagnostic between two locations of a file, with fixes.
fn located_value(
    alloc: Global,
    name: &str,
    diagnostic: &Diagnostic,
    fixes: Value,
    first: Location,
    last: Location,
) -> Result<Value, AllocError>
    ensures { IfOk result (λ value.
        view value ≡ located_data name.now diagnostic.now (view fixes) first last) }
{
    let locations = locations_value(alloc, name, diagnostic.start, first, last)?;
    let text = full_message(alloc, diagnostic)?;
    let message = text_value(alloc, text.as_str())?;
    json!(in alloc; {
        "ruleId": diagnostic.code.name(),
        "level": diagnostic.severity.name(),
        "message": message,
        "locations": locations,
        "fixes": fixes
    })
}

/// A text as a message, or as a part of a file.
fn text_value(alloc: Global, text: &str) -> Result<Value, AllocError>
    ensures { IfOk result (λ value. view value ≡ text_data text.now) }
{
    json!(in alloc; {"text": text})
}

/// The region of a file that begins at a byte and lies between two locations, as the only location.
fn locations_value(
    alloc: Global,
    name: &str,
    start: usize,
    first: Location,
    last: Location,
) -> Result<Value, AllocError>
    ensures { IfOk result (λ value. view value ≡ locations_data name.now start first last) }
{
    let place = place_value(alloc, name, start, first, last)?;
    json!(in alloc; [{"physicalLocation": place}])
}

/// The fixes that a help has, of a file's text: one, or none.
fn fixes_value(alloc: Global, origin: Origin<'_>, help: &Option<Help>) -> Result<Value, AllocError>
    ensures { IfOk result (λ value. IsIndexOf origin.entry.text.now origin.entry.lines.now
        → view value ≡ array (fixes_of origin.entry.name.now origin.entry.text.now help.now)) }
{
    match help {
        Some(help) => fixes_for(alloc, origin, help.message.as_str(), &help.fix),
        None => Ok(Value::Array(Vec::new(alloc))),
    }
}

/// The fixes under a message, of a file's text: one, or none.
fn fixes_for(
    alloc: Global,
    origin: Origin<'_>,
    message: &str,
    fix: &Option<Fix>,
) -> Result<Value, AllocError>
    ensures { IfOk result (λ value. IsIndexOf origin.entry.text.now origin.entry.lines.now
        → view value ≡ array (fixes_for origin.entry.name.now origin.entry.text.now message.now fix.now)) }
{
    let Some(fix) = fix else {
        return Ok(Value::Array(Vec::new(alloc)));
    };
    let first = origin.lines.locate(origin.text, fix.start);
    let last = origin.lines.locate(origin.text, fix.end);
    file_fix_value(alloc, origin.name, message, fix, first, last)
}

/// A fix of a file, between two locations, alone in an array.
fn file_fix_value(
    alloc: Global,
    name: &str,
    message: &str,
    fix: &Fix,
    first: Location,
    last: Location,
) -> Result<Value, AllocError>
    ensures { IfOk result (λ value.
        view value ≡ list_data (file_fix_data name.now message.now fix.now first last)) }
{
    let change = change_value(alloc, name, fix, first, last)?;
    let description = text_value(alloc, message)?;
    json!(in alloc; [{"description": description, "artifactChanges": [change]}])
}

/// The change of a file by a fix.
fn change_value(
    alloc: Global,
    name: &str,
    fix: &Fix,
    first: Location,
    last: Location,
) -> Result<Value, AllocError>
    ensures { IfOk result (λ value. view value ≡ change_data name.now fix.now first last) }
{
    let replacement = replacement_value(alloc, fix, first, last)?;
    json!(in alloc; {"artifactLocation": {"uri": name}, "replacements": [replacement]})
}

/// The replacement by a fix, between two locations.
fn replacement_value(
    alloc: Global,
    fix: &Fix,
    first: Location,
    last: Location,
) -> Result<Value, AllocError>
    ensures { IfOk result (λ value. view value ≡ replacement_data fix.now first last) }
{
    let region = region_value(alloc, fix.start, first, last)?;
    let content = text_value(alloc, fix.replacement.as_str())?;
    json!(in alloc; {"deletedRegion": region, "insertedContent": content})
}

/// A code as a rule of a log, with the first sentence of its page, without the full stop, and all of it.
pub fn sarif_rule(alloc: Global, code: Code, page: &str) -> Result<Value, AllocError>
    ensures { IfOk result (λ value. IsRule code page.now (view value)) }
{
    let short = first_sentence(page);
    rule_value(alloc, code, short, page)
}

/// A text up to its first full stop.
fn first_sentence(text: &str) -> &str {
    match text.split_once('.') {
        Some((first, _)) => first,
        None => text,
    }
}

/// A code as a rule, with a short description and a page.
fn rule_value(alloc: Global, code: Code, short: &str, page: &str) -> Result<Value, AllocError>
    ensures { IfOk result (λ value. view value ≡ rule_data code short.now page.now) }
{
    json!(in alloc; {
        "id": code.name(),
        "shortDescription": {"text": short},
        "help": {"text": page},
        "defaultConfiguration": {"level": code.severity().name()}
    })
}

/// A file, and the region of it between two locations.
fn place_value(
    alloc: Global,
    name: &str,
    start: usize,
    first: Location,
    last: Location,
) -> Result<Value, AllocError>
    ensures { IfOk result (λ value. view value ≡ place_data name.now start first last) }
{
    let region = region_value(alloc, start, first, last)?;
    json!(in alloc; {"artifactLocation": {"uri": name}, "region": region})
}

/// The region between two locations, of which the first is this byte.
fn region_value(
    alloc: Global,
    start: usize,
    first: Location,
    last: Location,
) -> Result<Value, AllocError>
    ensures { IfOk result (λ value. view value ≡ region_data start first last) }
{
    json!(in alloc; {
        "startLine": first.line,
        "startColumn": first.column,
        "endLine": last.line,
        "endColumn": last.column,
        "byteOffset": start
    })
}

/// A log with these rules and results, and a line feed.
pub fn sarif_log(
    alloc: Global,
    rules: Vec<Value>,
    results: Vec<Value>,
) -> Result<String, AllocError>
    ensures { IfOk result (λ text. items_have_float (items_view rules.items) ≡ false
        → items_have_float (items_view results.items) ≡ false
        → string_bytes text ≡ json_line (log_data (items_view rules.items) (items_view results.items))) }
{
    let log = log_value(alloc, rules, results)?;
    to_line(alloc, &log)
}

/// A log with one run, of these rules and results.
fn log_value(alloc: Global, rules: Vec<Value>, results: Vec<Value>) -> Result<Value, AllocError>
    ensures { IfOk result (λ value.
        view value ≡ log_data (items_view rules.items) (items_view results.items)) }
{
    let run = run_value(alloc, rules, results)?;
    json!(in alloc; {
        "$schema": "https://json.schemastore.org/sarif-2.1.0.json",
        "version": "2.1.0",
        "runs": [run]
    })
}

/// A run of the linter with these rules and results.
fn run_value(alloc: Global, rules: Vec<Value>, results: Vec<Value>) -> Result<Value, AllocError>
    ensures { IfOk result (λ value.
        view value ≡ run_data (items_view rules.items) (items_view results.items)) }
{
    json!(in alloc; {
        "tool": {"driver": {"name": "pest-lint", "rules": Value::Array(rules)}},
        "columnKind": "unicodeCodePoints",
        "results": Value::Array(results)
    })
}
