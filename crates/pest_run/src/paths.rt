//! Texts of open calls.
ghost use Rattle.std.specs.Prelude.{◌≡◌, ◌++◌, List, ℕ, IfOk, None, OnOk, codes, decimal, map, string_bytes, take};
ghost use Rattle.std.specs.Option.{option_copied};
ghost use Rattle.std.specs.Str.{IsCharBoundary};
ghost use Rattle.base_language.specs.Pieces.LineColumn.{line_column};
ghost use Rattle.matcher_program.specs.ExpectedNames.{name_texts};
ghost use Rattle.pest_run.specs.Messages.{place_text};
ghost use Rattle.pest_run.specs.Paths as spec;
ghost use Rattle.program_support.specs.Escapes.{escaped_lines};
ghost use Rattle.serde_json.specs.View.{view};
ghost use Rattle.serde_json.specs.Written.{compact_text};

use crate::arguments::Format;
use crate::messages::show_place;
use base_language::runtime::Position;
use matcher_code::state::OpenCall;
use matcher_engine::walk::text_name;
use program_support::escape::escape_lines;
use program_support::json::escape_json;
use serde_json::{Value, json};
use std::alloc::{AllocError, Global};

/// How many paths are shown as text.
const SHOWN_PATHS: usize = 20;

/// How many calls of a path are shown as text, if it has more: the first and the last ones.
const FIRST_CALLS: usize = 4;

const LAST_CALLS: usize = 12;

const SHOWN_CALLS: usize = 16;

/// Returns the paths to a byte of a text, with the names of the rules: all paths in a line of JSON, or the
/// first 20 in lines of text.
///
/// # Errors
/// `AllocError` if an allocation fails, or if a call begins inside a character.
pub fn show_paths(
    alloc: Global,
    format: Format,
    text: &str,
    names: &[&str],
    place: usize,
    paths: &[Vec<OpenCall>],
) -> Result<String, AllocError>
    requires { IsCharBoundary text.now place }
    ensures { IfOk result (λ shown. string_bytes shown
        ≡ spec.shown_paths format text.now (name_texts names.now) place paths.now) }
{
    match format {
        Format::Json => show_json(alloc, names, place, paths),
        Format::Text | Format::Lines => show_text(alloc, text, names, place, paths),
    }
}

/// Returns the first 20 paths in lines, with escapes of hidden characters.
fn show_text(
    alloc: Global,
    text: &str,
    names: &[&str],
    place: usize,
    paths: &[Vec<OpenCall>],
) -> Result<String, AllocError>
    requires { IsCharBoundary text.now place }
    ensures { IfOk result (λ shown. string_bytes shown
        ≡ escaped_lines (spec.paths_lines text.now (name_texts names.now) place paths.now)) }
{
    let lines = show_lines(alloc, text, names, place, paths)?;
    escape_lines(alloc, lines.as_str())
}

/// Returns the first 20 paths in lines, and how many there are more.
fn show_lines(
    alloc: Global,
    text: &str,
    names: &[&str],
    place: usize,
    paths: &[Vec<OpenCall>],
) -> Result<String, AllocError>
    requires { IsCharBoundary text.now place }
    ensures { IfOk result (λ lines. string_bytes lines
        ≡ spec.paths_lines text.now (name_texts names.now) place paths.now) }
{
    let mut lines = show_head(alloc, text, place)?;
    write_paths(alloc, &mut lines, text, names, first_paths(paths))?;
    write_more(&mut lines, paths.len())?;
    Ok(lines)
}

/// Returns the paths that are shown as text.
fn first_paths(paths: &[Vec<OpenCall>]) -> &[Vec<OpenCall>]
    ensures { result.now ≡ take 20 paths.entry.now }
{
    if paths.len() > SHOWN_PATHS {
        &paths[..SHOWN_PATHS]
    } else {
        paths
    }
}

/// Returns the text before the paths to a place.
fn show_head(alloc: Global, text: &str, place: usize) -> Result<String, AllocError>
    requires { IsCharBoundary text.now place }
    ensures { IfOk result (λ head. string_bytes head
        ≡ codes "open calls and their starts, and the rules expected in them at "
        ++ place_text (line_column text.now place) ++ codes ":") }
{
    let Some(position) = Position::new(text, place) else {
        unreachable!()
    };
    let shown = show_place(alloc, position.line_col())?;
    let mut head = String::from_str(
        alloc,
        "open calls and their starts, and the rules expected in them at ",
    )?;
    head.push_str(shown.as_str())?;
    head.push_str(":")?;
    Ok(head)
}

/// Writes how many of `count` paths are left out.
fn write_more(lines: &mut String, count: usize) -> Result<(), AllocError>
    ensures { OnOk result (string_bytes lines.new ≡ string_bytes lines.old ++ spec.more_text count) }
{
    if count <= SHOWN_PATHS {
        return Ok(());
    }
    let more = count - SHOWN_PATHS;
    write!(lines, "\n  {more} more: --format json prints all")
}

/// Writes paths.
fn write_paths(
    alloc: Global,
    lines: &mut String,
    text: &str,
    names: &[&str],
    paths: &[Vec<OpenCall>],
) -> Result<(), AllocError>
    ensures { OnOk result (string_bytes lines.new ≡ string_bytes lines.old
        ++ spec.paths_text text.now (name_texts names.now) None paths.now) }
{
    let mut before = None;
    let mut rest = paths;
    while let Some((path, others)) = rest.split_first() {
        let calls = outer_calls(path);
        let rule = expected_rule(path);
        write_path(alloc, lines, text, names, before, calls, rule)?;
        before = Some(calls);
        rest = others;
    }
    Ok(())
}

/// Returns the calls of a path around the last one.
fn outer_calls(path: &[OpenCall]) -> &[OpenCall]
    ensures { result.now ≡ spec.outer path.entry.now }
{
    match path.split_last() {
        Some((_, calls)) => calls,
        None => path,
    }
}

/// Returns the number of the rule that is expected at the end of a path.
fn expected_rule(path: &[OpenCall]) -> u32
    ensures { result ≡ spec.expected_rule path.now }
{
    match path.split_last() {
        Some((call, _)) => call.rule,
        None => 0,
    }
}

/// Returns whether calls are those around the path before.
fn is_within(before: Option<&[OpenCall]>, calls: &[OpenCall]) -> bool
    ensures { result ≡ spec.is_within (option_copied before.entry) calls.now }
{
    match before {
        Some(others) => others == calls,
        None => false,
    }
}

/// Writes the expected rule of a path. If the calls are those of the path before, the rule is written after a
/// comma. If not, it is written on a line of its own, with the calls.
fn write_path(
    alloc: Global,
    lines: &mut String,
    text: &str,
    names: &[&str],
    before: Option<&[OpenCall]>,
    calls: &[OpenCall],
    rule: u32,
) -> Result<(), AllocError>
    ensures { OnOk result (string_bytes lines.new ≡ string_bytes lines.old
        ++ spec.path_text text.now (name_texts names.now) (option_copied before.entry) calls.now rule) }
{
    if is_within(before, calls) {
        lines.push_str(", ")?;
    } else {
        lines.push_str("\n  ")?;
        write_open(alloc, lines, text, names, calls)?;
    }
    write_rule(lines, names, rule)
}

/// Writes calls; of more than 16 the first 4, the number of those left out, and the last 12.
fn write_open(
    alloc: Global,
    lines: &mut String,
    text: &str,
    names: &[&str],
    calls: &[OpenCall],
) -> Result<(), AllocError>
    ensures { OnOk result (string_bytes lines.new ≡ string_bytes lines.old
        ++ spec.open_text text.now (name_texts names.now) calls.now) }
{
    let count = calls.len();
    if count <= SHOWN_CALLS {
        return write_calls(alloc, lines, text, names, calls);
    }
    write_calls(alloc, lines, text, names, &calls[..FIRST_CALLS])?;
    write_left_out(lines, count - SHOWN_CALLS)?;
    write_calls(alloc, lines, text, names, &calls[count - LAST_CALLS..])
}

/// Writes how many calls are left out.
fn write_left_out(lines: &mut String, count: usize) -> Result<(), AllocError>
    ensures { OnOk result (string_bytes lines.new
        ≡ string_bytes lines.old ++ (codes "(" ++ decimal count ++ codes " more) > ")) }
{
    write!(lines, "({count} more) > ")
}

/// Writes calls, the outermost first.
fn write_calls(
    alloc: Global,
    lines: &mut String,
    text: &str,
    names: &[&str],
    calls: &[OpenCall],
) -> Result<(), AllocError>
    ensures { OnOk result (string_bytes lines.new ≡ string_bytes lines.old
        ++ spec.calls_text text.now (name_texts names.now) calls.now) }
{
    let mut rest = calls;
    while let Some((call, others)) = rest.split_first() {
        write_call(alloc, lines, text, names, *call)?;
        rest = others;
    }
    Ok(())
}

/// Writes a call and its start.
fn write_call(
    alloc: Global,
    lines: &mut String,
    text: &str,
    names: &[&str],
    call: OpenCall,
) -> Result<(), AllocError>
    ensures { OnOk result (string_bytes lines.new ≡ string_bytes lines.old
        ++ spec.call_text text.now (name_texts names.now) call) }
{
    let Some(start) = Position::new(text, call.start) else {
        return Err(AllocError);
    };
    let place = show_place(alloc, start.line_col())?;
    write_rule(lines, names, call.rule)?;
    lines.push_str(" ")?;
    lines.push_str(place.as_str())?;
    lines.push_str(" > ")
}

/// Writes the name of the rule of a number.
fn write_rule(lines: &mut String, names: &[&str], rule: u32) -> Result<(), AllocError>
    ensures { OnOk result (string_bytes lines.new
        ≡ string_bytes lines.old ++ spec.rule_text (name_texts names.now) rule) }
{
    lines.push_str(name_of(names, rule))
}

/// Returns the name of the rule of a number.
fn name_of<'a>(names: &'a [&'a str], rule: u32) -> &'a str
    ensures { result.now ≡ spec.rule_text (name_texts names.entry.now) rule }
{
    text_name(names, rule)
}

/// Returns all paths to a place in a line of JSON.
fn show_json(
    alloc: Global,
    names: &[&str],
    place: usize,
    paths: &[Vec<OpenCall>],
) -> Result<String, AllocError>
    ensures { (text : List ℕ) → IfOk result (λ line. string_bytes line
        ≡ spec.shown_paths Format.Json text (name_texts names.now) place paths.now) }
{
    let json = paths_json(alloc, names, place, paths)?;
    let mut line = escape_json(alloc, json.as_str())?;
    line.push_str("\n")?;
    Ok(line)
}

/// Returns all paths to a place as JSON.
fn paths_json(
    alloc: Global,
    names: &[&str],
    place: usize,
    paths: &[Vec<OpenCall>],
) -> Result<String, AllocError>
    ensures { IfOk result (λ json. string_bytes json
        ≡ compact_text (spec.paths_data (name_texts names.now) place paths.now)) }
{
    let value = paths_value(alloc, names, place, paths)?;
    value.to_string(alloc)
}

/// Returns all paths to a place as a value.
fn paths_value(
    alloc: Global,
    names: &[&str],
    place: usize,
    paths: &[Vec<OpenCall>],
) -> Result<Value, AllocError>
    ensures { IfOk result (λ value. view value ≡ spec.paths_data (name_texts names.now) place paths.now) }
{
    let values = path_values(alloc, names, paths)?;
    json!(in alloc; { "paths": Value::Array(values), "place": place })
}

/// Returns paths as values.
fn path_values(
    alloc: Global,
    names: &[&str],
    paths: &[Vec<OpenCall>],
) -> Result<Vec<Value>, AllocError>
    ensures { IfOk result (λ values. map view values.items
        ≡ map (λ p. spec.path_data (name_texts names.now) p.items) paths.now) }
{
    let mut values = Vec::new(alloc);
    for path in paths {
        values.push(path_value(alloc, names, path)?)?;
    }
    Ok(values)
}

/// Returns a path as a value.
fn path_value(alloc: Global, names: &[&str], path: &[OpenCall]) -> Result<Value, AllocError>
    ensures { IfOk result (λ value. view value ≡ spec.path_data (name_texts names.now) path.now) }
{
    let mut values = Vec::new(alloc);
    for call in path {
        values.push(call_value(alloc, names, *call)?)?;
    }
    Ok(Value::Array(values))
}

/// Returns a call as a value.
fn call_value(alloc: Global, names: &[&str], call: OpenCall) -> Result<Value, AllocError>
    ensures { IfOk result (λ value. view value ≡ spec.call_data (name_texts names.now) call) }
{
    let rule = name_of(names, call.rule);
    json!(in alloc; { "rule": rule, "start": call.start })
}
