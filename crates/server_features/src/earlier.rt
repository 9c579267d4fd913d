//! Warnings of an earlier text that stay, by a map from the bytes of definitions to their place.
ghost use Rattle.std.specs.Prelude.{◌≡◌, ◌++◌, All, IfOk, IfSome, List, OnOk, false, string_bytes};
ghost use Rattle.lint_findings.specs.Reports as reports;
ghost use Rattle.lint_findings.specs.declared.diagnostic.Diagnostic.{Diagnostic};
ghost use Rattle.lint_hints.specs.declared.help.Related.{Related};
ghost use Rattle.server_features.specs.Earlier as spec;
ghost use Rattle.server_features.specs.Earlier.{AreMoves, IsMoved, IsMovedAmong, IsMovedPart, Stays, StaysAmong};
ghost use Rattle.server_features.specs.Earlier.{IsSame, help_message};

use crate::diagnoses::{Diagnosis, is_error};
use crate::diagnostics::extent_of;
use lint_diagnostics::{Diagnostic, Help, Related};
use server_requests::context::part_of;
use server_symbols::{Definition, Extent};
use std::alloc::{AllocError, Global};
use std::collections::HashMap;

/// A definition of an earlier text, and one of the same bytes in the later text.
#[derive(Clone, Copy)]
pub(crate) struct Move {
    pub from: Extent,
    pub to: Extent,
}

/// The definitions of an earlier text that a later one has.
#[derive(Drop)]
pub(crate) struct Moves<'t> {
    pub earlier: &'t str,
    pub text: &'t str,
    /// In the order of the earlier text.
    pub moves: Vec<Move>,
}

/// Returns the warnings of an earlier text that stay in a later one with these definitions, at their
/// positions there. A warning stays if the later text has the definition that it is in, byte for byte.
pub(crate) fn staying_warnings(
    alloc: Global,
    earlier: &Diagnosis,
    text: &str,
    definitions: &[Definition],
) -> Result<Vec<Diagnostic>, AllocError>
    ensures { IfOk result (λ found. All (StaysAmong (string_bytes earlier.now.text) text.now
        earlier.now.diagnostics.items) found.items) }
{
    let places = places_of(alloc, text, definitions)?;
    let moves = moves_between(
        alloc,
        earlier.text.as_str(),
        &earlier.definitions,
        text,
        &places,
    )?;
    let mut found = Vec::new(alloc);
    for diagnostic in &earlier.diagnostics {
        push_staying(alloc, &moves, diagnostic, &mut found)?;
    }
    Ok(found)
}

/// Returns those of the definitions of an earlier text that a later one has, which has definitions at these
/// places.
fn moves_between<'t>(
    alloc: Global,
    earlier: &'t str,
    definitions: &[Definition],
    text: &'t str,
    places: &HashMap<&str, Extent>,
) -> Result<Moves<'t>, AllocError>
    ensures before { IfOk result (λ moves. moves.earlier.now ≡ earlier.entry.now) }
    ensures after { IfOk result (λ moves. moves.text.now ≡ text.entry.now) }
    ensures same { IfOk result AreMoves }
{
    let mut moves = Vec::new(alloc);
    for definition in definitions {
        push_move(earlier, text, places, definition.whole, &mut moves)?;
    }
    Ok(Moves {
        earlier,
        text,
        moves,
    })
}

/// Returns the positions of the definitions of a text, by their bytes.
fn places_of<'t>(
    alloc: Global,
    text: &'t str,
    definitions: &[Definition],
) -> Result<HashMap<&'t str, Extent>, AllocError> {
    let mut places = HashMap::new(alloc);
    for definition in definitions {
        places.insert(part_of(text, definition.whole), definition.whole)?;
    }
    Ok(places)
}

/// Adds a definition of an earlier text, if the later one has it.
fn push_move(
    earlier: &str,
    text: &str,
    places: &HashMap<&str, Extent>,
    from: Extent,
    moves: &mut Vec<Move>,
) -> Result<(), AllocError>
    ensures { OnOk result (All (spec.IsMove earlier.now text.now) moves.old.items
        → All (spec.IsMove earlier.now text.now) moves.new.items) }
{
    let bytes = part_of(earlier, from);
    let Some(to) = places.get(&bytes) else {
        return Ok(());
    };
    if !bytes.is_empty() && bytes == part_of(text, *to) {
        moves.push(Move { from, to: *to })?;
    }
    Ok(())
}

/// Adds a diagnostic at its place in the later text, if it is a warning that stays.
fn push_staying(
    alloc: Global,
    moves: &Moves<'_>,
    diagnostic: &Diagnostic,
    found: &mut Vec<Diagnostic>,
) -> Result<(), AllocError>
    requires { AreMoves moves.now }
    ensures { OnOk result ((more : List Diagnostic) × (found.new.items ≡ found.old.items ++ more)
        × All (Stays moves.now.earlier.now moves.now.text.now diagnostic.now) more) }
{
    if is_error(diagnostic) {
        return Ok(());
    }
    if let Some(extent) = move_extent(moves, diagnostic.start, diagnostic.end) {
        let diagnostic = move_warning(alloc, moves, diagnostic, extent)?;
        found.push(diagnostic)?;
    }
    Ok(())
}

/// Returns the extent in the later text of the bytes from `start` up to `end` of the earlier one, if they are
/// in a definition that the later text has.
fn move_extent(moves: &Moves<'_>, start: usize, end: usize) -> Option<Extent>
    requires { AreMoves moves.now }
    ensures { IfSome result (λ extent. IsMoved moves.now.earlier.now moves.now.text.now start end
        extent.start extent.end) }
{
    let number = moves.moves.partition_point(|place| place.from.end < end);
    shift(*moves.moves.get(number)?, start, end)
}

/// Returns the extent of the bytes from `start` up to `end` after a definition was moved, if they are in it.
fn shift(place: Move, start: usize, end: usize) -> Option<Extent>
    ensures { IfSome result (spec.IsShifted place start end) }
{
    if start < place.from.start || end < start || place.from.end < end {
        return None;
    }
    let first = place.to.start.checked_add(start - place.from.start)?;
    let last = place.to.start.checked_add(end - place.from.start)?;
    Some(extent_of(first, last))
}

/// Returns a warning of the earlier text at its place in the later one, without its fix.
fn move_warning(
    alloc: Global,
    moves: &Moves<'_>,
    diagnostic: &Diagnostic,
    extent: Extent,
) -> Result<Diagnostic, AllocError>
    requires moves { AreMoves moves.now }
    requires warning { reports.is_error diagnostic.now ≡ false }
    requires moved { IsMoved moves.now.earlier.now moves.now.text.now diagnostic.now.start diagnostic.now.end
        extent.start extent.end }
    ensures { IfOk result (Stays moves.now.earlier.now moves.now.text.now diagnostic.now) }
{
    Ok(Diagnostic {
        code: diagnostic.code,
        severity: diagnostic.severity,
        start: extent.start,
        end: extent.end,
        message: String::from_str(alloc, diagnostic.message.as_str())?,
        expected: Vec::new(alloc),
        related: move_parts(alloc, moves, &diagnostic.related)?,
        help: help_of(alloc, diagnostic)?,
    })
}

/// Returns the help of a diagnostic, without its fix.
fn help_of(alloc: Global, diagnostic: &Diagnostic) -> Result<Option<Help>, AllocError>
    ensures { IfOk result (λ help. help_message help ≡ help_message diagnostic.now.help) }
{
    match &diagnostic.help {
        Some(help) => Ok(Some(Help::new(alloc, help.message.as_str())?)),
        None => Ok(None),
    }
}

/// Returns those of some parts of the earlier text that the later one has, at their places there.
fn move_parts(
    alloc: Global,
    moves: &Moves<'_>,
    parts: &[Related],
) -> Result<Vec<Related>, AllocError>
    requires { AreMoves moves.now }
    ensures { IfOk result (λ found.
        All (IsMovedAmong moves.now.earlier.now moves.now.text.now parts.now) found.items) }
{
    let mut found = Vec::new(alloc);
    for part in parts {
        push_part(alloc, moves, part, &mut found)?;
    }
    Ok(found)
}

/// Adds a part of the earlier text at its place in the later one, if that has it.
fn push_part(
    alloc: Global,
    moves: &Moves<'_>,
    part: &Related,
    found: &mut Vec<Related>,
) -> Result<(), AllocError>
    requires { AreMoves moves.now }
    ensures { OnOk result ((more : List Related) × (found.new.items ≡ found.old.items ++ more)
        × All (IsMovedPart moves.now.earlier.now moves.now.text.now part.now) more) }
{
    if let Some(extent) = move_extent(moves, part.start, part.end) {
        let part = Related::new(alloc, extent.start, extent.end, part.message.as_str())?;
        found.push(part)?;
    }
    Ok(())
}
