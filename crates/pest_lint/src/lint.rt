//! Diagnosing files.
ghost use Rattle.std.specs.Prelude.{◌≡◌, ◌≢◌, ◌≤◌, ◌⊎◌, ◌↔◌, ℕ, List, All, IfOk, IfSome, IsSome, false, filter, string_bytes, true};
ghost use Rattle.std.specs.Io.KnownBytes.{Appends};
ghost use Rattle.std.specs.List.{list_any};
ghost use Rattle.lint_findings.specs.Reports.{is_error};
ghost use Rattle.lint_output.specs.Locations.{IsIndexOf};
ghost use Rattle.lint_diagnostics.specs.Diagnosis.{IsDiagnosisWith};
ghost use Rattle.lint_warnings.specs.Lists.{texts_of};
ghost use Rattle.pest_lint.specs.Reports.{Tells, memory_line, reason, unreadable_line};
ghost use Rattle.pest_lint.specs.Shows as spec;
ghost use Rattle.pest_lint.specs.Shows.{ArePrinted, AreShown, Gains, GainsAll, GainsWithEnd, IsClean, IsEnd, IsReadable, ShowsText, asked_of};
ghost use Rattle.pest_meta.specs.Spelling.{HasAnswer};

use crate::arguments::{Format, Settings};
use crate::counts::Counts;
use lint_diagnostics::{Code, Diagnostic, Options, Severity, diagnose, diagnose_all};
use lint_output::{LineIndex, Origin, Style, print_diagnostic, to_visible};
use program_support::output::Output;
use std::alloc::{AllocError, Global};
use std::io::Write;

/// No error was found, and no warning that is denied.
pub const CLEAN: u8 = 0;
/// An error or a denied warning was found.
pub const FOUND: u8 = 1;
/// An allocation failed.
pub const MEMORY: u8 = 2;
/// A file can't be read.
pub const UNREADABLE: u8 = 3;
/// Standard output refused a write, or a file can't be replaced.
pub const UNWRITABLE: u8 = 4;

/// A file: its name, its bytes, and why they can't be read, if so.
#[derive(Drop)]
pub struct Source {
    pub name: String,
    pub bytes: Vec<u8>,
    pub why: Option<String>,
}

/// Diagnoses each file, and prints what is found to `out`, in order. The status is the highest of theirs: 1
/// if there are errors, or warnings that are denied. Text ends with a line that counts them.
///
/// A file that can't be read is reported on `err`, and the others are diagnosed all the same (3). If an
/// allocation fails (2) or `out` refuses a write (4), the run ends.
pub fn print_sources<W: Write, E: Write>(
    alloc: Global,
    sources: &[Source],
    settings: Settings<'_>,
    style: Style,
    out: &mut Output<W>,
    err: &mut Output<E>,
) -> u8
    ensures known { result ≤ 4 }
    ensures clean { result ≡ 0 → All IsClean sources.now }
    ensures shows { result ≢ 2 → result ≢ 4
        → GainsWithEnd (asked_of settings.entry) style sources.now result
        (W.contents out.old.writer) (W.contents out.new.writer) }
    ensures taken { result ≢ 4 → out.new.refused ≡ out.old.refused }
    ensures refused_write { result ≡ 4 → out.new.refused ≡ true }
{
    let mut counts = Counts::default();
    let status = print_files(alloc, sources, settings, style, &mut counts, out, err);
    if status == MEMORY || status == UNWRITABLE {
        return status;
    }
    let Ok(end) = end_of(alloc, style, counts) else {
        return MEMORY;
    };
    let Ok(()) = out.write_text(end.as_str()) else {
        return UNWRITABLE;
    };
    status
}

/// The end of a stream, below all files: of text a line of counts, if there is something to count.
fn end_of(alloc: Global, style: Style, counts: Counts) -> Result<String, AllocError>
    ensures { IfOk result (λ end. IsEnd style (string_bytes end)) }
{
    match style {
        Style::Text(_) => counts.line(alloc),
        Style::Json | Style::Github => Ok(String::new(alloc)),
    }
}

/// Diagnoses each file, prints what is found, counts it, and answers the highest status.
fn print_files<W: Write, E: Write>(
    alloc: Global,
    sources: &[Source],
    settings: Settings<'_>,
    style: Style,
    counts: &mut Counts,
    out: &mut Output<W>,
    err: &mut Output<E>,
) -> u8
    ensures known { result ≤ 4 }
    ensures clean { result ≡ 0 → All IsClean sources.now }
    ensures shows { result ≢ 2 → result ≢ 4
        → GainsAll (asked_of settings.entry) style sources.now result
        (W.contents out.old.writer) (W.contents out.new.writer) }
    ensures taken { result ≢ 4 → out.new.refused ≡ out.old.refused }
    ensures refused_write { result ≡ 4 → out.new.refused ≡ true }
{
    let mut status = CLEAN;
    for source in sources {
        let one = print_file(alloc, source, settings, style, counts, out, err);
        status = status.max(one);
        if one == MEMORY || one == UNWRITABLE {
            return one;
        }
    }
    status
}

/// Diagnoses a file, prints what is found, counts it, and answers its status.
fn print_file<W: Write, E: Write>(
    alloc: Global,
    source: &Source,
    settings: Settings<'_>,
    style: Style,
    counts: &mut Counts,
    out: &mut Output<W>,
    err: &mut Output<E>,
) -> u8
    ensures known { result ≤ 4 }
    ensures clean { result ≡ 0 → IsClean source.now }
    ensures shows { result ≢ 2 → result ≢ 4
        → Gains (asked_of settings.entry) style source.now result
        (W.contents out.old.writer) (W.contents out.new.writer) }
    ensures taken { result ≢ 4 → out.new.refused ≡ out.old.refused }
    ensures refused_write { result ≡ 4 → out.new.refused ≡ true }
{
    let Some(text) = text_of(source) else {
        return report_unreadable(alloc, source, err);
    };
    let status = print_text(
        alloc,
        source.name.as_str(),
        text,
        settings,
        style,
        counts,
        out,
    );
    if status == MEMORY {
        report_memory(alloc, source, err);
    }
    status
}

/// The text of a file, if it can be read and is UTF-8.
pub fn text_of(source: &Source) -> Option<&str>
    ensures readable { IsSome result ↔ IsReadable source.entry.now }
    ensures text { IfSome result (λ text. text.now ≡ source.entry.now.bytes.items) }
{
    match source.why {
        Some(_) => None,
        None => str::from_utf8(&source.bytes).ok(),
    }
}

/// Reports a file that can't be read, and answers its status.
pub fn report_unreadable<E: Write>(alloc: Global, source: &Source, err: &mut Output<E>) -> u8
    ensures status { result ≡ 3 }
    ensures told { Tells (unreadable_line source.now)
        (E.contents err.old.writer) (E.contents err.new.writer) err.new.refused }
{
    let Ok(name) = to_visible(alloc, source.name.as_str()) else {
        return UNREADABLE;
    };
    let name = name.as_str();
    let why = reason_of(source);
    let _ = err.write_line(&["cannot read ", name, ": ", why]);
    UNREADABLE
}

/// Why a file can't be read.
fn reason_of(source: &Source) -> &str
    ensures { result.now ≡ reason source.entry.now.why }
{
    match &source.why {
        Some(why) => why.as_str(),
        None => "it is not UTF-8",
    }
}

/// Reports that an allocation failed at a file.
pub fn report_memory<E: Write>(alloc: Global, source: &Source, err: &mut Output<E>)
    ensures { Tells (memory_line source.now)
        (E.contents err.old.writer) (E.contents err.new.writer) err.new.refused }
{
    let Ok(name) = to_visible(alloc, source.name.as_str()) else {
        return;
    };
    let name = name.as_str();
    let _ = err.write_line(&["out of memory at ", name]);
}

/// Diagnoses a text, prints what is found, counts it, and answers its status.
fn print_text<W: Write>(
    alloc: Global,
    name: &str,
    text: &str,
    settings: Settings<'_>,
    style: Style,
    counts: &mut Counts,
    out: &mut Output<W>,
) -> u8
    ensures known { (result ≡ 0) ⊎ ((result ≡ 1) ⊎ ((result ≡ 2) ⊎ (result ≡ 4))) }
    ensures clean { result ≡ 0 → HasAnswer text.now }
    ensures shows { result ≢ 2 → result ≢ 4 → (bytes : List ℕ)
        × ShowsText (asked_of settings.entry) style name.now text.now bytes result
        × Appends (W.contents out.old.writer) (W.contents out.new.writer) bytes }
    ensures taken { result ≢ 4 → out.new.refused ≡ out.old.refused }
    ensures refused_write { result ≡ 4 → out.new.refused ≡ true }
{
    let Ok(diagnostics) = diagnose_text(alloc, text, settings) else {
        return MEMORY;
    };
    let Ok(lines) = LineIndex::new(alloc, text) else {
        return MEMORY;
    };
    let origin = Origin {
        name,
        text,
        lines: &lines,
    };
    let status = print_all(alloc, origin, &diagnostics, style, out);
    if status != CLEAN {
        return status;
    }
    counts.add(&diagnostics);
    status_of(&diagnostics, settings)
}

/// Returns the diagnostics of a text that are asked for. Warnings of allowed codes are not among them.
///
/// # Errors
/// `AllocError` if an allocation fails.
pub fn diagnose_text(
    alloc: Global,
    text: &str,
    settings: Settings<'_>,
) -> Result<Vec<Diagnostic>, AllocError>
    ensures diagnosis { IfOk result (λ diagnostics.
        AreShown (asked_of settings.entry) text.now diagnostics.items) }
    ensures accepted { IfOk result (λ diagnostics.
        list_any is_error diagnostics.items ≡ false → HasAnswer text.now) }
{
    let mut diagnostics = diagnose_asked(alloc, text, settings)?;
    retain_shown(&mut diagnostics, settings);
    Ok(diagnostics)
}

/// Returns the diagnostics of a text: with `--warn all` also those that are reported on request.
fn diagnose_asked(
    alloc: Global,
    text: &str,
    settings: Settings<'_>,
) -> Result<Vec<Diagnostic>, AllocError>
    ensures diagnosis { IfOk result (λ diagnostics. IsDiagnosisWith settings.entry.warn_all
        (texts_of settings.entry.starts.now) text.now diagnostics.items) }
    ensures accepted { IfOk result (λ diagnostics.
        list_any is_error diagnostics.items ≡ false → HasAnswer text.now) }
{
    let options = Options {
        starts: settings.starts,
    };
    if settings.warn_all {
        diagnose_all(alloc, text, options)
    } else {
        diagnose(alloc, text, options)
    }
}

/// Removes the warnings whose codes are allowed.
fn retain_shown(diagnostics: &mut Vec<Diagnostic>, settings: Settings<'_>)
    ensures { diagnostics.new.items
        ≡ filter (spec.is_shown (asked_of settings.entry)) diagnostics.old.items }
{
    diagnostics.retain(|diagnostic| is_shown(diagnostic, settings));
}

/// Whether a diagnostic is an error, or a warning whose code is not allowed.
fn is_shown(diagnostic: &Diagnostic, settings: Settings<'_>) -> bool
    ensures { result ≡ spec.is_shown (asked_of settings.entry) diagnostic.now }
{
    is_error(diagnostic) || !has_one_of(settings.allowed, diagnostic)
}

/// Whether a diagnostic is an error.
fn is_error(diagnostic: &Diagnostic) -> bool
    ensures { result ≡ is_error diagnostic.now }
{
    matches!(diagnostic.severity, Severity::Error)
}

/// Whether the code of a diagnostic is one of some codes.
fn has_one_of(codes: &[Code], diagnostic: &Diagnostic) -> bool
    ensures { result ≡ spec.has_one_of codes.now diagnostic.now }
{
    codes.iter().any(|code| has_code(diagnostic, *code))
}

/// Whether a diagnostic has this code.
fn has_code(diagnostic: &Diagnostic, code: Code) -> bool
    ensures { result ≡ spec.has_code diagnostic.now code }
{
    code.name() == diagnostic.code.name()
}

/// Returns the status of diagnostics: 1 if one is an error or a denied warning, otherwise 0.
pub fn status_of(diagnostics: &[Diagnostic], settings: Settings<'_>) -> u8
    ensures { result ≡ spec.status_of (asked_of settings.entry) diagnostics.now }
{
    let is_found = has_counted(diagnostics, settings);
    if is_found { FOUND } else { CLEAN }
}

/// Whether one of these counts.
fn has_counted(diagnostics: &[Diagnostic], settings: Settings<'_>) -> bool
    ensures { result ≡ list_any (spec.counts (asked_of settings.entry)) diagnostics.now }
{
    diagnostics
        .iter()
        .any(|diagnostic| is_counted(diagnostic, settings))
}

/// Whether a diagnostic is an error or a denied warning.
fn is_counted(diagnostic: &Diagnostic, settings: Settings<'_>) -> bool
    ensures { result ≡ spec.counts (asked_of settings.entry) diagnostic.now }
{
    settings.deny_warnings || is_error(diagnostic) || has_one_of(settings.denied, diagnostic)
}

/// Prints diagnostics, in order. Answers 0, or why it ended before.
fn print_all<W: Write>(
    alloc: Global,
    origin: Origin<'_>,
    diagnostics: &[Diagnostic],
    style: Style,
    out: &mut Output<W>,
) -> u8
    ensures known { (result ≡ 0) ⊎ ((result ≡ 2) ⊎ (result ≡ 4)) }
    ensures shows { IsIndexOf origin.entry.text.now origin.entry.lines.now → result ≡ 0 → (bytes : List ℕ)
        × ArePrinted style origin.entry.name.now origin.entry.text.now diagnostics.now bytes
        × Appends (W.contents out.old.writer) (W.contents out.new.writer) bytes }
    ensures taken { result ≢ 4 → out.new.refused ≡ out.old.refused }
    ensures refused_write { result ≡ 4 → out.new.refused ≡ true }
{
    for diagnostic in diagnostics {
        let Ok(text) = print_diagnostic(alloc, origin, diagnostic, style) else {
            return MEMORY;
        };
        let Ok(()) = out.write_text(text.as_str()) else {
            return UNWRITABLE;
        };
    }
    CLEAN
}
