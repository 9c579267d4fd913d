//! Fixing files.
ghost use Rattle.std.specs.Prelude.{◌≡◌, ◌⊎◌, IfOk, OnOk, string_bytes};
ghost use Rattle.std.specs.List.{AllZip};
ghost use Rattle.lint_diagnostics.specs.Fixing.{IsMended};
ghost use Rattle.lint_warnings.specs.Lists.{texts_of};
ghost use Rattle.pest_lint.specs.Fixing.{IsKept};

use crate::diff::diff;
use crate::lint::{CLEAN, FOUND, Source, UNWRITABLE, text_of};
use lint_diagnostics::{Applied, Mended, Options, fix_text};
use lint_output::to_visible;
use program_support::replacement::replace;
use std::alloc::AllocError;
use std::io;

/// How files are fixed.
#[derive(Clone, Copy)]
pub struct FixOptions<'a> {
    /// Unsafe fixes are applied, too.
    pub takes_unsafe: bool,
    /// Rules with which matching starts.
    pub starts: &'a [&'a str],
}

/// How many fixes were applied, to how many files, and how many files can't be replaced.
#[derive(Clone, Copy)]
struct Tally {
    fixes: usize,
    files: usize,
    refused: usize,
}

/// Fixes files, and replaces those that change. Standard error gets a line for each fix, the number of fixes,
/// and the names of files that can't be replaced. Such a file stays as it was, and the status is 4; otherwise
/// it is 0. Standard input is left alone.
///
/// # Errors
/// `AllocError` if an allocation fails.
pub fn fix_files(
    rt: &HostRuntime,
    sources: &mut [Source],
    options: FixOptions<'_>,
) -> Result<u8, AllocError>
    ensures known { IfOk result (λ status. (status ≡ 0) ⊎ (status ≡ 4)) }
    ensures kept { OnOk result (AllZip (IsKept options.entry.takes_unsafe
        (texts_of options.entry.starts.now)) sources.old sources.new) }
{
    let mut tally = Tally {
        fixes: 0,
        files: 0,
        refused: 0,
    };
    fix_all(rt, sources, options, &mut tally)?;
    report_tally(rt, tally, options.takes_unsafe);
    Ok(if tally.refused == 0 {
        CLEAN
    } else {
        UNWRITABLE
    })
}

/// Fixes files, in order.
fn fix_all(
    rt: &HostRuntime,
    sources: &mut [Source],
    options: FixOptions<'_>,
    tally: &mut Tally,
) -> Result<(), AllocError>
    ensures { OnOk result (AllZip (IsKept options.entry.takes_unsafe
        (texts_of options.entry.starts.now)) sources.old sources.new) }
{
    for source in sources.iter_mut() {
        fix_file(rt, source, options, tally)?;
    }
    Ok(())
}

/// Fixes a file, and replaces it if it changes.
fn fix_file(
    rt: &HostRuntime,
    source: &mut Source,
    options: FixOptions<'_>,
    tally: &mut Tally,
) -> Result<(), AllocError>
    ensures { OnOk result (IsKept options.entry.takes_unsafe (texts_of options.entry.starts.now)
        source.old source.new) }
{
    let alloc = rt.alloc();
    if source.name.as_str() == "-" {
        let _ = eprintln!(rt; "standard input is not fixed");
        return Ok(());
    }
    let Some(text) = text_of(source) else {
        return Ok(());
    };
    let mended = mended_text(rt, text, options)?;
    let count = mended.applied.len();
    if count == 0 {
        return Ok(());
    }
    let bytes = mended.text.as_bytes().to_vec(alloc)?;
    if let Err(error) = replace(rt, source.name.as_str(), &bytes) {
        tally.refused = tally.refused.saturating_add(1);
        return report_refusal(rt, source.name.as_str(), &error);
    }
    report_applied(rt, source.name.as_str(), &mended.applied)?;
    source.bytes = bytes;
    tally.fixes = tally.fixes.saturating_add(count);
    tally.files = tally.files.saturating_add(1);
    Ok(())
}

/// A text with its fixes.
fn mended_text(rt: &HostRuntime, text: &str, options: FixOptions<'_>) -> Result<Mended, AllocError>
    ensures { IfOk result (λ mended. IsMended options.entry.takes_unsafe (texts_of options.entry.starts.now)
        text.now (string_bytes mended.text)) }
{
    let starts = options.starts;
    fix_text(rt.alloc(), text, Options { starts }, options.takes_unsafe)
}

/// Prints what fixes would change, as a diff, to standard output. Returns the status: 1 if something would
/// change, otherwise 0. No file is replaced.
///
/// # Errors
/// `AllocError` if an allocation fails.
pub fn show_fixes(
    rt: &HostRuntime,
    sources: &[Source],
    options: FixOptions<'_>,
) -> Result<u8, AllocError>
    ensures { IfOk result (λ status. (status ≡ 0) ⊎ (status ≡ 1)) }
{
    let mut status = CLEAN;
    for source in sources {
        if show_fixes_of(rt, source, options)? {
            status = FOUND;
        }
    }
    Ok(status)
}

/// Shows what fixes would change in a file, and answers whether they do.
fn show_fixes_of(
    rt: &HostRuntime,
    source: &Source,
    options: FixOptions<'_>,
) -> Result<bool, AllocError> {
    let Some(text) = text_of(source) else {
        return Ok(false);
    };
    let mended = mended_text(rt, text, options)?;
    if mended.applied.is_empty() {
        return Ok(false);
    }
    let changes = diff(rt.alloc(), source.name.as_str(), text, mended.text.as_str())?;
    let _ = rt.print(changes.as_str());
    Ok(true)
}

/// Reports the fixes that were applied to a file.
fn report_applied(rt: &HostRuntime, name: &str, applied: &[Applied]) -> Result<(), AllocError> {
    let name = to_visible(rt.alloc(), name)?;
    for fix in applied {
        let title = to_visible(rt.alloc(), fix.title.as_str())?;
        let _ = eprintln!(rt; "{name}:{}: {title}", fix.line);
    }
    Ok(())
}

/// Reports that a file can't be replaced.
fn report_refusal(rt: &HostRuntime, name: &str, error: &io::Error) -> Result<(), AllocError> {
    let name = to_visible(rt.alloc(), name)?;
    let _ = eprintln!(rt; "cannot write {name}: {error}");
    Ok(())
}

/// Reports how many fixes were applied, or that there is nothing to fix.
fn report_tally(rt: &HostRuntime, tally: Tally, takes_unsafe: bool) {
    let Tally {
        fixes,
        files,
        refused,
    } = tally;
    if fixes == 0 && refused == 0 {
        report_nothing(rt, takes_unsafe);
        return;
    }
    let of_fixes = if fixes == 1 { "fix" } else { "fixes" };
    let of_files = if files == 1 { "file" } else { "files" };
    let _ = eprintln!(rt; "applied {fixes} {of_fixes} to {files} {of_files}");
}

/// Reports that there is nothing to fix, or that no fix is safe.
fn report_nothing(rt: &HostRuntime, takes_unsafe: bool) {
    if takes_unsafe {
        let _ = eprintln!(rt; "nothing to fix");
    } else {
        let _ = eprintln!(rt; "no safe fix; --unsafe-fixes also applies others");
    }
}
