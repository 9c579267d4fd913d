//! Reports what is wrong with pest grammars.
#![tactic(auto)]

ghost use Rattle.std.specs.Prelude.{◌≡◌, ◌≢◌, ◌≤◌, ◌∷◌, ◌++◌, [], All, IfOk, None, Some, codes, false, true};
ghost use Rattle.std.specs.Process.{exit_status};
ghost use Rattle.clap.specs.Matches.{first_value, found_of};
ghost use Rattle.lint_findings.specs.Codes.{IsUnknown};
ghost use Rattle.pest_lint.specs.Colours.{value_of};
ghost use Rattle.pest_lint.specs.Logs.{GainsIn};
ghost use Rattle.pest_lint.specs.Pages.{Explains};
ghost use Rattle.pest_lint.specs.Shows.{IsClean, asked_of};
ghost use Rattle.pest_lint.specs.Starts.{names_of, values_of};

mod arguments;
mod colours;
mod counts;
mod diff;
mod explain;
mod fixes;
mod levels;
mod lint;
mod log;
mod sources;
mod starts;

pub use arguments::command;
use arguments::{Format, Settings, is_all, settings_of};
use clap::ArgMatches;
use colours::is_coloured;
use explain::{print_list, print_page};
use fixes::{FixOptions, fix_files, show_fixes};
use front_names::Builtin;
use levels::{codes_named, codes_or_report};
use lint::{CLEAN, Source, UNREADABLE, print_sources};
use log::log_files;
use program_support::output::Output;
use sources::read_sources;
use starts::{named_starts, report_start, unknown_start};
use std::alloc::{AllocError, Global};
use std::env;
use std::io::IsTerminal;
use std::process::ExitCode;

/// Whether text is in colours, by the value of `--color`: `is_coloured`, of the process's own output and
/// variables.
fn has_colour(rt: &HostRuntime, choice: Option<&str>) -> bool
    ensures always { value_of choice.entry ≡ Some (codes "always") → result ≡ true }
    ensures never { value_of choice.entry ≡ Some (codes "never") → result ≡ false }
{
    let term = env::var(rt, "TERM").ok();
    let no_color = env::var(rt, "NO_COLOR").ok();
    let is_terminal = rt.stdout().is_terminal();
    is_coloured(choice, is_terminal, term.as_deref(), no_color.as_deref())
}

/// Diagnoses files, over the process's own output, and answers the status.
fn lint_files(rt: &HostRuntime, sources: &[Source], settings: Settings<'_>) -> u8
    ensures known { result ≤ 4 }
    ensures clean { result ≡ 0 → All IsClean sources.now }
    ensures shows { result ≢ 2 → result ≢ 4
        → GainsIn settings.entry.format (asked_of settings.entry) sources.now result None None }
{
    let mut out = Output::new(rt.stdout());
    let mut err = Output::new(rt.stderr());
    match settings.format {
        Format::Stream(style) => {
            print_sources(rt.alloc(), sources, settings, style, &mut out, &mut err)
        }
        Format::Log => log_files(rt.alloc(), sources, settings, &mut out, &mut err),
    }
}

/// Explains the code of a name, over the process's own output, and answers the status.
fn explain_code(rt: &HostRuntime, name: &str) -> u8
    ensures known { result ≤ 4 }
    ensures no_verdict { result ≢ 1 }
    ensures explains { result ≡ 0 → Explains name.now None None }
    ensures unknown { result ≡ 3 → IsUnknown name.now }
{
    let mut out = Output::new(rt.stdout());
    let mut err = Output::new(rt.stderr());
    print_page(rt.alloc(), name, &mut out, &mut err)
}

/// Lists the codes, over the process's own output, and answers the status.
fn list_codes(rt: &HostRuntime) -> u8
    ensures known { result ≤ 4 }
{
    print_list(rt.alloc(), &mut Output::new(rt.stdout()))
}

/// The names of the rules that are starts. If all warnings are asked for, or `--start` names some, one
/// that no rule has is among them, so that the first rule is not taken for a start.
fn starts_of<'a>(alloc: Global, matches: &'a ArgMatches<'_>) -> Result<Vec<&'a str>, AllocError>
    ensures unnamed { first_value (found_of matches.entry.now) (codes "warn") ≡ None
        → values_of matches.entry.now (codes "start") ≡ [] → IfOk result (λ starts. starts.items ≡ []) }
    ensures named { values_of matches.entry.now (codes "start") ≢ []
        → IfOk result (λ starts. names_of starts.items
        ≡ values_of matches.entry.now (codes "start") ++ codes "SOI" ∷ []) }
    ensures all { first_value (found_of matches.entry.now) (codes "warn") ≡ Some (codes "all")
        → IfOk result (λ starts. names_of starts.items
        ≡ values_of matches.entry.now (codes "start") ++ codes "SOI" ∷ []) }
{
    let mut starts = named_starts(alloc, matches)?;
    if is_all(matches) || !starts.is_empty() {
        starts.push(Builtin::Soi.name())?;
    }
    Ok(starts)
}

/// Reports on the grammars that a command line names, or explains or lists codes, and returns the status.
/// The only error is an allocation failure.
pub fn answer(rt: &HostRuntime, matches: &ArgMatches<'_>) -> Result<ExitCode, AllocError>
    ensures known { IfOk result (λ exit. exit_status exit ≤ 4) }
{
    Ok(ExitCode::from(run(rt, matches)?))
}

/// The status for a command line that was parsed.
fn run(rt: &HostRuntime, matches: &ArgMatches<'_>) -> Result<u8, AllocError>
    ensures known { IfOk result (λ status. status ≤ 4) }
{
    if let Some(name) = matches.get_str("explain") {
        return Ok(explain_code(rt, name));
    }
    if matches.get_flag("list") {
        return Ok(list_codes(rt));
    }
    let names = matches.get_strs("FILE").unwrap_or(&[]);
    if names.is_empty() {
        let _ = eprintln!(rt; "no grammar given; pest-lint --help shows the usage");
        return Ok(UNREADABLE);
    }
    lint_named(rt, matches, names)
}

/// Fixes and diagnoses the files of these names, as the command line asks, and returns the status.
fn lint_named(rt: &HostRuntime, matches: &ArgMatches<'_>, names: &[&str]) -> Result<u8, AllocError>
    ensures known { IfOk result (λ status. status ≤ 4) }
{
    let starts = starts_of(rt.alloc(), matches)?;
    let allowed = codes_named(rt.alloc(), matches, "allow", false)?;
    let Some(allowed) = codes_or_report(rt, allowed)? else {
        return Ok(UNREADABLE);
    };
    let denied = codes_named(rt.alloc(), matches, "deny", true)?;
    let Some(denied) = codes_or_report(rt, denied)? else {
        return Ok(UNREADABLE);
    };
    let has_colour = has_colour(rt, matches.get_str("color"));
    let settings = settings_of(matches, has_colour, &starts, &allowed, &denied);
    let mut sources = read_sources(rt, names)?;
    if let Some(name) = unknown_start(rt.alloc(), &sources, &starts)? {
        return report_start(rt, &sources, name);
    }
    let options = FixOptions {
        takes_unsafe: matches.get_flag("unsafe-fixes"),
        starts: &starts,
    };
    if matches.get_flag("diff") {
        return show_fixes(rt, &sources, options);
    }
    let is_fixed = matches.get_flag("fix") || options.takes_unsafe;
    let fixed = fix_if_asked(rt, is_fixed, &mut sources, options)?;
    Ok(fixed.max(lint_files(rt, &sources, settings)))
}

/// Fixes files if `is_fixed` says so, and returns the status.
fn fix_if_asked(
    rt: &HostRuntime,
    is_fixed: bool,
    sources: &mut [Source],
    options: FixOptions<'_>,
) -> Result<u8, AllocError>
    ensures known { IfOk result (λ status. status ≤ 4) }
{
    if is_fixed {
        fix_files(rt, sources, options)
    } else {
        Ok(CLEAN)
    }
}
