//! One log of all files, as SARIF.
ghost use Rattle.std.specs.Prelude.{◌≡◌, ◌≢◌, ◌≤◌, ◌++◌, All, IfOk, List, OnOk, false, map, true};
ghost use Rattle.serde_json.specs.Data.{Data};
ghost use Rattle.serde_json.specs.View.{items_view, view};
ghost use Rattle.serde_json.specs.Written.{items_have_float};
ghost use Rattle.lint_output.specs.Sarif.{result_data};
ghost use Rattle.pest_lint.specs.Logs.{AreRules, GainsLog, GainsRules, Logs};
ghost use Rattle.pest_lint.specs.Shows.{IsClean, asked_of};

use crate::arguments::Settings;
use crate::lint::{
    CLEAN, MEMORY, Source, UNWRITABLE, diagnose_text, report_memory, report_unreadable, status_of,
    text_of,
};
use lint_diagnostics::Diagnostic;
use lint_findings::{Facts, all_facts};
use lint_output::{LineIndex, Origin, sarif_log, sarif_result, sarif_rule};
use program_support::output::Output;
use serde_json::Value;
use std::alloc::{AllocError, Global};
use std::io::Write;

/// Diagnoses each file, and prints one log of all that is found. The status is the highest of theirs.
///
/// A file that can't be read is reported on `err`, and is not in the log (3). If an allocation fails (2),
/// no log is printed.
pub fn log_files<W: Write, E: Write>(
    alloc: Global,
    sources: &[Source],
    settings: Settings<'_>,
    out: &mut Output<W>,
    err: &mut Output<E>,
) -> u8
    ensures known { result ≤ 4 }
    ensures clean { result ≡ 0 → All IsClean sources.now }
    ensures logs { result ≢ 2 → result ≢ 4 → GainsLog (asked_of settings.entry) sources.now result
        (W.contents out.old.writer) (W.contents out.new.writer) }
    ensures taken { result ≢ 4 → out.new.refused ≡ out.old.refused }
    ensures refused_write { result ≡ 4 → out.new.refused ≡ true }
{
    let mut results = Vec::new(alloc);
    let mut status = CLEAN;
    for source in sources {
        let one = log_file(alloc, source, settings, &mut results, err);
        status = status.max(one);
        if one == MEMORY {
            return MEMORY;
        }
    }
    let printed = print_log(alloc, results, out);
    if printed == CLEAN { status } else { printed }
}

/// Adds what is found in a file to the results, and answers its status.
fn log_file<E: Write>(
    alloc: Global,
    source: &Source,
    settings: Settings<'_>,
    results: &mut Vec<Value>,
    err: &mut Output<E>,
) -> u8
    ensures known { result ≤ 3 }
    ensures clean { result ≡ 0 → IsClean source.now }
    ensures logs { result ≢ 2 → (added : List Data) × Logs (asked_of settings.entry) source.now added result
        × (map view results.new.items ≡ map view results.old.items ++ added) }
{
    let Some(text) = text_of(source) else {
        return report_unreadable(alloc, source, err);
    };
    let Ok(diagnostics) = diagnose_text(alloc, text, settings) else {
        report_memory(alloc, source, err);
        return MEMORY;
    };
    match add_results(alloc, source.name.as_str(), text, &diagnostics, results) {
        Ok(()) => status_of(&diagnostics, settings),
        Err(_) => MEMORY,
    }
}

/// Adds the diagnostics of a text to the results.
fn add_results(
    alloc: Global,
    name: &str,
    text: &str,
    diagnostics: &[Diagnostic],
    results: &mut Vec<Value>,
) -> Result<(), AllocError>
    ensures { OnOk result (map view results.new.items
        ≡ map view results.old.items ++ map (result_data name.now text.now) diagnostics.now) }
{
    let lines = LineIndex::new(alloc, text)?;
    let origin = Origin {
        name,
        text,
        lines: &lines,
    };
    for diagnostic in diagnostics {
        results.push(sarif_result(alloc, origin, diagnostic)?)?;
    }
    Ok(())
}

/// Prints the log of these results. Answers 0, or why it was not printed.
fn print_log<W: Write>(alloc: Global, results: Vec<Value>, out: &mut Output<W>) -> u8
    ensures known { result ≤ 4 }
    ensures done { result ≢ 2 → result ≢ 4 → result ≡ 0 }
    ensures logs { result ≡ 0 → items_have_float (items_view results.items) ≡ false
        → GainsRules (items_view results.items)
        (W.contents out.old.writer) (W.contents out.new.writer) }
    ensures taken { result ≢ 4 → out.new.refused ≡ out.old.refused }
    ensures refused_write { result ≡ 4 → out.new.refused ≡ true }
{
    let Ok(rules) = rules_of(alloc, all_facts()) else {
        return MEMORY;
    };
    let Ok(text) = sarif_log(alloc, rules, results) else {
        return MEMORY;
    };
    let Ok(()) = out.write_text(text.as_str()) else {
        return UNWRITABLE;
    };
    CLEAN
}

/// Codes as rules, with their pages, in order.
fn rules_of(alloc: Global, codes: &[Facts]) -> Result<Vec<Value>, AllocError>
    ensures { IfOk result (λ rules. AreRules (map (λ facts. facts.code) codes.now) (map view rules.items)) }
{
    let mut rules = Vec::new(alloc);
    for facts in codes {
        let rule = sarif_rule(alloc, facts.code, facts.page)?;
        rules.push(rule)?;
    }
    Ok(rules)
}
