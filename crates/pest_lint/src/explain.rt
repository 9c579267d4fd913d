//! Pages of codes.
ghost use Rattle.std.specs.Prelude.{◌≡◌, ◌≢◌, ◌≤◌, IfOk, string_bytes, true};
ghost use Rattle.lint_findings.specs.Codes.{IsUnknown};
ghost use Rattle.pest_lint.specs.Pages.{Explains, page_text, unknown_line};
ghost use Rattle.pest_lint.specs.Reports.{Tells};

use crate::lint::{CLEAN, MEMORY, UNREADABLE, UNWRITABLE};
use lint_diagnostics::Code;
use lint_findings::{Report, all_facts};
use program_support::output::Output;
use std::alloc::{AllocError, Global};
use std::io::Write;

/// Prints the page of the code of a name, with or without `pest::`, to `out`, and answers the status. A name
/// that no code has is reported on `err` (3). An allocation may fail (2), and `out` refuse a write (4).
pub fn print_page<W: Write, E: Write>(
    alloc: Global,
    name: &str,
    out: &mut Output<W>,
    err: &mut Output<E>,
) -> u8
    ensures known { result ≤ 4 }
    ensures no_verdict { result ≢ 1 }
    ensures explains { result ≡ 0
        → Explains name.now (W.contents out.old.writer) (W.contents out.new.writer) }
    ensures unknown { result ≡ 3 → IsUnknown name.now }
    ensures told { result ≡ 3
        → Tells unknown_line (E.contents err.old.writer) (E.contents err.new.writer) err.new.refused }
    ensures unprinted { result ≢ 0 → result ≢ 4 → out.new ≡ out.old }
    ensures silent { result ≢ 3 → err.new ≡ err.old }
    ensures refused_write { result ≡ 4 → out.new.refused ≡ true }
    ensures taken { result ≢ 4 → out.new.refused ≡ out.old.refused }
{
    let Some(code) = Code::from_name(name) else {
        let _ = err.write_line(&["unknown code; pest-lint --list shows all"]);
        return UNREADABLE;
    };
    let Ok(text) = page_text(alloc, code, code.explanation()) else {
        return MEMORY;
    };
    let Ok(()) = out.write_text(text.as_str()) else {
        return UNWRITABLE;
    };
    CLEAN
}

/// Prints a line for each code to `out`: its name, how it is reported, and what it says; and answers the
/// status. An allocation may fail (2), and `out` refuse a write (4).
pub fn print_list<W: Write>(alloc: Global, out: &mut Output<W>) -> u8
    ensures known { result ≤ 4 }
{
    let Ok(list) = list_text(alloc) else {
        return MEMORY;
    };
    let Ok(()) = out.write_text(list.as_str()) else {
        return UNWRITABLE;
    };
    CLEAN
}

/// A line for each code.
fn list_text(alloc: Global) -> Result<String, AllocError> {
    let mut text = String::new(alloc);
    for facts in all_facts() {
        let report = report_name(facts.report);
        let line = format!(in alloc; "{:<27} {report:<10} {}\n", facts.name, facts.summary)?;
        text.push_str(line.as_str())?;
    }
    Ok(text)
}

/// The words for how diagnostics of a code are reported.
fn report_name(report: Report) -> &'static str {
    match report {
        Report::Error => "error",
        Report::Warning => "warning",
        Report::OnRequest => "on request",
    }
}

/// The lines on a code: its name, whether it is an error, and its page.
fn page_text(alloc: Global, code: Code, page: &str) -> Result<String, AllocError>
    ensures { IfOk result (λ text. string_bytes text ≡ page_text code page.now) }
{
    let name = code.name();
    let severity = code.severity().name();
    format!(in alloc; "{name} ({severity})\n\n{page}\n")
}
