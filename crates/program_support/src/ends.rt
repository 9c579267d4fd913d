//! Ends of a run on standard error.
ghost use Rattle.std.specs.Prelude.{◌≡◌, ◌⊎◌, IfOk, IsErr, IsOk, codes, option_map, string_bytes, true};
ghost use Rattle.pest_meta.specs.Reports.{report_text};
ghost use Rattle.program_support.specs.Ends.{IsReportFor, WritesLine, WritesNote, WritesReport};
ghost use Rattle.program_support.specs.Statuses.{status_code};

use crate::messages::show_report;
use crate::output::{Output, RefusedWrite};
use crate::status::Status;
use base_language::grammar::Rule;
use base_language::runtime::{Error, Fault};
use pest_meta::{Report, unwrap_or_report};
use std::alloc::{AllocError, Global};
use std::io::Write;

/// The end of a run.
#[derive(Drop)]
pub struct RunExit {
    /// The status that the program ends with.
    pub status: u8,
    /// An error if `err` refused the line that it was given.
    pub write_result: Result<(), RefusedWrite>,
}

/// Reports that a grammar is refused with these errors (1), or that an allocation failed (2). The report is
/// the text that the original prints, byte for byte. At a terminal it is made for a person: hidden characters
/// are escapes, and long lines are cut.
pub fn report_refusal<E: Write>(
    alloc: Global,
    errors: Vec<Error<Rule>>,
    err: &mut Output<E>,
) -> RunExit
    ensures known { (result.status ≡ 1) ⊎ (result.status ≡ 2) }
    ensures tells { result.status ≡ 1
        → WritesReport err.old.is_terminal errors.items result.write_result
        (E.contents err.old.writer) (E.contents err.new.writer) }
    ensures tells_memory { result.status ≡ 2
        → WritesLine (codes "out of memory") result.write_result
        (E.contents err.old.writer) (E.contents err.new.writer) }
    ensures told { IsOk result.write_result → err.new.refused ≡ err.old.refused }
    ensures refused_line { IsErr result.write_result → err.new.refused ≡ true }
{
    match report_for(alloc, errors, err.is_terminal) {
        Ok(report) => exit_with(err, report.as_str(), Status::Found),
        Err(_) => exit_with(err, "out of memory", Status::OutOfMemory),
    }
}

/// Returns the report of errors, for a terminal if `is_terminal` is true. The only error is an allocation
/// failure.
fn report_for(
    alloc: Global,
    errors: Vec<Error<Rule>>,
    is_terminal: bool,
) -> Result<String, AllocError>
    ensures { IfOk result (λ report. IsReportFor is_terminal errors.items (string_bytes report)) }
{
    if is_terminal {
        show_report(alloc, &errors)
    } else {
        print_report(alloc, errors)
    }
}

/// Returns the report of errors as the original prints it. The only error is an allocation failure.
fn print_report(alloc: Global, errors: Vec<Error<Rule>>) -> Result<String, AllocError>
    ensures { IfOk result (λ report. string_bytes report ≡ report_text errors.items) }
{
    match unwrap_or_report::<()>(alloc, Err(Fault::Grammar(errors))) {
        Err(Report::Text(report)) => Ok(report),
        _ => Err(AllocError),
    }
}

/// Ends a run after its lines were printed, and writes a note, if there is one; or reports that the write of
/// the lines was refused.
pub fn exit_after_write<E: Write>(
    err: &mut Output<E>,
    outcome: Result<(), RefusedWrite>,
    note: Option<String>,
) -> RunExit
    ensures known { (result.status ≡ 0) ⊎ (result.status ≡ 4) }
    ensures printed { IsOk outcome → result.status ≡ 0 }
    ensures noted { IsOk outcome
        → WritesNote (option_map string_bytes note) (err.new ≡ err.old) result.write_result
        (E.contents err.old.writer) (E.contents err.new.writer) }
    ensures unwritten { IsErr outcome → result.status ≡ 4 }
    ensures tells { IsErr outcome
        → WritesLine (codes "cannot write") result.write_result
        (E.contents err.old.writer) (E.contents err.new.writer) }
    ensures told { IsOk result.write_result → err.new.refused ≡ err.old.refused }
    ensures refused_line { IsErr result.write_result → err.new.refused ≡ true }
{
    match outcome {
        Ok(()) => match note {
            Some(note) => exit_with(err, note.as_str(), Status::Done),
            None => RunExit {
                status: Status::Done.code(),
                write_result: Ok(()),
            },
        },
        Err(_) => exit_with(err, "cannot write", Status::Unwritable),
    }
}

/// Ends a run with this status, after writing a message and a line break to `err`.
pub fn exit_with<E: Write>(err: &mut Output<E>, message: &str, status: Status) -> RunExit
    ensures status { result.status ≡ status_code status }
    ensures tells { WritesLine message.now result.write_result
        (E.contents err.old.writer) (E.contents err.new.writer) }
    ensures told { IsOk result.write_result → err.new.refused ≡ err.old.refused }
    ensures refused_line { IsErr result.write_result → err.new.refused ≡ true }
{
    exit_with_code(err, message, status.code())
}

/// Ends a run with the status of this number, after writing a message and a line break to `err`.
pub fn exit_with_code<E: Write>(err: &mut Output<E>, message: &str, code: u8) -> RunExit
    ensures status { result.status ≡ code }
    ensures tells { WritesLine message.now result.write_result
        (E.contents err.old.writer) (E.contents err.new.writer) }
    ensures told { IsOk result.write_result → err.new.refused ≡ err.old.refused }
    ensures refused_line { IsErr result.write_result → err.new.refused ≡ true }
{
    let write_result = err.write_line(&[message]);
    RunExit {
        status: code,
        write_result,
    }
}
