//! The program on read files.
ghost use Rattle.std.specs.Prelude.{◌≡◌, ◌≢◌, ◌≤◌, ℕ, List, IsErr, IsOk, codes, length, true};
ghost use Rattle.pest_run.specs.Ends.{EndsAs, IsStatus};
ghost use Rattle.pest_run.specs.Grammars.{IsReadFrom, IsReadingOf};
ghost use Rattle.pest_run.specs.Steps.{limits_of};
ghost use Rattle.pest_run.specs.Written.{IsFormOutcome, IsReadable, NotesEnd, PrintsTrees, ReportsReason, ReportsStop, ReportsUnread, WritesLine};

use crate::arguments::Request;
use crate::grammars::{GrammarRules, Reading, read_grammar, refuse_grammar};
use crate::outcomes::{Outcome, outcome_of};
use crate::sources::{Source, text_of, unreadable};
use base_ast::optimized::release;
use program_support::ends::{RunExit, exit_after_write, exit_with};
use program_support::output::Output;
use program_support::status::Status;
use std::alloc::Global;
use std::io::Write;

/// Matches a text by the requested rule of a grammar, both read from files, and prints the trees to `out`, as
/// `run` does. A file that cannot be read or is not UTF-8 is reported on `err` with its name and the reason
/// (3). `reading` is what was read of the grammar.
pub fn run_files<'g, W: Write, E: Write>(
    alloc: Global,
    grammar: &'g Source<'_>,
    text: &Source<'_>,
    request: Request<'_>,
    reading: &mut Reading<'g>,
    out: &mut Output<W>,
    err: &mut Output<E>,
) -> RunExit
    ensures reading { IsReadingOf grammar.now.bytes.items reading.new }
    ensures known { result.status ≤ 5 }
    ensures read { result.status ≢ 3 → IsReadable grammar.now × IsReadable text.now }
    ensures unread { IsReadable grammar.now → IsReadable text.now → result.status ≢ 3 }
    ensures printed { result.status ≡ 0
        → PrintsTrees request.entry.form grammar.now.bytes.items request.entry.rule.now
        text.now.bytes.items request.entry.format
        (W.contents out.old.writer) (W.contents out.new.writer) }
    ensures unprinted { result.status ≢ 0 → result.status ≢ 4 → out.new ≡ out.old }
    ensures taken { result.status ≡ 0 → out.new.refused ≡ out.old.refused }
    ensures refused_write { result.status ≡ 4 → out.new.refused ≡ true }
    ensures noted { result.status ≡ 0
        → NotesEnd request.entry.form grammar.now.bytes.items request.entry.rule.now
        text.now.bytes.items request.entry.format
        (limits_of request.entry.steps (length text.now.bytes.items)) (err.new ≡ err.old)
        result.write_result (E.contents err.old.writer) (E.contents err.new.writer) }
    ensures reason { result.status ≡ 1
        → ReportsReason request.entry.form grammar.now.bytes.items request.entry.rule.now text.now.name.now
        text.now.bytes.items (limits_of request.entry.steps (length text.now.bytes.items))
        result.write_result (E.contents err.old.writer) (E.contents err.new.writer) }
    ensures tells_memory { result.status ≡ 2
        → WritesLine (codes "out of memory") result.write_result
        (E.contents err.old.writer) (E.contents err.new.writer) }
    ensures tells_unwritten { result.status ≡ 4
        → WritesLine (codes "cannot write") result.write_result
        (E.contents err.old.writer) (E.contents err.new.writer) }
    ensures stopped { result.status ≡ 5
        → ReportsStop request.entry.form grammar.now.bytes.items request.entry.rule.now
        text.now.bytes.items (limits_of request.entry.steps (length text.now.bytes.items))
        result.write_result (E.contents err.old.writer) (E.contents err.new.writer) }
    ensures tells_unread { result.status ≡ 3
        → ReportsUnread grammar.now text.now result.write_result
        (E.contents err.old.writer) (E.contents err.new.writer) }
    ensures told { IsOk result.write_result → err.new.refused ≡ err.old.refused }
    ensures refused_line { IsErr result.write_result → err.new.refused ≡ true }
    ensures kept { result.status ≢ 2 → result.status ≢ 3 → reading.new ≢ Reading.Nothing }
{
    *reading = Reading::Nothing;
    let Some(rules) = text_of(grammar) else {
        return unreadable(alloc, grammar, err);
    };
    let Some(input) = text_of(text) else {
        return unreadable(alloc, text, err);
    };
    run(alloc, rules, text.name, input, request, reading, out, err)
}

/// Matches the text of a file by the requested rule of a grammar, and prints the trees to `out`. Then the
/// exit status is 0. If the format is text, and more than a line break of the text is left, a note on `err`
/// has the end of the match. It also has the names that are expected at the furthest failure, if that is not
/// before the end.
///
/// If there are no trees, one text with a line break at its end is written to `err`:
/// - the report of a refused grammar, or that the grammar has no such rule (status 1);
/// - the furthest position at which the rule fails, with the expected set there, or with a note that it was
///   not found (1);
/// - `out of memory`, if an allocation fails (2);
/// - `cannot write`, if `out` refuses a write (4);
/// - the reason why the run was stopped (5).
///
/// If `err` refuses a write, the status stays the same. `reading` is what was read of the grammar. It is
/// nothing if an allocation failed.
pub fn run<'g, W: Write, E: Write>(
    alloc: Global,
    grammar: &'g str,
    name: &str,
    text: &str,
    request: Request<'_>,
    reading: &mut Reading<'g>,
    out: &mut Output<W>,
    err: &mut Output<E>,
) -> RunExit
    ensures reading { IsReadingOf grammar.now reading.new }
    ensures known { IsStatus result.status }
    ensures printed { result.status ≡ 0
        → PrintsTrees request.entry.form grammar.now request.entry.rule.now text.now request.entry.format
        (W.contents out.old.writer) (W.contents out.new.writer) }
    ensures unprinted { result.status ≢ 0 → result.status ≢ 4 → out.new ≡ out.old }
    ensures taken { result.status ≡ 0 → out.new.refused ≡ out.old.refused }
    ensures refused_write { result.status ≡ 4 → out.new.refused ≡ true }
    ensures noted { result.status ≡ 0
        → NotesEnd request.entry.form grammar.now request.entry.rule.now text.now request.entry.format
        (limits_of request.entry.steps (length text.now)) (err.new ≡ err.old) result.write_result
        (E.contents err.old.writer) (E.contents err.new.writer) }
    ensures reason { result.status ≡ 1
        → ReportsReason request.entry.form grammar.now request.entry.rule.now name.now text.now
        (limits_of request.entry.steps (length text.now)) result.write_result
        (E.contents err.old.writer) (E.contents err.new.writer) }
    ensures tells_memory { result.status ≡ 2
        → WritesLine (codes "out of memory") result.write_result
        (E.contents err.old.writer) (E.contents err.new.writer) }
    ensures tells_unwritten { result.status ≡ 4
        → WritesLine (codes "cannot write") result.write_result
        (E.contents err.old.writer) (E.contents err.new.writer) }
    ensures stopped { result.status ≡ 5
        → ReportsStop request.entry.form grammar.now request.entry.rule.now text.now
        (limits_of request.entry.steps (length text.now)) result.write_result
        (E.contents err.old.writer) (E.contents err.new.writer) }
    ensures told { IsOk result.write_result → err.new.refused ≡ err.old.refused }
    ensures refused_line { IsErr result.write_result → err.new.refused ≡ true }
    ensures kept { result.status ≢ 2 → reading.new ≢ Reading.Nothing }
{
    match read_grammar(alloc, grammar) {
        Ok(rules) => {
            let outcome = form_outcome(alloc, &rules, name, text, request);
            *reading = Reading::Accepted(rules);
            print_outcome(outcome, out, err)
        }
        Err(error) => refuse_grammar(alloc, grammar, error, reading, err),
    }
}

/// Runs the requested rule, in the requested form of a grammar's rules, on the text of a file, and returns
/// the outcome.
fn form_outcome(
    alloc: Global,
    grammar: &GrammarRules,
    name: &str,
    text: &str,
    request: Request<'_>,
) -> Outcome
    ensures { (spelled : List ℕ) → IsReadFrom spelled grammar.now
        → IsFormOutcome request.entry.form spelled request.entry.rule.now name.now text.now
        request.entry.format (limits_of request.entry.steps (length text.now)) result }
{
    match grammar.to_run(alloc, request.form) {
        Ok(rules) => {
            let (rule, format) = (request.rule, request.format);
            let outcome = outcome_of(alloc, &rules, rule, name, text, format, request.steps);
            release(rules);
            outcome
        }
        Err(_) => Outcome::Memory,
    }
}

/// Prints the lines of an outcome, or reports why there are none.
pub fn print_outcome<W: Write, E: Write>(
    outcome: Outcome,
    out: &mut Output<W>,
    err: &mut Output<E>,
) -> RunExit
    ensures known { IsStatus result.status }
    ensures ends { EndsAs outcome (err.new ≡ err.old) result.status result.write_result
        (W.contents out.old.writer) (W.contents out.new.writer)
        (E.contents err.old.writer) (E.contents err.new.writer) }
    ensures unprinted { result.status ≢ 0 → result.status ≢ 4 → out.new ≡ out.old }
    ensures taken { result.status ≡ 0 → out.new.refused ≡ out.old.refused }
    ensures refused_write { result.status ≡ 4 → out.new.refused ≡ true }
    ensures tells_memory { result.status ≡ 2
        → WritesLine (codes "out of memory") result.write_result
        (E.contents err.old.writer) (E.contents err.new.writer) }
    ensures tells_unwritten { result.status ≡ 4
        → WritesLine (codes "cannot write") result.write_result
        (E.contents err.old.writer) (E.contents err.new.writer) }
    ensures told { IsOk result.write_result → err.new.refused ≡ err.old.refused }
    ensures refused_line { IsErr result.write_result → err.new.refused ≡ true }
{
    match outcome {
        Outcome::Shown { lines, note } => {
            let written = out.write_text(lines.as_str());
            exit_after_write(err, written, note)
        }
        Outcome::Failed(report) | Outcome::Unnamed(report) => {
            exit_with(err, report.as_str(), Status::Found)
        }
        Outcome::NoRule(message) => exit_with(err, message.as_str(), Status::Found),
        Outcome::OutOfSteps(message) => exit_with(err, message.as_str(), Status::Stopped),
        Outcome::EmptyStack => exit_with(
            err,
            "PEEK or POP found nothing on the stack",
            Status::Stopped,
        ),
        Outcome::LongText => exit_with(err, "the text has 4 GiB or more", Status::Stopped),
        Outcome::UnknownName => exit_with(
            err,
            "the grammar calls a rule that is not known",
            Status::Stopped,
        ),
        Outcome::Bound => exit_with(
            err,
            "a range of the grammar has a bound that is no character",
            Status::Stopped,
        ),
        Outcome::Memory => exit_with(err, "out of memory", Status::OutOfMemory),
    }
}
