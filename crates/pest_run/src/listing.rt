//! Lists of rules' names.
ghost use Rattle.std.specs.Prelude.{◌≡◌, ◌≢◌, ◌≤◌, IsErr, IsOk, codes, true};
ghost use Rattle.base_ast.specs.Ast.{rules_of};
ghost use Rattle.pest_run.specs.Ends.{IsStatus};
ghost use Rattle.pest_run.specs.Listing.{IsListOutcome, ListsRules};
ghost use Rattle.pest_run.specs.Written.{IsReadable, ReportsRefusal, ReportsUnread, WritesLine};

use crate::grammars::{Reading, read_grammar, refuse_grammar};
use crate::outcomes::Outcome;
use crate::rule_names::name_lines;
use crate::run::print_outcome;
use crate::sources::{Source, text_of, unreadable};
use base_ast::ast::Rule;
use program_support::ends::RunExit;
use program_support::output::Output;
use std::alloc::Global;
use std::io::Write;

/// Prints the names of the rules of a grammar, read from a file, to `out`, as `list_rules` does. A file that
/// cannot be read or is not UTF-8 is reported on `err` with its name and the reason (3).
pub fn list_file<W: Write, E: Write>(
    alloc: Global,
    grammar: &Source<'_>,
    out: &mut Output<W>,
    err: &mut Output<E>,
) -> RunExit
    ensures known { result.status ≤ 4 }
    ensures read { result.status ≢ 3 → IsReadable grammar.now }
    ensures unread { IsReadable grammar.now → result.status ≢ 3 }
    ensures listed { result.status ≡ 0 → ListsRules grammar.now.bytes.items
        (W.contents out.old.writer) (W.contents out.new.writer) }
    ensures unprinted { result.status ≢ 0 → result.status ≢ 4 → out.new ≡ out.old }
    ensures taken { result.status ≡ 0 → out.new.refused ≡ out.old.refused }
    ensures refused_write { result.status ≡ 4 → out.new.refused ≡ true }
    ensures silent { result.status ≡ 0 → err.new ≡ err.old }
    ensures reason { result.status ≡ 1
        → ReportsRefusal grammar.now.bytes.items result.write_result
        (E.contents err.old.writer) (E.contents err.new.writer) }
    ensures tells_memory { result.status ≡ 2
        → WritesLine (codes "out of memory") result.write_result
        (E.contents err.old.writer) (E.contents err.new.writer) }
    ensures tells_unread { result.status ≡ 3
        → ReportsUnread grammar.now grammar.now result.write_result
        (E.contents err.old.writer) (E.contents err.new.writer) }
    ensures tells_unwritten { result.status ≡ 4
        → WritesLine (codes "cannot write") result.write_result
        (E.contents err.old.writer) (E.contents err.new.writer) }
    ensures told { IsOk result.write_result → err.new.refused ≡ err.old.refused }
    ensures refused_line { IsErr result.write_result → err.new.refused ≡ true }
{
    match text_of(grammar) {
        Some(rules) => list_rules(alloc, rules, out, err),
        None => unreadable(alloc, grammar, err),
    }
}

/// Prints the names of a grammar's rules to `out`, one a line, in the order of the grammar. Then the exit
/// status is 0.
///
/// If that is not possible, one text with a line break at its end is written to `err`:
/// - the report, if the grammar is refused (status 1);
/// - `out of memory`, if an allocation fails (2);
/// - `cannot write`, if `out` refuses a write (4).
///
/// If `err` refuses a write, the status stays the same.
pub fn list_rules<W: Write, E: Write>(
    alloc: Global,
    grammar: &str,
    out: &mut Output<W>,
    err: &mut Output<E>,
) -> RunExit
    ensures known { IsStatus result.status }
    ensures unstopped { result.status ≢ 5 }
    ensures listed { result.status ≡ 0
        → ListsRules grammar.now (W.contents out.old.writer) (W.contents out.new.writer) }
    ensures unprinted { result.status ≢ 0 → result.status ≢ 4 → out.new ≡ out.old }
    ensures taken { result.status ≡ 0 → out.new.refused ≡ out.old.refused }
    ensures refused_write { result.status ≡ 4 → out.new.refused ≡ true }
    ensures silent { result.status ≡ 0 → err.new ≡ err.old }
    ensures reason { result.status ≡ 1
        → ReportsRefusal grammar.now result.write_result
        (E.contents err.old.writer) (E.contents err.new.writer) }
    ensures tells_memory { result.status ≡ 2
        → WritesLine (codes "out of memory") result.write_result
        (E.contents err.old.writer) (E.contents err.new.writer) }
    ensures tells_unwritten { result.status ≡ 4
        → WritesLine (codes "cannot write") result.write_result
        (E.contents err.old.writer) (E.contents err.new.writer) }
    ensures told { IsOk result.write_result → err.new.refused ≡ err.old.refused }
    ensures refused_line { IsErr result.write_result → err.new.refused ≡ true }
{
    match read_grammar(alloc, grammar) {
        Ok(grammar) => print_outcome(list_outcome(alloc, &grammar.rules.value), out, err),
        Err(error) => {
            let mut reading = Reading::Nothing;
            refuse_grammar(alloc, grammar, error, &mut reading, err)
        }
    }
}

/// Returns the names of rules as lines to be shown.
fn list_outcome(alloc: Global, rules: &[Rule]) -> Outcome
    ensures { IsListOutcome (rules_of rules.now) result }
{
    match name_lines(alloc, rules) {
        Ok(lines) => Outcome::Shown { lines, note: None },
        Err(_) => Outcome::Memory,
    }
}
