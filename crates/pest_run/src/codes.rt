//! Files of compiled grammars.
ghost use Rattle.std.specs.Prelude.{◌≡◌, ◌≢◌, ◌≤◌, ◌⊎◌, List, ℕ, IfErr, IfOk, IsErr, IsOk, None, codes, length, true};
ghost use Rattle.std.specs.Borrow.{Bor};
ghost use Rattle.base_ast.specs.Optimized.{optimized_rules_of};
ghost use Rattle.base_ast.specs.declared.optimized.OptimizedRule.{OptimizedRule};
ghost use Rattle.matcher_engine.specs.Blocks.{IsWhole};
ghost use Rattle.matcher_support.specs.Compiled.{IsCompiled};
ghost use Rattle.front_spanned.specs.Nodes.{rule_views};
ghost use Rattle.pest_meta.specs.Spelling.{IsAnswer};
ghost use Rattle.pest_meta.specs.WithSpans.{SpellsWithSpans};
ghost use Rattle.pest_run.specs.Codes.{EndsAsRules, begins_as_code, code_text, is_code, why_refused};
ghost use Rattle.pest_run.specs.Grammars.{IsReadingOf};
ghost use Rattle.pest_run.specs.Steps.{limits_of};
ghost use Rattle.pest_run.specs.Written.{IsReadable, ReportsRefusal, ReportsUnread, WritesLine};

use crate::arguments::Request;
use crate::grammars::{Reading, refuse_grammar};
use crate::messages::code_message;
use crate::outcomes::block_outcome;
use crate::run::print_outcome;
use crate::sources::{Source, text_of, unreadable};
use base_ast::deep::Deep;
use base_ast::optimized::OptimizedRule;
use matcher_engine::block::{BlockFlaw, check_block, compile_block};
use matcher_program::compile::Unfit;
use matcher_support::unicode_properties::UnicodeProperties;
use pest_meta::{OpenGrammar, open, optimize_with_spans};
use program_support::ends::{RunExit, exit_with, exit_with_code};
use program_support::output::Output;
use program_support::status::Status;
use std::alloc::Global;
use std::io::Write;

/// The exit status if a file is no compiled grammar of this version, or was changed.
const NO_CODE: u8 = 6;

/// Returns whether a file is read as a compiled grammar: its name ends with `.code`, or its bytes begin with
/// `pest` and a version below 2^24, which no grammar's text does.
pub fn is_code(source: &Source<'_>) -> bool
    ensures { result ≡ is_code source.now.name.now source.now.bytes.items }
{
    source.name.as_bytes().ends_with(b".code") || begins_as_code(&source.bytes)
}

/// Returns whether bytes begin as a compiled grammar of any version.
fn begins_as_code(bytes: &[u8]) -> bool
    ensures { result ≡ begins_as_code bytes.now }
{
    bytes.starts_with(b"pest") && bytes.get(7).copied() == Some(0)
}

/// Matches a text by the requested rule of a compiled grammar, both read from files, and prints the trees to
/// `out`, as `run` does for the rules that were compiled. A file that cannot be read, and a text that is not
/// UTF-8, is reported on `err` (3), and so is a file that is no compiled grammar of this version, or was
/// changed (6).
pub fn run_code<W: Write, E: Write>(
    alloc: Global,
    code: &Source<'_>,
    text: &Source<'_>,
    request: Request<'_>,
    out: &mut Output<W>,
    err: &mut Output<E>,
) -> RunExit
    ensures known { result.status ≤ 6 }
    ensures ends { (rules : List OptimizedRule) → IsCompiled rules code.now.bytes.items
        → code.now.why ≡ None → IsReadable text.now
        → EndsAsRules (optimized_rules_of rules) request.entry.rule.now text.now.name.now text.now.bytes.items
        request.entry.format (limits_of request.entry.steps (length text.now.bytes.items))
        (err.new ≡ err.old) result.status result.write_result
        (W.contents out.old.writer) (W.contents out.new.writer)
        (E.contents err.old.writer) (E.contents err.new.writer) }
    ensures read { result.status ≢ 3 → (code.now.why ≡ None) × IsReadable text.now }
    ensures whole { result.status ≢ 3 → result.status ≢ 6 → IsWhole code.now.bytes.items }
    ensures unprinted { result.status ≢ 0 → result.status ≢ 4 → out.new ≡ out.old }
    ensures refused { result.status ≡ 6 → (rules : List OptimizedRule)
        → IsCompiled rules code.now.bytes.items → ⊥ }
    ensures tells_refused { result.status ≡ 6
        → WritesLine (code_text code.now.name.now code.now.bytes.items) result.write_result
        (E.contents err.old.writer) (E.contents err.new.writer)
        ⊎ WritesLine (codes "cannot read a file: out of memory") result.write_result
        (E.contents err.old.writer) (E.contents err.new.writer) }
{
    if code.why.is_some() {
        return unreadable(alloc, code, err);
    }
    let Some(input) = text_of(text) else {
        return unreadable(alloc, text, err);
    };
    let (rule, format) = (request.rule, request.format);
    if check_block(&code.bytes).is_err() {
        return refuse_code(alloc, code, err);
    }
    match block_outcome(
        alloc,
        &code.bytes,
        rule,
        text.name,
        input,
        format,
        request.steps,
    ) {
        Some(outcome) => print_outcome(outcome, out, err),
        None => refuse_code(alloc, code, err),
    }
}

/// Reports a file that is no compiled grammar of this version, or was changed.
fn refuse_code<E: Write>(alloc: Global, code: &Source<'_>, err: &mut Output<E>) -> RunExit
    ensures status { result.status ≡ 6 }
    ensures tells { WritesLine (code_text code.now.name.now code.now.bytes.items) result.write_result
        (E.contents err.old.writer) (E.contents err.new.writer)
        ⊎ WritesLine (codes "cannot read a file: out of memory") result.write_result
        (E.contents err.old.writer) (E.contents err.new.writer) }
    ensures told { IsOk result.write_result → err.new.refused ≡ err.old.refused }
    ensures refused_line { IsErr result.write_result → err.new.refused ≡ true }
{
    match code_message(alloc, code.name, why_refused(&code.bytes)) {
        Ok(message) => exit_with_code(err, message.as_str(), NO_CODE),
        Err(_) => exit_with_code(err, "cannot read a file: out of memory", NO_CODE),
    }
}

/// Returns why bytes are not run as a compiled grammar.
fn why_refused(code: &[u8]) -> &'static str
    ensures { result.now ≡ why_refused code.now }
{
    match check_block(code) {
        Err(BlockFlaw::NoBlock) => "it is no compiled grammar",
        Err(BlockFlaw::OtherVersion) =>
            "it was compiled by another version: compile the grammar again",
        Err(BlockFlaw::Changed) | Ok(()) => {
            "it was changed after it was compiled: compile the grammar again"
        }
    }
}

/// Compiles the optimized rules of a grammar, which was read from a file, to a block. `reading` has the
/// reason if the grammar is refused.
///
/// # Errors
/// The exit status, after a line on `err`:
/// - 1 and the report, if the grammar is refused;
/// - 2 and `out of memory`, if an allocation fails;
/// - 3 and the reason, if the file cannot be read;
/// - 5, if the rules cannot be run.
pub fn compile_file<'g, E: Write>(
    alloc: Global,
    grammar: &'g Source<'_>,
    reading: &mut Reading<'g>,
    err: &mut Output<E>,
) -> Result<Vec<u8>, RunExit>
    ensures compiled { IfOk result (λ block. (builtins : List (Bor (List ℕ))) × (rules : List OptimizedRule)
        × IsAnswer grammar.now.bytes.items builtins rules × IsCompiled rules block.items) }
    ensures silent { IsOk result → err.new ≡ err.old }
    ensures reading { IsReadingOf grammar.now.bytes.items reading.new }
    ensures known { IfErr result (λ exit. (exit.status ≡ 1) ⊎ (exit.status ≡ 2)
        ⊎ (exit.status ≡ 3) ⊎ (exit.status ≡ 5)) }
    ensures reason { IfErr result (λ exit. exit.status ≡ 1 → ReportsRefusal grammar.now.bytes.items
        exit.write_result (E.contents err.old.writer) (E.contents err.new.writer)) }
    ensures tells_unread { IfErr result (λ exit. exit.status ≡ 3 → ReportsUnread grammar.now grammar.now
        exit.write_result (E.contents err.old.writer) (E.contents err.new.writer)) }
    ensures kept { IfErr result (λ exit. exit.status ≡ 1 → reading.new ≢ Reading.Nothing) }
{
    *reading = Reading::Nothing;
    let Some(text) = text_of(grammar) else {
        return Err(unreadable(alloc, grammar, err));
    };
    match open(alloc, text) {
        Ok(opened) => compile_opened(alloc, opened, err),
        Err(error) => Err(refuse_grammar(alloc, text, error, reading, err)),
    }
}

/// Compiles the optimized rules of an opened grammar to a block, or reports why they cannot be run.
fn compile_opened<E: Write>(
    alloc: Global,
    opened: OpenGrammar<'_>,
    err: &mut Output<E>,
) -> Result<Vec<u8>, RunExit>
    ensures compiled { (text : List ℕ)
        → SpellsWithSpans text opened.entry.builtins.items (rule_views opened.entry.rules.value.items)
        → IfOk result (λ block. (builtins : List (Bor (List ℕ))) × (rules : List OptimizedRule)
        × IsAnswer text builtins rules × IsCompiled rules block.items) }
    ensures silent { IsOk result → err.new ≡ err.old }
    ensures known { IfErr result (λ exit. (exit.status ≡ 2) ⊎ (exit.status ≡ 5)) }
{
    match optimize_with_spans(alloc, opened.rules.into_inner()) {
        Ok(rules) => {
            let rules = Deep { value: rules };
            compile_rules(alloc, &rules.value, err)
        }
        Err(_) => Err(exit_with(err, "out of memory", Status::OutOfMemory)),
    }
}

/// Compiles optimized rules to a block, or reports why they cannot be run.
fn compile_rules<E: Write>(
    alloc: Global,
    rules: &[OptimizedRule],
    err: &mut Output<E>,
) -> Result<Vec<u8>, RunExit>
    ensures compiled { IfOk result (λ block. IsCompiled rules.now block.items) }
    ensures silent { IsOk result → err.new ≡ err.old }
    ensures known { IfErr result (λ exit. (exit.status ≡ 2) ⊎ (exit.status ≡ 5)) }
{
    match compile_block(alloc, rules, &UnicodeProperties) {
        Ok(block) => Ok(block),
        Err(Unfit::Memory) => Err(exit_with(err, "out of memory", Status::OutOfMemory)),
        Err(Unfit::UnknownName(_) | Unfit::Bound(_)) => {
            Err(exit_with(err, "the rules cannot be run", Status::Stopped))
        }
    }
}
