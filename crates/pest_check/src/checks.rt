//! The program after its input is read.
ghost use Rattle.std.specs.Prelude.{◌≡◌, ◌≢◌, ◌≤◌, ◌⊎◌, ◌↔◌, IfNone, IfOk, IfSome, IsErr, IsOk, IsUtf8, codes, encode_utf8_all, string_bytes, true};
ghost use Rattle.std.specs.Io.KnownBytes.{Appends};
ghost use Rattle.base_ast.specs.Ast.{rule_type_of};
ghost use Rattle.base_ast.specs.Optimized.{optimized_rules_of};
ghost use Rattle.pest_check.specs.Written.{PrintsAnswer, ReportsRefusal, WritesLine};
ghost use Rattle.pest_meta.specs.Spelling.{HasAnswer};
ghost use Rattle.pest_meta.specs.ReadsBack.{grammar_text, modifier};

use base_ast::optimized::release;
use base_language::runtime::Fault;
use pest_meta::ast::RuleType;
use pest_meta::optimizer::OptimizedRule;
use pest_meta::parse_and_optimize;
use program_support::ends::{RunExit, exit_after_write, exit_with, report_refusal};
use program_support::output::Output;
use program_support::status::Status;
use std::alloc::{AllocError, Global};
use std::io::Write;

/// Prints the rules of a grammar to `out`, a line each as `name = modifier{ expr }`, and answers 0.
///
/// Otherwise one text with a line break at its end goes to `err`: the report of a text that is refused (1),
/// `out of memory` (2), `cannot read` if there is no input or it isn't UTF-8 (3), `cannot write` if
/// `out` refuses a write (4), which keeps the part that it took before. All lines are made before the first
/// one is written. A write that `err` refuses changes no status.
pub fn run<W: Write, E: Write>(
    alloc: Global,
    input: Option<&[u8]>,
    out: &mut Output<W>,
    err: &mut Output<E>,
) -> RunExit
    ensures known { result.status ≤ 4 }
    ensures unread { IfNone input.entry (result.status ≡ 3) }
    ensures decoded { IfSome input.entry (λ bytes. result.status ≡ 3 ↔ ¬ (IsUtf8 bytes.now)) }
    ensures unwritten { IfSome input.entry (λ bytes. result.status ≡ 4 → HasAnswer bytes.now) }

    // The text for `out`, and whether it refused a write.
    ensures printed { IfSome input.entry (λ bytes. result.status ≡ 0
        → PrintsAnswer bytes.now (W.contents out.old.writer) (W.contents out.new.writer)) }
    ensures unprinted { result.status ≢ 0 → result.status ≢ 4 → out.new ≡ out.old }
    ensures taken { result.status ≡ 0 → out.new.refused ≡ out.old.refused }
    ensures refused_write { result.status ≡ 4 → out.new.refused ≡ true }

    // The text for `err`, and whether it refused a write.
    ensures silent { result.status ≡ 0 → err.new ≡ err.old }
    ensures refused { IfSome input.entry (λ bytes. result.status ≡ 1
        → ReportsRefusal err.old.is_terminal bytes.now result.write_result
        (E.contents err.old.writer) (E.contents err.new.writer)) }
    ensures tells_memory { result.status ≡ 2
        → WritesLine (codes "out of memory") result.write_result
        (E.contents err.old.writer) (E.contents err.new.writer) }
    ensures tells_unread { result.status ≡ 3
        → WritesLine (codes "cannot read") result.write_result
        (E.contents err.old.writer) (E.contents err.new.writer) }
    ensures tells_unwritten { result.status ≡ 4
        → WritesLine (codes "cannot write") result.write_result
        (E.contents err.old.writer) (E.contents err.new.writer) }
    ensures told { IsOk result.write_result → err.new.refused ≡ err.old.refused }
    ensures refused_line { IsErr result.write_result → err.new.refused ≡ true }
{
    let Some(bytes) = input else {
        return exit_with(err, "cannot read", Status::Unreadable);
    };
    let Ok(grammar) = str::from_utf8(bytes) else {
        return exit_with(err, "cannot read", Status::Unreadable);
    };
    match parse_and_optimize(alloc, grammar) {
        Ok((_, rules)) => print_rules(alloc, rules, out, err),
        Err(Fault::Memory(_)) => exit_with(err, "out of memory", Status::OutOfMemory),
        Err(Fault::Grammar(errors)) => report_refusal(alloc, errors, err),
    }
}

/// Prints rules and ends the run. An allocation failure and a refused write are reported.
fn print_rules<W: Write, E: Write>(
    alloc: Global,
    rules: Vec<OptimizedRule>,
    out: &mut Output<W>,
    err: &mut Output<E>,
) -> RunExit
    ensures known { (result.status ≡ 0) ⊎ (result.status ≡ 2) ⊎ (result.status ≡ 4) }
    ensures printed { result.status ≡ 0 → Appends (W.contents out.old.writer) (W.contents out.new.writer)
        (encode_utf8_all (grammar_text (optimized_rules_of rules.items))) }
    ensures unprinted { result.status ≢ 0 → result.status ≢ 4 → out.new ≡ out.old }
    ensures taken { result.status ≡ 0 → out.new.refused ≡ out.old.refused }
    ensures refused_write { result.status ≡ 4 → out.new.refused ≡ true }
    ensures silent { result.status ≡ 0 → err.new ≡ err.old }
    ensures tells_memory { result.status ≡ 2
        → WritesLine (codes "out of memory") result.write_result
        (E.contents err.old.writer) (E.contents err.new.writer) }
    ensures tells_unwritten { result.status ≡ 4
        → WritesLine (codes "cannot write") result.write_result
        (E.contents err.old.writer) (E.contents err.new.writer) }
    ensures told { IsOk result.write_result → err.new.refused ≡ err.old.refused }
    ensures refused_line { IsErr result.write_result → err.new.refused ≡ true }
{
    match rules_text(alloc, rules) {
        Ok(text) => {
            let written = out.write_text(text.as_str());
            exit_after_write(err, written, None)
        }
        Err(_) => exit_with(err, "out of memory", Status::OutOfMemory),
    }
}

/// Returns the lines of rules, and drops the rules iteratively. The only error is an allocation failure.
fn rules_text(alloc: Global, rules: Vec<OptimizedRule>) -> Result<String, AllocError>
    ensures { IfOk result (λ text. string_bytes text
        ≡ encode_utf8_all (grammar_text (optimized_rules_of rules.items))) }
{
    let text = lines_of(alloc, &rules);
    release(rules);
    text
}

/// Returns a text with each rule on a line of its own.
fn lines_of(alloc: Global, rules: &[OptimizedRule]) -> Result<String, AllocError>
    ensures { IfOk result (λ text. string_bytes text
        ≡ encode_utf8_all (grammar_text (optimized_rules_of rules.now))) }
{
    let mut text = String::new(alloc);
    for rule in rules {
        let modifier = sign_of(rule.ty);
        writeln!(text, "{} = {modifier}{{ {} }}", rule.name, rule.expr)?;
    }
    Ok(text)
}

/// Returns the modifier of a rule's type before its brace.
fn sign_of(ty: RuleType) -> &'static str
    ensures { result.now ≡ modifier (rule_type_of ty) }
{
    match ty {
        RuleType::Normal => "",
        RuleType::Silent => "_",
        RuleType::Atomic => "@",
        RuleType::CompoundAtomic => "$",
        RuleType::NonAtomic => "!",
    }
}
