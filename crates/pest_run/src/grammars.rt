//! Grammars, read once.
ghost use Rattle.std.specs.Prelude.{◌≡◌, ◌≢◌, ◌⊎◌, List, ℕ, IfErr, IfOk, IsErr, IsOk, codes, true};
ghost use Rattle.base_ast.specs.Ast.{rules_of};
ghost use Rattle.base_ast.specs.Optimized.{optimized_rules_of};
ghost use Rattle.base_language.specs.Pieces.Faults.{IsMemory};
ghost use Rattle.pest_meta.specs.Opening.{IsOpenError};
ghost use Rattle.pest_run.specs.Grammars.{IsReadFrom, IsReadingOf};
ghost use Rattle.pest_run.specs.Written.{AreRun, ReportsRefusal, WritesLine};

use crate::arguments::RuleForm;
use crate::properties::find_property;
use base_ast::ast::Rule;
use base_ast::deep::Deep;
use base_ast::optimized::OptimizedRule;
use base_language::runtime::Fault;
use front_optimizer::{optimize, unroll_rules};
use front_spanned::erase_spans;
use pest_meta::{OpenError, open};
use program_support::ends::{RunExit, exit_with, report_refusal};
use program_support::output::Output;
use program_support::status::Status;
use std::alloc::{AllocError, Global};
use std::io::Write;

/// The rules of a grammar's text, as they are written.
#[derive(Drop)]
pub struct GrammarRules {
    pub rules: Deep<Vec<Rule>>,
}

/// The result of reading a grammar's text.
#[derive(Drop)]
pub enum Reading<'g> {
    /// Nothing: it was not read, or an allocation failed.
    Nothing,
    /// Its rules, which are accepted.
    Accepted(GrammarRules),
    /// A refusal, with the first property of pest that the grammar calls undefined, if there is one.
    Refused(Option<&'g str>),
}

impl GrammarRules {
    /// Returns the rules in the form in which they are run. The only fault is an allocation failure.
    pub fn to_run(&self, alloc: Global, form: RuleForm) -> Result<Vec<OptimizedRule>, Fault>
        ensures rules { (grammar : List ℕ) → IsReadFrom grammar self.now
            → IfOk result (λ rules. AreRun form grammar (optimized_rules_of rules.items)) }
        ensures memory { IfErr result IsMemory }
    {
        let rules = copy_rules(alloc, &self.rules.value)?.into_inner();
        match form {
            RuleForm::Written => unroll_rules(alloc, rules),
            RuleForm::Optimized => optimize(alloc, rules),
        }
    }
}

/// Returns the rules that the text of a grammar spells, or why it is refused.
pub fn read_grammar<'g>(alloc: Global, grammar: &'g str) -> Result<GrammarRules, OpenError<'g>>
    ensures rules { IfOk result (IsReadFrom grammar.entry.now) }
    ensures refused { IfErr result (IsOpenError grammar.entry.now) }
{
    let opened = open(alloc, grammar)?;
    let rules = Deep {
        value: erase_spans(alloc, opened.rules.into_inner())?,
    };
    Ok(GrammarRules { rules })
}

/// Reports the errors for which the text of a grammar is refused (1), or that an allocation failed (2).
/// `reading` is what was read of the text.
pub fn refuse_grammar<'g, E: Write>(
    alloc: Global,
    grammar: &'g str,
    error: OpenError<'g>,
    reading: &mut Reading<'g>,
    err: &mut Output<E>,
) -> RunExit
    requires { IsOpenError grammar.now error }
    ensures known { (result.status ≡ 1) ⊎ (result.status ≡ 2) }
    ensures reading { IsReadingOf grammar.entry.now reading.new }
    ensures reason { result.status ≡ 1 → ReportsRefusal grammar.entry.now result.write_result
        (E.contents err.old.writer) (E.contents err.new.writer) }
    ensures tells_memory { result.status ≡ 2
        → WritesLine (codes "out of memory") result.write_result
        (E.contents err.old.writer) (E.contents err.new.writer) }
    ensures told { IsOk result.write_result → err.new.refused ≡ err.old.refused }
    ensures refused_line { IsErr result.write_result → err.new.refused ≡ true }
    ensures kept { result.status ≢ 2 → reading.new ≢ Reading.Nothing }
{
    let property = find_property(&error);
    match error.into_errors(alloc, grammar) {
        Ok(errors) => {
            *reading = Reading::Refused(property);
            report_refusal(alloc, errors, err)
        }
        Err(_) => {
            *reading = Reading::Nothing;
            exit_with(err, "out of memory", Status::OutOfMemory)
        }
    }
}

/// Returns a copy of rules. The only error is an allocation failure.
fn copy_rules(alloc: Global, rules: &[Rule]) -> Result<Deep<Vec<Rule>>, AllocError>
    ensures { IfOk result (λ copy. rules_of copy.value.items ≡ rules_of rules.now) }
{
    let mut copy = Deep {
        value: Vec::new(alloc),
    };
    for rule in rules {
        let rule = rule.clone()?;
        copy.push(Deep { value: rule })?;
    }
    Ok(copy)
}
