//! Runs of the constant programs.
ghost use Rattle.std.specs.Prelude.{◌≡◌, IfOk};
ghost use Rattle.base_language.specs.Language.State.{Classes};
ghost use Rattle.base_language.specs.Pieces.MetaRules.{name_of};
ghost use Rattle.front_code.specs.Numbers.{number_of};
ghost use Rattle.front_code.specs.Runs.{IsParseOf, IsRunOf};

use crate::bytes::{FusedCode, exact_code, fast_code};
use crate::numbers::rule_number;
use base_language::grammar::Rule;
use front_grammar::laws::each_rule_has_one_outcome;
use matcher_code::state::TreeNode;
use matcher_machine::machine::{Machine, RunEnd};
use std::alloc::{AllocError, Global};

/// The result of a rule of the meta-grammar on a text.
#[derive(Drop)]
pub struct RuleRun {
    /// The end of the match in bytes, or `None` if the rule fails.
    pub end: Option<usize>,
    /// The trees of the match in preorder; the field `rule` of each is the number of its rule.
    pub trees: Vec<TreeNode>,
    /// The greatest position in bytes at which a call that counts failed; 0 if none did.
    pub furthest: usize,
    /// The numbers of the rules that are expected at the position that was asked for, in the order in which
    /// they are first called there.
    pub names: Vec<u32>,
}

/// Matches a rule in NonAtomic from the start of a text on, and records the rules that are expected at
/// `place`, in bytes. The only error is an allocation failure, as which a run of 2^64 steps counts.
pub fn run_rule(alloc: Global, rule: Rule, text: &str, place: usize) -> Result<RuleRun, AllocError>
    ensures { IfOk result (IsRunOf rule text.now place) }
{
    each_rule_has_one_outcome();
    let FusedCode { code, fused } = exact_code();
    let mut machine = Machine::new(alloc);
    machine.asked = place;
    let entry = rule_number(rule) + 3;
    let end = machine.run_with_memory(alloc, &code, fused, text, entry, 0, u64::MAX)?;
    match end {
        RunEnd::Found(end) => Ok(result_of(machine, Some(end))),
        RunEnd::Failed => Ok(result_of(machine, None)),
        RunEnd::Stuck | RunEnd::OutOfSteps => Err(AllocError),
    }
}

/// Matches a rule as `run_rule` does, but by the fast code, which finds no names. The only error is an
/// allocation failure, as which a text of 2^32 bytes and a run of 2^64 steps count.
pub fn parse_rule(alloc: Global, rule: Rule, text: &str) -> Result<RuleRun, AllocError>
    ensures { IfOk result (IsParseOf rule text.now) }
{
    if text.len() > u32::MAX as usize {
        return Err(AllocError);
    }
    each_rule_has_one_outcome();
    let FusedCode { code, fused } = fast_code();
    let mut machine = Machine::new(alloc);
    let entry = rule_number(rule) + 3;
    let end = machine.run_with_memory(alloc, &code, fused, text, entry, 0, u64::MAX)?;
    match end {
        RunEnd::Found(end) => Ok(result_of(machine, Some(end))),
        RunEnd::Failed => Ok(result_of(machine, None)),
        RunEnd::Stuck | RunEnd::OutOfSteps => Err(AllocError),
    }
}

/// Returns the result of a run that has ended.
fn result_of(machine: Machine, end: Option<usize>) -> RuleRun
    ensures end { result.end ≡ end }
    ensures trees { result.trees ≡ machine.trees }
    ensures furthest { result.furthest ≡ machine.furthest }
    ensures names { result.names ≡ machine.names }
{
    let Machine {
        trees,
        furthest,
        names,
        ..
    } = machine;
    RuleRun {
        end,
        trees,
        furthest,
        names,
    }
}
