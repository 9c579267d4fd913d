//! The matcher, and its trees as text.
ghost use Rattle.std.specs.Prelude.{Err, IfErr, IfOk, Some, length, string_bytes, ◌≡◌, ◌≢◌};
ghost use Rattle.matcher_support.specs.Shown.{shown};
ghost use Rattle.base_ast.specs.Optimized.{optimized_rules_of};
ghost use Rattle.base_language.specs.Language.Expression.{Grammar, last_place};
ghost use Rattle.base_language.specs.Language.State.{Classes, Outcome, State};
ghost use Rattle.base_language.specs.Language.Text.{Text};
ghost use Rattle.base_language.specs.Pieces.Span.{position_text};
ghost use Rattle.matcher_program.specs.Answers.{HasAt, state_at};
ghost use Rattle.matcher_program.specs.Refusals.{IsReason};
ghost use Rattle.matcher_engine.specs.BlockRuns.{IsOutcome};
ghost use Rattle.matcher_engine.specs.Blocks.{HasRules, IsBlockOf, IsWhole, operations_in};
ghost use Rattle.matcher_engine.specs.Limits.{IsAmple, steps_of, turns_of};
ghost use Rattle.matcher_engine.specs.ParseTrees.{HasParseTree};
ghost use Rattle.matcher_engine.specs.Walks.{AreNamesOf};

use base_ast::optimized::OptimizedRule;
use base_language::runtime::Position;
use matcher_engine::block::BlockStop;
use matcher_engine::matcher::ParseTree;
use matcher_engine::walk::walk_names;
use matcher_program::answers::Stop;
use matcher_program::compile::Unfit;
use matcher_program::properties::Properties;
use std::alloc::{AllocError, Global};

/// Compiles rules to a block.
pub fn compile_block<P: Properties>(
    alloc: Global,
    rules: &[OptimizedRule],
    properties: &P,
) -> Result<Vec<u8>, Unfit>
    ensures compiled { IfOk result (λ block.
        IsBlockOf (optimized_rules_of rules.now) P.classes block.items) }
    ensures whole { IfOk result (λ block. IsWhole block.items) }
    ensures rules { IfOk result (λ block. HasRules block.items rules.now) }
    ensures refused { IfErr result (IsReason P.knows (optimized_rules_of rules.now)) }
{
    matcher_engine::block::compile_block(alloc, rules, properties)
}

/// Runs the rule with the number `rule` from `start` on, with a limit on steps or without one.
pub fn run_block(
    alloc: Global,
    block: &[u8],
    rule: u32,
    start: Position<'_>,
    limit: Option<u64>,
) -> Result<ParseTree, BlockStop>
    ensures outcome { (g : Grammar) (classes : Classes) → IsBlockOf g classes block.now
        → (n : Text) → last_place g n ≡ Some rule
        → IsOutcome g n (state_at start.entry) classes (steps_of limit) result }
    ensures answered { (g : Grammar) (classes : Classes) → IsBlockOf g classes block.now
        → (n : Text) → last_place g n ≡ Some rule
        → IsAmple g (operations_in block.now) (length (position_text start.entry)) (turns_of limit)
        → (o : Outcome) → HasAt g n (state_at start.entry) classes o
        → result ≢ Err (BlockStop.Stopped Stop.OutOfSteps) }
{
    matcher_engine::block::run_block(alloc, block, rule, start, limit)
}

/// Returns the trees of a match as lines, by the names of the rules in order.
pub fn tree_text(
    alloc: Global,
    names: &[&str],
    text: &str,
    found: &ParseTree,
) -> Result<String, AllocError>
    ensures { IfOk result (λ lines. (g : Grammar) → AreNamesOf g names.now
        → (n : Text) (s : State) (classes : Classes) → (x : HasParseTree g n s classes found.now)
        → string_bytes lines ≡ shown text.now 0 x.trees) }
{
    matcher_support::shown::tree_text(alloc, text, walk_names(alloc, names, found))
}
