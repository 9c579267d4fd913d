//! Matches of a rule on a text, with a limit or without one.
ghost use Rattle.std.specs.Prelude.{◌≡◌, ◌≢◌, Err, IfErr, IfOk, None, chars, false, length, true};
ghost use Rattle.std.specs.Option.{is_some};
ghost use Rattle.base_language.specs.Language.Expression.{Grammar};
ghost use Rattle.base_language.specs.Language.State.{Outcome};
ghost use Rattle.matcher_engine.specs.Limits.{IsAmple, turns_of};
ghost use Rattle.matcher_engine.specs.ParseTrees.{HasParseTree};
ghost use Rattle.matcher_program.specs.Answers.{Has, start_of};
ghost use Rattle.matcher_support.specs.Compiled.{IsCompiledOf, IsRefusedBy, operations_of};
ghost use Rattle.matcher_support.specs.Sets.{is_in_property};
ghost use Rattle.pest_run.specs.Steps.{match_limit, step_limit};

use crate::arguments::step_limit;
use matcher_engine::block::BlockStop;
use matcher_engine::matcher::ParseTree;
use matcher_program::answers::Stop;
use matcher_support::compiled::CompiledGrammar;
use std::alloc::Global;

/// Matches `text` against the rule named `rule`. `limit` is the greatest number of steps, if the user gave
/// one. If not, only a rule that uses the stack has a limit; `user` is the name of such a rule.
pub fn match_rule(
    alloc: Global,
    rules: &CompiledGrammar<'_>,
    rule: &str,
    text: &str,
    limit: Option<u64>,
    user: Option<&str>,
) -> Result<ParseTree, BlockStop>
    ensures matched { (g : Grammar) → IsCompiledOf g rules.now
        → IfOk result (HasParseTree g (chars rule.now) (start_of text.now) is_in_property) }
    ensures refused { (g : Grammar) → IsCompiledOf g rules.now
        → IfErr result (IsRefusedBy g rule.now text.now (step_limit limit (length text.now))) }
    ensures answered { (g : Grammar) → IsCompiledOf g rules.now
        → IsAmple g (operations_of rules.now) (length text.now)
        (turns_of (match_limit limit (is_some user.entry) (length text.now)))
        → (o : Outcome) → Has g (chars rule.now) text.now is_in_property o
        → result ≢ Err (BlockStop.Stopped Stop.OutOfSteps) }
{
    rules.match_text(
        alloc,
        rule,
        text,
        limit_of(limit, user.is_some(), text.len()),
    )
}

/// Returns the limit of a match on a text of `length` bytes: `limit`, if it is given, or else that of a rule
/// that uses the stack, if `uses_stack`.
fn limit_of(limit: Option<u64>, uses_stack: bool, length: usize) -> Option<u64>
    ensures { result ≡ match_limit limit uses_stack length }
{
    match limit {
        Some(steps) => Some(steps),
        None => {
            if uses_stack {
                Some(step_limit(None, length))
            } else {
                None
            }
        }
    }
}

/// Returns whether a run was stopped since it takes more steps than were allowed.
pub fn is_out_of_steps(stop: &BlockStop) -> bool
    ensures out { result ≡ true → stop.now ≡ BlockStop.Stopped Stop.OutOfSteps }
    ensures other { result ≡ false → stop.now ≢ BlockStop.Stopped Stop.OutOfSteps }
{
    match stop {
        BlockStop::Stopped(Stop::OutOfSteps) => true,
        _ => false,
    }
}
