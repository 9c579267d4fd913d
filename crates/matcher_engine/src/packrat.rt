//! Runs with a memo table, for rules that take many steps.
ghost use Rattle.std.specs.Prelude.{◌≡◌, ◌+◌, Bool, IfOk, Some};
ghost use Rattle.base_language.specs.Language.Expression.{last_place};
ghost use Rattle.base_language.specs.Language.State.{Classes};
ghost use Rattle.base_language.specs.Language.Text.{Text};
ghost use Rattle.base_language.specs.Pieces.Span.{position_text};
ghost use Rattle.matcher_code.specs.Bytecodes.{lists_in};
ghost use Rattle.matcher_compiler.specs.Compiled.{IsCodeOf};
ghost use Rattle.matcher_machine.specs.Kinds.{IsFramed};
ghost use Rattle.matcher_program.specs.Answers.{state_at};
ghost use Rattle.matcher_program.specs.Programs.{Fits};
ghost use Rattle.matcher_program.specs.declared.form.Program.{Program};
ghost use Rattle.matcher_sets.specs.Forms as forms;
ghost use Rattle.matcher_engine.specs.Limits.{HasOutcomeFrom, IsEnough};
ghost use Rattle.matcher_engine.specs.PackratAnswers.{IsAnswered, IsRight};

use crate::matcher::{ParseTree, entry_of};
use base_language::runtime::Position;
use matcher_code::bytecode::Bytecode;
use matcher_machine::packrat::run_packrat;
use matcher_machine::recognizing::Recognized;
use matcher_program::answers::whole_text;
use std::alloc::{AllocError, Global};

/// The answer of a run with a memo table.
#[derive(Drop)]
pub(crate) enum PackratEnd {
    /// The rule matches.
    Matched(ParseTree),
    /// The rule fails. This is the furthest position, in bytes, at which a counted call failed, or
    /// 0 if none did.
    Failed(usize),
    /// The run has no answer, since it uses the stack, never ends, or takes more turns than are
    /// allowed.
    Unanswered,
}

/// Runs code with a memo table for the rule with the number `number` from `start` on, in at most `turns`
/// turns. The only error is an allocation failure.
pub(crate) fn run_with_table(
    alloc: Global,
    code: &Bytecode<'_>,
    number: usize,
    start: Position<'_>,
    turns: u64,
) -> Result<PackratEnd, AllocError>
    ensures right { IfOk result (λ it. (p : Program) (exact : Bool) → IsCodeOf exact p (lists_in code.now)
        → IsFramed (lists_in code.now) → (n : Text) → last_place (forms.grammar_in p) n ≡ Some number
        → (classes : Classes) → Fits p.properties.items classes
        → IsRight (forms.grammar_in p) n (state_at start.entry) classes it) }
    ensures answered { IfOk result (λ it. (p : Program) (exact : Bool) → IsCodeOf exact p (lists_in code.now)
        → (n : Text) → last_place (forms.grammar_in p) n ≡ Some number
        → IsEnough (lists_in code.now) (position_text start.entry) turns
        → HasOutcomeFrom (forms.grammar_in p) p.properties.items n (state_at start.entry)
        → IsAnswered it) }
{
    let Some(entry) = entry_of(number) else {
        return Err(AllocError);
    };
    let text = whole_text(start);
    let run = run_packrat(alloc, code, text, entry, start.pos(), turns)?;
    match run.end {
        Recognized::Found(end) => Ok(PackratEnd::Matched(ParseTree {
            trees: run.trees,
            end,
            furthest: run.furthest,
        })),
        Recognized::Failed => Ok(PackratEnd::Failed(run.furthest)),
        Recognized::Endless | Recognized::OutOfSteps | Recognized::Unknown => {
            Ok(PackratEnd::Unanswered)
        }
    }
}
