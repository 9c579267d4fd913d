//! The calls that are open at the position of a failure.
ghost use Rattle.std.specs.Prelude.{◌≡◌, Some, true};
ghost use Rattle.base_language.specs.Language.Expression.{last_place};
ghost use Rattle.base_language.specs.Language.Text.{Text};
ghost use Rattle.matcher_code.specs.Bytecodes.{lists_in};
ghost use Rattle.matcher_compiler.specs.Compiled.{IsCodeOf};
ghost use Rattle.matcher_program.specs.Answers.{state_at};
ghost use Rattle.matcher_program.specs.declared.form.Program.{Program};
ghost use Rattle.matcher_sets.specs.Forms as forms;
ghost use Rattle.matcher_engine.specs.FailurePaths.{Answers, IsTracedFrom};

use crate::limits::OPERATIONS;
use crate::matcher::entry_of;
use crate::tracer::Tracer;
use base_language::runtime::Position;
use matcher_code::bytecode::Bytecode;
use matcher_code::state::Places;
use matcher_machine::machine::{Machine, RunEnd};
use matcher_program::answers::{Stop, whole_text};
use std::alloc::Global;

/// A position that no text has.
pub(crate) const NOWHERE: usize = usize::MAX;

/// Runs `code` for the rule with the index `number` from `start` on, in at most `steps` steps.
/// Returns what is recorded at the positions in `asked`.
pub(crate) fn trace_rule(
    alloc: Global,
    code: &Bytecode<'_>,
    number: usize,
    start: Position<'_>,
    asked: Places,
    steps: u64,
) -> Result<Tracer, Stop>
    ensures { (p : Program) → IsCodeOf true p (lists_in code.now)
        → (n : Text) → last_place (forms.grammar_in p) n ≡ Some number
        → Answers p n (state_at start.entry) steps
        (IsTracedFrom (forms.grammar_in p) p.properties.items n (state_at start.entry) asked) result }
{
    let Some(entry) = entry_of(number) else {
        return Err(Stop::Memory);
    };
    let most = steps.saturating_mul(OPERATIONS);
    let mut machine = Machine::new(alloc);
    machine.asked = asked.names;
    let mut tracer = Tracer::new(alloc, machine, asked.attempts);
    let text = whole_text(start);
    match tracer.run(alloc, code, text, entry, start.pos(), most) {
        Ok(RunEnd::Found(_)) => Ok(tracer),
        Ok(RunEnd::Failed) => Ok(tracer),
        Ok(RunEnd::OutOfSteps) => {
            if most / OPERATIONS == steps {
                Err(Stop::OutOfSteps)
            } else {
                Err(Stop::Memory)
            }
        }
        Ok(RunEnd::Stuck) => Err(Stop::EmptyStack),
        Err(_) => Err(Stop::Memory),
    }
}
