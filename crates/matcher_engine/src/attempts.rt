//! The rules that an error of pest names.
ghost use Rattle.std.specs.Prelude.{◌≡◌, Some, true};
ghost use Rattle.base_language.specs.Language.Expression.{last_place};
ghost use Rattle.base_language.specs.Language.State.{Classes};
ghost use Rattle.base_language.specs.Language.Text.{Text};
ghost use Rattle.matcher_code.specs.Bytecodes.{lists_in};
ghost use Rattle.matcher_compiler.specs.Compiled.{IsCodeOf};
ghost use Rattle.matcher_program.specs.Answers.{state_at};
ghost use Rattle.matcher_program.specs.Programs.{Fits};
ghost use Rattle.matcher_program.specs.declared.form.Program.{Program};
ghost use Rattle.matcher_sets.specs.Forms as forms;
ghost use Rattle.matcher_engine.specs.FailureAttempts.{AreAttemptsFrom, AreToldAt};
ghost use Rattle.matcher_engine.specs.FailurePaths.{Answers};

use crate::paths::{NOWHERE, trace_rule};
use crate::tracer::Tracer;
use base_language::runtime::Position;
use matcher_code::bytecode::Bytecode;
use matcher_code::state::Places;
use matcher_program::answers::Stop;
use std::alloc::Global;

/// The rules that an error of pest names, and the position of the error.
#[derive(Debug, Drop)]
pub struct Attempts {
    /// The greatest position, in bytes, of a recorded call, or 0 if no call is recorded.
    pub place: usize,
    /// The indices of the rules that are expected at this position, in the order of their calls. An
    /// index may be in the list several times.
    pub positives: Vec<u32>,
    /// The indices of the rules that are not expected at this position, in the same form.
    pub negatives: Vec<u32>,
}

/// Runs `code` for the rule with the index `number` from `start` on, in at most `steps` steps.
/// Returns the rules that are recorded at the byte `place`. The position in the result is the
/// greatest one of a recorded call, and at least `place`.
fn attempts_at(
    alloc: Global,
    code: &Bytecode<'_>,
    number: usize,
    start: Position<'_>,
    place: usize,
    steps: u64,
) -> Result<Attempts, Stop>
    ensures { (p : Program) → IsCodeOf true p (lists_in code.now)
        → (n : Text) → last_place (forms.grammar_in p) n ≡ Some number
        → Answers p n (state_at start.entry) steps
        (λ it. (classes : Classes) → Fits p.properties.items classes
        → AreToldAt (forms.grammar_in p) n (state_at start.entry) classes place it) result }
{
    let asked = Places {
        names: NOWHERE,
        attempts: place,
    };
    let tracer = trace_rule(alloc, code, number, start, asked, steps)?;
    let Tracer {
        furthest,
        positives,
        negatives,
        ..
    } = tracer;
    Ok(Attempts {
        place: furthest,
        positives,
        negatives,
    })
}

/// Runs `code` for the rule with the index `number` from `start` on, at most three times, and in at
/// most `steps` steps each. The first run looks at the byte `place`. A further run looks at the
/// greatest position of a recorded call in the run before. Returns the rules that are recorded at
/// the last position.
pub(crate) fn find_attempts(
    alloc: Global,
    code: &Bytecode<'_>,
    number: usize,
    start: Position<'_>,
    place: usize,
    steps: u64,
) -> Result<Attempts, Stop>
    ensures { (p : Program) → IsCodeOf true p (lists_in code.now)
        → (n : Text) → last_place (forms.grammar_in p) n ≡ Some number
        → Answers p n (state_at start.entry) steps
        (AreAttemptsFrom (forms.grammar_in p) p.properties.items n (state_at start.entry)) result }
{
    let first = attempts_at(alloc, code, number, start, place, steps)?;
    if first.place == place {
        return Ok(first);
    }
    let second = attempts_at(alloc, code, number, start, first.place, steps)?;
    if second.place == first.place {
        return Ok(second);
    }
    attempts_at(alloc, code, number, start, second.place, steps)
}
