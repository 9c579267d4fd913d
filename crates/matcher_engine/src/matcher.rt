//! Runs of a rule by code.
ghost use Rattle.std.specs.Prelude.{◌≡◌, ◌<◌, ◌≤◌, ◌+◌, ◌^◌, Bool, Some, IfSome, false, length, true};
ghost use Rattle.base_language.specs.Language.Expression.{last_place};
ghost use Rattle.base_language.specs.Language.Text.{Text};
ghost use Rattle.base_language.specs.Pieces.Span.{position_text};
ghost use Rattle.matcher_program.specs.Answers.{state_at, text_size};
ghost use Rattle.matcher_program.specs.declared.form.Program.{Program};
ghost use Rattle.matcher_code.specs.Bytecodes.{lists_in};
ghost use Rattle.matcher_code.specs.Fused.{CanRunAll, IsFusionOf};
ghost use Rattle.matcher_code.specs.Reached.{MayAsk};
ghost use Rattle.matcher_code.specs.Steps.{one_place};
ghost use Rattle.matcher_sets.specs.Forms as forms;
ghost use Rattle.matcher_compiler.specs.Compiled.{IsCodeOf};
ghost use Rattle.matcher_engine.specs.Runs.{IsFresh, IsRun};

use crate::limits::OPERATIONS;
use base_language::runtime::Position;
use matcher_code::bytecode::Bytecode;
use matcher_code::fused::Fused;
use matcher_code::state::TreeNode;
use matcher_machine::machine::{Machine, RunEnd};
use matcher_program::answers::{Stop, whole_text};
use std::alloc::Global;

/// The match of a rule: its end, its furthest failure, and its trees in preorder.
#[derive(Drop)]
pub struct ParseTree {
    /// The trees, each before the trees inside it. The member `rule` of a tree is the index of its
    /// rule.
    pub trees: Vec<TreeNode>,
    /// The position at which the match ends, in bytes.
    pub end: usize,
    /// The furthest position, in bytes, at which a counted call failed, or 0 if none did.
    pub furthest: usize,
}

/// Returns whether the text of `start` has 2^32 bytes or more.
pub(crate) fn has_long_text(start: Position<'_>) -> bool
    ensures long { result ≡ true → 2 ^ 32 ≤ text_size (state_at start.entry) }
    ensures short { result ≡ false → length (position_text start.entry) < 2 ^ 32 }
{
    whole_text(start).len() > u32::MAX as usize
}

/// Returns the label at which a run of the rule with the index `number` begins, or `None` if no
/// `u32` holds it.
pub(crate) fn entry_of(number: usize) -> Option<u32>
    ensures { IfSome result (λ entry. entry ≡ number + 3) }
{
    u32::try_from(number.checked_add(3)?).ok()
}

/// Runs `code`, with its fused operations `fused`, for the rule with the index `number` from
/// `start` on. The run takes at most `steps` steps. Returns the end of the match, in bytes, or
/// `None` if the rule fails.
pub(crate) fn run_rule(
    machine: &mut Machine,
    alloc: Global,
    code: &Bytecode<'_>,
    fused: &[Fused],
    number: usize,
    start: Position<'_>,
    steps: u64,
) -> Result<Option<usize>, Stop>
    requires can { CanRunAll (lists_in code.now) fused.now }
    ensures { (p : Program) (exact : Bool) → IsCodeOf exact p (lists_in code.now)
        → IsFusionOf (lists_in code.now) fused.now
        → (n : Text) → last_place (forms.grammar_in p) n ≡ Some number → IsFresh machine.old
        → MayAsk exact (position_text start.entry) (one_place machine.old.asked)
        → IsRun p n (state_at start.entry) steps machine.old.asked machine.new result }
{
    let Some(entry) = entry_of(number) else {
        return Err(Stop::Memory);
    };
    let most = steps.saturating_mul(OPERATIONS);
    let text = whole_text(start);
    match machine.run_with_memory(alloc, code, fused, text, entry, start.pos(), most) {
        Ok(RunEnd::Found(end)) => Ok(Some(end)),
        Ok(RunEnd::Failed) => Ok(None),
        Ok(RunEnd::OutOfSteps) => {
            if most / OPERATIONS == steps {
                Err(Stop::OutOfSteps)
            } else {
                Err(Stop::Memory)
            }
        }
        Ok(RunEnd::Stuck) => Err(Stop::EmptyStack),
        Err(_) => Err(Stop::Memory),
    }
}
