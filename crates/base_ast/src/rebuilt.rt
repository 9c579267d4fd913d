//! Trees built from other trees iteratively: neither width nor depth takes stack space.
ghost use Rattle.std.specs.Prelude.{◌≡◌, ◌≤◌, ◌<◌, ℕ, [], IfOk, OnOk};
ghost use Rattle.base_ast.specs.Rebuilding.{meaning_of, work_of, GoesOn};

use crate::deep::{Deep, Release};
use std::alloc::{AllocError, Global};

/// The result of a step.
#[derive(Drop)]
pub enum Step<S, A, T> {
    /// A tree that is made.
    Made(T),
    /// The context of an operand, and the operand, which is to be built first.
    Inside(A, S),
}

/// The context of an operand while a tree is built from the operand.
pub trait Rebuild: Drop {
    /// Trees to build from.
    type Source: Release;
    /// Trees to build.
    type Target: Release;

    // the meaning of trees, and of an operand inside its context
    ghost Meaning: { Type 0 };

    ghost says: { Self.Source → Meaning };

    ghost made: { Self.Target → Meaning };

    ghost fills: { Self → Meaning → Meaning };

    // of which trees others are made
    ghost is_right: { Self.Source → Type 0 };

    ghost is_ready: { Self → Type 0 };

    // how much there is to be done
    ghost size: { Self.Source → ℕ };

    ghost waits: { Self → ℕ };

    /// Builds a tree from one without operands; else returns its first operand and the context of that.
    fn open(source: Self::Source) -> Result<Step<Self::Source, Self, Self::Target>, AllocError>
        requires { is_right source }
        ensures meaning { IfOk result (λ step. meaning_of says made fills step ≡ says source) }
        ensures work { IfOk result (λ step. work_of size waits step ≤ size source) }
        ensures ready { IfOk result (GoesOn is_right is_ready) };

    /// Builds the whole from its last operand; else returns the next operand.
    fn close(
        self,
        alloc: Global,
        operand: Self::Target,
    ) -> Result<Step<Self::Source, Self, Self::Target>, AllocError>
        requires { is_ready self }
        ensures meaning { IfOk result (λ step. meaning_of says made fills step ≡ fills self (made operand)) }
        ensures work { IfOk result (λ step. work_of size waits step < waits self) }
        ensures ready { IfOk result (GoesOn is_right is_ready) };
}

/// Builds a tree from another one, in the contexts that `R` defines. `outside`, an empty list, is lent for
/// these contexts, so that one list serves many trees. The only error is allocation failure, and then
/// `outside` may keep some.
pub fn rebuild_tree<R: Rebuild>(
    alloc: Global,
    source: R::Source,
    outside: &mut Vec<R>,
) -> Result<R::Target, AllocError>
    requires right { R.is_right source }
    requires empty { outside.old.items ≡ [] }
    ensures built { IfOk result (λ tree. R.made tree ≡ R.says source) }
    ensures empty { OnOk result (outside.new.items ≡ []) }
{
    let mut step = R::open(source)?;
    'steps: loop {
        match step {
            Step::Inside(around, operand) => {
                let operand = Deep { value: operand };
                outside.push(around)?;
                step = R::open(operand.into_inner())?;
            }
            Step::Made(tree) => match outside.pop() {
                Some(around) => step = R::close(around, alloc, tree)?,
                None => return Ok(tree),
            },
        }
    }
}
