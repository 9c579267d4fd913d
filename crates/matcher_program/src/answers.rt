//! The answers of a run of a rule.
ghost use Rattle.std.specs.Prelude.{◌≡◌};
ghost use Rattle.base_language.specs.Pieces.Span.{position_text};
ghost use Rattle.matcher_program.specs.declared.answers.Stop.TheVariants.{Memory};

use base_language::runtime::Position;
use std::alloc::AllocError;

/// Why a match has no result.
#[derive(Debug, Drop)]
pub enum Refusal<'a> {
    /// No rule has this name.
    UnknownRule(&'a str),
    /// The rule fails. This is the furthest position, in bytes, at which a counted call failed, or 0 if
    /// none did.
    NoMatch(usize),
    /// The run was stopped.
    Stopped(Stop),
}

/// Why a run was stopped.
#[derive(Debug, Drop)]
pub enum Stop {
    /// An allocation failed.
    Memory,
    /// The run needs more steps than were allowed.
    OutOfSteps,
    /// The run came to `PEEK` or `POP`, and the stack is empty.
    EmptyStack,
    /// The text has 2^32 bytes or more.
    TextTooLong,
}

impl From<AllocError> for Stop {
    ghost from_gives = { λ _ stop. stop ≡ Memory };

    fn from(_error: AllocError) -> Stop {
        Stop::Memory
    }
}

/// Returns the text of a position.
pub fn whole_text<'a>(start: Position<'a>) -> &'a str
    ensures { result.now ≡ position_text start.entry }
{
    start.span(&start).get_input()
}
