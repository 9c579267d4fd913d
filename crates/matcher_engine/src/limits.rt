//! Limits of runs: the one place of their numbers.
ghost use Rattle.std.specs.Prelude.{◌≡◌, ◌≤◌};
ghost use Rattle.matcher_engine.specs.Limits.{steps_of};

/// The number of operations in a step, and the number of turns in a step of a run with a memo
/// table.
pub(crate) const OPERATIONS: u64 = 4;

/// The limit of a run that is given none, in steps. Its operations still fit a `u64`.
const MOST_STEPS: u64 = u64::MAX / OPERATIONS;

/// The steps of the first run for each byte of the text. `FIRST_STEPS` are added to them. Nearly
/// all texts take fewer.
const FIRST_STEPS_PER_BYTE: u64 = 32;

const FIRST_STEPS: u64 = 16_384;

/// Returns the number of steps that `limit` allows: 2^62 - 1 if it is `None`.
pub(crate) fn most_steps(limit: Option<u64>) -> u64
    ensures { result ≡ steps_of limit }
{
    match limit {
        Some(steps) => steps,
        None => MOST_STEPS,
    }
}

/// Returns the limit of the first run on a text of `bytes` bytes, which is at most `most` steps.
pub(crate) fn first_steps(bytes: usize, most: u64) -> u64
    ensures { result ≤ most }
{
    let steps = (bytes as u64)
        .saturating_mul(FIRST_STEPS_PER_BYTE)
        .saturating_add(FIRST_STEPS);
    steps.min(most)
}
