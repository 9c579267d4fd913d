//! The result of a call for its caller: a status, bytes in a buffer, and their length.
ghost use Rattle.std.specs.Prelude.{◌≡◌, ◌<◌, ◌≤◌, ◌++◌, drop, length};
ghost use Rattle.pest_meta_c.specs.Handing.{AreBytesHandedOver, AreNumbersHandedOver, IsHandedOver, IsPut};

use crate::outcome::{BytesOutcome, CallError, NumbersError, NumbersOutcome, Outcome};

/// The call is answered, and the answer is written.
const ANSWERED: u8 = 0;
/// The text is refused, and the reason is written.
const REFUSED: u8 = 1;
/// An allocation failed.
const MEMORY: u8 = 2;
/// An input is not UTF-8.
const NO_TEXT: u8 = 3;
/// The buffer is too small.
const NO_ROOM: u8 = 4;
/// Writes an outcome to the buffer `out`, its length to `needed`, and returns its status.
pub(crate) fn hand_over(out: &mut [u8], needed: &mut usize, outcome: Outcome) -> u8
    ensures { IsHandedOver outcome out.old out.new needed.new result }
{
    match outcome {
        Ok(json) => put(out, needed, json.as_bytes(), ANSWERED),
        Err(CallError::Refused(json)) => put(out, needed, json.as_bytes(), REFUSED),
        Err(CallError::Memory) => {
            *needed = 0;
            MEMORY
        }
    }
}

/// Writes an outcome in binary form to the buffer `out`, its length to `needed`, and returns its status.
pub(crate) fn hand_over_bytes(out: &mut [u8], needed: &mut usize, outcome: BytesOutcome) -> u8
    ensures { AreBytesHandedOver outcome out.old out.new needed.new result }
{
    match outcome {
        Ok(bytes) => put(out, needed, &bytes, ANSWERED),
        Err(CallError::Refused(errors)) => put(out, needed, errors.as_bytes(), REFUSED),
        Err(CallError::Memory) => nothing(needed, MEMORY),
    }
}

/// Writes numbers to the buffer `out`, their count to `needed`, and returns the status.
pub(crate) fn hand_over_numbers(
    out: &mut [usize],
    needed: &mut usize,
    outcome: NumbersOutcome,
) -> u8
    ensures { AreNumbersHandedOver outcome out.old out.new needed.new result }
{
    match outcome {
        Ok(numbers) => put(out, needed, &numbers, ANSWERED),
        Err(NumbersError::Refused) => nothing(needed, REFUSED),
        Err(NumbersError::Memory) => nothing(needed, MEMORY),
    }
}

/// Returns a status with which nothing is written, with 0 in `needed`.
pub(crate) fn nothing(needed: &mut usize, status: u8) -> u8
    ensures status { result ≡ status }
    ensures needed { needed.new ≡ 0 }
{
    *needed = 0;
    status
}

/// Returns the status of an input that is not UTF-8, with 0 in `needed`.
pub(crate) fn no_text(needed: &mut usize) -> u8
    ensures status { result ≡ 3 }
    ensures needed { needed.new ≡ 0 }
{
    *needed = 0;
    NO_TEXT
}

/// Puts items at the start of the buffer and returns that status, or writes nothing if they do not fit. Their
/// count goes to `needed`.
pub(crate) fn put<T: Copy>(out: &mut [T], needed: &mut usize, items: &[T], status: u8) -> u8
    ensures { IsPut status items.now out.old out.new needed.new result }
{
    *needed = items.len();
    if out.len() < items.len() {
        return NO_ROOM;
    }
    let (head, _) = out.split_at_mut(items.len());
    head.copy_from_slice(items);
    status
}
