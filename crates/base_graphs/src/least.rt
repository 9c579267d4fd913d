//! The least fixpoint of boolean equations, by a worklist: rounds over all items set the flags that follow
//! from those that are set, until a round sets none. An item whose flag is set goes on the worklist, from
//! which its listeners are visited, so that the second round sets none.
ghost use Rattle.std.specs.Prelude.{◌≡◌, ◌<◌, ◌≤◌, ◌+◌, ℕ, Bool, List, length, slice_get, Some, IfOk, OnOk, true, false};
ghost use Rattle.base_graphs.specs.Least.{AreSound, AreClosed, IsClosedAt, is_set_at, unset};

use crate::listeners::Listeners;
use std::alloc::{AllocError, Global};

/// How the flag of an item follows from the flags of others.
pub trait Inference {
    /// The data of an item.
    type Item;

    ghost items: { Self → List Self.Item };

    // whether the flag of an item follows from others; the function says which of them are set
    ghost infers: { Self → (ℕ → Bool) → Self.Item → Bool };

    /// Counts the items.
    fn count(&self) -> usize
        ensures { result ≡ length (items self.now) };

    /// Whether the flag of the item of a number follows from those that are set.
    fn infers(&self, flags: &[bool], number: usize) -> bool
        requires { number < length (items self.now) }
        ensures { (item : Self.Item) → slice_get (items self.now) number ≡ Some item
            → result ≡ infers self.now (is_set_at flags.now) item };
}

/// Whether the flag of a number is set.
pub fn is_set(flags: &[bool], number: usize) -> bool
    ensures { result ≡ is_set_at flags.now number }
{
    match flags.get(number) {
        Some(flag) => *flag,
        None => false,
    }
}

/// Sets the flag of an item if it follows, and puts the item on the worklist. Returns whether it was set
/// now.
fn set<I: Inference>(
    inference: &I,
    flags: &mut Vec<bool>,
    waiting: &mut Vec<usize>,
    number: usize,
) -> Result<bool, AllocError>
    requires { AreSound (I.infers inference.now) (I.items inference.now) flags.old.items }
    ensures sound { OnOk result (AreSound (I.infers inference.now) (I.items inference.now) flags.new.items) }
    ensures same { IfOk result (λ added. added ≡ false → (flags.new.items ≡ flags.old.items)
        × IsClosedAt (I.infers inference.now) (I.items inference.now) flags.new.items number) }
    ensures fewer { IfOk result (λ added. added ≡ true → unset flags.new.items + 1 ≡ unset flags.old.items) }
    ensures waits { IfOk result (λ added. added ≡ false → waiting.new.len ≡ waiting.old.len) }
    ensures waits_more { IfOk result (λ added. added ≡ true → waiting.new.len ≡ waiting.old.len + 1) }
{
    if number >= inference.count() {
        return Ok(false);
    }
    if is_set(flags.as_slice(), number) {
        return Ok(false);
    }
    if !inference.infers(flags.as_slice(), number) {
        return Ok(false);
    }
    waiting.push(number)?;
    flags[number] = true;
    Ok(true)
}

/// Visits the listeners of all items on the worklist.
fn spread<I: Inference>(
    inference: &I,
    listeners: &Listeners,
    flags: &mut Vec<bool>,
    waiting: &mut Vec<usize>,
) -> Result<(), AllocError>
    requires { AreSound (I.infers inference.now) (I.items inference.now) flags.old.items }
    ensures sound { OnOk result (AreSound (I.infers inference.now) (I.items inference.now) flags.new.items) }
    ensures fewer { OnOk result (unset flags.new.items ≤ unset flags.old.items) }
{
    while let Some(number) = waiting.pop() {
        for listener in listeners.of(number) {
            set(inference, flags, waiting, *listener)?;
        }
    }
    Ok(())
}

/// Sets each flag that follows from those that are set, and visits listeners. Returns whether any was set.
fn run_round<I: Inference>(
    inference: &I,
    listeners: &Listeners,
    flags: &mut Vec<bool>,
    waiting: &mut Vec<usize>,
) -> Result<bool, AllocError>
    requires { AreSound (I.infers inference.now) (I.items inference.now) flags.old.items }
    ensures sound { OnOk result (AreSound (I.infers inference.now) (I.items inference.now) flags.new.items) }
    ensures closed { IfOk result (λ added. added ≡ false
        → AreClosed (I.infers inference.now) (I.items inference.now) flags.new.items) }
    ensures fewer { IfOk result (λ added. added ≡ true → unset flags.new.items < unset flags.old.items) }
{
    let mut added = false;
    for number in 0..inference.count() {
        if set(inference, flags, waiting, number)? {
            added = true;
            spread(inference, listeners, flags, waiting)?;
        }
    }
    Ok(added)
}

/// Computes the least flags that are sound and closed: a flag is set if and only if it follows from set
/// flags. The only error is allocation failure.
pub fn least_flags<I: Inference>(
    alloc: Global,
    inference: &I,
    listeners: &Listeners,
) -> Result<Vec<bool>, AllocError>
    ensures sound { IfOk result (λ flags.
        AreSound (I.infers inference.now) (I.items inference.now) flags.items) }
    ensures closed { IfOk result (λ flags.
        AreClosed (I.infers inference.now) (I.items inference.now) flags.items) }
{
    let mut flags = vec![in alloc; false; inference.count()]?;
    let mut waiting = Vec::new(alloc);
    loop {
        if !run_round(inference, listeners, &mut flags, &mut waiting)? {
            return Ok(flags);
        }
    }
}
