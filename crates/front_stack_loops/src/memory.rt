//! Memoized readings, by node and stack, or by node alone if the node is independent of the stack.
ghost use Rattle.std.specs.Prelude.{◌≡◌, ◌<◌, IfSome, OnOk};
ghost use Rattle.front_stack_loops.specs.Apart.{AreMovable, moved};
ghost use Rattle.front_stack_loops.specs.Keys as spec;
ghost use Rattle.front_stack_domain.specs.Views.{possible, reading_of, stack_of};
ghost use Rattle.front_stack_domain.specs.Reading as says;

use base_graphs::is_set;
use front_stack_domain::{Base, Reading, Stack};
use std::alloc::{AllocError, Global};
use std::collections::HashMap;

/// The memoized readings of nodes.
#[derive(Drop)]
pub struct Memory {
    pub known: HashMap<u64, Reading>,
    /// Which nodes are independent of the stack. Their readings are kept as from an unknown stack.
    pub apart: Vec<bool>,
}

fn base_number(base: Base) -> u64
    ensures value { result ≡ spec.base_number base }
    ensures small { result < 3 }
{
    match base {
        Base::Empty => 0,
        Base::Blank => 1,
        Base::Any => 2,
    }
}

/// Returns a key unique to a node and a stack; `None` if the index of the node is 2^40 or more.
fn key_of(node: usize, stack: Stack) -> Option<u64>
    ensures { IfSome result (λ key. key ≡ spec.key_of node stack) }
{
    if node >= 1 << 40 {
        return None;
    }
    let intact: u64 = if stack.intact { 1 } else { 0 };
    let marks = (stack.count as u64) * 512 + ((stack.marks as u64) * 2 + intact);
    Some((node as u64) * 32768 + (base_number(stack.base) * 8192 + marks))
}

/// Returns the stack, if `condition` is a possible stack.
fn only_if(condition: Option<Stack>, stack: Stack) -> Option<Stack>
    ensures { possible result ≡ says.only_if (possible condition) (stack_of stack) }
{
    match condition {
        None => None,
        Some(_) => Some(stack),
    }
}

/// Converts a reading of a node independent of the stack to that from another stack.
fn rebase(reading: Reading, stack: Stack) -> Reading
    ensures { reading_of result ≡ moved (stack_of stack) (reading_of reading) }
{
    Reading {
        ok: only_if(reading.ok, stack),
        err: only_if(reading.err, stack),
        still: reading.still,
    }
}

impl Memory {
    ghost use Rattle.front_stack_loops.specs.Memory.{IsRight, Meaning};

    /// Returns an empty memory. `apart`: which nodes are independent of the stack.
    pub fn new(alloc: Global, apart: Vec<bool>) -> Memory
        ensures { (meaning : Meaning) → AreMovable meaning apart.items → IsRight meaning result }
    {
        Memory {
            known: HashMap::new(alloc),
            apart,
        }
    }

    /// Returns the reading of a node from a stack, if it is memoized. No clause refuses `None`, which costs only
    /// time.
    pub fn recall(&self, node: usize, stack: Stack) -> Option<Reading>
        ensures { IfSome result (λ reading. (meaning : Meaning) → IsRight meaning self.now
            → reading_of reading ≡ meaning node (stack_of stack)) }
    {
        if !is_set(self.apart.as_slice(), node) {
            return self.look_up(node, stack);
        }
        match self.look_up(node, Stack::unknown()) {
            None => None,
            Some(reading) => Some(rebase(reading, stack)),
        }
    }

    /// Memoizes the reading of a node from a stack. No clause asks for it, since it saves only time.
    pub fn remember(
        &mut self,
        node: usize,
        stack: Stack,
        reading: Reading,
    ) -> Result<(), AllocError>
        ensures { OnOk result ((meaning : Meaning) → IsRight meaning self.old
            → reading_of reading ≡ meaning node (stack_of stack) → IsRight meaning self.new) }
    {
        if !is_set(self.apart.as_slice(), node) {
            return self.keep(node, stack, reading);
        }
        let unknown = Stack::unknown();
        let kept = rebase(reading, unknown);
        self.keep(node, unknown, kept)
    }

    /// Looks up the memoized reading of a node from a stack.
    fn look_up(&self, node: usize, stack: Stack) -> Option<Reading>
        ensures { IfSome result (λ reading. (meaning : Meaning) → IsRight meaning self.now
            → reading_of reading ≡ meaning node (stack_of stack)) }
    {
        let key = key_of(node, stack)?;
        self.known.get(&key).copied()
    }

    /// Keeps the reading of a node from a stack.
    fn keep(&mut self, node: usize, stack: Stack, reading: Reading) -> Result<(), AllocError>
        ensures { OnOk result ((meaning : Meaning) → IsRight meaning self.old
            → reading_of reading ≡ meaning node (stack_of stack) → IsRight meaning self.new) }
    {
        if let Some(key) = key_of(node, stack) {
            self.known.insert(key, reading)?;
        }
        Ok(())
    }
}
