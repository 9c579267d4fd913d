//! Programs of operations.
ghost use Rattle.std.specs.Prelude.{◌≡◌, ◌≤◌, ◌<◌, IfOk, drop, length};
ghost use Rattle.matcher_code.specs.Bytecodes.{lists_in};
ghost use Rattle.matcher_code.specs.Fused.{CanRunAll, IsFusionOf};
ghost use Rattle.matcher_code.specs.Reading.{char_len};
ghost use Rattle.matcher_machine.specs.Machines.{EndsAtLast, config};

use matcher_code::bytecode::Bytecode;
use matcher_code::fused::Fused;
use matcher_machine::machine::{Machine, RunEnd};
use std::alloc::{AllocError, Global};

/// Returns how many bytes the character at a position has, or 0 if it is not in a set.
pub fn bytes_in_set(code: &Bytecode<'_>, set: u32, text: &str, at: usize) -> usize
    ensures value { result ≡ char_len (lists_in code.now) set (drop at text.now) }
    ensures small { result ≤ 4 }
    ensures here { 0 < result → at < length text.now }
{
    matcher_code::reading::char_len(code, set, text, at)
}

/// Runs a program on a text, from an operation and a position in bytes, for at most `steps` turns.
pub fn run(
    alloc: Global,
    machine: &mut Machine,
    code: &Bytecode<'_>,
    fused: &[Fused],
    text: &str,
    entry: u32,
    from: usize,
    steps: u64,
) -> Result<RunEnd, AllocError>
    requires can { CanRunAll (lists_in code.now) fused.now }
    ensures { IfOk result (λ end. IsFusionOf (lists_in code.now) fused.now
        → EndsAtLast (lists_in code.now) text.now steps
        (config (lists_in code.now) text.now machine.old entry from) machine.new end) }
{
    machine.run_with_memory(alloc, code, fused, text, entry, from, steps)
}
