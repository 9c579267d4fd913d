//! Sets of characters, by byte sets and ranges.
ghost use Rattle.std.specs.Prelude.{◌≡◌, ◌<◌, ◌^◌, ◌&&◌, ℕ, IfOk, OnErr, OnOk, get_or, if◌then◌else◌, length, nat_lt};
ghost use Rattle.base_language.specs.Language.Builtins.{is_between};
ghost use Rattle.matcher_code.specs.Lists.{lists_of};
ghost use Rattle.matcher_code.specs.Sets.{IsAligned, IsByteSetOf, IsSetOf, KeepsSets};

use crate::code::Code;
use crate::ranges::{RangeList, Ranges};
use std::alloc::{AllocError, Global};

/// Sets the flags of the bytes of ASCII in a range, both ends included.
fn mark(byte_set: &mut Vec<u8>, low: u32, high: u32)
    requires long { length byte_set.old.items ≡ 256 }
    ensures long { length byte_set.new.items ≡ 256 }
    ensures flags { (b : ℕ) → get_or byte_set.new.items b 0
        ≡ (if nat_lt b 128 && is_between low high b then 1 else get_or byte_set.old.items b 0) }
{
    let end = high.saturating_add(1).min(128);
    for byte in low.min(end)..end {
        byte_set[byte as usize] = 1;
    }
}

/// Returns the byte_set of a set.
fn byte_set_of(alloc: Global, ranges: &[(u32, u32)]) -> Result<Vec<u8>, AllocError>
    ensures { IfOk result (λ byte_set. IsByteSetOf ranges.now byte_set.items) }
{
    let mut byte_set = Vec::with_capacity(alloc, 256)?;
    byte_set.resize(128, 0)?;
    byte_set.resize(256, 5)?;
    for (low, high) in ranges {
        mark(&mut byte_set, *low, *high);
    }
    Ok(byte_set)
}

/// Adds the set of the characters in some ranges, both ends included. Returns its number, the number of sets
/// before it.
pub fn add_set(code: &mut Code, ranges: Ranges) -> Result<u32, AllocError>
    requires aligned { IsAligned code.old }
    requires few { length code.old.ranges.items < 2 ^ 32 }
    ensures number { IfOk result (λ set. set ≡ length code.old.ranges.items) }
    ensures means { IfOk result (λ set. IsSetOf (lists_of code.new) set ranges.items) }
    ensures keeps { OnOk result (KeepsSets code.old code.new) }
    ensures aligned { OnOk result (IsAligned code.new) }
    ensures unchanged { OnErr result (code.new.byte_sets.items ≡ code.old.byte_sets.items) }
    ensures unchanged_ranges { OnErr result (code.new.ranges.items ≡ code.old.ranges.items) }
{
    let byte_set = byte_set_of(*code.byte_sets.allocator(), ranges.as_slice())?;
    let set = code.ranges.len() as u32;
    code.ranges.push(RangeList::new(ranges))?;
    if code.byte_sets.extend_from_slice(&byte_set).is_err() {
        let _ = code.ranges.pop();
        return Err(AllocError);
    }
    Ok(set)
}
