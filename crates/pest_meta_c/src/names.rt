//! The names of the rules of a compiled grammar, for a caller that has only the block.
ghost use Rattle.std.specs.Prelude.{◌≡◌, ◌≢◌, ◌≤◌, length};
ghost use Rattle.format_code.specs.Sections.{section};
ghost use Rattle.matcher_engine.specs.Blocks.{part_of};
ghost use Rattle.pest_meta_c.specs.Handing.{IsPut, WritesNothing};

use crate::handing::{nothing, put};
use matcher_engine::block::{rule_count, rule_name};

/// The name is written.
const ANSWERED: u8 = 0;
/// No rule has the number.
const NO_RULE: u8 = 7;

/// Returns the number of the rules of `block`. If the bytes are no block, the result means nothing.
#[unsafe(no_mangle)]
pub extern "C" fn pest_meta_rule_count(block: &[u8]) -> usize
    ensures { result ≡ length (part_of block.now 3) }
{
    rule_count(block)
}

/// Writes the name of the rule with the index `rule`. If the bytes are no block, the name may be any bytes of
/// them.
#[unsafe(no_mangle)]
pub extern "C" fn pest_meta_rule_name(
    block: &[u8],
    rule: u32,
    out: &mut [u8],
    needed: &mut usize,
) -> u8
    ensures name { result ≢ 7 → IsPut 0 (section (part_of block.now 2) rule)
        out.old out.new needed.new result }
    ensures no_rule { result ≡ 7 → length (part_of block.now 3) ≤ rule }
    ensures unwritten { result ≡ 7 → WritesNothing out.old out.new needed.new }
{
    if (rule as usize) < rule_count(block) {
        put(out, needed, rule_name(block, rule), ANSWERED)
    } else {
        nothing(needed, NO_RULE)
    }
}
