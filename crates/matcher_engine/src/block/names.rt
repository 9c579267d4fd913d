//! Names of the rules of a block.
ghost use Rattle.std.specs.Prelude.{◌≡◌, length};
ghost use Rattle.format_code.specs.Sections.{section};
ghost use Rattle.matcher_engine.specs.Blocks.{part_of};

use crate::block::head::part_of;
use format_code::sections::section;

/// Returns the number of rules of `block`. If the bytes are no block, the result means nothing.
pub fn rule_count(block: &[u8]) -> usize
    ensures { result ≡ length (part_of block.now 3) }
{
    part_of(block, 3).len()
}

/// Returns the bytes of the name of the rule with the index `number`, from 0. If no rule has this
/// index, there are no bytes.
pub fn rule_name(block: &[u8], number: u32) -> &[u8]
    ensures { result.now ≡ section (part_of block.entry.now 2) number }
{
    section(part_of(block, 2), number)
}
