//! The head of a block: its version, and the checksum of its sections.
ghost use Rattle.std.specs.Prelude.{◌≡◌, IfErr, IfNone, IfOk, IfSome, OnOk, drop};
ghost use Rattle.matcher_engine.specs.Blocks.{HasFlaw, IsBlock, IsWhole, part_of, checksum_of};

use format_code::sections::section;
use std::alloc::{AllocError, Global};

/// The beginning of each block, `pest`.
const MARK: [u8; 4] = [112, 101, 115, 116];

/// The beginning of a block of this version: `pest`, and the number 3 as a word of 4 bytes. The
/// checksum and the sections follow.
const HEAD: [u8; 8] = [112, 101, 115, 116, 3, 0, 0, 0];

/// The position of the checksum in a block, in bytes, from 0.
const CHECKSUM: usize = 8;

/// The position of the first section in a block, in bytes, from 0.
const SECTIONS: usize = 16;

/// Why bytes are not an unchanged block of this version.
#[derive(Clone, Copy, Debug, PartialEq, Eq)]
pub enum BlockFlaw {
    /// The bytes do not begin as a block does.
    NoBlock,
    /// The bytes begin as a block of another version does.
    OtherVersion,
    /// The checksum in the head is not that of the sections.
    Changed,
}

/// Returns the checksum of bytes: FNV-1a of 64 bits.
fn checksum_of(bytes: &[u8]) -> u64
    ensures { result ≡ checksum_of bytes.now }
{
    let mut checksum = 14_695_981_039_346_656_037;
    for byte in bytes {
        checksum = (checksum ^ u64::from(*byte)).wrapping_mul(1_099_511_628_211);
    }
    checksum
}

/// Returns the bytes of `block` from the position `place` on, in bytes. If `place` is after the
/// end, there are none.
fn bytes_from(block: &[u8], place: usize) -> &[u8]
    ensures { result.now ≡ drop place block.entry.now }
{
    match block.get(place..) {
        Some(bytes) => bytes,
        None => &[],
    }
}

/// Returns the section of `block` with the index `number`, from 0. If there is none, it is empty.
pub(crate) fn part_of(block: &[u8], number: u32) -> &[u8]
    ensures { result.now ≡ part_of block.entry.now number }
{
    section(bytes_from(block, SECTIONS), number)
}

/// Returns the block that consists of a head and of `sections`. The only error is an allocation
/// failure.
pub(crate) fn with_head(alloc: Global, sections: &[u8]) -> Result<Vec<u8>, AllocError>
    ensures whole { IfOk result (λ block. IsWhole block.items) }
    ensures sections { IfOk result (λ block. drop 16 block.items ≡ sections.now) }
{
    let mut block = Vec::new(alloc);
    block.extend_from_slice(&HEAD)?;
    block.extend_from_slice(&checksum_of(sections).to_le_bytes())?;
    block.extend_from_slice(sections)?;
    Ok(block)
}

/// Returns why `block` does not begin as a block of this version, or `None` if it does.
pub(crate) fn find_flaw(block: &[u8]) -> Option<BlockFlaw>
    ensures some { IfSome result (λ flaw. IsBlock block.now → ⊥) }
    ensures flaw { IfSome result (λ flaw. HasFlaw block.now flaw) }
    ensures none { IfNone result (IsBlock block.now) }
{
    if block.starts_with(&HEAD) {
        return None;
    }
    if block.starts_with(&MARK) {
        Some(BlockFlaw::OtherVersion)
    } else {
        Some(BlockFlaw::NoBlock)
    }
}

/// Verifies the version and the checksum of the compiled grammar `block`. Runs verify only the
/// version.
///
/// # Errors
/// The first variant of `BlockFlaw` that applies, in the order of the variants.
pub fn check_block(block: &[u8]) -> Result<(), BlockFlaw>
    ensures whole { OnOk result (IsWhole block.now) }
    ensures flaw { IfErr result (λ flaw. HasFlaw block.now flaw) }
{
    if let Some(flaw) = find_flaw(block) {
        return Err(flaw);
    }
    let checksum = checksum_of(bytes_from(block, SECTIONS)).to_le_bytes();
    if bytes_from(block, CHECKSUM).starts_with(&checksum) {
        Ok(())
    } else {
        Err(BlockFlaw::Changed)
    }
}
