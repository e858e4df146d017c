// The check that the disk has the logical blocks that a command names.
ghost use Rattle.std.specs.Prelude.{◌≡◌, ◌≤◌, ◌+◌, IfNone};
ghost use Rattle.sg_target.specs.BlockCommands.{bytes_of, past_capacity};
ghost use Rattle.sg_target.specs.Checks.{out_of_range};
ghost use Rattle.sg_target.specs.Demands.{extent};
ghost use Rattle.sg_target.specs.Extents.{AreOnDisk};

use crate::refusal::{Reason, Refusal};
use sg_store::{BLOCK_LENGTH, MAX_CAPACITY};
use sg_wire::Extent;

/// The length of blocks, in bytes.
pub(crate) fn byte_length(extent: Extent) -> u64
    ensures { result ≡ bytes_of extent }
{
    BLOCK_LENGTH as u64 * u64::from(extent.count)
}

/// An extent of one block.
pub(crate) fn one_block(lba: u64) -> Extent
    ensures { result ≡ extent lba 1 }
{
    Extent { lba, count: 1 }
}

/// The refusal of blocks if one is past the last block of a disk.
pub(crate) fn past_capacity(extent: Extent, capacity: u64) -> Option<Refusal>
    requires { capacity ≤ MAX_CAPACITY }
    ensures value { result ≡ past_capacity capacity extent }
    ensures on_disk { IfNone result (extent.lba + extent.count ≤ capacity) }
{
    let count = u64::from(extent.count);
    if count <= capacity && extent.lba <= capacity - count {
        return None;
    }
    Some(Refusal::CheckCondition(Reason::LbaOutOfRange {
        lba: extent.lba.max(capacity),
    }))
}

/// The refusal of all blocks of a disk of `blocks` if one is past the last block of a disk.
pub(crate) fn all_past_capacity(blocks: u64, capacity: u64) -> Option<Refusal>
    ensures value { result ≡ past_capacity capacity (extent 0 blocks) }
    ensures on_disk { IfNone result (0 + blocks ≤ capacity) }
{
    if blocks <= capacity {
        return None;
    }
    Some(Refusal::CheckCondition(Reason::LbaOutOfRange { lba: capacity }))
}

/// The refusal of the first extent with a block past the last block of a disk.
#[tactic(auto, unfolding(crate::specs::Checks::out_of_range))]
pub(crate) fn first_past_capacity(extents: &[Extent], capacity: u64) -> Option<Refusal>
    requires { capacity ≤ MAX_CAPACITY }
    ensures value { result ≡ out_of_range capacity extents.now }
    ensures on_disk { IfNone result (AreOnDisk capacity extents.now) }
{
    for extent in extents {
        if let Some(refusal) = past_capacity(*extent, capacity) {
            return Some(refusal);
        }
    }
    None
}
