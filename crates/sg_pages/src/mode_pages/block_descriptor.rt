// Mode parameter block descriptors (SBC-3, 6.4.2).
ghost use Rattle.std.specs.Prelude.{◌≡◌, true, false};
ghost use Rattle.sg_pages.specs.BlockDescriptor.{block_descriptor};

use super::multi_byte_field::MultiByteField;
use byteorder::{BigEndian, ByteOrder};

// Lengths in bytes: of the short and the long descriptor, of NUMBER OF LOGICAL BLOCKS in each, and
// of a logical block.
pub(super) const SHORT_DESCRIPTOR_LENGTH: usize = 8;

pub(super) const LONG_DESCRIPTOR_LENGTH: usize = 16;

pub(super) const SHORT_NUMBER_LENGTH: usize = 4;

pub(super) const LONG_NUMBER_LENGTH: usize = 8;

pub(crate) const LOGICAL_BLOCK_LENGTH: u32 = 512;

/// NUMBER OF LOGICAL BLOCKS and LOGICAL BLOCK LENGTH in the short and the long descriptor.
pub(super) const SHORT_DESCRIPTOR_FIELDS: [MultiByteField; 2] = [
    MultiByteField { first: 0, size: 4 },
    MultiByteField { first: 5, size: 3 },
];

pub(super) const LONG_DESCRIPTOR_FIELDS: [MultiByteField; 2] = [
    MultiByteField { first: 0, size: 8 },
    MultiByteField { first: 12, size: 4 },
];

/// A number of blocks that does not fit is FFFFFFFFh.
#[tactic(auto, unfolding(crate::specs::BlockDescriptor::block_descriptor))]
pub(super) fn short_descriptor(blocks: u64) -> [u8; SHORT_DESCRIPTOR_LENGTH]
    ensures { result ≡ block_descriptor false blocks }
{
    let mut descriptor = [0; SHORT_DESCRIPTOR_LENGTH];
    BigEndian::write_u32(&mut descriptor, blocks.min(0xFFFF_FFFF) as u32);
    BigEndian::write_u24(&mut descriptor[5..], LOGICAL_BLOCK_LENGTH);
    descriptor
}

#[tactic(auto, unfolding(crate::specs::BlockDescriptor::block_descriptor))]
pub(super) fn long_descriptor(blocks: u64) -> [u8; LONG_DESCRIPTOR_LENGTH]
    ensures { result ≡ block_descriptor true blocks }
{
    let mut descriptor = [0; LONG_DESCRIPTOR_LENGTH];
    BigEndian::write_u64(&mut descriptor, blocks);
    BigEndian::write_u32(&mut descriptor[12..], LOGICAL_BLOCK_LENGTH);
    descriptor
}
