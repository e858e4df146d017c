// The data that READ CAPACITY returns (SBC-3, 5.15 and 5.16).
ghost use Rattle.std.specs.Prelude.{◌≡◌, length};
ghost use Rattle.sg_wire.specs.Cut.{Puts};
ghost use Rattle.sg_pages.specs.CapacityData.{capacity_10, capacity_16};
ghost use Rattle.sg_pages.specs.DataLengths.{capacity_10_length, capacity_16_length};

use super::mode_pages::LOGICAL_BLOCK_LENGTH;
use super::physical_block::PhysicalBlock;
use byteorder::{BigEndian, ByteOrder};
use sg_wire::Cut;

/// The length of READ CAPACITY(10) parameter data, in bytes.
pub const CAPACITY_10_LENGTH: usize = 8;

/// The length of READ CAPACITY(16) parameter data, in bytes.
pub const CAPACITY_16_LENGTH: usize = 32;

/// Logical block provisioning is enabled, and blocks that are not mapped read as zeros.
const LBPME_LBPRZ: u8 = 0xC0;

/// Writes the READ CAPACITY(10) parameter data of a disk of `blocks` logical blocks (SBC-3, 5.15.2).
/// A last logical block address that does not fit is FFFFFFFFh.
pub fn write_capacity_10(blocks: u64, cut: &mut Cut)
    ensures data { Puts cut.old cut.new (capacity_10 blocks) }
    ensures length { length (capacity_10 blocks) ≡ capacity_10_length }
{
    cut.put(&capacity_10(blocks));
}

/// Writes the READ CAPACITY(16) parameter data of a disk of `blocks` logical blocks and of physical blocks
/// of a length (SBC-3, 5.16.2).
pub fn write_capacity_16(blocks: u64, physical: PhysicalBlock, cut: &mut Cut)
    ensures data { Puts cut.old cut.new (capacity_16 blocks physical) }
    ensures length { length (capacity_16 blocks physical) ≡ capacity_16_length }
{
    cut.put(&capacity_16(blocks, physical));
}

#[tactic(auto, unfolding(crate::specs::CapacityData::capacity_10))]
fn capacity_10(blocks: u64) -> [u8; CAPACITY_10_LENGTH]
    ensures { result ≡ capacity_10 blocks }
{
    let last = blocks.saturating_sub(1).min(0xFFFF_FFFF);
    let mut bytes = [0; CAPACITY_10_LENGTH];
    BigEndian::write_u32(&mut bytes, last as u32);
    BigEndian::write_u32(&mut bytes[4..], LOGICAL_BLOCK_LENGTH);
    bytes
}

#[tactic(auto, unfolding(crate::specs::CapacityData::capacity_16))]
fn capacity_16(blocks: u64, physical: PhysicalBlock) -> [u8; CAPACITY_16_LENGTH]
    ensures { result ≡ capacity_16 blocks physical }
{
    let mut bytes = [0; CAPACITY_16_LENGTH];
    BigEndian::write_u64(&mut bytes, blocks.saturating_sub(1));
    BigEndian::write_u32(&mut bytes[8..], LOGICAL_BLOCK_LENGTH);
    bytes[13] = physical.exponent();
    bytes[14] = LBPME_LBPRZ;
    bytes
}
