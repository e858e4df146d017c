// Block Limits and Logical Block Provisioning, as vital product data and as a log page: the pages that a
// thin provisioned disk adds.
ghost use Rattle.std.specs.Prelude.{◌≡◌, ◌≤◌, length};
ghost use Rattle.sg_wire.specs.Cut.{Puts};
ghost use Rattle.sg_wire.specs.Fields.{fields_bytes};
ghost use Rattle.sg_pages.specs.ProvisioningPages.{available_sets, block_limits};
ghost use Rattle.sg_pages.specs.ProvisioningPages.{logical_block_provisioning, resources};
ghost use Rattle.sg_pages.specs.ProvisioningPages.{threshold_exponent, threshold_sets, used_sets};
ghost use Rattle.sg_pages.specs.Reports.{log_page_data};

use super::physical_block::PhysicalBlock;
use super::reports::LogPage;
use byteorder::{BigEndian, ByteOrder};
use sg_wire::laws::parts_are_put_in_turn;
use sg_wire::{Cut, Limits, MAXIMUM_UNMAP_DESCRIPTORS, Profile};

/// A WRITE SAME of no block is refused.
const WSNZ: u8 = 0x01;

/// UNMAP and WRITE SAME (16) and (10) unmap blocks (LBPU, LBPWS and LBPWS10), unmapped blocks read
/// as zeros (LBPRZ), and blocks can be anchored (ANC_SUP).
const PROVISIONING_BITS: u8 = 0x80 | 0x40 | 0x20 | 0x04 | 0x02;

/// PROVISIONING TYPE.
const THIN_PROVISIONED: u8 = 0x02;

/// The content of Block Limits: fields that are not named here are zero.
#[tactic(auto, unfolding(crate::specs::ProvisioningPages::block_limits))]
pub(crate) fn block_limits(limits: Limits, physical: PhysicalBlock) -> [u8; 60]
    ensures { result ≡ block_limits limits physical }
{
    let mut bytes = [0; 60];
    bytes[0] = WSNZ;
    bytes[1] = limits.compare_and_write_length;
    // OPTIMAL TRANSFER LENGTH GRANULARITY
    BigEndian::write_u16(&mut bytes[2..], u16::from(physical.blocks()));
    BigEndian::write_u32(&mut bytes[4..], limits.transfer_length);
    // MAXIMUM UNMAP LBA COUNT: as many as the descriptors name
    BigEndian::write_u32(&mut bytes[16..], u32::MAX);
    BigEndian::write_u32(&mut bytes[20..], MAXIMUM_UNMAP_DESCRIPTORS as u32);
    // OPTIMAL UNMAP GRANULARITY
    BigEndian::write_u32(&mut bytes[24..], u32::from(physical.blocks()));
    BigEndian::write_u64(&mut bytes[32..], u64::from(limits.write_same_length));
    BigEndian::write_u32(&mut bytes[40..], limits.atomic_transfer_length);
    bytes
}

/// THRESHOLD EXPONENT of a disk of a profile and a capacity: 0 if it has no thresholds.
fn threshold_exponent(profile: Profile, capacity: u64) -> u8
    ensures value { result ≡ threshold_exponent profile capacity }
    ensures at_most { result ≤ 9 }
{
    match profile {
        Profile::Base => 0,
        Profile::Extended if capacity < CAPACITY_OF_LARGE_SETS => 1,
        Profile::Extended => 9,
    }
}

/// From this capacity on, the number of the sets of two blocks does not fit in four bytes.
const CAPACITY_OF_LARGE_SETS: u64 = 1 << 33;

/// The whole threshold sets in a number of blocks, on a disk of a profile and a capacity.
#[tactic(auto, unfolding(crate::specs::ProvisioningPages::threshold_sets))]
fn threshold_sets(profile: Profile, capacity: u64, blocks: u32) -> u32
    ensures { result ≡ threshold_sets profile capacity blocks }
{
    blocks >> threshold_exponent(profile, capacity)
}

/// The content of Logical Block Provisioning: no group descriptor.
#[tactic(auto, unfolding(crate::specs::ProvisioningPages::logical_block_provisioning))]
pub(crate) fn logical_block_provisioning(profile: Profile, capacity: u64) -> [u8; 4]
    ensures { result ≡ logical_block_provisioning profile capacity }
{
    [
        threshold_exponent(profile, capacity),
        PROVISIONING_BITS,
        THIN_PROVISIONED,
        0,
    ]
}

/// The pool of a thin provisioned disk, and the capacity of the disk, which decides the size of a threshold
/// set. SBC-3 calls the blocks of the pool LBA mapping resources (SBC-3, 4.7).
#[derive(Clone, Copy)]
pub struct MappingResources {
    /// The number of logical blocks of the disk.
    pub capacity: u64,
    /// The number of blocks of the pool.
    pub blocks: u32,
    /// The number of addresses that have one of them: those that are mapped or anchored.
    pub used: u32,
}

impl MappingResources {
    /// The threshold sets that no address has.
    pub(crate) fn available_sets(self, profile: Profile) -> u32
        ensures { result ≡ available_sets profile self }
    {
        threshold_sets(
            profile,
            self.capacity,
            self.blocks.saturating_sub(self.used),
        )
    }

    /// The threshold sets that mapped and anchored addresses have.
    pub(crate) fn used_sets(self, profile: Profile) -> u32
        ensures { result ≡ used_sets profile self }
    {
        threshold_sets(profile, self.capacity, self.used)
    }
}

/// PARAMETER CODE of the available and of the used resource count.
const AVAILABLE: u16 = 0x0001;

pub(crate) const USED: u16 = 0x0002;

/// Writes the log page Logical Block Provisioning: the available and the used resource count. PARAMETER
/// POINTER asks for those from a code on.
#[tactic(auto, unfolding(crate::specs::Reports::log_page_data))]
pub(crate) fn write_provisioning_page(
    profile: Profile,
    pool: MappingResources,
    pointer: u16,
    cut: &mut Cut,
)
    ensures data { Puts cut.old cut.new
        (log_page_data profile pool pointer LogPage.LogicalBlockProvisioning) }
    ensures at_most { length (log_page_data profile pool pointer LogPage.LogicalBlockProvisioning)
        ≤ 28 }
{
    parts_are_put_in_turn();
    let available = resource_count(AVAILABLE, pool.available_sets(profile));
    let used = resource_count(USED, pool.used_sets(profile));
    if pointer <= AVAILABLE {
        cut.put(&[0x8C, 0x00, 0, 24]);
        cut.put(&available);
        cut.put(&used);
    } else if pointer <= USED {
        cut.put(&[0x8C, 0x00, 0, 12]);
        cut.put(&used);
    } else {
        cut.put(&[0x8C, 0x00, 0, 0]);
    }
}

/// A log parameter with a number of threshold sets, which are dedicated to the logical unit.
fn resource_count(code: u16, sets: u32) -> [u8; 12]
    ensures { result ≡ fields_bytes (resources code sets) }
{
    let mut bytes = [0, 0, 0x03, 8, 0, 0, 0, 0, 0x01, 0, 0, 0];
    BigEndian::write_u16(&mut bytes, code);
    BigEndian::write_u32(&mut bytes[4..], sets);
    bytes
}
