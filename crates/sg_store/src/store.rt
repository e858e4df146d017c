// The calls of every store, each with its effect on a disk of blocks and its cost. The trait knows
// no commands, and does not know how the blocks are kept.
ghost use Rattle.std.specs.Prelude.{◌≡◌, ℕ, ◌+◌, ◌*◌, ◌<◌, ◌≤◌, ◌↔◌, length, max};
ghost use Rattle.std.specs.Prelude.{IfOk, OnOk, OnErr, IsErr};
ghost use Rattle.std.specs.FinMap.{len};
ghost use Rattle.sg_store.specs.Disk.{Contents, Disk, IsWellFormed, IsOverfull, empty_disk};
ghost use Rattle.sg_store.specs.Disk.{blocks, disk_written, disk_filled, disk_unmapped, disk_anchored};
ghost use Rattle.sg_store.specs.Disk.{data_count, disk_grown, need, used_among};
ghost use Rattle.sg_store.specs.Comparison.{compared, repeated};
ghost use Rattle.sg_wire.specs.Cut.{Puts};
ghost use Rattle.sg_wire.specs.LbaStatus.{status_data};
ghost use Rattle.sg_store.specs.LbaStatus.{lba_status, covered};
ghost use Rattle.sg_store.specs.Meter.{Meter, new_meter, restarted, HasHeadroom};
ghost use Rattle.sg_store.specs.Meter.{Charged, ChargedOnOk};

use sg_wire::Cut;
use std::alloc::{AllocError, Global};
use thiserror::Error;

/// The length of a block, in bytes.
pub const BLOCK_LENGTH: usize = 512;

/// The most addresses that a disk can have.
pub const MAX_CAPACITY: u64 = 1 << 40;

/// The most addresses that can be mapped or anchored at once.
pub const MAX_POOL: u32 = u32::MAX;

/// The most that a count may have reached before a call. The counts of a call can then be added.
pub const MAX_COUNT: u64 = 1 << 62;

/// The work of a store, counted since its last restart.
#[derive(Clone, Copy, Debug, PartialEq, Default)]
pub struct Counts {
    /// Whole records of the map that were read.
    pub visits: u64,
    /// First addresses of records that were compared.
    pub probes: u64,
    /// Links from slot to slot that were followed to reach a mapped block. The link that leads from
    /// a free slot to the next one is not counted when the slot is taken.
    pub links: u64,
}

/// More addresses would be mapped or anchored than the pool has blocks.
#[derive(Clone, Copy, Debug, Error, PartialEq)]
#[error("the pool has too few blocks")]
pub struct Space;

/// Blocks differ from the bytes that they are compared with.
#[derive(Clone, Copy, Debug, Error, PartialEq)]
#[error("byte {offset} differs")]
pub struct Miscompare {
    /// The number of bytes before the first one that differs.
    pub offset: u64,
}

/// A disk of blocks of 512 bytes. Blocks that were written are mapped to the blocks of a pool, and
/// others may be anchored there (SBC-3, 4.7).
///
/// [`Store::make`] takes all memory; no other call can ask for more.
pub trait Store: Drop {
    /// The disk that is kept.
    ghost disk: { Self → Disk };

    /// The cost of the calls so far.
    ghost meter: { Self → Meter };

    /// The most records that a call over a range visits, by the contents of the disk, the range's
    /// first address and its count.
    ghost price: { Contents → ℕ → ℕ → ℕ };

    /// The fewest records that a successful call over a range visits, by the same three.
    ghost least: { Contents → ℕ → ℕ → ℕ };

    /// A disk of `capacity` addresses, none of them mapped, and a pool of `pool` blocks.
    ///
    /// # Errors
    /// Memory was refused.
    fn make(alloc: Global, capacity: u64, pool: u32) -> Result<Self, AllocError>
        requires capacity { (1 ≤ capacity) × (capacity ≤ MAX_CAPACITY) }
        requires pool { (1 ≤ pool) × (pool ≤ MAX_POOL) }
        ensures disk { IfOk result (λ store. disk store ≡ empty_disk capacity pool) }
        ensures meter { IfOk result (λ store. meter store ≡ new_meter) };

    /// Reads the blocks from an address on into a slice, which is just as long as the blocks.
    fn read(&mut self, lba: u64, count: u32, bytes: &mut [u8])
        requires range { lba + count ≤ (disk self.old).capacity }
        requires byte_count { length bytes.old ≡ BLOCK_LENGTH * count }
        requires headroom { HasHeadroom (meter self.old).counts }

        // The blocks are the disk's, and the disk stays as it is.
        ensures bytes { bytes.new ≡ blocks (disk self.old).contents lba count }
        ensures disk { disk self.new ≡ disk self.old }

        // The cost of the call, and the bounds of its visits.
        ensures costs { Charged (disk self.old).pool (price (disk self.old).contents lba count)
            (least (disk self.old).contents lba count) (meter self.old) (meter self.new) };

    /// Compares the blocks from an address on with a slice, which is just as long, byte by byte
    /// (SBC-3, 5.29).
    ///
    /// # Errors
    /// A byte differs.
    fn compare(&mut self, lba: u64, count: u32, bytes: &[u8]) -> Result<(), Miscompare>
        requires range { lba + count ≤ (disk self.old).capacity }
        requires byte_count { length bytes.now ≡ BLOCK_LENGTH * count }
        requires headroom { HasHeadroom (meter self.old).counts }

        // The result names the first byte that differs, and the disk stays as it is.
        ensures value { result ≡ compared (blocks (disk self.old).contents lba count) bytes.now }
        ensures disk { disk self.new ≡ disk self.old }

        // The cost of the call, and the bounds of its visits.
        ensures costs { ChargedOnOk result (disk self.old).pool
            (price (disk self.old).contents lba count) (least (disk self.old).contents lba count)
            (meter self.old) (meter self.new) };

    /// Compares each block from an address on with one block, byte by byte (SBC-3, 5.29).
    ///
    /// # Errors
    /// A byte differs.
    fn compare_each(
        &mut self,
        lba: u64,
        count: u32,
        block: &[u8; BLOCK_LENGTH],
    ) -> Result<(), Miscompare>
        requires range { lba + count ≤ (disk self.old).capacity }
        requires headroom { HasHeadroom (meter self.old).counts }

        // The result names the first byte that differs, and the disk stays as it is.
        ensures value { result
            ≡ compared (blocks (disk self.old).contents lba count) (repeated count block.now) }
        ensures disk { disk self.new ≡ disk self.old }

        // The cost of the call, and the bounds of its visits.
        ensures costs { ChargedOnOk result (disk self.old).pool
            (price (disk self.old).contents lba count) (least (disk self.old).contents lba count)
            (meter self.old) (meter self.new) };

    /// Replaces the blocks from an address on by the blocks of a slice, which is just as long.
    ///
    /// # Errors
    /// More addresses would be mapped or anchored than the pool has blocks. Then nothing is
    /// written.
    fn write(&mut self, lba: u64, count: u32, bytes: &[u8]) -> Result<(), Space>
        requires range { lba + count ≤ (disk self.old).capacity }
        requires byte_count { length bytes.now ≡ BLOCK_LENGTH * count }
        requires headroom { HasHeadroom (meter self.old).counts }

        // Either the pool has too few blocks and the disk stays as it is, or all blocks are
        // replaced.
        ensures space { IsErr result ↔ IsOverfull (disk_written (disk self.old) lba count bytes.now) }
        ensures ok { OnOk result (disk self.new ≡ disk_written (disk self.old) lba count bytes.now) }
        ensures err { OnErr result (disk self.new ≡ disk self.old) }

        // The cost of the call, and the bounds of its visits.
        ensures costs { ChargedOnOk result (disk self.old).pool
            (price (disk self.old).contents lba count) (least (disk self.old).contents lba count)
            (meter self.old) (meter self.new) };

    /// Replaces each block from an address on by one block (SBC-3, 5.43).
    ///
    /// # Errors
    /// More addresses would be mapped or anchored than the pool has blocks. Then nothing is
    /// written.
    fn fill(&mut self, lba: u64, count: u32, block: &[u8; BLOCK_LENGTH]) -> Result<(), Space>
        requires range { lba + count ≤ (disk self.old).capacity }
        requires headroom { HasHeadroom (meter self.old).counts }

        // Either the pool has too few blocks and the disk stays as it is, or all blocks are
        // replaced.
        ensures space { IsErr result ↔ IsOverfull (disk_filled (disk self.old) lba count block.now) }
        ensures ok { OnOk result (disk self.new ≡ disk_filled (disk self.old) lba count block.now) }
        ensures err { OnErr result (disk self.new ≡ disk self.old) }

        // The cost of the call, and the bounds of its visits.
        ensures costs { ChargedOnOk result (disk self.old).pool
            (price (disk self.old).contents lba count) (least (disk self.old).contents lba count)
            (meter self.old) (meter self.new) };

    /// Unmaps the addresses from one on (SBC-3, 5.28). Their blocks read as zeros from then on, and
    /// the pool has room for as many others. A whole disk can have more addresses than a descriptor
    /// names.
    fn unmap(&mut self, lba: u64, count: u64)
        requires range { lba + count ≤ (disk self.old).capacity }
        requires headroom { HasHeadroom (meter self.old).counts }

        // The addresses are no longer mapped.
        ensures disk { disk self.new ≡ disk_unmapped (disk self.old) lba count }

        // The cost of the call, and the bounds of its visits.
        ensures costs { Charged (disk self.old).pool (price (disk self.old).contents lba count)
            (least (disk self.old).contents lba count) (meter self.old) (meter self.new) };

    /// Anchors the addresses from one on (SBC-3, 4.7.4): each keeps its block of the pool or takes
    /// one, and reads as zeros from then on. Data there is lost.
    ///
    /// # Errors
    /// More addresses would have a block than the pool has blocks. Nothing is anchored then.
    fn anchor(&mut self, lba: u64, count: u32) -> Result<(), Space>
        requires range { lba + count ≤ (disk self.old).capacity }
        requires headroom { HasHeadroom (meter self.old).counts }

        // Either the pool has too few blocks and the disk stays as it is, or all addresses are
        // anchored.
        ensures space { IsErr result ↔ IsOverfull (disk_anchored (disk self.old) lba count) }
        ensures ok { OnOk result (disk self.new ≡ disk_anchored (disk self.old) lba count) }
        ensures err { OnErr result (disk self.new ≡ disk self.old) }

        // The cost of the call, and the bounds of its visits.
        ensures costs { ChargedOnOk result (disk self.old).pool
            (price (disk self.old).contents lba count) (least (disk self.old).contents lba count)
            (meter self.old) (meter self.new) };

    /// The number of addresses from one on that have no block of the pool. Anchoring them needs as
    /// many blocks. Ranges that were joined can have more addresses than a descriptor names.
    fn need(&mut self, lba: u64, count: u64) -> u64
        requires range { lba + count ≤ (disk self.old).capacity }
        requires headroom { HasHeadroom (meter self.old).counts }

        ensures value { result ≡ need (disk self.old).contents lba count }
        ensures disk { disk self.new ≡ disk self.old }

        // The cost of the call, and the bounds of its visits.
        ensures costs { Charged (disk self.old).pool (price (disk self.old).contents lba count)
            (least (disk self.old).contents lba count) (meter self.old) (meter self.new) };

    /// Writes the parameter data of GET LBA STATUS (SBC-3, 5.4.2). It reports which addresses are
    /// mapped, from one on to the end of the disk, in at most 512 descriptors.
    fn status(&mut self, lba: u64, cut: &mut Cut)
        requires address { lba < (disk self.old).capacity }
        requires headroom { HasHeadroom (meter self.old).counts }

        // All of it is put, and the disk stays as it is.
        ensures data { Puts cut.old cut.new (status_data (lba_status (disk self.old) lba)) }
        ensures disk { disk self.new ≡ disk self.old }

        // The cost of the call, and the bounds of its visits, over the addresses that the
        // descriptors cover.
        ensures costs { let count = covered (lba_status (disk self.old) lba) in
            Charged (disk self.old).pool (price (disk self.old).contents lba count)
            (least (disk self.old).contents lba count) (meter self.old) (meter self.new) };

    /// Gives the disk more addresses, which are neither mapped nor anchored (SBC-3, 4.5).
    fn grow(&mut self, capacity: u64)
        requires more { (disk self.old).capacity ≤ capacity }
        requires fits { capacity ≤ MAX_CAPACITY }
        ensures disk { disk self.new ≡ disk_grown (disk self.old) capacity }
        ensures meter { meter self.new ≡ meter self.old };

    /// The number of addresses that are mapped to data. Anchored addresses are not counted.
    fn mapped(&self) -> u32
        ensures value { result ≡ data_count (disk self.now).contents };

    /// The number of addresses that have a block of the pool, with data or anchored.
    fn used(&self) -> u32
        ensures value { result ≡ len (disk self.now).contents }
        ensures within { result ≤ (disk self.now).pool }
        ensures well_formed { IsWellFormed (disk self.now).capacity (disk self.now).contents };

    /// The counts since the last restart.
    fn counts(&self) -> Counts
        ensures { result ≡ (meter self.now).counts };

    /// Counts from nothing. The total of visits stays, and the restart is counted.
    fn restart_counts(&mut self)
        ensures disk { disk self.new ≡ disk self.old }
        ensures meter { meter self.new ≡ restarted (meter self.old) };

    /// A call over a range visits at most two records more than the range has addresses.
    ghost price_within: { (contents : Contents) (lba count : ℕ) →
        price contents lba count ≤ count + 2 };

    /// If an address of the range has a block of the pool, a successful call visits at least one
    /// record.
    ghost least_positive: { (contents : Contents) (lba count : ℕ) →
        0 < used_among contents lba count → 0 < least contents lba count };

    /// Two ranges that overlap or adjoin cost at most as much joined as they cost together.
    ghost price_joined: { (contents : Contents) (lba count offset more : ℕ) → offset ≤ count →
        price contents lba (max count (offset + more))
        ≤ price contents lba count + price contents (lba + offset) more };
}
