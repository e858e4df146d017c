// The store itself. Its table has a record for each extent. The other files say what its calls do
// to the extents.
ghost use Rattle.std.specs.Prelude.{◌≡◌, ◌+◌, ◌≤◌, ◌↔◌, length, IsErr, OnOk, OnErr};
ghost use Rattle.sg_store.specs.Comparison.{compared};
ghost use Rattle.sg_store.specs.Disk.{IsWellFormed, IsOverfull, blocks, disk_remapped};
ghost use Rattle.sg_store.specs.DiskProps.{IsWellFormed-IsProp};
ghost use Rattle.sg_store.specs.Meter.{HasHeadroom, Charged, ChargedOnOk};
ghost use Rattle.sg_extent_map.specs.ExtentCost.{extent_price, extent_price-within, extent_least};
ghost use Rattle.sg_extent_map.specs.ExtentCost.{extent_least-positive, extent_price-joined};
ghost use Rattle.sg_extent_map.specs.Extents.{AreExtents, AreMaximal, stored};
ghost use Rattle.sg_extent_map.specs.ExtentsProps.{AreExtents-IsProp};
ghost use Rattle.sg_table.specs.Draft.{empty_draft};
ghost use Rattle.sg_store.specs.declared.store.TheConstants.{MAX_CAPACITY, MAX_POOL};

use crate::compare::compare_runs;
use crate::gather::{Gathered, gather, used_between};
use crate::read::read_runs;
use crate::status::{cursor_over, write_descriptors};
use crate::unmap::unmap_range;
use crate::write::{Range, put_range};
use sg_pool::{Content, Source, UnlinkedPool};
use sg_store::laws::disks_stay_well_formed;
use sg_store::lba_status::status_header;
use sg_store::{BLOCK_LENGTH, Counts, Miscompare, Space, Store};
use sg_table::{Draft, RunTable};
use sg_wire::Cut;
use sg_wire::laws::{parts_are_put_in_turn, parts_are_replaced};
use std::alloc::{AllocError, Global};

/// A disk with one record for each extent: addresses in a row that are mapped, or are anchored
/// (SBC-3, 4.7), and whose slots are in a row, too. No call follows a chain of slots.
///
/// A call over a range visits the records of the extents that the range meets, and at most two
/// more.
#[derive(Drop)]
pub struct ExtentMap {
    capacity: u64,
    table: RunTable,
    pool: UnlinkedPool,
    /// The extents near a range, and the extents that are to replace them. Both are empty between
    /// calls.
    gathered: Gathered,
    draft: Draft,
    ghost capacity_fits: { capacity ≤ MAX_CAPACITY },
    ghost pool_fits: { table.room ≤ MAX_POOL },
    ghost gathered_empty: { gathered ≡ empty_draft table.room },
    ghost draft_empty: { draft ≡ empty_draft table.room },
    ghost well_formed: { IsWellFormed capacity (stored table pool) } by { IsWellFormed-IsProp _ _ },
    ghost extents: { AreExtents table.records pool table.room } by { AreExtents-IsProp _ _ _ },
}

impl ExtentMap {
    ghost use Rattle.sg_pool.specs.Content.{HasMappings, mapping_for};
    ghost use Rattle.sg_pool.specs.Source.{HasBlocks, joined_blocks};
    ghost use Rattle.sg_extent_map.specs.State.{disk_of, extents_of, meter_of};

    /// The number of extents. Each has one record, and the table has no others.
    pub fn extent_count(&self) -> usize
        ensures count { result ≡ length (extents_of self.now) }
        ensures maximal { AreMaximal (extents_of self.now) }
    {
        self.table.count()
    }

    /// Compares the blocks from an address on with the blocks of a source.
    ///
    /// # Errors
    /// A byte differs.
    fn compare_with(&mut self, lba: u64, count: u32, source: &Source) -> Result<(), Miscompare>
        requires range { lba + count ≤ (disk_of self.old).capacity }
        requires whole { HasBlocks source.now count }
        requires headroom { HasHeadroom (meter_of self.old).counts }

        // The result names the first byte that differs, and the disk stays as it is.
        ensures value { result ≡ compared (blocks (disk_of self.old).contents lba count)
            (joined_blocks source.now count) }
        ensures disk { disk_of self.new ≡ disk_of self.old }

        // The cost of the call, and the bounds of its visits.
        ensures costs { Charged (disk_of self.old).pool
            (extent_price (disk_of self.old).contents lba count)
            (extent_least (disk_of self.old).contents lba count)
            (meter_of self.old) (meter_of self.new) }
    {
        gather(
            &mut self.table,
            &mut self.gathered,
            lba,
            lba + u64::from(count),
        );
        let result = compare_runs(&self.pool, self.gathered.records(), lba, count, source);
        self.gathered.clear();
        result
    }

    /// Gives the addresses from one on their new content.
    ///
    /// # Errors
    /// More addresses would have a slot than the pool has. Nothing changes then.
    fn remap(&mut self, lba: u64, count: u32, content: &Content) -> Result<(), Space>
        requires range { lba + count ≤ (disk_of self.old).capacity }
        requires whole { HasMappings content.now count }
        requires headroom { HasHeadroom (meter_of self.old).counts }

        // Either the pool has too few blocks and the disk stays as it is, or all addresses are
        // remapped.
        ensures space { IsErr result
            ↔ IsOverfull (disk_remapped (disk_of self.old) lba count (mapping_for content.now)) }
        ensures ok { OnOk result (disk_of self.new
            ≡ disk_remapped (disk_of self.old) lba count (mapping_for content.now)) }
        ensures err { OnErr result (disk_of self.new ≡ disk_of self.old) }

        // The cost of the call, and the bounds of its visits.
        ensures costs { ChargedOnOk result (disk_of self.old).pool
            (extent_price (disk_of self.old).contents lba count)
            (extent_least (disk_of self.old).contents lba count)
            (meter_of self.old) (meter_of self.new) }
    {
        disks_stay_well_formed();
        let high = lba + u64::from(count);
        gather(&mut self.table, &mut self.gathered, lba, high);
        let used = used_between(self.gathered.records(), lba, high);
        if u64::from(count) > u64::from(self.pool.free_count()) + used {
            self.gathered.clear();
            return Err(Space);
        }
        put_range(
            &mut self.table,
            &mut self.pool,
            &self.gathered,
            &mut self.draft,
            Range { lba, count },
            content,
        );
        self.gathered.clear();
        self.draft.clear();
        Ok(())
    }
}

impl Store for ExtentMap {
    ghost use Rattle.sg_extent_map.specs.State.{disk_of, meter_of};

    ghost disk = { disk_of };

    ghost meter = { meter_of };

    ghost price = { extent_price };

    ghost least = { extent_least };

    fn make(alloc: Global, capacity: u64, pool: u32) -> Result<Self, AllocError> {
        Ok(ExtentMap {
            capacity,
            table: RunTable::new(alloc, pool)?,
            pool: UnlinkedPool::new(alloc, pool)?,
            gathered: Gathered::new(alloc, pool)?,
            draft: Draft::new(alloc, pool)?,
        })
    }

    fn read(&mut self, lba: u64, count: u32, bytes: &mut [u8]) {
        gather(
            &mut self.table,
            &mut self.gathered,
            lba,
            lba + u64::from(count),
        );
        read_runs(&self.pool, self.gathered.records(), lba, count, bytes);
        self.gathered.clear();
    }

    fn compare(&mut self, lba: u64, count: u32, bytes: &[u8]) -> Result<(), Miscompare> {
        self.compare_with(lba, count, &Source::Joined(bytes))
    }

    fn compare_each(
        &mut self,
        lba: u64,
        count: u32,
        block: &[u8; BLOCK_LENGTH],
    ) -> Result<(), Miscompare> {
        self.compare_with(lba, count, &Source::Repeated(block))
    }

    fn write(&mut self, lba: u64, count: u32, bytes: &[u8]) -> Result<(), Space> {
        self.remap(lba, count, &Content::Blocks(&Source::Joined(bytes)))
    }

    fn fill(&mut self, lba: u64, count: u32, block: &[u8; BLOCK_LENGTH]) -> Result<(), Space> {
        self.remap(lba, count, &Content::Blocks(&Source::Repeated(block)))
    }

    fn unmap(&mut self, lba: u64, count: u64) {
        disks_stay_well_formed();
        let high = lba + count;
        gather(&mut self.table, &mut self.gathered, lba, high);
        unmap_range(
            &mut self.table,
            &mut self.pool,
            &self.gathered,
            &mut self.draft,
            lba,
            high,
        );
        self.gathered.clear();
        self.draft.clear();
    }

    fn anchor(&mut self, lba: u64, count: u32) -> Result<(), Space> {
        self.remap(lba, count, &Content::Anchor)
    }

    fn need(&mut self, lba: u64, count: u64) -> u64 {
        let high = lba + count;
        gather(&mut self.table, &mut self.gathered, lba, high);
        let used = used_between(self.gathered.records(), lba, high);
        self.gathered.clear();
        count - used
    }

    fn status(&mut self, lba: u64, cut: &mut Cut) {
        parts_are_put_in_turn();
        parts_are_replaced();
        let at = cut.written();
        cut.put(&status_header(0));
        let cursor = cursor_over(&mut self.table, lba);
        let count = write_descriptors(&mut self.table, cursor, lba, self.capacity, cut);
        // The number of descriptors is known only now. The header with it replaces the first
        // header.
        cut.replace(at, &status_header(count));
    }

    fn grow(&mut self, capacity: u64) {
        disks_stay_well_formed();
        self.capacity = capacity;
    }

    fn mapped(&self) -> u32 {
        self.table.data_count() as u32
    }

    fn used(&self) -> u32 {
        self.pool.count() - self.pool.free_count()
    }

    fn counts(&self) -> Counts {
        Counts {
            visits: self.table.visits(),
            probes: self.table.probes(),
            links: 0,
        }
    }

    fn restart_counts(&mut self) {
        self.table.restart_counts();
    }

    ghost price_within = { extent_price-within };

    ghost least_positive = { extent_least-positive };

    ghost price_joined = { extent_price-joined };
}
