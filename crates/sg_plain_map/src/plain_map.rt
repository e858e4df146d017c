// The store itself: a record for each mapped or anchored address, in a table, and its block in a
// slot of a pool. The other files say what its calls do to the records.
ghost use Rattle.std.specs.Prelude.{◌≡◌, ◌+◌, ◌≤◌, ◌↔◌, IsErr, OnOk, OnErr};
ghost use Rattle.sg_store.specs.Comparison.{compared};
ghost use Rattle.sg_store.specs.Disk.{IsWellFormed, IsOverfull, blocks, disk_remapped};
ghost use Rattle.sg_store.specs.DiskProps.{IsWellFormed-IsProp};
ghost use Rattle.sg_store.specs.Meter.{HasHeadroom, ChargedOnOk};
ghost use Rattle.sg_plain_map.specs.PlainCost.{plain_price, plain_price-within, plain_least};
ghost use Rattle.sg_plain_map.specs.PlainCost.{plain_least-positive, plain_price-joined};
ghost use Rattle.sg_plain_map.specs.Editing.{AreSingle, stored};
ghost use Rattle.sg_pool.specs.MappedRecords.{IsConsistent};
ghost use Rattle.sg_store.specs.declared.store.TheConstants.{MAX_CAPACITY};
ghost use Rattle.sg_pool.specs.declared.links.TheConstants.{MAX_SLOTS};

use crate::compare::compare_blocks;
use crate::need::visit_records;
use crate::read::read_blocks;
use crate::search::lower_bound;
use crate::status::write_descriptors;
use crate::unmap::unmap_records;
use crate::write::{Range, put_range};
use sg_pool::{Content, MAX_SLOTS, Pool, Source};
use sg_store::laws::disks_stay_well_formed;
use sg_store::lba_status::status_header;
use sg_store::{BLOCK_LENGTH, Counts, Miscompare, Space, Store};
use sg_table::{Draft, RunTable};
use sg_wire::Cut;
use sg_wire::laws::{parts_are_put_in_turn, parts_are_replaced};
use std::alloc::{AllocError, Global};

/// A disk with a record of its own for each mapped or anchored address (SBC-3, 4.7).
///
/// A call over a range visits the records of the range's addresses, and at most one more.
#[derive(Drop)]
pub struct PlainMap {
    capacity: u64,
    table: RunTable,
    pool: Pool,
    draft: Draft,
    ghost capacity_fits: { capacity ≤ MAX_CAPACITY },
    ghost pool_fits: { table.room ≤ MAX_SLOTS },
    ghost draft_fits: { draft.room ≡ table.room },
    ghost well_formed: { IsWellFormed capacity (stored table pool) } by { IsWellFormed-IsProp _ _ },
    ghost single: { AreSingle table.records },
    ghost consistent: { IsConsistent table.records pool.blocks pool.free table.room },
}

impl PlainMap {
    ghost use Rattle.sg_pool.specs.Content.{HasMappings, mapping_for};
    ghost use Rattle.sg_pool.specs.Source.{HasBlocks, joined_blocks};
    ghost use Rattle.sg_plain_map.specs.State.{disk_of, meter_of};

    /// Compares the blocks from an address on with the blocks of a source.
    ///
    /// # Errors
    /// A byte differs.
    fn compare_with(&mut self, lba: u64, count: u32, source: &Source) -> Result<(), Miscompare>
        requires range { lba + count ≤ (disk_of self.old).capacity }
        requires whole { HasBlocks source.now count }
        requires headroom { HasHeadroom (meter_of self.old).counts }

        // The result names the first byte that differs, and the disk stays as it is.
        ensures value { result ≡ compared (blocks (disk_of self.old).contents lba count)
            (joined_blocks source.now count) }
        ensures disk { disk_of self.new ≡ disk_of self.old }

        // The cost of the call, and the bounds of its visits.
        ensures costs { ChargedOnOk result (disk_of self.old).pool
            (plain_price (disk_of self.old).contents lba count)
            (plain_least (disk_of self.old).contents lba count)
            (meter_of self.old) (meter_of self.new) }
    {
        let from = lower_bound(&mut self.table, lba);
        compare_blocks(&mut self.table, &self.pool, from, lba, count, source)
    }

    /// Gives the addresses from one on their new content.
    ///
    /// # Errors
    /// More addresses would have a slot than the pool has. Nothing changes then.
    fn remap(&mut self, lba: u64, count: u32, content: &Content) -> Result<(), Space>
        requires range { lba + count ≤ (disk_of self.old).capacity }
        requires whole { HasMappings content.now count }
        requires headroom { HasHeadroom (meter_of self.old).counts }

        // Either the pool has too few blocks and the disk stays as it is, or all addresses are
        // remapped.
        ensures space { IsErr result
            ↔ IsOverfull (disk_remapped (disk_of self.old) lba count (mapping_for content.now)) }
        ensures ok { OnOk result
            (disk_of self.new ≡ disk_remapped (disk_of self.old) lba count (mapping_for content.now)) }
        ensures err { OnErr result (disk_of self.new ≡ disk_of self.old) }

        // The cost of the call, and the bounds of its visits.
        ensures costs { ChargedOnOk result (disk_of self.old).pool
            (plain_price (disk_of self.old).contents lba count)
            (plain_least (disk_of self.old).contents lba count)
            (meter_of self.old) (meter_of self.new) }
    {
        disks_stay_well_formed();
        let from = lower_bound(&mut self.table, lba);
        let to = lower_bound(&mut self.table, lba + u64::from(count));
        let used = to - from;
        if count as usize > self.pool.free_count() + used {
            return Err(Space);
        }
        put_range(
            &mut self.table,
            &mut self.pool,
            &mut self.draft,
            from,
            Range { lba, count },
            content,
        );
        Ok(())
    }
}

impl Store for PlainMap {
    ghost use Rattle.sg_plain_map.specs.State.{disk_of, meter_of};

    ghost disk = { disk_of };

    ghost meter = { meter_of };

    ghost price = { plain_price };

    ghost least = { plain_least };

    /// # Errors
    /// Memory was refused, or the pool has more than [`MAX_SLOTS`] blocks.
    fn make(alloc: Global, capacity: u64, pool: u32) -> Result<Self, AllocError> {
        if pool > MAX_SLOTS {
            return Err(AllocError);
        }
        Ok(PlainMap {
            capacity,
            table: RunTable::new(alloc, pool)?,
            pool: Pool::new(alloc, pool)?,
            draft: Draft::new(alloc, pool)?,
        })
    }

    fn read(&mut self, lba: u64, count: u32, bytes: &mut [u8]) {
        let from = lower_bound(&mut self.table, lba);
        read_blocks(&mut self.table, &self.pool, from, lba, count, bytes);
    }

    fn compare(&mut self, lba: u64, count: u32, bytes: &[u8]) -> Result<(), Miscompare> {
        self.compare_with(lba, count, &Source::Joined(bytes))
    }

    fn compare_each(
        &mut self,
        lba: u64,
        count: u32,
        block: &[u8; BLOCK_LENGTH],
    ) -> Result<(), Miscompare> {
        self.compare_with(lba, count, &Source::Repeated(block))
    }

    fn write(&mut self, lba: u64, count: u32, bytes: &[u8]) -> Result<(), Space> {
        self.remap(lba, count, &Content::Blocks(&Source::Joined(bytes)))
    }

    fn fill(&mut self, lba: u64, count: u32, block: &[u8; BLOCK_LENGTH]) -> Result<(), Space> {
        self.remap(lba, count, &Content::Blocks(&Source::Repeated(block)))
    }

    fn unmap(&mut self, lba: u64, count: u64) {
        disks_stay_well_formed();
        let from = lower_bound(&mut self.table, lba);
        let to = lower_bound(&mut self.table, lba + count);
        unmap_records(&mut self.table, &mut self.pool, from, to, lba, count);
    }

    fn anchor(&mut self, lba: u64, count: u32) -> Result<(), Space> {
        self.remap(lba, count, &Content::Anchor)
    }

    fn need(&mut self, lba: u64, count: u64) -> u64 {
        let from = lower_bound(&mut self.table, lba);
        let to = lower_bound(&mut self.table, lba + count);
        visit_records(&mut self.table, from, to);
        count - (to - from) as u64
    }

    fn status(&mut self, lba: u64, cut: &mut Cut) {
        parts_are_put_in_turn();
        parts_are_replaced();
        let at = cut.written();
        cut.put(&status_header(0));
        let from = lower_bound(&mut self.table, lba);
        let count = write_descriptors(&mut self.table, from, lba, self.capacity, cut);
        // The number of descriptors is known only now. The header with it replaces the first
        // header.
        cut.replace(at, &status_header(count));
    }

    fn grow(&mut self, capacity: u64) {
        disks_stay_well_formed();
        self.capacity = capacity;
    }

    fn mapped(&self) -> u32 {
        self.table.data_count() as u32
    }

    fn used(&self) -> u32 {
        self.table.count() as u32
    }

    fn counts(&self) -> Counts {
        Counts {
            visits: self.table.visits(),
            probes: self.table.probes(),
            links: 0,
        }
    }

    fn restart_counts(&mut self) {
        self.table.restart_counts();
    }

    ghost price_within = { plain_price-within };

    ghost least_positive = { plain_least-positive };

    ghost price_joined = { plain_price-joined };
}
