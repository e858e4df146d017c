// The store itself. Its table has a record for each maximal run of addresses of one kind. The
// blocks of a run are in a chain of slots. The other files say what its calls do to the runs.
ghost use Rattle.std.specs.Prelude.{◌≡◌, ◌+◌, ◌*◌, ◌<◌, ◌≤◌, ◌↔◌, length, IsErr, OnOk, OnErr};
ghost use Rattle.std.specs.FinMap.{len};
ghost use Rattle.sg_store.specs.Comparison.{compared, repeated};
ghost use Rattle.sg_store.specs.Disk.{IsWellFormed, IsOverfull, blocks};
ghost use Rattle.sg_store.specs.Disk.{disk_written, disk_filled, disk_unmapped, disk_anchored};
ghost use Rattle.sg_store.specs.Disk.{data_count, disk_remapped, need, outside_range};
ghost use Rattle.sg_wire.specs.LbaStatus.{status_data};
ghost use Rattle.sg_store.specs.LbaStatus.{lba_status, covered};
ghost use Rattle.sg_store.specs.Meter.{HasHeadroom, restarted};
ghost use Rattle.sg_wire.specs.Cut.{Puts};
ghost use Rattle.sg_block_map.specs.MaximalRuns.{runs};
ghost use Rattle.sg_block_map.specs.RunCost.{block_price, block_least, CostsRange};
ghost use Rattle.sg_block_map.specs.RunCostLaws.{block_price-within, block_price-joined};
ghost use Rattle.sg_block_map.specs.RunCostLaws.{block_least-positive};
ghost use Rattle.sg_block_map.specs.Runs.{AreOnDisk, AreRuns};
ghost use Rattle.sg_block_map.specs.RunsProps.{AreRuns-IsProp};
ghost use Rattle.sg_store.specs.DiskProps.{IsWellFormed-IsProp};
ghost use Rattle.sg_table.specs.Draft.{empty_draft};
ghost use Rattle.sg_store.specs.declared.store.TheConstants.{MAX_CAPACITY};
ghost use Rattle.sg_pool.specs.declared.links.TheConstants.{MAX_SLOTS};

use crate::compare::compare_runs;
use crate::gather::{Gathered, gather, gather_between, used_between};
use crate::read::read_runs;
use crate::status::{cursor_over, write_descriptors};
use crate::unmap::{renew_slots, unmap_runs};
use crate::write::write_runs;
use sg_pool::{Content, MAX_SLOTS, Pool, Source};
use sg_store::laws::disks_stay_well_formed;
use sg_store::lba_status::status_header;
use sg_store::{BLOCK_LENGTH, Counts, MAX_CAPACITY, Miscompare, Space, Store};
use sg_table::RunTable;
use sg_wire::Cut;
use sg_wire::laws::{parts_are_put_in_turn, parts_are_replaced};
use std::alloc::{AllocError, Global};

/// A disk with one record for each maximal run of addresses that are mapped, or are anchored
/// (SBC-3, 4.7). The slots of a run are a chain, and no block moves when the disk joins or cuts
/// runs.
///
/// A call over a range visits the records of the runs that the range meets, and at most two more.
#[derive(Drop)]
pub struct BlockMap {
    capacity: u64,
    table: RunTable,
    pool: Pool,
    /// The runs near a range. It is empty between calls.
    gathered: Gathered,
    ghost capacity_fits: { capacity ≤ MAX_CAPACITY },
    ghost pool_fits: { table.room ≤ MAX_SLOTS },
    ghost gathered_empty: { gathered ≡ empty_draft table.room },
    ghost well_formed: { AreOnDisk capacity table.records pool } by { IsWellFormed-IsProp _ _ },
    ghost runs: { AreRuns table.records pool table.room } by { AreRuns-IsProp _ _ _ },
}

impl BlockMap {
    ghost use Rattle.sg_pool.specs.Content.{HasMappings, mapping_for};
    ghost use Rattle.sg_pool.specs.Source.{HasBlocks, joined_blocks};
    ghost use Rattle.sg_block_map.specs.State.{disk_of, meter_of, records_of};
    ghost use Rattle.sg_block_map.specs.State.{slots_by_address, Keeps};

    /// The number of maximal runs of addresses of one kind. Each has one record, and the table has
    /// no others.
    pub fn run_count(&self) -> usize
        ensures records { records_of self.now ≡ runs (disk_of self.now).contents }
        ensures count { result ≡ length (runs (disk_of self.now).contents) }
    {
        self.table.count()
    }

    /// Compares the blocks from an address on with the blocks of a source.
    ///
    /// # Errors
    /// A byte differs.
    fn compare_with(&mut self, lba: u64, count: u32, source: &Source) -> Result<(), Miscompare>
        requires range { lba + count ≤ (disk_of self.old).capacity }
        requires whole { HasBlocks source.now count }
        requires headroom { HasHeadroom (meter_of self.old).counts }

        // The result names the first byte that differs, and the disk stays as it is.
        ensures value { result ≡ compared (blocks (disk_of self.old).contents lba count)
            (joined_blocks source.now count) }
        ensures disk { disk_of self.new ≡ disk_of self.old }
        ensures keeps { slots_by_address self.new ≡ slots_by_address self.old }

        // The cost of the call.
        ensures costs { CostsRange (disk_of self.old) lba count
            (meter_of self.old) (meter_of self.new) }
    {
        gather(&mut self.table, &mut self.gathered, lba, count);
        let result = compare_runs(&mut self.pool, self.gathered.records(), lba, count, source);
        self.gathered.clear();
        result
    }

    /// Gives the addresses from one on their new content.
    ///
    /// # Errors
    /// More addresses would have a block of the pool than it has. Nothing changes then.
    fn remap(&mut self, lba: u64, count: u32, content: &Content) -> Result<(), Space>
        requires range { lba + count ≤ (disk_of self.old).capacity }
        requires whole { HasMappings content.now count }
        requires headroom { HasHeadroom (meter_of self.old).counts }

        // Either the pool has too few blocks and the disk stays as it is, or all addresses are
        // remapped.
        ensures space { IsErr result
            ↔ IsOverfull (disk_remapped (disk_of self.old) lba count (mapping_for content.now)) }
        ensures ok { OnOk result
            (disk_of self.new ≡ disk_remapped (disk_of self.old) lba count (mapping_for content.now)) }
        ensures err { OnErr result (disk_of self.new ≡ disk_of self.old) }

        // Each address that has a slot keeps it.
        ensures keeps { Keeps (slots_by_address self.old) (slots_by_address self.new) }

        // The cost of the call.
        ensures costs { CostsRange (disk_of self.old) lba count
            (meter_of self.old) (meter_of self.new) }
    {
        disks_stay_well_formed();
        if count == 0 {
            return Ok(());
        }
        gather(&mut self.table, &mut self.gathered, lba, count);
        let used = used_between(self.gathered.records(), lba, lba + u64::from(count));
        if u64::from(count) > self.pool.free_count() as u64 + used {
            self.gathered.clear();
            return Err(Space);
        }
        write_runs(
            &mut self.table,
            &mut self.pool,
            &self.gathered,
            lba,
            count,
            content,
        );
        self.gathered.clear();
        Ok(())
    }
}

impl Store for BlockMap {
    ghost use Rattle.sg_block_map.specs.State.{disk_of, meter_of, records_of, slots_by_address};
    ghost use Rattle.sg_block_map.specs.State.{Keeps};

    ghost disk = { disk_of };

    ghost meter = { meter_of };

    ghost price = { block_price };

    ghost least = { block_least };

    /// # Errors
    /// Memory was refused, or the pool has more than [`MAX_SLOTS`] blocks.
    fn make(alloc: Global, capacity: u64, pool: u32) -> Result<Self, AllocError> {
        if pool > MAX_SLOTS {
            return Err(AllocError);
        }
        Ok(BlockMap {
            capacity,
            table: RunTable::new(alloc, pool)?,
            pool: Pool::new(alloc, pool)?,
            gathered: Gathered::new(alloc, pool)?,
        })
    }

    fn read(&mut self, lba: u64, count: u32, bytes: &mut [u8])
        requires range { lba + count ≤ (disk_of self.old).capacity }
        requires byte_count { length bytes.old ≡ BLOCK_LENGTH * count }
        requires headroom { HasHeadroom (meter_of self.old).counts }

        // The bytes are the blocks of the disk, and the disk stays as it is.
        ensures bytes { bytes.new ≡ blocks (disk_of self.old).contents lba count }
        ensures disk { disk_of self.new ≡ disk_of self.old }
        ensures keeps { slots_by_address self.new ≡ slots_by_address self.old }

        // The cost of the call.
        ensures costs { CostsRange (disk_of self.old) lba count
            (meter_of self.old) (meter_of self.new) }
    {
        gather(&mut self.table, &mut self.gathered, lba, count);
        read_runs(&mut self.pool, self.gathered.records(), lba, count, bytes);
        self.gathered.clear();
    }

    fn compare(&mut self, lba: u64, count: u32, bytes: &[u8]) -> Result<(), Miscompare>
        requires range { lba + count ≤ (disk_of self.old).capacity }
        requires byte_count { length bytes.now ≡ BLOCK_LENGTH * count }
        requires headroom { HasHeadroom (meter_of self.old).counts }

        // The result names the first byte that differs, and the disk stays as it is.
        ensures value { result
            ≡ compared (blocks (disk_of self.old).contents lba count) bytes.now }
        ensures disk { disk_of self.new ≡ disk_of self.old }
        ensures keeps { slots_by_address self.new ≡ slots_by_address self.old }

        // The cost of the call.
        ensures costs { CostsRange (disk_of self.old) lba count
            (meter_of self.old) (meter_of self.new) }
    {
        self.compare_with(lba, count, &Source::Joined(bytes))
    }

    fn compare_each(
        &mut self,
        lba: u64,
        count: u32,
        block: &[u8; BLOCK_LENGTH],
    ) -> Result<(), Miscompare>
        requires range { lba + count ≤ (disk_of self.old).capacity }
        requires headroom { HasHeadroom (meter_of self.old).counts }

        // The result names the first byte that differs, and the disk stays as it is.
        ensures value { result ≡ compared (blocks (disk_of self.old).contents lba count)
            (repeated count block.now) }
        ensures disk { disk_of self.new ≡ disk_of self.old }
        ensures keeps { slots_by_address self.new ≡ slots_by_address self.old }

        // The cost of the call.
        ensures costs { CostsRange (disk_of self.old) lba count
            (meter_of self.old) (meter_of self.new) }
    {
        self.compare_with(lba, count, &Source::Repeated(block))
    }

    fn write(&mut self, lba: u64, count: u32, bytes: &[u8]) -> Result<(), Space>
        requires range { lba + count ≤ (disk_of self.old).capacity }
        requires byte_count { length bytes.now ≡ BLOCK_LENGTH * count }
        requires headroom { HasHeadroom (meter_of self.old).counts }

        // Either the pool has too few blocks and the disk stays as it is, or all blocks are
        // replaced.
        ensures space { IsErr result
            ↔ IsOverfull (disk_written (disk_of self.old) lba count bytes.now) }
        ensures ok { OnOk result
            (disk_of self.new ≡ disk_written (disk_of self.old) lba count bytes.now) }
        ensures err { OnErr result (disk_of self.new ≡ disk_of self.old) }

        // Each address that has a slot keeps it.
        ensures keeps { Keeps (slots_by_address self.old) (slots_by_address self.new) }

        // The cost of the call.
        ensures costs { CostsRange (disk_of self.old) lba count
            (meter_of self.old) (meter_of self.new) }
    {
        self.remap(lba, count, &Content::Blocks(&Source::Joined(bytes)))
    }

    fn fill(&mut self, lba: u64, count: u32, block: &[u8; BLOCK_LENGTH]) -> Result<(), Space>
        requires range { lba + count ≤ (disk_of self.old).capacity }
        requires headroom { HasHeadroom (meter_of self.old).counts }

        // Either the pool has too few blocks and the disk stays as it is, or all blocks are
        // replaced.
        ensures space { IsErr result
            ↔ IsOverfull (disk_filled (disk_of self.old) lba count block.now) }
        ensures ok { OnOk result
            (disk_of self.new ≡ disk_filled (disk_of self.old) lba count block.now) }
        ensures err { OnErr result (disk_of self.new ≡ disk_of self.old) }

        // Each address that has a slot keeps it.
        ensures keeps { Keeps (slots_by_address self.old) (slots_by_address self.new) }

        // The cost of the call.
        ensures costs { CostsRange (disk_of self.old) lba count
            (meter_of self.old) (meter_of self.new) }
    {
        self.remap(lba, count, &Content::Blocks(&Source::Repeated(block)))
    }

    fn unmap(&mut self, lba: u64, count: u64)
        requires range { lba + count ≤ (disk_of self.old).capacity }
        requires headroom { HasHeadroom (meter_of self.old).counts }

        // The addresses have no slot any more, and all others keep theirs.
        ensures disk { disk_of self.new ≡ disk_unmapped (disk_of self.old) lba count }
        ensures keeps { slots_by_address self.new
            ≡ outside_range (slots_by_address self.old) lba count }

        // The cost of the call.
        ensures costs { CostsRange (disk_of self.old) lba count
            (meter_of self.old) (meter_of self.new) }
    {
        disks_stay_well_formed();
        if count == 0 {
            return;
        }
        let high = lba + count;
        gather_between(&mut self.table, &mut self.gathered, lba, high);
        unmap_runs(&mut self.table, &mut self.pool, &self.gathered, lba, high);
        renew_slots(&self.table, &mut self.pool);
        self.gathered.clear();
    }

    fn anchor(&mut self, lba: u64, count: u32) -> Result<(), Space>
        requires range { lba + count ≤ (disk_of self.old).capacity }
        requires headroom { HasHeadroom (meter_of self.old).counts }

        // Either the pool has too few blocks and the disk stays as it is, or all are anchored.
        ensures space { IsErr result ↔ IsOverfull (disk_anchored (disk_of self.old) lba count) }
        ensures ok { OnOk result (disk_of self.new ≡ disk_anchored (disk_of self.old) lba count) }
        ensures err { OnErr result (disk_of self.new ≡ disk_of self.old) }

        // Each address that has a slot keeps it.
        ensures keeps { Keeps (slots_by_address self.old) (slots_by_address self.new) }

        // The cost of the call.
        ensures costs { CostsRange (disk_of self.old) lba count
            (meter_of self.old) (meter_of self.new) }
    {
        self.remap(lba, count, &Content::Anchor)
    }

    fn need(&mut self, lba: u64, count: u64) -> u64
        requires range { lba + count ≤ (disk_of self.old).capacity }
        requires headroom { HasHeadroom (meter_of self.old).counts }

        ensures value { result ≡ need (disk_of self.old).contents lba count }
        ensures disk { disk_of self.new ≡ disk_of self.old }
        ensures keeps { slots_by_address self.new ≡ slots_by_address self.old }

        // The cost of the call.
        ensures costs { CostsRange (disk_of self.old) lba count
            (meter_of self.old) (meter_of self.new) }
    {
        let high = lba + count;
        gather_between(&mut self.table, &mut self.gathered, lba, high);
        let used = used_between(self.gathered.records(), lba, high);
        self.gathered.clear();
        count - used
    }

    fn status(&mut self, lba: u64, cut: &mut Cut)
        requires address { lba < (disk_of self.old).capacity }
        requires headroom { HasHeadroom (meter_of self.old).counts }

        // The call puts all of the data, and the disk stays as it is.
        ensures data { Puts cut.old cut.new (status_data (lba_status (disk_of self.old) lba)) }
        ensures disk { disk_of self.new ≡ disk_of self.old }
        ensures keeps { slots_by_address self.new ≡ slots_by_address self.old }

        // The cost of the call, over the addresses that the descriptors cover.
        ensures costs { let count = covered (lba_status (disk_of self.old) lba) in
            CostsRange (disk_of self.old) lba count (meter_of self.old) (meter_of self.new) }
    {
        parts_are_put_in_turn();
        parts_are_replaced();
        let at = cut.written();
        cut.put(&status_header(0));
        let cursor = cursor_over(&mut self.table, lba);
        let count = write_descriptors(&mut self.table, cursor, lba, self.capacity, cut);
        // The length is known only now. It replaces the length that was put first.
        cut.replace(at, &status_header(count));
    }

    fn grow(&mut self, capacity: u64) {
        disks_stay_well_formed();
        self.capacity = capacity;
    }

    fn mapped(&self) -> u32
        ensures value { result ≡ data_count (disk_of self.now).contents }

        // The table has one record for each maximal run, and no others.
        ensures records { records_of self.now ≡ runs (disk_of self.now).contents }
    {
        self.table.data_count() as u32
    }

    fn used(&self) -> u32
        ensures value { result ≡ len (disk_of self.now).contents }
        ensures within { result ≤ (disk_of self.now).pool }
        ensures well_formed { IsWellFormed (disk_of self.now).capacity (disk_of self.now).contents }

        // The table has one record for each maximal run, and no others.
        ensures records { records_of self.now ≡ runs (disk_of self.now).contents }
    {
        (self.pool.count() - self.pool.free_count()) as u32
    }

    fn counts(&self) -> Counts {
        Counts {
            visits: self.table.visits(),
            probes: self.table.probes(),
            links: self.pool.links(),
        }
    }

    fn restart_counts(&mut self)
        ensures disk { disk_of self.new ≡ disk_of self.old }
        ensures meter { meter_of self.new ≡ restarted (meter_of self.old) }
        ensures keeps { slots_by_address self.new ≡ slots_by_address self.old }
    {
        self.table.restart_counts();
        self.pool.restart_links();
    }

    ghost price_within = { block_price-within };

    ghost least_positive = { block_least-positive };

    ghost price_joined = { block_price-joined };
}
