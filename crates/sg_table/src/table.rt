// The table of records. Only this file counts the records and addresses that calls read. The leaves
// know where the records lie.
ghost use Rattle.std.specs.Prelude.{◌≡◌, ◌+◌, ◌-◌, ◌<◌, ◌≤◌, length, slice_index_or, IfOk};
ghost use Rattle.sg_table.specs.Records.{data_in, start_of, IsSorted, IsLowerBound};
ghost use Rattle.sg_table.specs.Search.{CostsSearch};
ghost use Rattle.sg_table.specs.Table.{new_table, visited, probed, search_bound, restarted_table};
ghost use Rattle.sg_table.specs.Leaves.{move_bound};
ghost use Rattle.sg_table.specs.Table.{spliced};

use crate::ghost_number::GhostNumber;
use crate::leaves::{Leaves, MIN_LEAF, lower_bound, splice};
use crate::run::Run;
use std::alloc::{AllocError, Global};
use std::marker::Model;

/// The most records that a table has room for.
pub const MAX_RECORDS: u32 = u32::MAX;

/// The records of the map, sorted by their addresses. Only the calls that count a record return it.
#[derive(Drop)]
pub struct RunTable {
    leaves: Leaves,
    room: GhostNumber,
    visits: u64,
    probes: u64,
    total: GhostNumber,
    restarts: GhostNumber,
}

impl Model for RunTable {
    ghost use Rattle.std.specs.Prelude.{◌+◌, ◌*◌, ◌≤◌, ◌<◌, length};
    ghost use Rattle.sg_table.specs.Leaves.{AreBalanced, joined};
    ghost use Rattle.sg_table.specs.Table.{Table};
    ghost use Rattle.sg_table.specs.declared.leaves.TheConstants.{MIN_LEAF};
    ghost use Rattle.sg_table.specs.declared.table.TheConstants.{MAX_RECORDS};

    ghost Value = { Table };

    ghost view = { λ t. record {
      records = joined t.leaves.leaves;
      room = t.room.value;
      visits = t.visits;
      probes = t.probes;
      total = t.total.value;
      restarts = t.restarts.value;
      moved = t.leaves.moved;
    } };

    ghost invariant = { λ t.
        AreBalanced t.leaves.leaves
        × (length (joined t.leaves.leaves) ≤ t.room.value)
        × (t.room.value < MIN_LEAF * t.leaves.capacity)
        × (t.room.value ≤ MAX_RECORDS) };
}

impl RunTable {
    /// A table without records, with room for `room` records.
    ///
    /// # Errors
    /// The allocator refused memory.
    pub fn new(alloc: Global, room: u32) -> Result<RunTable, AllocError>
        requires { room ≤ MAX_RECORDS }
        ensures { IfOk result (λ table. table ≡ new_table room) }
    {
        Ok(RunTable {
            leaves: Leaves::new(alloc, room as usize / MIN_LEAF + 1)?,
            room: GhostNumber::of(u64::from(room)),
            visits: 0,
            probes: 0,
            total: GhostNumber::zero(),
            restarts: GhostNumber::zero(),
        })
    }

    /// The number of records.
    pub fn count(&self) -> usize
        ensures value { result ≡ length self.now.records }
        ensures room { result ≤ self.now.room }
        ensures table_size { result ≤ MAX_RECORDS }
    {
        self.leaves.count()
    }

    /// The number of visits since the last restart.
    pub fn visits(&self) -> u64
        ensures { result ≡ self.now.visits }
    {
        self.visits
    }

    /// The number of probes since the last restart.
    pub fn probes(&self) -> u64
        ensures { result ≡ self.now.probes }
    {
        self.probes
    }

    /// The number of addresses of the records that have data.
    pub fn data_count(&self) -> u64
        ensures { result ≡ data_in self.now.records }
    {
        self.leaves.data_count()
    }

    /// Counts visits and probes from 0 again.
    pub fn restart_counts(&mut self)
        ensures { self.new ≡ restarted_table self.old }
    {
        self.visits = 0;
        self.probes = 0;
        self.restarts = self.restarts.increased(1);
    }

    /// The whole record at an index, which counts as a visit.
    pub fn visit(&mut self, index: usize) -> Run
        requires index { index < length self.old.records }
        requires headroom { self.old.visits < u64.MAX }
        ensures value { slice_index_or self.old.records index result ≡ result }
        ensures table { self.new ≡ visited self.old 1 }
    {
        self.visits += 1;
        self.total = self.total.increased(1);
        self.record(index)
    }

    /// The address of the record at an index, which counts as a probe.
    pub fn start(&mut self, index: usize) -> u64
        requires index { index < length self.old.records }
        requires headroom { self.old.probes < u64.MAX }
        ensures value { result ≡ start_of self.old.records index }
        ensures table { self.new ≡ probed self.old 1 }
    {
        self.probes += 1;
        self.record(index).start
    }

    /// The record at an index. The callers count it.
    fn record(&mut self, index: usize) -> Run
        requires { index < length self.old.records }
        ensures value { slice_index_or self.old.records index result ≡ result }
        ensures table { self.new ≡ self.old }
    {
        let place = self.leaves.locate(index);
        self.leaves.record(place)
    }

    /// The index of the first record that is not before an address, found by binary search.
    pub fn lower_bound(&mut self, address: u64) -> usize
        requires sorted { IsSorted self.old.records }
        requires headroom { self.old.probes + search_bound ≤ u64.MAX }
        ensures index { IsLowerBound self.old.records result address }

        // The call counts only probes, as many as a binary search takes.
        ensures table { self.new ≡ probed self.old (self.new.probes - self.old.probes) }
        ensures probes_rise { self.old.probes ≤ self.new.probes }
        ensures probe_count { self.new.probes ≤ self.old.probes + search_bound }
        ensures search { CostsSearch (length self.old.records) (self.new.probes - self.old.probes) }
    {
        let found = lower_bound(&mut self.leaves, address);
        self.probes += found.probes;
        found.index
    }

    /// Replaces the records from one index to another.
    pub fn splice(&mut self, from: usize, to: usize, runs: &[Run])
        requires range { (from ≤ to) × (to ≤ length self.old.records) }
        requires room { length self.old.records + length runs.now ≤ self.old.room + (to - from) }
        ensures table { self.new ≡ record (spliced self.old from to runs.now) { moved = self.new.moved } }

        // The bound of the moves does not depend on the size of the table.
        ensures moves_rise { self.old.moved ≤ self.new.moved }
        ensures moves { self.new.moved ≤ self.old.moved + move_bound + length runs.now }
    {
        splice(&mut self.leaves, from, to, runs);
    }
}
