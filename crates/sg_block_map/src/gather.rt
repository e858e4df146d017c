// Gathering the runs near a range from the table. Only this file visits records for a command over
// a range. For GET LBA STATUS the file `status` visits records. This file knows no slot and no
// block.
ghost use Rattle.std.specs.Prelude.{◌≡◌, ◌+◌, ◌-◌, ◌≤◌, length, drop, nat_lt};
ghost use Rattle.std.specs.List.{count_by, sum_by};
ghost use Rattle.sg_table.specs.Records.{IsLowerBound};
ghost use Rattle.sg_block_map.specs.Gathering.{AreBegun, AreGathered, AreGatheredOn, AreGatheredTo};
ghost use Rattle.sg_block_map.specs.Gathering.{HaveRoom, end_index, overlap, starts_in};
ghost use Rattle.sg_block_map.specs.Metering.{Visits, SearchesAndVisits};
ghost use Rattle.sg_block_map.specs.Runs.{AreMaximal, blocks_of};
ghost use Rattle.sg_pool.specs.Rising.{AreApart};

use sg_pool::MAX_SLOTS;
use sg_store::{MAX_CAPACITY, MAX_COUNT};
use sg_table::{Draft, Run, RunTable};

/// The runs near a range as the table has them, with the index of the first. A change of these runs
/// changes nothing in the table.
pub(crate) type Gathered = Draft;

/// Begins at the index of an address, with the run before it if that reaches the address.
fn gather_before(table: &mut RunTable, gathered: &mut Gathered, index: usize, low: u64)
    requires index { IsLowerBound table.old.records index low }
    requires room { HaveRoom table.old gathered.old }
    requires range { low ≤ MAX_CAPACITY }
    requires headroom { table.old.visits ≤ MAX_COUNT }

    ensures gathered { AreBegun table.old.records gathered.new index low }
    ensures room { gathered.new.room ≡ gathered.old.room }

    // The call visits the record before the index, if there is one.
    ensures visits { Visits (length gathered.new.records) 1 table.old table.new }
{
    gathered.begin(index);
    if index == 0 {
        return;
    }
    let run = table.visit(index - 1);
    if low - run.start <= u64::from(run.count) {
        gathered.begin(index - 1);
        gathered.push(run);
    }
}

/// Goes on from an index, up to the first run that begins past an address.
fn gather_from(table: &mut RunTable, gathered: &mut Gathered, index: usize, high: u64)
    requires runs { AreMaximal 0 (MAX_CAPACITY + 1) table.old.records }
    requires gathered { AreGatheredTo table.old.records gathered.old index }
    requires room { HaveRoom table.old gathered.old }
    requires headroom { table.old.visits ≤ MAX_COUNT + 1 }

    ensures gathered { AreGatheredOn table.old.records gathered.old gathered.new index high }
    ensures room { gathered.new.room ≡ gathered.old.room }

    // The call visits the gathered records, and at most one more.
    ensures visits { Visits (end_index gathered.new - index)
        (count_by (λ run. nat_lt run.start high) (drop index table.old.records) + 1)
        table.old table.new }
{
    for at in index..table.count() {
        let run = table.visit(at);
        if run.start > high {
            return;
        }
        gathered.push(run);
        // The next run begins at the end of this one or past it.
        if run.start + u64::from(run.count) > high {
            return;
        }
    }
}

/// Gathers the runs that meet or touch the range from an address to another.
pub(crate) fn gather_between(table: &mut RunTable, gathered: &mut Gathered, low: u64, high: u64)
    requires runs { AreMaximal 0 (MAX_CAPACITY + 1) table.old.records }
    requires room { HaveRoom table.old gathered.old }
    requires range { (low ≤ high) × (high ≤ MAX_CAPACITY) }
    requires headroom { (table.old.probes ≤ MAX_COUNT) × (table.old.visits ≤ MAX_COUNT) }

    ensures gathered { AreGathered table.old.records gathered.new low high (MAX_CAPACITY + 1) }
    ensures room { gathered.new.room ≡ gathered.old.room }

    // The call visits the gathered records, and at most two more than the runs that begin in the
    // range.
    ensures visits { SearchesAndVisits (length gathered.new.records)
        (count_by (starts_in low high) table.old.records + 2) table.old table.new }
{
    let index = table.lower_bound(low);
    gather_before(table, gathered, index, low);
    gather_from(table, gathered, index, high);
}

/// Gathers the runs that meet or touch the range from an address on.
pub(crate) fn gather(table: &mut RunTable, gathered: &mut Gathered, lba: u64, count: u32)
    requires runs { AreMaximal 0 (MAX_CAPACITY + 1) table.old.records }
    requires room { HaveRoom table.old gathered.old }
    requires range { lba + count ≤ MAX_CAPACITY }
    requires headroom { (table.old.probes ≤ MAX_COUNT) × (table.old.visits ≤ MAX_COUNT) }

    ensures gathered { AreGathered table.old.records gathered.new lba (lba + count)
        (MAX_CAPACITY + 1) }
    ensures room { gathered.new.room ≡ gathered.old.room }

    // The call visits the gathered records, and at most two more than the runs that begin in the
    // range.
    ensures visits { SearchesAndVisits (length gathered.new.records)
        (count_by (starts_in lba (lba + count)) table.old.records + 2) table.old table.new }
{
    gather_between(table, gathered, lba, lba + u64::from(count));
}

/// The number of addresses from one to another that the runs have.
pub(crate) fn used_between(runs: &[Run], low: u64, high: u64) -> u64
    requires fits { blocks_of runs.now ≤ MAX_SLOTS }
    requires runs { AreApart 0 MAX_CAPACITY runs.now }
    ensures value { result ≡ sum_by (overlap low high) runs.now }
    ensures fits { result ≤ MAX_SLOTS }
{
    let mut used = 0;
    for run in runs {
        let end = (run.start + u64::from(run.count)).min(high);
        used += end.saturating_sub(run.start.max(low));
    }
    used
}
