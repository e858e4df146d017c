// Gathering the extents near a range from the table. Only this file visits records for a command
// over a range. For GET LBA STATUS the file `status` visits records. This file knows no slot and no
// block.
ghost use Rattle.std.specs.Prelude.{◌≡◌, ◌+◌, ◌≤◌, length};
ghost use Rattle.sg_pool.specs.Rising.{AreApart};
ghost use Rattle.sg_extent_map.specs.Gathering.{AreGathered, SearchesAndVisits, overlaps};

use sg_store::{MAX_CAPACITY, MAX_COUNT};
use sg_table::{Draft, Run, RunTable};

/// The extents near a range as the table has them, with the index of the first. A change of these
/// changes nothing in the table.
pub(crate) type Gathered = Draft;

/// Gathers the extents that have addresses from one to another, and the ones right before and after
/// them.
pub(crate) fn gather(table: &mut RunTable, gathered: &mut Gathered, low: u64, high: u64)
    requires apart { AreApart 0 MAX_CAPACITY table.old.records }
    requires room { length table.old.records ≤ gathered.old.room }
    requires range { (low ≤ high) × (high ≤ MAX_CAPACITY) }
    requires headroom { (table.old.probes ≤ MAX_COUNT) × (table.old.visits ≤ MAX_COUNT) }

    ensures gathered { AreGathered table.old.records gathered.new low high }
    ensures room { gathered.new.room ≡ gathered.old.room }

    // The call visits each gathered record once, and no other.
    ensures visits { SearchesAndVisits (length gathered.new.records) table.old table.new }
{
    let from = table.lower_bound(low).saturating_sub(1);
    gathered.begin(from);
    for at in from..table.count() {
        let run = table.visit(at);
        gathered.push(run);
        if run.start >= high {
            return;
        }
    }
}

/// The number of addresses from one to another that the extents have.
pub(crate) fn used_between(runs: &[Run], low: u64, high: u64) -> u64
    requires { AreApart 0 MAX_CAPACITY runs.now }
    ensures value { result ≡ overlaps low high runs.now }
    ensures fits { result ≤ MAX_CAPACITY }
{
    let mut used = 0;
    for run in runs {
        let end = (run.start + u64::from(run.count)).min(high);
        used += end.saturating_sub(run.start.max(low));
    }
    used
}
