// Unmapping a range: the call frees the slots of its addresses chain by chain. The parts of runs
// before and after the range remain. The call touches no block.
ghost use Rattle.std.specs.Prelude.{◌≡◌, ◌+◌, ◌-◌, ◌<◌, ◌≤◌, ◌++◌, length};
ghost use Rattle.std.specs.Prelude.{option_to_list, IfSome};
ghost use Rattle.sg_pool.specs.Chains.{AreBelow, IsChain};
ghost use Rattle.sg_table.specs.Leaves.{move_bound};
ghost use Rattle.sg_pool.specs.MappedRecords.{outside_records};
ghost use Rattle.sg_table.specs.Records.{slots_of};
ghost use Rattle.sg_block_map.specs.Cutting.{AreDistinct, HasOwnSlots, StaysBut, IsCut};
ghost use Rattle.sg_block_map.specs.Joining.{ChangesRuns, IsReadyFor};
ghost use Rattle.sg_block_map.specs.Metering.{FollowsLinks};
ghost use Rattle.sg_block_map.specs.Runs.{expanded, AreRuns, blocks_of};

use crate::gather::Gathered;
use crate::put::put_runs;
use crate::split::split_at;
use arrayvec::ArrayVec;
use sg_pool::{MAX_SLOTS, Pool};
use sg_store::MAX_CAPACITY;
use sg_table::{Run, RunTable};

/// Room for the parts that runs keep beside a range: one before the range and two after it. A run
/// that ends after the range is the last one near it, so no more than one part is after it.
const REMAINING: usize = 3;

/// Keeps a part of a run, if there is one.
fn keep(remaining: &mut ArrayVec<Run, REMAINING>, part: Option<Run>)
    requires { length remaining.old.items + length (option_to_list part) ≤ REMAINING }
    ensures { remaining.new.items ≡ remaining.old.items ++ option_to_list part }
{
    if let Some(run) = part {
        remaining.push(run);
    }
}

/// Frees the slots of a part of a run, if there is one.
fn give(pool: &mut Pool, part: Option<Run>)
    requires chain { IfSome part (λ run. IsChain pool.old.next run.first run.last run.count) }
    requires below { AreBelow (length pool.old.next)
        (slots_of (expanded pool.old.next (option_to_list part))) }
    requires distinct { AreDistinct (slots_of (expanded pool.old.next (option_to_list part)))
        pool.old.free }
    requires room { length (expanded pool.old.next (option_to_list part)) + length pool.old.free
        ≤ MAX_SLOTS }
    ensures free { pool.new.free
        ≡ slots_of (expanded pool.old.next (option_to_list part)) ++ pool.old.free }

    // Only links of these slots change.
    ensures stays { StaysBut pool.old.next pool.new.next
        (slots_of (expanded pool.old.next (option_to_list part))) }
    ensures length { length pool.new.next ≡ length pool.old.next }
    ensures pool { pool.new ≡ record pool.old { next = pool.new.next; free = pool.new.free } }
{
    if let Some(run) = part {
        pool.give_chain(run.first, run.last, run.count);
    }
}

/// Frees the slots of a run's addresses in a range, and keeps its other parts.
fn unmap_run(
    pool: &mut Pool,
    remaining: &mut ArrayVec<Run, REMAINING>,
    run: Run,
    low: u64,
    high: u64,
)
    requires slots { HasOwnSlots pool.old run }
    requires room { length remaining.old.items + 2 ≤ REMAINING }
    requires range { run.start + run.count ≤ MAX_CAPACITY }
    requires order { low < high }
    requires headroom { pool.old.links + run.count ≤ u64.MAX }

    ensures cut { IsCut pool.old pool.new remaining.old.items remaining.new.items run low high }

    // The call follows at most as many links as the run has blocks.
    ensures links { FollowsLinks run.count pool.old pool.new }
{
    let (front, rest) = split_at(pool, run, low);
    keep(remaining, front);
    let Some(rest) = rest else {
        return;
    };
    let (gone, back) = split_at(pool, rest, high);
    give(pool, gone);
    keep(remaining, back);
}

/// Unmaps the addresses from one to another in the runs that were gathered, and replaces these in
/// the table by their remaining parts.
pub(crate) fn unmap_runs(
    table: &mut RunTable,
    pool: &mut Pool,
    gathered: &Gathered,
    low: u64,
    high: u64,
)
    requires ready { IsReadyFor table.old pool.old gathered.now low high }
    requires order { low < high }

    // The addresses of the range are gone, and all others have their slots.
    ensures records { expanded pool.new.next table.new.records
        ≡ outside_records (expanded pool.old.next table.old.records) low (high - low) }
    ensures table { ChangesRuns (move_bound + REMAINING) table.old table.new pool.new }
    ensures blocks { pool.new.blocks ≡ pool.old.blocks }

    // The call follows at most as many links as the gathered runs have blocks.
    ensures links { FollowsLinks (blocks_of gathered.now.records) pool.old pool.new }
{
    let runs = gathered.records();
    if runs.is_empty() {
        return;
    }
    let from = gathered.from();
    let mut remaining = ArrayVec::new();
    for i in 0..runs.len() {
        unmap_run(pool, &mut remaining, runs[i], low, high);
    }
    put_runs(table, gathered, remaining.as_slice());
}

/// Makes the pool return its slots in ascending order again, if no address has one. Earlier writes
/// and unmaps have scattered the free slots. Without this call the blocks of a range would no
/// longer lie side by side.
pub(crate) fn renew_slots(table: &RunTable, pool: &mut Pool)
    requires { AreRuns table.now.records pool.old table.now.room }
    ensures runs { AreRuns table.now.records pool.new table.now.room }
    ensures pool { pool.new ≡ record pool.old { free = pool.new.free } }
{
    if table.count() == 0 {
        pool.renew();
    }
}
