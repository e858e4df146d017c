// Unmapping a range: the call frees the slots of its addresses. The parts of extents before and
// after the range remain. The call touches no block.
ghost use Rattle.std.specs.Prelude.{◌≡◌, ℕ, ◌+◌, ◌-◌, ◌*◌, ◌<◌, ◌≤◌, length};
ghost use Rattle.sg_store.specs.Disk.{unmapped};
ghost use Rattle.sg_table.specs.Occurrences.{occurrences};
ghost use Rattle.sg_table.specs.Draft.{empty_draft};
ghost use Rattle.sg_table.specs.Leaves.{move_bound};
ghost use Rattle.sg_extent_map.specs.Drafting.{drafted, AreDrafted};
ghost use Rattle.sg_extent_map.specs.Extents.{singles, stored, IsExtent};
ghost use Rattle.sg_extent_map.specs.Writing.{ChangesExtents, GivesSlots, HasOwnSlots, IsCut};
ghost use Rattle.sg_extent_map.specs.Writing.{IsReady};

use crate::draft::{append, close};
use crate::gather::Gathered;
use crate::put::put_runs;
use crate::walk::{NO_RUN, part};
use sg_pool::UnlinkedPool;
use sg_store::MAX_POOL;
use sg_table::{Draft, Run, RunTable};

/// Frees slots in a row.
fn give_slots(pool: &mut UnlinkedPool, first: u32, count: u32)
    requires below { first + count ≤ length pool.old.blocks }
    requires size { length pool.old.blocks ≤ MAX_POOL }
    requires used { (slot : ℕ) → first ≤ slot → slot < first + count
        → occurrences slot pool.old.free ≡ 0 }
    ensures { GivesSlots first count pool.old pool.new }
{
    for given in 0..count {
        pool.give(first + given);
    }
}

/// Frees the slots of an extent's addresses in a range, and drafts its other parts.
fn unmap_run(
    pool: &mut UnlinkedPool,
    draft: &mut Draft,
    done: Run,
    run: Run,
    low: u64,
    high: u64,
) -> Run
    requires extent { IsExtent (length pool.old.blocks) run }
    requires own { HasOwnSlots pool.old.free run }
    requires size { length pool.old.blocks ≤ MAX_POOL }
    requires slots { run.count + length pool.old.free ≤ length pool.old.blocks }
    requires drafted { AreDrafted u32.MAX draft.old done }
    requires room { length (singles (drafted draft.old done)) + run.count ≤ draft.old.room }
    requires order { low ≤ high }
    ensures { IsCut low high run draft.old draft.new done result pool.old pool.new }
{
    let end = run.start + u64::from(run.count);
    let before = (low.max(run.start).min(end) - run.start) as u32;
    let after = (high.max(run.start).min(end) - run.start) as u32;
    let done = append(draft, done, part(run, 0, before));
    give_slots(pool, run.first + before, after - before);
    append(draft, done, part(run, after, run.count - after))
}

/// Unmaps the addresses from one to another in the extents that were gathered, and replaces these
/// in the table by their remaining parts.
pub(crate) fn unmap_range(
    table: &mut RunTable,
    pool: &mut UnlinkedPool,
    gathered: &Gathered,
    draft: &mut Draft,
    low: u64,
    high: u64,
)
    requires ready { IsReady table.old pool.old gathered.now low high }
    requires order { low ≤ high }
    requires empty { draft.old ≡ empty_draft table.old.room }

    // The addresses are unmapped, and only the records and their moves change.
    ensures contents { stored table.new pool.new
        ≡ unmapped (stored table.old pool.old) low (high - low) }
    ensures changes { ChangesExtents (move_bound + (2 * length gathered.now.records + 1))
        table.old table.new pool.new }
    ensures room { draft.new.room ≡ draft.old.room }
{
    let runs = gathered.records();
    let mut done = NO_RUN;
    for i in 0..runs.len() {
        done = unmap_run(pool, draft, done, runs[i], low, high);
    }
    close(draft, done);
    put_runs(table, gathered, draft.records());
}
