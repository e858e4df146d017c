// Writing or anchoring a range: the call drafts the extents that the range is to have, and puts
// them into the table at once. The store makes sure that there are enough slots, and `gather` finds
// the extents that are near.
ghost use Rattle.std.specs.Prelude.{◌≡◌, ℕ, ◌+◌, ◌<◌, ◌≤◌, IfSome, None, length};
ghost use Rattle.sg_table.specs.Occurrences.{occurrences};
ghost use Rattle.sg_store.specs.Disk.{HasBlockLength, remapped, used_among};
ghost use Rattle.sg_table.specs.Draft.{empty_draft};
ghost use Rattle.sg_table.specs.Leaves.{move_bound};
ghost use Rattle.sg_pool.specs.Content.{HasMappings, mapping_for};
ghost use Rattle.sg_extent_map.specs.Extents.{stored};
ghost use Rattle.sg_extent_map.specs.Writing.{PutsBlock, IsReady, ChangesExtents};

use crate::draft::{append, finish};
use crate::gather::Gathered;
use crate::put::put_runs;
use crate::walk::Walk;
use sg_pool::{Content, UnlinkedPool};
use sg_store::MAX_CAPACITY;
use sg_table::{Draft, Run, RunTable};

/// Puts the block for an index of the range into the slot of a record, or into a free slot if there
/// is no record. Returns the slot.
fn put_block(pool: &mut UnlinkedPool, found: Option<Run>, content: &Content, index: usize) -> u32
    requires slot { IfSome found (λ run. run.first < length pool.old.blocks) }
    requires free { found ≡ None → 0 < length pool.old.free }
    requires below { (slot : ℕ) → 0 < occurrences slot pool.old.free
        → slot < length pool.old.blocks }
    requires whole { HasBlockLength (mapping_for content.now index) }
    ensures { PutsBlock found pool.old pool.new (mapping_for content.now index) result }
{
    let Some(run) = found else {
        let slot = pool.take();
        pool.fill(slot, content, index);
        return slot;
    };
    pool.fill(run.first, content, index);
    run.first
}

/// The addresses from one on.
#[derive(Clone, Copy)]
pub(crate) struct Range {
    pub(crate) lba: u64,
    pub(crate) count: u32,
}

/// Gives the addresses of a range their new content. The addresses without a slot need free slots.
pub(crate) fn put_range(
    table: &mut RunTable,
    pool: &mut UnlinkedPool,
    gathered: &Gathered,
    draft: &mut Draft,
    range: Range,
    content: &Content,
)
    requires ready { IsReady table.old pool.old gathered.now range.lba (range.lba + range.count) }
    requires range { range.lba + range.count ≤ MAX_CAPACITY }
    requires whole { HasMappings content.now range.count }
    requires free { range.count ≤ length pool.old.free
        + used_among (stored table.old pool.old) range.lba range.count }
    requires empty { draft.old ≡ empty_draft table.old.room }

    // The addresses are remapped, and only the records and their moves change.
    ensures contents { stored table.new pool.new
        ≡ remapped (stored table.old pool.old) range.lba range.count (mapping_for content.now) }
    ensures changes { ChangesExtents (move_bound + (range.count + length gathered.now.records + 1))
        table.old table.new pool.new }
    ensures room { draft.new.room ≡ draft.old.room }
{
    let Range { lba, count } = range;
    let runs = gathered.records();
    let (mut done, mut walk) = Walk::begin(runs, lba);
    for i in 0..count {
        let address = lba + u64::from(i);
        let (found, next) = walk.pass(runs, address);
        let slot = put_block(pool, found, content, i as usize);
        done = append(draft, done, Run::single(address, slot, content.kind()));
        walk = next;
    }
    finish(draft, done, runs, walk);
    put_runs(table, gathered, draft.records());
}
