// Writing a range that lies inside one run: each block goes to the slot that its address has. This
// file knows no table, because no record changes.
ghost use Rattle.std.specs.Prelude.{◌≡◌, ◌+◌, ◌≤◌, ◌++◌, ◌∷◌, List, length, drop, IfSome};
ghost use Rattle.sg_pool.specs.Chains.{chain, AreBelow};
ghost use Rattle.sg_store.specs.Disk.{replaced};
ghost use Rattle.sg_table.specs.declared.run.Kind.TheVariants.{Data};
ghost use Rattle.sg_pool.specs.MappedRecords.{IsConsistent};
ghost use Rattle.sg_pool.specs.Source.{HasBlocks, block_of};
ghost use Rattle.sg_block_map.specs.Metering.{FollowsLinks};
ghost use Rattle.sg_block_map.specs.Overwriting.{ChangesBlocks, LiesInRun};
ghost use Rattle.sg_block_map.specs.Runs.{expanded, chained_contents};
ghost use Rattle.sg_pool.specs.Rising.{end_of};

use crate::split::follow;
use sg_pool::{Pool, Source};
use sg_store::MAX_CAPACITY;
use sg_table::{Kind, Run};

/// The first of some runs, if it is data and has all addresses of the range.
pub(crate) fn covering(runs: &[Run], lba: u64, count: u32) -> Option<Run>
    requires range { lba + count ≤ MAX_CAPACITY }
    ensures kind { IfSome result (λ run. run.kind ≡ Data) }
    ensures first { IfSome result (λ run. runs.now ≡ run ∷ drop 1 runs.now) }
    ensures covers { IfSome result
        (λ run. (run.start ≤ lba) × (lba + count ≤ end_of run)) }
{
    let run = *runs.first()?;
    let covers = run.start <= lba && lba - run.start + u64::from(count) <= u64::from(run.count);
    match run.kind {
        Kind::Data if covers => Some(run),
        _ => None,
    }
}

/// Replaces the blocks of addresses that a run has. It takes no slot and changes no link.
pub(crate) fn overwrite(pool: &mut Pool, run: Run, lba: u64, count: u32, source: &Source)
    requires range { LiesInRun run lba count }
    requires below { AreBelow (length pool.old.next) (chain pool.old.next run.first run.count) }
    requires slots { length pool.old.blocks ≡ length pool.old.next }
    requires blocks { HasBlocks source.now count }
    requires headroom { pool.old.links + run.count ≤ u64.MAX }

    // Whatever runs are before and after.
    ensures contents { (before after : List Run)
        → IsConsistent (expanded pool.old.next (before ++ run ∷ after)) pool.old.blocks
        pool.old.free (length pool.old.next)
        → chained_contents (before ++ run ∷ after) pool.new
        ≡ replaced (chained_contents (before ++ run ∷ after) pool.old) lba count
        (block_of source.now) }
    ensures pool { ChangesBlocks pool.old pool.new }

    // The call follows at most as many links as the run has blocks.
    ensures links { FollowsLinks run.count pool.old pool.new }
{
    let mut slot = follow(pool, run.first, (lba - run.start) as u32);
    for i in 0..count {
        pool.set(slot, source.block(i as usize));
        slot = pool.next(slot);
    }
}
