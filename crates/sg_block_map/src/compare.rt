// Comparing a range with the blocks of a source. This file follows links of the pool and knows no
// table.
ghost use Rattle.std.specs.Prelude.{◌≡◌, ◌+◌, ◌<◌, ◌≤◌, length, option_map, IfSome};
ghost use Rattle.sg_store.specs.Comparison.{compared};
ghost use Rattle.sg_store.specs.Disk.{block, blocks, data_in};
ghost use Rattle.sg_pool.specs.MappedRecords.{mapping_in};
ghost use Rattle.sg_pool.specs.Source.{HasBlocks, joined_blocks};
ghost use Rattle.sg_table.specs.declared.run.Run.{Run as RunModel};
ghost use Rattle.sg_block_map.specs.Gathering.{AreNear};
ghost use Rattle.sg_block_map.specs.Metering.{OnlyFollows, OnlyFollowsPassed};
ghost use Rattle.sg_block_map.specs.Runs.{expanded, chained_contents};
ghost use Rattle.sg_block_map.specs.Walking.{ahead_of, AreAhead, GoesPast};

use crate::walk::{Walk, walk_from};
use sg_pool::{Pool, Source};
use sg_store::{MAX_CAPACITY, Miscompare};
use sg_table::{Run, run_at};

/// The run of an address, if it has one: it begins there. The walk goes on to the next address.
fn pass_address(pool: &mut Pool, runs: &[Run], walk: Walk, lba: u64) -> (Option<Run>, Walk)
    requires ahead { AreAhead pool.old.next (length pool.old.next) lba
        (ahead_of runs.now walk.run walk.at) }
    requires pool { length pool.old.blocks ≡ length pool.old.next }
    requires range { lba < MAX_CAPACITY }
    requires headroom { pool.old.links < u64.MAX }

    // The block of the run is that of the address, and the runs from the next address on are ahead.
    ensures slot { IfSome result.0 (λ run. run.first < length pool.old.blocks) }
    ensures block { data_in (option_map (λ (run : RunModel).
        mapping_in pool.old.blocks run.first run.kind) result.0)
        ≡ block (chained_contents (ahead_of runs.now walk.run walk.at) pool.old) lba }
    ensures goes_past { GoesPast pool.old (ahead_of runs.now walk.run walk.at)
        (ahead_of runs.now result.1.run result.1.at) lba }

    // The walk follows a link only if it passes an address.
    ensures links { OnlyFollowsPassed
        (length (expanded pool.old.next (ahead_of runs.now walk.run walk.at)))
        (length (expanded pool.old.next (ahead_of runs.now result.1.run result.1.at)))
        pool.old pool.new }
{
    let Some(run) = run_at(walk.run, lba) else {
        return (None, walk);
    };
    let ahead = walk.pass(pool, runs, run);
    (Some(run), ahead)
}

/// Compares the blocks from an address on with the blocks of a source. The runs meet or touch the
/// range, and no other run does.
///
/// # Errors
/// A byte differs.
pub(crate) fn compare_runs(
    pool: &mut Pool,
    runs: &[Run],
    lba: u64,
    count: u32,
    source: &Source,
) -> Result<(), Miscompare>
    requires ahead { AreAhead pool.old.next (length pool.old.next) 0 runs.now }
    requires near { AreNear lba (lba + count) runs.now }
    requires pool { length pool.old.blocks ≡ length pool.old.next }
    requires range { lba + count ≤ MAX_CAPACITY }
    requires whole { HasBlocks source.now count }
    requires headroom { pool.old.links + length (expanded pool.old.next runs.now) < u64.MAX }
    ensures value { result ≡ compared (blocks (chained_contents runs.now pool.old) lba count)
        (joined_blocks source.now count) }

    // The call follows at most as many links as the runs have blocks.
    ensures links { OnlyFollows (length (expanded pool.old.next runs.now)) pool.old pool.new }
{
    let (_before, mut walk) = walk_from(pool, runs, lba);
    for i in 0..count {
        let (found, next) = pass_address(pool, runs, walk, lba + u64::from(i));
        source.compare(i, pool.found_block(found))?;
        walk = next;
    }
    Ok(())
}
