// Comparing a range with the blocks of a source. This file knows no table.
ghost use Rattle.std.specs.Prelude.{◌≡◌, ◌+◌, ◌≤◌, length, drop};
ghost use Rattle.sg_store.specs.Comparison.{compared};
ghost use Rattle.sg_store.specs.Disk.{blocks};
ghost use Rattle.sg_pool.specs.MappedRecords.{contents_of};
ghost use Rattle.sg_pool.specs.Source.{HasBlocks, joined_blocks};
ghost use Rattle.sg_extent_map.specs.Extents.{singles};
ghost use Rattle.sg_extent_map.specs.Walking.{AreAhead};

use crate::walk::Walk;
use sg_pool::{Source, UnlinkedPool};
use sg_store::{MAX_CAPACITY, Miscompare};
use sg_table::Run;

/// Compares the blocks from an address on with the blocks of a source. No other extents than the
/// given ones have addresses of the range.
///
/// # Errors
/// A byte differs.
pub(crate) fn compare_runs(
    pool: &UnlinkedPool,
    runs: &[Run],
    lba: u64,
    count: u32,
    source: &Source,
) -> Result<(), Miscompare>
    requires ahead { AreAhead (length pool.now.blocks) 0 runs.now }
    requires rest { AreAhead (length pool.now.blocks) lba (drop 1 runs.now) }
    requires pool { length pool.now.blocks ≤ u32.MAX }
    requires range { lba + count ≤ MAX_CAPACITY }
    requires whole { HasBlocks source.now count }
    ensures { result
        ≡ compared (blocks (contents_of (singles runs.now) pool.now.blocks) lba count)
        (joined_blocks source.now count) }
{
    let (_before, mut walk) = Walk::begin(runs, lba);
    for i in 0..count {
        let (found, next) = walk.pass(runs, lba + u64::from(i));
        source.compare(i, pool.found_block(found))?;
        walk = next;
    }
    Ok(())
}
