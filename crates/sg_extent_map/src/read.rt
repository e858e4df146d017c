// Reading a range from the extents near it. This file knows no table.
ghost use Rattle.std.specs.Prelude.{◌≡◌, ◌+◌, ◌*◌, ◌<◌, ◌≤◌, length, IfSome, drop, option_map};
ghost use Rattle.sg_store.specs.Disk.{blocks, data_in};
ghost use Rattle.sg_pool.specs.MappedRecords.{contents_of, mapping_in};
ghost use Rattle.sg_table.specs.declared.run.Run.{Run as RunModel};
ghost use Rattle.sg_extent_map.specs.Extents.{singles};
ghost use Rattle.sg_extent_map.specs.Walking.{AreAhead};

use crate::walk::Walk;
use sg_pool::UnlinkedPool;
use sg_store::{BLOCK_LENGTH, MAX_CAPACITY};
use sg_table::Run;

/// Reads the block of a record, or zeros if there is none.
fn read_found(pool: &UnlinkedPool, found: Option<Run>, bytes: &mut [u8])
    requires slot { IfSome found (λ run. run.first < length pool.now.blocks) }
    requires byte_count { length bytes.old ≡ BLOCK_LENGTH }
    ensures { bytes.new ≡ data_in (option_map (λ (run : RunModel).
        mapping_in pool.now.blocks run.first run.kind) found) }
{
    match found {
        Some(run) => pool.read_first(run, bytes),
        None => bytes.fill(0),
    }
}

/// Reads the blocks from an address on. No other extents than the given ones have addresses of the
/// range.
pub(crate) fn read_runs(pool: &UnlinkedPool, runs: &[Run], lba: u64, count: u32, bytes: &mut [u8])
    requires ahead { AreAhead (length pool.now.blocks) 0 runs.now }
    requires rest { AreAhead (length pool.now.blocks) lba (drop 1 runs.now) }
    requires pool { length pool.now.blocks ≤ u32.MAX }
    requires range { lba + count ≤ MAX_CAPACITY }
    requires byte_count { length bytes.old ≡ BLOCK_LENGTH * count }
    ensures { bytes.new ≡ blocks (contents_of (singles runs.now) pool.now.blocks) lba count }
{
    let (_before, mut walk) = Walk::begin(runs, lba);
    for i in 0..count {
        let at = BLOCK_LENGTH * (i as usize);
        let block = &mut bytes[at..at + BLOCK_LENGTH];
        let (found, next) = walk.pass(runs, lba + u64::from(i));
        read_found(pool, found, block);
        walk = next;
    }
}
