// Reading a range from the runs near it. This file follows links of the pool and knows no table.
ghost use Rattle.std.specs.Prelude.{◌≡◌, ◌+◌, ◌*◌, ◌<◌, ◌≤◌, length, take, IfSome};
ghost use Rattle.sg_store.specs.Disk.{block, blocks};
ghost use Rattle.sg_block_map.specs.Gathering.{AreNear};
ghost use Rattle.sg_block_map.specs.Metering.{OnlyFollows, OnlyFollowsPassed};
ghost use Rattle.sg_block_map.specs.Runs.{expanded, chained_contents};
ghost use Rattle.sg_block_map.specs.Walking.{ahead_of, AreAhead, GoesPast};

use crate::walk::{Walk, walk_from};
use sg_pool::Pool;
use sg_store::{BLOCK_LENGTH, MAX_CAPACITY};
use sg_table::{Run, run_at};

/// Copies the first byte of the next block, if a run is ahead and the bytes have room for it. So the
/// processor fetches that block from memory while it still copies the block before it. The blocks of
/// a range may lie far apart, and then a read spends most of its time on waiting for them.
fn begin_next(pool: &Pool, slot: u32, ahead: Option<Run>, bytes: &mut [u8])
    requires slot { IfSome ahead (λ run. run.first < length pool.now.blocks) }
{
    let Some(run) = ahead else {
        return;
    };
    // The processor goes on to a block right after this one by itself.
    if run.first == slot.wrapping_add(1) {
        return;
    }
    if let Some(byte) = bytes.get_mut(BLOCK_LENGTH) {
        *byte = pool.bytes(run.first)[0];
    }
}

/// Reads the block at an address into the first bytes, and goes on to the next address. The other
/// bytes are for later addresses.
fn read_address(pool: &mut Pool, runs: &[Run], walk: Walk, lba: u64, bytes: &mut [u8]) -> Walk
    requires ahead { AreAhead pool.old.next (length pool.old.next) lba
        (ahead_of runs.now walk.run walk.at) }
    requires pool { length pool.old.blocks ≡ length pool.old.next }
    requires range { lba < MAX_CAPACITY }
    requires byte_count { BLOCK_LENGTH ≤ length bytes.old }
    requires headroom { pool.old.links < u64.MAX }

    // The block is read, and the runs from the next address on are ahead.
    ensures bytes { take BLOCK_LENGTH bytes.new
        ≡ block (chained_contents (ahead_of runs.now walk.run walk.at) pool.old) lba }
    ensures goes_past { GoesPast pool.old (ahead_of runs.now walk.run walk.at)
        (ahead_of runs.now result.run result.at) lba }

    // The read follows a link only if it passes an address.
    ensures links { OnlyFollowsPassed
        (length (expanded pool.old.next (ahead_of runs.now walk.run walk.at)))
        (length (expanded pool.old.next (ahead_of runs.now result.run result.at)))
        pool.old pool.new }
{
    let Some(run) = run_at(walk.run, lba) else {
        bytes[..BLOCK_LENGTH].fill(0);
        return walk;
    };
    let ahead = walk.pass(pool, runs, run);
    begin_next(pool, run.first, ahead.run, bytes);
    pool.read_first(run, &mut bytes[..BLOCK_LENGTH]);
    ahead
}

/// Reads the blocks from an address on. The runs meet or touch the range, and no other run does.
pub(crate) fn read_runs(pool: &mut Pool, runs: &[Run], lba: u64, count: u32, bytes: &mut [u8])
    requires ahead { AreAhead pool.old.next (length pool.old.next) 0 runs.now }
    requires near { AreNear lba (lba + count) runs.now }
    requires pool { length pool.old.blocks ≡ length pool.old.next }
    requires range { lba + count ≤ MAX_CAPACITY }
    requires byte_count { length bytes.old ≡ BLOCK_LENGTH * count }
    requires headroom { pool.old.links + length (expanded pool.old.next runs.now) < u64.MAX }
    ensures bytes { bytes.new ≡ blocks (chained_contents runs.now pool.old) lba count }

    // The call follows at most as many links as the runs have blocks.
    ensures links { OnlyFollows (length (expanded pool.old.next runs.now)) pool.old pool.new }
{
    let (_before, mut walk) = walk_from(pool, runs, lba);
    for i in 0..count {
        let at = BLOCK_LENGTH * (i as usize);
        walk = read_address(pool, runs, walk, lba + u64::from(i), &mut bytes[at..]);
    }
}
