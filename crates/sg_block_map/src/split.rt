// Splitting a run in two, by following its chain. A split moves no block and changes no link: the
// parts share the chain.
ghost use Rattle.std.specs.Prelude.{◌≡◌, ◌+◌, ◌-◌, ◌<◌, ◌≤◌, length, option_to_list};
ghost use Rattle.sg_pool.specs.Chains.{chain, slot_after, AreBelow, IsChain};
ghost use Rattle.sg_pool.specs.Slots.{followed};
ghost use Rattle.sg_block_map.specs.Metering.{OnlyFollows};
ghost use Rattle.sg_block_map.specs.Runs.{expanded};
ghost use Rattle.sg_block_map.specs.Splitting.{front_of, rest_of, IsSplit};

use sg_pool::Pool;
use sg_store::MAX_CAPACITY;
use sg_table::Run;

/// The slot that is `count` links after one.
pub(crate) fn follow(pool: &mut Pool, first: u32, count: u32) -> u32
    requires below { AreBelow (length pool.old.next) (chain pool.old.next first count) }
    requires headroom { pool.old.links + count ≤ u64.MAX }
    ensures value { result ≡ slot_after pool.old.next first count }
    ensures pool { OnlyFollows count pool.old pool.new }
{
    pool.follow(first, count)
}

/// The first `count` addresses of a run, and the addresses after them.
fn split(pool: &mut Pool, run: Run, count: u32) -> (Run, Run)
    requires within { (0 < count) × (count < run.count) }
    requires below { AreBelow (length pool.old.next) (chain pool.old.next run.first count) }
    requires range { run.start + run.count ≤ MAX_CAPACITY }
    requires headroom { pool.old.links + count ≤ u64.MAX }
    ensures front { result.0 ≡ front_of pool.old.next run count }
    ensures rest { result.1 ≡ rest_of pool.old.next run count }
    ensures pool { OnlyFollows count pool.old pool.new }
{
    let last = follow(pool, run.first, count - 1);
    let first = pool.next(last);
    let front = Run {
        start: run.start,
        count,
        first: run.first,
        last,
        kind: run.kind,
    };
    let rest = Run {
        start: run.start + u64::from(count),
        count: run.count - count,
        first,
        last: run.last,
        kind: run.kind,
    };
    (front, rest)
}

/// The part of a run before an address, and the part from it on.
pub(crate) fn split_at(pool: &mut Pool, run: Run, lba: u64) -> (Option<Run>, Option<Run>)
    requires chain { IsChain pool.old.next run.first run.last run.count }
    requires below { AreBelow (length pool.old.next) (chain pool.old.next run.first run.count) }
    requires range { run.start + run.count ≤ MAX_CAPACITY }
    requires headroom { pool.old.links + run.count ≤ u64.MAX }
    ensures split { IsSplit pool.old.next run lba result.0 result.1 }

    // The call follows at most as many links as the part before the address has blocks.
    ensures links { OnlyFollows (length (expanded pool.old.next (option_to_list result.0)))
        pool.old pool.new }
{
    if lba <= run.start {
        return (None, Some(run));
    }
    let before = lba - run.start;
    if before >= u64::from(run.count) {
        return (Some(run), None);
    }
    let (front, rest) = split(pool, run, before as u32);
    (Some(front), Some(rest))
}
