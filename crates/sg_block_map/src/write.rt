// Writing a range: the runs near it and its addresses become one run. The store makes sure that
// there are enough slots, and `gather` finds the runs that are near.
ghost use Rattle.std.specs.Prelude.{◌≡◌, ◌+◌, ◌-◌, ◌^◌, ◌<◌, ◌≤◌, ◌++◌, List, length};
ghost use Rattle.std.specs.Prelude.{None, Option, option_to_list, IfSome};
ghost use Rattle.sg_table.specs.Records.{run_at};
ghost use Rattle.sg_table.specs.Occurrences.{occurrences};
ghost use Rattle.sg_pool.specs.Slots.{followed};
ghost use Rattle.sg_pool.specs.Content.{kind_for, mapping_for};
ghost use Rattle.sg_store.specs.Disk.{HasBlockLength};
ghost use Rattle.sg_block_map.specs.Joining.{begun, joined, linked, IsWriting};
ghost use Rattle.sg_block_map.specs.Joining.{CanRemap, GoesOn, IsFinished, PutsAddress};
ghost use Rattle.sg_block_map.specs.Joining.{RemapsRange};
ghost use Rattle.sg_block_map.specs.Metering.{FollowsPassed};
ghost use Rattle.sg_block_map.specs.Runs.{blocks_of, expanded};
ghost use Rattle.sg_block_map.specs.Walking.{ahead_of, AreAhead, IsWalkFrom};

use crate::gather::Gathered;
use crate::overwrite::{covering, overwrite};
use crate::put::put_parts;
use crate::walk::{Walk, walk_from};
use sg_pool::{Content, Pool};
use sg_store::MAX_CAPACITY;
use sg_table::{Kind, Run, RunTable, run_at};

/// The state of a write of a range.
#[derive(Clone, Copy)]
struct Progress {
    // The run of the written addresses, with the data right before the range. At first it may have
    // no address.
    done: Run,
    // The addresses with a slot, from the next address on.
    walk: Walk,
}

/// Joins a run to the end of another, which may have no address yet.
fn join(pool: &mut Pool, done: Run, other: Run) -> Run
    requires slot { 0 < done.count → done.last < length pool.old.next }
    requires used { 0 < done.count → occurrences done.last pool.old.free ≡ 0 }
    requires other { other.first < length pool.old.next }
    requires fits { done.count + other.count < 2 ^ 32 }
    ensures run { result ≡ joined done other }
    ensures pool { pool.new ≡ record pool.old { next = linked pool.old.next done other.first } }
{
    if done.count == 0 {
        return Run {
            start: done.start,
            kind: done.kind,
            ..other
        };
    }
    pool.link(done.last, other.first);
    Run {
        start: done.start,
        count: done.count + other.count,
        first: done.first,
        last: other.last,
        kind: done.kind,
    }
}

/// Puts the address where the run ends, and joins the address to the run. An address that has a
/// slot keeps it, and any other address takes a free slot. A run of data gets the block there.
fn put_address(
    pool: &mut Pool,
    runs: &[Run],
    progress: Progress,
    lba: u64,
    content: &Content,
    index: usize,
) -> Progress
    requires writing { (before : List Run) × (after : List Run) × IsWriting before progress.done
        (ahead_of runs.now progress.walk.run progress.walk.at ++ after) pool.old lba }
    requires free { run_at progress.walk.run lba ≡ None → 0 < length pool.old.free }
    requires range { lba < MAX_CAPACITY }
    requires kind { progress.done.kind ≡ kind_for content.now }
    requires whole { HasBlockLength (mapping_for content.now index) }
    requires headroom { (progress.done.count < u32.MAX) × (pool.old.links < u64.MAX) }

    // The run comes to the next address.
    ensures puts { PutsAddress progress.done result.done
        (ahead_of runs.now progress.walk.run progress.walk.at)
        (ahead_of runs.now result.walk.run result.walk.at) pool.old pool.new lba
        (mapping_for content.now index) }
    ensures goes_on { GoesOn progress.done result.done
        (ahead_of runs.now progress.walk.run progress.walk.at)
        (ahead_of runs.now result.walk.run result.walk.at) pool.old pool.new lba }
    ensures links { FollowsPassed (blocks_of (ahead_of runs.now progress.walk.run progress.walk.at))
        (blocks_of (ahead_of runs.now result.walk.run result.walk.at)) pool.old pool.new }
{
    let Some(run) = run_at(progress.walk.run, lba) else {
        let slot = pool.take();
        pool.fill(slot, content, index);
        let done = join(
            pool,
            progress.done,
            Run::single(lba, slot, progress.done.kind),
        );
        return Progress {
            done,
            walk: progress.walk,
        };
    };
    let walk = progress.walk.pass(pool, runs, run);
    pool.fill(run.first, content, index);
    let done = join(
        pool,
        progress.done,
        Run::single(lba, run.first, progress.done.kind),
    );
    Progress { done, walk }
}

/// Splits the runs at the first address of a range. The part before it is to be joined if it is of
/// the range's kind. Otherwise the part is kept apart.
fn begin(pool: &mut Pool, runs: &[Run], lba: u64, kind: Kind) -> (Option<Run>, Progress)
    requires ahead { AreAhead pool.old.next (length pool.old.next) 0 runs.now }
    requires headroom { pool.old.links + length (expanded pool.old.next runs.now) ≤ u64.MAX }
    ensures front { (front : Option Run)
        × IsWalkFrom pool.old.next runs.now lba front
        (ahead_of runs.now result.1.walk.run result.1.walk.at)
        × ((result.0, result.1.done) ≡ begun kind front lba)
        × (pool.new.links ≤ pool.old.links
        + length (expanded pool.old.next (option_to_list front))) }
    ensures pool { pool.new ≡ followed pool.old (pool.new.links - pool.old.links) }
    ensures rise { pool.old.links ≤ pool.new.links }
{
    let (front, walk) = walk_from(pool, runs, lba);
    let none = Run {
        start: lba,
        count: 0,
        first: 0,
        last: 0,
        kind,
    };
    let Some(run) = front else {
        return (None, Progress { done: none, walk });
    };
    if run.kind == kind {
        return (None, Progress { done: run, walk });
    }
    (front, Progress { done: none, walk })
}

/// Joins the run that is ahead, which meets or touches the end of the range, if it is of the
/// range's kind. Otherwise it keeps the run apart.
fn finish(pool: &mut Pool, progress: Progress) -> (Run, Option<Run>)
    requires slot { 0 < progress.done.count → progress.done.last < length pool.old.next }
    requires used { 0 < progress.done.count → occurrences progress.done.last pool.old.free ≡ 0 }
    requires ahead { IfSome progress.walk.run (λ run. run.first < length pool.old.next) }
    requires fits { IfSome progress.walk.run (λ run. progress.done.count + run.count < 2 ^ 32) }
    ensures { IsFinished pool.old pool.new progress.done progress.walk.run result.0 result.1 }
{
    let Some(run) = progress.walk.run else {
        return (progress.done, None);
    };
    if run.kind == progress.done.kind {
        return (join(pool, progress.done, run), None);
    }
    (progress.done, Some(run))
}

/// Gives the addresses from one on their new content. They and the runs of its kind near them become
/// one run of the table. The addresses that have no slot need free slots.
fn put_range(
    table: &mut RunTable,
    pool: &mut Pool,
    gathered: &Gathered,
    lba: u64,
    count: u32,
    content: &Content,
)
    requires { CanRemap table.old pool.old gathered.now lba count content.now }
    ensures { RemapsRange table.old table.new pool.old pool.new gathered.now lba count
        (mapping_for content.now) }
{
    let runs = gathered.records();
    let (front, mut progress) = begin(pool, runs, lba, content.kind());
    for i in 0..count {
        let address = lba + u64::from(i);
        progress = put_address(pool, runs, progress, address, content, i as usize);
    }
    let (run, back) = finish(pool, progress);
    put_parts(table, gathered, front, run, back);
}

/// Gives the addresses from one on their new content. The addresses that have no slot need free
/// slots.
pub(crate) fn write_runs(
    table: &mut RunTable,
    pool: &mut Pool,
    gathered: &Gathered,
    lba: u64,
    count: u32,
    content: &Content,
)
    requires { CanRemap table.old pool.old gathered.now lba count content.now }
    ensures { RemapsRange table.old table.new pool.old pool.new gathered.now lba count
        (mapping_for content.now) }
{
    let runs = gathered.records();
    if let Content::Blocks(source) = content {
        if let Some(run) = covering(runs, lba, count) {
            overwrite(pool, run, lba, count, source);
            return;
        }
    }
    put_range(table, pool, gathered, lba, count, content);
}
