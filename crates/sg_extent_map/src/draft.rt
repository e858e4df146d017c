// Drafting the new extents of a range. A run that goes on where the last one ends lengthens it. So
// no two drafted extents could be one.
ghost use Rattle.std.specs.Prelude.{◌≡◌, ℕ, ◌+◌, ◌<◌, ◌≤◌, ◌++◌, length};
ghost use Rattle.std.specs.List.{All};
ghost use Rattle.sg_extent_map.specs.Drafting.{drafted, AreDrafted, Appends, IsMaximalDraft};
ghost use Rattle.sg_extent_map.specs.Extents.{continues, singles, AreMaximal, IsExtent, IsPart};
ghost use Rattle.sg_extent_map.specs.Walking.{ahead_of};

use crate::walk::Walk;
use sg_store::MAX_CAPACITY;
use sg_table::{Draft, Run};

/// Whether a run goes on where another ends: in its addresses, its slots and its kind.
fn continues(done: Run, run: Run) -> bool
    requires range { done.start + done.count ≤ MAX_CAPACITY }
    requires slots { done.first + done.count ≤ u32.MAX }
    ensures { result ≡ continues done run }
{
    run.kind == done.kind
        && run.start == done.start + u64::from(done.count)
        && run.first == done.first + done.count
}

/// Drafts the addresses of a run after the others, and returns the extent that may still grow.
pub(crate) fn append(draft: &mut Draft, done: Run, run: Run) -> Run
    requires drafted { AreDrafted u32.MAX draft.old done }
    requires run { IsPart u32.MAX run }
    requires room { length (singles (drafted draft.old done)) ≤ draft.old.room }
    ensures { Appends draft.old draft.new done result run }
{
    if run.count == 0 {
        return done;
    }
    if done.count == 0 {
        return run;
    }
    if continues(done, run) {
        return Run {
            count: done.count + run.count,
            last: run.last,
            ..done
        };
    }
    draft.push(done);
    run
}

/// Drafts the addresses that are ahead.
fn append_ahead(draft: &mut Draft, done: Run, runs: &[Run], walk: Walk) -> Run
    requires drafted { AreDrafted u32.MAX draft.old done }
    requires ahead { All (IsExtent u32.MAX) (ahead_of runs.now walk.run walk.at) }
    requires room { length (singles (drafted draft.old done))
        + length (singles (ahead_of runs.now walk.run walk.at)) ≤ draft.old.room }
    ensures addresses { singles (drafted draft.new result) ≡ singles (drafted draft.old done)
        ++ singles (ahead_of runs.now walk.run walk.at) }
    ensures extents { (pool : ℕ) → AreDrafted pool draft.old done
        → All (IsExtent pool) (ahead_of runs.now walk.run walk.at)
        → AreDrafted pool draft.new result }
    ensures maximal { IsMaximalDraft draft.old done → IsMaximalDraft draft.new result }
    ensures longer { length draft.new.records ≤ length draft.old.records
        + length (ahead_of runs.now walk.run walk.at) }
    ensures room { draft.new.room ≡ draft.old.room }
{
    let Some(run) = walk.run else {
        return done;
    };
    let mut done = append(draft, done, run);
    for at in walk.at..runs.len() {
        done = append(draft, done, runs[at]);
    }
    done
}

/// Ends the draft: the extent that may still grow is the last one.
pub(crate) fn close(draft: &mut Draft, done: Run)
    requires drafted { AreDrafted u32.MAX draft.old done }
    requires room { length (singles (drafted draft.old done)) ≤ draft.old.room }
    ensures addresses { singles draft.new.records ≡ singles (drafted draft.old done) }
    ensures extents { (pool : ℕ) → AreDrafted pool draft.old done
        → All (IsExtent pool) draft.new.records }
    ensures maximal { IsMaximalDraft draft.old done → AreMaximal draft.new.records }
    ensures longer { length draft.new.records ≤ length draft.old.records + 1 }
    ensures room { draft.new.room ≡ draft.old.room }
{
    if done.count > 0 {
        draft.push(done);
    }
}

/// Drafts the addresses that are ahead, and ends the draft.
pub(crate) fn finish(draft: &mut Draft, done: Run, runs: &[Run], walk: Walk)
    requires drafted { AreDrafted u32.MAX draft.old done }
    requires ahead { All (IsExtent u32.MAX) (ahead_of runs.now walk.run walk.at) }
    requires room { length (singles (drafted draft.old done))
        + length (singles (ahead_of runs.now walk.run walk.at)) ≤ draft.old.room }
    ensures addresses { singles draft.new.records ≡ singles (drafted draft.old done)
        ++ singles (ahead_of runs.now walk.run walk.at) }
    ensures extents { (pool : ℕ) → AreDrafted pool draft.old done
        → All (IsExtent pool) (ahead_of runs.now walk.run walk.at)
        → All (IsExtent pool) draft.new.records }
    ensures maximal { IsMaximalDraft draft.old done → AreMaximal draft.new.records }
    ensures longer { length draft.new.records ≤ length draft.old.records
        + length (ahead_of runs.now walk.run walk.at) + 1 }
    ensures room { draft.new.room ≡ draft.old.room }
{
    let done = append_ahead(draft, done, runs, walk);
    close(draft, done);
}
