// Going over the addresses of extents in a row. This file knows a list of extents, and not the
// table.
ghost use Rattle.std.specs.Prelude.{◌≡◌, ◌+◌, ◌<◌, ◌≤◌, ℕ, drop};
ghost use Rattle.sg_extent_map.specs.Extents.{part_of};
ghost use Rattle.sg_extent_map.specs.Walking.{ahead_of, AreAhead, IsBegun, Passes};

use sg_store::MAX_CAPACITY;
use sg_table::{Kind, Run, run_at};

/// A run of no address.
pub(crate) const NO_RUN: Run = Run {
    start: 0,
    count: 0,
    first: 0,
    last: 0,
    kind: Kind::Data,
};

/// `count` addresses of an extent, after the first `skip`. None at all is a run of no address.
pub(crate) fn part(run: Run, skip: u32, count: u32) -> Run
    requires within { skip + count ≤ run.count }
    requires range { run.start + run.count ≤ MAX_CAPACITY }
    requires slots { run.first + run.count ≤ u32.MAX }
    ensures { result ≡ part_of run skip count }
{
    let first = run.first + skip;
    Run {
        start: run.start + u64::from(skip),
        count,
        first,
        last: (first + count).saturating_sub(1),
        kind: run.kind,
    }
}

/// The addresses that are ahead in a list of extents.
#[derive(Clone, Copy)]
pub(crate) struct Walk {
    /// The addresses of an extent that are ahead: the walk may have passed the first ones. None at
    /// the end of the list.
    pub(crate) run: Option<Run>,
    /// The index of the next extent.
    pub(crate) at: usize,
}

impl Walk {
    /// The extents from an index on are ahead.
    fn new(runs: &[Run], at: usize) -> Walk
        ensures { ahead_of runs.now result.run result.at ≡ drop at runs.now }
    {
        if at < runs.len() {
            return Walk {
                run: Some(runs[at]),
                at: at + 1,
            };
        }
        Walk { run: None, at }
    }

    /// The addresses from one on are ahead. The part of the first extent before it is apart.
    pub(crate) fn begin(runs: &[Run], lba: u64) -> (Run, Walk)
        requires ahead { AreAhead u32.MAX 0 runs.now }
        requires rest { AreAhead u32.MAX lba (drop 1 runs.now) }
        ensures { (pool : ℕ) → AreAhead pool 0 runs.now → IsBegun pool lba runs.now result.0
            (ahead_of runs.now result.1.run result.1.at) }
    {
        let walk = Walk::new(runs, 0);
        let Some(run) = walk.run else {
            return (NO_RUN, walk);
        };
        if lba <= run.start {
            return (NO_RUN, walk);
        }
        let before = lba - run.start;
        if before >= u64::from(run.count) {
            return (run, Walk::new(runs, 1));
        }
        let before = before as u32;
        let rest = part(run, before, run.count - before);
        let walk = Walk {
            run: Some(rest),
            at: 1,
        };
        (part(run, 0, before), walk)
    }

    /// The record of an address, if it has one, and the walk from the next address on.
    pub(crate) fn pass(self, runs: &[Run], lba: u64) -> (Option<Run>, Walk)
        requires ahead { AreAhead u32.MAX lba (ahead_of runs.now self.run self.at) }
        requires range { lba < MAX_CAPACITY }
        ensures { (pool : ℕ) → AreAhead pool lba (ahead_of runs.now self.run self.at)
            → Passes pool lba (ahead_of runs.now self.run self.at) result.0
            (ahead_of runs.now result.1.run result.1.at) }
    {
        let Some(run) = run_at(self.run, lba) else {
            return (None, self);
        };
        let found = Some(Run::single(lba, run.first, run.kind));
        if run.count == 1 {
            return (found, Walk::new(runs, self.at));
        }
        let rest = Walk {
            run: Some(part(run, 1, run.count - 1)),
            at: self.at,
        };
        (found, rest)
    }
}
