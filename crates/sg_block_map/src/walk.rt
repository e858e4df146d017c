// Going over the addresses of runs in a row, one link of the pool for each. This file knows a list
// of runs, and not the table.
ghost use Rattle.std.specs.Prelude.{◌≡◌, ◌+◌, ◌<◌, ◌≤◌, length, drop, option_to_list};
ghost use Rattle.sg_block_map.specs.Metering.{OnlyFollows};
ghost use Rattle.sg_block_map.specs.Runs.{expanded};
ghost use Rattle.sg_block_map.specs.Walking.{ahead_of, passed, AreAhead, IsWalkFrom};

use crate::split::split_at;
use sg_pool::Pool;
use sg_store::MAX_CAPACITY;
use sg_table::Run;

/// The addresses that are ahead in a list of runs.
#[derive(Clone, Copy)]
pub(crate) struct Walk {
    /// The addresses of a run that are ahead: the walk may have passed the first ones. None at the
    /// end of the list.
    pub(crate) run: Option<Run>,
    /// The index of the next run.
    pub(crate) at: usize,
}

impl Walk {
    /// The runs from an index on are ahead.
    pub(crate) fn new(runs: &[Run], at: usize) -> Walk
        ensures { ahead_of runs.now result.run result.at ≡ drop at runs.now }
    {
        if at < runs.len() {
            return Walk {
                run: Some(runs[at]),
                at: at + 1,
            };
        }
        Walk { run: None, at }
    }

    /// Passes the first address of the run, which is the first one ahead.
    pub(crate) fn pass(self, pool: &mut Pool, runs: &[Run], run: Run) -> Walk
        requires not_empty { 0 < run.count }
        requires range { run.start < MAX_CAPACITY }
        requires slot { run.first < length pool.old.next }
        requires headroom { pool.old.links < u64.MAX }
        ensures ahead { ahead_of runs.now result.run result.at
            ≡ passed pool.old.next run (drop self.at runs.now) }

        // The walk follows at most one link.
        ensures links { OnlyFollows 1 pool.old pool.new }
    {
        if run.count == 1 {
            return Walk::new(runs, self.at);
        }
        let first = pool.next(run.first);
        let rest = Run {
            start: run.start + 1,
            count: run.count - 1,
            first,
            last: run.last,
            kind: run.kind,
        };
        Walk {
            run: Some(rest),
            at: self.at,
        }
    }
}

/// The walk over the runs from an address on, and the part of the first run before the address.
pub(crate) fn walk_from(pool: &mut Pool, runs: &[Run], lba: u64) -> (Option<Run>, Walk)
    requires ahead { AreAhead pool.old.next (length pool.old.next) 0 runs.now }
    requires headroom { pool.old.links + length (expanded pool.old.next runs.now) ≤ u64.MAX }
    ensures walk { IsWalkFrom pool.old.next runs.now lba result.0
        (ahead_of runs.now result.1.run result.1.at) }

    // The call follows at most as many links as the part before the address has blocks.
    ensures links { OnlyFollows (length (expanded pool.old.next (option_to_list result.0)))
        pool.old pool.new }
{
    let walk = Walk::new(runs, 0);
    let Some(run) = walk.run else {
        return (None, walk);
    };
    let (front, rest) = split_at(pool, run, lba);
    if rest.is_none() {
        return (front, Walk::new(runs, 1));
    }
    (front, Walk { run: rest, at: 1 })
}
