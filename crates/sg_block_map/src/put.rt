// Putting runs in the place of the gathered ones. Only this file changes records. The callers
// decide which addresses and slots the runs have.
ghost use Rattle.std.specs.Prelude.{◌≡◌, ◌+◌, ◌≤◌, ◌++◌, ◌∷◌, length, option_to_list};
ghost use Rattle.std.specs.List.{splice};
ghost use Rattle.sg_table.specs.Leaves.{move_bound};
ghost use Rattle.sg_table.specs.Table.{spliced};
ghost use Rattle.sg_block_map.specs.Gathering.{end_index};

use crate::gather::Gathered;
use sg_pool::MAX_SLOTS;
use sg_table::{Run, RunTable};

/// Replaces the gathered runs in the table by others.
// A table that has these runs already stays as it is: a splice costs far more than a comparison.
pub(crate) fn put_runs(table: &mut RunTable, gathered: &Gathered, runs: &[Run])
    requires table_size { length table.old.records ≤ MAX_SLOTS }
    requires within { end_index gathered.now ≤ length table.old.records }
    requires same { splice table.old.records gathered.now.from (end_index gathered.now)
        gathered.now.records ≡ table.old.records }
    requires room { length table.old.records + length runs.now
        ≤ table.old.room + length gathered.now.records }

    ensures table { table.new
        ≡ record (spliced table.old gathered.now.from (end_index gathered.now) runs.now) {
          moved = table.new.moved;
        } }
    ensures moves { table.new.moved ≤ table.old.moved + move_bound + length runs.now }
{
    let old = gathered.records();
    if runs == old {
        return;
    }
    let from = gathered.from();
    table.splice(from, from + old.len(), runs);
}

/// Replaces the gathered runs in the table by one run, with the parts that are kept before and
/// after it.
pub(crate) fn put_parts(
    table: &mut RunTable,
    gathered: &Gathered,
    front: Option<Run>,
    run: Run,
    back: Option<Run>,
)
    requires table_size { length table.old.records ≤ MAX_SLOTS }
    requires within { end_index gathered.now ≤ length table.old.records }
    requires same { splice table.old.records gathered.now.from (end_index gathered.now)
        gathered.now.records ≡ table.old.records }
    requires room { length table.old.records
        + length (option_to_list front ++ run ∷ option_to_list back)
        ≤ table.old.room + length gathered.now.records }

    ensures table { table.new
        ≡ record (spliced table.old gathered.now.from (end_index gathered.now)
        (option_to_list front ++ run ∷ option_to_list back)) { moved = table.new.moved } }
    ensures moves { table.new.moved ≤ table.old.moved + move_bound + 3 }
{
    match (front, back) {
        (None, None) => put_runs(table, gathered, &[run]),
        (Some(front), None) => put_runs(table, gathered, &[front, run]),
        (None, Some(back)) => put_runs(table, gathered, &[run, back]),
        (Some(front), Some(back)) => put_runs(table, gathered, &[front, run, back]),
    }
}
