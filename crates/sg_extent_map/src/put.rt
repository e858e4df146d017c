// Putting extents in the place of the gathered ones. Only this file changes records.
ghost use Rattle.std.specs.Prelude.{◌≡◌, ◌+◌, ◌≤◌, length};
ghost use Rattle.std.specs.List.{splice};
ghost use Rattle.sg_table.specs.Leaves.{move_bound};
ghost use Rattle.sg_table.specs.Table.{spliced};
ghost use Rattle.sg_extent_map.specs.Gathering.{end_index};

use crate::gather::Gathered;
use sg_store::MAX_POOL;
use sg_table::{Run, RunTable};

/// Replaces the gathered extents in the table by others.
// A table that has these extents already stays as it is: a splice costs far more than a comparison.
pub(crate) fn put_runs(table: &mut RunTable, gathered: &Gathered, runs: &[Run])
    requires table_size { length table.old.records ≤ MAX_POOL }
    requires within { end_index gathered.now ≤ length table.old.records }
    requires same { splice table.old.records gathered.now.from (end_index gathered.now)
        gathered.now.records ≡ table.old.records }
    requires room { length table.old.records + length runs.now
        ≤ table.old.room + length gathered.now.records }

    ensures table { table.new
        ≡ record (spliced table.old gathered.now.from (end_index gathered.now) runs.now) {
          moved = table.new.moved;
        } }
    ensures moves { table.new.moved ≤ table.old.moved + move_bound + length runs.now }
{
    let old = gathered.records();
    if runs == old {
        return;
    }
    let from = gathered.from();
    table.splice(from, from + old.len(), runs);
}
