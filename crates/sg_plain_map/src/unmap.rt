// Unmapping a range: the call frees its slots one by one, and removes its records at once.
ghost use Rattle.std.specs.Prelude.{◌≡◌, ◌+◌};
ghost use Rattle.sg_store.specs.Disk.{unmapped};
ghost use Rattle.sg_table.specs.Leaves.{move_bound};
ghost use Rattle.sg_table.specs.Records.{IsLowerBound};
ghost use Rattle.sg_plain_map.specs.Editing.{ChangesRecords, IsReady, VisitsRange, stored};

use sg_pool::Pool;
use sg_table::RunTable;

/// Frees the slots of a range and removes its records, from one index to another.
pub(crate) fn unmap_records(
    table: &mut RunTable,
    pool: &mut Pool,
    from: usize,
    to: usize,
    lba: u64,
    count: u64,
)
    requires ready { IsReady table.old pool.old from lba count }
    requires end { IsLowerBound table.old.records to (lba + count) }

    // The addresses are unmapped, and only the records, their moves and the visits of the table
    // change.
    ensures contents { stored table.new pool.new ≡ unmapped (stored table.old pool.old) lba count }
    ensures changes { ChangesRecords move_bound table.old table.new pool.new }
    ensures visits { VisitsRange (stored table.old pool.old) lba count table.old table.new }
{
    for index in from..to {
        let run = table.visit(index);
        pool.give(run.first);
    }
    table.splice(from, to, &[]);
}
