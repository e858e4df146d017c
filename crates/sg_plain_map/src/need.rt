// Counting the addresses of a range that have a block of the pool. The count visits their records
// and changes nothing.
ghost use Rattle.std.specs.Prelude.{◌≡◌, ◌+◌, ◌-◌, ◌<◌, ◌≤◌, length};
ghost use Rattle.sg_table.specs.Table.{visited};

use sg_table::RunTable;

/// Visits the records from one index to another.
pub(crate) fn visit_records(table: &mut RunTable, from: usize, to: usize)
    requires range { (from ≤ to) × (to ≤ length table.old.records) }
    requires headroom { table.old.visits + (to - from) < u64.MAX }
    ensures { table.new ≡ visited table.old (to - from) }
{
    for index in from..to {
        let _ = table.visit(index);
    }
}
