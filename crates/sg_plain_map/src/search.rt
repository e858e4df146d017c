// The search for an address. A call of the store makes two searches at most. The pool is so small
// that together they compare no more addresses than a call may.
ghost use Rattle.std.specs.Prelude.{◌≡◌, ◌+◌, ◌-◌, ◌≤◌, length};
ghost use Rattle.sg_table.specs.Records.{IsLowerBound, IsSorted};
ghost use Rattle.sg_table.specs.Table.{probed, search_bound};

use sg_pool::MAX_SLOTS;
use sg_table::RunTable;

/// The index of the first record that is not before an address.
pub(crate) fn lower_bound(table: &mut RunTable, address: u64) -> usize
    requires sorted { IsSorted table.old.records }
    requires table_size { length table.old.records ≤ MAX_SLOTS }
    requires headroom { table.old.probes + search_bound ≤ u64.MAX }
    ensures index { IsLowerBound table.old.records result address }

    // The call counts only probes, 32 at most.
    ensures table { table.new ≡ probed table.old (table.new.probes - table.old.probes) }
    ensures probes_rise { table.old.probes ≤ table.new.probes }
    ensures probe_count { table.new.probes ≤ table.old.probes + 32 }
{
    table.lower_bound(address)
}
