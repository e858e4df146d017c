// GET LBA STATUS over a table of runs: the first run of a range, and the descriptors one by one.
// This file knows no slot and no block: the status of addresses is in the table.
ghost use Rattle.std.specs.Prelude.{◌≡◌, ◌+◌, ◌-◌, ◌<◌, ◌≤◌, ℕ, length};
ghost use Rattle.sg_store.specs.LbaStatus.{covered, descriptor_at, descriptors_from};
ghost use Rattle.sg_store.specs.PutDescriptors.{PutsDescriptors};
ghost use Rattle.sg_table.specs.Records.{ahead, passed};
ghost use Rattle.sg_pool.specs.Slots.{Slots};
ghost use Rattle.sg_table.specs.Table.{visited};
ghost use Rattle.sg_block_map.specs.Metering.{VisitsBetween, SearchesAndVisits};
ghost use Rattle.sg_block_map.specs.Runs.{chained_contents};
ghost use Rattle.sg_block_map.specs.Status.{IsOver, IsRunTable, MeetsRange, records_met, run_over};

use sg_pool::{MAX_SLOTS, status_of};
use sg_store::MAX_COUNT;
use sg_store::lba_status::{MAX_ADDRESSES, MAX_DESCRIPTORS, ProvisioningStatus, StatusDescriptor};
use sg_table::{Cursor, Run, RunTable};
use sg_wire::Cut;
use sg_wire::laws::parts_are_put_in_turn;

/// The cursor at the first run that has an address or one past it.
pub(crate) fn cursor_over(table: &mut RunTable, lba: u64) -> Cursor
    requires table { (capacity : ℕ) × IsRunTable capacity table.old.records }
    requires headroom { (table.old.probes ≤ MAX_COUNT) × (table.old.visits ≤ MAX_COUNT) }
    ensures cursor { IsOver table.old.records result lba }

    // The call visits the run, and at most one more.
    ensures visits { SearchesAndVisits (ahead result.next) (ahead result.next + 1)
        table.old table.new }
{
    let index = table.lower_bound(lba);
    if index == 0 {
        return Cursor::new(table, index);
    }
    let run = table.visit(index - 1);
    if lba - run.start < u64::from(run.count) {
        let next = Some(run);
        return Cursor {
            index: index - 1,
            next,
        };
    }
    Cursor::new(table, index)
}

/// The cursor's run, if it has the address or one before it.
fn run_over(cursor: Cursor, lba: u64) -> Option<Run>
    ensures { result ≡ run_over cursor.next lba }
{
    let run = cursor.next?;
    if run.start <= lba { Some(run) } else { None }
}

/// The descriptor that begins at an address, and the cursor where it ends.
fn describe(
    table: &mut RunTable,
    cursor: Cursor,
    lba: u64,
    capacity: u64,
) -> (StatusDescriptor, Cursor)
    requires cursor { IsOver table.old.records cursor lba }
    requires table { IsRunTable capacity table.old.records }
    requires address { lba < capacity }
    requires headroom { table.old.visits < u64.MAX }

    // The status of addresses does not depend on their slots.
    ensures descriptor { (slots : Slots) →
        result.0 ≡ descriptor_at (chained_contents table.old.records slots) capacity lba }
    ensures cursor { IsOver table.old.records result.1 (lba + result.0.count) }

    // The runs that the cursor goes past have addresses of the descriptor, and no other runs have.
    ensures met { MeetsRange table.old.records cursor.index result.1.index lba result.0.count }
    ensures cost { visited table.new (passed cursor) ≡ visited table.old (passed result.1) }
{
    let Some(run) = run_over(cursor, lba) else {
        let count = cursor.count_unmapped(lba, capacity, MAX_ADDRESSES);
        let status = ProvisioningStatus::Deallocated;
        return (StatusDescriptor { lba, count, status }, cursor);
    };
    let count = (run.start + u64::from(run.count) - lba) as u32;
    let status = status_of(run.kind);
    let end = Cursor::new(table, cursor.index + 1);
    (StatusDescriptor { lba, count, status }, end)
}

/// Writes the descriptors from an address on as they are found, and returns how many there are.
pub(crate) fn write_descriptors(
    table: &mut RunTable,
    cursor: Cursor,
    lba: u64,
    capacity: u64,
    cut: &mut Cut,
) -> usize
    requires cursor { IsOver table.old.records cursor lba }
    requires table { IsRunTable capacity table.old.records }
    requires headroom { table.old.visits ≤ MAX_COUNT + MAX_SLOTS }

    // The status of addresses does not depend on their slots.
    ensures descriptors { (slots : Slots) → PutsDescriptors
        (chained_contents table.old.records slots) capacity lba cut.old cut.new result }
    ensures at_most { result ≤ MAX_DESCRIPTORS }

    // The call visits the runs that have addresses of the descriptors, and at most one more. An
    // earlier call has visited the run at the cursor.
    ensures table { table.new ≡ visited table.old (table.new.total - table.old.total) }
    ensures visits { (slots : Slots) →
        let contents = chained_contents table.old.records slots in
        let count = covered (descriptors_from contents capacity lba MAX_DESCRIPTORS) in
        let met = records_met table.old.records lba count in
        VisitsBetween (met - ahead cursor.next) (met + 1 - ahead cursor.next) table.old table.new }
{
    parts_are_put_in_turn();
    let mut cursor = cursor;
    let mut next = lba;
    let mut count = 0;
    while next < capacity && count < MAX_DESCRIPTORS {
        let (descriptor, end) = describe(table, cursor, next, capacity);
        cut.put(&descriptor.bytes());
        next += u64::from(descriptor.count);
        cursor = end;
        count += 1;
    }
    count
}
