// GET LBA STATUS over a table of extents: the first extent of a range, and the descriptors one by
// one. A descriptor joins the extents of one kind with addresses in a row. This file knows no slot
// and no block.
ghost use Rattle.std.specs.Prelude.{◌≡◌, ◌+◌, ◌-◌, ◌<◌, ◌≤◌, ℕ, List, None, length};
ghost use Rattle.sg_store.specs.Disk.{used_among};
ghost use Rattle.sg_store.specs.LbaStatus.{covered, descriptor_at, descriptors_from};
ghost use Rattle.sg_store.specs.PutDescriptors.{PutsDescriptors};
ghost use Rattle.sg_pool.specs.MappedRecords.{contents_of};
ghost use Rattle.sg_table.specs.Records.{ahead, passed};
ghost use Rattle.sg_table.specs.Table.{visited};
ghost use Rattle.sg_extent_map.specs.Extents.{singles};
ghost use Rattle.sg_extent_map.specs.Status.{AreOfKind, FindsCursor, IsExtentTable, IsOver};
ghost use Rattle.sg_extent_map.specs.Status.{of_kind, run_over};

use sg_pool::status_of;
use sg_store::lba_status::{MAX_ADDRESSES, MAX_DESCRIPTORS, ProvisioningStatus, StatusDescriptor};
use sg_store::{MAX_COUNT, MAX_POOL};
use sg_table::{Cursor, Kind, Run, RunTable};
use sg_wire::Cut;
use sg_wire::laws::parts_are_put_in_turn;

/// The cursor at the first extent that has an address or one past it.
pub(crate) fn cursor_over(table: &mut RunTable, lba: u64) -> Cursor
    requires table { (capacity : ℕ) × IsExtentTable capacity table.old.records }
    requires headroom { (table.old.probes ≤ MAX_COUNT) × (table.old.visits ≤ MAX_COUNT) }
    ensures cursor { IsOver table.old.records result lba }
    ensures visits { FindsCursor (ahead result.next) table.old table.new }
{
    let index = table.lower_bound(lba);
    if index == 0 {
        return Cursor::new(table, index);
    }
    let run = table.visit(index - 1);
    if lba - run.start < u64::from(run.count) {
        let next = Some(run);
        return Cursor {
            index: index - 1,
            next,
        };
    }
    Cursor::new(table, index)
}

/// The cursor's extent, if it has the address or one before it.
fn run_over(cursor: Cursor, lba: u64) -> Option<Run>
    ensures { result ≡ run_over cursor.next lba }
{
    let run = cursor.next?;
    if run.start <= lba { Some(run) } else { None }
}

/// The same, if the extent has a kind.
fn run_of_kind(cursor: Cursor, lba: u64, kind: Kind) -> Option<Run>
    ensures { result ≡ of_kind kind (run_over cursor.next lba) }
{
    let run = run_over(cursor, lba)?;
    if run.kind == kind { Some(run) } else { None }
}

/// Goes past the extents of one kind with addresses in a row, from the cursor's address on. Returns
/// the address where they end.
fn pass_alike(table: &mut RunTable, cursor: Cursor, lba: u64, kind: Kind) -> (u64, Cursor)
    requires cursor { IsOver table.old.records cursor lba }
    requires table { (capacity : ℕ) × IsExtentTable capacity table.old.records }
    requires headroom { table.old.visits + MAX_POOL < u64.MAX }

    // The addresses up to the end have the status of the kind, and the next one does not.
    ensures row { AreOfKind table.old.records lba result.0 kind }
    ensures cursor { IsOver table.old.records result.1 result.0 }
    ensures end { of_kind kind (run_over result.1.next result.0) ≡ None }

    // Each extent that was passed has an address there. All together have no more addresses than
    // the pool has blocks.
    ensures order { (lba ≤ result.0) × (cursor.index ≤ result.1.index) }
    ensures passed { result.1.index + lba ≤ cursor.index + result.0 }
    ensures short { result.0 ≤ lba + MAX_POOL }
    ensures within { (capacity : ℕ) → IsExtentTable capacity table.old.records → lba ≤ capacity
        → result.0 ≤ capacity }
    ensures cost { visited table.new (passed cursor) ≡ visited table.old (passed result.1) }
{
    let mut end = cursor;
    let mut next = lba;
    while let Some(run) = run_of_kind(end, next, kind) {
        next = run.start + u64::from(run.count);
        end = Cursor::new(table, end.index + 1);
    }
    (next, end)
}

/// The descriptor that begins at an address, and the cursor where it ends.
fn describe(
    table: &mut RunTable,
    cursor: Cursor,
    lba: u64,
    capacity: u64,
) -> (StatusDescriptor, Cursor)
    requires cursor { IsOver table.old.records cursor lba }
    requires table { IsExtentTable capacity table.old.records }
    requires address { lba < capacity }
    requires headroom { table.old.visits + MAX_POOL < u64.MAX }

    // The status of addresses does not depend on their blocks.
    ensures descriptor { (blocks : List (List ℕ)) →
        result.0 ≡ descriptor_at (contents_of (singles table.old.records) blocks) capacity lba }
    ensures cursor { IsOver table.old.records result.1 (lba + result.0.count) }

    // Each extent that the cursor goes past has an address of the descriptor.
    ensures order { cursor.index ≤ result.1.index }
    ensures passed { (blocks : List (List ℕ)) →
        result.1.index ≤ cursor.index
        + used_among (contents_of (singles table.old.records) blocks) lba result.0.count }
    ensures cost { visited table.new (passed cursor) ≡ visited table.old (passed result.1) }
{
    let Some(run) = run_over(cursor, lba) else {
        let count = cursor.count_unmapped(lba, capacity, MAX_ADDRESSES);
        let status = ProvisioningStatus::Deallocated;
        return (StatusDescriptor { lba, count, status }, cursor);
    };
    let (next, end) = pass_alike(table, cursor, lba, run.kind);
    let count = (next - lba) as u32;
    let status = status_of(run.kind);
    (StatusDescriptor { lba, count, status }, end)
}

/// Writes the descriptors from an address on as they are found, and returns how many there are.
pub(crate) fn write_descriptors(
    table: &mut RunTable,
    cursor: Cursor,
    lba: u64,
    capacity: u64,
    cut: &mut Cut,
) -> usize
    requires cursor { IsOver table.old.records cursor lba }
    requires table { IsExtentTable capacity table.old.records }
    requires headroom { table.old.visits ≤ MAX_COUNT + 2 }

    // The status of addresses does not depend on their blocks.
    ensures descriptors { (blocks : List (List ℕ)) → PutsDescriptors
        (contents_of (singles table.old.records) blocks) capacity lba cut.old cut.new result }
    ensures at_most { result ≤ MAX_DESCRIPTORS }

    // The call visits extents that have addresses of the descriptors, and at most one more. An
    // earlier call has visited the extent at the cursor.
    ensures table { table.new ≡ visited table.old (table.new.total - table.old.total) }
    ensures rise { table.old.total ≤ table.new.total }
    ensures visits { (blocks : List (List ℕ)) →
        let contents = contents_of (singles table.old.records) blocks in
        let count = covered (descriptors_from contents capacity lba MAX_DESCRIPTORS) in
        table.new.total + ahead cursor.next
        ≤ table.old.total + used_among contents lba count + 1 }
{
    parts_are_put_in_turn();
    let mut cursor = cursor;
    let mut next = lba;
    let mut count = 0;
    while next < capacity && count < MAX_DESCRIPTORS {
        let (descriptor, end) = describe(table, cursor, next, capacity);
        cut.put(&descriptor.bytes());
        next += u64::from(descriptor.count);
        cursor = end;
        count += 1;
    }
    count
}
