// The descriptors of GET LBA STATUS one by one: records of one kind with addresses in a row, and
// the gaps between them. This file knows no slot and no block.
ghost use Rattle.std.specs.Prelude.{◌≡◌, ℕ, ◌+◌, ◌-◌, ◌<◌, ◌≤◌, List, None};
ghost use Rattle.sg_store.specs.LbaStatus.{covered, descriptor_at, descriptors_from};
ghost use Rattle.sg_store.specs.PutDescriptors.{PutsDescriptors};
ghost use Rattle.sg_table.specs.Records.{IsLowerBound, passed, run_at};
ghost use Rattle.sg_pool.specs.MappedRecords.{contents_of};
ghost use Rattle.sg_table.specs.Table.{visited};
ghost use Rattle.sg_plain_map.specs.Editing.{IsAt, VisitsRange};
ghost use Rattle.sg_plain_map.specs.Status.{AreInRow, IsTableOf, of_kind};

use crate::kind::run_of_kind;
use sg_pool::{MAX_SLOTS, status_of};
use sg_store::lba_status::{MAX_ADDRESSES, MAX_DESCRIPTORS, ProvisioningStatus, StatusDescriptor};
use sg_store::{MAX_CAPACITY, MAX_COUNT};
use sg_table::{Cursor, Kind, RunTable, run_at};
use sg_wire::Cut;
use sg_wire::laws::parts_are_put_in_turn;

/// Goes past the records of one kind with addresses in a row, from the cursor's address on.
fn pass_alike(table: &mut RunTable, cursor: Cursor, lba: u64, kind: Kind) -> Cursor
    requires cursor { IsAt table.old.records cursor lba }
    requires table { IsTableOf MAX_CAPACITY table.old.records }
    requires headroom { table.old.visits + MAX_SLOTS < u64.MAX }

    // Their addresses have no gap, and the address after them has no record of that kind.
    ensures order { cursor.index ≤ result.index }
    ensures row { AreInRow table.old.records cursor.index result.index lba kind }
    ensures cursor { IsAt table.old.records result (lba + (result.index - cursor.index)) }
    ensures end { of_kind kind (run_at result.next (lba + (result.index - cursor.index))) ≡ None }

    // The table counts only the visits on the way.
    ensures cost { visited table.new (passed cursor) ≡ visited table.old (passed result) }
{
    let mut end = cursor;
    let mut next = lba;
    while let Some(run) = run_of_kind(end, next, kind) {
        end = Cursor::new(table, end.index + 1);
        next = run.start + 1;
    }
    end
}

/// The descriptor that begins at the cursor's address, and the cursor where it ends.
fn describe(
    table: &mut RunTable,
    cursor: Cursor,
    lba: u64,
    capacity: u64,
) -> (StatusDescriptor, Cursor)
    requires cursor { IsAt table.old.records cursor lba }
    requires table { IsTableOf capacity table.old.records }
    requires address { lba < capacity }
    requires headroom { table.old.visits + MAX_SLOTS < u64.MAX }

    // The status of an address does not depend on its block.
    ensures descriptor { (blocks : List (List ℕ)) →
        result.0 ≡ descriptor_at (contents_of table.old.records blocks) capacity lba }
    ensures cursor { IsAt table.old.records result.1 (lba + result.0.count) }
    ensures cost { visited table.new (passed cursor) ≡ visited table.old (passed result.1) }
{
    match run_at(cursor.next, lba) {
        None => {
            let count = cursor.count_unmapped(lba, capacity, MAX_ADDRESSES);
            let status = ProvisioningStatus::Deallocated;
            (StatusDescriptor { lba, count, status }, cursor)
        }
        Some(run) => {
            let end = pass_alike(table, cursor, lba, run.kind);
            let count = (end.index - cursor.index) as u32;
            let status = status_of(run.kind);
            (StatusDescriptor { lba, count, status }, end)
        }
    }
}

/// Writes the descriptors from an address on as they are found, and returns how many there are. The
/// records from that address on begin at an index.
pub(crate) fn write_descriptors(
    table: &mut RunTable,
    from: usize,
    lba: u64,
    capacity: u64,
    cut: &mut Cut,
) -> usize
    requires index { IsLowerBound table.old.records from lba }
    requires table { IsTableOf capacity table.old.records }
    requires headroom { table.old.visits ≤ MAX_COUNT }

    // The status of an address does not depend on its block.
    ensures descriptors { (blocks : List (List ℕ)) → PutsDescriptors
        (contents_of table.old.records blocks) capacity lba cut.old cut.new result }
    ensures at_most { result ≤ MAX_DESCRIPTORS }

    // The table changes only by visits.
    ensures table { table.new ≡ visited table.old (table.new.total - table.old.total) }
    ensures visits { (blocks : List (List ℕ)) →
        let contents = contents_of table.old.records blocks in
        let count = covered (descriptors_from contents capacity lba MAX_DESCRIPTORS) in
        VisitsRange contents lba count table.old table.new }
{
    parts_are_put_in_turn();
    let mut cursor = Cursor::new(table, from);
    let mut next = lba;
    let mut count = 0;
    while next < capacity && count < MAX_DESCRIPTORS {
        let (descriptor, end) = describe(table, cursor, next, capacity);
        cut.put(&descriptor.bytes());
        next += u64::from(descriptor.count);
        cursor = end;
        count += 1;
    }
    count
}
