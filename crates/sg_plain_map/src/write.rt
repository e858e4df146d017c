// Writing or anchoring a range: the call drafts the records that the range is to have, and puts
// them into the table at once. The store makes sure that there are enough slots.
ghost use Rattle.std.specs.Prelude.{◌≡◌, ◌+◌, ◌<◌, ◌≤◌, is_some, length};
ghost use Rattle.std.specs.FinMap.{insert};
ghost use Rattle.sg_store.specs.Disk.{HasBlockLength, remapped, used_among};
ghost use Rattle.sg_table.specs.Leaves.{move_bound};
ghost use Rattle.sg_store.specs.Disk.{used_at};
ghost use Rattle.sg_pool.specs.Content.{HasMappings, kind_for, mapping_for};
ghost use Rattle.sg_table.specs.Table.{visited};
ghost use Rattle.sg_plain_map.specs.Editing.{Drafts, HasRoom, IsEditing, IsReady, VisitsRange, stored};
ghost use Rattle.sg_plain_map.specs.Editing.{ChangesRecords};
ghost use Rattle.sg_table.specs.Records.{passed, run_at};
ghost use Rattle.sg_plain_map.specs.Editing.{edited_contents};
ghost use Rattle.sg_plain_map.specs.Status.{of_kind};

use crate::kind::run_of_kind;
use sg_pool::{Content, Pool};
use sg_table::{Cursor, Draft, Kind, Run, RunTable, run_at};

/// Addresses that get a new content.
#[derive(Clone, Copy)]
pub(crate) struct Range {
    /// The first address.
    pub(crate) lba: u64,
    /// The number of addresses.
    pub(crate) count: u32,
}

/// An address of a range, and its index there.
#[derive(Clone, Copy)]
struct Place {
    lba: u64,
    index: usize,
}

/// Whether an address has a record that stays as it is, because it has the new kind already.
fn keeps_record(cursor: Cursor, lba: u64, kind: Kind) -> bool
    ensures { result ≡ is_some (of_kind kind (run_at cursor.next lba)) }
{
    run_of_kind(cursor, lba, kind).is_some()
}

/// Drafts the record of the cursor's address, puts its block, and goes on to the next address. An
/// address that has a slot keeps it, and any other takes a free one.
fn put_address(
    table: &mut RunTable,
    pool: &mut Pool,
    draft: &mut Draft,
    cursor: Cursor,
    place: Place,
    content: &Content,
) -> Cursor
    // The edit has come to the address, and there is room for its record and its block.
    requires editing { IsEditing table.old.records table.old.room pool.old draft.old cursor place.lba }
    requires room { HasRoom table.old pool.old draft.old cursor place.lba }
    requires whole { HasBlockLength (mapping_for content.now place.index) }
    requires headroom { table.old.visits < u64.MAX }

    // The address has its new content, and the edit comes to the next one.
    ensures contents { let before = edited_contents table.old pool.old draft.old cursor in
        edited_contents table.old pool.new draft.new result
        ≡ insert before place.lba (mapping_for content.now place.index) }
    ensures editing { IsEditing table.old.records table.old.room pool.new draft.new result (place.lba + 1) }
    ensures drafts { let before = edited_contents table.old pool.old draft.old cursor in
        Drafts table.old.records place.lba (used_at before place.lba) (kind_for content.now) cursor result
        pool.old pool.new draft.old draft.new }

    // The table counts only the visits on the cursor's way.
    ensures cost { visited table.new (passed cursor) ≡ visited table.old (passed result) }
{
    let Some(run) = run_at(cursor.next, place.lba) else {
        let slot = pool.take();
        pool.fill(slot, content, place.index);
        draft.push(Run::single(place.lba, slot, content.kind()));
        return cursor;
    };
    pool.fill(run.first, content, place.index);
    draft.push(Run {
        kind: content.kind(),
        ..run
    });
    Cursor::new(table, cursor.index + 1)
}

/// Gives the addresses of a range their new content. Their records begin at an index. The
/// addresses without a slot need free slots.
pub(crate) fn put_range(
    table: &mut RunTable,
    pool: &mut Pool,
    draft: &mut Draft,
    from: usize,
    range: Range,
    content: &Content,
)
    requires ready { IsReady table.old pool.old from range.lba range.count }
    requires whole { HasMappings content.now range.count }
    requires free { range.count ≤ length pool.old.free
        + used_among (stored table.old pool.old) range.lba range.count }
    requires room { (range.count ≤ draft.old.room) × (draft.old.room ≡ table.old.room) }

    // The addresses are remapped, and only the records, their moves and the visits of the table
    // change.
    ensures contents { stored table.new pool.new
        ≡ remapped (stored table.old pool.old) range.lba range.count (mapping_for content.now) }
    ensures changes { ChangesRecords (move_bound + range.count) table.old table.new pool.new }
    ensures room { draft.new.room ≡ draft.old.room }
    ensures visits { VisitsRange (stored table.old pool.old) range.lba range.count table.old table.new }
{
    draft.begin(from);
    let mut cursor = Cursor::new(table, from);
    let kind = content.kind();
    let mut same = true;
    for i in 0..range.count {
        let place = Place {
            lba: range.lba + u64::from(i),
            index: i as usize,
        };
        same &= keeps_record(cursor, place.lba, kind);
        cursor = put_address(table, pool, draft, cursor, place, content);
    }
    // Otherwise the table has the drafted records already.
    if !same {
        table.splice(draft.from(), cursor.index, draft.records());
    }
}
