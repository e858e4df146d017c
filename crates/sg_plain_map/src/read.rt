// Reading a range: the read goes past the records in the order of addresses. If a record is missing
// or anchored, the block is zeros.
ghost use Rattle.std.specs.Prelude.{◌≡◌, ◌+◌, ◌-◌, ◌*◌, ◌<◌, length};
ghost use Rattle.sg_store.specs.Disk.{block, blocks, used_at};
ghost use Rattle.sg_table.specs.Table.{visited};
ghost use Rattle.sg_plain_map.specs.Editing.{IsAt, IsReadable, IsReady, VisitsRange, stored};
ghost use Rattle.sg_table.specs.Records.{passed};

use sg_pool::Pool;
use sg_store::BLOCK_LENGTH;
use sg_table::{Cursor, RunTable, run_at};

/// Reads the block at the cursor's address, and goes on to the next address. The call has visited
/// each record that the cursor passes, and the record where it ends.
fn read_block(
    table: &mut RunTable,
    pool: &Pool,
    cursor: Cursor,
    lba: u64,
    bytes: &mut [u8],
) -> Cursor
    // The cursor is at the address, and each record of the table has a slot.
    requires cursor { IsAt table.old.records cursor lba }
    requires readable { IsReadable table.old.records pool.now }

    // The slice is a block long, and the visit can be counted.
    requires byte_count { length bytes.old ≡ BLOCK_LENGTH }
    requires headroom { table.old.visits < u64.MAX }

    // The block is read.
    ensures bytes { bytes.new ≡ block (stored table.old pool.now) lba }

    // The cursor goes past the record of the address, if there is one, and the table counts only
    // the visits on its way.
    ensures cursor { IsAt table.old.records result (lba + 1) }
    ensures index { result.index ≡ cursor.index + used_at (stored table.old pool.now) lba }
    ensures cost { visited table.new (passed cursor) ≡ visited table.old (passed result) }
{
    let Some(run) = run_at(cursor.next, lba) else {
        bytes.fill(0);
        return cursor;
    };
    pool.read_first(run, bytes);
    Cursor::new(table, cursor.index + 1)
}

/// Reads the blocks from an address on. Their records begin at an index.
pub(crate) fn read_blocks(
    table: &mut RunTable,
    pool: &Pool,
    from: usize,
    lba: u64,
    count: u32,
    bytes: &mut [u8],
)
    requires ready { IsReady table.old pool.now from lba count }
    requires byte_count { length bytes.old ≡ BLOCK_LENGTH * count }

    // The blocks are read, and the table changes only by visits.
    ensures bytes { bytes.new ≡ blocks (stored table.old pool.now) lba count }
    ensures table { table.new ≡ visited table.old (table.new.total - table.old.total) }
    ensures visits { VisitsRange (stored table.old pool.now) lba count table.old table.new }
{
    let mut cursor = Cursor::new(table, from);
    for i in 0..count {
        let at = BLOCK_LENGTH * (i as usize);
        let block = &mut bytes[at..at + BLOCK_LENGTH];
        cursor = read_block(table, pool, cursor, lba + u64::from(i), block);
    }
}
