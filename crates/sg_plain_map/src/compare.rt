// Comparing a range with the blocks of a source. It goes past the records in the order of
// addresses, up to the first byte that differs.
ghost use Rattle.std.specs.Prelude.{◌≡◌, ◌+◌, ◌-◌, ◌<◌, ◌≤◌, length, OnOk};
ghost use Rattle.sg_store.specs.Comparison.{compared};
ghost use Rattle.sg_store.specs.Disk.{block, blocks, used_at};
ghost use Rattle.sg_pool.specs.Source.{HasBlocks, joined_blocks};
ghost use Rattle.sg_table.specs.Records.{passed};
ghost use Rattle.sg_table.specs.Table.{visited};
ghost use Rattle.sg_plain_map.specs.Editing.{IsAt, IsReadable, IsReady, stored};
ghost use Rattle.sg_plain_map.specs.PlainCost.{plain_least, plain_price};

use sg_pool::{Pool, Source};
use sg_store::{BLOCK_LENGTH, Miscompare};
use sg_table::{Cursor, RunTable, run_at};

/// The block at the cursor's address, and the cursor at the next address. The call has visited each
/// record that the cursor passes, and the record where it ends.
fn find_block<'a>(
    table: &mut RunTable,
    pool: &'a Pool,
    cursor: Cursor,
    lba: u64,
) -> (&'a [u8], Cursor)
    // The cursor is at the address, and each record of the table has a slot.
    requires cursor { IsAt table.old.records cursor lba }
    requires readable { IsReadable table.old.records pool.now }
    requires headroom { table.old.visits < u64.MAX }

    // The block is found.
    ensures block { result.0.now ≡ block (stored table.old pool.now) lba }
    ensures byte_count { length result.0.now ≡ BLOCK_LENGTH }

    // The cursor goes past the record of the address, if there is one, and the table counts only
    // the visits on its way.
    ensures cursor { IsAt table.old.records result.1 (lba + 1) }
    ensures index { result.1.index ≡ cursor.index + used_at (stored table.old pool.now) lba }
    ensures cost { visited table.new (passed cursor) ≡ visited table.old (passed result.1) }
{
    let Some(run) = run_at(cursor.next, lba) else {
        return (pool.found_block(None), cursor);
    };
    let block = pool.found_block(Some(run));
    (block, Cursor::new(table, cursor.index + 1))
}

/// Compares the blocks from an address on with the blocks of a source. Their records begin at an
/// index.
///
/// # Errors
/// A byte differs.
pub(crate) fn compare_blocks(
    table: &mut RunTable,
    pool: &Pool,
    from: usize,
    lba: u64,
    count: u32,
    source: &Source,
) -> Result<(), Miscompare>
    requires ready { IsReady table.old pool.now from lba count }
    requires whole { HasBlocks source.now count }
    ensures value { result ≡ compared (blocks (stored table.old pool.now) lba count)
        (joined_blocks source.now count) }

    // The table changes only by visits, and the visits lie between the bounds.
    ensures table { table.new ≡ visited table.old (table.new.total - table.old.total) }
    ensures rise { table.old.total ≤ table.new.total }
    ensures price { table.new.total
        ≤ table.old.total + plain_price (stored table.old pool.now) lba count }
    ensures least { OnOk result (table.old.total
        + plain_least (stored table.old pool.now) lba count ≤ table.new.total) }
{
    let mut cursor = Cursor::new(table, from);
    for i in 0..count {
        let (block, next) = find_block(table, pool, cursor, lba + u64::from(i));
        source.compare(i, block)?;
        cursor = next;
    }
    Ok(())
}
