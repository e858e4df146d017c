// The lines of the file `rows`. Each names a row, and also its disk if that is not the usual one.
ghost use Rattle.std.specs.Prelude.{◌≡◌, MatchOption};
ghost use Rattle.rows.specs.Row.{IsRow, IsNoRow};

/// A row: the name of its files, and the disk that it runs on.
#[derive(Clone, Copy)]
pub(crate) struct Row<'a> {
    pub(crate) name: &'a str,
    /// The disk's logical blocks.
    pub(crate) blocks: u64,
    /// The number of blocks that can be mapped at once.
    pub(crate) pool: u32,
}

/// The row that a line names: `NAME`, on a disk of 4,096 blocks with a pool of 4, or `NAME BLOCKS
/// POOL`.
pub(crate) fn read_row(line: &str) -> Option<Row<'_>>
    ensures { MatchOption result (IsNoRow line.now) (λ row. IsRow line.now row.name.now row.blocks row.pool) }
{
    let Some((name, sizes)) = line.split_once(' ') else {
        return Some(Row {
            name: line,
            blocks: 4_096,
            pool: 4,
        });
    };
    let (blocks, pool) = sizes.split_once(' ')?;
    Some(Row {
        name,
        blocks: blocks.parse().ok()?,
        pool: pool.parse().ok()?,
    })
}
