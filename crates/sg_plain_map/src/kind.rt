// The record of an address, if it has a kind. With it, GET LBA STATUS goes past the records of one
// status, and a write finds out whether it changes a record.
ghost use Rattle.std.specs.Prelude.{◌≡◌};
ghost use Rattle.sg_table.specs.Records.{run_at};
ghost use Rattle.sg_plain_map.specs.Status.{of_kind};

use sg_table::{Cursor, Kind, Run, run_at};

/// The record of an address, if the cursor is at it and it has a kind.
pub(crate) fn run_of_kind(cursor: Cursor, lba: u64, kind: Kind) -> Option<Run>
    ensures { result ≡ of_kind kind (run_at cursor.next lba) }
{
    let run = run_at(cursor.next, lba)?;
    if run.kind == kind { Some(run) } else { None }
}
