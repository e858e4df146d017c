// WRITE LONG (SBC-3, 5.41), which marks a block as bad.
ghost use Rattle.std.specs.Prelude.{◌≡◌, []};
ghost use Rattle.sg_target.specs.Checks.{requested};
ghost use Rattle.sg_target.specs.Demands.{write_long};

use crate::operation::Operation;
use crate::refusal::{Reason, Refusal};
use sg_wire::WriteLong10;

/// WRITE LONG(10). It has to mark its block.
pub(crate) fn check_write_long_10(fields: WriteLong10) -> Result<Operation<'static>, Refusal>
    ensures { result ≡ requested (write_long fields) [] }
{
    if !fields.wr_uncor {
        return Err(Refusal::CheckCondition(Reason::InvalidFieldInCdb { byte: 1 }));
    }
    Ok(Operation::MarkBad {
        lba: u64::from(fields.lba),
        cor_dis: fields.cor_dis,
    })
}
