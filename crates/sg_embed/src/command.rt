// C gets a tool's command and sends it itself: the CDB, its data-out and the kind of its answer.
ghost use Rattle.std.specs.Prelude.{◌≡◌, ◌≢◌, IfErr, IfOk, OnErr, length};
ghost use Rattle.sg_embed.specs.Outcome.{IsUnlessOutOfMemory, outcome_of, plan_outcome};
ghost use Rattle.sg_embed.specs.Planned.{IsPlanned, ShowsPlan};

use crate::kinds::kind_number;
use crate::outcome::Outcome;
use sg_run::read_tool;
use sg_tools::{MAX_DATA_OUT, Plan};
use sg_wire::MAX_CDB_LENGTH;
use std::alloc::Global;

/// The record that C declares as `mdl_command`.
#[repr(C)]
#[derive(Drop)]
pub struct CommandRecord {
    /// The CDB, and zeros after it.
    pub cdb: [u8; MAX_CDB_LENGTH],
    /// The length of the CDB, in bytes.
    pub cdb_length: u8,
    /// The number of the kind of its answer.
    pub kind: u32,
    /// The length of data-out, in bytes from the beginning of the buffer.
    pub data_out_length: usize,
}

const _: () = prove!(size_of::<CommandRecord>() == 32);

impl CommandRecord {
    fn of(plan: &Plan) -> CommandRecord
        ensures { ShowsPlan result plan.now }
    {
        let mut cdb = [0; MAX_CDB_LENGTH];
        let bytes = plan.cdb.as_slice();
        cdb[..bytes.len()].copy_from_slice(bytes);
        CommandRecord {
            cdb,
            cdb_length: bytes.len() as u8,
            kind: kind_number(plan.show),
            data_out_length: plan.data_out,
        }
    }
}

/// The command that the words of a text ask a tool for. Its data-out is written to the first bytes
/// of the buffer, which has [`MAX_DATA_OUT`] bytes at least; those after it stay as they were.
///
/// # Errors
/// The first outcome that applies of a buffer that is too short and the faults of
/// [`TextFault`](sg_run::TextFault). The buffer is then as it was.
pub fn plan_tool(alloc: Global, text: &[u8], data_out: &mut [u8]) -> Result<CommandRecord, Outcome>
    ensures outcome { IsUnlessOutOfMemory (plan_outcome text.now (length data_out.old))
        (outcome_of result) }
    ensures planned { IfOk result (λ command.
        IsPlanned text.now data_out.old data_out.new command) }
    ensures refused { IfErr result (λ outcome. outcome ≢ Outcome.Done) }
    ensures untouched { OnErr result (data_out.new ≡ data_out.old) }
{
    if data_out.len() < MAX_DATA_OUT {
        return Err(Outcome::BufferTooShort);
    }
    match read_tool(alloc, text) {
        Ok(tool) => Ok(CommandRecord::of(&tool.plan(data_out))),
        Err(fault) => Err(Outcome::of_text(fault)),
    }
}
