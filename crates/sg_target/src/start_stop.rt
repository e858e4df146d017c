// START STOP UNIT (SBC-3, 5.25).
ghost use Rattle.std.specs.Prelude.{◌≡◌, [], Ok};
ghost use Rattle.sg_store.specs.Meter.{no_counts};
ghost use Rattle.sg_target.specs.Checks.{requested};
ghost use Rattle.sg_target.specs.Demands.{bad_power, takes_no_data};
ghost use Rattle.sg_target.specs.MadeReplies.{executed_reply};
ghost use Rattle.sg_target.specs.StartStop.{starting_or_stopping};

use crate::operation::Operation;
use crate::refusal::{Reason, Refusal};
use crate::reply::Reply;
use crate::target::Target;
use sg_store::Store;
use sg_wire::StartStopUnit;

/// Where POWER CONDITION MODIFIER is in the CDB.
const MODIFIER_BYTE: u16 = 3;

/// Where POWER CONDITION and LOEJ are.
const POWER_CONDITION_BYTE: u16 = 4;

pub(crate) fn check_start_stop_unit(fields: StartStopUnit) -> Result<Operation<'static>, Refusal>
    ensures { result ≡ requested
        (takes_no_data (bad_power fields) (Ok (Operation.StartStop fields.start))) [] }
{
    if fields.power_condition_modifier.number() != 0 {
        return Err(Refusal::CheckCondition(Reason::InvalidFieldInCdb {
            byte: MODIFIER_BYTE,
        }));
    }
    if fields.power_condition.number() != 0 || fields.loej {
        return Err(Refusal::CheckCondition(Reason::InvalidFieldInCdb {
            byte: POWER_CONDITION_BYTE,
        }));
    }
    Ok(Operation::StartStop {
        start: fields.start,
    })
}

impl<S: Store> Target<S> {
    /// Starts the unit, or stops it.
    pub(crate) fn start_or_stop(&mut self, start: bool) -> Reply
        ensures reply { result ≡ executed_reply 0 no_counts }
        ensures state { self.new.state ≡ (starting_or_stopping self.old.state start).after }
        ensures faults { self.new.faults ≡ self.old.faults }
        ensures meter { self.new.meter ≡ self.old.meter }
    {
        self.stopped = !start;
        Reply::without_blocks(0)
    }
}
