// What a fault does to a command, by the place among the checks of a command where it does so.
use crate::sense_code::SenseCode;

/// What a fault does to a command as it arrives, before every other check. The command is not executed.
#[derive(Clone, Copy)]
pub enum OnArrival {
    /// BUSY (SAM-5, 5.3.1).
    Busy,
    /// TASK SET FULL (SAM-5, 5.3.1).
    TaskSetFull,
    /// RESERVATION CONFLICT, though no reservation forbids the command.
    ReservationConflict,
    /// No reply: the transport keeps the command until its initiator gives it up.
    NoReply,
    /// CHECK CONDITION with a sense code.
    CheckCondition(SenseCode),
    /// CHECK CONDITION with a sense code as a deferred error: an earlier command has failed (SPC-4,
    /// 4.5.5).
    DeferredError(SenseCode),
}

/// What a fault at the medium does to a command that reads or writes a block, and has passed the checks of
/// its CDB, its data-out and its blocks.
#[derive(Clone, Copy)]
pub enum AtMedium {
    /// CHECK CONDITION with a sense code. INFORMATION is the first bad block of the command, if the
    /// fault lies on blocks. The command is not executed.
    CheckCondition(SenseCode),
    /// GOOD, but a READ, WRITE or WRITE SAME moves only its first blocks, at most this many. So with
    /// 0 a WRITE is lost.
    MovesOnly(u32),
}

/// What a fault does to a command that has ended with GOOD.
#[derive(Clone, Copy)]
pub enum Afterwards {
    /// No status follows its data-in.
    NoReply,
    /// CHECK CONDITION with a sense code follows its data-in, as for a RECOVERED ERROR.
    CheckCondition(SenseCode),
    /// Only the first bytes of its data-in arrive, at most this many, and it still ends with GOOD.
    ShortDataIn(u32),
}

/// What a fault does, and where.
#[derive(Clone, Copy)]
pub enum Outcome {
    /// As a command arrives.
    OnArrival(OnArrival),
    /// At the medium.
    AtMedium(AtMedium),
    /// After a command has ended with GOOD.
    Afterwards(Afterwards),
}

/// What an armed fault does to a command.
#[derive(Clone, Copy)]
pub struct Struck<P> {
    /// What it does.
    pub outcome: P,
    /// The first bad block that the command names, if the fault lies on blocks.
    pub first_bad: Option<u64>,
}

/// A place among the checks of a command, by what a fault may do there.
pub trait Place: Copy {
    ghost use Rattle.std.specs.Prelude.{◌≡◌, Option};
    ghost use Rattle.sg_faults.specs.declared.outcome.Outcome.{Outcome};

    /// What an outcome does at this place, if it does something there.
    ghost at: { Outcome → Option Self };

    fn of(outcome: Outcome) -> Option<Self>
        ensures { result ≡ at outcome };
}

impl Place for OnArrival {
    ghost use Rattle.sg_faults.specs.Places.{on_arrival};

    ghost at = { on_arrival };

    fn of(outcome: Outcome) -> Option<OnArrival> {
        match outcome {
            Outcome::OnArrival(outcome) => Some(outcome),
            _ => None,
        }
    }
}

impl Place for AtMedium {
    ghost use Rattle.sg_faults.specs.Places.{at_medium};

    ghost at = { at_medium };

    fn of(outcome: Outcome) -> Option<AtMedium> {
        match outcome {
            Outcome::AtMedium(outcome) => Some(outcome),
            _ => None,
        }
    }
}

impl Place for Afterwards {
    ghost use Rattle.sg_faults.specs.Places.{afterwards};

    ghost at = { afterwards };

    fn of(outcome: Outcome) -> Option<Afterwards> {
        match outcome {
            Outcome::Afterwards(outcome) => Some(outcome),
            _ => None,
        }
    }
}
