// All lists of three events: commands of two initiators, each happening, and a fault of each kind.
use crate::disks::{BLOCKS, Disks, Tally};
use sg_faults::{Afterwards, AtMedium, BadBlocks, Fault, OnArrival, Outcome, SenseCode};
use sg_target::{Happening, Status};
use sg_units::{Initiators, UnitAttention};
use sg_wire::{Extent, Initiator};
use std::alloc::Global;

/// The number of different events: 15 commands, 7 happenings and 13 faults.
const EVENTS: u64 = 35;

/// The number of events in a list.
const LENGTH: u64 = 3;

/// The number of lists.
pub(crate) const LISTS: u64 = EVENTS * EVENTS * EVENTS;

/// The number of lists after which the last READ ends with BUSY. After as many it ends with TASK
/// SET FULL, and after as many with RESERVATION CONFLICT.
///
/// The last READ is one of initiator 0. Six events arm a fault on arrival that meets its commands,
/// and one event takes all faults away. Such a fault is armed after a list if the last of these
/// seven events in it arms one:
///
/// - It is the third event of the list: 35 x 35 x 6 lists.
/// - It is the second, with one of the 28 other events after it: 35 x 6 x 28 lists.
/// - It is the first, with two of them after it: 6 x 28 x 28 lists.
///
/// These are 17,934 lists. The first such fault that is not taken away decides, and each of the six
/// does so in as many lists as another.
pub(crate) const EACH_REFUSAL: u64 = 2_989;

/// The number of lists that leave the unit stopped, if their faults meet no command.
///
/// Initiator 1 stops the unit, and it also starts it. A unit attention that is pending for
/// initiator 1 takes the place of each of its 8 commands. 5 events establish one for it, and 3 of
/// these 5, a power cycle and two resets, start the unit. A list leaves the unit stopped in these
/// cases:
///
/// - The third event stops it. Of the first two, none establishes an attention, or the second
///   reports the attention of the first: 30 x 30 + 5 x 8 lists.
/// - The second event stops it after one that establishes no attention. Or the first event stops
///   it, and the second is none of these 5, and neither stops it again nor starts it. These are 30
///   and 28 pairs. After them comes one of the 30 events that neither stop the unit nor start it:
///   58 x 30 lists.
/// - The first event stops it, and the second is one of the 2 that only establish an attention. The
///   third is no power cycle and no reset, since a command to start the unit would report that
///   attention: 2 x 32 lists.
pub(crate) const STOPPED: u64 = 2_744;

/// A command: the number of its initiator, its CDB and its data-out.
type Step = (u8, &'static [u8], &'static [u8]);

const READY: &[u8] = &[0, 0, 0, 0, 0, 0];

/// READ(10), WRITE(10) and UNMAP of blocks 0 and 1.
const READ: &[u8] = &[0x28, 0, 0, 0, 0, 0, 0, 0, 2, 0];

const WRITE: &[u8] = &[0x2A, 0, 0, 0, 0, 0, 0, 0, 2, 0];

const UNMAP: &[u8] = &[0x42, 0, 0, 0, 0, 0, 0, 0, 24, 0];

const UNMAP_LIST: &[u8] = &[
    0, 22, 0, 16, 0, 0, 0, 0, 0, 0, 0, 0, 0, 0, 0, 0, 0, 0, 0, 2, 0, 0, 0, 0,
];

/// WRITE(12) and WRITE AND VERIFY(10) of blocks 0 and 1.
const WRITE_12: &[u8] = &[0xAA, 0, 0, 0, 0, 0, 0, 0, 0, 2, 0, 0];

const WRITE_AND_VERIFY: &[u8] = &[0x2E, 2, 0, 0, 0, 0, 0, 0, 2, 0];

/// VERIFY(10) of blocks 0 and 1, which compares them with data-out.
const VERIFY: &[u8] = &[0x2F, 2, 0, 0, 0, 0, 0, 0, 2, 0];

/// COMPARE AND WRITE of blocks 0 and 1. Its data-out has the blocks of an UNMAP, and writes them: so
/// it maps both blocks if both are unmapped.
const COMPARE_AND_WRITE: &[u8] = &[0x89, 0, 0, 0, 0, 0, 0, 0, 0, 0, 0, 0, 0, 2, 0, 0];

/// PRE-FETCH(16) of block 1 and all blocks after it.
const PRE_FETCH: &[u8] = &[0x90, 0, 0, 0, 0, 0, 0, 0, 0, 1, 0, 0, 0, 0, 0, 0];

/// FORMAT UNIT, without a parameter list.
const FORMAT: &[u8] = &[0x04, 0, 0, 0, 0, 0];

/// START STOP UNIT, with START 0 and with START 1.
const STOP: &[u8] = &[0x1B, 0, 0, 0, 0, 0];

const START: &[u8] = &[0x1B, 0, 0, 0, 1, 0];

const REPORT_LUNS: &[u8] = &[0xA0, 0, 0, 0, 0, 0, 0, 0, 0, 16, 0, 0];

const DATA: &[u8] = &[0xB2; 1_024];

const OTHER_DATA: &[u8] = &[0xC3; 1_024];

const ZEROS: &[u8] = &[0; 2_048];

/// Before a list no unit attention is pending for initiators 0 and 1, and the blocks are written.
const BEFORE: [Step; 3] = [(0, READY, &[]), (1, READY, &[]), (0, WRITE, &[0xA1; 1_024])];

const COMMANDS: [Step; 15] = [
    (0, READ, &[]),
    (1, READ, &[]),
    (0, WRITE, DATA),
    (1, WRITE, OTHER_DATA),
    (0, UNMAP, UNMAP_LIST),
    (1, READY, &[]),
    (1, WRITE_12, OTHER_DATA),
    (0, WRITE_AND_VERIFY, DATA),
    (1, PRE_FETCH, &[]),
    (0, REPORT_LUNS, &[]),
    (1, VERIFY, DATA),
    (0, COMPARE_AND_WRITE, ZEROS),
    (0, FORMAT, &[]),
    (1, STOP, &[]),
    (1, START, &[]),
];

/// After a list at most three unit attentions are pending for each. The last READ of each reports
/// none. The READ of initiator 1 finds the unit as the list leaves it, and then it is started.
const AFTER: [Step; 7] = [
    (0, READ, &[]),
    (1, READ, &[]),
    (0, READ, &[]),
    (1, READ, &[]),
    (0, READ, &[]),
    (1, READ, &[]),
    (1, READ, &[]),
];

const LAST: [Step; 2] = [(0, START, &[]), (0, READ, &[])];

/// How the last READ of initiator 1 ends, which may find the unit stopped, and the last one of all.
#[derive(Clone, Copy, Default)]
pub(crate) struct Ends {
    pub(crate) before_start: Tally,
    pub(crate) last: Tally,
}

/// Whether the faults of a list meet its commands.
#[derive(Clone, Copy)]
pub(crate) enum Faults {
    MeetCommands,
    /// They meet none, over each store for another reason: no fault is armed, or it is armed for
    /// other initiators, or it is taken away at once.
    MeetNone,
}

/// The happening with a number.
fn happening(number: u64) -> Option<Happening> {
    Some(match number {
        0 => Happening::Power,
        1 => Happening::LogicalUnitReset,
        2 => Happening::TargetReset,
        3 => Happening::NexusLoss(Initiator::new(0)?),
        4 => Happening::Grow(2 * BLOCKS),
        5 => Happening::Establish(UnitAttention::with_code(0x3F, 0x0E)?, Initiators::all()),
        6 => Happening::DisarmAll,
        fault => Happening::Arm(fault_of(fault)?),
    })
}

/// What the fault does that a happening with this number arms.
fn outcome(number: u64) -> Option<Outcome> {
    let code = SenseCode::new(4, 0x44, 0)?;
    Some(match number {
        7 => Outcome::OnArrival(OnArrival::Busy),
        8 => Outcome::OnArrival(OnArrival::TaskSetFull),
        9 => Outcome::OnArrival(OnArrival::ReservationConflict),
        10 => Outcome::OnArrival(OnArrival::NoReply),
        11 => Outcome::OnArrival(OnArrival::CheckCondition(code)),
        12 => Outcome::OnArrival(OnArrival::DeferredError(code)),
        13 => Outcome::AtMedium(AtMedium::CheckCondition(code)),
        14 => Outcome::AtMedium(AtMedium::MovesOnly(1)),
        15 => Outcome::Afterwards(Afterwards::NoReply),
        16 => Outcome::Afterwards(Afterwards::CheckCondition(code)),
        17 => Outcome::Afterwards(Afterwards::ShortDataIn(600)),
        18 => Outcome::AtMedium(AtMedium::CheckCondition(SenseCode::new(3, 0x11, 0)?)),
        _ => Outcome::OnArrival(OnArrival::Busy),
    })
}

/// The fault that a happening with this number arms. The last but one lies on block 1, until a
/// write of it. The last one meets the second command of initiator 1.
fn fault_of(number: u64) -> Option<Fault> {
    let fault = Fault {
        initiators: Initiators::all(),
        code: None,
        blocks: None,
        skip: 0,
        times: None,
        outcome: outcome(number)?,
    };
    Some(match number {
        18 => Fault {
            blocks: Some(BadBlocks {
                extent: Extent { lba: 1, count: 1 },
                healed_by_writes: true,
            }),
            ..fault
        },
        19 => Fault {
            initiators: Initiators::none().with(Initiator::new(1)?),
            skip: 1,
            times: Some(1),
            ..fault
        },
        _ => fault,
    })
}

impl Disks {
    /// Executes commands. Returns the status of the last one, if all replies are equal.
    fn execute_each(&mut self, steps: &[Step]) -> Option<Status> {
        let mut status = None;
        for step in steps {
            let (number, cdb, data_out) = step;
            status = Some(self.execute(Initiator::new(*number)?, cdb, data_out)?);
        }
        status
    }

    /// Arms a fault that meets no command of a list.
    fn arm_for_none(&mut self, fault: Fault) -> Option<()> {
        let others = Fault {
            initiators: Initiators::of_mask(0xFC),
            ..fault
        };
        self.runs.happen(Happening::Arm(others));
        self.extents.happen(Happening::Arm(fault));
        self.extents.happen(Happening::DisarmAll);
        Some(())
    }

    /// Executes the event with a number, or lets it happen.
    fn take(&mut self, number: u64, faults: Faults) -> Option<()> {
        if let Some(step) = COMMANDS.get(number as usize) {
            let (initiator, cdb, data_out) = step;
            self.execute(Initiator::new(*initiator)?, cdb, data_out)?;
            return Some(());
        }
        match (
            faults,
            happening(number.saturating_sub(COMMANDS.len() as u64))?,
        ) {
            (Faults::MeetNone, Happening::Arm(fault)) => self.arm_for_none(fault)?,
            (_, happening) => self.happen(&happening),
        }
        Some(())
    }

    /// Runs the list with a number on new disks. Returns the status of the last READ of initiator 1
    /// and the status of the last one of all, if all replies are equal.
    fn run_list(&mut self, alloc: Global, number: u64, faults: Faults) -> Option<(Status, Status)> {
        self.renew(alloc)?;
        self.execute_each(&BEFORE)?;
        let mut events = number;
        for _ in 0..LENGTH {
            self.take(events % EVENTS, faults)?;
            events /= EVENTS;
        }
        let before_start = self.execute_each(&AFTER)?;
        let last = self.execute_each(&LAST)?;
        Some((before_start, last))
    }
}

/// Runs all lists, and counts the last READs after them.
pub(crate) fn run_lists(alloc: Global, disks: &mut Disks, faults: Faults) -> Ends {
    let mut ends = Ends::default();
    for number in 0..LISTS {
        if let Some((before_start, last)) = disks.run_list(alloc, number, faults) {
            ends.before_start.count(Some(before_start));
            ends.last.count(Some(last));
        }
    }
    ends
}
