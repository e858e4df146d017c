// The lists that are run: what is done to a disk, step by step.
use crate::random::Random;
use crate::request::{INITIATORS, Request};
use sg_faults::{Afterwards, AtMedium, BadBlocks, Fault, OnArrival, Outcome, SenseCode};
use sg_target::Happening;
use sg_units::{Initiators, UnitAttention};
use sg_wire::{Extent, Initiator, Profile};

/// The number of blocks of the disk before it grows.
pub(crate) const BLOCKS: u64 = 16;

/// The number of steps between two crashes: one of each initiator, and four random ones.
const STEPS: usize = 7;

/// What is done to a disk.
#[derive(Clone, Copy)]
pub(crate) enum Step {
    /// A command that flushes what it owes.
    Command(Request),
    /// A command that leaves the flush to a later step.
    Unflushed(Request),
    /// The same WRITE again and again, without a flush. Its records are longer than a batch.
    Fill(Request),
    Happen(Happening),
    /// What waits is written to the file.
    Flush,
    /// The file is written afresh.
    Compact,
}

impl Step {
    /// The next step for a disk of a profile.
    fn next(random: &mut Random, profile: Profile) -> Option<Step> {
        Some(match random.below(20) {
            0 => Step::Compact,
            1 => Step::Flush,
            2..=4 => Step::Happen(next_happening(random)?),
            5 | 6 => Step::Unflushed(Request::next(random, profile)?),
            _ => Step::Command(Request::next(random, profile)?),
        })
    }
}

/// The next steps for a disk of a profile, over which batches wait in the file. No fault is armed on it, so
/// that the same WRITE makes the same disk each time.
pub(crate) fn next_full_steps(random: &mut Random, profile: Profile) -> Option<[Step; STEPS]> {
    let last = match random.below(4) {
        0 => Step::Compact,
        1 => Step::Flush,
        _ => Step::Command(Request::next(random, profile)?),
    };
    Some([
        is_ready(0)?,
        is_ready(1)?,
        is_ready(2)?,
        Step::Fill(Request::four_blocks(random)?),
        Step::Unflushed(Request::next(random, profile)?),
        Step::Fill(Request::four_blocks(random)?),
        last,
    ])
}

fn is_ready(number: u8) -> Option<Step> {
    let initiator = Initiator::new(number)?;
    Some(Step::Command(Request::test_unit_ready(initiator)))
}

/// One initiator gets POWER ON, and then it can write. The second step puts all that was changed into the
/// file.
pub(crate) fn first_steps() -> Option<[Step; 2]> {
    let initiator = Initiator::new(0)?;
    Some([
        is_ready(0)?,
        Step::Command(Request::write_through(initiator)),
    ])
}

/// The next steps for a disk of a profile. First each initiator asks whether the unit is ready, and gets
/// POWER ON.
pub(crate) fn next_steps(random: &mut Random, profile: Profile) -> Option<[Step; STEPS]> {
    Some([
        is_ready(0)?,
        is_ready(1)?,
        is_ready(2)?,
        Step::next(random, profile)?,
        Step::next(random, profile)?,
        Step::next(random, profile)?,
        Step::next(random, profile)?,
    ])
}

fn next_happening(random: &mut Random) -> Option<Happening> {
    Some(match random.below(12) {
        0 => Happening::Power,
        1 => Happening::LogicalUnitReset,
        2 => Happening::TargetReset,
        3 => Happening::NexusLoss(Initiator::new(random.below(INITIATORS))?),
        4 | 5 => Happening::Grow(BLOCKS + u64::from(random.below(8))),
        6 => Happening::Establish(UnitAttention::with_code(0x3F, 0x0E)?, Initiators::all()),
        7 => Happening::Disarm(0),
        8 => Happening::DisarmAll,
        _ => Happening::Arm(next_fault(random)?),
    })
}

/// A fault that meets READ(10), WRITE(10) or any command, on some blocks or on none.
fn next_fault(random: &mut Random) -> Option<Fault> {
    let blocks = BadBlocks {
        extent: Extent {
            lba: u64::from(random.below(16)),
            count: 1 + u32::from(random.below(3)),
        },
        healed_by_writes: random.is_one_in(2),
    };
    let times = u16::from(random.below(4));
    Some(Fault {
        initiators: Initiators::all(),
        code: [None, Some(0x28), Some(0x2A)][random.up_to(2)],
        blocks: if random.is_one_in(2) {
            Some(blocks)
        } else {
            None
        },
        skip: u16::from(random.below(2)),
        times: if times == 0 { None } else { Some(times) },
        outcome: next_outcome(random)?,
    })
}

fn next_outcome(random: &mut Random) -> Option<Outcome> {
    let code = SenseCode::new(3, 0x11, random.below(2))?;
    Some(match random.below(7) {
        0 => Outcome::OnArrival(OnArrival::Busy),
        1 => Outcome::OnArrival(OnArrival::NoReply),
        2 => Outcome::OnArrival(OnArrival::DeferredError(code)),
        3 => Outcome::AtMedium(AtMedium::CheckCondition(code)),
        4 => Outcome::AtMedium(AtMedium::MovesOnly(u32::from(random.below(3)))),
        5 => Outcome::Afterwards(Afterwards::NoReply),
        _ => Outcome::Afterwards(Afterwards::CheckCondition(code)),
    })
}
