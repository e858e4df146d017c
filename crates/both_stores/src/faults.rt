// Faults from a fixed seed.
use crate::random::Random;
use sg_faults::{Afterwards, AtMedium, BadBlocks, Fault, OnArrival, Outcome, SenseCode};
use sg_units::Initiators;
use sg_wire::Extent;

/// The next fault. It is gone after a few commands.
pub fn next_fault(random: &mut Random) -> Option<Fault> {
    Some(Fault {
        initiators: Initiators::of_mask(u64::from(random.byte())),
        code: next_code(random),
        blocks: next_blocks(random),
        skip: u16::from(random.byte() % 4),
        times: Some(u16::from(random.byte() % 4)),
        outcome: next_outcome(random)?,
    })
}

/// An operation code, READ(10) or WRITE(10), or none.
fn next_code(random: &mut Random) -> Option<u8> {
    match random.byte() % 4 {
        0 => Some(0x28),
        1 => Some(0x2A),
        _ => None,
    }
}

fn next_blocks(random: &mut Random) -> Option<BadBlocks> {
    if random.byte() < 128 {
        return None;
    }
    Some(BadBlocks {
        extent: Extent {
            lba: u64::from(random.byte()),
            count: u32::from(random.byte() % 16),
        },
        healed_by_writes: random.byte() < 128,
    })
}

fn next_outcome(random: &mut Random) -> Option<Outcome> {
    let code = SenseCode::new(random.byte() % 12, random.byte(), random.byte())?;
    Some(match random.byte() % 11 {
        0 => Outcome::OnArrival(OnArrival::Busy),
        1 => Outcome::OnArrival(OnArrival::TaskSetFull),
        2 => Outcome::OnArrival(OnArrival::ReservationConflict),
        3 => Outcome::OnArrival(OnArrival::NoReply),
        4 => Outcome::OnArrival(OnArrival::CheckCondition(code)),
        5 => Outcome::OnArrival(OnArrival::DeferredError(code)),
        6 => Outcome::AtMedium(AtMedium::CheckCondition(code)),
        7 => Outcome::AtMedium(AtMedium::MovesOnly(u32::from(random.byte() % 4))),
        8 => Outcome::Afterwards(Afterwards::NoReply),
        9 => Outcome::Afterwards(Afterwards::CheckCondition(code)),
        _ => Outcome::Afterwards(Afterwards::ShortDataIn(u32::from(random.byte()))),
    })
}
