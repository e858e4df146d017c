// What happens to a disk, as C asks for it.
ghost use Rattle.std.specs.Prelude.{◌≡◌, ◌≢◌, ◌≤◌, IfErr, Ok};
ghost use Rattle.sg_run.specs.WellFormed.{AreMembers, IsWellFormed};
ghost use Rattle.sg_wire.specs.Initiator.{initiator_count};
ghost use Rattle.sg_embed.specs.Fault.{asked_fault};
ghost use Rattle.sg_embed.specs.Happening.{arming, asked_happening, disarming, establishing, growing};
ghost use Rattle.sg_embed.specs.Happening.{nexus_loss};

use crate::fault::FaultRecord;
use crate::mask::{mask_of, own_initiators};
use crate::outcome::Outcome;
use crate::served::initiator_below;
use sg_faults::MAX_FAULTS;
use sg_store::MAX_CAPACITY;
use sg_target::Happening;
use sg_units::{Initiators, UnitAttention};

/// The record that C declares as `mdl_happening`. The fields that a kind does not need do not
/// matter.
#[repr(C)]
#[derive(Drop)]
pub struct HappeningRecord {
    /// What happens: a number of the header.
    pub kind: u32,
    /// The initiator whose I_T nexus is lost.
    pub initiator: u32,
    /// A mask of the initiators for which a condition is established. Initiator i has bit i.
    pub initiators: u64,
    /// The number of blocks that the disk has after it has grown.
    pub blocks: u64,
    /// The additional sense code of the condition that is established.
    pub asc: u8,
    /// Its additional sense code qualifier.
    pub ascq: u8,
    /// The number of the fault that is taken away.
    pub number: u8,
    /// The fault that is armed.
    pub fault: FaultRecord,
}

const _: () = prove!(size_of::<HappeningRecord>() == 72);

impl HappeningRecord {
    /// A record of a kind that reads no other field.
    fn of_kind(kind: u32) -> HappeningRecord
        ensures { result.kind ≡ kind }
    {
        HappeningRecord {
            kind,
            initiator: 0,
            initiators: 0,
            blocks: 0,
            asc: 0,
            ascq: 0,
            number: 0,
            fault: FaultRecord::with_outcome(0),
        }
    }

    /// A record that describes a happening.
    pub(crate) fn of(happening: &Happening) -> HappeningRecord
        requires { IsWellFormed happening.now }
        ensures { asked_happening initiator_count result ≡ Ok happening.now }
    {
        match *happening {
            Happening::Power => HappeningRecord::of_kind(0),
            Happening::LogicalUnitReset => HappeningRecord::of_kind(1),
            Happening::TargetReset => HappeningRecord::of_kind(2),
            Happening::NexusLoss(initiator) => HappeningRecord {
                initiator: u32::from(initiator.number()),
                ..HappeningRecord::of_kind(3)
            },
            Happening::Establish(condition, initiators) => {
                HappeningRecord::establishing(condition, &initiators)
            }
            Happening::Grow(blocks) => HappeningRecord {
                blocks,
                ..HappeningRecord::of_kind(5)
            },
            Happening::Arm(fault) => HappeningRecord {
                fault: FaultRecord::of(&fault),
                ..HappeningRecord::of_kind(6)
            },
            Happening::Disarm(number) => HappeningRecord {
                number: number as u8,
                ..HappeningRecord::of_kind(7)
            },
            Happening::DisarmAll => HappeningRecord::of_kind(8),
        }
    }

    /// A record of a condition that is established for some initiators.
    fn establishing(condition: UnitAttention, initiators: &Initiators) -> HappeningRecord
        requires { AreMembers initiators.now }
        ensures { asked_happening initiator_count result
            ≡ Ok (Happening.Establish condition initiators.now) }
    {
        let (asc, ascq) = condition.code();
        HappeningRecord {
            initiators: mask_of(initiators),
            asc,
            ascq,
            ..HappeningRecord::of_kind(4)
        }
    }

    /// The happening that it describes, of a disk that has `count` initiators.
    ///
    /// # Errors
    /// As those of [`Slot::asked`](crate::Slot::asked).
    pub(crate) fn read(&self, count: u8) -> Result<Happening, Outcome>
        requires { count ≤ initiator_count }
        ensures value { result ≡ asked_happening count self.now }
        ensures refused { IfErr result (λ outcome. outcome ≢ Outcome.Done) }
    {
        match self.kind {
            0 => Ok(Happening::Power),
            1 => Ok(Happening::LogicalUnitReset),
            2 => Ok(Happening::TargetReset),
            3 => nexus_loss(count, self.initiator),
            4 => { establishing(self.asc, self.ascq, own_initiators(count, self.initiators)) }
            5 => growing(self.blocks),
            6 => arming(count, &self.fault),
            7 => disarming(self.number),
            8 => Ok(Happening::DisarmAll),
            _ => Err(Outcome::UnknownHappening),
        }
    }
}

/// The loss of an initiator's I_T nexus. The initiator is one of `count`.
fn nexus_loss(count: u8, initiator: u32) -> Result<Happening, Outcome>
    requires { count ≤ initiator_count }
    ensures value { result ≡ nexus_loss count initiator }
    ensures refused { IfErr result (λ outcome. outcome ≢ Outcome.Done) }
{
    match initiator_below(count, initiator) {
        Some(initiator) => Ok(Happening::NexusLoss(initiator)),
        None => Err(Outcome::UnknownInitiator),
    }
}

/// A unit attention condition that is established for some initiators.
fn establishing(asc: u8, ascq: u8, initiators: Option<Initiators>) -> Result<Happening, Outcome>
    ensures value { result ≡ establishing asc ascq initiators }
    ensures refused { IfErr result (λ outcome. outcome ≢ Outcome.Done) }
{
    let Some(condition) = UnitAttention::with_code(asc, ascq) else {
        return Err(Outcome::UnknownCondition);
    };
    match initiators {
        Some(initiators) => Ok(Happening::Establish(condition, initiators)),
        None => Err(Outcome::UnknownInitiator),
    }
}

/// A growth of the disk.
fn growing(blocks: u64) -> Result<Happening, Outcome>
    ensures value { result ≡ growing blocks }
    ensures refused { IfErr result (λ outcome. outcome ≢ Outcome.Done) }
{
    if (1..=MAX_CAPACITY).contains(&blocks) {
        Ok(Happening::Grow(blocks))
    } else {
        Err(Outcome::BlockCount)
    }
}

/// A fault that is armed. The initiators that it names are some of `count`.
fn arming(count: u8, fault: &FaultRecord) -> Result<Happening, Outcome>
    requires { count ≤ initiator_count }
    ensures value { result ≡ arming (asked_fault count fault.now) }
    ensures refused { IfErr result (λ outcome. outcome ≢ Outcome.Done) }
{
    match fault.read(count) {
        Ok(fault) => Ok(Happening::Arm(fault)),
        Err(outcome) => Err(outcome),
    }
}

/// A fault that is taken away.
fn disarming(number: u8) -> Result<Happening, Outcome>
    ensures value { result ≡ disarming number }
    ensures refused { IfErr result (λ outcome. outcome ≢ Outcome.Done) }
{
    let number = usize::from(number);
    if number < MAX_FAULTS {
        Ok(Happening::Disarm(number))
    } else {
        Err(Outcome::FaultNumber)
    }
}
