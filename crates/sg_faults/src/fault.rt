// Faults, and how many commands each still lets pass and meets.
ghost use Rattle.std.specs.Prelude.{◌≡◌, ◌<◌, ◌==◌, slice_set};
ghost use Rattle.sg_wire.specs.Initiator.{initiator_count};
ghost use Rattle.sg_faults.specs.Arming.{armed, count_for, counted, first_bad, first_count, is_due};
ghost use Rattle.sg_faults.specs.Arming.{is_healed_by, is_spent, lasts, next_count};
ghost use Rattle.sg_faults.specs.Arming.{spent, unrecovered_error};
ghost use Rattle.sg_faults.specs.Meeting.{has_code, heals, meets, names_one};

use crate::outcome::{AtMedium, Outcome};
use crate::seen::SeenCommand;
use crate::sense_code::SenseCode;
use sg_units::Initiators;
use sg_wire::{Extent, Initiator};

/// Blocks of the medium that a fault lies on.
#[derive(Clone, Copy)]
pub struct BadBlocks {
    /// The blocks.
    pub extent: Extent,
    /// Whether a command that overwrites all of them heals them. If it reads none of them, the fault does
    /// not meet it. If it ends with GOOD, the fault is gone.
    pub healed_by_writes: bool,
}

impl BadBlocks {
    fn is_healed_by(&self, command: &SeenCommand<'_>) -> bool
        ensures { result ≡ heals command.now self.now }
    {
        self.healed_by_writes && command.overwrites(self.extent)
    }
}

/// A fault as it is armed: the commands that it meets, and what it does to them.
#[derive(Clone, Copy)]
pub struct Fault {
    /// The initiators whose commands it meets. Each has a count of its own.
    pub initiators: Initiators,
    /// The operation code of the commands that it meets. None for any.
    pub code: Option<u8>,
    /// The blocks of which a command has to read or write one. None for any command.
    pub blocks: Option<BadBlocks>,
    /// The number of an initiator's commands that meet it and pass first.
    pub skip: u16,
    /// The number of an initiator's commands after these to which it does something. None for all.
    pub times: Option<u16>,
    /// What it does.
    pub outcome: Outcome,
}

impl Fault {
    /// The pseudo unrecovered error of a block (SBC-3, 4.18.2), with the sense code that a READ of the
    /// block reports until a command writes it.
    pub fn unrecovered_error(lba: u64, code: SenseCode) -> Fault
        ensures { result ≡ unrecovered_error lba code }
    {
        Fault {
            initiators: Initiators::all(),
            code: None,
            blocks: Some(BadBlocks {
                extent: Extent { lba, count: 1 },
                healed_by_writes: true,
            }),
            skip: 0,
            times: None,
            outcome: Outcome::AtMedium(AtMedium::CheckCondition(code)),
        }
    }

    /// What there is of it at first for the initiator with a number, below [`Initiator::COUNT`]. Nothing
    /// if the fault does not name the initiator.
    pub fn first_count(&self, number: usize) -> Count
        requires { number < initiator_count }
        ensures { result ≡ first_count self.now number }
    {
        match Initiator::new(number as u8) {
            Some(initiator) if self.initiators.contains(initiator) => Count {
                skip: self.skip,
                times: self.times,
            },
            _ => Count::SPENT,
        }
    }

    /// A command is one that it meets.
    fn meets(&self, command: &SeenCommand<'_>) -> bool
        ensures { result ≡ meets command.now self.now }
    {
        has_code(command.code, self.code) && names_one(command, &self.blocks)
    }
}

fn has_code(code: Option<u8>, wanted: Option<u8>) -> bool
    ensures { result ≡ has_code code wanted }
{
    wanted.is_none() || code == wanted
}

fn names_one(command: &SeenCommand<'_>, blocks: &Option<BadBlocks>) -> bool
    ensures { result ≡ names_one command.now blocks.now }
{
    match blocks {
        Some(bad) => {
            command.first_read(bad.extent).is_some()
                || (command.first_overwritten(bad.extent).is_some() && !bad.is_healed_by(command))
        }
        None => true,
    }
}

/// What is left of a fault for one initiator.
#[derive(Clone, Copy)]
pub struct Count {
    /// The number of commands that pass before it does something.
    pub skip: u16,
    /// The number of commands after these to which it does something. None for all.
    pub times: Option<u16>,
}

impl Count {
    /// Nothing is left.
    const SPENT: Count = Count {
        skip: 0,
        times: Some(0),
    };

    fn is_spent(self) -> bool
        ensures { result ≡ is_spent self }
    {
        self.times == Some(0)
    }

    /// The next command that meets the fault does not pass.
    fn is_due(self) -> bool
        ensures { result ≡ is_due self }
    {
        self.skip == 0 && !self.is_spent()
    }

    /// What is left after a command that met the fault.
    fn next(self) -> Count
        ensures { result ≡ next_count self }
    {
        if self.skip > 0 {
            Count {
                skip: self.skip - 1,
                times: self.times,
            }
        } else {
            Count {
                skip: 0,
                times: self.times.map(|times| times.saturating_sub(1)),
            }
        }
    }
}

/// A fault that is armed on a disk, and what is left of it for each initiator.
#[derive(Clone, Copy)]
pub struct ArmedFault {
    /// The fault as it was armed.
    pub fault: Fault,
    /// What is left, by the number of the initiator. Nothing is left for one that it does not name.
    pub counts: [Count; Initiator::COUNT],
}

impl ArmedFault {
    /// A fault that is armed now.
    #[tactic(auto, unfolding(crate::specs::Arming::first_counts))]
    pub(crate) fn new(fault: Fault) -> ArmedFault
        ensures { result ≡ armed fault }
    {
        let mut counts = [Count::SPENT; Initiator::COUNT];
        for number in 0..Initiator::COUNT {
            counts[number] = fault.first_count(number);
        }
        ArmedFault { fault, counts }
    }

    /// A command is one that it meets.
    pub(crate) fn meets(&self, command: &SeenCommand<'_>) -> bool
        ensures { result ≡ meets command.now self.now.fault }
    {
        self.fault.meets(command)
    }

    /// The next command of an initiator that meets it does not pass.
    pub(crate) fn is_due(&self, initiator: Initiator) -> bool
        ensures { result ≡ is_due (count_for self.now initiator) }
    {
        self.counts[usize::from(initiator.number())].is_due()
    }

    /// It has met a command of an initiator.
    pub(crate) fn counted(&self, initiator: Initiator) -> ArmedFault
        ensures { result ≡ counted self.now initiator }
    {
        let number = usize::from(initiator.number());
        let mut counts = self.counts;
        counts[number] = counts[number].next();
        ArmedFault {
            fault: self.fault,
            counts,
        }
    }

    /// Something is left of it for some initiator.
    pub(crate) fn lasts(&self) -> bool
        ensures { result ≡ lasts self.now }
    {
        self.counts.iter().any(|count| !count.is_spent())
    }

    /// A command heals its blocks.
    pub(crate) fn is_healed_by(&self, command: &SeenCommand<'_>) -> bool
        ensures { result ≡ is_healed_by command.now self.now }
    {
        match &self.fault.blocks {
            Some(bad) => bad.is_healed_by(command),
            None => false,
        }
    }

    /// The first bad block that a command reads, or otherwise the first that it overwrites, if it lies on
    /// blocks.
    pub(crate) fn first_bad(&self, command: &SeenCommand<'_>) -> Option<u64>
        ensures { result ≡ first_bad command.now self.now.fault }
    {
        let bad = self.fault.blocks.as_ref()?.extent;
        command.first_read(bad).or(command.first_overwritten(bad))
    }
}
