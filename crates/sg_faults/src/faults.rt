// The faults that are armed on a disk.
ghost use Rattle.std.specs.Prelude.{◌≡◌, ◌<◌, None, length, slice_set};
ghost use Rattle.sg_faults.specs.Faults.{after_asking, asked, decided, disarmed, healed, healed_slot};
ghost use Rattle.sg_faults.specs.Faults.{have_room_after, is_armed, max_faults, met, no_faults};
ghost use Rattle.sg_faults.specs.Faults.{struck_by, struck_in, with_fault};

use crate::fault::{ArmedFault, Fault};
use crate::outcome::{Place, Struck};
use crate::seen::SeenCommand;
use std::marker::Model;

/// The most faults that there is room for.
pub const MAX_FAULTS: usize = 8;

/// The armed faults, by their numbers. Those with lower numbers come first.
#[derive(Drop)]
pub struct Faults {
    slots: [Option<ArmedFault>; MAX_FAULTS],
    /// Whether none is armed: each command asks.
    is_idle: bool,
}

impl Model for Faults {
    ghost use Rattle.std.specs.Prelude.{◌≡◌, List, Option, length, not};
    ghost use Rattle.sg_faults.specs.Faults.{is_armed, max_faults};
    ghost use Rattle.sg_faults.specs.declared.fault.ArmedFault.{ArmedFault};

    ghost Value = { List (Option ArmedFault) };

    ghost view = { λ f. f.slots };

    ghost invariant = { λ f. (f.is_idle ≡ not (is_armed f.slots)) × (length f.slots ≡ max_faults) };
}

impl Faults {
    /// No fault is armed.
    pub fn new() -> Faults
        ensures { result ≡ no_faults }
    {
        Faults {
            slots: [None; MAX_FAULTS],
            is_idle: true,
        }
    }

    /// The faults that are armed under each number, with what is left of them.
    pub fn restored(slots: [Option<ArmedFault>; MAX_FAULTS]) -> Faults
        ensures { result ≡ slots }
    {
        let is_idle = !is_armed(&slots);
        Faults { slots, is_idle }
    }

    /// Returns `true` if a fault is armed.
    pub fn is_armed(&self) -> bool
        ensures { result ≡ is_armed self.now }
    {
        !self.is_idle
    }

    /// What is armed under each number.
    pub fn as_slice(&self) -> &[Option<ArmedFault>]
        ensures value { result.now ≡ self.now }
        ensures size { length self.now ≡ max_faults }
    {
        &self.slots[..]
    }

    /// Arms a fault, under the lowest free number. If no number is free, nothing changes.
    pub fn arm(&mut self, fault: &Fault)
        ensures { self.new ≡ with_fault self.old fault.now }
    {
        for number in 0..self.as_slice().len() {
            if self.slots[number].is_none() {
                self.put(number, Some(ArmedFault::new(*fault)));
                return;
            }
        }
    }

    /// Takes away the fault with a number, if there is one.
    pub fn disarm(&mut self, number: usize)
        ensures { self.new ≡ disarmed self.old number }
    {
        if number < self.as_slice().len() {
            self.put(number, None);
        }
    }

    /// Takes away all faults.
    pub fn disarm_all(&mut self)
        ensures { self.new ≡ no_faults }
    {
        *self = Faults::new();
    }

    /// Asks the faults of a place about a command, in the order of their numbers. The first that is
    /// due does something to it. That fault, and those before it that the command meets, are counted.
    /// Those of which nothing is left go.
    pub fn ask<P: Place>(&mut self, command: &SeenCommand<'_>) -> Option<Struck<P>>
        ensures struck { result ≡ decided P.at command.now self.old }
        ensures faults { self.new ≡ asked P.at command.now self.old }
    {
        for number in 0..self.as_slice().len() {
            let struck = struck_in(&self.slots[number], command);
            let left = after_asking::<P>(&self.slots[number], command);
            self.put(number, left);
            if struck.is_some() {
                return struck;
            }
        }
        None
    }

    /// Returns `true` if a number is free when a command has healed its blocks.
    pub fn have_room_after(&self, command: &SeenCommand<'_>) -> bool
        ensures { result ≡ have_room_after command.now self.now }
    {
        self.slots
            .iter()
            .any(|slot| healed_slot(*slot, command).is_none())
    }

    /// Takes away the faults whose blocks a command heals.
    #[tactic(auto, unfolding(crate::specs::Faults::healed))]
    pub fn heal(&mut self, command: &SeenCommand<'_>)
        ensures { self.new ≡ healed command.now self.old }
    {
        for number in 0..self.as_slice().len() {
            let slot = self.slots[number];
            self.put(number, healed_slot(slot, command));
        }
    }

    /// Sets the fault with a number.
    fn put(&mut self, number: usize, slot: Option<ArmedFault>)
        requires { number < max_faults }
        ensures { self.new ≡ slice_set self.old number slot }
    {
        self.slots[number] = slot;
        self.is_idle = !is_armed(&self.slots);
    }
}

fn is_armed(slots: &[Option<ArmedFault>]) -> bool
    ensures { result ≡ is_armed slots.now }
{
    slots.iter().any(|slot| slot.is_some())
}

/// What the fault under a number does to a command at a place.
fn struck_in<P: Place>(slot: &Option<ArmedFault>, command: &SeenCommand<'_>) -> Option<Struck<P>>
    ensures { result ≡ struck_in P.at command.now slot.now }
{
    struck_by(slot.as_ref()?, command)
}

/// What a fault does to a command at a place, if it is of that place, meets the command and is due.
fn struck_by<P: Place>(armed: &ArmedFault, command: &SeenCommand<'_>) -> Option<Struck<P>>
    ensures { result ≡ struck_by P.at command.now armed.now }
{
    let outcome = P::of(armed.fault.outcome)?;
    if armed.meets(command) && armed.is_due(command.initiator) {
        Some(Struck {
            outcome,
            first_bad: armed.first_bad(command),
        })
    } else {
        None
    }
}

/// What is under a number after the faults of a place were asked about a command.
fn after_asking<P: Place>(
    slot: &Option<ArmedFault>,
    command: &SeenCommand<'_>,
) -> Option<ArmedFault>
    ensures { result ≡ after_asking P.at command.now slot.now }
{
    let met = met::<P>(slot.as_ref()?, command);
    if met.lasts() { Some(met) } else { None }
}

/// A fault after it was asked about a command at a place.
fn met<P: Place>(armed: &ArmedFault, command: &SeenCommand<'_>) -> ArmedFault
    ensures { result ≡ met P.at command.now armed.now }
{
    if P::of(armed.fault.outcome).is_some() && armed.meets(command) {
        armed.counted(command.initiator)
    } else {
        *armed
    }
}

/// What is under a number after a command that heals its blocks.
fn healed_slot(slot: Option<ArmedFault>, command: &SeenCommand<'_>) -> Option<ArmedFault>
    ensures { result ≡ healed_slot command.now slot }
{
    let armed = slot?;
    if armed.is_healed_by(command) {
        None
    } else {
        Some(armed)
    }
}
