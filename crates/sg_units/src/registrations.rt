// The registrants and their keys, in the order of registration.
ghost use Rattle.std.specs.Prelude.{◌≡◌, ◌<◌, ◌≤◌, ◌^◌, ◌==◌, [], length, nat_le, nat_lt};
ghost use Rattle.std.specs.Prelude.{Some, None, if◌then◌else◌};
ghost use Rattle.sg_units.specs.Registrations.{has_key, is_of, is_registered, is_registered_under};
ghost use Rattle.sg_units.specs.Registrations.{key_of, max_registrations, registered_mask};
ghost use Rattle.sg_units.specs.Registrations.{registrations_of, room_for_registrations};
ghost use Rattle.sg_units.specs.Restored.{each_once};
ghost use Rattle.sg_units.specs.Registrations.{with_registration, with_replaced};
ghost use Rattle.sg_units.specs.Registrations.{without_initiator, without_key};
ghost use Rattle.sg_units.specs.Registrations.{without_key_of_others, without_others};

use arrayvec::ArrayVec;
use sg_wire::{Initiator, Rules};
use std::marker::Model;

/// An initiator that is registered, a registrant, and its reservation key (SPC-4, 5.13).
#[derive(Clone, Copy, Default)]
pub struct Registration {
    /// The registrant.
    pub initiator: Initiator,
    /// The reservation key.
    pub key: u64,
    /// ALL_TG_PT: the registration is for every target port.
    pub all_tg_pt: bool,
}

impl Registration {
    fn is_of(&self, initiator: Initiator) -> bool
        ensures { result ≡ is_of initiator self.now }
    {
        self.initiator == initiator
    }
}

/// The most registrations on a disk of any profile: one of each initiator.
pub(crate) const MAX_REGISTRATIONS: usize = Initiator::COUNT;

/// The number of registrations that there is room for on a disk of the base profile.
const BASE_ROOM: usize = 6;

/// The registrations, in the order in which they were made.
#[derive(Drop)]
pub(crate) struct Registrations {
    items: ArrayVec<Registration, MAX_REGISTRATIONS>,
}

impl Model for Registrations {
    ghost use Rattle.std.specs.Prelude.{List};
    ghost use Rattle.sg_units.specs.declared.registrations.Registration.{Registration};

    ghost Value = { List Registration };

    ghost view = { λ r. r.items.items };
}

impl Registrations {
    pub(crate) fn new() -> Registrations
        ensures { result ≡ [] }
    {
        Registrations {
            items: ArrayVec::new(),
        }
    }

    pub(crate) fn as_slice(&self) -> &[Registration]
        ensures value { result.now ≡ self.now }
        ensures at_most { length self.now ≤ max_registrations }
    {
        self.items.as_slice()
    }

    pub(crate) fn is_full(&self) -> bool
        ensures value { result ≡ (length self.now == max_registrations) }
        ensures at_most { length self.now ≤ max_registrations }
    {
        self.items.is_full()
    }

    /// Returns `true` if there is room for a new registration on a disk with these rules.
    pub(crate) fn has_room(&self, rules: Rules) -> bool
        ensures value { result ≡ nat_lt (length self.now) (room_for_registrations rules) }
        ensures at_most { room_for_registrations rules ≤ max_registrations }
    {
        let room = if rules.has_room_for_all_registrations {
            MAX_REGISTRATIONS
        } else {
            BASE_ROOM
        };
        self.items.len() < room
    }

    /// Returns `true` if an initiator is registered.
    pub(crate) fn has(&self, initiator: Initiator) -> bool
        ensures { result ≡ is_registered self.now initiator }
    {
        self.items
            .as_slice()
            .iter()
            .any(|registration| registration.is_of(initiator))
    }

    /// Returns `true` if an initiator is registered under a key.
    pub(crate) fn has_under(&self, initiator: Initiator, key: u64) -> bool
        ensures { result ≡ is_registered_under self.now initiator key }
    {
        self.items.as_slice().iter().any(|registration| registration.is_of(initiator)
            && registration.key == key)
    }

    /// Returns `true` if some initiator is registered under a key.
    pub(crate) fn has_key(&self, key: u64) -> bool
        ensures { result ≡ has_key self.now key }
    {
        self.items
            .as_slice()
            .iter()
            .any(|registration| registration.key == key)
    }

    /// A mask of the registrants.
    pub(crate) fn mask(&self) -> u64
        ensures { result ≡ registered_mask self.now }
    {
        self.items
            .as_slice()
            .iter()
            .map(|registration| bit_of(registration.initiator))
            .fold(0, |mask, bit| mask | bit)
    }

    /// The reservation key of an initiator.
    pub(crate) fn key_of(&self, initiator: Initiator) -> Option<u64>
        ensures { result ≡ key_of self.now initiator }
    {
        self.items
            .as_slice()
            .iter()
            .find(|registration| registration.is_of(initiator))
            .map(|registration| registration.key)
    }

    pub(crate) fn copied(&self) -> Registrations
        ensures { result ≡ self.now }
    {
        let mut items = ArrayVec::new();
        for registration in self.items.as_slice() {
            items.push(*registration);
        }
        Registrations { items }
    }

    /// The registrations of a slice. None if there is no room for so many.
    pub(crate) fn of(registrations: &[Registration]) -> Option<Registrations>
        ensures { result ≡ (if nat_le (length registrations.now) max_registrations
            then Some registrations.now else None) }
    {
        if registrations.len() > MAX_REGISTRATIONS {
            return None;
        }
        let mut items = ArrayVec::new();
        for registration in registrations {
            items.push(*registration);
        }
        Some(Registrations { items })
    }

    /// The number of registrations that an initiator has.
    fn count_of(&self, initiator: Initiator) -> usize
        ensures { result ≡ registrations_of self.now initiator }
    {
        self.items
            .as_slice()
            .iter()
            .filter(|registration| registration.is_of(initiator))
            .count()
    }

    /// Returns `true` if the initiator of each registration has no other one.
    pub(crate) fn each_once(&self) -> bool
        ensures { result ≡ each_once self.now }
    {
        self.items
            .as_slice()
            .iter()
            .all(|registration| self.count_of(registration.initiator) <= 1)
    }

    /// Adds a registration.
    pub(crate) fn register(&mut self, registration: Registration)
        requires { length self.old < max_registrations }
        ensures { self.new ≡ with_registration self.old registration }
    {
        self.items.push(registration);
    }

    /// The registrations with one in the place of its initiator's.
    pub(crate) fn with_replaced(&self, new: &Registration) -> Registrations
        ensures { result ≡ with_replaced self.now new.now }
    {
        let mut items = ArrayVec::new();
        for registration in self.items.as_slice() {
            if registration.is_of(new.initiator) {
                items.push(*new);
            } else {
                items.push(*registration);
            }
        }
        Registrations { items }
    }

    /// Removes the registration of an initiator.
    pub(crate) fn remove(&mut self, initiator: Initiator)
        ensures { self.new ≡ without_initiator self.old initiator }
    {
        self.items
            .retain(|registration| !registration.is_of(initiator));
    }

    /// Removes all registrations under a key.
    pub(crate) fn remove_key(&mut self, key: u64)
        ensures { self.new ≡ without_key self.old key }
    {
        self.items.retain(|registration| registration.key != key);
    }

    /// Removes the registrations under a key that are not an initiator's.
    pub(crate) fn remove_key_of_others(&mut self, initiator: Initiator, key: u64)
        ensures { self.new ≡ without_key_of_others self.old initiator key }
    {
        self.items.retain(|registration| registration.is_of(initiator) || registration.key != key);
    }

    /// Removes all registrations that are not an initiator's.
    pub(crate) fn remove_others(&mut self, initiator: Initiator)
        ensures { self.new ≡ without_others self.old initiator }
    {
        self.items
            .retain(|registration| registration.is_of(initiator));
    }
}

/// The bit of an initiator in a mask.
#[tactic(auto, using(std::proofs::lemmas::Nat::one_shl))]
fn bit_of(initiator: Initiator) -> u64
    ensures { result ≡ 2 ^ initiator }
{
    1 << initiator.number()
}
