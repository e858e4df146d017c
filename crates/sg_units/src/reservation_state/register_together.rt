// REGISTER with SPEC_I_PT (SPC-4, 5.13): an initiator registers others together with itself.
ghost use Rattle.std.specs.Prelude.{◌≡◌, ◌+◌, ◌≤◌, length, nat_lt, None, Some, true, false, if◌then◌else◌};
ghost use Rattle.sg_wire.specs.OutList.{transport_ids_at};
ghost use Rattle.sg_units.specs.Registrations.{max_registrations};
ghost use Rattle.sg_units.specs.ReserveOut.{first_case, first_unknown, register_together_cases};
ghost use Rattle.sg_units.specs.ReserveOut.{registered_together, registered_too};

use super::ReservationState;
use super::register::registration_by;
use crate::registrations::Registrations;
use crate::reservation_change::ReservationChange;
use crate::{OutFault, OutList};
use sg_wire::{Initiator, TransportIds};

impl ReservationState {
    /// Registers an initiator, and each that a TransportID names and that is not registered. All of
    /// them get the same key. Either all are registered, or nothing changes. Key 0 changes nothing.
    #[tactic(auto, unfolding(crate::specs::ReserveOut::register_together_cases))]
    pub(super) fn register_together(
        &self,
        caller: Initiator,
        list: &OutList,
    ) -> Result<ReservationChange, OutFault>
        ensures { result ≡ first_case (register_together_cases self.now caller list.now) }
    {
        if self.registrations.has(caller) {
            return Err(OutFault::Field(OutList::FLAGS_AT as u16));
        }
        if list.service_action_key == 0 {
            return Ok(self.unchanged());
        }
        if let Some(byte) = first_unknown(&list.others) {
            return Err(OutFault::Field(byte));
        }
        match registered_together(&self.registrations, caller, list) {
            Some(registrations) => Ok(self.registering(registrations, list.aptpl)),
            None => Err(OutFault::NoRoom),
        }
    }
}

/// The first byte of the first TransportID that names no initiator of the disk.
fn first_unknown(others: &TransportIds) -> Option<u16>
    ensures { result ≡ first_unknown transport_ids_at others.now }
{
    for index in 0..others.len() {
        if others.initiator(index).is_none() {
            return Some((OutList::TRANSPORT_IDS_AT + TransportIds::LENGTH * index) as u16);
        }
    }
    None
}

/// The registrations with the caller's, and then those of the others. None if there is no room.
#[tactic(auto, unfolding(crate::specs::ReserveOut::registered_together))]
fn registered_together(
    before: &Registrations,
    caller: Initiator,
    list: &OutList,
) -> Option<Registrations>
    ensures { let all = registered_together before.now caller list.now in
        result ≡ if nat_lt max_registrations (length all) then None else Some all }
{
    let mut registrations = before.copied();
    if !register_too(&mut registrations, Some(caller), list) {
        return None;
    }
    for index in 0..list.others.len() {
        if !register_too(&mut registrations, list.others.initiator(index), list) {
            return None;
        }
    }
    Some(registrations)
}

/// Registers an initiator that is not registered. Returns `false` if there is no room.
fn register_too(registrations: &mut Registrations, named: Option<Initiator>, list: &OutList) -> bool
    ensures done { result ≡ true
        → registrations.new ≡ registered_too list.now registrations.old named }
    ensures no_room { result ≡ false
        → length (registered_too list.now registrations.old named) ≡ max_registrations + 1 }
    ensures at_most { length registrations.new ≤ max_registrations }
{
    let is_full = registrations.is_full();
    match named {
        Some(initiator) if !registrations.has(initiator) => {
            if is_full {
                return false;
            }
            registrations.register(registration_by(list, initiator));
            true
        }
        _ => true,
    }
}
