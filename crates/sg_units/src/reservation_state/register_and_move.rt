// REGISTER AND MOVE (SPC-4, 5.13): the holder registers another initiator, which takes the reservation.
ghost use Rattle.std.specs.Prelude.{◌≡◌, length, nat_lt, None, Some, if◌then◌else◌};
ghost use Rattle.sg_units.specs.Registrations.{max_registrations};
ghost use Rattle.sg_units.specs.ReserveOut.{first_case, move_cases, moved_to, with_moved};

use super::ReservationState;
use super::read_full_status::RELATIVE_TARGET_PORT;
use super::register::registration_by;
use crate::registrations::Registrations;
use crate::reservation_change::ReservationChange;
use crate::{OutFault, OutList, Reservation};
use sg_wire::{Initiator, TransportIds};

impl ReservationState {
    /// The one holder moves the reservation to the initiator that the list names. That initiator is
    /// registered, and with UNREG the caller is not registered any more.
    #[tactic(auto, unfolding(crate::specs::ReserveOut::move_cases))]
    pub(super) fn register_and_move(
        &self,
        caller: Initiator,
        list: &OutList,
    ) -> Result<ReservationChange, OutFault>
        ensures { result ≡ first_case (move_cases self.now caller list.now) }
    {
        let Some(held) = &self.reservation else {
            return Err(OutFault::NoReservation);
        };
        if held.holder.is_none() || !self.is_holder(caller) {
            return Err(OutFault::Conflict);
        }
        if list.service_action_key == 0 {
            return Err(OutFault::Field(OutList::SERVICE_ACTION_KEY_AT as u16));
        }
        if list.port != RELATIVE_TARGET_PORT {
            return Err(OutFault::Field(OutList::PORT_AT as u16));
        }
        if list.others.len() == 0 {
            return Err(OutFault::Field(OutList::MOVED_TO_LENGTH_AT as u16));
        }
        let target = moved_to(&list.others).unwrap_or(caller);
        if target == caller {
            return Err(OutFault::Field(OutList::MOVED_TO_AT as u16));
        }
        let registrations = with_moved(&self.registrations, caller, target, list).ok_or(
            OutFault::NoRoom,
        )?;
        Ok(ReservationChange {
            reservation: Some(Reservation {
                holder: Some(target),
                ..*held
            }),
            ..self.registering(registrations, list.aptpl)
        })
    }
}

/// The initiator that the one TransportID names.
#[tactic(auto, using(crate::proofs::MoveLemmas::one_named))]
fn moved_to(others: &TransportIds) -> Option<Initiator>
    ensures { result ≡ moved_to others.now }
{
    if others.len() == 1 {
        others.initiator(0)
    } else {
        None
    }
}

/// The registrations with another initiator's, and with UNREG without the caller's. None if there is no
/// room.
#[tactic(auto, using(crate::proofs::MoveLemmas::room))]
fn with_moved(
    before: &Registrations,
    caller: Initiator,
    target: Initiator,
    list: &OutList,
) -> Option<Registrations>
    ensures { let all = with_moved before.now caller target list.now in
        result ≡ if nat_lt max_registrations (length all) then None else Some all }
{
    let new = registration_by(list, target);
    let mut registrations = before.copied();
    if list.unreg {
        registrations.remove(caller);
    }
    if registrations.has(target) {
        return Some(registrations.with_replaced(&new));
    }
    if registrations.is_full() {
        return None;
    }
    registrations.register(new);
    Some(registrations)
}
