// REGISTER and REGISTER AND IGNORE EXISTING KEY (SPC-4, 5.13) differ only in the check of the key.
// The check comes before.
ghost use Rattle.std.specs.Prelude.{◌≡◌};
ghost use Rattle.sg_units.specs.ReserveOut.{first_case, register_cases, registering};
ghost use Rattle.sg_units.specs.ReserveOut.{registration_by, released_unless_held};
ghost use Rattle.sg_units.specs.Registrations.{without_initiator};
ghost use Rattle.sg_units.specs.Reservations.{while_held};

use super::ReservationState;
use crate::registrations::Registrations;
use crate::reservation_change::ReservationChange;
use crate::{OutFault, OutList, Registration, Reservation, UnitAttention};
use sg_wire::{Initiator, Rules};

impl ReservationState {
    /// Registers an initiator, replaces its key, or with key 0 unregisters it. From then on APTPL
    /// decides what a power loss leaves. Key 0 of an initiator that is not registered changes nothing.
    #[tactic(auto, unfolding(crate::specs::ReserveOut::register_cases))]
    pub(super) fn register(
        &self,
        rules: Rules,
        caller: Initiator,
        list: &OutList,
    ) -> Result<ReservationChange, OutFault>
        ensures { result ≡ first_case (register_cases rules self.now caller list.now) }
    {
        let own = registration_by(list, caller);
        if self.registrations.has(caller) {
            if own.key == 0 {
                return Ok(self.unregistered(caller, list.aptpl));
            }
            let replaced = self.registrations.with_replaced(&own);
            return Ok(self.registering(replaced, list.aptpl));
        }
        if own.key == 0 {
            return Ok(self.unchanged());
        }
        if !self.registrations.has_room(rules) {
            return Err(OutFault::NoRoom);
        }
        let mut registrations = self.registrations.copied();
        registrations.register(own);
        Ok(self.registering(registrations, list.aptpl))
    }

    /// An initiator is unregistered. The reservation ends if no registrant holds it any more.
    fn unregistered(&self, caller: Initiator, aptpl: bool) -> ReservationChange
        ensures { let rest = without_initiator self.now.registrations caller in
            result ≡ record (registering self.now rest aptpl) {
              reservation = while_held self.now.reservation rest;
              for_remaining = released_unless_held self.now.reservation rest;
            } }
    {
        let mut registrations = self.registrations.copied();
        registrations.remove(caller);
        let reservation = self.while_held(&registrations);
        let for_remaining = self.released_unless_held(&registrations);
        ReservationChange {
            reservation,
            for_remaining,
            ..self.registering(registrations, aptpl)
        }
    }

    /// The condition for the registrants that remain, if none of them holds the reservation.
    fn released_unless_held(&self, registrations: &Registrations) -> Option<UnitAttention>
        ensures { result ≡ released_unless_held self.now.reservation registrations.now }
    {
        match &self.reservation {
            Some(reservation) if !reservation.has_holder(registrations) => {
                Reservation::released(reservation.kind)
            }
            _ => None,
        }
    }
}

/// The registration of an initiator that a parameter list asks for.
pub(super) fn registration_by(list: &OutList, initiator: Initiator) -> Registration
    ensures { result ≡ registration_by list.now initiator }
{
    Registration {
        initiator,
        key: list.service_action_key,
        all_tg_pt: list.all_tg_pt,
    }
}
