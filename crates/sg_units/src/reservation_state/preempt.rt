// PREEMPT and PREEMPT AND ABORT (SPC-4, 5.13) are the same here: no command is left to abort.
ghost use Rattle.std.specs.Prelude.{◌≡◌, ◌&&◌, ◌||◌, Ok, is_none};
ghost use Rattle.sg_units.specs.ReserveOut.{first_case, has_one_holder, is_held_by_all};
ghost use Rattle.sg_units.specs.ReserveOut.{is_key_of_holder, preempt_cases};
ghost use Rattle.sg_units.specs.ReserveOut.{preempted, registrations_preempted};

use super::ReservationState;
use crate::registrations::Registrations;
use crate::reservation_change::ReservationChange;
use crate::{OutFault, OutList, Reservation, ReservationType, UnitAttention};
use sg_wire::{Initiator, Rules};

impl ReservationState {
    /// Removes the registrations under a key. The caller takes the reservation if the key is the
    /// holder's, or if the key is 0 and each registrant is a holder.
    #[tactic(auto, unfolding(crate::specs::ReserveOut::preempt_cases))]
    pub(super) fn preempt(
        &self,
        rules: Rules,
        caller: Initiator,
        kind: Option<ReservationType>,
        service_action_key: u64,
    ) -> Result<ReservationChange, OutFault>
        ensures { result ≡
            first_case (preempt_cases rules self.now caller kind service_action_key) }
    {
        if self.needs_some_key(rules) && service_action_key == 0 {
            return Err(OutFault::Field(OutList::SERVICE_ACTION_KEY_AT as u16));
        }
        let mut registrations = self.registrations.copied();
        if self.is_key_of_holder(service_action_key) {
            registrations.remove_key_of_others(caller, service_action_key);
            return self.preempted(caller, kind, registrations);
        }
        if self.is_held_by_all() && service_action_key == 0 {
            registrations.remove_others(caller);
            return self.preempted(caller, kind, registrations);
        }
        if !self.registrations.has_key(service_action_key) {
            return Err(OutFault::Conflict);
        }
        registrations.remove_key(service_action_key);
        Ok(self.registrations_preempted(registrations))
    }

    /// The caller takes the reservation, and these registrations remain.
    fn preempted(
        &self,
        caller: Initiator,
        kind: Option<ReservationType>,
        registrations: Registrations,
    ) -> Result<ReservationChange, OutFault>
        ensures { result ≡ preempted self.now.reservation caller kind registrations }
    {
        let kind = kind.ok_or(OutFault::BadType)?;
        let for_remaining = if self.has_type(kind) {
            None
        } else {
            Some(UnitAttention::ReservationsReleased)
        };
        Ok(ReservationChange {
            registrations,
            reservation: Some(Reservation::taken(kind, caller)),
            for_removed: Some(UnitAttention::RegistrationsPreempted),
            for_remaining,
            increments_generation: true,
            aptpl: None,
        })
    }

    /// These registrations remain, and the reservation, if one of them holds it.
    fn registrations_preempted(&self, registrations: Registrations) -> ReservationChange
        ensures { Ok result ≡ registrations_preempted self.now.reservation registrations }
    {
        let reservation = self.while_held(&registrations);
        ReservationChange {
            registrations,
            reservation,
            for_removed: Some(UnitAttention::RegistrationsPreempted),
            for_remaining: None,
            increments_generation: true,
            aptpl: None,
        }
    }

    /// Returns `true` if key 0 names no registration to preempt: one initiator holds the reservation,
    /// or by these rules none does.
    fn needs_some_key(&self, rules: Rules) -> bool
        ensures { result ≡ (has_one_holder self.now.reservation
            || (rules.preempt_needs_a_key && is_none self.now.reservation)) }
    {
        self.has_one_holder() || rules.preempt_needs_a_key && self.reservation.is_none()
    }

    fn has_one_holder(&self) -> bool
        ensures { result ≡ has_one_holder self.now.reservation }
    {
        match &self.reservation {
            Some(reservation) => reservation.holder.is_some(),
            None => false,
        }
    }

    fn is_held_by_all(&self) -> bool
        ensures { result ≡ is_held_by_all self.now.reservation }
    {
        match &self.reservation {
            Some(reservation) => reservation.holder.is_none(),
            None => false,
        }
    }

    /// Returns `true` if a key is the key of the one holder.
    fn is_key_of_holder(&self, key: u64) -> bool
        ensures { result ≡ is_key_of_holder self.now key }
    {
        match &self.reservation {
            Some(reservation) => match reservation.holder {
                Some(holder) => self.registrations.has_under(holder, key),
                None => false,
            },
            None => false,
        }
    }
}
