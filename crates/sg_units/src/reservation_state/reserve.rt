// RESERVE, RELEASE and CLEAR (SPC-4, 5.13). Only CLEAR changes registrations.
ghost use Rattle.std.specs.Prelude.{◌≡◌, Ok};
ghost use Rattle.sg_units.specs.ReserveOut.{cleared, first_case, release_cases, release_outcome};
ghost use Rattle.sg_units.specs.ReserveOut.{reserve_cases};

use super::ReservationState;
use crate::registrations::Registrations;
use crate::reservation_change::ReservationChange;
use crate::{OutFault, Reservation, ReservationType, UnitAttention};
use sg_wire::Initiator;

impl ReservationState {
    /// A registrant takes a reservation, if none is held.
    #[tactic(auto, unfolding(crate::specs::ReserveOut::reserve_cases))]
    pub(super) fn reserve(
        &self,
        caller: Initiator,
        kind: ReservationType,
    ) -> Result<ReservationChange, OutFault>
        ensures { result ≡ first_case (reserve_cases self.now caller kind) }
    {
        if self.reservation.is_none() {
            return Ok(ReservationChange {
                reservation: Some(Reservation::taken(kind, caller)),
                ..self.unchanged()
            });
        }
        if self.is_holder(caller) && self.has_type(kind) {
            return Ok(self.unchanged());
        }
        Err(OutFault::Conflict)
    }

    /// A holder ends the reservation, if it has this type. None is a scope and type that are not valid,
    /// and that no reservation has.
    pub(super) fn release(
        &self,
        caller: Initiator,
        kind: Option<ReservationType>,
    ) -> Result<ReservationChange, OutFault>
        ensures { result ≡ release_outcome self.now caller kind }
    {
        match kind {
            Some(kind) => self.release_typed(caller, kind),
            None if self.is_holder(caller) => Err(OutFault::BadRelease),
            None => Ok(self.unchanged()),
        }
    }

    /// A holder ends the reservation, if it has this type.
    #[tactic(auto, unfolding(crate::specs::ReserveOut::release_cases))]
    fn release_typed(
        &self,
        caller: Initiator,
        kind: ReservationType,
    ) -> Result<ReservationChange, OutFault>
        ensures { result ≡ first_case (release_cases self.now caller kind) }
    {
        if !self.is_holder(caller) {
            return Ok(self.unchanged());
        }
        if !self.has_type(kind) {
            return Err(OutFault::BadRelease);
        }
        Ok(ReservationChange {
            reservation: None,
            for_remaining: Reservation::released(kind),
            ..self.unchanged()
        })
    }

    /// All registrations are removed, and the reservation ends.
    pub(super) fn clear(&self) -> ReservationChange
        ensures { Ok result ≡ cleared }
    {
        ReservationChange {
            registrations: Registrations::new(),
            reservation: None,
            for_removed: Some(UnitAttention::ReservationsPreempted),
            for_remaining: None,
            increments_generation: true,
            aptpl: None,
        }
    }
}
