// The registrations, the reservation and PRGENERATION. The state says who holds the reservation,
// and which initiators may execute which commands. The service actions are in the folder of this
// name.
mod persistent_reserve_in;
mod persistent_reserve_out;
mod preempt;
mod read_full_status;
mod register;
mod register_and_move;
mod register_together;
mod reserve;

ghost use Rattle.std.specs.Prelude.{◌≡◌};
ghost use Rattle.sg_units.specs.Access.{allows, standing_of};
ghost use Rattle.sg_units.specs.ReserveOut.{registering, unchanged};
ghost use Rattle.sg_units.specs.Reservations.{has_type, is_holder, while_held};
ghost use Rattle.sg_units.specs.PowerOn.{empty_state};

use crate::access::{Standing, highest_class, is_within};
use crate::registrations::Registrations;
use crate::reservation_change::ReservationChange;
use crate::{Reservation, ReservationType};
pub use read_full_status::LONGEST_RESERVE_IN_DATA;
use sg_wire::{Class, Initiator};

/// The registrations, the reservation that is held, PRGENERATION, and whether a power loss leaves
/// registrations and reservation.
#[derive(Drop)]
pub(crate) struct ReservationState {
    // In the order in which the initiators registered.
    pub(crate) registrations: Registrations,
    // The reservation that is held.
    pub(crate) reservation: Option<Reservation>,
    // PRGENERATION.
    pub(crate) generation: u32,
    // APTPL of the last command that registered or unregistered.
    pub(crate) persists_through_power_loss: bool,
}

impl ReservationState {
    pub(crate) fn new() -> ReservationState
        ensures { result ≡ empty_state }
    {
        ReservationState {
            registrations: Registrations::new(),
            reservation: None,
            generation: 0,
            persists_through_power_loss: false,
        }
    }

    /// Returns `true` if an initiator holds the reservation.
    pub(crate) fn is_holder(&self, initiator: Initiator) -> bool
        ensures { result ≡ is_holder self.now initiator }
    {
        match &self.reservation {
            Some(reservation) => {
                self.registrations.has(initiator) && reservation.is_held_by(initiator)
            }
            None => false,
        }
    }

    /// Returns `true` if a reservation is held, and is of a type.
    pub(crate) fn has_type(&self, kind: ReservationType) -> bool
        ensures { result ≡ has_type self.now.reservation kind }
    {
        match &self.reservation {
            Some(reservation) => reservation.kind == kind,
            None => false,
        }
    }

    /// The reservation, if one of the registrants holds it.
    pub(crate) fn while_held(&self, registrations: &Registrations) -> Option<Reservation>
        ensures { result ≡ while_held self.now.reservation registrations.now }
    {
        match &self.reservation {
            Some(reservation) if reservation.has_holder(registrations) => Some(*reservation),
            _ => None,
        }
    }

    fn standing_of(&self, initiator: Initiator) -> Standing
        ensures { result ≡ standing_of self.now initiator }
    {
        if self.is_holder(initiator) {
            Standing::Holder
        } else if self.registrations.has(initiator) {
            Standing::Registrant
        } else {
            Standing::Unregistered
        }
    }

    /// Returns `true` if an initiator's command of a class is allowed.
    pub(crate) fn allows(&self, initiator: Initiator, class: Class) -> bool
        ensures { result ≡ allows self.now initiator class }
    {
        match &self.reservation {
            Some(reservation) => {
                let standing = self.standing_of(initiator);
                is_within(highest_class(reservation.kind, standing), class)
            }
            None => true,
        }
    }

    /// Nothing changes, and no condition is raised.
    fn unchanged(&self) -> ReservationChange
        ensures { result ≡ unchanged self.now }
    {
        ReservationChange {
            registrations: self.registrations.copied(),
            reservation: self.reservation,
            for_removed: None,
            for_remaining: None,
            increments_generation: false,
            aptpl: None,
        }
    }

    /// An initiator registers or unregisters, with these registrations afterwards. From then on its
    /// APTPL decides what a power loss leaves.
    fn registering(&self, registrations: Registrations, aptpl: bool) -> ReservationChange
        ensures { result ≡ registering self.now registrations aptpl }
    {
        ReservationChange {
            registrations,
            increments_generation: true,
            aptpl: Some(aptpl),
            ..self.unchanged()
        }
    }
}
