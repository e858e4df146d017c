// A change is a value, so that it is decided whole before any of it is made.
use crate::registrations::Registrations;
use crate::{Reservation, UnitAttention};

/// The change that a PERSISTENT RESERVE OUT makes, if it is not refused.
#[derive(Drop)]
pub struct ReservationChange {
    // The registrations afterwards.
    pub(crate) registrations: Registrations,
    // The reservation afterwards.
    pub(crate) reservation: Option<Reservation>,
    // The condition for each other initiator whose registration is removed.
    pub(crate) for_removed: Option<UnitAttention>,
    // The condition for each other initiator whose registration remains.
    pub(crate) for_remaining: Option<UnitAttention>,
    // PRGENERATION is incremented.
    pub(crate) increments_generation: bool,
    // APTPL of a command that registers or unregisters.
    pub(crate) aptpl: Option<bool>,
}
