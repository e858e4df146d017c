// A persistent reservation by itself: its type and its holder.
ghost use Rattle.std.specs.Prelude.{◌≡◌};
ghost use Rattle.sg_units.specs.ReserveOut.{released};
ghost use Rattle.sg_units.specs.ReservationType.{is_all_registrants};
ghost use Rattle.sg_units.specs.Reservations.{has_holder, holds, names_holder, taken};

use crate::registrations::Registrations;
use crate::{ReservationType, UnitAttention};
use sg_wire::Initiator;

/// A persistent reservation that is held (SPC-4, 5.13).
#[derive(Clone, Copy)]
pub struct Reservation {
    /// TYPE. Rust keeps the word `type` for itself.
    pub kind: ReservationType,
    /// Its one holder. None under an all registrants type: there each registrant is a holder.
    pub holder: Option<Initiator>,
}

impl Reservation {
    /// The reservation of a type that an initiator takes.
    pub(crate) fn taken(kind: ReservationType, initiator: Initiator) -> Reservation
        ensures { result ≡ taken kind initiator }
    {
        let holder = if kind.is_all_registrants() {
            None
        } else {
            Some(initiator)
        };
        Reservation { kind, holder }
    }

    /// Returns `true` if a registrant is a holder.
    pub(crate) fn is_held_by(&self, registrant: Initiator) -> bool
        ensures { result ≡ holds self.now registrant }
    {
        match self.holder {
            Some(holder) => registrant == holder,
            None => true,
        }
    }

    /// Returns `true` if one of the registrants is a holder.
    pub(crate) fn has_holder(&self, registrations: &Registrations) -> bool
        ensures { result ≡ has_holder self.now registrations.now }
    {
        registrations
            .as_slice()
            .iter()
            .any(|registration| self.is_held_by(registration.initiator))
    }

    /// Returns `true` if it names one holder, unless it is an all registrants reservation.
    pub(crate) fn names_holder(&self) -> bool
        ensures { result ≡ names_holder (is_all_registrants self.now.kind) self.now.holder }
    {
        self.kind.is_all_registrants() == self.holder.is_none()
    }

    /// The condition that the end of a reservation raises for the other registrants.
    pub(crate) fn released(kind: ReservationType) -> Option<UnitAttention>
        ensures { result ≡ released kind }
    {
        if kind.is_shared() {
            Some(UnitAttention::ReservationsReleased)
        } else {
            None
        }
    }
}
