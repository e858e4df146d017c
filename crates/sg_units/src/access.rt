// The commands that a persistent reservation allows.
ghost use Rattle.std.specs.Prelude.{◌≡◌};
ghost use Rattle.sg_units.specs.Access.{access_of, highest_class, is_within};

use crate::ReservationType;
use sg_wire::Class;

/// The standing of an initiator towards the reservation.
#[derive(Clone, Copy)]
pub(crate) enum Standing {
    // It is a holder.
    Holder,
    // It is registered, and no holder.
    Registrant,
    // It is not registered.
    Unregistered,
}

/// The highest class of commands that a reservation allows to an initiator.
pub(crate) fn highest_class(kind: ReservationType, standing: Standing) -> Class
    ensures { result ≡ highest_class (access_of kind) standing }
{
    match standing {
        Standing::Holder => Class::Writes,
        Standing::Registrant if kind.is_shared() => Class::Writes,
        Standing::Registrant | Standing::Unregistered => class_of_others(kind),
    }
}

/// The highest class that is allowed to initiators that do not share the reservation.
fn class_of_others(kind: ReservationType) -> Class
    ensures { result ≡ highest_class (access_of kind) Standing.Unregistered }
{
    match kind {
        ReservationType::WriteExclusive
        | ReservationType::WriteExclusiveRegistrantsOnly
        | ReservationType::WriteExclusiveAllRegistrants => Class::Reads,
        ReservationType::ExclusiveAccess
        | ReservationType::ExclusiveAccessRegistrantsOnly
        | ReservationType::ExclusiveAccessAllRegistrants => Class::Always,
    }
}

/// Returns `true` if a class is the highest one that is allowed, or a lower one.
pub(crate) fn is_within(highest: Class, class: Class) -> bool
    ensures { result ≡ is_within highest class }
{
    match (highest, class) {
        (Class::Writes, _) | (_, Class::Always) | (Class::Reads, Class::Reads) => true,
        (Class::Always, Class::Reads) | (_, Class::Writes) => false,
    }
}
