//! Laws of the room for registrations (SPC-4, 5.13, registering).
ghost use Rattle.sg_fencing.specs.Room.{RegistrantsAreInitiators, RegistrationsHaveRoom};

/// Each registrant stays one of the 64 initiators that a disk can have, whatever command an initiator
/// sends. A TransportID of another number names nobody.
pub fn registrants_are_initiators()
    ensures { RegistrantsAreInitiators }
{}

/// An extended disk has room for a registration of each initiator. So no PERSISTENT RESERVE OUT is refused
/// with INSUFFICIENT REGISTRATION RESOURCES, 55h/04h.
pub fn registrations_have_room()
    ensures { RegistrationsHaveRoom }
{}
