use thiserror::Error;

/// The reason why PERSISTENT RESERVE OUT is refused.
#[derive(Clone, Copy, Debug, Error, PartialEq, Eq)]
pub enum OutFault {
    /// RESERVATION CONFLICT, a status without sense data.
    #[error("reservation conflict")]
    Conflict,
    /// INSUFFICIENT REGISTRATION RESOURCES, 55h/04h.
    #[error("there is no room for another registration")]
    NoRoom,
    /// INVALID FIELD IN CDB, 24h/00h, at byte 1: the service action needs a reservation.
    #[error("no reservation is held")]
    NoReservation,
    /// INVALID RELEASE OF PERSISTENT RESERVATION, 26h/04h.
    #[error("the reservation that is held has another type")]
    BadRelease,
    /// INVALID FIELD IN PARAMETER LIST, 26h/00h, at this byte of the list, from 0.
    #[error("byte {0} of the parameter list has a value that is not supported")]
    Field(u16),
    /// INVALID FIELD IN CDB, 24h/00h, at byte 2: the scope and type.
    #[error("the scope or the type is not valid")]
    BadType,
}
