// The endings that are expected: a status with its sense data, byte by byte from SPC-4, 4.5.3.
use sg_target::{Reply, Status};

#[derive(Clone, Copy)]
pub(crate) enum Ending {
    Good,
    Conflict,
    /// The unit attention of a power cycle.
    PowerOn,
    /// INVALID FIELD IN CDB, with a field pointer to the byte.
    InvalidField(usize),
    DataPhaseError,
    /// INVALID FIELD IN COMMAND INFORMATION UNIT: an extended disk reports it for data-out that is
    /// too short.
    InvalidInformationUnit,
    Busy,
    NoReply,
}

impl Ending {
    /// The ending if a fault afterwards sends no reply. It meets only commands that end with GOOD.
    pub(crate) fn without_reply(self) -> Ending {
        match self {
            Ending::Good => Ending::NoReply,
            ending => ending,
        }
    }

    fn status(self) -> Status {
        match self {
            Ending::Good => Status::Good,
            Ending::Conflict => Status::ReservationConflict,
            Ending::Busy => Status::Busy,
            Ending::NoReply => Status::NoReply,
            Ending::PowerOn
            | Ending::InvalidField(_)
            | Ending::DataPhaseError
            | Ending::InvalidInformationUnit => Status::CheckCondition,
        }
    }

    /// The sense data in fixed format, of 18 bytes, or none (SPC-4, 4.5.3).
    fn sense(self) -> Option<[u8; 18]> {
        match self {
            Ending::Good | Ending::Conflict | Ending::Busy | Ending::NoReply => None,
            Ending::PowerOn => Some([
                0x70, 0, 6, 0, 0, 0, 0, 0x0A, 0, 0, 0, 0, 0x29, 0x00, 0, 0, 0, 0,
            ]),
            Ending::InvalidField(byte) => Some(invalid_field(byte)),
            Ending::DataPhaseError => Some([
                0x70, 0, 0x0B, 0, 0, 0, 0, 0x0A, 0, 0, 0, 0, 0x4B, 0x00, 0, 0, 0, 0,
            ]),
            Ending::InvalidInformationUnit => Some([
                0x70, 0, 5, 0, 0, 0, 0, 0x0A, 0, 0, 0, 0, 0x0E, 0x03, 0, 0, 0, 0,
            ]),
        }
    }

    /// Whether a reply has this ending. A command that is refused returns no data-in.
    pub(crate) fn is_of(self, reply: &Reply) -> bool {
        let has_sense = match self.sense() {
            Some(sense) => reply.sense.as_slice() == sense.as_slice() && reply.data_in == 0,
            None => reply.sense.as_slice().is_empty(),
        };
        reply.status == self.status() && has_sense
    }
}

/// The sense data of INVALID FIELD IN CDB. SKSV and C/D are set, and the pointer is to a byte of
/// the CDB (SPC-4, 4.5.2.4.2).
fn invalid_field(byte: usize) -> [u8; 18] {
    let [high, low] = u16::try_from(byte).unwrap_or(u16::MAX).to_be_bytes();
    [
        0x70, 0, 5, 0, 0, 0, 0, 0x0A, 0, 0, 0, 0, 0x24, 0x00, 0, 0xC0, high, low,
    ]
}
