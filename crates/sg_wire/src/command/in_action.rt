ghost use Rattle.std.specs.Prelude.{◌≡◌};
ghost use Rattle.sg_wire.specs.ReservationAction.{in_action_with, in_code};

/// A service action of PERSISTENT RESERVE IN (SPC-4, 6.15), with its code.
#[derive(Clone, Copy, Debug, PartialEq, Eq)]
pub enum InAction {
    /// READ KEYS.
    ReadKeys = 0x00,
    /// READ RESERVATION.
    ReadReservation = 0x01,
    /// REPORT CAPABILITIES.
    ReportCapabilities = 0x02,
    /// READ FULL STATUS.
    ReadFullStatus = 0x03,
}

impl InAction {
    /// The service action with a code. None if no service action has the code.
    pub fn with_code(code: u8) -> Option<InAction>
        ensures { result ≡ in_action_with code }
    {
        Some(match code {
            0x00 => InAction::ReadKeys,
            0x01 => InAction::ReadReservation,
            0x02 => InAction::ReportCapabilities,
            0x03 => InAction::ReadFullStatus,
            _ => return None,
        })
    }

    /// Its code.
    pub fn code(self) -> u8
        ensures { result ≡ in_code self }
    {
        self as u8
    }
}
