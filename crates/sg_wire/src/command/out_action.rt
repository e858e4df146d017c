// All service actions except REPLACE LOST RESERVATION, which no disk has.
ghost use Rattle.std.specs.Prelude.{◌≡◌};
ghost use Rattle.sg_wire.specs.ReservationAction.{has_type, out_action_with, out_code, out_profile};

use crate::profile::Profile;

/// A service action of PERSISTENT RESERVE OUT (SPC-4, 6.16), with its code.
#[derive(Clone, Copy, Debug, PartialEq, Eq)]
pub enum OutAction {
    /// REGISTER.
    Register = 0x00,
    /// RESERVE.
    Reserve = 0x01,
    /// RELEASE.
    Release = 0x02,
    /// CLEAR.
    Clear = 0x03,
    /// PREEMPT.
    Preempt = 0x04,
    /// PREEMPT AND ABORT.
    PreemptAndAbort = 0x05,
    /// REGISTER AND IGNORE EXISTING KEY.
    RegisterAndIgnoreExistingKey = 0x06,
    /// REGISTER AND MOVE, on an extended disk.
    RegisterAndMove = 0x07,
}

impl OutAction {
    /// The service action with a code, on a disk of a profile. None if the disk has none with the code.
    pub fn with_code(profile: Profile, code: u8) -> Option<OutAction>
        ensures { result ≡ out_action_with profile code }
    {
        let action = match code {
            0x00 => OutAction::Register,
            0x01 => OutAction::Reserve,
            0x02 => OutAction::Release,
            0x03 => OutAction::Clear,
            0x04 => OutAction::Preempt,
            0x05 => OutAction::PreemptAndAbort,
            0x06 => OutAction::RegisterAndIgnoreExistingKey,
            0x07 => OutAction::RegisterAndMove,
            _ => return None,
        };
        if profile.has(action.profile()) {
            Some(action)
        } else {
            None
        }
    }

    /// The profile that it belongs to.
    pub fn profile(self) -> Profile
        ensures { result ≡ out_profile self }
    {
        match self {
            OutAction::RegisterAndMove => Profile::Extended,
            _ => Profile::Base,
        }
    }

    /// Returns `true` if it is for a SCOPE and a TYPE, and `false` if it ignores both (SPC-4, 6.16.2).
    pub(super) fn has_type(self) -> bool
        ensures { result ≡ has_type self }
    {
        match self {
            OutAction::Reserve
            | OutAction::Release
            | OutAction::Preempt
            | OutAction::PreemptAndAbort => true,
            OutAction::Register
            | OutAction::Clear
            | OutAction::RegisterAndIgnoreExistingKey
            | OutAction::RegisterAndMove => false,
        }
    }

    /// Its code.
    pub fn code(self) -> u8
        ensures { result ≡ out_code self }
    {
        self as u8
    }
}
