// The six types, and the initiators that have the access of a holder under each.
ghost use Rattle.std.specs.Prelude.{◌≡◌};
ghost use Rattle.sg_units.specs.ReservationType.{code_of, is_all_registrants, is_shared};
ghost use Rattle.sg_units.specs.ReservationType.{type_of};

/// A type of persistent reservation (SPC-4, 6.15.3), with the code of its TYPE field.
#[derive(Clone, Copy, PartialEq, Eq)]
pub enum ReservationType {
    /// Write Exclusive.
    WriteExclusive = 0x01,
    /// Exclusive Access.
    ExclusiveAccess = 0x03,
    /// Write Exclusive – Registrants Only.
    WriteExclusiveRegistrantsOnly = 0x05,
    /// Exclusive Access – Registrants Only.
    ExclusiveAccessRegistrantsOnly = 0x06,
    /// Write Exclusive – All Registrants.
    WriteExclusiveAllRegistrants = 0x07,
    /// Exclusive Access – All Registrants.
    ExclusiveAccessAllRegistrants = 0x08,
}

impl ReservationType {
    /// The type in byte 2 of a CDB. The high four bits of the byte are the SCOPE, and the low four
    /// are the TYPE. None if the scope is not 0h, a logical unit, or if the type is none of the
    /// six.
    pub fn with_scope_and_type(scope_type: u8) -> Option<ReservationType>
        ensures { result ≡ type_of scope_type }
    {
        Some(match scope_type {
            0x01 => ReservationType::WriteExclusive,
            0x03 => ReservationType::ExclusiveAccess,
            0x05 => ReservationType::WriteExclusiveRegistrantsOnly,
            0x06 => ReservationType::ExclusiveAccessRegistrantsOnly,
            0x07 => ReservationType::WriteExclusiveAllRegistrants,
            0x08 => ReservationType::ExclusiveAccessAllRegistrants,
            _ => return None,
        })
    }

    /// The code of the type. With the scope of a logical unit it is the whole byte.
    pub fn code(self) -> u8
        ensures { result ≡ code_of self }
    {
        self as u8
    }

    /// Returns `true` if each registrant is a holder.
    pub(crate) fn is_all_registrants(self) -> bool
        ensures { result ≡ is_all_registrants self }
    {
        matches!(
            self,
            ReservationType::WriteExclusiveAllRegistrants
                | ReservationType::ExclusiveAccessAllRegistrants
        )
    }

    /// Returns `true` if each registrant has the access of a holder.
    pub(crate) fn is_shared(self) -> bool
        ensures { result ≡ is_shared self }
    {
        !matches!(
            self,
            ReservationType::WriteExclusive | ReservationType::ExclusiveAccess
        )
    }
}
