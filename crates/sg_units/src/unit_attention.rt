ghost use Rattle.std.specs.Prelude.{◌≡◌};
ghost use Rattle.sg_units.specs.UnitAttention.{code_of, condition_with, is_reset, outranks_conflict};
ghost use Rattle.sg_units.specs.UnitAttention.{reset_precedence};

/// A unit attention condition that the disk establishes (SAM-5, 5.14), by its additional sense
/// code.
#[derive(Clone, Copy, Default, PartialEq, Eq)]
pub enum UnitAttention {
    /// 28h/00h, NOT READY TO READY CHANGE, MEDIUM MAY HAVE CHANGED.
    MediumMayHaveChanged,
    /// 29h/00h, POWER ON, RESET, OR BUS DEVICE RESET OCCURRED.
    #[default]
    PowerOn,
    /// 29h/02h, SCSI BUS RESET OCCURRED.
    ScsiBusReset,
    /// 29h/03h, BUS DEVICE RESET FUNCTION OCCURRED.
    BusDeviceReset,
    /// 29h/04h, DEVICE INTERNAL RESET.
    DeviceInternalReset,
    /// 29h/07h, I_T NEXUS LOSS OCCURRED.
    NexusLoss,
    /// 2Ah/01h, MODE PARAMETERS CHANGED.
    ModeParametersChanged,
    /// 2Ah/03h, RESERVATIONS PREEMPTED.
    ReservationsPreempted,
    /// 2Ah/04h, RESERVATIONS RELEASED.
    ReservationsReleased,
    /// 2Ah/05h, REGISTRATIONS PREEMPTED.
    RegistrationsPreempted,
    /// 2Ah/06h, ASYMMETRIC ACCESS STATE CHANGED.
    AsymmetricAccessStateChanged,
    /// 2Ah/09h, CAPACITY DATA HAS CHANGED.
    CapacityDataChanged,
    /// 38h/07h, THIN PROVISIONING SOFT THRESHOLD REACHED.
    SoftThresholdReached,
    /// 3Fh/01h, MICROCODE HAS BEEN CHANGED.
    MicrocodeChanged,
    /// 3Fh/03h, INQUIRY DATA HAS CHANGED.
    InquiryDataChanged,
    /// 3Fh/0Eh, REPORTED LUNS DATA HAS CHANGED.
    ReportedLunsDataChanged,
}

impl UnitAttention {
    /// The number of conditions.
    pub const COUNT: usize = 16;

    /// Each condition once.
    const ALL: [UnitAttention; UnitAttention::COUNT] = [
        UnitAttention::MediumMayHaveChanged,
        UnitAttention::PowerOn,
        UnitAttention::ScsiBusReset,
        UnitAttention::BusDeviceReset,
        UnitAttention::DeviceInternalReset,
        UnitAttention::NexusLoss,
        UnitAttention::ModeParametersChanged,
        UnitAttention::ReservationsPreempted,
        UnitAttention::ReservationsReleased,
        UnitAttention::RegistrationsPreempted,
        UnitAttention::AsymmetricAccessStateChanged,
        UnitAttention::CapacityDataChanged,
        UnitAttention::SoftThresholdReached,
        UnitAttention::MicrocodeChanged,
        UnitAttention::InquiryDataChanged,
        UnitAttention::ReportedLunsDataChanged,
    ];

    /// The condition with an additional sense code and additional sense code qualifier, if there is
    /// one.
    pub fn with_code(asc: u8, ascq: u8) -> Option<UnitAttention>
        ensures { result ≡ condition_with asc ascq }
    {
        UnitAttention::ALL
            .iter()
            .copied()
            .find(|condition| condition.code() == (asc, ascq))
    }

    /// Its additional sense code and additional sense code qualifier.
    pub fn code(self) -> (u8, u8)
        ensures { result ≡ code_of self }
    {
        match self {
            UnitAttention::MediumMayHaveChanged => (0x28, 0x00),
            UnitAttention::PowerOn => (0x29, 0x00),
            UnitAttention::ScsiBusReset => (0x29, 0x02),
            UnitAttention::BusDeviceReset => (0x29, 0x03),
            UnitAttention::DeviceInternalReset => (0x29, 0x04),
            UnitAttention::NexusLoss => (0x29, 0x07),
            UnitAttention::ModeParametersChanged => (0x2A, 0x01),
            UnitAttention::ReservationsPreempted => (0x2A, 0x03),
            UnitAttention::ReservationsReleased => (0x2A, 0x04),
            UnitAttention::RegistrationsPreempted => (0x2A, 0x05),
            UnitAttention::AsymmetricAccessStateChanged => (0x2A, 0x06),
            UnitAttention::CapacityDataChanged => (0x2A, 0x09),
            UnitAttention::SoftThresholdReached => (0x38, 0x07),
            UnitAttention::MicrocodeChanged => (0x3F, 0x01),
            UnitAttention::InquiryDataChanged => (0x3F, 0x03),
            UnitAttention::ReportedLunsDataChanged => (0x3F, 0x0E),
        }
    }

    /// The precedence of a condition that a reset or a lost I_T nexus establishes: 0 is the highest.
    /// Other conditions have none.
    pub(crate) fn reset_precedence(self) -> Option<u8>
        ensures { result ≡ reset_precedence self }
    {
        match self {
            UnitAttention::PowerOn => Some(0),
            UnitAttention::DeviceInternalReset => Some(1),
            UnitAttention::ScsiBusReset => Some(2),
            UnitAttention::BusDeviceReset => Some(3),
            UnitAttention::NexusLoss => Some(4),
            _ => None,
        }
    }

    /// Returns `true` if it is reported in place of a command that conflicts with a reservation
    /// (SAM-5, 5.3.3). With `only_resets` only the conditions of 29h are, and MICROCODE HAS BEEN CHANGED.
    pub fn outranks_conflict(self, only_resets: bool) -> bool
        ensures { result ≡ outranks_conflict only_resets self }
    {
        !only_resets || self.is_reset() || self == UnitAttention::MicrocodeChanged
    }

    /// A reset or a lost I_T nexus establishes it.
    pub(crate) fn is_reset(self) -> bool
        ensures { result ≡ is_reset self }
    {
        self.reset_precedence().is_some()
    }
}
