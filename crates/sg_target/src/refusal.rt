// The refusals of commands, and the one place that makes their sense data.
use sg_copy::CopyFault;
use sg_faults::SenseCode;
use sg_units::UnitAttention;
use sg_wire::{CdbFault, Pointer, Sense};

/// The refusal of a command.
#[derive(Clone, Copy)]
pub enum Refusal {
    /// RESERVATION CONFLICT, a status without sense data.
    Conflict,
    /// CHECK CONDITION.
    CheckCondition(Reason),
    /// An armed fault: BUSY, a status without sense data.
    Busy,
    /// An armed fault: TASK SET FULL, a status without sense data.
    TaskSetFull,
    /// An armed fault: no reply at all.
    NoReply,
    /// An armed fault: CHECK CONDITION that reports the error of an earlier command (SPC-4, 4.5.5).
    DeferredError(SenseCode),
}

/// Why a command ends with CHECK CONDITION (SPC-4, sense keys and additional sense codes).
#[derive(Clone, Copy)]
pub enum Reason {
    /// INVALID FIELD IN CDB, at this byte.
    InvalidFieldInCdb {
        byte: u16,
    },
    /// INVALID COMMAND OPERATION CODE.
    InvalidCommandOperationCode,
    /// A unit attention condition is reported.
    UnitAttention(UnitAttention),
    /// INVALID FIELD IN COMMAND INFORMATION UNIT: there is less data-out than the command needs.
    InvalidInformationUnit,
    /// DATA PHASE ERROR, the same on a base disk.
    DataPhaseError,
    /// PARAMETER LIST LENGTH ERROR: the list ends early.
    ParameterListLengthError,
    /// INVALID FIELD IN PARAMETER LIST, at this byte.
    InvalidFieldInParameterList {
        byte: u16,
    },
    /// INVALID RELEASE OF PERSISTENT RESERVATION: the held reservation has another type.
    InvalidRelease,
    /// INSUFFICIENT REGISTRATION RESOURCES: there is no room for another registration.
    InsufficientRegistrationResources,
    /// INSUFFICIENT RESOURCES: there is no room to mark another block as bad.
    InsufficientResources,
    /// LOGICAL UNIT NOT READY, INITIALIZING COMMAND REQUIRED: the unit is stopped.
    NotReady,
    /// LOGICAL BLOCK ADDRESS OUT OF RANGE, with the first such address.
    LbaOutOfRange {
        lba: u64,
    },
    /// WRITE PROTECTED: SWP is set.
    WriteProtected,
    /// LOGICAL UNIT SOFTWARE WRITE PROTECTED, the same on a base disk.
    SoftwareWriteProtected,
    /// SPACE ALLOCATION FAILED WRITE PROTECT: no block is left to map.
    SpaceAllocationFailed,
    /// MISCOMPARE DURING VERIFY OPERATION, with the offset of the first byte that differs.
    Miscompare {
        offset: u64,
    },
    /// An EXTENDED COPY asks for what the disk does not do.
    Copy(CopyFault),
    /// An armed fault, with the first bad block that the command names, if it lies on blocks.
    Fault {
        code: SenseCode,
        first_bad: Option<u64>,
    },
}

ghost use Rattle.std.specs.Prelude.{◌≡◌, ◌≤◌, Some};
ghost use Rattle.sg_wire.specs.Sense.{fields_of};
ghost use Rattle.sg_wire.specs.SenseKey.{illegal_request};
ghost use Rattle.sg_target.specs.Refusal.{pending_sense, plain_sense, reason_for, sense_of};

impl Reason {
    /// The sense data that reports it.
    pub(crate) fn sense(self) -> Sense
        ensures { fields_of result ≡ sense_of self }
    {
        match self {
            Reason::InvalidFieldInCdb { byte } => invalid_field(0x24, true, byte),
            Reason::InvalidCommandOperationCode => plain(Sense::ILLEGAL_REQUEST, 0x20, 0x00),
            Reason::UnitAttention(condition) => {
                let (asc, ascq) = condition.code();
                plain(Sense::UNIT_ATTENTION, asc, ascq)
            }
            Reason::InvalidInformationUnit => plain(Sense::ILLEGAL_REQUEST, 0x0E, 0x03),
            Reason::DataPhaseError => plain(Sense::ABORTED_COMMAND, 0x4B, 0x00),
            Reason::ParameterListLengthError => plain(Sense::ILLEGAL_REQUEST, 0x1A, 0x00),
            Reason::InvalidFieldInParameterList { byte } => invalid_field(0x26, false, byte),
            Reason::InvalidRelease => plain(Sense::ILLEGAL_REQUEST, 0x26, 0x04),
            Reason::InsufficientRegistrationResources => {
                plain(Sense::ILLEGAL_REQUEST, 0x55, 0x04)
            }
            Reason::InsufficientResources => plain(Sense::ILLEGAL_REQUEST, 0x55, 0x03),
            Reason::NotReady => plain(Sense::NOT_READY, 0x04, 0x02),
            Reason::LbaOutOfRange { lba } => with_information(Sense::ILLEGAL_REQUEST, 0x21, lba),
            Reason::WriteProtected => plain(Sense::DATA_PROTECT, 0x27, 0x00),
            Reason::SoftwareWriteProtected => plain(Sense::DATA_PROTECT, 0x27, 0x02),
            Reason::SpaceAllocationFailed => plain(Sense::DATA_PROTECT, 0x27, 0x07),
            Reason::Miscompare { offset } => with_information(Sense::MISCOMPARE, 0x1D, offset),
            Reason::Copy(fault) => fault.sense(),
            Reason::Fault { code, first_bad } => Sense {
                key: code.key.code(),
                asc: code.asc,
                ascq: code.ascq,
                information: first_bad,
                pointer: None,
            },
        }
    }
}

impl From<CdbFault> for Reason {
    ghost from_gives = { λ fault reason. reason ≡ reason_for fault };

    fn from(fault: CdbFault) -> Reason {
        match fault {
            CdbFault::Empty => Reason::InvalidFieldInCdb { byte: 0 },
            CdbFault::Opcode => Reason::InvalidCommandOperationCode,
            CdbFault::Short(place) | CdbFault::Field(place) => Reason::InvalidFieldInCdb {
                byte: u16::from(place),
            },
        }
    }
}

impl From<CdbFault> for Refusal {
    ghost use Rattle.sg_target.specs.declared.refusal.Refusal.TheVariants.{CheckCondition};

    ghost from_gives = { λ fault refusal. refusal ≡ CheckCondition (reason_for fault) };

    fn from(fault: CdbFault) -> Refusal {
        Refusal::CheckCondition(Reason::from(fault))
    }
}

/// The sense of REQUEST SENSE: a pending unit attention, or else whether the unit is stopped.
pub(crate) fn pending_sense(stopped: bool, condition: Option<UnitAttention>) -> Sense
    ensures { fields_of result ≡ pending_sense stopped condition }
{
    match condition {
        Some(condition) => Reason::UnitAttention(condition).sense(),
        None if stopped => Reason::NotReady.sense(),
        None => plain(Sense::NO_SENSE, 0x00, 0x00),
    }
}

/// The sense of an invalid field, with a pointer to its byte in the CDB or in the parameter list.
fn invalid_field(asc: u8, in_command: bool, byte: u16) -> Sense
    ensures { fields_of result ≡ record (plain_sense illegal_request asc 0x00)
        { pointer = Some (record { in_command = in_command; byte = byte }) } }
{
    Sense {
        key: Sense::ILLEGAL_REQUEST,
        asc,
        ascq: 0x00,
        information: None,
        pointer: Some(Pointer { in_command, byte }),
    }
}

fn plain(key: u8, asc: u8, ascq: u8) -> Sense
    requires { key ≤ 15 }
    ensures { fields_of result ≡ plain_sense key asc ascq }
{
    Sense {
        key,
        asc,
        ascq,
        information: None,
        pointer: None,
    }
}

/// A sense with a number as INFORMATION.
fn with_information(key: u8, asc: u8, number: u64) -> Sense
    requires { key ≤ 15 }
    ensures { fields_of result ≡ record (plain_sense key asc 0x00) { information = Some number } }
{
    Sense {
        key,
        asc,
        ascq: 0x00,
        information: Some(number),
        pointer: None,
    }
}
