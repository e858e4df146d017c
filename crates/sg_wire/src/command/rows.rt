// One row a command: profile, operation code, service action, class, unit attention and masks are
// here and at no other place in code. The families say what the fields mean. `specs/Layout.antt` has
// the definition's rows.
use super::table::{Name, Row};
use super::{Class, opcode};
use crate::profile::Profile;

// INQUIRY, REPORT LUNS and REQUEST SENSE are executed in spite of a pending unit attention (SPC-4,
// 6.6.1, 6.33 and 6.39).
const BLOCKED: bool = true;

const UNBLOCKED: bool = false;

// A row in the table's order: name, profile, operation code, service action, class, unit attention,
// masks, and the bits that mean something, unless these are all bits of the masks.
macro_rules! row {
    (
        $name:ident, $profile:ident, $opcode:expr, $action:expr, $class:ident, $is_blocked:ident,
        $masks:expr
    ) => {
        row! { $name, $profile, $opcode, $action, $class, $is_blocked, $masks, $masks }
    };
    (
        $name:ident, $profile:ident, $opcode:expr, $action:expr, $class:ident, $is_blocked:ident,
        $masks:expr, $usage:expr
    ) => {
        Row {
            name: Name::$name,
            profile: Profile::$profile,
            opcode: $opcode,
            service_action: $action,
            class: Class::$class,
            is_blocked: $is_blocked,
            masks: &$masks,
            usage: &$usage,
        }
    };
}

// The bits of a CDB that names a range of blocks: those of byte 1, all bits of the address and of the
// number after it, and the bits of GROUP NUMBER.
macro_rules! range_10 {
    ($byte_1:expr, $group:expr) => {
        [0xFF, $byte_1, 0xFF, 0xFF, 0xFF, 0xFF, $group, 0xFF, 0xFF, 0x00]
    };
}

macro_rules! range_12 {
    ($byte_1:expr, $group:expr) => {
        [0xFF, $byte_1, 0xFF, 0xFF, 0xFF, 0xFF, 0xFF, 0xFF, 0xFF, 0xFF, $group, 0x00]
    };
}

macro_rules! range_16 {
    ($byte_1:expr, $group:expr) => {
        [
            0xFF, $byte_1, 0xFF, 0xFF, 0xFF, 0xFF, 0xFF, 0xFF, 0xFF, 0xFF, 0xFF, 0xFF, 0xFF, 0xFF,
            $group, 0x00,
        ]
    };
}

// The bits of COMPARE AND WRITE, whose NUMBER OF LOGICAL BLOCKS has one byte.
macro_rules! compare_and_write {
    ($byte_1:expr, $group:expr) => {
        [
            0xFF, $byte_1, 0xFF, 0xFF, 0xFF, 0xFF, 0xFF, 0xFF, 0xFF, 0xFF, 0x00, 0x00, 0x00, 0xFF,
            $group, 0x00,
        ]
    };
}

// The bits of SANITIZE.
macro_rules! sanitize {
    ($byte_1:expr) => {
        [0xFF, $byte_1, 0x00, 0x00, 0x00, 0x00, 0x00, 0xFF, 0xFF, 0x00]
    };
}

// The commands of SPC-4, 6, and then the commands of SBC-3, 5 (READ(6) and WRITE(6) of SBC-2, WRITE
// ATOMIC(16) of SBC-4).
pub(super) static TEST_UNIT_READY: Row = row! {
    TestUnitReady, Base, opcode::TEST_UNIT_READY, None, Always, BLOCKED,
    [0xFF, 0x00, 0x00, 0x00, 0x00, 0x00]
};

pub(super) static REQUEST_SENSE: Row = row! {
    RequestSense, Base, opcode::REQUEST_SENSE, None, Always, UNBLOCKED,
    [0xFF, 0x01, 0x00, 0x00, 0xFF, 0x00]
};

pub(super) static INQUIRY: Row = row! {
    Inquiry, Base, opcode::INQUIRY, None, Always, UNBLOCKED,
    [0xFF, 0x01, 0xFF, 0xFF, 0xFF, 0x00]
};

pub(super) static MODE_SELECT_6: Row = row! {
    ModeSelect6, Base, opcode::MODE_SELECT_6, None, Writes, BLOCKED,
    [0xFF, 0x11, 0x00, 0x00, 0xFF, 0x00]
};

pub(super) static MODE_SELECT_10: Row = row! {
    ModeSelect10, Base, opcode::MODE_SELECT_10, None, Writes, BLOCKED,
    [0xFF, 0x11, 0x00, 0x00, 0x00, 0x00, 0x00, 0xFF, 0xFF, 0x00]
};

pub(super) static MODE_SENSE_6: Row = row! {
    ModeSense6, Base, opcode::MODE_SENSE_6, None, Reads, BLOCKED,
    [0xFF, 0x08, 0xFF, 0xFF, 0xFF, 0x00]
};

pub(super) static MODE_SENSE_10: Row = row! {
    ModeSense10, Base, opcode::MODE_SENSE_10, None, Reads, BLOCKED,
    [0xFF, 0x18, 0xFF, 0xFF, 0x00, 0x00, 0x00, 0xFF, 0xFF, 0x00]
};

pub(super) static PERSISTENT_RESERVE_IN: Row = row! {
    PersistentReserveIn, Base, opcode::PERSISTENT_RESERVE_IN, Some(0x00), Always, BLOCKED,
    [0xFF, 0x1F, 0x00, 0x00, 0x00, 0x00, 0x00, 0xFF, 0xFF, 0x00]
};

pub(super) static PERSISTENT_RESERVE_OUT: Row = row! {
    PersistentReserveOut, Base, opcode::PERSISTENT_RESERVE_OUT, Some(0x00), Always, BLOCKED,
    [0xFF, 0x1F, 0xFF, 0x00, 0x00, 0xFF, 0xFF, 0xFF, 0xFF, 0x00],
    [0xFF, 0x1F, 0x00, 0x00, 0x00, 0xFF, 0xFF, 0xFF, 0xFF, 0x00]
};

// The bits that mean something if the service action is for a SCOPE and a TYPE.
pub(super) static USAGE_WITH_TYPE: [u8; 10] = [
    0xFF, 0x1F, 0xFF, 0x00, 0x00, 0xFF, 0xFF, 0xFF, 0xFF, 0x00,
];

pub(super) static LOG_SENSE: Row = row! {
    LogSense, Extended, opcode::LOG_SENSE, None, Always, BLOCKED,
    [0xFF, 0x00, 0xFF, 0xFF, 0x00, 0xFF, 0xFF, 0xFF, 0xFF, 0x00]
};

pub(super) static REPORT_LUNS: Row = row! {
    ReportLuns, Extended, opcode::REPORT_LUNS, None, Always, UNBLOCKED,
    [0xFF, 0x00, 0xFF, 0x00, 0x00, 0x00, 0xFF, 0xFF, 0xFF, 0xFF, 0x00, 0x00]
};

pub(super) static REPORT_SUPPORTED_OPERATION_CODES: Row = row! {
    ReportSupportedOperationCodes, Extended, opcode::MAINTENANCE_IN, Some(0x0C), Reads, BLOCKED,
    [0xFF, 0x1F, 0x87, 0xFF, 0xFF, 0xFF, 0xFF, 0xFF, 0xFF, 0xFF, 0x00, 0x00]
};

pub(super) static REPORT_SUPPORTED_TASK_MANAGEMENT_FUNCTIONS: Row = row! {
    ReportSupportedTaskManagementFunctions, Extended, opcode::MAINTENANCE_IN, Some(0x0D), Reads,
    BLOCKED,
    [0xFF, 0x1F, 0x80, 0x00, 0x00, 0x00, 0xFF, 0xFF, 0xFF, 0xFF, 0x00, 0x00]
};

pub(super) static REPORT_TARGET_PORT_GROUPS: Row = row! {
    ReportTargetPortGroups, Extended, opcode::MAINTENANCE_IN, Some(0x0A), Always, BLOCKED,
    [0xFF, 0xFF, 0x00, 0x00, 0x00, 0x00, 0xFF, 0xFF, 0xFF, 0xFF, 0x00, 0x00]
};

pub(super) static SEND_DIAGNOSTIC: Row = row! {
    SendDiagnostic, Extended, opcode::SEND_DIAGNOSTIC, None, Writes, BLOCKED,
    [0xFF, 0xF7, 0x00, 0xFF, 0xFF, 0x00],
    [0xFF, 0xE4, 0x00, 0xFF, 0xFF, 0x00]
};

pub(super) static EXTENDED_COPY: Row = row! {
    ExtendedCopy, Extended, opcode::EXTENDED_COPY, Some(0x00), Writes, BLOCKED,
    [0xFF, 0x1F, 0x00, 0x00, 0x00, 0x00, 0x00, 0x00, 0x00, 0x00, 0xFF, 0xFF, 0xFF, 0xFF, 0x00, 0x00]
};

pub(super) static RECEIVE_COPY_OPERATING_PARAMETERS: Row = row! {
    ReceiveCopyOperatingParameters, Extended, opcode::RECEIVE_COPY_RESULTS, Some(0x03), Writes,
    BLOCKED,
    [0xFF, 0x1F, 0x00, 0x00, 0x00, 0x00, 0x00, 0x00, 0x00, 0x00, 0xFF, 0xFF, 0xFF, 0xFF, 0x00, 0x00]
};

pub(super) static COMPARE_AND_WRITE: Row = row! {
    CompareAndWrite, Extended, opcode::COMPARE_AND_WRITE, None, Writes, BLOCKED,
    compare_and_write!(0x1A, 0x1F), compare_and_write!(0x18, 0x00)
};

pub(super) static FORMAT_UNIT: Row = row! {
    FormatUnit, Extended, opcode::FORMAT_UNIT, None, Writes, BLOCKED,
    [0xFF, 0x38, 0x00, 0x00, 0x00, 0x00],
    [0xFF, 0x30, 0x00, 0x00, 0x00, 0x00]
};

pub(super) static ORWRITE_16: Row = row! {
    OrWrite16, Extended, opcode::ORWRITE_16, None, Writes, BLOCKED,
    range_16!(0x1A, 0x1F), range_16!(0x18, 0x00)
};

pub(super) static PRE_FETCH_10: Row = row! {
    PreFetch10, Extended, opcode::PRE_FETCH_10, None, Reads, BLOCKED,
    range_10!(0x02, 0x1F), range_10!(0x02, 0x00)
};

pub(super) static PRE_FETCH_16: Row = row! {
    PreFetch16, Extended, opcode::PRE_FETCH_16, None, Reads, BLOCKED,
    range_16!(0x02, 0x1F), range_16!(0x02, 0x00)
};

// READ and WRITE look at DPO and FUA, though the disk has no cache. The obsolete bit 1 of byte 1 means
// nothing, and neither does GROUP NUMBER.
pub(super) static READ_6: Row = row! {
    Read6, Base, opcode::READ_6, None, Reads, BLOCKED, [0xFF, 0x1F, 0xFF, 0xFF, 0xFF, 0x00]
};

pub(super) static READ_10: Row = row! {
    Read10, Base, opcode::READ_10, None, Reads, BLOCKED,
    range_10!(0x1A, 0x1F), range_10!(0x18, 0x00)
};

pub(super) static READ_12: Row = row! {
    Read12, Extended, opcode::READ_12, None, Reads, BLOCKED,
    range_12!(0x1A, 0x1F), range_12!(0x18, 0x00)
};

pub(super) static READ_16: Row = row! {
    Read16, Base, opcode::READ_16, None, Reads, BLOCKED,
    range_16!(0x1A, 0x1F), range_16!(0x18, 0x00)
};

pub(super) static WRITE_6: Row = row! {
    Write6, Base, opcode::WRITE_6, None, Writes, BLOCKED, [0xFF, 0x1F, 0xFF, 0xFF, 0xFF, 0x00]
};

pub(super) static WRITE_10: Row = row! {
    Write10, Base, opcode::WRITE_10, None, Writes, BLOCKED,
    range_10!(0x1A, 0x1F), range_10!(0x18, 0x00)
};

pub(super) static WRITE_12: Row = row! {
    Write12, Extended, opcode::WRITE_12, None, Writes, BLOCKED,
    range_12!(0x1A, 0x1F), range_12!(0x18, 0x00)
};

pub(super) static WRITE_16: Row = row! {
    Write16, Base, opcode::WRITE_16, None, Writes, BLOCKED,
    range_16!(0x1A, 0x1F), range_16!(0x18, 0x00)
};

pub(super) static READ_CAPACITY_10: Row = row! {
    ReadCapacity10, Base, opcode::READ_CAPACITY_10, None, Always, BLOCKED,
    [0xFF, 0x00, 0x00, 0x00, 0x00, 0x00, 0x00, 0x00, 0x00, 0x00]
};

pub(super) static READ_CAPACITY_16: Row = row! {
    ReadCapacity16, Base, opcode::SERVICE_ACTION_IN_16, Some(0x10), Always, BLOCKED,
    [0xFF, 0x1F, 0x00, 0x00, 0x00, 0x00, 0x00, 0x00, 0x00, 0x00, 0xFF, 0xFF, 0xFF, 0xFF, 0x00, 0x00]
};

pub(super) static READ_DEFECT_DATA_10: Row = row! {
    ReadDefectData10, Extended, opcode::READ_DEFECT_DATA_10, None, Reads, BLOCKED,
    [0xFF, 0x00, 0x1F, 0x00, 0x00, 0x00, 0x00, 0xFF, 0xFF, 0x00]
};

pub(super) static READ_DEFECT_DATA_12: Row = row! {
    ReadDefectData12, Extended, opcode::READ_DEFECT_DATA_12, None, Reads, BLOCKED,
    range_12!(0x1F, 0x00),
    [0xFF, 0x1F, 0x00, 0x00, 0x00, 0x00, 0xFF, 0xFF, 0xFF, 0xFF, 0x00, 0x00]
};

pub(super) static SANITIZE_BLOCK_ERASE: Row = row! {
    SanitizeBlockErase, Extended, opcode::SANITIZE, Some(0x02), Writes, BLOCKED,
    sanitize!(0xBF), sanitize!(0x9F)
};

pub(super) static SANITIZE_CRYPTOGRAPHIC_ERASE: Row = row! {
    SanitizeCryptographicErase, Extended, opcode::SANITIZE, Some(0x03), Writes, BLOCKED,
    sanitize!(0xBF), sanitize!(0x9F)
};

pub(super) static SANITIZE_EXIT_FAILURE_MODE: Row = row! {
    SanitizeExitFailureMode, Extended, opcode::SANITIZE, Some(0x1F), Writes, BLOCKED,
    sanitize!(0xBF), sanitize!(0x9F)
};

// The class is that of a command that stops the unit: see `class_of`.
pub(super) static START_STOP_UNIT: Row = row! {
    StartStopUnit, Extended, opcode::START_STOP_UNIT, None, Writes, BLOCKED,
    [0xFF, 0x01, 0x00, 0x0F, 0xF7, 0x00]
};

pub(super) static SYNCHRONIZE_CACHE_10: Row = row! {
    SynchronizeCache10, Base, opcode::SYNCHRONIZE_CACHE_10, None, Writes, BLOCKED,
    range_10!(0x06, 0x1F), range_10!(0x02, 0x00)
};

pub(super) static SYNCHRONIZE_CACHE_16: Row = row! {
    SynchronizeCache16, Extended, opcode::SYNCHRONIZE_CACHE_16, None, Writes, BLOCKED,
    range_16!(0x06, 0x1F), range_16!(0x02, 0x00)
};

pub(super) static VERIFY_10: Row = row! {
    Verify10, Extended, opcode::VERIFY_10, None, Reads, BLOCKED,
    range_10!(0x16, 0x1F), range_10!(0x16, 0x00)
};

pub(super) static VERIFY_12: Row = row! {
    Verify12, Extended, opcode::VERIFY_12, None, Reads, BLOCKED,
    range_12!(0x16, 0x1F), range_12!(0x16, 0x00)
};

pub(super) static VERIFY_16: Row = row! {
    Verify16, Extended, opcode::VERIFY_16, None, Reads, BLOCKED,
    range_16!(0x16, 0x1F), range_16!(0x16, 0x00)
};

pub(super) static WRITE_AND_VERIFY_10: Row = row! {
    WriteAndVerify10, Extended, opcode::WRITE_AND_VERIFY_10, None, Writes, BLOCKED,
    range_10!(0x16, 0x1F), range_10!(0x16, 0x00)
};

pub(super) static WRITE_AND_VERIFY_12: Row = row! {
    WriteAndVerify12, Extended, opcode::WRITE_AND_VERIFY_12, None, Writes, BLOCKED,
    range_12!(0x16, 0x1F), range_12!(0x16, 0x00)
};

pub(super) static WRITE_AND_VERIFY_16: Row = row! {
    WriteAndVerify16, Extended, opcode::WRITE_AND_VERIFY_16, None, Writes, BLOCKED,
    range_16!(0x16, 0x1F), range_16!(0x16, 0x00)
};

pub(super) static WRITE_ATOMIC_16: Row = row! {
    WriteAtomic16, Extended, opcode::WRITE_ATOMIC_16, None, Writes, BLOCKED,
    range_16!(0x18, 0x1F), range_16!(0x18, 0x00)
};

pub(super) static WRITE_LONG_10: Row = row! {
    WriteLong10, Extended, opcode::WRITE_LONG_10, None, Writes, BLOCKED,
    range_10!(0xC0, 0x00), [0xFF, 0xC0, 0xFF, 0xFF, 0xFF, 0xFF, 0x00, 0x00, 0x00, 0x00]
};

pub(super) static WRITE_SAME_10: Row = row! {
    WriteSame10, Base, opcode::WRITE_SAME_10, None, Writes, BLOCKED,
    range_10!(0x18, 0x1F), range_10!(0x18, 0x00)
};

pub(super) static WRITE_SAME_16: Row = row! {
    WriteSame16, Base, opcode::WRITE_SAME_16, None, Writes, BLOCKED,
    range_16!(0x19, 0x1F), range_16!(0x19, 0x00)
};

// The masks of WRITE SAME(16) on a base disk, which refuses NDOB.
pub(super) static BASE_WRITE_SAME_16: [u8; 16] = range_16!(0x18, 0x1F);

pub(super) static UNMAP: Row = row! {
    Unmap, Base, opcode::UNMAP, None, Writes, BLOCKED,
    [0xFF, 0x01, 0x00, 0x00, 0x00, 0x00, 0x1F, 0xFF, 0xFF, 0x00],
    [0xFF, 0x01, 0x00, 0x00, 0x00, 0x00, 0x00, 0xFF, 0xFF, 0x00]
};

pub(super) static GET_LBA_STATUS: Row = row! {
    GetLbaStatus, Base, opcode::SERVICE_ACTION_IN_16, Some(0x12), Reads, BLOCKED,
    range_16!(0x1F, 0x00)
};
