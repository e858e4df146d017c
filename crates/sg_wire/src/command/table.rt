// The table of commands, and how a CDB's row is found in it. The rows are in `rows`.
ghost use Rattle.std.specs.Prelude.{ℕ, ◌≡◌, ◌≤◌, ◌∷◌, length, replicate, slice_index, IfErr, OnOk};
ghost use Rattle.std.specs.Option.{option_map_or};
ghost use Rattle.sg_wire.specs.CdbDecoding.{service_action};
ghost use Rattle.sg_wire.specs.Table.{IsDecoded, IsFound, IsRefused, IsRow};

use super::masks::check_masks;
use super::rows::{
    COMPARE_AND_WRITE, EXTENDED_COPY, FORMAT_UNIT, GET_LBA_STATUS, INQUIRY, LOG_SENSE,
    MODE_SELECT_6, MODE_SELECT_10, MODE_SENSE_6, MODE_SENSE_10, ORWRITE_16, PERSISTENT_RESERVE_IN,
    PERSISTENT_RESERVE_OUT, PRE_FETCH_10, PRE_FETCH_16, READ_6, READ_10, READ_12, READ_16,
    READ_CAPACITY_10, READ_CAPACITY_16, READ_DEFECT_DATA_10, READ_DEFECT_DATA_12,
    RECEIVE_COPY_OPERATING_PARAMETERS, REPORT_LUNS, REPORT_SUPPORTED_OPERATION_CODES,
    REPORT_SUPPORTED_TASK_MANAGEMENT_FUNCTIONS, REPORT_TARGET_PORT_GROUPS, REQUEST_SENSE,
    SANITIZE_BLOCK_ERASE, SANITIZE_CRYPTOGRAPHIC_ERASE, SANITIZE_EXIT_FAILURE_MODE,
    SEND_DIAGNOSTIC, START_STOP_UNIT, SYNCHRONIZE_CACHE_10, SYNCHRONIZE_CACHE_16, TEST_UNIT_READY,
    UNMAP, VERIFY_10, VERIFY_12, VERIFY_16, WRITE_6, WRITE_10, WRITE_12, WRITE_16,
    WRITE_AND_VERIFY_10, WRITE_AND_VERIFY_12, WRITE_AND_VERIFY_16, WRITE_ATOMIC_16, WRITE_LONG_10,
    WRITE_SAME_10, WRITE_SAME_16,
};
use super::{CdbFault, Class, opcode};
use crate::bytes::MAX_CDB_LENGTH;
use crate::profile::Profile;

/// The name of a command.
#[derive(Clone, Copy)]
pub(super) enum Name {
    TestUnitReady,
    RequestSense,
    Inquiry,
    ModeSelect6,
    ModeSelect10,
    ModeSense6,
    ModeSense10,
    LogSense,
    PersistentReserveIn,
    PersistentReserveOut,
    ReportLuns,
    ReportSupportedOperationCodes,
    ReportSupportedTaskManagementFunctions,
    ReportTargetPortGroups,
    SendDiagnostic,
    ExtendedCopy,
    ReceiveCopyOperatingParameters,
    CompareAndWrite,
    FormatUnit,
    OrWrite16,
    PreFetch10,
    PreFetch16,
    Read6,
    Read10,
    Read12,
    Read16,
    Write6,
    Write10,
    Write12,
    Write16,
    ReadCapacity10,
    ReadCapacity16,
    ReadDefectData10,
    ReadDefectData12,
    SanitizeBlockErase,
    SanitizeCryptographicErase,
    SanitizeExitFailureMode,
    StartStopUnit,
    SynchronizeCache10,
    SynchronizeCache16,
    Verify10,
    Verify12,
    Verify16,
    WriteAndVerify10,
    WriteAndVerify12,
    WriteAndVerify16,
    WriteAtomic16,
    WriteLong10,
    WriteSame10,
    WriteSame16,
    Unmap,
    GetLbaStatus,
}

/// The table's facts about a command.
pub(super) struct Row {
    pub(super) name: Name,
    // The profile that it belongs to. Only REGISTER AND MOVE belongs to another one than the row of its
    // operation code.
    pub(super) profile: Profile,
    pub(super) opcode: u8,
    // Present if several commands share the operation code. PERSISTENT RESERVE IN and PERSISTENT
    // RESERVE OUT have one row each, with the first of their service actions.
    pub(super) service_action: Option<u8>,
    // How the command meets a reservation of another initiator. START STOP UNIT may meet it otherwise.
    pub(super) class: Class,
    // A pending unit attention is reported in place of the command.
    pub(super) is_blocked: bool,
    // The bits of each byte that may be set.
    pub(super) masks: &'static [u8],
    // Those of them that mean something. The disk ignores the others.
    pub(super) usage: &'static [u8],
}

impl Row {
    /// The CDB of the command, with zeros in place of its fields.
    pub(super) fn begin(&self) -> [u8; MAX_CDB_LENGTH]
        ensures { result ≡ self.now.opcode
            ∷ option_map_or (λ (action : ℕ). action) self.now.service_action 0 ∷ replicate 14 0 }
    {
        let mut cdb = [0; MAX_CDB_LENGTH];
        cdb[0] = self.opcode;
        if let Some(action) = self.service_action {
            cdb[1] = action;
        }
        cdb
    }
}

/// The table's result for a CDB.
pub(super) enum Found {
    Row(&'static Row),
    // A row of the operation code. No command of the code has the service action.
    NoServiceAction(&'static Row),
    NoOpcode,
}

/// The row of a CDB on a disk of a profile: by its operation code, and by its service action if
/// several commands share the code. A CDB that ends before its service action counts as one of
/// service action 00h.
/// Inlined, so that each caller's match is one over the operation code.
#[inline(always)]
#[tactic(auto, using(crate::proofs::TableLemmas::by_profile))]
pub(super) fn row_in(profile: Profile, cdb: &[u8]) -> Found
    ensures { IsFound profile cdb.now result }
{
    match row_of(cdb) {
        Found::Row(row) => {
            if profile.has(row.profile) {
                Found::Row(row)
            } else {
                Found::NoOpcode
            }
        }
        Found::NoServiceAction(row) => {
            if profile.has(row.profile) {
                Found::NoServiceAction(row)
            } else {
                Found::NoOpcode
            }
        }
        Found::NoOpcode => Found::NoOpcode,
    }
}

/// The row of a CDB in any profile.
#[inline(always)]
fn row_of(cdb: &[u8]) -> Found
    ensures { IsFound Profile.Extended cdb.now result }
{
    match cdb.first() {
        Some(&code) => row_with_code(code, cdb),
        None => Found::NoOpcode,
    }
}

/// The row of a CDB by its operation code, in any profile. The first three bits of the code are its
/// group, which tells the length of the CDB (SPC-4, 4.2.5.1).
#[inline(always)]
fn row_with_code(code: u8, cdb: &[u8]) -> Found
    requires byte { 1 ≤ length cdb.now }
    requires code { slice_index cdb.now 0 ≡ code }
    ensures { IsFound Profile.Extended cdb.now result }
{
    match code {
        0x00..=0x1F => row_of_6(code, cdb),
        0x20..=0x5F => row_of_10(code, cdb),
        0x80..=0x9F => row_of_16(code, cdb),
        0xA0..=0xBF => row_of_12(code, cdb),
        _ => Found::NoOpcode,
    }
}

/// The row of a CDB of 6 bytes by its operation code, in any profile.
#[inline(always)]
fn row_of_6(code: u8, _cdb: &[u8]) -> Found
    requires group { (0x00 ≤ code) × (code ≤ 0x1F) }
    requires byte { 1 ≤ length _cdb.now }
    requires code { slice_index _cdb.now 0 ≡ code }
    ensures { IsFound Profile.Extended _cdb.now result }
{
    match code {
        opcode::TEST_UNIT_READY => Found::Row(&TEST_UNIT_READY),
        opcode::REQUEST_SENSE => Found::Row(&REQUEST_SENSE),
        opcode::FORMAT_UNIT => Found::Row(&FORMAT_UNIT),
        opcode::READ_6 => Found::Row(&READ_6),
        opcode::WRITE_6 => Found::Row(&WRITE_6),
        opcode::INQUIRY => Found::Row(&INQUIRY),
        opcode::MODE_SELECT_6 => Found::Row(&MODE_SELECT_6),
        opcode::MODE_SENSE_6 => Found::Row(&MODE_SENSE_6),
        opcode::START_STOP_UNIT => Found::Row(&START_STOP_UNIT),
        opcode::SEND_DIAGNOSTIC => Found::Row(&SEND_DIAGNOSTIC),
        _ => Found::NoOpcode,
    }
}

/// The row of a CDB of 10 bytes by its operation code, in any profile.
#[inline(always)]
fn row_of_10(code: u8, cdb: &[u8]) -> Found
    requires group { (0x20 ≤ code) × (code ≤ 0x5F) }
    requires byte { 1 ≤ length cdb.now }
    requires code { slice_index cdb.now 0 ≡ code }
    ensures { IsFound Profile.Extended cdb.now result }
{
    match code {
        opcode::READ_CAPACITY_10 => Found::Row(&READ_CAPACITY_10),
        opcode::READ_10 => Found::Row(&READ_10),
        opcode::WRITE_10 => Found::Row(&WRITE_10),
        opcode::WRITE_AND_VERIFY_10 => Found::Row(&WRITE_AND_VERIFY_10),
        opcode::VERIFY_10 => Found::Row(&VERIFY_10),
        opcode::PRE_FETCH_10 => Found::Row(&PRE_FETCH_10),
        opcode::SYNCHRONIZE_CACHE_10 => Found::Row(&SYNCHRONIZE_CACHE_10),
        opcode::READ_DEFECT_DATA_10 => Found::Row(&READ_DEFECT_DATA_10),
        opcode::WRITE_LONG_10 => Found::Row(&WRITE_LONG_10),
        opcode::WRITE_SAME_10 => Found::Row(&WRITE_SAME_10),
        opcode::UNMAP => Found::Row(&UNMAP),
        opcode::SANITIZE => with_sanitize(cdb),
        opcode::LOG_SENSE => Found::Row(&LOG_SENSE),
        opcode::MODE_SELECT_10 => Found::Row(&MODE_SELECT_10),
        opcode::MODE_SENSE_10 => Found::Row(&MODE_SENSE_10),
        opcode::PERSISTENT_RESERVE_IN => Found::Row(&PERSISTENT_RESERVE_IN),
        opcode::PERSISTENT_RESERVE_OUT => Found::Row(&PERSISTENT_RESERVE_OUT),
        _ => Found::NoOpcode,
    }
}

/// The row of a CDB of 12 bytes by its operation code, in any profile.
#[inline(always)]
fn row_of_12(code: u8, cdb: &[u8]) -> Found
    requires group { (0xA0 ≤ code) × (code ≤ 0xBF) }
    requires byte { 1 ≤ length cdb.now }
    requires code { slice_index cdb.now 0 ≡ code }
    ensures { IsFound Profile.Extended cdb.now result }
{
    match code {
        opcode::REPORT_LUNS => Found::Row(&REPORT_LUNS),
        opcode::MAINTENANCE_IN => with_maintenance_in(cdb),
        opcode::READ_12 => Found::Row(&READ_12),
        opcode::WRITE_12 => Found::Row(&WRITE_12),
        opcode::WRITE_AND_VERIFY_12 => Found::Row(&WRITE_AND_VERIFY_12),
        opcode::VERIFY_12 => Found::Row(&VERIFY_12),
        opcode::READ_DEFECT_DATA_12 => Found::Row(&READ_DEFECT_DATA_12),
        _ => Found::NoOpcode,
    }
}

/// The row of a CDB of 16 bytes by its operation code, in any profile.
#[inline(always)]
fn row_of_16(code: u8, cdb: &[u8]) -> Found
    requires group { (0x80 ≤ code) × (code ≤ 0x9F) }
    requires byte { 1 ≤ length cdb.now }
    requires code { slice_index cdb.now 0 ≡ code }
    ensures { IsFound Profile.Extended cdb.now result }
{
    match code {
        opcode::EXTENDED_COPY => with_extended_copy(cdb),
        opcode::RECEIVE_COPY_RESULTS => with_receive_copy_results(cdb),
        opcode::READ_16 => Found::Row(&READ_16),
        opcode::COMPARE_AND_WRITE => Found::Row(&COMPARE_AND_WRITE),
        opcode::WRITE_16 => Found::Row(&WRITE_16),
        opcode::ORWRITE_16 => Found::Row(&ORWRITE_16),
        opcode::WRITE_AND_VERIFY_16 => Found::Row(&WRITE_AND_VERIFY_16),
        opcode::VERIFY_16 => Found::Row(&VERIFY_16),
        opcode::PRE_FETCH_16 => Found::Row(&PRE_FETCH_16),
        opcode::SYNCHRONIZE_CACHE_16 => Found::Row(&SYNCHRONIZE_CACHE_16),
        opcode::WRITE_SAME_16 => Found::Row(&WRITE_SAME_16),
        opcode::WRITE_ATOMIC_16 => Found::Row(&WRITE_ATOMIC_16),
        opcode::SERVICE_ACTION_IN_16 => with_service_action_in(cdb),
        _ => Found::NoOpcode,
    }
}

/// The row of SERVICE ACTION IN(16), whose service action names the command (SPC-4, 4.2.5.2).
#[tactic(auto, using(crate::proofs::TableLemmas::without_action_in_16))]
fn with_service_action_in(cdb: &[u8]) -> Found
    requires { slice_index cdb.now 0 ≡ 0x9E }
    ensures { IsFound Profile.Extended cdb.now result }
{
    match Some(service_action(cdb)) {
        action if action == READ_CAPACITY_16.service_action => Found::Row(&READ_CAPACITY_16),
        action if action == GET_LBA_STATUS.service_action => Found::Row(&GET_LBA_STATUS),
        _ => Found::NoServiceAction(&READ_CAPACITY_16),
    }
}

/// The row of EXTENDED COPY, whose service action names the command (SPC-4, 6.5).
#[tactic(auto, using(crate::proofs::TableLemmas::without_copy_action))]
fn with_extended_copy(cdb: &[u8]) -> Found
    requires { slice_index cdb.now 0 ≡ 0x83 }
    ensures { IsFound Profile.Extended cdb.now result }
{
    match Some(service_action(cdb)) {
        action if action == EXTENDED_COPY.service_action => Found::Row(&EXTENDED_COPY),
        _ => Found::NoServiceAction(&EXTENDED_COPY),
    }
}

/// The row of RECEIVE COPY RESULTS, whose service action names the command (SPC-4, 6.23).
#[tactic(auto, using(crate::proofs::TableLemmas::without_results_action))]
fn with_receive_copy_results(cdb: &[u8]) -> Found
    requires { slice_index cdb.now 0 ≡ 0x84 }
    ensures { IsFound Profile.Extended cdb.now result }
{
    match Some(service_action(cdb)) {
        action if action == RECEIVE_COPY_OPERATING_PARAMETERS.service_action => {
            Found::Row(&RECEIVE_COPY_OPERATING_PARAMETERS)
        }
        _ => Found::NoServiceAction(&RECEIVE_COPY_OPERATING_PARAMETERS),
    }
}

/// The row of SANITIZE, whose service action says how (SBC-3, 5.24).
#[tactic(auto, using(crate::proofs::TableLemmas::without_sanitize_action))]
fn with_sanitize(cdb: &[u8]) -> Found
    requires { slice_index cdb.now 0 ≡ 0x48 }
    ensures { IsFound Profile.Extended cdb.now result }
{
    match Some(service_action(cdb)) {
        action if action == SANITIZE_BLOCK_ERASE.service_action => {
            Found::Row(&SANITIZE_BLOCK_ERASE)
        }
        action if action == SANITIZE_CRYPTOGRAPHIC_ERASE.service_action => {
            Found::Row(&SANITIZE_CRYPTOGRAPHIC_ERASE)
        }
        action if action == SANITIZE_EXIT_FAILURE_MODE.service_action => {
            Found::Row(&SANITIZE_EXIT_FAILURE_MODE)
        }
        _ => Found::NoServiceAction(&SANITIZE_BLOCK_ERASE),
    }
}

/// The row of MAINTENANCE IN, whose service action names the command (SPC-4, 4.2.5.2).
#[tactic(auto, using(crate::proofs::TableLemmas::without_maintenance_action))]
fn with_maintenance_in(cdb: &[u8]) -> Found
    requires { slice_index cdb.now 0 ≡ 0xA3 }
    ensures { IsFound Profile.Extended cdb.now result }
{
    match Some(service_action(cdb)) {
        action if action == REPORT_SUPPORTED_OPERATION_CODES.service_action => {
            Found::Row(&REPORT_SUPPORTED_OPERATION_CODES)
        }
        action if action == REPORT_SUPPORTED_TASK_MANAGEMENT_FUNCTIONS.service_action => {
            Found::Row(&REPORT_SUPPORTED_TASK_MANAGEMENT_FUNCTIONS)
        }
        action if action == REPORT_TARGET_PORT_GROUPS.service_action => {
            Found::Row(&REPORT_TARGET_PORT_GROUPS)
        }
        _ => Found::NoServiceAction(&REPORT_SUPPORTED_OPERATION_CODES),
    }
}

/// The SERVICE ACTION field (SPC-4, 4.2.5.2), or zero if the CDB ends before it.
pub(super) fn service_action(cdb: &[u8]) -> u8
    ensures { result ≡ service_action cdb.now }
{
    cdb.get(1).copied().unwrap_or(0) & 0x1F
}

/// Refuses a CDB that ends early or has a bit outside the masks of its row.
pub(super) fn check_row(row: &Row, cdb: &[u8]) -> Result<(), CdbFault>
    requires { IsRow row.now }
    ensures decoded { OnOk result (IsDecoded cdb.now row.now.name) }
    ensures refused { IfErr result (IsRefused cdb.now row.now.name) }
    ensures whole { OnOk result (length row.now.masks.now ≤ length cdb.now) }
{
    check_masks(row.masks, cdb)
}
