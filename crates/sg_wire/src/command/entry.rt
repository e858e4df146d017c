// The table's commands in its order, one entry for each operation code and service action.
ghost use Rattle.std.specs.Prelude.{◌≡◌, length, true};
ghost use Rattle.sg_wire.specs.Profile.{is_in};
ghost use Rattle.sg_wire.specs.SupportedOperations.{has_action_if, is_requested, usage};
ghost use Rattle.sg_wire.specs.Table.{AreEntries, IsRow, action_option, entry_layout};
ghost use Rattle.sg_wire.specs.Table.{is_row, names_block_command};

use super::rows::{
    COMPARE_AND_WRITE, EXTENDED_COPY, FORMAT_UNIT, GET_LBA_STATUS, INQUIRY, LOG_SENSE,
    MODE_SELECT_6, MODE_SELECT_10, MODE_SENSE_6, MODE_SENSE_10, ORWRITE_16, PERSISTENT_RESERVE_IN,
    PERSISTENT_RESERVE_OUT, PRE_FETCH_10, PRE_FETCH_16, READ_6, READ_10, READ_12, READ_16,
    READ_CAPACITY_10, READ_CAPACITY_16, READ_DEFECT_DATA_10, READ_DEFECT_DATA_12,
    RECEIVE_COPY_OPERATING_PARAMETERS, REPORT_LUNS, REPORT_SUPPORTED_OPERATION_CODES,
    REPORT_SUPPORTED_TASK_MANAGEMENT_FUNCTIONS, REPORT_TARGET_PORT_GROUPS, REQUEST_SENSE,
    SANITIZE_BLOCK_ERASE, SANITIZE_CRYPTOGRAPHIC_ERASE, SANITIZE_EXIT_FAILURE_MODE,
    SEND_DIAGNOSTIC, START_STOP_UNIT, SYNCHRONIZE_CACHE_10, SYNCHRONIZE_CACHE_16, TEST_UNIT_READY,
    UNMAP, USAGE_WITH_TYPE, VERIFY_10, VERIFY_12, VERIFY_16, WRITE_6, WRITE_10, WRITE_12, WRITE_16,
    WRITE_AND_VERIFY_10, WRITE_AND_VERIFY_12, WRITE_AND_VERIFY_16, WRITE_ATOMIC_16, WRITE_LONG_10,
    WRITE_SAME_10, WRITE_SAME_16,
};
use super::table::{Name, Row};
use super::{InAction, OutAction};
use crate::profile::Profile;

/// A command of the table. PERSISTENT RESERVE IN and PERSISTENT RESERVE OUT have an entry for each
/// service action.
#[derive(Clone, Copy)]
pub(super) enum Entry {
    Named(Name),
    ReserveIn(InAction),
    ReserveOut(OutAction),
}

/// All commands, in the table's order.
static ENTRIES: [Entry; 62] = [
    Entry::Named(Name::TestUnitReady),
    Entry::Named(Name::RequestSense),
    Entry::Named(Name::Inquiry),
    Entry::Named(Name::ModeSelect6),
    Entry::Named(Name::ModeSelect10),
    Entry::Named(Name::ModeSense6),
    Entry::Named(Name::ModeSense10),
    Entry::Named(Name::LogSense),
    Entry::Named(Name::ReportLuns),
    Entry::Named(Name::ReportSupportedOperationCodes),
    Entry::Named(Name::ReportSupportedTaskManagementFunctions),
    Entry::Named(Name::ReportTargetPortGroups),
    Entry::Named(Name::SendDiagnostic),
    Entry::Named(Name::ExtendedCopy),
    Entry::Named(Name::ReceiveCopyOperatingParameters),
    Entry::Named(Name::CompareAndWrite),
    Entry::Named(Name::FormatUnit),
    Entry::Named(Name::OrWrite16),
    Entry::Named(Name::PreFetch10),
    Entry::Named(Name::PreFetch16),
    Entry::Named(Name::Read6),
    Entry::Named(Name::Read10),
    Entry::Named(Name::Read12),
    Entry::Named(Name::Read16),
    Entry::Named(Name::Write6),
    Entry::Named(Name::Write10),
    Entry::Named(Name::Write12),
    Entry::Named(Name::Write16),
    Entry::Named(Name::ReadCapacity10),
    Entry::Named(Name::ReadCapacity16),
    Entry::Named(Name::ReadDefectData10),
    Entry::Named(Name::ReadDefectData12),
    Entry::Named(Name::SanitizeBlockErase),
    Entry::Named(Name::SanitizeCryptographicErase),
    Entry::Named(Name::SanitizeExitFailureMode),
    Entry::Named(Name::StartStopUnit),
    Entry::Named(Name::SynchronizeCache10),
    Entry::Named(Name::SynchronizeCache16),
    Entry::Named(Name::Verify10),
    Entry::Named(Name::Verify12),
    Entry::Named(Name::Verify16),
    Entry::Named(Name::WriteAndVerify10),
    Entry::Named(Name::WriteAndVerify12),
    Entry::Named(Name::WriteAndVerify16),
    Entry::Named(Name::WriteAtomic16),
    Entry::Named(Name::WriteLong10),
    Entry::Named(Name::WriteSame10),
    Entry::Named(Name::WriteSame16),
    Entry::Named(Name::Unmap),
    Entry::Named(Name::GetLbaStatus),
    Entry::ReserveIn(InAction::ReadKeys),
    Entry::ReserveIn(InAction::ReadReservation),
    Entry::ReserveIn(InAction::ReportCapabilities),
    Entry::ReserveIn(InAction::ReadFullStatus),
    Entry::ReserveOut(OutAction::Register),
    Entry::ReserveOut(OutAction::Reserve),
    Entry::ReserveOut(OutAction::Release),
    Entry::ReserveOut(OutAction::Clear),
    Entry::ReserveOut(OutAction::Preempt),
    Entry::ReserveOut(OutAction::PreemptAndAbort),
    Entry::ReserveOut(OutAction::RegisterAndIgnoreExistingKey),
    Entry::ReserveOut(OutAction::RegisterAndMove),
];

impl Entry {
    /// All commands, in the table's order.
    #[tactic(auto, unfolding(crate::specs::Table::AreEntries, crate::specs::Table::layouts_of))]
    pub(super) fn each() -> &'static [Entry]
        ensures entries { AreEntries result.now }
        ensures count { length result.now ≡ 62 }
    {
        &ENTRIES
    }

    /// The operation code.
    pub(super) fn opcode(self) -> u8
        ensures { result ≡ (entry_layout self).opcode }
    {
        match self {
            Entry::Named(name) => row_named(name).opcode,
            Entry::ReserveIn(_) => PERSISTENT_RESERVE_IN.opcode,
            Entry::ReserveOut(_) => PERSISTENT_RESERVE_OUT.opcode,
        }
    }

    /// The bits of each byte of its CDB that mean something.
    pub(super) fn usage(self) -> &'static [u8]
        ensures { result.now ≡ usage (entry_layout self) }
    {
        match self {
            Entry::Named(name) => row_named(name).usage,
            Entry::ReserveIn(_) => PERSISTENT_RESERVE_IN.usage,
            Entry::ReserveOut(action) if action.has_type() => &USAGE_WITH_TYPE,
            Entry::ReserveOut(_) => PERSISTENT_RESERVE_OUT.usage,
        }
    }

    /// The profile that the command belongs to.
    fn profile(self) -> Profile
        ensures { result ≡ (entry_layout self).profile }
    {
        match self {
            Entry::Named(name) => row_named(name).profile,
            Entry::ReserveIn(_) => PERSISTENT_RESERVE_IN.profile,
            Entry::ReserveOut(action) => action.profile(),
        }
    }

    /// The service action, if several commands share the operation code.
    pub(super) fn action(self) -> Option<u8>
        ensures { result ≡ action_option (entry_layout self).action }
    {
        match self {
            Entry::Named(name) => row_named(name).service_action,
            Entry::ReserveIn(action) => Some(action.code()),
            Entry::ReserveOut(action) => Some(action.code()),
        }
    }

    /// Returns `true` if the command has a service action and one is wanted, or if it has none and
    /// none is wanted.
    pub(super) fn has_action_if(self, wanted: bool) -> bool
        ensures { result ≡ has_action_if wanted (entry_layout self).action }
    {
        self.action().is_some() == wanted
    }

    /// Returns `true` if the command has a service action, or if it has none and the action is 0.
    pub(super) fn is_requested(self, action: u16) -> bool
        ensures { result ≡ is_requested action (entry_layout self) }
    {
        u16::from(self.action().unwrap_or(0)) == action
    }

    /// Returns `true` if a disk of a profile has the command.
    pub(super) fn is_in(self, profile: Profile) -> bool
        ensures { result ≡ is_in (entry_layout self).profile profile }
    {
        profile.has(self.profile())
    }

    /// Returns `true` if a disk of a profile has the command and it has an operation code.
    pub(super) fn is_of(self, profile: Profile, opcode: u8) -> bool
        ensures { result ≡ is_row profile opcode (entry_layout self) }
    {
        self.opcode() == opcode && self.is_in(profile)
    }
}

/// The row of a name.
fn row_named(name: Name) -> &'static Row
    ensures row { IsRow result.now }
    ensures name { result.now.name ≡ name }
{
    match name {
        Name::TestUnitReady => &TEST_UNIT_READY,
        Name::RequestSense => &REQUEST_SENSE,
        Name::Inquiry => &INQUIRY,
        Name::ModeSelect6 => &MODE_SELECT_6,
        Name::ModeSelect10 => &MODE_SELECT_10,
        Name::ModeSense6 => &MODE_SENSE_6,
        Name::ModeSense10 => &MODE_SENSE_10,
        Name::LogSense => &LOG_SENSE,
        Name::PersistentReserveIn => &PERSISTENT_RESERVE_IN,
        Name::PersistentReserveOut => &PERSISTENT_RESERVE_OUT,
        Name::ReportLuns => &REPORT_LUNS,
        Name::ReportSupportedOperationCodes => &REPORT_SUPPORTED_OPERATION_CODES,
        Name::ReportSupportedTaskManagementFunctions => &REPORT_SUPPORTED_TASK_MANAGEMENT_FUNCTIONS,
        Name::ReportTargetPortGroups => &REPORT_TARGET_PORT_GROUPS,
        Name::SendDiagnostic => &SEND_DIAGNOSTIC,
        Name::ExtendedCopy => &EXTENDED_COPY,
        Name::ReceiveCopyOperatingParameters => &RECEIVE_COPY_OPERATING_PARAMETERS,
        _ => block_row_named(name),
    }
}

/// The row of the name of a block command.
fn block_row_named(name: Name) -> &'static Row
    requires { names_block_command name ≡ true }
    ensures row { IsRow result.now }
    ensures name { result.now.name ≡ name }
{
    match name {
        Name::CompareAndWrite => &COMPARE_AND_WRITE,
        Name::FormatUnit => &FORMAT_UNIT,
        Name::OrWrite16 => &ORWRITE_16,
        Name::PreFetch10 => &PRE_FETCH_10,
        Name::PreFetch16 => &PRE_FETCH_16,
        Name::Read6 => &READ_6,
        Name::Read10 => &READ_10,
        Name::Read12 => &READ_12,
        Name::Read16 => &READ_16,
        Name::Write6 => &WRITE_6,
        Name::Write10 => &WRITE_10,
        Name::Write12 => &WRITE_12,
        Name::Write16 => &WRITE_16,
        Name::ReadCapacity10 => &READ_CAPACITY_10,
        Name::ReadCapacity16 => &READ_CAPACITY_16,
        Name::ReadDefectData10 => &READ_DEFECT_DATA_10,
        Name::ReadDefectData12 => &READ_DEFECT_DATA_12,
        Name::SanitizeBlockErase => &SANITIZE_BLOCK_ERASE,
        Name::SanitizeCryptographicErase => &SANITIZE_CRYPTOGRAPHIC_ERASE,
        Name::SanitizeExitFailureMode => &SANITIZE_EXIT_FAILURE_MODE,
        Name::StartStopUnit => &START_STOP_UNIT,
        Name::SynchronizeCache10 => &SYNCHRONIZE_CACHE_10,
        Name::SynchronizeCache16 => &SYNCHRONIZE_CACHE_16,
        Name::Verify10 => &VERIFY_10,
        Name::Verify12 => &VERIFY_12,
        Name::Verify16 => &VERIFY_16,
        Name::WriteAndVerify10 => &WRITE_AND_VERIFY_10,
        Name::WriteAndVerify12 => &WRITE_AND_VERIFY_12,
        Name::WriteAndVerify16 => &WRITE_AND_VERIFY_16,
        Name::WriteAtomic16 => &WRITE_ATOMIC_16,
        Name::WriteLong10 => &WRITE_LONG_10,
        Name::WriteSame10 => &WRITE_SAME_10,
        Name::WriteSame16 => &WRITE_SAME_16,
        Name::Unmap => &UNMAP,
        Name::GetLbaStatus => &GET_LBA_STATUS,
        _ => unreachable!(),
    }
}
