// What a logical unit reports of itself: REPORT LUNS, REPORT SUPPORTED OPERATION CODES, REPORT SUPPORTED
// TASK MANAGEMENT FUNCTIONS and REPORT TARGET PORT GROUPS (SPC-4, 6.33 and 6.35 to 6.37).
ghost use Rattle.std.specs.Prelude.{◌≡◌, true};
ghost use Rattle.sg_wire.specs.CdbEncoding.{cdb_of};
ghost use Rattle.sg_wire.specs.FieldRoom.{fits_cdb};
ghost use Rattle.sg_wire.specs.Table.{command_by, layout_of};
ghost use Rattle.sg_wire.specs.declared.command.table.Name.{Name};

use super::rows::{
    REPORT_LUNS, REPORT_SUPPORTED_OPERATION_CODES, REPORT_SUPPORTED_TASK_MANAGEMENT_FUNCTIONS,
    REPORT_TARGET_PORT_GROUPS,
};
use super::table::check_row;
use super::{CdbFault, Command, ThreeBits};
use crate::bytes::CdbBytes;
use byteorder::{BigEndian, ByteOrder};

// RCTD of REPORT SUPPORTED OPERATION CODES, and REPD of REPORT SUPPORTED TASK MANAGEMENT FUNCTIONS.
const TIMEOUTS: u8 = 0x80;

/// The fields of REPORT LUNS (SPC-4, 6.33).
#[derive(Clone, Copy, Debug, PartialEq, Eq)]
pub struct ReportLuns {
    /// SELECT REPORT: the kinds of logical units to report.
    pub select: u8,
    /// The allocation length, in bytes.
    pub allocation_length: u32,
}

/// The fields of REPORT SUPPORTED OPERATION CODES (SPC-4, 6.35).
#[derive(Clone, Copy, Debug, PartialEq, Eq)]
pub struct ReportSupportedOperationCodes {
    /// RCTD: timeouts are to be reported, too.
    pub timeouts: bool,
    /// REPORTING OPTIONS: all commands, or the one that the next fields name.
    pub options: ThreeBits,
    /// REQUESTED OPERATION CODE.
    pub opcode: u8,
    /// REQUESTED SERVICE ACTION.
    pub action: u16,
    /// The allocation length, in bytes.
    pub allocation_length: u32,
}

/// The fields of REPORT SUPPORTED TASK MANAGEMENT FUNCTIONS (SPC-4, 6.36).
#[derive(Clone, Copy, Debug, PartialEq, Eq)]
pub struct ReportSupportedTaskManagementFunctions {
    /// REPD: timeouts are to be reported, too.
    pub timeouts: bool,
    /// The allocation length, in bytes.
    pub allocation_length: u32,
}

/// The fields of REPORT TARGET PORT GROUPS (SPC-4, 6.37).
#[derive(Clone, Copy, Debug, PartialEq, Eq)]
pub struct ReportTargetPortGroups {
    /// PARAMETER DATA FORMAT: the header that is asked for.
    pub format: ThreeBits,
    /// The allocation length, in bytes.
    pub allocation_length: u32,
}

// ---- Decoding

pub(super) fn decode_report_luns(cdb: &[u8]) -> Result<Command, CdbFault>
    ensures { result ≡ command_by (layout_of Name.ReportLuns) cdb.now }
{
    check_row(&REPORT_LUNS, cdb)?;
    Ok(Command::ReportLuns(ReportLuns {
        select: cdb[2],
        allocation_length: BigEndian::read_u32(&cdb[6..]),
    }))
}

pub(super) fn decode_operation_codes(cdb: &[u8]) -> Result<Command, CdbFault>
    ensures { result ≡ command_by (layout_of Name.ReportSupportedOperationCodes) cdb.now }
{
    check_row(&REPORT_SUPPORTED_OPERATION_CODES, cdb)?;
    Ok(Command::ReportSupportedOperationCodes(ReportSupportedOperationCodes {
        timeouts: cdb[2] & TIMEOUTS != 0,
        options: ThreeBits::low(cdb[2]),
        opcode: cdb[3],
        action: BigEndian::read_u16(&cdb[4..]),
        allocation_length: BigEndian::read_u32(&cdb[6..]),
    }))
}

pub(super) fn decode_task_management(cdb: &[u8]) -> Result<Command, CdbFault>
    ensures { result ≡ command_by (layout_of Name.ReportSupportedTaskManagementFunctions) cdb.now }
{
    check_row(&REPORT_SUPPORTED_TASK_MANAGEMENT_FUNCTIONS, cdb)?;
    let fields = ReportSupportedTaskManagementFunctions {
        timeouts: cdb[2] & TIMEOUTS != 0,
        allocation_length: BigEndian::read_u32(&cdb[6..]),
    };
    Ok(Command::ReportSupportedTaskManagementFunctions(fields))
}

pub(super) fn decode_target_port_groups(cdb: &[u8]) -> Result<Command, CdbFault>
    ensures { result ≡ command_by (layout_of Name.ReportTargetPortGroups) cdb.now }
{
    check_row(&REPORT_TARGET_PORT_GROUPS, cdb)?;
    Ok(Command::ReportTargetPortGroups(ReportTargetPortGroups {
        format: ThreeBits::high(cdb[1]),
        allocation_length: BigEndian::read_u32(&cdb[6..]),
    }))
}

// ---- Encoding

impl ReportLuns {
    #[tactic(auto, unfolding(crate::specs::CdbEncoding::cdb_of))]
    pub(super) fn encode(self) -> CdbBytes
        ensures cdb { result ≡ cdb_of (Command.ReportLuns self) }
        ensures fits { fits_cdb (Command.ReportLuns self) ≡ true }
    {
        let mut cdb = REPORT_LUNS.begin();
        cdb[2] = self.select;
        BigEndian::write_u32(&mut cdb[6..], self.allocation_length);
        CdbBytes::new(cdb, 12)
    }
}

impl ReportSupportedOperationCodes {
    #[tactic(auto, unfolding(crate::specs::CdbEncoding::cdb_of))]
    pub(super) fn encode(self) -> CdbBytes
        ensures cdb { result ≡ cdb_of (Command.ReportSupportedOperationCodes self) }
        ensures fits { fits_cdb (Command.ReportSupportedOperationCodes self) ≡ true }
    {
        let mut cdb = REPORT_SUPPORTED_OPERATION_CODES.begin();
        let timeouts = if self.timeouts { TIMEOUTS } else { 0 };
        cdb[2] = timeouts + self.options.number();
        cdb[3] = self.opcode;
        BigEndian::write_u16(&mut cdb[4..], self.action);
        BigEndian::write_u32(&mut cdb[6..], self.allocation_length);
        CdbBytes::new(cdb, 12)
    }
}

impl ReportSupportedTaskManagementFunctions {
    #[tactic(auto, unfolding(crate::specs::CdbEncoding::cdb_of))]
    pub(super) fn encode(self) -> CdbBytes
        ensures cdb { result ≡ cdb_of (Command.ReportSupportedTaskManagementFunctions self) }
        ensures fits { fits_cdb (Command.ReportSupportedTaskManagementFunctions self) ≡ true }
    {
        let mut cdb = REPORT_SUPPORTED_TASK_MANAGEMENT_FUNCTIONS.begin();
        cdb[2] = if self.timeouts { TIMEOUTS } else { 0 };
        BigEndian::write_u32(&mut cdb[6..], self.allocation_length);
        CdbBytes::new(cdb, 12)
    }
}

impl ReportTargetPortGroups {
    #[tactic(auto, unfolding(crate::specs::CdbEncoding::cdb_of))]
    pub(super) fn encode(self) -> CdbBytes
        ensures cdb { result ≡ cdb_of (Command.ReportTargetPortGroups self) }
        ensures fits { fits_cdb (Command.ReportTargetPortGroups self) ≡ true }
    {
        let mut cdb = REPORT_TARGET_PORT_GROUPS.begin();
        cdb[1] += self.format.number() * 32;
        BigEndian::write_u32(&mut cdb[6..], self.allocation_length);
        CdbBytes::new(cdb, 12)
    }
}
