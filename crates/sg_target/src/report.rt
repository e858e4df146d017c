// What the disk reports about itself: REPORT LUNS, REPORT SUPPORTED OPERATION CODES, REPORT SUPPORTED TASK
// MANAGEMENT FUNCTIONS, REPORT TARGET PORT GROUPS, RECEIVE COPY OPERATING PARAMETERS, LOG SENSE and READ
// DEFECT DATA (SPC-4, 6; SBC-3, 5).
// SEND DIAGNOSTIC has nothing to do but its checks.
ghost use Rattle.std.specs.Prelude.{◌≡◌, ◌≤◌, Err, Ok, [], length, min};
ghost use Rattle.sg_pages.specs.Reports.{longest_report};
ghost use Rattle.sg_wire.specs.FirstBytes.{first_bytes};
ghost use Rattle.sg_target.specs.Checks.{requested};
ghost use Rattle.sg_target.specs.Demands.{bad_defect_format, bad_self_test, defect_lists, log_sense};
ghost use Rattle.sg_target.specs.Demands.{report_luns, report_operation_codes, report_port_groups};
ghost use Rattle.sg_target.specs.Demands.{reports};
ghost use Rattle.sg_target.specs.Demands.{short_allocation, takes_no_data};
ghost use Rattle.sg_target.specs.MadeReplies.{ReturnsData};
ghost use Rattle.sg_target.specs.PrimaryCommands.{returning_luns};

use crate::config::Config;
use crate::operation::Operation;
use crate::refusal::{Reason, Refusal};
use crate::reply::Reply;
use crate::target::Target;
use sg_pages::{LogPage, Report};
use sg_store::Store;
use sg_units::UnitAttention;
use sg_wire::{
    Initiator, LogSense, ReadDefectData10, ReadDefectData12, ReceiveCopyOperatingParameters,
    ReportLuns, ReportSupportedOperationCodes, ReportSupportedTaskManagementFunctions,
    ReportTargetPortGroups, SendDiagnostic, SupportReport, ThreeBits,
};

/// Refuses a field of the CDB.
fn invalid_field<T>(byte: u16) -> Result<T, Refusal>
    ensures { result ≡ Err (Refusal.CheckCondition (Reason.InvalidFieldInCdb byte)) }
{
    Err(Refusal::CheckCondition(Reason::InvalidFieldInCdb { byte }))
}

// ---- REPORT LUNS

/// REPORT LUNS. Byte 2 is SELECT REPORT.
pub(crate) fn check_report_luns(fields: ReportLuns) -> Result<Operation<'static>, Refusal>
    ensures { result ≡ requested (report_luns fields) [] }
{
    match Report::units(fields.select) {
        Some(listed) => Ok(Operation::ReturnLuns {
            listed,
            allocation_length: fields.allocation_length,
        }),
        None => invalid_field(2),
    }
}

impl<S: Store> Target<S> {
    /// Returns the list of logical units, and clears the pending condition that it has changed.
    pub(crate) fn return_luns(
        &mut self,
        initiator: Initiator,
        listed: bool,
        allocation_length: u32,
        buf: &mut [u8],
    ) -> Reply
        requires { min longest_report allocation_length ≤ length buf.old }
        ensures reply { let done = returning_luns self.old.state initiator listed allocation_length in
            ReturnsData (first_bytes allocation_length done.data_in) result buf.old buf.new }
        ensures state { self.new.state
            ≡ (returning_luns self.old.state initiator listed allocation_length).after }
        ensures faults { self.new.faults ≡ self.old.faults }
        ensures meter { self.new.meter ≡ self.old.meter }
    {
        self.attentions
            .clear_condition(initiator, UnitAttention::ReportedLunsDataChanged);
        let luns = self.report(Report::LogicalUnits(listed));
        self.return_data(luns, allocation_length as usize, buf)
    }
}

// ---- REPORT SUPPORTED OPERATION CODES and TASK MANAGEMENT FUNCTIONS

/// REPORT SUPPORTED OPERATION CODES. REPORTING OPTIONS is in byte 2.
pub(crate) fn check_operation_codes(
    config: &Config,
    fields: &ReportSupportedOperationCodes,
) -> Result<Operation<'static>, Refusal>
    ensures { result
        ≡ requested (report_operation_codes config.now.identity.profile fields.now) [] }
{
    match SupportReport::requested(config.identity().profile(), fields) {
        Some(requested) => Ok(Operation::ReturnReport {
            report: Report::Commands(requested),
            allocation_length: fields.allocation_length,
        }),
        None => invalid_field(2),
    }
}

/// REPORT SUPPORTED TASK MANAGEMENT FUNCTIONS. ALLOCATION LENGTH begins at byte 6.
pub(crate) fn check_task_management(
    fields: ReportSupportedTaskManagementFunctions,
) -> Result<Operation<'static>, Refusal>
    ensures { result ≡ requested (reports (short_allocation fields.allocation_length)
        (Report.TaskManagementFunctions fields.timeouts) fields.allocation_length) [] }
{
    if fields.allocation_length < 4 {
        return invalid_field(6);
    }
    Ok(Operation::ReturnReport {
        report: Report::TaskManagementFunctions(fields.timeouts),
        allocation_length: fields.allocation_length,
    })
}

// ---- REPORT TARGET PORT GROUPS

/// REPORT TARGET PORT GROUPS. PARAMETER DATA FORMAT is in byte 1.
pub(crate) fn check_target_port_groups(
    fields: ReportTargetPortGroups,
) -> Result<Operation<'static>, Refusal>
    ensures { result ≡ requested (report_port_groups fields) [] }
{
    match Report::extended_header(fields.format.number()) {
        Some(header) => Ok(Operation::ReturnReport {
            report: Report::TargetPortGroups(header),
            allocation_length: fields.allocation_length,
        }),
        None => invalid_field(1),
    }
}

// ---- RECEIVE COPY OPERATING PARAMETERS

pub(crate) fn check_operating_parameters(
    fields: ReceiveCopyOperatingParameters,
) -> Operation<'static>
    ensures { result ≡ Operation.ReturnReport Report.CopyParameters fields.allocation_length }
{
    Operation::ReturnReport {
        report: Report::CopyParameters,
        allocation_length: fields.allocation_length,
    }
}

// ---- LOG SENSE and SEND DIAGNOSTIC

/// LOG SENSE. PARAMETER POINTER begins at byte 5.
pub(crate) fn check_log_sense(fields: LogSense) -> Result<Operation<'static>, Refusal>
    ensures { result ≡ requested (log_sense fields) [] }
{
    let pointer = fields.parameter_pointer;
    match LogPage::with_code(fields.page_code.number(), fields.subpage_code, pointer) {
        Ok(page) => Ok(Operation::ReturnReport {
            report: Report::Log(page, pointer),
            allocation_length: u32::from(fields.allocation_length),
        }),
        Err(byte) => invalid_field(byte),
    }
}

/// SEND DIAGNOSTIC. SELF-TEST CODE is in byte 1, and PARAMETER LIST LENGTH begins at byte 3.
pub(crate) fn check_send_diagnostic(fields: SendDiagnostic) -> Result<Operation<'static>, Refusal>
    ensures { result ≡ requested (takes_no_data (bad_self_test fields) (Ok Operation.Nothing)) [] }
{
    if fields.code.number() != 0 {
        return invalid_field(1);
    }
    if fields.list_length != 0 {
        return invalid_field(3);
    }
    Ok(Operation::Nothing)
}

// ---- READ DEFECT DATA

/// READ DEFECT DATA(10). DEFECT LIST FORMAT is in byte 2.
pub(crate) fn check_read_defect_data_10(
    fields: ReadDefectData10,
) -> Result<Operation<'static>, Refusal>
    ensures { result ≡ requested (reports (bad_defect_format fields.format 2)
        (Report.DefectLists10 (defect_lists fields.plist fields.glist fields.format))
        fields.allocation_length) [] }
{
    let lists = defect_lists(fields.plist, fields.glist, fields.format);
    let allocation_length = u32::from(fields.allocation_length);
    check_defects(
        fields.format,
        2,
        Report::DefectLists10(lists),
        allocation_length,
    )
}

/// READ DEFECT DATA(12). DEFECT LIST FORMAT is in byte 1.
pub(crate) fn check_read_defect_data_12(
    fields: ReadDefectData12,
) -> Result<Operation<'static>, Refusal>
    ensures { result ≡ requested (reports (bad_defect_format fields.format 1)
        (Report.DefectLists12 (defect_lists fields.plist fields.glist fields.format))
        fields.allocation_length) [] }
{
    let lists = defect_lists(fields.plist, fields.glist, fields.format);
    check_defects(
        fields.format,
        1,
        Report::DefectLists12(lists),
        fields.allocation_length,
    )
}

/// The report of a READ DEFECT DATA whose DEFECT LIST FORMAT is in the byte.
fn check_defects(
    format: ThreeBits,
    byte: u16,
    report: Report,
    allocation_length: u32,
) -> Result<Operation<'static>, Refusal>
    ensures { result
        ≡ requested (reports (bad_defect_format format byte) report allocation_length) [] }
{
    if format.number() > LAST_DEFECT_FORMAT {
        return invalid_field(byte);
    }
    Ok(Operation::ReturnReport {
        report,
        allocation_length,
    })
}

/// The last DEFECT LIST FORMAT that is no vendor's and not reserved (SBC-3, 5.17).
const LAST_DEFECT_FORMAT: u8 = 5;

/// The lists that are asked for and their format, in one byte: PLISTV, GLISTV and DEFECT LIST FORMAT.
fn defect_lists(plist: bool, glist: bool, format: ThreeBits) -> u8
    ensures { result ≡ defect_lists plist glist format }
{
    let plist_bit = if plist { 0x10 } else { 0 };
    let glist_bit = if glist { 0x08 } else { 0 };
    plist_bit + glist_bit + format.number()
}
