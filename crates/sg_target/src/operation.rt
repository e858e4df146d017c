// The operation that a command asks for, and its execution.
ghost use Rattle.std.specs.Prelude.{◌≡◌, ◌≤◌, ◌∷◌, [], length, true, IfNone};
ghost use Rattle.sg_wire.specs.BlockCommand.{is_block_command};
ghost use Rattle.sg_target.specs.Checks.{out_of_range, requested};
ghost use Rattle.sg_target.specs.Demands.{demands};
ghost use Rattle.sg_target.specs.Charge.{TakesStep, cost_bounds, step_before_alert};
ghost use Rattle.sg_target.specs.DataIn.{returns_data};
ghost use Rattle.sg_target.specs.DataInBound.{data_in_bound};
ghost use Rattle.sg_target.specs.Extents.{AreOnDisk};
ghost use Rattle.sg_target.specs.Ranges.{ranges_of};
ghost use Rattle.sg_target.specs.Semantics.{medium_use, names_some_block};
ghost use Rattle.sg_target.specs.State.{IsWithinLimits};

use crate::block::{
    BlocksIn, BlocksOut, LENGTH_AT_10, LENGTH_AT_12, LENGTH_AT_16, check_read, check_read_6,
    check_read_capacity_16, check_write, check_write_6, check_write_atomic_16, pre_fetch,
    synchronize,
};
use crate::config::Config;
use crate::copying::{CopiedBlocks, check_extended_copy};
use crate::data_in::DataIn;
use crate::extent::{all_past_capacity, first_past_capacity, one_block, past_capacity};
use crate::format::{check_erase, check_exit_failure_mode, check_format_unit};
use crate::mode::{
    ModeList, RequestedModes, check_mode_select_6, check_mode_select_10, check_mode_sense_6,
    check_mode_sense_10,
};
use crate::or_write::check_or_write_16;
use crate::primary::{InquiryPage, check_inquiry, check_request_sense};
use crate::provisioning::{
    BlockOut, check_get_lba_status, check_unmap, check_write_same_10, check_write_same_16,
    listed_out_of_range, listed_some_block,
};
use crate::refusal::Refusal;
use crate::reply::Reply;
use crate::report::{
    check_log_sense, check_operating_parameters, check_operation_codes, check_read_defect_data_10,
    check_read_defect_data_12, check_report_luns, check_send_diagnostic, check_target_port_groups,
    check_task_management,
};
use crate::reservation::{check_reserve_in, check_reserve_out};
use crate::start_stop::check_start_stop_unit;
use crate::target::Target;
use crate::verify::{Exchange, check_compare_and_write, check_verified_write, check_verify};
use crate::write_long::check_write_long_10;
use sg_pages::Report;
use sg_store::{MAX_CAPACITY, Store};
use sg_units::OutList;
use sg_wire::{CdbWidth, Command, Extent, Format, InAction, Initiator, ListedExtents, OutAction};

/// The operation that a command asks for, with all that it takes: its fields and its data-out are
/// sound. Blocks past the last one and a lack of space can still refuse it. The disk's mode pages
/// and reservations can, too. MODE SENSE, MODE SELECT and PERSISTENT RESERVE OUT are checked
/// against them as they are executed.
#[derive(Drop)]
pub enum Operation<'a> {
    /// Nothing more than the checks: SEND DIAGNOSTIC, and SANITIZE that asks to leave a failed erase.
    Nothing,
    /// Finds out whether the unit is ready: TEST UNIT READY.
    TestReady,
    /// Starts the unit, or stops it: START STOP UNIT.
    StartStop {
        /// Whether the unit is started.
        start: bool,
    },
    /// Returns the oldest unit attention as sense data, and clears it.
    ReturnSense {
        format: Format,
        /// In bytes.
        allocation_length: u8,
    },
    /// Returns the standard INQUIRY data, or a page of vital product data.
    ReturnInquiry {
        page: InquiryPage,
        /// In bytes.
        allocation_length: u16,
    },
    /// Returns the list of logical units, and clears the pending condition that it has changed.
    ReturnLuns {
        /// Whether the disk's own logical unit is listed.
        listed: bool,
        /// In bytes.
        allocation_length: u32,
    },
    /// Returns a report of the disk about itself.
    ReturnReport {
        report: Report,
        /// In bytes.
        allocation_length: u32,
    },
    /// Returns a mode parameter list.
    ReturnModes {
        request: RequestedModes,
        /// In bytes.
        allocation_length: u16,
    },
    /// Sets the mode pages to a list's pages.
    ChangeModes {
        /// The width of the CDB, which decides the form of the list's header.
        width: CdbWidth,
        /// Whether all pages are saved.
        sp: bool,
        list: ModeList<'a>,
    },
    /// Returns READ CAPACITY(10) parameter data.
    ReturnCapacity10,
    /// Returns READ CAPACITY(16) parameter data, up to an allocation length, in bytes.
    ReturnCapacity16(u32),
    /// Returns blocks.
    Read(BlocksIn),
    /// Replaces blocks.
    Write(BlocksOut<'a>),
    /// Finds out whether blocks can be read, which they can: VERIFY without a comparison.
    Verify(Extent),
    /// Compares blocks with data-out: VERIFY.
    Compare(BlocksOut<'a>),
    /// Compares each of its blocks with one block: VERIFY.
    CompareEach {
        extent: Extent,
        block: BlockOut<'a>,
    },
    /// Replaces blocks if they are as expected: COMPARE AND WRITE.
    CompareAndWrite(Exchange<'a>),
    /// Sets bits of blocks: ORWRITE.
    OrWrite(BlocksOut<'a>),
    /// Copies blocks to others: EXTENDED COPY.
    Copy(CopiedBlocks),
    /// Asks for blocks to be read into a cache, which the disk lacks: PRE-FETCH.
    PreFetch(Extent),
    /// Asks for blocks to be written through, which they are.
    Synchronize(Extent),
    /// Replaces blocks by one block.
    Fill {
        extent: Extent,
        block: BlockOut<'a>,
    },
    /// Marks a block with an error, which each READ of it reports until a command writes the block:
    /// WRITE LONG.
    MarkBad {
        lba: u64,
        /// Whether the disk is not to try to correct the error.
        cor_dis: bool,
    },
    /// Unmaps blocks, extent by extent.
    Unmap(ListedExtents<'a>),
    /// Unmaps blocks of one extent.
    UnmapExtent(Extent),
    /// Unmaps all blocks of the disk, so many: FORMAT UNIT, and an erase of SANITIZE.
    UnmapAll(u64),
    /// Anchors blocks, extent by extent.
    Anchor(ListedExtents<'a>),
    /// Anchors blocks of one extent.
    AnchorExtent(Extent),
    /// Returns which blocks are mapped or anchored, from an address on.
    ReturnLbaStatus {
        start: u64,
        /// In bytes.
        allocation_length: u32,
    },
    /// Returns what a service action of PERSISTENT RESERVE IN asks for.
    ReturnReservations {
        action: InAction,
        /// In bytes.
        allocation_length: u16,
    },
    /// Registrations and reservation change.
    ChangeReservations {
        action: OutAction,
        /// Byte 2 of the CDB.
        scope_type: u8,
        list: OutList<'a>,
    },
}

/// An operation's use of the medium.
#[derive(Drop)]
pub(crate) struct MediumUse {
    /// Why its blocks can't all be reached.
    pub(crate) out_of_range: Option<Refusal>,
    /// Whether it writes to the medium.
    pub(crate) writes: bool,
}

impl<'a> Operation<'a> {
    /// Its use of the medium of a disk of `capacity` blocks.
    #[tactic(auto, using(crate::proofs::StepLemmas::alone), unfolding(crate::specs::Checks::out_of_range))]
    #[inline(always)]
    pub(crate) fn medium_use(&self, capacity: u64) -> MediumUse
        requires { capacity ≤ MAX_CAPACITY }
        ensures range { result.out_of_range ≡ out_of_range capacity (medium_use self.now).extents }
        ensures on_disk { IfNone result.out_of_range
            (AreOnDisk capacity (medium_use self.now).extents) }
        ensures writes { result.writes ≡ (medium_use self.now).writes }
    {
        let (out_of_range, writes) = match self {
            Operation::Read(blocks) => (past_capacity(blocks.extent, capacity), false),
            Operation::Compare(blocks) => (past_capacity(blocks.extent, capacity), false),
            Operation::CompareAndWrite(exchange) => (
                past_capacity(exchange.extent, capacity),
                true,
            ),
            Operation::Verify(extent)
            | Operation::CompareEach { extent, .. }
            | Operation::PreFetch(extent)
            | Operation::Synchronize(extent) => (past_capacity(*extent, capacity), false),
            Operation::ReturnLbaStatus { start, .. } => {
                (past_capacity(one_block(*start), capacity), false)
            }
            Operation::MarkBad { lba, .. } => (past_capacity(one_block(*lba), capacity), true),
            Operation::Write(blocks) | Operation::OrWrite(blocks) => {
                (past_capacity(blocks.extent, capacity), true)
            }
            Operation::Copy(blocks) => {
                let extents = [blocks.source(), blocks.destination()];
                (first_past_capacity(&extents, capacity), true)
            }
            Operation::Fill { extent, .. }
            | Operation::UnmapExtent(extent)
            | Operation::AnchorExtent(extent) => (past_capacity(*extent, capacity), true),
            Operation::UnmapAll(blocks) => (all_past_capacity(*blocks, capacity), true),
            Operation::Unmap(extents) | Operation::Anchor(extents) => {
                (listed_out_of_range(extents, capacity), true)
            }
            // The others name no block.
            _ => (None, false),
        };
        MediumUse {
            out_of_range,
            writes,
        }
    }

    /// Returns `true` if the unit has to be ready for it.
    // Not inlined: only a stopped unit asks.
    #[inline(never)]
    pub(crate) fn needs_ready(&self) -> bool
        ensures { result ≡ (medium_use self.now).needs_ready }
    {
        !matches!(
            self,
            Operation::Nothing
                | Operation::StartStop { .. }
                | Operation::ReturnSense { .. }
                | Operation::ReturnInquiry { .. }
                | Operation::ReturnLuns { .. }
                | Operation::ReturnReport { .. }
                | Operation::ReturnModes { .. }
                | Operation::ChangeModes { .. }
                | Operation::ReturnCapacity10
                | Operation::ReturnCapacity16(_)
                | Operation::ReturnReservations { .. }
                | Operation::ChangeReservations { .. }
        )
    }

    /// Returns `true` if an operation that writes names some block.
    // Not inlined: only a disk whose SWP is set asks.
    #[inline(never)]
    pub(crate) fn names_some_block(&self) -> bool
        ensures { (medium_use self.now).writes ≡ true
            → result ≡ names_some_block (medium_use self.now).extents }
    {
        match self {
            Operation::Write(blocks) | Operation::OrWrite(blocks) => blocks.extent.count > 0,
            Operation::CompareAndWrite(exchange) => exchange.extent.count > 0,
            Operation::Copy(blocks) => blocks.source().count > 0,
            Operation::Fill { extent, .. }
            | Operation::UnmapExtent(extent)
            | Operation::AnchorExtent(extent) => extent.count > 0,
            Operation::UnmapAll(blocks) => *blocks > 0,
            Operation::Unmap(extents) | Operation::Anchor(extents) => { listed_some_block(extents) }
            _ => true,
        }
    }
}

/// The operation that a command asks for on a disk of a configuration. This checks the command's
/// values, its data-out, and the page or the parameter list that it names.
#[inline(always)]
pub(crate) fn operation_of<'a>(
    config: &Config,
    command: &Command,
    data_out: &'a [u8],
) -> Result<Operation<'a>, Refusal>
    ensures { result ≡ requested (demands config.now command.now data_out.now) data_out.now }
{
    match *command {
        Command::TestUnitReady => Ok(Operation::TestReady),
        Command::RequestSense(fields) => Ok(check_request_sense(fields)),
        Command::Inquiry(fields) => check_inquiry(config, fields),
        Command::ModeSelect6(fields) => check_mode_select_6(config, fields, data_out),
        Command::ModeSelect10(fields) => check_mode_select_10(config, fields, data_out),
        Command::ModeSense6(fields) => Ok(check_mode_sense_6(config, fields)),
        Command::ModeSense10(fields) => Ok(check_mode_sense_10(config, fields)),
        Command::LogSense(fields) => check_log_sense(fields),
        Command::ReportLuns(fields) => check_report_luns(fields),
        Command::ReportSupportedOperationCodes(fields) => check_operation_codes(config, &fields),
        Command::ReportSupportedTaskManagementFunctions(fields) => check_task_management(fields),
        Command::ReportTargetPortGroups(fields) => check_target_port_groups(fields),
        Command::SendDiagnostic(fields) => check_send_diagnostic(fields),
        Command::ExtendedCopy(fields) => check_extended_copy(config, fields, data_out),
        Command::ReceiveCopyOperatingParameters(fields) => {
            Ok(check_operating_parameters(fields))
        }
        Command::PersistentReserveIn(fields) => Ok(check_reserve_in(fields)),
        Command::PersistentReserveOut(fields) => check_reserve_out(config, fields, data_out),
        // Here, too, so that READ(10) does not pay for the other block commands.
        Command::Read10(extent) => check_read(config, Extent::from(extent), LENGTH_AT_10),
        _ => block_operation_of(config, command, data_out),
    }
}

/// The operation that a block command asks for.
// Not inlined: each command would pay for a copy of the operation.
#[inline(never)]
fn block_operation_of<'a>(
    config: &Config,
    command: &Command,
    data_out: &'a [u8],
) -> Result<Operation<'a>, Refusal>
    requires { is_block_command command.now ≡ true }
    ensures { result ≡ requested (demands config.now command.now data_out.now) data_out.now }
{
    match *command {
        Command::CompareAndWrite(fields) => check_compare_and_write(fields, data_out),
        Command::FormatUnit(fields) => check_format_unit(config, fields, data_out),
        Command::OrWrite16(extent) => check_or_write_16(config, extent.into(), data_out),
        Command::PreFetch10(extent) => Ok(pre_fetch(config, Extent::from(extent))),
        Command::PreFetch16(extent) => Ok(pre_fetch(config, Extent::from(extent))),
        Command::Read6(extent) => Ok(check_read_6(Extent::from(extent))),
        Command::Read10(extent) => check_read(config, Extent::from(extent), LENGTH_AT_10),
        Command::Read12(extent) => check_read(config, Extent::from(extent), LENGTH_AT_12),
        Command::Read16(extent) => check_read(config, Extent::from(extent), LENGTH_AT_16),
        Command::Write6(extent) => check_write_6(config, Extent::from(extent), data_out),
        Command::Write10(extent) => check_write(config, extent.into(), LENGTH_AT_10, data_out),
        Command::Write12(extent) => check_write(config, extent.into(), LENGTH_AT_12, data_out),
        Command::Write16(extent) => check_write(config, extent.into(), LENGTH_AT_16, data_out),
        Command::ReadCapacity10 => Ok(Operation::ReturnCapacity10),
        Command::ReadCapacity16(fields) => Ok(check_read_capacity_16(fields)),
        Command::ReadDefectData10(fields) => check_read_defect_data_10(fields),
        Command::ReadDefectData12(fields) => check_read_defect_data_12(fields),
        Command::SanitizeBlockErase(fields) => check_erase(config, fields),
        Command::SanitizeCryptographicErase(fields) => check_erase(config, fields),
        Command::SanitizeExitFailureMode(fields) => check_exit_failure_mode(fields),
        Command::StartStopUnit(fields) => check_start_stop_unit(fields),
        Command::SynchronizeCache10(extent) => Ok(synchronize(config, Extent::from(extent))),
        Command::SynchronizeCache16(extent) => Ok(synchronize(config, Extent::from(extent))),
        Command::Verify10(fields) => check_verify(config, fields.into(), data_out),
        Command::Verify12(fields) => check_verify(config, fields.into(), data_out),
        Command::Verify16(fields) => check_verify(config, fields.into(), data_out),
        Command::WriteAndVerify10(fields) => check_verified_write(config, fields.into(), data_out),
        Command::WriteAndVerify12(fields) => check_verified_write(config, fields.into(), data_out),
        Command::WriteAndVerify16(fields) => check_verified_write(config, fields.into(), data_out),
        Command::WriteAtomic16(fields) => check_write_atomic_16(config, fields, data_out),
        Command::WriteLong10(fields) => check_write_long_10(fields),
        Command::WriteSame10(fields) => check_write_same_10(config, fields, data_out),
        Command::WriteSame16(fields) => check_write_same_16(config, fields, data_out),
        Command::Unmap(fields) => check_unmap(config, fields, data_out),
        Command::GetLbaStatus(fields) => Ok(check_get_lba_status(fields)),
        _ => unreachable!(),
    }
}

impl<S: Store> Target<S> {
    /// Executes an operation, unless the disk's state refuses it. It reports no threshold.
    // Inlined: a command would pay for one more call.
    #[inline(always)]
    pub(crate) fn execute_operation(
        &mut self,
        initiator: Initiator,
        operation: &Operation<'_>,
        buf: &mut [u8],
    ) -> Reply
        requires on_disk { AreOnDisk self.old.state.disk.capacity (medium_use operation.now).extents }
        requires limits { IsWithinLimits self.old.state }
        requires room { data_in_bound operation.now ≤ length buf.old }
        ensures { TakesStep (cost_bounds S.price S.least)
            (step_before_alert self.old.state initiator operation.now)
            (ranges_of self.old.state operation.now)
            self.old self.new result buf.old buf.new }
    {
        match operation {
            // A block is marked with an error as the command ends: see `conclude_armed`.
            Operation::Nothing
            | Operation::TestReady
            | Operation::Verify(_)
            | Operation::PreFetch(_)
            | Operation::Synchronize(_)
            | Operation::MarkBad { .. } => Reply::without_blocks(0),
            Operation::StartStop { start } => self.start_or_stop(*start),
            Operation::ChangeModes { width, sp, list } => {
                self.change_modes(initiator, *width, *sp, list, buf)
            }
            Operation::Write(blocks) => self.write(initiator, blocks, buf),
            Operation::Compare(blocks) => self.compare(initiator, blocks, buf),
            Operation::CompareEach { extent, block } => {
                self.compare_each(initiator, *extent, block, buf)
            }
            Operation::CompareAndWrite(blocks) => self.compare_and_write(initiator, blocks, buf),
            Operation::OrWrite(blocks) => self.or_write(initiator, blocks, buf),
            Operation::Copy(blocks) => self.copy(initiator, blocks, buf),
            Operation::Fill { extent, block } => self.fill(initiator, *extent, block, buf),
            Operation::Unmap(extents) => self.unmap_listed(extents, buf),
            Operation::UnmapExtent(extent) => self.unmap(&[*extent], buf),
            Operation::UnmapAll(blocks) => self.unmap_all(*blocks, buf),
            Operation::Anchor(extents) => self.anchor_listed(initiator, extents, buf),
            Operation::AnchorExtent(extent) => self.anchor(initiator, &[*extent], buf),
            Operation::ChangeReservations {
                action,
                scope_type,
                list,
            } => self.change_reservations(initiator, *action, *scope_type, list, buf),
            // The others return data.
            _ => self.return_asked(initiator, operation, buf),
        }
    }

    /// Returns the data that an operation asks for, unless the disk's state refuses it.
    // Inlined: a command would pay for one more call.
    #[inline(always)]
    fn return_asked(
        &mut self,
        initiator: Initiator,
        operation: &Operation<'_>,
        buf: &mut [u8],
    ) -> Reply
        requires returns { returns_data operation.now ≡ true }
        requires on_disk { AreOnDisk self.old.state.disk.capacity (medium_use operation.now).extents }
        requires limits { IsWithinLimits self.old.state }
        requires room { data_in_bound operation.now ≤ length buf.old }
        ensures { TakesStep (cost_bounds S.price S.least)
            (step_before_alert self.old.state initiator operation.now)
            (ranges_of self.old.state operation.now)
            self.old self.new result buf.old buf.new }
    {
        match operation {
            Operation::ReturnSense {
                format,
                allocation_length,
            } => self.return_sense(initiator, *format, *allocation_length, buf),
            Operation::ReturnInquiry {
                page,
                allocation_length,
            } => self.return_data(DataIn::Inquiry(*page), usize::from(*allocation_length), buf),
            Operation::ReturnLuns {
                listed,
                allocation_length,
            } => self.return_luns(initiator, *listed, *allocation_length, buf),
            Operation::ReturnReport {
                report,
                allocation_length,
            } => self.return_data(self.report(*report), *allocation_length as usize, buf),
            Operation::ReturnModes {
                request,
                allocation_length,
            } => self.return_modes(initiator, request, *allocation_length, buf),
            Operation::ReturnCapacity10 => self.return_capacity_10(buf),
            Operation::ReturnCapacity16(length) => self.return_capacity_16(*length, buf),
            Operation::Read(blocks) => self.read(blocks, buf),
            Operation::ReturnLbaStatus {
                start,
                allocation_length,
            } => self.return_lba_status(*start, *allocation_length, buf),
            Operation::ReturnReservations {
                action,
                allocation_length,
            } => self.return_reservations(*action, *allocation_length, buf),
            _ => unreachable!(),
        }
    }
}
