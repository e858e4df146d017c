// The length that the buffer for data-in needs, and commands with a buffer of any length.
ghost use Rattle.std.specs.Prelude.{◌≡◌, ◌≤◌, false, length, IfNone, IfOk, IfSome, is_some, nat_le};
ghost use Rattle.sg_wire.specs.CdbDecoding.{command_in};
ghost use Rattle.sg_target.specs.DataInBound.{longest_data_in};
ghost use Rattle.sg_faults.specs.Faults.{is_armed};
ghost use Rattle.sg_target.specs.Charge.{ChargesCommand, cost_bounds};
ghost use Rattle.sg_target.specs.Checks.{checked_cdb};
ghost use Rattle.sg_target.specs.DataInBound.{checked_bound, data_in_bound, needed_buffer};
ghost use Rattle.sg_target.specs.Execution.{IsExecuted};
ghost use Rattle.sg_target.specs.Extents.{AreOnDisk};
ghost use Rattle.sg_target.specs.Semantics.{medium_use};
ghost use Rattle.sg_target.specs.Demands.{data_out_length};
ghost use Rattle.sg_target.specs.State.{IsWithinLimits, config_of, profile_of};
ghost use Rattle.sg_target.specs.Target.{disk_of};

use crate::armed::arms_fault;
use crate::call::Call;
use crate::data_out::asked_bytes;
use crate::extent::byte_length;
use crate::laws::limits_are_kept;
use crate::operation::Operation;
use crate::primary::{LONGEST_INQUIRY_DATA, LONGEST_SENSE_DATA};
use crate::provisioning::LONGEST_STATUS_DATA;
use crate::refusal::Refusal;
use crate::reply::Reply;
use crate::target::Target;
use sg_pages::{CAPACITY_10_LENGTH, CAPACITY_16_LENGTH, LONGEST_MODE_LIST, LONGEST_REPORT};
use sg_store::{Counts, Store};
use sg_units::LONGEST_RESERVE_IN_DATA;
use sg_wire::{CdbFault, Command, Initiator};

impl<'a> Operation<'a> {
    /// The most bytes of data-in that it returns.
    pub(crate) fn data_in_bound(&self) -> usize
        ensures value { result ≡ data_in_bound self.now }
        ensures at_most { result ≤ longest_data_in }
    {
        match self {
            Operation::ReturnSense {
                allocation_length,
                ..
            } => LONGEST_SENSE_DATA.min(usize::from(*allocation_length)),
            Operation::ReturnInquiry {
                allocation_length,
                ..
            } => LONGEST_INQUIRY_DATA.min(usize::from(*allocation_length)),
            Operation::ReturnLuns {
                allocation_length,
                ..
            }
            | Operation::ReturnReport {
                allocation_length,
                ..
            } => LONGEST_REPORT.min(*allocation_length as usize),
            Operation::ReturnModes {
                allocation_length,
                ..
            } => LONGEST_MODE_LIST.min(usize::from(*allocation_length)),
            Operation::ReturnReservations {
                allocation_length,
                ..
            } => LONGEST_RESERVE_IN_DATA.min(usize::from(*allocation_length)),
            Operation::ReturnCapacity10 => CAPACITY_10_LENGTH,
            Operation::ReturnCapacity16(allocation_length) => {
                CAPACITY_16_LENGTH.min(*allocation_length as usize)
            }
            Operation::Read(blocks) => byte_length(blocks.extent) as usize,
            Operation::ReturnLbaStatus {
                allocation_length,
                ..
            } => LONGEST_STATUS_DATA.min(*allocation_length as usize),
            _ => 0,
        }
    }
}

/// The most bytes of data-in of a command that the checks have passed, or refused.
pub(crate) fn data_in_bound(checked: &Result<Operation<'_>, Refusal>) -> usize
    ensures value { result ≡ checked_bound checked.now }
    ensures at_most { result ≤ longest_data_in }
{
    match checked {
        Ok(operation) => operation.data_in_bound(),
        Err(_) => 0,
    }
}

impl<S: Store> Target<S> {
    /// The length that the buffer for the data-in of a command needs, in bytes, if the command came now.
    pub fn needed_buffer(&self, initiator: Initiator, cdb: &[u8], data_out: &[u8]) -> usize
        ensures value { result ≡ needed_buffer self.now.state initiator cdb.now data_out.now }
        ensures at_most { result ≤ longest_data_in }
    {
        let command = Command::read_in(self.profile(), cdb);
        data_in_bound(&self.check_command(initiator, cdb, &command, data_out))
    }

    /// Executes a command as [`Target::execute`] does, with a buffer of any length. None if the
    /// buffer is shorter than the data-in that the command asks for. Nothing has changed then.
    ///
    /// A buffer of [`BUFFER_LENGTH`](crate::BUFFER_LENGTH) bytes is long enough for every command,
    /// and an empty one for a command that is refused or has no data-in.
    pub fn execute_within(
        &mut self,
        initiator: Initiator,
        cdb: &[u8],
        data_out: &[u8],
        buf: &mut [u8],
    ) -> Option<Reply>
        // Whether the buffer is long enough.
        ensures room { is_some result
            ≡ nat_le (needed_buffer self.old.state initiator cdb.now data_out.now) (length buf.old) }
        ensures at_most { needed_buffer self.old.state initiator cdb.now data_out.now
            ≤ longest_data_in }

        // If it is, the answer, the state after it and the costs are as in the definition's step.
        ensures executed { IfSome result (λ reply. IsExecuted initiator cdb.now data_out.now
            (disk_of self.old) (disk_of self.new) reply buf.old buf.new) }
        ensures charged { IfSome result (λ reply. ChargesCommand (cost_bounds S.price S.least)
            initiator cdb.now data_out.now self.old self.new reply) }

        // If it is not, nothing changes.
        ensures kept { IfNone result (self.new ≡ self.old) }
        ensures untouched { IfNone result (buf.new ≡ buf.old) }
    {
        // The compiler drops what a command does not need if it knows the command.
        if Command::is_test_unit_ready(cdb) {
            let command = &Ok(Command::TestUnitReady);
            return self.execute_command_within(initiator, cdb, command, data_out, buf);
        }
        if let Some(extent) = Command::read_10(cdb) {
            let command = &Ok(Command::Read10(extent));
            return self.execute_command_within(initiator, cdb, command, data_out, buf);
        }
        let command = &Command::read_in(self.profile(), cdb);
        self.execute_command_within(initiator, cdb, command, data_out, buf)
    }

    /// Executes a CDB, in which the disk reads `command`, if the buffer is long enough.
    #[inline(always)]
    fn execute_command_within(
        &mut self,
        initiator: Initiator,
        cdb: &[u8],
        command: &Result<Command, CdbFault>,
        data_out: &[u8],
        buf: &mut [u8],
    ) -> Option<Reply>
        requires { command.now ≡ command_in (profile_of self.old.state) cdb.now }
        ensures room { is_some result
            ≡ nat_le (needed_buffer self.old.state initiator cdb.now data_out.now) (length buf.old) }
        ensures at_most { needed_buffer self.old.state initiator cdb.now data_out.now
            ≤ longest_data_in }
        ensures executed { IfSome result (λ reply. IsExecuted initiator cdb.now data_out.now
            (disk_of self.old) (disk_of self.new) reply buf.old buf.new) }
        ensures charged { IfSome result (λ reply. ChargesCommand (cost_bounds S.price S.least)
            initiator cdb.now data_out.now self.old self.new reply) }
        ensures kept { IfNone result (self.new ≡ self.old) }
        ensures untouched { IfNone result (buf.new ≡ buf.old) }
    {
        let asked = asked_bytes(command);
        let checked = self.check_command(initiator, cdb, command, data_out);
        if buf.len() < data_in_bound(&checked) {
            return None;
        }
        if self.faults.is_armed() {
            return Some(self.execute_armed(initiator, cdb, data_out, buf));
        }
        let call = Call {
            initiator,
            cdb,
            data_out,
        };
        Some(self.conclude(call, asked, &checked, buf))
    }

    /// Executes a command that the checks have passed, or refuses it, while no fault is armed. Its CDB
    /// asks for `asked` bytes of data-out.
    #[inline(always)]
    pub(crate) fn conclude(
        &mut self,
        call: Call<'_>,
        asked: u64,
        checked: &Result<Operation<'_>, Refusal>,
        buf: &mut [u8],
    ) -> Reply
        requires unarmed { is_armed self.old.faults ≡ false }
        requires asked { asked ≡ data_out_length (config_of self.old.state) call.cdb.now }
        requires checked { checked.now
            ≡ checked_cdb self.old.state call.initiator call.cdb.now call.data_out.now }
        requires on_disk { IfOk checked.now (λ operation.
            AreOnDisk self.old.state.disk.capacity (medium_use operation).extents) }
        requires limits { IsWithinLimits self.old.state }
        requires room { checked_bound checked.now ≤ length buf.old }
        ensures executed { let sent = call.entry in
            IsExecuted sent.initiator sent.cdb.now sent.data_out.now
            (disk_of self.old) (disk_of self.new) result buf.old buf.new }
        ensures charged { let sent = call.entry in
            ChargesCommand (cost_bounds S.price S.least)
            sent.initiator sent.cdb.now sent.data_out.now self.old self.new result }
    {
        limits_are_kept();
        sg_faults::laws::unarmed_faults_do_nothing();
        if arms_fault(checked) {
            return self.execute_armed(call.initiator, call.cdb, call.data_out, buf);
        }
        let mut reply = match checked {
            Ok(operation) => self.execute_checked(call.initiator, operation, buf),
            Err(refusal) => self.refuse(call.initiator, *refusal, Counts::default()),
        };
        reply.data_out = asked;
        reply
    }
}
