// Commands on a disk on which faults are armed.
ghost use Rattle.std.specs.Prelude.{◌≡◌, ◌≤◌, [], ◌∷◌, Ok, IfOk, is_some, length, min};
ghost use Rattle.sg_faults.specs.Faults.{asked, decided};
ghost use Rattle.sg_faults.specs.Overwritten.{extents_of};
ghost use Rattle.sg_faults.specs.Places.{afterwards};
ghost use Rattle.sg_target.specs.Armed.{armed_step_by, attempt, attempt_by, checked_attempt};
ghost use Rattle.sg_target.specs.Armed.{faults_left, first_blocks, marked_by, marked_code};
ghost use Rattle.sg_target.specs.Armed.{medium_of, refusal_on_arrival, result_at_medium, seen};
ghost use Rattle.sg_target.specs.Armed.{step_of_checked};
ghost use Rattle.sg_target.specs.BlockCommands.{first_of};
ghost use Rattle.sg_target.specs.Charge.{ChargesCommand, TakesArmedStep, TakesStep, armed_ranges};
ghost use Rattle.sg_target.specs.Charge.{cost_bounds};
ghost use Rattle.sg_target.specs.DataInBound.{checked_bound, longest_data_in, needed_buffer};
ghost use Rattle.sg_target.specs.Executed.{executed_by, executed_operation};
ghost use Rattle.sg_target.specs.Execution.{IsExecuted};
ghost use Rattle.sg_target.specs.Extents.{AreOnDisk};
ghost use Rattle.sg_target.specs.MadeReplies.{finished_reply};
ghost use Rattle.sg_target.specs.OverwrittenBlocks.{extents_in};
ghost use Rattle.sg_target.specs.Ranges.{ranges_if_passed};
ghost use Rattle.sg_target.specs.Semantics.{medium_use};
ghost use Rattle.sg_target.specs.State.{IsWithinLimits};
ghost use Rattle.sg_target.specs.Step.{sense_format};
ghost use Rattle.sg_target.specs.Target.{disk_of};

use crate::call::Call;
use crate::data_out::asked_bytes;
use crate::executed::Executed;
use crate::extent::one_block;
use crate::laws::limits_are_kept;
use crate::operation::Operation;
use crate::refusal::{Reason, Refusal};
use crate::reply::{Reply, Status};
use crate::room::data_in_bound;
use crate::target::Target;
use sg_faults::{
    Afterwards, ArmedFault, AtMedium, Fault, OnArrival, Overwritten, SeenCommand, SenseCode,
    SenseKey,
};
use sg_store::{Counts, Store};
use sg_wire::{Command, Extent, Initiator, UnmapList};

/// The first blocks of an extent, at most this many.
pub(crate) fn first_of(blocks: u32, extent: Extent) -> Extent
    ensures { result ≡ first_of blocks extent }
{
    Extent {
        lba: extent.lba,
        count: blocks.min(extent.count),
    }
}

/// The blocks that a command writes, whatever they contain.
#[derive(Drop)]
enum OverwrittenBlocks {
    /// The blocks of these extents.
    Extents(UnmapList),
    /// All blocks of a disk with this number of blocks.
    Disk(u64),
}

impl OverwrittenBlocks {
    /// No block.
    fn none() -> OverwrittenBlocks
        ensures { extents_in result ≡ [] }
    {
        OverwrittenBlocks::Extents(UnmapList::new())
    }

    /// The blocks of one extent.
    fn one(extent: Extent) -> OverwrittenBlocks
        ensures { extents_in result ≡ extent ∷ [] }
    {
        let mut list = UnmapList::new();
        list.push(extent);
        OverwrittenBlocks::Extents(list)
    }

    /// How faults see them.
    fn seen(&self) -> Overwritten<'_>
        ensures { extents_of result ≡ extents_in self.now }
    {
        match self {
            OverwrittenBlocks::Extents(extents) => Overwritten::Extents(extents.as_slice()),
            OverwrittenBlocks::Disk(blocks) => Overwritten::Disk(*blocks),
        }
    }
}

impl<'a> Operation<'a> {
    /// The blocks that it reads, before it writes any.
    fn read(&self) -> Option<Extent>
        ensures { result ≡ (medium_use self.now).read }
    {
        match self {
            Operation::Read(blocks) => Some(blocks.extent),
            Operation::Compare(blocks) | Operation::OrWrite(blocks) => Some(blocks.extent),
            Operation::CompareAndWrite(exchange) => Some(exchange.extent),
            Operation::Copy(blocks) => Some(blocks.source()),
            Operation::Verify(extent) | Operation::CompareEach { extent, .. } => Some(*extent),
            _ => None,
        }
    }

    /// The blocks that it writes, whatever they contain.
    fn overwritten(&self) -> OverwrittenBlocks
        ensures { extents_in result ≡ (medium_use self.now).overwritten }
    {
        match self {
            Operation::Unmap(extents) | Operation::Anchor(extents) => {
                OverwrittenBlocks::Extents(extents.to_list())
            }
            Operation::UnmapAll(blocks) => OverwrittenBlocks::Disk(*blocks),
            Operation::Write(blocks) => OverwrittenBlocks::one(blocks.extent),
            Operation::Copy(blocks) => OverwrittenBlocks::one(blocks.destination()),
            Operation::Fill { extent, .. }
            | Operation::UnmapExtent(extent)
            | Operation::AnchorExtent(extent) => OverwrittenBlocks::one(*extent),
            Operation::MarkBad { lba, .. } => OverwrittenBlocks::one(one_block(*lba)),
            _ => OverwrittenBlocks::none(),
        }
    }

    /// The same operation, but a READ, a WRITE or a WRITE SAME only of its first blocks.
    fn first_blocks(self, blocks: u32) -> Operation<'a>
        ensures { result ≡ first_blocks blocks self.entry }
    {
        match self {
            Operation::Read(read) => Operation::Read(read.first(blocks)),
            Operation::Write(out) => Operation::Write(out.first(blocks)),
            Operation::Fill { extent, block } => Operation::Fill {
                extent: first_of(blocks, extent),
                block,
            },
            operation => operation,
        }
    }
}

/// The blocks that a command overwrites. A refused command overwrites none.
fn overwritten_by(checked: &Result<Operation<'_>, Refusal>) -> OverwrittenBlocks
    ensures { extents_in result ≡ (medium_of checked.now).overwritten }
{
    match checked {
        Ok(operation) => operation.overwritten(),
        Err(_) => OverwrittenBlocks::none(),
    }
}

/// Returns `true` for a WRITE LONG, which arms a fault.
#[inline(always)]
pub(crate) fn arms_fault(checked: &Result<Operation<'_>, Refusal>) -> bool
    ensures { result ≡ is_some (marked_by checked.now) }
{
    matches!(checked, Ok(Operation::MarkBad { .. }))
}

/// The fault that it arms.
fn marked_by(checked: &Result<Operation<'_>, Refusal>) -> Option<Fault>
    ensures { result ≡ marked_by checked.now }
{
    match checked {
        Ok(Operation::MarkBad { lba, cor_dis }) => {
            Some(Fault::unrecovered_error(*lba, marked_code(*cor_dis)))
        }
        _ => None,
    }
}

/// The sense code of a marked block (SBC-3, 4.18.2).
fn marked_code(cor_dis: bool) -> SenseCode
    ensures { result ≡ marked_code cor_dis }
{
    SenseCode {
        key: SenseKey::MediumError,
        asc: 0x11,
        ascq: if cor_dis { 0x14 } else { 0x00 },
    }
}

/// What the faults see of a command. `overwritten` are the blocks that it overwrites.
fn seen<'a>(
    initiator: Initiator,
    cdb: &[u8],
    checked: &Result<Operation<'_>, Refusal>,
    overwritten: &'a OverwrittenBlocks,
) -> SeenCommand<'a>
    requires { extents_in overwritten.now ≡ (medium_of checked.now).overwritten }
    ensures { result ≡ seen initiator cdb.now checked.now }
{
    SeenCommand {
        initiator,
        code: cdb.first().copied(),
        read: match checked {
            Ok(operation) => operation.read(),
            Err(_) => None,
        },
        overwritten: overwritten.seen(),
    }
}

/// What a fault on arrival answers.
fn refusal_on_arrival(outcome: OnArrival) -> Refusal
    ensures { result ≡ refusal_on_arrival outcome }
{
    match outcome {
        OnArrival::Busy => Refusal::Busy,
        OnArrival::TaskSetFull => Refusal::TaskSetFull,
        OnArrival::ReservationConflict => Refusal::Conflict,
        OnArrival::NoReply => Refusal::NoReply,
        OnArrival::CheckCondition(code) => Refusal::CheckCondition(Reason::Fault {
            code,
            first_bad: None,
        }),
        OnArrival::DeferredError(code) => Refusal::DeferredError(code),
    }
}

/// What a fault at the medium leaves of an operation.
fn result_at_medium<'a>(
    operation: Operation<'a>,
    first_bad: Option<u64>,
    outcome: AtMedium,
) -> Result<Operation<'a>, Refusal>
    ensures { result ≡ result_at_medium operation.entry first_bad outcome }
{
    match outcome {
        AtMedium::CheckCondition(code) => {
            Err(Refusal::CheckCondition(Reason::Fault { code, first_bad }))
        }
        AtMedium::MovesOnly(blocks) => Ok(operation.first_blocks(blocks)),
    }
}

impl<S: Store> Target<S> {
    /// The armed faults, by their numbers.
    pub fn faults(&self) -> &[Option<ArmedFault>]
        ensures { result.now ≡ self.now.faults }
    {
        self.faults.as_slice()
    }

    /// Executes a command while faults are armed, or one that arms one.
    #[cold]
    pub(crate) fn execute_armed(
        &mut self,
        initiator: Initiator,
        cdb: &[u8],
        data_out: &[u8],
        buf: &mut [u8],
    ) -> Reply
        requires { min (needed_buffer self.old.state initiator cdb.now data_out.now) longest_data_in
            ≤ length buf.old }
        ensures executed { IsExecuted initiator cdb.now data_out.now
            (disk_of self.old) (disk_of self.new) result buf.old buf.new }
        ensures charged { ChargesCommand (cost_bounds S.price S.least) initiator cdb.now data_out.now
            self.old self.new result }
    {
        let call = Call {
            initiator,
            cdb,
            data_out,
        };
        self.execute_told(call, buf).reply
    }

    /// Executes a command as [`Target::execute`] does, and tells which operation it has executed. For
    /// those who keep what the operation changes.
    pub fn execute_told<'a>(&mut self, call: Call<'a>, buf: &mut [u8]) -> Executed<'a>
        requires { min (needed_buffer self.old.state call.initiator call.cdb.now call.data_out.now)
            longest_data_in ≤ length buf.old }
        ensures executed { let sent = call.entry in
            IsExecuted sent.initiator sent.cdb.now sent.data_out.now
            (disk_of self.old) (disk_of self.new) result.reply buf.old buf.new }
        ensures charged { let sent = call.entry in
            ChargesCommand (cost_bounds S.price S.least)
            sent.initiator sent.cdb.now sent.data_out.now self.old self.new result.reply }
        ensures operation { let sent = call.entry in result.operation
            ≡ executed_operation (disk_of self.old) sent.initiator sent.cdb.now sent.data_out.now }
    {
        limits_are_kept();
        let command = Command::read_in(self.profile(), call.cdb);
        let asked = asked_bytes(&command);
        let checked = self.check_command(call.initiator, call.cdb, &command, call.data_out);
        // Its contract says that no data-in is longer than the longest.
        let _ = data_in_bound(&checked);
        let mut executed = self.conclude_armed(call.initiator, call.cdb, checked, buf);
        executed.reply.data_out = asked;
        executed
    }

    /// Executes a command that the checks have passed, or refuses it, while faults are armed or if it arms
    /// one.
    fn conclude_armed<'a>(
        &mut self,
        initiator: Initiator,
        cdb: &[u8],
        checked: Result<Operation<'a>, Refusal>,
        buf: &mut [u8],
    ) -> Executed<'a>
        requires on_disk { IfOk checked (λ operation.
            AreOnDisk self.old.state.disk.capacity (medium_use operation).extents) }
        requires limits { IsWithinLimits self.old.state }
        requires room { checked_bound checked ≤ length buf.old }
        ensures taken { TakesArmedStep (cost_bounds S.price S.least)
            (armed_step_by (disk_of self.old) initiator cdb.now checked.entry)
            (armed_ranges (disk_of self.old) initiator cdb.now checked.entry)
            self.old self.new result.reply buf.old buf.new }
        ensures operation { result.operation ≡ executed_by self.old.state initiator
            (attempt_by (disk_of self.old) initiator cdb.now checked.entry).result }
    {
        let overwritten = overwritten_by(&checked);
        let command = seen(initiator, cdb, &checked, &overwritten);
        let tried = self.attempt(&command, checked);
        let overwritten = overwritten_by(&tried);
        let command = seen(initiator, cdb, &tried, &overwritten);
        let mark = marked_by(&tried);
        let reply = self.perform(initiator, &tried, buf);
        if reply.status == Status::Good {
            Executed {
                reply: self.finish(&command, &mark, reply),
                operation: tried.ok(),
            }
        } else {
            Executed {
                reply,
                operation: None,
            }
        }
    }

    /// Executes an operation, or refuses the command.
    fn perform(
        &mut self,
        initiator: Initiator,
        checked: &Result<Operation<'_>, Refusal>,
        buf: &mut [u8],
    ) -> Reply
        requires on_disk { IfOk checked.now (λ operation.
            AreOnDisk self.old.state.disk.capacity (medium_use operation).extents) }
        requires limits { IsWithinLimits self.old.state }
        requires room { checked_bound checked.now ≤ length buf.old }
        ensures { TakesStep (cost_bounds S.price S.least)
            (step_of_checked self.old.state initiator checked.now)
            (ranges_if_passed self.old.state checked.now)
            self.old self.new result buf.old buf.new }
    {
        match checked {
            Ok(operation) => self.execute_checked(initiator, operation, buf),
            Err(refusal) => self.refuse(initiator, *refusal, Counts::default()),
        }
    }

    /// What the faults on arrival and at the medium leave of a command.
    fn attempt<'a>(
        &mut self,
        command: &SeenCommand<'_>,
        checked: Result<Operation<'a>, Refusal>,
    ) -> Result<Operation<'a>, Refusal>
        ensures result { result ≡ (attempt self.old.faults command.now checked.entry).result }
        ensures faults { self.new.faults ≡ (attempt self.old.faults command.now checked.entry).faults }
        ensures state { self.new.state ≡ self.old.state }
        ensures meter { self.new.meter ≡ self.old.meter }
    {
        if let Some(struck) = self.faults.ask::<OnArrival>(command) {
            return Err(refusal_on_arrival(struck.outcome));
        }
        let result = self.reach_medium(command, checked?);
        if arms_fault(&result) && !self.faults.have_room_after(command) {
            return Err(Refusal::CheckCondition(Reason::InsufficientResources));
        }
        result
    }

    /// What the faults at the medium leave of an operation.
    fn reach_medium<'a>(
        &mut self,
        command: &SeenCommand<'_>,
        operation: Operation<'a>,
    ) -> Result<Operation<'a>, Refusal>
        ensures result { result
            ≡ (checked_attempt command.now (Ok operation.entry) self.old.faults).result }
        ensures faults { self.new.faults
            ≡ (checked_attempt command.now (Ok operation.entry) self.old.faults).faults }
        ensures state { self.new.state ≡ self.old.state }
        ensures meter { self.new.meter ≡ self.old.meter }
    {
        if !command.reaches_medium() {
            return Ok(operation);
        }
        match self.faults.ask::<AtMedium>(command) {
            Some(struck) => result_at_medium(operation, struck.first_bad, struck.outcome),
            None => Ok(operation),
        }
    }

    /// The reply to a command that has ended with GOOD, after the faults afterwards. The blocks that it
    /// heals are healed, and the one that it marks is bad.
    fn finish(&mut self, command: &SeenCommand<'_>, mark: &Option<Fault>, reply: Reply) -> Reply
        ensures reply { result ≡ finished_reply (sense_format self.old.state) reply
            (decided afterwards command.now (faults_left mark.now command.now self.old.faults)) }
        ensures faults { self.new.faults
            ≡ asked afterwards command.now (faults_left mark.now command.now self.old.faults) }
        ensures state { self.new.state ≡ self.old.state }
        ensures meter { self.new.meter ≡ self.old.meter }
    {
        self.faults.heal(command);
        if let Some(fault) = mark {
            self.faults.arm(fault);
        }
        match self.faults.ask::<Afterwards>(command) {
            Some(struck) => reply.afterwards(struck.outcome, self.sense_format()),
            None => reply,
        }
    }
}
