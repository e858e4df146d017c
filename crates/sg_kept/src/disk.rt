// A disk whose changes are kept in a file.
ghost use Rattle.std.specs.Prelude.{◌≡◌, ◌⊎◌, ◌≤◌, ◌<◌, ◌+◌, ◌^◌, [], ◌∷◌, length, min, false, true};
ghost use Rattle.std.specs.Prelude.{◌&&◌, not, IfOk, IsErr, OnOk, Some};
ghost use Rattle.sg_journal.specs.Device.{HasCause, LeavesOnly};
ghost use Rattle.sg_journal.specs.JournalState.{has_waiting};
ghost use Rattle.sg_target.specs.Armed.{Armed, armed_step};
ghost use Rattle.sg_target.specs.DataInBound.{longest_data_in, needed_buffer};
ghost use Rattle.sg_target.specs.Executed.{executed_operation};
ghost use Rattle.sg_target.specs.Execution.{IsExecuted};
ghost use Rattle.sg_target.specs.Target.{disk_of};
ghost use Rattle.sg_target.specs.declared.call.Call.{Call};
ghost use Rattle.sg_target.specs.declared.event.Event.TheVariants.{Call as Command};
ghost use Rattle.sg_kept.specs.Compaction.{IsKeptShort};
ghost use Rattle.sg_kept.specs.Disk.{IsAlive, IsDead, IsKept, IsUsable, failure_reply, longest_file};
ghost use Rattle.sg_kept.specs.GroupCommit.{HasUnwritten};
ghost use Rattle.sg_kept.specs.History.{AddsEvents, IsSent};
ghost use Rattle.sg_kept.specs.Kept.{powered};
ghost use Rattle.sg_kept.specs.Opened.{IsBeforeOr, opened};
ghost use Rattle.sg_kept.specs.Owing.{owes_flush};
ghost use Rattle.sg_kept.specs.Recording.{HasRoom};

use crate::BatchSink;
use crate::group_commit::Unflushed;
use crate::laws::power_cycles_leave_what_is_kept;
use crate::recording::execute_and_record;
use sg_journal::{Device, DeviceError, Journal};
use sg_store::Store;
use sg_target::{Reply, Target};
use sg_wire::Initiator;

/// The longest file that is opened or written to, in bytes.
pub(crate) const LONGEST_FILE: u64 = 1 << 60;

/// A disk in memory, and the file that keeps what a power cycle leaves of it.
#[derive(Drop)]
pub struct KeptDisk<S: Store, D: Device> {
    /// The disk in memory.
    pub target: Target<S>,
    /// The file.
    pub journal: Journal<D>,
    /// The records that the file does not have yet.
    pub batch: BatchSink,
    /// The device failed. The disk executes no command any more.
    pub is_dead: bool,
    /// The call that finds the file long writes it afresh. If not, that is left to the disk's owner, who
    /// calls [`begin_compaction`](KeptDisk::begin_compaction) then.
    pub compacts: bool,
    /// Room for the blocks that an ORWRITE or an EXTENDED COPY writes.
    pub scratch: Vec<u8>,
    /// The number of batches that the file had when it was opened. It is 0 if the disk was made.
    pub found_batches: u64,
}

/// Writes the records of a batch to the file, and commits all batches that wait there. At `Ok` the file
/// stands for the disk in memory.
fn write_batch<D: Device>(
    journal: &mut Journal<D>,
    batch: &mut BatchSink,
) -> Result<(), DeviceError>
    requires kept { (disk : Armed) × IsKept D.seen D.may_leave journal.old batch.old disk }
    requires length { journal.old.length ≤ 2 ^ 62 }

    ensures kept { OnOk result ((disk : Armed) → IsKept D.seen D.may_leave journal.old batch.old disk
        → IsKept D.seen D.may_leave journal.new batch.new disk) }
    ensures flushed { OnOk result ((disk : Armed)
        → IsKept D.seen D.may_leave journal.old batch.old disk
        → opened (D.seen journal.new.device) ≡ Some (powered disk)) }
    ensures empty { OnOk result (batch.new.records ≡ []) }
    ensures left { OnOk result ((disk : Armed) → IsKept D.seen D.may_leave journal.old batch.old disk
        → IsBeforeOr (D.seen journal.old.device) disk (D.seen journal.new.device)) }

    // A crash at any moment of the call leaves what the file stood for, or the disk after power on.
    ensures any_moment { (disk : Armed) → IsKept D.seen D.may_leave journal.old batch.old disk
        → LeavesOnly D.moment D.left_since journal.old.device journal.new.device
        (IsBeforeOr (D.seen journal.old.device) disk) }
    ensures cause { HasCause (D.failures journal.old.device) (D.failures journal.new.device) result }
{
    power_cycles_leave_what_is_kept();
    if batch.batch.records().is_empty() {
        return commit_waiting(journal, batch);
    }
    journal.flush(&mut batch.batch)?;
    batch.batch.clear();
    Ok(())
}

/// Commits all batches that wait in the file. No record may wait in memory. At `Ok` the file stands for the
/// disk in memory.
pub(crate) fn commit_waiting<D: Device>(
    journal: &mut Journal<D>,
    batch: &mut BatchSink,
) -> Result<(), DeviceError>
    requires kept { (disk : Armed) × IsKept D.seen D.may_leave journal.old batch.old disk }
    requires empty { batch.old.records ≡ [] }
    ensures kept { OnOk result ((disk : Armed) → IsKept D.seen D.may_leave journal.old batch.old disk
        → IsKept D.seen D.may_leave journal.new batch.new disk) }
    ensures flushed { OnOk result ((disk : Armed)
        → IsKept D.seen D.may_leave journal.old batch.old disk
        → opened (D.seen journal.new.device) ≡ Some (powered disk)) }
    ensures idle { has_waiting journal.new ≡ false }
    ensures any_moment { (disk : Armed) → IsKept D.seen D.may_leave journal.old batch.old disk
        → LeavesOnly D.moment D.left_since journal.old.device journal.new.device
        (IsBeforeOr (D.seen journal.old.device) disk) }
    ensures cause { HasCause (D.failures journal.old.device) (D.failures journal.new.device) result }
    ensures batch { batch.new ≡ batch.old }
{
    power_cycles_leave_what_is_kept();
    journal.commit(&mut batch.batch)
}

/// Writes the records of a batch to the file, where they wait. No sync is made, and the file stands for what
/// it did before.
fn let_batch_wait<D: Device>(
    journal: &mut Journal<D>,
    batch: &mut BatchSink,
) -> Result<(), DeviceError>
    requires kept { (disk : Armed) × IsKept D.seen D.may_leave journal.old batch.old disk }
    requires length { journal.old.length ≤ 2 ^ 62 }
    ensures kept { OnOk result ((disk : Armed) → IsKept D.seen D.may_leave journal.old batch.old disk
        → IsKept D.seen D.may_leave journal.new batch.new disk) }
    ensures empty { OnOk result (batch.new.records ≡ []) }
    ensures same { OnOk result
        (opened (D.seen journal.new.device) ≡ opened (D.seen journal.old.device)) }
    ensures any_moment { LeavesOnly D.moment D.left_since journal.old.device journal.new.device
        (λ c. opened c ≡ opened (D.seen journal.old.device)) }
    ensures cause { HasCause (D.failures journal.old.device) (D.failures journal.new.device) result }
{
    journal.write(&mut batch.batch)?;
    batch.batch.clear();
    Ok(())
}

/// Writes the records of a batch to the file, and commits them, if that is needed. If it is not, but the
/// batch has too little room for another command, the records only wait in the file then.
pub(crate) fn write_batch_if<D: Device>(
    journal: &mut Journal<D>,
    batch: &mut BatchSink,
    is_needed: bool,
) -> Result<(), DeviceError>
    requires kept { (disk : Armed) × IsKept D.seen D.may_leave journal.old batch.old disk }
    requires length { journal.old.length ≤ 2 ^ 62 }
    ensures kept { OnOk result ((disk : Armed) → IsKept D.seen D.may_leave journal.old batch.old disk
        → IsKept D.seen D.may_leave journal.new batch.new disk) }
    ensures flushed { OnOk result (is_needed ≡ true → (disk : Armed)
        → IsKept D.seen D.may_leave journal.old batch.old disk
        → opened (D.seen journal.new.device) ≡ Some (powered disk)) }
    ensures room { OnOk result (HasRoom batch.new) }
    // All that waits is written, or nothing.
    ensures written { OnOk result ((batch.new.records ≡ [])
        ⊎ ((is_needed ≡ false) × (journal.new ≡ journal.old))) }
    ensures left { OnOk result ((disk : Armed) → IsKept D.seen D.may_leave journal.old batch.old disk
        → IsBeforeOr (D.seen journal.old.device) disk (D.seen journal.new.device)) }
    ensures any_moment { (disk : Armed) → IsKept D.seen D.may_leave journal.old batch.old disk
        → LeavesOnly D.moment D.left_since journal.old.device journal.new.device
        (IsBeforeOr (D.seen journal.old.device) disk) }
    ensures cause { HasCause (D.failures journal.old.device) (D.failures journal.new.device) result }
{
    if is_needed {
        return write_batch(journal, batch);
    }
    if !batch.has_room() {
        return let_batch_wait(journal, batch);
    }
    Ok(())
}

impl<S: Store, D: Device> KeptDisk<S, D> {
    /// Whether the reply to a command has to wait for a flush: the command owes one and has not flushed, and
    /// records wait, in memory or in the file.
    fn has_to_wait(&self, owes: bool, flushes: bool) -> bool
        requires usable { IsUsable D.seen D.may_leave self.now }
        ensures owes { result ≡ true → owes ≡ true }
        ensures flushes { result ≡ true → flushes ≡ false }
        ensures unwritten { result ≡ true → HasUnwritten self.now }
        ensures written { result ≡ false → flushes ≡ false → owes ≡ true
            → opened (D.seen self.now.journal.device) ≡ Some (powered (disk_of self.now.target)) }
    {
        power_cycles_leave_what_is_kept();
        owes && !flushes && (!self.batch.batch.records().is_empty() || self.journal.has_waiting())
    }

    /// Executes a command while the device has not failed. If the batch gets full, its records are written,
    /// and no sync is made. If `flushes` is `true`, it flushes if the command owes that.
    pub(crate) fn step(
        &mut self,
        initiator: Initiator,
        cdb: &[u8],
        data_out: &[u8],
        buf: &mut [u8],
        flushes: bool,
    ) -> Result<Unflushed, DeviceError>
        requires buffer { min (needed_buffer self.old.target.state initiator cdb.now data_out.now)
            longest_data_in ≤ length buf.old }
        requires usable { IsUsable D.seen D.may_leave self.old }

        ensures executed { IfOk result (λ done. IsExecuted initiator cdb.now data_out.now
            (disk_of self.old.target) (disk_of self.new.target) done.reply buf.old buf.new) }
        ensures usable { OnOk result (IsUsable D.seen D.may_leave self.new) }
        ensures owed { IfOk result (λ done. done.waits ≡ false
            → owes_flush (disk_of self.new.target) cdb.now
            (executed_operation (disk_of self.old.target) initiator cdb.now data_out.now) ≡ true
            → opened (D.seen self.new.journal.device) ≡ Some (powered (disk_of self.new.target))) }
        ensures waits { IfOk result (λ done. done.waits ≡ true
            → owes_flush (disk_of self.new.target) cdb.now
            (executed_operation (disk_of self.old.target) initiator cdb.now data_out.now) ≡ true) }
        ensures unwritten { IfOk result (λ done. done.waits ≡ true → HasUnwritten self.new) }
        ensures flushed { IfOk result (λ done. flushes ≡ true → done.waits ≡ false) }
        ensures left { OnOk result (IsBeforeOr (D.seen self.old.journal.device)
            (disk_of self.new.target) (D.seen self.new.journal.device)) }
        ensures any_moment { LeavesOnly D.moment D.left_since self.old.journal.device
            self.new.journal.device (IsBeforeOr (D.seen self.old.journal.device)
            (armed_step (disk_of self.old.target) initiator cdb.now data_out.now).after) }
        ensures short { OnOk result (IsKeptShort self.new) }
        ensures later { D.failures self.old.journal.device ≤ D.failures self.new.journal.device }
        ensures cause { IsErr result
            → (D.failures self.old.journal.device < D.failures self.new.journal.device)
            ⊎ (longest_file < self.old.journal.length) }
        ensures is_dead { self.new.is_dead ≡ self.old.is_dead }
        ensures compacts { self.new.compacts ≡ self.old.compacts }
        ensures found_batches { self.new.found_batches ≡ self.old.found_batches }
    {
        if self.journal.length > LONGEST_FILE {
            return Err(DeviceError);
        }
        let (reply, owes) = execute_and_record(
            &mut self.target,
            &mut self.batch,
            initiator,
            cdb,
            data_out,
            buf,
            &mut self.scratch,
        );
        self.write_waiting(flushes && owes)?;
        let waits = self.has_to_wait(owes, flushes);
        Ok(Unflushed { reply, waits })
    }

    /// Writes what waits while the device has not failed.
    fn write_out(&mut self) -> Result<(), DeviceError>
        requires usable { IsUsable D.seen D.may_leave self.old }
        ensures usable { OnOk result (IsUsable D.seen D.may_leave self.new) }
        ensures flushed { OnOk result (opened (D.seen self.new.journal.device)
            ≡ Some (powered (disk_of self.old.target))) }
        ensures disk { disk_of self.new.target ≡ disk_of self.old.target }
        ensures short { OnOk result (IsKeptShort self.new) }
        ensures any_moment { LeavesOnly D.moment D.left_since self.old.journal.device
            self.new.journal.device
            (IsBeforeOr (D.seen self.old.journal.device) (disk_of self.old.target)) }
        ensures later { D.failures self.old.journal.device ≤ D.failures self.new.journal.device }
        ensures cause { IsErr result
            → (D.failures self.old.journal.device < D.failures self.new.journal.device)
            ⊎ (longest_file < self.old.journal.length) }
        ensures is_dead { self.new.is_dead ≡ self.old.is_dead }
        ensures compacts { self.new.compacts ≡ self.old.compacts }
        ensures found_batches { self.new.found_batches ≡ self.old.found_batches }
    {
        if self.journal.length > LONGEST_FILE {
            return Err(DeviceError);
        }
        self.write_waiting(true)
    }

    /// Writes what waits to the file. At `Ok` opening the file finds the disk, after power on.
    ///
    /// # Errors
    /// The device failed, now or earlier.
    pub fn flush(&mut self) -> Result<(), DeviceError>
        requires usable { IsAlive self.old → IsUsable D.seen D.may_leave self.old }
        ensures usable { OnOk result (IsAlive self.new × IsUsable D.seen D.may_leave self.new) }
        ensures flushed { OnOk result (opened (D.seen self.new.journal.device)
            ≡ Some (powered (disk_of self.old.target))) }
        ensures disk { disk_of self.new.target ≡ disk_of self.old.target }
        // The file is short, or it is left to the disk's owner to write it afresh.
        ensures short { IsAlive self.new → IsKeptShort self.new }
        ensures compacts { self.new.compacts ≡ self.old.compacts }
        ensures found_batches { self.new.found_batches ≡ self.old.found_batches }

        // A crash at any moment leaves what the file had, or the disk after power on.
        ensures any_moment { IsAlive self.old → LeavesOnly D.moment D.left_since
            self.old.journal.device self.new.journal.device
            (IsBeforeOr (D.seen self.old.journal.device) (disk_of self.old.target)) }
        // All events that have happened are in the file.
        ensures events { AddsEvents D.seen D.moment D.left_since self.old self.new [] true }

        // It fails only if the device does, or if the file is too long. Then it stays dead.
        ensures failed { IsErr result → IsDead self.new }
        ensures later { D.failures self.old.journal.device ≤ D.failures self.new.journal.device }
        ensures cause { IsAlive self.old → IsErr result
            → (D.failures self.old.journal.device < D.failures self.new.journal.device)
            ⊎ (longest_file < self.old.journal.length) }
        ensures stays_dead { IsDead self.old → self.new ≡ self.old }
    {
        if self.is_dead {
            return Err(DeviceError);
        }
        match self.write_out() {
            Ok(()) => Ok(()),
            Err(DeviceError) => {
                self.is_dead = true;
                Err(DeviceError)
            }
        }
    }

    /// Executes a command, or refuses it if the device fails or has failed. If `flushes` is `true`, it
    /// flushes if the command owes that. If not, that is left to the caller, as with
    /// [`KeptDisk::execute_unflushed`]. A batch that gets full is written, and no sync is made.
    pub fn execute_or_refuse(
        &mut self,
        initiator: Initiator,
        cdb: &[u8],
        data_out: &[u8],
        buf: &mut [u8],
        flushes: bool,
    ) -> Unflushed
        requires buffer { min (needed_buffer self.old.target.state initiator cdb.now data_out.now)
            longest_data_in ≤ length buf.old }
        requires usable { IsAlive self.old → IsUsable D.seen D.may_leave self.old }

        ensures executed { IsAlive self.new → IsExecuted initiator cdb.now data_out.now
            (disk_of self.old.target) (disk_of self.new.target) result.reply buf.old buf.new }
        ensures usable { IsAlive self.new → IsUsable D.seen D.may_leave self.new }
        ensures owed { IsAlive self.new → result.waits ≡ false
            → owes_flush (disk_of self.new.target) cdb.now
            (executed_operation (disk_of self.old.target) initiator cdb.now data_out.now) ≡ true
            → opened (D.seen self.new.journal.device) ≡ Some (powered (disk_of self.new.target)) }
        ensures waits { result.waits ≡ true → owes_flush (disk_of self.new.target) cdb.now
            (executed_operation (disk_of self.old.target) initiator cdb.now data_out.now) ≡ true }
        ensures unwritten { result.waits ≡ true → HasUnwritten self.new }
        ensures alive { result.waits ≡ true → IsAlive self.new }
        ensures flushed { flushes ≡ true → result.waits ≡ false }
        ensures short { IsAlive self.new → IsKeptShort self.new }
        ensures compacts { self.new.compacts ≡ self.old.compacts }
        ensures found_batches { self.new.found_batches ≡ self.old.found_batches }
        ensures any_moment { IsAlive self.old → LeavesOnly D.moment D.left_since
            self.old.journal.device self.new.journal.device
            (IsBeforeOr (D.seen self.old.journal.device)
            (armed_step (disk_of self.old.target) initiator cdb.now data_out.now).after) }
        ensures events { (call : Call) → IsSent call initiator cdb.now data_out.now
            → AddsEvents D.seen D.moment D.left_since self.old self.new (Command call ∷ [])
            (not result.waits && owes_flush (disk_of self.new.target) cdb.now
            (executed_operation (disk_of self.old.target) initiator cdb.now data_out.now)) }
        ensures failed { IsDead self.new → result.reply ≡ failure_reply self.new.target.state }
        ensures later { D.failures self.old.journal.device ≤ D.failures self.new.journal.device }
        ensures cause { IsAlive self.old → IsDead self.new
            → (D.failures self.old.journal.device < D.failures self.new.journal.device)
            ⊎ (longest_file < self.old.journal.length) }
        ensures stays_dead { IsDead self.old → self.new ≡ self.old }
    {
        if self.is_dead {
            return Unflushed::at_once(self.target.failure_reply());
        }
        match self.step(initiator, cdb, data_out, buf, flushes) {
            Ok(done) => done,
            Err(DeviceError) => {
                self.is_dead = true;
                Unflushed::at_once(self.target.failure_reply())
            }
        }
    }

    /// Executes a command, as [`Target::execute`] does. What it owes to the file is there when the reply
    /// is returned.
    ///
    /// If the device fails, the reply is CHECK CONDITION, HARDWARE ERROR, INTERNAL TARGET FAILURE, and so
    /// is that to each later command. The device is not called any more.
    pub fn execute(
        &mut self,
        initiator: Initiator,
        cdb: &[u8],
        data_out: &[u8],
        buf: &mut [u8],
    ) -> Reply
        requires buffer { min (needed_buffer self.old.target.state initiator cdb.now data_out.now)
            longest_data_in ≤ length buf.old }
        requires usable { IsAlive self.old → IsUsable D.seen D.may_leave self.old }

        // While the device has not failed, the reply and the disk after it are those of the command.
        ensures executed { IsAlive self.new → IsExecuted initiator cdb.now data_out.now
            (disk_of self.old.target) (disk_of self.new.target) result buf.old buf.new }
        ensures usable { IsAlive self.new → IsUsable D.seen D.may_leave self.new }
        // What the command owes is in the file when it is answered.
        ensures owed { IsAlive self.new → owes_flush (disk_of self.new.target) cdb.now
            (executed_operation (disk_of self.old.target) initiator cdb.now data_out.now) ≡ true
            → opened (D.seen self.new.journal.device) ≡ Some (powered (disk_of self.new.target)) }
        // The file is short, or it is left to the disk's owner to write it afresh.
        ensures short { IsAlive self.new → IsKeptShort self.new }
        ensures compacts { self.new.compacts ≡ self.old.compacts }
        ensures found_batches { self.new.found_batches ≡ self.old.found_batches }

        // A crash at any moment leaves what the file had, or the disk with this command, after power on.
        ensures any_moment { IsAlive self.old → LeavesOnly D.moment D.left_since
            self.old.journal.device self.new.journal.device
            (IsBeforeOr (D.seen self.old.journal.device)
            (armed_step (disk_of self.old.target) initiator cdb.now data_out.now).after) }
        // What a crash leaves of this command and of all events before it.
        ensures events { (call : Call) → IsSent call initiator cdb.now data_out.now
            → AddsEvents D.seen D.moment D.left_since self.old self.new (Command call ∷ [])
            (owes_flush (disk_of self.new.target) cdb.now
            (executed_operation (disk_of self.old.target) initiator cdb.now data_out.now)) }

        // It fails only if the device does, or if the file is too long. Then it stays dead.
        ensures failed { IsDead self.new → result ≡ failure_reply self.new.target.state }
        ensures later { D.failures self.old.journal.device ≤ D.failures self.new.journal.device }
        ensures cause { IsAlive self.old → IsDead self.new
            → (D.failures self.old.journal.device < D.failures self.new.journal.device)
            ⊎ (longest_file < self.old.journal.length) }
        ensures stays_dead { IsDead self.old → self.new ≡ self.old }
    {
        let Unflushed { reply, .. } = self.execute_or_refuse(initiator, cdb, data_out, buf, true);
        reply
    }

    /// The device has failed, as a caller has found out who makes its calls later. The disk is dead from
    /// now on.
    pub fn fail(&mut self)
        ensures { self.new ≡ record self.old { is_dead = true } }
    {
        self.is_dead = true;
    }
}
