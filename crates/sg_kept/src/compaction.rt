// A disk's file that is written afresh, so that it stays short: a snapshot of the disk takes its place.
ghost use Rattle.std.specs.Prelude.{◌≡◌, ◌⊎◌, ◌≤◌, ◌<◌, ◌+◌, ◌*◌, ◌^◌, [], length, true, false};
ghost use Rattle.std.specs.Prelude.{IfOk, OnOk, IsErr, Some};
ghost use Rattle.std.specs.FinMap.{len};
ghost use Rattle.sg_changes.specs.FirstRecord.{is_new_disk};
ghost use Rattle.sg_changes.specs.KeptFields.{KeptFields};
ghost use Rattle.sg_changes.specs.Laws.{IsSoundDisk};
ghost use Rattle.sg_changes.specs.Snapshot.{disk_below, kept_below, pool_blocks, run_changes};
ghost use Rattle.sg_journal.specs.Device.{HasCause, LeavesOnly};
ghost use Rattle.sg_journal.specs.Journal.{found};
ghost use Rattle.sg_journal.specs.JournalState.{has_waiting};
ghost use Rattle.sg_journal.specs.declared.layout.TheConstants.{MAX_BATCH};
ghost use Rattle.sg_target.specs.State.{IsWithinLimits};
ghost use Rattle.sg_target.specs.Target.{disk_of};
ghost use Rattle.sg_wire.specs.Profile.{maximum_transfer_length};
ghost use Rattle.sg_wire.specs.declared.lba_status.ProvisioningStatus.TheVariants.{Mapped};
ghost use Rattle.sg_kept.specs.Compaction.{IsDraftOf, IsDrafted, IsNextPart, LeadsOn, StandsFor};
ghost use Rattle.sg_kept.specs.Compaction.{draft_weight, heaviest, is_long, longest_of};
ghost use Rattle.sg_kept.specs.Compaction.{IsKeptShort, longest_snapshot, longest_uncompacted};
ghost use Rattle.sg_kept.specs.Disk.{IsAlive, IsDead, IsKept, IsUsable};
ghost use Rattle.sg_kept.specs.Kept.{kept, powered, restored};
ghost use Rattle.sg_kept.specs.Opened.{IsBeforeOr, begun, opened};
ghost use Rattle.sg_kept.specs.Opening.{new_disk_of};
ghost use Rattle.sg_kept.specs.Recording.{Adds, longest_operation, longest_write};

use crate::disk::{commit_waiting, write_batch_if};
use crate::laws::power_cycles_leave_what_is_kept;
use crate::opening::add_first;
use crate::{BatchSink, KeptDisk};
use sg_changes::laws::{
    first_records_are_exact, kept_stays_sound, records_are_replayed, runs_make_the_disk,
};
use sg_changes::{Change, NewDisk};
use sg_journal::{Device, DeviceError, Journal};
use sg_store::lba_status::{ProvisioningStatus, StatusDescriptor};
use sg_store::{BLOCK_LENGTH, Store};
use sg_target::Target;
use sg_wire::{Extent, MAXIMUM_TRANSFER_LENGTH};

/// The room that the record of a run needs at most, in bytes.
const LONGEST_RUN: usize = 1_048_589;

/// The first addresses of a run that one record has.
fn first_of(run: StatusDescriptor) -> Extent
    requires { 0 < run.count }
    ensures lba { result.lba ≡ run.lba }
    ensures some { 0 < result.count }
    ensures at_most { result.count ≤ run.count }
    ensures readable { run.status ≡ Mapped → result.count ≤ maximum_transfer_length }
{
    let count = match run.status {
        ProvisioningStatus::Mapped => run.count.min(MAXIMUM_TRANSFER_LENGTH),
        ProvisioningStatus::Anchored | ProvisioningStatus::Deallocated => run.count,
    };
    let lba = run.lba;
    Extent { lba, count }
}

/// Adds the record of addresses that have one provisioning status.
fn add_run<S: Store>(
    batch: &mut BatchSink,
    target: &mut Target<S>,
    extent: Extent,
    status: ProvisioningStatus,
    scratch: &mut [u8],
)
    requires room { length batch.old.records + longest_operation ≤ MAX_BATCH }
    requires on_disk { extent.lba + extent.count ≤ target.old.state.disk.capacity }
    requires some { 0 < extent.count }
    requires readable { status ≡ Mapped → extent.count ≤ maximum_transfer_length }
    requires scratch { length scratch.old ≡ longest_write }
    ensures records { Adds batch.old batch.new
        (run_changes target.old.state.disk.contents extent status) }
    ensures at_most { length batch.new.records
        ≤ length batch.old.records + 525 * pool_blocks status extent.count }
    ensures state { target.new.state ≡ target.old.state }
    ensures faults { target.new.faults ≡ target.old.faults }
    ensures scratch { length scratch.new ≡ length scratch.old }
{
    match status {
        ProvisioningStatus::Mapped => {
            let blocks = &mut scratch[..BLOCK_LENGTH * extent.count as usize];
            target.read_blocks(extent, blocks);
            batch.add(&Change::Write { extent, blocks });
        }
        ProvisioningStatus::Anchored => batch.add(&Change::Anchor { extent }),
        ProvisioningStatus::Deallocated => {}
    }
}

/// Adds the record of the addresses from one on that have one provisioning status, as many as one
/// record has. Returns the address after them.
fn add_run_at<S: Store>(
    batch: &mut BatchSink,
    target: &mut Target<S>,
    lba: u64,
    scratch: &mut [u8],
) -> u64
    requires room { length batch.old.records + longest_operation ≤ MAX_BATCH }
    requires on_disk { lba < target.old.state.disk.capacity }
    requires sound { IsSoundDisk target.old.state.disk }
    requires scratch { length scratch.old ≡ longest_write }
    ensures more { lba < result }
    ensures within { result ≤ target.old.state.disk.capacity }
    ensures records { LeadsOn batch.old batch.new (kept_below (kept (disk_of target.old)) lba)
        (kept_below (kept (disk_of target.old)) result) }
    ensures at_most { length batch.new.records
        + 525 * len (disk_below target.old.state.disk lba).contents
        ≤ length batch.old.records + 525 * len (disk_below target.old.state.disk result).contents }
    ensures state { target.new.state ≡ target.old.state }
    ensures faults { target.new.faults ≡ target.old.faults }
    ensures scratch { length scratch.new ≡ length scratch.old }
{
    records_are_replayed();
    runs_make_the_disk();
    let run = target.run_at(lba);
    let extent = first_of(run);
    add_run(batch, target, extent, run.status, scratch);
    lba + u64::from(extent.count)
}

/// Writes a batch to the draft. The batch is empty after it.
fn draft_batch<D: Device>(
    journal: &mut Journal<D>,
    batch: &mut BatchSink,
) -> Result<(), DeviceError>
    requires drafted { (left : KeptFields) × IsDrafted D.seen D.may_leave D.draft
        journal.old batch.old left }
    requires short { journal.old.drafted ≤ 2 ^ 62 }
    ensures drafted { OnOk result ((left : KeptFields)
        → IsDrafted D.seen D.may_leave D.draft journal.old batch.old left
        → IsDrafted D.seen D.may_leave D.draft journal.new batch.new left) }
    ensures same { OnOk result
        (found (D.seen journal.new.device) ≡ found (D.seen journal.old.device)) }
    ensures at_most { OnOk result (draft_weight journal.new batch.new
        ≤ 23 * journal.old.drafted + 23 * length batch.old.records + 3015024) }
    ensures empty { OnOk result (batch.new.records ≡ []) }
    ensures waiting { has_waiting journal.new ≡ has_waiting journal.old }
    ensures any_moment { LeavesOnly D.moment D.left_since journal.old.device journal.new.device
        (λ c. found c ≡ found (D.seen journal.old.device)) }
    ensures cause { HasCause (D.failures journal.old.device) (D.failures journal.new.device) result }
{
    journal.rewrite(&mut batch.batch)?;
    batch.batch.clear();
    Ok(())
}

/// Adds the records of the runs from an address on, while the batch has room. Returns the address after
/// them.
fn fill_batch<S: Store>(
    batch: &mut BatchSink,
    target: &mut Target<S>,
    lba: u64,
    scratch: &mut [u8],
) -> u64
    requires room { length batch.old.records + longest_operation ≤ MAX_BATCH }
    requires on_disk { lba ≤ target.old.state.disk.capacity }
    requires sound { IsSoundDisk target.old.state.disk }
    requires scratch { length scratch.old ≡ longest_write }
    ensures no_less { lba ≤ result }
    ensures more { lba < target.old.state.disk.capacity → lba < result }
    ensures within { result ≤ target.old.state.disk.capacity }
    // It ends before the last run only if the batch is full.
    ensures full { result < target.old.state.disk.capacity
        → MAX_BATCH < length batch.new.records + longest_operation }
    ensures records { LeadsOn batch.old batch.new (kept_below (kept (disk_of target.old)) lba)
        (kept_below (kept (disk_of target.old)) result) }
    ensures at_most { length batch.new.records
        + 525 * len (disk_below target.old.state.disk lba).contents
        ≤ length batch.old.records + 525 * len (disk_below target.old.state.disk result).contents }
    ensures state { target.new.state ≡ target.old.state }
    ensures faults { target.new.faults ≡ target.old.faults }
    ensures scratch { length scratch.new ≡ length scratch.old }
{
    records_are_replayed();
    let capacity = target.config().blocks();
    let mut next = lba;
    while next < capacity && batch.batch.room() >= LONGEST_RUN {
        next = add_run_at(batch, target, next, scratch);
    }
    next
}

/// The new disk of a target's size, pool and identity.
fn new_disk<S: Store>(target: &Target<S>) -> NewDisk
    requires new { is_new_disk (new_disk_of (kept (disk_of target.now))) ≡ true }
    ensures { result ≡ new_disk_of (kept (disk_of target.now)) }
{
    let config = target.config();
    NewDisk::new(config.blocks(), config.pool(), *config.identity()).unwrap()
}

/// Adds the first records of a snapshot to an empty batch: all that is kept of a disk but its blocks.
fn add_head<S: Store>(batch: &mut BatchSink, target: &Target<S>)
    requires empty { batch.old.records ≡ [] }
    requires new { is_new_disk (new_disk_of (kept (disk_of target.now))) ≡ true }
    requires sound { IsSoundDisk target.now.state.disk }
    requires limits { IsWithinLimits target.now.state }
    ensures begun { begun batch.new.records ≡ Some (kept_below (kept (disk_of target.now)) 0) }
    ensures at_most { length batch.new.records ≤ 4008 }
    ensures sector { batch.new.sector ≡ batch.old.sector }
{
    first_records_are_exact();
    records_are_replayed();
    runs_make_the_disk();
    let disk = new_disk(target);
    add_first(batch, &disk);
    batch.add(&Change::Pages(target.saved_pages()));
    batch.add(&Change::Reservations(target.reservations()));
    batch.add(&Change::Faults(target.fault_table()));
}

/// Begins to write a file afresh. The first records of the snapshot wait in the batch, and what waited
/// there is dropped.
pub(crate) fn begin_snapshot<S: Store, D: Device>(
    target: &Target<S>,
    journal: &mut Journal<D>,
    head: &mut BatchSink,
) -> Result<(), DeviceError>
    requires kept { IsKept D.seen D.may_leave journal.old head.old (disk_of target.now) }
    requires new { is_new_disk (new_disk_of (kept (disk_of target.now))) ≡ true }
    requires sound { IsSoundDisk target.now.state.disk }
    ensures drafted { OnOk result (IsDrafted D.seen D.may_leave D.draft journal.new head.new
        (kept_below (kept (disk_of target.now)) 0)) }
    ensures same { OnOk result
        (found (D.seen journal.new.device) ≡ found (D.seen journal.old.device)) }
    ensures at_most { OnOk result (draft_weight journal.new head.new ≤ heaviest 0) }
    ensures waiting { has_waiting journal.new ≡ has_waiting journal.old }
    ensures any_moment { LeavesOnly D.moment D.left_since journal.old.device journal.new.device
        (λ c. found c ≡ found (D.seen journal.old.device)) }
    ensures cause { HasCause (D.failures journal.old.device) (D.failures journal.new.device) result }
{
    head.batch.clear();
    add_head(head, target);
    journal.begin_rewrite(&mut head.batch)
}

/// Writes the last batch to the draft, and puts the draft in the place of the file. The batch is empty
/// after it.
fn exchange<D: Device>(journal: &mut Journal<D>, last: &mut BatchSink) -> Result<(), DeviceError>
    requires drafted { (left : KeptFields) × IsDrafted D.seen D.may_leave D.draft
        journal.old last.old left }
    requires short { journal.old.drafted ≤ 2 ^ 62 }
    ensures stands { OnOk result ((left : KeptFields)
        → IsDrafted D.seen D.may_leave D.draft journal.old last.old left
        → StandsFor D.seen D.may_leave journal.new left) }
    ensures end { OnOk result (23 * journal.new.end
        ≤ 23 * journal.old.drafted + 23 * length last.old.records + 3015024) }
    ensures length { OnOk result (journal.new.length ≤ journal.new.end + 65536) }
    ensures empty { OnOk result (last.new.records ≡ []) }
    ensures sector { OnOk result (last.new.sector ≡ journal.new.sector) }
    ensures any_moment { (left : KeptFields)
        → IsDrafted D.seen D.may_leave D.draft journal.old last.old left
        → LeavesOnly D.moment D.left_since journal.old.device journal.new.device
        (λ c. (found c ≡ found (D.seen journal.old.device)) ⊎ (opened c ≡ Some (restored left))) }
    ensures cause { HasCause (D.failures journal.old.device) (D.failures journal.new.device) result }
{
    journal.rewrite(&mut last.batch)?;
    journal.finish_rewrite(&mut last.batch)?;
    last.batch.clear();
    Ok(())
}

/// Writes the next part of a snapshot to the draft: one batch with the runs from an address on. After the
/// last run it puts the draft in the place of the file. Returns the address to go on from, or None if the
/// file was written afresh.
pub(crate) fn write_part<S: Store, D: Device>(
    target: &mut Target<S>,
    journal: &mut Journal<D>,
    batch: &mut BatchSink,
    from: u64,
    scratch: &mut [u8],
) -> Result<Option<u64>, DeviceError>
    requires draft { IsDraftOf D.seen D.may_leave D.draft journal.old batch.old
        (disk_of target.old) from }
    requires sound { IsSoundDisk target.old.state.disk }
    requires scratch { length scratch.old ≡ longest_write }
    ensures part { IfOk result (IsNextPart D.seen D.may_leave D.draft journal.old journal.new batch.new
        (disk_of target.old) from) }
    ensures any_moment { LeavesOnly D.moment D.left_since journal.old.device journal.new.device
        (λ c. (found c ≡ found (D.seen journal.old.device))
        ⊎ (opened c ≡ Some (restored (kept (disk_of target.old))))) }
    ensures cause { HasCause (D.failures journal.old.device) (D.failures journal.new.device) result }
    ensures state { target.new.state ≡ target.old.state }
    ensures faults { target.new.faults ≡ target.old.faults }
    ensures scratch { length scratch.new ≡ length scratch.old }
{
    first_records_are_exact();
    records_are_replayed();
    runs_make_the_disk();
    // Its contract bounds the number of used blocks, and so the draft's length.
    let _ = target.used_blocks();
    let next = fill_batch(batch, target, from, scratch);
    if next < target.config().blocks() {
        draft_batch(journal, batch)?;
        return Ok(Some(next));
    }
    exchange(journal, batch)?;
    Ok(None)
}

/// Writes a file afresh. It is a snapshot of the disk then, and no record waits.
fn write_snapshot<S: Store, D: Device>(
    target: &mut Target<S>,
    journal: &mut Journal<D>,
    batch: &mut BatchSink,
    scratch: &mut [u8],
) -> Result<(), DeviceError>
    requires kept { IsKept D.seen D.may_leave journal.old batch.old (disk_of target.old) }
    requires scratch { length scratch.old ≡ longest_write }
    ensures kept { OnOk result (IsKept D.seen D.may_leave journal.new batch.new
        (disk_of target.old)) }
    ensures compacted { OnOk result (opened (D.seen journal.new.device)
        ≡ Some (powered (disk_of target.old))) }
    ensures empty { OnOk result (batch.new.records ≡ []) }
    ensures short { OnOk result (journal.new.end
        ≤ longest_snapshot (len target.old.state.disk.contents)) }
    ensures length { OnOk result (journal.new.length ≤ journal.new.end + 65536) }
    ensures any_moment { LeavesOnly D.moment D.left_since journal.old.device journal.new.device
        (IsBeforeOr (D.seen journal.old.device) (disk_of target.old)) }
    ensures cause { HasCause (D.failures journal.old.device) (D.failures journal.new.device) result }
    ensures state { target.new.state ≡ target.old.state }
    ensures faults { target.new.faults ≡ target.old.faults }
    ensures scratch { length scratch.new ≡ length scratch.old }
{
    kept_stays_sound();
    power_cycles_leave_what_is_kept();
    begin_snapshot(target, journal, batch)?;
    let mut from = 0;
    while let Some(next) = write_part(target, journal, batch, from, scratch)? {
        from = next;
    }
    Ok(())
}

/// The length of the longest file that is not written afresh, in bytes, by the number of addresses that
/// have a block of the pool.
fn longest_uncompacted(used: u32) -> u64
    ensures { result ≡ longest_uncompacted used }
{
    2 * (548 * u64::from(used) + (1 << 18)) + (1 << 24)
}

impl<S: Store, D: Device> KeptDisk<S, D> {
    /// Returns `true` if the file is long: longer than two of the longest snapshots of such a disk, and 16
    /// MiB.
    pub fn is_long(&self) -> bool
        ensures { result ≡ is_long self.now }
    {
        self.journal.length > longest_uncompacted(self.target.used_blocks())
    }

    /// Writes the file afresh while the device has not failed.
    fn write_afresh(&mut self) -> Result<(), DeviceError>
        requires usable { IsUsable D.seen D.may_leave self.old }
        ensures usable { OnOk result (IsUsable D.seen D.may_leave self.new) }
        ensures compacted { OnOk result (opened (D.seen self.new.journal.device)
            ≡ Some (powered (disk_of self.old.target))) }
        ensures short { OnOk result (self.new.journal.end
            ≤ longest_snapshot (len self.old.target.state.disk.contents)) }
        ensures length { OnOk result (self.new.journal.length ≤ self.new.journal.end + 65536) }
        ensures disk { disk_of self.new.target ≡ disk_of self.old.target }
        ensures any_moment { LeavesOnly D.moment D.left_since self.old.journal.device
            self.new.journal.device
            (IsBeforeOr (D.seen self.old.journal.device) (disk_of self.old.target)) }
        ensures cause { HasCause (D.failures self.old.journal.device)
            (D.failures self.new.journal.device) result }
        ensures is_dead { self.new.is_dead ≡ self.old.is_dead }
        ensures compacts { self.new.compacts ≡ self.old.compacts }
        ensures found_batches { self.new.found_batches ≡ self.old.found_batches }
    {
        write_snapshot(
            &mut self.target,
            &mut self.journal,
            &mut self.batch,
            &mut self.scratch,
        )
    }

    /// Writes the file afresh: a snapshot of the disk takes its place. The snapshot has about as many bytes
    /// as the disk's blocks, and has the records that wait. At `Ok` opening the file finds the disk, after
    /// power on.
    ///
    /// No memory is taken. The time depends on the runs of mapped and anchored blocks, and not on the
    /// capacity.
    ///
    /// # Errors
    /// The device failed, now or earlier.
    pub fn compact(&mut self) -> Result<(), DeviceError>
        requires usable { IsAlive self.old → IsUsable D.seen D.may_leave self.old }
        ensures usable { OnOk result (IsAlive self.new × IsUsable D.seen D.may_leave self.new) }
        ensures compacted { OnOk result (opened (D.seen self.new.journal.device)
            ≡ Some (powered (disk_of self.old.target))) }
        ensures short { OnOk result (self.new.journal.end
            ≤ longest_snapshot (len self.old.target.state.disk.contents)) }
        ensures disk { disk_of self.new.target ≡ disk_of self.old.target }

        // A crash at any moment leaves what the file had, or the disk after power on.
        ensures any_moment { IsAlive self.old → LeavesOnly D.moment D.left_since
            self.old.journal.device self.new.journal.device
            (IsBeforeOr (D.seen self.old.journal.device) (disk_of self.old.target)) }

        // It fails only if the device does. Then it stays dead.
        ensures failed { IsErr result → IsDead self.new }
        ensures cause { IsAlive self.old → IsErr result
            → D.failures self.old.journal.device < D.failures self.new.journal.device }
        ensures compacts { self.new.compacts ≡ self.old.compacts }
        ensures found_batches { self.new.found_batches ≡ self.old.found_batches }
        ensures stays_dead { IsDead self.old → self.new ≡ self.old }
    {
        if self.is_dead {
            return Err(DeviceError);
        }
        match self.write_afresh() {
            Ok(()) => Ok(()),
            Err(DeviceError) => {
                self.is_dead = true;
                Err(DeviceError)
            }
        }
    }

    /// Writes the file afresh if it is long. If that is left to the disk's owner, it commits all that waits
    /// in a long file.
    ///
    /// Each time the file gets shorter by more bytes than are written. So in all it writes at most about
    /// the bytes of the flushes.
    fn keep_short(&mut self) -> Result<(), DeviceError>
        requires usable { IsUsable D.seen D.may_leave self.old }
        requires written { self.old.compacts ≡ false → is_long self.old ≡ true → self.old.batch.records ≡ [] }
        ensures usable { OnOk result (IsUsable D.seen D.may_leave self.new) }
        // The file stands for what it did before, or for the disk after power on.
        ensures left { OnOk result (IsBeforeOr (D.seen self.old.journal.device)
            (disk_of self.old.target) (D.seen self.new.journal.device)) }
        ensures short { OnOk result (IsKeptShort self.new) }
        // A short file is left as it is.
        ensures spared { is_long self.old ≡ false → self.new ≡ self.old }
        ensures disk { disk_of self.new.target ≡ disk_of self.old.target }
        ensures any_moment { LeavesOnly D.moment D.left_since self.old.journal.device
            self.new.journal.device
            (IsBeforeOr (D.seen self.old.journal.device) (disk_of self.old.target)) }
        ensures cause { HasCause (D.failures self.old.journal.device)
            (D.failures self.new.journal.device) result }
        ensures is_dead { self.new.is_dead ≡ self.old.is_dead }
        ensures compacts { self.new.compacts ≡ self.old.compacts }
        ensures found_batches { self.new.found_batches ≡ self.old.found_batches }
    {
        if !self.is_long() {
            return Ok(());
        }
        if !self.compacts {
            // Its owner writes it afresh. Nothing may wait then.
            return commit_waiting(&mut self.journal, &mut self.batch);
        }
        self.write_afresh()
    }

    /// Whether all that waits has to be written: if that is needed, or before the disk's owner writes the
    /// file afresh.
    fn has_to_write(&self, is_needed: bool) -> bool
        ensures needed { is_needed ≡ true → result ≡ true }
        ensures owner { self.now.compacts ≡ true → result ≡ is_needed }
        ensures long { self.now.compacts ≡ false → is_long self.now ≡ true → result ≡ true }
        ensures only { result ≡ true → is_needed ≡ false → is_long self.now ≡ true }
    {
        is_needed || !self.compacts && self.is_long()
    }

    /// Writes the records that wait to the file if that is needed, or if the batch has too little room for
    /// another command. Then it writes the file afresh if it is long. If that is left to the disk's owner, it
    /// writes all that waits to a long file.
    pub(crate) fn write_waiting(&mut self, is_needed: bool) -> Result<(), DeviceError>
        requires kept { IsKept D.seen D.may_leave self.old.journal self.old.batch
            (disk_of self.old.target) }
        requires length { self.old.journal.length ≤ 2 ^ 62 }
        requires scratch { length self.old.scratch.items ≡ longest_write }
        ensures usable { OnOk result (IsUsable D.seen D.may_leave self.new) }
        ensures flushed { OnOk result (is_needed ≡ true → opened (D.seen self.new.journal.device)
            ≡ Some (powered (disk_of self.old.target))) }
        ensures left { OnOk result (IsBeforeOr (D.seen self.old.journal.device)
            (disk_of self.old.target) (D.seen self.new.journal.device)) }
        ensures short { OnOk result (IsKeptShort self.new) }
        ensures disk { disk_of self.new.target ≡ disk_of self.old.target }
        ensures any_moment { LeavesOnly D.moment D.left_since self.old.journal.device
            self.new.journal.device
            (IsBeforeOr (D.seen self.old.journal.device) (disk_of self.old.target)) }
        ensures cause { HasCause (D.failures self.old.journal.device)
            (D.failures self.new.journal.device) result }
        ensures is_dead { self.new.is_dead ≡ self.old.is_dead }
        ensures compacts { self.new.compacts ≡ self.old.compacts }
        ensures found_batches { self.new.found_batches ≡ self.old.found_batches }
    {
        let is_needed = self.has_to_write(is_needed);
        write_batch_if(&mut self.journal, &mut self.batch, is_needed)?;
        self.keep_short()
    }
}
