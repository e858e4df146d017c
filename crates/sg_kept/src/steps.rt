// A disk's file that its owner writes afresh, step by step. Each step makes a few calls on the file.
ghost use Rattle.std.specs.Prelude.{◌≡◌, ◌≤◌, ◌<◌, ◌+◌, ℕ, [], OnOk, IfOk, IfNone, IfSome, IsErr};
ghost use Rattle.std.specs.FinMap.{len};
ghost use Rattle.sg_journal.specs.Device.{HasCause, LeavesOnly};
ghost use Rattle.sg_target.specs.Target.{disk_of};
ghost use Rattle.sg_kept.specs.Compaction.{HasWrittenAll, IsCompacting, longest_snapshot};
ghost use Rattle.sg_kept.specs.Disk.{IsAlive, IsDead, IsUsable};
ghost use Rattle.sg_kept.specs.Opened.{opened};

use crate::KeptDisk;
use crate::compaction::{begin_snapshot, write_part};
use sg_changes::laws::kept_stays_sound;
use sg_journal::{Device, DeviceError};
use sg_store::Store;

impl<S: Store, D: Device> KeptDisk<S, D> {
    /// Begins to write the file afresh. No record may wait: [`flush`](KeptDisk::flush) writes all. Until the
    /// compaction has ended or is abandoned, no other call may change the disk.
    ///
    /// [`continue_compaction`](KeptDisk::continue_compaction) goes on from address 0.
    ///
    /// # Errors
    /// The device failed. The disk is dead from now on.
    pub fn begin_compaction(&mut self) -> Result<(), DeviceError>
        requires usable { IsAlive self.old × IsUsable D.seen D.may_leave self.old }
        requires written { HasWrittenAll self.old }
        ensures begun { OnOk result (IsCompacting D.seen D.may_leave D.draft self.new 0) }

        // The disk does not change, nor does what opening the file finds, at any moment of a crash.
        ensures disk { self.new.target ≡ self.old.target }
        ensures in_file { OnOk result (opened (D.seen self.new.journal.device)
            ≡ opened (D.seen self.old.journal.device)) }
        ensures any_moment { LeavesOnly D.moment D.left_since self.old.journal.device
            self.new.journal.device (λ c. opened c ≡ opened (D.seen self.old.journal.device)) }

        // It fails only if the device does. Then the disk stays dead.
        ensures failed { IsErr result → IsDead self.new }
        ensures cause { HasCause (D.failures self.old.journal.device)
            (D.failures self.new.journal.device) result }
        ensures compacts { self.new.compacts ≡ self.old.compacts }
        ensures found_batches { self.new.found_batches ≡ self.old.found_batches }
    {
        kept_stays_sound();
        match begin_snapshot(&self.target, &mut self.journal, &mut self.batch) {
            Ok(()) => Ok(()),
            Err(DeviceError) => {
                self.is_dead = true;
                Err(DeviceError)
            }
        }
    }

    /// Goes on with a compaction from an address: writes at most one batch to the draft. After the last part
    /// it puts the draft in the place of the file. Returns the address to go on from, or None if the
    /// compaction has ended.
    ///
    /// # Errors
    /// The device failed. The disk is dead from now on.
    pub fn continue_compaction(&mut self, from: u64) -> Result<Option<u64>, DeviceError>
        requires compacting { IsCompacting D.seen D.may_leave D.draft self.old from }

        // Either it goes on from a later address, or the file is short and the disk is ready for each call.
        ensures goes_on { IfOk result (λ end. IfSome end (λ next. from < next)) }
        ensures compacting { IfOk result (λ end. IfSome end
            (IsCompacting D.seen D.may_leave D.draft self.new)) }
        ensures usable { IfOk result (λ end. IfNone end
            (IsAlive self.new × IsUsable D.seen D.may_leave self.new)) }
        ensures short { IfOk result (λ end. IfNone end (self.new.journal.length
            ≤ longest_snapshot (len self.new.target.state.disk.contents) + 65536)) }

        // The disk does not change, nor does what opening the file finds, at any moment of a crash.
        ensures disk { disk_of self.new.target ≡ disk_of self.old.target }
        ensures in_file { OnOk result (opened (D.seen self.new.journal.device)
            ≡ opened (D.seen self.old.journal.device)) }
        ensures any_moment { LeavesOnly D.moment D.left_since self.old.journal.device
            self.new.journal.device (λ c. opened c ≡ opened (D.seen self.old.journal.device)) }

        // It fails only if the device does. Then the disk stays dead.
        ensures failed { IsErr result → IsDead self.new }
        ensures cause { HasCause (D.failures self.old.journal.device)
            (D.failures self.new.journal.device) result }
        ensures compacts { self.new.compacts ≡ self.old.compacts }
        ensures found_batches { self.new.found_batches ≡ self.old.found_batches }
    {
        kept_stays_sound();
        match write_part(
            &mut self.target,
            &mut self.journal,
            &mut self.batch,
            from,
            &mut self.scratch,
        ) {
            Ok(next) => Ok(next),
            Err(DeviceError) => {
                self.is_dead = true;
                Err(DeviceError)
            }
        }
    }

    /// Gives up a compaction that is under way. The file has not changed. The draft is of no use, and a later
    /// compaction begins another one.
    pub fn abandon_compaction(&mut self)
        requires compacting { (next : ℕ) × IsCompacting D.seen D.may_leave D.draft self.old next }
        ensures usable { IsUsable D.seen D.may_leave self.new }
        // Only the records of the draft are dropped.
        ensures dropped { self.new ≡ record self.old {
          batch = record self.old.batch { records = [] };
        } }
    {
        self.batch.clear();
    }
}
