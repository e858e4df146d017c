// What happens to a disk in a file between two commands, and what a script runner asks of it.
ghost use Rattle.std.specs.Prelude.{◌≡◌, ◌⊎◌, ◌<◌, ◌≤◌, [], ◌∷◌, true, OnOk, IsErr, Some};
ghost use Rattle.sg_journal.specs.Device.{LeavesOnly};
ghost use Rattle.sg_target.specs.Runs.{armed_after_happening};
ghost use Rattle.sg_target.specs.State.{profile_of};
ghost use Rattle.sg_target.specs.Target.{disk_of};
ghost use Rattle.sg_target.specs.declared.event.Event.TheVariants.{Happen};
ghost use Rattle.sg_kept.specs.Compaction.{IsKeptShort};
ghost use Rattle.sg_kept.specs.Disk.{IsAlive, IsDead, IsUsable, longest_file};
ghost use Rattle.sg_kept.specs.History.{AddsEvents, HasHistory};
ghost use Rattle.sg_kept.specs.Kept.{powered, without_port};
ghost use Rattle.sg_kept.specs.Opened.{IsBeforeOr, opened};

use crate::KeptDisk;
use crate::disk::LONGEST_FILE;
use crate::recording::happen_and_record;
use sg_faults::ArmedFault;
use sg_journal::{Device, DeviceError};
use sg_store::Store;
use sg_target::Happening;
use sg_wire::{Initiator, Profile};

impl<S: Store, D: Device> KeptDisk<S, D> {
    /// Lets something happen while the device has not failed, and writes all that waits.
    fn happen_and_write(&mut self, happening: Happening) -> Result<(), DeviceError>
        requires usable { IsUsable D.seen D.may_leave self.old }
        ensures happened { OnOk result (disk_of self.new.target
            ≡ armed_after_happening (disk_of self.old.target) happening) }
        ensures usable { OnOk result (IsUsable D.seen D.may_leave self.new) }
        ensures written { OnOk result (opened (D.seen self.new.journal.device)
            ≡ Some (powered (disk_of self.new.target))) }
        ensures any_moment { LeavesOnly D.moment D.left_since self.old.journal.device
            self.new.journal.device (IsBeforeOr (D.seen self.old.journal.device)
            (armed_after_happening (disk_of self.old.target) happening)) }
        ensures short { OnOk result (IsKeptShort self.new) }
        ensures later { D.failures self.old.journal.device ≤ D.failures self.new.journal.device }
        ensures cause { IsErr result
            → (D.failures self.old.journal.device < D.failures self.new.journal.device)
            ⊎ (longest_file < self.old.journal.length) }
        ensures is_dead { self.new.is_dead ≡ self.old.is_dead }
        ensures compacts { self.new.compacts ≡ self.old.compacts }
        ensures found_batches { self.new.found_batches ≡ self.old.found_batches }
    {
        if self.journal.length > LONGEST_FILE {
            return Err(DeviceError);
        }
        happen_and_record(&mut self.target, &mut self.batch, &happening);
        self.write_waiting(true)
    }

    /// Lets something happen to the disk, between two commands. At `Ok` it is in the file, with all that
    /// was changed before it.
    ///
    /// # Errors
    /// The device failed, now or earlier. The disk executes no command any more.
    pub fn happen(&mut self, happening: Happening) -> Result<(), DeviceError>
        requires usable { IsAlive self.old → IsUsable D.seen D.may_leave self.old }
        ensures happened { OnOk result (disk_of self.new.target
            ≡ armed_after_happening (disk_of self.old.target) happening) }
        ensures usable { OnOk result (IsAlive self.new × IsUsable D.seen D.may_leave self.new) }
        // Opening the file finds the disk with this happening.
        ensures written { OnOk result (opened (D.seen self.new.journal.device)
            ≡ Some (powered (disk_of self.new.target))) }
        // The file is short, or it is left to the disk's owner to write it afresh.
        ensures short { IsAlive self.new → IsKeptShort self.new }
        ensures compacts { self.new.compacts ≡ self.old.compacts }
        ensures found_batches { self.new.found_batches ≡ self.old.found_batches }

        // A crash at any moment leaves what the file had, or the disk with this happening, after power on.
        ensures any_moment { IsAlive self.old → LeavesOnly D.moment D.left_since
            self.old.journal.device self.new.journal.device
            (IsBeforeOr (D.seen self.old.journal.device)
            (armed_after_happening (disk_of self.old.target) happening)) }
        // All events are in the file, with this one.
        ensures events { AddsEvents D.seen D.moment D.left_since self.old self.new
            (Happen happening ∷ []) true }

        // It fails only if the device does, or if the file is too long. Then it stays dead.
        ensures failed { IsErr result → IsDead self.new }
        ensures later { D.failures self.old.journal.device ≤ D.failures self.new.journal.device }
        ensures cause { IsAlive self.old → IsErr result
            → (D.failures self.old.journal.device < D.failures self.new.journal.device)
            ⊎ (longest_file < self.old.journal.length) }
        ensures stays_dead { IsDead self.old → self.new ≡ self.old }
    {
        if self.is_dead {
            return Err(DeviceError);
        }
        match self.happen_and_write(happening) {
            Ok(()) => Ok(()),
            Err(DeviceError) => {
                self.is_dead = true;
                Err(DeviceError)
            }
        }
    }

    /// Clears the unit attentions that are pending for an initiator whose port is gone, as
    /// [`Target::forget`](sg_target::Target::forget) does. The next port with its number begins without
    /// them. First it writes all that waits.
    ///
    /// # Errors
    /// The device failed, now or earlier. The disk executes no command any more.
    pub fn forget(&mut self, initiator: Initiator) -> Result<(), DeviceError>
        requires usable { IsAlive self.old → IsUsable D.seen D.may_leave self.old }
        ensures forgotten { OnOk result (disk_of self.new.target
            ≡ without_port (disk_of self.old.target) initiator) }
        ensures usable { OnOk result (IsAlive self.new × IsUsable D.seen D.may_leave self.new) }
        // Opening the file finds the disk, after power on.
        ensures written { OnOk result (opened (D.seen self.new.journal.device)
            ≡ Some (powered (disk_of self.new.target))) }
        // The file is short, or it is left to the disk's owner to write it afresh.
        ensures short { IsAlive self.new → IsKeptShort self.new }
        ensures compacts { self.new.compacts ≡ self.old.compacts }
        ensures found_batches { self.new.found_batches ≡ self.old.found_batches }

        // A crash at any moment leaves what the file had, or the disk after power on. Power on clears
        // these unit attentions, too.
        ensures any_moment { IsAlive self.old → LeavesOnly D.moment D.left_since
            self.old.journal.device self.new.journal.device
            (IsBeforeOr (D.seen self.old.journal.device) (disk_of self.old.target)) }
        // All events before it are in the file. Those after it happen to the disk without the port.
        ensures history { OnOk result (HasHistory D.seen self.new (disk_of self.new.target) [] 0) }

        // It fails only if the device does, or if the file is too long. Then it stays dead, and has
        // forgotten nothing.
        ensures failed { IsErr result → IsDead self.new }
        ensures remembered { IsErr result → disk_of self.new.target ≡ disk_of self.old.target }
        ensures later { D.failures self.old.journal.device ≤ D.failures self.new.journal.device }
        ensures cause { IsAlive self.old → IsErr result
            → (D.failures self.old.journal.device < D.failures self.new.journal.device)
            ⊎ (longest_file < self.old.journal.length) }
        ensures stays_dead { IsDead self.old → self.new ≡ self.old }
    {
        self.flush()?;
        self.target.forget(initiator);
        Ok(())
    }

    /// The profile of the disk.
    pub fn profile(&self) -> Profile
        ensures { result ≡ profile_of self.now.target.state }
    {
        self.target.profile()
    }

    /// The armed faults, by their numbers.
    pub fn faults(&self) -> &[Option<ArmedFault>]
        ensures { result.now ≡ self.now.target.faults }
    {
        self.target.faults()
    }
}
