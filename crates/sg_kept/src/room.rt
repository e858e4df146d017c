// Commands with a buffer of any length.
ghost use Rattle.std.specs.Prelude.{◌≡◌, ◌⊎◌, ◌≤◌, ◌<◌, [], ◌∷◌, length, true, is_some, nat_le};
ghost use Rattle.std.specs.Prelude.{IfNone, IfSome, Some};
ghost use Rattle.sg_journal.specs.Device.{LeavesOnly};
ghost use Rattle.sg_target.specs.Armed.{armed_step};
ghost use Rattle.sg_target.specs.DataInBound.{longest_data_in, needed_buffer};
ghost use Rattle.sg_target.specs.Executed.{executed_operation};
ghost use Rattle.sg_target.specs.Execution.{IsExecuted};
ghost use Rattle.sg_target.specs.Target.{disk_of};
ghost use Rattle.sg_target.specs.declared.call.Call.{Call};
ghost use Rattle.sg_target.specs.declared.event.Event.TheVariants.{Call as Command};
ghost use Rattle.sg_kept.specs.Compaction.{IsKeptShort};
ghost use Rattle.sg_kept.specs.Disk.{IsAlive, IsDead, IsUsable, failure_reply, longest_file};
ghost use Rattle.sg_kept.specs.History.{AddsEvents, IsSent};
ghost use Rattle.sg_kept.specs.Kept.{powered};
ghost use Rattle.sg_kept.specs.Opened.{IsBeforeOr, opened};
ghost use Rattle.sg_kept.specs.Owing.{owes_flush};

use crate::KeptDisk;
use sg_journal::Device;
use sg_store::Store;
use sg_target::Reply;
use sg_wire::Initiator;

impl<S: Store, D: Device> KeptDisk<S, D> {
    /// Executes a command as [`KeptDisk::execute`] does, with a buffer of any length. None if the buffer
    /// is shorter than the data-in that the command asks for. Nothing has changed then, and the device
    /// was not called.
    ///
    /// A buffer of [`BUFFER_LENGTH`](sg_target::BUFFER_LENGTH) bytes is long enough for every command,
    /// and an empty one for a command that is refused or has no data-in. A dead disk refuses a command
    /// only if the buffer is long enough for it.
    pub fn execute_within(
        &mut self,
        initiator: Initiator,
        cdb: &[u8],
        data_out: &[u8],
        buf: &mut [u8],
    ) -> Option<Reply>
        requires usable { IsAlive self.old → IsUsable D.seen D.may_leave self.old }

        // Whether the buffer is long enough.
        ensures room { is_some result
            ≡ nat_le (needed_buffer self.old.target.state initiator cdb.now data_out.now)
            (length buf.old) }
        ensures at_most { needed_buffer self.old.target.state initiator cdb.now data_out.now
            ≤ longest_data_in }

        // If it is not, nothing changes.
        ensures kept { IfNone result (self.new ≡ self.old) }
        ensures untouched { IfNone result (buf.new ≡ buf.old) }

        // If it is, all is as the contract of `execute` says. While the device has not failed, the reply
        // and the disk after it are those of the command.
        ensures executed { IfSome result (λ reply. IsAlive self.new
            → IsExecuted initiator cdb.now data_out.now
            (disk_of self.old.target) (disk_of self.new.target) reply buf.old buf.new) }
        ensures usable { IfSome result (λ _. IsAlive self.new → IsUsable D.seen D.may_leave self.new) }
        // What the command owes is in the file when it is answered.
        ensures owed { IfSome result (λ _. IsAlive self.new
            → owes_flush (disk_of self.new.target) cdb.now
            (executed_operation (disk_of self.old.target) initiator cdb.now data_out.now) ≡ true
            → opened (D.seen self.new.journal.device) ≡ Some (powered (disk_of self.new.target))) }
        // The file is short, or it is left to the disk's owner to write it afresh.
        ensures short { IfSome result (λ _. IsAlive self.new → IsKeptShort self.new) }
        ensures compacts { self.new.compacts ≡ self.old.compacts }
        ensures found_batches { self.new.found_batches ≡ self.old.found_batches }

        // A crash at any moment leaves what the file had, or the disk with this command, after power on.
        ensures any_moment { IfSome result (λ _. IsAlive self.old → LeavesOnly D.moment D.left_since
            self.old.journal.device self.new.journal.device
            (IsBeforeOr (D.seen self.old.journal.device)
            (armed_step (disk_of self.old.target) initiator cdb.now data_out.now).after)) }
        // What a crash leaves of this command and of all events before it.
        ensures events { IfSome result (λ _. (call : Call)
            → IsSent call initiator cdb.now data_out.now
            → AddsEvents D.seen D.moment D.left_since self.old self.new (Command call ∷ [])
            (owes_flush (disk_of self.new.target) cdb.now
            (executed_operation (disk_of self.old.target) initiator cdb.now data_out.now))) }

        // It fails only if the device does, or if the file is too long. Then it stays dead.
        ensures failed { IfSome result (λ reply. IsDead self.new
            → reply ≡ failure_reply self.new.target.state) }
        ensures later { D.failures self.old.journal.device ≤ D.failures self.new.journal.device }
        ensures cause { IfSome result (λ _. IsAlive self.old → IsDead self.new
            → (D.failures self.old.journal.device < D.failures self.new.journal.device)
            ⊎ (longest_file < self.old.journal.length)) }
        ensures stays_dead { IsDead self.old → self.new ≡ self.old }
    {
        if buf.len() < self.target.needed_buffer(initiator, cdb, data_out) {
            return None;
        }
        Some(self.execute(initiator, cdb, data_out, buf))
    }
}
