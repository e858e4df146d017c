// Group commit: several commands, and one flush for all.
ghost use Rattle.std.specs.Prelude.{◌≡◌, ◌≤◌, false, length, min};
ghost use Rattle.sg_target.specs.DataInBound.{longest_data_in, needed_buffer};
ghost use Rattle.sg_kept.specs.Disk.{IsAlive, IsUsable};
ghost use Rattle.sg_kept.specs.GroupCommit.{ExecutesUnflushed};

use crate::KeptDisk;
use sg_journal::Device;
use sg_store::Store;
use sg_target::Reply;
use sg_wire::Initiator;

/// The reply to a command whose flush is left to the caller.
#[derive(Drop)]
pub struct Unflushed {
    /// The reply.
    pub reply: Reply,
    /// The command owes a flush, and the file lacks what it owes. The reply must not go out before
    /// [`KeptDisk::flush`] has returned `Ok`.
    pub waits: bool,
}

impl Unflushed {
    /// A reply that does not have to wait.
    pub fn at_once(reply: Reply) -> Unflushed
        ensures reply { result.reply ≡ reply }
        ensures waits { result.waits ≡ false }
    {
        Unflushed {
            reply,
            waits: false,
        }
    }
}

impl<S: Store, D: Device> KeptDisk<S, D> {
    /// Executes a command as [`KeptDisk::execute`] does, and leaves the flush that it may owe to the
    /// caller. So commands that came together share one flush: execute each, and call
    /// [`KeptDisk::flush`]. Let a reply that has to wait out only if that returns `Ok`. If the flush fails,
    /// each command that waits is to be answered as the disk answers from then on.
    pub fn execute_unflushed(
        &mut self,
        initiator: Initiator,
        cdb: &[u8],
        data_out: &[u8],
        buf: &mut [u8],
    ) -> Unflushed
        requires buffer { min (needed_buffer self.old.target.state initiator cdb.now data_out.now)
            longest_data_in ≤ length buf.old }
        requires usable { IsAlive self.old → IsUsable D.seen D.may_leave self.old }

        ensures executed { ExecutesUnflushed D.seen D.may_leave D.moment D.left_since D.failures
            initiator cdb.now data_out.now result buf.old buf.new self.old self.new }
    {
        self.execute_or_refuse(initiator, cdb, data_out, buf, false)
    }
}
