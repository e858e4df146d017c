// What executes the commands of a logical unit: a target, or a disk that is more than one.
ghost use Rattle.std.specs.Prelude.{◌≡◌, ◌≤◌, length};
ghost use Rattle.sg_target.specs.Armed.{Armed};
ghost use Rattle.sg_target.specs.DataInBound.{longest_data_in};
ghost use Rattle.sg_target.specs.Execution.{IsExecuted};
ghost use Rattle.sg_target.specs.Runs.{armed_after_happening};
ghost use Rattle.sg_target.specs.State.{profile_of};

use crate::happening::Happening;
use crate::reply::Reply;
use crate::target::Target;
use sg_faults::ArmedFault;
use sg_store::Store;
use sg_wire::{Initiator, Profile};

/// The object that processes the commands of one logical unit (SAM-5, 4.6.15).
///
/// The disk is in memory, or a file keeps it. A file can fail, and no contract says what the disk
/// answers after that.
pub trait DeviceServer {
    /// The disk.
    ghost disk: { Self → Armed };

    /// What keeps the disk has not failed.
    ghost works: { Self → Type 0 };

    /// The next call may come. This stays so after each call.
    ghost is_ready: { Self → Type 0 };

    /// The profile of the disk.
    fn profile(&self) -> Profile
        ensures { result ≡ profile_of (disk self.now).state };

    /// The armed faults, by their numbers.
    fn faults(&self) -> &[Option<ArmedFault>]
        ensures { result.now ≡ (disk self.now).faults };

    /// Executes a command, as [`Target::execute`] does.
    fn execute(
        &mut self,
        initiator: Initiator,
        cdb: &[u8],
        data_out: &[u8],
        buf: &mut [u8],
    ) -> Reply
        requires buffer { longest_data_in ≤ length buf.old }
        requires ready { is_ready self.old }
        ensures executed { works self.new → IsExecuted initiator cdb.now data_out.now
            (disk self.old) (disk self.new) result buf.old buf.new }
        ensures data_in { result.data_in ≤ length buf.new }
        ensures worked { works self.new → works self.old }
        ensures ready { is_ready self.new };

    /// Lets something happen to the disk, between two commands.
    fn happen(&mut self, happening: Happening)
        requires ready { is_ready self.old }
        ensures happened { works self.new
            → disk self.new ≡ armed_after_happening (disk self.old) happening }
        ensures worked { works self.new → works self.old }
        ensures ready { is_ready self.new };
}

/// A disk in memory works always, and is ready always.
impl<S: Store> DeviceServer for Target<S> {
    ghost use Rattle.sg_target.specs.Target.{disk_of};

    ghost disk = { λ t. disk_of t };

    ghost works = { λ t. Unit {0} };

    ghost is_ready = { λ t. Unit {0} };

    fn profile(&self) -> Profile {
        self.profile()
    }

    fn faults(&self) -> &[Option<ArmedFault>] {
        self.faults()
    }

    fn execute(
        &mut self,
        initiator: Initiator,
        cdb: &[u8],
        data_out: &[u8],
        buf: &mut [u8],
    ) -> Reply {
        self.execute(initiator, cdb, data_out, buf)
    }

    fn happen(&mut self, happening: Happening) {
        self.happen(happening);
    }
}
