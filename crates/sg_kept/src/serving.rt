// A disk in a file executes the commands of a logical unit.
ghost use Rattle.sg_kept.specs.Disk.{IsAlive, IsUsable};
ghost use Rattle.sg_target.specs.Target.{disk_of};

use crate::KeptDisk;
use sg_faults::ArmedFault;
use sg_journal::Device;
use sg_store::Store;
use sg_target::{DeviceServer, Happening, Reply};
use sg_wire::{Initiator, Profile};

/// It works while its device has not failed. It is always ready: a dead disk refuses each command.
impl<S: Store, D: Device> DeviceServer for KeptDisk<S, D> {
    ghost disk = { λ kept. disk_of kept.target };

    ghost works = { λ kept. IsAlive kept };

    ghost is_ready = { λ kept. IsAlive kept → IsUsable D.seen D.may_leave kept };

    fn profile(&self) -> Profile {
        self.target.profile()
    }

    fn faults(&self) -> &[Option<ArmedFault>] {
        self.target.faults()
    }

    fn execute(
        &mut self,
        initiator: Initiator,
        cdb: &[u8],
        data_out: &[u8],
        buf: &mut [u8],
    ) -> Reply {
        self.execute(initiator, cdb, data_out, buf)
    }

    fn happen(&mut self, happening: Happening) {
        // A disk whose device has failed stays dead.
        let _ = self.happen(happening);
    }
}
