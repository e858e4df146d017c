// Runs of addresses that have one provisioning status. Those who keep a disk in a file ask for them. No
// command does this.
ghost use Rattle.std.specs.Prelude.{◌≡◌, ℕ, ◌<◌, ◌^◌, ◌++◌};
ghost use Rattle.std.specs.FinMap.{len};
ghost use Rattle.sg_store.specs.LbaStatus.{descriptor_at};
ghost use Rattle.sg_wire.specs.LbaStatus.{descriptor_bytes, status_header};
ghost use Rattle.sg_wire.specs.declared.lba_status.StatusDescriptor.{StatusDescriptor};

use crate::target::Target;
use sg_store::Store;
use sg_store::lba_status::{ProvisioningStatus, StatusDescriptor};
use sg_wire::laws::answers_are_in_their_buffers;
use sg_wire::{Cut, STATUS_DESCRIPTOR_LENGTH, STATUS_HEADER_LENGTH};

/// The length of GET LBA STATUS parameter data with one descriptor, in bytes.
const ONE_RUN: usize = STATUS_HEADER_LENGTH + STATUS_DESCRIPTOR_LENGTH;

/// Reads the descriptor in GET LBA STATUS parameter data that has room for one (SBC-3, 5.4.2). Its
/// first address is known.
fn run_of(lba: u64, bytes: &[u8; ONE_RUN]) -> StatusDescriptor
    ensures { (run : StatusDescriptor) (count : ℕ)
        → bytes.now ≡ status_header count ++ descriptor_bytes run → run.lba ≡ lba
        → run.count < 2 ^ 32 → result ≡ run }
{
    let count = u32::from_be_bytes([bytes[16], bytes[17], bytes[18], bytes[19]]);
    let status = match bytes[20] {
        0 => ProvisioningStatus::Mapped,
        1 => ProvisioningStatus::Deallocated,
        _ => ProvisioningStatus::Anchored,
    };
    StatusDescriptor { lba, count, status }
}

impl<S: Store> Target<S> {
    /// The run of addresses from one on that have one provisioning status. It is the first descriptor
    /// that GET LBA STATUS returns (SBC-3, 5.4.2).
    pub fn run_at(&mut self, lba: u64) -> StatusDescriptor
        requires on_disk { lba < self.old.state.disk.capacity }
        ensures run { result
            ≡ descriptor_at self.old.state.disk.contents self.old.state.disk.capacity lba }
        ensures state { self.new.state ≡ self.old.state }
        ensures faults { self.new.faults ≡ self.old.faults }
    {
        let mut bytes = [0; ONE_RUN];
        answers_are_in_their_buffers();
        self.store.restart_counts();
        let mut cut = Cut::new(&mut bytes, ONE_RUN);
        self.store.status(lba, &mut cut);
        run_of(lba, &bytes)
    }

    /// The number of addresses that have a block of the pool, with data or anchored.
    pub fn used_blocks(&self) -> u32
        ensures { result ≡ len self.now.state.disk.contents }
    {
        self.store.used()
    }
}
