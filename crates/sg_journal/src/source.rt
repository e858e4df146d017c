// A file that is read once, before anything is written.
ghost use Rattle.std.specs.Prelude.{◌≡◌, ℕ, ◌+◌, ◌≤◌, List, ◌++◌, length, OnOk};
ghost use Rattle.sg_journal.specs.Device.{HasCause, Only};

use crate::{Device, DeviceError};

/// A file that is read once, from its first byte to its last. It has no call that writes.
pub trait Source {
    /// What the file is written by, after it was read.
    type Device: Device;

    /// The bytes that were read.
    ghost taken: { Self → List ℕ };

    /// The number of bytes that were not read yet.
    ghost left: { Self → ℕ };

    /// How often the device failed.
    ghost failures: { Self → ℕ };

    /// What is known of the file before it is read. No call changes that.
    ghost known: { Self → List ℕ };

    /// The number of bytes that were not read yet.
    fn left(&self) -> u64
        ensures { result ≡ left self.now };

    /// Reads the next bytes, as many as `into` has.
    fn read(&mut self, into: &mut [u8]) -> Result<(), DeviceError>
        requires { length into.old ≤ left self.old }
        ensures taken { OnOk result (taken self.new ≡ taken self.old ++ into.new) }
        ensures left { OnOk result (left self.new + length into.new ≡ left self.old) }
        ensures known { known self.new ≡ known self.old }
        ensures cause { HasCause (failures self.old) (failures self.new) result };

    /// The device, after all was read.
    fn into_device(self) -> Self::Device
        requires { left self ≡ 0 }
        ensures seen { Self.Device.seen result ≡ taken self }
        ensures opening { Self.Device.opening result ≡ taken self }
        ensures durable { Only (taken self) (Self.Device.may_leave result) }
        ensures moment { Self.Device.moment result ≡ 0 };
}
