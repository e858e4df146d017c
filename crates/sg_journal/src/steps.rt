// The writes of a journal: each is one change of the file, and all but one are followed by a sync.
ghost use Rattle.std.specs.Prelude.{◌≡◌, ◌≤◌, ◌+◌, ◌++◌, ℕ, List, length, take, drop, OnOk};
ghost use Rattle.sg_journal.specs.Device.{Holds, Only, LeavesOnly, HasCause};
ghost use Rattle.sg_journal.specs.Journal.{HasFirst, IsGrown, IsPut, IsCut};

use crate::{Device, DeviceError};

/// Writes over the bytes from an offset on, and past the end, without a sync. A crash leaves the bytes
/// before them as it might have left them.
pub(crate) fn overwrite<D: Device>(device: &mut D, at: u64, bytes: &[u8]) -> Result<(), DeviceError>
    requires at { at ≤ length (D.seen device.old) }
    ensures put { OnOk result (Holds (D.seen device.old) at bytes.now (D.seen device.new)) }
    ensures crash { (c : List ℕ) → D.may_leave device.new c → HasFirst at (D.may_leave device.old) c }
    ensures any_moment { LeavesOnly D.moment D.left_since device.old device.new
        (HasFirst at (D.may_leave device.old)) }
    ensures cause { HasCause (D.failures device.old) (D.failures device.new) result }
    ensures opening { D.opening device.new ≡ D.opening device.old }
{
    device.write_at(at, bytes)
}

/// Adds bytes at the end. A crash leaves what was there, and some more bytes.
pub(crate) fn append<D: Device>(device: &mut D, end: u64, bytes: &[u8]) -> Result<(), DeviceError>
    requires end { end ≡ length (D.seen device.old) }
    requires durable { Only (D.seen device.old) (D.may_leave device.old) }
    ensures added { OnOk result (D.seen device.new ≡ D.seen device.old ++ bytes.now) }
    ensures durable { OnOk result (Only (D.seen device.new) (D.may_leave device.new)) }
    ensures any_moment { LeavesOnly D.moment D.left_since device.old device.new
        (IsGrown (length bytes.now) (D.seen device.old)) }
    ensures cause { HasCause (D.failures device.old) (D.failures device.new) result }
    ensures opening { D.opening device.new ≡ D.opening device.old }
{
    device.write_at(end, bytes)?;
    device.sync()
}

/// Replaces bytes within the file. A crash leaves any bytes there.
pub(crate) fn replace<D: Device>(device: &mut D, at: u64, bytes: &[u8]) -> Result<(), DeviceError>
    requires within { at + length bytes.now ≤ length (D.seen device.old) }
    requires durable { Only (D.seen device.old) (D.may_leave device.old) }
    ensures put { OnOk result (D.seen device.new ≡ take at (D.seen device.old) ++ bytes.now
        ++ drop (at + length bytes.now) (D.seen device.old)) }
    ensures durable { OnOk result (Only (D.seen device.new) (D.may_leave device.new)) }
    ensures any_moment { LeavesOnly D.moment D.left_since device.old device.new
        (IsPut at (length bytes.now) (D.seen device.old)) }
    ensures cause { HasCause (D.failures device.old) (D.failures device.new) result }
    ensures opening { D.opening device.new ≡ D.opening device.old }
{
    device.write_at(at, bytes)?;
    device.sync()
}

/// Cuts the file. A crash leaves some length between.
pub(crate) fn shorten<D: Device>(device: &mut D, len: u64) -> Result<(), DeviceError>
    requires len { len ≤ length (D.seen device.old) }
    requires durable { Only (D.seen device.old) (D.may_leave device.old) }
    ensures cut { OnOk result (D.seen device.new ≡ take len (D.seen device.old)) }
    ensures durable { OnOk result (Only (D.seen device.new) (D.may_leave device.new)) }
    ensures any_moment { LeavesOnly D.moment D.left_since device.old device.new
        (IsCut len (D.seen device.old)) }
    ensures cause { HasCause (D.failures device.old) (D.failures device.new) result }
    ensures opening { D.opening device.new ≡ D.opening device.old }
{
    device.cut(len)?;
    device.sync()
}
