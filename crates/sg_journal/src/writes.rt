// The changes of a file that a journal makes, each of two calls. They know bytes and no batches.
ghost use Rattle.std.specs.Prelude.{◌≡◌, ◌⊎◌, ◌≤◌, ◌<◌, ◌+◌, ◌^◌, ◌++◌, ℕ, List, length, take, OnOk};
ghost use Rattle.sg_journal.specs.Device.{Holds, NoMore, Only, LeavesOnly, HasCause};
ghost use Rattle.sg_journal.specs.Journal.{HasFirst, IsGrown, IsPut, IsCut};

use crate::steps::{append, overwrite, replace, shorten};
use crate::{Device, DeviceError};

/// Writes a gate, and a body after it, without a sync. A crash leaves the bytes before them as it might have
/// left them.
pub(crate) fn write_gate_and_body<D: Device>(
    device: &mut D,
    at: u64,
    gate: &[u8],
    body: &[u8],
) -> Result<(), DeviceError>
    requires at { at + length gate.now ≤ length (D.seen device.old) }
    requires fits { at + length gate.now < 2 ^ 64 }
    ensures put { OnOk result (Holds (D.seen device.old) at (gate.now ++ body.now)
        (D.seen device.new)) }
    ensures crash { (c : List ℕ) → D.may_leave device.new c → HasFirst at (D.may_leave device.old) c }
    ensures any_moment { LeavesOnly D.moment D.left_since device.old device.new
        (HasFirst at (D.may_leave device.old)) }
    ensures cause { HasCause (D.failures device.old) (D.failures device.new) result }
    ensures opening { D.opening device.new ≡ D.opening device.old }
{
    overwrite(device, at, gate)?;
    overwrite(device, at + gate.len() as u64, body)
}

/// Makes the file durable, and then writes a gate in the place of another.
pub(crate) fn exchange_gate<D: Device>(
    device: &mut D,
    at: u64,
    gate: &[u8],
) -> Result<(), DeviceError>
    requires within { at + length gate.now ≤ length (D.seen device.old) }
    ensures put { OnOk result (Holds (D.seen device.old) at gate.now (D.seen device.new)) }
    ensures durable { OnOk result (Only (D.seen device.new) (D.may_leave device.new)) }
    ensures any_moment { LeavesOnly D.moment D.left_since device.old device.new
        (λ c. D.may_leave device.old c ⊎ IsPut at (length gate.now) (D.seen device.old) c) }
    ensures cause { HasCause (D.failures device.old) (D.failures device.new) result }
    ensures opening { D.opening device.new ≡ D.opening device.old }
{
    device.sync()?;
    replace(device, at, gate)
}

/// Cuts a file, and then adds a gate.
pub(crate) fn cut_and_close<D: Device>(
    device: &mut D,
    end: u64,
    gate: &[u8],
) -> Result<(), DeviceError>
    requires end { end ≤ length (D.seen device.old) }
    requires durable { Only (D.seen device.old) (D.may_leave device.old) }
    ensures closed { OnOk result (D.seen device.new ≡ take end (D.seen device.old) ++ gate.now) }
    ensures durable { OnOk result (Only (D.seen device.new) (D.may_leave device.new)) }
    ensures any_moment { LeavesOnly D.moment D.left_since device.old device.new
        (λ c. IsCut end (D.seen device.old) c
        ⊎ IsGrown (length gate.now) (take end (D.seen device.old)) c) }
    ensures cause { HasCause (D.failures device.old) (D.failures device.new) result }
    ensures opening { D.opening device.new ≡ D.opening device.old }
{
    shorten(device, end)?;
    append(device, end, gate)
}

/// Begins a draft with these bytes.
pub(crate) fn begin_draft_with<D: Device>(device: &mut D, first: &[u8]) -> Result<(), DeviceError>
    ensures draft { OnOk result (D.draft device.new ≡ first.now) }
    ensures seen { D.seen device.new ≡ D.seen device.old }
    ensures crash { NoMore (D.may_leave device.old) (D.may_leave device.new) }
    ensures any_moment { LeavesOnly D.moment D.left_since device.old device.new
        (D.may_leave device.old) }
    ensures cause { HasCause (D.failures device.old) (D.failures device.new) result }
    ensures opening { D.opening device.new ≡ D.opening device.old }
{
    device.begin_draft()?;
    device.write_draft(first)
}

/// Adds a gate and a body to the draft.
pub(crate) fn draft_batch<D: Device>(
    device: &mut D,
    gate: &[u8],
    body: &[u8],
) -> Result<(), DeviceError>
    ensures draft { OnOk result (D.draft device.new
        ≡ D.draft device.old ++ (gate.now ++ body.now)) }
    ensures seen { D.seen device.new ≡ D.seen device.old }
    ensures crash { NoMore (D.may_leave device.old) (D.may_leave device.new) }
    ensures any_moment { LeavesOnly D.moment D.left_since device.old device.new
        (D.may_leave device.old) }
    ensures cause { HasCause (D.failures device.old) (D.failures device.new) result }
    ensures opening { D.opening device.new ≡ D.opening device.old }
{
    device.write_draft(gate)?;
    device.write_draft(body)
}

/// Adds a gate to the draft, and puts the draft in the place of the file.
pub(crate) fn close_and_exchange<D: Device>(device: &mut D, gate: &[u8]) -> Result<(), DeviceError>
    ensures exchanged { OnOk result (D.seen device.new ≡ D.draft device.old ++ gate.now) }
    ensures durable { OnOk result (Only (D.seen device.new) (D.may_leave device.new)) }
    ensures any_moment { LeavesOnly D.moment D.left_since device.old device.new
        (λ c. D.may_leave device.old c ⊎ (c ≡ D.draft device.old ++ gate.now)) }
    ensures cause { HasCause (D.failures device.old) (D.failures device.new) result }
    ensures opening { D.opening device.new ≡ D.opening device.old }
{
    device.write_draft(gate)?;
    device.exchange()
}
