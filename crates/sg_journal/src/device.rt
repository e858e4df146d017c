// A file as the journal sees it: what a crash at any moment may leave of it.
ghost use Rattle.std.specs.Prelude.{◌≡◌, ◌≤◌, ℕ, List, [], ◌++◌, length, take, OnOk};
ghost use Rattle.sg_journal.specs.Device.{Cut, Elapses, Follows, HasCause, Holds, NoMore};
ghost use Rattle.sg_journal.specs.Device.{NoMoreBut};
ghost use Rattle.sg_journal.specs.Device.{Only, Torn};

use thiserror::Error;

/// A call of the device failed.
#[derive(Clone, Copy, Debug, Error, PartialEq, Eq)]
#[error("the device failed")]
pub struct DeviceError;

/// A file that can be written, cut and synced, and exchanged for a new file beside it, its draft.
///
/// No call takes memory. Offsets and lengths are in bytes. The file was read before, by a
/// [`Source`](crate::Source), so that no call reads it.
pub trait Device {
    /// The bytes of the file, if no crash comes.
    ghost seen: { Self → List ℕ };

    /// What a crash at this moment may leave.
    ghost may_leave: { Self → List ℕ → Type 0 };

    /// The moment, as a number that does not fall.
    ghost moment: { Self → ℕ };

    /// What a crash at some moment from that one on might have left, during a call or between two.
    ghost left_since: { Self → ℕ → List ℕ → Type 0 };

    /// How often the device failed.
    ghost failures: { Self → ℕ };

    /// The bytes of the file when it was read.
    ghost opening: { Self → List ℕ };

    /// The bytes of the draft.
    ghost draft: { Self → List ℕ };

    /// Writes over the bytes from an offset on, and past the end. Until a sync, a crash may leave
    /// any bytes in the range.
    fn write_at(&mut self, at: u64, bytes: &[u8]) -> Result<(), DeviceError>
        requires { at ≤ length (seen self.old) }
        ensures written { OnOk result (Holds (seen self.old) at bytes.now (seen self.new)) }
        ensures crash { Follows (Torn at (length bytes.now))
            (may_leave self.old) (may_leave self.new) }
        ensures time { Elapses (moment self.old) (moment self.new) (left_since self.old)
            (left_since self.new) (may_leave self.new) }
        ensures cause { HasCause (failures self.old) (failures self.new) result }
        ensures opening { opening self.new ≡ opening self.old };

    /// Cuts the file to a length.
    fn cut(&mut self, len: u64) -> Result<(), DeviceError>
        requires { len ≤ length (seen self.old) }
        ensures cut { OnOk result (seen self.new ≡ take len (seen self.old)) }
        ensures crash { Follows (Cut len) (may_leave self.old) (may_leave self.new) }
        ensures time { Elapses (moment self.old) (moment self.new) (left_since self.old)
            (left_since self.new) (may_leave self.new) }
        ensures cause { HasCause (failures self.old) (failures self.new) result }
        ensures opening { opening self.new ≡ opening self.old };

    /// Makes the file durable: after it, a crash leaves what was written.
    fn sync(&mut self) -> Result<(), DeviceError>
        ensures durable { OnOk result (Only (seen self.old) (may_leave self.new)) }
        ensures seen { seen self.new ≡ seen self.old }
        ensures crash { NoMore (may_leave self.old) (may_leave self.new) }
        ensures time { Elapses (moment self.old) (moment self.new) (left_since self.old)
            (left_since self.new) (may_leave self.new) }
        ensures cause { HasCause (failures self.old) (failures self.new) result }
        ensures opening { opening self.new ≡ opening self.old };

    /// Makes the draft empty. The file is as it was.
    fn begin_draft(&mut self) -> Result<(), DeviceError>
        ensures draft { OnOk result (draft self.new ≡ []) }
        ensures seen { seen self.new ≡ seen self.old }
        ensures crash { NoMore (may_leave self.old) (may_leave self.new) }
        ensures time { Elapses (moment self.old) (moment self.new) (left_since self.old)
            (left_since self.new) (may_leave self.new) }
        ensures cause { HasCause (failures self.old) (failures self.new) result }
        ensures opening { opening self.new ≡ opening self.old };

    /// Adds bytes to the end of the draft. The file is as it was.
    fn write_draft(&mut self, bytes: &[u8]) -> Result<(), DeviceError>
        ensures draft { OnOk result (draft self.new ≡ draft self.old ++ bytes.now) }
        ensures seen { seen self.new ≡ seen self.old }
        ensures crash { NoMore (may_leave self.old) (may_leave self.new) }
        ensures time { Elapses (moment self.old) (moment self.new) (left_since self.old)
            (left_since self.new) (may_leave self.new) }
        ensures cause { HasCause (failures self.old) (failures self.new) result }
        ensures opening { opening self.new ≡ opening self.old };

    /// Puts the draft in the place of the file, as a sync, a rename and a sync of the folder do. A
    /// crash leaves the file as it was, or the draft.
    fn exchange(&mut self) -> Result<(), DeviceError>
        ensures exchanged { OnOk result (seen self.new ≡ draft self.old) }
        ensures durable { OnOk result (Only (draft self.old) (may_leave self.new)) }
        ensures crash { NoMoreBut (draft self.old) (may_leave self.old) (may_leave self.new) }
        ensures time { Elapses (moment self.old) (moment self.new) (left_since self.old)
            (left_since self.new) (may_leave self.new) }
        ensures cause { HasCause (failures self.old) (failures self.new) result }
        ensures opening { opening self.new ≡ opening self.old };

    /// This moment is one of those since an earlier one.
    ghost counts_now: { (file : Self) (t : ℕ) (c : List ℕ) → t ≤ moment file → may_leave file c →
        left_since file t c };

    /// Since this moment there is no other.
    ghost only_now: { (file : Self) (c : List ℕ) → left_since file (moment file) c →
        may_leave file c };
}
