// The calls on a disk's file.
ghost use Rattle.std.specs.Prelude.{◌≡◌, ◌∷◌, List, is_ok};
ghost use Rattle.sg_file.specs.Calls.{Call};
ghost use Rattle.sg_file.specs.Calls.Call.{Write, CutTo, Sync, BeginDraft, WriteDraft, Exchange};

use sg_journal::DeviceError;

/// The calls that write a file which is open and locked, and its draft.
///
/// Each contract says that the call is one of the [`calls`](SystemFile::calls), and whether it succeeded.
/// None says what the operating system does at a call, because no contract can see the system. So the
/// lines of each implementation have to be read. Offsets and lengths are in bytes.
pub trait SystemFile {
    /// The calls on the file so far, the newest first.
    ghost calls: { Self → List Call };

    /// Writes all of the bytes at an offset of the file.
    fn write_all_at(&mut self, at: u64, bytes: &[u8]) -> Result<(), DeviceError>
        ensures { calls self.new ≡ Write at bytes.now (is_ok result) ∷ calls self.old };

    /// Makes the file this long.
    fn set_len(&mut self, len: u64) -> Result<(), DeviceError>
        ensures { calls self.new ≡ CutTo len (is_ok result) ∷ calls self.old };

    /// Waits until what was written to the file is on its disk, and its length.
    fn sync_data(&mut self) -> Result<(), DeviceError>
        ensures { calls self.new ≡ Sync (is_ok result) ∷ calls self.old };

    /// Makes an empty file for the draft. An earlier draft is gone.
    fn begin_draft(&mut self) -> Result<(), DeviceError>
        ensures { calls self.new ≡ BeginDraft (is_ok result) ∷ calls self.old };

    /// Writes all of the bytes to the end of the draft.
    fn extend_draft(&mut self, bytes: &[u8]) -> Result<(), DeviceError>
        ensures { calls self.new ≡ WriteDraft bytes.now (is_ok result) ∷ calls self.old };

    /// Puts the draft in the place of the file, in one step. The draft's bytes are on the disk before
    /// that, and the draft is locked, so that whoever opens the path meets the lock.
    fn put_draft(&mut self) -> Result<(), DeviceError>
        ensures { calls self.new ≡ Exchange (is_ok result) ∷ calls self.old };
}
