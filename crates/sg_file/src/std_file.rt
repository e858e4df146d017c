// A file of `std::fs`, for programs. Each method makes one call, and then notes it with its outcome.
ghost use Rattle.std.specs.Prelude.{◌≡◌, ◌∷◌, [], IfOk, OnOk, is_ok};
ghost use Rattle.sg_file.specs.Calls.{call_numbered, calls};
ghost use Rattle.sg_file.specs.Calls.Call.{Read};

use crate::error::FileError;
use crate::open_file::OpenFile;
use crate::source::FileSource;
use crate::system_file::SystemFile;
use sg_journal::{DeviceError, Record};

// The numbers under which calls are noted.
const READ: u64 = 0;

const WRITE: u64 = 1;

const CUT: u64 = 2;

const SYNC: u64 = 3;

const BEGIN_DRAFT: u64 = 4;

const WRITE_DRAFT: u64 = 5;

const EXCHANGE: u64 = 6;

/// A file of `std::fs` that is open and locked. Its draft is in the same folder, and has the same
/// name with `.new` added. The draft gets the permissions of the file, and its owner if that is allowed.
#[derive(Drop)]
pub struct StdFile<'a> {
    file: OpenFile<'a>,
    // After a call has failed, no other is made: a sync can succeed although an earlier one has lost what
    // it could not write.
    failed: bool,
    pub(crate) notes: Record,
}

impl<'a> StdFile<'a> {
    /// Opens the file at a path, or makes an empty one there. It is locked
    /// then, so that no other program can open it by this call: the lock is advisory. Earlier writes to the
    /// file are on the disk.
    ///
    /// # Errors
    /// - `Busy` if another program or handle has the file open, or if it has put another file at the
    ///   path meanwhile.
    /// - `Io` if the system refuses a call, or if the path is that of a device or a pipe. The first flush
    ///   would put a file in its place.
    pub fn open(rt: &'a HostRuntime, path: &str) -> Result<FileSource<'a>, FileError>
        ensures { IfOk result (λ source. source.calls ≡ []) }
    {
        let (file, len) = OpenFile::open(rt, path)?;
        let file = StdFile {
            file,
            failed: false,
            notes: Record::new(),
        };
        Ok(FileSource::new(file, len))
    }

    /// Reads the next bytes of the file, as many as `into` has.
    pub(crate) fn read_exact(&mut self, into: &mut [u8]) -> Result<(), DeviceError>
        ensures { calls self.new.notes.events
            ≡ Read into.new (is_ok result) ∷ calls self.old.notes.events }
    {
        let ok = !self.failed && self.file.read_exact(into).is_ok();
        self.noted(READ, 0, ok, into)
    }

    /// Notes a call, and returns its outcome.
    fn noted(&mut self, call: u64, at: u64, ok: bool, bytes: &[u8]) -> Result<(), DeviceError>
        ensures noted { calls self.new.notes.events
            ≡ call_numbered call at (is_ok result) bytes.now ∷ calls self.old.notes.events }
        ensures outcome { is_ok result ≡ ok }
    {
        self.notes.note(&[call, at, u64::from(ok)], bytes);
        if ok {
            Ok(())
        } else {
            self.failed = true;
            Err(DeviceError)
        }
    }
}

impl<'a> SystemFile for StdFile<'a> {
    ghost calls = { λ f. calls f.notes.events };

    fn write_all_at(&mut self, at: u64, bytes: &[u8]) -> Result<(), DeviceError> {
        let ok = !self.failed && self.file.write_all_at(at, bytes).is_ok();
        self.noted(WRITE, at, ok, bytes)
    }

    fn set_len(&mut self, len: u64) -> Result<(), DeviceError> {
        let ok = !self.failed && self.file.set_len(len).is_ok();
        self.noted(CUT, len, ok, &[])
    }

    fn sync_data(&mut self) -> Result<(), DeviceError> {
        let ok = !self.failed && self.file.sync_data().is_ok();
        self.noted(SYNC, 0, ok, &[])
    }

    fn begin_draft(&mut self) -> Result<(), DeviceError> {
        let ok = !self.failed && self.file.begin_draft().is_ok();
        self.noted(BEGIN_DRAFT, 0, ok, &[])
    }

    fn extend_draft(&mut self, bytes: &[u8]) -> Result<(), DeviceError> {
        let ok = !self.failed && self.file.extend_draft(bytes).is_ok();
        self.noted(WRITE_DRAFT, 0, ok, bytes)
    }

    fn put_draft(&mut self) -> Result<(), DeviceError> {
        let ok = !self.failed && self.file.put_draft().is_ok();
        self.noted(EXCHANGE, 0, ok, &[])
    }
}
