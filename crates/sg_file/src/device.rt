// A file that is written, as a journal sees it.
ghost use Rattle.std.specs.Prelude.{◌≡◌};
ghost use Rattle.sg_file.specs.Moments.{counts_now, only_now};
ghost use Rattle.sg_file.specs.History.{draft, failures, left_since, may_leave, moment, opening};
ghost use Rattle.sg_file.specs.History.{seen};

use crate::system_file::SystemFile;
use sg_journal::{Device, DeviceError};

/// A file that was read, and is written now. What a crash may leave of it follows from the calls of its
/// [`SystemFile`].
#[derive(Drop)]
pub struct FileDevice<F: SystemFile> {
    /// The file that the calls go to.
    pub file: F,
}

impl<F: SystemFile> FileDevice<F> {
    /// The device of a file that was read.
    pub fn new(file: F) -> FileDevice<F>
        ensures { result.file ≡ file }
    {
        FileDevice { file }
    }
}

impl<F: SystemFile> Device for FileDevice<F> {
    ghost seen = { λ d. seen (F.calls d.file) };

    ghost may_leave = { λ d. may_leave (F.calls d.file) };

    ghost moment = { λ d. moment (F.calls d.file) };

    ghost left_since = { λ d. left_since (F.calls d.file) };

    ghost failures = { λ d. failures (F.calls d.file) };

    ghost opening = { λ d. opening (F.calls d.file) };

    ghost draft = { λ d. draft (F.calls d.file) };

    ghost counts_now = { λ d t c le now. counts_now (F.calls d.file) t c now };

    ghost only_now = { λ d c left. only_now (F.calls d.file) c left };

    fn write_at(&mut self, at: u64, bytes: &[u8]) -> Result<(), DeviceError> {
        self.file.write_all_at(at, bytes)
    }

    fn cut(&mut self, len: u64) -> Result<(), DeviceError> {
        self.file.set_len(len)
    }

    fn sync(&mut self) -> Result<(), DeviceError> {
        self.file.sync_data()
    }

    fn begin_draft(&mut self) -> Result<(), DeviceError> {
        self.file.begin_draft()
    }

    fn write_draft(&mut self, bytes: &[u8]) -> Result<(), DeviceError> {
        self.file.extend_draft(bytes)
    }

    fn exchange(&mut self) -> Result<(), DeviceError> {
        self.file.put_draft()
    }
}
