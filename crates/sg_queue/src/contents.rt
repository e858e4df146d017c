// The bytes of a file that somebody has read.
use crate::queued_file::QueuedFile;
use sg_file::FileDevice;
use sg_journal::{DeviceError, Source};
use std::alloc::{AllocError, Global};
use std::marker::Model;

/// The bytes of a file that somebody has read whole. Nobody has written to the file since.
#[derive(Drop)]
pub struct Contents<'a> {
    bytes: &'a [u8],
    read: usize,
    file: QueuedFile,
}

impl<'a> Model for Contents<'a> {
    ghost use Rattle.std.specs.Prelude.{◌≡◌, ◌≤◌, take, drop, length};
    ghost use Rattle.sg_queue.specs.QueueFields.{no_calls};
    ghost use Rattle.sg_queue.specs.Contents.{ContentsFields};

    ghost Value = { ContentsFields };

    ghost view = { λ s. record { taken = take s.read s.bytes.now; rest = drop s.read s.bytes.now } };

    ghost invariant = { λ s. (s.read ≤ length s.bytes.now) × (s.file ≡ no_calls) };
}

ghost use Rattle.std.specs.Prelude.{◌≡◌, ◌++◌, [], length, IfOk};

impl<'a> Contents<'a> {
    /// The bytes of a file. It takes all memory for the calls of the longest flush.
    ///
    /// # Errors
    /// Memory was refused.
    pub fn new(alloc: Global, bytes: &'a [u8]) -> Result<Contents<'a>, AllocError>
        ensures fresh { IfOk result (λ source. source.taken ≡ []) }
        ensures bytes { IfOk result (λ source. source.rest ≡ bytes.now) }
    {
        Ok(Contents {
            bytes,
            read: 0,
            file: QueuedFile::new(alloc)?,
        })
    }
}

impl<'a> Source for Contents<'a> {
    type Device = FileDevice<QueuedFile>;

    ghost taken = { λ s. s.taken };

    ghost left = { λ s. length s.rest };

    ghost failures = { λ s. 0 };

    ghost known = { λ s. s.taken ++ s.rest };

    fn left(&self) -> u64 {
        (self.bytes.len() - self.read) as u64
    }

    fn read(&mut self, into: &mut [u8]) -> Result<(), DeviceError> {
        let end = self.read + into.len();
        into.copy_from_slice(&self.bytes[self.read..end]);
        self.read = end;
        Ok(())
    }

    fn into_device(self) -> FileDevice<QueuedFile> {
        let mut file = self.file;
        file.read(self.bytes);
        FileDevice::new(file)
    }
}
