// A file that is opened and read. No method writes to it.
use crate::device::FileDevice;
use crate::std_file::StdFile;
use sg_journal::{DeviceError, Source};
use std::marker::Model;

/// A file that is open, locked, and read from its first byte on.
#[derive(Drop)]
pub struct FileSource<'a> {
    file: StdFile<'a>,
    left: u64,
}

impl<'a> Model for FileSource<'a> {
    ghost use Rattle.sg_file.specs.Source.{SourceFields};
    ghost use Rattle.sg_file.specs.Calls.{calls};
    ghost use Rattle.sg_file.specs.History.{AreReads};

    ghost Value = { SourceFields };

    ghost view = { λ s. record { calls = calls s.file.notes.events; left = s.left } };

    ghost invariant = { λ s. AreReads (calls s.file.notes.events) };
}

ghost use Rattle.std.specs.Prelude.{◌≡◌, []};
ghost use Rattle.sg_file.specs.Calls.{calls};
ghost use Rattle.sg_file.specs.History.{failures, seen};

impl<'a> FileSource<'a> {
    /// A file that nobody has read or written since it was opened, and its length in bytes.
    pub(crate) fn new(file: StdFile<'a>, len: u64) -> FileSource<'a>
        requires { calls file.notes.events ≡ [] }
        ensures calls { result.calls ≡ [] }
        ensures left { result.left ≡ len }
    {
        FileSource { file, left: len }
    }
}

impl<'a> Source for FileSource<'a> {
    type Device = FileDevice<StdFile<'a>>;

    ghost taken = { λ s. seen s.calls };

    ghost left = { λ s. s.left };

    ghost failures = { λ s. failures s.calls };

    // Nobody has read the file.
    ghost known = { λ s. [] };

    fn left(&self) -> u64 {
        self.left
    }

    fn read(&mut self, into: &mut [u8]) -> Result<(), DeviceError> {
        self.file.read_exact(into)?;
        self.left -= into.len() as u64;
        Ok(())
    }

    #[tactic(auto, using(crate::proofs::ReadsLemmas::only_reads))]
    fn into_device(self) -> FileDevice<StdFile<'a>> {
        FileDevice::new(self.file)
    }
}
