// The calls of the operating system. No contract can see what they do: these lines have to be read.
use crate::error::FileError;
use crate::paths::Paths;
use std::fs::{self, File};
use std::io::{self, ErrorKind, Read, Write};
use std::os::unix::fs::{FileExt, MetadataExt, OpenOptionsExt, fchown};

/// The mode of a new draft: only its owner may read and write it.
const PRIVATE: u32 = 0o600;

/// A file of `std::fs` that is open and locked, and its draft.
#[derive(Drop)]
pub(crate) struct OpenFile<'a> {
    rt: &'a HostRuntime,
    paths: Paths,
    file: File,
    draft: Option<File>,
}

impl<'a> OpenFile<'a> {
    /// Opens the file at a path, or makes an empty one there, and locks it. It returns the file and its
    /// length in bytes.
    ///
    /// # Errors
    /// - `Busy` if another program or handle has the file open, or if it has put another file at the
    ///   path meanwhile.
    /// - `Io` if the system refuses a call, or if the path is that of a device or a pipe. The first flush
    ///   would put a file in its place.
    pub(crate) fn open(rt: &'a HostRuntime, path: &str) -> Result<(OpenFile<'a>, u64), FileError> {
        let file = File::options()
            .read(true)
            .write(true)
            .create(true)
            .open(rt, path)?;
        file.try_lock()?;
        let metadata = file.metadata()?;
        if !metadata.is_file() {
            return Err(FileError::Io(io::Error::from(ErrorKind::InvalidInput)));
        }
        let at_path = fs::metadata(rt, path)?;
        if metadata.dev() != at_path.dev() || metadata.ino() != at_path.ino() {
            return Err(FileError::Busy);
        }
        file.sync_all()?;
        let paths = Paths::of(rt, path)?;
        let file = OpenFile {
            rt,
            paths,
            file,
            draft: None,
        };
        Ok((file, metadata.len()))
    }

    /// Reads the next bytes of the file, as many as `into` has.
    pub(crate) fn read_exact(&mut self, into: &mut [u8]) -> io::Result<()> {
        self.file.read_exact(into)
    }

    /// Writes all of the bytes at an offset of the file.
    pub(crate) fn write_all_at(&mut self, at: u64, bytes: &[u8]) -> io::Result<()> {
        self.file.write_all_at(bytes, at)
    }

    /// Makes the file this long.
    pub(crate) fn set_len(&mut self, len: u64) -> io::Result<()> {
        self.file.set_len(len)
    }

    /// Waits until what was written to the file is on its disk, and its length.
    pub(crate) fn sync_data(&mut self) -> io::Result<()> {
        self.file.sync_data()
    }

    /// Makes an empty file for the draft. An earlier draft is gone.
    pub(crate) fn begin_draft(&mut self) -> io::Result<()> {
        let metadata = self.file.metadata()?;
        // An earlier draft may be there, or none. A symbolic link there is not followed.
        let _ = fs::remove_file(self.rt, &self.paths.draft);
        let draft = File::options()
            .write(true)
            .create_new(true)
            .mode(PRIVATE)
            .open(self.rt, &self.paths.draft)?;
        // Only root may give a file to somebody else.
        let _ = fchown(&draft, Some(metadata.uid()), Some(metadata.gid()));
        draft.set_permissions(metadata.permissions())?;
        self.draft = Some(draft);
        Ok(())
    }

    /// Writes all of the bytes to the end of the draft.
    pub(crate) fn extend_draft(&mut self, bytes: &[u8]) -> io::Result<()> {
        match &mut self.draft {
            Some(draft) => draft.write_all(bytes),
            None => Err(io::Error::from(ErrorKind::NotFound)),
        }
    }

    /// Puts the draft in the place of the file.
    pub(crate) fn put_draft(&mut self) -> io::Result<()> {
        let Some(draft) = self.draft.take() else {
            return Err(io::Error::from(ErrorKind::NotFound));
        };
        draft.sync_all()?;
        draft.try_lock()?;
        fs::rename(self.rt, &self.paths.draft, &self.paths.file)?;
        File::open(self.rt, &self.paths.folder)?.sync_all()?;
        self.file = draft;
        Ok(())
    }
}
