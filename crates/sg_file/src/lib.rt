//! A file as the journal sees it. A [`SystemFile`] has the calls on the file with their outcomes, and what a
//! crash may leave follows from them. [`StdFile`] makes each call by `std::fs` and notes it. A proof cannot
//! see the calls themselves: the lines of `open_file.rt` and `std_file.rt` have to be read.
#![tactic(auto)]

mod device;
mod error;
pub mod laws;
mod open_file;
mod paths;
mod source;
mod std_file;
mod system_file;

pub use device::FileDevice;
pub use error::FileError;
pub use source::FileSource;
pub use std_file::StdFile;
pub use system_file::SystemFile;

#[cfg(test)]
mod tests {
    use super::*;
    use sg_journal::{Device, DeviceError, Source};
    use std::fs;
    use std::test::Fail;

    /// Reads a file of `into.len()` bytes.
    fn device_of<'a>(
        mut source: FileSource<'a>,
        into: &mut [u8],
    ) -> Result<FileDevice<StdFile<'a>>, DeviceError> {
        if source.left() != into.len() as u64 {
            return Err(DeviceError);
        }
        source.read(into)?;
        Ok(source.into_device())
    }

    // An empty file is made. A draft takes its place, and is written, cut and synced.
    #[test]
    fn a_file_outlives_its_device(rt: HostRuntime) -> Result<(), Fail> {
        let path = "sg-file-test.disk";
        let _gone = fs::remove_file(&rt, path);
        let mut device = device_of(StdFile::open(&rt, path)?, &mut [])?;
        device.begin_draft()?;
        device.write_draft(b"first")?;
        device.write_draft(b" second")?;
        device.exchange()?;
        device.write_at(0, b"F")?;
        let is_busy = matches!(StdFile::open(&rt, path), Err(FileError::Busy));
        assert!(rt; is_busy);
        drop(device);

        let mut bytes = [0; 12];
        let mut device = device_of(StdFile::open(&rt, path)?, &mut bytes)?;
        assert_eq!(rt; bytes.as_slice(), b"First second".as_slice());
        device.cut(0)?;
        device.write_at(0, b"third")?;
        device.sync()?;
        drop(device);
        assert_eq!(rt; fs::read(&rt, path)?.as_slice(), b"third".as_slice());
        fs::remove_file(&rt, path)?;
        Ok(())
    }
}
