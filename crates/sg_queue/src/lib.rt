//! A file whose calls wait in a queue until somebody takes them out and makes them. A library that gets no
//! handle of the system keeps a disk in a file with it: the program that calls the library makes the calls.
#![tactic(auto)]

mod call;
mod contents;
pub mod laws;
mod queue;
mod queued_file;

pub use call::{CallKind, QueuedCall};
pub use contents::Contents;
pub use queue::TooShort;
pub use queued_file::QueuedFile;

#[cfg(test)]
mod tests {
    use super::*;
    use sg_file::FileDevice;
    use sg_journal::{Device, Source};
    use std::test::Fail;

    /// Takes the next call out. Its bytes have to be these.
    fn is_next(
        file: &mut QueuedFile,
        kind: CallKind,
        place: u64,
        bytes: &[u8],
    ) -> Result<bool, TooShort> {
        let mut into = [0; 8];
        let Some(call) = file.next_call(&mut into)? else {
            return Ok(false);
        };
        Ok(call.kind == kind && call.place == place && into.get(..call.length) == Some(bytes))
    }

    #[test]
    fn calls_come_out_in_their_order(rt: HostRuntime) -> Result<(), Fail> {
        let mut source = Contents::new(rt.alloc(), b"first")?;
        let mut read = [0; 5];
        source.read(&mut read)?;
        assert_eq!(rt; read.as_slice(), b"first".as_slice());
        let mut device: FileDevice<QueuedFile> = source.into_device();
        let is_empty = !device.file.has_calls();
        assert!(rt; is_empty);

        device.write_at(5, b" byte")?;
        device.cut(7)?;
        device.sync()?;
        device.begin_draft()?;
        device.write_draft(b"draft")?;
        device.exchange()?;
        let file = &mut device.file;
        let has_calls = file.has_calls();
        assert!(rt; has_calls);
        let is_too_short = matches!(file.next_call(&mut read[..4]), Err(TooShort));
        assert!(rt; is_too_short);

        let is_write = is_next(file, CallKind::Write, 5, b" byte")?;
        let is_cut = is_next(file, CallKind::Cut, 7, b"")?;
        let is_sync = is_next(file, CallKind::Sync, 0, b"")?;
        assert!(rt; is_write && is_cut && is_sync);
        let is_draft = is_next(file, CallKind::BeginDraft, 0, b"")?;
        let is_written = is_next(file, CallKind::WriteDraft, 0, b"draft")?;
        let is_exchange = is_next(file, CallKind::Exchange, 0, b"")?;
        assert!(rt; is_draft && is_written && is_exchange);
        let is_empty = !file.has_calls() && file.next_call(&mut read)? == None;
        assert!(rt; is_empty);
        Ok(())
    }

    /// Writes a draft of the same bytes, part by part, and returns how many of its calls come out with them.
    fn written(
        device: &mut FileDevice<QueuedFile>,
        parts: u32,
        bytes: &[u8],
        into: &mut [u8],
    ) -> Result<u32, Fail> {
        for _ in 0..parts {
            device.write_draft(bytes)?;
        }
        let mut count = 0;
        for _ in 0..parts {
            into.fill(0);
            let is_call = device.file.next_call(into)?.is_some();
            if is_call && *into == *bytes && count < parts {
                count += 1;
            }
        }
        Ok(count)
    }

    // A draft that is longer than a flush takes more memory, and the queue goes on after it.
    #[test]
    fn a_draft_may_be_long(rt: HostRuntime) -> Result<(), Fail> {
        let mut device = FileDevice::new(QueuedFile::new(rt.alloc())?);
        let mut into = [0; 4096];
        let count = written(&mut device, 1500, &[7; 4096], &mut into)?;
        assert_eq!(rt; count, 1500);
        device.sync()?;
        let is_sync = is_next(&mut device.file, CallKind::Sync, 0, b"")?;
        assert!(rt; is_sync);
        Ok(())
    }
}
