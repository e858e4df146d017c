// A disk in a file before its first step.
ghost use Rattle.std.specs.Prelude.{◌≡◌, ◌≤◌, [], IfOk, IfSome};
ghost use Rattle.sg_journal.specs.JournalState.{HasBatches};
ghost use Rattle.sg_kept.specs.Disk.{longest_file};
ghost use Rattle.sg_kept.specs.Opening.{HasStarted};

use crate::device::{LoggedFile, LoggedSource};
use sg_changes::NewDisk;
use sg_journal::{Batch, Device, Journal, Reader};
use sg_kept::{KeptDisk, MakeError};
use sg_store::Store;
use std::alloc::Global;

/// The journal of an empty file.
fn empty_journal(alloc: Global, failing_call: Option<usize>) -> Option<Journal<LoggedFile>>
    ensures batches { IfSome result (λ journal. HasBatches ⟦<LoggedFile as Device>⟧.seen
        ⟦<LoggedFile as Device>⟧.may_leave journal [] []) }
    ensures length { IfSome result (λ journal. journal.length ≤ longest_file) }
{
    let source = LoggedSource::new(alloc, Vec::new(alloc), failing_call);
    let Ok(mut reader) = Reader::open(source) else {
        return None;
    };
    let mut batch = Batch::new(alloc, reader.sector).ok()?;
    let Ok(has_batch) = reader.next(&mut batch) else {
        return None;
    };
    if has_batch || reader.length > 0 {
        return None;
    }
    match reader.into_journal() {
        Ok(journal) => Some(journal),
        Err(_) => None,
    }
}

/// Makes a disk in an empty file. An error has the file if its device failed, and nothing if memory was
/// refused.
pub(crate) fn make<S: Store>(
    alloc: Global,
    new: &NewDisk,
    failing_call: Option<usize>,
) -> Result<KeptDisk<S, LoggedFile>, Option<LoggedFile>>
    ensures started { IfOk result (HasStarted ⟦<LoggedFile as Device>⟧.seen
        ⟦<LoggedFile as Device>⟧.may_leave) }
{
    let Some(journal) = empty_journal(alloc, failing_call) else {
        return Err(None);
    };
    match KeptDisk::make(alloc, journal, new) {
        Ok(disk) => Ok(disk),
        Err((MakeError::Device, journal)) => Err(Some(journal.device)),
        Err((MakeError::Memory, _)) => Err(None),
    }
}

/// Opens the disk that a file keeps. None if it cannot be opened.
pub(crate) fn open<S: Store>(
    alloc: Global,
    file: &[u8],
    failing_call: Option<usize>,
) -> Option<KeptDisk<S, LoggedFile>>
    ensures started { IfSome result (HasStarted ⟦<LoggedFile as Device>⟧.seen
        ⟦<LoggedFile as Device>⟧.may_leave) }
{
    let source = LoggedSource::new(alloc, file.to_vec(alloc).ok()?, failing_call);
    KeptDisk::open(alloc, source).ok()
}
