// What opening a file has to find: the disk after power on, after some first part of the steps.
use crate::probe::probe;
use crate::run::Buffers;
use sg_journal::{Memory, MemorySource};
use sg_kept::{KeptDisk, OpenDiskError};
use sg_store::Store;
use std::alloc::{AllocError, Global};

/// The replies of a file that holds no disk, though it should.
const DAMAGED: &[u8] = b"damaged";

/// The replies after each first part of the steps, and which of them a crash may leave now. The file that
/// was not made yet has no replies.
#[derive(Drop)]
pub(crate) struct Expected {
    pub(crate) replies: Vec<Vec<u8>>,
    pub(crate) least: usize,
    pub(crate) most: usize,
}

impl Expected {
    /// The last first part, among those that a crash may leave, that has these replies.
    pub(crate) fn find(&self, replies: &[u8]) -> Option<usize> {
        let mut found = None;
        for (index, expected) in self.replies.iter().enumerate() {
            let is_allowed = self.least <= index && index <= self.most;
            if is_allowed && expected.as_slice() == replies {
                found = Some(index);
            }
        }
        found
    }
}

/// Opens a file, and returns the replies of the disk that it keeps.
///
/// # Errors
/// Memory was refused.
pub(crate) fn replies_of<S: Store>(
    alloc: Global,
    file: &[u8],
    buffers: &mut Buffers,
) -> Result<Vec<u8>, AllocError> {
    let source = MemorySource::new(alloc, file.to_vec(alloc)?);
    let opened: Result<KeptDisk<S, Memory>, (OpenDiskError, MemorySource)> = KeptDisk::open(
        alloc, source,
    );
    match opened {
        Ok(mut disk) => {
            let mut replies = Vec::new(alloc);
            probe(&mut disk.target, buffers, &mut replies)?;
            Ok(replies)
        }
        Err((OpenDiskError::Unmade, _)) => Ok(Vec::new(alloc)),
        Err((OpenDiskError::Memory, _)) => Err(AllocError),
        Err(_) => DAMAGED.to_vec(alloc),
    }
}
