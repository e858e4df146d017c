// Why the bytes of a file are no journal.
use thiserror::Error;

/// The reason why a file cannot be opened.
#[derive(Clone, Copy, Debug, Error, PartialEq, Eq)]
pub enum Fault {
    /// The file does not begin with the first sector of a disk.
    #[error("the file is not a disk")]
    NotADisk,
    /// The file has another version of the format.
    #[error("the file has version {0} of the format")]
    OtherVersion(u32),
    /// A field has a value that no file has, or a batch is not what was written.
    #[error("the file is damaged at byte {at}")]
    Damaged {
        /// The offset of the field, or of the batch's gate, in bytes.
        at: u64,
    },
}
