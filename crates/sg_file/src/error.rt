// Why a file cannot be opened.
use std::fs::TryLockError;
use std::io;
use thiserror::Error;

/// The reason why a file was not opened. Nothing was written then.
#[derive(Debug, Drop, Error)]
pub enum FileError {
    /// The system refused a call.
    #[error("{0}")]
    Io(io::Error),
    /// Another program or another handle has the file open.
    #[error("the file is busy")]
    Busy,
}

impl From<io::Error> for FileError {
    fn from(error: io::Error) -> FileError {
        FileError::Io(error)
    }
}

impl From<TryLockError> for FileError {
    fn from(error: TryLockError) -> FileError {
        match error {
            TryLockError::WouldBlock => FileError::Busy,
            TryLockError::Error(error) => FileError::Io(error),
        }
    }
}
