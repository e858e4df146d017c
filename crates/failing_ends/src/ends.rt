// A reader and a writer that go in steps and fail once, and a reader of zeros.
use std::alloc::Global;
use std::io;
use std::io::{Error, ErrorKind, Read, Write};

/// All kinds of errors.
pub(crate) const KINDS: [ErrorKind; 42] = [
    ErrorKind::NotFound,
    ErrorKind::PermissionDenied,
    ErrorKind::ConnectionRefused,
    ErrorKind::ConnectionReset,
    ErrorKind::HostUnreachable,
    ErrorKind::NetworkUnreachable,
    ErrorKind::ConnectionAborted,
    ErrorKind::NotConnected,
    ErrorKind::AddrInUse,
    ErrorKind::AddrNotAvailable,
    ErrorKind::NetworkDown,
    ErrorKind::BrokenPipe,
    ErrorKind::AlreadyExists,
    ErrorKind::WouldBlock,
    ErrorKind::NotADirectory,
    ErrorKind::IsADirectory,
    ErrorKind::DirectoryNotEmpty,
    ErrorKind::ReadOnlyFilesystem,
    ErrorKind::FilesystemLoop,
    ErrorKind::StaleNetworkFileHandle,
    ErrorKind::InvalidInput,
    ErrorKind::InvalidData,
    ErrorKind::TimedOut,
    ErrorKind::WriteZero,
    ErrorKind::StorageFull,
    ErrorKind::NotSeekable,
    ErrorKind::QuotaExceeded,
    ErrorKind::FileTooLarge,
    ErrorKind::ResourceBusy,
    ErrorKind::ExecutableFileBusy,
    ErrorKind::Deadlock,
    ErrorKind::CrossesDevices,
    ErrorKind::TooManyLinks,
    ErrorKind::InvalidFilename,
    ErrorKind::ArgumentListTooLong,
    ErrorKind::Interrupted,
    ErrorKind::Unsupported,
    ErrorKind::UnexpectedEof,
    ErrorKind::OutOfMemory,
    ErrorKind::InProgress,
    ErrorKind::Other,
    ErrorKind::Uncategorized,
];

/// The way a call fails.
#[derive(Clone, Copy)]
pub(crate) enum Failure {
    /// A write takes no byte.
    TakesNone,
    Error(ErrorKind),
}

/// The number of bytes that pass at each call, and the call that fails. The calls after it succeed.
#[derive(Clone, Copy)]
pub(crate) struct Pace {
    /// The most bytes of a call.
    step: usize,
    /// The bytes that pass before the call that fails.
    left: usize,
    failure: Option<Failure>,
    /// The number of calls, and the number of calls after the failed call.
    pub(crate) calls: usize,
    pub(crate) calls_after: usize,
}

impl Pace {
    /// No call fails.
    pub(crate) fn steady(step: usize) -> Pace {
        Pace {
            step,
            left: usize::MAX,
            failure: None,
            calls: 0,
            calls_after: 0,
        }
    }

    /// The call after `left` bytes fails.
    pub(crate) fn failing(step: usize, left: usize, failure: Failure) -> Pace {
        let mut pace = Pace::steady(step);
        pace.left = left;
        pace.failure = Some(failure);
        pace
    }

    /// Counts the next call, and returns how many of some bytes pass.
    fn pass(&mut self, bytes: usize) -> io::Result<usize> {
        let has_failed = self.failure.is_none() && self.left == 0;
        self.calls = self.calls.saturating_add(1);
        self.calls_after = self.calls_after.saturating_add(usize::from(has_failed));
        match self.failure {
            Some(failure) if self.left == 0 && bytes > 0 => {
                self.failure = None;
                match failure {
                    Failure::TakesNone => Ok(0),
                    Failure::Error(kind) => Err(Error::from(kind)),
                }
            }
            Some(_) => {
                let count = bytes.min(self.step).min(self.left);
                self.left = self.left.saturating_sub(count);
                Ok(count)
            }
            None => Ok(bytes.min(self.step)),
        }
    }
}

/// Delivers a script.
#[derive(Drop)]
pub(crate) struct Pieces<'a> {
    rest: &'a [u8],
    pub(crate) pace: Pace,
}

impl<'a> Pieces<'a> {
    pub(crate) fn new(script: &'a [u8], pace: Pace) -> Pieces<'a> {
        Pieces { rest: script, pace }
    }
}

impl<'a> Read for Pieces<'a> {
    fn read(&mut self, buf: &mut [u8]) -> io::Result<usize> {
        let rest = self.rest;
        let count = self.pace.pass(buf.len())?.min(rest.len()).min(buf.len());
        buf[..count].copy_from_slice(&rest[..count]);
        self.rest = &rest[count..];
        Ok(count)
    }
}

/// Delivers zeros.
#[derive(Drop)]
pub(crate) struct Zeros {
    pub(crate) left: u64,
}

impl Read for Zeros {
    fn read(&mut self, buf: &mut [u8]) -> io::Result<usize> {
        let left = usize::try_from(self.left).unwrap_or(usize::MAX);
        let count = buf.len().min(left);
        buf[..count].fill(0);
        self.left = self.left.saturating_sub(count as u64);
        Ok(count)
    }
}

/// Keeps the bytes that it takes.
#[derive(Drop)]
pub(crate) struct Sink {
    pub(crate) held: Vec<u8>,
    pub(crate) pace: Pace,
}

impl Sink {
    pub(crate) fn new(alloc: Global, pace: Pace) -> Sink {
        Sink {
            held: Vec::new(alloc),
            pace,
        }
    }
}

impl Write for Sink {
    fn write(&mut self, buf: &[u8]) -> io::Result<usize> {
        let count = self.pace.pass(buf.len())?.min(buf.len());
        self.held.extend_from_slice(&buf[..count])?;
        Ok(count)
    }

    fn flush(&mut self) -> io::Result<()> {
        Ok(())
    }
}
