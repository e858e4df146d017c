// The reasons why the program ends without a status of the script, and the message for each.
ghost use Rattle.std.specs.Prelude.{◌≡◌, ◌++◌};
ghost use Rattle.sgrun.specs.Stops.{exit_status, fault_of, row_of, stop_of_disk, stop_of_making};
ghost use Rattle.sgrun.specs.NewDisk.{by_run};
ghost use Rattle.sgrun.specs.Stops.{stop_of_open, stop_of_words};

use sg_file::FileError;
use sg_kept::{MakeError, OpenDiskError};
use sg_pages::IdentityFault;
use sg_run::RunFault;
use sg_target::ConfigFault;
use sg_tools::ToolFault;
use std::alloc::AllocError;
use std::io::ErrorKind;

/// Why there is no script's status.
#[derive(Clone, Copy)]
pub(crate) enum Stop<'a> {
    /// The program does not take the words of the command line, or they ask for help.
    Usage,
    /// The text of an option is no number.
    Number,
    /// No profile has this name.
    Profile,
    /// No disk has the names of this seed.
    Seed,
    /// A disk can't have as many blocks.
    Blocks,
    /// A disk can't have a pool of this size.
    Pool,
    /// The disk in the file has another number of blocks than `--blocks` says.
    OtherBlocks,
    /// The disk in the file has another pool than `--pool` says.
    OtherPool,
    /// The disk in the file has another profile than `--profile` says.
    OtherProfile,
    /// The disk in the file has another identity than `--seed` says.
    OtherSeed,
    /// The file with this name could not be opened.
    CannotOpen(&'a str),
    /// Another program has the disk in the file with this name.
    Busy(&'a str),
    /// The file with this name has no disk, and why.
    NoDisk(&'a str, OpenDiskError),
    /// The file with this name could not be written. The disk may have lost what the script has changed.
    CannotWrite(&'a str),
    /// The script could not be read to its end.
    Read,
    /// A reply could not be written.
    Write,
    /// Memory was refused.
    OutOfMemory,
}

impl<'a> Stop<'a> {
    /// Why the words of the command line can't be read.
    pub(crate) fn of_words(kind: ErrorKind) -> Stop<'a>
        ensures { result ≡ stop_of_words kind }
    {
        match kind {
            ErrorKind::OutOfMemory => Stop::OutOfMemory,
            _ => Stop::Usage,
        }
    }

    /// Why a file can't be opened.
    pub(crate) fn of_open(file: &'a str, kind: ErrorKind) -> Stop<'a>
        ensures { result ≡ stop_of_open file.entry kind }
    {
        match kind {
            ErrorKind::OutOfMemory => Stop::OutOfMemory,
            _ => Stop::CannotOpen(file),
        }
    }

    /// Why the file of a disk can't be opened.
    pub(crate) fn of_file(file: &'a str, error: &FileError) -> Stop<'a> {
        match error {
            FileError::Busy => Stop::Busy(file),
            FileError::Io(error) => Stop::of_open(file, error.kind()),
        }
    }

    /// Why there is no disk in a file.
    pub(crate) fn of_disk(file: &'a str, error: OpenDiskError) -> Stop<'a>
        ensures { result ≡ stop_of_disk file.entry error }
    {
        match error {
            OpenDiskError::Memory => Stop::OutOfMemory,
            OpenDiskError::Device => Stop::CannotOpen(file),
            error => Stop::NoDisk(file, error),
        }
    }

    /// Why a file was not made a disk.
    pub(crate) fn of_making(file: &'a str, error: MakeError) -> Stop<'a>
        ensures { result ≡ stop_of_making file.entry error }
    {
        match error {
            MakeError::Memory => Stop::OutOfMemory,
            MakeError::Device => Stop::CannotWrite(file),
        }
    }

    /// What is wrong with the file of a disk.
    pub(crate) fn fault(self) -> Option<OpenDiskError>
        ensures { result ≡ fault_of self.entry }
    {
        match self {
            Stop::NoDisk(_, error) => Some(error),
            _ => None,
        }
    }

    /// The message to standard error, after the program's name: two texts, one after the other.
    pub(crate) fn message(self) -> (&'a str, &'a str)
        ensures { result.0.now ++ result.1.now ≡ (row_of self.entry).message }
    {
        match self {
            Stop::Usage => ("usage", ""),
            Stop::Number => ("number", ""),
            Stop::Profile => ("profile", ""),
            Stop::Seed => ("seed", ""),
            Stop::Blocks => ("blocks", ""),
            Stop::Pool => ("pool", ""),
            Stop::OtherBlocks => ("blocks differ", ""),
            Stop::OtherPool => ("pool differs", ""),
            Stop::OtherProfile => ("profile differs", ""),
            Stop::OtherSeed => ("seed differs", ""),
            Stop::CannotOpen(file) => ("cannot open ", file),
            Stop::Busy(file) => ("in use: ", file),
            Stop::NoDisk(file, _) => ("cannot open ", file),
            Stop::CannotWrite(file) => ("cannot write ", file),
            Stop::Read => ("read fault", ""),
            Stop::Write => ("write fault", ""),
            Stop::OutOfMemory => ("out of memory", ""),
        }
    }

    fn status(self) -> u8
        ensures { result ≡ (row_of self.entry).status }
    {
        match self {
            Stop::Usage | Stop::Number => 1,
            Stop::Profile | Stop::Seed | Stop::Blocks | Stop::Pool => 1,
            Stop::OtherBlocks | Stop::OtherPool | Stop::OtherProfile | Stop::OtherSeed => 1,
            Stop::CannotOpen(_) | Stop::Read | Stop::Write => 15,
            Stop::Busy(_) | Stop::NoDisk(_, _) | Stop::CannotWrite(_) => 15,
            Stop::OutOfMemory => 99,
        }
    }
}

impl From<AllocError> for Stop<'_> {
    ghost use Rattle.sgrun.specs.declared.stop.Stop.TheVariants.{OutOfMemory};

    ghost from_gives = { λ _ stop. stop ≡ OutOfMemory };

    fn from(_error: AllocError) -> Self {
        Stop::OutOfMemory
    }
}

impl From<ToolFault> for Stop<'_> {
    ghost use Rattle.sgrun.specs.Stops.{stop_of_options};

    ghost from_gives = { λ fault stop. stop ≡ stop_of_options fault };

    fn from(fault: ToolFault) -> Self {
        match fault {
            ToolFault::OutOfMemory => Stop::OutOfMemory,
            ToolFault::Usage | ToolFault::Number | ToolFault::Exclusive => Stop::Usage,
        }
    }
}

impl From<IdentityFault> for Stop<'_> {
    ghost use Rattle.sgrun.specs.Stops.{stop_of_identity};

    ghost from_gives = { λ fault stop. stop ≡ stop_of_identity fault };

    fn from(_fault: IdentityFault) -> Self {
        Stop::Seed
    }
}

impl From<ConfigFault> for Stop<'_> {
    ghost use Rattle.sgrun.specs.Stops.{stop_of_config};

    ghost from_gives = { λ fault stop. stop ≡ stop_of_config fault };

    fn from(fault: ConfigFault) -> Self {
        match fault {
            ConfigFault::Blocks => Stop::Blocks,
            ConfigFault::Pool => Stop::Pool,
        }
    }
}

impl From<RunFault> for Stop<'_> {
    ghost use Rattle.sgrun.specs.Stops.{stop_of_run};

    ghost from_gives = { λ fault stop. stop ≡ stop_of_run fault };

    fn from(fault: RunFault) -> Self {
        match fault {
            RunFault::Read => Stop::Read,
            RunFault::Write => Stop::Write,
        }
    }
}

/// The program's exit status: the status of the script, or the status of the stop.
pub(crate) fn exit_status(outcome: Result<u8, Stop>) -> u8
    ensures { result ≡ exit_status outcome.entry }
{
    match outcome {
        Ok(status) => status,
        Err(stop) => stop.status(),
    }
}

/// The outcome of a run. This is a function of its own, so that the session is dropped in one
/// place: the prover follows that once.
pub(crate) fn outcome_of_run<'a>(ran: Result<u8, RunFault>) -> Result<u8, Stop<'a>>
    ensures { result ≡ by_run ran }
{
    Ok(ran?)
}
