// The faults of the crates below as one enum, so that C has one number for each.
use sg_journal::Fault;
use sg_kept::{MakeError, OpenDiskError};
use sg_pages::IdentityFault;
use sg_run::{HappeningFault, TextFault};
use sg_target::ConfigFault;
use sg_tools::ToolFault;

/// The outcome of a call: it ends as it should, or is refused and changes nothing.
#[derive(Clone, Copy, Debug, PartialEq, Eq)]
pub enum Outcome {
    /// The call has done what it is for.
    Done = 0,
    /// There is no disk.
    NoDisk = 1,
    /// There is a disk already.
    DiskExists = 2,
    /// The number of blocks is not 1 to 2^40.
    BlockCount = 3,
    /// The pool has no block, or more than the profile allows: 65,536 in the base profile, and
    /// 4,294,967,295 in the extended one.
    PoolSize = 4,
    /// A text of the identity has a byte outside 20h to 7Eh.
    IdentityText = 5,
    /// The local identifier has more than 60 bits.
    IdentityLocal = 6,
    /// Memory was refused.
    OutOfMemory = 7,
    /// The disk has no such initiator, or a fault names none.
    UnknownInitiator = 8,
    /// The buffer for data-in or for data-out is too short.
    BufferTooShort = 9,
    /// Sense data can't be read. Number 10 stands for a null pointer, which C tests.
    Unreadable = 11,
    /// A byte of a text of words is neither printable ASCII nor a tab.
    BadByte = 12,
    /// A text has more than 64 words.
    TooManyWords = 13,
    /// There is no word, or the first is not the name of a tool.
    UnknownTool = 14,
    /// The words do not fit the tool or the verb.
    Usage = 15,
    /// Two options exclude one another.
    Exclusive = 16,
    /// The text of an option has no value, or one that is out of range.
    Number = 17,
    /// No profile has the number.
    UnknownProfile = 18,
    /// Nothing that happens to a disk has the number.
    UnknownHappening = 19,
    /// No unit attention condition has the code.
    UnknownCondition = 20,
    /// Nothing that a fault does has the number.
    UnknownFault = 21,
    /// The sense key of a fault is not 0 to 15.
    SenseKey = 22,
    /// A flag of a fault is not 0 or 1, or a fault that lies on no blocks is healed by writes.
    FaultFlag = 23,
    /// The number of a fault is not 0 to 7.
    FaultNumber = 24,
    /// A fault is armed under each number.
    TooManyFaults = 25,
    /// There is no word, or the first is no verb for something that happens to a disk.
    UnknownVerb = 26,
    /// A call on the disk's file failed, now or earlier.
    FileFailed = 27,
    /// The file is not a disk, or it was never completely made. Number 28 stands for a file that
    /// another program has, and number 39 for one that the system does not open. Only C returns them.
    NotADisk = 29,
    /// The file has another version of the format.
    OtherVersion = 30,
    /// A byte of the file is damaged, or a record.
    DamagedFile = 31,
    /// The file is longer than 2^60 bytes.
    FileTooLong = 32,
    /// The file's disk has another profile than was asked for.
    OtherProfile = 33,
    /// The file's disk has another number of blocks than was asked for.
    OtherBlocks = 34,
    /// The file's disk has another pool than was asked for.
    OtherPool = 35,
    /// The file's disk has other names than were asked for.
    OtherIdentity = 36,
    /// The call has done what it is for, and calls on the file wait. C makes them and returns
    /// another number.
    CallsWait = 37,
    /// No call on the file waits.
    NoCall = 38,
    /// The disk is not in a file.
    NoFile = 40,
    /// The command was executed, and its reply has to wait for a flush. Calls on the file may wait, too.
    FlushOwed = 41,
}

ghost use Rattle.std.specs.Prelude.{◌≡◌, ◌≢◌};
ghost use Rattle.sg_embed.specs.Outcome.{config_outcome, identity_outcome, making_outcome};
ghost use Rattle.sg_embed.specs.Outcome.{opening_outcome, outcome_code, text_outcome, tool_fault_outcome};
ghost use Rattle.sg_embed.specs.Words.{words_outcome};

impl Outcome {
    /// Its number in C.
    pub fn code(self) -> u32
        ensures value { result ≡ outcome_code self }
        ensures zero { result ≡ 0 → self ≡ Outcome.Done }
    {
        self as u32
    }

    /// The outcome of a refused identity.
    pub fn of_identity(fault: IdentityFault) -> Outcome
        ensures { result ≡ identity_outcome fault }
    {
        match fault {
            IdentityFault::Text => Outcome::IdentityText,
            IdentityFault::Local => Outcome::IdentityLocal,
        }
    }

    /// The outcome of a refused configuration.
    pub(crate) fn of_config(fault: ConfigFault) -> Outcome
        ensures { result ≡ config_outcome fault }
    {
        match fault {
            ConfigFault::Blocks => Outcome::BlockCount,
            ConfigFault::Pool => Outcome::PoolSize,
        }
    }

    /// The outcome of a text that asks a tool for nothing.
    pub(crate) fn of_text(fault: TextFault) -> Outcome
        ensures { result ≡ text_outcome fault }
    {
        match fault {
            TextFault::BadByte => Outcome::BadByte,
            TextFault::TooManyWords => Outcome::TooManyWords,
            TextFault::UnknownTool => Outcome::UnknownTool,
            TextFault::Refused(fault) => Outcome::of_tool(fault),
        }
    }

    /// The outcome of a text that asks for nothing that happens to a disk.
    pub(crate) fn of_words(fault: HappeningFault) -> Outcome
        ensures { result ≡ words_outcome fault }
    {
        match fault {
            HappeningFault::BadByte => Outcome::BadByte,
            HappeningFault::TooManyWords => Outcome::TooManyWords,
            HappeningFault::UnknownVerb => Outcome::UnknownVerb,
            HappeningFault::Usage => Outcome::Usage,
        }
    }

    /// The outcome of a file that was not opened.
    pub(crate) fn of_opening(error: OpenDiskError) -> Outcome
        ensures value { result ≡ opening_outcome error }
        ensures refused { result ≢ Outcome.Done }
    {
        match error {
            OpenDiskError::Memory => Outcome::OutOfMemory,
            OpenDiskError::Device => Outcome::FileFailed,
            OpenDiskError::File(Fault::NotADisk) | OpenDiskError::Unmade => Outcome::NotADisk,
            OpenDiskError::File(Fault::OtherVersion(_)) => Outcome::OtherVersion,
            OpenDiskError::File(Fault::Damaged { .. }) => Outcome::DamagedFile,
            OpenDiskError::Damaged { .. } => Outcome::DamagedFile,
            OpenDiskError::TooLong => Outcome::FileTooLong,
        }
    }

    /// The outcome of a disk that was not made in an empty file.
    pub(crate) fn of_making(error: MakeError) -> Outcome
        ensures value { result ≡ making_outcome error }
        ensures refused { result ≢ Outcome.Done }
    {
        match error {
            MakeError::Memory => Outcome::OutOfMemory,
            MakeError::Device => Outcome::FileFailed,
        }
    }

    fn of_tool(fault: ToolFault) -> Outcome
        ensures { result ≡ tool_fault_outcome fault }
    {
        match fault {
            ToolFault::Usage => Outcome::Usage,
            ToolFault::Exclusive => Outcome::Exclusive,
            ToolFault::Number => Outcome::Number,
            ToolFault::OutOfMemory => Outcome::OutOfMemory,
        }
    }
}
