// The faults of a line, with the message and the exit status of each.
ghost use Rattle.std.specs.Prelude.{◌≡◌};
ghost use Rattle.sg_run.specs.LineFault.{fault_message, fault_of_tool, fault_status};

use sg_tools::ToolFault;

/// Why a line is refused. The first that applies is returned.
#[derive(Clone, Copy)]
pub(crate) enum LineFault {
    /// The line has more than 4,096 bytes.
    TooLong,
    /// A byte is neither printable ASCII nor a tab.
    BadByte,
    /// The line has more than 64 words.
    TooManyWords,
    /// The first word is no verb.
    UnknownVerb,
    /// The second word is not the name of a tool.
    UnknownTool,
    /// The verb takes another number of words, or the tool other words.
    Usage,
    /// The disk has no initiator of this word.
    Initiator,
    /// A word names no kind of answer.
    Kind,
    /// A word does not consist of hexadecimal digits, two a byte.
    Hex,
    /// Two options exclude one another.
    Exclusive,
    /// A word or the text of an option has no value, or a value that is too large.
    Number,
    /// Memory was refused.
    OutOfMemory,
}

impl LineFault {
    /// Why the words of a tool are refused.
    pub(crate) fn of_tool(fault: ToolFault) -> LineFault
        ensures { result ≡ fault_of_tool fault }
    {
        match fault {
            ToolFault::Usage => LineFault::Usage,
            ToolFault::Exclusive => LineFault::Exclusive,
            ToolFault::Number => LineFault::Number,
            ToolFault::OutOfMemory => LineFault::OutOfMemory,
        }
    }

    /// The message about it.
    pub(crate) fn message(self) -> &'static [u8]
        ensures { result.now ≡ fault_message self }
    {
        match self {
            LineFault::TooLong => b"too long",
            LineFault::BadByte => b"bad byte",
            LineFault::TooManyWords => b"too many words",
            LineFault::UnknownVerb => b"unknown verb",
            LineFault::UnknownTool => b"unknown tool",
            LineFault::Usage => b"usage",
            LineFault::Initiator => b"initiator",
            LineFault::Kind => b"kind",
            LineFault::Hex => b"hex",
            LineFault::Exclusive => b"exclusive",
            LineFault::Number => b"number",
            LineFault::OutOfMemory => b"out of memory",
        }
    }

    /// The exit status of the line.
    pub(crate) fn status(self) -> u8
        ensures { result ≡ fault_status self }
    {
        match self {
            LineFault::OutOfMemory => 99,
            _ => 1,
        }
    }
}
