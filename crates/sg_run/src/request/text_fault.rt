// The faults of a tool's text. They have a type of their own, because a text can't have most faults
// of a line.
use sg_tools::ToolFault;
use thiserror::Error;

/// Why a text asks a tool for nothing. The first that applies is returned.
#[derive(Clone, Copy, Debug, Error, PartialEq, Eq)]
pub enum TextFault {
    /// A byte is neither printable ASCII nor a tab.
    #[error("a byte is neither printable ASCII nor a tab")]
    BadByte,
    /// There are more than 64 words.
    #[error("there are more than 64 words")]
    TooManyWords,
    /// There is no word, or the first is not the name of a tool.
    #[error("there is no word, or the first is not the name of a tool")]
    UnknownTool,
    /// The tool refuses its words, or memory was refused.
    #[error(transparent)]
    Refused(ToolFault),
}
