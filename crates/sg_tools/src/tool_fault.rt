use thiserror::Error;

/// Why words ask a tool for nothing.
#[derive(Clone, Copy, Debug, Error, PartialEq, Eq)]
pub enum ToolFault {
    /// The tool does not take the words, a list is missing, or lists have unequal lengths or too
    /// many entries. Or an option is given without the one that it needs: `--out` of sg_persist, or
    /// `--sa` of sg_opcodes.
    #[error("the words are not those of the tool")]
    Usage,
    /// The text of an option has no value, or a value that is out of range.
    #[error("an option has no such value")]
    Number,
    /// Two options exclude one another.
    #[error("two options exclude one another")]
    Exclusive,
    /// There is not enough memory.
    #[error("there is not enough memory")]
    OutOfMemory,
}
