// A call that waits.
ghost use Rattle.std.specs.Prelude.{◌≡◌};
ghost use Rattle.sg_queue.specs.QueuedCall.{number_of};

/// What a call does. [`SystemFile`](sg_file::SystemFile) has the method of each kind.
#[derive(Clone, Copy, Debug, PartialEq, Eq)]
pub enum CallKind {
    /// Writes bytes at an offset of the file.
    Write,
    /// Makes the file as long as a number.
    Cut,
    /// Waits until what was written to the file is on its disk, and its length.
    Sync,
    /// Makes an empty file for the draft.
    BeginDraft,
    /// Writes bytes to the end of the draft.
    WriteDraft,
    /// Puts the draft in the place of the file. The draft's bytes are on the disk before that.
    Exchange,
}

impl CallKind {
    /// Its number: 1 for a write, and so on, in the order above.
    pub fn number(self) -> u64
        ensures { result ≡ number_of self }
    {
        match self {
            CallKind::Write => 1,
            CallKind::Cut => 2,
            CallKind::Sync => 3,
            CallKind::BeginDraft => 4,
            CallKind::WriteDraft => 5,
            CallKind::Exchange => 6,
        }
    }
}

/// A call that is taken out of the queue, to be made. Its bytes are in the buffer of whoever took it.
#[derive(Clone, Copy, Debug, PartialEq, Eq)]
pub struct QueuedCall {
    /// What the call does.
    pub kind: CallKind,
    /// The offset of a write, in bytes, or the length of a cut. Otherwise 0.
    pub place: u64,
    /// The number of its bytes, for a write to the file or to the draft. Otherwise 0.
    pub length: usize,
}
