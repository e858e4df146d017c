// The memory for a line that no single read brought whole, with its LF.
use crate::buffers::zeroed;
use std::alloc::{AllocError, Global};
use std::marker::Model;

/// The most bytes that a line may have, without its LF.
pub(crate) const LONGEST_LINE: usize = 4_096;

/// The bytes of a line, at most 4,096, or a mark that there were more.
#[derive(Drop)]
pub(crate) struct Line {
    bytes: Vec<u8>,
    len: usize,
    is_too_long: bool,
}

impl Model for Line {
    ghost use Rattle.std.specs.Prelude.{ℕ, List, Option, Some, None, take, vec_len, ◌≡◌, ◌≤◌, if◌then◌else◌};
    ghost use Rattle.sg_run.specs.Limits.{longest_line};

    ghost Value = { Option (List ℕ) };

    ghost view = { λ l. if l.is_too_long then None else Some (take l.len l.bytes.items) };

    ghost invariant = { λ l. (l.len ≤ longest_line) × (vec_len l.bytes ≡ longest_line) };
}

ghost use Rattle.std.specs.Prelude.{◌≡◌, [], Some, option_map, length, IfOk, IfSome, ◌≤◌};
ghost use Rattle.sg_run.specs.Limits.{longest_line};
ghost use Rattle.sg_run.specs.LineReading.{extended};

impl Line {
    /// An empty line, which takes 4,096 bytes of memory.
    ///
    /// # Errors
    /// Memory was refused.
    pub(crate) fn new(alloc: Global) -> Result<Line, AllocError>
        ensures { IfOk result (λ line. line ≡ Some []) }
    {
        Ok(Line {
            bytes: zeroed(alloc, LONGEST_LINE)?,
            len: 0,
            is_too_long: false,
        })
    }

    /// Makes the line empty.
    pub(crate) fn clear(&mut self)
        ensures { self.new ≡ Some [] }
    {
        self.len = 0;
        self.is_too_long = false;
    }

    /// Puts more bytes at the end. With more than 4,096 the line is too long.
    pub(crate) fn extend(&mut self, more: &[u8])
        ensures { self.new ≡ extended self.old more.now }
    {
        if more.len() > LONGEST_LINE - self.len {
            self.is_too_long = true;
            return;
        }
        let end = self.len + more.len();
        self.bytes[self.len..end].copy_from_slice(more);
        self.len = end;
    }

    /// The bytes, or `None` if the line is too long.
    pub(crate) fn bytes(&self) -> Option<&[u8]>
        ensures bytes { option_map (λ b. b.now) result ≡ self.now }
        ensures bound { IfSome (option_map (λ b. b.now) result) (λ bytes.
            length bytes ≤ longest_line) }
    {
        if self.is_too_long {
            None
        } else {
            Some(&self.bytes[..self.len])
        }
    }
}
