// The bytes read ahead of the line that is being taken.
use super::line::LONGEST_LINE;
use crate::buffers::zeroed;
use sg_wire::Watched;
use std::alloc::{AllocError, Global};
use std::io;
use std::io::Read;
use std::marker::Model;

/// The most bytes that one read takes.
const LONGEST_READ_AHEAD: usize = 131_072;

/// Bytes of a script that were read and are still to be taken, and the last line that was taken
/// whole from them.
#[derive(Drop)]
pub(crate) struct ReadAhead {
    bytes: Vec<u8>,
    line_start: usize,
    line_end: usize,
    start: usize,
    end: usize,
}

impl Model for ReadAhead {
    ghost use Rattle.std.specs.Prelude.{slice_range, vec_len, ◌≡◌, ◌≤◌};
    ghost use Rattle.sg_run.specs.Limits.{longest_read_ahead};
    ghost use Rattle.sg_run.specs.Window.{Window};

    ghost Value = { Window };

    ghost view = { λ a. record {
      line = slice_range a.bytes.items a.line_start a.line_end;
      ahead = slice_range a.bytes.items a.start a.end;
    } };

    ghost invariant = { λ a. (a.start ≤ a.end) × (a.end ≤ longest_read_ahead)
        × (a.line_start ≤ a.line_end) × (a.line_end ≤ longest_read_ahead)
        × (vec_len a.bytes ≡ longest_read_ahead) };
}

ghost use Rattle.std.specs.Prelude.{◌≡◌, ◌<◌, ◌≤◌, ◌+◌, ◌↔◌, [], false, length, take, drop};
ghost use Rattle.std.specs.Prelude.{option_map, IfOk, IfSome, IsTrue};
ghost use Rattle.sg_wire.specs.Watched.{has_failed, inner_of};
ghost use Rattle.sg_run.specs.Limits.{longest_line, longest_read_ahead};
ghost use Rattle.sg_run.specs.Lines.{kept};
ghost use Rattle.sg_run.specs.LineReading.{ReadsMore, Refills, to_come};

impl ReadAhead {
    /// No byte yet, and room for 131,072.
    ///
    /// # Errors
    /// Memory was refused.
    pub(crate) fn new(alloc: Global) -> Result<ReadAhead, AllocError>
        ensures { IfOk result (λ read. read.ahead ≡ []) }
    {
        Ok(ReadAhead {
            bytes: zeroed(alloc, LONGEST_READ_AHEAD)?,
            line_start: 0,
            line_end: 0,
            start: 0,
            end: 0,
        })
    }

    /// Drops all the bytes.
    pub(crate) fn clear(&mut self)
        ensures { self.new.ahead ≡ [] }
    {
        self.start = self.end;
    }

    /// The bytes.
    pub(crate) fn bytes(&self) -> &[u8]
        ensures bytes { result.now ≡ self.now.ahead }
        ensures within { length self.now.ahead ≤ longest_read_ahead }
    {
        &self.bytes[self.start..self.end]
    }

    /// The line that `take_line` took last, or `None` if it is too long. A read overwrites it.
    pub(crate) fn line(&self) -> Option<&[u8]>
        ensures bytes { option_map (λ b. b.now) result ≡ kept self.now.line }
        ensures bound { IfSome (option_map (λ b. b.now) result) (λ bytes.
            length bytes ≤ longest_line) }
    {
        let line = &self.bytes[self.line_start..self.line_end];
        if line.len() > LONGEST_LINE {
            None
        } else {
            Some(line)
        }
    }

    /// Takes a line of `len` bytes and the LF after it.
    pub(crate) fn take_line(&mut self, len: usize)
        requires { len < length self.old.ahead }
        ensures line { self.new.line ≡ take len self.old.ahead }
        ensures ahead { self.new.ahead ≡ drop (len + 1) self.old.ahead }
    {
        self.line_start = self.start;
        self.line_end = self.start + len;
        self.start = self.line_end + 1;
    }

    /// Drops the first `count` bytes.
    pub(crate) fn skip(&mut self, count: usize)
        requires { count ≤ length self.old.ahead }
        ensures { self.new.ahead ≡ drop count self.old.ahead }
    {
        self.start += count;
    }

    fn is_empty(&self) -> bool
        ensures empty { IsTrue result ↔ (self.now.ahead ≡ []) }
        ensures within { length self.now.ahead ≤ longest_read_ahead }
    {
        self.bytes().is_empty()
    }

    /// Reads once, over the bytes that are present.
    fn read_more<R: Read>(&mut self, reader: &mut Watched<R>) -> io::Result<()>
        requires { has_failed reader.old ≡ false }
        ensures reads { ReadsMore
            (R.remaining (inner_of reader.old)) (R.remaining (inner_of reader.new))
            self.new.ahead (has_failed reader.new) result }
        ensures within { length self.new.ahead ≤ longest_read_ahead }
    {
        self.start = 0;
        self.end = 0;
        self.end = reader.read(&mut self.bytes)?;
        Ok(())
    }

    /// Reads once if no byte is ahead. Returns whether a byte is ahead now. At the end of the
    /// script there is none.
    ///
    /// # Errors
    /// The reader failed.
    #[tactic(auto, using(crate::proofs::Lemmas::refills))]
    pub(crate) fn refill<R: Read>(&mut self, reader: &mut Watched<R>) -> io::Result<bool>
        requires { has_failed reader.old ≡ false }
        ensures refills { Refills
            (to_come R.remaining self.old.ahead reader.old)
            (to_come R.remaining self.new.ahead reader.new)
            self.new.ahead (has_failed reader.new) result }
        ensures within { length self.new.ahead ≤ longest_read_ahead }
    {
        if self.is_empty() {
            self.read_more(reader)?;
        }
        Ok(!self.is_empty())
    }
}
