// Takes the lines of a script from its reader. The LF of a line is found among the bytes ahead, and
// more are read if there is none.
ghost use Rattle.std.specs.Prelude.{◌≡◌, ◌<◌, ◌≤◌, length, false, option_map, IfSome};
ghost use Rattle.sg_wire.specs.Watched.{has_failed};
ghost use Rattle.sg_run.specs.Limits.{longest_line, longest_read_ahead};
ghost use Rattle.sg_run.specs.LineReading.{TakesAhead, TakesIfWhole, TakesLine, line_of, to_come};

pub(crate) mod line;
pub(crate) mod read_ahead;

use line::Line;
use memchr::memchr;
use read_ahead::ReadAhead;
use sg_wire::Watched;
use std::io;
use std::io::{Error, ErrorKind, Read};

/// The end of the next line of a script.
#[derive(Clone, Copy, PartialEq)]
pub(crate) enum NextLine {
    /// An LF ends it, and it stays in the bytes that were read: `ReadAhead::line`.
    Ahead,
    /// An LF ends it, and its parts were copied to the `Line`.
    Whole,
    /// The script ends after it, and its parts were copied to the `Line`.
    Last,
    /// The script has ended, and there is no line.
    End,
}

/// Takes the bytes that are ahead, at most `left`, up to the LF that ends the line. Returns whether
/// the LF is among them.
fn take_part(read_ahead: &mut ReadAhead, line: &mut Line, left: &mut u32) -> bool
    requires ahead { 0 < length read_ahead.old.ahead }
    requires allowed { 0 < left.old }
    ensures takes { TakesAhead read_ahead.old.ahead read_ahead.new.ahead
        line.old line.new left.old left.new result }
    ensures shorter { length read_ahead.new.ahead ≤ length read_ahead.old.ahead }
{
    let ahead = read_ahead.bytes();
    let allowed = ahead.len().min(*left as usize);
    let part = &ahead[..allowed];
    match memchr(b'\n', part) {
        Some(len) => {
            line.extend(&part[..len]);
            read_ahead.skip(len + 1);
            *left -= (len + 1) as u32;
            true
        }
        None => {
            line.extend(part);
            read_ahead.skip(allowed);
            *left -= allowed as u32;
            false
        }
    }
}

/// Takes the next line if it is whole among the bytes that are ahead, at most `left`, and returns
/// whether it is. The line stays in its place: most lines are not copied.
fn take_whole(read_ahead: &mut ReadAhead, left: &mut u32) -> bool
    ensures takes { TakesIfWhole read_ahead.old read_ahead.new left.old left.new result }
    ensures within { length read_ahead.new.ahead ≤ longest_read_ahead }
{
    let ahead = read_ahead.bytes();
    let allowed = ahead.len().min(*left as usize);
    let Some(len) = memchr(b'\n', &ahead[..allowed]) else {
        return false;
    };
    read_ahead.take_line(len);
    *left -= (len + 1) as u32;
    true
}

/// Takes the next line of a script, of at most `left` more bytes. [`line_bytes`] has its bytes.
///
/// # Errors
/// The script has more bytes than `left`, or the reader failed.
#[tactic(auto, using(crate::proofs::Lemmas::parts))]
#[inline(always)]
pub(crate) fn next_line<R: Read>(
    reader: &mut Watched<R>,
    read_ahead: &mut ReadAhead,
    line: &mut Line,
    left: &mut u32,
) -> io::Result<NextLine>
    requires { has_failed reader.old ≡ false }
    ensures takes { TakesLine
        (to_come R.remaining read_ahead.old.ahead reader.old)
        (to_come R.remaining read_ahead.new.ahead reader.new)
        (line_of read_ahead.new line.new) left.old left.new
        read_ahead.new.ahead (has_failed reader.new) result }
    ensures within { length read_ahead.new.ahead ≤ longest_read_ahead }
{
    if take_whole(read_ahead, left) {
        return Ok(NextLine::Ahead);
    }
    line.clear();
    let before = *left;
    while read_ahead.refill(reader)? {
        if *left == 0 {
            return Err(Error::from(ErrorKind::FileTooLarge));
        }
        if take_part(read_ahead, line, left) {
            return Ok(NextLine::Whole);
        }
    }
    if *left < before {
        Ok(NextLine::Last)
    } else {
        Ok(NextLine::End)
    }
}

/// The bytes of the line that `next_line` took, or `None` if it is too long.
pub(crate) fn line_bytes<'a>(
    next: NextLine,
    read_ahead: &'a ReadAhead,
    line: &'a Line,
) -> Option<&'a [u8]>
    ensures bytes { option_map (λ b. b.now) result ≡ line_of read_ahead.now line.now next }
    ensures bound { IfSome (option_map (λ b. b.now) result) (λ bytes. length bytes ≤ longest_line) }
{
    match next {
        NextLine::Ahead => read_ahead.line(),
        NextLine::Whole | NextLine::Last | NextLine::End => line.bytes(),
    }
}
