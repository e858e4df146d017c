// The text of a line. For a reply it is a first line with the status, a line of sense data, and the
// data-in.
ghost use Rattle.std.specs.Prelude.{◌≡◌, ◌≤◌, length, option_map};
ghost use Rattle.sg_wire.specs.Printer.{PrintsText};
ghost use Rattle.sg_wire.specs.Sense.{fields_of};
ghost use Rattle.sg_wire.specs.SenseReading.{read_sense};
ghost use Rattle.sg_decode.specs.HexText.{gathered_text};
ghost use Rattle.sg_target.specs.Status.{status_code};
ghost use Rattle.sg_tools.specs.ExitStatus.{exit_status};
ghost use Rattle.sg_run.specs.Outcome.{line_header, reply_text, sense_lines, status_name};

pub(crate) mod answer;
pub(crate) mod faults;

use answer::put_answer;
use sg_decode::{put_number, put_read_sense};
use sg_target::{Reply, Status};
use sg_tools::{Show, exit_status};
use sg_wire::{Printer, Sense};
use std::io::Write;

/// Prints a message about the line with this number, as in `line 12: GOOD`.
#[tactic(auto, using(crate::proofs::TextLemmas::prints))]
#[inline(always)]
pub(crate) fn put_line_header<W: Write>(number: u64, message: &[u8], out: &mut Printer<'_, W>)
    ensures { PrintsText W.contents out.old out.new (line_header number message.now) }
{
    out.put(b"line ");
    put_number(number, out);
    out.put(b": ");
    out.put(message);
    out.put(b"\n");
}

/// Prints a reply: its status, its sense data and, under GOOD, its data-in. Returns the exit status
/// of the reply. The lines of data-in are gathered in `lines`.
#[tactic(auto, using(crate::proofs::TextLemmas::prints))]
#[inline(always)]
pub(crate) fn put_reply<W: Write>(
    number: u64,
    reply: &Reply,
    show: Show,
    data_in: &[u8],
    lines: &mut [u8],
    out: &mut Printer<'_, W>,
) -> u8
    requires lines { gathered_text ≤ length lines.old }
    ensures text { PrintsText W.contents out.old out.new
        (reply_text number show reply.now.status reply.now.sense data_in.now) }
    ensures status { result
        ≡ exit_status (status_code reply.now.status) (read_sense reply.now.sense) }
{
    let sense = Sense::read(reply.sense.as_slice());
    put_line_header(number, status_name(reply.status), out);
    put_reply_sense(reply.sense.as_slice(), sense, out);
    if let Status::Good = reply.status {
        put_answer(show, data_in, lines, out);
        return 0;
    }
    exit_status(reply.status.code(), sense)
}

fn status_name(status: Status) -> &'static [u8]
    ensures { result.now ≡ status_name status }
{
    match status {
        Status::Good => b"GOOD",
        Status::CheckCondition => b"CHECK CONDITION",
        Status::ReservationConflict => b"RESERVATION CONFLICT",
        Status::Busy => b"BUSY",
        Status::TaskSetFull => b"TASK SET FULL",
        Status::NoReply => b"NO REPLY",
    }
}

/// Prints the line of sense data, if there is some. `sense` was read from it before, because the
/// exit status needs it too. It is `None` if the sense data could not be read.
#[tactic(auto, using(crate::proofs::TextLemmas::prints), unfolding(sg_decode::specs::SenseText::sense_line))]
fn put_reply_sense<W: Write>(bytes: &[u8], sense: Option<Sense>, out: &mut Printer<'_, W>)
    requires { option_map fields_of sense ≡ read_sense bytes.now }
    ensures { PrintsText W.contents out.old out.new (sense_lines bytes.now) }
{
    if !bytes.is_empty() {
        put_read_sense(sense, out);
    }
}
