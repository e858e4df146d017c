// REPORT SUPPORTED OPERATION CODES (SPC-4, 6.35) and REPORT SUPPORTED TASK MANAGEMENT FUNCTIONS (SPC-4,
// 6.36).
ghost use Rattle.std.specs.Prelude.{◌≡◌, ◌≤◌, ◌<◌, ◌^◌, Some, length};
ghost use Rattle.sg_wire.specs.Printer.{PrintsText};
ghost use Rattle.sg_decode.specs.Items.{all_shown, decoded, shown};
ghost use Rattle.sg_decode.specs.SupportedOperations.{all_commands, one_command, one_command_body};
ghost use Rattle.sg_decode.specs.SupportedOperations.{one_command_end, task_management, usage_items};

use crate::entry::{EntryKind, TIMEOUTS_LENGTH};
use crate::items::{is_shown, show_entries, show_lines};
use crate::line::put_line;
use crate::value::{Field, Value, number_of_four, number_of_two};
use sg_wire::Printer;
use std::io::Write;

const COMMAND_DATA_LENGTH: [&[Field]; 1] = [&[Field(
    b"  command data length: ",
    Value::Number(0, 4),
)]];

const COMMAND_SUPPORT: [&[Field]; 2] = [
    &[
        Field(b"  support: ", Value::Bits(1, 2, 0)),
        Field(b", CTDP: ", Value::Bits(1, 7, 7)),
    ],
    &[Field(b"  CDB size: ", Value::Number(2, 2))],
];

const USAGE: &[Field] = &[Field(b"  CDB usage: ", Value::HexFrom(0))];

/// CTDP, a bit of byte 1 of the data about one command (SPC-4, 6.35.3): timeouts follow.
const CTDP: u8 = 0x80;

const FUNCTIONS: [&[Field]; 3] = [
    &[
        Field(b"  ATS: ", Value::Bits(0, 7, 7)),
        Field(b", ATSS: ", Value::Bits(0, 6, 6)),
        Field(b", CACAS: ", Value::Bits(0, 5, 5)),
        Field(b", CTSS: ", Value::Bits(0, 4, 4)),
        Field(b", LURS: ", Value::Bits(0, 3, 3)),
        Field(b", QTS: ", Value::Bits(0, 2, 2)),
    ],
    &[
        Field(b"  QAES: ", Value::Bits(1, 2, 2)),
        Field(b", QTSS: ", Value::Bits(1, 1, 1)),
        Field(b", ITNRS: ", Value::Bits(1, 0, 0)),
    ],
    &[Field(b"  additional length: ", Value::Number(3, 1))],
];

const TIMEOUTS: [&[Field]; 5] = [
    &[Field(b"  TMFTMOV: ", Value::Bits(4, 0, 0))],
    &[
        Field(b"  ATTS: ", Value::Bits(6, 7, 7)),
        Field(b", ATSTS: ", Value::Bits(6, 6, 6)),
        Field(b", CACATS: ", Value::Bits(6, 5, 5)),
        Field(b", CTSTS: ", Value::Bits(6, 4, 4)),
        Field(b", LURTS: ", Value::Bits(6, 3, 3)),
        Field(b", QTTS: ", Value::Bits(6, 2, 2)),
    ],
    &[
        Field(b"  QAETS: ", Value::Bits(7, 2, 2)),
        Field(b", QTSTS: ", Value::Bits(7, 1, 1)),
        Field(b", ITNRTS: ", Value::Bits(7, 0, 0)),
    ],
    &[Field(b"  long timeout: ", Value::Number(8, 4))],
    &[Field(b"  short timeout: ", Value::Number(12, 4))],
];

/// Prints the data of REPORT SUPPORTED OPERATION CODES about all commands (SPC-4, 6.35.2).
pub fn put_all_commands<W: Write>(bytes: &[u8], out: &mut Printer<'_, W>)
    ensures { PrintsText W.contents out.old out.new (decoded all_commands bytes.now) }
{
    if show_lines(&COMMAND_DATA_LENGTH, None, bytes, out) {
        let end = 4 + number_of_four(0, bytes);
        show_entries(EntryKind::CommandDescriptors, 4, end, bytes, out);
    }
}

/// Prints the data of REPORT SUPPORTED OPERATION CODES about one command (SPC-4, 6.35.3).
pub fn put_one_command<W: Write>(bytes: &[u8], out: &mut Printer<'_, W>)
    ensures { PrintsText W.contents out.old out.new (decoded one_command bytes.now) }
{
    if show_lines(&COMMAND_SUPPORT, None, bytes, out) {
        let size = number_of_two(2, bytes);
        show_usage_and_timeouts(size, one_command_end(bytes), bytes, out);
    }
}

/// The end of the data about one command, by its CDB SIZE and its CTDP.
fn one_command_end(bytes: &[u8]) -> usize
    requires { 4 ≤ length bytes.now }
    ensures value { result ≡ one_command_end bytes.now }
    ensures bound { result ≤ 2 ^ 17 }
{
    let timeouts = if bytes[1] & CTDP == 0 {
        0
    } else {
        TIMEOUTS_LENGTH
    };
    4 + number_of_two(2, bytes) + timeouts
}

fn show_usage_and_timeouts<W: Write>(
    size: usize,
    end: usize,
    bytes: &[u8],
    out: &mut Printer<'_, W>,
)
    requires size { size < 2 ^ 16 }
    requires end { end ≤ 2 ^ 17 }
    requires header { 4 ≤ length bytes.now }
    ensures { PrintsText W.contents out.old out.new
        (shown (Some end) bytes.now (one_command_body size bytes.now)) }
{
    if show_usage(size, end, bytes, out) {
        show_entries(EntryKind::Timeouts, 4 + size, end, bytes, out);
    }
}

/// Shows CDB USAGE DATA, if there is some, and returns whether timeouts can follow.
fn show_usage<W: Write>(size: usize, end: usize, bytes: &[u8], out: &mut Printer<'_, W>) -> bool
    requires size { size < 2 ^ 16 }
    ensures verdict { result ≡ all_shown (Some end) bytes.now (usage_items size) }
    ensures text { PrintsText W.contents out.old out.new
        (shown (Some end) bytes.now (usage_items size)) }
{
    if size == 0 {
        return true;
    }
    if !is_shown(4 + size, Some(end), bytes, out) {
        return false;
    }
    put_line(USAGE, &bytes[4..4 + size], out);
    true
}

/// Prints the data of REPORT SUPPORTED TASK MANAGEMENT FUNCTIONS (SPC-4, 6.36).
pub fn put_task_management<W: Write>(bytes: &[u8], out: &mut Printer<'_, W>)
    ensures { PrintsText W.contents out.old out.new (decoded task_management bytes.now) }
{
    if show_lines(&FUNCTIONS, None, bytes, out) {
        show_lines(&TIMEOUTS, Some(4 + usize::from(bytes[3])), bytes, out);
    }
}
