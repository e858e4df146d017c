// Log pages (SPC-4, 7.3).
ghost use Rattle.std.specs.Prelude.{◌≡◌};
ghost use Rattle.sg_wire.specs.Printer.{PrintsText};
ghost use Rattle.sg_decode.specs.Items.{decoded};
ghost use Rattle.sg_decode.specs.LogPages.{log_entries, log_page};

use crate::entry::EntryKind;
use crate::items::{show_entries, show_lines};
use crate::value::{Field, Value, bits_of, number_of_two};
use sg_wire::Printer;
use std::io::Write;

const HEADER: [&[Field]; 3] = [
    &[
        Field(b"  DS: ", Value::Bits(0, 7, 7)),
        Field(b", SPF: ", Value::Bits(0, 6, 6)),
    ],
    &[
        Field(b"  page: ", Value::Code(0, 5, 0)),
        Field(b", subpage: ", Value::Code(1, 7, 0)),
    ],
    &[Field(b"  page length: ", Value::Number(2, 2))],
];

/// Prints a log page, the data of LOG SENSE (SPC-4, 7.3).
pub fn put_log_page<W: Write>(bytes: &[u8], out: &mut Printer<'_, W>)
    ensures { PrintsText W.contents out.old out.new (decoded log_page bytes.now) }
{
    if show_lines(&HEADER, None, bytes, out) {
        let kind = log_entries(bits_of(bytes[0], 5, 0), bytes[1]);
        let end = 4 + number_of_two(2, bytes);
        show_entries(kind, 4, end, bytes, out);
    }
}

/// What a page has after its header, by PAGE CODE and SUBPAGE CODE.
fn log_entries(page: u8, subpage: u8) -> EntryKind
    ensures { result ≡ log_entries page subpage }
{
    match (page, subpage) {
        (0x00, 0x00) => EntryKind::LogPages,
        (0x00, 0xff) => EntryKind::LogSubpages,
        (0x0c, 0x00) => EntryKind::LogResourceCounts,
        (0x2f, 0x00) => EntryKind::LogExceptions,
        _ => EntryKind::LogParameters,
    }
}
