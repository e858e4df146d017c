// READ DEFECT DATA parameter data (SBC-3, 5.17 and 5.18).
ghost use Rattle.std.specs.Prelude.{◌≤◌, ◌^◌, Some, length};
ghost use Rattle.sg_wire.specs.Printer.{PrintsText};
ghost use Rattle.sg_decode.specs.Items.{decoded, shown};
ghost use Rattle.sg_decode.specs.DefectData.{defect_body, defects_10, defects_12};

use crate::entry::EntryKind;
use crate::items::{show_dump, show_entries, show_lines};
use crate::value::{Field, Value, bits_of, number_of_four, number_of_two};
use sg_wire::Printer;
use std::io::Write;

const LIST_FLAGS: &[Field] = &[
    Field(b"  PLISTV: ", Value::Bits(1, 4, 4)),
    Field(b", GLISTV: ", Value::Bits(1, 3, 3)),
    Field(b", defect list format: ", Value::Bits(1, 2, 0)),
];

const HEADER_10: [&[Field]; 2] = [
    LIST_FLAGS,
    &[Field(b"  defect list length: ", Value::Number(2, 2))],
];

const HEADER_12: [&[Field]; 3] = [
    LIST_FLAGS,
    &[Field(b"  generation code: ", Value::Number(2, 2))],
    &[Field(b"  defect list length: ", Value::Number(4, 4))],
];

/// Prints the data of READ DEFECT DATA(10) (SBC-3, 5.17).
pub fn put_defects_10<W: Write>(bytes: &[u8], out: &mut Printer<'_, W>)
    ensures { PrintsText W.contents out.old out.new (decoded defects_10 bytes.now) }
{
    if show_lines(&HEADER_10, None, bytes, out) {
        let format = bits_of(bytes[1], 2, 0);
        show_defects(4, format, 4 + number_of_two(2, bytes), bytes, out);
    }
}

/// Prints the data of READ DEFECT DATA(12) (SBC-3, 5.18).
pub fn put_defects_12<W: Write>(bytes: &[u8], out: &mut Printer<'_, W>)
    ensures { PrintsText W.contents out.old out.new (decoded defects_12 bytes.now) }
{
    if show_lines(&HEADER_12, None, bytes, out) {
        let format = bits_of(bytes[1], 2, 0);
        show_defects(8, format, 8 + number_of_four(4, bytes), bytes, out);
    }
}

/// Shows the address descriptors, by DEFECT LIST FORMAT.
fn show_defects<W: Write>(
    first: usize,
    format: u8,
    end: usize,
    bytes: &[u8],
    out: &mut Printer<'_, W>,
)
    requires not_first_byte { 1 ≤ first }
    requires first { first ≤ 8 }
    requires end { end ≤ 2 ^ 33 }
    requires header { 4 ≤ length bytes.now }
    ensures { PrintsText W.contents out.old out.new
        (shown (Some end) bytes.now (defect_body first format bytes.now end)) }
{
    if format == 0 {
        show_entries(EntryKind::ShortDefects, first, end, bytes, out);
    } else if format < 6 {
        show_entries(EntryKind::LongDefects, first, end, bytes, out);
    } else {
        show_dump(first, end, bytes, out);
    }
}
