// REPORT LUNS parameter data (SPC-4, 6.33).
ghost use Rattle.sg_wire.specs.Printer.{PrintsText};
ghost use Rattle.sg_decode.specs.Items.{decoded};
ghost use Rattle.sg_decode.specs.ReportLuns.{luns};

use crate::entry::EntryKind;
use crate::items::{show_entries, show_lines};
use crate::value::{Field, Value, number_of_four};
use sg_wire::Printer;
use std::io::Write;

const LENGTH: [&[Field]; 1] = [&[Field(b"  LUN list length: ", Value::Number(0, 4))]];

/// Prints REPORT LUNS parameter data (SPC-4, 6.33).
pub fn put_luns<W: Write>(bytes: &[u8], out: &mut Printer<'_, W>)
    ensures { PrintsText W.contents out.old out.new (decoded luns bytes.now) }
{
    if show_lines(&LENGTH, None, bytes, out) {
        let end = 8 + number_of_four(0, bytes);
        show_entries(EntryKind::Luns, 8, end, bytes, out);
    }
}
