// The text of standard INQUIRY data (SPC-4, 6.6.2).
ghost use Rattle.sg_wire.specs.Printer.{PrintsText};
ghost use Rattle.sg_decode.specs.Items.{decoded};
ghost use Rattle.sg_decode.specs.Inquiry.{inquiry};

use crate::items::{show_dump, show_lines};
use crate::value::{Field, Value};
use sg_wire::Printer;
use std::io::Write;

/// Peripheral qualifier and device type, the first byte of the data and of each page.
pub(crate) const PERIPHERAL: &[Field] = &[
    Field(b"  qualifier: ", Value::Bits(0, 7, 5)),
    Field(b", type: ", Value::Code(0, 4, 0)),
];

pub(crate) const LINES: [&[Field]; 8] = [
    PERIPHERAL,
    &[Field(b"  removable: ", Value::Bits(1, 7, 7))],
    &[Field(b"  version: ", Value::Code(2, 7, 0))],
    &[Field(b"  format: ", Value::Bits(3, 3, 0))],
    &[Field(b"  additional length: ", Value::Number(4, 1))],
    &[Field(b"  vendor: ", Value::Text(8, 8))],
    &[Field(b"  product: ", Value::Text(16, 16))],
    &[Field(b"  revision: ", Value::Text(32, 4))],
];

/// The first byte after the bytes of the lines.
pub(crate) const DUMP: usize = 36;

/// Prints standard INQUIRY data (SPC-4, 6.6.2), and the bytes after its 36 bytes in hex lines.
#[tactic(auto, using(crate::proofs::DecoderLemmas::decoders), unfolding(crate::specs::Items::decoded))]
pub fn put_inquiry<W: Write>(bytes: &[u8], out: &mut Printer<'_, W>)
    ensures { PrintsText W.contents out.old out.new (decoded inquiry bytes.now) }
{
    if show_lines(&LINES, None, bytes, out) {
        show_dump(DUMP, 5 + usize::from(bytes[4]), bytes, out);
    }
}
