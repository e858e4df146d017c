// The text of standard INQUIRY data that names version descriptors (SPC-4, 6.6.2).
ghost use Rattle.std.specs.Prelude.{◌≡◌, ◌++◌, Some};
ghost use Rattle.sg_wire.specs.Printer.{PrintsText};
ghost use Rattle.sg_decode.specs.Items.{all_shown, decoded, shown};
ghost use Rattle.sg_decode.specs.Inquiry.{before_versions, extended_inquiry, from_versions};

use crate::hex_lines::put_hex;
use crate::inquiry::{DUMP, LINES};
use crate::items::{present_bytes, put_truncated, show_dump, show_lines};
use crate::value::{Field, Value};
use sg_wire::Printer;
use std::io::Write;

const VERSION_DESCRIPTORS: [&[Field]; 8] = [
    &[Field(b"  version descriptor: ", Value::Digits(58, 2))],
    &[Field(b"  version descriptor: ", Value::Digits(60, 2))],
    &[Field(b"  version descriptor: ", Value::Digits(62, 2))],
    &[Field(b"  version descriptor: ", Value::Digits(64, 2))],
    &[Field(b"  version descriptor: ", Value::Digits(66, 2))],
    &[Field(b"  version descriptor: ", Value::Digits(68, 2))],
    &[Field(b"  version descriptor: ", Value::Digits(70, 2))],
    &[Field(b"  version descriptor: ", Value::Digits(72, 2))],
];

/// The first byte of the version descriptors, and the first after them.
const VERSIONS: usize = 58;

const AFTER_VERSIONS: usize = 74;

/// Prints standard INQUIRY data (SPC-4, 6.6.2), with a line for each version descriptor. The other bytes
/// after the first 36 are in hex lines.
#[tactic(auto, using(crate::proofs::DecoderLemmas::decoders), unfolding(crate::specs::Items::decoded))]
pub fn put_extended_inquiry<W: Write>(bytes: &[u8], out: &mut Printer<'_, W>)
    ensures { PrintsText W.contents out.old out.new (decoded extended_inquiry bytes.now) }
{
    if show_lines(&LINES, None, bytes, out) {
        show_after_names(5 + usize::from(bytes[4]), bytes, out);
    }
}

/// Shows the bytes after the first 36.
fn show_after_names<W: Write>(end: usize, bytes: &[u8], out: &mut Printer<'_, W>)
    ensures { PrintsText W.contents out.old out.new
        (shown (Some end) bytes.now (before_versions end bytes.now ++ from_versions end bytes.now)) }
{
    if show_before_versions(end, bytes, out) {
        show_from_versions(end, bytes, out);
    }
}

/// Shows the bytes before the version descriptors, and returns whether these can follow.
fn show_before_versions<W: Write>(end: usize, bytes: &[u8], out: &mut Printer<'_, W>) -> bool
    ensures verdict { result ≡ all_shown (Some end) bytes.now (before_versions end bytes.now) }
    ensures text { PrintsText W.contents out.old out.new
        (shown (Some end) bytes.now (before_versions end bytes.now)) }
{
    let reported = end.min(VERSIONS);
    put_hex(present_bytes(DUMP, reported, bytes), out);
    put_truncated(reported, bytes, out);
    reported <= bytes.len()
}

/// Shows the version descriptors, and the bytes after them.
fn show_from_versions<W: Write>(end: usize, bytes: &[u8], out: &mut Printer<'_, W>)
    ensures { PrintsText W.contents out.old out.new
        (shown (Some end) bytes.now (from_versions end bytes.now)) }
{
    if show_lines(&VERSION_DESCRIPTORS, Some(end), bytes, out) {
        show_dump(AFTER_VERSIONS, end, bytes, out);
    }
}
