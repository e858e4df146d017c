// The texts of pages of vital product data, VPD (SPC-4, 7.8).
ghost use Rattle.std.specs.Prelude.{◌≤◌, ◌^◌, Some, length};
ghost use Rattle.sg_wire.specs.Printer.{PrintsText};
ghost use Rattle.sg_decode.specs.Items.{as_present, decoded, shown};
ghost use Rattle.sg_decode.specs.VitalProductData.{page_body, serial_line, vital_product_data};

use crate::entry::EntryKind;
use crate::inquiry::PERIPHERAL;
use crate::items::{present_bytes, put_truncated, show_dump, show_entries, show_lines};
use crate::number_text::put_bracketed;
use crate::value::{Field, Value, number_of_two};
use sg_wire::Printer;
use std::io::Write;

pub(crate) const HEADER: [&[Field]; 3] = [
    PERIPHERAL,
    &[Field(b"  page: ", Value::Code(1, 7, 0))],
    &[Field(b"  page length: ", Value::Number(2, 2))],
];

// The lines of Block Limits (SBC-3, vital product data parameters).
pub(crate) const WSNZ: &[Field] = &[Field(b"  WSNZ: ", Value::Bits(4, 0, 0))];

pub(crate) const GRANULARITY: &[Field] = &[Field(b"  transfer granularity: ", Value::Number(6, 2))];

pub(crate) const TRANSFER: &[Field] = &[Field(b"  maximum transfer: ", Value::Number(8, 4))];

pub(crate) const UNMAP_COUNT: &[Field] = &[Field(b"  maximum unmap count: ", Value::Number(20, 4))];

pub(crate) const UNMAP_DESCRIPTORS: &[Field] = &[Field(
    b"  maximum unmap descriptors: ",
    Value::Number(24, 4),
)];

pub(crate) const UNMAP_GRANULARITY: &[Field] = &[Field(
    b"  unmap granularity: ",
    Value::Number(28, 4),
)];

pub(crate) const WRITE_SAME: &[Field] = &[Field(b"  maximum write same: ", Value::Number(36, 8))];

const BLOCK_LIMITS: [&[Field]; 7] = [
    WSNZ,
    GRANULARITY,
    TRANSFER,
    UNMAP_COUNT,
    UNMAP_DESCRIPTORS,
    UNMAP_GRANULARITY,
    WRITE_SAME,
];

const LOGICAL_BLOCK_PROVISIONING: [&[Field]; 3] = [
    &[Field(b"  threshold exponent: ", Value::Number(4, 1))],
    &[
        Field(b"  LBPU: ", Value::Bits(5, 7, 7)),
        Field(b", LBPWS: ", Value::Bits(5, 6, 6)),
        Field(b", LBPWS10: ", Value::Bits(5, 5, 5)),
        Field(b", LBPRZ: ", Value::Bits(5, 2, 2)),
        Field(b", ANC_SUP: ", Value::Bits(5, 1, 1)),
        Field(b", DP: ", Value::Bits(5, 0, 0)),
    ],
    &[Field(b"  provisioning type: ", Value::Bits(6, 2, 0))],
];

/// Prints a page of vital product data (SPC-4, 7.8).
#[tactic(auto, unfolding(crate::specs::Items::decoded))]
pub fn put_vpd<W: Write>(bytes: &[u8], out: &mut Printer<'_, W>)
    ensures { PrintsText W.contents out.old out.new (decoded vital_product_data bytes.now) }
{
    if show_lines(&HEADER, None, bytes, out) {
        show_page(bytes[1], 4 + number_of_two(2, bytes), bytes, out);
    }
}

/// Shows the bytes after the header, by the page code.
pub(crate) fn show_page<W: Write>(code: u8, end: usize, bytes: &[u8], out: &mut Printer<'_, W>)
    requires end { end ≤ 2 ^ 17 }
    requires header { 4 ≤ length bytes.now }
    ensures { PrintsText W.contents out.old out.new
        (shown (Some end) bytes.now (page_body code bytes.now end)) }
{
    match code {
        0x00 => show_entries(EntryKind::SupportedPages, 4, end, bytes, out),
        0x80 => show_serial(end, bytes, out),
        0x83 => show_entries(EntryKind::Designators, 4, end, bytes, out),
        0xb0 => {
            show_lines(&BLOCK_LIMITS, Some(end), bytes, out);
        }
        0xb2 => {
            show_lines(&LOGICAL_BLOCK_PROVISIONING, Some(end), bytes, out);
        }
        _ => show_dump(4, end, bytes, out),
    }
}

/// Shows the unit serial number, as far as it is present.
fn show_serial<W: Write>(end: usize, bytes: &[u8], out: &mut Printer<'_, W>)
    ensures { PrintsText W.contents out.old out.new
        (shown (Some end) bytes.now (as_present 4 end serial_line bytes.now)) }
{
    put_serial(present_bytes(4, end, bytes), out);
    put_truncated(end, bytes, out);
}

fn put_serial<W: Write>(serial: &[u8], out: &mut Printer<'_, W>)
    ensures { PrintsText W.contents out.old out.new (serial_line serial.now) }
{
    out.put(b"  serial: ");
    put_bracketed(serial, out);
    out.put(b"\n");
}
