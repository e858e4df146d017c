// The texts of the pages of vital product data that only the extended profile knows, and of page B0h there.
ghost use Rattle.std.specs.Prelude.{◌≤◌, ◌^◌, Some, length};
ghost use Rattle.sg_wire.specs.Printer.{PrintsText};
ghost use Rattle.sg_decode.specs.Items.{decoded, shown};
ghost use Rattle.sg_decode.specs.VitalProductData.{extended_page_body, extended_vital_product_data};

use crate::entry::EntryKind;
use crate::items::{show_entries, show_lines};
use crate::value::{Field, Value, number_of_two};
use crate::vital_product_data::{
    GRANULARITY, HEADER, TRANSFER, UNMAP_COUNT, UNMAP_DESCRIPTORS, UNMAP_GRANULARITY, WRITE_SAME,
    WSNZ, show_page,
};
use sg_wire::Printer;
use std::io::Write;

const EXTENDED_INQUIRY_DATA: [&[Field]; 9] = [
    &[
        Field(b"  activate microcode: ", Value::Bits(4, 7, 6)),
        Field(b", SPT: ", Value::Bits(4, 5, 3)),
        Field(b", GRD_CHK: ", Value::Bits(4, 2, 2)),
        Field(b", APP_CHK: ", Value::Bits(4, 1, 1)),
        Field(b", REF_CHK: ", Value::Bits(4, 0, 0)),
    ],
    &[
        Field(b"  UASK_SUP: ", Value::Bits(5, 5, 5)),
        Field(b", GROUP_SUP: ", Value::Bits(5, 4, 4)),
        Field(b", PRIOR_SUP: ", Value::Bits(5, 3, 3)),
        Field(b", HEADSUP: ", Value::Bits(5, 2, 2)),
        Field(b", ORDSUP: ", Value::Bits(5, 1, 1)),
        Field(b", SIMPSUP: ", Value::Bits(5, 0, 0)),
    ],
    &[
        Field(b"  WU_SUP: ", Value::Bits(6, 3, 3)),
        Field(b", CRD_SUP: ", Value::Bits(6, 2, 2)),
        Field(b", NV_SUP: ", Value::Bits(6, 1, 1)),
        Field(b", V_SUP: ", Value::Bits(6, 0, 0)),
    ],
    &[
        Field(b"  P_I_I_SUP: ", Value::Bits(7, 4, 4)),
        Field(b", LUICLR: ", Value::Bits(7, 0, 0)),
    ],
    &[
        Field(b"  R_SUP: ", Value::Bits(8, 4, 4)),
        Field(b", CBCS: ", Value::Bits(8, 0, 0)),
    ],
    &[Field(
        b"  multi I_T nexus microcode download: ",
        Value::Bits(9, 3, 0),
    )],
    &[Field(
        b"  extended self-test completion minutes: ",
        Value::Number(10, 2),
    )],
    &[
        Field(b"  POA_SUP: ", Value::Bits(12, 7, 7)),
        Field(b", HRA_SUP: ", Value::Bits(12, 6, 6)),
        Field(b", VSA_SUP: ", Value::Bits(12, 5, 5)),
    ],
    &[Field(
        b"  maximum supported sense data length: ",
        Value::Number(13, 1),
    )],
];

const EXTENDED_BLOCK_LIMITS: [&[Field]; 9] = [
    WSNZ,
    &[Field(b"  maximum compare and write: ", Value::Number(5, 1))],
    GRANULARITY,
    TRANSFER,
    UNMAP_COUNT,
    UNMAP_DESCRIPTORS,
    UNMAP_GRANULARITY,
    WRITE_SAME,
    &[Field(b"  maximum atomic transfer: ", Value::Number(44, 4))],
];

const BLOCK_DEVICE_CHARACTERISTICS: [&[Field]; 4] = [
    &[Field(b"  medium rotation rate: ", Value::Number(4, 2))],
    &[Field(b"  product type: ", Value::Code(6, 7, 0))],
    &[
        Field(b"  WABEREQ: ", Value::Bits(7, 7, 6)),
        Field(b", WACEREQ: ", Value::Bits(7, 5, 4)),
        Field(b", nominal form factor: ", Value::Bits(7, 3, 0)),
    ],
    &[
        Field(b"  FUAB: ", Value::Bits(8, 1, 1)),
        Field(b", VBULS: ", Value::Bits(8, 0, 0)),
    ],
];

/// Prints a page of vital product data (SPC-4, 7.8). Pages 86h, 87h, 88h and B1h have lines of fields,
/// which [`put_vpd`](crate::put_vpd) shows in hex lines. Page B0h has two more lines than there.
#[tactic(auto, unfolding(crate::specs::Items::decoded))]
pub fn put_extended_vpd<W: Write>(bytes: &[u8], out: &mut Printer<'_, W>)
    ensures { PrintsText W.contents out.old out.new (decoded extended_vital_product_data bytes.now) }
{
    if show_lines(&HEADER, None, bytes, out) {
        show_extended_page(bytes[1], 4 + number_of_two(2, bytes), bytes, out);
    }
}

/// Shows the bytes after the header, by the page code.
fn show_extended_page<W: Write>(code: u8, end: usize, bytes: &[u8], out: &mut Printer<'_, W>)
    requires end { end ≤ 2 ^ 17 }
    requires header { 4 ≤ length bytes.now }
    ensures { PrintsText W.contents out.old out.new
        (shown (Some end) bytes.now (extended_page_body code bytes.now end)) }
{
    match code {
        0x86 => {
            show_lines(&EXTENDED_INQUIRY_DATA, Some(end), bytes, out);
        }
        0x87 => show_entries(EntryKind::ModePagePolicies, 4, end, bytes, out),
        0x88 => show_entries(EntryKind::ScsiPorts, 4, end, bytes, out),
        0xb0 => {
            show_lines(&EXTENDED_BLOCK_LIMITS, Some(end), bytes, out);
        }
        0xb1 => {
            show_lines(&BLOCK_DEVICE_CHARACTERISTICS, Some(end), bytes, out);
        }
        _ => show_page(code, end, bytes, out),
    }
}
