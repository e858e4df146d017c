// The texts of mode parameters (SPC-4, 7.5).
ghost use Rattle.std.specs.Prelude.{◌≡◌, ◌≤◌, ◌<◌, ◌+◌, ◌^◌, Some, length, true};
ghost use Rattle.sg_wire.specs.Printer.{PrintsText};
ghost use Rattle.sg_decode.specs.Lines.{is_sound_line, line_end, line_of};
ghost use Rattle.sg_decode.specs.Items.{all_shown, decoded, shown};
ghost use Rattle.sg_decode.specs.ModeParameters.{descriptor_items, descriptor_line, mode_body};
ghost use Rattle.sg_decode.specs.ModeParameters.{mode_parameters, mode_parameters_6};
ghost use Rattle.sg_decode.specs.ModeParameters.{mode_parameters_10};

use crate::entry::EntryKind;
use crate::items::{is_shown, show_entries, show_lines};
use crate::line::put_line;
use crate::value::{Field, Value, number_of_two};
use sg_wire::{CdbWidth, Printer};
use std::io::Write;

/// LONGLBA, a bit of byte 4 of the header of MODE SENSE(10) (SPC-4, 7.5): the block descriptor is the
/// long one.
const LONGLBA: u8 = 0x01;

const HEADER_6: [&[Field]; 4] = [
    &[Field(b"  mode data length: ", Value::Number(0, 1))],
    &[Field(b"  medium type: ", Value::Code(1, 7, 0))],
    &[
        Field(b"  WP: ", Value::Bits(2, 7, 7)),
        Field(b", DPOFUA: ", Value::Bits(2, 4, 4)),
    ],
    &[Field(b"  block descriptor length: ", Value::Number(3, 1))],
];

const HEADER_10: [&[Field]; 5] = [
    &[Field(b"  mode data length: ", Value::Number(0, 2))],
    &[Field(b"  medium type: ", Value::Code(2, 7, 0))],
    &[
        Field(b"  WP: ", Value::Bits(3, 7, 7)),
        Field(b", DPOFUA: ", Value::Bits(3, 4, 4)),
    ],
    &[Field(b"  LONGLBA: ", Value::Bits(4, 0, 0))],
    &[Field(b"  block descriptor length: ", Value::Number(6, 2))],
];

const SHORT_DESCRIPTOR: &[Field] = &[
    Field(b"  blocks: ", Value::Number(0, 4)),
    Field(b", block length: ", Value::Number(5, 3)),
];

const LONG_DESCRIPTOR: &[Field] = &[
    Field(b"  blocks: ", Value::Number(0, 8)),
    Field(b", block length: ", Value::Number(12, 4)),
];

const OTHER_DESCRIPTOR: &[Field] = &[Field(b"  descriptor: ", Value::HexFrom(0))];

/// Prints mode parameters (SPC-4, 7.5) of a MODE SENSE whose CDB has the width.
pub fn put_modes<W: Write>(width: CdbWidth, bytes: &[u8], out: &mut Printer<'_, W>)
    ensures { PrintsText W.contents out.old out.new (decoded (mode_parameters width) bytes.now) }
{
    match width {
        CdbWidth::Six => put_modes_6(bytes, out),
        CdbWidth::Ten => put_modes_10(bytes, out),
    }
}

fn put_modes_6<W: Write>(bytes: &[u8], out: &mut Printer<'_, W>)
    ensures { PrintsText W.contents out.old out.new (decoded mode_parameters_6 bytes.now) }
{
    if show_lines(&HEADER_6, None, bytes, out) {
        let size = usize::from(bytes[3]);
        show_body(4, false, size, 1 + usize::from(bytes[0]), bytes, out);
    }
}

fn put_modes_10<W: Write>(bytes: &[u8], out: &mut Printer<'_, W>)
    ensures { PrintsText W.contents out.old out.new (decoded mode_parameters_10 bytes.now) }
{
    if show_lines(&HEADER_10, None, bytes, out) {
        let long = bytes[4] & LONGLBA != 0;
        let size = number_of_two(6, bytes);
        show_body(8, long, size, 2 + number_of_two(0, bytes), bytes, out);
    }
}

/// Shows the block descriptor, which begins at `first`, and the pages after it.
fn show_body<W: Write>(
    first: usize,
    long: bool,
    size: usize,
    end: usize,
    bytes: &[u8],
    out: &mut Printer<'_, W>,
)
    // The first byte of the descriptor, which is after the header, and its length.
    requires not_first_byte { 1 ≤ first }
    requires first { first ≤ 8 }
    requires descriptor { size < 2 ^ 16 }

    // The reported end, and that there is a header.
    requires end { end ≤ 2 ^ 17 }
    requires not_empty { 0 < length bytes.now }

    // The descriptor and the pages are shown by the rule.
    ensures { PrintsText W.contents out.old out.new
        (shown (Some end) bytes.now (mode_body first long size bytes.now)) }
{
    if show_descriptor(first, long, size, end, bytes, out) {
        show_entries(EntryKind::ModePages, first + size, end, bytes, out);
    }
}

/// Shows the block descriptor, if there is one, and returns whether the pages can follow.
fn show_descriptor<W: Write>(
    first: usize,
    long: bool,
    size: usize,
    end: usize,
    bytes: &[u8],
    out: &mut Printer<'_, W>,
) -> bool
    requires first { first ≤ 8 }
    requires descriptor { size < 2 ^ 16 }
    ensures verdict { result
        ≡ all_shown (Some end) bytes.now (descriptor_items first long size) }
    ensures text { PrintsText W.contents out.old out.new
        (shown (Some end) bytes.now (descriptor_items first long size)) }
{
    if size == 0 {
        return true;
    }
    if !is_shown(first + size, Some(end), bytes, out) {
        return false;
    }
    put_line(
        descriptor_line(long, size),
        &bytes[first..first + size],
        out,
    );
    true
}

/// The line of a block descriptor.
fn descriptor_line(long: bool, size: usize) -> &'static [Field]
    ensures line { line_of result.now ≡ descriptor_line long size }
    ensures sound { is_sound_line (line_of result.now) ≡ true }
    ensures end { line_end (line_of result.now) ≤ size }
{
    match (long, size) {
        (false, 8) => SHORT_DESCRIPTOR,
        (true, 16) => LONG_DESCRIPTOR,
        _ => OTHER_DESCRIPTOR,
    }
}
