// The texts of PERSISTENT RESERVE IN parameter data (SPC-4, 6.15).
ghost use Rattle.std.specs.Prelude.{◌≡◌, ◌≤◌, ◌<◌, ◌+◌, ◌^◌, Some, length, true};
ghost use Rattle.sg_wire.specs.Printer.{PrintsText};
ghost use Rattle.sg_decode.specs.Items.{decoded, shown};
ghost use Rattle.sg_decode.specs.Lines.{are_sound, lines_of};
ghost use Rattle.sg_decode.specs.PersistentReservation.{capabilities, capabilities_with, full_status};
ghost use Rattle.sg_decode.specs.PersistentReservation.{extended_capabilities, extended_full_status};
ghost use Rattle.sg_decode.specs.PersistentReservation.{keys, list_of, reservation};
ghost use Rattle.sg_decode.specs.PersistentReservation.{reservation_items};

use crate::entry::EntryKind;
use crate::items::{show_entries, show_lines};
use crate::value::{Field, Value, number_of_four, number_of_two};
use sg_wire::Printer;
use std::io::Write;

const GENERATION: [&[Field]; 2] = [
    &[Field(b"  generation: ", Value::Number(0, 4))],
    &[Field(b"  additional length: ", Value::Number(4, 4))],
];

const RESERVATION: [&[Field]; 2] = [
    &[Field(b"  key: ", Value::Address(8))],
    &[
        Field(b"  scope: ", Value::Bits(21, 7, 4)),
        Field(b", type: ", Value::Bits(21, 3, 0)),
    ],
];

const CAPABILITIES_LENGTH: [&[Field]; 1] = [&[Field(b"  length: ", Value::Number(0, 2))]];

const CAPABILITIES: [&[Field]; 3] = [
    &[Field(b"  PTPL_C: ", Value::Bits(2, 0, 0))],
    &[
        Field(b"  TMV: ", Value::Bits(3, 7, 7)),
        Field(b", PTPL_A: ", Value::Bits(3, 0, 0)),
    ],
    &[Field(b"  types:", Value::ReservationTypes(4))],
];

const EXTENDED_CAPABILITIES: [&[Field]; 3] = [
    &[
        Field(b"  RLR_C: ", Value::Bits(2, 7, 7)),
        Field(b", CRH: ", Value::Bits(2, 4, 4)),
        Field(b", SIP_C: ", Value::Bits(2, 3, 3)),
        Field(b", ATP_C: ", Value::Bits(2, 2, 2)),
        Field(b", PTPL_C: ", Value::Bits(2, 0, 0)),
    ],
    &[
        Field(b"  TMV: ", Value::Bits(3, 7, 7)),
        Field(b", ALLOW COMMANDS: ", Value::Bits(3, 6, 4)),
        Field(b", PTPL_A: ", Value::Bits(3, 0, 0)),
    ],
    &[Field(b"  types:", Value::ReservationTypes(4))],
];

/// Prints the parameter data of PERSISTENT RESERVE IN, READ KEYS (SPC-4, 6.15.2).
pub fn put_keys<W: Write>(bytes: &[u8], out: &mut Printer<'_, W>)
    ensures { PrintsText W.contents out.old out.new (decoded keys bytes.now) }
{
    put_list(EntryKind::ReservationKeys, bytes, out);
}

/// Prints the parameter data of PERSISTENT RESERVE IN, READ FULL STATUS (SPC-4, 6.15.5).
pub fn put_full_status<W: Write>(bytes: &[u8], out: &mut Printer<'_, W>)
    ensures { PrintsText W.contents out.old out.new (decoded full_status bytes.now) }
{
    put_list(EntryKind::FullStatusDescriptors, bytes, out);
}

/// Prints the same with ALL_TG_PT of each descriptor, as a script on an extended disk shows it.
pub fn put_extended_full_status<W: Write>(bytes: &[u8], out: &mut Printer<'_, W>)
    ensures { PrintsText W.contents out.old out.new (decoded extended_full_status bytes.now) }
{
    put_list(EntryKind::ExtendedFullStatusDescriptors, bytes, out);
}

/// Prints the header, and the entries of a kind after it.
fn put_list<W: Write>(kind: EntryKind, bytes: &[u8], out: &mut Printer<'_, W>)
    ensures { PrintsText W.contents out.old out.new (decoded (list_of kind) bytes.now) }
{
    if show_lines(&GENERATION, None, bytes, out) {
        let end = 8 + number_of_four(4, bytes);
        show_entries(kind, 8, end, bytes, out);
    }
}

/// Prints the parameter data of PERSISTENT RESERVE IN, READ RESERVATION (SPC-4, 6.15.3).
pub fn put_reservation<W: Write>(bytes: &[u8], out: &mut Printer<'_, W>)
    ensures { PrintsText W.contents out.old out.new (decoded reservation bytes.now) }
{
    if show_lines(&GENERATION, None, bytes, out) {
        show_reservation(number_of_four(4, bytes), bytes, out);
    }
}

/// Shows the reservation. ADDITIONAL LENGTH counts `size` bytes of it.
fn show_reservation<W: Write>(size: usize, bytes: &[u8], out: &mut Printer<'_, W>)
    requires size { size < 2 ^ 32 }
    requires header { 8 ≤ length bytes.now }
    ensures { PrintsText W.contents out.old out.new
        (shown (Some (8 + size)) bytes.now (reservation_items size)) }
{
    if size == 0 {
        out.put(b"  no reservation\n");
    } else {
        show_lines(&RESERVATION, Some(8 + size), bytes, out);
    }
}

/// Prints the parameter data of PERSISTENT RESERVE IN, REPORT CAPABILITIES (SPC-4, 6.15.4).
pub fn put_capabilities<W: Write>(bytes: &[u8], out: &mut Printer<'_, W>)
    ensures { PrintsText W.contents out.old out.new (decoded capabilities bytes.now) }
{
    put_capabilities_with(&CAPABILITIES, bytes, out);
}

/// Prints the same with all fields, as a script on an extended disk shows it.
pub fn put_extended_capabilities<W: Write>(bytes: &[u8], out: &mut Printer<'_, W>)
    ensures { PrintsText W.contents out.old out.new (decoded extended_capabilities bytes.now) }
{
    put_capabilities_with(&EXTENDED_CAPABILITIES, bytes, out);
}

/// Prints the length, and lines of the capabilities after it.
fn put_capabilities_with<W: Write>(lines: &[&[Field]], bytes: &[u8], out: &mut Printer<'_, W>)
    requires { are_sound (lines_of lines.now) ≡ true }
    ensures { PrintsText W.contents out.old out.new
        (decoded (capabilities_with (lines_of lines.now)) bytes.now) }
{
    if show_lines(&CAPABILITIES_LENGTH, None, bytes, out) {
        show_lines(lines, Some(number_of_two(0, bytes)), bytes, out);
    }
}
