// Sense data is one line: its key and its code, then INFORMATION and the field pointer, if any.
ghost use Rattle.std.specs.Prelude.{◌≡◌, ◌≤◌, ◌∷◌, length, option_map, take};
ghost use Rattle.std.specs.Int.{to_be_bytes, w64};
ghost use Rattle.hex.specs.Hex.{encode_lower};
ghost use Rattle.sg_wire.specs.Sense.{fields_of};
ghost use Rattle.sg_wire.specs.Printer.{PrintsText};
ghost use Rattle.sg_decode.specs.SenseText.{code_text, current_code, extended_sense_line};
ghost use Rattle.sg_decode.specs.SenseText.{fields_text, information_text, key_name, longest_sense_data};
ghost use Rattle.sg_decode.specs.SenseText.{read_deferred};
ghost use Rattle.sg_decode.specs.SenseText.{key_text, pointer_label, pointer_text, sense_line};
ghost use Rattle.sg_decode.specs.SenseText.{sense_text};

use crate::hex_lines::put_hex_byte;
use crate::number_text::{put_number, sixteen_digits};
use sg_wire::{Pointer, Printer, Sense};
use std::io::Write;

/// Prints the line of sense data (SPC-4, 4.5).
#[tactic(auto, unfolding(crate::specs::SenseText::sense_line))]
pub fn put_sense<W: Write>(bytes: &[u8], out: &mut Printer<'_, W>)
    ensures { PrintsText W.contents out.old out.new (sense_line bytes.now) }
{
    put_read_sense(Sense::read(bytes), out);
}

/// The most bytes that sense data has (SPC-4, 4.5.1).
const LONGEST_SENSE_DATA: usize = 252;

/// Prints the line of sense data (SPC-4, 4.5), of a current error or of a deferred one.
#[tactic(auto, using(crate::proofs::TextLemmas::prints))]
pub fn put_extended_sense<W: Write>(bytes: &[u8], out: &mut Printer<'_, W>)
    ensures { PrintsText W.contents out.old out.new (extended_sense_line bytes.now) }
{
    match read_deferred(bytes) {
        Some(sense) => {
            out.put(b"  sense: deferred, ");
            put_sense_fields(&sense, out);
        }
        None => put_read_sense(Sense::read(bytes), out),
    }
}

/// Reads the fields that sense data of a deferred error reports. None for all other bytes.
fn read_deferred(bytes: &[u8]) -> Option<Sense>
    ensures { option_map fields_of result ≡ read_deferred bytes.now }
{
    let [code, rest @ ..] = bytes else {
        return None;
    };
    let current = current_code(*code)?;
    let mut copy = [0; LONGEST_SENSE_DATA];
    let count = copy_with_code(current, rest, &mut copy);
    Sense::read(&copy[..count])
}

/// Copies a response code and the bytes after it, as far as there is room. Returns how many they are.
fn copy_with_code(code: u8, rest: &[u8], copy: &mut [u8]) -> usize
    requires { length copy.old ≡ longest_sense_data }
    ensures bytes { take result copy.new ≡ take longest_sense_data (code ∷ rest.now) }
    ensures within { result ≤ length copy.new }
{
    let count = rest.len().min(LONGEST_SENSE_DATA - 1);
    copy[0] = code;
    copy[1..count + 1].copy_from_slice(&rest[..count]);
    count + 1
}

/// The response code of a current error with the layout of a deferred one.
fn current_code(code: u8) -> Option<u8>
    ensures { result ≡ current_code code }
{
    match code {
        0x71 => Some(0x70),
        0xf1 => Some(0xf0),
        0x73 => Some(0x72),
        _ => None,
    }
}

/// Prints the line of sense data that was read. `sense` is `None` if it could not be read.
pub fn put_read_sense<W: Write>(sense: Option<Sense>, out: &mut Printer<'_, W>)
    ensures { PrintsText W.contents out.old out.new (sense_text (option_map fields_of sense)) }
{
    match sense {
        Some(sense) => {
            out.put(b"  sense: ");
            put_sense_fields(&sense, out);
        }
        None => out.put(b"  sense: unreadable\n"),
    }
}

#[tactic(auto, using(crate::proofs::TextLemmas::prints), unfolding(crate::specs::SenseText::fields_text))]
fn put_sense_fields<W: Write>(sense: &Sense, out: &mut Printer<'_, W>)
    ensures { PrintsText W.contents out.old out.new (fields_text (fields_of sense.now)) }
{
    put_key(sense.key, out);
    put_code(sense.asc, sense.ascq, out);
    put_information(sense.information, out);
    put_pointer(sense.pointer, out);
    out.put(b"\n");
}

#[tactic(auto, using(crate::proofs::TextLemmas::prints))]
fn put_key<W: Write>(key: u8, out: &mut Printer<'_, W>)
    ensures { PrintsText W.contents out.old out.new (key_text key) }
{
    match key_name(key) {
        Some(name) => out.put(name),
        None => {
            out.put(b"KEY ");
            put_hex_byte(key, out);
        }
    }
}

/// The name of a sense key.
fn key_name(key: u8) -> Option<&'static [u8]>
    ensures { option_map (λ b. b.now) result ≡ key_name key }
{
    match key {
        Sense::NO_SENSE => Some(b"NO SENSE"),
        Sense::ILLEGAL_REQUEST => Some(b"ILLEGAL REQUEST"),
        Sense::UNIT_ATTENTION => Some(b"UNIT ATTENTION"),
        Sense::DATA_PROTECT => Some(b"DATA PROTECT"),
        Sense::ABORTED_COMMAND => Some(b"ABORTED COMMAND"),
        _ => None,
    }
}

#[tactic(auto, using(crate::proofs::TextLemmas::prints), unfolding(crate::specs::SenseText::code_text))]
fn put_code<W: Write>(asc: u8, ascq: u8, out: &mut Printer<'_, W>)
    ensures { PrintsText W.contents out.old out.new (code_text asc ascq) }
{
    out.put(b", ");
    put_hex_byte(asc, out);
    out.put(b"/");
    put_hex_byte(ascq, out);
}

#[tactic(auto, using(crate::proofs::TextLemmas::prints))]
fn put_information<W: Write>(information: Option<u64>, out: &mut Printer<'_, W>)
    ensures { PrintsText W.contents out.old out.new (information_text information) }
{
    if let Some(information) = information {
        out.put(b", information 0x");
        out.put(&sixteen_digits(&information.to_be_bytes()));
    }
}

#[tactic(auto, using(crate::proofs::TextLemmas::prints), unfolding(crate::specs::SenseText::pointer_text))]
fn put_pointer<W: Write>(pointer: Option<Pointer>, out: &mut Printer<'_, W>)
    ensures { PrintsText W.contents out.old out.new (pointer_text pointer) }
{
    if let Some(pointer) = pointer {
        put_pointer_label(pointer.in_command, out);
        put_number(u64::from(pointer.byte), out);
    }
}

#[tactic(auto, using(crate::proofs::TextLemmas::prints))]
fn put_pointer_label<W: Write>(in_command: bool, out: &mut Printer<'_, W>)
    ensures { PrintsText W.contents out.old out.new (pointer_label in_command) }
{
    if in_command {
        out.put(b", command byte ");
    } else {
        out.put(b", list byte ");
    }
}
