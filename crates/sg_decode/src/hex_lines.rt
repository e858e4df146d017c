// Hexadecimal lines of sixteen bytes: for blocks, and for all bytes without a text of their own.
ghost use Rattle.std.specs.Prelude.{◌≡◌, ◌<◌, ◌≤◌, ◌+◌, ◌*◌, ◌%◌, ◌^◌, ◌++◌, length, take, codes};
ghost use Rattle.std.specs.List.{flat_map};
ghost use Rattle.sg_decode.specs.HexText.{blank_hex_byte, gathered_text, hex_lines};
ghost use Rattle.sg_decode.specs.HexText.{upper_hex_byte};
ghost use Rattle.sg_decode.specs.HexPieces.{hex_lines_from, line_head};
ghost use Rattle.sg_wire.specs.Printer.{PrintsText};

use crate::hex_digits::{LOWER_DIGITS, padded, spaced_digits, spaced_offset};
use sg_wire::Printer;
use std::io::Write;
use std::simd::prelude::*;

// The bytes of a line, and the length of its text. The text is two blanks, eight digits of the
// offset, a blank, three characters a byte, and the LF.
const LINE_BYTES: usize = 16;

const LINE_TEXT: usize = 60;

/// The number of lines that are put at once: as many as have offsets that differ in one digit. They
/// are gathered first, because bytes that were just written in small parts are slow to copy.
const LINES: usize = 16;

/// An offset has 32 bits.
const OFFSETS: usize = 1 << 32;

/// The length of the text of the lines that are gathered, in bytes.
pub const GATHERED_TEXT: usize = LINES * LINE_TEXT;

const UPPER_DIGITS: [u8; 16] = *b"0123456789ABCDEF";

/// Prints bytes in lines of sixteen: the offset of the first in eight digits, and each byte as
/// two digits, all in lower case.
pub fn put_hex<W: Write>(bytes: &[u8], out: &mut Printer<'_, W>)
    ensures { PrintsText W.contents out.old out.new (hex_lines bytes.now) }
{
    let mut text = [0; GATHERED_TEXT];
    put_hex_lines(bytes, &mut text, out);
}

/// Prints bytes as `put_hex` does. It gathers the lines in `text`, of at least `GATHERED_TEXT`
/// bytes, so that a caller with many answers borrows the memory for it once.
#[tactic(auto, using(crate::proofs::TextLemmas::prints), unfolding(crate::specs::HexText::first_hex_lines))]
pub fn put_hex_lines<W: Write>(bytes: &[u8], text: &mut [u8], out: &mut Printer<'_, W>)
    requires { gathered_text ≤ length text.old }
    ensures { PrintsText W.contents out.old out.new (hex_lines bytes.now) }
{
    for (number, lines) in bytes.chunks(LINES * LINE_BYTES).enumerate() {
        let offset = LINES * LINE_BYTES * number % OFFSETS;
        let len = write_lines(offset as u32, lines, text);
        out.put(&text[..len]);
    }
}

/// Writes the lines of bytes that begin at an offset, a multiple of 256, over the first bytes of a
/// text, and returns their length.
#[tactic(auto, unfolding(crate::specs::HexPieces::first_hex_lines_from))]
fn write_lines(offset: u32, bytes: &[u8], text: &mut [u8]) -> usize
    requires multiple { offset % 256 ≡ 0 }
    requires at_most_256 { length bytes.now ≤ 256 }
    requires room { gathered_text ≤ length text.old }
    ensures text { take result text.new ≡ hex_lines_from offset bytes.now }
    ensures length { result ≤ gathered_text }
{
    let head = spaced_offset(offset);
    let mut len = 0;
    for (number, line) in bytes.chunks(LINE_BYTES).enumerate() {
        len += write_line(head, number, line, &mut text[len..]);
    }
    len
}

/// Writes a line of at most sixteen bytes in the same way. Its offset is the offset of `head`,
/// except for the last digit but one, which is the line's number.
fn write_line(head: u8x16, number: usize, bytes: &[u8], text: &mut [u8]) -> usize
    requires head { length head ≡ 16 }
    requires number { number < 16 }
    requires not_empty { 0 < length bytes.now }
    requires at_most_16 { length bytes.now ≤ 16 }
    requires room { 60 ≤ length text.old }
    ensures text { take result text.new ≡ line_head (take 11 head) number
        ++ (flat_map blank_hex_byte bytes.now ++ codes "\n") }
    ensures length { result ≡ 12 + 3 * length bytes.now }
{
    // The bytes' digits overwrite five of the sixteen characters.
    head.copy_to_slice(&mut text[..16]);
    text[8] = LOWER_DIGITS[number];
    write_bytes(bytes, &mut text[11..]);
    12 + 3 * bytes.len()
}

/// Writes at most sixteen bytes, each with a blank before it, and ends the line.
fn write_bytes(bytes: &[u8], text: &mut [u8])
    requires at_most_16 { length bytes.now ≤ 16 }
    requires room { 49 ≤ length text.old }
    ensures { take (3 * length bytes.now + 1) text.new
        ≡ flat_map blank_hex_byte bytes.now ++ codes "\n" }
{
    let (first, second, third) = spaced_digits(padded(bytes));
    first.copy_to_slice(&mut text[..16]);
    second.copy_to_slice(&mut text[16..32]);
    third.copy_to_slice(&mut text[32..48]);
    text[3 * bytes.len()] = b'\n';
}

/// Prints a byte as two upper-case digits and an h, as in `29h`.
#[tactic(auto, unfolding(hex::specs::Hex::encode_with))]
pub(crate) fn put_hex_byte<W: Write>(byte: u8, out: &mut Printer<'_, W>)
    ensures { PrintsText W.contents out.old out.new (upper_hex_byte byte) }
{
    out.put(&[
        UPPER_DIGITS[(byte >> 4) as usize],
        UPPER_DIGITS[(byte & 0x0f) as usize],
        b'h',
    ]);
}
