// The values of fields as text: in decimal, as characters in brackets, or as digits.
ghost use Rattle.std.specs.Prelude.{◌≡◌, ◌++◌, decimal, codes, length, map};
ghost use Rattle.hex.specs.Hex.{encode_lower};
ghost use Rattle.sg_wire.specs.Printer.{PrintsText};
ghost use Rattle.sg_decode.specs.HexText.{hex_byte};
ghost use Rattle.sg_decode.specs.Values.{printable, bracketed};

use itoa::Buffer;
use sg_wire::{Printer, is_printable};
use std::io::Write;

/// Prints a number in decimal.
pub fn put_number<W: Write>(number: u64, out: &mut Printer<'_, W>)
    ensures { PrintsText W.contents out.old out.new (decimal number) }
{
    let mut digits = Buffer::new();
    out.put(digits.format(number).as_bytes());
}

/// Prints bytes as a text in brackets. A byte that is no printable ASCII is printed as a dot.
#[tactic(auto, using(crate::proofs::TextLemmas::prints))]
pub(crate) fn put_bracketed<W: Write>(bytes: &[u8], out: &mut Printer<'_, W>)
    ensures { PrintsText W.contents out.old out.new (bracketed bytes.now) }
{
    out.put(b"[");
    put_printable(bytes, out);
    out.put(b"]");
}

fn put_printable<W: Write>(bytes: &[u8], out: &mut Printer<'_, W>)
    ensures { PrintsText W.contents out.old out.new (map printable bytes.now) }
{
    for byte in bytes {
        out.put(&[printable(*byte)]);
    }
}

fn printable(byte: u8) -> u8
    ensures { result ≡ printable byte }
{
    if is_printable(byte) { byte } else { b'.' }
}

/// Prints bytes as two lower-case digits each.
pub(crate) fn put_joined_hex<W: Write>(bytes: &[u8], out: &mut Printer<'_, W>)
    ensures { PrintsText W.contents out.old out.new (encode_lower bytes.now) }
{
    for byte in bytes {
        out.put(&digits_of(*byte));
    }
}

/// The sixteen digits of eight bytes, in lower case.
pub(crate) fn sixteen_digits(bytes: &[u8]) -> [u8; 16]
    requires { length bytes.now ≡ 8 }
    ensures { result ≡ encode_lower bytes.now }
{
    let mut digits = [0; 16];
    hex::encode_to_slice(bytes, &mut digits).unwrap();
    digits
}

/// The two digits of a byte, in lower case.
fn digits_of(byte: u8) -> [u8; 2]
    ensures { result ≡ hex_byte byte }
{
    let mut digits = [0; 2];
    hex::encode_to_slice([byte], &mut digits).unwrap();
    digits
}
