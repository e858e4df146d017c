// The fields of an answer, and the texts of their values.
ghost use Rattle.std.specs.Prelude.{◌≡◌, ◌≤◌, ◌<◌, ◌+◌, ◌%◌, ◌^◌, ◌++◌, drop, [], length, codes};
ghost use Rattle.std.specs.Prelude.{option_map, true, if◌then◌else◌};
ghost use Rattle.byteorder.specs.Endian.{big_number};
ghost use Rattle.hex.specs.Hex.{encode_lower};
ghost use Rattle.sg_wire.specs.Printer.{PrintsText};
ghost use Rattle.sg_wire.specs.Bits.{bits_of, has_bit};
ghost use Rattle.sg_decode.specs.Values.{value_text, value_end, is_sound};
ghost use Rattle.sg_decode.specs.Values.{provisioning_name, provisioning_text, type_names};

use crate::hex_lines::put_hex_byte;
use crate::number_text::{put_bracketed, put_joined_hex, put_number, sixteen_digits};
use byteorder::{BigEndian, ByteOrder};
use sg_wire::Printer;
use std::io::Write;

/// The place of a value in some bytes, and how it is shown. A byte is named by its index.
pub(crate) enum Value {
    /// The bits of a byte from a high one down to a low one, in decimal.
    Bits(usize, u8, u8),
    /// The bits of a byte from a high one down to a low one, as two upper-case digits and an h.
    Code(usize, u8, u8),
    /// A number in decimal, most significant byte first: its first byte, and how many it has.
    Number(usize, usize),
    /// Eight bytes from the first on, as `0x` and sixteen digits.
    Address(usize),
    /// Bytes as `0x` and two digits each: the first, and how many they are.
    Digits(usize, usize),
    /// The low fourteen bits of two bytes, in decimal: LOWEST ALIGNED LOGICAL BLOCK ADDRESS (SBC-3,
    /// 5.16.2).
    AlignedAddress(usize),
    /// A text in brackets: its first byte, and how many it has.
    Text(usize, usize),
    /// All bytes from the first on, as a text in brackets.
    TextFrom(usize),
    /// All bytes from the first on, as two digits each.
    HexFrom(usize),
    /// PROVISIONING STATUS, the low four bits of a byte (SBC-3, 5.4.2.2).
    ProvisioningStatus(usize),
    /// The types of a PERSISTENT RESERVATION TYPE MASK of two bytes, by name (SPC-4, 6.15.4).
    ReservationTypes(usize),
}

/// A label and the value after it.
pub(crate) struct Field(pub &'static [u8], pub Value);

impl Value {
    /// The index after the last byte that the value needs.
    pub(crate) fn end(&self) -> usize
        requires { is_sound self.now ≡ true }
        ensures { result ≡ value_end self.now }
    {
        match self {
            Value::Bits(byte, _, _) | Value::Code(byte, _, _) => *byte + 1,
            Value::Number(first, count) | Value::Digits(first, count) | Value::Text(first, count) =>
                *first + *count,
            Value::Address(first) => *first + 8,
            Value::TextFrom(first) | Value::HexFrom(first) => *first,
            Value::ProvisioningStatus(byte) => *byte + 1,
            Value::AlignedAddress(first) | Value::ReservationTypes(first) => *first + 2,
        }
    }

    /// Prints the value that it has in some bytes.
    #[tactic(auto, using(crate::proofs::TextLemmas::prints), unfolding(crate::specs::Values::value_text))]
    pub(crate) fn put_text<W: Write>(&self, bytes: &[u8], out: &mut Printer<'_, W>)
        requires sound { is_sound self.now ≡ true }
        requires present { value_end self.now ≤ length bytes.now }
        ensures { PrintsText W.contents out.old out.new (value_text self.now bytes.now) }
    {
        match self {
            Value::Bits(byte, high, low) => put_number(
                u64::from(bits_of(bytes[*byte], *high, *low)),
                out,
            ),
            Value::Code(byte, high, low) => put_hex_byte(bits_of(bytes[*byte], *high, *low), out),
            Value::Number(first, count) => put_number(
                BigEndian::read_uint(&bytes[*first..], *count),
                out,
            ),
            Value::Address(first) => put_address(&bytes[*first..*first + 8], out),
            Value::Digits(first, count) => put_digits(&bytes[*first..*first + *count], out),
            Value::AlignedAddress(first) => put_number(aligned_address(&bytes[*first..]), out),
            Value::Text(first, count) => put_bracketed(&bytes[*first..*first + *count], out),
            Value::TextFrom(first) => put_bracketed(&bytes[*first..], out),
            Value::HexFrom(first) => put_joined_hex(&bytes[*first..], out),
            Value::ProvisioningStatus(byte) => put_provisioning_status(
                bits_of(bytes[*byte], 3, 0),
                out,
            ),
            Value::ReservationTypes(first) => put_reservation_types(&bytes[*first..], out),
        }
    }
}

/// The number of two bytes from `first` on, most significant byte first.
pub(crate) fn number_of_two(first: usize, bytes: &[u8]) -> usize
    requires { first + 2 ≤ length bytes.now }
    ensures value { result ≡ big_number 2 (drop first bytes.now) }
    ensures bound { result < 2 ^ 16 }
{
    usize::from(BigEndian::read_u16(&bytes[first..]))
}

/// The number of four bytes from `first` on, most significant byte first.
pub(crate) fn number_of_four(first: usize, bytes: &[u8]) -> usize
    requires { first + 4 ≤ length bytes.now }
    ensures value { result ≡ big_number 4 (drop first bytes.now) }
    ensures bound { result < 2 ^ 32 }
{
    BigEndian::read_u32(&bytes[first..]) as usize
}

/// The bits of a byte from a high one down to a low one.
pub(crate) fn bits_of(byte: u8, high: u8, low: u8) -> u8
    requires order { low ≤ high }
    requires high { high < 8 }
    ensures { result ≡ bits_of byte high low }
{
    let mask = (1u16 << (high + 1 - low)) - 1;
    (u16::from(byte >> low) & mask) as u8
}

#[tactic(auto, using(crate::proofs::TextLemmas::prints))]
fn put_address<W: Write>(bytes: &[u8], out: &mut Printer<'_, W>)
    requires { length bytes.now ≡ 8 }
    ensures { PrintsText W.contents out.old out.new (codes "0x" ++ encode_lower bytes.now) }
{
    out.put(b"0x");
    out.put(&sixteen_digits(bytes));
}

#[tactic(auto, using(crate::proofs::TextLemmas::prints))]
fn put_digits<W: Write>(bytes: &[u8], out: &mut Printer<'_, W>)
    ensures { PrintsText W.contents out.old out.new (codes "0x" ++ encode_lower bytes.now) }
{
    out.put(b"0x");
    put_joined_hex(bytes, out);
}

/// The low fourteen bits of two bytes.
fn aligned_address(bytes: &[u8]) -> u64
    requires { 2 ≤ length bytes.now }
    ensures { result ≡ big_number 2 bytes.now % 2 ^ 14 }
{
    u64::from(BigEndian::read_u16(bytes) % (1 << 14))
}

#[tactic(auto, using(crate::proofs::TextLemmas::prints))]
fn put_provisioning_status<W: Write>(status: u8, out: &mut Printer<'_, W>)
    ensures { PrintsText W.contents out.old out.new (provisioning_text status) }
{
    match provisioning_name(status) {
        Some(name) => out.put(name),
        None => {
            out.put(b"reserved ");
            put_number(u64::from(status), out);
        }
    }
}

fn provisioning_name(status: u8) -> Option<&'static [u8]>
    ensures { option_map (λ b. b.now) result ≡ provisioning_name status }
{
    match status {
        0 => Some(b"mapped"),
        1 => Some(b"deallocated"),
        2 => Some(b"anchored"),
        _ => None,
    }
}

/// Prints the name of each type whose bit is set in a type mask.
fn put_reservation_types<W: Write>(types: &[u8], out: &mut Printer<'_, W>)
    requires { 2 ≤ length types.now }
    ensures { PrintsText W.contents out.old out.new (type_names types.now) }
{
    put_reservation_type(types[0], 0x02, b" WE", out);
    put_reservation_type(types[0], 0x08, b" EA", out);
    put_reservation_type(types[0], 0x20, b" WE-RO", out);
    put_reservation_type(types[0], 0x40, b" EA-RO", out);
    put_reservation_type(types[0], 0x80, b" WE-AR", out);
    put_reservation_type(types[1], 0x01, b" EA-AR", out);
}

#[tactic(auto, using(crate::proofs::TextLemmas::prints))]
fn put_reservation_type<W: Write>(byte: u8, mask: u8, name: &[u8], out: &mut Printer<'_, W>)
    ensures { let text = if has_bit byte mask then name.now else [] in
        PrintsText W.contents out.old out.new text }
{
    if byte & mask != 0 {
        out.put(name);
    }
}
