// Sixteen bytes at a time as hexadecimal digits.
ghost use Rattle.std.specs.Prelude.{◌≡◌, ◌≤◌, ◌++◌, length, map, take, codes};
ghost use Rattle.std.specs.List.{flat_map};
ghost use Rattle.sg_decode.specs.HexText.{hex_offset};
ghost use Rattle.sg_decode.specs.HexPieces.{high_digit, low_digit, spaced_digits};

use std::simd::prelude::*;

pub(super) const LOWER_DIGITS: [u8; 16] = *b"0123456789abcdef";

/// Two blanks, an offset in eight digits and one more blank: the first 11 lanes. The others do not
/// matter.
pub(super) fn spaced_offset(offset: u32) -> u8x16
    ensures text { take 11 result ≡ codes "  " ++ (hex_offset offset ++ codes " ") }
    ensures length { length result ≡ 16 }
{
    let [a, b, c, d] = offset.to_be_bytes();
    let bytes = u8x16::from_array([a, b, c, d, 0, 0, 0, 0, 0, 0, 0, 0, 0, 0, 0, 0]);
    let (digits, _) = high_digits(bytes).interleave(low_digits(bytes));
    // Lane 16 of the two vectors is a blank.
    let blanks = u8x16::splat(b' ');
    digits.shuffle(
        blanks,
        [16, 16, 0, 1, 2, 3, 4, 5, 6, 7, 16, 16, 16, 16, 16, 16],
    )
}

/// The text of sixteen bytes, 48 characters in three vectors: each byte as two digits, with a blank
/// before them.
pub(super) fn spaced_digits(bytes: u8x16) -> (u8x16, u8x16, u8x16)
    ensures digits { result.0 ++ (result.1 ++ result.2) ≡ flat_map spaced_digits bytes }
    ensures lengths { (length result.0 ≡ 16) × (length result.1 ≡ 16) × (length result.2 ≡ 16) }
{
    // The digits in order, shown here for the bytes 00h, 11h, 22h .. ffh: `0011223344556677` and
    // `8899aabbccddeeff`.
    let (front, back) = high_digits(bytes).interleave(low_digits(bytes));
    // The second vector of the text needs some of both: `445566778899aabb`.
    let middle: u8x16 = front.shuffle(
        back,
        [8, 9, 10, 11, 12, 13, 14, 15, 16, 17, 18, 19, 20, 21, 22, 23],
    );
    // Each shuffle sets lane 16, a blank, before each pair.
    let blanks = u8x16::splat(b' ');
    (
        // ` 00 11 22 33 44 `
        front.shuffle(
            blanks,
            [16, 0, 1, 16, 2, 3, 16, 4, 5, 16, 6, 7, 16, 8, 9, 16],
        ),
        // `55 66 77 88 99 a`
        middle.shuffle(
            blanks,
            [2, 3, 16, 4, 5, 16, 6, 7, 16, 8, 9, 16, 10, 11, 16, 12],
        ),
        // `a bb cc dd ee ff`
        back.shuffle(
            blanks,
            [5, 16, 6, 7, 16, 8, 9, 16, 10, 11, 16, 12, 13, 16, 14, 15],
        ),
    )
}

/// At most sixteen bytes, with zeros after them.
pub(super) fn padded(bytes: &[u8]) -> u8x16
    requires { length bytes.now ≤ 16 }
    ensures bytes { take (length bytes.now) result ≡ bytes.now }
    ensures length { length result ≡ 16 }
{
    if bytes.len() == 16 {
        return u8x16::from_slice(bytes);
    }
    let mut padded = [0; 16];
    padded[..bytes.len()].copy_from_slice(bytes);
    u8x16::from_array(padded)
}

/// The first digit of each byte: its high half, looked up in the sixteen digits.
fn high_digits(bytes: u8x16) -> u8x16
    ensures { result ≡ map high_digit bytes }
{
    u8x16::from_array(LOWER_DIGITS).swizzle_dyn(bytes >> u8x16::splat(4))
}

/// The second digit of each byte, by its low half.
fn low_digits(bytes: u8x16) -> u8x16
    ensures { result ≡ map low_digit bytes }
{
    u8x16::from_array(LOWER_DIGITS).swizzle_dyn(bytes & u8x16::splat(15))
}
