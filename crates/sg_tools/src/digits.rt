// Hexadecimal digits, each of four bits.
ghost use Rattle.std.specs.Prelude.{◌≡◌};
ghost use Rattle.sg_tools.specs.HexDigits.{digit_or_none};

/// The value of a byte that is no digit.
const X: u8 = 255;

/// The values of the bytes `0` to `9`, `A` to `F` and `a` to `f` as digits, at 30h, 41h and 61h.
const VALUES: [u8; 256] = [
    X, X, X, X, X, X, X, X, X, X, X, X, X, X, X, X, X, X, X, X, X, X, X, X, X, X, X, X, X, X, X, X,
    X, X, X, X, X, X, X, X, X, X, X, X, X, X, X, X, 0, 1, 2, 3, 4, 5, 6, 7, 8, 9, X, X, X, X, X, X,
    X, 10, 11, 12, 13, 14, 15, X, X, X, X, X, X, X, X, X, X, X, X, X, X, X, X, X, X, X, X, X, X, X,
    X, X, X, 10, 11, 12, 13, 14, 15, X, X, X, X, X, X, X, X, X, X, X, X, X, X, X, X, X, X, X, X, X,
    X, X, X, X, X, X, X, X, X, X, X, X, X, X, X, X, X, X, X, X, X, X, X, X, X, X, X, X, X, X, X, X,
    X, X, X, X, X, X, X, X, X, X, X, X, X, X, X, X, X, X, X, X, X, X, X, X, X, X, X, X, X, X, X, X,
    X, X, X, X, X, X, X, X, X, X, X, X, X, X, X, X, X, X, X, X, X, X, X, X, X, X, X, X, X, X, X, X,
    X, X, X, X, X, X, X, X, X, X, X, X, X, X, X, X, X, X, X, X, X, X, X, X, X, X, X, X, X, X, X, X,
    X, X, X, X,
];

/// The value of a hexadecimal digit in either case, below 16, or 255.
pub fn digit_value(byte: u8) -> u8
    ensures { result ≡ digit_or_none byte }
{
    VALUES[byte as usize]
}
