// Bytes in a script and in an option: two hexadecimal digits each, or `-` for none.
ghost use Rattle.std.specs.Prelude.{◌≡◌, ◌≤◌, ◌*◌, length, take, Some, None, MatchOption, IfSome};
ghost use Rattle.std.specs.Prelude.{if◌then◌else◌};
ghost use Rattle.std.specs.Result.{result_ok};
ghost use Rattle.hex.specs.Hex.{decode_of};
ghost use Rattle.sg_tools.specs.HexDigits.{hex_bytes};

use crate::digits::digit_value;

/// Reads a word of hexadecimal digits into the first bytes of the buffer, and returns their number.
pub fn read_hex(word: &[u8], buffer: &mut [u8]) -> Option<usize>
    requires { length word.now ≤ 2 * length buffer.old }
    ensures bytes { MatchOption result (hex_bytes word.now ≡ None) (λ n.
        hex_bytes word.now ≡ Some (take n buffer.new)) }
    ensures length { IfSome result (λ n. n * 2 ≤ length word.now) }
{
    if word == b"-".as_slice() {
        return Some(0);
    }
    if word.len() % 2 == 1 {
        return None;
    }
    let count = word.len() / 2;
    if decode(word, &mut buffer[..count]) {
        Some(count)
    } else {
        None
    }
}

/// Reads pairs of digits into bytes, and returns whether they were digits. It reads all of them in
/// any case, because a test that can end the loop would take longer than the digits after it. Long
/// lines consist of digits, so there is no branch for each.
fn decode(digits: &[u8], bytes: &mut [u8]) -> bool
    requires { length digits.now ≡ 2 * length bytes.old }
    ensures { result_ok (decode_of digits.now) ≡ (if result then Some bytes.new else None) }
{
    let mut are_digits = true;
    for i in 0..bytes.len() {
        let high = digit_value(digits[2 * i]);
        let low = digit_value(digits[2 * i + 1]);
        are_digits &= high < 16;
        are_digits &= low < 16;
        bytes[i] = high.wrapping_mul(16).wrapping_add(low);
    }
    are_digits
}
