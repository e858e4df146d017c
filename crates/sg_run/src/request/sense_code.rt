// The word of a sense code in a script: `KEY/ASC/ASCQ`, in hexadecimal digits.
ghost use Rattle.std.specs.Prelude.{◌≡◌, ◌<◌, IfSome};
ghost use Rattle.hex.specs.Hex.{hex_digit_value};
ghost use Rattle.sg_run.specs.SenseCodeWord.{hex_byte, sense_code_of};

use sg_faults::SenseCode;
use sg_tools::digit_value;

/// A sense code, as in `3/11/00`.
pub(super) fn read_sense_code(word: &[u8]) -> Option<SenseCode>
    ensures { result ≡ sense_code_of word.now }
{
    let [key, b'/', asc_high, asc_low, b'/', ascq_high, ascq_low] = word else {
        return None;
    };
    let key = read_digit(*key)?;
    let asc = read_hex_byte(*asc_high, *asc_low)?;
    let ascq = read_hex_byte(*ascq_high, *ascq_low)?;
    SenseCode::new(key, asc, ascq)
}

/// The value of two hexadecimal digits.
pub(super) fn read_hex_byte(high: u8, low: u8) -> Option<u8>
    ensures { result ≡ hex_byte high low }
{
    Some(read_digit(high)? * 16 + read_digit(low)?)
}

fn read_digit(digit: u8) -> Option<u8>
    ensures value { result ≡ hex_digit_value digit }
    ensures bound { IfSome result (λ value. value < 16) }
{
    let value = digit_value(digit);
    if value < 16 { Some(value) } else { None }
}
