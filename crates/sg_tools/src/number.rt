// Numbers are read in one way in scripts and in options: decimal, or hexadecimal with 0x or h.
ghost use Rattle.std.specs.Prelude.{◌≡◌, ◌≤◌, IfSome};
ghost use Rattle.sg_tools.specs.Number.{number_in, number_of, number_up_to};

use crate::digits::digit_value;

/// The number of a word: decimal digits, or `0x` and hexadecimal digits, or hexadecimal digits and
/// `h`, with letters in either case. None if it is no such word or has more than 64 bits.
#[tactic(auto, unfolding(crate::specs::Number::number_of))]
pub fn read_number(word: &[u8]) -> Option<u64>
    ensures { result ≡ number_of word.now }
{
    match word {
        [b'0', b'x' | b'X', digits @ ..] => read_digits(digits, 16),
        [digits @ .., b'h' | b'H'] => read_digits(digits, 16),
        _ => read_digits(word, 10),
    }
}

/// The number of a word, if it is at most a limit.
pub fn read_number_up_to(limit: u64, word: &[u8]) -> Option<u64>
    ensures value { result ≡ number_up_to limit word.now }
    ensures within { IfSome result (λ n. n ≤ limit) }
{
    let number = read_number(word)?;
    if number > limit {
        return None;
    }
    Some(number)
}

/// The value of digits of a radix, without a sign.
pub(crate) fn read_digits(digits: &[u8], radix: u64) -> Option<u64>
    requires at_least_1 { 1 ≤ radix }
    requires at_most_16 { radix ≤ 16 }
    ensures { result ≡ number_in radix digits.now }
{
    if digits.is_empty() {
        return None;
    }
    let mut number: u64 = 0;
    for byte in digits {
        let digit = u64::from(digit_value(*byte));
        if digit >= radix {
            return None;
        }
        number = number.checked_mul(radix)?.checked_add(digit)?;
    }
    Some(number)
}
