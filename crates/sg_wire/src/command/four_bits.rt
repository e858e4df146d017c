// Fields of four bits: POWER CONDITION and POWER CONDITION MODIFIER.
use std::marker::Model;

/// The number in a field of four bits, 0 to 15.
#[derive(Clone, Copy, Debug, PartialEq, Eq)]
pub struct FourBits {
    number: u8,
}

impl Model for FourBits {
    ghost use Rattle.std.specs.Prelude.{ℕ, ◌<◌};

    ghost Value = { ℕ };

    ghost view = { λ b. b.number };

    ghost invariant = { λ b. b.number < 16 };

    ghost inverse = { λ n. record { number = n } };
}

ghost use Rattle.std.specs.Prelude.{◌≡◌, ◌<◌};
ghost use Rattle.std.specs.Option.{SomeIff};
ghost use Rattle.sg_wire.specs.Bits.{bits_of};

impl FourBits {
    /// A number of four bits. None if it is not 0 to 15.
    pub fn new(number: u8) -> Option<FourBits>
        ensures { SomeIff result (number < 16) number }
    {
        if number < 16 {
            Some(FourBits { number })
        } else {
            None
        }
    }

    /// The number, 0 to 15.
    pub fn number(self) -> u8
        ensures value { result ≡ self }
        ensures bound { result < 16 }
    {
        self.number
    }

    /// The low four bits of a byte.
    pub(super) fn low(byte: u8) -> FourBits
        ensures { result ≡ bits_of byte 3 0 }
    {
        FourBits {
            number: byte & 0x0F,
        }
    }

    /// The high four bits of a byte.
    pub(super) fn high(byte: u8) -> FourBits
        ensures { result ≡ bits_of byte 7 4 }
    {
        FourBits {
            number: (byte >> 4) & 0x0F,
        }
    }
}
