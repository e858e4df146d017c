// Fields of three bits: SELF-TEST CODE, REPORTING OPTIONS, PARAMETER DATA FORMAT and DEFECT LIST FORMAT.
use std::marker::Model;

/// The number in a field of three bits, 0 to 7.
#[derive(Clone, Copy, Debug, PartialEq, Eq)]
pub struct ThreeBits {
    number: u8,
}

impl Model for ThreeBits {
    ghost use Rattle.std.specs.Prelude.{ℕ, ◌<◌};

    ghost Value = { ℕ };

    ghost view = { λ b. b.number };

    ghost invariant = { λ b. b.number < 8 };

    ghost inverse = { λ n. record { number = n } };
}

ghost use Rattle.std.specs.Prelude.{◌≡◌, ◌<◌};
ghost use Rattle.std.specs.Option.{SomeIff};
ghost use Rattle.sg_wire.specs.Bits.{bits_of};

impl ThreeBits {
    /// A number of three bits. None if it is not 0 to 7.
    pub fn new(number: u8) -> Option<ThreeBits>
        ensures { SomeIff result (number < 8) number }
    {
        if number < 8 {
            Some(ThreeBits { number })
        } else {
            None
        }
    }

    /// The number, 0 to 7.
    pub fn number(self) -> u8
        ensures value { result ≡ self }
        ensures bound { result < 8 }
    {
        self.number
    }

    /// The low three bits of a byte.
    pub(super) fn low(byte: u8) -> ThreeBits
        ensures { result ≡ bits_of byte 2 0 }
    {
        ThreeBits {
            number: byte & 0x07,
        }
    }

    /// The high three bits of a byte.
    pub(super) fn high(byte: u8) -> ThreeBits
        ensures { result ≡ bits_of byte 7 5 }
    {
        ThreeBits {
            number: (byte >> 5) & 0x07,
        }
    }
}
