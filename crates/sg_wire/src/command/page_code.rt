// A PAGE CODE has six bits, because PC is above it in the same byte.
use std::marker::Model;

/// A PAGE CODE of mode pages, 0 to 3Fh (SPC-4, 6.13).
#[derive(Clone, Copy, Debug, PartialEq, Eq)]
pub struct PageCode {
    number: u8,
}

impl Model for PageCode {
    ghost use Rattle.std.specs.Prelude.{ℕ, ◌<◌};

    ghost Value = { ℕ };

    ghost view = { λ p. p.number };

    ghost invariant = { λ p. p.number < 64 };

    ghost inverse = { λ n. record { number = n } };
}

ghost use Rattle.std.specs.Prelude.{◌≡◌, ◌<◌};
ghost use Rattle.std.specs.Option.{SomeIff};
ghost use Rattle.sg_wire.specs.Bits.{bits_of};

impl PageCode {
    /// The code with a number. None if the number is not 0 to 3Fh.
    pub fn new(number: u8) -> Option<PageCode>
        ensures { SomeIff result (number < 64) number }
    {
        if number < 64 {
            Some(PageCode { number })
        } else {
            None
        }
    }

    /// Its number, 0 to 3Fh.
    pub fn number(self) -> u8
        ensures value { result ≡ self }
        ensures bound { result < 64 }
    {
        self.number
    }

    /// The code in the low six bits of a byte.
    pub(super) fn of_byte(byte: u8) -> PageCode
        ensures { result ≡ bits_of byte 5 0 }
    {
        PageCode {
            number: byte & 0x3F,
        }
    }
}
