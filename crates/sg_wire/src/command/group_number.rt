// UNMAP keeps its GROUP NUMBER, though the disk groups no blocks and so ignores it.
use std::marker::Model;

/// A GROUP NUMBER, 0 to 31 (SBC-3, grouping function).
#[derive(Clone, Copy, Debug, PartialEq, Eq)]
pub struct GroupNumber {
    number: u8,
}

impl Model for GroupNumber {
    ghost use Rattle.std.specs.Prelude.{ℕ, ◌<◌};

    ghost Value = { ℕ };

    ghost view = { λ g. g.number };

    ghost invariant = { λ g. g.number < 32 };

    ghost inverse = { λ n. record { number = n } };
}

ghost use Rattle.std.specs.Prelude.{◌≡◌, ◌<◌};
ghost use Rattle.std.specs.Option.{SomeIff};
ghost use Rattle.sg_wire.specs.Bits.{bits_of};

impl GroupNumber {
    /// The group with a number. None if the number is not 0 to 31.
    pub fn new(number: u8) -> Option<GroupNumber>
        ensures { SomeIff result (number < 32) number }
    {
        if number < 32 {
            Some(GroupNumber { number })
        } else {
            None
        }
    }

    /// Its number, 0 to 31.
    pub fn number(self) -> u8
        ensures value { result ≡ self }
        ensures bound { result < 32 }
    {
        self.number
    }

    /// The group in the low five bits of a byte.
    pub(super) fn of_byte(byte: u8) -> GroupNumber
        ensures { result ≡ bits_of byte 4 0 }
    {
        GroupNumber {
            number: byte & 0x1F,
        }
    }
}
