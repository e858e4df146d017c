// READ CAPACITY data (SBC-3, 5.15.2 and 5.16.2).
ghost use Rattle.sg_wire.specs.Printer.{PrintsText};
ghost use Rattle.sg_decode.specs.Items.{decoded};
ghost use Rattle.sg_decode.specs.Capacity.{capacity_10, capacity_16};

use crate::items::show_lines;
use crate::value::{Field, Value};
use sg_wire::Printer;
use std::io::Write;

const TEN: [&[Field]; 2] = [
    &[Field(b"  returned logical block address: ", Value::Number(0, 4))],
    &[Field(b"  logical block length: ", Value::Number(4, 4))],
];

const SIXTEEN: [&[Field]; 6] = [
    &[Field(b"  returned logical block address: ", Value::Number(0, 8))],
    &[Field(b"  logical block length: ", Value::Number(8, 4))],
    &[
        Field(b"  P_TYPE: ", Value::Bits(12, 3, 1)),
        Field(b", PROT_EN: ", Value::Bits(12, 0, 0)),
    ],
    &[
        Field(b"  P_I_EXPONENT: ", Value::Bits(13, 7, 4)),
        Field(
            b", logical blocks per physical block exponent: ",
            Value::Bits(13, 3, 0),
        ),
    ],
    &[
        Field(b"  LBPME: ", Value::Bits(14, 7, 7)),
        Field(b", LBPRZ: ", Value::Bits(14, 6, 6)),
    ],
    &[Field(
        b"  lowest aligned logical block address: ",
        Value::AlignedAddress(14),
    )],
];

/// Prints the data of READ CAPACITY(10) (SBC-3, 5.15.2).
pub fn put_capacity_10<W: Write>(bytes: &[u8], out: &mut Printer<'_, W>)
    ensures { PrintsText W.contents out.old out.new (decoded capacity_10 bytes.now) }
{
    show_lines(&TEN, None, bytes, out);
}

/// Prints the data of READ CAPACITY(16) (SBC-3, 5.16.2).
pub fn put_capacity_16<W: Write>(bytes: &[u8], out: &mut Printer<'_, W>)
    ensures { PrintsText W.contents out.old out.new (decoded capacity_16 bytes.now) }
{
    show_lines(&SIXTEEN, None, bytes, out);
}
