// The reports about copies.
ghost use Rattle.std.specs.Prelude.{◌≡◌, length};
ghost use Rattle.sg_wire.specs.Cut.{Puts};
ghost use Rattle.sg_copy.specs.CopyReports.{copy_status, operating_parameters};

use crate::copy_list::{
    BLOCK_TO_BLOCK, IDENTIFICATION, MAXIMUM_CSCDS, MAXIMUM_DESCRIPTORS_LENGTH, MAXIMUM_SEGMENTS,
    Segment,
};
use byteorder::{BigEndian, ByteOrder};
use sg_wire::Cut;

/// The length of a logical block, in bytes.
const BLOCK_LENGTH: u32 = 512;

/// The same, as a power of two.
const BLOCK_EXPONENT: u8 = 9;

/// SNLID: LIST ID USAGE may be 11b, no LIST IDENTIFIER.
const SNLID: u8 = 0x01;

/// COPY COMMAND STATUS: the copy ended without errors.
const ENDED: u8 = 0x01;

/// Writes the data of RECEIVE COPY OPERATING PARAMETERS (SPC-4, 6.23), 46 bytes. `maximum_blocks` is the most
/// blocks that an EXTENDED COPY copies, at least 1.
pub fn write_operating_parameters(maximum_blocks: u16, cut: &mut Cut)
    ensures data { Puts cut.old cut.new (operating_parameters maximum_blocks) }
    ensures length { length (operating_parameters maximum_blocks) ≡ 46 }
{
    cut.put(&operating_parameters(maximum_blocks));
}

#[tactic(auto, unfolding(crate::specs::CopyReports::operating_parameters))]
fn operating_parameters(maximum_blocks: u16) -> [u8; 46]
    ensures data { result ≡ operating_parameters maximum_blocks }
    ensures length { length (operating_parameters maximum_blocks) ≡ 46 }
{
    let mut bytes = [0; 46];
    BigEndian::write_u32(&mut bytes, 42);
    bytes[4] = SNLID;
    BigEndian::write_u16(&mut bytes[8..], MAXIMUM_CSCDS as u16);
    BigEndian::write_u16(&mut bytes[10..], MAXIMUM_SEGMENTS as u16);
    BigEndian::write_u32(&mut bytes[12..], MAXIMUM_DESCRIPTORS_LENGTH as u32);
    BigEndian::write_u32(&mut bytes[16..], BLOCK_LENGTH * u32::from(maximum_blocks));
    BigEndian::write_u16(&mut bytes[34..], 1);
    bytes[36] = 1;
    bytes[37] = BLOCK_EXPONENT;
    bytes[38] = BLOCK_EXPONENT;
    bytes[39] = BLOCK_EXPONENT;
    bytes[43] = 2;
    bytes[44] = BLOCK_TO_BLOCK;
    bytes[45] = IDENTIFICATION;
    bytes
}

/// Writes the data of RECEIVE COPY STATUS(LID1) (SPC-4, 6.25), 12 bytes, about an EXTENDED COPY that ended
/// without errors. `segment` is what it copied.
pub fn write_copy_status(segment: Option<Segment>, cut: &mut Cut)
    ensures { Puts cut.old cut.new (copy_status segment) }
{
    cut.put(&copy_status(segment));
}

#[tactic(auto, unfolding(crate::specs::CopyReports::copy_status))]
fn copy_status(segment: Option<Segment>) -> [u8; 12]
    ensures { result ≡ copy_status segment }
{
    let mut bytes = [0; 12];
    bytes[3] = 8;
    bytes[4] = ENDED;
    if let Some(segment) = segment {
        bytes[6] = 1;
        BigEndian::write_u32(&mut bytes[8..], BLOCK_LENGTH * u32::from(segment.blocks));
    }
    bytes
}
