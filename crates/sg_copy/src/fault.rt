// The faults of EXTENDED COPY, and their sense data.
ghost use Rattle.std.specs.Prelude.{◌≡◌, ◌≤◌};
ghost use Rattle.sg_wire.specs.Sense.{fields_of};
ghost use Rattle.sg_copy.specs.CopyFaults.{copy_sense, plain, qualifier_of};

use sg_wire::{Pointer, Sense};
use thiserror::Error;

/// The sense key COPY ABORTED (SPC-4, sense key descriptions).
const COPY_ABORTED: u8 = 10;

/// Why an EXTENDED COPY is refused.
#[derive(Clone, Copy, Debug, Error, PartialEq, Eq)]
pub enum CopyFault {
    /// PARAMETER LIST LENGTH ERROR: the list ends early, or its descriptors are too long.
    #[error("the length of the list is wrong")]
    Length,
    /// The disk does not support what the list has at a byte.
    #[error("{what} at byte {byte}")]
    InvalidAt { what: Invalid, byte: u16 },
    /// COPY TARGET DEVICE NOT REACHABLE: a CSCD DESCRIPTOR ID does not lead to the unit.
    #[error("the source or the destination is not this unit")]
    NotReachable,
    /// INCORRECT COPY TARGET DEVICE TYPE: a CSCD descriptor has another PERIPHERAL DEVICE TYPE.
    #[error("a CSCD descriptor has another device type")]
    OtherDeviceType,
    /// NO ADDITIONAL SENSE INFORMATION: a block to read or to write is past the last block of the unit.
    #[error("a block is past the last one")]
    PastCapacity,
}

/// What the disk does not support at a byte of a list.
#[derive(Clone, Copy, Debug, Error, PartialEq, Eq)]
pub enum Invalid {
    /// INVALID FIELD IN PARAMETER LIST.
    #[error("a field is invalid")]
    Field,
    /// TOO MANY TARGET DESCRIPTORS.
    #[error("there are too many CSCD descriptors")]
    TooManyCscds,
    /// UNSUPPORTED TARGET DESCRIPTOR TYPE CODE.
    #[error("the type of a CSCD descriptor is not supported")]
    CscdType,
    /// TOO MANY SEGMENT DESCRIPTORS.
    #[error("there are too many segment descriptors")]
    TooManySegments,
    /// UNSUPPORTED SEGMENT DESCRIPTOR TYPE CODE.
    #[error("the type of the segment descriptor is not supported")]
    SegmentType,
    /// INLINE DATA LENGTH EXCEEDED.
    #[error("inline data is not supported")]
    InlineData,
}

impl CopyFault {
    /// The sense data that reports it.
    pub fn sense(self) -> Sense
        ensures { fields_of result ≡ copy_sense self }
    {
        match self {
            CopyFault::Length => plain(Sense::ILLEGAL_REQUEST, 0x1A, 0x00),
            CopyFault::InvalidAt { what, byte } => Sense {
                key: Sense::ILLEGAL_REQUEST,
                asc: 0x26,
                ascq: what.qualifier(),
                information: None,
                pointer: Some(Pointer {
                    in_command: false,
                    byte,
                }),
            },
            CopyFault::NotReachable => plain(COPY_ABORTED, 0x0D, 0x02),
            CopyFault::OtherDeviceType => plain(COPY_ABORTED, 0x0D, 0x03),
            CopyFault::PastCapacity => plain(COPY_ABORTED, 0x00, 0x00),
        }
    }
}

impl Invalid {
    /// The qualifier of additional sense code 26h that reports it.
    pub fn qualifier(self) -> u8
        ensures { result ≡ qualifier_of self }
    {
        match self {
            Invalid::Field => 0x00,
            Invalid::TooManyCscds => 0x06,
            Invalid::CscdType => 0x07,
            Invalid::TooManySegments => 0x08,
            Invalid::SegmentType => 0x09,
            Invalid::InlineData => 0x0B,
        }
    }
}

fn plain(key: u8, asc: u8, ascq: u8) -> Sense
    requires { key ≤ 15 }
    ensures { fields_of result ≡ plain key asc ascq }
{
    Sense {
        key,
        asc,
        ascq,
        information: None,
        pointer: None,
    }
}
