// Copies within the unit: EXTENDED COPY(LID1) and RECEIVE COPY OPERATING PARAMETERS (SPC-4, 6.5 and 6.23).
ghost use Rattle.std.specs.Prelude.{◌≡◌, true};
ghost use Rattle.sg_wire.specs.CdbEncoding.{cdb_of};
ghost use Rattle.sg_wire.specs.FieldRoom.{fits_cdb};
ghost use Rattle.sg_wire.specs.Table.{command_by, layout_of};
ghost use Rattle.sg_wire.specs.declared.command.table.Name.{Name};

use super::rows::{EXTENDED_COPY, RECEIVE_COPY_OPERATING_PARAMETERS};
use super::table::check_row;
use super::{CdbFault, Command};
use crate::bytes::CdbBytes;
use byteorder::{BigEndian, ByteOrder};

/// The fields of EXTENDED COPY(LID1) (SPC-4, 6.5).
#[derive(Clone, Copy, Debug, PartialEq, Eq)]
pub struct ExtendedCopy {
    /// The parameter list length, in bytes.
    pub list_length: u32,
}

/// The fields of RECEIVE COPY OPERATING PARAMETERS (SPC-4, 6.23).
#[derive(Clone, Copy, Debug, PartialEq, Eq)]
pub struct ReceiveCopyOperatingParameters {
    /// The allocation length, in bytes.
    pub allocation_length: u32,
}

// ---- Decoding

pub(super) fn decode_extended_copy(cdb: &[u8]) -> Result<Command, CdbFault>
    ensures { result ≡ command_by (layout_of Name.ExtendedCopy) cdb.now }
{
    check_row(&EXTENDED_COPY, cdb)?;
    Ok(Command::ExtendedCopy(ExtendedCopy {
        list_length: BigEndian::read_u32(&cdb[10..]),
    }))
}

pub(super) fn decode_operating_parameters(cdb: &[u8]) -> Result<Command, CdbFault>
    ensures { result ≡ command_by (layout_of Name.ReceiveCopyOperatingParameters) cdb.now }
{
    check_row(&RECEIVE_COPY_OPERATING_PARAMETERS, cdb)?;
    Ok(Command::ReceiveCopyOperatingParameters(ReceiveCopyOperatingParameters {
        allocation_length: BigEndian::read_u32(&cdb[10..]),
    }))
}

// ---- Encoding

impl ExtendedCopy {
    #[tactic(auto, unfolding(crate::specs::CdbEncoding::cdb_of))]
    pub(super) fn encode(self) -> CdbBytes
        ensures cdb { result ≡ cdb_of (Command.ExtendedCopy self) }
        ensures fits { fits_cdb (Command.ExtendedCopy self) ≡ true }
    {
        let mut cdb = EXTENDED_COPY.begin();
        BigEndian::write_u32(&mut cdb[10..], self.list_length);
        CdbBytes::new(cdb, 16)
    }
}

impl ReceiveCopyOperatingParameters {
    #[tactic(auto, unfolding(crate::specs::CdbEncoding::cdb_of))]
    pub(super) fn encode(self) -> CdbBytes
        ensures cdb { result ≡ cdb_of (Command.ReceiveCopyOperatingParameters self) }
        ensures fits { fits_cdb (Command.ReceiveCopyOperatingParameters self) ≡ true }
    {
        let mut cdb = RECEIVE_COPY_OPERATING_PARAMETERS.begin();
        BigEndian::write_u32(&mut cdb[10..], self.allocation_length);
        CdbBytes::new(cdb, 16)
    }
}
