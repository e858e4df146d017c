// Primary commands (SPC-4, 6).
ghost use Rattle.std.specs.Prelude.{◌≡◌, true};
ghost use Rattle.sg_wire.specs.CdbEncoding.{cdb_of};
ghost use Rattle.sg_wire.specs.FieldRoom.{fits_cdb};
ghost use Rattle.sg_wire.specs.Table.{command_by, layout_of};
ghost use Rattle.sg_wire.specs.declared.command.table.Name.{Name};

use super::{CdbFault, Command, rows, table};
use crate::bytes::CdbBytes;
use byteorder::{BigEndian, ByteOrder};

/// The fields of REQUEST SENSE (SPC-4, 6.39).
#[derive(Clone, Copy, Debug, PartialEq, Eq)]
pub struct RequestSense {
    /// Descriptor format is asked for, not fixed format.
    pub desc: bool,
    /// The allocation length, in bytes.
    pub allocation_length: u8,
}

/// The fields of INQUIRY (SPC-4, 6.6).
#[derive(Clone, Copy, Debug, PartialEq, Eq)]
pub struct Inquiry {
    /// Vital product data is asked for, not the standard INQUIRY data.
    pub evpd: bool,
    /// The page of vital product data.
    pub page_code: u8,
    /// The allocation length, in bytes.
    pub allocation_length: u16,
}

// ---- Decoding

pub(super) fn decode_test_unit_ready(cdb: &[u8]) -> Result<Command, CdbFault>
    ensures { result ≡ command_by (layout_of Name.TestUnitReady) cdb.now }
{
    table::check_row(&rows::TEST_UNIT_READY, cdb)?;
    Ok(Command::TestUnitReady)
}

pub(super) fn decode_request_sense(cdb: &[u8]) -> Result<Command, CdbFault>
    ensures { result ≡ command_by (layout_of Name.RequestSense) cdb.now }
{
    table::check_row(&rows::REQUEST_SENSE, cdb)?;
    Ok(Command::RequestSense(RequestSense {
        desc: cdb[1] & 0x01 != 0,
        allocation_length: cdb[4],
    }))
}

pub(super) fn decode_inquiry(cdb: &[u8]) -> Result<Command, CdbFault>
    ensures { result ≡ command_by (layout_of Name.Inquiry) cdb.now }
{
    table::check_row(&rows::INQUIRY, cdb)?;
    Ok(Command::Inquiry(Inquiry {
        evpd: cdb[1] & 0x01 != 0,
        page_code: cdb[2],
        allocation_length: BigEndian::read_u16(&cdb[3..]),
    }))
}

// ---- Encoding

#[tactic(auto, unfolding(crate::specs::CdbEncoding::cdb_of))]
pub(super) fn encode_test_unit_ready() -> CdbBytes
    ensures { result ≡ cdb_of Command.TestUnitReady }
{
    let mut cdb = rows::TEST_UNIT_READY.begin();
    CdbBytes::new(cdb, 6)
}

impl RequestSense {
    #[tactic(auto, unfolding(crate::specs::CdbEncoding::cdb_of))]
    pub(super) fn encode(self) -> CdbBytes
        ensures cdb { result ≡ cdb_of (Command.RequestSense self) }
        ensures fits { fits_cdb (Command.RequestSense self) ≡ true }
    {
        let mut cdb = rows::REQUEST_SENSE.begin();
        cdb[1] = u8::from(self.desc);
        cdb[4] = self.allocation_length;
        CdbBytes::new(cdb, 6)
    }
}

impl Inquiry {
    #[tactic(auto, unfolding(crate::specs::CdbEncoding::cdb_of))]
    pub(super) fn encode(self) -> CdbBytes
        ensures cdb { result ≡ cdb_of (Command.Inquiry self) }
        ensures fits { fits_cdb (Command.Inquiry self) ≡ true }
    {
        let mut cdb = rows::INQUIRY.begin();
        cdb[1] = u8::from(self.evpd);
        cdb[2] = self.page_code;
        BigEndian::write_u16(&mut cdb[3..], self.allocation_length);
        CdbBytes::new(cdb, 6)
    }
}
