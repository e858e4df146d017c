// How a logical unit is: LOG SENSE and SEND DIAGNOSTIC (SPC-4, 6.8 and 6.42), and READ DEFECT DATA (SBC-3,
// 5.17 and 5.18).
ghost use Rattle.std.specs.Prelude.{◌≡◌, ◌+◌, true, if◌then◌else◌};
ghost use Rattle.sg_wire.specs.CdbEncoding.{cdb_of};
ghost use Rattle.sg_wire.specs.FieldRoom.{fits_cdb};
ghost use Rattle.sg_wire.specs.Table.{command_by, layout_of};
ghost use Rattle.sg_wire.specs.declared.command.table.Name.{Name};

use super::masks::two_bits;
use super::rows::{LOG_SENSE, READ_DEFECT_DATA_10, READ_DEFECT_DATA_12, SEND_DIAGNOSTIC};
use super::table::check_row;
use super::{CdbFault, Command, PageCode, ThreeBits};
use crate::bytes::CdbBytes;
use byteorder::{BigEndian, ByteOrder};

// SELFTEST of SEND DIAGNOSTIC.
const SELF_TEST: u8 = 0x04;

// Bits of READ DEFECT DATA.
const REQ_PLIST: u8 = 0x10;

const REQ_GLIST: u8 = 0x08;

/// The fields of LOG SENSE (SPC-4, 6.8).
#[derive(Clone, Copy, Debug, PartialEq, Eq)]
pub struct LogSense {
    /// The page.
    pub page_code: PageCode,
    /// The subpage.
    pub subpage_code: u8,
    /// PARAMETER POINTER: the code of the first parameter that is asked for.
    pub parameter_pointer: u16,
    /// The allocation length, in bytes.
    pub allocation_length: u16,
}

/// The fields of SEND DIAGNOSTIC (SPC-4, 6.42).
#[derive(Clone, Copy, Debug, PartialEq, Eq)]
pub struct SendDiagnostic {
    /// SELF-TEST CODE: the self-test to run, 0 for none of those that it names.
    pub code: ThreeBits,
    /// SELFTEST: the default self-test is to run.
    pub self_test: bool,
    /// The length of the parameter list, in bytes.
    pub list_length: u16,
}

/// The fields of READ DEFECT DATA(10) (SBC-3, 5.17).
#[derive(Clone, Copy, Debug, PartialEq, Eq)]
pub struct ReadDefectData10 {
    /// REQ_PLIST: the defects that the manufacturer found are asked for.
    pub plist: bool,
    /// REQ_GLIST: the defects that were found later are asked for.
    pub glist: bool,
    /// DEFECT LIST FORMAT: how a defect is to be described.
    pub format: ThreeBits,
    /// The allocation length, in bytes.
    pub allocation_length: u16,
}

/// The fields of READ DEFECT DATA(12) (SBC-3, 5.18).
#[derive(Clone, Copy, Debug, PartialEq, Eq)]
pub struct ReadDefectData12 {
    /// REQ_PLIST: the defects that the manufacturer found are asked for.
    pub plist: bool,
    /// REQ_GLIST: the defects that were found later are asked for.
    pub glist: bool,
    /// DEFECT LIST FORMAT: how a defect is to be described.
    pub format: ThreeBits,
    /// ADDRESS DESCRIPTOR INDEX: the first descriptor that is asked for.
    pub index: u32,
    /// The allocation length, in bytes.
    pub allocation_length: u32,
}

// ---- Decoding

pub(super) fn decode_log_sense(cdb: &[u8]) -> Result<Command, CdbFault>
    ensures { result ≡ command_by (layout_of Name.LogSense) cdb.now }
{
    check_row(&LOG_SENSE, cdb)?;
    Ok(Command::LogSense(LogSense {
        page_code: PageCode::of_byte(cdb[2]),
        subpage_code: cdb[3],
        parameter_pointer: BigEndian::read_u16(&cdb[5..]),
        allocation_length: BigEndian::read_u16(&cdb[7..]),
    }))
}

pub(super) fn decode_send_diagnostic(cdb: &[u8]) -> Result<Command, CdbFault>
    ensures { result ≡ command_by (layout_of Name.SendDiagnostic) cdb.now }
{
    check_row(&SEND_DIAGNOSTIC, cdb)?;
    Ok(Command::SendDiagnostic(SendDiagnostic {
        code: ThreeBits::high(cdb[1]),
        self_test: cdb[1] & SELF_TEST != 0,
        list_length: BigEndian::read_u16(&cdb[3..]),
    }))
}

pub(super) fn decode_read_defect_data_10(cdb: &[u8]) -> Result<Command, CdbFault>
    ensures { result ≡ command_by (layout_of Name.ReadDefectData10) cdb.now }
{
    check_row(&READ_DEFECT_DATA_10, cdb)?;
    Ok(Command::ReadDefectData10(ReadDefectData10 {
        plist: cdb[2] & REQ_PLIST != 0,
        glist: cdb[2] & REQ_GLIST != 0,
        format: ThreeBits::low(cdb[2]),
        allocation_length: BigEndian::read_u16(&cdb[7..]),
    }))
}

pub(super) fn decode_read_defect_data_12(cdb: &[u8]) -> Result<Command, CdbFault>
    ensures { result ≡ command_by (layout_of Name.ReadDefectData12) cdb.now }
{
    check_row(&READ_DEFECT_DATA_12, cdb)?;
    Ok(Command::ReadDefectData12(ReadDefectData12 {
        plist: cdb[1] & REQ_PLIST != 0,
        glist: cdb[1] & REQ_GLIST != 0,
        format: ThreeBits::low(cdb[1]),
        index: BigEndian::read_u32(&cdb[2..]),
        allocation_length: BigEndian::read_u32(&cdb[6..]),
    }))
}

// ---- Encoding

impl LogSense {
    #[tactic(auto, unfolding(crate::specs::CdbEncoding::cdb_of))]
    pub(super) fn encode(self) -> CdbBytes
        ensures cdb { result ≡ cdb_of (Command.LogSense self) }
        ensures fits { fits_cdb (Command.LogSense self) ≡ true }
    {
        let mut cdb = LOG_SENSE.begin();
        cdb[2] = self.page_code.number();
        cdb[3] = self.subpage_code;
        BigEndian::write_u16(&mut cdb[5..], self.parameter_pointer);
        BigEndian::write_u16(&mut cdb[7..], self.allocation_length);
        CdbBytes::new(cdb, 10)
    }
}

impl SendDiagnostic {
    #[tactic(auto, unfolding(crate::specs::CdbEncoding::cdb_of))]
    pub(super) fn encode(self) -> CdbBytes
        ensures cdb { result ≡ cdb_of (Command.SendDiagnostic self) }
        ensures fits { fits_cdb (Command.SendDiagnostic self) ≡ true }
    {
        let mut cdb = SEND_DIAGNOSTIC.begin();
        cdb[1] = self.code.number() * 32 + if self.self_test { SELF_TEST } else { 0 };
        BigEndian::write_u16(&mut cdb[3..], self.list_length);
        CdbBytes::new(cdb, 6)
    }
}

impl ReadDefectData10 {
    #[tactic(auto, unfolding(crate::specs::CdbEncoding::cdb_of))]
    pub(super) fn encode(self) -> CdbBytes
        ensures cdb { result ≡ cdb_of (Command.ReadDefectData10 self) }
        ensures fits { fits_cdb (Command.ReadDefectData10 self) ≡ true }
    {
        let mut cdb = READ_DEFECT_DATA_10.begin();
        cdb[2] = lists_byte(self.plist, self.glist, self.format);
        BigEndian::write_u16(&mut cdb[7..], self.allocation_length);
        CdbBytes::new(cdb, 10)
    }
}

impl ReadDefectData12 {
    #[tactic(auto, unfolding(crate::specs::CdbEncoding::cdb_of))]
    pub(super) fn encode(self) -> CdbBytes
        ensures cdb { result ≡ cdb_of (Command.ReadDefectData12 self) }
        ensures fits { fits_cdb (Command.ReadDefectData12 self) ≡ true }
    {
        let mut cdb = READ_DEFECT_DATA_12.begin();
        cdb[1] = lists_byte(self.plist, self.glist, self.format);
        BigEndian::write_u32(&mut cdb[2..], self.index);
        BigEndian::write_u32(&mut cdb[6..], self.allocation_length);
        CdbBytes::new(cdb, 12)
    }
}

/// The byte with the lists that are asked for and their format.
fn lists_byte(plist: bool, glist: bool, format: ThreeBits) -> u8
    ensures { result ≡ (if plist then REQ_PLIST else 0) + ((if glist then REQ_GLIST else 0) + format) }
{
    two_bits(plist, REQ_PLIST, glist, REQ_GLIST) + format.number()
}
