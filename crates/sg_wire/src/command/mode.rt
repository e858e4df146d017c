// MODE SENSE and MODE SELECT (SPC-4, 6.11 to 6.14).
ghost use Rattle.std.specs.Prelude.{◌≡◌, ◌≤◌, ◌<◌, ◌+◌, ◌*◌, length, true};
ghost use Rattle.sg_wire.specs.CdbEncoding.{cdb_of};
ghost use Rattle.sg_wire.specs.CdbFields.{value_at};
ghost use Rattle.sg_wire.specs.CdbFields.Place.{bit, bits, bytes};
ghost use Rattle.sg_wire.specs.Commands.{page_request};
ghost use Rattle.sg_wire.specs.FieldRoom.{fits_cdb};
ghost use Rattle.sg_wire.specs.PageControl.{page_control_code};
ghost use Rattle.sg_wire.specs.Table.{command_by, layout_of};
ghost use Rattle.sg_wire.specs.declared.command.table.Name.{Name};

use super::masks::two_bits;
use super::rows::{MODE_SELECT_6, MODE_SELECT_10, MODE_SENSE_6, MODE_SENSE_10};
use super::table::check_row;
use super::{CdbFault, Command, PageCode, PageControl};
use crate::bytes::CdbBytes;
use byteorder::{BigEndian, ByteOrder};

// Bits of byte 1: of MODE SENSE, and of MODE SELECT.
const LLBAA: u8 = 0x10;

const DBD: u8 = 0x08;

const PF: u8 = 0x10;

const SP: u8 = 0x01;

/// The width of a command's CDB, for a command that has a CDB of six bytes and one of ten.
#[derive(Clone, Copy)]
pub enum CdbWidth {
    /// Six bytes.
    Six,
    /// Ten bytes.
    Ten,
}

/// The fields of MODE SELECT(6) (SPC-4, 6.11).
#[derive(Clone, Copy, Debug, PartialEq, Eq)]
pub struct ModeSelect6 {
    /// The parameter list has the format of the standard: a page format.
    pub pf: bool,
    /// All mode pages are to be saved.
    pub sp: bool,
    /// The length of the parameter list, in bytes.
    pub list_length: u8,
}

/// The fields of MODE SELECT(10) (SPC-4, 6.12).
#[derive(Clone, Copy, Debug, PartialEq, Eq)]
pub struct ModeSelect10 {
    /// The parameter list has the format of the standard: a page format.
    pub pf: bool,
    /// All mode pages are to be saved.
    pub sp: bool,
    /// The length of the parameter list, in bytes.
    pub list_length: u16,
}

/// The pages that a MODE SENSE requests (SPC-4, 6.13 and 6.14).
#[derive(Clone, Copy, Debug, PartialEq, Eq)]
pub struct PageRequest {
    /// No block descriptor is to be returned.
    pub dbd: bool,
    /// The values of the pages that the initiator asks for.
    pub page_control: PageControl,
    /// The page, 3Fh for all pages.
    pub page_code: PageCode,
    /// The subpage.
    pub subpage_code: u8,
}

/// The fields of MODE SENSE(6) (SPC-4, 6.13).
#[derive(Clone, Copy, Debug, PartialEq, Eq)]
pub struct ModeSense6 {
    /// The pages that are requested.
    pub page: PageRequest,
    /// The allocation length, in bytes.
    pub allocation_length: u8,
}

/// The fields of MODE SENSE(10) (SPC-4, 6.14).
#[derive(Clone, Copy, Debug, PartialEq, Eq)]
pub struct ModeSense10 {
    /// The long block descriptor is accepted.
    pub llbaa: bool,
    /// The pages that are requested.
    pub page: PageRequest,
    /// The allocation length, in bytes.
    pub allocation_length: u16,
}

// ---- Decoding

pub(super) fn decode_mode_sense_6(cdb: &[u8]) -> Result<Command, CdbFault>
    ensures { result ≡ command_by (layout_of Name.ModeSense6) cdb.now }
{
    check_row(&MODE_SENSE_6, cdb)?;
    Ok(Command::ModeSense6(ModeSense6 {
        page: decode_page_request(cdb),
        allocation_length: cdb[4],
    }))
}

pub(super) fn decode_mode_sense_10(cdb: &[u8]) -> Result<Command, CdbFault>
    ensures { result ≡ command_by (layout_of Name.ModeSense10) cdb.now }
{
    check_row(&MODE_SENSE_10, cdb)?;
    Ok(Command::ModeSense10(ModeSense10 {
        llbaa: cdb[1] & LLBAA != 0,
        page: decode_page_request(cdb),
        allocation_length: BigEndian::read_u16(&cdb[7..]),
    }))
}

fn decode_page_request(cdb: &[u8]) -> PageRequest
    requires { 4 ≤ length cdb.now }
    ensures { result ≡ page_request (value_at cdb.now (bit 1 3)) (value_at cdb.now (bits 2 7 6))
        (value_at cdb.now (bits 2 5 0)) (value_at cdb.now (bytes 3 3)) }
{
    PageRequest {
        dbd: cdb[1] & DBD != 0,
        page_control: PageControl::of_byte(cdb[2]),
        page_code: PageCode::of_byte(cdb[2]),
        subpage_code: cdb[3],
    }
}

pub(super) fn decode_mode_select_6(cdb: &[u8]) -> Result<Command, CdbFault>
    ensures { result ≡ command_by (layout_of Name.ModeSelect6) cdb.now }
{
    check_row(&MODE_SELECT_6, cdb)?;
    Ok(Command::ModeSelect6(ModeSelect6 {
        pf: cdb[1] & PF != 0,
        sp: cdb[1] & SP != 0,
        list_length: cdb[4],
    }))
}

pub(super) fn decode_mode_select_10(cdb: &[u8]) -> Result<Command, CdbFault>
    ensures { result ≡ command_by (layout_of Name.ModeSelect10) cdb.now }
{
    check_row(&MODE_SELECT_10, cdb)?;
    Ok(Command::ModeSelect10(ModeSelect10 {
        pf: cdb[1] & PF != 0,
        sp: cdb[1] & SP != 0,
        list_length: BigEndian::read_u16(&cdb[7..]),
    }))
}

// ---- Encoding

impl PageRequest {
    /// PC and PAGE CODE, which share byte 2 of the CDB.
    fn byte_2(self) -> u8
        ensures byte { result ≡ page_control_code self.page_control * 64 + self.page_code }
        ensures fits { page_control_code self.page_control < 4 }
    {
        self.page_control.code() * 64 + self.page_code.number()
    }
}

impl ModeSense6 {
    #[tactic(auto, unfolding(crate::specs::CdbEncoding::cdb_of))]
    pub(super) fn encode(self) -> CdbBytes
        ensures cdb { result ≡ cdb_of (Command.ModeSense6 self) }
        ensures fits { fits_cdb (Command.ModeSense6 self) ≡ true }
    {
        let mut cdb = MODE_SENSE_6.begin();
        cdb[1] = if self.page.dbd { DBD } else { 0 };
        cdb[2] = self.page.byte_2();
        cdb[3] = self.page.subpage_code;
        cdb[4] = self.allocation_length;
        CdbBytes::new(cdb, 6)
    }
}

impl ModeSense10 {
    #[tactic(auto, unfolding(crate::specs::CdbEncoding::cdb_of))]
    pub(super) fn encode(self) -> CdbBytes
        ensures cdb { result ≡ cdb_of (Command.ModeSense10 self) }
        ensures fits { fits_cdb (Command.ModeSense10 self) ≡ true }
    {
        let mut cdb = MODE_SENSE_10.begin();
        cdb[1] = two_bits(self.llbaa, LLBAA, self.page.dbd, DBD);
        cdb[2] = self.page.byte_2();
        cdb[3] = self.page.subpage_code;
        BigEndian::write_u16(&mut cdb[7..], self.allocation_length);
        CdbBytes::new(cdb, 10)
    }
}

impl ModeSelect6 {
    #[tactic(auto, unfolding(crate::specs::CdbEncoding::cdb_of))]
    pub(super) fn encode(self) -> CdbBytes
        ensures cdb { result ≡ cdb_of (Command.ModeSelect6 self) }
        ensures fits { fits_cdb (Command.ModeSelect6 self) ≡ true }
    {
        let mut cdb = MODE_SELECT_6.begin();
        cdb[1] = two_bits(self.pf, PF, self.sp, SP);
        cdb[4] = self.list_length;
        CdbBytes::new(cdb, 6)
    }
}

impl ModeSelect10 {
    #[tactic(auto, unfolding(crate::specs::CdbEncoding::cdb_of))]
    pub(super) fn encode(self) -> CdbBytes
        ensures cdb { result ≡ cdb_of (Command.ModeSelect10 self) }
        ensures fits { fits_cdb (Command.ModeSelect10 self) ≡ true }
    {
        let mut cdb = MODE_SELECT_10.begin();
        cdb[1] = two_bits(self.pf, PF, self.sp, SP);
        BigEndian::write_u16(&mut cdb[7..], self.list_length);
        CdbBytes::new(cdb, 10)
    }
}
