// Commands of logical block provisioning (SBC-3, 4.7 and 5).
ghost use Rattle.std.specs.Prelude.{◌≡◌, ◌≤◌, length, true, IfErr, OnOk};
ghost use Rattle.sg_wire.specs.CdbEncoding.{cdb_of};
ghost use Rattle.sg_wire.specs.FieldRoom.{fits_cdb};
ghost use Rattle.sg_wire.specs.Table.{IsDecodedIn, IsRefusedIn, command_by, command_by_in, layout_of};
ghost use Rattle.sg_wire.specs.declared.command.table.Name.{Name};

use super::block::{decode_extent_10, decode_extent_16};
use super::masks::{check_masks, two_bits};
use super::{CdbFault, Command, GroupNumber, rows, table};
use crate::bytes::{CdbBytes, MAX_CDB_LENGTH};
use crate::profile::Profile;
use byteorder::{BigEndian, ByteOrder};

// Bits of byte 1: of WRITE SAME, and of UNMAP.
const WRITE_SAME_ANCHOR: u8 = 0x10;

const WRITE_SAME_UNMAP: u8 = 0x08;

const WRITE_SAME_NDOB: u8 = 0x01;

const UNMAP_ANCHOR: u8 = 0x01;

/// The fields of WRITE SAME(10) (SBC-3, 5.43).
#[derive(Clone, Copy, Debug, PartialEq, Eq)]
pub struct WriteSame10 {
    /// The first block's address.
    pub lba: u32,
    /// In blocks.
    pub count: u16,
    /// Blocks that are unmapped are to be anchored.
    pub anchor: bool,
    /// The blocks are to be unmapped in place of being written, if they then read as the block.
    pub unmap: bool,
}

/// The fields of WRITE SAME(16) (SBC-3, 5.44).
#[derive(Clone, Copy, Debug, PartialEq, Eq)]
pub struct WriteSame16 {
    /// The first block's address.
    pub lba: u64,
    /// In blocks.
    pub count: u32,
    /// Blocks that are unmapped are to be anchored.
    pub anchor: bool,
    /// The blocks are to be unmapped in place of being written, if they then read as the block.
    pub unmap: bool,
    /// NDOB: there is no data-out, and the block is zeros. A base disk refuses it.
    pub ndob: bool,
}

/// The fields of UNMAP (SBC-3, 5.28).
#[derive(Clone, Copy, Debug, PartialEq, Eq)]
pub struct Unmap {
    /// The blocks are to be anchored.
    pub anchor: bool,
    /// GROUP NUMBER, which the disk does not use.
    pub group: GroupNumber,
    /// The length of the parameter list, in bytes.
    pub list_length: u16,
}

/// The fields of GET LBA STATUS (SBC-3, 5.4).
#[derive(Clone, Copy, Debug, PartialEq, Eq)]
pub struct GetLbaStatus {
    /// The first address whose status the initiator asks for.
    pub start: u64,
    /// The allocation length, in bytes.
    pub allocation_length: u32,
}

// ---- Decoding

pub(super) fn decode_write_same_10(cdb: &[u8]) -> Result<Command, CdbFault>
    ensures { result ≡ command_by (layout_of Name.WriteSame10) cdb.now }
{
    let extent = decode_extent_10(&rows::WRITE_SAME_10, cdb)?;
    Ok(Command::WriteSame10(WriteSame10 {
        lba: extent.lba,
        count: extent.count,
        anchor: cdb[1] & WRITE_SAME_ANCHOR != 0,
        unmap: cdb[1] & WRITE_SAME_UNMAP != 0,
    }))
}

pub(super) fn decode_write_same_16(profile: Profile, cdb: &[u8]) -> Result<Command, CdbFault>
    ensures { result ≡ command_by_in profile (layout_of Name.WriteSame16) cdb.now }
{
    check_write_same_16(profile, cdb)?;
    Ok(Command::WriteSame16(WriteSame16 {
        lba: BigEndian::read_u64(&cdb[2..]),
        count: BigEndian::read_u32(&cdb[10..]),
        anchor: cdb[1] & WRITE_SAME_ANCHOR != 0,
        unmap: cdb[1] & WRITE_SAME_UNMAP != 0,
        ndob: cdb[1] & WRITE_SAME_NDOB != 0,
    }))
}

/// Refuses a CDB of WRITE SAME(16) that ends early or has a bit that a disk of the profile does not
/// allow.
fn check_write_same_16(profile: Profile, cdb: &[u8]) -> Result<(), CdbFault>
    ensures decoded { OnOk result (IsDecodedIn profile cdb.now Name.WriteSame16) }
    ensures refused { IfErr result (IsRefusedIn profile cdb.now Name.WriteSame16) }
    ensures whole { OnOk result (16 ≤ length cdb.now) }
{
    match profile {
        Profile::Base => check_masks(&rows::BASE_WRITE_SAME_16, cdb),
        Profile::Extended => table::check_row(&rows::WRITE_SAME_16, cdb),
    }
}

pub(super) fn decode_unmap(cdb: &[u8]) -> Result<Command, CdbFault>
    ensures { result ≡ command_by (layout_of Name.Unmap) cdb.now }
{
    table::check_row(&rows::UNMAP, cdb)?;
    Ok(Command::Unmap(Unmap {
        anchor: cdb[1] & UNMAP_ANCHOR != 0,
        group: GroupNumber::of_byte(cdb[6]),
        list_length: BigEndian::read_u16(&cdb[7..]),
    }))
}

pub(super) fn decode_get_lba_status(cdb: &[u8]) -> Result<Command, CdbFault>
    ensures { result ≡ command_by (layout_of Name.GetLbaStatus) cdb.now }
{
    // The numbers lie in the places of an extent's numbers.
    let numbers = decode_extent_16(&rows::GET_LBA_STATUS, cdb)?;
    Ok(Command::GetLbaStatus(GetLbaStatus {
        start: numbers.lba,
        allocation_length: numbers.count,
    }))
}

// ---- Encoding

impl WriteSame10 {
    #[tactic(auto, unfolding(crate::specs::CdbEncoding::cdb_of))]
    pub(super) fn encode(self) -> CdbBytes
        ensures cdb { result ≡ cdb_of (Command.WriteSame10 self) }
        ensures fits { fits_cdb (Command.WriteSame10 self) ≡ true }
    {
        let mut cdb = rows::WRITE_SAME_10.begin();
        cdb[1] = two_bits(self.anchor, WRITE_SAME_ANCHOR, self.unmap, WRITE_SAME_UNMAP);
        BigEndian::write_u32(&mut cdb[2..], self.lba);
        BigEndian::write_u16(&mut cdb[7..], self.count);
        CdbBytes::new(cdb, 10)
    }
}

impl WriteSame16 {
    #[tactic(auto, unfolding(crate::specs::CdbEncoding::cdb_of))]
    pub(super) fn encode(self) -> CdbBytes
        ensures cdb { result ≡ cdb_of (Command.WriteSame16 self) }
        ensures fits { fits_cdb (Command.WriteSame16 self) ≡ true }
    {
        let mut cdb = rows::WRITE_SAME_16.begin();
        let ndob = if self.ndob { WRITE_SAME_NDOB } else { 0 };
        cdb[1] = two_bits(self.anchor, WRITE_SAME_ANCHOR, self.unmap, WRITE_SAME_UNMAP) + ndob;
        BigEndian::write_u64(&mut cdb[2..], self.lba);
        BigEndian::write_u32(&mut cdb[10..], self.count);
        CdbBytes::new(cdb, MAX_CDB_LENGTH)
    }
}

impl Unmap {
    #[tactic(auto, unfolding(crate::specs::CdbEncoding::cdb_of))]
    pub(super) fn encode(self) -> CdbBytes
        ensures cdb { result ≡ cdb_of (Command.Unmap self) }
        ensures fits { fits_cdb (Command.Unmap self) ≡ true }
    {
        let mut cdb = rows::UNMAP.begin();
        cdb[1] = if self.anchor { UNMAP_ANCHOR } else { 0 };
        cdb[6] = self.group.number();
        BigEndian::write_u16(&mut cdb[7..], self.list_length);
        CdbBytes::new(cdb, 10)
    }
}

impl GetLbaStatus {
    #[tactic(auto, unfolding(crate::specs::CdbEncoding::cdb_of))]
    pub(super) fn encode(self) -> CdbBytes
        ensures cdb { result ≡ cdb_of (Command.GetLbaStatus self) }
        ensures fits { fits_cdb (Command.GetLbaStatus self) ≡ true }
    {
        let mut cdb = rows::GET_LBA_STATUS.begin();
        BigEndian::write_u64(&mut cdb[2..], self.start);
        BigEndian::write_u32(&mut cdb[10..], self.allocation_length);
        CdbBytes::new(cdb, MAX_CDB_LENGTH)
    }
}
