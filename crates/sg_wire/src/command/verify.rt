// VERIFY, WRITE AND VERIFY, and COMPARE AND WRITE (SBC-3, 5.29 to 5.31, 5.37 to 5.39, and 5.2).
ghost use Rattle.std.specs.Prelude.{◌≡◌, ◌<◌, ◌*◌, ◌++◌, ◌∷◌, [], true};
ghost use Rattle.byteorder.specs.Endian.{big_bytes};
ghost use Rattle.sg_wire.specs.Bits.{bits_of};
ghost use Rattle.sg_wire.specs.ByteCheck.{byte_check_code, byte_check_of};
ghost use Rattle.sg_wire.specs.CdbEncoding.{cdb_of};
ghost use Rattle.sg_wire.specs.FieldRoom.{fits_cdb, have_room};
ghost use Rattle.sg_wire.specs.Layout.{verify_10, verify_12, verify_16};
ghost use Rattle.sg_wire.specs.Table.{command_by, layout_of};
ghost use Rattle.sg_wire.specs.declared.command.table.Name.{Name};

use super::block::{decode_extent_10, decode_extent_12, decode_extent_16};
use super::rows::{
    COMPARE_AND_WRITE, VERIFY_10, VERIFY_12, VERIFY_16, WRITE_AND_VERIFY_10, WRITE_AND_VERIFY_12,
    WRITE_AND_VERIFY_16,
};
use super::table::{Row, check_row};
use super::{CdbFault, Command, Extent10, Extent12, Extent16};
use crate::bytes::{CdbBytes, MAX_CDB_LENGTH};
use byteorder::{BigEndian, ByteOrder};

/// BYTCHK, with its code: what the blocks are compared with, byte by byte (SBC-3, 5.29).
#[derive(Clone, Copy, Debug, PartialEq, Eq)]
pub enum ByteCheck {
    /// Nothing: only the medium is verified.
    Nothing = 0,
    /// The blocks of the data-out.
    DataOut = 1,
    /// The code has no meaning.
    Reserved = 2,
    /// The one block of the data-out.
    OneBlock = 3,
}

/// The fields of VERIFY(10) and WRITE AND VERIFY(10) (SBC-3, 5.29 and 5.37).
#[derive(Clone, Copy, Debug, PartialEq, Eq)]
pub struct Verify10 {
    /// What the blocks are compared with.
    pub byte_check: ByteCheck,
    /// The blocks.
    pub extent: Extent10,
}

/// The fields of VERIFY(12) and WRITE AND VERIFY(12) (SBC-3, 5.30 and 5.38).
#[derive(Clone, Copy, Debug, PartialEq, Eq)]
pub struct Verify12 {
    /// What the blocks are compared with.
    pub byte_check: ByteCheck,
    /// The blocks.
    pub extent: Extent12,
}

/// The fields of VERIFY(16) and WRITE AND VERIFY(16) (SBC-3, 5.31 and 5.39).
#[derive(Clone, Copy, Debug, PartialEq, Eq)]
pub struct Verify16 {
    /// What the blocks are compared with.
    pub byte_check: ByteCheck,
    /// The blocks.
    pub extent: Extent16,
}

/// The fields of COMPARE AND WRITE (SBC-3, 5.2).
#[derive(Clone, Copy, Debug, PartialEq, Eq)]
pub struct CompareAndWrite {
    /// The first block's address.
    pub lba: u64,
    /// NUMBER OF LOGICAL BLOCKS, in blocks.
    pub count: u8,
}

impl ByteCheck {
    /// Its code, 0 to 3.
    pub fn code(self) -> u8
        ensures value { result ≡ byte_check_code self }
        ensures bound { result < 4 }
    {
        self as u8
    }

    /// What bits 2 and 1 of a byte ask for.
    fn of_byte(byte: u8) -> ByteCheck
        ensures { result ≡ byte_check_of (bits_of byte 2 1) }
    {
        match (byte >> 1) & 0x03 {
            0 => ByteCheck::Nothing,
            1 => ByteCheck::DataOut,
            2 => ByteCheck::Reserved,
            _ => ByteCheck::OneBlock,
        }
    }
}

// ---- Decoding

pub(super) fn decode_verify_10(cdb: &[u8]) -> Result<Command, CdbFault>
    ensures { result ≡ command_by (layout_of Name.Verify10) cdb.now }
{
    let extent = decode_extent_10(&VERIFY_10, cdb)?;
    Ok(Command::Verify10(Verify10 {
        byte_check: ByteCheck::of_byte(cdb[1]),
        extent,
    }))
}

pub(super) fn decode_write_and_verify_10(cdb: &[u8]) -> Result<Command, CdbFault>
    ensures { result ≡ command_by (layout_of Name.WriteAndVerify10) cdb.now }
{
    let extent = decode_extent_10(&WRITE_AND_VERIFY_10, cdb)?;
    Ok(Command::WriteAndVerify10(Verify10 {
        byte_check: ByteCheck::of_byte(cdb[1]),
        extent,
    }))
}

pub(super) fn decode_verify_12(cdb: &[u8]) -> Result<Command, CdbFault>
    ensures { result ≡ command_by (layout_of Name.Verify12) cdb.now }
{
    let extent = decode_extent_12(&VERIFY_12, cdb)?;
    Ok(Command::Verify12(Verify12 {
        byte_check: ByteCheck::of_byte(cdb[1]),
        extent,
    }))
}

pub(super) fn decode_write_and_verify_12(cdb: &[u8]) -> Result<Command, CdbFault>
    ensures { result ≡ command_by (layout_of Name.WriteAndVerify12) cdb.now }
{
    let extent = decode_extent_12(&WRITE_AND_VERIFY_12, cdb)?;
    Ok(Command::WriteAndVerify12(Verify12 {
        byte_check: ByteCheck::of_byte(cdb[1]),
        extent,
    }))
}

pub(super) fn decode_verify_16(cdb: &[u8]) -> Result<Command, CdbFault>
    ensures { result ≡ command_by (layout_of Name.Verify16) cdb.now }
{
    let extent = decode_extent_16(&VERIFY_16, cdb)?;
    Ok(Command::Verify16(Verify16 {
        byte_check: ByteCheck::of_byte(cdb[1]),
        extent,
    }))
}

pub(super) fn decode_write_and_verify_16(cdb: &[u8]) -> Result<Command, CdbFault>
    ensures { result ≡ command_by (layout_of Name.WriteAndVerify16) cdb.now }
{
    let extent = decode_extent_16(&WRITE_AND_VERIFY_16, cdb)?;
    Ok(Command::WriteAndVerify16(Verify16 {
        byte_check: ByteCheck::of_byte(cdb[1]),
        extent,
    }))
}

pub(super) fn decode_compare_and_write(cdb: &[u8]) -> Result<Command, CdbFault>
    ensures { result ≡ command_by (layout_of Name.CompareAndWrite) cdb.now }
{
    check_row(&COMPARE_AND_WRITE, cdb)?;
    Ok(Command::CompareAndWrite(CompareAndWrite {
        lba: BigEndian::read_u64(&cdb[2..]),
        count: cdb[13],
    }))
}

// ---- Encoding

impl Verify10 {
    /// The CDB of a row's command.
    pub(super) fn encode(self, row: &Row) -> CdbBytes
        ensures cdb { result ≡ (row.now.opcode ∷ byte_check_code self.byte_check * 2 ∷ [])
            ++ big_bytes 4 self.extent.lba ++ (0 ∷ []) ++ big_bytes 2 self.extent.count ++ (0 ∷ []) }
        ensures fits { have_room (verify_10 self) ≡ true }
    {
        let mut cdb = [0; MAX_CDB_LENGTH];
        cdb[0] = row.opcode;
        cdb[1] = self.byte_check.code() * 2;
        BigEndian::write_u32(&mut cdb[2..], self.extent.lba);
        BigEndian::write_u16(&mut cdb[7..], self.extent.count);
        CdbBytes::new(cdb, 10)
    }
}

impl Verify12 {
    /// The CDB of a row's command.
    pub(super) fn encode(self, row: &Row) -> CdbBytes
        ensures cdb { result ≡ (row.now.opcode ∷ byte_check_code self.byte_check * 2 ∷ [])
            ++ big_bytes 4 self.extent.lba ++ big_bytes 4 self.extent.count ++ (0 ∷ 0 ∷ []) }
        ensures fits { have_room (verify_12 self) ≡ true }
    {
        let mut cdb = [0; MAX_CDB_LENGTH];
        cdb[0] = row.opcode;
        cdb[1] = self.byte_check.code() * 2;
        BigEndian::write_u32(&mut cdb[2..], self.extent.lba);
        BigEndian::write_u32(&mut cdb[6..], self.extent.count);
        CdbBytes::new(cdb, 12)
    }
}

impl Verify16 {
    /// The CDB of a row's command.
    pub(super) fn encode(self, row: &Row) -> CdbBytes
        ensures cdb { result ≡ (row.now.opcode ∷ byte_check_code self.byte_check * 2 ∷ [])
            ++ big_bytes 8 self.extent.lba ++ big_bytes 4 self.extent.count ++ (0 ∷ 0 ∷ []) }
        ensures fits { have_room (verify_16 self) ≡ true }
    {
        let mut cdb = [0; MAX_CDB_LENGTH];
        cdb[0] = row.opcode;
        cdb[1] = self.byte_check.code() * 2;
        BigEndian::write_u64(&mut cdb[2..], self.extent.lba);
        BigEndian::write_u32(&mut cdb[10..], self.extent.count);
        CdbBytes::new(cdb, MAX_CDB_LENGTH)
    }
}

impl CompareAndWrite {
    #[tactic(auto, unfolding(crate::specs::CdbEncoding::cdb_of))]
    pub(super) fn encode(self) -> CdbBytes
        ensures cdb { result ≡ cdb_of (Command.CompareAndWrite self) }
        ensures fits { fits_cdb (Command.CompareAndWrite self) ≡ true }
    {
        let mut cdb = COMPARE_AND_WRITE.begin();
        BigEndian::write_u64(&mut cdb[2..], self.lba);
        cdb[13] = self.count;
        CdbBytes::new(cdb, MAX_CDB_LENGTH)
    }
}
