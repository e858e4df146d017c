// Block commands (SBC-3, 5; READ(6) and WRITE(6) of SBC-2).
ghost use Rattle.std.specs.Prelude.{◌≡◌, ◌/◌, ◌%◌, ◌≤◌, [], ◌∷◌, ◌++◌, length, slice_index};
ghost use Rattle.std.specs.Prelude.{IfErr, IfOk, OnOk, true};
ghost use Rattle.byteorder.specs.Endian.{big_bytes};
ghost use Rattle.sg_wire.specs.CdbEncoding.{cdb_of};
ghost use Rattle.sg_wire.specs.CdbFields.{number_at, value_at};
ghost use Rattle.sg_wire.specs.CdbFields.Place.{short_extent};
ghost use Rattle.sg_wire.specs.FieldRoom.{fits_cdb, have_room};
ghost use Rattle.sg_wire.specs.BlockCommand.{is_block_command};
ghost use Rattle.sg_wire.specs.Layout.{extent_10, extent_12, extent_16, extent_6};
ghost use Rattle.sg_wire.specs.Table.{IsDecoded, IsRefused, IsRow, command_by, command_of_name};
ghost use Rattle.sg_wire.specs.Table.{layout_of, names_block_command};
ghost use Rattle.sg_wire.specs.declared.command.table.Name.{Name};

use super::masks::two_bits;
use super::rows::{
    ORWRITE_16, PRE_FETCH_10, PRE_FETCH_16, READ_6, READ_10, READ_12, READ_16, READ_CAPACITY_10,
    READ_CAPACITY_16, SANITIZE_BLOCK_ERASE, SANITIZE_CRYPTOGRAPHIC_ERASE,
    SANITIZE_EXIT_FAILURE_MODE, SYNCHRONIZE_CACHE_10, SYNCHRONIZE_CACHE_16, VERIFY_10, VERIFY_12,
    VERIFY_16, WRITE_6, WRITE_10, WRITE_12, WRITE_16, WRITE_AND_VERIFY_10, WRITE_AND_VERIFY_12,
    WRITE_AND_VERIFY_16, WRITE_ATOMIC_16, WRITE_LONG_10,
};
use super::table::{Name, Row, check_row};
use super::{CdbFault, Command, ShortExtent, diagnostic, format, provisioning, start_stop, verify};
use crate::bytes::{CdbBytes, MAX_CDB_LENGTH};
use crate::profile::Profile;
use byteorder::{BigEndian, ByteOrder};

// Bits of byte 1 of WRITE LONG.
const COR_DIS: u8 = 0x80;

const WR_UNCOR: u8 = 0x40;

/// An extent of logical blocks in the CDBs of READ(10), WRITE(10), VERIFY(10), SYNCHRONIZE
/// CACHE(10) and PRE-FETCH(10) (SBC-3, 5.11, 5.33, 5.29, 5.26 and 5.8).
#[derive(Clone, Copy, Debug, PartialEq, Eq)]
pub struct Extent10 {
    /// The first block's address.
    pub lba: u32,
    /// TRANSFER LENGTH, NUMBER OF LOGICAL BLOCKS or PREFETCH LENGTH, in blocks.
    pub count: u16,
}

/// An extent of logical blocks in the CDBs of READ(12) and WRITE(12) (SBC-3, 5.12 and 5.34).
#[derive(Clone, Copy, Debug, PartialEq, Eq)]
pub struct Extent12 {
    /// The first block's address.
    pub lba: u32,
    /// TRANSFER LENGTH, in blocks.
    pub count: u32,
}

/// An extent of logical blocks in the CDBs of READ(16), WRITE(16), ORWRITE(16), SYNCHRONIZE CACHE(16)
/// and PRE-FETCH(16) (SBC-3, 5.13, 5.35, 5.5, 5.27 and 5.9).
#[derive(Clone, Copy, Debug, PartialEq, Eq)]
pub struct Extent16 {
    /// The first block's address.
    pub lba: u64,
    /// TRANSFER LENGTH, NUMBER OF LOGICAL BLOCKS or PREFETCH LENGTH, in blocks.
    pub count: u32,
}

/// The fields of WRITE ATOMIC(16), of SBC-4.
#[derive(Clone, Copy, Debug, PartialEq, Eq)]
pub struct WriteAtomic16 {
    /// The first block's address.
    pub lba: u64,
    /// ATOMIC BOUNDARY, in blocks.
    pub boundary: u16,
    /// TRANSFER LENGTH, in blocks.
    pub count: u16,
}

/// The fields of WRITE LONG(10) (SBC-3, 5.41).
#[derive(Clone, Copy, Debug, PartialEq, Eq)]
pub struct WriteLong10 {
    /// COR_DIS: the disk is not to try to correct the error.
    pub cor_dis: bool,
    /// WR_UNCOR: the block is to be marked with an unrecovered error.
    pub wr_uncor: bool,
    /// The block's address.
    pub lba: u32,
    /// BYTE TRANSFER LENGTH, in bytes. It does not matter if `wr_uncor` is `true`.
    pub length: u16,
}

/// The field of READ CAPACITY(16) (SBC-3, 5.16).
#[derive(Clone, Copy, Debug, PartialEq, Eq)]
pub struct ReadCapacity16 {
    /// The allocation length, in bytes.
    pub allocation_length: u32,
}

// ---- Decoding

/// The block command of a CDB whose row has a name, on a disk of a profile.
pub(super) fn decode_block(profile: Profile, name: Name, cdb: &[u8]) -> Result<Command, CdbFault>
    requires { names_block_command name ≡ true }
    ensures { result ≡ command_of_name profile name cdb.now }
{
    match name {
        Name::CompareAndWrite => verify::decode_compare_and_write(cdb),
        Name::FormatUnit => format::decode_format_unit(cdb),
        Name::OrWrite16 => Ok(Command::OrWrite16(decode_extent_16(&ORWRITE_16, cdb)?)),
        Name::PreFetch10 => Ok(Command::PreFetch10(decode_extent_10(&PRE_FETCH_10, cdb)?)),
        Name::PreFetch16 => Ok(Command::PreFetch16(decode_extent_16(&PRE_FETCH_16, cdb)?)),
        Name::Read6 => Ok(Command::Read6(decode_extent_6(&READ_6, cdb)?)),
        Name::Read10 => Ok(Command::Read10(decode_extent_10(&READ_10, cdb)?)),
        Name::Read12 => Ok(Command::Read12(decode_extent_12(&READ_12, cdb)?)),
        Name::Read16 => Ok(Command::Read16(decode_extent_16(&READ_16, cdb)?)),
        Name::Write6 => Ok(Command::Write6(decode_extent_6(&WRITE_6, cdb)?)),
        Name::Write10 => Ok(Command::Write10(decode_extent_10(&WRITE_10, cdb)?)),
        Name::Write12 => Ok(Command::Write12(decode_extent_12(&WRITE_12, cdb)?)),
        Name::Write16 => Ok(Command::Write16(decode_extent_16(&WRITE_16, cdb)?)),
        Name::ReadCapacity10 => decode_read_capacity_10(cdb),
        Name::ReadCapacity16 => decode_read_capacity_16(cdb),
        Name::ReadDefectData10 => diagnostic::decode_read_defect_data_10(cdb),
        Name::ReadDefectData12 => diagnostic::decode_read_defect_data_12(cdb),
        Name::SanitizeBlockErase => format::decode_block_erase(cdb),
        Name::SanitizeCryptographicErase => format::decode_cryptographic_erase(cdb),
        Name::SanitizeExitFailureMode => format::decode_exit_failure_mode(cdb),
        Name::StartStopUnit => start_stop::decode_start_stop_unit(cdb),
        Name::SynchronizeCache10 => decode_synchronize_cache_10(cdb),
        Name::SynchronizeCache16 => decode_synchronize_cache_16(cdb),
        Name::Verify10 => verify::decode_verify_10(cdb),
        Name::Verify12 => verify::decode_verify_12(cdb),
        Name::Verify16 => verify::decode_verify_16(cdb),
        Name::WriteAndVerify10 => verify::decode_write_and_verify_10(cdb),
        Name::WriteAndVerify12 => verify::decode_write_and_verify_12(cdb),
        Name::WriteAndVerify16 => verify::decode_write_and_verify_16(cdb),
        Name::WriteAtomic16 => decode_write_atomic_16(cdb),
        Name::WriteLong10 => decode_write_long_10(cdb),
        Name::WriteSame10 => provisioning::decode_write_same_10(cdb),
        Name::WriteSame16 => provisioning::decode_write_same_16(profile, cdb),
        Name::Unmap => provisioning::decode_unmap(cdb),
        Name::GetLbaStatus => provisioning::decode_get_lba_status(cdb),
        _ => unreachable!(),
    }
}

pub(super) fn decode_read_capacity_10(cdb: &[u8]) -> Result<Command, CdbFault>
    ensures { result ≡ command_by (layout_of Name.ReadCapacity10) cdb.now }
{
    check_row(&READ_CAPACITY_10, cdb)?;
    Ok(Command::ReadCapacity10)
}

pub(super) fn decode_read_capacity_16(cdb: &[u8]) -> Result<Command, CdbFault>
    ensures { result ≡ command_by (layout_of Name.ReadCapacity16) cdb.now }
{
    check_row(&READ_CAPACITY_16, cdb)?;
    Ok(Command::ReadCapacity16(ReadCapacity16 {
        allocation_length: BigEndian::read_u32(&cdb[10..]),
    }))
}

pub(super) fn decode_synchronize_cache_10(cdb: &[u8]) -> Result<Command, CdbFault>
    ensures { result ≡ command_by (layout_of Name.SynchronizeCache10) cdb.now }
{
    let extent = decode_extent_10(&SYNCHRONIZE_CACHE_10, cdb)?;
    Ok(Command::SynchronizeCache10(extent))
}

pub(super) fn decode_synchronize_cache_16(cdb: &[u8]) -> Result<Command, CdbFault>
    ensures { result ≡ command_by (layout_of Name.SynchronizeCache16) cdb.now }
{
    let extent = decode_extent_16(&SYNCHRONIZE_CACHE_16, cdb)?;
    Ok(Command::SynchronizeCache16(extent))
}

pub(super) fn decode_write_atomic_16(cdb: &[u8]) -> Result<Command, CdbFault>
    ensures { result ≡ command_by (layout_of Name.WriteAtomic16) cdb.now }
{
    check_row(&WRITE_ATOMIC_16, cdb)?;
    Ok(Command::WriteAtomic16(WriteAtomic16 {
        lba: BigEndian::read_u64(&cdb[2..]),
        boundary: BigEndian::read_u16(&cdb[10..]),
        count: BigEndian::read_u16(&cdb[12..]),
    }))
}

pub(super) fn decode_write_long_10(cdb: &[u8]) -> Result<Command, CdbFault>
    ensures { result ≡ command_by (layout_of Name.WriteLong10) cdb.now }
{
    // The numbers lie in the places of an extent's numbers.
    let numbers = decode_extent_10(&WRITE_LONG_10, cdb)?;
    Ok(Command::WriteLong10(WriteLong10 {
        cor_dis: cdb[1] & COR_DIS != 0,
        wr_uncor: cdb[1] & WR_UNCOR != 0,
        lba: numbers.lba,
        length: numbers.count,
    }))
}

/// The address and the count of READ(6) and WRITE(6).
pub(super) fn decode_extent_6(row: &Row, cdb: &[u8]) -> Result<ShortExtent, CdbFault>
    requires row { IsRow row.now × (length row.now.masks.now ≡ 6) }
    ensures decoded { OnOk result (IsDecoded cdb.now row.now.name) }
    ensures refused { IfErr result (IsRefused cdb.now row.now.name) }
    ensures extent { IfOk result (λ extent. extent ≡ value_at cdb.now short_extent) }
{
    check_row(row, cdb)?;
    let lba = BigEndian::read_u24(&cdb[1..]) & 0x1F_FFFF;
    Ok(ShortExtent::of_fields(lba, cdb[4]))
}

/// The address and the count of commands of 10 bytes.
pub(super) fn decode_extent_10(row: &Row, cdb: &[u8]) -> Result<Extent10, CdbFault>
    requires row { IsRow row.now × (length row.now.masks.now ≡ 10) }
    ensures decoded { OnOk result (IsDecoded cdb.now row.now.name) }
    ensures refused { IfErr result (IsRefused cdb.now row.now.name) }
    ensures whole { OnOk result (10 ≤ length cdb.now) }
    ensures extent { IfOk result (λ extent.
        extent ≡ record { lba = number_at cdb.now 2 5; count = number_at cdb.now 7 8 }) }
{
    check_row(row, cdb)?;
    Ok(Extent10 {
        lba: BigEndian::read_u32(&cdb[2..]),
        count: BigEndian::read_u16(&cdb[7..]),
    })
}

/// An address, and the number after it, of commands of 12 bytes.
pub(super) fn decode_extent_12(row: &Row, cdb: &[u8]) -> Result<Extent12, CdbFault>
    requires row { IsRow row.now × (length row.now.masks.now ≡ 12) }
    ensures decoded { OnOk result (IsDecoded cdb.now row.now.name) }
    ensures refused { IfErr result (IsRefused cdb.now row.now.name) }
    ensures whole { OnOk result (12 ≤ length cdb.now) }
    ensures extent { IfOk result (λ extent.
        extent ≡ record { lba = number_at cdb.now 2 5; count = number_at cdb.now 6 9 }) }
{
    check_row(row, cdb)?;
    Ok(Extent12 {
        lba: BigEndian::read_u32(&cdb[2..]),
        count: BigEndian::read_u32(&cdb[6..]),
    })
}

/// An address, and the number after it, of commands of 16 bytes.
/// Inlined, because the masks of each caller are constant: a byte that may have any bit takes no
/// test.
#[inline(always)]
pub(super) fn decode_extent_16(row: &Row, cdb: &[u8]) -> Result<Extent16, CdbFault>
    requires row { IsRow row.now × (length row.now.masks.now ≡ 16) }
    ensures decoded { OnOk result (IsDecoded cdb.now row.now.name) }
    ensures refused { IfErr result (IsRefused cdb.now row.now.name) }
    ensures whole { OnOk result (16 ≤ length cdb.now) }
    ensures extent { IfOk result (λ extent.
        extent ≡ record { lba = number_at cdb.now 2 9; count = number_at cdb.now 10 13 }) }
{
    check_row(row, cdb)?;
    Ok(Extent16 {
        lba: BigEndian::read_u64(&cdb[2..]),
        count: BigEndian::read_u32(&cdb[10..]),
    })
}

// ---- Encoding

impl Command {
    /// The CDB of a block command, which has room for the values of its fields.
    #[tactic(auto, unfolding(crate::specs::CdbEncoding::cdb_of))]
    pub(super) fn encode_block(&self) -> CdbBytes
        requires { is_block_command self.now ≡ true }
        ensures cdb { result ≡ cdb_of self.now }
        ensures fits { fits_cdb self.now ≡ true }
    {
        match *self {
            Command::CompareAndWrite(fields) => fields.encode(),
            Command::FormatUnit(fields) => fields.encode(),
            Command::OrWrite16(extent) => extent.encode(&ORWRITE_16),
            Command::PreFetch10(extent) => extent.encode(&PRE_FETCH_10),
            Command::PreFetch16(extent) => extent.encode(&PRE_FETCH_16),
            Command::Read6(extent) => encode_extent_6(&READ_6, extent),
            Command::Read10(extent) => extent.encode(&READ_10),
            Command::Read12(extent) => extent.encode(&READ_12),
            Command::Read16(extent) => extent.encode(&READ_16),
            Command::Write6(extent) => encode_extent_6(&WRITE_6, extent),
            Command::Write10(extent) => extent.encode(&WRITE_10),
            Command::Write12(extent) => extent.encode(&WRITE_12),
            Command::Write16(extent) => extent.encode(&WRITE_16),
            Command::ReadCapacity10 => encode_read_capacity_10(),
            Command::ReadCapacity16(fields) => fields.encode(),
            Command::ReadDefectData10(fields) => fields.encode(),
            Command::ReadDefectData12(fields) => fields.encode(),
            Command::SanitizeBlockErase(fields) => fields.encode(&SANITIZE_BLOCK_ERASE),
            Command::SanitizeCryptographicErase(fields) => {
                fields.encode(&SANITIZE_CRYPTOGRAPHIC_ERASE)
            }
            Command::SanitizeExitFailureMode(fields) => fields.encode(&SANITIZE_EXIT_FAILURE_MODE),
            Command::StartStopUnit(fields) => fields.encode(),
            Command::SynchronizeCache10(extent) => extent.encode(&SYNCHRONIZE_CACHE_10),
            Command::SynchronizeCache16(extent) => extent.encode(&SYNCHRONIZE_CACHE_16),
            Command::Verify10(fields) => fields.encode(&VERIFY_10),
            Command::Verify12(fields) => fields.encode(&VERIFY_12),
            Command::Verify16(fields) => fields.encode(&VERIFY_16),
            Command::WriteAndVerify10(fields) => fields.encode(&WRITE_AND_VERIFY_10),
            Command::WriteAndVerify12(fields) => fields.encode(&WRITE_AND_VERIFY_12),
            Command::WriteAndVerify16(fields) => fields.encode(&WRITE_AND_VERIFY_16),
            Command::WriteAtomic16(fields) => fields.encode(),
            Command::WriteLong10(fields) => fields.encode(),
            Command::WriteSame10(fields) => fields.encode(),
            Command::WriteSame16(fields) => fields.encode(),
            Command::Unmap(fields) => fields.encode(),
            Command::GetLbaStatus(fields) => fields.encode(),
            _ => unreachable!(),
        }
    }
}

/// READ(6) and WRITE(6). A TRANSFER LENGTH of 0 means 256 blocks.
pub(super) fn encode_extent_6(row: &Row, extent: ShortExtent) -> CdbBytes
    ensures bytes { result ≡ (row.now.opcode ∷ extent.0 / 65536 ∷ [])
        ++ big_bytes 2 (extent.0 % 65536) ++ (extent.1 % 256 ∷ 0 ∷ []) }
    ensures fits { have_room (extent_6 extent) ≡ true }
{
    let mut cdb = [0; MAX_CDB_LENGTH];
    cdb[0] = row.opcode;
    BigEndian::write_u24(&mut cdb[1..], extent.lba());
    cdb[4] = (extent.count() % 256) as u8;
    CdbBytes::new(cdb, 6)
}

impl Extent10 {
    /// The CDB of a row's command.
    pub(super) fn encode(self, row: &Row) -> CdbBytes
        ensures cdb { result ≡ (row.now.opcode ∷ 0 ∷ []) ++ big_bytes 4 self.lba ++ (0 ∷ [])
            ++ big_bytes 2 self.count ++ (0 ∷ []) }
        ensures fits { have_room (extent_10 self) ≡ true }
    {
        let mut cdb = [0; MAX_CDB_LENGTH];
        cdb[0] = row.opcode;
        BigEndian::write_u32(&mut cdb[2..], self.lba);
        BigEndian::write_u16(&mut cdb[7..], self.count);
        CdbBytes::new(cdb, 10)
    }
}

impl Extent12 {
    /// The CDB of a row's command.
    pub(super) fn encode(self, row: &Row) -> CdbBytes
        ensures cdb { result ≡ (row.now.opcode ∷ 0 ∷ []) ++ big_bytes 4 self.lba
            ++ big_bytes 4 self.count ++ (0 ∷ 0 ∷ []) }
        ensures fits { have_room (extent_12 self) ≡ true }
    {
        let mut cdb = [0; MAX_CDB_LENGTH];
        cdb[0] = row.opcode;
        BigEndian::write_u32(&mut cdb[2..], self.lba);
        BigEndian::write_u32(&mut cdb[6..], self.count);
        CdbBytes::new(cdb, 12)
    }
}

impl Extent16 {
    /// The CDB of a row's command.
    pub(super) fn encode(self, row: &Row) -> CdbBytes
        ensures cdb { result ≡ (row.now.opcode ∷ 0 ∷ []) ++ big_bytes 8 self.lba
            ++ big_bytes 4 self.count ++ (0 ∷ 0 ∷ []) }
        ensures fits { have_room (extent_16 self) ≡ true }
    {
        let mut cdb = [0; MAX_CDB_LENGTH];
        cdb[0] = row.opcode;
        BigEndian::write_u64(&mut cdb[2..], self.lba);
        BigEndian::write_u32(&mut cdb[10..], self.count);
        CdbBytes::new(cdb, MAX_CDB_LENGTH)
    }
}

#[tactic(auto, unfolding(crate::specs::CdbEncoding::cdb_of))]
pub(super) fn encode_read_capacity_10() -> CdbBytes
    ensures { result ≡ cdb_of Command.ReadCapacity10 }
{
    let mut cdb = READ_CAPACITY_10.begin();
    CdbBytes::new(cdb, 10)
}

impl ReadCapacity16 {
    #[tactic(auto, unfolding(crate::specs::CdbEncoding::cdb_of))]
    pub(super) fn encode(self) -> CdbBytes
        ensures cdb { result ≡ cdb_of (Command.ReadCapacity16 self) }
        ensures fits { fits_cdb (Command.ReadCapacity16 self) ≡ true }
    {
        let mut cdb = READ_CAPACITY_16.begin();
        BigEndian::write_u32(&mut cdb[10..], self.allocation_length);
        CdbBytes::new(cdb, MAX_CDB_LENGTH)
    }
}

impl WriteAtomic16 {
    #[tactic(auto, unfolding(crate::specs::CdbEncoding::cdb_of))]
    pub(super) fn encode(self) -> CdbBytes
        ensures cdb { result ≡ cdb_of (Command.WriteAtomic16 self) }
        ensures fits { fits_cdb (Command.WriteAtomic16 self) ≡ true }
    {
        let mut cdb = WRITE_ATOMIC_16.begin();
        BigEndian::write_u64(&mut cdb[2..], self.lba);
        BigEndian::write_u16(&mut cdb[10..], self.boundary);
        BigEndian::write_u16(&mut cdb[12..], self.count);
        CdbBytes::new(cdb, MAX_CDB_LENGTH)
    }
}

impl WriteLong10 {
    #[tactic(auto, unfolding(crate::specs::CdbEncoding::cdb_of))]
    pub(super) fn encode(self) -> CdbBytes
        ensures cdb { result ≡ cdb_of (Command.WriteLong10 self) }
        ensures fits { fits_cdb (Command.WriteLong10 self) ≡ true }
    {
        let mut cdb = WRITE_LONG_10.begin();
        cdb[1] = two_bits(self.cor_dis, COR_DIS, self.wr_uncor, WR_UNCOR);
        BigEndian::write_u32(&mut cdb[2..], self.lba);
        BigEndian::write_u16(&mut cdb[7..], self.length);
        CdbBytes::new(cdb, 10)
    }
}
