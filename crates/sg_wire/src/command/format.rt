// FORMAT UNIT and SANITIZE, which empty the whole medium (SBC-3, 5.3 and 5.24).
ghost use Rattle.std.specs.Prelude.{ℕ, ◌≡◌, ◌++◌, ◌∷◌, [], replicate, true};
ghost use Rattle.std.specs.Option.{option_map_or};
ghost use Rattle.byteorder.specs.Endian.{big_bytes};
ghost use Rattle.sg_wire.specs.CdbEncoding.{cdb_of};
ghost use Rattle.sg_wire.specs.FieldRoom.{fits_cdb, have_room};
ghost use Rattle.sg_wire.specs.Layout.{sanitize};
ghost use Rattle.sg_wire.specs.Table.{command_by, layout_of};
ghost use Rattle.sg_wire.specs.declared.command.table.Name.{Name};

use super::masks::two_bits;
use super::rows::{
    FORMAT_UNIT, SANITIZE_BLOCK_ERASE, SANITIZE_CRYPTOGRAPHIC_ERASE, SANITIZE_EXIT_FAILURE_MODE,
};
use super::table::{Row, check_row};
use super::{CdbFault, Command};
use crate::bytes::CdbBytes;
use byteorder::{BigEndian, ByteOrder};

// Bits of byte 1 of FORMAT UNIT.
const LONGLIST: u8 = 0x20;

const FMTDATA: u8 = 0x10;

/// The fields of FORMAT UNIT (SBC-3, 5.3).
#[derive(Clone, Copy, Debug, PartialEq, Eq)]
pub struct FormatUnit {
    /// LONGLIST: the header of the parameter list has eight bytes, and not four.
    pub long_list: bool,
    /// FMTDATA: there is a parameter list.
    pub format_data: bool,
}

/// The field of each service action of SANITIZE (SBC-3, 5.24).
#[derive(Clone, Copy, Debug, PartialEq, Eq)]
pub struct Sanitize {
    /// The length of the parameter list, in bytes.
    pub list_length: u16,
}

// ---- Decoding

pub(super) fn decode_format_unit(cdb: &[u8]) -> Result<Command, CdbFault>
    ensures { result ≡ command_by (layout_of Name.FormatUnit) cdb.now }
{
    check_row(&FORMAT_UNIT, cdb)?;
    Ok(Command::FormatUnit(FormatUnit {
        long_list: cdb[1] & LONGLIST != 0,
        format_data: cdb[1] & FMTDATA != 0,
    }))
}

pub(super) fn decode_block_erase(cdb: &[u8]) -> Result<Command, CdbFault>
    ensures { result ≡ command_by (layout_of Name.SanitizeBlockErase) cdb.now }
{
    check_row(&SANITIZE_BLOCK_ERASE, cdb)?;
    Ok(Command::SanitizeBlockErase(Sanitize {
        list_length: BigEndian::read_u16(&cdb[7..]),
    }))
}

pub(super) fn decode_cryptographic_erase(cdb: &[u8]) -> Result<Command, CdbFault>
    ensures { result ≡ command_by (layout_of Name.SanitizeCryptographicErase) cdb.now }
{
    check_row(&SANITIZE_CRYPTOGRAPHIC_ERASE, cdb)?;
    Ok(Command::SanitizeCryptographicErase(Sanitize {
        list_length: BigEndian::read_u16(&cdb[7..]),
    }))
}

pub(super) fn decode_exit_failure_mode(cdb: &[u8]) -> Result<Command, CdbFault>
    ensures { result ≡ command_by (layout_of Name.SanitizeExitFailureMode) cdb.now }
{
    check_row(&SANITIZE_EXIT_FAILURE_MODE, cdb)?;
    Ok(Command::SanitizeExitFailureMode(Sanitize {
        list_length: BigEndian::read_u16(&cdb[7..]),
    }))
}

// ---- Encoding

impl FormatUnit {
    #[tactic(auto, unfolding(crate::specs::CdbEncoding::cdb_of))]
    pub(super) fn encode(self) -> CdbBytes
        ensures cdb { result ≡ cdb_of (Command.FormatUnit self) }
        ensures fits { fits_cdb (Command.FormatUnit self) ≡ true }
    {
        let mut cdb = FORMAT_UNIT.begin();
        cdb[1] = two_bits(self.long_list, LONGLIST, self.format_data, FMTDATA);
        CdbBytes::new(cdb, 6)
    }
}

impl Sanitize {
    /// The CDB of a row's command.
    pub(super) fn encode(self, row: &Row) -> CdbBytes
        ensures cdb { result ≡ (row.now.opcode
            ∷ option_map_or (λ (action : ℕ). action) row.now.service_action 0 ∷ replicate 5 0)
            ++ big_bytes 2 self.list_length ++ (0 ∷ []) }
        ensures fits { have_room (sanitize self) ≡ true }
    {
        let mut cdb = row.begin();
        BigEndian::write_u16(&mut cdb[7..], self.list_length);
        CdbBytes::new(cdb, 10)
    }
}
