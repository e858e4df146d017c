// PERSISTENT RESERVE IN and PERSISTENT RESERVE OUT (SPC-4, 6.15 and 6.16).
ghost use Rattle.std.specs.Prelude.{◌≡◌, true};
ghost use Rattle.sg_wire.specs.CdbEncoding.{cdb_of};
ghost use Rattle.sg_wire.specs.FieldRoom.{fits_cdb};
ghost use Rattle.sg_wire.specs.Table.{command_with};

use super::masks::{check_length, check_masks};
use super::rows::{PERSISTENT_RESERVE_IN, PERSISTENT_RESERVE_OUT};
use super::table::service_action;
use super::{CdbFault, Command, InAction, OutAction};
use crate::bytes::CdbBytes;
use crate::profile::Profile;
use byteorder::{BigEndian, ByteOrder};

/// The fields of PERSISTENT RESERVE IN (SPC-4, 6.15).
#[derive(Clone, Copy, Debug, PartialEq, Eq)]
pub struct PersistentReserveIn {
    /// The service action, which names what to read.
    pub action: InAction,
    /// The allocation length, in bytes.
    pub allocation_length: u16,
}

/// The fields of PERSISTENT RESERVE OUT (SPC-4, 6.16).
#[derive(Clone, Copy, Debug, PartialEq, Eq)]
pub struct PersistentReserveOut {
    /// The service action, which names what to do.
    pub action: OutAction,
    /// SCOPE in the high four bits, and TYPE in the low four.
    pub scope_type: u8,
    /// The length of the parameter list, in bytes.
    pub list_length: u32,
}

// ---- Decoding

#[tactic(auto, unfolding(crate::specs::Table::command_with, crate::specs::Table::fits_masks))]
pub(super) fn decode_persistent_reserve_in(cdb: &[u8]) -> Result<Command, CdbFault>
    ensures { result ≡ command_with Profile.Extended 0x5E cdb.now }
{
    check_length(cdb, PERSISTENT_RESERVE_IN.masks.len())?;
    let action = InAction::with_code(service_action(cdb)).ok_or(CdbFault::Field(1))?;
    check_masks(PERSISTENT_RESERVE_IN.masks, cdb)?;
    Ok(Command::PersistentReserveIn(PersistentReserveIn {
        action,
        allocation_length: BigEndian::read_u16(&cdb[7..]),
    }))
}

#[tactic(auto, unfolding(crate::specs::Table::command_with, crate::specs::Table::fits_masks))]
pub(super) fn decode_persistent_reserve_out(
    profile: Profile,
    cdb: &[u8],
) -> Result<Command, CdbFault>
    ensures { result ≡ command_with profile 0x5F cdb.now }
{
    check_length(cdb, PERSISTENT_RESERVE_OUT.masks.len())?;
    let action = OutAction::with_code(profile, service_action(cdb)).ok_or(CdbFault::Field(1))?;
    check_masks(PERSISTENT_RESERVE_OUT.masks, cdb)?;
    Ok(Command::PersistentReserveOut(PersistentReserveOut {
        action,
        scope_type: cdb[2],
        list_length: BigEndian::read_u32(&cdb[5..]),
    }))
}

// ---- Encoding

impl PersistentReserveIn {
    #[tactic(auto, unfolding(crate::specs::CdbEncoding::cdb_of))]
    pub(super) fn encode(self) -> CdbBytes
        ensures cdb { result ≡ cdb_of (Command.PersistentReserveIn self) }
        ensures fits { fits_cdb (Command.PersistentReserveIn self) ≡ true }
    {
        let mut cdb = PERSISTENT_RESERVE_IN.begin();
        cdb[1] = self.action.code();
        BigEndian::write_u16(&mut cdb[7..], self.allocation_length);
        CdbBytes::new(cdb, 10)
    }
}

impl PersistentReserveOut {
    #[tactic(auto, unfolding(crate::specs::CdbEncoding::cdb_of))]
    pub(super) fn encode(self) -> CdbBytes
        ensures cdb { result ≡ cdb_of (Command.PersistentReserveOut self) }
        ensures fits { fits_cdb (Command.PersistentReserveOut self) ≡ true }
    {
        let mut cdb = PERSISTENT_RESERVE_OUT.begin();
        cdb[1] = self.action.code();
        cdb[2] = self.scope_type;
        BigEndian::write_u32(&mut cdb[5..], self.list_length);
        CdbBytes::new(cdb, 10)
    }
}
