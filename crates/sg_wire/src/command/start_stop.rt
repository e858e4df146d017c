// START STOP UNIT (SBC-3, 5.25). It is the one command whose class depends on a field.
ghost use Rattle.std.specs.Prelude.{◌≡◌, true};
ghost use Rattle.sg_wire.specs.CdbEncoding.{cdb_of};
ghost use Rattle.sg_wire.specs.FieldRoom.{fits_cdb};
ghost use Rattle.sg_wire.specs.Table.{class_of_name, command_by, layout_of};
ghost use Rattle.sg_wire.specs.declared.command.table.Name.{Name};

use super::masks::two_bits;
use super::rows::START_STOP_UNIT;
use super::table::check_row;
use super::{CdbFault, Class, Command, FourBits};
use crate::bytes::CdbBytes;

// Bits of byte 4.
const LOEJ: u8 = 0x02;

const START: u8 = 0x01;

/// The fields of START STOP UNIT (SBC-3, 5.25).
#[derive(Clone, Copy, Debug, PartialEq, Eq)]
pub struct StartStopUnit {
    /// POWER CONDITION MODIFIER: more about the power condition.
    pub power_condition_modifier: FourBits,
    /// POWER CONDITION: the power condition that is asked for, or 0 for none.
    pub power_condition: FourBits,
    /// LOEJ: the medium is to be loaded or ejected.
    pub loej: bool,
    /// START: the unit is to be started; without it, the unit is to be stopped.
    pub start: bool,
}

pub(super) fn decode_start_stop_unit(cdb: &[u8]) -> Result<Command, CdbFault>
    ensures { result ≡ command_by (layout_of Name.StartStopUnit) cdb.now }
{
    check_row(&START_STOP_UNIT, cdb)?;
    Ok(Command::StartStopUnit(StartStopUnit {
        power_condition_modifier: FourBits::low(cdb[3]),
        power_condition: FourBits::high(cdb[4]),
        loej: cdb[4] & LOEJ != 0,
        start: cdb[4] & START != 0,
    }))
}

/// The class of a CDB of START STOP UNIT, even of one that ends before its fields.
pub(super) fn class_of(cdb: &[u8]) -> Class
    ensures { result ≡ class_of_name cdb.now Name.StartStopUnit }
{
    let byte = cdb.get(4).copied().unwrap_or(0);
    if byte & START != 0 && FourBits::high(byte).number() == 0 {
        Class::Always
    } else {
        Class::Writes
    }
}

impl StartStopUnit {
    #[tactic(auto, unfolding(crate::specs::CdbEncoding::cdb_of))]
    pub(super) fn encode(self) -> CdbBytes
        ensures cdb { result ≡ cdb_of (Command.StartStopUnit self) }
        ensures fits { fits_cdb (Command.StartStopUnit self) ≡ true }
    {
        let mut cdb = START_STOP_UNIT.begin();
        cdb[3] = self.power_condition_modifier.number();
        cdb[4] = self.power_condition.number() * 16 + two_bits(self.loej, LOEJ, self.start, START);
        CdbBytes::new(cdb, 6)
    }
}
