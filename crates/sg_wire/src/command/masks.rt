// The bits that a CDB may have set, and the bits that are set in it.
ghost use Rattle.std.specs.Prelude.{◌≡◌, ◌≤◌, ◌<◌, ◌+◌, if◌then◌else◌};
ghost use Rattle.std.specs.Prelude.{length, IfErr, OnOk, IfSome};
ghost use Rattle.sg_wire.specs.CdbDecoding.{first_bad};
ghost use Rattle.sg_wire.specs.Table.{fits_masks};

use super::CdbFault;
use crate::bytes::MAX_CDB_LENGTH;

/// Refuses a CDB that ends early or has a bit outside the masks.
#[tactic(auto, unfolding(crate::specs::Table::fits_masks))]
pub(super) fn check_masks(masks: &[u8], cdb: &[u8]) -> Result<(), CdbFault>
    requires { length masks.now ≤ MAX_CDB_LENGTH }
    ensures fits { result ≡ fits_masks masks.now cdb.now }
    ensures whole { OnOk result (length masks.now ≤ length cdb.now) }
{
    check_length(cdb, masks.len())?;
    match first_bad(masks, cdb) {
        Some(byte) => Err(CdbFault::Field(byte as u8)),
        None => Ok(()),
    }
}

/// Refuses a CDB of fewer bytes than the command has.
pub(super) fn check_length(cdb: &[u8], wanted: usize) -> Result<(), CdbFault>
    requires { wanted ≤ MAX_CDB_LENGTH }
    ensures short { IfErr result (λ fault. fault ≡ CdbFault.Short (length cdb.now)) }
    ensures refused { IfErr result (λ _. length cdb.now < wanted) }
    ensures whole { OnOk result (wanted ≤ length cdb.now) }
{
    if cdb.len() < wanted {
        return Err(CdbFault::Short(cdb.len() as u8));
    }
    Ok(())
}

/// The first byte with a bit outside its mask.
#[tactic(auto, using(crate::proofs::LayoutLemmas::byte_by_byte))]
fn first_bad(masks: &[u8], cdb: &[u8]) -> Option<usize>
    requires { length masks.now ≤ length cdb.now }
    ensures value { result ≡ first_bad 0 masks.now cdb.now }
    ensures bound { IfSome result (λ byte. byte < length masks.now) }
{
    for (byte, mask) in masks.iter().enumerate() {
        if cdb[byte] & mask != cdb[byte] {
            return Some(byte);
        }
    }
    None
}

/// Two bits of one byte, each with its mask.
pub(super) fn two_bits(high: bool, high_mask: u8, low: bool, low_mask: u8) -> u8
    requires { high_mask + low_mask < 256 }
    ensures { result ≡ (if high then high_mask else 0) + (if low then low_mask else 0) }
{
    let high_bit = if high { high_mask } else { 0 };
    let low_bit = if low { low_mask } else { 0 };
    high_bit + low_bit
}
