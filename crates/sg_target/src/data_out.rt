// How much data-out a command asks for. A command without all of it is refused before any address is
// checked, unless the disk takes too little data-out of it.
ghost use Rattle.std.specs.Prelude.{◌≡◌, ℕ, [], length, Some, None, IfOk, IfErr};
ghost use Rattle.sg_wire.specs.FirstBytes.{first_bytes};
ghost use Rattle.sg_target.specs.Checks.{short_data_out};
ghost use Rattle.sg_target.specs.Config.{ConfigFields};
ghost use Rattle.sg_target.specs.DataOut.{need, short_reason};
ghost use Rattle.sg_target.specs.Demands.{asked_bytes, extent, format_unit, needed_by, needed_bytes};
ghost use Rattle.sg_target.specs.Demands.{verify};

use crate::config::Config;
use crate::extent::byte_length;
use crate::format::header_length;
use crate::refusal::{Reason, Refusal};
use sg_store::BLOCK_LENGTH;
use sg_wire::{ByteCheck, CdbFault, Command, Extent, FormatUnit};

/// The first `count` bytes of data-out, which must have them all. More bytes are ignored.
pub(crate) fn needed_data_out<'a>(
    config: &Config,
    data_out: &'a [u8],
    count: usize,
) -> Result<&'a [u8], Refusal>
    ensures refused { IfErr result (λ refusal.
        short_data_out (Some (need config.now count)) data_out.now ≡ Some refusal) }
    ensures passed { IfOk result (λ _.
        short_data_out (Some (need config.now count)) data_out.now ≡ None) }
    ensures bytes { IfOk result (λ bytes. bytes.now ≡ first_bytes count data_out.now) }
    ensures whole { IfOk result (λ bytes. length bytes.now ≡ count) }
{
    if data_out.len() < count {
        return Err(Refusal::CheckCondition(short_reason(config)));
    }
    Ok(&data_out[..count])
}

/// Why a command with less data-out than it needs is refused.
pub(crate) fn short_reason(config: &Config) -> Reason
    ensures { result ≡ short_reason config.now }
{
    if config.rules().short_data_out_is_illegal {
        Reason::InvalidInformationUnit
    } else {
        Reason::DataPhaseError
    }
}

/// The number of bytes of data-out that a CDB asks for, by its command or its fault.
#[inline(always)]
pub(crate) fn asked_bytes(command: &Result<Command, CdbFault>) -> u64
    ensures { (config : ConfigFields) → result ≡ asked_bytes config command.now }
{
    match command {
        Ok(command) => needed_bytes(command),
        Err(_) => 0,
    }
}

/// The number of bytes of data-out that a command needs.
#[inline(always)]
fn needed_bytes(command: &Command) -> u64
    ensures { (config : ConfigFields) → result ≡ needed_bytes config command.now }
{
    match *command {
        Command::ModeSelect6(fields) => u64::from(fields.list_length),
        Command::ModeSelect10(fields) => u64::from(fields.list_length),
        Command::PersistentReserveOut(fields) => u64::from(fields.list_length),
        Command::Unmap(fields) => u64::from(fields.list_length),
        Command::ExtendedCopy(fields) => u64::from(fields.list_length),
        Command::FormatUnit(fields) => list_bytes(fields),
        Command::CompareAndWrite(fields) => {
            2 * byte_length(blocks_from(fields.lba, u32::from(fields.count)))
        }
        Command::OrWrite16(extent) => byte_length(extent.into()),
        Command::Write6(extent) => byte_length(extent.into()),
        Command::Write10(extent) => byte_length(extent.into()),
        Command::Write12(extent) => byte_length(extent.into()),
        Command::Write16(extent) => byte_length(extent.into()),
        Command::WriteAtomic16(fields) => {
            byte_length(blocks_from(fields.lba, u32::from(fields.count)))
        }
        Command::WriteAndVerify10(fields) => byte_length(fields.extent.into()),
        Command::WriteAndVerify12(fields) => byte_length(fields.extent.into()),
        Command::WriteAndVerify16(fields) => byte_length(fields.extent.into()),
        Command::Verify10(fields) => compared_bytes(fields.byte_check, fields.extent.into()),
        Command::Verify12(fields) => compared_bytes(fields.byte_check, fields.extent.into()),
        Command::Verify16(fields) => compared_bytes(fields.byte_check, fields.extent.into()),
        Command::WriteSame10(_) => BLOCK_LENGTH as u64,
        Command::WriteSame16(fields) if !fields.ndob => BLOCK_LENGTH as u64,
        _ => 0,
    }
}

fn blocks_from(lba: u64, count: u32) -> Extent
    ensures { result ≡ extent lba count }
{
    Extent { lba, count }
}

/// The bytes of the parameter list of FORMAT UNIT that the disk reads.
fn list_bytes(fields: FormatUnit) -> u64
    ensures { (config : ConfigFields) → result ≡ needed_by (format_unit config fields []) }
{
    if fields.format_data {
        header_length(fields.long_list) as u64
    } else {
        0
    }
}

/// The bytes with which VERIFY compares blocks.
fn compared_bytes(check: ByteCheck, extent: Extent) -> u64
    ensures { (config : ConfigFields) (byte : ℕ) → result
        ≡ needed_by (verify config check extent byte []) }
{
    match check {
        ByteCheck::DataOut => byte_length(extent),
        ByteCheck::OneBlock if extent.count > 0 => BLOCK_LENGTH as u64,
        _ => 0,
    }
}
