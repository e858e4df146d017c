// FORMAT UNIT and SANITIZE, which unmap all blocks (SBC-3, 5.3 and 5.24).
ghost use Rattle.std.specs.Prelude.{◌≡◌, [], length, IfErr, IfOk, Some, None};
ghost use Rattle.sg_target.specs.Checks.{requested, unsupported_value};
ghost use Rattle.sg_target.specs.Demands.{bad_list_length, format_unit, sanitize};
ghost use Rattle.sg_target.specs.FormatList.{bad_among, bad_field, header_length, header_refusal};
ghost use Rattle.sg_target.specs.FormatList.{long_end, supports_options};

use crate::config::Config;
use crate::data_out::needed_data_out;
use crate::operation::Operation;
use crate::refusal::{Reason, Refusal};
use sg_wire::{FormatUnit, Sanitize, are_zeros};

// Bits of byte 1 of the header.
const FOV: u8 = 0x80;

/// DPRY, DCRT, STPF and IMMED with FOV.
const ALLOWED_WITH_FOV: u8 = 0xF2;

/// IMMED.
const ALLOWED_WITHOUT_FOV: u8 = 0x02;

// ---- FORMAT UNIT

pub(crate) fn check_format_unit<'a>(
    config: &Config,
    fields: FormatUnit,
    data_out: &'a [u8],
) -> Result<Operation<'a>, Refusal>
    ensures { result ≡ requested (format_unit config.now fields data_out.now) data_out.now }
{
    if fields.format_data {
        let list = needed_data_out(config, data_out, header_length(fields.long_list))?;
        check_header(fields.long_list, list)?;
    }
    Ok(Operation::UnmapAll(config.blocks()))
}

/// The length of the header of the parameter list, in bytes.
pub(crate) fn header_length(long_list: bool) -> usize
    ensures { result ≡ header_length long_list }
{
    if long_list { 8 } else { 4 }
}

/// Refuses a header with a field that the disk does not support.
fn check_header(long_list: bool, list: &[u8]) -> Result<(), Refusal>
    requires { length list.now ≡ header_length long_list }
    ensures refused { IfErr result (λ refusal. header_refusal long_list list.now ≡ Some refusal) }
    ensures passed { IfOk result (λ _. header_refusal long_list list.now ≡ None) }
{
    match bad_field(long_list, list) {
        Some(byte) => Err(Refusal::CheckCondition(Reason::InvalidFieldInParameterList { byte })),
        None => Ok(()),
    }
}

/// The first byte of the first field that the disk does not support.
fn bad_field(long_list: bool, list: &[u8]) -> Option<u16>
    requires { length list.now ≡ header_length long_list }
    ensures { result ≡ bad_field long_list list.now }
{
    let options = &list[1..2];
    if !are_zeros(&list[0..1]) {
        Some(0)
    } else if !supports_options(options[0]) {
        Some(1)
    } else if long_list {
        bad_end_of_long(list)
    } else if !are_zeros(&list[2..4]) {
        Some(2)
    } else {
        None
    }
}

/// The same of the fields after the first two, if there are eight bytes.
fn bad_end_of_long(list: &[u8]) -> Option<u16>
    requires { length list.now ≡ 8 }
    ensures { result ≡ bad_among long_end list.now }
{
    if !are_zeros(&list[2..3]) {
        Some(2)
    } else if !are_zeros(&list[3..4]) {
        Some(3)
    } else if !are_zeros(&list[4..8]) {
        Some(4)
    } else {
        None
    }
}

/// The bits of FOV, DPRY, DCRT, STPF, IP and IMMED go together.
fn supports_options(options: u8) -> bool
    ensures { result ≡ supports_options options }
{
    let allowed = if options & FOV != 0 {
        ALLOWED_WITH_FOV
    } else {
        ALLOWED_WITHOUT_FOV
    };
    options & allowed == options
}

// ---- SANITIZE

/// BLOCK ERASE and CRYPTOGRAPHIC ERASE.
pub(crate) fn check_erase(config: &Config, fields: Sanitize) -> Result<Operation<'static>, Refusal>
    ensures { result
        ≡ requested (sanitize fields.list_length (Operation.UnmapAll config.now.blocks)) [] }
{
    check_no_list(fields)?;
    Ok(Operation::UnmapAll(config.blocks()))
}

/// EXIT FAILURE MODE.
pub(crate) fn check_exit_failure_mode(fields: Sanitize) -> Result<Operation<'static>, Refusal>
    ensures { result ≡ requested (sanitize fields.list_length Operation.Nothing) [] }
{
    check_no_list(fields)?;
    Ok(Operation::Nothing)
}

/// Refuses a parameter list. PARAMETER LIST LENGTH begins at byte 7.
fn check_no_list(fields: Sanitize) -> Result<(), Refusal>
    ensures refused { IfErr result (λ refusal.
        unsupported_value (bad_list_length fields.list_length) ≡ Some refusal) }
    ensures passed { IfOk result (λ _. bad_list_length fields.list_length ≡ None) }
{
    if fields.list_length != 0 {
        return Err(Refusal::CheckCondition(Reason::InvalidFieldInCdb { byte: 7 }));
    }
    Ok(())
}
