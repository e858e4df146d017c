// sg_verify, which sends VERIFY(10), or VERIFY(16) with `--16` (SBC-3, 5.29 and 5.31).
ghost use Rattle.std.specs.Prelude.{◌≡◌, ◌≤◌, IfSome, option_map};
ghost use Rattle.sg_tools.specs.DataOutOptions.{block_or_nothing, byte_check_or, data_or};
ghost use Rattle.sg_tools.specs.DataOutOptions.{has_data, has_two_sources};
ghost use Rattle.sg_tools.specs.Requests.{sg_verify, verify, verify_10, verify_16};
ghost use Rattle.sg_wire.specs.ByteCheck.{byte_check_code};

use crate::data_out::DataOut;
use crate::given_options::GivenOptions;
use crate::option_text::number_or;
use crate::parameters::Parameters;
use crate::tool::Tool;
use crate::tool_fault::ToolFault;
use sg_wire::{ByteCheck, Command, Extent10, Extent16, Verify10, Verify16};

/// The request that the options of sg_verify make.
pub(crate) fn sg_verify(options: &GivenOptions) -> Result<Tool, ToolFault>
    ensures { result ≡ sg_verify options.now }
{
    let word = options.text("in");
    let zeros = options.is_set("0");
    let ones = options.is_set("ff");
    let has_word = word.is_some();
    if has_two_sources(has_word, zeros, ones) {
        return Err(ToolFault::Exclusive);
    }
    let compares = has_data(has_word, zeros, ones);
    let byte_check = byte_check_or(compares, options.text("ebytchk"));
    let sent = data_or(block_or_nothing(zeros, ones), word);
    let lba = options.text("lba");
    let count = options.text("count");
    verify(options.is_set("16"), byte_check, sent, lba, count)
}

fn has_two_sources(word: bool, zeros: bool, ones: bool) -> bool
    ensures { result ≡ has_two_sources word zeros ones }
{
    (word && (zeros || ones)) || (zeros && ones)
}

fn has_data(word: bool, zeros: bool, ones: bool) -> bool
    ensures { result ≡ has_data word zeros ones }
{
    word || zeros || ones
}

/// BYTCHK of a text. If there is no text, it is 1 if there is data-out, and otherwise 0.
fn byte_check_or(compares: bool, text: Option<&str>) -> Option<u64>
    ensures value { result ≡ byte_check_or compares (option_map (λ t. t.now) text.entry) }
    ensures within { IfSome result (λ n. n ≤ 3) }
{
    number_or(if compares { 1 } else { 0 }, 3, text)
}

fn verify(
    long: bool,
    byte_check: Option<u64>,
    sent: Option<Parameters>,
    lba: Option<&str>,
    count: Option<&str>,
) -> Result<Tool, ToolFault>
    requires { IfSome byte_check (λ n. n ≤ 3) }
    ensures { result ≡ verify long byte_check sent
        (option_map (λ t. t.now) lba.entry) (option_map (λ t. t.now) count.entry) }
{
    let (Some(byte_check), Some(sent)) = (byte_check, sent) else {
        return Err(ToolFault::Number);
    };
    let byte_check = byte_check_with(byte_check);
    if long {
        verify_16(byte_check, sent, lba, count)
    } else {
        verify_10(byte_check, sent, lba, count)
    }
}

fn verify_10(
    byte_check: ByteCheck,
    sent: Parameters,
    lba: Option<&str>,
    count: Option<&str>,
) -> Result<Tool, ToolFault>
    ensures { result ≡ verify_10 (byte_check_code byte_check) sent
        (option_map (λ t. t.now) lba.entry) (option_map (λ t. t.now) count.entry) }
{
    let lba = number_or(0, 0xffff_ffff, lba);
    let count = number_or(1, 0xffff, count);
    let (Some(lba), Some(count)) = (lba, count) else {
        return Err(ToolFault::Number);
    };
    let extent = Extent10 {
        lba: lba as u32,
        count: count as u16,
    };
    let command = Command::Verify10(Verify10 { byte_check, extent });
    Ok(Tool::with_data_out(command, sent))
}

fn verify_16(
    byte_check: ByteCheck,
    sent: Parameters,
    lba: Option<&str>,
    count: Option<&str>,
) -> Result<Tool, ToolFault>
    ensures { result ≡ verify_16 (byte_check_code byte_check) sent
        (option_map (λ t. t.now) lba.entry) (option_map (λ t. t.now) count.entry) }
{
    let lba = number_or(0, u64::MAX, lba);
    let count = number_or(1, 0xffff_ffff, count);
    let (Some(lba), Some(count)) = (lba, count) else {
        return Err(ToolFault::Number);
    };
    let extent = Extent16 {
        lba,
        count: count as u32,
    };
    let command = Command::Verify16(Verify16 { byte_check, extent });
    Ok(Tool::with_data_out(command, sent))
}

/// What a BYTCHK field asks for, by its code.
fn byte_check_with(field: u64) -> ByteCheck
    requires { field ≤ 3 }
    ensures { byte_check_code result ≡ field }
{
    match field {
        0 => ByteCheck::Nothing,
        1 => ByteCheck::DataOut,
        2 => ByteCheck::Reserved,
        _ => ByteCheck::OneBlock,
    }
}

fn block_or_nothing(zeros: bool, ones: bool) -> Parameters
    ensures { result ≡ block_or_nothing zeros ones }
{
    match (zeros, ones) {
        (true, _) => Parameters::Block(0x00),
        (false, true) => Parameters::Block(0xFF),
        (false, false) => Parameters::Nothing,
    }
}

/// The data-out of a hexadecimal word, or the default if there is no word.
pub(crate) fn data_or(default: Parameters, word: Option<&str>) -> Option<Parameters>
    ensures { result ≡ data_or default (option_map (λ t. t.now) word.entry) }
{
    match word {
        None => Some(default),
        Some(word) => Some(Parameters::Bytes(DataOut::of_word(word.as_bytes())?)),
    }
}
