// The options of `fault`: which commands the fault meets, and how many of them (docs/SCRIPT.md).
ghost use Rattle.std.specs.Prelude.{◌≡◌, ◌≤◌, IfSome, map};
ghost use Rattle.sg_run.specs.FaultOptions.{and_option, blocks_option, extent_of, is_blocks};
ghost use Rattle.sg_run.specs.FaultOptions.{is_healed, no_options};
ghost use Rattle.sg_run.specs.FaultOptions.{number_between, operand_option, operation_code_of};
ghost use Rattle.sg_run.specs.FaultOptions.{options_of, with_initiator, with_option};
ghost use Rattle.sg_run.specs.FaultVerbs.{arming, arming_by, fault_with};

use super::sense_code::read_hex_byte;
use super::words::{is_word, read_initiator};
use sg_faults::{BadBlocks, Fault, Outcome};
use sg_target::Happening;
use sg_tools::{read_number, read_number_up_to};
use sg_units::Initiators;
use sg_wire::{Extent, Initiator, Profile};

/// The most commands that pass, and the most to which a fault does something.
const MOST_COMMANDS: u64 = u16::MAX as u64;

/// The most blocks that a fault lies on, or that a command moves.
pub(super) const MOST_BLOCKS: u64 = u32::MAX as u64;

/// The most bytes of data-in that can be asked to arrive.
pub(super) const MOST_BYTES: u64 = u32::MAX as u64;

/// An option of `fault`.
#[derive(Clone, Copy)]
enum FaultOption {
    /// `to I`: an initiator whose commands the fault meets.
    To(Initiator),
    /// `code XXh`: the operation code of the commands that it meets.
    Code(u8),
    /// `blocks LBA COUNT`: blocks of which a command has to name one.
    Blocks(Extent),
    /// `healed`: a write of all of these blocks ends the fault.
    Healed,
    /// `skip N`: the number of commands that pass first.
    Skip(u16),
    /// `times N`: the number of commands after these to which it does something.
    Times(u16),
}

/// The options that a line gives. None is given twice, except `to`.
#[derive(Clone, Copy)]
struct FaultOptions {
    initiators: Option<Initiators>,
    code: Option<u8>,
    blocks: Option<Extent>,
    is_healed: bool,
    skip: Option<u16>,
    times: Option<u16>,
}

impl FaultOptions {
    fn none() -> FaultOptions
        ensures { result ≡ no_options }
    {
        FaultOptions {
            initiators: None,
            code: None,
            blocks: None,
            is_healed: false,
            skip: None,
            times: None,
        }
    }

    /// The options that words give: the first, and the options of the words after it.
    #[tactic(auto, using(crate::proofs::FaultWordLemmas::option_words))]
    fn read(words: &[&[u8]]) -> Option<FaultOptions>
        ensures { result ≡ options_of (map (λ word. word.now) words.now) }
    {
        match words {
            [] => Some(FaultOptions::none()),
            [name, rest @ ..] if is_healed(name) => {
                and_option(Some(FaultOption::Healed), FaultOptions::read(rest))
            }
            [name, lba, count, rest @ ..] if is_blocks(name) => {
                and_option(blocks_option(lba, count), FaultOptions::read(rest))
            }
            [name, operand, rest @ ..] => {
                and_option(operand_option(name, operand), FaultOptions::read(rest))
            }
            [_] => None,
        }
    }

    /// These options and another one. None if it is given twice.
    fn with(self, option: FaultOption) -> Option<FaultOptions>
        ensures { result ≡ with_option self option }
    {
        match option {
            FaultOption::To(initiator) => Some(self.with_initiator(initiator)),
            FaultOption::Code(code) if self.code.is_none() => Some(FaultOptions {
                code: Some(code),
                ..self
            }),
            FaultOption::Blocks(blocks) if self.blocks.is_none() => Some(FaultOptions {
                blocks: Some(blocks),
                ..self
            }),
            FaultOption::Healed if !self.is_healed => Some(FaultOptions {
                is_healed: true,
                ..self
            }),
            FaultOption::Skip(skip) if self.skip.is_none() => Some(FaultOptions {
                skip: Some(skip),
                ..self
            }),
            FaultOption::Times(times) if self.times.is_none() => Some(FaultOptions {
                times: Some(times),
                ..self
            }),
            _ => None,
        }
    }

    fn with_initiator(self, initiator: Initiator) -> FaultOptions
        ensures { result ≡ with_initiator self initiator }
    {
        let others = self.initiators.unwrap_or(Initiators::none());
        FaultOptions {
            initiators: Some(others.with(initiator)),
            ..self
        }
    }

    /// A fault with these options is armed. None if something is to be healed that is no block.
    fn arming(self, outcome: Outcome) -> Option<Happening>
        ensures { result ≡ arming outcome self }
    {
        if self.is_healed && self.blocks.is_none() {
            return None;
        }
        Some(Happening::Arm(self.fault(outcome)))
    }

    fn fault(self, outcome: Outcome) -> Fault
        ensures { result ≡ fault_with outcome self }
    {
        Fault {
            initiators: self.initiators.unwrap_or(Initiators::all()),
            code: self.code,
            blocks: self.blocks.map(|extent| BadBlocks {
                extent,
                healed_by_writes: self.is_healed,
            }),
            skip: self.skip.unwrap_or(0),
            times: self.times,
            outcome,
        }
    }
}

/// A fault is armed, by what it does and the words of its options.
pub(super) fn armed_by(outcome: Option<Outcome>, options: &[&[u8]]) -> Option<Happening>
    ensures { result ≡ arming_by outcome (options_of (map (λ word. word.now) options.now)) }
{
    arming_by(outcome, FaultOptions::read(options))
}

/// A fault is armed, by what it does and its options.
fn arming_by(outcome: Option<Outcome>, options: Option<FaultOptions>) -> Option<Happening>
    ensures { result ≡ arming_by outcome options }
{
    match (outcome, options) {
        (Some(outcome), Some(options)) => options.arming(outcome),
        _ => None,
    }
}

/// An option, and others.
fn and_option(option: Option<FaultOption>, others: Option<FaultOptions>) -> Option<FaultOptions>
    ensures { result ≡ and_option option others }
{
    match (option, others) {
        (Some(option), Some(others)) => others.with(option),
        _ => None,
    }
}

fn is_healed(name: &[u8]) -> bool
    ensures { result ≡ is_healed name.now }
{
    is_word(name, "healed")
}

fn is_blocks(name: &[u8]) -> bool
    ensures { result ≡ is_blocks name.now }
{
    is_word(name, "blocks")
}

/// The option `blocks` with its operands.
fn blocks_option(lba: &[u8], count: &[u8]) -> Option<FaultOption>
    ensures { result ≡ blocks_option lba.now count.now }
{
    Some(FaultOption::Blocks(read_extent(lba, count)?))
}

/// The option of a name and its operand.
fn operand_option(name: &[u8], operand: &[u8]) -> Option<FaultOption>
    ensures { result ≡ operand_option name.now operand.now }
{
    if is_word(name, "to") {
        Some(FaultOption::To(read_initiator(Profile::Extended, operand)?))
    } else if is_word(name, "code") {
        Some(FaultOption::Code(read_operation_code(operand)?))
    } else if is_word(name, "skip") {
        Some(FaultOption::Skip(read_number_up_to(MOST_COMMANDS, operand)? as u16))
    } else if is_word(name, "times") {
        Some(FaultOption::Times(read_number_between(1, MOST_COMMANDS, operand)? as u16))
    } else {
        None
    }
}

/// An operation code, as in `28h`.
fn read_operation_code(word: &[u8]) -> Option<u8>
    ensures { result ≡ operation_code_of word.now }
{
    match word {
        [high, low, b'h'] => read_hex_byte(*high, *low),
        _ => None,
    }
}

fn read_extent(lba: &[u8], count: &[u8]) -> Option<Extent>
    ensures { result ≡ extent_of lba.now count.now }
{
    Some(Extent {
        lba: read_number(lba)?,
        count: read_number_between(1, MOST_BLOCKS, count)? as u32,
    })
}

fn read_number_between(low: u64, high: u64, word: &[u8]) -> Option<u64>
    ensures value { result ≡ number_between low high word.now }
    ensures within { IfSome result (λ n. n ≤ high) }
{
    let number = read_number_up_to(high, word)?;
    if low <= number { Some(number) } else { None }
}
