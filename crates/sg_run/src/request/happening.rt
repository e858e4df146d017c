// What happens to a disk, by the operands of a verb (docs/SCRIPT.md). `fault` and `heal` have a file
// of their own.
ghost use Rattle.std.specs.Prelude.{◌≡◌, All, map};
ghost use Rattle.std.specs.Str.{IsAscii};
ghost use Rattle.sg_run.specs.HappeningVerbs.{and_initiator, attention_of, condition_named};
ghost use Rattle.sg_run.specs.HappeningVerbs.{condition_words, grow_of, growing, initiators_of};
ghost use Rattle.sg_run.specs.HappeningVerbs.{nexus_of, power_of, reset_of};

use super::words::{read_initiator, word_text};
use sg_store::MAX_CAPACITY;
use sg_target::Happening;
use sg_tools::read_number;
use sg_units::{Initiators, UnitAttention};
use sg_wire::{Initiator, Profile};

/// `power`: a power cycle. No word may come after the verb, because it is for all initiators at
/// once.
pub(super) fn read_power(operands: &[&[u8]]) -> Option<Happening>
    ensures { result ≡ power_of (map (λ word. word.now) operands.now) }
{
    if operands.is_empty() {
        Some(Happening::Power)
    } else {
        None
    }
}

/// `reset` or `reset target`: a reset of the logical unit, or of the target.
pub(super) fn read_reset(operands: &[&[u8]]) -> Option<Happening>
    ensures { result ≡ reset_of (map (λ word. word.now) operands.now) }
{
    match operands {
        [] => Some(Happening::LogicalUnitReset),
        [word] if *word == b"target".as_slice() => Some(Happening::TargetReset),
        _ => None,
    }
}

/// `nexus I`: an initiator loses its I_T nexus.
pub(super) fn read_nexus(operands: &[&[u8]]) -> Option<Happening>
    ensures { result ≡ nexus_of (map (λ word. word.now) operands.now) }
{
    let [initiator] = operands else {
        return None;
    };
    Some(Happening::NexusLoss(read_initiator(Profile::Extended, initiator)?))
}

/// `grow N`: the disk has N blocks from then on.
pub(super) fn read_grow(operands: &[&[u8]]) -> Option<Happening>
    ensures { result ≡ grow_of (map (λ word. word.now) operands.now) }
{
    let [blocks] = operands else {
        return None;
    };
    growing(read_number(blocks)?)
}

/// A growth of the disk to 1 to 2^40 blocks.
fn growing(blocks: u64) -> Option<Happening>
    ensures { result ≡ growing blocks }
{
    if (1..=MAX_CAPACITY).contains(&blocks) {
        Some(Happening::Grow(blocks))
    } else {
        None
    }
}

/// `attention CODE [I]...`: a unit attention condition is established for each initiator, or for
/// those that are named.
pub(super) fn read_attention(operands: &[&[u8]]) -> Option<Happening>
    requires { All (λ word. IsAscii word.now) operands.now }
    ensures { result ≡ attention_of (map (λ word. word.now) operands.now) }
{
    let [code, initiators @ ..] = operands else {
        return None;
    };
    let condition = condition_named(code)?;
    let initiators = if initiators.is_empty() {
        Initiators::all()
    } else {
        read_initiators(initiators)?
    };
    Some(Happening::Establish(condition, initiators))
}

/// The initiators that words name.
#[tactic(auto, using(crate::proofs::HappeningWordLemmas::initiator_words))]
fn read_initiators(words: &[&[u8]]) -> Option<Initiators>
    ensures { result ≡ initiators_of (map (λ word. word.now) words.now) }
{
    match words {
        [] => Some(Initiators::none()),
        [word, others @ ..] => {
            let initiator = read_initiator(Profile::Extended, word);
            and_initiator(initiator, read_initiators(others))
        }
    }
}

/// An initiator, and others.
fn and_initiator(initiator: Option<Initiator>, others: Option<Initiators>) -> Option<Initiators>
    ensures { result ≡ and_initiator initiator others }
{
    match (initiator, others) {
        (Some(initiator), Some(others)) => Some(others.with(initiator)),
        _ => None,
    }
}

/// The condition whose additional sense code is a word, as a transcript prints it.
fn condition_named(code: &[u8]) -> Option<UnitAttention>
    requires { IsAscii code.now }
    ensures { result ≡ condition_named condition_words code.now }
{
    Some(match word_text(code) {
        "28h/00h" => UnitAttention::MediumMayHaveChanged,
        "29h/00h" => UnitAttention::PowerOn,
        "29h/02h" => UnitAttention::ScsiBusReset,
        "29h/03h" => UnitAttention::BusDeviceReset,
        "29h/04h" => UnitAttention::DeviceInternalReset,
        "29h/07h" => UnitAttention::NexusLoss,
        "2Ah/01h" => UnitAttention::ModeParametersChanged,
        "2Ah/03h" => UnitAttention::ReservationsPreempted,
        "2Ah/04h" => UnitAttention::ReservationsReleased,
        "2Ah/05h" => UnitAttention::RegistrationsPreempted,
        "2Ah/06h" => UnitAttention::AsymmetricAccessStateChanged,
        "2Ah/09h" => UnitAttention::CapacityDataChanged,
        "38h/07h" => UnitAttention::SoftThresholdReached,
        "3Fh/01h" => UnitAttention::MicrocodeChanged,
        "3Fh/03h" => UnitAttention::InquiryDataChanged,
        "3Fh/0Eh" => UnitAttention::ReportedLunsDataChanged,
        _ => return None,
    })
}
