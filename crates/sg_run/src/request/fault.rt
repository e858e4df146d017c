// `fault` arms a fault on an extended disk, and `heal` takes faults away (docs/SCRIPT.md).
ghost use Rattle.std.specs.Prelude.{◌≡◌, map};
ghost use Rattle.sg_run.specs.FaultVerbs.{afterwards_of, arrival_of, arrival_words};
ghost use Rattle.sg_run.specs.FaultVerbs.{fault_of, heal_of};
ghost use Rattle.sg_run.specs.FaultVerbs.{outcome_of, outcome_with, takes_operand};

use super::fault_options::{MOST_BLOCKS, MOST_BYTES, armed_by};
use super::sense_code::read_sense_code;
use super::words::is_word;
use sg_faults::{Afterwards, AtMedium, MAX_FAULTS, OnArrival, Outcome};
use sg_target::Happening;
use sg_tools::read_number_up_to;

/// `fault PLACE WHAT [OPTION]...`: a fault is armed.
pub(super) fn read_fault(operands: &[&[u8]]) -> Option<Happening>
    ensures { result ≡ fault_of (map (λ word. word.now) operands.now) }
{
    match operands {
        [place, what, operand, options @ ..] if takes_operand(what) => {
            armed_by(outcome_with(place, what, operand), options)
        }
        [place, what, options @ ..] => armed_by(outcome_of(place, what), options),
        _ => None,
    }
}

/// `heal` or `heal N`: all faults are taken away, or the one with a number.
pub(super) fn read_heal(operands: &[&[u8]]) -> Option<Happening>
    ensures { result ≡ heal_of (map (λ word. word.now) operands.now) }
{
    match operands {
        [] => Some(Happening::DisarmAll),
        [number] => {
            let number = read_number_up_to(MAX_FAULTS as u64 - 1, number)?;
            Some(Happening::Disarm(number as usize))
        }
        _ => None,
    }
}

/// What a fault does, by its place and one word.
fn outcome_of(place: &[u8], what: &[u8]) -> Option<Outcome>
    ensures { result ≡ outcome_of place.now what.now }
{
    if is_word(place, "arrival") {
        Some(Outcome::OnArrival(arrival_of(what)?))
    } else if is_word(place, "medium") {
        let code = read_sense_code(what)?;
        Some(Outcome::AtMedium(AtMedium::CheckCondition(code)))
    } else if is_word(place, "after") {
        Some(Outcome::Afterwards(afterwards_of(what)?))
    } else {
        None
    }
}

/// What it does on arrival.
fn arrival_of(what: &[u8]) -> Option<OnArrival>
    ensures { result ≡ arrival_of arrival_words what.now }
{
    if is_word(what, "busy") {
        Some(OnArrival::Busy)
    } else if is_word(what, "full") {
        Some(OnArrival::TaskSetFull)
    } else if is_word(what, "conflict") {
        Some(OnArrival::ReservationConflict)
    } else if is_word(what, "silent") {
        Some(OnArrival::NoReply)
    } else {
        Some(OnArrival::CheckCondition(read_sense_code(what)?))
    }
}

/// What it does after a command has ended with GOOD.
fn afterwards_of(what: &[u8]) -> Option<Afterwards>
    ensures { result ≡ afterwards_of what.now }
{
    if is_word(what, "silent") {
        Some(Afterwards::NoReply)
    } else {
        Some(Afterwards::CheckCondition(read_sense_code(what)?))
    }
}

/// What a fault does, by its place, a word and an operand of this word.
fn outcome_with(place: &[u8], what: &[u8], operand: &[u8]) -> Option<Outcome>
    ensures { result ≡ outcome_with place.now what.now operand.now }
{
    if is_word(place, "arrival") && is_word(what, "deferred") {
        let code = read_sense_code(operand)?;
        Some(Outcome::OnArrival(OnArrival::DeferredError(code)))
    } else if is_word(place, "medium") && is_word(what, "first") {
        let blocks = read_number_up_to(MOST_BLOCKS, operand)?;
        Some(Outcome::AtMedium(AtMedium::MovesOnly(blocks as u32)))
    } else if is_word(place, "after") && is_word(what, "first") {
        let bytes = read_number_up_to(MOST_BYTES, operand)?;
        Some(Outcome::Afterwards(Afterwards::ShortDataIn(bytes as u32)))
    } else {
        None
    }
}

fn takes_operand(what: &[u8]) -> bool
    ensures { result ≡ takes_operand what.now }
{
    is_word(what, "deferred") || is_word(what, "first")
}
