// The fields of armed faults. Each function returns a field's value, and the bytes after the field.
ghost use Rattle.std.specs.Prelude.{◌≡◌};
ghost use Rattle.sg_faults.specs.Faults.{max_faults};
ghost use Rattle.sg_wire.specs.Initiator.{initiator_count};
ghost use Rattle.sg_changes.specs.FaultFormat.{armed_fault, bad_blocks, count, fault, faults};
ghost use Rattle.sg_changes.specs.FaultFormat.{outcome, sense_code, sense_key};
ghost use Rattle.sg_changes.specs.Format.{flag, many_at, number, optional, optional_at};
ghost use Rattle.sg_changes.specs.Reading.{Gives};

use crate::fields::{extent_at, flag_at, u8_at, u16_at, u32_at};
use crate::outcome_tag;
use sg_faults::{
    Afterwards, ArmedFault, AtMedium, BadBlocks, Count, Fault, Faults, MAX_FAULTS, OnArrival,
    Outcome, SenseCode, SenseKey,
};
use sg_units::Initiators;
use sg_wire::Initiator;

// ---- What a fault does

#[tactic(auto, unfolding(crate::specs::FaultFormat::sense_key))]
fn sense_key_at(bytes: &[u8]) -> Option<(SenseKey, &[u8])>
    ensures { Gives (λ f. (f.0, f.1.now)) result (sense_key.at bytes.now) }
{
    let (code, rest) = u8_at(bytes)?;
    let key = SenseKey::with_code(code)?;
    Some((key, rest))
}

#[tactic(auto, unfolding(crate::specs::FaultFormat::sense_code))]
fn sense_code_at(bytes: &[u8]) -> Option<(SenseCode, &[u8])>
    ensures { Gives (λ f. (f.0, f.1.now)) result (sense_code.at bytes.now) }
{
    let (key, rest) = sense_key_at(bytes)?;
    let (asc, rest) = u8_at(rest)?;
    let (ascq, rest) = u8_at(rest)?;
    Some((SenseCode { key, asc, ascq }, rest))
}

#[tactic(auto, unfolding(crate::specs::FaultFormat::outcome, crate::specs::FaultFormat::outcome_with_tag))]
fn outcome_at(bytes: &[u8]) -> Option<(Outcome, &[u8])>
    ensures { Gives (λ f. (f.0, f.1.now)) result (outcome.at bytes.now) }
{
    let (tag, rest) = bytes.split_first()?;
    match *tag {
        outcome_tag::BUSY => Some((Outcome::OnArrival(OnArrival::Busy), rest)),
        outcome_tag::TASK_SET_FULL => Some((Outcome::OnArrival(OnArrival::TaskSetFull), rest)),
        outcome_tag::RESERVATION_CONFLICT => Some((
            Outcome::OnArrival(OnArrival::ReservationConflict),
            rest,
        )),
        outcome_tag::NO_REPLY => Some((Outcome::OnArrival(OnArrival::NoReply), rest)),
        outcome_tag::CHECK_CONDITION => {
            let (code, rest) = sense_code_at(rest)?;
            Some((Outcome::OnArrival(OnArrival::CheckCondition(code)), rest))
        }
        outcome_tag::DEFERRED_ERROR => {
            let (code, rest) = sense_code_at(rest)?;
            Some((Outcome::OnArrival(OnArrival::DeferredError(code)), rest))
        }
        outcome_tag::MEDIUM_ERROR => {
            let (code, rest) = sense_code_at(rest)?;
            Some((Outcome::AtMedium(AtMedium::CheckCondition(code)), rest))
        }
        outcome_tag::MOVES_ONLY => {
            let (blocks, rest) = u32_at(rest)?;
            Some((Outcome::AtMedium(AtMedium::MovesOnly(blocks)), rest))
        }
        outcome_tag::NO_STATUS => Some((Outcome::Afterwards(Afterwards::NoReply), rest)),
        outcome_tag::LATE_CHECK_CONDITION => {
            let (code, rest) = sense_code_at(rest)?;
            Some((Outcome::Afterwards(Afterwards::CheckCondition(code)), rest))
        }
        outcome_tag::SHORT_DATA_IN => {
            let (bytes, rest) = u32_at(rest)?;
            Some((Outcome::Afterwards(Afterwards::ShortDataIn(bytes)), rest))
        }
        _ => None,
    }
}

// ---- Faults

/// The initiators whose commands a fault meets.
fn initiators_at(bytes: &[u8]) -> Option<(Initiators, &[u8])>
    ensures { Gives (λ f. (f.0, f.1.now)) result (many_at flag initiator_count bytes.now) }
{
    let mut members = [false; Initiator::COUNT];
    let mut rest = bytes;
    for number in 0..Initiator::COUNT {
        let Some((is_member, after)) = flag_at(rest) else {
            return None;
        };
        members[number] = is_member;
        rest = after;
    }
    Some((Initiators::of_members(members), rest))
}

/// An operation code, if there is one.
#[tactic(auto, unfolding(crate::specs::Format::optional_at))]
fn code_at(bytes: &[u8]) -> Option<(Option<u8>, &[u8])>
    ensures { Gives (λ f. (f.0, f.1.now)) result (optional_at (number 1) bytes.now) }
{
    let (is_given, rest) = flag_at(bytes)?;
    if !is_given {
        return Some((None, rest));
    }
    let (code, rest) = u8_at(rest)?;
    Some((Some(code), rest))
}

/// A number of commands, if it is limited.
#[tactic(auto, unfolding(crate::specs::Format::optional_at))]
fn times_at(bytes: &[u8]) -> Option<(Option<u16>, &[u8])>
    ensures { Gives (λ f. (f.0, f.1.now)) result (optional_at (number 2) bytes.now) }
{
    let (is_limited, rest) = flag_at(bytes)?;
    if !is_limited {
        return Some((None, rest));
    }
    let (times, rest) = u16_at(rest)?;
    Some((Some(times), rest))
}

/// The blocks that a fault lies on, if it lies on blocks.
#[tactic(auto, unfolding(crate::specs::Format::optional_at, crate::specs::FaultFormat::bad_blocks))]
fn bad_blocks_at(bytes: &[u8]) -> Option<(Option<BadBlocks>, &[u8])>
    ensures { Gives (λ f. (f.0, f.1.now)) result (optional_at bad_blocks bytes.now) }
{
    let (lies_on_blocks, rest) = flag_at(bytes)?;
    if !lies_on_blocks {
        return Some((None, rest));
    }
    let (extent, rest) = extent_at(rest)?;
    let (healed_by_writes, rest) = flag_at(rest)?;
    let blocks = BadBlocks {
        extent,
        healed_by_writes,
    };
    Some((Some(blocks), rest))
}

#[tactic(auto, unfolding(crate::specs::FaultFormat::fault))]
fn fault_at(bytes: &[u8]) -> Option<(Fault, &[u8])>
    ensures { Gives (λ f. (f.0, f.1.now)) result (fault.at bytes.now) }
{
    let Some((initiators, rest)) = initiators_at(bytes) else {
        return None;
    };
    let (code, rest) = code_at(rest)?;
    let (blocks, rest) = bad_blocks_at(rest)?;
    let (skip, rest) = u16_at(rest)?;
    let (times, rest) = times_at(rest)?;
    let (outcome, rest) = outcome_at(rest)?;
    let fault = Fault {
        initiators,
        code,
        blocks,
        skip,
        times,
        outcome,
    };
    Some((fault, rest))
}

#[tactic(auto, unfolding(crate::specs::FaultFormat::count))]
fn count_at(bytes: &[u8]) -> Option<(Count, &[u8])>
    ensures { Gives (λ f. (f.0, f.1.now)) result (count.at bytes.now) }
{
    let (skip, rest) = u16_at(bytes)?;
    let (times, rest) = times_at(rest)?;
    Some((Count { skip, times }, rest))
}

/// What is left of a fault for each initiator.
fn counts_at(bytes: &[u8]) -> Option<([Count; Initiator::COUNT], &[u8])>
    ensures { Gives (λ f. (f.0, f.1.now)) result (many_at count initiator_count bytes.now) }
{
    let mut counts = [Count {
        skip: 0,
        times: None,
    }; Initiator::COUNT];
    let mut rest = bytes;
    for number in 0..Initiator::COUNT {
        let Some((count, after)) = count_at(rest) else {
            return None;
        };
        counts[number] = count;
        rest = after;
    }
    Some((counts, rest))
}

/// What is armed under a number, if anything.
#[tactic(auto, unfolding(crate::specs::Format::optional_at, crate::specs::FaultFormat::armed_fault))]
fn armed_fault_at(bytes: &[u8]) -> Option<(Option<ArmedFault>, &[u8])>
    ensures { Gives (λ f. (f.0, f.1.now)) result (optional_at armed_fault bytes.now) }
{
    let (is_armed, rest) = flag_at(bytes)?;
    if !is_armed {
        return Some((None, rest));
    }
    let Some((fault, rest)) = fault_at(rest) else {
        return None;
    };
    let (counts, rest) = counts_at(rest)?;
    Some((Some(ArmedFault { fault, counts }), rest))
}

#[tactic(auto, unfolding(crate::specs::FaultFormat::faults))]
pub(crate) fn faults_at(bytes: &[u8]) -> Option<(Faults, &[u8])>
    ensures { Gives (λ f. (f.0, f.1.now)) result (faults.at bytes.now) }
{
    let mut slots = [None; MAX_FAULTS];
    let mut rest = bytes;
    for number in 0..MAX_FAULTS {
        let Some((slot, after)) = armed_fault_at(rest) else {
            return None;
        };
        slots[number] = slot;
        rest = after;
    }
    Some((Faults::restored(slots), rest))
}
