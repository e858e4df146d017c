// Armed faults that are written to a sink.
ghost use Rattle.std.specs.Prelude.{◌≡◌, ◌*◌, ◌≤◌, length};
ghost use Rattle.sg_faults.specs.Faults.{max_faults};
ghost use Rattle.sg_faults.specs.declared.outcome.Outcome.TheVariants as outcomes;
ghost use Rattle.sg_wire.specs.Initiator.{initiator_count};
ghost use Rattle.sg_changes.specs.FaultFormat.{armed_fault, bad_blocks, count, fault, faults};
ghost use Rattle.sg_changes.specs.FaultFormat.{outcome, sense_code, sense_key};
ghost use Rattle.sg_changes.specs.Format.{flag, many, optional};
ghost use Rattle.sg_changes.specs.Writing.{Takes};

use crate::outcome_tag;
use crate::sink::Sink;
use crate::writing::{
    put_extent, put_flag, put_optional_u8, put_optional_u16, put_u8, put_u16, put_u32,
};
use sg_faults::{
    Afterwards, ArmedFault, AtMedium, BadBlocks, Count, Fault, Faults, OnArrival, Outcome,
    SenseCode, SenseKey,
};
use sg_units::Initiators;
use sg_wire::Initiator;

// ---- What a fault does

#[tactic(auto, unfolding(crate::specs::FaultFormat::sense_key))]
fn put_sense_key<S: Sink>(sink: &mut S, key: SenseKey)
    requires { 1 ≤ S.room sink.old }
    ensures { Takes S.contents S.room sense_key 1 sink.old sink.new key }
{
    put_u8(sink, key.code());
}

#[tactic(auto, unfolding(crate::specs::FaultFormat::sense_code))]
fn put_sense_code<S: Sink>(sink: &mut S, code: SenseCode)
    requires { 3 ≤ S.room sink.old }
    ensures { Takes S.contents S.room sense_code 3 sink.old sink.new code }
{
    put_sense_key(sink, code.key);
    put_u8(sink, code.asc);
    put_u8(sink, code.ascq);
}

#[tactic(auto, unfolding(crate::specs::FaultFormat::outcome))]
fn put_outcome<S: Sink>(sink: &mut S, what: Outcome)
    requires { 5 ≤ S.room sink.old }
    ensures { Takes S.contents S.room outcome 5 sink.old sink.new what }
{
    match what {
        Outcome::OnArrival(what) => put_on_arrival(sink, what),
        Outcome::AtMedium(what) => put_at_medium(sink, what),
        Outcome::Afterwards(what) => put_afterwards(sink, what),
    }
}

#[tactic(auto, unfolding(crate::specs::FaultFormat::outcome))]
fn put_on_arrival<S: Sink>(sink: &mut S, what: OnArrival)
    requires { 5 ≤ S.room sink.old }
    ensures { Takes S.contents S.room outcome 5 sink.old sink.new (outcomes.OnArrival what) }
{
    match what {
        OnArrival::Busy => put_u8(sink, outcome_tag::BUSY),
        OnArrival::TaskSetFull => put_u8(sink, outcome_tag::TASK_SET_FULL),
        OnArrival::ReservationConflict => put_u8(sink, outcome_tag::RESERVATION_CONFLICT),
        OnArrival::NoReply => put_u8(sink, outcome_tag::NO_REPLY),
        OnArrival::CheckCondition(code) => {
            put_u8(sink, outcome_tag::CHECK_CONDITION);
            put_sense_code(sink, code);
        }
        OnArrival::DeferredError(code) => {
            put_u8(sink, outcome_tag::DEFERRED_ERROR);
            put_sense_code(sink, code);
        }
    }
}

#[tactic(auto, unfolding(crate::specs::FaultFormat::outcome))]
fn put_at_medium<S: Sink>(sink: &mut S, what: AtMedium)
    requires { 5 ≤ S.room sink.old }
    ensures { Takes S.contents S.room outcome 5 sink.old sink.new (outcomes.AtMedium what) }
{
    match what {
        AtMedium::CheckCondition(code) => {
            put_u8(sink, outcome_tag::MEDIUM_ERROR);
            put_sense_code(sink, code);
        }
        AtMedium::MovesOnly(blocks) => {
            put_u8(sink, outcome_tag::MOVES_ONLY);
            put_u32(sink, blocks);
        }
    }
}

#[tactic(auto, unfolding(crate::specs::FaultFormat::outcome))]
fn put_afterwards<S: Sink>(sink: &mut S, what: Afterwards)
    requires { 5 ≤ S.room sink.old }
    ensures { Takes S.contents S.room outcome 5 sink.old sink.new (outcomes.Afterwards what) }
{
    match what {
        Afterwards::NoReply => put_u8(sink, outcome_tag::NO_STATUS),
        Afterwards::CheckCondition(code) => {
            put_u8(sink, outcome_tag::LATE_CHECK_CONDITION);
            put_sense_code(sink, code);
        }
        Afterwards::ShortDataIn(bytes) => {
            put_u8(sink, outcome_tag::SHORT_DATA_IN);
            put_u32(sink, bytes);
        }
    }
}

// ---- Faults

/// The initiators whose commands a fault meets.
fn put_initiators<S: Sink>(sink: &mut S, who: &Initiators)
    requires { 64 ≤ S.room sink.old }
    ensures { Takes S.contents S.room (many initiator_count flag) 64 sink.old sink.new who.now }
{
    for is_member in who.members() {
        put_flag(sink, *is_member);
    }
}

/// The blocks that a fault lies on, if it lies on blocks.
#[tactic(auto, unfolding(crate::specs::FaultFormat::bad_blocks))]
fn put_bad_blocks<S: Sink>(sink: &mut S, blocks: Option<BadBlocks>)
    requires { 14 ≤ S.room sink.old }
    ensures { Takes S.contents S.room (optional bad_blocks) 14 sink.old sink.new blocks }
{
    match blocks {
        Some(blocks) => {
            put_flag(sink, true);
            put_extent(sink, blocks.extent);
            put_flag(sink, blocks.healed_by_writes);
        }
        None => put_flag(sink, false),
    }
}

#[tactic(auto, unfolding(crate::specs::FaultFormat::fault))]
fn put_fault<S: Sink>(sink: &mut S, what: &Fault)
    requires { 90 ≤ S.room sink.old }
    ensures { Takes S.contents S.room fault 90 sink.old sink.new what.now }
{
    put_initiators(sink, &what.initiators);
    put_optional_u8(sink, what.code);
    put_bad_blocks(sink, what.blocks);
    put_u16(sink, what.skip);
    put_optional_u16(sink, what.times);
    put_outcome(sink, what.outcome);
}

#[tactic(auto, unfolding(crate::specs::FaultFormat::count))]
fn put_count<S: Sink>(sink: &mut S, left: Count)
    requires { 5 ≤ S.room sink.old }
    ensures { Takes S.contents S.room count 5 sink.old sink.new left }
{
    put_u16(sink, left.skip);
    put_optional_u16(sink, left.times);
}

/// What is left of a fault for each initiator.
fn put_counts<S: Sink>(sink: &mut S, counts: &[Count; Initiator::COUNT])
    requires { 320 ≤ S.room sink.old }
    ensures { Takes S.contents S.room (many initiator_count count) 320 sink.old sink.new counts.now }
{
    for count in counts {
        put_count(sink, *count);
    }
}

#[tactic(auto, unfolding(crate::specs::FaultFormat::armed_fault))]
fn put_armed_fault<S: Sink>(sink: &mut S, armed: &ArmedFault)
    requires { 410 ≤ S.room sink.old }
    ensures { Takes S.contents S.room armed_fault 410 sink.old sink.new armed.now }
{
    put_fault(sink, &armed.fault);
    put_counts(sink, &armed.counts);
}

/// What is armed under a number, if anything.
fn put_slot<S: Sink>(sink: &mut S, slot: &Option<ArmedFault>)
    requires { 411 ≤ S.room sink.old }
    ensures { Takes S.contents S.room (optional armed_fault) 411 sink.old sink.new slot.now }
{
    match slot {
        Some(armed) => {
            put_flag(sink, true);
            put_armed_fault(sink, armed);
        }
        None => put_flag(sink, false),
    }
}

#[tactic(auto, unfolding(crate::specs::FaultFormat::faults))]
pub(crate) fn put_faults<S: Sink>(sink: &mut S, armed: &Faults)
    requires { 3288 ≤ S.room sink.old }
    ensures { Takes S.contents S.room faults 3288 sink.old sink.new armed.now }
{
    for slot in armed.as_slice() {
        put_slot(sink, slot);
    }
}
