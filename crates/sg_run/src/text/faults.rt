// The armed faults as text: each in the words that arm it, and what is left of it (docs/SCRIPT.md).
ghost use Rattle.std.specs.Prelude.{◌≡◌, ◌<◌, ◌≤◌, ◌++◌, decimal, false};
ghost use Rattle.std.specs.List.{flat_map};
ghost use Rattle.sg_wire.specs.Initiator.{initiator_count};
ghost use Rattle.sg_wire.specs.Printer.{PrintsText};
ghost use Rattle.sg_wire.specs.Profile.{limits_of};
ghost use Rattle.sg_wire.specs.Watched.{SendsText, has_failed};
ghost use Rattle.sg_units.specs.Initiators.{is_member};
ghost use Rattle.sg_faults.specs.Arming.{count_for};
ghost use Rattle.sg_run.specs.FaultText.{afterwards_text, armed_text, arrival_text, blocks_text};
ghost use Rattle.sg_run.specs.FaultText.{code_text, count_text, fault_text, faults_text, medium_text};
ghost use Rattle.sg_run.specs.FaultText.{healed_text, initiators_in, initiators_text, is_counted};
ghost use Rattle.sg_run.specs.FaultText.{is_listed, is_same, left_text, names_all, outcome_text};
ghost use Rattle.sg_run.specs.FaultText.{sense_code_text, skip_left_text, skip_text, slot_text};
ghost use Rattle.sg_run.specs.FaultText.{times_text, to_text, two_digits};

use sg_decode::{GATHERED, put_number};
use sg_faults::{
    Afterwards, ArmedFault, AtMedium, BadBlocks, Count, Fault, OnArrival, Outcome, SenseCode,
};
use sg_units::Initiators;
use sg_wire::{Initiator, Printer, Profile, Watched};
use std::io;
use std::io::Write;

const DIGITS: [u8; 16] = *b"0123456789ABCDEF";

/// Prints the armed faults of a disk of a profile, by their numbers, as the verb `faults` of a script does
/// below its first line.
///
/// # Errors
///
/// The writer failed: a proper prefix of the text has been written.
pub fn print_faults<W: Write>(
    profile: Profile,
    slots: &[Option<ArmedFault>],
    writer: &mut Watched<W>,
) -> io::Result<()>
    requires { has_failed writer.old ≡ false }
    ensures { SendsText W.contents writer.old writer.new result (faults_text profile slots.now) }
{
    let mut buffer = [0; GATHERED];
    let mut out = Printer::new(writer, &mut buffer);
    put_faults(profile, slots, &mut out);
    out.finish()
}

/// Prints the armed faults of a disk of a profile, by their numbers.
#[tactic(auto, using(crate::proofs::TextLemmas::prints), unfolding(crate::specs::FaultText::faults_text))]
pub(crate) fn put_faults<W: Write>(
    profile: Profile,
    slots: &[Option<ArmedFault>],
    out: &mut Printer<'_, W>,
)
    ensures { PrintsText W.contents out.old out.new (faults_text profile slots.now) }
{
    for number in 0..slots.len() {
        put_slot(profile, number, &slots[number], out);
    }
}

#[tactic(auto, using(crate::proofs::TextLemmas::prints))]
fn put_slot<W: Write>(
    profile: Profile,
    number: usize,
    slot: &Option<ArmedFault>,
    out: &mut Printer<'_, W>,
)
    ensures { PrintsText W.contents out.old out.new (slot_text profile number slot.now) }
{
    if let Some(armed) = slot {
        put_armed(profile, number, armed, out);
    }
}

#[tactic(auto, using(crate::proofs::TextLemmas::prints), unfolding(crate::specs::FaultText::armed_text))]
fn put_armed<W: Write>(
    profile: Profile,
    number: usize,
    armed: &ArmedFault,
    out: &mut Printer<'_, W>,
)
    ensures { PrintsText W.contents out.old out.new (armed_text profile number armed.now) }
{
    out.put(b"  ");
    put_number(number as u64, out);
    out.put(b": ");
    put_fault(profile, &armed.fault, out);
    out.put(b"\n");
    put_all_left(profile, armed, out);
}

#[tactic(auto, using(crate::proofs::TextLemmas::prints), unfolding(crate::specs::FaultText::fault_text))]
fn put_fault<W: Write>(profile: Profile, fault: &Fault, out: &mut Printer<'_, W>)
    ensures { PrintsText W.contents out.old out.new (fault_text profile fault.now) }
{
    put_outcome(&fault.outcome, out);
    put_code(fault.code, out);
    put_blocks(&fault.blocks, out);
    put_skip(fault.skip, out);
    put_times(fault.times, out);
    put_initiators(profile, &fault.initiators, out);
}

#[tactic(auto, using(crate::proofs::TextLemmas::prints))]
fn put_outcome<W: Write>(outcome: &Outcome, out: &mut Printer<'_, W>)
    ensures { PrintsText W.contents out.old out.new (outcome_text outcome.now) }
{
    match outcome {
        Outcome::OnArrival(outcome) => put_arrival(outcome, out),
        Outcome::AtMedium(outcome) => put_medium(outcome, out),
        Outcome::Afterwards(outcome) => put_afterwards(outcome, out),
    }
}

#[tactic(auto, using(crate::proofs::TextLemmas::prints))]
fn put_arrival<W: Write>(outcome: &OnArrival, out: &mut Printer<'_, W>)
    ensures { PrintsText W.contents out.old out.new (arrival_text outcome.now) }
{
    match outcome {
        OnArrival::Busy => out.put(b"arrival busy"),
        OnArrival::TaskSetFull => out.put(b"arrival full"),
        OnArrival::ReservationConflict => out.put(b"arrival conflict"),
        OnArrival::NoReply => out.put(b"arrival silent"),
        OnArrival::CheckCondition(code) => put_labelled_code(b"arrival ", code, out),
        OnArrival::DeferredError(code) => put_labelled_code(b"arrival deferred ", code, out),
    }
}

#[tactic(auto, using(crate::proofs::TextLemmas::prints))]
fn put_medium<W: Write>(outcome: &AtMedium, out: &mut Printer<'_, W>)
    ensures { PrintsText W.contents out.old out.new (medium_text outcome.now) }
{
    match outcome {
        AtMedium::CheckCondition(code) => put_labelled_code(b"medium ", code, out),
        AtMedium::MovesOnly(blocks) => put_labelled_number(b"medium first ", *blocks, out),
    }
}

#[tactic(auto, using(crate::proofs::TextLemmas::prints))]
fn put_afterwards<W: Write>(outcome: &Afterwards, out: &mut Printer<'_, W>)
    ensures { PrintsText W.contents out.old out.new (afterwards_text outcome.now) }
{
    match outcome {
        Afterwards::NoReply => out.put(b"after silent"),
        Afterwards::CheckCondition(code) => put_labelled_code(b"after ", code, out),
        Afterwards::ShortDataIn(bytes) => put_labelled_number(b"after first ", *bytes, out),
    }
}

/// Prints words, and a sense code after them.
#[tactic(auto, using(crate::proofs::TextLemmas::prints))]
fn put_labelled_code<W: Write>(label: &[u8], code: &SenseCode, out: &mut Printer<'_, W>)
    ensures { PrintsText W.contents out.old out.new (label.now ++ sense_code_text code.now) }
{
    out.put(label);
    out.put(&sense_code_text(*code));
}

/// Prints words, and a number after them.
#[tactic(auto, using(crate::proofs::TextLemmas::prints))]
fn put_labelled_number<W: Write>(label: &[u8], number: u32, out: &mut Printer<'_, W>)
    ensures { PrintsText W.contents out.old out.new (label.now ++ decimal number) }
{
    out.put(label);
    put_number(u64::from(number), out);
}

fn sense_code_text(code: SenseCode) -> [u8; 7]
    ensures { result ≡ sense_code_text code }
{
    let [asc_high, asc_low] = two_digits(code.asc);
    let [ascq_high, ascq_low] = two_digits(code.ascq);
    [
        DIGITS[usize::from(code.key.code())],
        b'/',
        asc_high,
        asc_low,
        b'/',
        ascq_high,
        ascq_low,
    ]
}

/// A byte in two digits.
fn two_digits(byte: u8) -> [u8; 2]
    ensures { result ≡ two_digits byte }
{
    let byte = usize::from(byte);
    [DIGITS[byte / 16], DIGITS[byte % 16]]
}

#[tactic(auto, using(crate::proofs::TextLemmas::prints))]
fn put_code<W: Write>(code: Option<u8>, out: &mut Printer<'_, W>)
    ensures { PrintsText W.contents out.old out.new (code_text code) }
{
    if let Some(code) = code {
        out.put(b" code ");
        out.put(&two_digits(code));
        out.put(b"h");
    }
}

#[tactic(auto, using(crate::proofs::TextLemmas::prints))]
fn put_blocks<W: Write>(blocks: &Option<BadBlocks>, out: &mut Printer<'_, W>)
    ensures { PrintsText W.contents out.old out.new (blocks_text blocks.now) }
{
    if let Some(bad) = blocks {
        out.put(b" blocks ");
        put_number(bad.extent.lba, out);
        out.put(b" ");
        put_number(u64::from(bad.extent.count), out);
        put_healed(bad.healed_by_writes, out);
    }
}

#[tactic(auto, using(crate::proofs::TextLemmas::prints))]
fn put_healed<W: Write>(healed: bool, out: &mut Printer<'_, W>)
    ensures { PrintsText W.contents out.old out.new (healed_text healed) }
{
    if healed {
        out.put(b" healed");
    }
}

#[tactic(auto, using(crate::proofs::TextLemmas::prints))]
fn put_skip<W: Write>(skip: u16, out: &mut Printer<'_, W>)
    ensures { PrintsText W.contents out.old out.new (skip_text skip) }
{
    if skip != 0 {
        put_labelled_number(b" skip ", u32::from(skip), out);
    }
}

/// Prints how many commands still pass. If all after them meet the fault, it prints 0, too.
#[tactic(auto, using(crate::proofs::TextLemmas::prints))]
fn put_skip_left<W: Write>(count: Count, out: &mut Printer<'_, W>)
    ensures { PrintsText W.contents out.old out.new (skip_left_text count) }
{
    if count.times.is_some() {
        put_skip(count.skip, out);
    } else {
        put_labelled_number(b" skip ", u32::from(count.skip), out);
    }
}

#[tactic(auto, using(crate::proofs::TextLemmas::prints))]
fn put_times<W: Write>(times: Option<u16>, out: &mut Printer<'_, W>)
    ensures { PrintsText W.contents out.old out.new (times_text times) }
{
    if let Some(times) = times {
        put_labelled_number(b" times ", u32::from(times), out);
    }
}

/// Prints the initiators that a fault names, unless it names all.
#[tactic(auto, using(crate::proofs::TextLemmas::prints), unfolding(crate::specs::FaultText::initiators_text))]
fn put_initiators<W: Write>(profile: Profile, initiators: &Initiators, out: &mut Printer<'_, W>)
    ensures { PrintsText W.contents out.old out.new (initiators_text profile initiators.now) }
{
    if !names_all(profile, initiators) {
        put_each_initiator(profile, initiators, out);
    }
}

#[tactic(auto, using(crate::proofs::TextLemmas::prints))]
fn put_each_initiator<W: Write>(profile: Profile, initiators: &Initiators, out: &mut Printer<'_, W>)
    ensures { PrintsText W.contents out.old out.new
        (flat_map (to_text initiators.now) (initiators_in profile)) }
{
    for number in 0..initiators_in(profile) {
        put_to(initiators, number, out);
    }
}

/// How many initiators a disk of a profile has.
fn initiators_in(profile: Profile) -> usize
    ensures value { result ≡ (limits_of profile).initiators }
    ensures at_most { result ≤ initiator_count }
{
    usize::from(profile.limits().initiators)
}

#[tactic(auto, using(crate::proofs::TextLemmas::prints))]
fn put_to<W: Write>(initiators: &Initiators, number: usize, out: &mut Printer<'_, W>)
    requires { number < initiator_count }
    ensures { PrintsText W.contents out.old out.new (to_text initiators.now number) }
{
    if is_named(initiators, number) {
        put_labelled_number(b" to ", number as u32, out);
    }
}

fn names_all(profile: Profile, initiators: &Initiators) -> bool
    ensures { result ≡ names_all profile initiators.now }
{
    (0..initiators_in(profile)).all(|number| is_named(initiators, number))
}

/// The initiator with a number is one of them.
fn is_named(initiators: &Initiators, number: usize) -> bool
    requires { number < initiator_count }
    ensures { result ≡ is_member initiators.now number }
{
    match Initiator::new(number as u8) {
        Some(initiator) => initiators.contains(initiator),
        None => false,
    }
}

/// Prints what is left of a fault, for each initiator for which the disk lists it.
#[tactic(auto, using(crate::proofs::TextLemmas::prints))]
fn put_all_left<W: Write>(profile: Profile, armed: &ArmedFault, out: &mut Printer<'_, W>)
    ensures { PrintsText W.contents out.old out.new
        (flat_map (left_text profile armed.now) (initiators_in profile)) }
{
    for number in 0..initiators_in(profile) {
        put_left(profile, armed, number, out);
    }
}

#[tactic(auto, using(crate::proofs::TextLemmas::prints))]
fn put_left<W: Write>(profile: Profile, armed: &ArmedFault, number: usize, out: &mut Printer<'_, W>)
    requires { number < initiator_count }
    ensures { PrintsText W.contents out.old out.new (left_text profile armed.now number) }
{
    if is_listed(profile, armed, number) {
        put_count(number, count_for(armed, number), out);
    }
}

/// What is left of a fault is listed for the initiator with a number.
fn is_listed(profile: Profile, armed: &ArmedFault, number: usize) -> bool
    requires { number < initiator_count }
    ensures { result ≡ is_listed profile armed.now number }
{
    let left = count_for(armed, number);
    match profile {
        Profile::Base => is_named(&armed.fault.initiators, number) && is_counted(left),
        Profile::Extended => !is_same(left, armed.fault.first_count(number)),
    }
}

#[tactic(auto, using(crate::proofs::TextLemmas::prints))]
fn put_count<W: Write>(number: usize, count: Count, out: &mut Printer<'_, W>)
    requires { number < initiator_count }
    ensures { PrintsText W.contents out.old out.new (count_text number count) }
{
    put_labelled_number(b"    to ", number as u32, out);
    out.put(b":");
    put_skip_left(count, out);
    put_times(count.times, out);
    out.put(b"\n");
}

/// What is left of a fault for the initiator with a number.
fn count_for(armed: &ArmedFault, number: usize) -> Count
    requires { number < initiator_count }
    ensures { result ≡ count_for armed.now number }
{
    match armed.counts.get(number) {
        Some(count) => *count,
        None => Count {
            skip: 0,
            times: Some(0),
        },
    }
}

/// Something is counted.
fn is_counted(count: Count) -> bool
    ensures { result ≡ is_counted count }
{
    count.skip != 0 || count.times.is_some()
}

fn is_same(count: Count, other: Count) -> bool
    ensures { result ≡ is_same count other }
{
    count.skip == other.skip && count.times == other.times
}
