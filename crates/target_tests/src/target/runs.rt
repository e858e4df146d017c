// Lists of commands, with power cycles among them.
use super::log::{Entry, Log, Refused};
use super::*;
use sg_target::{Call, Event, Happening};
use std::process::Abort;

/// A command and its answer: the initiator's number, the CDB, data-out, the ending and data-in.
type Step = (u8, &'static [u8], &'static [u8], Ending, &'static [u8]);

/// In the place of an initiator's number, which is less than 8: a power cycle, which has no answer.
const POWER: u8 = 0xFF;

const POWER_CYCLE: Step = (POWER, &[], &[], Good, &[]);

/// The end of a run, and the entries that its sink has taken.
type Ran = (Result<(), Refused>, Vec<Entry>);

// Each call is a function of its own, so that the prover carries its contract no further.
impl Disk {
    fn run<A: Abort>(&mut self, calls: &[Call<'_>], log: &mut Log<'_, A>) -> Result<(), Refused> {
        self.target.run(calls, &mut self.buf, log)
    }

    fn run_events<A: Abort>(
        &mut self,
        events: &[Event<'_>],
        log: &mut Log<'_, A>,
    ) -> Result<(), Refused> {
        self.target.run_events(events, &mut self.buf, log)
    }
}

/// Runs the commands of steps, into a sink that takes at most `most` replies.
fn run(
    rt: &(impl Abort + AllocGlobal),
    disk: &mut Disk,
    steps: &[Step],
    most: usize,
) -> Result<Ran, Fail> {
    let mut calls = Vec::new(rt.alloc());
    for step in steps {
        let (number, cdb, data_out, _, _) = step;
        let initiator = Initiator::new(*number).ok_or("no initiator")?;
        let call = Call {
            initiator,
            cdb,
            data_out,
        };
        if calls.push(call).is_err() {
            return Err(Fail::from("no memory"));
        }
    }
    let mut log = Log::new(rt, rt.alloc(), most);
    let ended = disk.run(&calls, &mut log);
    Ok((ended, log.entries))
}

/// Runs steps.
fn run_events(
    rt: &(impl Abort + AllocGlobal),
    disk: &mut Disk,
    steps: &[Step],
) -> Result<Ran, Fail> {
    let mut events = Vec::new(rt.alloc());
    for step in steps {
        let (number, cdb, data_out, _, _) = step;
        let initiator = Initiator::new(*number);
        let event = match initiator {
            Some(initiator) => Event::Call(Call {
                initiator,
                cdb,
                data_out,
            }),
            None => Event::Happen(Happening::Power),
        };
        if events.push(event).is_err() {
            return Err(Fail::from("no memory"));
        }
    }
    let mut log = Log::new(rt, rt.alloc(), usize::MAX);
    let ended = disk.run_events(&events, &mut log);
    Ok((ended, log.entries))
}

/// The number of the first commands of steps that have their answers, one entry after another.
fn count_answered(entries: &[Entry], steps: &[Step]) -> usize {
    let mut rest = entries.iter();
    let mut count: usize = 0;
    for step in steps {
        let (number, _, _, ending, data_in) = step;
        if *number == POWER {
            continue;
        }
        match rest.next() {
            Some(entry) if is_answered(entry, *ending, data_in) => {
                count = count.saturating_add(1);
            }
            _ => return count,
        }
    }
    count
}

/// Whether an entry is a reply with this ending and data-in.
fn is_answered(entry: &Entry, ending: Ending, data_in: &[u8]) -> bool {
    let ends_so = match sense_of(ending) {
        Some(sense) => {
            entry.status == Status::CheckCondition && entry.sense.as_slice() == sense.as_slice()
        }
        None => entry.status == Status::Good && entry.sense.is_empty(),
    };
    ends_so && entry.size == data_in.len() && entry.data_in.as_slice() == data_in
}

const A: [u8; 512] = [0xA1; 512];

const B: [u8; 512] = [0xB2; 512];

const ZEROS: [u8; 512] = [0; 512];

const THREE: [u8; 1_536] = [0xC3; 1_536];

const CONVERSATION: [Step; 15] = [
    (0, READY, &[], PowerOn, &[]),
    (0, READY, &[], Good, &[]),
    (0, &[0x28, 0, 0, 0, 0, 3, 0, 0, 1, 0], &[], Good, &ZEROS),
    (0, &[0x2A, 0, 0, 0, 0, 3, 0, 0, 1, 0], &A, Good, &[]),
    (1, &[0x28, 0, 0, 0, 0, 3, 0, 0, 1, 0], &[], PowerOn, &[]),
    (1, &[0x28, 0, 0, 0, 0, 3, 0, 0, 1, 0], &[], Good, &A),
    (0, &[0xC1], &[], UnknownOpcode, &[]),
    (
        0,
        &[0x2A, 0, 0, 0, 0x10, 0, 0, 0, 1, 0],
        &B,
        OutOfRange(0x1000),
        &[],
    ),
    (0, &[], &[], InvalidField(0), &[]),
    (
        0,
        &[0x2A, 0, 0, 0, 0, 4, 0, 0, 2, 0],
        &B,
        DataPhaseError,
        &[],
    ),
    (1, &[0x2A, 0, 0, 0, 0, 4, 0, 0, 1, 0], &B, Good, &[]),
    (0, &[0x2A, 0, 0, 0, 0, 5, 0, 0, 3, 0], &THREE, NoSpace, &[]),
    (0, &[0x28, 0, 0, 0, 0, 4, 0, 0, 1, 0], &[], Good, &B),
    (0, &[0x12, 0, 0, 0, 5, 0], &[], Good, &[0, 0, 6, 2, 0x1F]),
    (2, READY, &[], PowerOn, &[]),
];

/// Whether a new disk answers to steps, `count` of them, as they say.
fn are_answered(
    rt: &(impl Abort + AllocGlobal),
    steps: &[Step],
    count: usize,
) -> Result<bool, Fail> {
    let mut disk = Disk::new(rt.alloc())?;
    let (ended, entries) = run(rt, &mut disk, steps, usize::MAX)?;
    let are_all = entries.len() == count && count_answered(&entries, steps) == count;
    Ok(ended.is_ok() && are_all)
}

#[test]
fn replies_are_taken_in_order_with_their_data_in(rt: HostRuntime) -> Result<(), Fail> {
    assert!(rt; are_answered(&rt, &CONVERSATION, 15)?);
    Ok(())
}

/// TEST UNIT READY by each initiator.
const READY_BY_ALL: [Step; 8] = [
    (0, READY, &[], PowerOn, &[]),
    (1, READY, &[], PowerOn, &[]),
    (2, READY, &[], PowerOn, &[]),
    (3, READY, &[], PowerOn, &[]),
    (4, READY, &[], PowerOn, &[]),
    (5, READY, &[], PowerOn, &[]),
    (6, READY, &[], PowerOn, &[]),
    (7, READY, &[], PowerOn, &[]),
];

/// The number of the first initiators that have sent TEST UNIT READY: no unit attention is pending
/// for them.
fn count_sent(disk: &mut Disk) -> Result<usize, Fail> {
    let mut sent: usize = 0;
    for number in 0..8 {
        if disk.execute(number, READY, &[])?.status != Status::Good {
            return Ok(sent);
        }
        sent = sent.saturating_add(1);
    }
    Ok(sent)
}

/// Runs steps on a new disk, into a sink that takes at most `most` replies. Returns whether the
/// next reply ends the run, and no command is executed after it.
fn ends_after(rt: &(impl Abort + AllocGlobal), steps: &[Step], most: usize) -> Result<bool, Fail> {
    let mut disk = Disk::new(rt.alloc())?;
    let (ended, entries) = run(rt, &mut disk, steps, most)?;
    let are_taken = entries.len() == most && count_answered(&entries, steps) == most;
    let sent = count_sent(&mut disk)?;
    Ok(ended.is_err() && are_taken && sent == most.saturating_add(1))
}

#[test]
fn no_command_is_executed_after_a_refused_reply(rt: HostRuntime) -> Result<(), Fail> {
    for most in 0..8 {
        assert!(rt;
            ends_after(&rt, &READY_BY_ALL, most)?,
            "after {most} replies"
        );
    }
    Ok(())
}

/// Two blocks, and READ of three.
const TWO_WRITES_AND_A_READ: [Step; 3] = [
    (0, &[0x2A, 0, 0, 0, 0, 0, 0, 0, 1, 0], &A, Good, &[]),
    (0, &[0x2A, 0, 0, 0, 0, 1, 0, 0, 1, 0], &A, Good, &[]),
    (0, &[0x28, 0, 0, 0, 0, 0, 0, 0, 3, 0], &[], Good, &[]),
];

/// Whether each entry has the counts that its command has if it is executed by itself.
fn have_own_counts(disk: &mut Disk, entries: &[Entry], steps: &[Step]) -> Result<bool, Fail> {
    let mut each = true;
    for (entry, step) in entries.iter().zip(steps) {
        let (number, cdb, data_out, _, _) = step;
        each = each && entry.counts == disk.execute(*number, cdb, data_out)?.counts;
    }
    Ok(each)
}

/// Whether the last entry has visited two records, and counts probes.
fn has_visited_two(entries: &[Entry]) -> bool {
    match entries.last() {
        Some(last) => last.counts.visits == 2 && last.counts.probes > 0,
        None => false,
    }
}

/// Whether the replies of a run have the counts of their commands, and the last one visits two
/// records.
fn are_counted(rt: &(impl Abort + AllocGlobal), steps: &[Step]) -> Result<bool, Fail> {
    let mut disk = Disk::ready(rt.alloc())?;
    let (ended, entries) = run(rt, &mut disk, steps, usize::MAX)?;
    let mut single = Disk::ready(rt.alloc())?;
    let each = have_own_counts(&mut single, &entries, steps)?;
    Ok(ended.is_ok() && each && entries.len() == 3 && has_visited_two(&entries))
}

#[test]
fn each_reply_of_a_run_has_the_counts_of_its_command(rt: HostRuntime) -> Result<(), Fail> {
    assert!(rt; are_counted(&rt, &TWO_WRITES_AND_A_READ)?);
    Ok(())
}

/// Commands with their answers, and power cycles, which have none.
const THROUGH_POWER_CYCLES: [Step; 10] = [
    (0, READY, &[], PowerOn, &[]),
    (0, &[0x2A, 0, 0, 0, 0, 3, 0, 0, 1, 0], &A, Good, &[]),
    POWER_CYCLE,
    POWER_CYCLE,
    (0, &[0x28, 0, 0, 0, 0, 3, 0, 0, 1, 0], &[], PowerOn, &[]),
    (0, &[0x28, 0, 0, 0, 0, 3, 0, 0, 1, 0], &[], Good, &A),
    (1, READY, &[], PowerOn, &[]),
    (1, READY, &[], Good, &[]),
    POWER_CYCLE,
    (1, READY, &[], PowerOn, &[]),
];

/// Whether a new disk answers to steps, `count` of them, as they say, and power cycles come between them.
fn are_answered_through_power_cycles(
    rt: &(impl Abort + AllocGlobal),
    steps: &[Step],
    count: usize,
) -> Result<bool, Fail> {
    let mut disk = Disk::new(rt.alloc())?;
    let (ended, entries) = run_events(rt, &mut disk, steps)?;
    let are_all = entries.len() == count && count_answered(&entries, steps) == count;
    Ok(ended.is_ok() && are_all)
}

#[test]
fn power_cycles_come_between_commands(rt: HostRuntime) -> Result<(), Fail> {
    assert!(rt; are_answered_through_power_cycles(&rt, &THROUGH_POWER_CYCLES, 7)?);
    Ok(())
}
