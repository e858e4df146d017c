//! `both_stores`: commands over the three stores, with happenings among them, and armed faults. The
//! replies have to be equal, except for the stores' counts.
//!
//! - 10,000 commands come from a fixed seed.
//! - All lists of three events are run, each on new disks. The lists are run again with faults that
//!   meet none of their commands. Then the replies have to be those of a disk without faults.
#![tactic(auto)]

mod disks;
mod extended;
mod faults;
mod lists;
mod random;

use disks::{BLOCKS, Disks, Tally};
use extended::next_extended;
use faults::next_fault;
use lists::{EACH_REFUSAL, Faults, LISTS, STOPPED, run_lists};
use random::Random;
use sg_store::BLOCK_LENGTH;
use sg_target::Happening;
use sg_units::{Initiators, UnitAttention};
use sg_wire::{
    Command, Extent10, GetLbaStatus, GroupNumber, Initiator, OutAction, PersistentReserveOut,
    Profile, TransportIds, Unmap, WriteSame16, transport_id,
};
use std::io;
use std::process::ExitCode;
use std::rt::Runtime;

const COMMANDS: u64 = 10_000;

/// The bytes of the longest data-out, eight blocks.
const LONGEST_LIST: usize = 4_096;

/// The bytes of the parameter list of UNMAP with one descriptor.
const EXTENT_LIST: usize = 24;

/// The bytes of the parameter list of PERSISTENT RESERVE OUT.
const KEY_LIST: usize = 24;

/// The bytes of the parameter list of REGISTER AND MOVE (SPC-4, 6.16.4).
const MOVE_LIST: usize = 48;

/// What happens next.
fn next_happening(random: &mut Random) -> Option<Happening> {
    Some(match random.byte() % 16 {
        0 => Happening::LogicalUnitReset,
        1 => Happening::TargetReset,
        2 => Happening::NexusLoss(Initiator::new(random.byte() % 3)?),
        3 => Happening::Grow(BLOCKS + u64::from(random.byte())),
        4 => {
            let condition = UnitAttention::with_code(0x3F, 0x0E)?;
            Happening::Establish(condition, Initiators::of_mask(u64::from(random.byte())))
        }
        5 => Happening::DisarmAll,
        6 => Happening::Disarm(usize::from(random.byte() % 8)),
        7 | 8 => Happening::Power,
        _ => Happening::Arm(next_fault(random)?),
    })
}

/// Makes a command of the next kind, and writes its data-out. Returns the data-out's length too.
fn next_command(
    random: &mut Random,
    data_out: &mut [u8; LONGEST_LIST],
) -> Option<(Command, usize)> {
    let lba = u32::from(random.byte());
    let count = random.byte() % 9;
    data_out.fill(random.byte() % 4);
    match random.byte() % 20 {
        0..=4 => Some((write(lba, count), BLOCK_LENGTH * usize::from(count))),
        5 => Some((write_same(random, lba, count), BLOCK_LENGTH)),
        6..=8 => {
            list_extent(random, data_out);
            Some((unmap(random)?, EXTENT_LIST))
        }
        9 | 10 => Some((status(random, lba), 0)),
        11 | 12 => reserve_out(random, data_out),
        13..=15 => Some((read(lba, count), 0)),
        _ => next_extended(random, lba, count, data_out),
    }
}

fn write(lba: u32, count: u8) -> Command {
    Command::Write10(Extent10 {
        lba,
        count: u16::from(count),
    })
}

fn read(lba: u32, count: u8) -> Command {
    Command::Read10(Extent10 {
        lba,
        count: u16::from(count),
    })
}

fn write_same(random: &mut Random, lba: u32, count: u8) -> Command {
    Command::WriteSame16(WriteSame16 {
        anchor: random.byte() < 64,
        unmap: random.byte() < 128,
        ndob: false,
        lba: u64::from(lba),
        count: u32::from(count),
    })
}

fn unmap(random: &mut Random) -> Option<Command> {
    Some(Command::Unmap(Unmap {
        anchor: random.byte() < 128,
        group: GroupNumber::new(0)?,
        list_length: EXTENT_LIST as u16,
    }))
}

fn status(random: &mut Random, lba: u32) -> Command {
    Command::GetLbaStatus(GetLbaStatus {
        start: u64::from(lba),
        allocation_length: u32::from(random.byte()),
    })
}

/// PERSISTENT RESERVE OUT with its parameter list, and the list's length.
fn reserve_out(random: &mut Random, list: &mut [u8; LONGEST_LIST]) -> Option<(Command, usize)> {
    let action = OutAction::with_code(Profile::Extended, random.byte() % 8)?;
    list_keys(random, list);
    let length = match action {
        OutAction::RegisterAndMove => {
            list_move(random, list)?;
            MOVE_LIST
        }
        _ => KEY_LIST,
    };
    let command = Command::PersistentReserveOut(PersistentReserveOut {
        action,
        scope_type: random.byte() % 9,
        list_length: length as u32,
    });
    Some((command, length))
}

/// Writes the parameter list of UNMAP with one descriptor (SBC-3, 5.28.2).
fn list_extent(random: &mut Random, list: &mut [u8; LONGEST_LIST]) {
    list.fill(0);
    list[1] = 22;
    list[3] = 16;
    list[15] = random.byte();
    list[19] = random.byte() % 32;
}

/// Writes the parameter list of PERSISTENT RESERVE OUT with two small keys (SPC-4, 6.16.3).
fn list_keys(random: &mut Random, list: &mut [u8; LONGEST_LIST]) {
    list.fill(0);
    list[7] = random.byte() % 3;
    list[15] = random.byte() % 3;
    // APTPL.
    list[20] = random.byte() % 2;
}

/// Writes the other fields of REGISTER AND MOVE behind the keys, with the TransportID of an initiator that
/// sends commands (SPC-4, 6.16.4).
fn list_move(random: &mut Random, list: &mut [u8; LONGEST_LIST]) -> Option<()> {
    // UNREG and APTPL, RELATIVE TARGET PORT IDENTIFIER, and TRANSPORTID PARAMETER DATA LENGTH.
    list[17] = random.byte() % 4;
    list[19] = 1;
    list[20] = 0;
    list[23] = TransportIds::LENGTH as u8;
    let target = transport_id(Initiator::new(random.byte() % 3)?);
    list[KEY_LIST..MOVE_LIST].copy_from_slice(&target);
    Some(())
}

/// Executes the commands, with happenings among them.
fn run(disks: &mut Disks) -> Option<Tally> {
    let mut tally = Tally::default();
    let mut random = Random::new();
    let mut data_out = [0; LONGEST_LIST];
    for _ in 0..COMMANDS {
        if random.byte() < 8 {
            disks.happen(&next_happening(&mut random)?);
        }
        let initiator = Initiator::new(random.byte() % 3)?;
        let (command, length) = next_command(&mut random, &mut data_out)?;
        let cdb = command.write();
        let list = data_out.get(..length)?;
        tally.count(disks.execute(initiator, cdb.as_slice(), list));
    }
    Some(tally)
}

/// Runs the commands, and prints a line. Returns whether all replies are equal.
fn are_equal_at_random(rt: &impl Print, disks: &mut Disks) -> io::Result<bool> {
    let Some(tally) = run(disks) else {
        return Ok(false);
    };
    let equal = tally.equal;
    let each = if tally.has_each_status() {
        "each"
    } else {
        "not each"
    };
    println!(rt; "{COMMANDS} commands, {equal} equal replies, {each} status among them")?;
    Ok(equal == COMMANDS)
}

/// Runs all lists, and prints a line. Returns whether all replies are equal, and the last READs end
/// as they have to.
fn are_equal_in_lists(rt: &HostRuntime, disks: &mut Disks) -> io::Result<bool> {
    let tally = run_lists(rt.alloc(), disks, Faults::MeetCommands).last;
    let (equal, busy, full, conflict) = (tally.equal, tally.busy, tally.full, tally.conflict);
    print!(rt; "{LISTS} lists of three events, {equal} with equal replies; the last READs: ")?;
    println!(rt; "{busy} BUSY, {full} TASK SET FULL, {conflict} RESERVATION CONFLICT")?;
    let as_counted = busy == EACH_REFUSAL && full == EACH_REFUSAL && conflict == EACH_REFUSAL;
    Ok(equal == LISTS && as_counted)
}

/// The same with faults that meet no command of the lists. As many lists as are counted leave the
/// unit stopped. It is started, and then each last READ ends with GOOD.
fn are_equal_without_faults(rt: &HostRuntime, disks: &mut Disks) -> io::Result<bool> {
    let ends = run_lists(rt.alloc(), disks, Faults::MeetNone);
    let (stopped, equal, good) = (
        ends.before_start.check_condition,
        ends.last.equal,
        ends.last.good,
    );
    print!(rt; "{LISTS} lists whose faults meet no command, {equal} with equal replies; ")?;
    println!(rt; "{stopped} leave the unit stopped; the last READs: {good} GOOD")?;
    Ok(equal == LISTS && stopped == STOPPED && good == LISTS)
}

fn run_all(rt: &HostRuntime) -> io::Result<bool> {
    let Some(mut disks) = Disks::new(rt.alloc()) else {
        return Err(io::Error::from(io::ErrorKind::OutOfMemory));
    };
    let at_random = are_equal_at_random(rt, &mut disks)?;
    let in_lists = are_equal_in_lists(rt, &mut disks)?;
    let without_faults = are_equal_without_faults(rt, &mut disks)?;
    Ok(at_random && in_lists && without_faults)
}

fn main(rt: HostRuntime) -> ExitCode {
    match run_all(&rt) {
        Ok(are_equal) => ExitCode::from(u8::from(!are_equal)),
        Err(_) => ExitCode::from(99),
    }
}
