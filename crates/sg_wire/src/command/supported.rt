// The data-in of REPORT SUPPORTED OPERATION CODES (SPC-4, 6.35). All of it is in the table of
// commands.
ghost use Rattle.std.specs.Prelude.{◌≡◌, ◌≤◌, Some, length};
ghost use Rattle.std.specs.List.{flat_map};
ghost use Rattle.std.specs.Option.{option_map};
ghost use Rattle.byteorder.specs.Endian.{big_bytes};
ghost use Rattle.sg_wire.specs.Cut.{Puts};
ghost use Rattle.sg_wire.specs.Fields.{fields_bytes};
ghost use Rattle.sg_wire.specs.SupportedOperations.{all_commands, command_descriptor};
ghost use Rattle.sg_wire.specs.SupportedOperations.{command_fields, each_row_has};
ghost use Rattle.sg_wire.specs.SupportedOperations.{longest_support_report, one_command};
ghost use Rattle.sg_wire.specs.SupportedOperations.{report_data, requested_report, row_requested};
ghost use Rattle.sg_wire.specs.SupportedOperations.{timeouts_descriptor, usage_data};
ghost use Rattle.sg_wire.specs.Table.{descriptor_length, entry_layout, layouts_in};

use super::entry::Entry;
use super::report::ReportSupportedOperationCodes;
use crate::cut::Cut;
use crate::laws::parts_are_put_in_turn;
use crate::profile::Profile;
use byteorder::{BigEndian, ByteOrder};

/// The most bytes that REPORT SUPPORTED OPERATION CODES returns: 64 commands with their timeouts.
pub const LONGEST_SUPPORT_REPORT: usize = 4 + 20 * 64;

/// What REPORT SUPPORTED OPERATION CODES returns (SPC-4, 6.35).
#[derive(Clone, Copy)]
pub enum SupportReport {
    /// All commands that the disk has.
    AllCommands {
        /// With the timeouts of each.
        timeouts: bool,
    },
    /// One command: whether the disk has it, and the bits of its CDB that mean something.
    OneCommand {
        /// The operation code.
        opcode: u8,
        /// The service action, or 0 for a command without one.
        action: u16,
        /// With the timeouts of the command.
        timeouts: bool,
    },
}

// REPORTING OPTIONS (SPC-4, 6.35.1): all commands, the command of an operation code, the command of
// an operation code that has service actions, or the command of any operation code.
const ALL: u8 = 0b000;

const BY_OPCODE: u8 = 0b001;

const BY_ACTION: u8 = 0b010;

const BY_EITHER: u8 = 0b011;

// CTDP and SERVACTV in the descriptor of a command, and CTDP beside SUPPORT.
const CTDP: u8 = 0x02;

const SERVACTV: u8 = 0x01;

const CTDP_OF_ONE: u8 = 0x80;

// SUPPORT: the disk does not have the command, or has it as a standard says.
const NOT_SUPPORTED: u8 = 0x01;

const AS_IN_STANDARD: u8 = 0x03;

// The bits of the service action in byte 1 of a CDB.
const ACTION_BITS: u8 = 0x1F;

/// A command timeouts descriptor (SPC-4, 6.35.4): its length, and no timeout is indicated.
const TIMEOUTS_DESCRIPTOR: [u8; 12] = [0x00, 0x0A, 0, 0, 0, 0, 0, 0, 0, 0, 0, 0];

// The length of the descriptor of a command, in bytes, without and with timeouts.
const DESCRIPTOR_LENGTH: u32 = 8;

const LONG_DESCRIPTOR_LENGTH: u32 = 20;

impl SupportReport {
    /// What a command requests of a disk of a profile. None if REPORTING OPTIONS is reserved or
    /// does not fit the operation code. Then the command is refused for its byte 2.
    #[tactic(auto, unfolding(crate::specs::SupportedOperations::requested_report))]
    pub fn requested(
        profile: Profile,
        fields: &ReportSupportedOperationCodes,
    ) -> Option<SupportReport>
        ensures { result ≡ requested_report profile fields.now }
    {
        let ReportSupportedOperationCodes {
            timeouts,
            opcode,
            action,
            ..
        } = *fields;
        match fields.options.number() {
            ALL => Some(SupportReport::AllCommands { timeouts }),
            BY_OPCODE if each_row_has(profile, opcode, false) => {
                Some(SupportReport::OneCommand {
                    opcode,
                    action: 0,
                    timeouts,
                })
            }
            BY_ACTION if each_row_has(profile, opcode, true) => {
                Some(SupportReport::OneCommand {
                    opcode,
                    action,
                    timeouts,
                })
            }
            BY_EITHER => Some(SupportReport::OneCommand {
                opcode,
                action,
                timeouts,
            }),
            _ => None,
        }
    }

    /// Writes the data-in of a disk of a profile. Its length fields count all of it.
    pub fn write(self, profile: Profile, cut: &mut Cut)
        ensures data { Puts cut.old cut.new (report_data profile self) }
        ensures at_most { length (report_data profile self) ≤ longest_support_report }
    {
        match self {
            SupportReport::AllCommands { timeouts } => put_all_commands(profile, timeouts, cut),
            SupportReport::OneCommand {
                opcode,
                action,
                timeouts,
            } => {
                let entry = entry_requested(profile, opcode, action);
                put_one_command(entry, timeouts, cut)
            }
        }
    }
}

/// Returns `true` if each command of an operation code has a service action, or if each has none.
#[tactic(auto, using(crate::proofs::SupportedLemmas::no_entry))]
fn each_row_has(profile: Profile, opcode: u8, with_action: bool) -> bool
    ensures { result ≡ each_row_has profile opcode with_action }
{
    let entries = Entry::each();
    for entry in entries {
        if entry.is_of(profile, opcode) && !entry.has_action_if(with_action) {
            return false;
        }
    }
    true
}

/// The command of an operation code and a service action, which is 0 for a command without one.
#[tactic(auto, using(crate::proofs::SupportedLemmas::no_entry))]
fn entry_requested(profile: Profile, opcode: u8, action: u16) -> Option<Entry>
    ensures { option_map entry_layout result ≡ row_requested profile opcode action }
{
    let entries = Entry::each();
    for entry in entries {
        if entry.is_of(profile, opcode) && entry.is_requested(action) {
            return Some(*entry);
        }
    }
    None
}

// ---- All commands

/// COMMAND DATA LENGTH, and a descriptor of each command.
fn put_all_commands(profile: Profile, timeouts: bool, cut: &mut Cut)
    ensures data { Puts cut.old cut.new (all_commands profile timeouts) }
    ensures at_most { length (all_commands profile timeouts) ≤ longest_support_report }
{
    parts_are_put_in_turn();
    let entries = Entry::each();
    let count = count_in(entries, profile);
    cut.put(&length_field(descriptor_length(timeouts) * count as u32));
    put_descriptors(entries, profile, timeouts, cut);
}

/// The number of the commands that a disk of a profile has.
#[tactic(auto, using(crate::proofs::SupportedLemmas::no_entry))]
fn count_in(entries: &[Entry], profile: Profile) -> usize
    ensures { result ≡ length (layouts_in profile entries.now) }
{
    let mut count = 0;
    for entry in entries {
        if entry.is_in(profile) {
            count += 1;
        }
    }
    count
}

/// The length of the descriptor of a command, in bytes.
fn descriptor_length(timeouts: bool) -> u32
    ensures { result ≡ descriptor_length timeouts }
{
    if timeouts {
        LONG_DESCRIPTOR_LENGTH
    } else {
        DESCRIPTOR_LENGTH
    }
}

fn length_field(length: u32) -> [u8; 4]
    ensures { result ≡ big_bytes 4 length }
{
    let mut bytes = [0; 4];
    BigEndian::write_u32(&mut bytes, length);
    bytes
}

#[tactic(auto, using(crate::proofs::SupportedLemmas::no_entry))]
fn put_descriptors(entries: &[Entry], profile: Profile, timeouts: bool, cut: &mut Cut)
    ensures { Puts cut.old cut.new
        (flat_map (command_descriptor timeouts) (layouts_in profile entries.now)) }
{
    parts_are_put_in_turn();
    for entry in entries {
        if entry.is_in(profile) {
            put_descriptor(*entry, timeouts, cut);
        }
    }
}

fn put_descriptor(entry: Entry, timeouts: bool, cut: &mut Cut)
    ensures { Puts cut.old cut.new (command_descriptor timeouts (entry_layout entry)) }
{
    parts_are_put_in_turn();
    cut.put(&command_fields(entry, timeouts));
    put_timeouts(timeouts, cut);
}

fn command_fields(entry: Entry, timeouts: bool) -> [u8; 8]
    ensures { result ≡ fields_bytes (command_fields timeouts (entry_layout entry)) }
{
    let ctdp = if timeouts { CTDP } else { 0 };
    let (action, servactv) = match entry.action() {
        Some(action) => (action, SERVACTV),
        None => (0, 0),
    };
    [
        entry.opcode(),
        0,
        0,
        action,
        0,
        ctdp + servactv,
        0,
        entry.usage().len() as u8,
    ]
}

/// The timeouts of a command, if they are requested.
fn put_timeouts(timeouts: bool, cut: &mut Cut)
    ensures { Puts cut.old cut.new (fields_bytes (timeouts_descriptor timeouts)) }
{
    parts_are_put_in_turn();
    if timeouts {
        cut.put(&TIMEOUTS_DESCRIPTOR);
    }
}

// ---- One command

#[tactic(auto, unfolding(crate::specs::SupportedOperations::one_command))]
fn put_one_command(entry: Option<Entry>, timeouts: bool, cut: &mut Cut)
    ensures data { Puts cut.old cut.new (one_command timeouts (option_map entry_layout entry)) }
    ensures at_most { length (one_command timeouts (option_map entry_layout entry))
        ≤ longest_support_report }
{
    match entry {
        Some(entry) => put_supported(entry, timeouts, cut),
        None => cut.put(&[0, NOT_SUPPORTED, 0, 0]),
    }
}

#[tactic(auto, unfolding(crate::specs::SupportedOperations::one_command))]
fn put_supported(entry: Entry, timeouts: bool, cut: &mut Cut)
    ensures { Puts cut.old cut.new (one_command timeouts (Some (entry_layout entry))) }
{
    parts_are_put_in_turn();
    let ctdp = if timeouts { CTDP_OF_ONE } else { 0 };
    let length = entry.usage().len();
    cut.put(&[0, ctdp + AS_IN_STANDARD, 0, length as u8]);
    put_usage_data(entry, cut);
    put_timeouts(timeouts, cut);
}

/// CDB USAGE DATA.
fn put_usage_data(entry: Entry, cut: &mut Cut)
    ensures { Puts cut.old cut.new (usage_data (entry_layout entry)) }
{
    parts_are_put_in_turn();
    let usage = entry.usage();
    let byte_1 = match entry.action() {
        Some(action) => usage[1] - ACTION_BITS + action,
        None => usage[1],
    };
    cut.put(&[entry.opcode(), byte_1]);
    cut.put(&usage[2..]);
}
