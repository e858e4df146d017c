//! `hostile`: sends commands that are cut short, have a bit that no field has, or come with too
//! little or too much data-out. For each command of two tables, on a disk of the base profile and on
//! one of the extended profile:
//!
//! - The disk refuses each shorter length of its CDB, with a pointer to the first byte that is
//!   missing. After a power cycle it first reports POWER ON, except for REQUEST SENSE, INQUIRY and
//!   REPORT LUNS.
//! - The disk refuses each single bit that no field has and that is not ignored, with a pointer to
//!   its byte. It refuses each bit of CONTROL in the same way.
//! - One byte of data-out less than the command announces is a DATA PHASE ERROR, and one more
//!   changes nothing. An extended disk reports INVALID FIELD IN COMMAND INFORMATION UNIT. COMPARE AND
//!   WRITE needs its exact length: the disk points to NUMBER OF LOGICAL BLOCKS. So does WRITE SAME of
//!   an extended disk: the disk points to the byte of NDOB.
//!
//! The program prints a line with the numbers of tries for each command, and a line for each try
//! that ends otherwise. Rows that are wrong on purpose show that such tries are found.
//!
//! Then it tries all of them again, each with armed faults. A fault on arrival meets each try,
//! whatever its bytes are. Faults at the medium and afterwards meet no try that the disk refuses.
#![tactic(auto)]

mod ending;
mod extended;
mod faults;
mod table;

ghost use Rattle.std.specs.Prelude.{◌≡◌, ◌<◌, if◌then◌else◌, ◌==◌, ◌&&◌, length};

use crate::ending::Ending;
use crate::extended::EXTENDED_COMMANDS;
use crate::table::{COMMANDS, Row, WRONG};
use sg_pages::Identity;
use sg_plain_map::PlainMap;
use sg_target::{BUFFER_LENGTH, Config, Target};
use sg_wire::{Initiator, Profile};
use std::alloc::Global;
use std::io;
use std::process::ExitCode;
use std::rt::Runtime;

/// The masks of the bits of a byte.
const BITS: [u8; 8] = [0x01, 0x02, 0x04, 0x08, 0x10, 0x20, 0x40, 0x80];

/// The number of tries of the wrong rows that end otherwise than the rows say.
const FOUND: u64 = 11;

/// The length of the longest CDB, in bytes.
const LONGEST_CDB: usize = 16;

/// A disk, and the initiator whose commands are tried.
#[derive(Drop)]
struct TestDisk {
    target: Target<PlainMap>,
    initiator: Initiator,
    buf: [u8; BUFFER_LENGTH],
    has_faults: bool,
}

impl TestDisk {
    /// A new disk, after its unit attention was reported. Its commands may be tried with faults.
    fn new(alloc: Global, profile: Profile, has_faults: bool) -> Option<TestDisk> {
        let identity = Identity::standard().with_profile(profile);
        let config = Config::new(4_096, 4, identity).ok()?;
        let mut disk = TestDisk {
            target: Target::new(alloc, config).ok()?,
            initiator: Initiator::new(0)?,
            buf: [0; BUFFER_LENGTH],
            has_faults,
        };
        let _ = disk.ends(&[0; 6], &[], Ending::Good);
        Some(disk)
    }

    /// Executes a command, and returns whether it has this ending. If the disk has faults, the
    /// command is executed once with faults that come late, and once with a fault on arrival.
    fn ends(&mut self, cdb: &[u8], data_out: &[u8], ending: Ending) -> bool {
        if self.has_faults {
            return self.ends_with_faults(cdb, data_out, ending);
        }
        self.ends_plainly(cdb, data_out, ending)
    }

    fn ends_plainly(&mut self, cdb: &[u8], data_out: &[u8], ending: Ending) -> bool {
        let reply = self
            .target
            .execute(self.initiator, cdb, data_out, &mut self.buf);
        ending.is_of(&reply)
    }

    /// Whether a command has this ending after a power cycle. First it reports POWER ON, unless its
    /// CDB has no byte or no unit attention stops it. None stops REQUEST SENSE, INQUIRY or REPORT
    /// LUNS (SAM-5, 5.14).
    fn ends_after_power_on(&mut self, cdb: &[u8], data_out: &[u8], ending: Ending) -> bool {
        self.target.power_cycle();
        let reports = matches!(cdb.first(), None | Some(0x03 | 0x12 | 0xA0))
            || self.ends(cdb, data_out, Ending::PowerOn);
        self.ends(cdb, data_out, ending) && reports
    }
}

/// The numbers of tries of lengths, of bits, of CONTROL and of data-out. The last number counts the
/// tries that end otherwise than they have to.
#[derive(Clone, Copy, Default)]
struct Tally {
    lengths: u64,
    bits: u64,
    controls: u64,
    data_out: u64,
    wrong: u64,
}

impl Tally {
    fn plus(self, other: Tally) -> Tally {
        Tally {
            lengths: self.lengths.saturating_add(other.lengths),
            bits: self.bits.saturating_add(other.bits),
            controls: self.controls.saturating_add(other.controls),
            data_out: self.data_out.saturating_add(other.data_out),
            wrong: self.wrong.saturating_add(other.wrong),
        }
    }
}

/// Prints that a try ends otherwise, and returns the count with one more.
fn wrong_after(rt: &impl Print, wrong: u64, name: &str, what: &str, at: usize) -> io::Result<u64> {
    println!(rt; "{name}: {what} {at} ends otherwise")?;
    Ok(wrong.saturating_add(1))
}

/// Tries each shorter length.
fn try_lengths(
    rt: &impl Print,
    disk: &mut TestDisk,
    row: Row,
    data_out: &[u8],
) -> io::Result<Tally> {
    let mut tally = Tally::default();
    for length in 0..row.cdb.len() {
        tally.lengths = tally.lengths.saturating_add(1);
        let ending = Ending::InvalidField(length);
        if !disk.ends_after_power_on(&row.cdb[..length], data_out, ending) {
            tally.wrong = wrong_after(rt, tally.wrong, row.name, "length", length)?;
        }
    }
    Ok(tally)
}

/// Whether a CDB with one more bit is refused at its byte.
fn is_bit_refused(disk: &mut TestDisk, row: Row, data_out: &[u8], byte: usize, bit: u8) -> bool {
    let mut cdb = [0; LONGEST_CDB];
    let len = row.cdb.len().min(LONGEST_CDB);
    cdb[..len].copy_from_slice(&row.cdb[..len]);
    if byte < len {
        cdb[byte] |= bit;
    }
    disk.ends(&cdb[..len], data_out, Ending::InvalidField(byte))
}

/// Tries each bit of a byte that no field has, one at a time, and counts them as bits.
fn try_bits_of(
    rt: &impl Print,
    disk: &mut TestDisk,
    row: Row,
    data_out: &[u8],
    byte: usize,
) -> io::Result<Tally> {
    let mut tally = Tally::default();
    let named = row.named.get(byte).copied().unwrap_or(0);
    for bit in BITS {
        if named & bit != 0 {
            continue;
        }
        tally.bits = tally.bits.saturating_add(1);
        if !is_bit_refused(disk, row, data_out, byte, bit) {
            tally.wrong = wrong_after(rt, tally.wrong, row.name, "a bit of byte", byte)?;
        }
    }
    Ok(tally)
}

/// Tries the bits of all bytes between the operation code and CONTROL.
fn try_bits(rt: &impl Print, disk: &mut TestDisk, row: Row, data_out: &[u8]) -> io::Result<Tally> {
    let mut tally = Tally::default();
    for byte in 1..row.cdb.len().saturating_sub(1).max(1) {
        tally = tally.plus(try_bits_of(rt, disk, row, data_out, byte)?);
    }
    Ok(tally)
}

/// Tries each bit of CONTROL, the last byte.
fn try_control(
    rt: &impl Print,
    disk: &mut TestDisk,
    row: Row,
    data_out: &[u8],
) -> io::Result<Tally> {
    let last = row.cdb.len().saturating_sub(1);
    let tally = try_bits_of(rt, disk, row, data_out, last)?;
    Ok(Tally {
        bits: 0,
        controls: tally.bits,
        ..tally
    })
}

/// The endings with one byte of data-out less than the command announces, and with one more.
fn ends_by_data_out(row: Row, profile: Profile) -> (Ending, Ending) {
    // NUMBER OF LOGICAL BLOCKS of COMPARE AND WRITE.
    if row.cdb.first() == Some(&0x89) {
        return (Ending::InvalidField(13), Ending::InvalidField(13));
    }
    // NDOB of WRITE SAME.
    if row.cdb.first() == Some(&0x93) && profile == Profile::Extended {
        return (Ending::InvalidField(1), Ending::InvalidField(1));
    }
    match profile {
        Profile::Base => (Ending::DataPhaseError, row.ending),
        Profile::Extended => (Ending::InvalidInformationUnit, row.ending),
    }
}

/// Tries one byte of data-out less than the command announces, and one more, if it announces any.
fn try_data_out(
    rt: &impl Print,
    disk: &mut TestDisk,
    row: Row,
    more: &[u8],
    profile: Profile,
) -> io::Result<Tally>
    requires { row.data_out < length more.now }
{
    let mut tally = Tally::default();
    if row.data_out == 0 {
        return Ok(tally);
    }
    tally.data_out = 2;
    let less = row.data_out - 1;
    let (with_less, with_more) = ends_by_data_out(row, profile);
    if !disk.ends(row.cdb, &more[..less], with_less) {
        tally.wrong = wrong_after(rt, tally.wrong, row.name, "data-out of length", less)?;
    }
    if !disk.ends(row.cdb, more, with_more) {
        let length = more.len();
        tally.wrong = wrong_after(rt, tally.wrong, row.name, "data-out of length", length)?;
    }
    Ok(tally)
}

fn print_tally(rt: &impl Print, name: &str, tally: Tally) -> io::Result<()> {
    let (lengths, bits) = (tally.lengths, tally.bits);
    let (controls, data_out) = (tally.controls, tally.data_out);
    println!(rt;
        "{name}: {lengths} lengths, {bits} bits, {controls} of CONTROL, {data_out} of data-out"
    )
}

/// Executes a command on a new disk, and then tries it in each way on the same disk.
fn try_row(rt: &HostRuntime, row: Row, profile: Profile, has_faults: bool) -> io::Result<Tally> {
    let Some(mut disk) = TestDisk::new(rt.alloc(), profile, has_faults) else {
        return Err(io::Error::from(io::ErrorKind::OutOfMemory));
    };
    let more = vec![in rt.alloc(); 0; row.data_out.saturating_add(1)]?;
    let data_out = &more[..row.data_out];
    let mut tally = Tally::default();
    if !disk.ends(row.cdb, data_out, row.ending) {
        tally.wrong = wrong_after(
            rt,
            tally.wrong,
            row.name,
            "data-out of length",
            row.data_out,
        )?;
    }
    tally = tally.plus(try_lengths(rt, &mut disk, row, data_out)?);
    tally = tally.plus(try_bits(rt, &mut disk, row, data_out)?);
    tally = tally.plus(try_control(rt, &mut disk, row, data_out)?);
    tally = tally.plus(try_data_out(rt, &mut disk, row, &more, profile)?);
    if !has_faults {
        print_tally(rt, row.name, tally)?;
    }
    Ok(tally)
}

/// Tries all rows of a table, on disks of a profile.
fn try_rows(
    rt: &HostRuntime,
    rows: &[Row],
    profile: Profile,
    has_faults: bool,
) -> io::Result<Tally> {
    let mut tally = Tally::default();
    for row in rows {
        tally = tally.plus(try_row(rt, *row, profile, has_faults)?);
    }
    Ok(tally)
}

/// 0 if every command ends as it has to, and the wrong rows do not.
fn exit_status(wrong: u64, found: u64) -> u8
    ensures { result ≡ (if wrong == 0 && found == FOUND then 0 else 1) }
{
    if wrong == 0 && found == FOUND { 0 } else { 1 }
}

/// Tries all commands, and then the wrong rows. Returns the status.
fn try_all(rt: &HostRuntime, name: &str, has_faults: bool) -> io::Result<u8> {
    let base = try_rows(rt, &COMMANDS, Profile::Base, has_faults)?;
    let extended = try_rows(rt, &EXTENDED_COMMANDS, Profile::Extended, has_faults)?;
    let tally = base.plus(extended);
    print_tally(rt, name, tally)?;
    let wrong = tally.wrong;
    println!(rt; "{wrong} tries end otherwise")?;
    let found = try_rows(rt, &WRONG, Profile::Base, has_faults)?.wrong;
    println!(rt; "{found} of {FOUND} faults of the wrong rows are found")?;
    Ok(exit_status(wrong, found))
}

fn run(rt: &HostRuntime) -> io::Result<u8> {
    let status = try_all(rt, "all commands", false)?;
    let with_faults = try_all(rt, "all commands, while faults are armed", true)?;
    Ok(status.max(with_faults))
}

fn main(rt: HostRuntime) -> ExitCode {
    match run(&rt) {
        Ok(status) => ExitCode::from(status),
        Err(error) => {
            let _ = eprintln!(rt; "hostile: {error}");
            ExitCode::from(99)
        }
    }
}
