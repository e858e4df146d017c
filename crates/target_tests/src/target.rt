// Commands to a target and its replies: raw sense data, counts, sinks and the bytes after data-in,
// which scripts do not show.
ghost use Rattle.std.specs.Prelude.{◌≡◌, IfOk, vec_len};
ghost use Rattle.sg_target.specs.declared.target.TheConstants.{BUFFER_LENGTH};

mod configuration;
mod copying;
mod data_in;
mod log;
mod physical_blocks;
mod runs;
mod short_data_out;

use sg_pages::Identity;
use sg_plain_map::PlainMap;
use sg_target::{BUFFER_LENGTH, Config, Reply, Status, Target};
use sg_wire::Initiator;
use std::alloc::{AllocError, Global};
use std::test::Fail;

const READY: &[u8] = &[0x00, 0, 0, 0, 0, 0];

/// The ending of a command.
#[derive(Clone, Copy)]
enum Ending {
    Good,
    PowerOn,
    UnknownOpcode,
    InvalidField(u8),
    DataPhaseError,
    // LOGICAL BLOCK ADDRESS OUT OF RANGE, with the first such address.
    OutOfRange(u32),
    NoSpace,
}

use Ending::{DataPhaseError, Good, InvalidField, NoSpace, OutOfRange, PowerOn, UnknownOpcode};

/// The sense data, if there is some.
fn sense_of(ending: Ending) -> Option<[u8; 18]> {
    match ending {
        Good => None,
        PowerOn => Some([
            0x70, 0, 6, 0, 0, 0, 0, 0x0A, 0, 0, 0, 0, 0x29, 0x00, 0, 0, 0, 0,
        ]),
        UnknownOpcode => Some([
            0x70, 0, 5, 0, 0, 0, 0, 0x0A, 0, 0, 0, 0, 0x20, 0x00, 0, 0, 0, 0,
        ]),
        InvalidField(byte) => Some([
            0x70, 0, 5, 0, 0, 0, 0, 0x0A, 0, 0, 0, 0, 0x24, 0x00, 0, 0xC0, 0, byte,
        ]),
        DataPhaseError => Some([
            0x70, 0, 0x0B, 0, 0, 0, 0, 0x0A, 0, 0, 0, 0, 0x4B, 0x00, 0, 0, 0, 0,
        ]),
        OutOfRange(lba) => Some(out_of_range(lba.to_be_bytes())),
        NoSpace => Some([
            0x70, 0, 7, 0, 0, 0, 0, 0x0A, 0, 0, 0, 0, 0x27, 0x07, 0, 0, 0, 0,
        ]),
    }
}

fn out_of_range([a, b, c, d]: [u8; 4]) -> [u8; 18] {
    [
        0xF0, 0, 5, a, b, c, d, 0x0A, 0, 0, 0, 0, 0x21, 0x00, 0, 0, 0, 0,
    ]
}

/// A disk of 4,096 blocks with a pool of 4, and the buffer of its data-in.
#[derive(Drop)]
struct Disk {
    target: Target<PlainMap>,
    buf: Vec<u8>,
    ghost room: { vec_len buf ≡ BUFFER_LENGTH },
}

/// A buffer of `len` bytes, on the heap: with one for each test the stack would be too small.
fn buffer(alloc: Global, len: usize) -> Result<Vec<u8>, AllocError>
    ensures { IfOk result (λ buffer. vec_len buffer ≡ len) }
{
    vec![in alloc; 0xA5; len]
}

impl Disk {
    fn new(alloc: Global) -> Result<Disk, Fail> {
        Disk::of(alloc, Identity::standard())
    }

    /// The same, with an identity.
    fn of(alloc: Global, identity: Identity) -> Result<Disk, Fail> {
        let config = Config::new(4_096, 4, identity).or(Err("no configuration"))?;
        Ok(Disk {
            target: Target::new(alloc, config)?,
            buf: buffer(alloc, BUFFER_LENGTH)?,
        })
    }

    /// The same, after the unit attention of initiator 0 was reported.
    fn ready(alloc: Global) -> Result<Disk, Fail> {
        let mut disk = Disk::new(alloc)?;
        disk.execute(0, READY, &[])?;
        Ok(disk)
    }

    /// Executes a command by the initiator of a number, with A5h in each byte of the buffer.
    fn execute(&mut self, number: u8, cdb: &[u8], data_out: &[u8]) -> Result<Reply, Fail> {
        let initiator = Initiator::new(number).ok_or("no initiator")?;
        self.buf.fill(0xA5);
        Ok(self.target.execute(initiator, cdb, data_out, &mut self.buf))
    }
}
