//! A disk in a program: it writes a block, reads it again, and prints the disk's answers.
#![tactic(auto)]

use sg_blocks::{BLOCK_LENGTH, BlockMap};
use sg_pages::Identity;
use sg_target::{BUFFER_LENGTH, Config, Reply, Target};
use sg_wire::{CdbBytes, Command, Extent10, Initiator, Sense};
use std::alloc::AllocError;
use std::process::ExitCode;
use std::rt::Runtime;

// A disk of 4,096 blocks, with room for 4 of them.
const BLOCKS: u64 = 4_096;

const POOL: u32 = 4;

const BLOCK: [u8; BLOCK_LENGTH] = [0xAB; BLOCK_LENGTH];

fn write_block(lba: u32) -> CdbBytes {
    let command = Command::Write10(Extent10 { lba, count: 1 });
    command.write()
}

fn read_block(lba: u32) -> CdbBytes {
    let command = Command::Read10(Extent10 { lba, count: 1 });
    command.write()
}

/// Prints the status of a reply and, if it has sense data, the sense key and the additional sense
/// code.
fn print_reply(rt: &HostRuntime, name: &str, reply: &Reply) {
    let status = reply.status.code();
    match Sense::read(reply.sense.as_slice()) {
        Some(Sense { key, asc, ascq, .. }) => {
            let _ = println!(rt;
                "{name}: status {status:02X}h, sense {key:X}h, {asc:02X}h/{ascq:02X}h"
            );
        }
        None => {
            let _ = println!(rt; "{name}: status {status:02X}h");
        }
    }
}

fn run(rt: &HostRuntime) -> Result<(), AllocError> {
    let config = Config::new(BLOCKS, POOL, Identity::standard()).unwrap();
    let mut disk: Target<BlockMap> = Target::new(rt.alloc(), config)?;
    let initiator = Initiator::new(0).unwrap();
    let mut data_in = vec![in rt.alloc(); 0; BUFFER_LENGTH]?;

    // The first command reports that the disk was powered on, and is not executed.
    let cdb = write_block(7);
    let reply = disk.execute(initiator, cdb.as_slice(), &BLOCK, &mut data_in);
    print_reply(rt, "WRITE(10)", &reply);
    let reply = disk.execute(initiator, cdb.as_slice(), &BLOCK, &mut data_in);
    print_reply(rt, "WRITE(10)", &reply);

    // Data-in is at the start of the buffer.
    let reply = disk.execute(initiator, read_block(7).as_slice(), &[], &mut data_in);
    print_reply(rt, "READ(10)", &reply);
    let (length, first) = (reply.data_in, data_in[0]);
    let _ = println!(rt; "{length} bytes of data-in, the first is {first:02X}h");
    Ok(())
}

fn main(rt: HostRuntime) -> ExitCode {
    match run(&rt) {
        Ok(()) => ExitCode::from(0),
        Err(_) => ExitCode::from(99),
    }
}
