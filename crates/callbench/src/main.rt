//! `callbench BLOCKS CALLS`: calls of `Target::execute`. `bench/call` measures them from outside,
//! beside the same calls from C.
//!
//! A disk of 4,096 blocks with a pool of 64 gets 64 blocks by one WRITE. Then come CALLS of
//! READ(10) of the first BLOCKS blocks; if BLOCKS is 0, they are TEST UNIT READY. The program
//! prints the number of these that were good.
#![tactic(auto)]

use sg_block_map::BlockMap;
use sg_pages::Identity;
use sg_store::BLOCK_LENGTH;
use sg_target::{BUFFER_LENGTH, Config, Status, Target};
use sg_wire::{Command, Extent10, Initiator};
use std::alloc::AllocError;
use std::env;
use std::process::ExitCode;
use std::rt::Runtime;

const BLOCKS: u64 = 4096;

const POOL: u32 = 64;

const POOL_LENGTH: usize = 64 * BLOCK_LENGTH;

/// The call, and the number of times that it is made.
#[derive(Clone, Copy)]
struct Load {
    blocks: u16,
    calls: u64,
}

/// The two numbers after the program's name.
fn read_load(rt: &HostRuntime) -> Option<Load> {
    let mut args = env::args(rt).ok()?;
    args.next()?;
    Some(Load {
        blocks: args.next()?.parse().ok()?,
        calls: args.next()?.parse().ok()?,
    })
}

fn command(blocks: u16) -> Command {
    if blocks == 0 {
        Command::TestUnitReady
    } else {
        Command::Read10(Extent10 {
            lba: 0,
            count: blocks,
        })
    }
}

/// A disk whose first blocks are mapped, as many as the pool has.
fn written_disk(
    rt: &HostRuntime,
    initiator: Initiator,
    buf: &mut [u8; BUFFER_LENGTH],
) -> Result<Target<BlockMap>, AllocError> {
    let config = Config::new(BLOCKS, POOL, Identity::standard()).unwrap();
    let mut target: Target<BlockMap> = Target::new(rt.alloc(), config)?;
    let write = Command::Write10(Extent10 { lba: 0, count: 64 });
    let _ = target.execute(initiator, &[0; 6], &[], buf);
    let _ = target.execute(
        initiator,
        write.write().as_slice(),
        &[0xAB; POOL_LENGTH],
        buf,
    );
    Ok(target)
}

fn call(
    target: &mut Target<BlockMap>,
    initiator: Initiator,
    load: Load,
    buf: &mut [u8; BUFFER_LENGTH],
) -> u64 {
    let cdb = command(load.blocks).write();
    let mut good: u64 = 0;
    for _ in 0..load.calls {
        let reply = target.execute(initiator, cdb.as_slice(), &[], buf);
        if reply.status == Status::Good {
            good = good.saturating_add(1);
        }
    }
    good
}

fn run(rt: &HostRuntime, load: Load) -> Result<u64, AllocError> {
    let mut buf = [0; BUFFER_LENGTH];
    let Some(initiator) = Initiator::new(0) else {
        return Ok(0);
    };
    let mut target = written_disk(rt, initiator, &mut buf)?;
    Ok(call(&mut target, initiator, load, &mut buf))
}

fn main(rt: HostRuntime) -> ExitCode {
    let Some(load) = read_load(&rt) else {
        let _ = eprintln!(rt; "callbench: BLOCKS CALLS");
        return ExitCode::from(1);
    };
    let Ok(good) = run(&rt, load) else {
        let _ = eprintln!(rt; "callbench: out of memory");
        return ExitCode::from(99);
    };
    let _ = println!(rt; "{good} commands");
    ExitCode::from(0)
}
