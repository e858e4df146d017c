//! `blockbench STORE ORDER POOL BLOCKS COMMANDS`: block commands on a disk whose pool is full.
//! `bench/blocks` makes its tables.
//!
//! The store is `runs`, a `BlockMap`, whose pool has at most 65,536 blocks, or `extents`, an
//! `ExtentMap`. A disk of the extended profile with a pool of POOL blocks gets as many mapped blocks,
//! in an order:
//!
//! - `sparse`: in runs of BLOCKS blocks, with an address that is not mapped after each run. There
//!   is one WRITE for each run.
//! - `ascending`: in one run, by one WRITE for each block, one after the other.
//! - `mixed`: in one run, too, each block far away from the one before.
//! - `churned`: as `mixed`. Then the program unmaps a block at random and writes it again, POOL
//!   times, but at most 100,000 times.
//!
//! Then come COMMANDS READs of BLOCKS blocks, as many WRITEs, and as many UNMAPs, each with a WRITE
//! of the same blocks. All of them are at random over mapped blocks.
//!
//! The program prints how many commands were good. On standard error it prints the nanoseconds that
//! a command took.
#![tactic(auto)]

use sg_block_map::BlockMap;
use sg_extent_map::ExtentMap;
use sg_pages::Identity;
use sg_store::{BLOCK_LENGTH, Store};
use sg_target::{BUFFER_LENGTH, Config, Status, Target};
use sg_wire::{CdbBytes, Command, Extent16, GroupNumber, Initiator, Profile, Unmap};
use std::process::ExitCode;
use std::rt::Runtime;
use std::time::Instant;
use std::{env, io};

/// A prime that is no divisor of a pool's size, so that its multiples meet each address once.
const STRIDE: u64 = 1_000_003;

/// The most blocks that are unmapped and written again in the order `churned`.
const MOST_CHURNED: u64 = 100_000;

/// The length of UNMAP's parameter list with one descriptor.
const LIST_LENGTH: usize = 24;

/// The order in which the blocks are mapped.
#[derive(Clone, Copy)]
enum Order {
    Sparse,
    Ascending,
    Mixed,
    Churned,
}

/// The store that keeps the blocks.
#[derive(Clone, Copy)]
enum Kept {
    Runs,
    Extents,
}

/// What a run does.
#[derive(Clone, Copy)]
struct Load {
    store: Kept,
    order: Order,
    pool: u32,
    /// The number of blocks of a command.
    blocks: u32,
    /// The number of commands of each kind.
    commands: u64,
}

/// What the commands are sent to and by.
#[derive(Drop)]
struct Bench<'a, S: Store> {
    target: Target<S>,
    initiator: Initiator,
    data_out: &'a [u8],
    buf: [u8; BUFFER_LENGTH],
    good: u64,
}

/// A number below `range`, at random.
fn random(index: u64, range: u64) -> u64 {
    let mixed = index.wrapping_mul(0x9E37_79B9_7F4A_7C15);
    let mixed = (mixed ^ (mixed >> 29)).wrapping_mul(0xBF58_476D_1CE4_E5B9);
    (mixed ^ (mixed >> 32)).checked_rem(range).unwrap_or(0)
}

impl Load {
    /// The number of WRITEs that fill the pool, and the number of blocks of each.
    fn fill(&self) -> (u64, u32) {
        let pool = u64::from(self.pool);
        match self.order {
            Order::Sparse => (
                pool.checked_div(u64::from(self.blocks)).unwrap_or(0),
                self.blocks,
            ),
            _ => (pool, 1),
        }
    }

    /// The first address of the WRITE at an index, as the pool is filled.
    fn filled_at(&self, index: u64) -> u64 {
        match self.order {
            Order::Sparse => index.wrapping_mul(u64::from(self.blocks).saturating_add(1)),
            Order::Ascending => index,
            Order::Mixed | Order::Churned => index
                .wrapping_mul(STRIDE)
                .checked_rem(u64::from(self.pool))
                .unwrap_or(0),
        }
    }

    /// The first address of a command over mapped blocks.
    fn covered_at(&self, index: u64) -> u64 {
        match self.order {
            Order::Sparse => self.filled_at(random(index, self.fill().0)),
            _ => {
                let starts = u64::from(self.pool).saturating_sub(u64::from(self.blocks));
                random(index, starts.saturating_add(1))
            }
        }
    }
}

impl<S: Store> Bench<'_, S> {
    fn send(&mut self, cdb: &CdbBytes, data_out: &[u8]) {
        let reply = self
            .target
            .execute(self.initiator, cdb.as_slice(), data_out, &mut self.buf);
        if reply.status == Status::Good {
            self.good = self.good.saturating_add(1);
        }
    }

    fn read(&mut self, lba: u64, count: u32) {
        let cdb = Command::Read16(Extent16 { lba, count }).write();
        self.send(&cdb, &[]);
    }

    fn write(&mut self, lba: u64, count: u32) {
        let length = (count as usize).saturating_mul(BLOCK_LENGTH);
        let cdb = Command::Write16(Extent16 { lba, count }).write();
        let data_out = self.data_out.get(..length).unwrap_or(&[]);
        self.send(&cdb, data_out);
    }

    fn unmap(&mut self, lba: u64, count: u32) {
        let Some(group) = GroupNumber::new(0) else {
            return;
        };
        let mut list = [0; LIST_LENGTH];
        list[1] = 22;
        list[3] = 16;
        list[8..16].copy_from_slice(&lba.to_be_bytes());
        list[16..20].copy_from_slice(&count.to_be_bytes());
        let cdb = Command::Unmap(Unmap {
            anchor: false,
            group,
            list_length: LIST_LENGTH as u16,
        })
        .write();
        self.send(&cdb, &list);
    }
}

/// The nanoseconds of one of `count` commands, since an instant.
fn each(rt: &HostRuntime, start: Instant, count: u64) -> io::Result<u64> {
    let nanoseconds = u64::try_from(start.elapsed(rt)?.as_nanos()).unwrap_or(u64::MAX);
    Ok(nanoseconds.checked_div(count).unwrap_or(0))
}

/// Fills the pool, and churns it if that is asked for.
fn fill<S: Store>(rt: &HostRuntime, bench: &mut Bench<'_, S>, load: Load) -> io::Result<()> {
    let (writes, blocks) = load.fill();
    let start = Instant::now(rt)?;
    for index in 0..writes {
        bench.write(load.filled_at(index), blocks);
    }
    eprintln!(rt; "fill {}", each(rt, start, writes)?)?;
    if let Order::Churned = load.order {
        for index in 0..u64::from(load.pool).min(MOST_CHURNED) {
            let lba = random(index, u64::from(load.pool));
            bench.unmap(lba, 1);
            bench.write(lba, 1);
        }
    }
    Ok(())
}

/// Times the commands of each kind.
fn measure<S: Store>(rt: &HostRuntime, bench: &mut Bench<'_, S>, load: Load) -> io::Result<()> {
    let start = Instant::now(rt)?;
    bench.read(load.filled_at(load.fill().0 / 2), load.blocks);
    eprintln!(rt; "first_read {}", each(rt, start, 1)?)?;
    let start = Instant::now(rt)?;
    for index in 0..load.commands {
        bench.read(load.covered_at(index), load.blocks);
    }
    eprintln!(rt; "read {}", each(rt, start, load.commands)?)?;
    let start = Instant::now(rt)?;
    for index in 0..load.commands {
        bench.write(load.covered_at(index), load.blocks);
    }
    eprintln!(rt; "write {}", each(rt, start, load.commands)?)?;
    let start = Instant::now(rt)?;
    for index in 0..load.commands {
        let lba = load.covered_at(index);
        bench.unmap(lba, load.blocks);
        bench.write(lba, load.blocks);
    }
    eprintln!(rt; "unmap_and_write {}", each(rt, start, load.commands)?)?;
    Ok(())
}

fn store_of(word: &str) -> Option<Kept> {
    match word {
        "runs" => Some(Kept::Runs),
        "extents" => Some(Kept::Extents),
        _ => None,
    }
}

fn order_of(word: &str) -> Option<Order> {
    match word {
        "sparse" => Some(Order::Sparse),
        "ascending" => Some(Order::Ascending),
        "mixed" => Some(Order::Mixed),
        "churned" => Some(Order::Churned),
        _ => None,
    }
}

/// The words after the program's name.
fn read_load(rt: &HostRuntime) -> Option<Load> {
    let mut args = env::args(rt).ok()?;
    args.next()?;
    Some(Load {
        store: store_of(&args.next()?)?,
        order: order_of(&args.next()?)?,
        pool: args.next()?.parse().ok()?,
        blocks: args.next()?.parse().ok()?,
        commands: args.next()?.parse().ok()?,
    })
}

/// Runs over a store, and returns how many commands were good.
fn run<S: Store>(rt: &HostRuntime, load: Load, config: Config) -> io::Result<u64> {
    let Some(initiator) = Initiator::new(0) else {
        return Ok(0);
    };
    let data_out = vec![in rt.alloc(); 0xAB; BUFFER_LENGTH]?;
    let start = Instant::now(rt)?;
    let mut bench: Bench<'_, S> = Bench {
        target: Target::new(rt.alloc(), config)?,
        initiator,
        data_out: &data_out,
        buf: [0; BUFFER_LENGTH],
        good: 0,
    };
    eprintln!(rt; "start {}", each(rt, start, 1)?)?;
    // The first command reports the unit attention POWER ON.
    bench.read(0, 1);
    fill(rt, &mut bench, load)?;
    measure(rt, &mut bench, load)?;
    Ok(bench.good)
}

fn main(rt: HostRuntime) -> ExitCode {
    let identity = Identity::standard().with_profile(Profile::Extended);
    let Some(load) = read_load(&rt) else {
        let _ = eprintln!(rt; "blockbench: STORE ORDER POOL BLOCKS COMMANDS");
        return ExitCode::from(1);
    };
    let blocks = u64::from(load.pool).saturating_mul(2).saturating_add(1);
    let Ok(config) = Config::new(blocks, load.pool, identity) else {
        let _ = eprintln!(rt; "blockbench: the pool has no block");
        return ExitCode::from(1);
    };
    let good = match load.store {
        Kept::Runs => run::<BlockMap>(&rt, load, config),
        Kept::Extents => run::<ExtentMap>(&rt, load, config),
    };
    let Ok(good) = good else {
        let _ = eprintln!(rt; "blockbench: out of memory, or an error of a stream or the clock");
        return ExitCode::from(99);
    };
    let _ = println!(rt; "{good} commands were good");
    ExitCode::from(0)
}
