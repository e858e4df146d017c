//! `crashes`: lists of steps on a disk in a file, over a device that crashes and fails. The disk has 16
//! blocks and a pool of 8. A step is a command, a happening, a flush or a compaction.
//!
//! - **Crashes.** The program tries some crashes at each call of the device that changes the file, and at
//!   each sync. A crash loses or tears what was not synced. A write leaves its first bytes, its last
//!   bytes, some of its sectors, or any bytes. A file that was cut has some length between. A file that
//!   was exchanged is the old one or the new one.
//! - **Full batches.** Some lists write more bytes than a batch has, without a flush. So batches wait in
//!   the file when the disk crashes.
//! - **What a crash may leave.** The program opens each such file, and sends commands that read the whole
//!   disk. A disk in memory has to reply the same after some first part of the steps and a power cycle.
//!   That part has all steps up to the last flush.
//! - **Lives.** A list goes on with one of the files that a crash left. So the disk writes over what the
//!   crash left after the closed gate.
//! - **Failing calls.** The program does the same steps again while one call of the device fails. From then
//!   on each reply is CHECK CONDITION, HARDWARE ERROR, INTERNAL TARGET FAILURE, and the disk calls the
//!   device no more. Opening the file finds a disk as after a crash.
//!
//! - **Long files.** Some lists begin with a file that is almost long. So the disk writes it afresh by itself
//!   after the next steps, and crashes and fails meanwhile.
//!
//! Before a failure each reply equals the reply of the disk in memory. At last the program runs lists over
//! a device that forgets what a sync should keep. It has to find files there that are wrong.
#![tactic(auto)]

mod begin;
mod device;
mod expected;
mod medium;
mod probe;
mod random;
mod request;
mod run;
mod step;
mod trial;

use crate::medium::Sync;
use crate::run::Buffers;
use crate::trial::{Counts, Trial};
use sg_block_map::BlockMap;
use sg_extent_map::ExtentMap;
use sg_store::Store;
use sg_wire::Profile;
use std::alloc::Global;
use std::io;
use std::process::ExitCode;
use std::rt::Runtime;

/// The number of lists. Each second one is on a disk of the extended profile. Each disk is over the store of
/// its profile.
const LISTS: u64 = 1_000;

/// The number of lists over a device that forgets what a sync should keep.
const FORGOTTEN_LISTS: u64 = 10;

/// The number of lists that begin with a file that is almost long.
const WORN_LISTS: u64 = 6;

/// The number of times that a disk is made or opened in a list.
const LIVES: u8 = 3;

/// What the lists are run on.
#[derive(Clone, Copy)]
struct Setting {
    sync: Sync,
    /// The file is almost long before the first step.
    is_worn: bool,
}

/// Runs a list on a disk over a store. None if memory was refused.
fn run_list<S: Store>(
    alloc: Global,
    profile: Profile,
    number: u64,
    setting: Setting,
    buffers: &mut Buffers,
) -> Option<Counts> {
    let mut trial = Trial::new(alloc, profile, setting.sync, number)?;
    if setting.is_worn {
        trial.wear::<S>(buffers)?;
    }
    for _ in 0..LIVES {
        trial.go_on::<S>(buffers)?;
    }
    Some(trial.counts)
}

/// Runs lists. None if memory was refused.
fn run_lists(alloc: Global, count: u64, setting: Setting, buffers: &mut Buffers) -> Option<Counts> {
    let mut counts = Counts::default();
    for number in 0..count {
        let of_list = if number.is_multiple_of(2) {
            run_list::<BlockMap>(alloc, Profile::Base, number, setting, buffers)?
        } else {
            run_list::<ExtentMap>(alloc, Profile::Extended, number, setting, buffers)?
        };
        counts = counts.plus(of_list);
    }
    Some(counts)
}

/// Runs the lists of a setting, and prints what was done.
fn run_and_print(
    rt: &HostRuntime,
    count: u64,
    setting: Setting,
    buffers: &mut Buffers,
) -> io::Result<Counts> {
    let Some(counts) = run_lists(rt.alloc(), count, setting, buffers) else {
        return Err(io::Error::from(io::ErrorKind::OutOfMemory));
    };
    let Counts {
        steps,
        calls,
        cuts,
        exchanges,
        compactions,
        crashes,
        failures,
        wrong,
    } = counts;
    print!(rt; "{count} lists, {steps} steps, {calls} calls of the device with {cuts} cuts and ")?;
    print!(rt; "{exchanges} exchanges, {compactions} of them by the disk's own rule, ")?;
    println!(rt; "{crashes} crashes, {failures} failed calls, {wrong} wrong")?;
    Ok(counts)
}

/// Runs all lists, and prints what was done. Returns whether only the device that forgets leaves files that
/// are wrong, and whether the disk has written files afresh by itself.
fn run_all(rt: &HostRuntime) -> io::Result<bool> {
    let mut buffers = Buffers::new(rt.alloc())?;
    let mut setting = Setting {
        sync: Sync::Keeps,
        is_worn: false,
    };
    let kept = run_and_print(rt, LISTS, setting, &mut buffers)?;
    setting.is_worn = true;
    let worn = run_and_print(rt, WORN_LISTS, setting, &mut buffers)?;
    setting = Setting {
        sync: Sync::Forgets,
        is_worn: false,
    };
    let Some(forgotten) = run_lists(rt.alloc(), FORGOTTEN_LISTS, setting, &mut buffers) else {
        return Err(io::Error::from(io::ErrorKind::OutOfMemory));
    };
    let is_found = forgotten.wrong > 0;
    let found = if is_found { "yes" } else { "no" };
    println!(rt; "wrong files over a device that forgets are found: {found}")?;
    Ok(kept.wrong == 0 && worn.wrong == 0 && worn.compactions > 0 && is_found)
}

fn main(rt: HostRuntime) -> ExitCode {
    match run_all(&rt) {
        Ok(is_right) => ExitCode::from(u8::from(!is_right)),
        Err(_) => ExitCode::from(99),
    }
}
