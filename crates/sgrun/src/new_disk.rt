// Makes the disk and runs the script on it. The program names its stores only here.
ghost use Rattle.std.specs.Prelude.{◌≡◌, false};
ghost use Rattle.sg_wire.specs.Watched.{has_failed};
ghost use Rattle.sg_run.specs.ScriptRun.{snapshot};
ghost use Rattle.sg_target.specs.Target.{disk_of};
ghost use Rattle.sgrun.specs.NewDisk.{RunsOnNewDisk, RunsUnlessRefused};

use crate::stop::{Stop, outcome_of_run};
use sg_block_map::BlockMap;
use sg_extent_map::ExtentMap;
use sg_run::{Session, run_script};
use sg_store::Store;
use sg_target::{Config, Target};
use sg_wire::{Profile, Watched};
use std::alloc::Global;
use std::io::{Read, Write};

/// Runs a script on a disk as it is after power on. Returns the script's status. A disk of the base
/// profile is over a `BlockMap`. One of the extended profile can have a far larger pool, and is over
/// an `ExtentMap`.
///
/// # Errors
/// Memory was refused, before anything was read; or the reader or the writer failed.
pub(crate) fn run_on_new_disk<'a, R: Read, W: Write>(
    alloc: Global,
    disk: Config,
    reader: &mut Watched<R>,
    writer: &mut Watched<W>,
) -> Result<u8, Stop<'a>>
    requires reads { has_failed reader.old ≡ false }
    requires writes { has_failed writer.old ≡ false }
    ensures { RunsOnNewDisk disk
        (snapshot R.remaining W.contents reader.old writer.old)
        (snapshot R.remaining W.contents reader.new writer.new)
        result }
{
    match disk.identity().profile() {
        Profile::Base => run_over::<R, W, BlockMap>(alloc, disk, reader, writer),
        Profile::Extended => run_over::<R, W, ExtentMap>(alloc, disk, reader, writer),
    }
}

/// Runs a script on a new disk over a store.
fn run_over<'a, R: Read, W: Write, S: Store>(
    alloc: Global,
    disk: Config,
    reader: &mut Watched<R>,
    writer: &mut Watched<W>,
) -> Result<u8, Stop<'a>>
    requires reads { has_failed reader.old ≡ false }
    requires writes { has_failed writer.old ≡ false }
    ensures { RunsOnNewDisk disk
        (snapshot R.remaining W.contents reader.old writer.old)
        (snapshot R.remaining W.contents reader.new writer.new)
        result }
{
    let mut target: Target<S> = Target::new(alloc, disk)?;
    run_in_new_session(alloc, reader, writer, &mut target)
}

/// Runs a script. This is a function of its own, so that the disk and the session are dropped in
/// two functions.
fn run_in_new_session<'a, R: Read, W: Write, S: Store>(
    alloc: Global,
    reader: &mut Watched<R>,
    writer: &mut Watched<W>,
    target: &mut Target<S>,
) -> Result<u8, Stop<'a>>
    requires reads { has_failed reader.old ≡ false }
    requires writes { has_failed writer.old ≡ false }
    ensures { RunsUnlessRefused (disk_of target.old) (disk_of target.new)
        (snapshot R.remaining W.contents reader.old writer.old)
        (snapshot R.remaining W.contents reader.new writer.new)
        result }
{
    let mut session = Session::new(alloc)?;
    outcome_of_run(run_script(alloc, reader, writer, &mut session, target))
}
