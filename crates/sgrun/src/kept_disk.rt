// Opens the disk that a file keeps, or makes it, and runs the script on it.
ghost use Rattle.std.specs.Prelude.{◌≡◌, ◌⊎◌, ◌<◌, [], false, IfErr, IfOk, OnOk, Ok, Err, Some};
ghost use Rattle.sg_kept.specs.Disk.{IsAlive, IsDead, IsUsable};
ghost use Rattle.sg_kept.specs.Kept.{powered};
ghost use Rattle.sg_kept.specs.Opened.{batch_count, opened};
ghost use Rattle.sg_kept.specs.Opening.{HasStarted};
ghost use Rattle.sg_run.specs.ScriptRun.{snapshot};
ghost use Rattle.sg_target.specs.Target.{TargetFields, disk_of};
ghost use Rattle.sg_wire.specs.Watched.{has_failed};
ghost use Rattle.sgrun.specs.Arguments.{config_of};
ghost use Rattle.sgrun.specs.Stops.{stop_of_disk};
ghost use Rattle.sgrun.specs.declared.stop.Stop.TheVariants.{CannotWrite};
ghost use Rattle.sgrun.specs.DiskInFile.{HasNoDisk, HasOtherDisk, IsMade, IsNotMade};
ghost use Rattle.sgrun.specs.DiskInFile.{IsLost, IsSaved, RunsOnKeptDisk, checked_against};
ghost use Rattle.sgrun.specs.Reopened.{IsReady, IsServing, disk_in};

use crate::disk_in_file::{DiskInFile, Opener};
use crate::disk_options::DiskOptions;
use crate::stop::{Stop, outcome_of_run};
use sg_changes::NewDisk;
use sg_journal::{Device, DeviceError, Journal, Source};
use sg_kept::{KeptDisk, OpenDiskError};
use sg_run::{Session, run_script};
use sg_store::Store;
use sg_wire::Watched;
use std::alloc::Global;
use std::io::{Read, Write};

/// Opens the disk that a file keeps. If the file is empty, the new disk is made that the options ask
/// for. If the file has a disk, the options that are given have to be the disk's.
///
/// # Errors
/// The file has no disk, or the disk has not what an option says: then nothing was written. Or there is
/// no such new disk, or memory was refused, or the file failed.
pub(crate) fn open_disk<'a, S: Store, F: Source + Drop>(
    alloc: Global,
    file: &'a str,
    source: F,
    options: &DiskOptions,
) -> Result<KeptDisk<S, F::Device>, Stop<'a>>
where
    F::Device: Drop,
    requires fresh { F.taken source ≡ [] }
    ensures started { IfOk result (HasStarted F.Device.seen F.Device.may_leave) }

    // An empty file becomes the new disk.
    ensures made { F.left source ≡ 0
        → IfOk result (λ disk. IsMade options.now (disk_of disk.target)) }

    // Else it is the disk that the file had, and it has what the options say.
    ensures opened { 0 < F.left source → IfOk result (λ disk.
        opened (F.Device.opening disk.journal.device) ≡ Some (disk_of disk.target)) }
    ensures agrees { 0 < F.left source → IfOk result (λ disk.
        checked_against options.now (disk_of disk.target).state ≡ Ok tt) }

    // The stop says which error there was.
    ensures not_made { F.left source ≡ 0 → IfErr result (IsNotMade file.entry options.now) }
    ensures not_opened { 0 < F.left source → IfErr result (λ stop.
        HasNoDisk F.taken F.left F.failures source file.entry stop ⊎ HasOtherDisk options.now stop) }
{
    if source.left() == 0 {
        return make_disk(alloc, file, source, options);
    }
    let disk = open_kept(alloc, file, source)?;
    options.check(disk.target.config())?;
    Ok(disk)
}

/// Opens the disk that a file keeps. Nothing is written.
///
/// # Errors
/// The file has no disk, memory was refused, or the file could not be read.
pub(crate) fn open_kept<'a, S: Store, F: Source + Drop>(
    alloc: Global,
    file: &'a str,
    source: F,
) -> Result<KeptDisk<S, F::Device>, Stop<'a>>
where
    F::Device: Drop,
    requires fresh { F.taken source ≡ [] }
    ensures started { IfOk result (HasStarted F.Device.seen F.Device.may_leave) }
    ensures opened { IfOk result (λ disk.
        opened (F.Device.opening disk.journal.device) ≡ Some (disk_of disk.target)) }
    ensures batches { IfOk result (λ disk.
        batch_count (F.Device.opening disk.journal.device) ≡ Some disk.found_batches) }
    ensures refused { IfErr result
        (HasNoDisk F.taken F.left F.failures source file.entry) }
{
    found_disk(file, KeptDisk::open::<F>(alloc, source))
}

/// The disk that opening a file has found, or the stop of the error.
fn found_disk<'a, S: Store, D: Device, F: Source + Drop>(
    file: &'a str,
    opening: Result<KeptDisk<S, D>, (OpenDiskError, F)>,
) -> Result<KeptDisk<S, D>, Stop<'a>>
    ensures found { IfOk opening (λ disk. result ≡ Ok disk) }
    ensures no_disk { IfErr opening (λ e. result ≡ Err (stop_of_disk file.entry e.0)) }
{
    match opening {
        Ok(disk) => Ok(disk),
        Err((error, _)) => Err(Stop::of_disk(file, error)),
    }
}

/// Makes the new disk that options ask for in an empty file.
fn make_disk<'a, S: Store, F: Source + Drop>(
    alloc: Global,
    file: &'a str,
    source: F,
    options: &DiskOptions,
) -> Result<KeptDisk<S, F::Device>, Stop<'a>>
where
    F::Device: Drop,
    requires fresh { F.taken source ≡ [] }
    requires is_empty { F.left source ≡ 0 }
    ensures started { IfOk result (HasStarted F.Device.seen F.Device.may_leave) }
    ensures made { IfOk result (λ disk. IsMade options.now (disk_of disk.target)) }
    ensures not_made { IfErr result (IsNotMade file.entry options.now) }
{
    let config = options.config()?;
    let new = NewDisk::new(config.blocks(), config.pool(), *config.identity()).unwrap();
    match KeptDisk::make(alloc, Journal::unmade(source), &new) {
        Ok(disk) => Ok(disk),
        Err((error, _)) => Err(Stop::of_making(file, error)),
    }
}

/// Runs a script on a disk that a file keeps, and writes what waits to the file. Returns the script's
/// status.
///
/// # Errors
/// Memory was refused, before anything was read; or the file failed; or the disk did not come back after
/// a power cycle; or the reader or the writer failed.
pub(crate) fn run_on_kept_disk<
    'a,
    R: Read,
    W: Write,
    S: Store,
    D: Device + Drop,
    O: Opener<S, D> + Drop,
>(
    alloc: Global,
    file: &'a str,
    disk: &mut DiskInFile<'a, S, D, O>,
    reader: &mut Watched<R>,
    writer: &mut Watched<W>,
) -> Result<u8, Stop<'a>>
    requires ready { IsReady D.seen D.may_leave disk.old.disk }
    requires reads { has_failed reader.old ≡ false }
    requires writes { has_failed writer.old ≡ false }
    ensures { RunsOnKeptDisk D.seen D.opening file.entry
        (disk_in disk.old.substitute disk.old.disk) disk.new.disk disk.new.cycles.items
        (snapshot R.remaining W.contents reader.old writer.old)
        (snapshot R.remaining W.contents reader.new writer.new)
        result }
{
    let mut session = Session::new(alloc)?;
    let ran = run_script(alloc, reader, writer, &mut session, disk);
    save(file, &mut disk.disk)?;
    outcome_of_run(ran)
}

/// Writes what waits to the file of a disk, if it came back after each power cycle.
///
/// # Errors
/// Why it did not come back, or `CannotWrite` if the file failed, now or earlier.
fn save<'a, S: Store, D: Device>(
    file: &'a str,
    disk: &mut Result<KeptDisk<S, D>, Stop<'a>>,
) -> Result<(), Stop<'a>>
    requires ready { IsReady D.seen D.may_leave disk.old }
    ensures served { OnOk result (IsServing disk.old) }
    ensures saved { OnOk result (IsSaved D.seen disk.new) }
    ensures disk { (substitute : TargetFields)
        → disk_in substitute disk.new ≡ disk_in substitute disk.old }
    ensures failed { IfErr result (λ stop. IsLost file.entry disk.new stop) }
{
    match disk {
        Ok(kept) => save_kept(file, kept),
        Err(stop) => Err(*stop),
    }
}

/// Writes what waits to the file.
///
/// # Errors
/// `CannotWrite` if the file failed, now or earlier.
fn save_kept<'a, S: Store, D: Device>(
    file: &'a str,
    disk: &mut KeptDisk<S, D>,
) -> Result<(), Stop<'a>>
    requires usable { IsAlive disk.old → IsUsable D.seen D.may_leave disk.old }
    ensures alive { OnOk result (IsAlive disk.old) }
    ensures saved { OnOk result (opened (D.seen disk.new.journal.device)
        ≡ Some (powered (disk_of disk.new.target))) }
    ensures disk { disk_of disk.new.target ≡ disk_of disk.old.target }
    ensures failed { IfErr result (λ stop. IsDead disk.new × (stop ≡ CannotWrite file.entry)) }
{
    if disk.is_dead {
        return Err(Stop::CannotWrite(file));
    }
    match disk.flush() {
        Ok(()) => Ok(()),
        Err(DeviceError) => Err(Stop::CannotWrite(file)),
    }
}
