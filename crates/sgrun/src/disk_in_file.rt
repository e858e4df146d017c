// A disk in a file that a script runs on. A power cycle closes the file and opens it again.
ghost use Rattle.std.specs.Prelude.{◌≡◌, ◌⊎◌, ◌<◌, ◌≤◌, [], false, length, Err, IfErr, IfOk, Ok, Some};
ghost use Rattle.sg_kept.specs.Disk.{IsAlive, IsDead, IsUsable, failure_reply, longest_file};
ghost use Rattle.sg_kept.specs.Kept.{powered};
ghost use Rattle.sg_kept.specs.Opened.{opened};
ghost use Rattle.sg_kept.specs.Opening.{HasStarted};
ghost use Rattle.sg_target.specs.Armed.{Armed};
ghost use Rattle.sg_target.specs.DataInBound.{longest_data_in};
ghost use Rattle.sg_target.specs.Execution.{IsExecuted};
ghost use Rattle.sg_target.specs.Runs.{armed_after_happening};
ghost use Rattle.sg_target.specs.Target.{disk_of};
ghost use Rattle.sg_target.specs.declared.happening.Happening.TheVariants.{Power};
ghost use Rattle.sgrun.specs.DiskInFile.{checked_against};
ghost use Rattle.sgrun.specs.PowerCycles.{AreReadBack, HasReopened};
ghost use Rattle.sgrun.specs.Reopened.{IsReady, IsServing, disk_in};

use crate::disk_options::DiskOptions;
use crate::power_cycle::PowerCycle;
use crate::stop::Stop;
use sg_faults::ArmedFault;
use sg_journal::{Device, DeviceError};
use sg_kept::KeptDisk;
use sg_run::ScriptDisk;
use sg_store::Store;
use sg_target::{Config, DeviceServer, Happening, Reply, Target};
use sg_wire::{Initiator, Profile};
use std::alloc::{AllocError, Global};
use std::mem::replace;
use std::snapshot::Snapshot;

/// Opens the file of a disk once more, after it was closed. Only proofs see a file's bytes, by its device.
pub(crate) trait Opener<S: Store, D: Device> {
    /// The disk that the file with this name keeps now.
    ///
    /// # Errors
    /// There is no such file any more, or it has no disk, or another program has it, or memory was refused.
    fn open<'a>(&self, file: &'a str) -> Result<KeptDisk<S, D>, Stop<'a>>
        ensures started { IfOk result (HasStarted D.seen D.may_leave) }
        ensures opened { IfOk result (λ disk.
            opened (D.opening disk.journal.device) ≡ Some (disk_of disk.target)) };
}

/// A disk in a file, and what opens the file after a power cycle.
#[derive(Drop)]
pub(crate) struct DiskInFile<'a, S: Store, D: Device + Drop, O: Opener<S, D> + Drop> {
    /// The disk, or why it did not come back after a power cycle.
    pub(crate) disk: Result<KeptDisk<S, D>, Stop<'a>>,
    /// An empty disk of the same identity. It takes the place of a disk that did not come back.
    pub(crate) substitute: Target<S>,
    /// The power cycles so far.
    pub(crate) cycles: Vec<PowerCycle<D>>,
    file: &'a str,
    opener: O,
}

impl<'a, S: Store, D: Device + Drop, O> DiskInFile<'a, S, D, O>
where
    O: Opener<S, D> + Drop,
{
    /// A disk whose file, with this name, was opened or made.
    ///
    /// # Errors
    /// Memory was refused.
    pub(crate) fn new(
        alloc: Global,
        disk: KeptDisk<S, D>,
        file: &'a str,
        opener: O,
    ) -> Result<DiskInFile<'a, S, D, O>, AllocError>
        ensures disk { IfOk result (λ made. made.disk ≡ Ok disk) }
        ensures substitute { IfOk result (λ made.
            made.substitute.state.identity ≡ disk.target.state.identity) }
        ensures cycles { IfOk result (λ made. made.cycles.items ≡ []) }
    {
        let smallest = Config::new(1, 1, *disk.target.config().identity()).unwrap();
        Ok(DiskInFile {
            substitute: Target::new(alloc, smallest)?,
            disk: Ok(disk),
            cycles: Vec::new(alloc),
            file,
            opener,
        })
    }

    /// Closes the file and opens it again. A disk that did not come back stays away.
    fn power_cycle(&mut self)
        requires ready { IsReady D.seen D.may_leave self.old.disk }
        ensures ready { IsReady D.seen D.may_leave self.new.disk }
        ensures served { IsServing self.new.disk → IsServing self.old.disk }
        ensures away { IfErr self.old.disk (λ stop. self.new.disk ≡ Err stop) }
        ensures reopened { IfOk self.new.disk (λ kept. IsAlive kept → HasReopened D.seen D.opening
            (disk_in self.old.substitute self.old.disk) (disk_of kept.target)
            self.old.cycles.items self.new.cycles.items) }
    {
        let away = Err(Stop::CannotOpen(self.file));
        self.disk = match replace(&mut self.disk, away) {
            Ok(disk) => power_cycled(disk, &self.opener, self.file, &mut self.cycles),
            Err(stop) => Err(stop),
        };
    }
}

/// Writes all that waits to the file of a disk, closes the file and opens it again. A disk whose file fails
/// now, or has failed, is returned as it is: dead.
///
/// # Errors
/// The file was not opened again, or it has another disk.
fn power_cycled<'a, S: Store, D: Device + Drop, O: Opener<S, D>>(
    disk: KeptDisk<S, D>,
    opener: &O,
    file: &'a str,
    cycles: &mut Vec<PowerCycle<D>>,
) -> Result<KeptDisk<S, D>, Stop<'a>>
    requires usable { IsAlive disk → IsUsable D.seen D.may_leave disk }
    ensures usable { IfOk result (λ kept. IsAlive kept → IsUsable D.seen D.may_leave kept) }
    ensures alive { IfOk result (λ kept. IsAlive kept → IsAlive disk) }
    ensures cause { IsAlive disk → IfOk result (λ kept. IsDead kept
        → (D.failures disk.journal.device < D.failures kept.journal.device)
        ⊎ (longest_file < disk.journal.length)) }
    ensures reopened { IfOk result (λ kept. IsAlive kept → HasReopened D.seen D.opening
        (disk_of disk.target) (disk_of kept.target) cycles.old.items cycles.new.items) }
{
    let mut disk = disk;
    if let Err(DeviceError) = disk.flush() {
        return Ok(disk);
    }
    let options = DiskOptions::of(disk.target.config());
    let closed = Snapshot::of(&disk.journal.device);
    // While the file is open, its lock keeps everybody from opening it.
    drop(disk);
    reopened(opener, file, &options, closed, cycles)
}

/// The disk that a file keeps now, if it is still the disk that the options ask for.
///
/// # Errors
/// The file was not opened, or it has another disk.
fn reopened<'a, S: Store, D: Device + Drop, O: Opener<S, D>>(
    opener: &O,
    file: &'a str,
    options: &DiskOptions,
    closed: Snapshot<D>,
    cycles: &mut Vec<PowerCycle<D>>,
) -> Result<KeptDisk<S, D>, Stop<'a>>
    ensures started { IfOk result (HasStarted D.seen D.may_leave) }
    ensures agrees { IfOk result (λ disk.
        checked_against options.now (disk_of disk.target).state ≡ Ok tt) }
    ensures reopened { IfOk result (λ disk. (before : Armed)
        → opened (D.seen closed.value) ≡ Some (powered before) → HasReopened D.seen D.opening
        before (disk_of disk.target) cycles.old.items cycles.new.items) }
{
    let disk = opener.open(file)?;
    options.check(disk.target.config())?;
    let opened = Snapshot::of(&disk.journal.device);
    match cycles.push(PowerCycle { closed, opened }) {
        Ok(()) => Ok(disk),
        Err(_) => Err(Stop::OutOfMemory),
    }
}

/// It works while its file has not failed, and each opening has read what was written.
impl<'a, S: Store, D: Device + Drop, O> DeviceServer for DiskInFile<'a, S, D, O>
where
    O: Opener<S, D> + Drop,
{
    ghost disk = { λ d. disk_in d.substitute d.disk };

    ghost works = { λ d. IsServing d.disk × AreReadBack D.seen D.opening d.cycles.items };

    ghost is_ready = { λ d. IsReady D.seen D.may_leave d.disk };

    fn profile(&self) -> Profile {
        match &self.disk {
            Ok(kept) => kept.profile(),
            Err(_) => self.substitute.profile(),
        }
    }

    fn faults(&self) -> &[Option<ArmedFault>] {
        match &self.disk {
            Ok(kept) => kept.faults(),
            Err(_) => self.substitute.faults(),
        }
    }

    fn execute(
        &mut self,
        initiator: Initiator,
        cdb: &[u8],
        data_out: &[u8],
        buf: &mut [u8],
    ) -> Reply
        requires buffer { longest_data_in ≤ length buf.old }
        requires ready { IsReady D.seen D.may_leave self.old.disk }
        ensures executed { IsServing self.new.disk × AreReadBack D.seen D.opening self.new.cycles.items
            → IsExecuted initiator cdb.now data_out.now
            (disk_in self.old.substitute self.old.disk) (disk_in self.new.substitute self.new.disk)
            result buf.old buf.new }
        ensures data_in { result.data_in ≤ length buf.new }
        ensures worked { IsServing self.new.disk × AreReadBack D.seen D.opening self.new.cycles.items
            → IsServing self.old.disk × AreReadBack D.seen D.opening self.old.cycles.items }
        ensures ready { IsReady D.seen D.may_leave self.new.disk }

        // A disk that did not come back refuses each command.
        ensures away { IfErr self.old.disk (λ _. result ≡ failure_reply self.old.substitute.state) }
    {
        match &mut self.disk {
            Ok(kept) => kept.execute(initiator, cdb, data_out, buf),
            Err(_) => self.substitute.failure_reply(),
        }
    }

    fn happen(&mut self, happening: Happening)
        requires ready { IsReady D.seen D.may_leave self.old.disk }
        ensures happened { IsServing self.new.disk × AreReadBack D.seen D.opening self.new.cycles.items
            → disk_in self.new.substitute self.new.disk
            ≡ armed_after_happening (disk_in self.old.substitute self.old.disk) happening }
        ensures worked { IsServing self.new.disk × AreReadBack D.seen D.opening self.new.cycles.items
            → IsServing self.old.disk × AreReadBack D.seen D.opening self.old.cycles.items }
        ensures ready { IsReady D.seen D.may_leave self.new.disk }

        // After a power cycle the disk is the one that opening the file has found.
        ensures reopened { happening ≡ Power → IfOk self.new.disk (λ kept. IsAlive kept
            → HasReopened D.seen D.opening
            (disk_in self.old.substitute self.old.disk) (disk_of kept.target)
            self.old.cycles.items self.new.cycles.items) }
    {
        if let Happening::Power = happening {
            self.power_cycle();
            return;
        }
        if let Ok(kept) = &mut self.disk {
            // A disk whose file has failed stays dead.
            let _ = kept.happen(happening);
        }
    }
}

impl<'a, S: Store, D: Device + Drop, O> ScriptDisk for DiskInFile<'a, S, D, O>
where
    O: Opener<S, D> + Drop,
{
    fn has_failed(&self) -> bool
        ensures works { IsServing self.now.disk × AreReadBack D.seen D.opening self.now.cycles.items
            → result ≡ false }
        ensures served { result ≡ false → IsServing self.now.disk }
    {
        match &self.disk {
            Ok(kept) => kept.is_dead,
            Err(_) => true,
        }
    }
}
