// The disk of a file that C has read.
ghost use Rattle.std.specs.Prelude.{◌≡◌, [], IfErr, IfOk, Some};
ghost use Rattle.sg_kept.specs.Opened.{opened};
ghost use Rattle.sg_kept.specs.Opening.{HasStarted};
ghost use Rattle.sg_target.specs.Target.{disk_of};
ghost use Rattle.sg_embed.specs.FileDisk.{may_leave, seen};
ghost use Rattle.sg_embed.specs.Opening.{IsFound, IsMade, IsNotFound, IsNotMadeBy, IsNotOpened};
ghost use Rattle.sg_embed.specs.Opening.{IsOpened, IsTrueOfFile, fault_damage, fault_outcome};

use crate::file_disk::{FileDisk, QueuedDevice};
use crate::file_record::DamageRecord;
use crate::outcome::Outcome;
use crate::wanted::Wanted;
use sg_changes::NewDisk;
use sg_extent_map::ExtentMap;
use sg_journal::Journal;
use sg_kept::{KeptDisk, OpenDiskError};
use sg_queue::Contents;
use std::alloc::{AllocError, Global};

/// The reason why there is no disk in a file.
#[derive(Clone, Copy)]
pub(crate) enum OpenFault {
    /// Memory was refused, or no such disk can be made in an empty file, or the file's disk is not as asked
    /// for.
    Refused(Outcome),
    /// No disk can be read from the file.
    NotRead(OpenDiskError),
}

impl OpenFault {
    /// Its outcome for C.
    pub(crate) fn outcome(self) -> Outcome
        ensures { result ≡ fault_outcome self }
    {
        match self {
            OpenFault::Refused(outcome) => outcome,
            OpenFault::NotRead(error) => Outcome::of_opening(error),
        }
    }

    /// Where the file is damaged.
    pub(crate) fn damage(self) -> DamageRecord
        ensures { result ≡ fault_damage self }
    {
        match self {
            OpenFault::Refused(_) => DamageRecord::none(),
            OpenFault::NotRead(error) => DamageRecord::of(error),
        }
    }
}

impl From<AllocError> for OpenFault {
    ghost use Rattle.std.specs.Prelude.{◌≡◌};
    ghost use Rattle.sg_embed.specs.declared.opening.OpenFault.TheVariants.{Refused};
    ghost use Rattle.sg_embed.specs.declared.outcome.Outcome.TheVariants.{OutOfMemory};

    ghost from_gives = { λ _ fault. fault ≡ Refused OutOfMemory };

    fn from(_error: AllocError) -> Self {
        OpenFault::Refused(Outcome::OutOfMemory)
    }
}

/// A disk whose file was made or read.
type Opened = KeptDisk<ExtentMap, QueuedDevice>;

/// Opens the disk in a file. If the file is empty, the new disk is made that is asked for. If the file has a
/// disk, it has to be as asked for.
pub(crate) fn open_disk(alloc: Global, wanted: &Wanted, file: &[u8]) -> Result<FileDisk, OpenFault>
    ensures opened { IfOk result (IsOpened wanted.now file.now) }
    ensures refused { IfErr result (IsNotOpened wanted.now file.now) }
{
    let source = Contents::new(alloc, file)?;
    if file.is_empty() {
        let disk = make_disk(alloc, wanted, source)?;
        return Ok(FileDisk::new(disk, wanted.device));
    }
    let disk = find_disk(alloc, wanted, source)?;
    Ok(FileDisk::new(disk, wanted.device))
}

/// Makes the new disk that is asked for in an empty file.
fn make_disk(alloc: Global, wanted: &Wanted, source: Contents<'_>) -> Result<Opened, OpenFault>
    requires fresh { source.taken ≡ [] }
    requires is_empty { source.rest ≡ [] }
    ensures started { IfOk result (HasStarted seen may_leave) }
    ensures made { IfOk result (λ disk. IsMade wanted.now (disk_of disk.target)) }
    ensures not_made { IfErr result (IsNotMadeBy wanted.now) }
{
    let config = match wanted.config() {
        Ok(config) => config,
        Err(outcome) => return Err(OpenFault::Refused(outcome)),
    };
    let new = NewDisk::new(config.blocks(), config.pool(), *config.identity()).unwrap();
    match KeptDisk::make(alloc, Journal::unmade(source), &new) {
        Ok(disk) => Ok(disk),
        Err((error, _)) => Err(OpenFault::Refused(Outcome::of_making(error))),
    }
}

/// Reads the disk that a file has, and compares it with what is asked for.
fn find_disk(alloc: Global, wanted: &Wanted, source: Contents<'_>) -> Result<Opened, OpenFault>
    requires fresh { source.taken ≡ [] }
    ensures started { IfOk result (HasStarted seen may_leave) }
    ensures found { IfOk result (λ disk. IsFound wanted.now source.entry.rest (disk_of disk.target)) }
    ensures not_found { IfErr result (IsNotFound wanted.now source.entry.rest) }
{
    let disk = match read_disk(alloc, source) {
        Ok(disk) => disk,
        Err(error) => return Err(OpenFault::NotRead(error)),
    };
    match wanted.compare(disk.target.config()) {
        Ok(()) => Ok(disk),
        Err(outcome) => Err(OpenFault::Refused(outcome)),
    }
}

/// Reads the disk that a file has. Nothing is written.
fn read_disk(alloc: Global, source: Contents<'_>) -> Result<Opened, OpenDiskError>
    requires fresh { source.taken ≡ [] }
    ensures started { IfOk result (HasStarted seen may_leave) }
    ensures opened { IfOk result (λ disk. opened source.entry.rest ≡ Some (disk_of disk.target)) }
    ensures says { IfErr result (λ error. IsTrueOfFile error source.entry.rest) }
{
    match KeptDisk::open::<Contents<'_>>(alloc, source) {
        Ok(disk) => Ok(disk),
        Err((error, _)) => Err(error),
    }
}
