// The calls that give a disk in a file: one makes the file, and one opens it.
ghost use Rattle.std.specs.Prelude.{◌≡◌, ◌≤◌, ◌<◌, ◌+◌, ◌^◌, ℕ, List, [], ◌∷◌, length, true, IfErr, IfOk};
ghost use Rattle.std.specs.Prelude.{IsErrOf, OnOk, Some};
ghost use Rattle.sg_journal.specs.Reading.{HasEnded, HasFound, IsFaulty, WasRead};
ghost use Rattle.sg_journal.specs.declared.fault.Fault.{Fault as JournalFault};
ghost use Rattle.sg_journal.specs.declared.reader.OpenError.TheVariants.{File as FileFaulty};
ghost use Rattle.sg_journal.specs.declared.reader.OpenError.TheVariants.{Device as ReadingFailed};
ghost use Rattle.sg_changes.specs.FirstRecord.{first_record, first_record_length, is_new_disk};
ghost use Rattle.sg_changes.specs.FirstRecord.{new_disk_kept};
ghost use Rattle.sg_changes.specs.Laws.{IsSound};
ghost use Rattle.sg_journal.specs.Device.{HasCause, LeavesOnly};
ghost use Rattle.sg_journal.specs.Journal.{IsBeforeOrAfter};
ghost use Rattle.sg_journal.specs.JournalState.{HasBatches};
ghost use Rattle.sg_journal.specs.Layout.{is_sector_length};
ghost use Rattle.sg_target.specs.State.{IsWithinLimits};
ghost use Rattle.sg_target.specs.Target.{disk_of};
ghost use Rattle.sg_kept.specs.Disk.{longest_file};
ghost use Rattle.sg_kept.specs.Kept.{restored};
ghost use Rattle.sg_kept.specs.Opened.{IsBeforeOr, batch_count, begun, opened};
ghost use Rattle.sg_kept.specs.Opening.{HasRead, HasStarted, IsSteady, new_disk_of};
ghost use Rattle.sg_kept.specs.Recording.{longest_write};
ghost use Rattle.sg_kept.specs.Refused.{IsNoDisk, IsOfBytes, IsTrueOf, IsTrueOfFirst};
ghost use Rattle.sg_kept.specs.declared.opening.MakeError.TheVariants.{Memory as MemoryRefused};
ghost use Rattle.sg_kept.specs.declared.opening.MakeError.TheVariants.{Device as MakingFailed};
ghost use Rattle.sg_kept.specs.declared.opening.OpenDiskError.TheVariants.{Device as DeviceFailed};

use crate::disk::LONGEST_FILE;
use crate::{BatchSink, KeptDisk};
use sg_changes::laws::{first_records_are_exact, kept_stays_sound};
use sg_changes::{KeptParts, NewDisk};
use sg_journal::{Batch, Device, DeviceError, Fault, Journal, OpenError, Reader, Source};
use sg_store::Store;
use sg_target::{BUFFER_LENGTH, Config, Target};
use std::alloc::{AllocError, Global};
use thiserror::Error;

/// The reason why a disk was not made.
#[derive(Clone, Copy, Debug, Error, PartialEq, Eq)]
pub enum MakeError {
    /// Memory was refused. Nothing was written.
    #[error("memory was refused")]
    Memory,
    /// The device failed.
    #[error("the device failed")]
    Device,
}

/// The reason why a disk was not opened.
#[derive(Clone, Copy, Debug, Error, PartialEq, Eq)]
pub enum OpenDiskError {
    /// Memory was refused.
    #[error("memory was refused")]
    Memory,
    /// The device failed.
    #[error("the device failed")]
    Device,
    /// The file is no journal.
    #[error("{0}")]
    File(Fault),
    /// The file has no batch: it was not made yet.
    #[error("the file was not made yet")]
    Unmade,
    /// A record cannot be read, or its change does not apply.
    #[error("the record at byte {offset} of batch {batch} is damaged")]
    Damaged {
        /// The number of its batch. The first is 0.
        batch: u64,
        /// The offset of the record in the records of its batch, in bytes.
        offset: usize,
    },
    /// The file is longer than 2^60 bytes.
    #[error("the file is longer than 2^60 bytes")]
    TooLong,
}

impl From<AllocError> for OpenDiskError {
    ghost use Rattle.std.specs.Prelude.{◌≡◌};
    ghost use Rattle.sg_kept.specs.declared.opening.OpenDiskError.TheVariants.{Memory};

    ghost from_gives = { λ _ e. e ≡ Memory };

    fn from(_: AllocError) -> Self {
        OpenDiskError::Memory
    }
}

/// What a file keeps of a disk, and the memory that the disk works in.
struct Made<S: Store> {
    parts: KeptParts<S>,
    batch: Batch,
    scratch: Vec<u8>,
}

/// Takes the memory of a new disk, whose file has sectors of this length.
fn new_parts<S: Store>(alloc: Global, disk: &NewDisk, sector: usize) -> Result<Made<S>, AllocError>
    requires sector { is_sector_length sector ≡ true }
    ensures parts { IfOk result (λ made. made.parts ≡ new_disk_kept disk.now) }
    ensures sector { IfOk result (λ made. made.batch.sector ≡ sector) }
    ensures empty { IfOk result (λ made. made.batch.records ≡ []) }
    ensures scratch { IfOk result (λ made. length made.scratch.items ≡ longest_write) }
{
    let parts = KeptParts::new(alloc, disk)?;
    let batch = Batch::new(alloc, sector)?;
    let scratch = vec![in alloc; 0; BUFFER_LENGTH]?;
    Ok(Made {
        parts,
        batch,
        scratch,
    })
}

/// The target that has these parts, after power on.
fn target_of<S: Store>(parts: KeptParts<S>) -> Target<S>
    requires new { is_new_disk (new_disk_of parts) ≡ true }
    requires sound { IsSound parts }
    ensures disk { disk_of result ≡ restored parts }
    ensures limits { IsWithinLimits result.state }
{
    let config = Config::new(parts.capacity, parts.pool, parts.identity).unwrap();
    let pages = parts.pages();
    Target::restored(config, parts.store, pages, parts.reservations, parts.faults)
}

/// Adds the first record to an empty batch.
pub(crate) fn add_first(batch: &mut BatchSink, disk: &NewDisk)
    requires empty { batch.old.records ≡ [] }
    ensures records { batch.new ≡ record batch.old { records = first_record.bytes disk.now } }
    ensures begun { begun batch.new.records ≡ Some (new_disk_kept disk.now) }
    ensures new { is_new_disk disk.now ≡ true }
    ensures at_most { length batch.new.records ≤ first_record_length }
{
    first_records_are_exact();
    disk.write(batch);
}

/// Writes the first batch to a file that has none. The batch is empty after it.
fn write_first<D: Device>(
    journal: &mut Journal<D>,
    batch: &mut BatchSink,
) -> Result<(), DeviceError>
    requires batches { HasBatches D.seen D.may_leave journal.old [] [] }
    requires length { journal.old.length ≤ longest_file }
    requires sector { batch.old.sector ≡ journal.old.sector }
    requires some { 0 < length batch.old.records }
    ensures batches { OnOk result (HasBatches D.seen D.may_leave journal.new
        (batch.old.records ∷ []) []) }
    ensures any_moment { LeavesOnly D.moment D.left_since journal.old.device journal.new.device
        (IsBeforeOrAfter [] (batch.old.records ∷ [])) }
    ensures cause { HasCause (D.failures journal.old.device) (D.failures journal.new.device) result }
    ensures sector { batch.new.sector ≡ journal.new.sector }
    ensures empty { OnOk result (batch.new.records ≡ []) }
{
    journal.flush(&mut batch.batch)?;
    batch.batch.clear();
    Ok(())
}

/// Writes the first batch of a new disk, which has these parts.
fn begin_file<S: Store, D: Device + Drop>(
    made: Made<S>,
    journal: Journal<D>,
    disk: &NewDisk,
) -> Result<KeptDisk<S, D>, (MakeError, Journal<D>)>
    requires batches { HasBatches D.seen D.may_leave journal [] [] }
    requires length { journal.length ≤ longest_file }
    requires parts { made.parts ≡ new_disk_kept disk.now }
    requires sector { made.batch.sector ≡ journal.sector }
    requires empty { made.batch.records ≡ [] }
    requires scratch { length made.scratch.items ≡ longest_write }
    ensures started { IfOk result (HasStarted D.seen D.may_leave) }
    ensures compacts { IfOk result (λ disk. disk.compacts ≡ true) }
    ensures disk { IfOk result (λ made. disk_of made.target ≡ restored (new_disk_kept disk.now)) }
    ensures batches { IfOk result (λ made. made.found_batches ≡ 0) }
    ensures any_moment { IfOk result (λ made. LeavesOnly D.moment D.left_since
        journal.device made.journal.device
        (IsBeforeOr (D.seen journal.device) (restored (new_disk_kept disk.now)))) }
    ensures any_moment_of_error { IfErr result (λ e. LeavesOnly D.moment D.left_since
        journal.device e.1.device
        (IsBeforeOr (D.seen journal.device) (restored (new_disk_kept disk.now)))) }
    ensures failed { IfErr result (λ e. e.0 ≡ MakingFailed) }
    ensures cause { IfErr result (λ e. D.failures journal.device < D.failures e.1.device) }
{
    kept_stays_sound();
    let Made {
        parts,
        batch,
        scratch,
    } = made;
    let mut batch = BatchSink { batch };
    let mut journal = journal;
    add_first(&mut batch, disk);
    let target = target_of(parts);
    match write_first(&mut journal, &mut batch) {
        Ok(()) => Ok(KeptDisk {
            target,
            journal,
            batch,
            is_dead: false,
            compacts: true,
            scratch,
            found_batches: 0,
        }),
        Err(DeviceError) => Err((MakeError::Device, journal)),
    }
}

/// The error of a file that its reader has named.
fn error_of_file(error: OpenError) -> OpenDiskError
    ensures says { (taken : List ℕ) (left : ℕ)
        → ((fault : JournalFault) → error ≡ FileFaulty fault → IsFaulty taken left fault)
        → IsTrueOf result taken left }
    ensures device { result ≡ DeviceFailed → error ≡ ReadingFailed }
{
    match error {
        OpenError::Device => OpenDiskError::Device,
        OpenError::File(fault) => OpenDiskError::File(fault),
    }
}

/// The parts that a first batch leaves.
fn begin<S: Store>(alloc: Global, first: &[u8]) -> Result<KeptParts<S>, OpenDiskError>
    ensures begun { IfOk result (λ parts. begun first.now ≡ Some parts) }
    ensures steady { IfOk result IsSteady }
    ensures says { IfErr result (IsTrueOfFirst first.now) }
{
    kept_stays_sound();
    let Some((disk, rest)) = NewDisk::read(first) else {
        return Err(OpenDiskError::Damaged {
            batch: 0,
            offset: 0,
        });
    };
    let mut parts = KeptParts::new(alloc, &disk)?;
    match parts.replay(rest) {
        Ok(()) => Ok(parts),
        Err(damaged) => Err(OpenDiskError::Damaged {
            batch: 0,
            offset: damaged.record.saturating_add(NewDisk::RECORD_LENGTH),
        }),
    }
}

/// Replays the other batches of a file, one after another. One was read already. Returns how many the
/// file has.
fn replay_rest<F: Source + Drop, S: Store>(
    reader: &mut Reader<F>,
    batch: &mut Batch,
    parts: &mut KeptParts<S>,
) -> Result<u64, OpenDiskError>
    requires read { HasRead F.taken F.left reader.old 1 parts.old }
    requires room { 1 + F.left reader.old.source < 2 ^ 64 }
    requires steady { IsSteady parts.old }
    requires sector { batch.old.sector ≡ reader.old.sector }
    ensures ended { OnOk result (HasEnded reader.new) }
    ensures read { IfOk result (λ number. HasRead F.taken F.left reader.new number parts.new) }
    ensures steady { OnOk result (IsSteady parts.new) }
    ensures says { IfErr result (λ e. IsTrueOf e (F.taken reader.new.source) (F.left reader.new.source)) }
    ensures known { F.known reader.new.source ≡ F.known reader.old.source }
    ensures later { F.failures reader.old.source ≤ F.failures reader.new.source }
    ensures cause { IsErrOf result DeviceFailed →
        F.failures reader.old.source < F.failures reader.new.source }
    ensures sector { batch.new.sector ≡ reader.new.sector }
{
    kept_stays_sound();
    let mut number: u64 = 1;
    loop {
        match reader.next(batch) {
            Ok(true) => {}
            Ok(false) => return Ok(number),
            Err(error) => return Err(error_of_file(error)),
        }
        if let Err(damaged) = parts.replay(batch.records()) {
            return Err(OpenDiskError::Damaged {
                batch: number,
                offset: damaged.record,
            });
        }
        number += 1;
    }
}

/// Reads all batches of a file, and replays them. Returns how many there are, too.
fn read_parts<F: Source + Drop, S: Store>(
    alloc: Global,
    reader: &mut Reader<F>,
    batch: &mut Batch,
) -> Result<(KeptParts<S>, u64), OpenDiskError>
    requires found { HasFound F.taken F.left reader.old [] }
    requires sector { batch.old.sector ≡ reader.old.sector }
    ensures ended { OnOk result (HasEnded reader.new) }
    ensures read { IfOk result (λ r. HasRead F.taken F.left reader.new r.1 r.0) }
    ensures steady { IfOk result (λ r. IsSteady r.0) }
    ensures says { IfErr result (λ e. IsTrueOf e (F.taken reader.new.source) (F.left reader.new.source)) }
    ensures known { F.known reader.new.source ≡ F.known reader.old.source }
    ensures later { F.failures reader.old.source ≤ F.failures reader.new.source }
    ensures cause { IsErrOf result DeviceFailed →
        F.failures reader.old.source < F.failures reader.new.source }
    ensures sector { batch.new.sector ≡ reader.new.sector }
{
    match reader.next(batch) {
        Ok(true) => {}
        Ok(false) => return Err(OpenDiskError::Unmade),
        Err(error) => return Err(error_of_file(error)),
    }
    let mut parts = begin(alloc, batch.records())?;
    let batches = replay_rest(reader, batch, &mut parts)?;
    Ok((parts, batches))
}

/// Takes the memory of a disk, and reads its file to the end of the batches. Returns how many there are,
/// too.
fn read_disk<F: Source + Drop, S: Store>(
    alloc: Global,
    reader: &mut Reader<F>,
) -> Result<(Made<S>, u64), OpenDiskError>
    requires found { HasFound F.taken F.left reader.old [] }
    ensures ended { OnOk result (HasEnded reader.new) }
    ensures read { IfOk result (λ r. HasRead F.taken F.left reader.new r.1 r.0.parts) }
    ensures steady { IfOk result (λ r. IsSteady r.0.parts) }
    ensures says { IfErr result (λ e. IsTrueOf e (F.taken reader.new.source) (F.left reader.new.source)) }
    ensures known { F.known reader.new.source ≡ F.known reader.old.source }
    ensures later { F.failures reader.old.source ≤ F.failures reader.new.source }
    ensures cause { IsErrOf result DeviceFailed →
        F.failures reader.old.source < F.failures reader.new.source }
    ensures sector { IfOk result (λ r. r.0.batch.sector ≡ reader.new.sector) }
    ensures scratch { IfOk result (λ r. length r.0.scratch.items ≡ longest_write) }
{
    let mut batch = Batch::new(alloc, reader.sector)?;
    let scratch = vec![in alloc; 0; BUFFER_LENGTH]?;
    let (parts, batches) = read_parts(alloc, reader, &mut batch)?;
    let made = Made {
        parts,
        batch,
        scratch,
    };
    Ok((made, batches))
}

impl<S: Store, D: Device + Drop> KeptDisk<S, D> {
    /// Makes a disk, and its file. All memory is taken before the file is written.
    ///
    /// # Errors
    /// Memory was refused, or the device failed. The journal is returned with the error.
    pub fn make(
        alloc: Global,
        journal: Journal<D>,
        disk: &NewDisk,
    ) -> Result<KeptDisk<S, D>, (MakeError, Journal<D>)>
        requires batches { HasBatches D.seen D.may_leave journal [] [] }
        requires length { journal.length ≤ longest_file }
        ensures started { IfOk result (HasStarted D.seen D.may_leave) }
        // It writes the file afresh if that gets long.
        ensures compacts { IfOk result (λ disk. disk.compacts ≡ true) }
        ensures disk { IfOk result (λ made. disk_of made.target ≡ restored (new_disk_kept disk.now)) }
        ensures batches { IfOk result (λ made. made.found_batches ≡ 0) }

        // A crash at any moment leaves a file without a disk, as it was, or the new disk.
        ensures any_moment { IfOk result (λ made. LeavesOnly D.moment D.left_since
            journal.device made.journal.device
            (IsBeforeOr (D.seen journal.device) (restored (new_disk_kept disk.now)))) }
        ensures any_moment_of_error { IfErr result (λ e. LeavesOnly D.moment D.left_since
            journal.device e.1.device
            (IsBeforeOr (D.seen journal.device) (restored (new_disk_kept disk.now)))) }

        // If memory was refused, nothing was written.
        ensures memory { IfErr result (λ e. e.0 ≡ MemoryRefused → e.1 ≡ journal) }
        ensures cause { IfErr result (λ e. e.0 ≡ MakingFailed →
            D.failures journal.device < D.failures e.1.device) }
    {
        match new_parts(alloc, disk, journal.sector) {
            Ok(made) => begin_file(made, journal, disk),
            Err(AllocError) => Err((MakeError::Memory, journal)),
        }
    }

    /// Opens the file of a disk. Nothing is written.
    ///
    /// # Errors
    /// Memory was refused, the device failed, or the file is not one of a disk. The source is returned
    /// with the error.
    pub fn open<F: Source<Device = D> + Drop>(
        alloc: Global,
        source: F,
    ) -> Result<KeptDisk<S, D>, (OpenDiskError, F)>
        requires fresh { F.taken source ≡ [] }
        ensures started { IfOk result (HasStarted D.seen D.may_leave) }
        // It writes the file afresh if that gets long.
        ensures compacts { IfOk result (λ disk. disk.compacts ≡ true) }
        ensures opened { IfOk result (λ disk. opened (D.opening disk.journal.device)
            ≡ Some (disk_of disk.target)) }
        // The file was read to its end.
        ensures read { IfOk result (λ disk.
            WasRead F.known F.taken F.left source (D.opening disk.journal.device)) }
        ensures short { IfOk result (λ _. F.left source ≤ longest_file) }
        ensures batches { IfOk result (λ disk.
            batch_count (D.opening disk.journal.device) ≡ Some disk.found_batches) }

        // An error says what is true of the file, whatever is still to be read of it.
        ensures says { IfErr result (λ e. IsTrueOf e.0 (F.taken e.1) (F.left e.1)) }
        ensures known { IfErr result (λ e. F.known e.1 ≡ F.known source) }
        // A file that stands for a disk is refused only for its length, or if memory or the device fails.
        ensures refused { IfErr result (λ e. IsOfBytes e.0 → IsNoDisk (F.taken e.1) (F.left e.1)) }
        ensures cause { IfErr result (λ e. e.0 ≡ DeviceFailed → F.failures source < F.failures e.1) }
    {
        if source.left() > LONGEST_FILE {
            return Err((OpenDiskError::TooLong, source));
        }
        let mut reader = match Reader::open(source) {
            Ok(reader) => reader,
            Err((error, source)) => return Err((error_of_file(error), source)),
        };
        let (made, found_batches) = match read_disk(alloc, &mut reader) {
            Ok(disk) => disk,
            Err(error) => return Err((error, reader.source)),
        };
        let Made {
            parts,
            mut batch,
            scratch,
        } = made;
        let journal = match reader.into_journal() {
            Ok(journal) => journal,
            Err((DeviceError, source)) => return Err((OpenDiskError::Device, source)),
        };
        batch.clear();
        Ok(KeptDisk {
            target: target_of(parts),
            journal,
            batch: BatchSink { batch },
            is_dead: false,
            compacts: true,
            scratch,
            found_batches,
        })
    }
}
