// Opening: a file is read once, batch by batch, and nothing is written.
ghost use Rattle.std.specs.Prelude.{◌≡◌, ◌≤◌, ◌<◌, ◌+◌, ◌++◌, [], ◌∷◌, ℕ, List, length};
ghost use Rattle.std.specs.Prelude.{IfOk, IfErr, OnOk, IsErrOf, IsTrue, IsFalse, Ok};
ghost use Rattle.std.specs.Prelude.{is_some, true};
ghost use Rattle.sg_journal.specs.Device.{HasCause};
ghost use Rattle.sg_journal.specs.Journal.{found};
ghost use Rattle.sg_journal.specs.Reading.{HasEnded, HasFound, IsFaulty, IsHonest, WasRead};
ghost use Rattle.sg_journal.specs.JournalState.{HasBatches};
ghost use Rattle.sg_journal.specs.declared.fault.Fault.{Fault};
ghost use Rattle.sg_journal.specs.declared.reader.OpenError.TheVariants.{Device, File};

use crate::journal::Tail;
use crate::layout::{NEW_SECTOR, body_size};
use crate::read::{Next, read_batch, read_first_sector, skip};
use crate::{Batch, DeviceError, Fault, Journal, Source};
use thiserror::Error;

/// The reason why a file was not opened.
#[derive(Clone, Copy, Debug, Error, PartialEq, Eq)]
pub enum OpenError {
    /// The device failed.
    #[error("the device failed")]
    Device,
    /// The file is no journal.
    #[error("{0}")]
    File(Fault),
}

impl From<DeviceError> for OpenError {
    ghost use Rattle.std.specs.Prelude.{◌≡◌};
    ghost use Rattle.sg_journal.specs.declared.reader.OpenError.TheVariants.{Device};

    ghost from_gives = { λ _ e. e ≡ Device };

    fn from(_: DeviceError) -> Self {
        OpenError::Device
    }
}

/// A file that is being read. Its batches come one after the other.
#[derive(Drop)]
pub struct Reader<F: Source + Drop> {
    /// The file.
    pub source: F,
    /// The length of the file's sectors, in bytes.
    pub sector: usize,
    /// The length of what counts in the file so far, in bytes.
    pub end: u64,
    /// The length of the file, in bytes.
    pub length: u64,
    pub(crate) ended: Option<Tail>,
}

impl<F: Source + Drop> Reader<F> {
    /// Reads the first sector of a file that was not read yet. A file of no bytes is a journal that
    /// was not made yet: its sectors have 4,096 bytes.
    ///
    /// # Errors
    ///
    /// The device failed, or the file is no journal, whatever its other bytes are.
    pub fn open(source: F) -> Result<Reader<F>, (OpenError, F)>
        requires fresh { F.taken source ≡ [] }
        ensures found { IfOk result (λ reader. HasFound F.taken F.left reader []) }
        ensures new { F.left source ≡ 0 → IfOk result (λ reader. reader.sector ≡ NEW_SECTOR) }
        ensures known { IfOk result (λ reader. F.known reader.source ≡ F.known source) }
        ensures later { IfOk result (λ reader. F.failures source ≤ F.failures reader.source) }
        ensures fault { IfErr result (λ e. (fault : Fault) → e.0 ≡ File fault →
            IsFaulty (F.taken e.1) (F.left e.1) fault) }
        ensures known_of_error { IfErr result (λ e. F.known e.1 ≡ F.known source) }
        ensures cause { IfErr result (λ e. e.0 ≡ Device → F.failures source < F.failures e.1) }
    {
        let mut source = source;
        let length = source.left();
        match read_first_sector(&mut source) {
            Ok(None) => Ok(Reader {
                source,
                sector: NEW_SECTOR,
                end: 0,
                length,
                ended: Some(Tail::Unmade),
            }),
            Ok(Some(sector)) => Ok(Reader {
                source,
                sector,
                end: sector as u64,
                length,
                ended: None,
            }),
            Err(error) => Err((error, source)),
        }
    }

    /// Reads the next batch that counts. Returns whether there is one.
    ///
    /// # Errors
    ///
    /// The device failed, or the batch is damaged, whatever follows it.
    pub fn next(&mut self, batch: &mut Batch) -> Result<bool, OpenError>
        requires found { (bs : List (List ℕ)) × HasFound F.taken F.left self.old bs }
        requires sector { batch.old.sector ≡ self.old.sector }

        ensures more { IfOk result (λ more. IsTrue more → (bs : List (List ℕ)) →
            HasFound F.taken F.left self.old bs →
            HasFound F.taken F.left self.new (bs ++ batch.new.records ∷ [])) }
        ensures ended { IfOk result (λ more. IsFalse more → (bs : List (List ℕ)) →
            HasFound F.taken F.left self.old bs →
            HasFound F.taken F.left self.new bs × HasEnded self.new) }
        ensures less { IfOk result (λ more. IsTrue more →
            F.left self.new.source < F.left self.old.source) }
        ensures fault { (fault : Fault) → IsErrOf result (File fault) →
            IsFaulty (F.taken self.new.source) (F.left self.new.source) fault }
        ensures known { F.known self.new.source ≡ F.known self.old.source }
        ensures honest { IsHonest (F.failures self.old.source) (F.failures self.new.source) result }

        ensures batch { batch.new.sector ≡ batch.old.sector }
        ensures sector { self.new.sector ≡ self.old.sector }
    {
        if self.ended.is_some() {
            return Ok(false);
        }
        match read_batch(&mut self.source, self.end, &mut batch.gate, &mut batch.body)? {
            Next::Batch(len) => {
                self.end += (self.sector + body_size(self.sector, len)) as u64;
                batch.len = len;
                Ok(true)
            }
            Next::End(tail) => {
                self.ended = Some(tail);
                Ok(false)
            }
        }
    }

    /// Reads the rest of the file, which no batch has, and makes the journal. Nothing is written.
    ///
    /// # Errors
    ///
    /// The device failed.
    pub fn into_journal(self) -> Result<Journal<F::Device>, (DeviceError, F)>
        requires ended { HasEnded self }
        requires found { (bs : List (List ℕ)) × HasFound F.taken F.left self bs }
        ensures batches { IfOk result (λ j. (bs : List (List ℕ)) → HasFound F.taken F.left self bs →
            HasBatches F.Device.seen F.Device.may_leave j bs []) }
        ensures opening { IfOk result (λ j. F.Device.seen j.device ≡ F.Device.opening j.device) }
        ensures found { IfOk result (λ j. (bs : List (List ℕ)) → HasFound F.taken F.left self bs →
            found (F.Device.opening j.device) ≡ Ok bs) }
        ensures all { IfOk result (λ j.
            WasRead F.known F.taken F.left self.source (F.Device.opening j.device)) }
        ensures moment { IfOk result (λ j. F.Device.moment j.device ≡ 0) }
        ensures sector { IfOk result (λ j. j.sector ≡ self.sector) }
        ensures end { IfOk result (λ j. j.end ≡ self.end) }
        ensures length { IfOk result (λ j. j.length ≡ self.length) }
        ensures known_of_error { IfErr result (λ e. F.known e.1 ≡ F.known self.source) }
        ensures cause { IfErr result (λ e. F.failures self.source < F.failures e.1) }
    {
        let mut source = self.source;
        let left = source.left();
        match skip(&mut source, left) {
            Ok(()) => Ok(Journal {
                device: source.into_device(),
                sector: self.sector,
                end: self.end,
                length: self.length,
                drafted: 0,
                tail: self.ended.unwrap_or(Tail::Torn),
            }),
            Err(error) => Err((error, source)),
        }
    }
}
