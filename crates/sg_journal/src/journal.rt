// A journal, which adds batches to the end of a file, or writes the file afresh.
ghost use Rattle.std.specs.Prelude.{◌≡◌, ◌⊎◌, ◌≤◌, ◌<◌, ◌+◌, ◌*◌, ◌^◌, ◌++◌, [], ◌∷◌, ℕ, List};
ghost use Rattle.std.specs.Prelude.{length, false};
ghost use Rattle.std.specs.Prelude.{OnOk, Ok};
ghost use Rattle.sg_journal.specs.Device.{HasCause, LeavesOnly};
ghost use Rattle.sg_journal.specs.Journal.{found, IsBeforeOrAfter};
ghost use Rattle.sg_journal.specs.Layout.{body_size};
ghost use Rattle.sg_journal.specs.JournalState.{Drafts, HasBatches, IsMade, has_waiting, written_end};
ghost use Rattle.sg_journal.specs.declared.journal.Tail.TheVariants.{Unmade};

use crate::batch::{seal, seal_with_room};
use crate::layout::{NEW_SECTOR, ROOM_AHEAD, body_size, write_first_sector, write_gate};
use crate::steps::overwrite;
use crate::writes::{
    begin_draft_with, close_and_exchange, cut_and_close, draft_batch, exchange_gate,
    write_gate_and_body,
};
use crate::{Batch, Device, DeviceError, Source};

/// What follows the batches of a file.
#[derive(Clone, Copy)]
pub(crate) enum Tail {
    /// The file has no bytes: it was not made yet.
    Unmade,
    /// Bytes that no batch has, or none.
    Torn,
    /// A closed gate, and then any bytes.
    Closed,
    /// A closed gate, and then batches that wait until it is opened.
    Waiting {
        /// The offset of the closed gate after them, in bytes.
        written: u64,
    },
}

/// A file of batches.
///
/// After an error of a call the journal is of no use: the file has to be opened again.
#[derive(Drop)]
pub struct Journal<D: Device> {
    /// The file. Only the journal may write to it: each contract requires that the file is as the
    /// journal left it.
    pub device: D,
    /// The length of the file's sectors, in bytes.
    pub sector: usize,
    /// The length of what counts in the file, in bytes: the first sector and the batches.
    pub end: u64,
    /// The length of the file, in bytes, with the batches that wait and the room after them.
    pub length: u64,
    /// The length of the draft, in bytes.
    pub drafted: u64,
    pub(crate) tail: Tail,
}

impl<D: Device> Journal<D> {
    /// The journal of a file of no bytes. It takes no memory and writes nothing: the first
    /// [`flush`](Journal::flush) makes the file, with sectors of 4,096 bytes.
    pub fn unmade<F: Source<Device = D>>(source: F) -> Journal<D>
        requires fresh { F.taken source ≡ [] }
        requires nothing { F.left source ≡ 0 }
        ensures batches { HasBatches D.seen D.may_leave result [] [] }
        ensures opening { D.opening result.device ≡ [] }
        ensures moment { D.moment result.device ≡ 0 }
        ensures sector { result.sector ≡ NEW_SECTOR }
        ensures end { result.end ≡ 0 }
        ensures length { result.length ≡ 0 }
    {
        Journal {
            device: source.into_device(),
            sector: NEW_SECTOR,
            end: 0,
            length: 0,
            drafted: 0,
            tail: Tail::Unmade,
        }
    }

    /// Adds a batch. At `Ok` it is acknowledged, with all batches that wait: from then on each crash leaves
    /// a file that has them.
    ///
    /// A file that was not made yet is made, and a torn end is repaired first.
    ///
    /// # Errors
    ///
    /// The device failed. The file has the batches from before, or the waiting ones and the new one too.
    pub fn flush(&mut self, batch: &mut Batch) -> Result<(), DeviceError>
        requires batches { (bs waiting : List (List ℕ)) ×
            HasBatches D.seen D.may_leave self.old bs waiting }
        requires sector { batch.old.sector ≡ self.old.sector }
        requires some { 0 < length batch.old.records }
        requires length { self.old.length ≤ 2 ^ 62 }

        ensures acknowledged { OnOk result ((bs waiting : List (List ℕ)) →
            HasBatches D.seen D.may_leave self.old bs waiting →
            HasBatches D.seen D.may_leave self.new (bs ++ (waiting ++ batch.old.records ∷ [])) []) }
        ensures end { OnOk result (self.new.end ≤ written_end self.old + 2 * self.old.sector
            + body_size self.old.sector (length batch.old.records)) }
        ensures length { OnOk result (self.new.length ≤ self.old.length + 3 * self.old.sector
            + body_size self.old.sector (length batch.old.records) + ROOM_AHEAD) }
        ensures made { OnOk result (IsMade self.new) }

        // A crash at any moment of the call leaves the batches from before it, or the waiting ones and the
        // new one too.
        ensures any_moment { (bs waiting : List (List ℕ)) →
            HasBatches D.seen D.may_leave self.old bs waiting →
            LeavesOnly D.moment D.left_since self.old.device self.new.device
            (IsBeforeOrAfter bs (waiting ++ batch.old.records ∷ [])) }
        ensures cause { HasCause (D.failures self.old.device) (D.failures self.new.device) result }

        ensures batch { batch.new ≡ batch.old }
        ensures sector { self.new.sector ≡ self.old.sector }
        ensures opening { D.opening self.new.device ≡ D.opening self.old.device }
    {
        if let Tail::Unmade = self.tail {
            return self.make(batch);
        }
        self.write(batch)?;
        self.commit(batch)
    }

    /// Writes a batch, which waits then. It counts only after a [`commit`](Journal::commit) or a
    /// [`flush`](Journal::flush), with all others that wait.
    ///
    /// The file has to be made already. A torn end is repaired first.
    ///
    /// # Errors
    ///
    /// The device failed. The file has the batches from before.
    pub fn write(&mut self, batch: &mut Batch) -> Result<(), DeviceError>
        requires batches { (bs waiting : List (List ℕ)) ×
            HasBatches D.seen D.may_leave self.old bs waiting }
        requires made { IsMade self.old }
        requires sector { batch.old.sector ≡ self.old.sector }
        requires length { self.old.length ≤ 2 ^ 62 }

        ensures waits { OnOk result ((bs waiting : List (List ℕ)) →
            HasBatches D.seen D.may_leave self.old bs waiting →
            HasBatches D.seen D.may_leave self.new bs (waiting ++ batch.old.records ∷ [])) }
        ensures written { OnOk result (written_end self.new ≡ written_end self.old + self.old.sector
            + body_size self.old.sector (length batch.old.records)) }
        ensures length { OnOk result (self.new.length ≤ self.old.length + 2 * self.old.sector
            + body_size self.old.sector (length batch.old.records) + ROOM_AHEAD) }
        ensures made { OnOk result (IsMade self.new) }

        // A crash at any moment of the call leaves the batches from before it, and none that waits.
        ensures any_moment { (bs waiting : List (List ℕ)) →
            HasBatches D.seen D.may_leave self.old bs waiting →
            LeavesOnly D.moment D.left_since self.old.device self.new.device
            (λ c. found c ≡ Ok bs) }
        ensures cause { HasCause (D.failures self.old.device) (D.failures self.new.device) result }

        ensures batch { batch.new ≡ batch.old }
        ensures sector { self.new.sector ≡ self.old.sector }
        ensures end { self.new.end ≡ self.old.end }
        ensures opening { D.opening self.new.device ≡ D.opening self.old.device }
    {
        self.close(batch)?;
        match self.tail {
            Tail::Waiting { written } => self.add_next(batch, written),
            Tail::Unmade | Tail::Torn | Tail::Closed => self.add_first(batch),
        }
    }

    /// Whether batches wait in the file, which count only once they are committed.
    pub fn has_waiting(&self) -> bool
        ensures { result ≡ has_waiting self.now }
    {
        matches!(self.tail, Tail::Waiting { .. })
    }

    /// Acknowledges all batches that wait: from then on each crash leaves a file that has them. If none
    /// waits, nothing is done. The call borrows the batch's memory, and keeps its records.
    ///
    /// # Errors
    ///
    /// The device failed. The file has the batches from before, or the waiting ones too.
    pub fn commit(&mut self, batch: &mut Batch) -> Result<(), DeviceError>
        requires batches { (bs waiting : List (List ℕ)) ×
            HasBatches D.seen D.may_leave self.old bs waiting }
        requires sector { batch.old.sector ≡ self.old.sector }

        ensures acknowledged { OnOk result ((bs waiting : List (List ℕ)) →
            HasBatches D.seen D.may_leave self.old bs waiting →
            HasBatches D.seen D.may_leave self.new (bs ++ waiting) []) }
        ensures end { self.new.end ≡ written_end self.old }
        ensures length { self.new.length ≡ self.old.length }
        ensures waiting { has_waiting self.new ≡ false }
        ensures made { IsMade self.old → IsMade self.new }

        // A crash at any moment of the call leaves the batches from before it, or the waiting ones too.
        ensures any_moment { (bs waiting : List (List ℕ)) →
            HasBatches D.seen D.may_leave self.old bs waiting →
            LeavesOnly D.moment D.left_since self.old.device self.new.device
            (IsBeforeOrAfter bs waiting) }
        ensures cause { HasCause (D.failures self.old.device) (D.failures self.new.device) result }

        ensures batch { batch.new ≡ batch.old }
        ensures sector { self.new.sector ≡ self.old.sector }
        ensures opening { D.opening self.new.device ≡ D.opening self.old.device }
    {
        let Tail::Waiting { written } = self.tail else {
            return Ok(());
        };
        let at = self.end;
        write_gate(&mut batch.gate, 1);
        self.end = written;
        self.tail = Tail::Closed;
        exchange_gate(&mut self.device, at, &batch.gate)
    }

    /// Begins to write the file afresh, in a draft beside it. The draft takes the place of the batches that
    /// wait, too. The call borrows the batch's memory, and keeps its records.
    ///
    /// # Errors
    ///
    /// The device failed. The file is as it was.
    pub fn begin_rewrite(&mut self, batch: &mut Batch) -> Result<(), DeviceError>
        requires batches { (bs waiting : List (List ℕ)) ×
            HasBatches D.seen D.may_leave self.old bs waiting }
        requires sector { batch.old.sector ≡ self.old.sector }

        ensures begun { OnOk result ((bs waiting : List (List ℕ)) →
            HasBatches D.seen D.may_leave self.old bs waiting →
            Drafts D.seen D.may_leave D.draft self.new bs []) }
        ensures drafted { self.new.drafted ≡ self.old.sector }

        // A crash at any moment of the call leaves the batches from before it.
        ensures any_moment { (bs waiting : List (List ℕ)) →
            HasBatches D.seen D.may_leave self.old bs waiting →
            LeavesOnly D.moment D.left_since self.old.device self.new.device
            (λ c. found c ≡ Ok bs) }
        ensures cause { HasCause (D.failures self.old.device) (D.failures self.new.device) result }

        ensures batch { batch.new ≡ batch.old }
        ensures sector { self.new.sector ≡ self.old.sector }
        ensures waiting { has_waiting self.new ≡ has_waiting self.old }
        ensures end { self.new.end ≡ self.old.end }
        ensures length { self.new.length ≡ self.old.length }
        ensures opening { D.opening self.new.device ≡ D.opening self.old.device }
    {
        write_first_sector(&mut batch.gate);
        self.drafted = self.sector as u64;
        begin_draft_with(&mut self.device, &batch.gate)
    }

    /// Adds a batch to the draft.
    ///
    /// # Errors
    ///
    /// The device failed. The file is as it was.
    pub fn rewrite(&mut self, batch: &mut Batch) -> Result<(), DeviceError>
        requires drafts { (bs drafted : List (List ℕ)) ×
            Drafts D.seen D.may_leave D.draft self.old bs drafted }
        requires sector { batch.old.sector ≡ self.old.sector }
        requires room { self.old.drafted ≤ 2 ^ 62 }

        ensures added { OnOk result ((bs drafted : List (List ℕ)) →
            Drafts D.seen D.may_leave D.draft self.old bs drafted →
            Drafts D.seen D.may_leave D.draft self.new bs (drafted ++ batch.old.records ∷ [])) }
        ensures drafted { self.new.drafted ≡ self.old.drafted + self.old.sector
            + body_size self.old.sector (length batch.old.records) }
        ensures at_most { self.new.drafted ≤ self.old.drafted + 2 ^ 23 }

        // A crash at any moment of the call leaves the batches from before the draft.
        ensures any_moment { (bs drafted : List (List ℕ)) →
            Drafts D.seen D.may_leave D.draft self.old bs drafted →
            LeavesOnly D.moment D.left_since self.old.device self.new.device
            (λ c. found c ≡ Ok bs) }
        ensures cause { HasCause (D.failures self.old.device) (D.failures self.new.device) result }

        ensures batch { batch.new ≡ batch.old }
        ensures sector { self.new.sector ≡ self.old.sector }
        ensures waiting { has_waiting self.new ≡ has_waiting self.old }
        ensures end { self.new.end ≡ self.old.end }
        ensures length { self.new.length ≡ self.old.length }
        ensures opening { D.opening self.new.device ≡ D.opening self.old.device }
    {
        let size = seal(&mut batch.body, self.sector, batch.len);
        write_gate(&mut batch.gate, 1);
        self.drafted += size as u64;
        draft_batch(
            &mut self.device,
            &batch.gate,
            &batch.body[..size - self.sector],
        )
    }

    /// Puts the draft in the place of the file. The call borrows the batch's memory, and keeps its
    /// records.
    ///
    /// # Errors
    ///
    /// The device failed. The file has the batches from before the draft, or the batches of the
    /// draft.
    pub fn finish_rewrite(&mut self, batch: &mut Batch) -> Result<(), DeviceError>
        requires drafts { (bs drafted : List (List ℕ)) ×
            Drafts D.seen D.may_leave D.draft self.old bs drafted }
        requires sector { batch.old.sector ≡ self.old.sector }
        requires room { self.old.drafted ≤ 2 ^ 63 }

        ensures exchanged { OnOk result ((bs drafted : List (List ℕ)) →
            Drafts D.seen D.may_leave D.draft self.old bs drafted →
            HasBatches D.seen D.may_leave self.new drafted []) }
        ensures end { self.new.end ≡ self.old.drafted }
        ensures length { self.new.length ≡ self.old.drafted + self.old.sector }
        ensures made { IsMade self.new }

        // A crash at any moment of the call leaves the batches from before the draft, or the batches
        // of the draft.
        ensures any_moment { (bs drafted : List (List ℕ)) →
            Drafts D.seen D.may_leave D.draft self.old bs drafted →
            LeavesOnly D.moment D.left_since self.old.device self.new.device
            (λ c. (found c ≡ Ok bs) ⊎ (found c ≡ Ok drafted)) }
        ensures cause { HasCause (D.failures self.old.device) (D.failures self.new.device) result }

        ensures batch { batch.new ≡ batch.old }
        ensures sector { self.new.sector ≡ self.old.sector }
        ensures opening { D.opening self.new.device ≡ D.opening self.old.device }
    {
        write_gate(&mut batch.gate, 0);
        self.end = self.drafted;
        self.length = self.drafted + self.sector as u64;
        self.tail = Tail::Closed;
        close_and_exchange(&mut self.device, &batch.gate)
    }

    /// Makes the file, with a first batch.
    fn make(&mut self, batch: &mut Batch) -> Result<(), DeviceError>
        requires batches { (bs waiting : List (List ℕ)) ×
            HasBatches D.seen D.may_leave self.old bs waiting }
        requires sector { batch.old.sector ≡ self.old.sector }
        requires unmade { self.old.tail ≡ Unmade }
        ensures acknowledged { OnOk result ((bs waiting : List (List ℕ)) →
            HasBatches D.seen D.may_leave self.old bs waiting →
            HasBatches D.seen D.may_leave self.new (bs ++ (waiting ++ batch.old.records ∷ [])) []) }
        ensures end { OnOk result (self.new.end
            ≡ 2 * self.old.sector + body_size self.old.sector (length batch.old.records)) }
        ensures length { OnOk result (self.new.length ≡ self.new.end + self.old.sector) }
        ensures made { OnOk result (IsMade self.new) }
        ensures any_moment { (bs waiting : List (List ℕ)) →
            HasBatches D.seen D.may_leave self.old bs waiting →
            LeavesOnly D.moment D.left_since self.old.device self.new.device
            (IsBeforeOrAfter bs (waiting ++ batch.old.records ∷ [])) }
        ensures cause { HasCause (D.failures self.old.device) (D.failures self.new.device) result }
        ensures batch { batch.new ≡ batch.old }
        ensures sector { self.new.sector ≡ self.old.sector }
        ensures opening { D.opening self.new.device ≡ D.opening self.old.device }
    {
        self.begin_rewrite(batch)?;
        self.rewrite(batch)?;
        self.finish_rewrite(batch)
    }
}
