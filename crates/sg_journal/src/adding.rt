// How a journal writes a batch behind a closed gate.
ghost use Rattle.std.specs.Prelude.{◌≡◌, ◌≤◌, ◌+◌, ◌^◌, ◌++◌, [], ◌∷◌, ℕ, List, length, OnOk, Ok};
ghost use Rattle.sg_journal.specs.Device.{HasCause, LeavesOnly};
ghost use Rattle.sg_journal.specs.Journal.{found};
ghost use Rattle.sg_journal.specs.Layout.{body_size};
ghost use Rattle.sg_journal.specs.JournalState.{EndsAtGate, HasBatches, IsMade, written_end};
ghost use Rattle.sg_journal.specs.declared.journal.Tail.TheVariants.{Torn, Closed, Waiting};

use crate::batch::seal_with_room;
use crate::journal::Tail;
use crate::layout::{ROOM_AHEAD, body_size, write_gate};
use crate::steps::overwrite;
use crate::writes::{cut_and_close, write_gate_and_body};
use crate::{Batch, Device, DeviceError, Journal};

impl<D: Device> Journal<D> {
    /// Sees to it that a file that was made has a closed gate after its batches.
    pub(crate) fn close(&mut self, batch: &mut Batch) -> Result<(), DeviceError>
        requires batches { (bs waiting : List (List ℕ)) ×
            HasBatches D.seen D.may_leave self.old bs waiting }
        requires sector { batch.old.sector ≡ self.old.sector }
        requires made { IsMade self.old }
        requires length { self.old.length ≤ 2 ^ 62 }
        ensures closed { OnOk result ((bs waiting : List (List ℕ)) →
            HasBatches D.seen D.may_leave self.old bs waiting →
            HasBatches D.seen D.may_leave self.new bs waiting) }
        ensures any_moment { (bs waiting : List (List ℕ)) →
            HasBatches D.seen D.may_leave self.old bs waiting →
            LeavesOnly D.moment D.left_since self.old.device self.new.device
            (λ c. found c ≡ Ok bs) }
        ensures cause { HasCause (D.failures self.old.device) (D.failures self.new.device) result }
        ensures gate { EndsAtGate self.new.tail }
        ensures written { written_end self.new ≡ written_end self.old }
        ensures length { self.new.length ≤ self.old.length + self.old.sector }
        ensures batch { batch.new ≡ batch.old }
        ensures sector { self.new.sector ≡ self.old.sector }
        ensures end { self.new.end ≡ self.old.end }
        ensures opening { D.opening self.new.device ≡ D.opening self.old.device }
    {
        if let Tail::Torn = self.tail {
            return self.repair(batch);
        }
        Ok(())
    }

    /// Cuts off all bytes after the last batch, and writes a closed gate there.
    fn repair(&mut self, batch: &mut Batch) -> Result<(), DeviceError>
        requires batches { (bs waiting : List (List ℕ)) ×
            HasBatches D.seen D.may_leave self.old bs waiting }
        requires sector { batch.old.sector ≡ self.old.sector }
        requires torn { self.old.tail ≡ Torn }
        requires length { self.old.length ≤ 2 ^ 62 }
        ensures repaired { OnOk result ((bs waiting : List (List ℕ)) →
            HasBatches D.seen D.may_leave self.old bs waiting →
            HasBatches D.seen D.may_leave self.new bs waiting) }
        ensures any_moment { (bs waiting : List (List ℕ)) →
            HasBatches D.seen D.may_leave self.old bs waiting →
            LeavesOnly D.moment D.left_since self.old.device self.new.device
            (λ c. found c ≡ Ok bs) }
        ensures cause { HasCause (D.failures self.old.device) (D.failures self.new.device) result }
        ensures closed { self.new.tail ≡ Closed }
        ensures length { self.new.length ≡ self.old.end + self.old.sector }
        ensures batch { batch.new ≡ batch.old }
        ensures sector { self.new.sector ≡ self.old.sector }
        ensures end { self.new.end ≡ self.old.end }
        ensures opening { D.opening self.new.device ≡ D.opening self.old.device }
    {
        write_gate(&mut batch.gate, 0);
        self.length = self.end + self.sector as u64;
        self.tail = Tail::Closed;
        cut_and_close(&mut self.device, self.end, &batch.gate)
    }

    /// The bytes that a write from an offset on has at least. `len` bytes that would make the file longer get
    /// room after them.
    fn least(&self, at: u64, len: usize) -> usize
        ensures { result ≤ ROOM_AHEAD }
    {
        if at.saturating_add(len as u64) <= self.length {
            0
        } else {
            ROOM_AHEAD
        }
    }

    /// Writes the first batch that waits after a closed gate.
    pub(crate) fn add_first(&mut self, batch: &mut Batch) -> Result<(), DeviceError>
        requires batches { (bs waiting : List (List ℕ)) ×
            HasBatches D.seen D.may_leave self.old bs waiting }
        requires sector { batch.old.sector ≡ self.old.sector }
        requires closed { self.old.tail ≡ Closed }
        requires length { self.old.length ≤ 2 ^ 63 }
        ensures waits { OnOk result ((bs waiting : List (List ℕ)) →
            HasBatches D.seen D.may_leave self.old bs waiting →
            HasBatches D.seen D.may_leave self.new bs (waiting ++ batch.old.records ∷ [])) }
        ensures written { OnOk result (written_end self.new ≡ written_end self.old + self.old.sector
            + body_size self.old.sector (length batch.old.records)) }
        ensures length { self.new.length ≤ self.old.length + self.old.sector
            + body_size self.old.sector (length batch.old.records) + ROOM_AHEAD }
        ensures made { IsMade self.new }
        ensures any_moment { (bs waiting : List (List ℕ)) →
            HasBatches D.seen D.may_leave self.old bs waiting →
            LeavesOnly D.moment D.left_since self.old.device self.new.device
            (λ c. found c ≡ Ok bs) }
        ensures cause { HasCause (D.failures self.old.device) (D.failures self.new.device) result }
        ensures batch { batch.new ≡ batch.old }
        ensures sector { self.new.sector ≡ self.old.sector }
        ensures end { self.new.end ≡ self.old.end }
        ensures opening { D.opening self.new.device ≡ D.opening self.old.device }
    {
        let size = body_size(self.sector, batch.len);
        let at = self.end + self.sector as u64;
        let least = self.least(at, size + self.sector);
        let total = seal_with_room(&mut batch.body, self.sector, batch.len, least);
        self.length = self.length.max(at + total as u64);
        self.tail = Tail::Waiting {
            written: at + size as u64,
        };
        overwrite(&mut self.device, at, &batch.body[..total])
    }

    /// Writes one more batch that waits, after the others. Their closed gate is at `written`.
    pub(crate) fn add_next(&mut self, batch: &mut Batch, written: u64) -> Result<(), DeviceError>
        requires batches { (bs waiting : List (List ℕ)) ×
            HasBatches D.seen D.may_leave self.old bs waiting }
        requires sector { batch.old.sector ≡ self.old.sector }
        requires tail { self.old.tail ≡ Waiting written }
        requires length { self.old.length ≤ 2 ^ 63 }
        ensures waits { OnOk result ((bs waiting : List (List ℕ)) →
            HasBatches D.seen D.may_leave self.old bs waiting →
            HasBatches D.seen D.may_leave self.new bs (waiting ++ batch.old.records ∷ [])) }
        ensures written { OnOk result (written_end self.new ≡ written_end self.old + self.old.sector
            + body_size self.old.sector (length batch.old.records)) }
        ensures length { self.new.length ≤ self.old.length + self.old.sector
            + body_size self.old.sector (length batch.old.records) + ROOM_AHEAD }
        ensures made { IsMade self.new }
        ensures any_moment { (bs waiting : List (List ℕ)) →
            HasBatches D.seen D.may_leave self.old bs waiting →
            LeavesOnly D.moment D.left_since self.old.device self.new.device
            (λ c. found c ≡ Ok bs) }
        ensures cause { HasCause (D.failures self.old.device) (D.failures self.new.device) result }
        ensures batch { batch.new ≡ batch.old }
        ensures sector { self.new.sector ≡ self.old.sector }
        ensures end { self.new.end ≡ self.old.end }
        ensures opening { D.opening self.new.device ≡ D.opening self.old.device }
    {
        let size = body_size(self.sector, batch.len);
        let at = written + self.sector as u64;
        let least = self.least(at, size + self.sector);
        let total = seal_with_room(&mut batch.body, self.sector, batch.len, least);
        write_gate(&mut batch.gate, 1);
        self.length = self.length.max(at + total as u64);
        self.tail = Tail::Waiting {
            written: at + size as u64,
        };
        write_gate_and_body(&mut self.device, written, &batch.gate, &batch.body[..total])
    }
}
