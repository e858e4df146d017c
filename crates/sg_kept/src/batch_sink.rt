// A batch as a sink of records.
ghost use Rattle.std.specs.Prelude.{◌≡◌, ◌≤◌, ◌+◌, ◌-◌, ◌∷◌, [], length, true};
ghost use Rattle.sg_changes.specs.Borrowed.{HasWholeBlocks, change_of, room_for};
ghost use Rattle.sg_journal.specs.declared.layout.TheConstants.{MAX_BATCH};
ghost use Rattle.sg_kept.specs.Recording.{Adds, HasRoom};

use sg_changes::{Change, Sink};
use sg_journal::{Batch, MAX_BATCH};
use std::marker::Model;

/// A batch of a journal that takes the records of changes.
#[derive(Drop)]
pub struct BatchSink {
    /// The batch.
    pub batch: Batch,
}

impl Model for BatchSink {
    ghost use Rattle.sg_journal.specs.BatchValue.{BatchValue};

    ghost Value = { BatchValue };

    ghost view = { λ s. s.batch };
}

impl Sink for BatchSink {
    // The sector length stands before the records, so that a call of a sink leaves it as it is.
    ghost contents = { λ s. s.sector ∷ s.records };

    ghost room = { λ s. MAX_BATCH - length s.records };

    fn push(&mut self, bytes: &[u8]) {
        // Its contract says that the records are within the limit.
        let _ = self.batch.room();
        self.batch.push(bytes);
    }
}

/// The room that the changes of a command need at most, in bytes.
const LONGEST_CHANGES: usize = 1_051_878;

impl BatchSink {
    /// Returns `true` if there is room for the changes of a command.
    pub(crate) fn has_room(&self) -> bool
        ensures { result ≡ true → HasRoom self.now }
    {
        self.batch.room() >= LONGEST_CHANGES
    }

    /// Drops all records.
    pub(crate) fn clear(&mut self)
        ensures { self.new ≡ record self.old { records = [] } }
    {
        self.batch.clear();
    }

    /// Adds the record of a change.
    pub fn add(&mut self, change: &Change<'_>)
        requires room { length self.old.records + room_for (change_of change.now) ≤ MAX_BATCH }
        requires whole { HasWholeBlocks (change_of change.now) }
        ensures record { Adds self.old self.new (change_of change.now ∷ []) }
        ensures at_most { length self.new.records
            ≤ length self.old.records + room_for (change_of change.now) }
    {
        change.write(self);
    }
}
