// A list of records beside the table, with the index where they belong. This file visits no record
// and changes no table.
ghost use Rattle.std.specs.Prelude.{◌≡◌, ◌<◌, [], length, IfOk};
ghost use Rattle.sg_table.specs.Draft.{empty_draft, pushed};

use crate::ghost_number::GhostNumber;
use crate::run::Run;
use std::alloc::{AllocError, Global};
use std::marker::Model;

/// Records beside the table, with an index of it. The records were gathered from the index on, or
/// are to be put there.
#[derive(Drop)]
pub struct Draft {
    from: usize,
    records: Vec<Run>,
    room: GhostNumber,
}

impl Model for Draft {
    ghost use Rattle.std.specs.Prelude.{◌≤◌, vec_len, vec_capacity};
    ghost use Rattle.sg_table.specs.Draft.{Drafted};

    ghost Value = { Drafted };

    ghost view = { λ d. record { from = d.from; records = d.records.items; room = d.room.value } };

    ghost invariant = { λ d. (vec_len d.records ≤ d.room.value) × (d.room.value ≤ vec_capacity d.records) };
}

impl Draft {
    /// A draft without records, with room for `room` records.
    ///
    /// # Errors
    /// The allocator refused memory.
    pub fn new(alloc: Global, room: u32) -> Result<Draft, AllocError>
        ensures { IfOk result (λ draft. draft ≡ empty_draft room) }
    {
        Ok(Draft {
            from: 0,
            records: Vec::with_capacity(alloc, room as usize)?,
            room: GhostNumber::of(u64::from(room)),
        })
    }

    /// Begins again, at an index of the table.
    pub fn begin(&mut self, from: usize)
        ensures { self.new ≡ record self.old { from = from; records = [] } }
    {
        self.from = from;
        self.records.clear();
    }

    /// Removes all records.
    pub fn clear(&mut self)
        ensures { self.new ≡ empty_draft self.old.room }
    {
        self.from = 0;
        self.records.clear();
    }

    /// Appends a record.
    pub fn push(&mut self, run: Run)
        requires { length self.old.records < self.old.room }
        ensures { self.new ≡ pushed self.old run }
    {
        let pushed = self.records.push(run);
        prove!(pushed.is_ok());
        let _ = pushed;
    }

    /// The index of the first record that is to be replaced.
    pub fn from(&self) -> usize
        ensures { result ≡ self.now.from }
    {
        self.from
    }

    /// The records, in the order of their addresses.
    pub fn records(&self) -> &[Run]
        ensures { result.now ≡ self.now.records }
    {
        &self.records
    }
}
