// A few records in a row, which move together. A leaf knows no other leaf, and it counts nothing.
ghost use Rattle.std.specs.Prelude.{◌≡◌, ◌+◌, ◌-◌, ◌<◌, ◌≤◌, [], length, slice_index_or};
ghost use Rattle.std.specs.List.{splice};
ghost use Rattle.sg_table.specs.Leaves.{rotated_left, rotated_right};
ghost use Rattle.sg_table.specs.Records.{start_of};

use crate::run::Run;
use arrayvec::ArrayVec;
use std::marker::Model;

/// The most records of a leaf.
pub(crate) const MAX_LEAF: usize = 255;

/// Some of the records of a table, in a row.
#[derive(Drop)]
pub(crate) struct Leaf {
    records: ArrayVec<Run, MAX_LEAF>,
}

impl Model for Leaf {
    ghost use Rattle.std.specs.Prelude.{List};
    ghost use Rattle.sg_table.specs.declared.run.Run.{Run};

    ghost Value = { List Run };

    ghost view = { λ leaf. leaf.records.items };
}

impl Leaf {
    /// A leaf without records.
    pub(crate) fn new() -> Leaf
        ensures { result ≡ [] }
    {
        Leaf {
            records: ArrayVec::new(),
        }
    }

    /// The number of records.
    pub(crate) fn len(&self) -> usize
        ensures value { result ≡ length self.now }
        ensures fits { result ≤ MAX_LEAF }
    {
        self.records.len()
    }

    /// The records.
    pub(crate) fn records(&self) -> &[Run]
        ensures value { result.now ≡ self.now }
        ensures fits { length result.now ≤ MAX_LEAF }
    {
        self.records.as_slice()
    }

    /// The record at an offset.
    pub(crate) fn record(&self, offset: usize) -> Run
        requires { offset < length self.now }
        ensures { slice_index_or self.now offset result ≡ result }
    {
        self.records.as_slice()[offset]
    }

    /// The address of the first record, or 0 if there is no record.
    pub(crate) fn start(&self) -> u64
        ensures { result ≡ start_of self.now 0 }
    {
        match self.records.as_slice().first() {
            Some(run) => run.start,
            None => 0,
        }
    }

    /// Removes all records.
    pub(crate) fn clear(&mut self)
        ensures { self.new ≡ [] }
    {
        self.records.clear();
    }

    /// Replaces the records from one offset to another.
    pub(crate) fn splice(&mut self, from: usize, to: usize, runs: &[Run])
        requires range { (from ≤ to) × (to ≤ length self.old) }
        requires room { length self.old + length runs.now ≤ MAX_LEAF + (to - from) }
        ensures { self.new ≡ splice self.old from to runs.now }
    {
        let left = self.records.len() - (to - from);
        rotate_left(self.records.as_mut_slice(), from, to - from);
        self.records.truncate(left);
        let extended = self.records.try_extend_from_slice(runs);
        prove!(extended.is_ok());
        let _ = extended;
        rotate_right(self.records.as_mut_slice(), from, runs.len());
    }
}

/// Moves the first `count` of the records from an index on to the end.
fn rotate_left(records: &mut [Run], from: usize, count: usize)
    requires { from + count ≤ length records.old }
    ensures { records.new ≡ rotated_left records.old from count }
{
    records[from..].rotate_left(count);
}

/// Moves the last `count` records to an index.
fn rotate_right(records: &mut [Run], from: usize, count: usize)
    requires { from + count ≤ length records.old }
    ensures { records.new ≡ rotated_right records.old from count }
{
    records[from..].rotate_right(count);
}
