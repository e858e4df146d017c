// Going through the table from an index on, one visit for each record. This file knows addresses,
// and no slots.
ghost use Rattle.std.specs.Prelude.{◌≡◌, ◌-◌, ◌<◌, ◌≤◌, length, min};
ghost use Rattle.sg_table.specs.Records.{IsNext, ahead, end_of_gap};
ghost use Rattle.sg_table.specs.Table.{visited};

use crate::run::Run;
use crate::table::RunTable;

/// An index of the table, with the record there.
#[derive(Clone, Copy)]
pub struct Cursor {
    pub index: usize,
    /// None at the end of the table.
    pub next: Option<Run>,
}

impl Cursor {
    /// Visits the record at an index, if there is one.
    pub fn new(table: &mut RunTable, index: usize) -> Cursor
        requires index { index ≤ length table.old.records }
        requires headroom { table.old.visits < u64.MAX }
        ensures index { result.index ≡ index }
        ensures next { IsNext table.old.records index result.next }
        ensures table { table.new ≡ visited table.old (ahead result.next) }
    {
        let mut next = None;
        if index < table.count() {
            next = Some(table.visit(index));
        }
        Cursor { index, next }
    }

    /// The number of addresses from one on that have no record, up to the cursor's or to a bound,
    /// and at most `limit`.
    pub fn count_unmapped(self, address: u64, bound: u64, limit: u32) -> u32
        requires { address ≤ end_of_gap self.next bound }
        ensures { result ≡ min limit (end_of_gap self.next bound - address) }
    {
        let end = match self.next {
            Some(run) => run.start,
            None => bound,
        };
        u64::from(limit).min(end - address) as u32
    }
}
