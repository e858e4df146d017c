// A record of the table: addresses in a row. This file knows no order, and it knows only the
// numbers of the slots.
ghost use Rattle.std.specs.Prelude.{◌≡◌, ◌^◌, ◌<◌, ◌≤◌, length};
ghost use Rattle.sg_table.specs.Records.{FitCounts, count_if_data, data_in, run_at, single};

/// The kind of a run: data in the slots of its addresses, or none.
#[derive(Clone, Copy, Default, PartialEq)]
pub enum Kind {
    /// Data.
    #[default]
    Data,
    /// No data: no call reads the bytes of the slots.
    Anchored,
}

/// A record: addresses in a row that have one kind, and the chain of slots that belongs to them.
#[derive(Clone, Copy, Default, PartialEq)]
pub struct Run {
    /// The first address.
    pub start: u64,
    /// The number of addresses.
    pub count: u32,
    /// The slot of the first address.
    pub first: u32,
    /// The slot of the last address.
    pub last: u32,
    /// The kind of its addresses.
    pub kind: Kind,
}

impl Run {
    /// A run of one address.
    pub fn single(start: u64, slot: u32, kind: Kind) -> Run
        ensures { result ≡ single start slot kind }
    {
        Run {
            start,
            count: 1,
            first: slot,
            last: slot,
            kind,
        }
    }

    /// The number of its addresses that have data.
    fn data_count(self) -> u64
        ensures value { result ≡ count_if_data self.kind self.count }
        ensures fits { result ≤ u32.MAX }
    {
        match self.kind {
            Kind::Data => u64::from(self.count),
            Kind::Anchored => 0,
        }
    }
}

/// A record, if it begins at an address.
pub fn run_at(next: Option<Run>, start: u64) -> Option<Run>
    ensures { result ≡ run_at next start }
{
    let run = next?;
    if run.start == start { Some(run) } else { None }
}

/// The number of addresses of records that have data.
pub(crate) fn data_count(records: &[Run]) -> u64
    requires { length records.now < 2 ^ 32 }
    ensures value { result ≡ data_in records.now }
    ensures short { FitCounts records.now }
{
    let mut count = 0;
    for run in records {
        count += run.data_count();
    }
    count
}
