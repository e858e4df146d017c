// A record of calls that only proofs read. It takes no bytes, and its functions do nothing at run
// time.
ghost use Rattle.std.specs.Prelude.{◌≡◌, List, [], ◌∷◌};
ghost use Rattle.std.specs.Borrow.{ftrue};
ghost use Rattle.sg_journal.specs.Record.{Event, event_of};

use std::marker::{Model, PhantomData};

/// The calls that a device made, the newest first.
#[derive(Drop)]
pub struct Record {
    marker: PhantomData<u8>,
    pub ghost events: { List Event },
}

impl Model for Record {
    ghost also_owns = { λ _. ftrue };
}

// It has no bytes, and owns nothing.
unsafe impl Send for Record {}

impl Record {
    /// No calls.
    pub fn new() -> Record
        ensures { result.events ≡ [] }
    {
        Record {
            marker: PhantomData,
        }
    }

    /// Notes a call: its kind, an offset or a length, and 1 if it succeeded.
    pub fn note(&mut self, _numbers: &[u64], _bytes: &[u8])
        ensures { self.new.events ≡ event_of _numbers.now _bytes.now ∷ self.old.events }
    {}
}
