// A sink that keeps the replies that it takes, up to a number of them.
use sg_store::Counts;
use sg_target::{Reply, Sink, Status};
use std::alloc::{AllocError, Global};
use std::marker::Model;
use std::process::Abort;

/// A reply that was taken, with its data-in.
#[derive(Drop)]
pub(super) struct Entry {
    pub(super) status: Status,
    pub(super) sense: Vec<u8>,
    pub(super) size: usize,
    pub(super) asked: u64,
    pub(super) counts: Counts,
    pub(super) data_in: Vec<u8>,
}

impl Model for Entry {
    ghost use Rattle.sg_target.specs.Runs.{Exchange};

    ghost Value = { Exchange };

    ghost view = { λ e. record {
      reply = record {
        status = e.status;
        sense = e.sense.items;
        data_in = e.size;
        data_out = e.asked;
        counts = e.counts;
      };
      data_in = e.data_in.items;
    } };
}

ghost use Rattle.std.specs.Prelude.{◌≡◌, ◌++◌, ◌∷◌, [], IfOk, OnOk, OnErr};
ghost use Rattle.sg_target.specs.Runs.{exchange};

impl Entry {
    fn new(alloc: Global, reply: &Reply, data_in: &[u8]) -> Result<Entry, AllocError>
        ensures { IfOk result (λ entry. entry ≡ exchange reply.now data_in.now) }
    {
        Ok(Entry {
            status: reply.status,
            sense: reply.sense.as_slice().to_vec(alloc)?,
            size: reply.data_in,
            asked: reply.data_out,
            counts: reply.counts,
            data_in: data_in.to_vec(alloc)?,
        })
    }
}

/// A reply was refused.
#[derive(Drop)]
pub(super) struct Refused;

/// Takes at most `most` replies.
#[derive(Drop)]
pub(super) struct Log<'a, A: Abort> {
    pub(super) rt: &'a A,
    pub(super) alloc: Global,
    pub(super) entries: Vec<Entry>,
    pub(super) most: usize,
    pub(super) refusals: u64,
}

impl<'a, A: Abort> Log<'a, A> {
    pub(super) fn new(rt: &'a A, alloc: Global, most: usize) -> Log<'a, A> {
        Log {
            rt,
            alloc,
            entries: Vec::new(alloc),
            most,
            refusals: 0,
        }
    }

    /// Keeps a reply, if there is memory for it.
    fn keep(&mut self, reply: &Reply, data_in: &[u8]) -> Result<(), AllocError>
        ensures kept { OnOk result (self.new.entries.items
            ≡ self.old.entries.items ++ exchange reply.now data_in.now ∷ []) }
        ensures lost { OnErr result (self.new.entries.items ≡ self.old.entries.items) }
        ensures refusals { self.new.refusals ≡ self.old.refusals }
    {
        let entry = Entry::new(self.alloc, reply, data_in)?;
        self.entries.push(entry)?;
        Ok(())
    }
}

impl<'a, A: Abort> Sink for Log<'a, A> {
    type Fault = Refused;

    ghost fields = { λ log. record { taken = log.entries.items; refused = log.refusals } };

    fn take(&mut self, reply: &Reply, data_in: &[u8]) -> Result<(), Refused> {
        if self.entries.len() < self.most && self.keep(reply, data_in).is_ok() {
            return Ok(());
        }
        self.refusals = self.refusals.checked_add(1).expect(self.rt, "refusals");
        Err(Refused)
    }
}
