// A run of a script, and the outcome that it has to have.
use crate::ends::{Pace, Pieces, Sink};
use sg_pages::Identity;
use sg_plain_map::PlainMap;
use sg_run::{RunFault, Session, run_script};
use sg_target::{BUFFER_LENGTH, Config, Status, Target};
use sg_wire::{Initiator, Watched};
use std::alloc::{AllocError, Global};
use std::io::Read;

/// The session that serves all runs, and the buffer of replies.
#[derive(Drop)]
pub(crate) struct Bench {
    alloc: Global,
    session: Session,
    buf: [u8; BUFFER_LENGTH],
}

/// The outcome of a run.
#[derive(Drop)]
pub(crate) struct Outcome {
    result: Result<u8, RunFault>,
    printed: Vec<u8>,
    sent: usize,
    reads: usize,
    calls_after: usize,
}

/// The outcome that a run has to have.
#[derive(Clone, Copy)]
pub(crate) struct Wanted<'a> {
    pub(crate) result: Result<u8, RunFault>,
    pub(crate) text: &'a [u8],
    /// The number of the first initiators that have sent a command, so that they have no unit
    /// attention.
    pub(crate) sent: usize,
    /// The number of calls of the reader, if it is known.
    pub(crate) reads: Option<usize>,
}

impl Outcome {
    /// Whether the outcome is as wanted, and no call came after one that failed.
    pub(crate) fn is(&self, wanted: Wanted) -> bool {
        let are_reads = match wanted.reads {
            Some(reads) => self.reads == reads,
            None => true,
        };
        self.result == wanted.result
            && self.printed.as_slice() == wanted.text
            && self.sent == wanted.sent
            && are_reads
            && self.calls_after == 0
    }
}

impl Bench {
    pub(crate) fn new(alloc: Global) -> Result<Bench, AllocError> {
        Ok(Bench {
            alloc,
            session: Session::new(alloc)?,
            buf: [0; BUFFER_LENGTH],
        })
    }

    /// Runs a script on a new disk.
    pub(crate) fn run(
        &mut self,
        script: &[u8],
        reads: Pace,
        writes: Pace,
    ) -> Result<Outcome, AllocError> {
        let mut pieces = Pieces::new(script, reads);
        let mut outcome = self.run_from(&mut pieces, writes)?;
        outcome.reads = pieces.pace.calls;
        outcome.calls_after = outcome.calls_after.saturating_add(pieces.pace.calls_after);
        Ok(outcome)
    }

    /// Runs the bytes that a reader delivers on a new disk. The calls of the reader are not
    /// counted.
    pub(crate) fn run_from<R: Read>(
        &mut self,
        reader: &mut R,
        writes: Pace,
    ) -> Result<Outcome, AllocError> {
        let mut target = new_target(self.alloc)?;
        let mut sink = Sink::new(self.alloc, writes);
        let mut watched = Watched::new(reader);
        let mut writer = Watched::new(&mut sink);
        let session = &mut self.session;
        let result = run_script(self.alloc, &mut watched, &mut writer, session, &mut target);
        let sent = self.count_sent(&mut target);
        let Sink { held, pace } = sink;
        Ok(Outcome {
            result,
            printed: held,
            sent,
            reads: 0,
            calls_after: pace.calls_after,
        })
    }

    /// Counts the first initiators that have sent a command, as TEST UNIT READY from each shows.
    fn count_sent(&mut self, target: &mut Target<PlainMap>) -> usize {
        let mut sent = 0;
        for number in 0..8 {
            if let Some(initiator) = Initiator::new(number) {
                let reply = target.execute(initiator, &[0; 6], &[], &mut self.buf);
                if reply.status != Status::Good {
                    return sent;
                }
                sent = usize::from(number).saturating_add(1);
            }
        }
        sent
    }
}

/// A disk of 4,096 blocks with a pool of 4.
fn new_target(alloc: Global) -> Result<Target<PlainMap>, AllocError> {
    let config = Config::new(4_096, 4, Identity::standard()).unwrap();
    Target::new(alloc, config)
}

/// The number of runs, and how many of them had the outcome that they have to have.
#[derive(Clone, Copy, Default)]
pub(crate) struct Tally {
    pub(crate) runs: u64,
    pub(crate) as_expected: u64,
}

impl Tally {
    pub(crate) fn count(&mut self, is_wanted: bool) {
        self.runs = self.runs.saturating_add(1);
        self.as_expected = self.as_expected.saturating_add(u64::from(is_wanted));
    }

    pub(crate) fn plus(self, other: Tally) -> Tally {
        Tally {
            runs: self.runs.saturating_add(other.runs),
            as_expected: self.as_expected.saturating_add(other.as_expected),
        }
    }
}
