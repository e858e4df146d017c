// A file whose calls wait.
use crate::call::{CallKind, QueuedCall};
use crate::queue::{Queue, TooShort};
use sg_file::SystemFile;
use sg_journal::{DeviceError, Record};
use std::alloc::{AllocError, Global};
use std::marker::Model;

/// A file whose calls wait, until [`next_call`](QueuedFile::next_call) hands them out.
///
/// The calls of the file are, in this order, the calls that were handed out, the calls that wait, and the
/// calls that were refused because there was no memory. So no call is lost, and none changes its place. If
/// the program makes each call as soon as it takes it, the real file has had all calls once none waits.
/// After the file has refused a call, it refuses each later one.
#[derive(Drop)]
pub struct QueuedFile {
    queue: Queue,
    made: Record,
    failed: bool,
    refused: Record,
}

impl Model for QueuedFile {
    ghost use Rattle.std.specs.Prelude.{◌≡◌, [], false};
    ghost use Rattle.sg_file.specs.Calls.{calls};
    ghost use Rattle.sg_queue.specs.Moments.{AreWrites};
    ghost use Rattle.sg_queue.specs.QueueFields.{QueueFields};

    ghost Value = { QueueFields };

    ghost view = { λ f. record {
      waiting = f.queue;
      made = calls f.made.events;
      refused = calls f.refused.events;
    } };

    ghost invariant = { λ f. (f.failed ≡ false → calls f.refused.events ≡ [])
        × AreWrites (calls f.refused.events) };
}

ghost use Rattle.std.specs.Prelude.{◌≡◌, ◌∷◌, [], true, length, IfOk, is_ok};
ghost use Rattle.sg_file.specs.Calls.{bytes_of};
ghost use Rattle.sg_file.specs.Calls.Call.{Read};
ghost use Rattle.sg_queue.specs.QueueFields.{all_calls, has_any, no_calls};
ghost use Rattle.sg_queue.specs.QueuedCall.{call_of_kind};
ghost use Rattle.sg_queue.specs.NextCall.{HandsOut};
ghost use Rattle.sg_queue.specs.Moments.{IsRead};

impl QueuedFile {
    /// A file with no calls. It takes all memory for the calls of the longest flush.
    ///
    /// # Errors
    /// Memory was refused.
    pub fn new(alloc: Global) -> Result<QueuedFile, AllocError>
        ensures { IfOk result (λ file. file ≡ no_calls) }
    {
        Ok(QueuedFile {
            queue: Queue::new(alloc)?,
            made: Record::new(),
            failed: false,
            refused: Record::new(),
        })
    }

    /// Whether a call waits.
    pub fn has_calls(&self) -> bool
        ensures any { result ≡ has_any self.now.waiting }
        ensures read { IsRead self.now }
    {
        self.queue.has_calls()
    }

    /// Hands out the oldest call that waits, and counts it as made. The bytes of the call are copied to the
    /// beginning of `into`, and the bytes after them stay. None if no call waits.
    ///
    /// # Errors
    /// The buffer is too short. The call waits on, and the buffer is as it was.
    pub fn next_call(&mut self, into: &mut [u8]) -> Result<Option<QueuedCall>, TooShort>
        ensures { HandsOut self.old self.new into.old into.new result }
    {
        let next = self.queue.next(into)?;
        if let Some(call) = next {
            self.made
                .note(&[call.kind.number(), call.place, 1], &into[..call.length]);
        }
        Ok(next)
    }

    /// Notes that the file was read, and had these bytes.
    pub(crate) fn read(&mut self, bytes: &[u8])
        ensures { self.new ≡ record self.old { made = Read bytes.now true ∷ self.old.made } }
    {
        self.made.note(&[0, 0, 1], bytes);
    }

    /// Puts a call at the end of the queue.
    ///
    /// # Errors
    /// Memory was refused, now or earlier.
    #[tactic(auto, using(crate::proofs::MomentLemmas::is_write))]
    fn put(&mut self, kind: CallKind, place: u64, bytes: &[u8]) -> Result<(), DeviceError>
        requires { length bytes.now ≡ length (bytes_of (call_of_kind kind place bytes.now true)) }
        ensures { all_calls self.new
            ≡ call_of_kind kind place bytes.now (is_ok result) ∷ all_calls self.old }
    {
        let call = QueuedCall {
            kind,
            place,
            length: bytes.len(),
        };
        if self.failed || self.queue.push(call, bytes).is_err() {
            self.failed = true;
            self.refused.note(&[kind.number(), place, 0], bytes);
            return Err(DeviceError);
        }
        Ok(())
    }
}

impl SystemFile for QueuedFile {
    ghost calls = { all_calls };

    fn write_all_at(&mut self, at: u64, bytes: &[u8]) -> Result<(), DeviceError> {
        self.put(CallKind::Write, at, bytes)
    }

    fn set_len(&mut self, len: u64) -> Result<(), DeviceError> {
        self.put(CallKind::Cut, len, &[])
    }

    fn sync_data(&mut self) -> Result<(), DeviceError> {
        self.put(CallKind::Sync, 0, &[])
    }

    fn begin_draft(&mut self) -> Result<(), DeviceError> {
        self.put(CallKind::BeginDraft, 0, &[])
    }

    fn extend_draft(&mut self, bytes: &[u8]) -> Result<(), DeviceError> {
        self.put(CallKind::WriteDraft, 0, bytes)
    }

    fn put_draft(&mut self) -> Result<(), DeviceError> {
        self.put(CallKind::Exchange, 0, &[])
    }
}
