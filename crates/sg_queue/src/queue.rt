// The calls that wait, the oldest first.
use crate::call::QueuedCall;
use std::alloc::{AllocError, Global};
use std::collections::VecDeque;
use std::marker::Model;
use thiserror::Error;

/// The buffer is too short for the bytes of the call.
#[derive(Clone, Copy, Debug, Error, PartialEq, Eq)]
#[error("the buffer is too short")]
pub struct TooShort;

// The calls of a flush and of the beginning of a draft, and some more.
const CALLS: usize = 16;

// The bytes of the longest flush, and the first sector of a draft: 4 MiB of records, their fields, and five
// of the longest sectors. The calls of one batch of a draft have fewer.
const BYTES: usize = (1 << 22) + 16 + 5 * 65536;

/// Calls that succeed as far as anybody knows, because nobody has made them yet.
#[derive(Drop)]
pub(crate) struct Queue {
    calls: VecDeque<QueuedCall>,
    // The bytes of all calls, one after another. Those before `start` were taken out.
    bytes: Vec<u8>,
    start: usize,
}

impl Model for Queue {
    ghost use Rattle.std.specs.Prelude.{List, ◌≤◌, drop, length};
    ghost use Rattle.sg_file.specs.Calls.{Call};
    ghost use Rattle.sg_queue.specs.Waiting.{AreWhole, waiting};

    ghost Value = { List Call };

    ghost view = { λ q. waiting q.calls.items (drop q.start q.bytes.items) };

    ghost invariant = { λ q. (q.start ≤ length q.bytes.items)
        × AreWhole q.calls.items (drop q.start q.bytes.items) };
}

ghost use Rattle.std.specs.Prelude.{◌≡◌, ◌≤◌, ◌+◌, ◌-◌, ◌∷◌, ◌++◌, [], take, drop, length};
ghost use Rattle.std.specs.Prelude.{option_to_list, IfOk, OnErr, OnOk};
ghost use Rattle.sg_file.specs.Calls.{bytes_of};
ghost use Rattle.sg_queue.specs.QueuedCall.{call_as};
ghost use Rattle.sg_queue.specs.Moments.{AreWrites};
ghost use Rattle.sg_queue.specs.NextCall.{Takes};
ghost use Rattle.sg_queue.specs.QueueFields.{has_any};

impl Queue {
    /// No calls, and memory for those of the longest flush.
    pub(crate) fn new(alloc: Global) -> Result<Queue, AllocError>
        ensures { IfOk result (λ q. q ≡ []) }
    {
        Ok(Queue {
            calls: VecDeque::with_capacity(alloc, CALLS)?,
            bytes: Vec::with_capacity(alloc, BYTES)?,
            start: 0,
        })
    }

    /// Whether a call waits.
    pub(crate) fn has_calls(&self) -> bool
        ensures any { result ≡ has_any self.now }
        ensures writes { AreWrites self.now }
    {
        oldest(&self.calls).is_some()
    }

    /// Puts a call at the end.
    ///
    /// # Errors
    /// Memory was refused. The queue is as it was.
    pub(crate) fn push(&mut self, call: QueuedCall, bytes: &[u8]) -> Result<(), AllocError>
        requires length { call.length ≡ length bytes.now }
        requires needed { call.length ≡ length (bytes_of (call_as call bytes.now)) }
        ensures added { OnOk result (self.new ≡ self.old ++ call_as call bytes.now ∷ []) }
        ensures refused { OnErr result (self.new ≡ self.old) }
    {
        self.calls.push_back(call)?;
        if let Err(error) = self.bytes.extend_from_slice(bytes) {
            let _call = self.calls.pop_back();
            return Err(error);
        }
        Ok(())
    }

    /// Takes the oldest call out. Its bytes are at the beginning of `into` then. None if no call waits.
    ///
    /// # Errors
    /// The buffer is too short. The queue is as it was.
    pub(crate) fn next(&mut self, into: &mut [u8]) -> Result<Option<QueuedCall>, TooShort>
        ensures { Takes self.old self.new into.old into.new result }
    {
        let Some(call) = oldest(&self.calls) else {
            return Ok(None);
        };
        if into.len() < call.length {
            return Err(TooShort);
        }
        let end = self.start + call.length;
        copy_part(&self.bytes, self.start, end, into);
        let _call = self.calls.pop_front();
        self.start = forget(&mut self.bytes, end);
        Ok(Some(call))
    }
}

/// Forgets the bytes before `start` if there are no others. It returns where the others begin.
fn forget(bytes: &mut Vec<u8>, start: usize) -> usize
    requires { start ≤ length bytes.old.items }
    ensures others { drop result bytes.new.items ≡ drop start bytes.old.items }
    ensures within { result ≤ length bytes.new.items }
{
    if start < bytes.len() {
        return start;
    }
    bytes.clear();
    // Calls of more than one flush may have waited.
    bytes.shrink_to(BYTES);
    0
}

/// The oldest of the calls.
fn oldest(calls: &VecDeque<QueuedCall>) -> Option<QueuedCall>
    ensures { calls.now.items ≡ option_to_list result ++ drop 1 calls.now.items }
{
    calls.front().copied()
}

/// Copies a part of the bytes to the beginning of `into`.
fn copy_part(bytes: &[u8], start: usize, end: usize, into: &mut [u8])
    requires order { start ≤ end }
    requires within { end ≤ length bytes.now }
    requires room { end ≤ start + length into.old }
    ensures { into.new ≡ take (end - start) (drop start bytes.now) ++ drop (end - start) into.old }
{
    into[..end - start].copy_from_slice(&bytes[start..end]);
}
