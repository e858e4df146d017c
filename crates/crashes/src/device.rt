// A file in memory that keeps all calls, and whose calls can be made to fail.
ghost use Rattle.std.specs.Prelude.{◌≡◌, ◌+◌, [], OnOk};
ghost use Rattle.sg_journal.specs.Device.{HasCause};
ghost use Rattle.std.proofs.Common.{inl};
ghost use Rattle.sg_journal.specs.Memory.{failures_in};
ghost use Rattle.sg_journal.specs.MemoryLaws.{only_now};

use sg_journal::{Device, DeviceError, Memory, MemorySource, Record, Source};
use std::alloc::{AllocError, Global};

const FAILED: u64 = 0;

/// A call of a device that changes what a crash may leave.
#[derive(Drop)]
pub(crate) enum DeviceCall {
    Write { at: u64, bytes: Vec<u8> },
    Cut { len: u64 },
    Sync,
    BeginDraft,
    WriteDraft { bytes: Vec<u8> },
    Exchange,
}

/// A file in memory with its calls. A call with one number fails, and so does each call after it.
#[derive(Drop)]
pub(crate) struct LoggedFile {
    alloc: Global,
    file: Memory,
    calls: Vec<DeviceCall>,
    failing_call: Option<usize>,
    failures: Record,
}

impl LoggedFile {
    /// The calls so far. The last one is the failing call if that was made.
    pub(crate) fn calls(&self) -> &[DeviceCall] {
        &self.calls
    }

    /// The bytes of the file.
    pub(crate) fn bytes(&self) -> &[u8] {
        self.file.bytes()
    }

    /// Whether the failing call was made.
    pub(crate) fn has_failed(&self) -> bool {
        match self.failing_call {
            Some(number) => number < self.calls.len(),
            None => false,
        }
    }

    /// Keeps a call that is going to be made. An error if it is to fail.
    fn note(&mut self, call: Result<DeviceCall, AllocError>) -> Result<(), DeviceError>
        ensures file { self.new.file ≡ self.old.file }
        ensures cause { HasCause (failures_in self.old.failures.events)
            (failures_in self.new.failures.events) result }
    {
        let is_kept = match call {
            Ok(call) => self.calls.push(call).is_ok(),
            Err(AllocError) => false,
        };
        if !is_kept || self.has_failed() {
            self.failures.note(&[0, 0, FAILED], &[]);
            return Err(DeviceError);
        }
        Ok(())
    }

    fn write_call(&self, at: u64, bytes: &[u8]) -> Result<DeviceCall, AllocError> {
        let bytes = bytes.to_vec(self.alloc)?;
        Ok(DeviceCall::Write { at, bytes })
    }

    fn draft_call(&self, bytes: &[u8]) -> Result<DeviceCall, AllocError> {
        let bytes = bytes.to_vec(self.alloc)?;
        Ok(DeviceCall::WriteDraft { bytes })
    }
}

impl Device for LoggedFile {
    ghost seen = { λ d. ⟦<Memory as Device>⟧.seen d.file };

    ghost may_leave = { λ d. ⟦<Memory as Device>⟧.may_leave d.file };

    ghost moment = { λ d. ⟦<Memory as Device>⟧.moment d.file };

    ghost left_since = { λ d. ⟦<Memory as Device>⟧.left_since d.file };

    ghost failures = { λ d. ⟦<Memory as Device>⟧.failures d.file + failures_in d.failures.events };

    ghost opening = { λ d. ⟦<Memory as Device>⟧.opening d.file };

    ghost draft = { λ d. ⟦<Memory as Device>⟧.draft d.file };

    ghost counts_now = { λ d t c le now. inl now };

    ghost only_now = { λ d c left. only_now d.file.log.events d.file.bytes.items c left };

    fn write_at(&mut self, at: u64, bytes: &[u8]) -> Result<(), DeviceError> {
        let call = self.write_call(at, bytes);
        self.note(call)?;
        self.file.write_at(at, bytes)
    }

    fn cut(&mut self, len: u64) -> Result<(), DeviceError> {
        self.note(Ok(DeviceCall::Cut { len }))?;
        self.file.cut(len)
    }

    fn sync(&mut self) -> Result<(), DeviceError> {
        self.note(Ok(DeviceCall::Sync))?;
        self.file.sync()
    }

    fn begin_draft(&mut self) -> Result<(), DeviceError> {
        self.note(Ok(DeviceCall::BeginDraft))?;
        self.file.begin_draft()
    }

    fn write_draft(&mut self, bytes: &[u8]) -> Result<(), DeviceError> {
        let call = self.draft_call(bytes);
        self.note(call)?;
        self.file.write_draft(bytes)
    }

    fn exchange(&mut self) -> Result<(), DeviceError> {
        self.note(Ok(DeviceCall::Exchange))?;
        self.file.exchange()
    }
}

/// A file in memory that is being read. Then it keeps its calls.
#[derive(Drop)]
pub(crate) struct LoggedSource {
    alloc: Global,
    file: MemorySource,
    failing_call: Option<usize>,
}

impl LoggedSource {
    ghost use Rattle.sg_journal.specs.MemoryBytes.{source_taken};

    /// A file with these bytes. The call with one number is going to fail.
    pub(crate) fn new(alloc: Global, bytes: Vec<u8>, failing_call: Option<usize>) -> LoggedSource
        ensures fresh { source_taken result.file ≡ [] }
    {
        LoggedSource {
            alloc,
            file: MemorySource::new(alloc, bytes),
            failing_call,
        }
    }
}

impl Source for LoggedSource {
    type Device = LoggedFile;

    ghost taken = { λ s. ⟦<MemorySource as Source>⟧.taken s.file };

    ghost left = { λ s. ⟦<MemorySource as Source>⟧.left s.file };

    ghost failures = { λ s. ⟦<MemorySource as Source>⟧.failures s.file };

    ghost known = { λ s. ⟦<MemorySource as Source>⟧.known s.file };

    fn left(&self) -> u64 {
        self.file.left()
    }

    fn read(&mut self, into: &mut [u8]) -> Result<(), DeviceError> {
        self.file.read(into)
    }

    fn into_device(self) -> LoggedFile {
        LoggedFile {
            alloc: self.alloc,
            file: self.file.into_device(),
            calls: Vec::new(self.alloc),
            failing_call: self.failing_call,
            failures: Record::new(),
        }
    }
}
