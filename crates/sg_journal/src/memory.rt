// A file in memory. Each call is done at once, so that a crash leaves what is there.
ghost use Rattle.std.specs.Prelude.{◌≡◌, ◌≤◌, ◌+◌, ◌-◌, ◌∷◌, ◌++◌, [], length, take, drop, vec_len};
ghost use Rattle.std.specs.Prelude.{OnOk, OnErr};
ghost use Rattle.std.proofs.Common.{inl};
ghost use Rattle.sg_journal.specs.Memory.{LeftSince, failures_in, noted};
ghost use Rattle.sg_journal.specs.MemoryLaws.{only_now};

use crate::{Device, DeviceError, Record, Source};
use std::alloc::{AllocError, Global};

const DONE: u64 = 1;

const FAILED: u64 = 0;

/// A file in memory that can be written. A call fails if there is no memory for the bytes.
#[derive(Drop)]
pub struct Memory {
    bytes: Vec<u8>,
    draft: Vec<u8>,
    opening: Record,
    log: Record,
}

impl Memory {
    ghost use Rattle.sg_journal.specs.MemoryBytes.{memory_bytes};

    /// The bytes of the file.
    pub fn bytes(&self) -> &[u8]
        ensures { result.now ≡ memory_bytes self.now }
    {
        &self.bytes
    }
}

/// Writes over the bytes from an offset on, and past the end.
fn write_over(file: &mut Vec<u8>, at: usize, bytes: &[u8]) -> Result<(), AllocError>
    requires { at ≤ vec_len file.old }
    ensures written { OnOk result (file.new.items
        ≡ take at file.old.items ++ bytes.now ++ drop (at + length bytes.now) file.old.items) }
    ensures failed { OnErr result (file.new.items ≡ file.old.items) }
{
    let within = bytes.len().min(file.len() - at);
    let (over, past) = bytes.split_at(within);
    file.extend_from_slice(past)?;
    file[at..at + within].copy_from_slice(over);
    Ok(())
}

impl Device for Memory {
    ghost seen = { λ m. m.bytes.items };

    ghost may_leave = { λ m c. c ≡ m.bytes.items };

    ghost moment = { λ m. length m.log.events };

    ghost left_since = { λ m. LeftSince m.log.events m.bytes.items };

    ghost failures = { λ m. failures_in m.log.events };

    ghost opening = { λ m. noted m.opening.events };

    ghost draft = { λ m. m.draft.items };

    ghost counts_now = { λ m t c le now. inl now };

    ghost only_now = { λ m c left. only_now m.log.events m.bytes.items c left };

    fn write_at(&mut self, at: u64, bytes: &[u8]) -> Result<(), DeviceError> {
        self.log.note(&[0, 0, DONE], &self.bytes);
        if write_over(&mut self.bytes, at as usize, bytes).is_err() {
            self.log.note(&[0, 0, FAILED], &self.bytes);
            return Err(DeviceError);
        }
        Ok(())
    }

    fn cut(&mut self, len: u64) -> Result<(), DeviceError> {
        self.log.note(&[0, 0, DONE], &self.bytes);
        self.bytes.truncate(len as usize);
        Ok(())
    }

    fn sync(&mut self) -> Result<(), DeviceError> {
        Ok(())
    }

    fn begin_draft(&mut self) -> Result<(), DeviceError> {
        self.draft.clear();
        Ok(())
    }

    fn write_draft(&mut self, bytes: &[u8]) -> Result<(), DeviceError> {
        if self.draft.extend_from_slice(bytes).is_err() {
            self.log.note(&[0, 0, FAILED], &self.bytes);
            return Err(DeviceError);
        }
        Ok(())
    }

    fn exchange(&mut self) -> Result<(), DeviceError> {
        self.log.note(&[0, 0, DONE], &self.bytes);
        std::mem::swap(&mut self.bytes, &mut self.draft);
        Ok(())
    }
}

/// A file in memory that is being read.
#[derive(Drop)]
pub struct MemorySource {
    bytes: Vec<u8>,
    read: usize,
    draft: Vec<u8>,
    ghost within: { read ≤ vec_len bytes },
}

impl MemorySource {
    ghost use Rattle.sg_journal.specs.MemoryBytes.{source_bytes, source_taken};

    /// A file with these bytes.
    pub fn new(alloc: Global, bytes: Vec<u8>) -> Self
        ensures fresh { source_taken result ≡ [] }
        ensures bytes { source_bytes result ≡ bytes.items }
    {
        MemorySource {
            bytes,
            read: 0,
            draft: Vec::new(alloc),
        }
    }
}

impl Source for MemorySource {
    type Device = Memory;

    ghost taken = { λ s. take s.read s.bytes.items };

    ghost left = { λ s. vec_len s.bytes - s.read };

    ghost failures = { λ s. 0 };

    ghost known = { λ s. s.bytes.items };

    fn left(&self) -> u64 {
        (self.bytes.len() - self.read) as u64
    }

    fn read(&mut self, into: &mut [u8]) -> Result<(), DeviceError> {
        let end = self.read + into.len();
        into.copy_from_slice(&self.bytes[self.read..end]);
        self.read = end;
        Ok(())
    }

    fn into_device(self) -> Memory {
        let mut opening = Record::new();
        opening.note(&[0, 0, DONE], &self.bytes);
        Memory {
            bytes: self.bytes,
            draft: self.draft,
            opening,
            log: Record::new(),
        }
    }
}
