// What a crash leaves of a file, by the calls that were made: it loses and tears what was not synced.
ghost use Rattle.std.specs.Prelude.{◌≤◌};

use crate::device::DeviceCall;
use crate::random::Random;
use std::alloc::{AllocError, Global};

/// The number of bytes that a device writes at once.
const SECTOR: usize = 512;

/// Whether a sync keeps what was written before it.
#[derive(Clone, Copy, PartialEq, Eq)]
pub(crate) enum Sync {
    Keeps,
    /// The device acknowledges a sync, and forgets it. No disk can keep its promise over it.
    Forgets,
}

/// A file on a medium, and its draft.
#[derive(Drop)]
pub(crate) struct Medium {
    alloc: Global,
    sync: Sync,
    /// The bytes that no crash changes, unless a call that was not synced does.
    synced: Vec<u8>,
    /// The number of calls up to the last sync or exchange.
    synced_calls: usize,
    draft: Vec<u8>,
}

impl Medium {
    /// A file that is all on the medium.
    pub(crate) fn new(alloc: Global, file: &[u8], sync: Sync) -> Result<Medium, AllocError> {
        Ok(Medium {
            alloc,
            sync,
            synced: file.to_vec(alloc)?,
            synced_calls: 0,
            draft: Vec::new(alloc),
        })
    }

    /// What a crash leaves after these calls have begun, which are all calls so far. The last one may have
    /// ended or not.
    pub(crate) fn crash(
        &self,
        calls: &[DeviceCall],
        random: &mut Random,
    ) -> Result<Vec<u8>, AllocError> {
        let mut file = self.synced.to_vec(self.alloc)?;
        for call in calls.get(self.synced_calls..).unwrap_or(&[]) {
            match call {
                DeviceCall::Write { at, bytes } => tear(&mut file, *at as usize, bytes, random)?,
                DeviceCall::Cut { len } => {
                    let less = file.len().saturating_sub(*len as usize);
                    file.truncate(file.len() - some_of(random, less));
                }
                DeviceCall::Exchange => {
                    if random.is_one_in(2) {
                        file = self.draft.to_vec(self.alloc)?;
                    }
                }
                DeviceCall::Sync | DeviceCall::BeginDraft | DeviceCall::WriteDraft { .. } => {}
            }
        }
        Ok(file)
    }

    /// The last of these calls, which are all calls so far, has ended well.
    pub(crate) fn end_call(&mut self, calls: &[DeviceCall]) -> Result<(), AllocError> {
        match calls.last() {
            Some(DeviceCall::BeginDraft) => self.draft.clear(),
            Some(DeviceCall::WriteDraft { bytes }) => self.draft.extend_from_slice(bytes)?,
            Some(DeviceCall::Exchange) => {
                self.synced = self.draft.to_vec(self.alloc)?;
                self.synced_calls = calls.len();
            }
            Some(DeviceCall::Sync) => self.end_sync(calls)?,
            Some(DeviceCall::Write { .. } | DeviceCall::Cut { .. }) | None => {}
        }
        Ok(())
    }

    fn end_sync(&mut self, calls: &[DeviceCall]) -> Result<(), AllocError> {
        if self.sync == Sync::Forgets {
            return Ok(());
        }
        for call in calls.get(self.synced_calls..).unwrap_or(&[]) {
            match call {
                DeviceCall::Write { at, bytes } => put(&mut self.synced, *at as usize, bytes)?,
                DeviceCall::Cut { len } => self.synced.truncate(*len as usize),
                _ => {}
            }
        }
        self.synced_calls = calls.len();
        Ok(())
    }
}

/// A part of a number: often nothing or all.
fn some_of(random: &mut Random, all: usize) -> usize
    ensures { result ≤ all }
{
    match random.below(4) {
        0 => 0,
        1 => all,
        _ => random.up_to(all),
    }
}

/// Writes bytes at an offset, which may be past the end. Bytes between are zeros.
fn put(file: &mut Vec<u8>, at: usize, bytes: &[u8]) -> Result<(), AllocError> {
    let end = at.saturating_add(bytes.len());
    if file.len() < end {
        file.resize(end, 0)?;
    }
    if let Some(place) = file.as_mut_slice().get_mut(at..end) {
        place.copy_from_slice(bytes);
    }
    Ok(())
}

/// Writes what a crash leaves of a write: nothing, all, the first bytes, the last bytes, some of the
/// sectors, or any bytes.
fn tear(
    file: &mut Vec<u8>,
    at: usize,
    bytes: &[u8],
    random: &mut Random,
) -> Result<(), AllocError> {
    match random.below(8) {
        0 => Ok(()),
        1 => put(file, at, bytes),
        2 | 3 => {
            let count = cut_at(random, bytes.len());
            put(file, at, &bytes[..count])
        }
        4 => {
            let first = cut_at(random, bytes.len());
            put(file, at.saturating_add(first), &bytes[first..])
        }
        5 | 6 => put_sectors(file, at, bytes, random),
        _ => put_any(file, at, bytes.len(), random),
    }
}

/// A place within some bytes, most often at a sector.
fn cut_at(random: &mut Random, length: usize) -> usize
    ensures { result ≤ length }
{
    let cut = random.up_to(length);
    if random.is_one_in(3) {
        return cut;
    }
    cut - cut % SECTOR
}

/// Writes some of the sectors of a write.
fn put_sectors(
    file: &mut Vec<u8>,
    at: usize,
    bytes: &[u8],
    random: &mut Random,
) -> Result<(), AllocError> {
    for (index, sector) in bytes.chunks(SECTOR).enumerate() {
        if random.is_one_in(2) {
            put(
                file,
                at.saturating_add(index.saturating_mul(SECTOR)),
                sector,
            )?;
        }
    }
    Ok(())
}

/// Writes any bytes where a write has begun. Past the end of the file there are any number of them.
fn put_any(
    file: &mut Vec<u8>,
    at: usize,
    count: usize,
    random: &mut Random,
) -> Result<(), AllocError> {
    let within = file.len().saturating_sub(at).min(count);
    let end = at
        .saturating_add(within)
        .saturating_add(some_of(random, count - within));
    if file.len() < end {
        file.resize(end, 0)?;
    }
    let first = random.below(4);
    if let Some(place) = file.as_mut_slice().get_mut(at..end) {
        for (index, byte) in place.iter_mut().enumerate() {
            *byte = if index == 0 { first } else { random.byte() };
        }
    }
    Ok(())
}
