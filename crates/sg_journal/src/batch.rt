// The buffer in which a batch is built, written and read. All memory is taken when it is made.
ghost use Rattle.std.specs.Prelude.{◌≡◌, ◌≤◌, ◌<◌, ◌+◌, ◌-◌, ◌*◌, ◌++◌, [], length, take, drop};
ghost use Rattle.std.specs.Prelude.{max, replicate};
ghost use Rattle.std.specs.Prelude.{true, IfOk};
ghost use Rattle.byteorder.specs.Endian.{big_bytes};
ghost use Rattle.sg_journal.specs.Layout.{body, body_size, closed_gate, is_sector_length};
ghost use Rattle.sg_journal.specs.BatchValue.{BatchValue};

use crate::checksum::checksum;
use crate::layout::{FIELDS_LENGTH, MAX_BATCH, body_size};
use byteorder::{BigEndian, ByteOrder};
use std::alloc::{AllocError, Global};
use std::marker::Model;

/// The records of one batch, in a buffer of fixed size. No call but [`Batch::new`] takes memory.
#[derive(Drop)]
pub struct Batch {
    /// One sector: a gate, or the first sector of a file.
    pub(crate) gate: Vec<u8>,
    /// The body, and room for a closed gate after it.
    pub(crate) body: Vec<u8>,
    /// The length of the records.
    pub(crate) len: usize,
}

impl Model for Batch {
    ghost use Rattle.sg_journal.specs.BatchValue.{BatchValue};

    ghost Value = { BatchValue };

    ghost use Rattle.sg_journal.specs.Batch.{batch_of, IsBuffer};

    ghost view = { batch_of };

    ghost invariant = { IsBuffer };
}

impl Batch {
    /// An empty batch for a file with sectors of this length, in bytes.
    pub fn new(alloc: Global, sector: usize) -> Result<Batch, AllocError>
        requires valid { is_sector_length sector ≡ true }
        ensures empty { IfOk result (λ b. b ≡ record { sector = sector; records = [] }) }
    {
        Ok(Batch {
            gate: vec![in alloc; 0; sector]?,
            body: vec![in alloc; 0; MAX_BATCH + FIELDS_LENGTH + 2 * sector]?,
            len: 0,
        })
    }

    /// The length of the file's sectors, in bytes.
    pub fn sector(&self) -> usize
        ensures value { result ≡ self.now.sector }
        ensures valid { is_sector_length result ≡ true }
    {
        self.gate.len()
    }

    /// The bytes of the records.
    pub fn records(&self) -> &[u8]
        ensures value { result.now ≡ self.now.records }
        ensures within { length result.now ≤ MAX_BATCH }
    {
        &self.body[FIELDS_LENGTH..FIELDS_LENGTH + self.len]
    }

    /// How many more bytes of records there is room for.
    pub fn room(&self) -> usize
        ensures { result + length self.now.records ≡ MAX_BATCH }
    {
        MAX_BATCH - self.len
    }

    /// Adds bytes at the end of the records.
    pub fn push(&mut self, bytes: &[u8])
        requires room { length self.old.records + length bytes.now ≤ MAX_BATCH }
        ensures { self.new ≡ record self.old { records = self.old.records ++ bytes.now } }
    {
        put(&mut self.body, FIELDS_LENGTH + self.len, bytes);
        self.len += bytes.len();
    }

    /// Drops all but the first `len` bytes of the records.
    pub fn truncate(&mut self, len: usize)
        requires { len ≤ length self.old.records }
        ensures { self.new ≡ record self.old { records = take len self.old.records } }
    {
        self.len = len;
    }

    /// Drops all records.
    pub fn clear(&mut self)
        ensures { self.new ≡ record self.old { records = [] } }
    {
        self.len = 0;
    }
}

/// Writes over the bytes from an offset on.
fn put(buffer: &mut [u8], at: usize, bytes: &[u8])
    requires { at + length bytes.now ≤ length buffer.old }
    ensures { buffer.new
        ≡ take at buffer.old ++ bytes.now ++ drop (at + length bytes.now) buffer.old }
{
    buffer[at..at + bytes.len()].copy_from_slice(bytes);
}

/// Writes zeros from one offset to another.
fn put_zeros(buffer: &mut [u8], from: usize, to: usize)
    requires range { from ≤ to }
    requires within { to ≤ length buffer.old }
    ensures { buffer.new ≡ take from buffer.old ++ replicate (to - from) 0 ++ drop to buffer.old }
{
    buffer[from..to].fill(0);
}

/// Writes the fields of a body.
fn put_fields(fields: &mut [u8], len: u64, checksum: u64)
    requires { length fields.old ≡ 16 }
    ensures { fields.new ≡ big_bytes 8 len ++ big_bytes 8 checksum }
{
    let (first, second) = fields.split_at_mut(8);
    BigEndian::write_u64(first, len);
    BigEndian::write_u64(second, checksum);
}

/// Completes a body whose records are in place: the fields before them, zeros up to whole sectors,
/// and a closed gate. Returns the length of all.
pub(crate) fn seal(buffer: &mut [u8], sector: usize, len: usize) -> usize
    requires sector { (0 < sector) × (sector ≤ 65536) }
    requires len { len ≤ MAX_BATCH }
    requires room { length buffer.old ≡ MAX_BATCH + 16 + 2 * sector }
    ensures written { take result buffer.new
        ≡ body sector (take len (drop 16 buffer.old)) ++ closed_gate sector }
    ensures kept { take len (drop 16 buffer.new) ≡ take len (drop 16 buffer.old) }
    ensures size { result ≡ body_size sector len + sector }
    ensures within { result ≤ length buffer.new }
{
    let size = body_size(sector, len);
    let checksum = checksum(&buffer[FIELDS_LENGTH..FIELDS_LENGTH + len]);
    put_zeros(buffer, FIELDS_LENGTH + len, size + sector);
    put_fields(&mut buffer[..FIELDS_LENGTH], len as u64, checksum);
    size + sector
}

/// Completes a body as [`seal`] does. Zeros follow the closed gate if all of it has fewer than `least`
/// bytes. Returns the length with these zeros.
pub(crate) fn seal_with_room(buffer: &mut [u8], sector: usize, len: usize, least: usize) -> usize
    requires sector { (0 < sector) × (sector ≤ 65536) }
    requires len { len ≤ MAX_BATCH }
    requires room { length buffer.old ≡ MAX_BATCH + 16 + 2 * sector }
    requires least { least ≤ MAX_BATCH }
    ensures written { take (body_size sector len + sector) buffer.new
        ≡ body sector (take len (drop 16 buffer.old)) ++ closed_gate sector }
    ensures kept { take len (drop 16 buffer.new) ≡ take len (drop 16 buffer.old) }
    ensures size { result ≡ max (body_size sector len + sector) least }
    ensures within { result ≤ length buffer.new }
{
    let size = seal(buffer, sector, len);
    let total = size.max(least);
    put_zeros(buffer, size, total);
    total
}
