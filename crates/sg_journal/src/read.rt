// The reads of a reader, over slices.
ghost use Rattle.std.specs.Prelude.{◌≡◌, ◌≢◌, ◌≤◌, ◌<◌, ◌+◌, ◌*◌, ◌^◌, ◌++◌, [], ◌∷◌, ℕ, List};
ghost use Rattle.std.specs.Prelude.{length, take, drop};
ghost use Rattle.std.specs.Prelude.{true, false, IfOk, OnOk, IsTrue, IsFalse, slice_index, ◌==◌};
ghost use Rattle.std.specs.Prelude.{IsErrOf, Ok};
ghost use Rattle.byteorder.specs.Endian.{big_number};
ghost use Rattle.sg_journal.specs.Device.{HasCause};
ghost use Rattle.sg_journal.specs.Layout.{checksum, sector_of};
ghost use Rattle.sg_journal.specs.Journal.{IsHead};
ghost use Rattle.sg_journal.specs.Reading.{IsFaulty, IsHonest};
ghost use Rattle.sg_journal.specs.Reads.{TookMore, IsGateRead, IsBodyRead, IsFirstRead, IsNextRead};
ghost use Rattle.sg_journal.specs.Reads.{IsWithin, LeavesLess, Took};
ghost use Rattle.sg_journal.specs.declared.fault.Fault.{Fault};
ghost use Rattle.sg_journal.specs.declared.reader.OpenError.TheVariants.{File};

use crate::checksum::checksum;
use crate::journal::Tail;
use crate::layout::{FIELDS_LENGTH, HEADER_LENGTH, MAX_BATCH, body_size, sector_of};
use crate::{DeviceError, Fault, OpenError, Source};
use byteorder::{BigEndian, ByteOrder};

/// What a reader comes to.
pub(crate) enum Next {
    /// A batch that counts, with the length of its records.
    Batch(usize),
    /// The end of the batches.
    End(Tail),
}

/// Reads the next `count` bytes, and drops them.
pub(crate) fn skip<F: Source>(source: &mut F, count: u64) -> Result<(), DeviceError>
    requires within { count ≤ F.left source.old }
    ensures taken { OnOk result (TookMore F.taken F.left source.old source.new count) }
    ensures known { F.known source.new ≡ F.known source.old }
    ensures cause { HasCause (F.failures source.old) (F.failures source.new) result }
{
    let mut buffer = [0; 4096];
    let mut left = count;
    while left > 0 {
        let part = left.min(4096) as usize;
        source.read(&mut buffer[..part])?;
        left -= part as u64;
    }
    Ok(())
}

/// Reads the fields of a first sector.
fn read_header<F: Source>(source: &mut F) -> Result<usize, OpenError>
    requires fresh { F.taken source.old ≡ [] }
    requires some { 0 < F.left source.old }
    ensures header { IfOk result (λ sector. (header : List ℕ) ×
        Took F.taken F.left source.old source.new header
        × (length header ≡ 16) × (sector_of header ≡ Ok sector)) }
    ensures fault { (fault : Fault) → IsErrOf result (File fault) →
        IsFaulty (F.taken source.new) (F.left source.new) fault }
    ensures known { F.known source.new ≡ F.known source.old }
    ensures honest { IsHonest (F.failures source.old) (F.failures source.new) result }
{
    if source.left() < HEADER_LENGTH as u64 {
        return Err(OpenError::File(Fault::NotADisk));
    }
    let mut header = [0; HEADER_LENGTH];
    source.read(&mut header)?;
    match sector_of(&header) {
        Ok(sector) => Ok(sector),
        Err(fault) => Err(OpenError::File(fault)),
    }
}

/// Reads the first sector, if there is anything to read. Returns the length of the file's sectors.
pub(crate) fn read_first_sector<F: Source>(source: &mut F) -> Result<Option<usize>, OpenError>
    requires fresh { F.taken source.old ≡ [] }
    ensures read { IfOk result (λ sector.
        IsFirstRead F.taken F.left source.old source.new sector) }
    ensures fits { F.left source.old < 2 ^ 64 }
    ensures fault { (fault : Fault) → IsErrOf result (File fault) →
        IsFaulty (F.taken source.new) (F.left source.new) fault }
    ensures known { F.known source.new ≡ F.known source.old }
    ensures honest { IsHonest (F.failures source.old) (F.failures source.new) result }
{
    if source.left() == 0 {
        return Ok(None);
    }
    let sector = read_header(source)?;
    let rest = (sector - HEADER_LENGTH) as u64;
    if source.left() < rest {
        return Err(OpenError::File(Fault::NotADisk));
    }
    skip(source, rest)?;
    Ok(Some(sector))
}

/// Fills a slice if enough bytes are left, and otherwise reads nothing.
pub(crate) fn read_whole<F: Source>(source: &mut F, into: &mut [u8]) -> Result<bool, DeviceError>
    ensures whole { IfOk result (λ whole. IsTrue whole →
        (F.taken source.new ≡ F.taken source.old ++ into.new)
        × (F.left source.new + length into.new ≡ F.left source.old)) }
    ensures none { IfOk result (λ whole. IsFalse whole →
        (source.new ≡ source.old) × (F.left source.old < length into.old)) }
    ensures known { F.known source.new ≡ F.known source.old }
    ensures cause { HasCause (F.failures source.old) (F.failures source.new) result }
{
    if source.left() < into.len() as u64 {
        return Ok(false);
    }
    source.read(into)?;
    Ok(true)
}

/// Reads a gate. Returns nothing if it is open, and otherwise what follows the batches.
pub(crate) fn read_gate<F: Source>(
    source: &mut F,
    gate: &mut [u8],
) -> Result<Option<Tail>, DeviceError>
    requires { 0 < length gate.old }
    ensures read { IfOk result (λ tail.
        IsGateRead F.taken F.left source.old source.new (length gate.old) gate.new tail) }
    ensures known { F.known source.new ≡ F.known source.old }
    ensures cause { HasCause (F.failures source.old) (F.failures source.new) result }
{
    if !read_whole(source, gate)? {
        return Ok(Some(Tail::Torn));
    }
    if gate[0] == 1 {
        return Ok(None);
    }
    Ok(Some(Tail::Closed))
}

/// Reads a body after an open gate. Returns the length of its records, or nothing if the batch
/// does not count.
pub(crate) fn read_body<F: Source>(
    source: &mut F,
    sector: usize,
    body: &mut [u8],
) -> Result<Option<usize>, DeviceError>
    requires sector { (512 ≤ sector) × (sector ≤ 65536) }
    requires room { MAX_BATCH + 16 + 2 * sector ≤ length body.old }
    ensures read { IfOk result (λ len.
        IsBodyRead F.taken F.left source.old source.new sector body.new len) }
    ensures known { F.known source.new ≡ F.known source.old }
    ensures cause { HasCause (F.failures source.old) (F.failures source.new) result }
{
    let (first, rest) = body.split_at_mut(sector);
    if !read_whole(source, first)? {
        return Ok(None);
    }
    let len = BigEndian::read_u64(first);
    if len > MAX_BATCH as u64 {
        return Ok(None);
    }
    let size = body_size(sector, len as usize);
    if !read_whole(source, &mut rest[..size - sector])? {
        return Ok(None);
    }
    Ok(Some(len as usize))
}

/// Whether a body has the checksum of its records, which have `len` bytes.
pub(crate) fn is_sound(body: &[u8], len: usize) -> bool
    requires len { len ≤ MAX_BATCH }
    requires room { len + 16 ≤ length body.now }
    ensures { result ≡ (checksum (take len (drop 16 body.now)) == big_number 8 (drop 8 body.now)) }
{
    checksum(&body[FIELDS_LENGTH..FIELDS_LENGTH + len]) == BigEndian::read_u64(&body[8..])
}

/// Reads the next batch, if there is one that counts. It would begin at the offset `end`.
pub(crate) fn read_batch<F: Source>(
    source: &mut F,
    end: u64,
    gate: &mut [u8],
    body: &mut [u8],
) -> Result<Next, OpenError>
    requires sector { (512 ≤ length gate.old) × (length gate.old ≤ 65536) }
    requires room { MAX_BATCH + 16 + 2 * length gate.old ≤ length body.old }
    ensures read { IfOk result (λ next. (bs : List (List ℕ)) →
        IsHead (length gate.old) (F.taken source.old) bs → end ≡ length (F.taken source.old) →
        IsNextRead F.taken F.left source.new (length gate.old) end body.new bs next) }
    ensures within { IfOk result (λ next. IsWithin next) }
    ensures less { IfOk result (λ next. LeavesLess (F.left source.old) (F.left source.new) next) }
    ensures fault { (fault : Fault) → IsErrOf result (File fault) → (bs : List (List ℕ)) →
        IsHead (length gate.old) (F.taken source.old) bs → end ≡ length (F.taken source.old) →
        IsFaulty (F.taken source.new) (F.left source.new) fault }
    ensures total { OnOk result (length (F.taken source.new) + F.left source.new
        ≡ length (F.taken source.old) + F.left source.old) }
    ensures known { F.known source.new ≡ F.known source.old }
    ensures honest { IsHonest (F.failures source.old) (F.failures source.new) result }
{
    if let Some(tail) = read_gate(source, gate)? {
        return Ok(Next::End(tail));
    }
    let Some(len) = read_body(source, gate.len(), body)? else {
        return Ok(Next::End(Tail::Torn));
    };
    if !is_sound(body, len) {
        return Err(OpenError::File(Fault::Damaged { at: end }));
    }
    Ok(Next::Batch(len))
}
