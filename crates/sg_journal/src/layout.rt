// The format of a file: a first sector, then batches, then a closed gate.
ghost use Rattle.std.specs.Prelude.{◌≡◌, ◌≤◌, ◌<◌, ◌+◌, length};
ghost use Rattle.sg_journal.specs.Layout.{body_size, first_sector};
ghost use Rattle.sg_journal.specs.Layout.{gate, header, is_sector_length, sector_of};

use crate::Fault;
use byteorder::{BigEndian, ByteOrder};

/// The length of a sector of a new file, in bytes.
pub const NEW_SECTOR: usize = 4096;

/// The most bytes that the records of a batch have.
pub const MAX_BATCH: usize = 1 << 22;

/// The bytes that a write has at least if it makes a file longer. The zeros after the batch are room for the
/// next ones: a write within a file costs a file system less than a write that makes it longer.
pub const ROOM_AHEAD: usize = 1 << 18;

/// The bytes MEHDDISK, with which a file begins.
pub(crate) const MAGIC: [u8; 8] = [77, 69, 72, 68, 68, 73, 83, 75];

/// The version of the format.
pub(crate) const FORMAT_VERSION: u32 = 4;

/// The length of the fields of a first sector: magic, version and sector length.
pub(crate) const HEADER_LENGTH: usize = 16;

/// The length of the fields of a body: the length of the records, and their checksum.
pub(crate) const FIELDS_LENGTH: usize = 16;

/// Whether a file may have sectors of this length: a power of two from 512 to 65,536.
#[tactic(auto, unfolding(crate::specs::Layout::is_sector_length))]
pub fn is_sector_length(len: usize) -> bool
    ensures { result ≡ is_sector_length len }
{
    512 <= len && len <= 65536 && len.is_power_of_two()
}

/// The sector length of a file that begins with these bytes.
#[tactic(auto, unfolding(crate::specs::Layout::sector_of))]
pub(crate) fn sector_of(header: &[u8; HEADER_LENGTH]) -> Result<usize, Fault>
    ensures { result ≡ sector_of header.now }
{
    if !header.starts_with(&MAGIC) {
        return Err(Fault::NotADisk);
    }
    let version = BigEndian::read_u32(&header[8..]);
    if version != FORMAT_VERSION {
        return Err(Fault::OtherVersion(version));
    }
    let sector = BigEndian::read_u32(&header[12..]) as usize;
    if !is_sector_length(sector) {
        return Err(Fault::Damaged { at: 12 });
    }
    Ok(sector)
}

/// The length of a body whose records have `count` bytes: whole sectors.
#[tactic(auto, using(crate::proofs::Fields::body_sizes), unfolding(crate::specs::Layout::body_size))]
pub(crate) fn body_size(sector: usize, count: usize) -> usize
    requires sector { (0 < sector) × (sector ≤ 65536) }
    requires count { count ≤ MAX_BATCH }
    ensures value { result ≡ body_size sector count }
    ensures fits { count + FIELDS_LENGTH ≤ result }
    ensures below { result < count + FIELDS_LENGTH + sector }
    ensures some { sector ≤ result }
{
    (count + FIELDS_LENGTH).next_multiple_of(sector)
}

/// Makes a sector a gate: its first byte says whether it is open, and the others are zeros.
#[tactic(auto, unfolding(crate::specs::Layout::gate))]
pub(crate) fn write_gate(sector: &mut [u8], first: u8)
    requires { 0 < length sector.old }
    ensures { sector.new ≡ gate (length sector.old) first }
{
    sector.fill(0);
    sector[0] = first;
}

/// The fields of a first sector.
#[tactic(auto, unfolding(crate::specs::Layout::header))]
fn header(sector: u32) -> [u8; HEADER_LENGTH]
    ensures { result ≡ header sector }
{
    let mut header = [0; HEADER_LENGTH];
    header[..8].copy_from_slice(&MAGIC);
    header[8..12].copy_from_slice(&FORMAT_VERSION.to_be_bytes());
    header[12..].copy_from_slice(&sector.to_be_bytes());
    header
}

/// Makes a sector the first of a file.
#[tactic(auto, unfolding(crate::specs::Layout::first_sector))]
pub(crate) fn write_first_sector(sector: &mut [u8])
    requires { (512 ≤ length sector.old) × (length sector.old ≤ 65536) }
    ensures { sector.new ≡ first_sector (length sector.old) }
{
    let header = header(sector.len() as u32);
    sector.fill(0);
    sector[..HEADER_LENGTH].copy_from_slice(&header);
}
