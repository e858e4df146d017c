// Commands from random numbers, of a few initiators and over the few blocks of a small disk.
use crate::random::Random;
use sg_store::BLOCK_LENGTH;
use sg_wire::{Initiator, MAX_CDB_LENGTH, Profile};

/// The number of initiators that send commands.
pub(crate) const INITIATORS: u8 = 3;

/// The most bytes of data-out, four blocks.
pub(crate) const LONGEST_DATA_OUT: usize = 4 * BLOCK_LENGTH;

/// The most bytes of a parameter list, those of EXTENDED COPY.
const LONGEST_LIST: usize = 76;

/// FUA, in byte 1 of a CDB (SBC-3, 5.11 and 5.33).
const FUA: u8 = 0x08;

/// The operation code TEST UNIT READY, as the whole CDB has it.
const TEST_UNIT_READY: [u8; MAX_CDB_LENGTH] = [0; MAX_CDB_LENGTH];

/// What a command sends to the disk.
#[derive(Clone, Copy)]
pub(crate) enum DataOut {
    Nothing,
    /// Blocks of one byte each. The byte of the next block is greater by 1.
    Blocks {
        count: u8,
        first: u8,
    },
    /// A parameter list.
    List {
        bytes: [u8; LONGEST_LIST],
        length: usize,
    },
}

impl DataOut {
    /// Writes the bytes to a buffer, and returns them.
    pub(crate) fn write<'a>(&self, buffer: &'a mut [u8; LONGEST_DATA_OUT]) -> &'a [u8] {
        let length = match self {
            DataOut::Nothing => 0,
            DataOut::Blocks { count, first } => {
                for index in 0..LONGEST_DATA_OUT {
                    buffer[index] = first.wrapping_add((index / BLOCK_LENGTH) as u8);
                }
                BLOCK_LENGTH * usize::from(*count)
            }
            DataOut::List { bytes, length } => {
                buffer[..LONGEST_LIST].copy_from_slice(bytes);
                *length
            }
        };
        &buffer[..length.min(LONGEST_DATA_OUT)]
    }
}

/// A command of an initiator.
#[derive(Clone, Copy)]
pub(crate) struct Request {
    pub(crate) initiator: Initiator,
    cdb: [u8; MAX_CDB_LENGTH],
    pub(crate) data_out: DataOut,
    /// If it ends with GOOD, all that was changed so far is in the file. This does not regard WCE.
    pub(crate) owes_flush: bool,
}

impl Request {
    /// TEST UNIT READY, which reports a pending unit attention.
    pub(crate) fn test_unit_ready(initiator: Initiator) -> Request {
        Request {
            initiator,
            cdb: TEST_UNIT_READY,
            data_out: DataOut::Nothing,
            owes_flush: false,
        }
    }

    /// WRITE(10) of the first four blocks, which puts all that was changed into the file.
    pub(crate) fn write_through(initiator: Initiator) -> Request {
        Request {
            initiator,
            cdb: cdb_with(&[(0, 0x2A), (1, FUA), (8, 4)]),
            data_out: DataOut::Blocks { count: 4, first: 1 },
            owes_flush: true,
        }
    }

    /// The CDB. The operation code has its length (SPC-4, 4.2.5.1).
    pub(crate) fn cdb(&self) -> &[u8] {
        let length = match self.cdb[0] >> 5 {
            0 => 6,
            1 | 2 => 10,
            5 => 12,
            _ => 16,
        };
        &self.cdb[..length]
    }

    /// WRITE(10) of four blocks.
    pub(crate) fn four_blocks(random: &mut Random) -> Option<Request> {
        Some(Request {
            initiator: Initiator::new(random.below(INITIATORS))?,
            cdb: cdb_with(&[(0, 0x2A), (5, random.below(5)), (8, 4)]),
            data_out: next_blocks(random, 4),
            owes_flush: false,
        })
    }

    /// The next command for a disk of a profile.
    pub(crate) fn next(random: &mut Random, profile: Profile) -> Option<Request> {
        let initiator = Initiator::new(random.below(INITIATORS))?;
        let kinds = match profile {
            Profile::Base => 16,
            Profile::Extended => 25,
        };
        let (cdb, data_out, owes_flush) = match random.below(kinds) {
            0..=3 => write(random, 0x2A),
            4 => write_same(random),
            5 | 6 => unmap(random),
            7 => read(random),
            8 => extent_command(random, 0x35),
            9 | 10 => select_caching_page(random),
            11 => select_control_page(random),
            12..=14 => reserve_out(random),
            15 => (TEST_UNIT_READY, DataOut::Nothing, false),
            16 | 17 => write_and_verify(random),
            18 => extent_command(random, 0x2F),
            19 | 20 => compare_and_write(random),
            21 => or_write(random),
            22 => start_stop_unit(random),
            23 => extended_copy(random),
            _ => format_unit(),
        };
        Some(Request {
            initiator,
            cdb,
            data_out,
            owes_flush,
        })
    }
}

/// A CDB, its data-out, and whether it owes a flush if it ends with GOOD.
type Sent = ([u8; MAX_CDB_LENGTH], DataOut, bool);

/// A CDB with these bytes at these places. The others are zeros.
fn cdb_with(fields: &[(usize, u8)]) -> [u8; MAX_CDB_LENGTH] {
    let mut cdb = [0; MAX_CDB_LENGTH];
    for (at, byte) in fields {
        if let Some(place) = cdb.get_mut(*at) {
            *place = *byte;
        }
    }
    cdb
}

/// A parameter list that begins with these bytes at these places.
fn list_with(fields: &[(usize, u8)], length: usize) -> DataOut {
    let mut bytes = [0; LONGEST_LIST];
    for (at, byte) in fields {
        if let Some(place) = bytes.get_mut(*at) {
            *place = *byte;
        }
    }
    DataOut::List { bytes, length }
}

/// An address, seldom past the end of the disk, and a number of blocks.
fn next_extent(random: &mut Random) -> (u8, u8) {
    (random.below(18), random.below(5))
}

fn next_fua(random: &mut Random) -> u8 {
    if random.is_one_in(4) { FUA } else { 0 }
}

fn next_blocks(random: &mut Random, count: u8) -> DataOut {
    let first = random.byte();
    DataOut::Blocks { count, first }
}

/// A command of 10 bytes that names an extent, and owes a flush: SYNCHRONIZE CACHE or VERIFY.
fn extent_command(random: &mut Random, code: u8) -> Sent {
    let (lba, count) = next_extent(random);
    let cdb = cdb_with(&[(0, code), (5, lba), (8, count)]);
    (cdb, DataOut::Nothing, true)
}

fn read(random: &mut Random) -> Sent {
    let (lba, count) = next_extent(random);
    let fua = next_fua(random);
    let cdb = cdb_with(&[(0, 0x28), (1, fua), (5, lba), (8, count)]);
    (cdb, DataOut::Nothing, fua != 0)
}

fn write(random: &mut Random, code: u8) -> Sent {
    let (lba, count) = next_extent(random);
    let fua = next_fua(random);
    let cdb = cdb_with(&[(0, code), (1, fua), (5, lba), (8, count)]);
    (cdb, next_blocks(random, count), fua != 0)
}

/// WRITE AND VERIFY(10), without a comparison.
fn write_and_verify(random: &mut Random) -> Sent {
    let (lba, count) = next_extent(random);
    let cdb = cdb_with(&[(0, 0x2E), (5, lba), (8, count)]);
    (cdb, next_blocks(random, count), true)
}

/// COMPARE AND WRITE of one block, which often is not mapped.
fn compare_and_write(random: &mut Random) -> Sent {
    let (lba, _) = next_extent(random);
    let fua = next_fua(random);
    let cdb = cdb_with(&[(0, 0x89), (1, fua), (9, lba), (13, 1)]);
    (cdb, DataOut::Blocks { count: 2, first: 0 }, fua != 0)
}

fn or_write(random: &mut Random) -> Sent {
    let (lba, count) = next_extent(random);
    let fua = next_fua(random);
    let cdb = cdb_with(&[(0, 0x8B), (1, fua), (9, lba), (13, count)]);
    (cdb, next_blocks(random, count), fua != 0)
}

/// EXTENDED COPY, whose ranges often overlap (SPC-4, 6.5). The list has one CSCD descriptor, at byte
/// 16, for the source and the destination: it names the unit by the NAA designator of the standard
/// identity. The segment descriptor is at byte 48.
fn extended_copy(random: &mut Random) -> Sent {
    let (source, count) = next_extent(random);
    let (destination, _) = next_extent(random);
    let fields = [
        (3, 32),
        (11, 28),
        (16, 0xE4),
        (20, 0x01),
        (21, 0x03),
        (23, 16),
        (24, 0x60),
        (25, 0x20),
        (39, 1),
        (48, 0x02),
        (51, 24),
        (59, count),
        (67, source),
        (75, destination),
    ];
    let cdb = cdb_with(&[(0, 0x83), (13, LONGEST_LIST as u8)]);
    (cdb, list_with(&fields, LONGEST_LIST), false)
}

/// WRITE SAME(16): UNMAP is 1:08, and ANCHOR is 1:10.
fn write_same(random: &mut Random) -> Sent {
    let (lba, count) = next_extent(random);
    let flags = [0x00, 0x08, 0x18][random.up_to(2)];
    let cdb = cdb_with(&[(0, 0x93), (1, flags), (9, lba), (13, count)]);
    let first = if flags == 0 { random.byte() } else { 0 };
    (cdb, DataOut::Blocks { count: 1, first }, false)
}

/// UNMAP with one descriptor (SBC-3, 5.28.2): ANCHOR is 1:01.
fn unmap(random: &mut Random) -> Sent {
    let (lba, count) = next_extent(random);
    let cdb = cdb_with(&[(0, 0x42), (1, random.below(2)), (8, 24)]);
    let list = list_with(&[(1, 22), (3, 16), (15, lba), (19, count)], 24);
    (cdb, list, false)
}

/// MODE SELECT(6) of one page: PF is 1:10, and SP is 1:01 (SPC-4, 6.11). The list has a header of four
/// bytes and no block descriptor.
fn mode_select(random: &mut Random, page: &[(usize, u8)], length: u8) -> Sent {
    let sp = random.below(2);
    let cdb = cdb_with(&[(0, 0x15), (1, 0x10 | sp), (4, length)]);
    (cdb, list_with(page, usize::from(length)), true)
}

/// WCE, bit 2 of the page's byte 2, is 0 or 1 (SBC-3, 6.4).
fn select_caching_page(random: &mut Random) -> Sent {
    let wce = 4 * random.below(2);
    mode_select(random, &[(4, 0x08), (5, 0x12), (6, wce)], 24)
}

/// D_SENSE, bit 2 of the page's byte 2, is 0 or 1 (SPC-4, 7.5).
fn select_control_page(random: &mut Random) -> Sent {
    let d_sense = 4 * random.below(2);
    mode_select(random, &[(4, 0x0A), (5, 0x0A), (6, d_sense)], 16)
}

/// PERSISTENT RESERVE OUT with small keys (SPC-4, 6.16). It registers most often. APTPL is byte 20 of the
/// list.
fn reserve_out(random: &mut Random) -> Sent {
    let action = [0, 6, 6, 6, 1, 1, 2, 3, 4, 5][random.up_to(9)];
    let scope_type = [1, 3, 5, 6, 7, 8][random.up_to(5)];
    let cdb = cdb_with(&[(0, 0x5F), (1, action), (2, scope_type), (8, 24)]);
    let keys = [
        (7, random.below(3)),
        (15, random.below(3)),
        (20, random.below(2)),
    ];
    (cdb, list_with(&keys, 24), true)
}

/// START STOP UNIT, which most often starts the unit (SBC-3, 5.25).
fn start_stop_unit(random: &mut Random) -> Sent {
    let start = if random.is_one_in(4) { 0 } else { 1 };
    (cdb_with(&[(0, 0x1B), (4, start)]), DataOut::Nothing, true)
}

/// FORMAT UNIT without a parameter list (SBC-3, 5.3).
fn format_unit() -> Sent {
    (cdb_with(&[(0, 0x04)]), DataOut::Nothing, true)
}
