// The results of the calls of the three stores, the records that they leave, and their counts.
use super::disk::Call::{Anchor, Fill, Need, Read, Status, Unmap, Write};
use super::disk::{DONE, NOT_DONE, Step, first_wrong};
use sg_block_map::BlockMap;
use sg_extent_map::ExtentMap;
use sg_plain_map::PlainMap;
use std::test::Fail;

const NONE: [u64; 3] = [0, 0, 0];

const ANY: [u64; 3] = [u64::MAX, u64::MAX, u64::MAX];

/// A read of an empty disk counts nothing.
const EMPTY: [Step; 1] = [(Read(0), 0, 256, DONE, NONE, NONE, NONE)];

/// Two of three records are in the range, and the third shows its end. A search among three takes
/// two probes, and a write searches for the end of its range as well.
const THREE: [Step; 3] = [
    (Write(0xA1), 0, 3, DONE, [3, 3, 3], NONE, ANY),
    (Read(0xA1), 0, 2, DONE, [3, 3, 3], [3, 2, 0], [3, 2, 0]),
    (Write(0xA1), 0, 2, DONE, [3, 3, 3], [3, 4, 0], [3, 4, 0]),
];

/// Among four records, the searches for both ends of the range that is unmapped take five probes,
/// and its two records are visited. The status of all addresses visits the two that are left.
const FOUR: [Step; 3] = [
    (Write(0xA1), 10, 4, DONE, [4, 4, 4], NONE, ANY),
    (Unmap, 11, 2, DONE, [2, 2, 2], [2, 5, 0], [2, 5, 0]),
    (Status, 0, 0, DONE, [2, 2, 2], [2, 2, 0], [2, 2, 0]),
];

/// Three of the four blocks are anchored. They read as zeros. One of them is written: its record
/// already exists, and no block is taken. An anchoring that needs two more finds one.
const ANCHORED: [Step; 7] = [
    (Anchor, 0, 3, DONE, [3, 0, 3], NONE, ANY),
    (Read(0), 0, 3, DONE, [3, 0, 3], NONE, ANY),
    (Write(0xA1), 1, 1, DONE, [3, 1, 3], NONE, ANY),
    (Need, 0, 5, 2, [3, 1, 3], [3, 4, 0], [3, 4, 0]),
    (Anchor, 2, 3, NOT_DONE, [3, 1, 3], NONE, ANY),
    (Anchor, 0, 4, DONE, [4, 0, 4], NONE, ANY),
    (Read(0), 1, 1, DONE, [4, 0, 4], NONE, ANY),
];

const OF_PLAIN_MAP: [(&str, &[Step]); 4] = [
    ("empty", &EMPTY),
    ("three", &THREE),
    ("four", &FOUR),
    ("anchored", &ANCHORED),
];

#[test]
fn a_plain_map_counts(rt: HostRuntime) -> Result<(), Fail> {
    for (name, steps) in &OF_PLAIN_MAP {
        let wrong = first_wrong::<PlainMap>(rt.alloc(), 4, steps)?;
        assert!(rt; wrong.is_none(), "{name}");
    }
    Ok(())
}

/// A write between two runs joins them.
const JOINED: [Step; 4] = [
    (Write(0xA1), 0, 1, DONE, [1, 1, 1], NONE, ANY),
    (Write(0xB2), 2, 1, DONE, [2, 2, 2], NONE, ANY),
    (Write(0xA1), 1, 1, DONE, [3, 3, 1], NONE, [2, 3, 2]),
    (Read(0xB2), 2, 1, DONE, [3, 3, 1], NONE, ANY),
];

/// An unmap of an empty disk counts nothing.
const NO_RUN: [Step; 1] = [(Unmap, 0, 0xFFFF_FFFF, DONE, NONE, NONE, NONE)];

/// The longest fill takes all blocks of the largest pool. A read in the middle of its run goes along the
/// links from the first address on.
const LONGEST: [Step; 2] = [
    (Fill(0xA1), 0, 65_536, DONE, [65_536, 65_536, 1], NONE, ANY),
    (
        Read(0xA1),
        0x100,
        256,
        DONE,
        [65_536, 65_536, 1],
        NONE,
        [3, 2, 65_536],
    ),
];

/// An unmap in a run leaves two and frees a block.
const CUT: [Step; 9] = [
    (Fill(0xA1), 0, 4, DONE, [4, 4, 1], NONE, ANY),
    (Write(0xB2), 9, 1, NOT_DONE, [4, 4, 1], NONE, ANY),
    (Unmap, 1, 1, DONE, [3, 3, 2], NONE, ANY),
    (Read(0), 1, 1, DONE, [3, 3, 2], NONE, ANY),
    (Read(0xA1), 2, 1, DONE, [3, 3, 2], NONE, ANY),
    (Write(0xB2), 9, 1, DONE, [4, 4, 3], NONE, ANY),
    (Write(0xB2), 20, 1, NOT_DONE, [4, 4, 3], NONE, ANY),
    (Read(0xB2), 9, 1, DONE, [4, 4, 3], NONE, ANY),
    (Unmap, 0, 4096, DONE, NONE, NONE, ANY),
];

/// An anchored address has its block of the pool before it is written. Its runs have a kind of their own.
const ANCHORED_RUN: [Step; 7] = [
    (Write(0xA1), 1, 1, DONE, [1, 1, 1], NONE, ANY),
    (Need, 0, 4, 3, [1, 1, 1], NONE, ANY),
    (Anchor, 0, 4, DONE, [4, 0, 1], NONE, ANY),
    (Read(0), 1, 1, DONE, [4, 0, 1], NONE, ANY),
    (Anchor, 9, 1, NOT_DONE, [4, 0, 1], NONE, ANY),
    (Write(0xB2), 2, 1, DONE, [4, 1, 3], NONE, ANY),
    (Read(0xB2), 2, 1, DONE, [4, 1, 3], NONE, ANY),
];

/// The status of a disk with one run visits this run.
const ONE_RUN: [Step; 2] = [
    (Write(0xA1), 2, 3, DONE, [3, 3, 1], NONE, ANY),
    (
        Status,
        1,
        0,
        DONE,
        [3, 3, 1],
        [1, 0, 0],
        [1, u64::MAX, u64::MAX],
    ),
];

const OF_BLOCK_MAP: [(&str, u32, &[Step]); 6] = [
    ("joined", 4, &JOINED),
    ("no run", 4, &NO_RUN),
    ("longest", 65_536, &LONGEST),
    ("cut", 4, &CUT),
    ("anchored", 4, &ANCHORED_RUN),
    ("one run", 4, &ONE_RUN),
];

#[test]
fn a_block_map_counts(rt: HostRuntime) -> Result<(), Fail> {
    for (name, pool, steps) in &OF_BLOCK_MAP {
        let wrong = first_wrong::<BlockMap>(rt.alloc(), *pool, steps)?;
        assert!(rt; wrong.is_none(), "{name}");
    }
    Ok(())
}

/// Blocks that are written in order lie in one extent. Anchoring cuts the extent, and a write joins
/// it again. So does a write of addresses that were unmapped: they take the slots that they had.
const IN_ORDER: [Step; 7] = [
    (Write(0xA1), 0, 2, DONE, [2, 2, 1], NONE, ANY),
    (Write(0xA1), 2, 2, DONE, [4, 4, 1], NONE, [1, 1, 0]),
    (Anchor, 1, 1, DONE, [4, 3, 3], NONE, ANY),
    (Write(0xB2), 1, 1, DONE, [4, 4, 1], NONE, ANY),
    (Unmap, 1, 2, DONE, [2, 2, 2], NONE, ANY),
    (Write(0xB2), 1, 2, DONE, [4, 4, 1], NONE, ANY),
    (Read(0xB2), 1, 2, DONE, [4, 4, 1], NONE, ANY),
];

/// Blocks whose slots lie apart have extents of their own. The status joins their addresses.
const APART: [Step; 5] = [
    (Write(0xA1), 0, 1, DONE, [1, 1, 1], NONE, ANY),
    (Write(0xB2), 2, 1, DONE, [2, 2, 2], NONE, ANY),
    (Write(0xA1), 1, 1, DONE, [3, 3, 3], NONE, ANY),
    (Read(0xA1), 0, 2, DONE, [3, 3, 3], [3, 0, 0], [3, 2, 0]),
    (Status, 0, 0, DONE, [3, 3, 3], [3, 0, 0], [3, 2, 0]),
];

/// Two slots that were given back one after the other are taken as one row again.
const ROW: [Step; 4] = [
    (Fill(0xA1), 0, 4, DONE, [4, 4, 1], NONE, ANY),
    (Unmap, 0, 1, DONE, [3, 3, 1], NONE, ANY),
    (Unmap, 1, 1, DONE, [2, 2, 1], NONE, ANY),
    (Write(0xB2), 10, 2, DONE, [4, 4, 2], NONE, ANY),
];

/// A full pool refuses an address without a slot, and takes a write of the others.
const FULL: [Step; 7] = [
    (Fill(0xA1), 0, 4, DONE, [4, 4, 1], NONE, ANY),
    (Write(0xB2), 9, 1, NOT_DONE, [4, 4, 1], NONE, ANY),
    (Write(0xB2), 3, 2, NOT_DONE, [4, 4, 1], NONE, ANY),
    (Write(0xB2), 3, 1, DONE, [4, 4, 1], NONE, ANY),
    (Need, 0, 16, 12, [4, 4, 1], NONE, ANY),
    (Unmap, 0, 0xFFFF_FFFF, DONE, NONE, NONE, ANY),
    (Read(0), 0, 4, DONE, NONE, NONE, NONE),
];

/// A read in the middle of a long extent visits one record and follows no link.
const LONG: [Step; 2] = [
    (Fill(0xA1), 0, 65_536, DONE, [65_536, 65_536, 1], NONE, ANY),
    (
        Read(0xA1),
        0x100,
        256,
        DONE,
        [65_536, 65_536, 1],
        [1, 0, 0],
        [1, 1, 0],
    ),
];

const OF_EXTENT_MAP: [(&str, u32, &[Step]); 5] = [
    ("in order", 4, &IN_ORDER),
    ("apart", 4, &APART),
    ("row", 4, &ROW),
    ("full", 4, &FULL),
    ("long", 65_536, &LONG),
];

#[test]
fn an_extent_map_counts(rt: HostRuntime) -> Result<(), Fail> {
    for (name, pool, steps) in &OF_EXTENT_MAP {
        let wrong = first_wrong::<ExtentMap>(rt.alloc(), *pool, steps)?;
        assert!(rt; wrong.is_none(), "{name}");
    }
    Ok(())
}
