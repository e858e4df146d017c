// What the three stores report of the blocks that they compare.
use super::disk::Call::{Anchor, Compare, CompareEach, Write};
use super::disk::{DONE, NOWHERE, Records, SAME, Step, first_wrong};
use sg_block_map::BlockMap;
use sg_extent_map::ExtentMap;
use sg_plain_map::PlainMap;
use std::alloc::Global;
use std::test::Fail;

const NONE: [u64; 3] = [0, 0, 0];

const ANY: [u64; 3] = [u64::MAX, u64::MAX, u64::MAX];

/// The first block is mapped, the second one is anchored, and the third one is neither.
const HELD: [u64; 3] = [2, 1, 2];

const COMPARED: [Step; 16] = [
    (Write(0xA1), 0, 1, DONE, [1, 1, 1], NONE, ANY),
    (Anchor, 1, 1, DONE, HELD, NONE, ANY),
    (Compare(0xA1, NOWHERE), 0, 1, SAME, HELD, NONE, ANY),
    (Compare(0xA1, 0), 0, 1, 0, HELD, NONE, ANY),
    (Compare(0xA1, 511), 0, 1, 511, HELD, NONE, ANY),
    (Compare(0xA1, 0), 0, 0, SAME, HELD, NONE, ANY),
    (Compare(0, NOWHERE), 1, 2, SAME, HELD, NONE, ANY),
    (Compare(0, 511), 1, 2, 511, HELD, NONE, ANY),
    (Compare(0, 512), 1, 2, 512, HELD, NONE, ANY),
    (Compare(0, 1023), 1, 2, 1023, HELD, NONE, ANY),
    (Compare(0xA1, NOWHERE), 0, 3, 512, HELD, NONE, ANY),
    (CompareEach(0xA1, NOWHERE), 0, 1, SAME, HELD, NONE, ANY),
    (CompareEach(0xA1, 511), 0, 1, 511, HELD, NONE, ANY),
    (CompareEach(0xA1, NOWHERE), 0, 3, 512, HELD, NONE, ANY),
    (CompareEach(0, NOWHERE), 1, 2, SAME, HELD, NONE, ANY),
    (CompareEach(0, 0), 3, 0, SAME, HELD, NONE, ANY),
];

fn compares_as_stated<S: Records>(alloc: Global) -> Result<bool, Fail> {
    Ok(first_wrong::<S>(alloc, 4, &COMPARED)?.is_none())
}

#[test]
fn each_store_compares_blocks(rt: HostRuntime) -> Result<(), Fail> {
    assert!(rt; compares_as_stated::<PlainMap>(rt.alloc())?);
    assert!(rt; compares_as_stated::<BlockMap>(rt.alloc())?);
    assert!(rt; compares_as_stated::<ExtentMap>(rt.alloc())?);
    Ok(())
}
