// Comparing a block with the one that a source has for an index. This file knows no slot.
ghost use Rattle.std.specs.Prelude.{◌≡◌, ◌<◌, length, IfSome, OnOk};
ghost use Rattle.sg_store.specs.Comparison.{first_difference};
ghost use Rattle.sg_pool.specs.Comparison.{compared_at};
ghost use Rattle.sg_pool.specs.Source.{block_of};

use crate::source::Source;
use sg_store::{BLOCK_LENGTH, Miscompare};

/// The offset of the first byte that differs from the byte at the same offset of the other bytes.
fn first_difference(bytes: &[u8], others: &[u8]) -> Option<usize>
    ensures value { result ≡ first_difference bytes.now others.now }
    ensures within { IfSome result (λ offset. offset < length bytes.now) }
{
    // Slices that are equal are compared many bytes at a time.
    if bytes == others {
        return None;
    }
    bytes
        .iter()
        .zip(others)
        .position(|(byte, other)| *byte != *other)
}

impl Source<'_> {
    /// Compares a block with the block for the address at an index of the range.
    ///
    /// # Errors
    /// A byte differs. Its offset counts from the first byte of the range.
    pub fn compare(&self, index: u32, block: &[u8]) -> Result<(), Miscompare>
        requires byte_count { length block.now ≡ BLOCK_LENGTH }
        requires whole { length (block_of self.now index) ≡ BLOCK_LENGTH }
        ensures value { result ≡ compared_at self.now index block.now }
        ensures same { OnOk result (block.now ≡ block_of self.now index) }
    {
        match first_difference(block, self.block(index as usize)) {
            None => Ok(()),
            Some(at) => Err(Miscompare {
                offset: (BLOCK_LENGTH as u64) * u64::from(index) + at as u64,
            }),
        }
    }
}
