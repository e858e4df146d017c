// The blocks of the slots. This file does not know which slots are free.
ghost use Rattle.std.specs.Prelude.{◌≡◌, ◌<◌, ◌+◌, ◌-◌, ◌++◌, ◌≤◌, length, max, replicate, take, IfOk};
ghost use Rattle.std.specs.Prelude.{slice_index_or, slice_set, vec_capacity};
ghost use Rattle.sg_store.specs.Disk.{zero_block};
ghost use Rattle.sg_pool.specs.Slots.{blocks_from, place_of};

use sg_store::BLOCK_LENGTH;
use std::alloc::{AllocError, Global};
use std::marker::Model;

/// The block of an address without data.
pub(crate) const ZERO_BLOCK: [u8; BLOCK_LENGTH] = [0; BLOCK_LENGTH];

/// The number of bytes before the first block. The C library puts a large vector 16 bytes after the
/// beginning of a page, so with these bytes each block begins at a multiple of 512. A block that lies
/// across one more cache line, or across two pages, takes longer to read and write.
const HEAD: usize = BLOCK_LENGTH - 16;

/// A block of 512 bytes for each slot.
#[derive(Drop)]
pub(crate) struct SlotBlocks {
    /// First `HEAD` zeros, and then the blocks of the first slots.
    bytes: Vec<u8>,
    /// The number of blocks in `bytes`: as far as one was set. The others are zeros.
    stored: u32,
    count: u32,
}

impl Model for SlotBlocks {
    ghost use Rattle.std.specs.Prelude.{◌≡◌, ◌≤◌, ℕ, List, length, vec_capacity};
    ghost use Rattle.sg_pool.specs.Slots.{place_of, blocks_from, zero_padded, HasZeroHead};

    ghost Value = { List (List ℕ) };

    ghost view = { λ b. zero_padded (blocks_from b.bytes.items (place_of 0) b.stored) b.count };

    ghost invariant = { λ b. (length b.bytes.items ≡ place_of b.stored)
        × (b.stored ≤ b.count)
        × (place_of b.count ≤ vec_capacity b.bytes)
        × HasZeroHead b.bytes.items };
}

/// The place of the block of a slot.
fn place(slot: u32) -> usize
    ensures { result ≡ place_of slot }
{
    HEAD + BLOCK_LENGTH * (slot as usize)
}

/// Appends zeros up to a length.
fn extend_to(bytes: &mut Vec<u8>, count: usize)
    requires room { count ≤ vec_capacity bytes.old }
    requires more { length bytes.old.items ≤ count }
    ensures bytes { bytes.new.items
        ≡ bytes.old.items ++ replicate (count - length bytes.old.items) 0 }
    ensures capacity { vec_capacity bytes.old ≤ vec_capacity bytes.new }
{
    let extended = bytes.resize(count, 0);
    prove!(extended.is_ok());
    let _ = extended;
}

/// Appends blocks of zeros up to the block of a slot, unless the slot has a block already. Returns
/// the number of blocks then.
fn store_up_to(bytes: &mut Vec<u8>, stored: u32, slot: u32) -> u32
    requires slot { slot < u32.MAX }
    requires length { length bytes.old.items ≡ place_of stored }
    requires room { place_of (slot + 1) ≤ vec_capacity bytes.old }
    ensures blocks { blocks_from bytes.new.items (place_of 0) result
        ≡ blocks_from bytes.old.items (place_of 0) stored ++ replicate (result - stored) zero_block }
    ensures head { take (place_of 0) bytes.new.items ≡ take (place_of 0) bytes.old.items }
    ensures length { length bytes.new.items ≡ place_of result }
    ensures value { result ≡ max stored (slot + 1) }
    ensures capacity { vec_capacity bytes.old ≤ vec_capacity bytes.new }
{
    if slot < stored {
        return stored;
    }
    extend_to(bytes, place(slot + 1));
    slot + 1
}

/// A vector that has room for `count` blocks, and no block yet.
fn head(alloc: Global, count: u32) -> Result<Vec<u8>, AllocError>
    ensures zeros { IfOk result (λ bytes. bytes.items ≡ replicate (place_of 0) 0) }
    ensures capacity { IfOk result (λ bytes. place_of count ≤ vec_capacity bytes) }
{
    let mut bytes = Vec::with_capacity(alloc, place(count))?;
    extend_to(&mut bytes, HEAD);
    Ok(bytes)
}

impl SlotBlocks {
    /// `count` blocks of zeros.
    ///
    /// # Errors
    /// The allocator refused memory.
    pub(crate) fn new(alloc: Global, count: u32) -> Result<SlotBlocks, AllocError>
        ensures { IfOk result (λ blocks. blocks ≡ replicate count zero_block) }
    {
        Ok(SlotBlocks {
            bytes: head(alloc, count)?,
            stored: 0,
            count,
        })
    }

    /// The number of slots.
    pub(crate) fn count(&self) -> u32
        ensures { result ≡ length self.now }
    {
        self.count
    }

    /// The block of a slot.
    pub(crate) fn get(&self, slot: u32) -> &[u8]
        requires { slot < length self.now }
        ensures block { result.now ≡ slice_index_or self.now slot zero_block }
        ensures byte_count { length result.now ≡ BLOCK_LENGTH }
    {
        if slot >= self.stored {
            return &ZERO_BLOCK;
        }
        let at = place(slot);
        &self.bytes[at..at + BLOCK_LENGTH]
    }

    /// Replaces the block of a slot.
    pub(crate) fn set(&mut self, slot: u32, bytes: &[u8])
        requires slot { slot < length self.old }
        requires byte_count { length bytes.now ≡ BLOCK_LENGTH }
        ensures { self.new ≡ slice_set self.old slot bytes.now }
    {
        self.stored = store_up_to(&mut self.bytes, self.stored, slot);
        let at = place(slot);
        self.bytes[at..at + BLOCK_LENGTH].copy_from_slice(bytes);
    }
}
