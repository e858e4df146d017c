// The slots of 512 bytes and the links between them. This file knows no address: the table says
// which slot belongs to which address.
ghost use Rattle.std.specs.Prelude.{◌≡◌, ◌<◌, ◌+◌, ◌-◌, ◌∷◌, ◌++◌, ◌≤◌, length, replicate, Some};
ghost use Rattle.std.specs.Prelude.{IfOk, IfSome, option_map, slice_index, slice_index_or, slice_set};
ghost use Rattle.std.specs.List.{range_with_len};
ghost use Rattle.sg_pool.specs.Chains.{chain, slot_after, AreBelow, IsChain};
ghost use Rattle.sg_store.specs.Disk.{data_in, zero_block, HasBlockLength};
ghost use Rattle.sg_table.specs.Occurrences.{IsEachOnce, occurrences};
ghost use Rattle.sg_pool.specs.Content.{mapping_for};
ghost use Rattle.sg_pool.specs.MappedRecords.{filled_slot, mapping_in};
ghost use Rattle.sg_table.specs.declared.run.Run.{Run as RunModel};
ghost use Rattle.sg_pool.specs.Slots.{followed};

use crate::content::Content;
use crate::kind::{found_block, read_first};
use crate::links::{Links, MAX_SLOTS};
use crate::slot_blocks::SlotBlocks;
use sg_store::BLOCK_LENGTH;
use sg_table::Run;
use std::alloc::{AllocError, Global};
use std::marker::Model;

/// Slots of one block each, with a link from each slot to the next one of its chain. The free slots
/// are the chain of the slots that were given back, and all slots from one number on. No call has
/// taken one of the latter since every slot was free.
#[derive(Drop)]
pub struct Pool {
    blocks: SlotBlocks,
    next: Links,
    /// The first slot that was given back.
    first_given: u32,
    given_count: u32,
    /// The first slot that was not taken.
    fresh: u32,
    links: u64,
}

impl Model for Pool {
    ghost use Rattle.std.specs.Prelude.{◌≡◌, ◌<◌, ◌≤◌, length};
    ghost use Rattle.sg_pool.specs.Chains.{chain, AreBelow};
    ghost use Rattle.sg_pool.specs.Slots.{Slots, free_slots};
    ghost use Rattle.sg_pool.specs.declared.links.TheConstants.{MAX_SLOTS};

    ghost Value = { Slots };

    ghost view = { λ p. record {
      blocks = p.blocks;
      next = p.next;
      free = free_slots p.next p.first_given p.given_count p.fresh;
      links = p.links;
    } };

    ghost invariant = { λ p. (length p.blocks ≡ length p.next)
        × AreBelow (length p.next) (chain p.next p.first_given p.given_count)
        × (p.fresh ≤ length p.next)
        × (length p.next ≤ MAX_SLOTS)
        × (p.first_given < MAX_SLOTS) };
}

impl Pool {
    /// `count` slots of zeros, each of them free.
    ///
    /// # Errors
    /// The allocator refused memory.
    pub fn new(alloc: Global, count: u32) -> Result<Pool, AllocError>
        requires { count ≤ MAX_SLOTS }
        ensures blocks { IfOk result (λ pool. length pool.blocks ≡ count) }
        ensures zeros { IfOk result (λ pool. pool.blocks ≡ replicate count zero_block) }
        ensures free { IfOk result (λ pool. pool.free ≡ range_with_len 0 count) }
        ensures next { IfOk result (λ pool. length pool.next ≡ count) }
        ensures links { IfOk result (λ pool. pool.links ≡ 0) }
    {
        Ok(Pool {
            blocks: SlotBlocks::new(alloc, count)?,
            next: Links::new(alloc, count)?,
            first_given: 0,
            given_count: 0,
            fresh: 0,
            links: 0,
        })
    }

    /// The block of a slot.
    pub fn bytes(&self, slot: u32) -> &[u8]
        requires { slot < length self.now.blocks }
        ensures block { result.now ≡ slice_index_or self.now.blocks slot zero_block }
        ensures byte_count { length result.now ≡ BLOCK_LENGTH }
    {
        self.blocks.get(slot)
    }

    /// The number of free slots.
    pub fn free_count(&self) -> usize
        ensures { result ≡ length self.now.free }
    {
        self.given_count as usize + (self.next.count() - self.fresh as usize)
    }

    /// Replaces the block of a slot.
    pub fn set(&mut self, slot: u32, bytes: &[u8])
        requires slot { slot < length self.old.blocks }
        requires byte_count { length bytes.now ≡ BLOCK_LENGTH }
        ensures { self.new ≡ record self.old { blocks = slice_set self.old.blocks slot bytes.now } }
    {
        self.blocks.set(slot, bytes);
    }

    /// Puts the block for an index of a range into a slot. The slot of an anchored address keeps its
    /// bytes.
    pub fn fill(&mut self, slot: u32, content: &Content, index: usize)
        requires slot { slot < length self.old.blocks }
        requires whole { HasBlockLength (mapping_for content.now index) }
        ensures { self.new ≡ record self.old {
          blocks = filled_slot self.old.blocks slot (mapping_for content.now index);
        } }
    {
        content.fill(&mut self.blocks, slot, index);
    }

    /// Reads the block of a record's first address: the block of its slot, or zeros if it is
    /// anchored.
    pub fn read_first(&self, run: Run, bytes: &mut [u8])
        requires slot { run.first < length self.now.blocks }
        requires byte_count { length bytes.old ≡ BLOCK_LENGTH }
        ensures { bytes.new ≡ data_in (Some (mapping_in self.now.blocks run.first run.kind)) }
    {
        read_first(&self.blocks, run, bytes);
    }

    /// The block of an address by the record that begins there: the block of the record's slot. It
    /// is zeros if the record is anchored, and if there is none.
    pub fn found_block(&self, found: Option<Run>) -> &[u8]
        requires slot { IfSome found (λ run. run.first < length self.now.blocks) }
        ensures block { result.now ≡ data_in (option_map (λ (run : RunModel).
            mapping_in self.now.blocks run.first run.kind) found) }
        ensures byte_count { length result.now ≡ BLOCK_LENGTH }
    {
        found_block(&self.blocks, found)
    }

    /// Takes a free slot. The pool does not count the link that it follows to the next free slot.
    pub fn take(&mut self) -> u32
        requires { 0 < length self.old.free }
        ensures free { self.old.free ≡ result ∷ self.new.free }
        ensures pool { self.new ≡ record self.old { free = self.new.free } }
    {
        if self.given_count == 0 {
            let slot = self.fresh;
            self.fresh += 1;
            return slot;
        }
        let slot = self.first_given;
        self.first_given = self.next.get(slot);
        self.given_count -= 1;
        slot
    }

    /// Makes `take` return the slots in ascending order from now on, if each of them is free.
    pub fn renew(&mut self)
        requires { length self.old.free ≡ length self.old.next }
        ensures { self.new ≡ record self.old { free = range_with_len 0 (length self.old.next) } }
    {
        self.given_count = 0;
        self.fresh = 0;
    }

    /// Frees a slot. `take` returns it before the other free slots.
    pub fn give(&mut self, slot: u32)
        requires slot { slot < length self.old.blocks }
        requires used { occurrences slot self.old.free ≡ 0 }
        requires room { length self.old.free < MAX_SLOTS }

        // Only the link of the slot changes.
        ensures free { self.new.free ≡ slot ∷ self.old.free }
        ensures next { self.new.next ≡ slice_set self.old.next slot (slice_index self.new.next slot) }
        ensures pool { self.new ≡ record self.old { next = self.new.next; free = self.new.free } }
    {
        self.next.set(slot, self.first_given);
        self.first_given = slot;
        self.given_count += 1;
    }

    /// Frees the slots of a chain. `take` returns them before the other free slots.
    pub fn give_chain(&mut self, first: u32, last: u32, count: u32)
        requires chain { IsChain self.old.next first last count }
        requires slots { AreBelow (length self.old.next) (chain self.old.next first count) }
        requires last { last < length self.old.next }
        requires once { occurrences last (chain self.old.next first count ++ self.old.free) ≡ 1 }
        requires room { count + length self.old.free ≤ MAX_SLOTS }

        // Only the link of the last slot changes.
        ensures free { self.new.free ≡ chain self.old.next first count ++ self.old.free }
        ensures next { self.new.next ≡ slice_set self.old.next last (slice_index self.new.next last) }
        ensures pool { self.new ≡ record self.old { next = self.new.next; free = self.new.free } }
    {
        self.next.set(last, self.first_given);
        self.first_given = first;
        self.given_count += count;
    }

    /// Links a slot that is not free to the next one of its chain.
    pub fn link(&mut self, slot: u32, next: u32)
        requires slot { slot < length self.old.next }
        requires next { next < length self.old.next }
        requires used { occurrences slot self.old.free ≡ 0 }
        ensures { self.new ≡ record self.old { next = slice_set self.old.next slot next } }
    {
        self.next.set(slot, next);
    }

    /// The slot after another in its chain, which counts as a link that was followed.
    pub fn next(&mut self, slot: u32) -> u32
        requires slot { slot < length self.old.next }
        requires headroom { self.old.links < u64.MAX }
        ensures value { result ≡ slice_index self.old.next slot }
        ensures pool { self.new ≡ followed self.old 1 }
    {
        self.links += 1;
        self.next.get(slot)
    }

    /// The slot that is `count` links after another. Each step counts as a link that was followed.
    pub fn follow(&mut self, first: u32, count: u32) -> u32
        requires below { AreBelow (length self.old.next) (chain self.old.next first count) }
        requires headroom { self.old.links + count ≤ u64.MAX }
        ensures value { result ≡ slot_after self.old.next first count }
        ensures pool { self.new ≡ followed self.old (self.new.links - self.old.links) }
        ensures rise { self.old.links ≤ self.new.links }
        ensures most { self.new.links ≤ self.old.links + count }
    {
        let (slot, steps) = self.next.follow(first, count);
        self.links += u64::from(steps);
        slot
    }

    /// The number of slots.
    pub fn count(&self) -> usize
        ensures { result ≡ length self.now.blocks }
    {
        self.next.count()
    }

    /// The number of links that were followed since the last restart.
    pub fn links(&self) -> u64
        ensures { result ≡ self.now.links }
    {
        self.links
    }

    /// Counts followed links from 0 again.
    pub fn restart_links(&mut self)
        ensures { self.new ≡ record self.old { links = 0 } }
    {
        self.links = 0;
    }
}
