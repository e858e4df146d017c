// Slots of 512 bytes without links, for a table whose records have slots in a row. This file knows
// no address.
ghost use Rattle.std.specs.Prelude.{◌≡◌, ◌<◌, ◌∷◌, length, option_map, replicate, IfOk, IfSome, Some};
ghost use Rattle.std.specs.List.{range_with_len};
ghost use Rattle.sg_store.specs.Disk.{data_in, zero_block, HasBlockLength};
ghost use Rattle.sg_table.specs.Occurrences.{occurrences};
ghost use Rattle.sg_pool.specs.Content.{mapping_for};
ghost use Rattle.sg_pool.specs.MappedRecords.{filled_slot, mapping_in};
ghost use Rattle.sg_table.specs.declared.run.Run.{Run as RunModel};
ghost use Rattle.sg_pool.specs.Slots.{Gains, IsLowest};

use crate::content::Content;
use crate::kind::{found_block, read_first};
use crate::slot_blocks::SlotBlocks;
use crate::slot_set::SlotSet;
use sg_store::BLOCK_LENGTH;
use sg_table::Run;
use std::alloc::{AllocError, Global};
use std::marker::Model;

/// Slots of one block each. The pool returns its free slots in ascending order, so slots that were
/// given back by and by become long ranges of free slots again.
#[derive(Drop)]
pub struct UnlinkedPool {
    blocks: SlotBlocks,
    /// The slots that are not free.
    used: SlotSet,
    free_count: u32,
}

impl Model for UnlinkedPool {
    ghost use Rattle.std.specs.Prelude.{◌≡◌, length};
    ghost use Rattle.sg_pool.specs.Slots.{UnlinkedSlots};
    ghost use Rattle.sg_pool.specs.SlotSets.{absent_slots, IsSlotSet};

    ghost Value = { UnlinkedSlots };

    ghost view = { λ p. record { blocks = p.blocks; free = absent_slots p.used } };

    ghost invariant = { λ p. IsSlotSet p.used
        × (p.used.count ≡ length p.blocks)
        × (length (absent_slots p.used) ≡ p.free_count) };
}

impl UnlinkedPool {
    /// `count` slots of zeros, each of them free.
    ///
    /// # Errors
    /// The allocator refused memory.
    pub fn new(alloc: Global, count: u32) -> Result<UnlinkedPool, AllocError>
        ensures zeros { IfOk result (λ pool. pool.blocks ≡ replicate count zero_block) }
        ensures free { IfOk result (λ pool. pool.free ≡ range_with_len 0 count) }
    {
        Ok(UnlinkedPool {
            blocks: SlotBlocks::new(alloc, count)?,
            used: SlotSet::new(alloc, count)?,
            free_count: count,
        })
    }

    /// The number of slots.
    pub fn count(&self) -> u32
        ensures { result ≡ length self.now.blocks }
    {
        self.blocks.count()
    }

    /// The number of free slots.
    pub fn free_count(&self) -> u32
        ensures { result ≡ length self.now.free }
    {
        self.free_count
    }

    /// Puts the block for an index of a range into a slot. The slot of an anchored address keeps its
    /// bytes.
    pub fn fill(&mut self, slot: u32, content: &Content, index: usize)
        requires slot { slot < length self.old.blocks }
        requires whole { HasBlockLength (mapping_for content.now index) }
        ensures { self.new ≡ record self.old {
          blocks = filled_slot self.old.blocks slot (mapping_for content.now index);
        } }
    {
        content.fill(&mut self.blocks, slot, index);
    }

    /// Reads the block of a record's first address: the block of its slot, or zeros if it is
    /// anchored.
    pub fn read_first(&self, run: Run, bytes: &mut [u8])
        requires slot { run.first < length self.now.blocks }
        requires byte_count { length bytes.old ≡ BLOCK_LENGTH }
        ensures { bytes.new ≡ data_in (Some (mapping_in self.now.blocks run.first run.kind)) }
    {
        read_first(&self.blocks, run, bytes);
    }

    /// The block of an address by the record that begins there: the block of the record's slot. It
    /// is zeros if the record is anchored, and if there is none.
    pub fn found_block(&self, found: Option<Run>) -> &[u8]
        requires slot { IfSome found (λ run. run.first < length self.now.blocks) }
        ensures block { result.now ≡ data_in (option_map (λ (run : RunModel).
            mapping_in self.now.blocks run.first run.kind) found) }
        ensures byte_count { length result.now ≡ BLOCK_LENGTH }
    {
        found_block(&self.blocks, found)
    }

    /// Takes the lowest free slot.
    pub fn take(&mut self) -> u32
        requires { 0 < length self.old.free }
        ensures free { self.old.free ≡ result ∷ self.new.free }
        ensures lowest { IsLowest result self.old.free }
        ensures pool { self.new ≡ record self.old { free = self.new.free } }
    {
        self.free_count -= 1;
        self.used.insert_lowest()
    }

    /// Frees a slot.
    pub fn give(&mut self, slot: u32)
        requires slot { slot < length self.old.blocks }
        requires used { occurrences slot self.old.free ≡ 0 }
        ensures free { Gains slot self.old.free self.new.free }
        ensures pool { self.new ≡ record self.old { free = self.new.free } }
    {
        self.used.remove(slot);
        self.free_count += 1;
    }
}
