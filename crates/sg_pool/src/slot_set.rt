// A set of slots, and its lowest absent slot. A summary has a bit for each word of the set, and
// another summary a bit for each word of the first one. So a search reads few words.
ghost use Rattle.std.specs.Prelude.{◌≡◌, ◌≢◌, ℕ, ◌<◌, ◌∷◌, length, IfOk};
ghost use Rattle.std.specs.List.{range_with_len};
ghost use Rattle.sg_table.specs.Occurrences.{occurrences};
ghost use Rattle.sg_pool.specs.Slots.{Gains, IsLowest};
ghost use Rattle.sg_pool.specs.SlotSets.{absent_slots, bit_of, IsSlotSet};

use crate::bits::Bits;
use std::alloc::{AllocError, Global};

/// A set of the slots below a count.
#[derive(Drop)]
pub(crate) struct SlotSet {
    pub(crate) count: u32,
    /// A bit for each slot: whether it is in the set.
    pub(crate) slots: Bits,
    /// A bit for each word of `slots`: whether the word is full.
    pub(crate) full: Bits,
    /// A bit for each word of `full`: whether the word is full.
    pub(crate) full_groups: Bits,
}

impl SlotSet {
    /// The empty set of the slots below `count`.
    ///
    /// # Errors
    /// The allocator refused memory.
    pub(crate) fn new(alloc: Global, count: u32) -> Result<SlotSet, AllocError>
        ensures set { IfOk result IsSlotSet }
        ensures count { IfOk result (λ set. set.count ≡ count) }
        ensures absent { IfOk result (λ set. absent_slots set ≡ range_with_len 0 count) }
    {
        let words = count as usize / 64 + 1;
        let groups = words / 64 + 1;
        Ok(SlotSet {
            count,
            slots: Bits::new(alloc, words)?,
            full: Bits::new(alloc, groups)?,
            full_groups: Bits::new(alloc, groups / 64 + 1)?,
        })
    }

    /// The lowest slot that is not in the set.
    fn lowest_absent(&self) -> usize
        requires set { IsSlotSet self.now }
        requires some { 0 < length (absent_slots self.now) }
        ensures below { result < self.now.count }
        ensures absent { bit_of self.now.slots.words.items result ≡ 0 }
        ensures lowest { (other : ℕ) → other < result
            → bit_of self.now.slots.words.items other ≡ 1 }
    {
        let top = self.full_groups.first_open();
        let group = self.full_groups.lowest_zero(top);
        let word = self.full.lowest_zero(group);
        self.slots.lowest_zero(word)
    }

    /// Puts a slot into the set.
    fn insert(&mut self, slot: usize)
        requires set { IsSlotSet self.old }
        requires slot { slot < self.old.count }
        requires absent { bit_of self.old.slots.words.items slot ≡ 0 }
        ensures set { IsSlotSet self.new }
        ensures count { self.new.count ≡ self.old.count }
        ensures bit { bit_of self.new.slots.words.items slot ≡ 1 }
        ensures others { (other : ℕ) → other ≢ slot → bit_of self.new.slots.words.items other
            ≡ bit_of self.old.slots.words.items other }
    {
        if !self.slots.insert(slot) {
            return;
        }
        if !self.full.insert(slot / 64) {
            return;
        }
        self.full_groups.insert(slot / 64 / 64);
    }

    /// Puts the lowest absent slot into the set, and returns it.
    pub(crate) fn insert_lowest(&mut self) -> u32
        requires set { IsSlotSet self.old }
        requires some { 0 < length (absent_slots self.old) }
        ensures set { IsSlotSet self.new }
        ensures count { self.new.count ≡ self.old.count }
        ensures absent { absent_slots self.old ≡ result ∷ absent_slots self.new }
        ensures lowest { IsLowest result (absent_slots self.old) }
    {
        let slot = self.lowest_absent();
        self.insert(slot);
        slot as u32
    }

    /// Removes a slot from the set.
    pub(crate) fn remove(&mut self, slot: u32)
        requires set { IsSlotSet self.old }
        requires slot { slot < self.old.count }
        requires present { occurrences slot (absent_slots self.old) ≡ 0 }
        ensures set { IsSlotSet self.new }
        ensures count { self.new.count ≡ self.old.count }
        ensures absent { Gains slot (absent_slots self.old) (absent_slots self.new) }
    {
        let slot = slot as usize;
        self.slots.remove(slot);
        self.full.remove(slot / 64);
        self.full_groups.remove(slot / 64 / 64);
    }
}
