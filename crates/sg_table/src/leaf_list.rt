// The memory of the leaves: which slot each leaf has, and which slots are free. This file knows
// nothing of the order or the number of their records.
ghost use Rattle.std.specs.Prelude.{◌≡◌, ◌+◌, ◌-◌, ◌<◌, ◌≤◌, [], length, slice_set, insert, remove};
ghost use Rattle.std.specs.Prelude.{vec_capacity, IfOk};
ghost use Rattle.std.specs.List.{splice as splice_list};
ghost use Rattle.sg_table.specs.LeafList.{AreEmpty, IsTaken};
ghost use Rattle.sg_table.specs.Leaves.{leaf_at};

use crate::leaf::{Leaf, MAX_LEAF};
use crate::leaves::MAX_LEAVES;
use crate::run::Run;
use std::alloc::{AllocError, Global};
use std::marker::Model;

/// The leaves of a table, in slots of memory that is taken at once. A leaf keeps its slot while
/// others are added before it or removed. No call touches a slot before a leaf needs it.
#[derive(Drop)]
pub(crate) struct LeafList {
    /// A leaf for each slot that has been in use.
    slots: Vec<Leaf>,
    /// The slots that are in use, in the order of their leaves.
    order: Vec<u32>,
    /// The slots that are free again. Their leaves have no records.
    free: Vec<u32>,
}

impl Model for LeafList {
    ghost use Rattle.std.specs.Prelude.{◌≤◌, vec_capacity};
    ghost use Rattle.sg_table.specs.LeafList.{LeafRow, AreEmpty, AreSlots, leaves_in};
    ghost use Rattle.sg_table.specs.declared.leaves.TheConstants.{MAX_LEAVES};

    ghost Value = { LeafRow };

    ghost view = { λ l. record {
      leaves = leaves_in l.slots.items l.order.items;
      capacity = vec_capacity l.slots;
    } };

    ghost invariant = { λ l. AreSlots l.slots.items l.order.items l.free.items
        × (vec_capacity l.slots ≤ vec_capacity l.order)
        × (vec_capacity l.slots ≤ vec_capacity l.free)
        × (vec_capacity l.slots ≤ MAX_LEAVES)
        × AreEmpty l.slots.items l.free.items };
}

/// Takes a free slot, or a new one if none is free. Its leaf has no records.
fn take_slot(slots: &mut Vec<Leaf>, free: &mut Vec<u32>) -> u32
    requires empty { AreEmpty slots.old.items free.old.items }
    requires room { length slots.old.items < vec_capacity slots.old + length free.old.items }
    requires count { vec_capacity slots.old ≤ MAX_LEAVES }
    ensures taken { IsTaken slots.old.items slots.new.items free.old.items free.new.items result }
    ensures empty { AreEmpty slots.new.items free.new.items }
    ensures capacity { vec_capacity slots.new ≡ vec_capacity slots.old }
    ensures free_capacity { vec_capacity free.old ≤ vec_capacity free.new }
{
    if let Some(slot) = free.pop() {
        return slot;
    }
    let slot = slots.len() as u32;
    slots.push_reserved(Leaf::new());
    slot
}

impl LeafList {
    /// No leaves, with room for `count` of them.
    ///
    /// # Errors
    /// The allocator refused memory.
    pub(crate) fn new(alloc: Global, count: usize) -> Result<LeafList, AllocError>
        requires { count ≤ MAX_LEAVES }
        ensures { IfOk result (λ list. list ≡ record { leaves = []; capacity = count }) }
    {
        Ok(LeafList {
            slots: Vec::with_capacity(alloc, count)?,
            order: Vec::with_capacity(alloc, count)?,
            free: Vec::with_capacity(alloc, count)?,
        })
    }

    /// The leaf at an index.
    pub(crate) fn leaf(&self, index: usize) -> &Leaf
        requires { index < length self.now.leaves }
        ensures { result.now ≡ leaf_at self.now.leaves index }
    {
        &self.slots[self.order[index] as usize]
    }

    /// Replaces the records of a leaf from one offset to another.
    pub(crate) fn splice(&mut self, index: usize, from: usize, to: usize, runs: &[Run])
        requires leaf { index < length self.old.leaves }
        requires range { (from ≤ to) × (to ≤ length (leaf_at self.old.leaves index)) }
        requires room { length (leaf_at self.old.leaves index) + length runs.now ≤ MAX_LEAF + (to - from) }
        ensures { self.new ≡ record self.old {
          leaves = slice_set self.old.leaves index
              (splice_list (leaf_at self.old.leaves index) from to runs.now);
        } }
    {
        let slot = self.order[index] as usize;
        self.slots[slot].splice(from, to, runs);
    }

    /// Adds a leaf without records at an index.
    pub(crate) fn open(&mut self, index: usize)
        requires index { index ≤ length self.old.leaves }
        requires room { length self.old.leaves < self.old.capacity }
        ensures { self.new ≡ record self.old { leaves = insert self.old.leaves index [] } }
    {
        let slot = take_slot(&mut self.slots, &mut self.free);
        let inserted = self.order.insert(index, slot);
        prove!(inserted.is_ok());
        let _ = inserted;
    }

    /// Removes a leaf with its records.
    pub(crate) fn close(&mut self, index: usize)
        requires { index < length self.old.leaves }
        ensures { self.new ≡ record self.old { leaves = remove self.old.leaves index } }
    {
        let slot = self.order.remove(index);
        self.slots[slot as usize].clear();
        self.free.push_reserved(slot);
    }
}
