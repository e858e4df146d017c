// The link of each slot. Beside the links there are jumps and leaps, which say no more than the
// links say. No contract of `Links` shows them.
ghost use Rattle.std.specs.Prelude.{◌≡◌, ◌<◌, ◌≤◌, length, replicate, slice_index, slice_set, IfOk};
ghost use Rattle.sg_pool.specs.Chains.{chain, slot_after, AreBelow};

use crate::jumps::{Jumps, zero_lengths, zero_numbers};
use crate::leaps::{Leaps, walk};
use std::alloc::{AllocError, Global};
use std::marker::Model;

/// The most slots that links connect. The number of each fits two bytes.
pub const MAX_SLOTS: u32 = 65_536;

/// A link from each slot to the next one of its chain.
#[derive(Drop)]
pub(crate) struct Links {
    next: Vec<u16>,
    jumps: Jumps,
    leaps: Leaps,
}

impl Model for Links {
    ghost use Rattle.std.specs.Prelude.{◌≤◌, ℕ, List, length};
    ghost use Rattle.sg_pool.specs.Jumps.{AreJumps, AreLeaps};
    ghost use Rattle.sg_pool.specs.declared.links.TheConstants.{MAX_SLOTS};

    ghost Value = { List ℕ };

    ghost view = { λ l. l.next.items };

    ghost invariant = { λ l. (length l.next.items ≤ MAX_SLOTS)
        × AreJumps l.next.items l.jumps
        × AreLeaps l.jumps l.leaps };
}

impl Links {
    /// The links of `count` slots, each of them to slot 0.
    ///
    /// # Errors
    /// The allocator refused memory.
    pub(crate) fn new(alloc: Global, count: u32) -> Result<Links, AllocError>
        requires { count ≤ MAX_SLOTS }
        ensures { IfOk result (λ links. links ≡ replicate count 0) }
    {
        Ok(Links {
            next: zero_numbers(alloc, count)?,
            jumps: Jumps {
                owner: zero_numbers(alloc, count)?,
                count: zero_lengths(alloc, count)?,
                target: zero_numbers(alloc, count)?,
            },
            leaps: Leaps {
                owner: zero_numbers(alloc, count)?,
                count: zero_lengths(alloc, count)?,
                landing: zero_numbers(alloc, count)?,
                reach: zero_numbers(alloc, count)?,
            },
        })
    }

    /// The number of slots.
    pub(crate) fn count(&self) -> usize
        ensures { result ≡ length self.now }
    {
        self.next.len()
    }

    /// The slot after another.
    pub(crate) fn get(&self, slot: u32) -> u32
        requires { slot < length self.now }
        ensures slot { result ≡ slice_index self.now slot }
        ensures fits { result < MAX_SLOTS }
    {
        u32::from(self.next[slot as usize])
    }

    /// Changes the link of a slot. This drops the jump over the link, and the leap over that jump,
    /// if there are any.
    pub(crate) fn set(&mut self, slot: u32, to: u32)
        requires slot { slot < length self.old }
        requires to { to < MAX_SLOTS }
        ensures { self.new ≡ slice_set self.old slot to }
    {
        let jumper = self.jumps.owner[slot as usize] as usize;
        let leaper = self.leaps.owner[jumper] as usize;
        self.leaps.count[leaper] = 0;
        self.jumps.count[jumper] = 0;
        self.next[slot as usize] = to as u16;
    }

    /// The slot that is `count` links after another, and the number of steps to it. A later call
    /// may take fewer steps.
    pub(crate) fn follow(&mut self, first: u32, count: u32) -> (u32, u32)
        requires { AreBelow (length self.old) (chain self.old first count) }
        ensures slot { result.0 ≡ slot_after self.old first count }
        ensures steps { result.1 ≤ count }
        ensures links { self.new ≡ self.old }
    {
        if count == 0 {
            return (first, 0);
        }
        let walk = walk(
            &self.next,
            &mut self.jumps,
            &mut self.leaps,
            first as u16,
            count,
        );
        (u32::from(walk.slot), walk.steps)
    }
}
