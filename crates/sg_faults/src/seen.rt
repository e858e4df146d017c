// A command as faults see it.
ghost use Rattle.std.specs.List.{list_any};
ghost use Rattle.std.specs.Prelude.{◌≡◌};
ghost use Rattle.sg_store.specs.Disk.{lies_in};
ghost use Rattle.sg_faults.specs.Meeting.{contains, first_common, first_in, first_overwritten};
ghost use Rattle.sg_faults.specs.Meeting.{first_read, has_block, one_contains, reaches_medium};
ghost use Rattle.sg_faults.specs.Overwritten.{extents_of};

use sg_wire::{Extent, Initiator};
use std::marker::Model;

/// The blocks that a command writes, whatever they contain.
#[derive(Drop)]
pub enum Overwritten<'a> {
    /// The blocks of these extents.
    Extents(&'a [Extent]),
    /// All blocks of a disk with this number of blocks. They may be more than an extent can name.
    Disk(u64),
}

impl Overwritten<'_> {
    /// Returns `true` if there is a block.
    fn has_block(&self) -> bool
        ensures { result ≡ list_any has_block (extents_of self.now) }
    {
        match self {
            Overwritten::Extents(extents) => extents.iter().any(|extent| extent.count > 0),
            Overwritten::Disk(count) => *count > 0,
        }
    }

    /// The first of some blocks that is overwritten. If several extents have one, the first extent decides.
    fn first_in(&self, blocks: Extent) -> Option<u64>
        ensures { result ≡ first_in (extents_of self.now) blocks }
    {
        match self {
            Overwritten::Extents(extents) => first_in_extents(extents, blocks),
            Overwritten::Disk(count) => first_common(0, *count, blocks),
        }
    }

    /// Returns `true` if one of the extents contains some blocks whole.
    fn one_contains(&self, blocks: Extent) -> bool
        ensures { result ≡ one_contains (extents_of self.now) blocks }
    {
        match self {
            Overwritten::Extents(extents) => one_contains(extents, blocks),
            Overwritten::Disk(count) => contains(0, *count, blocks),
        }
    }
}

/// What a fault knows of a command. A command that a check refuses reads and writes no block.
#[derive(Drop)]
pub struct SeenCommand<'a> {
    /// The initiator that sends it.
    pub initiator: Initiator,
    /// Its operation code, the first byte of its CDB. None if the CDB has no byte.
    pub code: Option<u8>,
    /// The blocks that it reads, before it writes any.
    pub read: Option<Extent>,
    /// The blocks that it writes, whatever they contain.
    pub overwritten: Overwritten<'a>,
}

impl<'a> Model for SeenCommand<'a> {
    ghost use Rattle.sg_faults.specs.Meeting.{Seen};
    ghost use Rattle.sg_faults.specs.Overwritten.{extents_of};

    ghost Value = { Seen };

    ghost view = { λ c. record {
      initiator = c.initiator;
      code = c.code;
      read = c.read;
      overwritten = extents_of c.overwritten;
    } };
}

impl SeenCommand<'_> {
    /// Returns `true` if it reads or writes at least one block.
    pub fn reaches_medium(&self) -> bool
        ensures { result ≡ reaches_medium self.now }
    {
        self.read.is_some_and(|extent| extent.count > 0) || self.overwritten.has_block()
    }

    /// The first of some blocks that it reads.
    pub(crate) fn first_read(&self, blocks: Extent) -> Option<u64>
        ensures { result ≡ first_read self.now blocks }
    {
        let read = self.read?;
        first_common(read.lba, u64::from(read.count), blocks)
    }

    /// The first of some blocks that it overwrites.
    pub(crate) fn first_overwritten(&self, blocks: Extent) -> Option<u64>
        ensures { result ≡ first_overwritten self.now blocks }
    {
        self.overwritten.first_in(blocks)
    }

    /// Returns `true` if it overwrites all of some blocks.
    pub(crate) fn overwrites(&self, blocks: Extent) -> bool
        ensures { result ≡ one_contains self.now.overwritten blocks }
    {
        self.overwritten.one_contains(blocks)
    }
}

/// The first of some blocks that one of some extents names.
fn first_in_extents(extents: &[Extent], blocks: Extent) -> Option<u64>
    ensures { result ≡ first_in extents.now blocks }
{
    for extent in extents {
        let first = first_common(extent.lba, u64::from(extent.count), blocks);
        if first.is_some() {
            return first;
        }
    }
    None
}

/// One of some extents contains blocks whole.
fn one_contains(extents: &[Extent], blocks: Extent) -> bool
    ensures { result ≡ one_contains extents.now blocks }
{
    extents.iter().any(|extent| contains(extent.lba, u64::from(extent.count), blocks))
}

/// The first address that a range and an extent have in common.
fn first_common(lba: u64, count: u64, blocks: Extent) -> Option<u64>
    ensures { result ≡ first_common (record { lba = lba; count = count }) blocks }
{
    let first = lba.max(blocks.lba);
    if lies_in(lba, count, first) && lies_in(blocks.lba, u64::from(blocks.count), first) {
        Some(first)
    } else {
        None
    }
}

/// An address lies in a range.
fn lies_in(lba: u64, count: u64, address: u64) -> bool
    ensures { result ≡ lies_in lba count address }
{
    lba <= address && address - lba < count
}

/// A range contains some blocks whole.
fn contains(lba: u64, count: u64, blocks: Extent) -> bool
    ensures { result ≡ contains (record { lba = lba; count = count }) blocks }
{
    lba <= blocks.lba
        && blocks.lba - lba <= count
        && u64::from(blocks.count) <= count - (blocks.lba - lba)
}
