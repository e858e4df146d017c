// The new content of the addresses of a range. This file knows no address and no record.
ghost use Rattle.std.specs.Prelude.{◌≡◌, ◌<◌, length};
ghost use Rattle.sg_store.specs.Disk.{HasBlockLength};
ghost use Rattle.sg_pool.specs.MappedRecords.{filled_slot};
ghost use Rattle.sg_pool.specs.Content.{kind_for, mapping_for};

use crate::slot_blocks::SlotBlocks;
use crate::source::Source;
use sg_table::Kind;

/// The new content of the addresses of a range.
#[derive(Drop)]
pub enum Content<'a> {
    /// The blocks of a source.
    Blocks(&'a Source<'a>),
    /// No data: they are anchored.
    Anchor,
}

impl Content<'_> {
    /// The kind of the records.
    pub fn kind(&self) -> Kind
        ensures { result ≡ kind_for self.now }
    {
        match self {
            Content::Blocks(_) => Kind::Data,
            Content::Anchor => Kind::Anchored,
        }
    }

    /// Puts the block for an index of the range into a slot. The slot of an anchored address keeps
    /// its bytes, and no reader sees them.
    pub(crate) fn fill(&self, blocks: &mut SlotBlocks, slot: u32, index: usize)
        requires slot { slot < length blocks.old }
        requires whole { HasBlockLength (mapping_for self.now index) }
        ensures { blocks.new ≡ filled_slot blocks.old slot (mapping_for self.now index) }
    {
        match self {
            Content::Blocks(source) => blocks.set(slot, source.block(index)),
            Content::Anchor => {}
        }
    }
}
