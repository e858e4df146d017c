// The changes of what a power cycle leaves, and their records.
ghost use Rattle.std.specs.Prelude.{◌≡◌, ◌≤◌, Some};
ghost use Rattle.sg_changes.specs.Borrowed.{HasWholeBlocks, change_of, room_for};
ghost use Rattle.sg_changes.specs.Change.{applied};
ghost use Rattle.sg_changes.specs.KeptFields.{KeptFields};
ghost use Rattle.sg_changes.specs.Replay.{replayed};
ghost use Rattle.sg_changes.specs.Records.{change};
ghost use Rattle.sg_changes.specs.Writing.{Takes};

use crate::fault_writing::put_faults;
use crate::reservation_writing::put_reservations;
use crate::sink::Sink;
use crate::tag;
use crate::writing::{put_extent, put_fill, put_pages, put_range, put_u8, put_u64, put_write};
use sg_faults::Faults;
use sg_pages::PageValues;
use sg_store::BLOCK_LENGTH;
use sg_units::Reservations;
use sg_wire::Extent;

/// A change that a command makes to what a power cycle leaves.
#[derive(Clone, Copy)]
pub enum Change<'a> {
    /// The blocks of an extent are replaced by these, which are just as many.
    Write {
        extent: Extent,
        blocks: &'a [u8],
    },
    /// Each block of an extent is replaced by this one.
    Fill {
        extent: Extent,
        block: &'a [u8; BLOCK_LENGTH],
    },
    /// The addresses from one on are unmapped.
    Unmap {
        lba: u64,
        count: u64,
    },
    /// The addresses of an extent are anchored.
    Anchor {
        extent: Extent,
    },
    /// The mode pages have these saved values.
    Pages(&'a PageValues),
    /// Registrations and reservation are these. They are kept if they persist through a power loss.
    Reservations(&'a Reservations),
    /// These faults are armed.
    Faults(&'a Faults),
    /// The disk has grown to this number of addresses.
    Grow {
        capacity: u64,
    },
}

impl Change<'_> {
    /// The room that a sink needs for its record at most, in bytes.
    pub fn room(&self) -> usize
        ensures { result ≡ room_for (change_of self.now) }
    {
        match self {
            Change::Write { blocks, .. } => 13 + blocks.len(),
            Change::Fill { .. } => 525,
            Change::Unmap { .. } => 17,
            Change::Anchor { .. } => 13,
            Change::Pages(_) => 77,
            Change::Reservations(_) => 583,
            Change::Faults(_) => 3289,
            Change::Grow { .. } => 9,
        }
    }

    /// Writes its record.
    pub fn write<S: Sink>(&self, sink: &mut S)
        requires room { room_for (change_of self.now) ≤ S.room sink.old }
        requires whole { HasWholeBlocks (change_of self.now) }
        ensures record { Takes S.contents S.room change (room_for (change_of self.now)) sink.old
            sink.new (change_of self.now) }
        // Replaying its record after others applies the change.
        ensures replayed { (before after : KeptFields)
            → replayed (S.contents sink.old) before ≡ Some after
            → replayed (S.contents sink.new) before ≡ applied after (change_of self.now) }
    {
        self.put(sink);
    }

    fn put<S: Sink>(&self, sink: &mut S)
        requires room { room_for (change_of self.now) ≤ S.room sink.old }
        requires whole { HasWholeBlocks (change_of self.now) }
        ensures { Takes S.contents S.room change (room_for (change_of self.now)) sink.old sink.new
            (change_of self.now) }
    {
        match *self {
            Change::Write { extent, blocks } => {
                put_u8(sink, tag::WRITE);
                put_write(sink, extent, blocks);
            }
            Change::Fill { extent, block } => {
                put_u8(sink, tag::FILL);
                put_fill(sink, extent, block);
            }
            Change::Unmap { lba, count } => {
                put_u8(sink, tag::UNMAP);
                put_range(sink, lba, count);
            }
            Change::Anchor { extent } => {
                put_u8(sink, tag::ANCHOR);
                put_extent(sink, extent);
            }
            Change::Pages(saved) => {
                put_u8(sink, tag::PAGES);
                put_pages(sink, saved);
            }
            Change::Reservations(state) => {
                put_u8(sink, tag::RESERVATIONS);
                put_reservations(sink, state);
            }
            Change::Faults(armed) => {
                put_u8(sink, tag::FAULTS);
                put_faults(sink, armed);
            }
            Change::Grow { capacity } => {
                put_u8(sink, tag::GROW);
                put_u64(sink, capacity);
            }
        }
    }
}
