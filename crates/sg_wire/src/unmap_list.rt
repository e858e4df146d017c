// The parameter list of UNMAP, read and written.
ghost use Rattle.std.specs.Prelude.{◌≡◌, ◌≤◌, ◌<◌, ◌+◌, ◌-◌, ◌*◌, ◌^◌, ◌++◌, ◌∷◌, [], length, Err, Ok};
ghost use Rattle.std.specs.Prelude.{IfErr, IfOk};
ghost use Rattle.sg_wire.specs.Cut.{Puts};
ghost use Rattle.sg_wire.specs.UnmapList.{descriptor_at, descriptor_count};
ghost use Rattle.sg_wire.specs.UnmapList.{maximum_unmap_descriptors, named_extents};
ghost use Rattle.sg_wire.specs.UnmapList.{unmap_descriptor_length};
ghost use Rattle.sg_wire.specs.UnmapListBytes.{unmap_descriptor, unmap_header, unmap_list_bytes};
ghost use Rattle.sg_wire.specs.UnmapList.{unmap_header_length, unmap_list, unmap_list_length};

use crate::cut::Cut;
use crate::extent::Extent;
use arrayvec::ArrayVec;
use byteorder::{BigEndian, ByteOrder};
use std::marker::Model;
use thiserror::Error;

/// The most block descriptors that a list has. The Block Limits page reports this number.
pub const MAXIMUM_UNMAP_DESCRIPTORS: usize = 64;

/// The reason why bytes are no parameter list of UNMAP. The first reason that applies is returned.
#[derive(Clone, Copy, Debug, Error, PartialEq, Eq)]
pub enum UnmapListFault {
    /// There are bytes, but fewer than a header has.
    #[error("the list ends within its header")]
    Short,
    /// There are more than [`MAXIMUM_UNMAP_DESCRIPTORS`] block descriptors.
    #[error("the list has too many block descriptors")]
    TooManyDescriptors,
}

/// The parameter list of UNMAP (SBC-3, 5.28.2): extents in order, at most
/// [`MAXIMUM_UNMAP_DESCRIPTORS`].
#[derive(Drop)]
pub struct UnmapList {
    extents: ArrayVec<Extent, MAXIMUM_UNMAP_DESCRIPTORS>,
}

impl Model for UnmapList {
    ghost use Rattle.std.specs.Prelude.{List};
    ghost use Rattle.sg_wire.specs.declared.extent.Extent.{Extent};

    ghost Value = { List Extent };

    ghost view = { λ l. l.extents.items };
}

/// The extents of a list's bytes, read at their place as often as they are needed. So a command
/// whose list was checked has no table of them.
#[derive(Drop)]
pub struct ListedExtents<'a> {
    bytes: &'a [u8],
    count: usize,
    only_with_blocks: bool,
    ghost at_most: { count ≤ maximum_unmap_descriptors },
    ghost whole: { unmap_descriptor_length * count ≤ length bytes.now - unmap_header_length },
}

impl<'a> Model for ListedExtents<'a> {
    ghost use Rattle.std.specs.Prelude.{List};
    ghost use Rattle.sg_wire.specs.UnmapList.{first_descriptors, named_extents};
    ghost use Rattle.sg_wire.specs.declared.extent.Extent.{Extent};

    ghost Value = { List Extent };

    ghost view = { λ e. named_extents e.only_with_blocks (first_descriptors e.bytes.now e.count) };
}

impl UnmapList {
    /// The length of the header, in bytes.
    pub const HEADER_LENGTH: usize = 8;

    /// The first byte of UNMAP BLOCK DESCRIPTOR DATA LENGTH.
    pub const DESCRIPTOR_DATA_LENGTH_AT: usize = 2;

    /// The length of a block descriptor, in bytes.
    pub const DESCRIPTOR_LENGTH: usize = 16;

    /// The length of the longest list, in bytes.
    pub const MAXIMUM_LENGTH: usize = UnmapList::HEADER_LENGTH
        + UnmapList::DESCRIPTOR_LENGTH * MAXIMUM_UNMAP_DESCRIPTORS;

    /// No extent.
    pub fn new() -> UnmapList
        ensures { result ≡ [] }
    {
        UnmapList {
            extents: ArrayVec::new(),
        }
    }

    /// Adds an extent at the end.
    pub fn push(&mut self, extent: Extent)
        requires { length self.old < maximum_unmap_descriptors }
        ensures { self.new ≡ self.old ++ extent ∷ [] }
    {
        self.extents.push(extent);
    }

    /// The extents.
    pub fn as_slice(&self) -> &[Extent]
        ensures extents { result.now ≡ self.now }
        ensures at_most { length result.now ≤ maximum_unmap_descriptors }
    {
        &self.extents
    }

    /// Its PARAMETER LIST LENGTH, in bytes.
    pub fn parameter_list_length(&self) -> u16
        ensures value { result ≡ unmap_list_length (length self.now) }
        ensures at_most { result ≤ unmap_list_length maximum_unmap_descriptors }
    {
        let descriptors = self.as_slice().len();
        (UnmapList::HEADER_LENGTH + UnmapList::DESCRIPTOR_LENGTH * descriptors) as u16
    }

    /// Writes the bytes of the list. Reserved bytes are zero, and reading the bytes returns the
    /// list again.
    pub fn write(&self, cut: &mut Cut)
        ensures bytes { Puts cut.old cut.new (unmap_list_bytes self.now) }
        ensures reads_back { unmap_list (unmap_list_bytes self.now) ≡ Ok self.now }
        ensures length { length (unmap_list_bytes self.now)
            ≤ unmap_list_length maximum_unmap_descriptors }
    {
        let extents = self.as_slice();
        cut.put(&header(extents.len()));
        for extent in extents {
            cut.put(&descriptor(*extent));
        }
    }

    /// Finds the extents of a list in its bytes. UNMAP DATA LENGTH and reserved bytes are ignored.
    /// The rest of a last descriptor that is not whole is ignored too.
    ///
    /// # Errors
    /// The first fault of [`UnmapListFault`], in the order given there.
    #[tactic(auto, unfolding(crate::specs::UnmapList::unmap_list))]
    pub fn read(bytes: &[u8]) -> Result<ListedExtents<'_>, UnmapListFault>
        ensures refused { IfErr result (λ fault. unmap_list bytes.now ≡ Err fault) }
        ensures passed { IfOk result (λ extents. unmap_list bytes.now ≡ Ok extents) }
    {
        if bytes.is_empty() {
            return Ok(ListedExtents {
                bytes,
                count: 0,
                only_with_blocks: false,
            });
        }
        if bytes.len() < UnmapList::HEADER_LENGTH {
            return Err(UnmapListFault::Short);
        }
        let count = descriptor_count(bytes);
        if count > MAXIMUM_UNMAP_DESCRIPTORS {
            return Err(UnmapListFault::TooManyDescriptors);
        }
        Ok(ListedExtents {
            bytes,
            count,
            only_with_blocks: false,
        })
    }
}

impl<'a> ListedExtents<'a> {
    /// These extents, or only those that name a block.
    pub fn named(self, only_with_blocks: bool) -> ListedExtents<'a>
        ensures { result ≡ named_extents only_with_blocks self.entry }
    {
        ListedExtents {
            bytes: self.bytes,
            count: self.count,
            only_with_blocks: only_with_blocks | self.only_with_blocks,
        }
    }

    /// The list of these extents.
    pub fn to_list(&self) -> UnmapList
        ensures { result ≡ self.now }
    {
        let mut list = UnmapList::new();
        for index in 0..self.count {
            push_named(
                &mut list,
                descriptor_at(self.bytes, index),
                self.only_with_blocks,
            );
        }
        list
    }
}

/// Adds an extent at the end, unless it names no block and only those with blocks are asked for.
fn push_named(list: &mut UnmapList, extent: Extent, only_with_blocks: bool)
    requires { length list.old < maximum_unmap_descriptors }
    ensures { list.new ≡ list.old ++ named_extents only_with_blocks (extent ∷ []) }
{
    if !only_with_blocks || extent.count > 0 {
        list.push(extent);
    }
}

fn header(descriptors: usize) -> [u8; UnmapList::HEADER_LENGTH]
    requires { descriptors ≤ maximum_unmap_descriptors }
    ensures { result ≡ unmap_header descriptors }
{
    let descriptor_data_length = UnmapList::DESCRIPTOR_LENGTH * descriptors;
    let data_length = UnmapList::HEADER_LENGTH - 2 + descriptor_data_length;
    let mut bytes = [0; UnmapList::HEADER_LENGTH];
    BigEndian::write_u16(&mut bytes, data_length as u16);
    BigEndian::write_u16(
        &mut bytes[UnmapList::DESCRIPTOR_DATA_LENGTH_AT..],
        descriptor_data_length as u16,
    );
    bytes
}

fn descriptor(extent: Extent) -> [u8; UnmapList::DESCRIPTOR_LENGTH]
    ensures bytes { result ≡ unmap_descriptor extent }
    ensures lba { extent.lba < 2 ^ 64 }
    ensures count { extent.count < 2 ^ 32 }
{
    let mut bytes = [0; UnmapList::DESCRIPTOR_LENGTH];
    BigEndian::write_u64(&mut bytes, extent.lba);
    BigEndian::write_u32(&mut bytes[8..], extent.count);
    bytes
}

#[tactic(auto, unfolding(crate::specs::UnmapList::descriptor_count))]
fn descriptor_count(bytes: &[u8]) -> usize
    requires { unmap_header_length ≤ length bytes.now }
    ensures value { result ≡ descriptor_count bytes.now }
    ensures whole { unmap_list_length result ≤ length bytes.now }
{
    let field = BigEndian::read_u16(&bytes[UnmapList::DESCRIPTOR_DATA_LENGTH_AT..]);
    let behind = bytes.len() - UnmapList::HEADER_LENGTH;
    usize::from(field).min(behind) / UnmapList::DESCRIPTOR_LENGTH
}

#[tactic(auto, unfolding(crate::specs::UnmapList::descriptor_at))]
fn descriptor_at(bytes: &[u8], index: usize) -> Extent
    requires { unmap_list_length (index + 1) ≤ length bytes.now }
    ensures { result ≡ descriptor_at bytes.now index }
{
    let at = UnmapList::HEADER_LENGTH + UnmapList::DESCRIPTOR_LENGTH * index;
    Extent {
        lba: BigEndian::read_u64(&bytes[at..]),
        count: BigEndian::read_u32(&bytes[at + 8..]),
    }
}
