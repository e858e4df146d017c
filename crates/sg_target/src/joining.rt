// The addresses of a command's extents, in ranges that have no address in common. It knows no
// store.
ghost use Rattle.std.specs.Prelude.{◌≡◌, ◌<◌, ◌≤◌, ◌∷◌, length, map};
ghost use Rattle.sg_target.specs.Joining.{AreDisjoint, AreJoined, AreWithin, end_of};
ghost use Rattle.sg_target.specs.Joining.{joined_if_near, range_of};
ghost use Rattle.sg_wire.specs.UnmapList.{maximum_unmap_descriptors};

use arrayvec::ArrayVec;
use sg_store::MAX_CAPACITY;
use sg_wire::{Extent, MAXIMUM_UNMAP_DESCRIPTORS};

/// Addresses from one on. Extents that overlap may have more addresses together than one extent can
/// name.
#[derive(Clone, Copy, Default)]
pub(crate) struct AddressRange {
    pub(crate) lba: u64,
    pub(crate) count: u64,
}

impl AddressRange {
    fn of(extent: Extent) -> AddressRange
        ensures { result ≡ range_of extent }
    {
        AddressRange {
            lba: extent.lba,
            count: u64::from(extent.count),
        }
    }

    /// Both as one, if they overlap or one begins at the other's end.
    fn joined(self, other: AddressRange) -> Option<AddressRange>
        requires fits { (end_of self ≤ MAX_CAPACITY) × (end_of other ≤ MAX_CAPACITY) }
        ensures { result ≡ joined_if_near self other }
    {
        let (end, other_end) = (self.lba + self.count, other.lba + other.count);
        if end < other.lba || other_end < self.lba {
            return None;
        }
        let lba = self.lba.min(other.lba);
        Some(AddressRange {
            lba,
            count: end.max(other_end) - lba,
        })
    }
}

/// Ranges of addresses, as many as a command names at most.
pub(crate) type RangeList = ArrayVec<AddressRange, MAXIMUM_UNMAP_DESCRIPTORS>;

/// Ranges without an address in common, and one more: the ranges that are near it are joined to it.
fn with_range(ranges: &[AddressRange], range: AddressRange) -> RangeList
    requires disjoint { AreDisjoint ranges.now }
    requires fits { AreWithin MAX_CAPACITY (range ∷ ranges.now) }
    requires room { length ranges.now < maximum_unmap_descriptors }
    ensures { AreJoined (range ∷ ranges.now) result.items }
{
    let mut apart = RangeList::new();
    let mut grown = range;
    for other in ranges {
        match grown.joined(*other) {
            Some(both) => grown = both,
            None => apart.push(*other),
        }
    }
    apart.push(grown);
    apart
}

/// The addresses of extents, in ranges that have no address in common.
pub(crate) fn joined(extents: &[Extent]) -> RangeList
    requires at_most { length extents.now ≤ maximum_unmap_descriptors }
    requires fits { AreWithin MAX_CAPACITY (map range_of extents.now) }
    ensures { AreJoined (map range_of extents.now) result.items }
{
    let mut joined = RangeList::new();
    for extent in extents {
        joined = with_range(joined.as_slice(), AddressRange::of(*extent));
    }
    joined
}
