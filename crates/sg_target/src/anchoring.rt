// Anchoring the extents of a command: the blocks that they need are counted first, and then they
// are anchored in turn, as they were sent.
ghost use Rattle.std.specs.Prelude.{◌≡◌, ◌+◌, ◌≤◌, ◌++◌, ◌↔◌, List, length, IsErr, OnOk, OnErr};
ghost use Rattle.std.specs.FinMap.{len};
ghost use Rattle.sg_wire.specs.UnmapList.{maximum_unmap_descriptors};
ghost use Rattle.sg_store.specs.Disk.{IsOverfull, anchored, disk_anchored};
ghost use Rattle.sg_store.specs.Meter.{Charged, HasHeadroom, Meter, no_counts};
ghost use Rattle.sg_target.specs.Anchoring.{AreOfOneList, CostsOnOk, HasAllowedSize, counted_ranges};
ghost use Rattle.sg_target.specs.Anchoring.{need_of, visits_of_list, disk_changed_in_turn};
ghost use Rattle.sg_target.specs.Charge.{IsCounted, cost_bounds};
ghost use Rattle.sg_target.specs.Extents.{AreOnDisk};
ghost use Rattle.sg_target.specs.Joining.{AreWithin};
ghost use Rattle.sg_target.specs.ProvisioningCommands.{changed_in_turn};
ghost use Rattle.sg_target.specs.Ranges.{Range, anchoring_ranges, ranges_in_turn};

use crate::joining::{AddressRange, joined};
use sg_store::laws::remapping_takes_what_is_needed;
use sg_store::{Space, Store};
use sg_wire::Extent;

/// The number of blocks of the pool that ranges need, of a store that has counted nothing.
fn count_needed<S: Store>(store: &mut S, ranges: &[AddressRange]) -> u64
    requires at_most { length ranges.now ≤ maximum_unmap_descriptors }
    requires fits { AreWithin (S.disk store.old).capacity ranges.now }
    requires size { HasAllowedSize (S.disk store.old) }
    requires nothing_counted { (S.meter store.old).counts ≡ no_counts }

    // The disk stays as it is.
    ensures value { result ≡ need_of (S.disk store.old).contents ranges.now }
    ensures disk { S.disk store.new ≡ S.disk store.old }

    // What it costs.
    ensures counted { IsCounted (cost_bounds S.price S.least) (S.disk store.old).pool
        (counted_ranges (S.disk store.old).contents ranges.now)
        (S.meter store.old) (S.meter store.new) }
    ensures visits { (S.meter store.new).counts.visits ≤ visits_of_list }
{
    remapping_takes_what_is_needed();
    let mut needed = 0;
    for range in ranges {
        needed += store.need(range.lba, range.count);
    }
    needed
}

/// Anchors an extent for which the pool has blocks.
fn anchor_with_room<S: Store>(store: &mut S, extent: Extent)
    requires range { extent.lba + extent.count ≤ (S.disk store.old).capacity }
    requires headroom { HasHeadroom (S.meter store.old).counts }
    requires room { len (anchored (S.disk store.old).contents extent.lba extent.count)
        ≤ (S.disk store.old).pool }
    ensures disk { S.disk store.new ≡ disk_anchored (S.disk store.old) extent.lba extent.count }
    ensures costs { Charged (S.disk store.old).pool
        (S.price (S.disk store.old).contents extent.lba extent.count)
        (S.least (S.disk store.old).contents extent.lba extent.count)
        (S.meter store.old) (S.meter store.new) }
{
    let anchored = store.anchor(extent.lba, extent.count);
    prove!(anchored.is_ok());
    let _ = anchored;
}

/// Anchors extents in turn, for which the pool has blocks.
fn anchor_in_turn<S: Store>(store: &mut S, extents: &[Extent])
    requires at_most { length extents.now ≤ maximum_unmap_descriptors }
    requires on_disk { AreOnDisk (S.disk store.old).capacity extents.now }
    requires size { HasAllowedSize (S.disk store.old) }
    requires room { len (changed_in_turn anchored (S.disk store.old).contents extents.now)
        ≤ (S.disk store.old).pool }
    requires counts { AreOfOneList (S.meter store.old).counts }

    // All of them are anchored.
    ensures disk { S.disk store.new
        ≡ disk_changed_in_turn anchored (S.disk store.old) extents.now }

    // Whatever was counted before.
    ensures counted { (before : Meter) (over : List Range)
        → IsCounted (cost_bounds S.price S.least) (S.disk store.old).pool over before
        (S.meter store.old)
        → IsCounted (cost_bounds S.price S.least) (S.disk store.old).pool
        (over ++ ranges_in_turn anchored (S.disk store.old).contents extents.now) before
        (S.meter store.new) }
{
    remapping_takes_what_is_needed();
    for extent in extents {
        anchor_with_room(store, *extent);
    }
}

/// Anchors extents in turn, if a pool of `pool` blocks has enough for them, of a store that has
/// counted nothing.
///
/// # Errors
/// The pool has too few blocks for the addresses of all extents. Nothing is anchored then.
pub(crate) fn anchor_extents<S: Store>(
    store: &mut S,
    pool: u32,
    extents: &[Extent],
) -> Result<(), Space>
    requires size { (pool ≡ (S.disk store.old).pool) × HasAllowedSize (S.disk store.old) }
    requires at_most { length extents.now ≤ maximum_unmap_descriptors }
    requires on_disk { AreOnDisk (S.disk store.old).capacity extents.now }
    requires nothing_counted { (S.meter store.old).counts ≡ no_counts }

    // An address that is in two extents needs one block.
    ensures space { IsErr result
        ↔ IsOverfull (disk_changed_in_turn anchored (S.disk store.old) extents.now) }
    ensures ok { OnOk result (S.disk store.new
        ≡ disk_changed_in_turn anchored (S.disk store.old) extents.now) }
    ensures err { OnErr result (S.disk store.new ≡ S.disk store.old) }

    // What it costs.
    ensures costs { CostsOnOk result (cost_bounds S.price S.least) (S.disk store.old).pool
        (anchoring_ranges (S.disk store.old) extents.now)
        (S.meter store.old) (S.meter store.new) }
{
    remapping_takes_what_is_needed();
    let ranges = joined(extents);
    let needed = count_needed(store, ranges.as_slice());
    if needed > u64::from(pool - store.used()) {
        return Err(Space);
    }
    anchor_in_turn(store, extents);
    Ok(())
}
