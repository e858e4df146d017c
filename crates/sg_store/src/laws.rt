//! The effects and the reports of a store's calls, address by address: laws above the definitions
//! that [`Store`](crate::Store) cites.
ghost use Rattle.sg_store.specs.Laws.{WritesEachBlock, MapsEachAddress};
ghost use Rattle.sg_store.specs.Laws.{FillsEachBlock, FillMapsEachAddress};
ghost use Rattle.sg_store.specs.Laws.{UnmapsEachBlock, UnmapsEachAddress};
ghost use Rattle.sg_store.specs.Laws.{AnchorZeroesEachBlock, AnchorsEachAddress};
ghost use Rattle.sg_store.specs.Laws.{ReportsEachStatus, CoversTheRest, CoversTheMost};
ghost use Rattle.sg_store.specs.Laws.{DisksStayWellFormed, RemappingTakesWhatIsNeeded};

/// After a write, the block at an address is the one given for it inside the range, and the old one
/// outside.
pub fn a_write_replaces_the_blocks_of_its_range()
    ensures { WritesEachBlock }
{}

/// After a write, the addresses of the range are mapped, and the others are as they were.
pub fn a_write_maps_the_addresses_of_its_range()
    ensures { MapsEachAddress }
{}

/// After a fill, the block at an address is the given block inside the range, and the old one
/// outside.
pub fn a_fill_puts_one_block_at_each_address_of_its_range()
    ensures { FillsEachBlock }
{}

/// After a fill, the addresses of the range are mapped, and the others are as they were.
pub fn a_fill_maps_the_addresses_of_its_range()
    ensures { FillMapsEachAddress }
{}

/// After an unmap, the block at an address is zeros inside the range, and the old one outside. So
/// no call can read the bytes that were written there before.
pub fn an_unmap_zeroes_the_blocks_of_its_range()
    ensures { UnmapsEachBlock }
{}

/// After an unmap, the addresses of the range are deallocated, and the others are as they were.
pub fn an_unmap_deallocates_the_addresses_of_its_range()
    ensures { UnmapsEachAddress }
{}

/// After an anchoring, the block at an address is zeros inside the range, and the old one outside.
/// So no call can read the bytes that were written there before.
pub fn an_anchoring_zeroes_the_blocks_of_its_range()
    ensures { AnchorZeroesEachBlock }
{}

/// After an anchoring, the addresses of the range are anchored, and the others are as they were.
pub fn an_anchoring_anchors_the_addresses_of_its_range()
    ensures { AnchorsEachAddress }
{}

/// GET LBA STATUS reports, for each address that it covers, the provisioning status of the address.
pub fn each_status_that_is_reported_is_that_of_the_address()
    ensures { ReportsEachStatus }
{}

/// GET LBA STATUS covers the addresses up to the end of the disk, unless it has as many descriptors
/// as an answer may have.
pub fn an_answer_with_room_left_covers_the_rest_of_the_disk()
    ensures { CoversTheRest }
{}

/// Each descriptor of GET LBA STATUS covers as many addresses as it can. It ends with the disk, at
/// its greatest count, or before an address of another status.
pub fn each_descriptor_covers_as_many_addresses_as_it_can()
    ensures { CoversTheMost }
{}

/// A disk stays well-formed if its addresses are mapped to whole blocks or anchored, if addresses
/// are deallocated, and if it gets more addresses.
pub fn disks_stay_well_formed()
    ensures { DisksStayWellFormed }
{}

/// Remapping addresses changes only these, and takes as many blocks of the pool as they need.
pub fn remapping_takes_what_is_needed()
    ensures { RemappingTakesWhatIsNeeded }
{}
