//! The parts of each [`Pool`](crate::Pool) and [`UnlinkedPool`](crate::UnlinkedPool), and the place
//! of their blocks. A pool keeps nothing beside the parts that are listed.
ghost use Rattle.sg_pool.specs.Parts.{BlocksLieInOrder, PoolHasOnlyItsParts, PoolIsItsParts};
ghost use Rattle.sg_pool.specs.Parts.{BlocksAreTheirParts, BlocksHaveOnlyTheirParts};
ghost use Rattle.sg_pool.specs.Parts.{UnlinkedPoolHasOnlyItsParts, UnlinkedPoolIsItsParts};
ghost use Rattle.sg_pool.specs.Parts.{LinksAreTheirParts, LinksHaveOnlyTheirParts};

/// A [`Pool`](crate::Pool) is made of its blocks, its links, three numbers for the free slots, and
/// the number of followed links.
pub fn a_pool_is_made_of_its_blocks_and_links()
    ensures { PoolIsItsParts }
{}

/// These are its fields, each of a listed type, and it has no other field.
pub fn a_pool_has_only_its_parts()
    ensures { PoolHasOnlyItsParts }
{}

/// The links of a pool are made of one number for each slot, and of seven numbers for its jump and
/// its leap.
pub fn links_are_made_of_numbers_for_each_slot()
    ensures { LinksAreTheirParts }
{}

/// These numbers are the only fields of the links, each in a vector of its listed type.
pub fn links_have_only_their_numbers()
    ensures { LinksHaveOnlyTheirParts }
{}

/// An [`UnlinkedPool`](crate::UnlinkedPool) is made of its blocks, a set of used slots in bits, and
/// the number of its free slots.
pub fn an_unlinked_pool_is_made_of_its_blocks_and_bits()
    ensures { UnlinkedPoolIsItsParts }
{}

/// These are its fields, each of a listed type, and it has no other field.
pub fn an_unlinked_pool_has_only_its_parts()
    ensures { UnlinkedPoolHasOnlyItsParts }
{}

/// The blocks of a pool are made of one vector, the number of blocks in it, and the number of all
/// blocks.
pub fn blocks_are_made_of_one_vector()
    ensures { BlocksAreTheirParts }
{}

/// These are the only fields of the blocks.
pub fn blocks_have_only_their_vector()
    ensures { BlocksHaveOnlyTheirParts }
{}

/// The blocks lie in one vector, each at the place of its slot. So a block stays at its place in the
/// vector for as long as its address keeps its slot. The vector has only zeros before the first
/// block.
pub fn the_blocks_lie_in_the_order_of_their_slots()
    ensures { BlocksLieInOrder }
{}
