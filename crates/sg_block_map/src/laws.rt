//! The laws of every [`BlockMap`](crate::BlockMap).
ghost use Rattle.sg_block_map.specs.Parts.{HasOnlyItsParts, IsMadeOfParts};
ghost use Rattle.sg_block_map.specs.RunLaws.{HasExactlyTheMaximalRuns, RunsRise};

/// A [`BlockMap`](crate::BlockMap) is made of its capacity, its table and its pool. So it keeps no
/// record outside the table, and the table counts a record when a call reads it.
pub fn a_block_map_is_made_of_its_parts()
    ensures { IsMadeOfParts }
{}

/// These and two lists of records, which are empty between calls, are its fields, each of a listed
/// type. It has no other field.
pub fn a_block_map_has_only_its_parts()
    ensures { HasOnlyItsParts }
{}

/// The records of a [`BlockMap`](crate::BlockMap) are the maximal runs. A run of addresses is
/// maximal if and only if two rules hold. It has at least one address, and all its addresses have
/// its kind. The address before it and the address after it do not have its kind.
pub fn the_runs_are_those_that_no_address_of_their_kind_touches()
    ensures { HasExactlyTheMaximalRuns }
{}

/// The maximal runs rise, and the list has each of them once.
pub fn the_runs_rise()
    ensures { RunsRise }
{}
