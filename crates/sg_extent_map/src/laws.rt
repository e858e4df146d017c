//! The laws of every [`ExtentMap`](crate::ExtentMap).
ghost use Rattle.sg_extent_map.specs.Parts.{HasOnlyItsParts, IsMadeOfParts};

/// An [`ExtentMap`](crate::ExtentMap) is made of its capacity, its table and its pool. So it keeps
/// no record outside the table, and the table counts a record when a call reads it.
pub fn an_extent_map_is_made_of_its_parts()
    ensures { IsMadeOfParts }
{}

/// These and two lists of records, which are empty between calls, are its fields, each of a listed
/// type. It has no other field.
pub fn an_extent_map_has_only_its_parts()
    ensures { HasOnlyItsParts }
{}
