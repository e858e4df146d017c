//! The parts of each [`RunTable`](crate::RunTable), down to its records. A table keeps nothing
//! beside the listed parts. So there is no second copy of a record that a call could read without
//! counting.
ghost use Rattle.sg_table.specs.Parts.{DirectoryFollows, DraftHasOnlyItsParts, DraftIsItsParts};
ghost use Rattle.sg_table.specs.Parts.{EachSlotHasOneLeaf, FreeSlotsAreEmpty};
ghost use Rattle.sg_table.specs.Parts.{GhostNumberHasNoField};
ghost use Rattle.sg_table.specs.Parts.{LeafHasOnlyItsRecords, LeafIsItsRecords};
ghost use Rattle.sg_table.specs.Parts.{LeafListHasOnlyItsParts, LeafListIsItsParts};
ghost use Rattle.sg_table.specs.Parts.{LeavesAreTheirParts, LeavesHaveOnlyTheirParts};
ghost use Rattle.sg_table.specs.Parts.{RunHasOnlyItsParts, SpanHasOnlyItsParts};
ghost use Rattle.sg_table.specs.Parts.{TableHasOnlyItsParts, TableIsItsParts};

/// A [`RunTable`](crate::RunTable) is made of its leaves, its room and its counts.
pub fn a_table_is_made_of_its_leaves_and_counts()
    ensures { TableIsItsParts }
{}

/// These are its fields, each of a listed type, and it has no other field.
pub fn a_table_has_only_its_parts()
    ensures { TableHasOnlyItsParts }
{}

/// A number that only proofs read has no field, so it takes no memory.
pub fn a_ghost_number_has_no_field()
    ensures { GhostNumberHasNoField }
{}

/// Its leaves are made of a list of leaves, a directory of two lists, and the span of the leaf that
/// was found last. They also have the number of addresses with data, and the number of moves.
pub fn the_leaves_are_made_of_a_list_and_a_directory()
    ensures { LeavesAreTheirParts }
{}

/// These are their fields, each of a listed type, and they have no other field.
pub fn the_leaves_have_only_their_parts()
    ensures { LeavesHaveOnlyTheirParts }
{}

/// The span of a leaf has three numbers and no other field.
pub fn a_span_has_only_its_parts()
    ensures { SpanHasOnlyItsParts }
{}

/// The directory, the span and the number follow from the records. The directory has the index and
/// the first address of each leaf. The span has the indexes of one leaf. The number counts the
/// addresses with data.
pub fn the_directory_follows_from_the_records()
    ensures { DirectoryFollows }
{}

/// The list of leaves is made of slots, the order of the slots in use, and the free slots.
pub fn a_list_of_leaves_is_made_of_its_slots()
    ensures { LeafListIsItsParts }
{}

/// These are three vectors, one of leaves and two of numbers, and it has no other field.
pub fn a_list_of_leaves_has_only_its_parts()
    ensures { LeafListHasOnlyItsParts }
{}

/// Each slot belongs to one leaf of the table, or is free.
pub fn each_slot_has_one_leaf_or_is_free()
    ensures { EachSlotHasOneLeaf }
{}

/// The leaf in a free slot has no records.
pub fn a_free_slot_has_no_records()
    ensures { FreeSlotsAreEmpty }
{}

/// A leaf is made of its records.
pub fn a_leaf_is_made_of_its_records()
    ensures { LeafIsItsRecords }
{}

/// Its only field is an array of records.
pub fn a_leaf_has_only_its_records()
    ensures { LeafHasOnlyItsRecords }
{}

/// A record has four numbers and a kind, and no other field.
pub fn a_record_has_only_its_parts()
    ensures { RunHasOnlyItsParts }
{}

/// A [`Draft`](crate::Draft) is made of an index, its records and their room.
pub fn a_draft_is_made_of_its_records()
    ensures { DraftIsItsParts }
{}

/// These are its fields, each of a listed type, and it has no other field.
pub fn a_draft_has_only_its_parts()
    ensures { DraftHasOnlyItsParts }
{}
