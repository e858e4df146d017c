//! Laws of the definitions: each is the contract of a function that does nothing, and calls those
//! whose laws it follows from.
ghost use Rattle.sg_target.specs.AlertLaws.{CrossingsAreReported};
ghost use Rattle.sg_target.specs.CommandLaws.{CommandsWriteOnlyTheirBlocks, FormatsEmptyTheDisk};
ghost use Rattle.sg_target.specs.CommandLaws.{CopiesCopyTheirBlocks, OrWritesSetTheBitsOfTheirData};
ghost use Rattle.sg_target.specs.CommandLaws.{ReadsReturnTheirBlocks, UnmapsFollowTheirLists};
ghost use Rattle.sg_target.specs.CommandLaws.{WriteSamesLeaveTheirBlock, WritesLeaveTheirData};
ghost use Rattle.sg_target.specs.CommandLaws.{WritesNameBlocksOfTheDisk};
ghost use Rattle.sg_target.specs.CommandLaws.{WritesOverUsedAddressesHaveSpace};
ghost use Rattle.sg_target.specs.Laws.{AnchorsEachExtent, ConfigurationStays};
ghost use Rattle.sg_target.specs.Laws.{FoundRefusalsChangeNothing, HappeningsLeaveTheRest};
ghost use Rattle.sg_target.specs.FaultLaws.{ArrivalChangesOnlyCounts, CommandsOverwriteTheirBlocks};
ghost use Rattle.sg_target.specs.FaultLaws.{FaultsOnlyDropOrShorten, OnlyOverwritingHeals};
ghost use Rattle.sg_target.specs.FaultLaws.{OnlyMetCommandsChange, OnlyPassedCommandsEndWithGood};
ghost use Rattle.sg_target.specs.FaultLaws.{OperationsUseTheBlocksThatAreChecked};
ghost use Rattle.sg_target.specs.FaultLaws.{OthersMeetNoFault, RefusedCommandsStayRefused};
ghost use Rattle.sg_target.specs.FaultLaws.{WithoutFaultsARunIsSound, WithoutFaultsNothingChanges};
ghost use Rattle.sg_target.specs.Laws.{LimitsAreKept, UnmapsEachExtent};

/// No command and no happening takes a table of the disk past its limit.
pub fn limits_are_kept()
    ensures { LimitsAreKept }
{
    sg_units::laws::reservations_stay_consistent();
    sg_units::laws::queues_keep_their_limits();
    sg_store::laws::disks_stay_well_formed();
    sg_store::laws::an_unmap_deallocates_the_addresses_of_its_range();
    sg_store::laws::an_unmap_zeroes_the_blocks_of_its_range();
    sg_store::laws::remapping_takes_what_is_needed();
}

/// A disk on which no fault is armed answers every command but WRITE LONG as the definition of a disk
/// without faults says, and becomes what it says.
pub fn without_faults_nothing_changes()
    ensures { WithoutFaultsNothingChanges }
{
    sg_faults::laws::unarmed_faults_do_nothing();
}

/// So it is over every list of commands and happenings that arms no fault.
pub fn without_faults_a_run_is_sound()
    ensures { WithoutFaultsARunIsSound }
{
    the_configuration_stays();
    sg_faults::laws::unarmed_faults_do_nothing();
}

/// A fault changes only commands of initiators that it names, and a WRITE LONG that finds no room for
/// another fault.
pub fn others_meet_no_fault()
    ensures { OthersMeetNoFault }
{
    sg_faults::laws::spared_initiators_meet_no_fault();
}

/// A fault changes only commands that it meets: those with its operation code, and with one of its blocks.
/// A WRITE LONG may find no room for another fault.
pub fn only_met_commands_change()
    ensures { OnlyMetCommandsChange }
{
    sg_faults::laws::unmet_faults_do_nothing();
}

/// What a fault on arrival changes is the count alone, whatever it answers. So BUSY and TASK SET FULL
/// leave the blocks, the mode pages, the unit attentions, the registrations and the reservation.
pub fn arrival_changes_only_counts()
    ensures { ArrivalChangesOnlyCounts }
{}

/// Whatever faults are armed, a command leaves the state before it, the state in which a disk without
/// faults leaves it, or the state after the first blocks of a WRITE or a WRITE SAME that passes the
/// checks. So no fault lets an initiator do what a check refuses.
pub fn faults_only_drop_or_shorten()
    ensures { FaultsOnlyDropOrShorten }
{}

/// Whatever faults are armed, a command that the checks refuse stays refused, by the checks or by a
/// fault on arrival. So it does not end with GOOD, and returns no data-in.
pub fn refused_commands_stay_refused()
    ensures { RefusedCommandsStayRefused }
{}

/// Whatever faults are armed, a command that ends with GOOD has passed the checks. It is executed as on
/// a disk without faults, or only its first blocks are moved. Its answer is the same, but the last bytes
/// of data-in may not arrive.
pub fn only_passed_commands_end_with_good()
    ensures { OnlyPassedCommandsEndWithGood }
{}

/// No command, and no happening except a growth, changes the number of blocks of a disk, its pool, or
/// its identity. A growth takes no block away. So a disk keeps its profile.
pub fn the_configuration_stays()
    ensures { ConfigurationStays }
{}

/// No happening changes a block or a saved mode page. Only a power cycle changes registrations and
/// reservation.
pub fn happenings_leave_the_rest()
    ensures { HappeningsLeaveTheRest }
{}

/// If an operation finds a refusal on its way, as a want of space, the command reports that refusal and
/// changes nothing. No unit attention is cleared.
pub fn found_refusals_change_nothing()
    ensures { FoundRefusalsChangeNothing }
{}

/// The effect of unmapping a list of extents deallocates each address that lies in some extent,
/// which is read as zeros then. Every other address is as it was. The order of the extents does not
/// matter, and they may overlap.
pub fn an_unmap_deallocates_each_extent()
    ensures { UnmapsEachExtent }
{
    sg_store::laws::an_unmap_deallocates_the_addresses_of_its_range();
    sg_store::laws::an_unmap_zeroes_the_blocks_of_its_range();
}

/// The effect of anchoring a list of extents anchors each address that lies in some extent: it has
/// a block of the pool, and is read as zeros. Every other address is as it was. The order of the
/// extents does not matter, and they may overlap.
pub fn an_anchoring_anchors_each_extent()
    ensures { AnchorsEachExtent }
{
    sg_store::laws::an_anchoring_anchors_the_addresses_of_its_range();
    sg_store::laws::an_anchoring_zeroes_the_blocks_of_its_range();
}

/// The data-in of a READ that ends with GOOD is its blocks, and the READ changes nothing.
pub fn reads_return_their_blocks()
    ensures { ReadsReturnTheirBlocks }
{}

/// After a WRITE that ends with GOOD each of its blocks has its bytes of the data-out and is
/// mapped. Nothing more has changed, unless the WRITE has crossed a threshold. A disk that takes too
/// little data-out writes only the blocks that data-out has in full.
pub fn writes_leave_their_data()
    ensures { WritesLeaveTheirData }
{
    sg_store::laws::a_write_maps_the_addresses_of_its_range();
    sg_store::laws::a_write_replaces_the_blocks_of_its_range();
}

/// A WRITE that ends with GOOD names no block past the last one. So a disk that takes too little
/// data-out writes nothing if the WRITE reaches past its end.
pub fn writes_name_blocks_of_the_disk()
    ensures { WritesNameBlocksOfTheDisk }
{}

/// A WRITE ends with GOOD if it passes the checks and each address that it writes is mapped or
/// anchored. So the disk never refuses it for space.
pub fn writes_over_used_addresses_have_space()
    ensures { WritesOverUsedAddressesHaveSpace }
{
    sg_store::laws::remapping_takes_what_is_needed();
}

/// After an ORWRITE that ends with GOOD a bit of its blocks is 1 exactly if it was 1 or is 1 in the
/// data-out. So no bit goes from 1 to 0. The blocks are mapped, and nothing more has changed, unless the
/// ORWRITE has crossed a threshold. With too little data-out they are the blocks that data-out has in full.
pub fn or_writes_set_the_bits_of_their_data()
    ensures { OrWritesSetTheBitsOfTheirData }
{
    sg_store::laws::remapping_takes_what_is_needed();
}

/// After an EXTENDED COPY that ends with GOOD each block of its destination has what the block of its source
/// had before. The blocks are mapped, and nothing more has changed, unless the copy has crossed a threshold.
pub fn copies_copy_their_blocks()
    ensures { CopiesCopyTheirBlocks }
{
    sg_store::laws::remapping_takes_what_is_needed();
}

/// After an UNMAP that ends with GOOD each address that lies in some extent of its parameter list
/// is read as zeros. Without ANCHOR the address is deallocated, and with ANCHOR it is anchored.
/// Nothing more has changed, unless the UNMAP has crossed a threshold.
pub fn unmaps_follow_their_lists()
    ensures { UnmapsFollowTheirLists }
{
    an_unmap_deallocates_each_extent();
    an_anchoring_anchors_each_extent();
}

/// After a WRITE SAME that ends with GOOD each of its addresses is read as the block of the
/// data-out. With UNMAP 1 and a block of zeros the address is deallocated, or with ANCHOR anchored.
/// Otherwise it is mapped. Nothing more has changed, unless the WRITE SAME has crossed a threshold.
pub fn write_sames_leave_their_block()
    ensures { WriteSamesLeaveTheirBlock }
{
    sg_store::laws::a_fill_maps_the_addresses_of_its_range();
    sg_store::laws::a_fill_puts_one_block_at_each_address_of_its_range();
    sg_store::laws::an_unmap_deallocates_the_addresses_of_its_range();
    sg_store::laws::an_unmap_zeroes_the_blocks_of_its_range();
    sg_store::laws::an_anchoring_anchors_the_addresses_of_its_range();
    sg_store::laws::an_anchoring_zeroes_the_blocks_of_its_range();
}

/// After a FORMAT UNIT, or an erase of SANITIZE, that ends with GOOD no address is mapped or anchored,
/// and each block is read as zeros. Nothing more has changed.
pub fn formats_empty_the_disk()
    ensures { FormatsEmptyTheDisk }
{
    sg_store::laws::an_unmap_deallocates_the_addresses_of_its_range();
    sg_store::laws::an_unmap_zeroes_the_blocks_of_its_range();
}

/// Whatever its answer is, a command leaves each block that it does not write, and the provisioning
/// status of its address. One table has the blocks that each command writes.
pub fn commands_write_only_their_blocks()
    ensures { CommandsWriteOnlyTheirBlocks }
{
    sg_store::laws::remapping_takes_what_is_needed();
    an_unmap_deallocates_each_extent();
    an_anchoring_anchors_each_extent();
}

/// An operation reads or overwrites the blocks that its checks look at, and no others. But PRE-FETCH,
/// SYNCHRONIZE CACHE and GET LBA STATUS use none of the blocks that they name.
pub fn operations_use_the_blocks_that_are_checked()
    ensures { OperationsUseTheBlocksThatAreChecked }
{}

/// Each command that writes blocks overwrites them, except COMPARE AND WRITE and ORWRITE, which read them
/// first. No command overwrites other blocks.
pub fn commands_overwrite_their_blocks()
    ensures { CommandsOverwriteTheirBlocks }
{}

/// A fault that a write heals stays unless a command overwrites all of its blocks in one extent. Then it
/// is gone. A command that is not executed heals nothing.
pub fn only_overwriting_heals()
    ensures { OnlyOverwritingHeals }
{}

/// 38h/07h becomes pending exactly if a command has crossed a threshold: for its sender if SITUA is 1, and
/// otherwise for each initiator. No other condition is established or cleared by that.
pub fn crossings_are_reported()
    ensures { CrossingsAreReported }
{}
