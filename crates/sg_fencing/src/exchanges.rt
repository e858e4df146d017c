//! Laws of COMPARE AND WRITE (SBC-3, 5.2).
ghost use Rattle.sg_fencing.specs.Exchanges.{ExchangesReplaceWhatTheyExpect, RacesHaveAtMostOneWinner};
ghost use Rattle.sg_fencing.specs.Exchanges.{ExchangesThatNothingForbidsEndWithGood, TheFirstOfARaceWins};
ghost use Rattle.sg_fencing.specs.Exchanges.{MiscomparesPointToTheFirstDifference};

use sg_store::laws::{
    a_write_maps_the_addresses_of_its_range, a_write_replaces_the_blocks_of_its_range,
    remapping_takes_what_is_needed,
};
use sg_target::laws::{commands_write_only_their_blocks, limits_are_kept, the_configuration_stays};
use sg_wire::laws::commands_have_their_class;

/// A COMPARE AND WRITE that ends with GOOD has found the first half of its data-out in its blocks. Its
/// second half is in them now. Nothing more has changed, unless the command has crossed a threshold of the
/// pool. If it does not end with GOOD, the disk is as it was.
pub fn exchanges_replace_what_they_expect()
    ensures { ExchangesReplaceWhatTheyExpect }
{
    a_write_maps_the_addresses_of_its_range();
    a_write_replaces_the_blocks_of_its_range();
}

/// Several initiators race for a block: each sends a COMPARE AND WRITE that expects the same old block
/// and writes another. No other command of the list writes the block, whatever else it writes. Then at
/// most one of them ends with GOOD, and the block is the one that it wrote. If none does, the block is as
/// it was.
pub fn races_have_at_most_one_winner()
    ensures { RacesHaveAtMostOneWinner }
{
    limits_are_kept();
    exchanges_replace_what_they_expect();
    commands_write_only_their_blocks();
    the_configuration_stays();
}

/// A COMPARE AND WRITE ends with GOOD if nothing forbids it. That is so if nothing forbids a WRITE of
/// its blocks, the data-out has two halves of their length, and the blocks are as the first half.
pub fn exchanges_that_nothing_forbids_end_with_good()
    ensures { ExchangesThatNothingForbidsEndWithGood }
{
    commands_have_their_class();
    remapping_takes_what_is_needed();
}

/// A COMPARE AND WRITE ends with MISCOMPARE if nothing forbids it, but its blocks are not as the first half
/// of its data-out. INFORMATION is the offset of the first byte that differs. Nothing changes.
pub fn miscompares_point_to_the_first_difference()
    ensures { MiscomparesPointToTheFirstDifference }
{
    commands_have_their_class();
}

/// If nothing forbids the first command of such a race, it ends with GOOD, and no other does.
pub fn the_first_of_a_race_wins()
    ensures { TheFirstOfARaceWins }
{
    limits_are_kept();
    exchanges_replace_what_they_expect();
    commands_write_only_their_blocks();
    the_configuration_stays();
    exchanges_that_nothing_forbids_end_with_good();
}
