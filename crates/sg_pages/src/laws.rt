// Laws of the mode pages, of thresholds and of seeds. Each is the contract of a function that changes
// nothing.
ghost use Rattle.sg_pages.specs.ModeLaws.{BaseDisksHaveNoSubpage, BytesPointToThemselves, EachPageIsFound};
ghost use Rattle.sg_pages.specs.ModeLaws.{FieldsPointToTheirFirstByte};
ghost use Rattle.sg_pages.specs.ModeLaws.{OnlyChangeableBitsChange, OnlySpSaves, SpSavesAll};
ghost use Rattle.sg_pages.specs.SeedLaws.{SeedOneIsStandard, SeedsHaveDesignators};
ghost use Rattle.sg_pages.specs.SeedLaws.{SeedsHaveSerials, SeedsMakeIdentities};
ghost use Rattle.sg_pages.specs.ThresholdLaws.{BaseDisksCrossNothing, CrossingsDoNotRepeat};
ghost use Rattle.sg_pages.specs.ThresholdLaws.{EqualCountsCrossNothing, OnlyMoreUsedBlocksCross};
ghost use Rattle.sg_pages.specs.ThresholdLaws.{ThresholdSetsFitInFourBytes};

/// A MODE SELECT changes only bits that can be changed.
pub fn only_changeable_bits_change()
    ensures { OnlyChangeableBitsChange }
{}

/// A MODE SELECT without SP leaves the saved values as they are.
pub fn only_sp_saves()
    ensures { OnlySpSaves }
{}

/// A MODE SELECT with SP saves the current values of all pages, as they are afterwards.
pub fn sp_saves_all()
    ensures { SpSavesAll }
{}

/// A base disk has no page with a subpage code.
pub fn base_disks_have_no_subpage()
    ensures { BaseDisksHaveNoSubpage }
{}

/// MODE SELECT finds each page of a disk by its SPF and PAGE CODE.
pub fn each_page_is_found()
    ensures { EachPageIsFound }
{}

/// On a base disk the field pointer of MODE SELECT goes to the byte that differs.
pub fn bytes_point_to_themselves()
    ensures { BytesPointToThemselves }
{}

/// On an extended disk each byte of a field of several bytes points to the field's first byte.
pub fn fields_point_to_their_first_byte()
    ensures { FieldsPointToTheirFirstByte }
{}

/// No threshold is crossed while the number of used blocks stays as it is.
pub fn equal_counts_cross_nothing()
    ensures { EqualCountsCrossNothing }
{}

/// Only a command that uses more blocks of the pool crosses a threshold.
pub fn only_more_used_blocks_cross()
    ensures { OnlyMoreUsedBlocksCross }
{}

/// On a base disk no threshold is ever crossed.
pub fn base_disks_cross_nothing()
    ensures { BaseDisksCrossNothing }
{}

/// A number that has fallen or risen to a threshold cannot do so again before it has gone back.
pub fn crossings_do_not_repeat()
    ensures { CrossingsDoNotRepeat }
{}

/// The number of the threshold sets of a disk fits in four bytes.
#[tactic(auto, unfolding(crate::specs::ProvisioningPages::threshold_sets))]
pub fn threshold_sets_fit_in_four_bytes()
    ensures { ThresholdSetsFitInFourBytes }
{}

/// Each seed of at most 60 bits makes an identity.
pub fn seeds_make_identities()
    ensures { SeedsMakeIdentities }
{}

/// Seed 1 makes the default identity.
pub fn seed_one_is_standard()
    ensures { SeedOneIsStandard }
{}

/// Two seeds of at most 60 bits make two NAA designators.
pub fn seeds_have_designators()
    ensures { SeedsHaveDesignators }
{}

/// Two seeds of at most 32 bits make two serial numbers.
pub fn seeds_have_serials()
    ensures { SeedsHaveSerials }
{}
