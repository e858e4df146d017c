// What the options of the command line say of a disk: of a new one, or of one that a file keeps.
ghost use Rattle.std.specs.Prelude.{◌≡◌};
ghost use Rattle.sgrun.specs.Arguments.{checked_disk, config_of};
ghost use Rattle.sgrun.specs.DiskInFile.{checked_against};
ghost use Rattle.sgrun.specs.Reopened.{options_of};
ghost use Rattle.sg_target.specs.State.{State, config_of as config_of_state};

use crate::stop::Stop;
use sg_kept::asked::{AskedProfile, BASE, is_other, is_other_profile};
use sg_pages::{Identity, IdentityFault};
use sg_target::Config;

// The disk's logical blocks, the number of them that can be mapped at once, and the seed of its names,
// if no option gives them.
const DEFAULT_BLOCKS: u64 = 4_096;

const DEFAULT_POOL: u64 = 4;

const DEFAULT_SEED: u64 = 1;

/// What the options say of a disk. None is an option that is not given.
#[derive(Clone, Copy)]
pub(crate) struct DiskOptions {
    /// The number of logical blocks.
    pub(crate) blocks: Option<u64>,
    /// How many of them can be mapped or anchored at once.
    pub(crate) pool: Option<u64>,
    /// Which commands it has.
    pub(crate) profile: Option<AskedProfile>,
    /// What its names are made of.
    pub(crate) seed: Option<u64>,
}

impl DiskOptions {
    /// The options that ask for a disk as it is.
    pub(crate) fn of(disk: &Config) -> DiskOptions
        ensures { result ≡ options_of disk.now }
    {
        DiskOptions {
            blocks: Some(disk.blocks()),
            pool: Some(u64::from(disk.pool())),
            profile: Some(AskedProfile::of_disk(disk.identity())),
            seed: Some(disk.identity().local()),
        }
    }

    /// The new disk that the options ask for.
    ///
    /// # Errors
    /// The first of these that applies:
    /// - `Seed` if the seed has more than 60 bits.
    /// - `Blocks` or `Pool` if there is no disk of that size.
    pub(crate) fn config<'a>(&self) -> Result<Config, Stop<'a>>
        ensures { result ≡ config_of self.now }
    {
        checked_disk(
            self.blocks.unwrap_or(DEFAULT_BLOCKS),
            self.pool.unwrap_or(DEFAULT_POOL),
            self.profile.unwrap_or(BASE),
            Identity::from_seed(self.seed.unwrap_or(DEFAULT_SEED)),
        )
    }

    /// Compares the options that are given with a disk that there is.
    ///
    /// # Errors
    /// The first of these that applies: `OtherBlocks`, `OtherPool`, `OtherProfile` or `OtherSeed` if the
    /// disk has not what the option says.
    pub(crate) fn check<'a>(&self, disk: &Config) -> Result<(), Stop<'a>>
        ensures { (state : State) → disk.now ≡ config_of_state state
            → result ≡ checked_against self.now state }
    {
        let identity = disk.identity();
        if is_other(self.blocks, disk.blocks()) {
            return Err(Stop::OtherBlocks);
        }
        if is_other(self.pool, u64::from(disk.pool())) {
            return Err(Stop::OtherPool);
        }
        if is_other_profile(self.profile, identity) {
            return Err(Stop::OtherProfile);
        }
        if is_other(self.seed, identity.local()) {
            return Err(Stop::OtherSeed);
        }
        Ok(())
    }
}

/// A disk of a size and a profile, with the names of an identity, if there can be one.
fn checked_disk<'a>(
    blocks: u64,
    pool: u64,
    asked: AskedProfile,
    names: Result<Identity, IdentityFault>,
) -> Result<Config, Stop<'a>>
    ensures { result ≡ checked_disk blocks pool asked names }
{
    // A number that is no u32 is too large for any pool. So it is refused as 0 is.
    let pool = u32::try_from(pool).unwrap_or(0);
    Ok(Config::new(blocks, pool, asked.of(names?))?)
}
