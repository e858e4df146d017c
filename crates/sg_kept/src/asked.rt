//! What a disk is asked to have, and whether it has that.
ghost use Rattle.std.specs.Prelude.{◌≡◌};
ghost use Rattle.sg_kept.specs.Asked.{has_profile, is_other, is_other_profile, of_profile, profile_of};

use sg_pages::{Identity, PhysicalBlock};
use sg_wire::Profile;

/// A profile, and what else its name says of a disk.
#[derive(Clone, Copy)]
pub struct AskedProfile {
    /// Which commands the disk has.
    pub profile: Profile,
    /// Whether it takes less data-out than a command needs.
    pub takes_short_data_out: bool,
    /// The physical blocks that it reports.
    pub physical_block: PhysicalBlock,
}

/// The base profile.
pub const BASE: AskedProfile = AskedProfile {
    profile: Profile::Base,
    takes_short_data_out: false,
    physical_block: PhysicalBlock::Of512,
};

/// The extended profile.
pub const EXTENDED: AskedProfile = AskedProfile {
    profile: Profile::Extended,
    takes_short_data_out: false,
    physical_block: PhysicalBlock::Of512,
};

/// The extended profile, with commands that take less data-out than they need.
pub const EXTENDED_CUT: AskedProfile = AskedProfile {
    profile: Profile::Extended,
    takes_short_data_out: true,
    physical_block: PhysicalBlock::Of512,
};

/// The extended profile, with physical blocks of 4,096 bytes.
pub const EXTENDED_512E: AskedProfile = AskedProfile {
    profile: Profile::Extended,
    takes_short_data_out: false,
    physical_block: PhysicalBlock::Of4096,
};

impl AskedProfile {
    /// What a disk has.
    pub fn of_disk(disk: &Identity) -> AskedProfile
        ensures { result ≡ profile_of disk.now }
    {
        AskedProfile {
            profile: disk.profile(),
            takes_short_data_out: disk.takes_short_data_out(),
            physical_block: disk.physical_block(),
        }
    }

    /// The names of an identity, for a disk of the profile.
    pub fn of(self, names: Identity) -> Identity
        ensures { result ≡ of_profile self names }
    {
        names
            .with_profile(self.profile)
            .with_short_data_out(self.takes_short_data_out)
            .with_physical_block(self.physical_block)
    }

    /// Whether a disk has the profile.
    pub fn is_of(self, disk: &Identity) -> bool
        ensures { result ≡ has_profile self disk.now }
    {
        let is_extended = self.profile.has(Profile::Extended);
        is_extended == disk.profile().has(Profile::Extended)
            && self.takes_short_data_out == disk.takes_short_data_out()
            && self.physical_block == disk.physical_block()
    }
}

/// Whether a profile is asked for, and the disk has another one.
pub fn is_other_profile(asked: Option<AskedProfile>, disk: &Identity) -> bool
    ensures { result ≡ is_other_profile asked disk.now }
{
    match asked {
        Some(profile) => !profile.is_of(disk),
        None => false,
    }
}

/// Whether a number is asked for, and the disk has another one.
pub fn is_other(asked: Option<u64>, has: u64) -> bool
    ensures { result ≡ is_other asked has }
{
    match asked {
        Some(number) => number != has,
        None => false,
    }
}
