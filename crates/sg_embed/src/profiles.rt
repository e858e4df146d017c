// The profiles of a disk, by the numbers that the header has for C.
ghost use Rattle.std.specs.Prelude.{◌≡◌, ◌≢◌, IfErr};
ghost use Rattle.sg_embed.specs.Profiles.{identity_with_profile, profile_numbered};

use crate::outcome::Outcome;
use sg_kept::asked::{AskedProfile, BASE, EXTENDED, EXTENDED_512E, EXTENDED_CUT};
use sg_pages::{Identity, IdentityFault};

const PROFILES: [AskedProfile; 4] = [BASE, EXTENDED, EXTENDED_CUT, EXTENDED_512E];

/// An identity with the profile that has a number of the header.
///
/// # Errors
/// [`Outcome::UnknownProfile`] if no profile has the number, or else the outcome of the identity's
/// fault.
pub fn identity_with_profile(
    number: u32,
    identity: Result<Identity, IdentityFault>,
) -> Result<Identity, Outcome>
    ensures value { result ≡ identity_with_profile number identity }
    ensures refused { IfErr result (λ outcome. outcome ≢ Outcome.Done) }
{
    let Some(asked) = profile_numbered(number) else {
        return Err(Outcome::UnknownProfile);
    };
    match identity {
        Ok(names) => Ok(asked.of(names)),
        Err(fault) => Err(Outcome::of_identity(fault)),
    }
}

/// The profile with a number of the header.
pub(crate) fn profile_numbered(number: u32) -> Option<AskedProfile>
    ensures { result ≡ profile_numbered number }
{
    PROFILES.get(number as usize).copied()
}
