// The names of `--profile`, and what each says of a disk.
ghost use Rattle.std.specs.Prelude.{◌≡◌, option_map};
ghost use Rattle.sgrun.specs.Arguments.{profile_named, takes_seed};

use sg_kept::asked::{AskedProfile, BASE, EXTENDED, EXTENDED_512E, EXTENDED_CUT};
use sg_wire::Profile;

/// The profile with a name. Without a name it is the base profile.
pub(crate) fn profile_named(name: Option<&str>) -> Option<AskedProfile>
    ensures { result ≡ profile_named (option_map (λ n. n.now) name.entry) }
{
    match name {
        None | Some("base") => Some(BASE),
        Some("extended") => Some(EXTENDED),
        Some("extended-cut") => Some(EXTENDED_CUT),
        Some("extended-512e") => Some(EXTENDED_512E),
        Some(_) => None,
    }
}

/// Whether a disk of a profile takes the option `--seed`.
pub(crate) fn takes_seed(profile: Option<AskedProfile>) -> bool
    ensures { result ≡ takes_seed profile }
{
    match profile {
        Some(asked) => asked.profile.has(Profile::Extended),
        None => false,
    }
}
