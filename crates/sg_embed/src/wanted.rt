// What C asks of a disk in a file.
ghost use Rattle.std.specs.Prelude.{◌≡◌, ◌≢◌, IfErr};
ghost use Rattle.sg_embed.specs.Wanted.{compared, has_names, is_other_identity, wanted_config};

use crate::outcome::Outcome;
use sg_kept::asked::{AskedProfile, is_other, is_other_profile};
use sg_pages::Identity;
use sg_target::Config;

/// What a disk in a file has to have. None stands for anything that a disk can have.
#[derive(Drop)]
pub struct Wanted {
    /// Its profile.
    pub(crate) profile: Option<AskedProfile>,
    /// The number of its blocks.
    pub(crate) blocks: Option<u64>,
    /// How many of them can be mapped at once.
    pub(crate) pool: Option<u32>,
    /// Its names.
    pub(crate) names: Option<Identity>,
    /// What C calls the file's device.
    pub(crate) device: u64,
}

impl Wanted {
    /// The configuration of the new disk that an empty file becomes. Without names it has the standard
    /// ones.
    ///
    /// # Errors
    /// [`Outcome::UnknownProfile`] if no profile is asked for, or else [`Outcome::BlockCount`] or
    /// [`Outcome::PoolSize`] if there is no disk of the size.
    pub(crate) fn config(&self) -> Result<Config, Outcome>
        ensures value { result ≡ wanted_config self.now }
        ensures refused { IfErr result (λ outcome. outcome ≢ Outcome.Done) }
    {
        let Some(profile) = self.profile else {
            return Err(Outcome::UnknownProfile);
        };
        let names = self.names.unwrap_or(Identity::standard());
        let blocks = self.blocks.unwrap_or(0);
        let pool = self.pool.unwrap_or(0);
        match Config::new(blocks, pool, profile.of(names)) {
            Ok(config) => Ok(config),
            Err(fault) => Err(Outcome::of_config(fault)),
        }
    }

    /// Compares what is asked for with the disk that a file has.
    ///
    /// # Errors
    /// The first of these that applies: [`Outcome::OtherProfile`], [`Outcome::OtherBlocks`],
    /// [`Outcome::OtherPool`] or [`Outcome::OtherIdentity`] if the disk has something else.
    pub(crate) fn compare(&self, disk: &Config) -> Result<(), Outcome>
        ensures value { result ≡ compared self.now disk.now }
        ensures refused { IfErr result (λ outcome. outcome ≢ Outcome.Done) }
    {
        if is_other_profile(self.profile, disk.identity()) {
            return Err(Outcome::OtherProfile);
        }
        if is_other(self.blocks, disk.blocks()) {
            return Err(Outcome::OtherBlocks);
        }
        if is_other(self.pool.map(u64::from), u64::from(disk.pool())) {
            return Err(Outcome::OtherPool);
        }
        if is_other_identity(&self.names, disk.identity()) {
            return Err(Outcome::OtherIdentity);
        }
        Ok(())
    }
}

/// Whether names are asked for, and the disk has others.
fn is_other_identity(asked: &Option<Identity>, disk: &Identity) -> bool
    ensures { result ≡ is_other_identity asked.now disk.now }
{
    match asked {
        Some(names) => !has_names(names, disk),
        None => false,
    }
}

/// Whether a disk has these names, whatever its profile is.
fn has_names(names: &Identity, disk: &Identity) -> bool
    ensures { result ≡ has_names names.now disk.now }
{
    names.vendor() == disk.vendor()
        && names.product() == disk.product()
        && names.revision() == disk.revision()
        && names.serial() == disk.serial()
        && names.local() == disk.local()
}
