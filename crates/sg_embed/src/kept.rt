// The disk that a slot keeps at its pointer.
ghost use Rattle.std.specs.Prelude.{◌≡◌, IfOk};
ghost use Rattle.sg_embed.specs.Executed.{new_disk};
ghost use Rattle.sg_embed.specs.declared.served.Served.TheVariants.{InFile};

use crate::file_disk::FileDisk;
use crate::served::Served;
use sg_target::Config;
use std::alloc::{AllocError, Global};

/// A disk: its target, or a disk in a file.
#[derive(Drop)]
pub struct Kept {
    pub(crate) target: Served,
}

impl Kept {
    /// A disk as it is after power on. All memory is taken here.
    ///
    /// # Errors
    /// Memory was refused.
    pub(crate) fn new(alloc: Global, config: Config) -> Result<Box<Kept>, AllocError>
        ensures { IfOk result (λ kept. kept.value ≡ new_disk config) }
    {
        let target = Served::new(alloc, config)?;
        Ok(Box::new(alloc, Kept { target })?)
    }

    /// A disk in a file.
    ///
    /// # Errors
    /// Memory was refused.
    pub(crate) fn in_file(alloc: Global, disk: FileDisk) -> Result<Box<Kept>, AllocError>
        ensures { IfOk result (λ kept. kept.value ≡ record { target = InFile disk }) }
    {
        let target = Served::InFile(disk);
        Ok(Box::new(alloc, Kept { target })?)
    }
}
