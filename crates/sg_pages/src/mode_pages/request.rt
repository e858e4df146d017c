// MODE SENSE(6) and MODE SENSE(10) as one value, so that both have one list and one order of
// faults.
ghost use Rattle.std.specs.Prelude.{◌≡◌, IsTrue};
ghost use Rattle.sg_wire.specs.declared.command.mode.CdbWidth.TheVariants.{Ten};

use sg_wire::{CdbWidth, PageRequest, Profile};
use thiserror::Error;

/// The request of a MODE SENSE (SPC-4, 6.13 and 6.14).
#[derive(Clone, Copy)]
pub struct ModeSenseRequest {
    /// The width of the CDB: MODE SENSE(6) or MODE SENSE(10).
    pub width: CdbWidth,
    /// LLBAA: the long block descriptor is accepted. Only in MODE SENSE(10).
    pub llbaa: bool,
    /// DBD, PC, PAGE CODE and SUBPAGE CODE.
    pub page: PageRequest,
    /// The number of logical blocks of the disk.
    pub blocks: u64,
    /// The profile of the disk, which says which pages it has.
    pub profile: Profile,
    pub ghost llbaa_only_in_ten: { IsTrue llbaa → width ≡ Ten },
}

/// The reason why a MODE SENSE is refused. The first reason that applies is returned.
#[derive(Clone, Copy, Debug, Error, PartialEq, Eq)]
pub enum ModeSenseFault {
    /// The disk does not have the page of PAGE CODE.
    #[error("the disk does not have the page of PAGE CODE")]
    Page,
    /// The disk has the page, but not the subpage of SUBPAGE CODE.
    #[error("the disk does not have the subpage of SUBPAGE CODE")]
    Subpage,
}
