// The mode pages between two commands. The folder has MODE SENSE and MODE SELECT.
use sg_wire::Profile;
use std::marker::Model;

mod block_descriptor;
mod list_check;
mod mode_page;
mod mode_select;
mod mode_sense;
mod multi_byte_field;
mod request;
mod thresholds;

pub(crate) use block_descriptor::LOGICAL_BLOCK_LENGTH;
use mode_page::{D_SENSE, SWP, WCE, default_values};
pub use mode_page::{ModePage, PageValues};
pub use mode_select::{Changed, ModeSelectFault};
pub use mode_sense::LONGEST_MODE_LIST;
pub use request::{ModeSenseFault, ModeSenseRequest};

/// The mode pages of a disk: their current and their saved values (SPC-4, 7.5).
#[derive(Clone, Copy)]
pub struct ModePages {
    current: PageValues,
    saved: PageValues,
}

impl Model for ModePages {
    ghost use Rattle.sg_pages.specs.ModePage.{ModeState};

    ghost Value = { ModeState };

    ghost view = { λ m. record { current = m.current; saved = m.saved } };

    ghost inverse = { λ m. record { current = m.current; saved = m.saved } };
}

ghost use Rattle.std.specs.Prelude.{◌≡◌};
ghost use Rattle.sg_pages.specs.ModePage.{caches_writes, descriptor_sense, write_protected};
ghost use Rattle.sg_pages.specs.ModePowerOn.{after_power_on, initial_state, restored_pages};

impl ModePages {
    /// The pages of a new disk of a profile: the current and the saved values are the default ones.
    pub fn new(profile: Profile) -> ModePages
        ensures { result ≡ initial_state profile }
    {
        let values = *default_values(profile);
        ModePages {
            current: values,
            saved: values,
        }
    }

    /// The pages after power on, with these saved values.
    pub fn restored(saved: PageValues) -> ModePages
        ensures { result ≡ restored_pages saved }
    {
        ModePages {
            current: saved,
            saved,
        }
    }

    /// The saved values: the bytes of each page from byte 2 on.
    pub fn saved(&self) -> &PageValues
        ensures { result.now ≡ self.now.saved }
    {
        &self.saved
    }

    /// A power cycle: the saved values become the current ones (SPC-4, 7.5).
    pub fn power_on(&mut self)
        ensures { self.new ≡ after_power_on self.old }
    {
        self.current = self.saved;
    }

    /// WCE: a write may end before it is on the medium (SBC-3, Caching mode page).
    pub fn caches_writes(&self) -> bool
        ensures { result ≡ caches_writes self.now }
    {
        self.current.caching[0] & WCE != 0
    }

    /// D_SENSE: sense data is in descriptor format (SPC-4, Control mode page).
    pub fn descriptor_sense(&self) -> bool
        ensures { result ≡ descriptor_sense self.now }
    {
        self.current.control[0] & D_SENSE != 0
    }

    /// SWP: the disk refuses to write (SPC-4, Control mode page).
    pub fn write_protected(&self) -> bool
        ensures { result ≡ write_protected self.now }
    {
        self.current.control[2] & SWP != 0
    }
}
