// The thresholds of mode page 1Ch/02h (SBC-3, 4.7 and 6.4).
ghost use Rattle.std.specs.Prelude.{◌≡◌};
ghost use Rattle.sg_pages.specs.Thresholds.{alerts_only_sender, crosses, falls_to, rises_to, threshold_at};

use super::mode_page::{ENABLED, LBPERE, SITUA};
use super::{ModePages, PageValues};
use crate::provisioning_pages::MappingResources;
use byteorder::{BigEndian, ByteOrder};
use sg_wire::Profile;

/// A threshold: ENABLED and THRESHOLD COUNT of its descriptor.
#[derive(Clone, Copy)]
pub(crate) struct Threshold {
    pub(crate) enabled: bool,
    pub(crate) count: u32,
}

impl ModePages {
    /// Returns `true` if a threshold is crossed that is enabled and reported (SBC-3, 4.7): what is left
    /// of the pool has fallen to its count, or what is used has risen to its count.
    pub fn is_crossed(
        &self,
        profile: Profile,
        before: MappingResources,
        after: MappingResources,
    ) -> bool
        ensures { result ≡ crosses profile self.now.current before after }
    {
        if profile != Profile::Extended || self.current.error_recovery[5] & LBPERE == 0 {
            return false;
        }
        let available = self.current.available_threshold();
        let used = self.current.used_threshold();
        available.enabled
            && falls_to(
                available.count,
                before.available_sets(profile),
                after.available_sets(profile),
            )
            || used.enabled
                && rises_to(
                    used.count,
                    before.used_sets(profile),
                    after.used_sets(profile),
                )
    }

    /// SITUA: only the initiator whose command crosses a threshold gets the unit attention.
    pub fn alerts_only_sender(&self) -> bool
        ensures { result ≡ alerts_only_sender self.now.current }
    {
        self.current.provisioning[0] & SITUA != 0
    }
}

impl PageValues {
    /// The threshold of what is left of the pool, in bytes 16 to 23 of page 1Ch/02h.
    fn available_threshold(&self) -> Threshold
        ensures { result ≡ threshold_at 16 self.now }
    {
        Threshold {
            enabled: self.provisioning[12] & ENABLED != 0,
            count: BigEndian::read_u32(&self.provisioning[16..]),
        }
    }

    /// The threshold of what is used, in bytes 24 to 31 of page 1Ch/02h.
    fn used_threshold(&self) -> Threshold
        ensures { result ≡ threshold_at 24 self.now }
    {
        Threshold {
            enabled: self.provisioning[20] & ENABLED != 0,
            count: BigEndian::read_u32(&self.provisioning[24..]),
        }
    }
}

/// A number falls to a count from above.
fn falls_to(count: u32, before: u32, after: u32) -> bool
    ensures { result ≡ falls_to count before after }
{
    count < before && after <= count
}

/// A number rises to a count from below.
fn rises_to(count: u32, before: u32, after: u32) -> bool
    ensures { result ≡ rises_to count before after }
{
    before < count && count <= after
}
