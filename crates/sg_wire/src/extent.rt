// The blocks that a command names, however wide its own fields are.
use crate::command::{Extent10, Extent12, Extent16, ShortExtent};

/// Logical blocks from an address on.
#[derive(Clone, Copy, Default)]
pub struct Extent {
    /// The first block's address.
    pub lba: u64,
    /// The number of blocks.
    pub count: u32,
}

ghost use Rattle.std.specs.Prelude.{◌≡◌, ◌≤◌};

impl From<ShortExtent> for Extent {
    ghost from_gives = { λ short extent.
        (extent ≡ record { lba = short.0; count = short.1 }) × (extent.count ≤ 256) };

    fn from(extent: ShortExtent) -> Extent {
        Extent {
            lba: u64::from(extent.lba()),
            count: u32::from(extent.count()),
        }
    }
}

impl From<Extent10> for Extent {
    ghost from_gives = { λ ten extent. extent ≡ record { lba = ten.lba; count = ten.count } };

    fn from(extent: Extent10) -> Extent {
        Extent {
            lba: u64::from(extent.lba),
            count: u32::from(extent.count),
        }
    }
}

impl From<Extent12> for Extent {
    ghost from_gives = { λ twelve extent.
        extent ≡ record { lba = twelve.lba; count = twelve.count } };

    fn from(extent: Extent12) -> Extent {
        Extent {
            lba: u64::from(extent.lba),
            count: extent.count,
        }
    }
}

impl From<Extent16> for Extent {
    ghost from_gives = { λ sixteen extent.
        extent ≡ record { lba = sixteen.lba; count = sixteen.count } };

    fn from(extent: Extent16) -> Extent {
        Extent {
            lba: extent.lba,
            count: extent.count,
        }
    }
}
