// The length of a physical block, of which the disk reports how many logical blocks it has.
ghost use Rattle.std.specs.Prelude.{◌≡◌};
ghost use Rattle.sg_pages.specs.PhysicalBlock.{blocks_in, exponent_of};

/// The length of a physical block (SBC-3, 4.6). A logical block has 512 bytes.
#[derive(Clone, Copy, Debug, PartialEq, Eq)]
pub enum PhysicalBlock {
    /// 512 bytes, one logical block.
    Of512,
    /// 4,096 bytes, eight logical blocks. The first one begins at address 0. Such a disk is known as 512e.
    Of4096,
}

impl PhysicalBlock {
    /// LOGICAL BLOCKS PER PHYSICAL BLOCK EXPONENT: the number of logical blocks as a power of 2.
    pub(crate) fn exponent(self) -> u8
        ensures { result ≡ exponent_of self }
    {
        match self {
            PhysicalBlock::Of512 => 0,
            PhysicalBlock::Of4096 => 3,
        }
    }

    /// The number of its logical blocks.
    pub(crate) fn blocks(self) -> u8
        ensures { result ≡ blocks_in self }
    {
        match self {
            PhysicalBlock::Of512 => 1,
            PhysicalBlock::Of4096 => 8,
        }
    }
}
