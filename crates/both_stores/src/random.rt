// Numbers that look random, the same in each run.

/// Marsaglia's xorshift generator of 64 bits.
#[derive(Clone, Copy)]
pub(crate) struct Random {
    state: u64,
}

impl Random {
    /// Begins with a fixed seed.
    pub(crate) fn new() -> Random {
        Random {
            state: 0x9e37_79b9_7f4a_7c15,
        }
    }

    /// The next number, of eight bits.
    pub(crate) fn byte(&mut self) -> u8 {
        self.state ^= self.state.wrapping_shl(13);
        self.state ^= self.state >> 7;
        self.state ^= self.state.wrapping_shl(17);
        (self.state >> 56) as u8
    }
}
