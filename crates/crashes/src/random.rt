// Numbers that look random, the same in each run.
ghost use Rattle.std.specs.Prelude.{◌<◌, ◌≤◌};

/// Steele, Lea and Flood's SplitMix generator of 64 bits.
#[derive(Clone, Copy)]
pub(crate) struct Random {
    state: u64,
}

impl Random {
    pub(crate) fn new(seed: u64) -> Random {
        Random { state: seed }
    }

    fn word(&mut self) -> u64 {
        self.state = self.state.wrapping_add(0x9e37_79b9_7f4a_7c15);
        let mut word = self.state;
        word = (word ^ (word >> 30)).wrapping_mul(0xbf58_476d_1ce4_e5b9);
        word = (word ^ (word >> 27)).wrapping_mul(0x94d0_49bb_1331_11eb);
        word ^ (word >> 31)
    }

    /// A number below a bound.
    pub(crate) fn below(&mut self, bound: u8) -> u8
        requires { 0 < bound }
        ensures { result < bound }
    {
        (self.word() % u64::from(bound)) as u8
    }

    /// A number up to a greatest one.
    pub(crate) fn up_to(&mut self, most: usize) -> usize
        ensures { result ≤ most }
    {
        let most = most as u64;
        (self.word() % most.saturating_add(1)).min(most) as usize
    }

    /// Any byte.
    pub(crate) fn byte(&mut self) -> u8 {
        (self.word() >> 56) as u8
    }

    /// `true` once in so many times.
    pub(crate) fn is_one_in(&mut self, count: u8) -> bool
        requires { 0 < count }
    {
        self.below(count) == 0
    }
}
