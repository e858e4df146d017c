// Fletcher's checksum, by which damage is noticed. No theorem about crashes rests on it.
ghost use Rattle.std.specs.Prelude.{◌≡◌, ◌+◌, ◌%◌, ◌^◌, ℕ, List, [], ◌∷◌, ◌++◌};
ghost use Rattle.sg_journal.specs.Layout.{checksum};
ghost use Rattle.sg_journal.specs.Sums.{AreSums};

/// The sum of some words, and the sum of the sums of all their prefixes, both modulo 2^32.
#[derive(Drop)]
struct Sums {
    sum: u32,
    sum_of_sums: u32,
}

impl Sums {
    /// Counts one more word.
    fn add(&mut self, word: u32)
        ensures { (words : List ℕ) → AreSums words self.old → AreSums (words ++ word ∷ []) self.new }
    {
        self.sum = self.sum.wrapping_add(word);
        self.sum_of_sums = self.sum_of_sums.wrapping_add(self.sum);
    }
}

/// The checksum of the records of a batch.
#[tactic(auto, unfolding(crate::specs::Layout::checksum))]
pub(crate) fn checksum(records: &[u8]) -> u64
    ensures { result ≡ checksum records.now }
{
    let mut sums = Sums {
        sum: 0,
        sum_of_sums: 0,
    };
    let (words, bytes) = records.as_chunks::<4>();
    for word in words {
        sums.add(u32::from_be_bytes(*word));
    }
    for byte in bytes {
        sums.add(u32::from(*byte));
    }
    u64::from(sums.sum_of_sums) * (1 << 32) + u64::from(sums.sum)
}
