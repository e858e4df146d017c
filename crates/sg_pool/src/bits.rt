// Bits in words of 64. This file does not know what the numbers of the bits mean.
ghost use Rattle.std.specs.Prelude.{◌≡◌, ◌≢◌, ℕ, ◌<◌, ◌≤◌, ◌/◌, ◌^◌, ◌↔◌, IsTrue, IfOk};
ghost use Rattle.std.specs.Prelude.{length, replicate, slice_index};
ghost use Rattle.sg_pool.specs.SlotSets.{bit_of, full_word};

use std::alloc::{AllocError, Global};

/// A bit for each number, in words of 64 bits.
#[derive(Drop)]
pub(crate) struct Bits {
    pub(crate) words: Vec<u64>,
}

/// `count` words without a bit of 1.
fn zero_words(alloc: Global, count: usize) -> Result<Vec<u64>, AllocError>
    ensures { IfOk result (λ zeros. zeros.items ≡ replicate count 0) }
{
    vec![in alloc; 0; count]
}

impl Bits {
    /// `count` words without a bit of 1.
    ///
    /// # Errors
    /// The allocator refused memory.
    pub(crate) fn new(alloc: Global, count: usize) -> Result<Bits, AllocError>
        ensures { IfOk result (λ bits. bits.words.items ≡ replicate count 0) }
    {
        Ok(Bits {
            words: zero_words(alloc, count)?,
        })
    }

    /// Sets the bit of a number. Returns whether all bits of its word are 1 then.
    pub(crate) fn insert(&mut self, number: usize) -> bool
        requires { number / 64 < length self.old.words.items }
        ensures bit { bit_of self.new.words.items number ≡ 1 }
        ensures others { (other : ℕ) → other ≢ number
            → bit_of self.new.words.items other ≡ bit_of self.old.words.items other }
        ensures words { (word : ℕ) → word ≢ number / 64
            → slice_index self.new.words.items word ≡ slice_index self.old.words.items word }
        ensures count { length self.new.words.items ≡ length self.old.words.items }
        ensures full { IsTrue result
            ↔ (slice_index self.new.words.items (number / 64) ≡ full_word) }
    {
        self.words[number / 64] |= 1 << (number % 64);
        self.words[number / 64] == u64::MAX
    }

    /// Clears the bit of a number.
    pub(crate) fn remove(&mut self, number: usize)
        requires { number / 64 < length self.old.words.items }
        ensures bit { bit_of self.new.words.items number ≡ 0 }
        ensures others { (other : ℕ) → other ≢ number
            → bit_of self.new.words.items other ≡ bit_of self.old.words.items other }
        ensures words { (word : ℕ) → word ≢ number / 64
            → slice_index self.new.words.items word ≡ slice_index self.old.words.items word }
        ensures count { length self.new.words.items ≡ length self.old.words.items }
    {
        self.words[number / 64] &= !(1 << (number % 64));
    }

    /// The first word that has a bit of 0, or the number of words if there is none.
    pub(crate) fn first_open(&self) -> usize
        ensures before { (word : ℕ) → word < result
            → slice_index self.now.words.items word ≡ full_word }
        ensures open { slice_index self.now.words.items result ≢ full_word }
        ensures within { result ≤ length self.now.words.items }
    {
        for word in 0..self.words.len() {
            if self.words[word] != u64::MAX {
                return word;
            }
        }
        self.words.len()
    }

    /// The lowest number whose bit is 0, by the first word that has one.
    pub(crate) fn lowest_zero(&self, word: usize) -> usize
        requires within { word < length self.now.words.items }
        requires short { length self.now.words.items ≤ 2 ^ 32 }
        requires before { (other : ℕ) → other < word
            → slice_index self.now.words.items other ≡ full_word }
        requires open { slice_index self.now.words.items word ≢ full_word }
        ensures zero { bit_of self.now.words.items result ≡ 0 }
        ensures lowest { (other : ℕ) → other < result → bit_of self.now.words.items other ≡ 1 }
    {
        64 * word + self.words[word].trailing_ones() as usize
    }
}
