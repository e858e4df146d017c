// The blocks that a range of addresses is to have: one address after the other asks for its own
// block. This file knows no slot.
ghost use Rattle.std.specs.Prelude.{◌≡◌, length};
ghost use Rattle.sg_pool.specs.Source.{block_of};

use sg_store::BLOCK_LENGTH;

/// The source of the blocks of a range.
#[derive(Drop)]
pub enum Source<'a> {
    /// Blocks that are joined, one for each address.
    Joined(&'a [u8]),
    /// One block for all addresses.
    Repeated(&'a [u8; BLOCK_LENGTH]),
}

impl Source<'_> {
    /// The block for the address at an index of the range.
    pub fn block(&self, index: usize) -> &[u8]
        requires { length (block_of self.now index) ≡ BLOCK_LENGTH }
        ensures { result.now ≡ block_of self.now index }
    {
        match self {
            Source::Joined(bytes) => {
                let at = BLOCK_LENGTH * index;
                &bytes[at..at + BLOCK_LENGTH]
            }
            Source::Repeated(block) => &block[..],
        }
    }
}
