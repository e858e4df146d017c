//! The calls of a store of blocks, and nothing about how the blocks are kept: the trait [`Store`].
//! The meaning of a store is a finite map from addresses to blocks. The crate also says what GET LBA
//! STATUS returns about them.
#![tactic(auto)]

pub mod laws;
pub mod lba_status;
mod store;

pub use store::{
    BLOCK_LENGTH, Counts, MAX_CAPACITY, MAX_COUNT, MAX_POOL, Miscompare, Space, Store,
};
