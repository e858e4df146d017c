//! The blocks of a disk, by the names that users know. Each is defined in the crate that it comes
//! from.
#![tactic(auto)]

pub use sg_block_map::BlockMap;
pub use sg_extent_map::ExtentMap;
pub use sg_plain_map::PlainMap;
pub use sg_pool::{MAX_SLOTS, Pool, UnlinkedPool};
pub use sg_store::{
    BLOCK_LENGTH, Counts, MAX_CAPACITY, MAX_COUNT, MAX_POOL, Miscompare, Space, Store,
};
pub use sg_table::{Kind, Run, RunTable};
