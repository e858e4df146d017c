//! A store of blocks with a record for each maximal run of addresses that are mapped, or are
//! anchored. The blocks of a run are in a chain of slots.
#![tactic(auto)]

mod block_map;
mod compare;
mod gather;
pub mod laws;
mod overwrite;
mod put;
mod read;
mod split;
mod status;
mod unmap;
mod walk;
mod write;

pub use block_map::BlockMap;
