//! The reference store, for tests: each mapped or anchored address has a record of its own.
#![tactic(auto)]

mod compare;
mod kind;
mod need;
mod plain_map;
mod read;
mod search;
mod status;
mod unmap;
mod write;

pub use plain_map::PlainMap;
