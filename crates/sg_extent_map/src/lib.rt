//! A store of blocks with a record for each extent: addresses in a row that have one kind, and
//! whose slots are in a row, too.
#![tactic(auto)]

mod compare;
mod draft;
mod extent_map;
mod gather;
pub mod laws;
mod put;
mod read;
mod status;
mod unmap;
mod walk;
mod write;

pub use extent_map::ExtentMap;
