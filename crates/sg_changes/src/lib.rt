//! The changes that commands make to what a power cycle leaves of a disk: as records of bytes, and
//! replayed. The crate knows no commands, and does not know where the records are kept.
#![tactic(auto)]

mod blocks;
mod change;
mod fault_fields;
mod fault_writing;
mod fields;
mod first_record;
pub mod laws;
mod outcome_tag;
mod parts;
mod reservation_fields;
mod reservation_writing;
mod sink;
mod tag;
mod writing;

pub use change::Change;
pub use first_record::NewDisk;
pub use parts::{Damaged, KeptParts};
pub use sink::Sink;
