//! A disk whose changes are kept in a file: what a power cycle leaves of it, and how commands and
//! happenings change that.
#![tactic(auto)]

pub mod asked;
mod batch_sink;
mod compaction;
mod disk;
mod group_commit;
mod happening;
pub mod laws;
mod opening;
mod owing;
mod recording;
mod room;
mod serving;
mod steps;

pub use batch_sink::BatchSink;
pub use disk::KeptDisk;
pub use group_commit::Unflushed;
pub use opening::{MakeError, OpenDiskError};
