//! A journal: a file of batches of bytes over a device that may crash at any moment. A batch that is
//! acknowledged is whole on the disk. This crate knows no commands and no blocks.
#![tactic(auto)]

mod adding;
mod batch;
mod checksum;
mod device;
mod fault;
mod journal;
pub mod laws;
mod layout;
mod memory;
mod read;
mod reader;
mod record;
mod source;
mod steps;
mod writes;

pub use batch::Batch;
pub use device::{Device, DeviceError};
pub use fault::Fault;
pub use journal::Journal;
pub use layout::{MAX_BATCH, NEW_SECTOR, ROOM_AHEAD, is_sector_length};
pub use memory::{Memory, MemorySource};
pub use reader::{OpenError, Reader};
pub use record::Record;
pub use source::Source;
