//! What GET LBA STATUS returns about a store: how many descriptors, and of how many addresses. A store
//! finds the descriptors, and a `Cut` decides how many of their bytes are returned.

pub use sg_wire::{ProvisioningStatus, StatusDescriptor, status_header};

/// The most descriptors that an answer has.
pub const MAX_DESCRIPTORS: usize = 512;

/// The most addresses that a descriptor covers. NUMBER OF LOGICAL BLOCKS has four bytes.
pub const MAX_ADDRESSES: u32 = 0xFFFF_FFFF;
