//! The disk's reports about itself: its identity, the standard INQUIRY data and the pages of vital
//! product data (VPD). The crate also has the capacity, and the mode pages, for MODE SENSE and MODE
//! SELECT.
#![tactic(auto)]

mod capacity;
mod extended_pages;
mod identity;
mod inquiry_data;
pub mod laws;
mod mode_pages;
mod physical_block;
mod provisioning_pages;
mod reports;
mod vital_product_data;

pub use capacity::{CAPACITY_10_LENGTH, CAPACITY_16_LENGTH, write_capacity_10, write_capacity_16};
pub use identity::{Identity, IdentityFault};
pub use inquiry_data::{
    LONGEST_STANDARD_INQUIRY, write_standard_inquiry, write_standard_inquiry as inquiry,
};
pub use mode_pages::{
    Changed, LONGEST_MODE_LIST, ModePage, ModePages, ModeSelectFault,
    ModeSelectFault as SelectFault, ModeSenseFault, ModeSenseFault as AskFault, ModeSenseRequest,
    ModeSenseRequest as Ask, PageValues,
};
pub use physical_block::PhysicalBlock;
pub use provisioning_pages::MappingResources;
pub use reports::{LONGEST_REPORT, LogPage, Report};
pub use sg_wire::{MAXIMUM_TRANSFER_LENGTH, MAXIMUM_WRITE_SAME_LENGTH, PageControl};
pub use vital_product_data::{LONGEST_VPD_PAGE, VpdPage, unit_designation, vpd, write_vpd_page};
