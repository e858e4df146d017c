//! The texts of answers: the contents of data-in and of sense data, field by field.
//!
//! Each text is defined for every list of bytes. An answer may be cut, may report another length
//! than it has, or may come from another target. `put_..` prints a text into a
//! [`sg_wire::Printer`], after the text that was printed before. `print_..` writes it to a writer; there
//! is one for each text that a base disk's script has.
#![tactic(auto)]

mod capacity;
mod defect_data;
mod entry;
mod extended_inquiry;
mod extended_vital_product_data;
mod hex_digits;
mod hex_lines;
mod inquiry;
mod items;
mod lba_status;
mod line;
mod log_pages;
mod mode_parameters;
mod number_text;
mod persistent_reservation;
mod print;
mod report_luns;
mod sense;
mod supported_operations;
mod value;
mod vital_product_data;

pub use capacity::{put_capacity_10, put_capacity_16};
pub use defect_data::{put_defects_10, put_defects_12};
pub use extended_inquiry::put_extended_inquiry;
pub use extended_vital_product_data::put_extended_vpd;
pub use hex_lines::{GATHERED_TEXT, put_hex, put_hex_lines};
pub use inquiry::put_inquiry;
pub use lba_status::{next_start, put_lba_status};
pub use log_pages::put_log_page;
pub use mode_parameters::put_modes;
pub use number_text::put_number;
pub use persistent_reservation::{
    put_capabilities, put_extended_capabilities, put_extended_full_status, put_full_status,
    put_keys, put_reservation,
};
pub use print::{
    GATHERED, print_capabilities, print_full_status, print_hex, print_inquiry, print_keys,
    print_lba_status, print_modes, print_reservation, print_sense, print_vpd,
};
pub use report_luns::put_luns;
pub use sense::{put_extended_sense, put_read_sense, put_sense};
pub use supported_operations::{put_all_commands, put_one_command, put_task_management};
pub use vital_product_data::put_vpd;
