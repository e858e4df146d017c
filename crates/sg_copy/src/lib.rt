//! EXTENDED COPY(LID1) within one logical unit (SPC-4, 6.5): what its parameter list asks for, and what
//! RECEIVE COPY OPERATING PARAMETERS and RECEIVE COPY STATUS(LID1) report. No disk has these commands yet.
#![tactic(auto)]

mod copy_list;
mod ended_copies;
mod fault;
mod reports;

pub use copy_list::{CopyList, DESIGNATION_LENGTH, Segment};
pub use ended_copies::{EndedCopies, EndedCopy};
pub use fault::{CopyFault, Invalid};
pub use reports::{write_copy_status, write_operating_parameters};

#[cfg(test)]
mod tests;
