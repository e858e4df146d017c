//! Faults that are armed on a disk: each meets chosen commands of chosen initiators, after others
//! have passed, and makes the disk answer or act otherwise than a sound disk does.
#![tactic(auto)]

mod fault;
mod faults;
pub mod laws;
mod outcome;
mod seen;
mod sense_code;

pub use fault::{ArmedFault, BadBlocks, Count, Fault};
pub use faults::{Faults, MAX_FAULTS};
pub use outcome::{Afterwards, AtMedium, OnArrival, Outcome, Place, Struck};
pub use seen::{Overwritten, SeenCommand};
pub use sense_code::{SenseCode, SenseKey};
