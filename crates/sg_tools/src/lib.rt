//! The tools modelled on sg3_utils: the request that the words of a command line make, with its
//! command and its parameter list. They also choose the text of the answer, and the exit status.
#![tactic(auto)]

mod capacity;
mod compare_and_write;
mod data_out;
mod digits;
mod given_options;
mod hex_word;
mod inquiry;
mod lba_status;
mod log_sense;
mod mode_sense;
mod number;
mod number_list;
mod option_text;
mod options;
mod parameters;
mod reply_status;
mod report;
mod reserve;
mod service_action;
mod show;
mod start_stop;
mod synchronize_cache;
mod tool;
mod tool_fault;
mod tool_name;
mod unit_state;
mod unmap;
mod verify;
mod write_same;

pub use data_out::{DataOut, MAX_DATA_OUT};
pub use digits::digit_value;
pub use given_options::GivenOptions;
pub use hex_word::read_hex;
pub use number::{read_number, read_number_up_to};
pub use option_text::number_or;
pub use parameters::Parameters;
pub use reply_status::{exit_status, status_of};
pub use show::Show;
pub use tool::{Plan, Tool};
pub use tool_fault::ToolFault;
pub use tool_name::ToolName;
