//! A table of records that is sorted by their addresses and kept in leaves. The table counts the
//! records and addresses that calls read. This crate knows nothing of blocks.
#![tactic(auto)]

mod cursor;
mod draft;
mod ghost_number;
pub mod laws;
mod leaf;
mod leaf_list;
mod leaves;
mod run;
mod table;

pub use cursor::Cursor;
pub use draft::Draft;
pub use run::{Kind, Run, run_at};
pub use table::{MAX_RECORDS, RunTable};
