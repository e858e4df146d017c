//! A disk for programs in other languages, as the exports of `mehdalung` hand it to C.
#![tactic(auto)]

mod answer;
mod command;
mod fault;
mod file_disk;
mod file_record;
mod happening;
mod kept;
mod kinds;
pub mod laws;
mod mask;
mod opening;
mod outcome;
mod parts;
mod profiles;
mod record;
mod served;
mod slot;
mod slot_file;
mod steps;
mod text;
mod wanted;
mod words;

pub use answer::{NO_TEXT, decode};
pub use command::{CommandRecord, plan_tool};
pub use fault::FaultRecord;
pub use file_disk::FileDisk;
pub use file_record::{DamageRecord, FileCallRecord, WantedRecord};
pub use happening::HappeningRecord;
pub use kept::Kept;
pub use outcome::Outcome;
pub use profiles::identity_with_profile;
pub use record::{IdentityRecord, ReplyRecord, SenseRecord};
pub use served::Served;
pub use slot::Slot;
pub use text::{copy_text, copy_version};
pub use wanted::Wanted;
pub use words::read_happening;
