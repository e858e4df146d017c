//! The target: one logical unit, a direct access block device, that executes commands one after the
//! other (SPC-4, 4.2; SBC-3, 4).
#![tactic(auto)]

mod alert;
mod anchoring;
mod armed;
mod block;
mod call;
mod checks;
mod config;
mod copying;
mod data_in;
mod data_out;
mod device_server;
mod event;
mod executed;
mod extent;
mod format;
mod happening;
mod joining;
mod kept;
pub mod laws;
mod lba_run;
mod mode;
mod operation;
mod or_write;
mod port;
mod primary;
mod provisioning;
mod refusal;
mod reply;
mod report;
mod reservation;
mod room;
mod run;
mod start_stop;
mod target;
mod verify;
mod write_long;

pub use call::Call;
pub use config::{Config, ConfigFault};
pub use copying::CopiedBlocks;
pub use device_server::DeviceServer;
pub use event::Event;
pub use executed::Executed;
pub use happening::Happening;
pub use operation::Operation;
pub use reply::{Reply, SENSE_LENGTH, SenseBytes, Status};
pub use run::Sink;
pub use target::{BUFFER_LENGTH, Target};
