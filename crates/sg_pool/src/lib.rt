//! Slots of one block each, in chains, and the blocks that go into them.
#![tactic(auto)]

mod bits;
mod compare;
mod content;
mod jumps;
mod kind;
pub mod laws;
mod leaps;
mod links;
mod pool;
mod slot_blocks;
mod slot_set;
mod source;
mod unlinked_pool;

pub use content::Content;
pub use kind::status_of;
pub use links::MAX_SLOTS;
pub use pool::Pool;
pub use source::Source;
pub use unlinked_pool::UnlinkedPool;
