// The same disk of the extended profile over each store, and how often a reply has each status.
use sg_block_map::BlockMap;
use sg_extent_map::ExtentMap;
use sg_pages::Identity;
use sg_plain_map::PlainMap;
use sg_store::{BLOCK_LENGTH, Store};
use sg_target::{Config, Happening, Reply, Status, Target};
use sg_wire::{Initiator, Profile};
use std::alloc::Global;

/// A small disk with a smaller pool, so that runs of mapped blocks are joined and cut, and the pool
/// is full at times.
pub(crate) const BLOCKS: u64 = 256;

const POOL: u32 = 48;

/// The length of the buffers for data-in: no command reads more than all blocks of the disk.
const BUFFER_LENGTH: usize = BLOCKS as usize * BLOCK_LENGTH;

/// The same disk over each store, with the buffers of their data-in.
#[derive(Drop)]
pub(crate) struct Disks {
    pub(crate) plain: Target<PlainMap>,
    pub(crate) runs: Target<BlockMap>,
    pub(crate) extents: Target<ExtentMap>,
    of_plain: [u8; BUFFER_LENGTH],
    of_runs: [u8; BUFFER_LENGTH],
    of_extents: [u8; BUFFER_LENGTH],
}

/// Whether two replies have the same status and the same sense data.
fn are_equal(one: &Reply, other: &Reply) -> bool {
    one.status == other.status && one.sense.as_slice() == other.sense.as_slice()
}

fn new_disk<S: Store>(alloc: Global) -> Option<Target<S>> {
    let identity = Identity::standard().with_profile(Profile::Extended);
    let config = Config::new(BLOCKS, POOL, identity).ok()?;
    Target::new(alloc, config).ok()
}

impl Disks {
    pub(crate) fn new(alloc: Global) -> Option<Disks> {
        Some(Disks {
            plain: new_disk(alloc)?,
            runs: new_disk(alloc)?,
            extents: new_disk(alloc)?,
            of_plain: [0; BUFFER_LENGTH],
            of_runs: [0; BUFFER_LENGTH],
            of_extents: [0; BUFFER_LENGTH],
        })
    }

    /// Replaces each by a new disk.
    pub(crate) fn renew(&mut self, alloc: Global) -> Option<()> {
        self.plain = new_disk(alloc)?;
        self.runs = new_disk(alloc)?;
        self.extents = new_disk(alloc)?;
        Some(())
    }

    /// Executes a command over each, and returns the status if the replies are equal.
    pub(crate) fn execute(
        &mut self,
        initiator: Initiator,
        cdb: &[u8],
        data_out: &[u8],
    ) -> Option<Status> {
        let plain = self
            .plain
            .execute_within(initiator, cdb, data_out, &mut self.of_plain)?;
        let runs = self
            .runs
            .execute_within(initiator, cdb, data_out, &mut self.of_runs)?;
        let extents = self
            .extents
            .execute_within(initiator, cdb, data_out, &mut self.of_extents)?;
        let are_equal = are_equal(&plain, &runs)
            && are_equal(&plain, &extents)
            && self.of_plain[..plain.data_in] == self.of_runs[..runs.data_in]
            && self.of_plain[..plain.data_in] == self.of_extents[..extents.data_in];
        if are_equal { Some(plain.status) } else { None }
    }

    /// Lets the same happen to each.
    pub(crate) fn happen(&mut self, happening: &Happening) {
        self.plain.happen(*happening);
        self.runs.happen(*happening);
        self.extents.happen(*happening);
    }
}

/// The number of replies that are equal, and how many of these have each status.
#[derive(Clone, Copy, Default)]
pub(crate) struct Tally {
    pub(crate) equal: u64,
    pub(crate) good: u64,
    pub(crate) check_condition: u64,
    pub(crate) conflict: u64,
    pub(crate) busy: u64,
    pub(crate) full: u64,
    unanswered: u64,
}

impl Tally {
    pub(crate) fn count(&mut self, status: Option<Status>) {
        let Some(status) = status else {
            return;
        };
        self.equal = self.equal.saturating_add(1);
        match status {
            Status::Good => self.good = self.good.saturating_add(1),
            Status::CheckCondition => {
                self.check_condition = self.check_condition.saturating_add(1);
            }
            Status::ReservationConflict => self.conflict = self.conflict.saturating_add(1),
            Status::Busy => self.busy = self.busy.saturating_add(1),
            Status::TaskSetFull => self.full = self.full.saturating_add(1),
            Status::NoReply => self.unanswered = self.unanswered.saturating_add(1),
        }
    }

    /// Whether each status occurs.
    pub(crate) fn has_each_status(&self) -> bool {
        self.good > 0
            && self.check_condition > 0
            && self.conflict > 0
            && self.busy > 0
            && self.full > 0
            && self.unanswered > 0
    }
}
