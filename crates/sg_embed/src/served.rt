// What serves a disk: a target in memory, over the store of the disk's profile, or a disk in a file.
ghost use Rattle.std.specs.Prelude.{◌≡◌, ◌<◌, ◌≤◌, false, true, is_some, length, nat_le, IfNone, IfOk};
ghost use Rattle.std.specs.Prelude.{IfSome};
ghost use Rattle.std.specs.Option.{SomeIff};
ghost use Rattle.sg_wire.specs.Initiator.{initiator_count};
ghost use Rattle.sg_units.specs.Registrations.{registered_mask};
ghost use Rattle.sg_target.specs.DataInBound.{longest_data_in, needed_buffer};
ghost use Rattle.sg_target.specs.State.{profile_of};
ghost use Rattle.sg_embed.specs.Ends.{done_outcome, executed_outcome};
ghost use Rattle.sg_embed.specs.Executed.{new_target};
ghost use Rattle.sg_embed.specs.Room.{has_free_number, has_room_for};
ghost use Rattle.sg_embed.specs.Served.{Executes, Fails, Flushes, ForgetsPort, HandsOut, Undergoes};
ghost use Rattle.sg_embed.specs.Served.{device_of, initiators_of, target_of};

use crate::file_disk::FileDisk;
use crate::outcome::Outcome;
use sg_block_map::BlockMap;
use sg_extent_map::ExtentMap;
use sg_faults::ArmedFault;
use sg_queue::{QueuedCall, TooShort};
use sg_target::{Config, Happening, Reply, Target};
use sg_wire::{Initiator, Profile};
use std::alloc::{AllocError, Global};

/// A target over the store of its profile, or a disk in a file.
#[derive(Drop)]
pub enum Served {
    /// The base profile: a record for each run.
    Runs(Target<BlockMap>),
    /// The extended profile, whose pool can be far larger: a record for each extent.
    Extents(Target<ExtentMap>),
    /// A disk in a file, of any profile: the profile is known only after the file was read.
    InFile(FileDisk),
}

impl Served {
    /// A target as it is after power on. All memory is taken here.
    ///
    /// # Errors
    /// Memory was refused.
    pub(crate) fn new(alloc: Global, config: Config) -> Result<Served, AllocError>
        ensures { IfOk result (λ served. served ≡ new_target config) }
    {
        match config.identity().profile() {
            Profile::Base => Ok(Served::Runs(Target::new(alloc, config)?)),
            Profile::Extended => Ok(Served::Extents(Target::new(alloc, config)?)),
        }
    }

    /// The disk's initiator with a number, if it has one.
    #[inline(always)]
    pub(crate) fn initiator(&self, number: u32) -> Option<Initiator>
        ensures { SomeIff result (number < initiators_of self.now) number }
    {
        initiator_below(self.initiators(), number)
    }

    /// The profile of the disk.
    pub(crate) fn profile(&self) -> Profile
        ensures { result ≡ profile_of (target_of self.now).state }
    {
        match self {
            Served::Runs(target) => target.profile(),
            Served::Extents(target) => target.profile(),
            Served::InFile(disk) => disk.target().profile(),
        }
    }

    /// The number of the disk's initiators.
    pub(crate) fn initiators(&self) -> u8
        ensures value { result ≡ initiators_of self.now }
        ensures at_most { result ≤ initiator_count }
    {
        match self {
            Served::Runs(target) => target.initiators(),
            Served::Extents(target) => target.initiators(),
            Served::InFile(disk) => disk.target().initiators(),
        }
    }

    /// Executes a command. None if the buffer is shorter than the data-in that the command asks
    /// for. Nothing has changed then. If `flushes` is `false`, the flush that the command may owe to the
    /// disk's file is left to the caller, and `waits` says whether the reply has to wait for it.
    #[inline(always)]
    pub(crate) fn execute_within(
        &mut self,
        initiator: Initiator,
        cdb: &[u8],
        data_out: &[u8],
        buf: &mut [u8],
        flushes: bool,
        waits: &mut bool,
    ) -> Option<Reply>
        // Whether the buffer is long enough.
        ensures room { is_some result
            ≡ nat_le (needed_buffer (target_of self.old).state initiator cdb.now data_out.now)
            (length buf.old) }
        ensures at_most { needed_buffer (target_of self.old).state initiator cdb.now data_out.now
            ≤ longest_data_in }

        // If it is, the command is executed. If it is not, nothing changes.
        ensures executed { IfSome result (λ reply. Executes initiator cdb.now data_out.now reply
            waits.new buf.old buf.new self.old self.new) }
        ensures flushed { flushes ≡ true → waits.new ≡ false }
        ensures kept { IfNone result (self.new ≡ self.old) }
        ensures untouched { IfNone result (buf.new ≡ buf.old) }
    {
        *waits = false;
        match self {
            Served::Runs(target) => target.execute_within(initiator, cdb, data_out, buf),
            Served::Extents(target) => target.execute_within(initiator, cdb, data_out, buf),
            Served::InFile(disk) => {
                disk.execute_within(initiator, cdb, data_out, buf, flushes, waits)
            }
        }
    }

    /// A number is free for the fault that a happening arms, if it arms one.
    pub(crate) fn has_room_for(&self, happening: &Happening) -> bool
        ensures { result ≡ has_room_for happening.now (target_of self.now).faults }
    {
        match happening {
            Happening::Arm(_) => has_free_number(self.faults()),
            _ => true,
        }
    }

    /// What is armed under each number.
    pub(crate) fn faults(&self) -> &[Option<ArmedFault>]
        ensures { result.now ≡ (target_of self.now).faults }
    {
        match self {
            Served::Runs(target) => target.faults(),
            Served::Extents(target) => target.faults(),
            Served::InFile(disk) => disk.target().faults(),
        }
    }

    /// Lets something happen to the disk.
    pub(crate) fn happen(&mut self, happening: Happening)
        ensures { Undergoes happening self.old self.new }
    {
        match self {
            Served::Runs(target) => target.happen(happening),
            Served::Extents(target) => target.happen(happening),
            Served::InFile(disk) => disk.happen(happening),
        }
    }

    /// A mask of the initiators that are registered.
    pub(crate) fn registered_mask(&self) -> u64
        ensures { result ≡ registered_mask (target_of self.now).state.reservations.registrations }
    {
        match self {
            Served::Runs(target) => target.registered_mask(),
            Served::Extents(target) => target.registered_mask(),
            Served::InFile(disk) => disk.target().registered_mask(),
        }
    }

    /// Clears the unit attentions that are pending for an initiator whose port is gone.
    pub(crate) fn forget(&mut self, initiator: Initiator)
        ensures { ForgetsPort initiator self.old self.new }
    {
        match self {
            Served::Runs(target) => target.forget(initiator),
            Served::Extents(target) => target.forget(initiator),
            Served::InFile(disk) => disk.forget(initiator),
        }
    }

    /// How a command ends that was executed: calls on the disk's file wait, or none.
    #[inline(always)]
    pub(crate) fn executed(&self) -> Outcome
        ensures { result ≡ executed_outcome self.now }
    {
        match self {
            Served::Runs(_) | Served::Extents(_) => Outcome::Done,
            Served::InFile(disk) => disk.executed(),
        }
    }

    /// How any other call ends that was carried out.
    pub(crate) fn done(&self) -> Outcome
        ensures { result ≡ done_outcome self.now }
    {
        match self {
            Served::Runs(_) | Served::Extents(_) => Outcome::Done,
            Served::InFile(disk) => disk.done(),
        }
    }

    /// Writes all that was changed to the disk's file. Returns `false` if the disk is not in a file.
    pub(crate) fn flush(&mut self) -> bool
        ensures { Flushes self.old self.new result }
    {
        match self {
            Served::Runs(_) | Served::Extents(_) => false,
            Served::InFile(disk) => {
                disk.flush();
                true
            }
        }
    }

    /// The disk's file has failed. Returns the disk's reply to each command from now on. None if the disk is
    /// not in a file.
    pub(crate) fn fail(&mut self) -> Option<Reply>
        ensures { Fails self.old self.new result }
    {
        match self {
            Served::Runs(_) | Served::Extents(_) => None,
            Served::InFile(disk) => Some(disk.fail()),
        }
    }

    /// Hands out the oldest call on the disk's file that waits, and writes its bytes to the beginning of the
    /// buffer. None if no call waits.
    ///
    /// # Errors
    /// The buffer is shorter than the call's bytes.
    pub(crate) fn next_call(&mut self, bytes: &mut [u8]) -> Result<Option<QueuedCall>, TooShort>
        ensures { HandsOut bytes.old bytes.new self.old self.new result }
    {
        match self {
            Served::Runs(_) | Served::Extents(_) => Ok(None),
            Served::InFile(disk) => disk.next_call(bytes),
        }
    }

    /// What C calls the device of the disk's file. None if the disk is not in a file.
    pub(crate) fn device(&self) -> Option<u64>
        ensures { result ≡ device_of self.now }
    {
        match self {
            Served::Runs(_) | Served::Extents(_) => None,
            Served::InFile(disk) => Some(disk.device()),
        }
    }
}

/// The initiator with a number, if it is one of `count`.
#[inline(always)]
pub(crate) fn initiator_below(count: u8, number: u32) -> Option<Initiator>
    requires { count ≤ initiator_count }
    ensures { SomeIff result (number < count) number }
{
    if number < u32::from(count) {
        Initiator::new(number as u8)
    } else {
        None
    }
}

/// No fault is armed under some number.
fn has_free_number(faults: &[Option<ArmedFault>]) -> bool
    ensures { result ≡ has_free_number faults.now }
{
    faults.iter().any(|slot| slot.is_none())
}
