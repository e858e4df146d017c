// The disk that C holds by a pointer. Only the slot owns the memory at the pointer.
ghost use Rattle.std.specs.Coded.{coded_option};
ghost use Rattle.std.specs.Prelude.{◌≡◌, Option, None, Some, option_map};
ghost use Rattle.sg_embed.specs.Holds.{holds};
ghost use Rattle.sg_embed.specs.contracts.kept.Kept.{the_row};
ghost use Rattle.sg_embed.specs.declared.kept.Kept.{Kept};

use crate::answer::{NO_TEXT, list_faults};
use crate::happening::HappeningRecord;
use crate::kept::Kept;
use crate::outcome::Outcome;
use crate::parts::Parts;
use crate::record::ReplyRecord;
use sg_pages::Identity;
use sg_target::{Config, Happening};
use sg_wire::Initiator;
use std::alloc::Global;
use std::marker::Model;
use std::mem::{forget, replace};
use std::ptr::null_mut;

/// The record that C declares as `mdl_disk`: the address of a disk, or null.
#[repr(C)]
pub struct Slot {
    at: *mut u8,
    alloc: Global,
    pub ghost held: { Option Kept } by { coded_option the_row.coded },
}

const _: () = prove!(size_of::<Slot>() == 8);

impl Model for Slot {
    ghost also_owns = { λ s. holds the_row s.alloc s.at s.held };
}

// Only the slot owns the memory at its pointer: the thread that has the slot has the disk.
unsafe impl Send for Slot {}

impl Slot {
    ghost use Rattle.std.specs.Prelude.{◌≡◌, None, Some, option_map};
    ghost use Rattle.std.specs.Borrow.{sem};
    ghost use Rattle.sg_embed.specs.Lends.{lends_kept};

    /// No disk.
    pub fn empty(alloc: Global) -> Slot
        ensures { result.held ≡ None }
    {
        Slot {
            at: null_mut(),
            alloc,
        }
    }

    /// A disk.
    pub fn of(kept: Box<Kept>) -> Slot
        ensures { result.held ≡ Some kept.value }
    {
        Slot::of_parts(Parts::of(kept))
    }

    /// The disk, if there is one.
    pub fn into_kept(self) -> Option<Box<Kept>>
        ensures { option_map (λ b. b.value) result ≡ self.held }
    {
        match self.into_parts() {
            Some(parts) => Some(parts.into_box()),
            None => None,
        }
    }

    /// The disk where it is, if there is one.
    pub(crate) fn kept(&mut self) -> Option<&mut Kept>
        ensures* lends { sem 𝓛 (lends_kept self.entry result) }
        ensures value { option_map (λ kept. kept.now) result ≡ self.old.held }
    {
        unsafe {
            let at = self.at as *mut Kept;
            if at.is_null() { None } else { Some(&mut *at) }
        }
    }

    fn of_parts(parts: Parts<Kept, Global>) -> Slot
        ensures { result.held ≡ Some parts.value }
    {
        let Parts { at, alloc } = parts;
        Slot {
            at: at as *mut u8,
            alloc,
        }
    }

    fn into_parts(self) -> Option<Parts<Kept, Global>>
        ensures { option_map (λ p. p.value) result ≡ self.held }
    {
        let Slot { at, alloc } = self;
        if at.is_null() {
            None
        } else {
            Some(Parts {
                at: at as *mut Kept,
                alloc,
            })
        }
    }
}

impl Drop for Slot {
    fn drop(self) {
        drop(self.into_kept());
    }
}

impl Slot {
    ghost use Rattle.std.specs.Prelude.{◌≢◌, ◌≡◌, ◌≤◌, false, true, length, Ok, IfErr, IfSome};
    ghost use Rattle.sg_embed.specs.Executed.{HasUndergone, IsAnswered, IsForgotten, IsUnchanged};
    ghost use Rattle.sg_embed.specs.Executed.{IsAnsweredUnflushed};
    ghost use Rattle.sg_embed.specs.Ends.{done_outcome, ends, executed_outcome};
    ghost use Rattle.sg_embed.specs.Executed.{disk_config, new_disk, registrants};
    ghost use Rattle.sg_embed.specs.Outcome.{IsUnlessOutOfMemory, execute_outcome, forget_outcome};
    ghost use Rattle.sg_embed.specs.Happening.{asked_of};
    ghost use Rattle.sg_embed.specs.Outcome.{happen_outcome, make_outcome};
    ghost use Rattle.sg_wire.specs.Initiator.{initiator_count};
    ghost use Rattle.sg_embed.specs.Served.{initiators_of};
    ghost use Rattle.sg_embed.specs.Text.{IsFaultsText};

    /// Makes a disk as it is after power on, with `blocks` logical blocks. At most `pool` of them
    /// can be mapped at once. All memory is taken here. The disk stays as it was if the call
    /// returns another outcome than `Done`.
    pub fn make(&mut self, alloc: Global, blocks: u64, pool: u32, identity: Identity) -> Outcome
        ensures outcome { IsUnlessOutOfMemory
            (make_outcome self.old.held (disk_config blocks pool identity)) result }
        ensures made { result ≡ Outcome.Done → self.new.held
            ≡ Some (new_disk (disk_config blocks pool identity)) }
        ensures refused { result ≢ Outcome.Done → self.new.held ≡ self.old.held }
    {
        if let Some(_) = self.kept() {
            return Outcome::DiskExists;
        }
        match Config::new(blocks, pool, identity) {
            Ok(config) => match Kept::new(alloc, config) {
                Ok(kept) => {
                    self.put(kept);
                    Outcome::Done
                }
                Err(_) => Outcome::OutOfMemory,
            },
            Err(fault) => Outcome::of_config(fault),
        }
    }

    /// Executes a command, and shows its reply. Data-in is the first bytes of the buffer, and those
    /// after it stay as they were.
    ///
    /// The outcome is the first that applies of no disk, an initiator that the disk does not have, and a
    /// buffer that is shorter than the data-in that the command asks for. With these outcomes
    /// nothing is executed, and disk, buffer and reply are as they were. Otherwise it is `CallsWait` if calls
    /// on the disk's file wait after the command, or else `Done`.
    pub fn execute(
        &mut self,
        initiator: u32,
        cdb: &[u8],
        data_out: &[u8],
        data_in: &mut [u8],
        reply: &mut ReplyRecord,
    ) -> Outcome
        ensures outcome { result ≡ ends (execute_outcome self.old.held initiator cdb.now data_out.now
            (length data_in.old)) executed_outcome self.new.held }
        ensures executed { execute_outcome self.old.held initiator cdb.now data_out.now
            (length data_in.old) ≡ Outcome.Done → IsAnswered initiator cdb.now data_out.now false
            self.old.held self.new.held data_in.old data_in.new reply.new }

        // If it is refused, it changes nothing.
        ensures refused { execute_outcome self.old.held initiator cdb.now data_out.now
            (length data_in.old) ≢ Outcome.Done → IsUnchanged self.old.held self.new.held
            data_in.old data_in.new reply.old reply.new }
    {
        self.execute_as(initiator, cdb, data_out, data_in, reply, true)
    }

    /// Executes a command as [`execute`](Slot::execute) does, without the flush that it may owe to the disk's
    /// file. If its reply has to wait for one, the outcome is `FlushOwed`: the reply must not go out before
    /// [`flush`](Slot::flush) is done and no call on the file waits.
    pub fn execute_unflushed(
        &mut self,
        initiator: u32,
        cdb: &[u8],
        data_out: &[u8],
        data_in: &mut [u8],
        reply: &mut ReplyRecord,
    ) -> Outcome
        ensures executed { execute_outcome self.old.held initiator cdb.now data_out.now
            (length data_in.old) ≡ Outcome.Done → IsAnsweredUnflushed initiator cdb.now data_out.now
            self.old.held self.new.held data_in.old data_in.new reply.new result }

        // If it is refused, it changes nothing.
        ensures outcome { execute_outcome self.old.held initiator cdb.now data_out.now
            (length data_in.old) ≢ Outcome.Done → result ≡ execute_outcome self.old.held initiator
            cdb.now data_out.now (length data_in.old) }
        ensures refused { execute_outcome self.old.held initiator cdb.now data_out.now
            (length data_in.old) ≢ Outcome.Done → IsUnchanged self.old.held self.new.held
            data_in.old data_in.new reply.old reply.new }
    {
        self.execute_as(initiator, cdb, data_out, data_in, reply, false)
    }

    /// Executes a command, with its flush or without. Both ways are one function, so that the compiler
    /// inlines in it what a disk in memory calls.
    #[inline(never)]
    fn execute_as(
        &mut self,
        initiator: u32,
        cdb: &[u8],
        data_out: &[u8],
        data_in: &mut [u8],
        reply: &mut ReplyRecord,
        flushes: bool,
    ) -> Outcome
        ensures executed { execute_outcome self.old.held initiator cdb.now data_out.now
            (length data_in.old) ≡ Outcome.Done → IsAnsweredUnflushed initiator cdb.now data_out.now
            self.old.held self.new.held data_in.old data_in.new reply.new result }
        ensures flushed { flushes ≡ true → execute_outcome self.old.held initiator cdb.now data_out.now
            (length data_in.old) ≡ Outcome.Done → IsAnswered initiator cdb.now data_out.now false
            self.old.held self.new.held data_in.old data_in.new reply.new }
        ensures outcome { flushes ≡ true → result ≡ ends (execute_outcome self.old.held initiator
            cdb.now data_out.now (length data_in.old)) executed_outcome self.new.held }
        ensures refusal { execute_outcome self.old.held initiator cdb.now data_out.now
            (length data_in.old) ≢ Outcome.Done → result ≡ execute_outcome self.old.held initiator
            cdb.now data_out.now (length data_in.old) }
        ensures refused { execute_outcome self.old.held initiator cdb.now data_out.now
            (length data_in.old) ≢ Outcome.Done → IsUnchanged self.old.held self.new.held
            data_in.old data_in.new reply.old reply.new }
    {
        let Some(kept) = self.kept() else {
            return Outcome::NoDisk;
        };
        let Some(initiator) = kept.target.initiator(initiator) else {
            return Outcome::UnknownInitiator;
        };
        let mut waits = false;
        let Some(done) = kept
            .target
            .execute_within(initiator, cdb, data_out, data_in, flushes, &mut waits)
        else {
            return Outcome::BufferTooShort;
        };
        reply.show(done);
        if waits {
            return Outcome::FlushOwed;
        }
        kept.target.executed()
    }

    /// What a record asks of the disk. Without a disk it may name each initiator that a disk can have.
    ///
    /// # Errors
    /// [`Outcome::UnknownHappening`] if no kind has the number. For a kind that needs it:
    /// [`Outcome::UnknownCondition`] if no condition has the code, [`Outcome::UnknownInitiator`] if
    /// the disk has no such initiator, [`Outcome::BlockCount`] if the number of blocks is not 1 to 2^40,
    /// [`Outcome::FaultNumber`] if the number of a fault is not 0 to 7, or the outcome of a refused
    /// fault.
    pub fn asked(&mut self, record: &HappeningRecord) -> Result<Happening, Outcome>
        ensures value { result ≡ asked_of self.old.held record.now }
        ensures refused { IfErr result (λ outcome. outcome ≢ Outcome.Done) }
        ensures kept { self.new.held ≡ self.old.held }
    {
        record.read(self.initiators().unwrap_or(Initiator::COUNT as u8))
    }

    /// Lets something happen to the disk, unless there is no disk, or no room for a fault. Then the
    /// disk stays as it was. Otherwise the outcome is `FileFailed` if the disk's file has failed, or
    /// `CallsWait` if calls on it wait, or else `Done`.
    pub fn happen(&mut self, happening: Happening) -> Outcome
        ensures outcome { result
            ≡ ends (happen_outcome self.old.held (Ok happening)) done_outcome self.new.held }
        ensures happened { happen_outcome self.old.held (Ok happening) ≡ Outcome.Done
            → HasUndergone happening self.old.held self.new.held }
        ensures refused { happen_outcome self.old.held (Ok happening) ≢ Outcome.Done
            → self.new.held ≡ self.old.held }
    {
        let Some(kept) = self.kept() else {
            return Outcome::NoDisk;
        };
        if !kept.target.has_room_for(&happening) {
            return Outcome::TooManyFaults;
        }
        kept.target.happen(happening);
        kept.target.done()
    }

    /// The number of the disk's initiators, which are numbered from 0 on. None if there is no disk.
    pub fn initiators(&mut self) -> Option<u8>
        ensures value { result ≡ option_map (λ disk. initiators_of disk.target) self.old.held }
        ensures at_most { IfSome result (λ count. count ≤ initiator_count) }
        ensures kept { self.new.held ≡ self.old.held }
    {
        let kept = self.kept()?;
        Some(kept.target.initiators())
    }

    /// A mask of the initiators that are registered: bit i is set if initiator i is. None if there
    /// is no disk.
    pub fn registrants(&mut self) -> Option<u64>
        ensures value { result ≡ registrants self.old.held }
        ensures kept { self.new.held ≡ self.old.held }
    {
        let kept = self.kept()?;
        Some(kept.target.registered_mask())
    }

    /// Writes the text of the armed faults to the beginning of a buffer, as
    /// [`decode`](crate::decode) does for an answer: each fault in the words that arm it, and what is
    /// left of it. If there is no disk, or memory was refused, it returns
    /// [`NO_TEXT`](crate::NO_TEXT), and the buffer is as it was.
    pub fn list_faults(&mut self, alloc: Global, text: &mut [u8]) -> usize
        ensures text { IsFaultsText self.old.held text.old text.new result }
        ensures kept { self.new.held ≡ self.old.held }
    {
        let Some(kept) = self.kept() else {
            return NO_TEXT;
        };
        list_faults(alloc, kept.target.profile(), kept.target.faults(), text)
    }

    /// Clears the unit attentions that are pending for an initiator whose port is gone, unless there is no
    /// disk, or the disk does not have the initiator. Then the disk stays as it was. Otherwise the outcome
    /// is as that of [`happen`](Slot::happen).
    pub fn forget(&mut self, initiator: u32) -> Outcome
        ensures outcome { result
            ≡ ends (forget_outcome self.old.held initiator) done_outcome self.new.held }
        ensures forgotten { forget_outcome self.old.held initiator ≡ Outcome.Done
            → IsForgotten initiator self.old.held self.new.held }
        ensures refused { forget_outcome self.old.held initiator ≢ Outcome.Done
            → self.new.held ≡ self.old.held }
    {
        let Some(kept) = self.kept() else {
            return Outcome::NoDisk;
        };
        let Some(gone) = kept.target.initiator(initiator) else {
            return Outcome::UnknownInitiator;
        };
        kept.target.forget(gone);
        kept.target.done()
    }

    /// Puts a disk into a slot without one. There is nothing to drop, which the compiler doesn't
    /// know.
    pub(crate) fn put(&mut self, kept: Box<Kept>)
        requires { self.old.held ≡ None }
        ensures { self.new.held ≡ Some kept.value }
    {
        forget(replace(self, Slot::of(kept)));
    }
}
