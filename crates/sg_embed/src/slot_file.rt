// The calls on the file of the disk that C holds.
ghost use Rattle.std.specs.Prelude.{◌≡◌, ◌≢◌, IfErr, IfOk, OnErr, length};
ghost use Rattle.sg_embed.specs.Ends.{done_outcome, ends};
ghost use Rattle.sg_embed.specs.Executed.{HasFailed, IsFlushed, IsHandedOut, IsNoCall, device_number};
ghost use Rattle.sg_embed.specs.Opening.{IsKeptOf, IsNotOpened, Opens};
ghost use Rattle.sg_embed.specs.Outcome.{file_outcome};

use crate::file_record::DamageRecord;
use crate::kept::Kept;
use crate::opening::{OpenFault, open_disk};
use crate::outcome::Outcome;
use crate::record::ReplyRecord;
use crate::slot::Slot;
use crate::wanted::Wanted;
use sg_queue::{QueuedCall, TooShort};
use std::alloc::Global;

impl Slot {
    /// Opens the disk in a file that C has read. An empty file becomes the new disk that is asked for. The
    /// disk of another file has to be as asked for. The damage is all zeros unless the file is damaged, or
    /// has another version of the format.
    pub fn open(
        &mut self,
        alloc: Global,
        wanted: &Wanted,
        file: &[u8],
        damage: &mut DamageRecord,
    ) -> Outcome
        ensures { Opens wanted.now file.now self.old.held self.new.held damage.new result }
    {
        *damage = DamageRecord::none();
        if let Some(_) = self.kept() {
            return Outcome::DiskExists;
        }
        match open_kept(alloc, wanted, file) {
            Ok(kept) => {
                let outcome = kept.target.done();
                self.put(kept);
                outcome
            }
            Err(fault) => {
                *damage = fault.damage();
                fault.outcome()
            }
        }
    }

    /// Writes all that was changed to the disk's file, unless there is no disk, or the disk is not in a
    /// file. Then the disk stays as it was. Otherwise the outcome is as that of [`happen`](Slot::happen).
    pub fn flush(&mut self) -> Outcome
        ensures outcome { result ≡ ends (file_outcome self.old.held) done_outcome self.new.held }
        ensures flushed { file_outcome self.old.held ≡ Outcome.Done
            → IsFlushed self.old.held self.new.held }
        ensures refused { file_outcome self.old.held ≢ Outcome.Done
            → self.new.held ≡ self.old.held }
    {
        let Some(kept) = self.kept() else {
            return Outcome::NoDisk;
        };
        if !kept.target.flush() {
            return Outcome::NoFile;
        }
        kept.target.done()
    }

    /// A call on the disk's file has failed, as C has found out. The disk is dead from now on, and the record
    /// shows its reply to each command. With another outcome than `Done` disk and record are as they were.
    pub fn fail(&mut self, reply: &mut ReplyRecord) -> Outcome
        ensures outcome { result ≡ file_outcome self.old.held }
        ensures failed { result ≡ Outcome.Done
            → HasFailed self.old.held self.new.held reply.new }
        ensures refused { result ≢ Outcome.Done → self.new.held ≡ self.old.held }
        ensures silent { result ≢ Outcome.Done → reply.new ≡ reply.old }
    {
        let Some(kept) = self.kept() else {
            return Outcome::NoDisk;
        };
        let Some(failure) = kept.target.fail() else {
            return Outcome::NoFile;
        };
        reply.show(failure);
        Outcome::Done
    }

    /// Hands out the oldest call on the disk's file that waits, with what C calls the device. Its bytes
    /// are at the beginning of the buffer.
    ///
    /// # Errors
    /// `NoDisk`, `NoCall` if none waits or the disk is dead, or `BufferTooShort` if the buffer is shorter
    /// than the call's bytes. Disk and buffer are as they were then.
    pub fn next_call(&mut self, bytes: &mut [u8]) -> Result<(QueuedCall, u64), Outcome>
        ensures handed { IfOk result (λ call.
            IsHandedOut self.old.held self.new.held bytes.old bytes.new call.0 call.1) }
        ensures outcome { IfErr result (IsNoCall self.old.held (length bytes.old)) }
        ensures kept { OnErr result (self.new.held ≡ self.old.held) }
        ensures untouched { OnErr result (bytes.new ≡ bytes.old) }
    {
        let Some(kept) = self.kept() else {
            return Err(Outcome::NoDisk);
        };
        let device = kept.target.device().unwrap_or(0);
        match kept.target.next_call(bytes) {
            Ok(Some(call)) => Ok((call, device)),
            Ok(None) => Err(Outcome::NoCall),
            Err(TooShort) => Err(Outcome::BufferTooShort),
        }
    }

    /// What C calls the device of the disk's file. It is 0 if there is no disk, or if the disk is not in a
    /// file.
    pub fn device(&mut self) -> u64
        ensures number { result ≡ device_number self.old.held }
        ensures kept { self.new.held ≡ self.old.held }
    {
        match self.kept() {
            Some(kept) => kept.target.device().unwrap_or(0),
            None => 0,
        }
    }
}

/// The disk of a file, on the heap.
fn open_kept(alloc: Global, wanted: &Wanted, file: &[u8]) -> Result<Box<Kept>, OpenFault>
    ensures opened { IfOk result (λ kept. IsKeptOf wanted.now file.now kept.value) }
    ensures refused { IfErr result (IsNotOpened wanted.now file.now) }
{
    let disk = open_disk(alloc, wanted, file)?;
    Ok(Kept::in_file(alloc, disk)?)
}
