// A disk in a file. No call of the system is made here: each call on the file waits until C makes it.
ghost use Rattle.std.specs.Prelude.{◌≡◌, ◌≤◌, false, true, IfNone, IfSome, None, is_some, length, nat_le};
ghost use Rattle.sg_kept.specs.Disk.{failure_reply};
ghost use Rattle.sg_kept.specs.Opening.{HasStarted};
ghost use Rattle.sg_target.specs.DataInBound.{longest_data_in, needed_buffer};
ghost use Rattle.sg_embed.specs.Ends.{done_outcome, executed_outcome};
ghost use Rattle.sg_embed.specs.FileDisk.{ExecutesInFile, FlushesFile, ForgetsInFile, HandsOutNext};
ghost use Rattle.sg_embed.specs.FileDisk.{HappensInFile, IsReady, failed_disk, has_calls, may_leave};
ghost use Rattle.sg_embed.specs.FileDisk.{seen, target_in};
ghost use Rattle.sg_embed.specs.declared.served.Served.TheVariants.{InFile};

use crate::outcome::Outcome;
use crate::steps::{give_up, go_on, keep_short};
use sg_extent_map::ExtentMap;
use sg_file::FileDevice;
use sg_kept::KeptDisk;
use sg_queue::{QueuedCall, QueuedFile, TooShort};
use sg_target::{Happening, Reply, Target};
use sg_wire::Initiator;
use std::marker::Model;

/// The device of a file whose calls wait.
pub(crate) type QueuedDevice = FileDevice<QueuedFile>;

/// The disk and its file.
pub(crate) type QueuedDisk = KeptDisk<ExtentMap, QueuedDevice>;

/// A disk in a file, and what C calls the file's device.
#[derive(Drop)]
pub struct FileDisk {
    disk: QueuedDisk,
    device: u64,
    // The address that a compaction goes on from, if one is under way.
    next: Option<u64>,
}

impl Model for FileDisk {
    ghost use Rattle.std.specs.Coded.{codes};
    ghost use Rattle.sg_store.specs.ContentsCode.{contents_code};
    ghost use Rattle.sg_embed.specs.FileDisk.{FileDiskFields, IsReady};

    ghost Value = { FileDiskFields };

    ghost coded = { Prim.hlevel (codes, contents_code) };

    ghost view = { λ f. record { kept = f.disk; device = f.device; next = f.next } };

    ghost invariant = { λ f. IsReady f.disk f.next };
}

impl FileDisk {
    /// A disk that was made or opened. From now on its file is written afresh step by step.
    pub(crate) fn new(mut disk: QueuedDisk, device: u64) -> FileDisk
        requires started { HasStarted seen may_leave disk }
        ensures { result ≡ record {
          kept = record disk { compacts = false };
          device = device;
          next = None;
        } }
    {
        disk.compacts = false;
        FileDisk {
            disk,
            device,
            next: None,
        }
    }

    /// The disk in memory.
    pub(crate) fn target(&self) -> &Target<ExtentMap>
        ensures { result.now ≡ target_in self.now }
    {
        &self.disk.target
    }

    /// What C calls the file's device.
    pub(crate) fn device(&self) -> u64
        ensures { result ≡ self.now.device }
    {
        self.device
    }

    /// Executes a command. None if the buffer is shorter than the data-in that the command asks
    /// for. Nothing has changed then. If `flushes` is `false`, the flush that the command may owe is left to
    /// the caller, and `waits` says whether the reply has to wait for it.
    pub(crate) fn execute_within(
        &mut self,
        initiator: Initiator,
        cdb: &[u8],
        data_out: &[u8],
        buf: &mut [u8],
        flushes: bool,
        waits: &mut bool,
    ) -> Option<Reply>
        ensures room { is_some result
            ≡ nat_le (needed_buffer (target_in self.old).state initiator cdb.now data_out.now)
            (length buf.old) }
        ensures at_most { needed_buffer (target_in self.old).state initiator cdb.now data_out.now
            ≤ longest_data_in }
        ensures executed { IfSome result (λ reply. ExecutesInFile initiator cdb.now data_out.now
            reply waits.new buf.old buf.new self.old self.new) }
        ensures flushed { flushes ≡ true → waits.new ≡ false }
        ensures kept { IfNone result (self.new ≡ self.old) }
        ensures untouched { IfNone result (buf.new ≡ buf.old) }
    {
        *waits = false;
        if buf.len() < self.disk.target.needed_buffer(initiator, cdb, data_out) {
            return None;
        }
        give_up(&mut self.disk, &mut self.next);
        let done = self
            .disk
            .execute_or_refuse(initiator, cdb, data_out, buf, flushes);
        *waits = done.waits;
        keep_short(&mut self.disk, &mut self.next);
        if self.disk.is_dead {
            return Some(self.disk.target.failure_reply());
        }
        Some(done.reply)
    }

    /// Lets something happen to the disk. A disk whose file has failed stays dead.
    pub(crate) fn happen(&mut self, happening: Happening)
        ensures { HappensInFile happening self.old self.new }
    {
        give_up(&mut self.disk, &mut self.next);
        let _ = self.disk.happen(happening);
        keep_short(&mut self.disk, &mut self.next);
    }

    /// Clears the unit attentions that are pending for an initiator whose port is gone. A disk whose
    /// file has failed stays dead.
    pub(crate) fn forget(&mut self, initiator: Initiator)
        ensures { ForgetsInFile initiator self.old self.new }
    {
        self.flush();
        if !self.disk.is_dead {
            self.disk.target.forget(initiator);
        }
    }

    /// Writes all that was changed. A disk whose file has failed stays dead.
    pub(crate) fn flush(&mut self)
        ensures { FlushesFile self.old self.new }
    {
        give_up(&mut self.disk, &mut self.next);
        let _ = self.disk.flush();
        keep_short(&mut self.disk, &mut self.next);
    }

    /// The file has failed, as C has found out. Returns the reply of the disk to each command from now on.
    pub(crate) fn fail(&mut self) -> Reply
        ensures dead { self.new ≡ failed_disk self.old }
        ensures reply { result ≡ failure_reply (target_in self.old).state }
    {
        self.disk.fail();
        self.next = None;
        self.disk.target.failure_reply()
    }

    /// Whether calls on the file wait. A dead disk makes none.
    pub(crate) fn has_calls(&self) -> bool
        ensures { result ≡ has_calls self.now }
    {
        !self.disk.is_dead && self.disk.journal.device.file.has_calls()
    }

    /// How a command ends that was executed: calls on the file wait, or none.
    pub(crate) fn executed(&self) -> Outcome
        ensures { result ≡ executed_outcome (InFile self.now) }
    {
        if self.has_calls() {
            Outcome::CallsWait
        } else {
            Outcome::Done
        }
    }

    /// How any other call ends that was carried out. A dead disk has not carried it out.
    pub(crate) fn done(&self) -> Outcome
        ensures { result ≡ done_outcome (InFile self.now) }
    {
        if self.disk.is_dead {
            Outcome::FileFailed
        } else {
            self.executed()
        }
    }

    /// Hands out the oldest call that waits, and writes its bytes to the beginning of the buffer. None if no
    /// call waits. After the last call a compaction goes on by a step.
    ///
    /// # Errors
    /// The buffer is shorter than the call's bytes.
    pub(crate) fn next_call(&mut self, bytes: &mut [u8]) -> Result<Option<QueuedCall>, TooShort>
        ensures { HandsOutNext bytes.old bytes.new self.old self.new result }
    {
        if self.disk.is_dead {
            return Ok(None);
        }
        let call = self.disk.journal.device.file.next_call(bytes)?;
        go_on(&mut self.disk, &mut self.next);
        Ok(call)
    }
}
