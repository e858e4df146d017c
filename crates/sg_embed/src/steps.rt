// A disk's file that is written afresh step by step: each step puts the calls of one batch into the queue.
ghost use Rattle.std.specs.Prelude.{◌≡◌, ◌≤◌, ◌<◌, None, Some, IfNone, IfSome};
ghost use Rattle.sg_kept.specs.Compaction.{HasWrittenAll, IsCompacting, IsKeptShort, longest_of};
ghost use Rattle.sg_kept.specs.Disk.{IsAlive, IsDead, IsUsable};
ghost use Rattle.sg_kept.specs.Kept.{powered};
ghost use Rattle.sg_kept.specs.Opened.{opened};
ghost use Rattle.sg_target.specs.Target.{disk_of};
ghost use Rattle.sg_queue.specs.QueueFields.{has_any};
ghost use Rattle.sg_embed.specs.FileDisk.{Compacts, CompactsOn, HasStopped, IsBetweenSteps, IsReady};
ghost use Rattle.sg_embed.specs.FileDisk.{Settles, draft, may_leave, seen};

use crate::file_disk::QueuedDisk;
use sg_journal::DeviceError;
use sg_kept::laws::power_cycles_leave_what_is_kept;

/// Gives up a compaction that is under way. The file has all of the disk still.
pub(crate) fn give_up(disk: &mut QueuedDisk, next: &mut Option<u64>)
    requires ready { IsReady disk.old next.old }
    ensures ready { IsReady disk.new None }
    ensures stopped { HasStopped disk.old disk.new next.old }
    ensures next { next.new ≡ None }
{
    if next.is_some() {
        disk.abandon_compaction();
    }
    *next = None;
}

/// Whether calls on the file wait.
fn calls_wait(disk: &QueuedDisk) -> bool
    ensures { result ≡ has_any disk.now.journal.device.file.waiting }
{
    disk.journal.device.file.has_calls()
}

/// Makes a step of a compaction. Returns the address to go on from, or None if the compaction has ended. If
/// the device fails, the disk is dead, and the compaction has ended.
fn step(disk: &mut QueuedDisk, from: u64) -> Option<u64>
    requires compacting { IsCompacting seen may_leave draft disk.old from }
    ensures between { IsBetweenSteps disk.new result }
    ensures further { IfSome result (λ next. from < next) }
    ensures compacts { Compacts disk.old disk.new }
    ensures short { IfNone result (IsAlive disk.new → disk.new.journal.length ≤ longest_of disk.new) }
{
    disk.continue_compaction(from).unwrap_or(None)
}

/// Goes on with a compaction until calls on the file wait, or until it has ended.
pub(crate) fn go_on(disk: &mut QueuedDisk, next: &mut Option<u64>)
    requires alive { IsAlive disk.old }
    requires between { IsBetweenSteps disk.old next.old }
    ensures ready { IsReady disk.new next.new }
    ensures goes_on { CompactsOn disk.old disk.new next.old next.new }
{
    while !calls_wait(disk) {
        let Some(from) = *next else {
            return;
        };
        *next = step(disk, from);
    }
}

/// Begins a compaction. Returns the address to go on from. If the device fails, the disk is dead, and the
/// result is None.
fn begin(disk: &mut QueuedDisk) -> Option<u64>
    requires usable { IsAlive disk.old × IsUsable seen may_leave disk.old }
    requires written { HasWrittenAll disk.old }
    ensures between { IsBetweenSteps disk.new result }
    ensures compacts { Compacts disk.old disk.new }
    // The file has all of the disk.
    ensures in_file { opened (seen disk.old.journal.device) ≡ Some (powered (disk_of disk.old.target)) }
    ensures dead { IfNone result (IsDead disk.new) }
{
    power_cycles_leave_what_is_kept();
    match disk.begin_compaction() {
        Ok(()) => Some(0),
        Err(DeviceError) => None,
    }
}

/// Begins to write the file afresh if it is long.
pub(crate) fn keep_short(disk: &mut QueuedDisk, next: &mut Option<u64>)
    requires ready { IsReady disk.old None }
    requires idle { next.old ≡ None }
    requires short { IsAlive disk.old → IsKeptShort disk.old }
    ensures ready { IsReady disk.new next.new }
    ensures settles { Settles disk.old disk.new next.new }
{
    if disk.is_dead || !disk.is_long() {
        return;
    }
    *next = begin(disk);
    if next.is_some() {
        go_on(disk, next);
    }
}
