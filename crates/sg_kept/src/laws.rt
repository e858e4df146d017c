//! Laws of what a power cycle leaves of a disk.
ghost use Rattle.sg_kept.specs.Laws.{CommandsMakeTheirChanges, GonePortsChangeNothingKept};
ghost use Rattle.sg_kept.specs.Laws.{HappeningsMakeTheirChanges};
ghost use Rattle.sg_kept.specs.Laws.{OperationsMakeTheirChanges, PowerCyclesLeaveWhatIsKept};
ghost use Rattle.std.specs.Prelude.{◌≡◌, [], Some};
ghost use Rattle.sg_target.specs.Target.{disk_of};
ghost use Rattle.sg_kept.specs.Disk.{IsAlive};
ghost use Rattle.sg_kept.specs.History.{CrashesLeaveFirstEvents, HasHistory};
ghost use Rattle.sg_kept.specs.Kept.{powered};
ghost use Rattle.sg_kept.specs.Opened.{opened};

use crate::KeptDisk;
use sg_journal::Device;
use sg_store::Store;
use sg_target::laws::limits_are_kept;

/// What is kept of a disk decides the disk after a power cycle. A power cycle changes nothing of it, and a
/// second power cycle changes nothing at all.
pub fn power_cycles_leave_what_is_kept()
    ensures { PowerCyclesLeaveWhatIsKept }
{}

/// What is kept after an operation is what the operation's changes make of what was kept before it.
pub fn operations_make_their_changes()
    ensures { OperationsMakeTheirChanges }
{}

/// What is kept after a command is what the command's changes make of what was kept before it. These
/// are the changes of the operation that the command has executed, and then the table of faults. A
/// refused command has executed no operation. Any faults may be armed.
pub fn commands_make_their_changes()
    ensures { CommandsMakeTheirChanges }
{
    limits_are_kept();
}

/// What is kept after a happening is what the happening's changes make of what was kept before it.
pub fn happenings_make_their_changes()
    ensures { HappeningsMakeTheirChanges }
{}

/// A port that is gone changes nothing that is kept. A power cycle leaves the same disk with the port and
/// without it.
pub fn gone_ports_change_nothing_kept()
    ensures { GonePortsChangeNothingKept }
{}

/// What a crash leaves after any calls on a disk whose file stands for it. Opening the file finds the disk
/// after power on, after the first events of all calls, and at least those up to the last flush. The file
/// stands for the disk after it was made or opened, and after each flush, happening and `forget`.
pub fn crashes_leave_first_events<S: Store, D: Device>(disk: &KeptDisk<S, D>)
    requires alive { IsAlive disk.now }
    requires written { opened (D.seen disk.now.journal.device) ≡ Some (powered (disk_of disk.now.target)) }
    ensures begins { HasHistory D.seen disk.now (disk_of disk.now.target) [] 0 }
    ensures crash { CrashesLeaveFirstEvents D.seen D.moment D.left_since disk.now }
{}
