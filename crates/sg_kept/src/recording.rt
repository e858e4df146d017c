// The records of what a command or a happening has changed.
ghost use Rattle.std.specs.Prelude.{◌≡◌, ◌≤◌, ◌+◌, ◌*◌, ◌∷◌, [], length, map, min, IfSome, Some};
ghost use Rattle.sg_changes.specs.Change.Change.{Anchor as Anchored, Write as Written};
ghost use Rattle.sg_faults.specs.Faults.{is_armed};
ghost use Rattle.sg_journal.specs.declared.layout.TheConstants.{MAX_BATCH};
ghost use Rattle.sg_changes.specs.KeptFields.{KeptFields};
ghost use Rattle.sg_changes.specs.Replay.{replayed};
ghost use Rattle.sg_kept.specs.Changes.{changes_of, command_changes, happening_changes, unmap};
ghost use Rattle.sg_kept.specs.Kept.{kept};
ghost use Rattle.sg_kept.specs.Owing.{owes_flush};
ghost use Rattle.sg_kept.specs.Recording.{Adds, IsReadable, longest_changes, longest_operation};
ghost use Rattle.sg_kept.specs.Recording.{longest_write};
ghost use Rattle.sg_store.specs.Disk.{blocks};
ghost use Rattle.sg_target.specs.Armed.{Armed};
ghost use Rattle.sg_target.specs.DataInBound.{longest_data_in, needed_buffer};
ghost use Rattle.sg_target.specs.Executed.{executed_operation};
ghost use Rattle.sg_target.specs.Execution.{IsExecuted};
ghost use Rattle.sg_target.specs.Runs.{armed_after_happening};
ghost use Rattle.sg_target.specs.State.{IsWithinLimits};
ghost use Rattle.sg_target.specs.Target.{disk_of};
ghost use Rattle.sg_wire.specs.Profile.{maximum_transfer_length};

use crate::BatchSink;
use crate::laws::{commands_make_their_changes, happenings_make_their_changes};
use crate::owing::owes_flush;
use sg_changes::Change;
use sg_changes::laws::records_are_replayed;
use sg_store::{BLOCK_LENGTH, Store};
use sg_target::{Call, Executed, Happening, Operation, Reply, Target};
use sg_wire::{Extent, Initiator};

/// Adds the records of extents that are unmapped.
fn add_unmaps(batch: &mut BatchSink, extents: &[Extent])
    requires room { length batch.old.records + 17 * length extents.now ≤ MAX_BATCH }
    ensures records { Adds batch.old batch.new (map unmap extents.now) }
    ensures at_most { length batch.new.records
        ≤ length batch.old.records + 17 * length extents.now }
{
    for extent in extents {
        batch.add(&Change::Unmap {
            lba: extent.lba,
            count: u64::from(extent.count),
        });
    }
}

/// Adds the records of extents that are anchored.
fn add_anchors(batch: &mut BatchSink, extents: &[Extent])
    requires room { length batch.old.records + 13 * length extents.now ≤ MAX_BATCH }
    ensures records { Adds batch.old batch.new (map Anchored extents.now) }
    ensures at_most { length batch.new.records
        ≤ length batch.old.records + 13 * length extents.now }
{
    for extent in extents {
        batch.add(&Change::Anchor { extent: *extent });
    }
}

/// Adds the record of blocks as they are on the disk.
fn add_blocks<S: Store>(
    batch: &mut BatchSink,
    target: &mut Target<S>,
    extent: Extent,
    scratch: &mut [u8],
)
    requires room { length batch.old.records + longest_operation ≤ MAX_BATCH }
    requires on_disk { extent.lba + extent.count ≤ target.old.state.disk.capacity }
    requires at_most { extent.count ≤ maximum_transfer_length }
    requires scratch { length scratch.old ≡ longest_write }
    ensures records { Adds batch.old batch.new (Written extent
        (blocks target.old.state.disk.contents extent.lba extent.count) ∷ []) }
    ensures at_most { length batch.new.records ≤ length batch.old.records + longest_operation }
    ensures state { target.new.state ≡ target.old.state }
    ensures faults { target.new.faults ≡ target.old.faults }
    ensures scratch { length scratch.new ≡ length scratch.old }
{
    let blocks = &mut scratch[..BLOCK_LENGTH * extent.count as usize];
    target.read_blocks(extent, blocks);
    batch.add(&Change::Write { extent, blocks });
}

/// Adds the records of an operation that was executed and has left this target.
fn add_operation<S: Store>(
    batch: &mut BatchSink,
    target: &mut Target<S>,
    operation: &Operation<'_>,
    scratch: &mut [u8],
)
    requires room { length batch.old.records + longest_operation ≤ MAX_BATCH }
    requires readable { IsReadable target.old.state.disk.capacity operation.now }
    requires scratch { length scratch.old ≡ longest_write }
    ensures records { Adds batch.old batch.new (changes_of target.old.state operation.now) }
    ensures at_most { length batch.new.records ≤ length batch.old.records + longest_operation }
    ensures state { target.new.state ≡ target.old.state }
    ensures faults { target.new.faults ≡ target.old.faults }
    ensures scratch { length scratch.new ≡ length scratch.old }
{
    match operation {
        Operation::Write(out) => batch.add(&Change::Write {
            extent: out.extent(),
            blocks: out.bytes(),
        }),
        Operation::CompareAndWrite(exchange) => batch.add(&Change::Write {
            extent: exchange.extent(),
            blocks: exchange.replacement(),
        }),
        Operation::OrWrite(out) => add_blocks(batch, target, out.extent(), scratch),
        Operation::Copy(blocks) => add_blocks(batch, target, blocks.destination(), scratch),
        Operation::Fill { extent, block } => {
            let mut bytes = [0; BLOCK_LENGTH];
            bytes.copy_from_slice(block.bytes());
            batch.add(&Change::Fill {
                extent: *extent,
                block: &bytes,
            });
        }
        Operation::Unmap(extents) => add_unmaps(batch, extents.to_list().as_slice()),
        Operation::UnmapExtent(extent) => batch.add(&Change::Unmap {
            lba: extent.lba,
            count: u64::from(extent.count),
        }),
        Operation::UnmapAll(count) => batch.add(&Change::Unmap {
            lba: 0,
            count: *count,
        }),
        Operation::Anchor(extents) => add_anchors(batch, extents.to_list().as_slice()),
        Operation::AnchorExtent(extent) => batch.add(&Change::Anchor { extent: *extent }),
        Operation::ChangeModes { .. } => batch.add(&Change::Pages(target.saved_pages())),
        Operation::ChangeReservations { .. } => {
            batch.add(&Change::Reservations(target.reservations()));
        }
        _ => {}
    }
}

/// Adds the records of a command that has left this target: of the operation that it has executed, and
/// of the faults if one was armed before it or is armed now.
fn add_command<S: Store>(
    batch: &mut BatchSink,
    target: &mut Target<S>,
    operation: &Option<Operation<'_>>,
    was_armed: bool,
    scratch: &mut [u8],
)
    requires room { length batch.old.records + longest_changes ≤ MAX_BATCH }
    requires readable { IfSome operation.now (IsReadable target.old.state.disk.capacity) }
    requires scratch { length scratch.old ≡ longest_write }
    ensures records { (before : Armed) → is_armed before.faults ≡ was_armed
        → Adds batch.old batch.new
        (command_changes before (disk_of target.old) operation.now) }
    ensures at_most { length batch.new.records ≤ length batch.old.records + longest_changes }
    ensures state { target.new.state ≡ target.old.state }
    ensures faults { target.new.faults ≡ target.old.faults }
    ensures scratch { length scratch.new ≡ length scratch.old }
{
    if let Some(operation) = operation {
        add_operation(batch, target, operation, scratch);
    }
    if was_armed || target.fault_table().is_armed() {
        batch.add(&Change::Faults(target.fault_table()));
    }
}

/// Executes a command in memory, and adds the records of what it has changed. Returns whether it owes a
/// flush, too.
pub(crate) fn execute_and_record<S: Store>(
    target: &mut Target<S>,
    batch: &mut BatchSink,
    initiator: Initiator,
    cdb: &[u8],
    data_out: &[u8],
    buf: &mut [u8],
    scratch: &mut [u8],
) -> (Reply, bool)
    requires buffer { min (needed_buffer target.old.state initiator cdb.now data_out.now)
        longest_data_in ≤ length buf.old }
    requires limits { IsWithinLimits target.old.state }
    requires room { length batch.old.records + longest_changes ≤ MAX_BATCH }
    requires scratch { length scratch.old ≡ longest_write }

    // The reply and the state are those of the target.
    ensures executed { IsExecuted initiator cdb.now data_out.now
        (disk_of target.old) (disk_of target.new) result.0 buf.old buf.new }
    ensures owes { result.1 ≡ owes_flush (disk_of target.new) cdb.now
        (executed_operation (disk_of target.old) initiator cdb.now data_out.now) }

    // If the batch led to what was kept before the command, then it leads to what is kept after it.
    ensures waits { (left : KeptFields)
        → replayed batch.old.records left ≡ Some (kept (disk_of target.old))
        → replayed batch.new.records left ≡ Some (kept (disk_of target.new)) }
    ensures sector { batch.new.sector ≡ batch.old.sector }
    ensures at_most { length batch.new.records ≤ length batch.old.records + longest_changes }
    ensures scratch { length scratch.new ≡ length scratch.old }
{
    records_are_replayed();
    commands_make_their_changes();
    let was_armed = target.fault_table().is_armed();
    let call = Call {
        initiator,
        cdb,
        data_out,
    };
    let Executed { reply, operation } = target.execute_told(call, buf);
    add_command(batch, target, &operation, was_armed, scratch);
    let owes = owes_flush(target.caches_writes(), cdb, &operation);
    (reply, owes)
}

/// Adds the record of a happening that has left this target. The disk had this capacity before it.
fn add_happening<S: Store>(
    batch: &mut BatchSink,
    target: &Target<S>,
    happening: &Happening,
    old_capacity: u64,
)
    requires room { length batch.old.records + longest_changes ≤ MAX_BATCH }
    ensures records { (before : Armed) → before.state.disk.capacity ≡ old_capacity
        → Adds batch.old batch.new
        (happening_changes before (disk_of target.now) happening.now) }
{
    match happening {
        Happening::Grow(_) => {
            let capacity = target.capacity();
            if old_capacity < capacity {
                batch.add(&Change::Grow { capacity });
            }
        }
        Happening::Arm(_) | Happening::Disarm(_) | Happening::DisarmAll => {
            batch.add(&Change::Faults(target.fault_table()));
        }
        Happening::Power
        | Happening::LogicalUnitReset
        | Happening::TargetReset
        | Happening::NexusLoss(_)
        | Happening::Establish(_, _) => {}
    }
}

/// Lets something happen in memory, and adds the record of what it has changed.
pub(crate) fn happen_and_record<S: Store>(
    target: &mut Target<S>,
    batch: &mut BatchSink,
    happening: &Happening,
)
    requires room { length batch.old.records + longest_changes ≤ MAX_BATCH }
    ensures happened { disk_of target.new ≡ armed_after_happening (disk_of target.old) happening.now }
    ensures limits { IsWithinLimits target.new.state }

    // If the batch led to what was kept before it, then it leads to what is kept after it.
    ensures waits { (left : KeptFields)
        → replayed batch.old.records left ≡ Some (kept (disk_of target.old))
        → replayed batch.new.records left ≡ Some (kept (disk_of target.new)) }
    ensures sector { batch.new.sector ≡ batch.old.sector }
{
    records_are_replayed();
    happenings_make_their_changes();
    let old_capacity = target.capacity();
    target.happen(*happening);
    add_happening(batch, target, happening, old_capacity);
}
