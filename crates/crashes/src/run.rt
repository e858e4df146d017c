// Steps on a disk in a file, and on the same disk in memory.
ghost use Rattle.std.specs.Prelude.{◌≤◌, length, vec_len};
ghost use Rattle.sg_target.specs.DataInBound.{longest_data_in};
ghost use Rattle.crashes.specs.Ready.{IsReady};

use crate::device::LoggedFile;
use crate::request::{LONGEST_DATA_OUT, Request};
use crate::step::Step;
use sg_journal::{Batch, DeviceError, NEW_SECTOR};
use sg_kept::{BatchSink, KeptDisk, Unflushed};
use sg_store::Store;
use sg_target::{BUFFER_LENGTH, Call, Reply, Status, Target};
use std::alloc::{AllocError, Global};

/// The most bytes of data-in, more than all blocks have.
const LONGEST_DATA_IN: usize = 1 << 14;

/// Buffers for the data of commands.
#[derive(Drop)]
pub(crate) struct Buffers {
    data_out: [u8; LONGEST_DATA_OUT],
    /// The data-in of the disk in a file.
    of_file: Vec<u8>,
    /// The data-in of the disk in memory.
    pub(crate) of_memory: [u8; LONGEST_DATA_IN],
    /// The records of a disk's faults.
    pub(crate) records: BatchSink,
    ghost long: { longest_data_in ≤ vec_len of_file },
}

impl Buffers {
    pub(crate) fn new(alloc: Global) -> Result<Buffers, AllocError> {
        Ok(Buffers {
            data_out: [0; LONGEST_DATA_OUT],
            of_file: vec![in alloc; 0; BUFFER_LENGTH]?,
            of_memory: [0; LONGEST_DATA_IN],
            records: BatchSink {
                batch: Batch::new(alloc, NEW_SECTOR)?,
            },
        })
    }
}

/// How often a WRITE of four blocks is sent for a batch to get full.
const FILLS: usize = 1_600;

/// How often the same WRITE is sent before another one changes nothing. The first ones may report pending
/// unit attentions.
const SETTLED: usize = 16;

/// What is known after a step.
#[derive(Clone, Copy)]
pub(crate) struct Note {
    /// The number of calls of the device so far.
    pub(crate) calls: usize,
    /// A crash leaves all that was changed so far.
    pub(crate) is_flushed: bool,
    /// The disk in a file has replied as it has to.
    pub(crate) is_right: bool,
}

/// Executes a command on a disk in memory, and returns the reply.
fn reply_in_memory<S: Store>(
    target: &mut Target<S>,
    request: &Request,
    buffers: &mut Buffers,
) -> Option<Reply> {
    let data_out = request.data_out.write(&mut buffers.data_out);
    let initiator = request.initiator;
    target.execute_within(initiator, request.cdb(), data_out, &mut buffers.of_memory)
}

/// Does a step on a disk in memory, and returns the reply to a command.
pub(crate) fn do_in_memory<S: Store>(
    target: &mut Target<S>,
    step: &Step,
    buffers: &mut Buffers,
) -> Option<Reply> {
    match step {
        Step::Command(request) | Step::Unflushed(request) => {
            reply_in_memory(target, request, buffers)
        }
        Step::Fill(request) => {
            let mut last = None;
            for _ in 0..SETTLED {
                last = reply_in_memory(target, request, buffers);
            }
            last
        }
        Step::Happen(happening) => {
            target.happen(*happening);
            None
        }
        Step::Flush | Step::Compact => None,
    }
}

/// Whether a reply is CHECK CONDITION, HARDWARE ERROR, INTERNAL TARGET FAILURE, in either format of sense
/// data (SPC-4, 4.5.2 and 4.5.3).
fn is_failure(reply: &Reply) -> bool {
    let sense = reply.sense.as_slice();
    let code = match sense.first() {
        Some(0x70) => (sense.get(2), sense.get(12), sense.get(13)),
        Some(0x72) => (sense.get(1), sense.get(2), sense.get(3)),
        _ => (None, None, None),
    };
    reply.status == Status::CheckCondition && code == (Some(&0x04), Some(&0x44), Some(&0x00))
}

/// Whether a reply is that of the disk in memory, with its data-in.
fn are_equal(reply: &Reply, expected: &Reply, buffers: &Buffers) -> bool {
    reply.status == expected.status
        && reply.sense.as_slice() == expected.sense.as_slice()
        && buffers.of_file.as_slice().get(..reply.data_in)
            == buffers.of_memory.get(..expected.data_in)
}

/// Executes a command on a disk in a file. It may leave the flush that it owes to a later step, and its reply
/// may have to wait for it.
fn execute<S: Store>(
    disk: &mut KeptDisk<S, LoggedFile>,
    call: Call<'_>,
    flushes: bool,
    buf: &mut [u8],
) -> Unflushed
    requires buffer { longest_data_in ≤ length buf.old }
    requires ready { IsReady disk.old }
    ensures ready { IsReady disk.new }
{
    if flushes {
        let reply = disk.execute(call.initiator, call.cdb, call.data_out, buf);
        return Unflushed::at_once(reply);
    }
    disk.execute_unflushed(call.initiator, call.cdb, call.data_out, buf)
}

/// Executes a command, and notes the reply.
fn command<S: Store>(
    disk: &mut KeptDisk<S, LoggedFile>,
    target: &mut Target<S>,
    request: &Request,
    flushes: bool,
    buffers: &mut Buffers,
) -> Note
    requires ready { IsReady disk.old }
    ensures ready { IsReady disk.new }
{
    let (initiator, cdb) = (request.initiator, request.cdb());
    let data_out = request.data_out.write(&mut buffers.data_out);
    let call = Call {
        initiator,
        cdb,
        data_out,
    };
    let Unflushed { reply, waits } = execute(disk, call, flushes, &mut buffers.of_file);
    let expected = target.execute_within(initiator, cdb, data_out, &mut buffers.of_memory);
    let has_failed = disk.journal.device.has_failed();
    let (is_right, is_good) = match expected {
        Some(expected) => (
            if has_failed {
                is_failure(&reply)
            } else {
                are_equal(&reply, &expected, buffers)
            },
            expected.status == Status::Good,
        ),
        None => (false, false),
    };
    let owes_flush = !target.caches_writes() || request.owes_flush && is_good;
    Note {
        calls: disk.journal.device.calls().len(),
        is_flushed: owes_flush && !waits && !has_failed,
        is_right,
    }
}

/// Executes the same command again and again, and flushes nothing.
fn fill<S: Store>(
    disk: &mut KeptDisk<S, LoggedFile>,
    target: &mut Target<S>,
    request: &Request,
    buffers: &mut Buffers,
) -> Note
    requires ready { IsReady disk.old }
    ensures ready { IsReady disk.new }
{
    let mut is_right = true;
    for _ in 0..FILLS {
        let note = command(disk, target, request, false, buffers);
        is_right = is_right && note.is_right;
    }
    Note {
        calls: disk.journal.device.calls().len(),
        is_flushed: false,
        is_right,
    }
}

/// What is known after a call that has to write all to the file.
fn note_of_flush(device: &LoggedFile, written: Result<(), DeviceError>) -> Note {
    let has_failed = device.has_failed();
    Note {
        calls: device.calls().len(),
        is_flushed: !has_failed,
        is_right: written.is_ok() != has_failed,
    }
}

/// Does a step, and notes what is known after it.
fn do_step<S: Store>(
    disk: &mut KeptDisk<S, LoggedFile>,
    target: &mut Target<S>,
    step: &Step,
    buffers: &mut Buffers,
) -> Note
    requires ready { IsReady disk.old }
    ensures ready { IsReady disk.new }
{
    match step {
        Step::Command(request) => command(disk, target, request, true, buffers),
        Step::Unflushed(request) => command(disk, target, request, false, buffers),
        Step::Fill(request) => fill(disk, target, request, buffers),
        Step::Happen(happening) => {
            target.happen(*happening);
            let written = disk.happen(*happening);
            note_of_flush(&disk.journal.device, written)
        }
        Step::Flush => {
            let written = disk.flush();
            note_of_flush(&disk.journal.device, written)
        }
        Step::Compact => {
            let written = disk.compact();
            note_of_flush(&disk.journal.device, written)
        }
    }
}

/// Does steps on a disk in a file and on the same disk in memory, and appends a note after each.
pub(crate) fn do_steps<S: Store>(
    disk: &mut KeptDisk<S, LoggedFile>,
    target: &mut Target<S>,
    steps: &[Step],
    buffers: &mut Buffers,
    notes: &mut Vec<Note>,
) -> Result<(), AllocError>
    requires ready { IsReady disk.old }
{
    for step in steps {
        notes.push(do_step(disk, target, step, buffers))?;
    }
    Ok(())
}
