// The commands that read what a power cycle leaves of a disk.
use crate::request::INITIATORS;
use crate::run::Buffers;
use sg_changes::Change;
use sg_kept::BatchSink;
use sg_store::Store;
use sg_target::{Happening, Reply, Target};
use sg_wire::Initiator;
use std::alloc::AllocError;

/// The number of times that each initiator reads blocks while faults are armed.
const ROUNDS: u8 = 2;

/// READ(10) of blocks 0 to 15.
const READ: &[u8] = &[0x28, 0, 0, 0, 0, 0, 0, 0, 16, 0];

/// WRITE(10) of no block, which faults meet, too.
const WRITE_NOTHING: &[u8] = &[0x2A, 0, 0, 0, 0, 0, 0, 0, 0, 0];

const READ_CAPACITY: &[u8] = &[0x9E, 0x10, 0, 0, 0, 0, 0, 0, 0, 0, 0, 0, 0, 32, 0, 0];

/// MODE SENSE(10) of all pages: the current values, and the saved ones.
const CURRENT_PAGES: &[u8] = &[0x5A, 0x08, 0x3F, 0, 0, 0, 0, 0, 0xFF, 0];

const SAVED_PAGES: &[u8] = &[0x5A, 0x08, 0xFF, 0, 0, 0, 0, 0, 0xFF, 0];

/// PERSISTENT RESERVE IN (SPC-4, 6.15).
const READ_KEYS: &[u8] = &[0x5E, 0, 0, 0, 0, 0, 0, 0, 0xFF, 0];

const READ_RESERVATION: &[u8] = &[0x5E, 1, 0, 0, 0, 0, 0, 0, 0xFF, 0];

const REPORT_CAPABILITIES: &[u8] = &[0x5E, 2, 0, 0, 0, 0, 0, 0, 0xFF, 0];

const READ_FULL_STATUS: &[u8] = &[0x5E, 3, 0, 0, 0, 0, 0, 0, 0xFF, 0];

/// PERSISTENT RESERVE OUT, REGISTER AND IGNORE EXISTING KEY and CLEAR. After both nobody is registered, and
/// each initiator may read.
const REGISTER: &[u8] = &[0x5F, 6, 0, 0, 0, 0, 0, 0, 24, 0];

const CLEAR: &[u8] = &[0x5F, 3, 0, 0, 0, 0, 0, 0, 24, 0];

const KEY_TO_REGISTER: &[u8] = &[
    0, 0, 0, 0, 0, 0, 0, 0, 0, 0, 0, 0, 0, 0, 0, 7, 0, 0, 0, 0, 0, 0, 0, 0,
];

const KEY: &[u8] = &[
    0, 0, 0, 0, 0, 0, 0, 7, 0, 0, 0, 0, 0, 0, 0, 0, 0, 0, 0, 0, 0, 0, 0, 0,
];

const GET_LBA_STATUS: &[u8] = &[0x9E, 0x12, 0, 0, 0, 0, 0, 0, 0, 0, 0, 0, 2, 0, 0, 0];

const REQUEST_SENSE: &[u8] = &[0x03, 0, 0, 0, 252, 0];

/// The commands after all faults were taken away, with their data-out. Initiator 0 sends them.
const COMMANDS: [(&[u8], &[u8]); 12] = [
    (REQUEST_SENSE, &[]),
    (READ_CAPACITY, &[]),
    (CURRENT_PAGES, &[]),
    (SAVED_PAGES, &[]),
    (READ_KEYS, &[]),
    (READ_RESERVATION, &[]),
    (REPORT_CAPABILITIES, &[]),
    (READ_FULL_STATUS, &[]),
    (REGISTER, KEY_TO_REGISTER),
    (CLEAR, KEY),
    (GET_LBA_STATUS, &[]),
    (READ, &[]),
];

/// Appends a reply with the first bytes of its data-in, as many as are asked for at most.
fn append(replies: &mut Vec<u8>, reply: &Option<Reply>, data_in: &[u8]) -> Result<(), AllocError> {
    let Some(reply) = reply else {
        return replies.extend_from_slice(&[0xEE]);
    };
    replies.push(reply.status.code())?;
    replies.extend_from_slice(reply.sense.as_slice())?;
    replies.extend_from_slice(&(reply.data_in as u64).to_be_bytes())?;
    replies.extend_from_slice(data_in.get(..reply.data_in).unwrap_or(&[]))
}

/// Appends the record of the armed faults, with what is left of each.
fn append_faults<S: Store>(
    target: &Target<S>,
    records: &mut BatchSink,
    replies: &mut Vec<u8>,
) -> Result<(), AllocError> {
    records.batch.clear();
    records.add(&Change::Faults(target.fault_table()));
    replies.extend_from_slice(records.batch.records())
}

/// Sends commands of an initiator while faults are armed, and appends the replies without data-in.
fn meet_faults<S: Store>(
    target: &mut Target<S>,
    initiator: Initiator,
    buf: &mut [u8],
    replies: &mut Vec<u8>,
) -> Result<(), AllocError> {
    for _ in 0..ROUNDS {
        for cdb in [READ, WRITE_NOTHING] {
            let reply = target.execute_within(initiator, cdb, &[], buf);
            append(replies, &reply, &[])?;
        }
    }
    Ok(())
}

/// Reads each block that the disk may have after it has grown.
fn read_more<S: Store>(
    target: &mut Target<S>,
    initiator: Initiator,
    buf: &mut [u8],
    replies: &mut Vec<u8>,
) -> Result<(), AllocError> {
    for lba in 16..24 {
        let cdb = [0x28, 0, 0, 0, 0, lba, 0, 0, 1, 0];
        let reply = target.execute_within(initiator, &cdb, &[], buf);
        append(replies, &reply, buf)?;
    }
    Ok(())
}

/// Reads all that a power cycle has left of a disk, and appends the replies. The disk is of no use after
/// that.
pub(crate) fn probe<S: Store>(
    target: &mut Target<S>,
    buffers: &mut Buffers,
    replies: &mut Vec<u8>,
) -> Result<(), AllocError> {
    append_faults(target, &mut buffers.records, replies)?;
    let buf = &mut buffers.of_memory;
    for number in 0..INITIATORS {
        if let Some(initiator) = Initiator::new(number) {
            meet_faults(target, initiator, buf, replies)?;
        }
    }
    target.happen(Happening::DisarmAll);
    let Some(initiator) = Initiator::new(0) else {
        return Ok(());
    };
    for (cdb, data_out) in COMMANDS {
        let reply = target.execute_within(initiator, cdb, data_out, buf);
        append(replies, &reply, buf)?;
    }
    read_more(target, initiator, buf, replies)
}
