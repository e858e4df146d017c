// The functions for a disk in a file. C reads the file, and makes each call on it: the calls wait until C
// takes them out.
ghost use Rattle.std.specs.Prelude.{◌≡◌, ◌≢◌, IfErr, IfOk, length};
ghost use Rattle.sg_embed.specs.Ends.{done_outcome, ends};
ghost use Rattle.sg_embed.specs.Executed.{HasFailed, IsFlushed, IsNoCall, device_number};
ghost use Rattle.sg_embed.specs.Executed.{IsAnsweredUnflushed, IsUnchanged};
ghost use Rattle.sg_embed.specs.FileRecords.{HandsOutAndShows, no_damage};
ghost use Rattle.sg_embed.specs.Opening.{Opens};
ghost use Rattle.sg_embed.specs.Outcome.{ByOutcome, execute_outcome, file_outcome, outcome_code};
ghost use Rattle.sg_embed.specs.Wanted.{asked_disk};

use sg_embed::{DamageRecord, FileCallRecord, Outcome, ReplyRecord, Slot, WantedRecord};
use std::alloc::Global;

/// Opens the disk in a file that has these contents. If there are none, the file becomes the disk that is
/// asked for, and calls on it wait. The damage is all zeros unless the file is damaged, or has another
/// version of the format.
#[unsafe(no_mangle)]
pub extern "C" fn mehdalung_open(
    alloc: Global,
    disk: &mut Slot,
    wanted: &WantedRecord,
    contents: &[u8],
    damage: &mut DamageRecord,
) -> u32
    ensures opened { IfOk (asked_disk wanted.now) (λ asked. ByOutcome
        (Opens asked contents.now disk.old.held disk.new.held damage.new) result) }

    // If the record asks for no disk, nothing is opened.
    ensures outcome { IfErr (asked_disk wanted.now) (λ outcome. result ≡ outcome_code outcome) }
    ensures kept { IfErr (asked_disk wanted.now) (λ _. disk.new.held ≡ disk.old.held) }
    ensures nothing { IfErr (asked_disk wanted.now) (λ _. damage.new ≡ no_damage) }
{
    match wanted.read() {
        Ok(asked) => disk.open(alloc, &asked, contents, damage).code(),
        Err(outcome) => {
            *damage = DamageRecord::none();
            outcome.code()
        }
    }
}

/// Executes a command without the flush that it may owe. Then the reply has to wait for one. Calls on the
/// disk's file may wait after it.
#[unsafe(no_mangle)]
pub extern "C" fn mehdalung_execute_unflushed(
    disk: &mut Slot,
    initiator: u32,
    cdb: &[u8],
    data_out: &[u8],
    data_in: &mut [u8],
    reply: &mut ReplyRecord,
) -> u32
    ensures executed { execute_outcome disk.old.held initiator cdb.now data_out.now
        (length data_in.old) ≡ Outcome.Done → ByOutcome (IsAnsweredUnflushed initiator cdb.now
        data_out.now disk.old.held disk.new.held data_in.old data_in.new reply.new) result }

    // If it is refused, it changes nothing.
    ensures outcome { execute_outcome disk.old.held initiator cdb.now data_out.now
        (length data_in.old) ≢ Outcome.Done → result ≡ outcome_code (execute_outcome disk.old.held
        initiator cdb.now data_out.now (length data_in.old)) }
    ensures refused { execute_outcome disk.old.held initiator cdb.now data_out.now
        (length data_in.old) ≢ Outcome.Done → IsUnchanged disk.old.held disk.new.held
        data_in.old data_in.new reply.old reply.new }
{
    let outcome = disk.execute_unflushed(initiator, cdb, data_out, data_in, reply);
    outcome.code()
}

/// Hands out the oldest call on the disk's file that waits. Its bytes are at the beginning of the buffer.
#[unsafe(no_mangle)]
pub extern "C" fn mehdalung_next_call(
    disk: &mut Slot,
    call: &mut FileCallRecord,
    bytes: &mut [u8],
) -> u32
    ensures handed { result ≡ 0
        → HandsOutAndShows disk.old.held disk.new.held bytes.old bytes.new call.new }
    ensures outcome { result ≢ 0 → ByOutcome (IsNoCall disk.old.held (length bytes.old)) result }

    // If none is handed out, nothing changes.
    ensures kept { result ≢ 0 → disk.new.held ≡ disk.old.held }
    ensures untouched { result ≢ 0 → bytes.new ≡ bytes.old }
    ensures silent { result ≢ 0 → call.new ≡ call.old }
{
    match disk.next_call(bytes) {
        Ok((next, device)) => {
            *call = FileCallRecord::of(next, device);
            Outcome::Done.code()
        }
        Err(outcome) => outcome.code(),
    }
}

/// Writes all that was changed to the disk's file. Calls on it may wait after it.
#[unsafe(no_mangle)]
pub extern "C" fn mehdalung_flush(disk: &mut Slot) -> u32
    ensures outcome { result
        ≡ outcome_code (ends (file_outcome disk.old.held) done_outcome disk.new.held) }
    ensures flushed { file_outcome disk.old.held ≡ Outcome.Done
        → IsFlushed disk.old.held disk.new.held }
    ensures refused { file_outcome disk.old.held ≢ Outcome.Done
        → disk.new.held ≡ disk.old.held }
{
    disk.flush().code()
}

/// A call on the disk's file has failed. The disk is dead from now on, and the record shows its reply to each
/// command.
#[unsafe(no_mangle)]
pub extern "C" fn mehdalung_fail(disk: &mut Slot, reply: &mut ReplyRecord) -> u32
    ensures outcome { result ≡ outcome_code (file_outcome disk.old.held) }
    ensures failed { result ≡ 0 → HasFailed disk.old.held disk.new.held reply.new }
    ensures refused { result ≢ 0 → disk.new.held ≡ disk.old.held }
    ensures silent { result ≢ 0 → reply.new ≡ reply.old }
{
    disk.fail(reply).code()
}

/// What C calls the device of the disk's file, or 0 if the disk is not in a file.
#[unsafe(no_mangle)]
pub extern "C" fn mehdalung_device(disk: &mut Slot) -> u64
    ensures number { result ≡ device_number disk.old.held }
    ensures kept { disk.new.held ≡ disk.old.held }
{
    disk.device()
}
