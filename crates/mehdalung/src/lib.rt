//! The disk for programs in other languages: each function is one of C, which
//! `embed/mehdalung.h` describes, and is carried out by its namesake of `sg_embed`.
//!
//! `embed/mehdalung.c` tests the pointers of C, and calls these. It makes the calls on a disk's file that
//! wait after one of them.
#![tactic(auto)]

mod file;

ghost use Rattle.std.specs.Prelude.{◌≡◌, ◌≢◌, false, None, Some, IfOk, MatchOption, Ok, IfErr, length};
ghost use Rattle.sg_pages.specs.NewIdentity.{identity_of_seed, standard_identity};
ghost use Rattle.sg_tools.specs.ExitStatus.{exit_status};
ghost use Rattle.sg_wire.specs.SenseReading.{read_sense};
ghost use Rattle.sg_embed.specs.Ends.{done_outcome, ends, executed_outcome};
ghost use Rattle.sg_embed.specs.Executed.{HasUndergone, IsAnswered, IsForgotten, IsUnchanged};
ghost use Rattle.sg_embed.specs.Executed.{disk_config, new_disk, registrants};
ghost use Rattle.sg_wire.specs.Initiator.{initiator_count};
ghost use Rattle.sg_embed.specs.Happening.{asked_happening, asked_of};
ghost use Rattle.sg_embed.specs.Outcome.{IsCodeUnlessOutOfMemory, execute_outcome, happen_outcome};
ghost use Rattle.sg_embed.specs.Outcome.{forget_outcome, make_as_outcome, make_outcome};
ghost use Rattle.sg_embed.specs.Outcome.{make_with_outcome, names_outcome, outcome_code};
ghost use Rattle.sg_embed.specs.Outcome.{outcome_of, plan_outcome};
ghost use Rattle.sg_embed.specs.Planned.{IsPlanned};
ghost use Rattle.sg_embed.specs.Profiles.{identity_with_profile};
ghost use Rattle.sg_embed.specs.Records.{asked_identity, sense_record};
ghost use Rattle.sg_embed.specs.Served.{initiators_of};
ghost use Rattle.sg_embed.specs.Text.{IsDecoded, IsFaultsText, text_in, version_text};
ghost use Rattle.sg_embed.specs.Words.{asked_by_words};

use sg_embed::{
    CommandRecord, HappeningRecord, IdentityRecord, Outcome, ReplyRecord, SenseRecord, Slot,
    copy_version, decode, identity_with_profile, plan_tool, read_happening,
};
use sg_pages::Identity;
use sg_target::Happening;
use sg_tools::status_of;
use std::alloc::Global;

/// Makes a disk with the standard identity.
#[unsafe(no_mangle)]
pub extern "C" fn mehdalung_make(alloc: Global, disk: &mut Slot, blocks: u64, pool: u32) -> u32
    ensures outcome { IsCodeUnlessOutOfMemory
        (make_outcome disk.old.held (disk_config blocks pool standard_identity)) result }
    ensures made { result ≡ 0 → disk.new.held
        ≡ Some (new_disk (disk_config blocks pool standard_identity)) }
    ensures refused { result ≢ 0 → disk.new.held ≡ disk.old.held }
{
    disk.make(alloc, blocks, pool, Identity::standard()).code()
}

/// Makes a disk with an identity of its own.
#[unsafe(no_mangle)]
pub extern "C" fn mehdalung_make_as(
    alloc: Global,
    disk: &mut Slot,
    blocks: u64,
    pool: u32,
    identity: &IdentityRecord,
) -> u32
    ensures outcome { IsCodeUnlessOutOfMemory
        (make_as_outcome disk.old.held blocks pool (asked_identity identity.now)) result }
    ensures made { result ≡ 0 → IfOk (asked_identity identity.now)
        (λ names. disk.new.held ≡ Some (new_disk (disk_config blocks pool names))) }
    ensures refused { result ≢ 0 → disk.new.held ≡ disk.old.held }
{
    match identity.read() {
        Ok(names) => disk.make(alloc, blocks, pool, names).code(),
        Err(fault) => Outcome::of_identity(fault).code(),
    }
}

/// Makes the identity of a seed. The record stays as it was if the seed is refused.
#[unsafe(no_mangle)]
pub extern "C" fn mehdalung_identity_of_seed(seed: u64, identity: &mut IdentityRecord) -> u32
    ensures outcome { result ≡ outcome_code (names_outcome (identity_of_seed seed)) }
    ensures made { result ≡ 0 → asked_identity identity.new ≡ identity_of_seed seed }
    ensures silent { result ≢ 0 → identity.new ≡ identity.old }
{
    match IdentityRecord::from_seed(seed) {
        Ok(made) => {
            *identity = made;
            Outcome::Done.code()
        }
        Err(refusal) => refusal.code(),
    }
}

/// Makes a disk of a profile with the standard identity.
#[unsafe(no_mangle)]
pub extern "C" fn mehdalung_make_with_profile(
    alloc: Global,
    disk: &mut Slot,
    profile: u32,
    blocks: u64,
    pool: u32,
) -> u32
    ensures outcome { IsCodeUnlessOutOfMemory
        (make_with_outcome disk.old.held blocks pool
        (identity_with_profile profile (Ok standard_identity))) result }
    ensures made { result ≡ 0 → IfOk (identity_with_profile profile (Ok standard_identity))
        (λ names. disk.new.held ≡ Some (new_disk (disk_config blocks pool names))) }
    ensures refused { result ≢ 0 → disk.new.held ≡ disk.old.held }
{
    let identity = identity_with_profile(profile, Ok(Identity::standard()));
    make_with(alloc, disk, blocks, pool, identity)
}

/// Makes a disk of a profile with an identity of its own.
#[unsafe(no_mangle)]
pub extern "C" fn mehdalung_make_as_with_profile(
    alloc: Global,
    disk: &mut Slot,
    profile: u32,
    blocks: u64,
    pool: u32,
    identity: &IdentityRecord,
) -> u32
    ensures outcome { IsCodeUnlessOutOfMemory
        (make_with_outcome disk.old.held blocks pool
        (identity_with_profile profile (asked_identity identity.now))) result }
    ensures made { result ≡ 0 → IfOk (identity_with_profile profile (asked_identity identity.now))
        (λ names. disk.new.held ≡ Some (new_disk (disk_config blocks pool names))) }
    ensures refused { result ≢ 0 → disk.new.held ≡ disk.old.held }
{
    make_with(
        alloc,
        disk,
        blocks,
        pool,
        identity_with_profile(profile, identity.read()),
    )
}

/// Makes a disk with an identity, unless the identity was refused.
fn make_with(
    alloc: Global,
    disk: &mut Slot,
    blocks: u64,
    pool: u32,
    identity: Result<Identity, Outcome>,
) -> u32
    requires { IfErr identity (λ outcome. outcome ≢ Outcome.Done) }
    ensures outcome { IsCodeUnlessOutOfMemory
        (make_with_outcome disk.old.held blocks pool identity) result }
    ensures made { result ≡ 0 → IfOk identity
        (λ names. disk.new.held ≡ Some (new_disk (disk_config blocks pool names))) }
    ensures refused { result ≢ 0 → disk.new.held ≡ disk.old.held }
{
    match identity {
        Ok(identity) => disk.make(alloc, blocks, pool, identity).code(),
        Err(outcome) => outcome.code(),
    }
}

/// Frees a disk, if there is one.
#[unsafe(no_mangle)]
pub extern "C" fn mehdalung_free(alloc: Global, disk: &mut Slot)
    ensures { disk.new.held ≡ None }
{
    *disk = Slot::empty(alloc);
}

/// Executes a command. Calls on the disk's file may wait after it.
#[unsafe(no_mangle)]
pub extern "C" fn mehdalung_execute(
    disk: &mut Slot,
    initiator: u32,
    cdb: &[u8],
    data_out: &[u8],
    data_in: &mut [u8],
    reply: &mut ReplyRecord,
) -> u32
    ensures outcome { result ≡ outcome_code (ends (execute_outcome disk.old.held initiator cdb.now
        data_out.now (length data_in.old)) executed_outcome disk.new.held) }
    ensures executed { execute_outcome disk.old.held initiator cdb.now data_out.now
        (length data_in.old) ≡ Outcome.Done → IsAnswered initiator cdb.now data_out.now false
        disk.old.held disk.new.held data_in.old data_in.new reply.new }

    // If it is refused, it changes nothing.
    ensures refused { execute_outcome disk.old.held initiator cdb.now data_out.now
        (length data_in.old) ≢ Outcome.Done → IsUnchanged disk.old.held disk.new.held
        data_in.old data_in.new reply.old reply.new }
{
    let outcome = disk.execute(initiator, cdb, data_out, data_in, reply);
    outcome.code()
}

/// Takes the power of a disk away, and gives it back. Calls on the disk's file may wait after it.
#[unsafe(no_mangle)]
pub extern "C" fn mehdalung_power_cycle(disk: &mut Slot) -> u32
    ensures outcome { result ≡ outcome_code
        (ends (happen_outcome disk.old.held (Ok Happening.Power)) done_outcome disk.new.held) }
    ensures cycled { happen_outcome disk.old.held (Ok Happening.Power) ≡ Outcome.Done
        → HasUndergone Happening.Power disk.old.held disk.new.held }
    ensures refused { happen_outcome disk.old.held (Ok Happening.Power) ≢ Outcome.Done
        → disk.new.held ≡ disk.old.held }
{
    disk.happen(Happening::Power).code()
}

/// Lets something happen to a disk. Calls on the disk's file may wait after it.
#[unsafe(no_mangle)]
pub extern "C" fn mehdalung_happen(disk: &mut Slot, happening: &HappeningRecord) -> u32
    ensures outcome { result ≡ outcome_code (ends
        (happen_outcome disk.old.held (asked_of disk.old.held happening.now)) done_outcome disk.new.held) }
    ensures happened { happen_outcome disk.old.held (asked_of disk.old.held happening.now) ≡ Outcome.Done
        → IfOk (asked_of disk.old.held happening.now)
        (λ asked. HasUndergone asked disk.old.held disk.new.held) }
    ensures refused { happen_outcome disk.old.held (asked_of disk.old.held happening.now) ≢ Outcome.Done
        → disk.new.held ≡ disk.old.held }
{
    match disk.asked(happening) {
        Ok(asked) => disk.happen(asked).code(),
        Err(outcome) => outcome.code(),
    }
}

/// Reads the happening that the words of a text ask for. The record stays as it was if they are
/// refused.
#[unsafe(no_mangle)]
pub extern "C" fn mehdalung_read_happening(text: &[u8], happening: &mut HappeningRecord) -> u32
    ensures outcome { result ≡ outcome_code (outcome_of (asked_by_words text.now)) }
    ensures asked { result ≡ 0 → asked_happening initiator_count happening.new ≡ asked_by_words text.now }
    ensures silent { result ≢ 0 → happening.new ≡ happening.old }
{
    match read_happening(text) {
        Ok(read) => {
            *happening = read;
            Outcome::Done.code()
        }
        Err(fault) => fault.code(),
    }
}

/// The number of the disk's initiators. The count stays as it was if there is no disk.
#[unsafe(no_mangle)]
pub extern "C" fn mehdalung_initiators(disk: &mut Slot, count: &mut u32) -> u32
    ensures count { MatchOption disk.old.held
        ((result ≡ outcome_code Outcome.NoDisk) × (count.new ≡ count.old))
        (λ held. (result ≡ 0) × (count.new ≡ initiators_of held.target)) }
    ensures kept { disk.new.held ≡ disk.old.held }
{
    match disk.initiators() {
        Some(initiators) => {
            *count = u32::from(initiators);
            Outcome::Done.code()
        }
        None => Outcome::NoDisk.code(),
    }
}

/// A mask of the initiators that are registered. The mask stays as it was if there is no disk.
#[unsafe(no_mangle)]
pub extern "C" fn mehdalung_registered(disk: &mut Slot, mask: &mut u64) -> u32
    ensures mask { MatchOption (registrants disk.old.held)
        ((result ≡ outcome_code Outcome.NoDisk) × (mask.new ≡ mask.old))
        (λ registered. (result ≡ 0) × (mask.new ≡ registered)) }
    ensures kept { disk.new.held ≡ disk.old.held }
{
    match disk.registrants() {
        Some(registered) => {
            *mask = registered;
            Outcome::Done.code()
        }
        None => Outcome::NoDisk.code(),
    }
}

/// Clears the unit attentions that are pending for an initiator whose port is gone. Calls on the disk's
/// file may wait after it.
#[unsafe(no_mangle)]
pub extern "C" fn mehdalung_forget(disk: &mut Slot, initiator: u32) -> u32
    ensures outcome { result ≡ outcome_code
        (ends (forget_outcome disk.old.held initiator) done_outcome disk.new.held) }
    ensures forgotten { forget_outcome disk.old.held initiator ≡ Outcome.Done
        → IsForgotten initiator disk.old.held disk.new.held }
    ensures refused { forget_outcome disk.old.held initiator ≢ Outcome.Done
        → disk.new.held ≡ disk.old.held }
{
    disk.forget(initiator).code()
}

/// Plans the command that the words of a text ask a tool for.
#[unsafe(no_mangle)]
pub extern "C" fn mehdalung_tool(
    alloc: Global,
    text: &[u8],
    data_out: &mut [u8],
    command: &mut CommandRecord,
) -> u32
    ensures outcome { IsCodeUnlessOutOfMemory (plan_outcome text.now (length data_out.old)) result }
    ensures planned { result ≡ 0 → IsPlanned text.now data_out.old data_out.new command.new }

    // If it is refused, it changes nothing.
    ensures untouched { result ≢ 0 → data_out.new ≡ data_out.old }
    ensures silent { result ≢ 0 → command.new ≡ command.old }
{
    match plan_tool(alloc, text, data_out) {
        Ok(planned) => {
            *command = planned;
            Outcome::Done.code()
        }
        Err(refused) => refused.code(),
    }
}

/// Reads the fields of sense data. The fields stay as they were if the sense data can't be read.
#[unsafe(no_mangle)]
pub extern "C" fn mehdalung_sense(sense: &[u8], fields: &mut SenseRecord) -> u32
    ensures { MatchOption (read_sense sense.now)
        ((result ≡ outcome_code Outcome.Unreadable) × (fields.new ≡ fields.old))
        (λ read. (result ≡ 0) × (fields.new ≡ sense_record read)) }
{
    match SenseRecord::read(sense) {
        Some(record) => {
            *fields = record;
            Outcome::Done.code()
        }
        None => Outcome::Unreadable.code(),
    }
}

/// The exit status that sg3_utils(8) give a reply with this status code and sense data.
#[unsafe(no_mangle)]
pub extern "C" fn mehdalung_exit_status(status: u8, sense: &[u8]) -> u8
    ensures { result ≡ exit_status status (read_sense sense.now) }
{
    status_of(status, sense)
}

/// Writes the text of an answer of a kind to the beginning of a buffer.
#[unsafe(no_mangle)]
pub extern "C" fn mehdalung_decode(
    alloc: Global,
    kind: u32,
    data_in: &[u8],
    text: &mut [u8],
) -> usize
    ensures { IsDecoded kind data_in.now text.old text.new result }
{
    decode(alloc, kind, data_in, text)
}

/// Writes the text of the faults that are armed on a disk to the beginning of a buffer.
#[unsafe(no_mangle)]
pub extern "C" fn mehdalung_faults(alloc: Global, disk: &mut Slot, text: &mut [u8]) -> usize
    ensures text { IsFaultsText disk.old.held text.old text.new result }
    ensures kept { disk.new.held ≡ disk.old.held }
{
    disk.list_faults(alloc, text)
}

/// Writes the version of the library and the logic of its proof to the beginning of a buffer.
#[unsafe(no_mangle)]
pub extern "C" fn mehdalung_version(text: &mut [u8]) -> usize
    ensures length { result ≡ length version_text }
    ensures text { text.new ≡ text_in version_text text.old }
{
    copy_version(text)
}
