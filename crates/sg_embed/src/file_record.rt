// The records of C for a disk in a file. `laws` says how each lies in memory.
ghost use Rattle.std.specs.Prelude.{◌≡◌, ◌≢◌, IfErr};
ghost use Rattle.sg_embed.specs.FileRecords.{call_record, damage_of, kind_number, no_damage};
ghost use Rattle.sg_embed.specs.Wanted.{asked_disk, names_if_asked, number_if_asked, profile_if_asked};

use crate::outcome::Outcome;
use crate::profiles::profile_numbered;
use crate::record::IdentityRecord;
use crate::wanted::Wanted;
use sg_journal::Fault;
use sg_kept::OpenDiskError;
use sg_kept::asked::AskedProfile;
use sg_pages::Identity;
use sg_queue::{CallKind, QueuedCall};

/// The record that `embed/mehdalung.c` declares as `mdl_wanted`: what a disk in a file has to have.
#[repr(C)]
#[derive(Drop)]
pub struct WantedRecord {
    /// The number of blocks, or 0 if any number will do.
    pub blocks: u64,
    /// What C calls the file's device. The disk returns it with each call on the file.
    pub device: u64,
    /// How many blocks can be mapped at once, or 0 if any number will do.
    pub pool: u32,
    /// The number of the profile, or FFFFFFFFh if any profile will do.
    pub profile: u32,
    /// Whether the identity is asked for: 0 if any identity will do, and else any other number.
    pub has_identity: u32,
    /// The identity that is asked for. It does not matter if none is.
    pub identity: IdentityRecord,
}

const _: () = prove!(size_of::<WantedRecord>() == 80);

// The number that stands for any profile.
const ANY_PROFILE: u32 = u32::MAX;

impl WantedRecord {
    /// What it asks for.
    ///
    /// # Errors
    /// The first of these that applies: [`Outcome::UnknownProfile`] if no profile has the number, or the
    /// outcome of the identity's fault.
    pub fn read(&self) -> Result<Wanted, Outcome>
        ensures value { result ≡ asked_disk self.now }
        ensures refused { IfErr result (λ outcome. outcome ≢ Outcome.Done) }
    {
        let profile = read_profile(self.profile)?;
        let names = self.read_names()?;
        Ok(Wanted {
            profile,
            blocks: if self.blocks == 0 {
                None
            } else {
                Some(self.blocks)
            },
            pool: if self.pool == 0 {
                None
            } else {
                Some(self.pool)
            },
            names,
            device: self.device,
        })
    }

    /// The identity, if one is asked for.
    fn read_names(&self) -> Result<Option<Identity>, Outcome>
        ensures value { result ≡ names_if_asked self.now }
        ensures refused { IfErr result (λ outcome. outcome ≢ Outcome.Done) }
    {
        if self.has_identity == 0 {
            return Ok(None);
        }
        match self.identity.read() {
            Ok(names) => Ok(Some(names)),
            Err(fault) => Err(Outcome::of_identity(fault)),
        }
    }
}

/// The profile with a number of the header, if one is asked for.
fn read_profile(number: u32) -> Result<Option<AskedProfile>, Outcome>
    ensures value { result ≡ profile_if_asked number }
    ensures refused { IfErr result (λ outcome. outcome ≢ Outcome.Done) }
{
    if number == ANY_PROFILE {
        return Ok(None);
    }
    match profile_numbered(number) {
        Some(profile) => Ok(Some(profile)),
        None => Err(Outcome::UnknownProfile),
    }
}

/// The record that C declares as `mdl_damage`: where a file is damaged.
#[repr(C)]
#[derive(Drop)]
pub struct DamageRecord {
    /// The number of the batch with the damaged record. The first is 0. Or FFFFFFFFFFFFFFFFh if the file is
    /// damaged outside of the records.
    pub batch: u64,
    /// The offset of the record in the records of its batch, in bytes. Or the offset of the damage in the
    /// file. If the file has another version of the format: that version.
    pub offset: u64,
}

const _: () = prove!(size_of::<DamageRecord>() == 16);

impl DamageRecord {
    /// The record if there is nothing to name: all zeros.
    pub fn none() -> DamageRecord
        ensures { result ≡ no_damage }
    {
        DamageRecord {
            batch: 0,
            offset: 0,
        }
    }

    /// Where a file is damaged that was not opened.
    pub(crate) fn of(error: OpenDiskError) -> DamageRecord
        ensures { result ≡ damage_of error }
    {
        match error {
            OpenDiskError::File(Fault::OtherVersion(version)) => DamageRecord {
                batch: 0,
                offset: u64::from(version),
            },
            OpenDiskError::File(Fault::Damaged { at }) => DamageRecord {
                batch: u64::MAX,
                offset: at,
            },
            OpenDiskError::Damaged { batch, offset } => DamageRecord {
                batch,
                offset: offset as u64,
            },
            OpenDiskError::Memory
            | OpenDiskError::Device
            | OpenDiskError::File(Fault::NotADisk)
            | OpenDiskError::Unmade
            | OpenDiskError::TooLong => DamageRecord::none(),
        }
    }
}

/// The record that `embed/mehdalung.c` declares as `mdl_call`: a call on the file that C makes.
#[repr(C)]
#[derive(Drop)]
pub struct FileCallRecord {
    /// What the call is: a number of the header.
    pub kind: u32,
    /// The offset that is written at, or the length that the file is cut to. Else 0.
    pub place: u64,
    /// The length of the bytes that are written.
    pub length: u64,
    /// What C calls the file's device.
    pub device: u64,
}

const _: () = prove!(size_of::<FileCallRecord>() == 32);

impl FileCallRecord {
    /// The record of a call that waited on the file of a device.
    pub fn of(call: QueuedCall, device: u64) -> FileCallRecord
        ensures { result ≡ call_record call device }
    {
        FileCallRecord {
            kind: kind_number(call.kind),
            place: call.place,
            length: call.length as u64,
            device,
        }
    }
}

/// The number of the header for a kind of calls.
fn kind_number(kind: CallKind) -> u32
    ensures { result ≡ kind_number kind }
{
    match kind {
        CallKind::Write => 1,
        CallKind::Cut => 2,
        CallKind::Sync => 3,
        CallKind::BeginDraft => 4,
        CallKind::WriteDraft => 5,
        CallKind::Exchange => 6,
    }
}
