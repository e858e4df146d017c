// The records of C. `laws` says how each lies in memory.
ghost use Rattle.std.specs.Prelude.{◌≡◌, ◌≢◌, IfErr, IfOk, option_map};
ghost use Rattle.sg_embed.specs.Outcome.{names_outcome, outcome_of};
ghost use Rattle.sg_embed.specs.Records.{Shows, asked_identity, identity_record, sense_record};
ghost use Rattle.sg_pages.specs.NewIdentity.{identity_of_seed};
ghost use Rattle.sg_wire.specs.Sense.{fields_of};
ghost use Rattle.sg_wire.specs.SenseReading.{read_sense};

use crate::outcome::Outcome;
use sg_pages::{Identity, IdentityFault};
use sg_target::{Reply, SENSE_LENGTH};
use sg_wire::Sense;

/// The record that C declares as `mdl_reply`.
#[repr(C)]
#[derive(Drop)]
pub struct ReplyRecord {
    /// The status code (SAM-5, 5.3.1).
    pub status: u8,
    /// The length of the sense data, in bytes.
    pub sense_length: u8,
    /// The sense data, and zeros after it.
    pub sense: [u8; SENSE_LENGTH],
    /// The length of data-in, in bytes from the beginning of the buffer.
    pub data_in_length: usize,
    /// The number of bytes of data-out that the CDB asks for.
    pub data_out_length: u64,
    /// Whole records of the map that were read.
    pub visits: u64,
    /// First addresses of records that were compared.
    pub probes: u64,
    /// Links that were followed to reach a mapped block.
    pub links: u64,
}

const _: () = prove!(size_of::<ReplyRecord>() == 64);

impl ReplyRecord {
    /// Becomes the record of a reply.
    pub(crate) fn show(&mut self, reply: Reply)
        ensures { Shows self.new reply }
    {
        let count = reply.sense.as_slice().len();
        self.status = reply.status.code();
        self.sense_length = 0;
        self.sense = [0; SENSE_LENGTH];
        self.data_in_length = reply.data_in;
        self.data_out_length = reply.data_out;
        self.visits = reply.counts.visits;
        self.probes = reply.counts.probes;
        self.links = reply.counts.links;
        // Most replies have none, and then nothing is moved or called to copy it.
        if count > 0 {
            let sense = reply.sense;
            self.sense_length = count as u8;
            self.sense[..count].copy_from_slice(sense.as_slice());
        }
    }
}

/// The record that C declares as `mdl_identity`: texts padded with spaces, and the 60 bits of the
/// local identifier.
#[repr(C)]
#[derive(Drop)]
pub struct IdentityRecord {
    /// The T10 vendor identification.
    pub vendor: [u8; 8],
    /// The product identification.
    pub product: [u8; 16],
    /// The product revision level.
    pub revision: [u8; 4],
    /// The unit serial number.
    pub serial: [u8; 8],
    /// The local identifier: the number of the NAA designator.
    pub local: u64,
}

const _: () = prove!(size_of::<IdentityRecord>() == 48);

impl IdentityRecord {
    /// The identity that it describes.
    ///
    /// # Errors
    /// The first fault of [`IdentityFault`].
    pub fn read(&self) -> Result<Identity, IdentityFault>
        ensures { result ≡ asked_identity self.now }
    {
        Identity::new(
            self.vendor,
            self.product,
            self.revision,
            self.serial,
            self.local,
        )
    }

    /// The record of the identity of a seed.
    ///
    /// # Errors
    /// [`Outcome::IdentityLocal`] if the seed has more than 60 bits.
    #[tactic(auto, using(crate::proofs::RecordLemmas::reads_back))]
    pub fn from_seed(seed: u64) -> Result<IdentityRecord, Outcome>
        ensures outcome { outcome_of result ≡ names_outcome (identity_of_seed seed) }
        ensures asked { IfOk result (λ made. asked_identity made ≡ identity_of_seed seed) }
        ensures refused { IfErr result (λ outcome. outcome ≢ Outcome.Done) }
    {
        match Identity::from_seed(seed) {
            Ok(identity) => Ok(IdentityRecord::of(&identity)),
            Err(fault) => Err(Outcome::of_identity(fault)),
        }
    }

    fn of(identity: &Identity) -> IdentityRecord
        ensures { result ≡ identity_record identity.now }
    {
        IdentityRecord {
            vendor: *identity.vendor(),
            product: *identity.product(),
            revision: *identity.revision(),
            serial: *identity.serial(),
            local: identity.local(),
        }
    }
}

/// The record that C declares as `mdl_sense`.
#[repr(C)]
#[derive(Drop)]
pub struct SenseRecord {
    /// The sense key, at most 15.
    pub key: u8,
    /// The additional sense code.
    pub asc: u8,
    /// The additional sense code qualifier.
    pub ascq: u8,
    /// Whether there is an INFORMATION field.
    pub has_information: bool,
    /// Whether there is a field pointer.
    pub has_pointer: bool,
    /// Whether the field pointer points into the CDB, and not into the parameter list.
    pub in_command: bool,
    /// The byte in error, from 0.
    pub byte: u16,
    /// The INFORMATION field, for this disk a logical block address.
    pub information: u64,
}

const _: () = prove!(size_of::<SenseRecord>() == 16);

impl SenseRecord {
    /// The fields of sense data, in either format. None if they can't be read.
    pub fn read(bytes: &[u8]) -> Option<SenseRecord>
        ensures { result ≡ option_map sense_record (read_sense bytes.now) }
    {
        match Sense::read(bytes) {
            Some(sense) => Some(SenseRecord::of(&sense)),
            None => None,
        }
    }

    fn of(sense: &Sense) -> SenseRecord
        ensures { result ≡ sense_record (fields_of sense.now) }
    {
        let (has_pointer, in_command, byte) = match sense.pointer {
            Some(pointer) => (true, pointer.in_command, pointer.byte),
            None => (false, false, 0),
        };
        SenseRecord {
            key: sense.key,
            asc: sense.asc,
            ascq: sense.ascq,
            has_information: sense.information.is_some(),
            has_pointer,
            in_command,
            byte,
            information: sense.information.unwrap_or(0),
        }
    }
}
