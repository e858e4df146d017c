// TransportIDs: the names of initiators in the data of persistent reservations.
ghost use Rattle.std.specs.Prelude.{◌≡◌, ◌<◌, ◌≤◌, ◌*◌, length, slice_index_or, Some, None};
ghost use Rattle.sg_wire.specs.Fields.{fields_bytes};
ghost use Rattle.sg_wire.specs.Initiator.{initiator_count};
ghost use Rattle.sg_wire.specs.TransportId.{id_at, initiator_at, named_by, named_initiators};
ghost use Rattle.sg_wire.specs.TransportId.{transport_id, transport_id_length};

use crate::initiator::Initiator;
use byteorder::{BigEndian, ByteOrder};
use std::marker::Model;

/// FORMAT CODE 0h and PROTOCOL IDENTIFIER 6h, a SAS initiator port, and three reserved bytes.
const SAS: u32 = 0x0600_0000;

/// The locally assigned SAS ADDRESS of initiator 0.
const FIRST_SAS_ADDRESS: u64 = 0x3000_0000_0000_0100;

/// TransportIDs that follow one another (SPC-4, 7.6.4), read at their place as often as they are
/// needed: at most as many as there are initiators. The last one may be cut short.
#[derive(Drop)]
pub struct TransportIds<'a> {
    bytes: &'a [u8],
}

impl<'a> Model for TransportIds<'a> {
    ghost use Rattle.std.specs.Prelude.{ℕ, List, Option};
    ghost use Rattle.sg_wire.specs.TransportId.{named_initiators};

    ghost Value = { List (Option ℕ) };

    ghost view = { λ ids. named_initiators ids.bytes.now };
}

impl<'a> TransportIds<'a> {
    /// The length of a TransportID, in bytes.
    pub const LENGTH: usize = 24;

    /// The TransportIDs of some bytes.
    pub fn new(bytes: &'a [u8]) -> TransportIds<'a>
        ensures { result ≡ named_initiators bytes.now }
    {
        TransportIds { bytes }
    }

    /// Their number.
    pub fn len(&self) -> usize
        ensures value { result ≡ length self.now }
        ensures at_most { result ≤ initiator_count }
    {
        let count = self.bytes.len().div_ceil(TransportIds::LENGTH);
        count.min(Initiator::COUNT)
    }

    /// The initiator that a TransportID names, by its index. None if the disk has no such initiator.
    pub fn initiator(&self, index: usize) -> Option<Initiator>
        requires { index < length self.now }
        ensures { result ≡ slice_index_or self.now index None }
    {
        named_by(id_at(self.bytes, index))
    }
}

/// A TransportID by its index.
fn id_at(bytes: &[u8], index: usize) -> &[u8]
    requires { transport_id_length * index < length bytes.now }
    ensures { result.now ≡ id_at bytes.now index }
{
    let rest = &bytes[TransportIds::LENGTH * index..];
    if rest.len() < TransportIds::LENGTH {
        rest
    } else {
        &rest[..TransportIds::LENGTH]
    }
}

/// The TransportID of an initiator, a SAS port.
pub fn transport_id(initiator: Initiator) -> [u8; TransportIds::LENGTH]
    ensures bytes { result ≡ fields_bytes (transport_id initiator) }
    ensures reads_back { named_by result ≡ Some initiator }
{
    let mut bytes = [0; TransportIds::LENGTH];
    BigEndian::write_u32(&mut bytes, SAS);
    BigEndian::write_u64(
        &mut bytes[4..],
        FIRST_SAS_ADDRESS + u64::from(initiator.number()),
    );
    bytes
}

/// The initiator that a TransportID names.
#[tactic(auto, unfolding(crate::specs::TransportId::named_by))]
fn named_by(id: &[u8]) -> Option<Initiator>
    ensures { result ≡ named_by id.now }
{
    let is_sas = id.len() == TransportIds::LENGTH
        && BigEndian::read_u32(id) == SAS
        && BigEndian::read_u64(&id[12..]) == 0
        && BigEndian::read_u32(&id[20..]) == 0;
    if !is_sas {
        return None;
    }
    initiator_at(BigEndian::read_u64(&id[4..]))
}

/// The initiator with a SAS ADDRESS.
fn initiator_at(address: u64) -> Option<Initiator>
    ensures { result ≡ initiator_at address }
{
    let number = address.checked_sub(FIRST_SAS_ADDRESS)?;
    if number < Initiator::COUNT as u64 {
        Initiator::new(number as u8)
    } else {
        None
    }
}
