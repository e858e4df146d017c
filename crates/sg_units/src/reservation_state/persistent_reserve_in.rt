// READ KEYS and READ RESERVATION (SPC-4, 6.15.2 and 6.15.3). READ FULL STATUS has a file of its
// own.
ghost use Rattle.std.specs.Prelude.{◌≡◌, ◌≤◌, length};
ghost use Rattle.std.specs.List.{flat_map};
ghost use Rattle.byteorder.specs.Endian.{big_bytes};
ghost use Rattle.sg_wire.specs.Cut.{Puts};
ghost use Rattle.sg_units.specs.FullStatus.{longest_reserve_in};
ghost use Rattle.sg_units.specs.ReserveIn.{descriptor, header, holder_key, key_bytes};
ghost use Rattle.sg_units.specs.ReserveIn.{keys_data, reservation_data};

use super::ReservationState;
use crate::{Registration, Reservation};
use byteorder::{BigEndian, ByteOrder};
use sg_wire::laws::parts_are_put_in_turn;
use sg_wire::{Cut, Initiator};

// Lengths in bytes: of a reservation key, and of the descriptor of a reservation.
const KEY_LENGTH: u32 = 8;

const DESCRIPTOR_LENGTH: u32 = 16;

impl ReservationState {
    /// READ KEYS.
    #[tactic(auto, unfolding(crate::specs::ReserveIn::keys_data))]
    pub(crate) fn read_keys(&self, cut: &mut Cut)
        ensures data { Puts cut.old cut.new (keys_data self.now) }
        ensures at_most { length (keys_data self.now) ≤ longest_reserve_in }
    {
        parts_are_put_in_turn();
        let registrations = self.registrations.as_slice();
        cut.put(&header(self.generation, KEY_LENGTH * registrations.len() as u32));
        put_keys(registrations, cut);
    }

    /// READ RESERVATION.
    #[tactic(auto, unfolding(crate::specs::ReserveIn::reservation_data))]
    pub(crate) fn read_reservation(&self, cut: &mut Cut)
        ensures data { Puts cut.old cut.new (reservation_data self.now) }
        ensures at_most { length (reservation_data self.now) ≤ longest_reserve_in }
    {
        parts_are_put_in_turn();
        match &self.reservation {
            Some(reservation) => {
                cut.put(&header(self.generation, DESCRIPTOR_LENGTH));
                self.put_descriptor(reservation, cut);
            }
            None => cut.put(&header(self.generation, 0)),
        }
    }

    fn put_descriptor(&self, reservation: &Reservation, cut: &mut Cut)
        ensures { Puts cut.old cut.new (descriptor self.now reservation.now) }
    {
        parts_are_put_in_turn();
        let key = self.holder_key(reservation.holder);
        cut.put(&key_bytes(key));
        cut.put(&[0, 0, 0, 0, 0, reservation.kind.code(), 0, 0]);
    }

    /// The key of the one holder, or 0 if each registrant is a holder.
    fn holder_key(&self, holder: Option<Initiator>) -> u64
        ensures { result ≡ holder_key self.now.registrations holder }
    {
        match holder {
            Some(holder) => self.registrations.key_of(holder).unwrap_or(0),
            None => 0,
        }
    }
}

fn put_keys(registrations: &[Registration], cut: &mut Cut)
    ensures { Puts cut.old cut.new (flat_map key_bytes registrations.now) }
{
    parts_are_put_in_turn();
    for registration in registrations {
        cut.put(&key_bytes(registration.key));
    }
}

/// PRGENERATION, and the number of bytes that follow.
pub(super) fn header(generation: u32, additional_length: u32) -> [u8; 8]
    ensures { result ≡ header generation additional_length }
{
    let mut bytes = [0; 8];
    BigEndian::write_u32(&mut bytes, generation);
    BigEndian::write_u32(&mut bytes[4..], additional_length);
    bytes
}

fn key_bytes(key: u64) -> [u8; 8]
    ensures { result ≡ big_bytes 8 key }
{
    let mut bytes = [0; 8];
    BigEndian::write_u64(&mut bytes, key);
    bytes
}
