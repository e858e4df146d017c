// READ FULL STATUS (SPC-4, 6.15.5).
ghost use Rattle.std.specs.Prelude.{◌≡◌, ◌≤◌, length};
ghost use Rattle.std.specs.List.{flat_map};
ghost use Rattle.sg_wire.specs.Cut.{Puts};
ghost use Rattle.sg_units.specs.FullStatus.{full_status_data, full_status_descriptor};
ghost use Rattle.sg_units.specs.FullStatus.{held_type, holder_flag, longest_reserve_in, ports_flag};

use super::ReservationState;
use super::persistent_reserve_in::header;
use crate::registrations::MAX_REGISTRATIONS;
use crate::{Registration, Reservation};
use byteorder::{BigEndian, ByteOrder};
use sg_wire::laws::parts_are_put_in_turn;
use sg_wire::{Cut, Initiator, TransportIds, transport_id};

/// The length of a full status descriptor, in bytes. It ends with a TransportID.
const FULL_STATUS_LENGTH: usize = 48;

/// The length of the longest data of PERSISTENT RESERVE IN, in bytes: READ FULL STATUS with all
/// registrations that there is room for.
pub const LONGEST_RESERVE_IN_DATA: usize = 8 + FULL_STATUS_LENGTH * MAX_REGISTRATIONS;

/// RELATIVE TARGET PORT IDENTIFIER of the one port of the disk.
pub(super) const RELATIVE_TARGET_PORT: u16 = 1;

/// ALL_TG_PT: the registration is for every target port.
const ALL_TG_PT: u8 = 0x02;

/// Where the TransportID is in a descriptor.
const TRANSPORT_ID_AT: usize = 24;

impl ReservationState {
    pub(crate) fn read_full_status(&self, cut: &mut Cut)
        ensures data { Puts cut.old cut.new (full_status_data self.now) }
        ensures at_most { length (full_status_data self.now) ≤ longest_reserve_in }
    {
        put_full_status(self, cut);
    }
}

#[tactic(auto, unfolding(crate::specs::FullStatus::full_status_data))]
fn put_full_status(state: &ReservationState, cut: &mut Cut)
    ensures data { Puts cut.old cut.new (full_status_data state.now) }
    ensures at_most { length (full_status_data state.now) ≤ longest_reserve_in }
{
    parts_are_put_in_turn();
    let registrations = state.registrations.as_slice();
    let length = (FULL_STATUS_LENGTH * registrations.len()) as u32;
    cut.put(&header(state.generation, length));
    put_descriptors(&state.reservation, registrations, cut);
}

fn put_descriptors(reservation: &Option<Reservation>, registrations: &[Registration], cut: &mut Cut)
    ensures { Puts cut.old cut.new
        (flat_map (full_status_descriptor reservation.now) registrations.now) }
{
    parts_are_put_in_turn();
    for registration in registrations {
        cut.put(&full_status_descriptor(reservation, registration));
    }
}

#[tactic(auto, unfolding(crate::specs::FullStatus::full_status_descriptor))]
fn full_status_descriptor(
    reservation: &Option<Reservation>,
    registration: &Registration,
) -> [u8; FULL_STATUS_LENGTH]
    ensures { result ≡ full_status_descriptor reservation.now registration.now }
{
    let initiator = registration.initiator;
    let mut bytes = [0; FULL_STATUS_LENGTH];
    BigEndian::write_u64(&mut bytes, registration.key);
    bytes[12] = ports_flag(registration) + holder_flag(reservation, initiator);
    bytes[13] = held_type(reservation, initiator);
    BigEndian::write_u16(&mut bytes[18..], RELATIVE_TARGET_PORT);
    BigEndian::write_u32(&mut bytes[20..], TransportIds::LENGTH as u32);
    bytes[TRANSPORT_ID_AT..].copy_from_slice(&transport_id(initiator));
    bytes
}

/// ALL_TG_PT, beside R_HOLDER.
fn ports_flag(registration: &Registration) -> u8
    ensures { result ≡ ports_flag registration.now.all_tg_pt }
{
    if registration.all_tg_pt { ALL_TG_PT } else { 0 }
}

/// R_HOLDER.
fn holder_flag(reservation: &Option<Reservation>, registrant: Initiator) -> u8
    ensures { result ≡ holder_flag reservation.now registrant }
{
    match reservation {
        Some(reservation) if reservation.is_held_by(registrant) => 1,
        _ => 0,
    }
}

/// SCOPE and TYPE of the reservation that a registrant holds, and zeros if it holds none.
fn held_type(reservation: &Option<Reservation>, registrant: Initiator) -> u8
    ensures { result ≡ held_type reservation.now registrant }
{
    match reservation {
        Some(reservation) if reservation.is_held_by(registrant) => reservation.kind.code(),
        _ => 0,
    }
}
