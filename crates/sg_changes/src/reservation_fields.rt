// The fields of registrations and a reservation that persist. Each function returns a field's
// value, and the bytes after the field.
ghost use Rattle.std.specs.Prelude.{◌≡◌, ◌≤◌};
ghost use Rattle.sg_units.specs.Registrations.{max_registrations};
ghost use Rattle.sg_changes.specs.Format.{counted_at, many_at, optional_at};
ghost use Rattle.sg_changes.specs.Reading.{Gives, restored_to};
ghost use Rattle.sg_changes.specs.ReservationFormat.{initiator, registrant, registration};
ghost use Rattle.sg_changes.specs.ReservationFormat.{reservation};
ghost use Rattle.sg_changes.specs.ReservationFormat.{reservation_type, reservations};

use crate::fields::{flag_at, u8_at, u64_at};
use arrayvec::ArrayVec;
use sg_units::{Registration, Reservation, ReservationType, Reservations};
use sg_wire::Initiator;

/// Added to the number of an initiator whose registration is for every target port.
pub(crate) const ALL_TG_PT: u8 = 0x80;

/// The most registrations that a disk has room for.
const MAX_REGISTRATIONS: usize = Initiator::COUNT;

#[tactic(auto, unfolding(crate::specs::ReservationFormat::initiator))]
fn initiator_at(bytes: &[u8]) -> Option<(Initiator, &[u8])>
    ensures { Gives (λ f. (f.0, f.1.now)) result (initiator.at bytes.now) }
{
    let (number, rest) = u8_at(bytes)?;
    let initiator = Initiator::new(number)?;
    Some((initiator, rest))
}

/// A registrant, and whether its registration is for every target port.
#[tactic(auto, unfolding(crate::specs::ReservationFormat::registrant))]
fn registrant_at(bytes: &[u8]) -> Option<((Initiator, bool), &[u8])>
    ensures { Gives (λ f. (f.0, f.1.now)) result (registrant.at bytes.now) }
{
    let (code, rest) = u8_at(bytes)?;
    if let Some(initiator) = Initiator::new(code) {
        return Some(((initiator, false), rest));
    }
    let initiator = Initiator::new(code.checked_sub(ALL_TG_PT)?)?;
    Some(((initiator, true), rest))
}

#[tactic(auto, unfolding(crate::specs::ReservationFormat::registration))]
fn registration_at(bytes: &[u8]) -> Option<(Registration, &[u8])>
    ensures { Gives (λ f. (f.0, f.1.now)) result (registration.at bytes.now) }
{
    let Some(((initiator, all_tg_pt), rest)) = registrant_at(bytes) else {
        return None;
    };
    let (key, rest) = u64_at(rest)?;
    Some((
        Registration {
            initiator,
            key,
            all_tg_pt,
        },
        rest,
    ))
}

/// `count` registrations.
fn many_registrations_at(
    bytes: &[u8],
    count: u8,
) -> Option<(ArrayVec<Registration, MAX_REGISTRATIONS>, &[u8])>
    requires { count ≤ max_registrations }
    ensures { Gives (λ f. (f.0.items, f.1.now)) result (many_at registration count bytes.now) }
{
    let mut registrations = ArrayVec::new();
    let mut rest = bytes;
    for _ in 0..count {
        let Some((registration, after)) = registration_at(rest) else {
            return None;
        };
        registrations.push(registration);
        rest = after;
    }
    Some((registrations, rest))
}

/// Registrations after their number.
#[tactic(auto, unfolding(crate::specs::Format::counted_at))]
fn registrations_at(bytes: &[u8]) -> Option<(ArrayVec<Registration, MAX_REGISTRATIONS>, &[u8])>
    ensures { Gives (λ f. (f.0.items, f.1.now)) result
        (counted_at max_registrations registration bytes.now) }
{
    let (count, rest) = u8_at(bytes)?;
    if usize::from(count) > MAX_REGISTRATIONS {
        return None;
    }
    many_registrations_at(rest, count)
}

#[tactic(auto, unfolding(crate::specs::ReservationFormat::reservation_type))]
fn reservation_type_at(bytes: &[u8]) -> Option<(ReservationType, &[u8])>
    ensures { Gives (λ f. (f.0, f.1.now)) result (reservation_type.at bytes.now) }
{
    let (code, rest) = u8_at(bytes)?;
    let kind = ReservationType::with_scope_and_type(code)?;
    Some((kind, rest))
}

/// The one holder, if one is named.
#[tactic(auto, unfolding(crate::specs::Format::optional_at))]
fn holder_at(bytes: &[u8]) -> Option<(Option<Initiator>, &[u8])>
    ensures { Gives (λ f. (f.0, f.1.now)) result (optional_at initiator bytes.now) }
{
    let (is_named, rest) = flag_at(bytes)?;
    if !is_named {
        return Some((None, rest));
    }
    let Some((holder, rest)) = initiator_at(rest) else {
        return None;
    };
    Some((Some(holder), rest))
}

#[tactic(auto, unfolding(crate::specs::ReservationFormat::reservation))]
fn reservation_at(bytes: &[u8]) -> Option<(Reservation, &[u8])>
    ensures { Gives (λ f. (f.0, f.1.now)) result (reservation.at bytes.now) }
{
    let (kind, rest) = reservation_type_at(bytes)?;
    let Some((holder, rest)) = holder_at(rest) else {
        return None;
    };
    Some((Reservation { kind, holder }, rest))
}

/// The reservation, if there is one.
#[tactic(auto, unfolding(crate::specs::Format::optional_at))]
fn held_reservation_at(bytes: &[u8]) -> Option<(Option<Reservation>, &[u8])>
    ensures { Gives (λ f. (f.0, f.1.now)) result (optional_at reservation bytes.now) }
{
    let (is_held, rest) = flag_at(bytes)?;
    if !is_held {
        return Some((None, rest));
    }
    let Some((reservation, rest)) = reservation_at(rest) else {
        return None;
    };
    Some((Some(reservation), rest))
}

/// Registrations and a reservation, if they persist. None also if they are not consistent.
#[tactic(auto, unfolding(crate::specs::ReservationFormat::persistent, crate::specs::Format::optional_at))]
pub(crate) fn reservations_at(bytes: &[u8]) -> Option<(Reservations, &[u8])>
    ensures { Gives (λ f. (f.0, f.1.now)) result (restored_to (reservations.at bytes.now)) }
{
    let (persist, rest) = flag_at(bytes)?;
    if !persist {
        return Some((Reservations::new(), rest));
    }
    let Some((registrations, rest)) = registrations_at(rest) else {
        return None;
    };
    let Some((reservation, rest)) = held_reservation_at(rest) else {
        return None;
    };
    let reservations = Reservations::restored(registrations.as_slice(), reservation)?;
    Some((reservations, rest))
}
