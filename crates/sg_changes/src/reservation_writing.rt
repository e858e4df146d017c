// Registrations and a reservation that are written to a sink.
ghost use Rattle.std.specs.Prelude.{◌≡◌, ◌*◌, ◌≤◌, length};
ghost use Rattle.sg_units.specs.Registrations.{max_registrations};
ghost use Rattle.sg_changes.specs.Change.{persistent_of};
ghost use Rattle.sg_changes.specs.Format.{counted, many, optional};
ghost use Rattle.sg_changes.specs.ReservationFormat.{initiator, registrant, registration};
ghost use Rattle.sg_changes.specs.ReservationFormat.{reservation};
ghost use Rattle.sg_changes.specs.ReservationFormat.{reservation_type, reservations};
ghost use Rattle.sg_changes.specs.Writing.{Takes};

use crate::reservation_fields::ALL_TG_PT;
use crate::sink::Sink;
use crate::writing::{put_flag, put_u8, put_u64};
use sg_units::{Registration, Reservation, ReservationType, Reservations};
use sg_wire::Initiator;

#[tactic(auto, unfolding(crate::specs::ReservationFormat::initiator))]
fn put_initiator<S: Sink>(sink: &mut S, who: Initiator)
    requires { 1 ≤ S.room sink.old }
    ensures { Takes S.contents S.room initiator 1 sink.old sink.new who }
{
    put_u8(sink, who.number());
}

#[tactic(auto, unfolding(crate::specs::ReservationFormat::registrant))]
fn put_registrant<S: Sink>(sink: &mut S, who: Initiator, all_tg_pt: bool)
    requires { 1 ≤ S.room sink.old }
    ensures { Takes S.contents S.room registrant 1 sink.old sink.new (who, all_tg_pt) }
{
    let code = if all_tg_pt {
        who.number() + ALL_TG_PT
    } else {
        who.number()
    };
    put_u8(sink, code);
}

#[tactic(auto, unfolding(crate::specs::ReservationFormat::registration))]
fn put_registration<S: Sink>(sink: &mut S, one: Registration)
    requires { 9 ≤ S.room sink.old }
    ensures { Takes S.contents S.room registration 9 sink.old sink.new one }
{
    put_registrant(sink, one.initiator, one.all_tg_pt);
    put_u64(sink, one.key);
}

/// Registrations, one after another.
fn put_many_registrations<S: Sink>(sink: &mut S, registrations: &[Registration])
    requires room { 576 ≤ S.room sink.old }
    requires at_most { length registrations.now ≤ max_registrations }
    ensures { Takes S.contents S.room (many (length registrations.now) registration)
        (length registrations.now * 9) sink.old sink.new registrations.now }
{
    for registration in registrations {
        put_registration(sink, *registration);
    }
}

/// Registrations after their number.
fn put_registrations<S: Sink>(sink: &mut S, registrations: &[Registration])
    requires room { 577 ≤ S.room sink.old }
    requires at_most { length registrations.now ≤ max_registrations }
    ensures { Takes S.contents S.room (counted max_registrations registration) 577 sink.old sink.new
        registrations.now }
{
    put_u8(sink, registrations.len() as u8);
    put_many_registrations(sink, registrations);
}

#[tactic(auto, unfolding(crate::specs::ReservationFormat::reservation_type))]
fn put_reservation_type<S: Sink>(sink: &mut S, kind: ReservationType)
    requires { 1 ≤ S.room sink.old }
    ensures { Takes S.contents S.room reservation_type 1 sink.old sink.new kind }
{
    put_u8(sink, kind.code());
}

/// The one holder, if one is named.
fn put_holder<S: Sink>(sink: &mut S, holder: Option<Initiator>)
    requires { 2 ≤ S.room sink.old }
    ensures { Takes S.contents S.room (optional initiator) 2 sink.old sink.new holder }
{
    match holder {
        Some(holder) => {
            put_flag(sink, true);
            put_initiator(sink, holder);
        }
        None => put_flag(sink, false),
    }
}

#[tactic(auto, unfolding(crate::specs::ReservationFormat::reservation))]
fn put_reservation<S: Sink>(sink: &mut S, held: Reservation)
    requires { 3 ≤ S.room sink.old }
    ensures { Takes S.contents S.room reservation 3 sink.old sink.new held }
{
    put_reservation_type(sink, held.kind);
    put_holder(sink, held.holder);
}

/// The reservation, if there is one.
fn put_held_reservation<S: Sink>(sink: &mut S, held: Option<Reservation>)
    requires { 4 ≤ S.room sink.old }
    ensures { Takes S.contents S.room (optional reservation) 4 sink.old sink.new held }
{
    match held {
        Some(held) => {
            put_flag(sink, true);
            put_reservation(sink, held);
        }
        None => put_flag(sink, false),
    }
}

/// Registrations and reservation, if they persist through a power loss.
#[tactic(auto, unfolding(crate::specs::ReservationFormat::persistent))]
pub(crate) fn put_reservations<S: Sink>(sink: &mut S, state: &Reservations)
    requires { 582 ≤ S.room sink.old }
    ensures { Takes S.contents S.room reservations 582 sink.old sink.new (persistent_of state.now) }
{
    if state.persist_through_power_loss() {
        put_flag(sink, true);
        put_registrations(sink, state.registrations());
        put_held_reservation(sink, state.reservation());
    } else {
        put_flag(sink, false);
    }
}
