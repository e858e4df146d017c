//! The disk's state for its initiators: the unit attention conditions that are pending for each,
//! their registrations, and the persistent reservation.
#![tactic(auto)]

mod access;
mod attentions;
mod initiators;
pub mod laws;
mod out_fault;
mod raised;
mod registrations;
mod reservation;
mod reservation_change;
mod reservation_state;
mod reservations;
mod types;
mod unit_attention;

pub use attentions::Attentions;
pub use initiators::Initiators;
pub use out_fault::OutFault;
pub use raised::Raised;
pub use registrations::Registration;
pub use reservation::Reservation;
pub use reservation_change::ReservationChange;
pub use reservation_state::LONGEST_RESERVE_IN_DATA;
pub use reservations::Reservations;
pub use sg_wire::OutList;
pub use types::ReservationType;
pub use unit_attention::{UnitAttention, UnitAttention as Code};
