// Registrations and the persistent reservation for other crates: a value that is always consistent.
use crate::registrations::Registrations;
use crate::reservation_state::ReservationState;
use crate::{OutFault, OutList, Raised, Registration, Reservation, ReservationChange};
use sg_wire::{Class, Cut, Initiator, OutAction, Rules};
use std::marker::Model;

// Flags of REPORT CAPABILITIES. Byte 2: specify initiator ports capable, all target ports capable, and
// persist through power loss capable. Byte 3: the type mask is valid, and persist through power loss
// activated.
const SIP_C: u8 = 0x08;

const ATP_C: u8 = 0x04;

const PTPL_C: u8 = 0x01;

const TMV: u8 = 0x80;

const PTPL_A: u8 = 0x01;

// ALLOW COMMANDS of byte 3: three bits, of which the lowest is bit 4.
const ALLOW_COMMANDS_LIMIT: u8 = 0x08;

const ALLOW_COMMANDS_BIT: u8 = 0x10;

// PERSISTENT RESERVATION TYPE MASK. Byte 4: WR_EX_AR, EX_AC_RO, WR_EX_RO, EX_AC and WR_EX. Byte 5:
// EX_AC_AR.
const TYPE_MASK: [u8; 2] = [0xEA, 0x01];

/// The registered initiators and their keys, the persistent reservation and its holder,
/// PRGENERATION, and whether a power loss leaves these (SPC-4, 5.13).
#[derive(Drop)]
pub struct Reservations {
    state: ReservationState,
}

impl Model for Reservations {
    ghost use Rattle.sg_units.specs.Reservations.{IsConsistent};
    ghost use Rattle.sg_units.specs.declared.reservation_state.ReservationState.{ReservationState};

    ghost Value = { ReservationState };

    ghost view = { λ r. r.state };

    ghost invariant = { λ r. IsConsistent r.state };
}

ghost use Rattle.std.specs.Prelude.{◌≡◌, ◌≤◌, Ok, IfOk, is_some, length};
ghost use Rattle.sg_wire.specs.Cut.{Puts};
ghost use Rattle.sg_units.specs.Access.{allows};
ghost use Rattle.sg_units.specs.FullStatus.{full_status_data, longest_reserve_in};
ghost use Rattle.sg_units.specs.PowerOn.{after_power_on, empty_state};
ghost use Rattle.sg_units.specs.ReserveIn.{capabilities_data, keys_data, reservation_data};
ghost use Rattle.sg_units.specs.ReserveOut.{IsConsistentChange, generation_after, outcome};
ghost use Rattle.sg_units.specs.ReserveOut.{raised_by, reply_of, state_after};
ghost use Rattle.sg_units.specs.Registrations.{max_registrations, registered_mask};
ghost use Rattle.sg_units.specs.Restored.{are_consistent, restored_state};
ghost use Rattle.sg_units.specs.Reservations.{IsConsistent};

impl Reservations {
    /// No initiator is registered, no reservation is held, and PRGENERATION is 0.
    pub fn new() -> Reservations
        ensures state { result ≡ empty_state }
        ensures consistent { IsConsistent result }
    {
        Reservations {
            state: ReservationState::new(),
        }
    }

    /// The state after power on, with registrations and a reservation that persisted through a power
    /// loss. PRGENERATION is 0, and the state persists again. None if registrations and reservation
    /// are not consistent: too many registrations, two of one initiator, one under the key 0, or a
    /// reservation without the holders that its type asks for.
    pub fn restored(
        registrations: &[Registration],
        reservation: Option<Reservation>,
    ) -> Option<Reservations>
        ensures { result ≡ restored_state registrations.now reservation }
    {
        let registrations = Registrations::of(registrations)?;
        if !are_consistent(&registrations, &reservation) {
            return None;
        }
        Some(Reservations {
            state: ReservationState {
                registrations,
                reservation,
                generation: 0,
                persists_through_power_loss: true,
            },
        })
    }

    /// The registrations, in the order in which they were made.
    pub fn registrations(&self) -> &[Registration]
        ensures value { result.now ≡ self.now.registrations }
        ensures at_most { length result.now ≤ max_registrations }
    {
        self.state.registrations.as_slice()
    }

    /// The reservation that is held, if any.
    pub fn reservation(&self) -> Option<Reservation>
        ensures { result ≡ self.now.reservation }
    {
        self.state.reservation
    }

    /// Returns `true` if registrations and reservation persist through a power loss.
    pub fn persist_through_power_loss(&self) -> bool
        ensures { result ≡ self.now.persists_through_power_loss }
    {
        self.state.persists_through_power_loss
    }

    /// Returns the change that a service action of PERSISTENT RESERVE OUT makes, for an initiator
    /// (SPC-4, 5.13), on a disk with these rules. The scope and type are byte 2 of the CDB. Nothing
    /// has changed yet.
    ///
    /// # Errors
    /// The first fault that applies.
    pub fn change(
        &self,
        rules: Rules,
        caller: Initiator,
        action: OutAction,
        scope_type: u8,
        list: &OutList,
    ) -> Result<ReservationChange, OutFault>
        ensures value { result ≡ outcome rules self.now caller action scope_type list.now }
        ensures consistent { IfOk result IsConsistentChange }
    {
        self.state.outcome(rules, caller, action, scope_type, list)
    }

    /// Applies the change of an initiator's command, and returns the unit attention conditions that
    /// it establishes for others.
    pub fn apply(&mut self, caller: Initiator, change: ReservationChange) -> Raised
        requires { IsConsistentChange change }
        ensures raised { result ≡ raised_by self.old.registrations caller change }
        ensures state { self.new ≡ state_after self.old (Ok change) }
        ensures consistent { IsConsistent self.new }
    {
        let raised = Raised::by(&self.state.registrations, caller, &change);
        self.state = ReservationState {
            generation: generation_after(change.increments_generation, self.state.generation),
            registrations: change.registrations,
            reservation: change.reservation,
            persists_through_power_loss: change
                .aptpl
                .unwrap_or(self.state.persists_through_power_loss),
        };
        raised
    }

    /// Executes a service action: applies the result of [`Reservations::change`].
    ///
    /// # Errors
    /// The first fault that applies. Nothing has changed then.
    pub fn out(
        &mut self,
        rules: Rules,
        caller: Initiator,
        action: OutAction,
        scope_type: u8,
        list: &OutList,
    ) -> Result<Raised, OutFault>
        ensures reply { result ≡
            reply_of self.old caller (outcome rules self.old caller action scope_type list.now) }
        ensures state { self.new ≡
            state_after self.old (outcome rules self.old caller action scope_type list.now) }
        ensures consistent { IsConsistent self.new }
    {
        // A use of a field makes it known that the state is consistent. A fault leaves it so.
        let _ = &self.state;
        let change = self.change(rules, caller, action, scope_type, list)?;
        Ok(self.apply(caller, change))
    }

    /// Makes a power cycle. PRGENERATION is 0 after it. If registrations and reservation persist
    /// through a power loss, they are as they were; otherwise they are gone (SPC-4, 5.13).
    pub fn power_on(&mut self)
        ensures state { self.new ≡ after_power_on self.old }
        ensures consistent { IsConsistent self.new }
    {
        if self.state.persists_through_power_loss {
            self.state.generation = 0;
        } else {
            self.state = ReservationState::new();
        }
    }

    /// Returns `true` if a reservation is held.
    pub fn is_reserved(&self) -> bool
        ensures { result ≡ is_some self.now.reservation }
    {
        self.state.reservation.is_some()
    }

    /// Returns `true` if the reservation that is held, if any, allows an initiator's command of a
    /// class.
    pub fn allows(&self, initiator: Initiator, class: Class) -> bool
        ensures { result ≡ allows self.now initiator class }
    {
        self.state.allows(initiator, class)
    }

    /// A mask of the registrants: bit i is set if initiator i is registered.
    pub fn registered_mask(&self) -> u64
        ensures { result ≡ registered_mask self.now.registrations }
    {
        self.state.registrations.mask()
    }

    /// Writes the data-in of READ KEYS: PRGENERATION and the keys of all registrants (SPC-4,
    /// 6.15.2).
    pub fn read_keys(&self, cut: &mut Cut)
        ensures data { Puts cut.old cut.new (keys_data self.now) }
        ensures at_most { length (keys_data self.now) ≤ longest_reserve_in }
    {
        self.state.read_keys(cut);
    }

    /// Writes the data-in of READ RESERVATION: PRGENERATION and the reservation that is held, if
    /// any (SPC-4, 6.15.3).
    pub fn read_reservation(&self, cut: &mut Cut)
        ensures data { Puts cut.old cut.new (reservation_data self.now) }
        ensures at_most { length (reservation_data self.now) ≤ longest_reserve_in }
    {
        self.state.read_reservation(cut);
    }

    /// Writes the data-in of READ FULL STATUS: PRGENERATION, and a descriptor for each registration
    /// (SPC-4, 6.15.5). The descriptor has its key, whether it holds the reservation, its target
    /// port and the TransportID of its initiator.
    pub fn read_full_status(&self, cut: &mut Cut)
        ensures data { Puts cut.old cut.new (full_status_data self.now) }
        ensures at_most { length (full_status_data self.now) ≤ longest_reserve_in }
    {
        self.state.read_full_status(cut);
    }

    /// Writes the data-in of REPORT CAPABILITIES (SPC-4, 6.15.4), of a disk with these rules.
    pub fn report_capabilities(&self, rules: Rules, cut: &mut Cut)
        ensures data { Puts cut.old cut.new (capabilities_data rules self.now) }
        ensures at_most { length (capabilities_data rules self.now) ≤ longest_reserve_in }
    {
        let allowed = TMV + rules.allow_commands % ALLOW_COMMANDS_LIMIT * ALLOW_COMMANDS_BIT;
        let flags = if self.state.persists_through_power_loss {
            allowed + PTPL_A
        } else {
            allowed
        };
        let capable = if rules.specifies_ports {
            SIP_C + ATP_C + PTPL_C
        } else {
            PTPL_C
        };
        let [first, second] = TYPE_MASK;
        cut.put(&[0x00, 0x08, capable, flags, first, second, 0x00, 0x00]);
    }
}

/// Returns `true` if registrations, of which there is room for as many, and a reservation are
/// consistent.
fn are_consistent(registrations: &Registrations, reservation: &Option<Reservation>) -> bool
    requires { length registrations.now ≤ max_registrations }
    ensures { result ≡ are_consistent registrations.now reservation.now }
{
    registrations.each_once()
        && !registrations.has_key(0)
        && match reservation {
            Some(reservation) => {
                reservation.has_holder(registrations) && reservation.names_holder()
            }
            None => true,
        }
}

/// PRGENERATION after a command.
fn generation_after(increments: bool, generation: u32) -> u32
    ensures { result ≡ generation_after increments generation }
{
    if increments {
        generation.wrapping_add(1)
    } else {
        generation
    }
}
