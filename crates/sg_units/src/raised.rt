// The conditions that a command or an event establishes, as a value: the code that makes it knows no
// queue.
ghost use Rattle.std.specs.Prelude.{◌≡◌, ◌<◌, slice_index_or, None};
ghost use Rattle.sg_wire.specs.Initiator.{initiator_count};
ghost use Rattle.sg_units.specs.ReserveOut.{raised_by, raised_for};
ghost use Rattle.sg_units.specs.Raised.{raised_for_all, raised_for_member, raised_for_members};
ghost use Rattle.sg_units.specs.Raised.{raised_for_others};

use crate::UnitAttention;
use crate::initiators::Initiators;
use crate::registrations::Registrations;
use crate::reservation_change::ReservationChange;
use sg_wire::Initiator;
use std::marker::Model;

/// For each initiator the unit attention condition that a command or an event establishes for it, if
/// any.
#[derive(Drop)]
pub struct Raised {
    conditions: [Option<UnitAttention>; Initiator::COUNT],
}

impl Model for Raised {
    ghost use Rattle.std.specs.Prelude.{List, Option};
    ghost use Rattle.sg_units.specs.declared.unit_attention.UnitAttention.{UnitAttention};

    ghost Value = { List (Option UnitAttention) };

    ghost view = { λ r. r.conditions };
}

impl Raised {
    /// A condition for every initiator except the initiator whose command establishes it.
    pub fn for_others(initiator: Initiator, condition: UnitAttention) -> Raised
        ensures { result ≡ raised_for_others initiator condition }
    {
        let mut conditions = [Some(condition); Initiator::COUNT];
        conditions[usize::from(initiator.number())] = None;
        Raised { conditions }
    }

    /// A condition for every initiator.
    pub fn for_all(condition: UnitAttention) -> Raised
        ensures { result ≡ raised_for_all condition }
    {
        Raised {
            conditions: [Some(condition); Initiator::COUNT],
        }
    }

    /// A condition for some initiators.
    #[tactic(auto, unfolding(crate::specs::Raised::raised_for_members))]
    pub fn for_members(initiators: &Initiators, condition: UnitAttention) -> Raised
        ensures { result ≡ raised_for_members initiators.now condition }
    {
        let mut conditions = [None; Initiator::COUNT];
        for number in 0..Initiator::COUNT {
            conditions[number] = raised_for_member(initiators, condition, number);
        }
        Raised { conditions }
    }

    /// The condition for the initiator with a number.
    pub(crate) fn at(&self, number: usize) -> Option<UnitAttention>
        requires { number < initiator_count }
        ensures { result ≡ slice_index_or self.now number None }
    {
        self.conditions[number]
    }

    /// The conditions that a change of PERSISTENT RESERVE OUT raises for each initiator.
    #[tactic(auto, unfolding(crate::specs::ReserveOut::raised_by))]
    pub(crate) fn by(
        before: &Registrations,
        caller: Initiator,
        change: &ReservationChange,
    ) -> Raised
        ensures { result ≡ raised_by before.now caller change.now }
    {
        let mut conditions = [None; Initiator::COUNT];
        for number in 0..Initiator::COUNT {
            conditions[number] = raised_for(before, caller, change, number as u8);
        }
        Raised { conditions }
    }
}

/// The condition for the initiator with a number, if it is one of some initiators.
fn raised_for_member(
    initiators: &Initiators,
    condition: UnitAttention,
    number: usize,
) -> Option<UnitAttention>
    requires { number < initiator_count }
    ensures { result ≡ raised_for_member initiators.now condition number }
{
    if initiators.at(number) {
        Some(condition)
    } else {
        None
    }
}

/// The condition that a change raises for the initiator with a number.
fn raised_for(
    before: &Registrations,
    caller: Initiator,
    change: &ReservationChange,
    number: u8,
) -> Option<UnitAttention>
    requires { number < initiator_count }
    ensures { result ≡ raised_for before.now caller change.now number }
{
    let initiator = Initiator::new(number)?;
    if initiator == caller || !before.has(initiator) {
        return None;
    }
    if change.registrations.has(initiator) {
        change.for_remaining
    } else {
        change.for_removed
    }
}
