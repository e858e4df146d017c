// A set of initiators is a value of its own, for what happens to some of them only.
use sg_wire::Initiator;
use std::marker::Model;

/// A set of the initiators that a disk serves.
#[derive(Clone, Copy)]
pub struct Initiators {
    members: [bool; Initiator::COUNT],
}

impl Model for Initiators {
    ghost use Rattle.std.specs.Prelude.{Bool, List};

    ghost Value = { List Bool };

    ghost view = { λ s. s.members };

    ghost inverse = { λ m. record { members = m } };
}

ghost use Rattle.std.specs.Prelude.{◌≡◌, ◌<◌, length};
ghost use Rattle.sg_wire.specs.Initiator.{initiator_count};
ghost use Rattle.sg_units.specs.Initiators.{all_initiators, is_in_mask, is_member, members_of_mask};
ghost use Rattle.sg_units.specs.Initiators.{no_initiators, with_member};

impl Initiators {
    /// No initiator.
    pub fn none() -> Initiators
        ensures { result ≡ no_initiators }
    {
        Initiators {
            members: [false; Initiator::COUNT],
        }
    }

    /// Every initiator that a disk of any profile serves.
    pub fn all() -> Initiators
        ensures { result ≡ all_initiators }
    {
        Initiators {
            members: [true; Initiator::COUNT],
        }
    }

    /// The initiators for which an array has `true`, by their numbers.
    pub fn of_members(members: [bool; Initiator::COUNT]) -> Initiators
        ensures { result ≡ members }
    {
        Initiators { members }
    }

    /// For each initiator, in the order of their numbers, whether it is a member.
    pub fn members(&self) -> &[bool; Initiator::COUNT]
        ensures value { result.now ≡ self.now }
        ensures size { length self.now ≡ initiator_count }
    {
        &self.members
    }

    /// The initiators of a mask, in which bit i stands for initiator i.
    #[tactic(auto, unfolding(crate::specs::Initiators::members_of_mask))]
    pub fn of_mask(mask: u64) -> Initiators
        ensures { result ≡ members_of_mask mask }
    {
        let mut members = [false; Initiator::COUNT];
        for number in 0..Initiator::COUNT {
            members[number] = is_in_mask(mask, number);
        }
        Initiators { members }
    }

    /// These initiators, and another one.
    pub fn with(mut self, initiator: Initiator) -> Initiators
        ensures { result ≡ with_member self initiator }
    {
        self.members[usize::from(initiator.number())] = true;
        self
    }

    /// An initiator is one of them.
    pub fn contains(&self, initiator: Initiator) -> bool
        ensures { result ≡ is_member self.now initiator }
    {
        self.at(usize::from(initiator.number()))
    }

    /// The initiator with a number is one of them.
    pub(crate) fn at(&self, number: usize) -> bool
        requires { number < initiator_count }
        ensures { result ≡ is_member self.now number }
    {
        self.members[number]
    }
}

/// Bit i of a mask is set.
fn is_in_mask(mask: u64, i: usize) -> bool
    requires { i < initiator_count }
    ensures { result ≡ is_in_mask mask i }
{
    (mask >> i) % 2 == 1
}
