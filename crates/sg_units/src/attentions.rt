// A queue of conditions for each initiator. A new one goes to the end, or to the front if it is of a
// reset. The first one is reported.
use crate::{Raised, UnitAttention};
use arrayvec::ArrayVec;
use sg_wire::Initiator;
use std::array;
use std::marker::Model;

/// The unit attention conditions that are pending for each initiator, the oldest first (SAM-5,
/// 5.14). For one initiator none is pending twice, so at most [`UnitAttention::COUNT`] are.
#[derive(Drop)]
pub struct Attentions {
    pending: [ArrayVec<UnitAttention, { UnitAttention::COUNT }>; Initiator::COUNT],
}

impl Model for Attentions {
    ghost use Rattle.std.specs.Prelude.{List, map};
    ghost use Rattle.sg_units.specs.Attentions.{ArePending};
    ghost use Rattle.sg_units.specs.declared.unit_attention.UnitAttention.{UnitAttention};

    ghost Value = { List (List UnitAttention) };

    ghost view = { λ a. map (λ queue. queue.items) a.pending };

    ghost invariant = { λ a. ArePending (map (λ queue. queue.items) a.pending) };
}

ghost use Rattle.std.specs.Prelude.{◌≡◌, ◌<◌, [], ◌∷◌, drop, slice_set};
ghost use Rattle.sg_wire.specs.Initiator.{initiator_count};
ghost use Rattle.sg_units.specs.Attentions.{ArePending, IsQueue, covers, is_covered, is_higher};
ghost use Rattle.sg_units.specs.Attentions.{oldest, pending_for, raised, with_condition};
ghost use Rattle.sg_units.specs.Attentions.{remaining, with_optional};
ghost use Rattle.sg_units.specs.PowerOn.{power_on_pending};
ghost use Rattle.sg_units.specs.Attentions.{without_attentions, without_condition, without_oldest};
ghost use Rattle.sg_units.specs.Raised.{raised_for_each};

impl Attentions {
    /// The queues after power on: only POWER ON is pending for each initiator.
    pub fn new() -> Attentions
        ensures pending { result ≡ power_on_pending }
        ensures limits { ArePending result }
    {
        Attentions {
            pending: array::from_fn(|_| power_on()),
        }
    }

    /// Establishes a condition for an initiator. It becomes the newest, unless it is pending already.
    /// The condition of a reset becomes the oldest, in place of those of lower precedence (SAM-5,
    /// 5.14).
    pub fn raise(&mut self, initiator: Initiator, condition: UnitAttention)
        ensures pending { self.new ≡ raised self.old initiator condition }
        ensures limits { ArePending self.new }
    {
        self.raise_at(usize::from(initiator.number()), Some(condition));
    }

    /// Establishes the conditions of a command, for each initiator.
    pub fn raise_for_each(&mut self, raised: &Raised)
        ensures pending { self.new ≡ raised_for_each self.old raised.now }
        ensures limits { ArePending self.new }
    {
        for number in 0..Initiator::COUNT {
            self.raise_at(number, raised.at(number));
        }
    }

    /// Establishes a condition, if any, for the initiator with a number.
    fn raise_at(&mut self, number: usize, condition: Option<UnitAttention>)
        requires { number < initiator_count }
        ensures pending { self.new ≡
            slice_set self.old number (with_optional (pending_for self.old number) condition) }
        ensures limits { ArePending self.new }
        ensures limits_before { ArePending self.old }
    {
        establish_optional(&mut self.pending[number], condition);
    }

    /// The oldest condition that is pending for an initiator.
    pub fn oldest(&self, initiator: Initiator) -> Option<UnitAttention>
        ensures value { result ≡ oldest self.now initiator }
        ensures limits { ArePending self.now }
    {
        let queue = &self.pending[usize::from(initiator.number())];
        queue.as_slice().first().copied()
    }

    /// Clears the oldest condition of an initiator. If none is pending, nothing changes.
    pub fn clear_oldest(&mut self, initiator: Initiator)
        ensures pending { self.new ≡ without_oldest self.old initiator }
        ensures limits { ArePending self.new }
    {
        remove_first(&mut self.pending[usize::from(initiator.number())]);
    }

    /// Clears one condition of an initiator. If it is not pending, nothing changes.
    pub fn clear_condition(&mut self, initiator: Initiator, condition: UnitAttention)
        ensures pending { self.new ≡ without_condition self.old initiator condition }
        ensures limits { ArePending self.new }
    {
        remove(
            &mut self.pending[usize::from(initiator.number())],
            condition,
        );
    }

    /// Clears all conditions of an initiator.
    pub fn clear(&mut self, initiator: Initiator)
        ensures pending { self.new ≡ without_attentions self.old initiator }
        ensures limits { ArePending self.new }
    {
        self.pending[usize::from(initiator.number())].clear();
    }

    /// Clears all conditions, and establishes POWER ON for each initiator, as a power cycle does.
    pub fn clear_to_power_on(&mut self)
        ensures pending { self.new ≡ power_on_pending }
        ensures limits { ArePending self.new }
    {
        *self = Attentions::new();
    }
}

fn power_on() -> ArrayVec<UnitAttention, { UnitAttention::COUNT }>
    ensures { result.items ≡ UnitAttention.PowerOn ∷ [] }
{
    let mut queue = ArrayVec::new();
    queue.push(UnitAttention::PowerOn);
    queue
}

/// Establishes a condition, if any, in a queue.
fn establish_optional(
    queue: &mut ArrayVec<UnitAttention, { UnitAttention::COUNT }>,
    condition: Option<UnitAttention>,
)
    requires { IsQueue queue.old.items }
    ensures { queue.new.items ≡ with_optional queue.old.items condition }
{
    if let Some(condition) = condition {
        establish(queue, condition);
    }
}

/// Establishes a condition in a queue, unless a pending one covers it. The condition of a reset
/// becomes the oldest, in place of those of lower precedence. Every other one becomes the newest.
fn establish(
    queue: &mut ArrayVec<UnitAttention, { UnitAttention::COUNT }>,
    condition: UnitAttention,
)
    requires { IsQueue queue.old.items }
    ensures { queue.new.items ≡ with_condition queue.old.items condition }
{
    if is_covered(queue.as_slice(), condition) {
        return;
    }
    if condition.is_reset() {
        queue.retain(|pending| !pending.is_reset());
        queue.insert(0, condition);
    } else {
        queue.push(condition);
    }
}

/// Removes a condition from a queue, if it is there.
fn remove(queue: &mut ArrayVec<UnitAttention, { UnitAttention::COUNT }>, condition: UnitAttention)
    ensures { queue.new.items ≡ remaining condition queue.old.items }
{
    queue.retain(|pending| *pending != condition);
}

/// Removes the first condition of a queue, if there is one.
fn remove_first(queue: &mut ArrayVec<UnitAttention, { UnitAttention::COUNT }>)
    ensures { queue.new.items ≡ drop 1 queue.old.items }
{
    let _ = queue.pop_at(0);
}

fn is_covered(queue: &[UnitAttention], condition: UnitAttention) -> bool
    ensures { result ≡ is_covered queue.now condition }
{
    queue.iter().any(|pending| covers(*pending, condition))
}

/// A pending condition says all that a new one would say: it is the same, or both are of resets and
/// the pending one has a higher precedence.
fn covers(pending: UnitAttention, condition: UnitAttention) -> bool
    ensures { result ≡ covers pending condition }
{
    pending == condition || is_higher(pending.reset_precedence(), condition.reset_precedence())
}

fn is_higher(precedence: Option<u8>, other: Option<u8>) -> bool
    ensures { result ≡ is_higher precedence other }
{
    match (precedence, other) {
        (Some(precedence), Some(other)) => precedence < other,
        _ => false,
    }
}
