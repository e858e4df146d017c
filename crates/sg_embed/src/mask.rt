// The mask of a set of initiators, in which initiator i has bit i.
ghost use Rattle.std.specs.Prelude.{◌≡◌, ◌<◌, ◌≤◌, Some};
ghost use Rattle.sg_wire.specs.Initiator.{initiator_count};
ghost use Rattle.sg_units.specs.Initiators.{is_member};
ghost use Rattle.sg_run.specs.WellFormed.{AreMembers};
ghost use Rattle.sg_embed.specs.Fault.{mask_of_all, own_initiators};

use sg_units::Initiators;
use sg_wire::Initiator;

/// The mask of some initiators.
pub(crate) fn mask_of(initiators: &Initiators) -> u64
    requires { AreMembers initiators.now }
    ensures { own_initiators initiator_count result ≡ Some initiators.now }
{
    let mut mask = 0;
    let mut number = Initiator::COUNT;
    while number > 0 {
        number -= 1;
        mask = 2 * mask + u64::from(is_member(initiators, number));
    }
    mask
}

/// The initiators of a mask, of a disk that has `count` of them. All 64 bits stand for all that it has. None
/// if another mask has the bit of one that it does not have.
pub(crate) fn own_initiators(count: u8, mask: u64) -> Option<Initiators>
    requires { count ≤ initiator_count }
    ensures { result ≡ own_initiators count mask }
{
    let all = mask_of_all(count);
    if mask == u64::MAX {
        Some(Initiators::of_mask(all))
    } else if mask <= all {
        Some(Initiators::of_mask(mask))
    } else {
        None
    }
}

/// The mask with the bits of a number of initiators, from 0 on.
fn mask_of_all(count: u8) -> u64
    requires { count ≤ initiator_count }
    ensures { result ≡ mask_of_all count }
{
    if usize::from(count) < Initiator::COUNT {
        (1 << count) - 1
    } else {
        u64::MAX
    }
}

/// The initiator with a number is one of them.
fn is_member(initiators: &Initiators, number: usize) -> bool
    requires { number < initiator_count }
    ensures { result ≡ is_member initiators.now number }
{
    match Initiator::new(number as u8) {
        Some(initiator) => initiators.contains(initiator),
        None => false,
    }
}
