// Jumps: from a slot over the next links of its chain to a later slot. A walk lays them.
ghost use Rattle.std.specs.Prelude.{◌≡◌, ◌<◌, ◌≤◌, length, replicate, slice_index, IfOk};
ghost use Rattle.sg_pool.specs.Chains.{chain, slot_after, AreBelow};
ghost use Rattle.sg_pool.specs.Jumps.{segment, AreJumps, AreJumpsOver, KeepLeaps};

use std::alloc::{AllocError, Global};

/// The number of links that a jump goes over, and the number of jumps that a leap goes over.
pub(crate) const SEGMENT: u32 = 64;

/// At most one jump from each slot, and at most one jump over each link.
#[derive(Drop)]
pub(crate) struct Jumps {
    /// The slot whose jump goes over the link of this slot, if there is such a jump.
    pub(crate) owner: Vec<u16>,
    /// The number of links that the jump of this slot goes over, or 0 if it has no jump.
    pub(crate) count: Vec<u8>,
    /// The slot that the jump of this slot comes to.
    pub(crate) target: Vec<u16>,
}

/// What a walk along a chain did.
#[derive(Drop)]
pub(crate) struct Walk {
    /// The slot that it came to.
    pub(crate) slot: u16,
    /// The number of links that it passed.
    pub(crate) passed: u32,
    /// The number of steps: each is a leap, a jump or a link.
    pub(crate) steps: u32,
}

/// `count` numbers of slots or of links, each 0.
pub(crate) fn zero_numbers(alloc: Global, count: u32) -> Result<Vec<u16>, AllocError>
    ensures { IfOk result (λ zeros. zeros.items ≡ replicate count 0) }
{
    vec![in alloc; 0; count as usize]
}

/// `count` lengths, each 0.
pub(crate) fn zero_lengths(alloc: Global, count: u32) -> Result<Vec<u8>, AllocError>
    ensures { IfOk result (λ zeros. zeros.items ≡ replicate count 0) }
{
    vec![in alloc; 0; count as usize]
}

/// Lays a jump from a slot over its next `limit` links. It ends before a link that another jump
/// goes over. The result is the number of links that it goes over.
fn lay(
    next: &[u16],
    owner: &mut [u16],
    jump: &mut [u8],
    target: &mut [u16],
    first: u16,
    limit: u32,
) -> u32
    requires jumps { AreJumpsOver next.now owner.old jump.old target.old }
    requires below { AreBelow (length next.now) (chain next.now first limit) }
    requires first { first < length next.now }
    requires limit { limit ≤ segment }
    ensures jumps { AreJumpsOver next.now owner.new jump.new target.new }
    ensures within { result ≤ limit }
    ensures laid { 0 < result → slice_index jump.new first ≡ result }
    ensures leaps { KeepLeaps jump.old target.old jump.new target.new }
{
    // Slot 0 lays no jump, because an owner of 0 means that there is none.
    if first == 0 {
        return 0;
    }
    let mut slot = first;
    let mut laid = 0;
    for _i in 0..limit {
        if jump[owner[slot as usize] as usize] != 0 {
            break;
        }
        owner[slot as usize] = first;
        slot = next[slot as usize];
        laid += 1;
    }
    if laid > 0 {
        jump[first as usize] = laid as u8;
        target[first as usize] = slot;
    }
    laid
}

/// The length of a jump that is to be laid if `left` links are left: a whole segment, or none.
fn whole(left: u32) -> u32
    ensures left { result ≤ left }
    ensures segment { result ≤ segment }
{
    if left < SEGMENT { 0 } else { SEGMENT }
}

/// The number of links that the jump of a slot goes over, or 0 if it has no jump or goes over more
/// than `left` links.
fn jump_within(jumps: &Jumps, slot: u16, left: u32) -> u32
    requires slot { slot < length jumps.now.count.items }
    ensures jump { 0 < result → (result ≡ slice_index jumps.now.count.items slot) × (result ≤ left) }
    ensures all { slice_index jumps.now.count.items slot ≤ left
        → result ≡ slice_index jumps.now.count.items slot }
{
    let links = u32::from(jumps.count[slot as usize]);
    if links > left { 0 } else { links }
}

/// Takes a step along a chain of which `left` links are left. It goes over the jump of the slot, or
/// over one that it lays, or over one link. It counts each link that it read to lay a jump.
pub(crate) fn step(next: &[u16], jumps: &mut Jumps, slot: u16, left: u32) -> Walk
    requires jumps { AreJumps next.now jumps.old }
    requires below { AreBelow (length next.now) (chain next.now slot left) }
    requires not_empty { 0 < left }
    ensures jumps { AreJumps next.now jumps.new }
    ensures slot { result.slot ≡ slot_after next.now slot result.passed }
    ensures passed { (0 < result.passed) × (result.passed ≤ left) }
    ensures steps { result.steps ≤ result.passed }
    ensures leaps { KeepLeaps jumps.old.count.items jumps.old.target.items
        jumps.new.count.items jumps.new.target.items }
    ensures jump { 0 < slice_index jumps.old.count.items slot
        → slice_index jumps.old.count.items slot ≤ left
        → (result.passed ≡ slice_index jumps.old.count.items slot) × (result.steps ≡ 1)
        × (jumps.new ≡ jumps.old) }
{
    let links = jump_within(jumps, slot, left);
    if links > 0 {
        return Walk {
            slot: jumps.target[slot as usize],
            passed: links,
            steps: 1,
        };
    }
    let laid = lay(
        next,
        &mut jumps.owner,
        &mut jumps.count,
        &mut jumps.target,
        slot,
        whole(left),
    );
    if laid > 0 {
        return Walk {
            slot: jumps.target[slot as usize],
            passed: laid,
            steps: laid,
        };
    }
    Walk {
        slot: next[slot as usize],
        passed: 1,
        steps: 1,
    }
}
