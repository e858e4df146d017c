// Leaps: from a slot over jumps to a later slot of its chain. A walk takes leaps, then jumps, then
// links.
ghost use Rattle.std.specs.Prelude.{◌≡◌, ℕ, ◌+◌, ◌*◌, ◌<◌, ◌≤◌, List, length, slice_index, sum};
ghost use Rattle.sg_pool.specs.Chains.{chain, slot_after, AreBelow};
ghost use Rattle.sg_pool.specs.Jumps.{segment, span, AreJumps, AreLeaps, AreLeapsAhead, AreLeapsOver};

use crate::jumps::{Jumps, SEGMENT, Walk, step};

/// The most links that a leap goes over.
const LEAP: u32 = SEGMENT * SEGMENT;

/// At most one leap from each slot, and at most one leap over each jump.
#[derive(Drop)]
pub(crate) struct Leaps {
    /// The slot whose leap goes over the jump of this slot, if there is such a leap.
    pub(crate) owner: Vec<u16>,
    /// The number of jumps that the leap of this slot goes over, or 0 if it has no leap.
    pub(crate) count: Vec<u8>,
    /// The slot that the leap of this slot comes to.
    pub(crate) landing: Vec<u16>,
    /// The number of links that the leap of this slot goes over.
    pub(crate) reach: Vec<u16>,
}

/// The number of links that the jump of a slot goes over, or 0 if there is no such slot.
fn jump_at(jumps: &Jumps, slot: u16) -> u8
    ensures { result ≡ slice_index jumps.now.count.items slot }
{
    if (slot as usize) < jumps.count.len() {
        return jumps.count[slot as usize];
    }
    0
}

/// Whether a leap over `laid` jumps ends before the jump of a slot, because another leap goes over
/// that jump. The new leap takes the place of a leap that begins at the slot, if it can go over all
/// of its jumps. So small leaps, which changes of links leave behind, are joined again.
fn is_blocked(owner: &[u16], count: &[u8], slot: u16, laid: u8) -> bool
    requires slot { slot < length owner.now }
    requires counts { length count.now ≡ length owner.now }
    requires within { slice_index owner.now slot < length owner.now }
{
    let leaper = owner[slot as usize];
    let jumps = u32::from(count[leaper as usize]);
    jumps != 0 && (leaper != slot || u32::from(laid) + jumps > SEGMENT)
}

/// Goes over the jumps from a slot on, and lays a leap over them, unless a jump is missing. It ends
/// before a jump that another leap goes over, unless it can take that leap's place. It counts each
/// jump that it read.
fn lay_leap(
    jumps: &Jumps,
    owner: &mut [u16],
    count: &mut [u8],
    landing: &mut [u16],
    reach: &mut [u16],
    first: u16,
) -> Walk
    requires leaps { AreLeapsOver jumps.now.count.items jumps.now.target.items
        owner.old count.old landing.old reach.old }
    requires jumps { length jumps.now.count.items ≡ length jumps.now.target.items }
    requires short { (s : ℕ) → slice_index jumps.now.count.items s ≤ segment }
    requires first { first < length jumps.now.target.items }
    ensures leaps { AreLeapsOver jumps.now.count.items jumps.now.target.items
        owner.new count.new landing.new reach.new }

    // It comes to the slot after the jumps that it read, if it laid a leap or not.
    ensures slot { 0 < result.steps → result.slot ≡ slot_after jumps.now.target.items first result.steps }
    ensures passed { 0 < result.steps
        → result.passed ≡ span jumps.now.count.items jumps.now.target.items first result.steps }
    ensures live { (j : ℕ) → j < result.steps
        → 0 < slice_index jumps.now.count.items (slot_after jumps.now.target.items first j) }
    ensures within { (result.steps ≤ result.passed) × (result.passed ≤ LEAP) }
{
    if first == 0 {
        return Walk {
            slot: 0,
            passed: 0,
            steps: 0,
        };
    }
    let mut slot = first;
    let mut laid = 0;
    let mut passed = 0;
    for _i in 0..SEGMENT {
        let links = jump_at(jumps, slot);
        if links == 0 {
            return Walk {
                slot,
                passed: u32::from(passed),
                steps: u32::from(laid),
            };
        }
        if is_blocked(owner, count, slot, laid) {
            break;
        }
        count[owner[slot as usize] as usize] = 0;
        owner[slot as usize] = first;
        slot = jumps.target[slot as usize];
        laid += 1;
        passed += u16::from(links);
    }
    if laid > 1 {
        count[first as usize] = laid;
        landing[first as usize] = slot;
        reach[first as usize] = passed;
    }
    Walk {
        slot,
        passed: u32::from(passed),
        steps: u32::from(laid),
    }
}

/// The number of links that the leap of a slot goes over, or 0 if it has no leap or goes over more
/// than `left` links.
fn leap_within(leaps: &Leaps, slot: u16, left: u32) -> u32
    requires slot { slot < length leaps.now.count.items }
    requires reach { length leaps.now.reach.items ≡ length leaps.now.count.items }
    ensures leap { 0 < result → (0 < slice_index leaps.now.count.items slot)
        × (result ≡ slice_index leaps.now.reach.items slot) × (result ≤ left) }
    ensures all { 0 < slice_index leaps.now.count.items slot
        → slice_index leaps.now.reach.items slot ≤ left
        → result ≡ slice_index leaps.now.reach.items slot }
{
    if leaps.count[slot as usize] == 0 {
        return 0;
    }
    let reach = u32::from(leaps.reach[slot as usize]);
    if reach > left { 0 } else { reach }
}

/// Takes a step along a chain of which `left` links are left. It goes over the leap of the slot, or
/// over the jumps ahead as it lays a leap over them, or it is the step that `step` takes.
fn stride(next: &[u16], jumps: &mut Jumps, leaps: &mut Leaps, slot: u16, left: u32) -> Walk
    requires jumps { AreJumps next.now jumps.old }
    requires leaps { AreLeaps jumps.old leaps.old }
    requires below { AreBelow (length next.now) (chain next.now slot left) }
    requires not_empty { 0 < left }
    ensures jumps { AreJumps next.now jumps.new }
    ensures leaps { AreLeaps jumps.new leaps.new }
    ensures slot { result.slot ≡ slot_after next.now slot result.passed }
    ensures passed { (0 < result.passed) × (result.passed ≤ left) }
    ensures steps { result.steps ≤ result.passed }

    // A leap, or a jump of which too few links for a leap are left, is one step, and lays nothing.
    ensures leap { 0 < slice_index leaps.old.count.items slot
        → 0 < slice_index leaps.old.reach.items slot
        → slice_index leaps.old.reach.items slot ≤ left
        → (result.passed ≡ slice_index leaps.old.reach.items slot) × (result.steps ≡ 1)
        × (jumps.new ≡ jumps.old) × (leaps.new ≡ leaps.old) }
    ensures jump { left < LEAP
        → (0 < slice_index leaps.old.count.items slot → left < slice_index leaps.old.reach.items slot)
        → 0 < slice_index jumps.old.count.items slot
        → slice_index jumps.old.count.items slot ≤ left
        → (result.passed ≡ slice_index jumps.old.count.items slot) × (result.steps ≡ 1)
        × (jumps.new ≡ jumps.old) × (leaps.new ≡ leaps.old) }
{
    let reach = leap_within(leaps, slot, left);
    if reach > 0 {
        return Walk {
            slot: leaps.landing[slot as usize],
            passed: reach,
            steps: 1,
        };
    }
    if left < LEAP {
        return step(next, jumps, slot, left);
    }
    let walk = lay_leap(
        jumps,
        &mut leaps.owner,
        &mut leaps.count,
        &mut leaps.landing,
        &mut leaps.reach,
        slot,
    );
    if walk.steps > 0 {
        return walk;
    }
    step(next, jumps, slot, left)
}

/// The slot that is `count` links after another.
fn follow_links(next: &[u16], first: u16, count: u32) -> u16
    requires { AreBelow (length next.now) (chain next.now first count) }
    ensures { result ≡ slot_after next.now first count }
{
    let mut slot = first;
    for _i in 0..count {
        slot = next[slot as usize];
    }
    slot
}

/// Walks along `count` links of a chain.
// It looks for no jump over the last links: there are too few to lay one.
pub(crate) fn walk(
    next: &[u16],
    jumps: &mut Jumps,
    leaps: &mut Leaps,
    first: u16,
    count: u32,
) -> Walk
    requires jumps { AreJumps next.now jumps.old }
    requires leaps { AreLeaps jumps.old leaps.old }
    requires below { AreBelow (length next.now) (chain next.now first count) }
    ensures jumps { AreJumps next.now jumps.new }
    ensures leaps { AreLeaps jumps.new leaps.new }
    ensures slot { result.slot ≡ slot_after next.now first count }
    ensures passed { result.passed ≡ count }

    // A step passes a link at least. If there are leaps all the way, each is one step, and there are
    // at most 64 jumps and 64 links after the last one that it takes.
    ensures steps { result.steps ≤ count }
    ensures few { (ahead : List ℕ)
        → AreLeapsAhead next.now leaps.old.count.items leaps.old.reach.items first ahead
        → count ≤ sum ahead → result.steps ≤ length ahead + 2 * segment }
{
    let mut slot = first;
    let mut left = count;
    let mut steps = 0;
    while left >= SEGMENT {
        let taken = stride(next, jumps, leaps, slot, left);
        slot = taken.slot;
        left -= taken.passed;
        steps += taken.steps;
    }
    Walk {
        slot: follow_links(next, slot, left),
        passed: count,
        steps: steps + left,
    }
}
