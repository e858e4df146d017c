// Changes of a disk's blocks, by the calls of its store.
ghost use Rattle.std.specs.Prelude.{◌≡◌, ◌+◌, IfNone, IfSome, None, Some, nat_le};
ghost use Rattle.sg_changes.specs.Change.{anchored, filled, grown, unmapped, written};

use sg_store::{BLOCK_LENGTH, MAX_CAPACITY, Store};
use sg_wire::Extent;

/// Replaces the blocks of an extent by joined blocks. None if the change does not apply.
pub(crate) fn write<S: Store>(
    store: &mut S,
    capacity: u64,
    extent: Extent,
    blocks: &[u8],
) -> Option<()>
    requires { capacity ≡ (S.disk store.old).capacity }
    ensures some { IfSome result (λ _.
        written (S.disk store.old) extent blocks.now ≡ Some (S.disk store.new)) }
    ensures none { IfNone result (written (S.disk store.old) extent blocks.now ≡ None) }
    ensures capacity { (S.disk store.new).capacity ≡ capacity }
    ensures pool { (S.disk store.new).pool ≡ (S.disk store.old).pool }
{
    let is_whole = blocks.len() == BLOCK_LENGTH * extent.count as usize;
    if !has_range(capacity, extent.lba, u64::from(extent.count)) || !is_whole {
        return None;
    }
    store.restart_counts();
    store.write(extent.lba, extent.count, blocks).ok()
}

/// Replaces each block of an extent by one block. None if the change does not apply.
pub(crate) fn fill<S: Store>(
    store: &mut S,
    capacity: u64,
    extent: Extent,
    block: &[u8; BLOCK_LENGTH],
) -> Option<()>
    requires { capacity ≡ (S.disk store.old).capacity }
    ensures some { IfSome result (λ _.
        filled (S.disk store.old) extent block.now ≡ Some (S.disk store.new)) }
    ensures none { IfNone result (filled (S.disk store.old) extent block.now ≡ None) }
    ensures capacity { (S.disk store.new).capacity ≡ capacity }
    ensures pool { (S.disk store.new).pool ≡ (S.disk store.old).pool }
{
    if !has_range(capacity, extent.lba, u64::from(extent.count)) {
        return None;
    }
    store.restart_counts();
    store.fill(extent.lba, extent.count, block).ok()
}

/// Unmaps the addresses from one on. None if the change does not apply.
pub(crate) fn unmap<S: Store>(store: &mut S, capacity: u64, lba: u64, count: u64) -> Option<()>
    requires { capacity ≡ (S.disk store.old).capacity }
    ensures some { IfSome result (λ _.
        unmapped (S.disk store.old) lba count ≡ Some (S.disk store.new)) }
    ensures none { IfNone result (unmapped (S.disk store.old) lba count ≡ None) }
    ensures capacity { (S.disk store.new).capacity ≡ capacity }
    ensures pool { (S.disk store.new).pool ≡ (S.disk store.old).pool }
{
    if !has_range(capacity, lba, count) {
        return None;
    }
    store.restart_counts();
    store.unmap(lba, count);
    Some(())
}

/// Anchors the addresses of an extent. None if the change does not apply.
pub(crate) fn anchor<S: Store>(store: &mut S, capacity: u64, extent: Extent) -> Option<()>
    requires { capacity ≡ (S.disk store.old).capacity }
    ensures some { IfSome result (λ _.
        anchored (S.disk store.old) extent ≡ Some (S.disk store.new)) }
    ensures none { IfNone result (anchored (S.disk store.old) extent ≡ None) }
    ensures capacity { (S.disk store.new).capacity ≡ capacity }
    ensures pool { (S.disk store.new).pool ≡ (S.disk store.old).pool }
{
    if !has_range(capacity, extent.lba, u64::from(extent.count)) {
        return None;
    }
    store.restart_counts();
    store.anchor(extent.lba, extent.count).ok()
}

/// Gives a disk more addresses. None if the change does not apply.
pub(crate) fn grow<S: Store>(store: &mut S, old: u64, capacity: u64) -> Option<()>
    requires { old ≡ (S.disk store.old).capacity }
    ensures some { IfSome result (λ _.
        grown (S.disk store.old) capacity ≡ Some (S.disk store.new)) }
    ensures none { IfNone result (grown (S.disk store.old) capacity ≡ None) }
    ensures capacity { IfSome result (λ _. (S.disk store.new).capacity ≡ capacity) }
    ensures pool { (S.disk store.new).pool ≡ (S.disk store.old).pool }
    ensures same { IfNone result (S.disk store.new ≡ S.disk store.old) }
{
    if capacity < old || capacity > MAX_CAPACITY {
        return None;
    }
    store.grow(capacity);
    Some(())
}

/// Returns `true` if a range is on a disk.
fn has_range(capacity: u64, lba: u64, count: u64) -> bool
    ensures { result ≡ nat_le (lba + count) capacity }
{
    match lba.checked_add(count) {
        Some(end) => end <= capacity,
        None => false,
    }
}
