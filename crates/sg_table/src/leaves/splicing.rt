// Replacing records: leaves are cut, filled and balanced. A call moves few records, whatever the
// size of the table. This file knows nothing of addresses.
ghost use Rattle.std.specs.Prelude.{◌≡◌, ◌+◌, ◌-◌, ◌*◌, ◌/◌, ◌<◌, ◌≤◌, ◌++◌, [], ◌∷◌, length, take, drop};
ghost use Rattle.std.specs.List.{All};
ghost use Rattle.std.specs.List.{splice as splice_list};
ghost use Rattle.sg_table.specs.Leaves.{AreBalanced, AreFilledBut, ArePlaces, IsAppended, IsCut};
ghost use Rattle.sg_table.specs.Leaves.{IsFilled, IsSpliced, MovesAtMost};
ghost use Rattle.sg_table.specs.Leaves.{joined, leaf_at, level_bound, max_leaf, pair_at, replaced};
ghost use Rattle.sg_table.specs.Leaves.{triple_at};

use crate::leaf::MAX_LEAF;
use crate::leaves::{Leaves, MAX_LEAVES, MIN_LEAF, Place, TWO_LEAVES};
use crate::run::Run;
use crate::table::MAX_RECORDS;
use arrayvec::ArrayVec;

/// Replaces the records from one index to another.
pub(crate) fn splice(leaves: &mut Leaves, from: usize, to: usize, runs: &[Run])
    requires range { (from ≤ to) × (to ≤ length (joined leaves.old.leaves)) }
    requires balanced { AreBalanced leaves.old.leaves }

    // There is room for the records, in the leaves and in the numbers of the directory.
    requires room { length (joined leaves.old.leaves) + length runs.now
        < MIN_LEAF * leaves.old.capacity + (to - from) }
    requires count { length (joined leaves.old.leaves) ≤ MAX_RECORDS }
    requires new_count { length (joined leaves.old.leaves) + length runs.now ≤ MAX_RECORDS + (to - from) }

    ensures records { joined leaves.new.leaves ≡ splice_list (joined leaves.old.leaves) from to runs.now }
    ensures spliced { IsSpliced leaves.old leaves.new (length runs.now) }
{
    let start = leaves.locate(from);
    let end = leaves.locate_end(start.leaf, to);
    let behind = leaves.len(end.leaf) - end.offset;
    if start.leaf == end.leaf && start.offset + runs.len() + behind <= MAX_LEAF {
        leaves.edit(start.leaf, start.offset, end.offset, runs);
        balance(leaves, start.leaf);
    } else {
        replace(leaves, start, end, runs);
    }
}

/// Replaces the records from one place to another, with the leaves between.
fn replace(leaves: &mut Leaves, from: Place, to: Place, runs: &[Run])
    requires places { ArePlaces leaves.old.leaves from to }
    requires balanced { AreBalanced leaves.old.leaves }
    requires room { length (replaced leaves.old.leaves from to runs.now) < MIN_LEAF * leaves.old.capacity }
    requires count { length (joined leaves.old.leaves) ≤ MAX_RECORDS }
    requires new_count { length (replaced leaves.old.leaves from to runs.now) ≤ MAX_RECORDS }

    // The leaves are balanced again.
    ensures records { joined leaves.new.leaves ≡ replaced leaves.old.leaves from to runs.now }
    ensures spliced { IsSpliced leaves.old leaves.new (length runs.now) }
{
    let mut rest = ArrayVec::new();
    cut(leaves, from, to, &mut rest);
    let last = append(leaves, from.leaf, runs);
    let last = append(leaves, last, rest.as_slice());
    balance(leaves, last);
}

/// Removes the records from a place on to the end of a leaf. It first copies the records after
/// another place in that leaf to a list.
fn cut(leaves: &mut Leaves, from: Place, to: Place, rest: &mut ArrayVec<Run, TWO_LEAVES>)
    requires places { ArePlaces leaves.old.leaves from to }
    requires empty { rest.old.items ≡ [] }
    requires balanced { AreBalanced leaves.old.leaves }
    requires count { length (joined leaves.old.leaves) ≤ MAX_RECORDS }

    ensures rest { rest.new.items ≡ drop to.offset (leaf_at leaves.old.leaves to.leaf) }
    ensures fits { length rest.new.items ≤ MAX_LEAF }
    ensures leaves { IsCut leaves.old leaves.new from to }
{
    leaves.copy(to.leaf, to.offset, rest);
    close_behind(leaves, from.leaf, to.leaf);
    let len = leaves.len(from.leaf);
    leaves.edit(from.leaf, from.offset, len, &[]);
}

/// Removes the leaves after one up to another.
fn close_behind(leaves: &mut Leaves, first: usize, last: usize)
    requires leaves { (first ≤ last) × (last < length leaves.old.leaves) }
    requires count { length (joined leaves.old.leaves) ≤ MAX_RECORDS }
    ensures { leaves.new ≡ record leaves.old {
      leaves = take (first + 1) leaves.old.leaves ++ drop (last + 1) leaves.old.leaves;
    } }
{
    for _ in first..last {
        leaves.close(first + 1);
    }
}

/// Appends records to a leaf, and to new leaves after it if it is full. Returns the last leaf that
/// was written.
fn append(leaves: &mut Leaves, leaf: usize, runs: &[Run]) -> usize
    requires leaf { leaf < length leaves.old.leaves }
    requires filled { AreFilledBut leaves.old.leaves leaf }
    requires room { length (joined leaves.old.leaves) + length runs.now
        < MIN_LEAF * leaves.old.capacity }
    requires count { length (joined leaves.old.leaves) + length runs.now ≤ MAX_RECORDS }
    ensures { IsAppended leaves.old leaves.new leaf result runs.now }
{
    let mut last = leaf;
    let mut done = 0;
    while done < runs.len() {
        last = with_room(leaves, last);
        let len = leaves.len(last);
        let end = runs.len().min(done + (MAX_LEAF - len));
        leaves.edit(last, len, len, &runs[done..end]);
        done = end;
    }
    last
}

/// A leaf, or a new one after it if the leaf is full.
fn with_room(leaves: &mut Leaves, leaf: usize) -> usize
    requires leaf { leaf < length leaves.old.leaves }
    requires filled { AreFilledBut leaves.old.leaves leaf }
    requires room { length (joined leaves.old.leaves) < MIN_LEAF * leaves.old.capacity }
    ensures appended { IsAppended leaves.old leaves.new leaf result [] }
    ensures not_full { length (leaf_at leaves.new.leaves result) < MAX_LEAF }
{
    if leaves.len(leaf) < MAX_LEAF {
        return leaf;
    }
    leaves.open(leaf + 1);
    leaf + 1
}

/// Takes a leaf together with its neighbour if the leaf has too few records.
fn balance(leaves: &mut Leaves, leaf: usize)
    requires leaf { leaf < length leaves.old.leaves }
    requires filled { AreFilledBut leaves.old.leaves leaf }
    requires count { length (joined leaves.old.leaves) ≤ MAX_RECORDS }
    ensures records { joined leaves.new.leaves ≡ joined leaves.old.leaves }
    ensures balanced { AreBalanced leaves.new.leaves }
    ensures moves { MovesAtMost leaves.old leaves.new level_bound }
{
    if leaves.len(leaf) >= MIN_LEAF {
        return;
    }
    if leaves.used() == 1 {
        return;
    }
    level(leaves, leaf.saturating_sub(1));
}

/// Gives each of two neighbours half of their records if these are too many for one leaf. Otherwise
/// the two and the next leaf become two leaves, because the next new record would divide a full leaf
/// again. If there is no next leaf, the two become one.
fn level(leaves: &mut Leaves, leaf: usize)
    requires leaf { leaf + 1 < length leaves.old.leaves }
    requires pair { MIN_LEAF
        ≤ length (leaf_at leaves.old.leaves leaf) + length (leaf_at leaves.old.leaves (leaf + 1)) }
    requires before { All IsFilled (take leaf leaves.old.leaves) }
    requires behind { All IsFilled (drop (leaf + 2) leaves.old.leaves) }
    requires count { length (joined leaves.old.leaves) ≤ MAX_RECORDS }

    // The leaves keep all records, and each leaf has enough of them.
    ensures records { joined leaves.new.leaves ≡ joined leaves.old.leaves }
    ensures filled { All IsFilled leaves.new.leaves }
    ensures moves { MovesAtMost leaves.old leaves.new level_bound }
{
    let mut records = ArrayVec::new();
    gather(leaves, leaf, &mut records);
    let used = leaves.used();
    if records.len() > MAX_LEAF {
        halve(leaves, leaf, records.as_slice());
    } else if leaf + 2 < used {
        unite(leaves, leaf, &mut records);
    } else {
        merge(leaves, leaf, records.as_slice());
    }
}

/// Copies the records of two neighbours to a list.
fn gather(leaves: &mut Leaves, leaf: usize, records: &mut ArrayVec<Run, TWO_LEAVES>)
    requires leaf { leaf + 1 < length leaves.old.leaves }
    requires empty { records.old.items ≡ [] }
    ensures records { records.new.items ≡ pair_at leaves.old.leaves leaf }
    ensures leaves { leaves.new ≡ record leaves.old {
      moved = leaves.old.moved + length (pair_at leaves.old.leaves leaf);
    } }
{
    leaves.copy(leaf, 0, records);
    leaves.copy(leaf + 1, 0, records);
}

/// Makes one leaf of two neighbours. The caller passes their records.
fn merge(leaves: &mut Leaves, leaf: usize, records: &[Run])
    requires leaf { leaf + 1 < length leaves.old.leaves }
    requires records { records.now ≡ pair_at leaves.old.leaves leaf }
    requires fits { length records.now ≤ MAX_LEAF }
    requires count { length (joined leaves.old.leaves) ≤ MAX_RECORDS }
    ensures leaves { leaves.new.leaves
        ≡ take leaf leaves.old.leaves ++ records.now ∷ drop (leaf + 2) leaves.old.leaves }
    ensures moves { MovesAtMost leaves.old leaves.new (2 * length records.now) }
{
    let left = leaves.len(leaf);
    leaves.close(leaf + 1);
    leaves.edit(leaf, 0, left, records);
}

/// Makes two leaves of three neighbours. The caller passes the records of the first two, which fit one
/// leaf.
fn unite(leaves: &mut Leaves, leaf: usize, records: &mut ArrayVec<Run, TWO_LEAVES>)
    requires leaf { leaf + 2 < length leaves.old.leaves }
    requires used { length leaves.old.leaves ≤ MAX_LEAVES }
    requires records { records.old.items ≡ pair_at leaves.old.leaves leaf }
    requires fits { length records.old.items ≤ MAX_LEAF }
    requires count { length (joined leaves.old.leaves) ≤ MAX_RECORDS }
    ensures leaves { let all = triple_at leaves.old.leaves leaf in let half = length all / 2 in
        leaves.new.leaves ≡ take leaf leaves.old.leaves
        ++ take half all ∷ drop half all ∷ drop (leaf + 3) leaves.old.leaves }
    ensures moves { MovesAtMost leaves.old leaves.new (5 * max_leaf) }
{
    leaves.copy(leaf + 2, 0, records);
    leaves.close(leaf + 2);
    halve(leaves, leaf, records.as_slice());
}

/// Gives two neighbours half of some records each, in place of their own.
fn halve(leaves: &mut Leaves, leaf: usize, records: &[Run])
    requires leaf { leaf + 1 < length leaves.old.leaves }
    requires records { length (pair_at leaves.old.leaves leaf) ≤ length records.now }
    requires fits { length records.now ≤ TWO_LEAVES }
    requires count { length (joined leaves.old.leaves) + length records.now
        ≤ MAX_RECORDS + length (pair_at leaves.old.leaves leaf) }
    ensures leaves { let half = length records.now / 2 in leaves.new.leaves
        ≡ take leaf leaves.old.leaves
        ++ take half records.now ∷ drop half records.now ∷ drop (leaf + 2) leaves.old.leaves }
    ensures moves { MovesAtMost leaves.old leaves.new (2 * length records.now) }
{
    let half = records.len() / 2;
    let left = leaves.len(leaf);
    let right = leaves.len(leaf + 1);
    // The directory has room for no record that two leaves have at once.
    leaves.edit(leaf + 1, 0, right, &[]);
    leaves.edit(leaf, 0, left, &records[..half]);
    leaves.edit(leaf + 1, 0, 0, &records[half..]);
}
