// The records of a table in leaves, by index and by address. The leaves know how many addresses
// have data, and how many records were moved. The table counts visits and probes.
mod probed;
mod searching;
mod splicing;

ghost use Rattle.std.specs.Prelude.{◌≡◌, ◌+◌, ◌-◌, ◌^◌, ◌<◌, ◌≤◌, [], ◌∷◌, ◌++◌, length, map};
ghost use Rattle.std.specs.Prelude.{take, drop, insert, remove, slice_index_or, slice_set};
ghost use Rattle.std.specs.Prelude.{vec_capacity, IfOk};
ghost use Rattle.std.specs.List.{All};
ghost use Rattle.std.specs.List.{splice as splice_list};
ghost use Rattle.sg_table.specs.Leaves.{FitsLeaf, IsLeafOf, IsPlace, IsSpan, addresses};
ghost use Rattle.sg_table.specs.Leaves.{count_before, first_addresses, joined, leaf_at};
ghost use Rattle.sg_table.specs.Records.{data_in};

use crate::ghost_number::GhostNumber;
use crate::leaf::MAX_LEAF;
use crate::leaf_list::LeafList;
use crate::run::{Run, data_count};
use crate::table::MAX_RECORDS;
use arrayvec::ArrayVec;
use probed::Probed;
pub(crate) use searching::lower_bound;
pub(crate) use splicing::splice;
use std::alloc::{AllocError, Global};
use std::marker::Model;

/// The fewest records of a leaf, unless it is the only one.
pub(crate) const MIN_LEAF: usize = 128;

/// The most leaves of a table: as many as its records may come to need.
pub(crate) const MAX_LEAVES: usize = MAX_RECORDS as usize / MIN_LEAF + 1;

/// The most records of two leaves.
pub(crate) const TWO_LEAVES: usize = 2 * MAX_LEAF;

/// A leaf, by its index, and an offset in it.
#[derive(Clone, Copy)]
pub(crate) struct Place {
    pub(crate) leaf: usize,
    pub(crate) offset: usize,
}

/// A leaf, with the indexes of its records: from its first record to the index after its last
/// record.
#[derive(Clone, Copy)]
pub(crate) struct Span {
    pub(crate) leaf: usize,
    pub(crate) start: usize,
    pub(crate) end: usize,
}

/// A span without an index.
const NO_SPAN: Span = Span {
    leaf: 0,
    start: 0,
    end: 0,
};

impl Span {
    /// The place of an index in the leaf.
    fn place(self, index: usize) -> Place
        requires { self.start ≤ index }
        ensures { result ≡ record { leaf = self.leaf; offset = index - self.start } }
    {
        Place {
            leaf: self.leaf,
            offset: index - self.start,
        }
    }
}

/// The records of a table in leaves, with a directory of the first record of each leaf.
#[derive(Drop)]
pub(crate) struct Leaves {
    leaves: LeafList,
    /// The index of the first record of each leaf, and the number of records.
    starts: Vec<u32>,
    /// The address of the first record of each leaf, and 0 for a leaf without records.
    firsts: Vec<u64>,
    /// The leaf that was found last.
    recent: Span,
    /// The number of addresses of the records that have data.
    data_count: u64,
    moved: GhostNumber,
}

impl Model for Leaves {
    ghost use Rattle.std.specs.Prelude.{◌≡◌, ◌<◌, ◌≤◌, length, vec_capacity};
    ghost use Rattle.std.specs.List.{All};
    ghost use Rattle.sg_table.specs.Leaves.{LeafTable, FitsLeaf, IsDirectory, IsSpan, first_addresses};
    ghost use Rattle.sg_table.specs.Leaves.{joined};
    ghost use Rattle.sg_table.specs.Records.{FitCounts, data_in};
    ghost use Rattle.sg_table.specs.declared.leaves.TheConstants.{MAX_LEAVES};

    ghost Value = { LeafTable };

    ghost view = { λ l. record {
      leaves = l.leaves.leaves;
      capacity = l.leaves.capacity;
      moved = l.moved.value;
    } };

    ghost invariant = { λ l. IsDirectory l.leaves.leaves l.starts.items
        × (length l.leaves.leaves ≤ l.leaves.capacity)
        × (l.leaves.capacity < vec_capacity l.starts)
        × (l.leaves.capacity ≤ MAX_LEAVES)
        × All FitsLeaf l.leaves.leaves
        × (l.firsts.items ≡ first_addresses l.leaves.leaves)
        × (l.leaves.capacity ≤ vec_capacity l.firsts)
        × (l.recent.start < l.recent.end → IsSpan l.leaves.leaves l.recent)
        × All FitCounts l.leaves.leaves
        × (l.data_count ≡ data_in (joined l.leaves.leaves)) };
}

/// The directory of one leaf without records, with room for `count` leaves.
fn empty_directory(alloc: Global, count: usize) -> Result<Vec<u32>, AllocError>
    requires { count ≤ MAX_LEAVES }
    ensures starts { IfOk result (λ starts. starts.items ≡ 0 ∷ 0 ∷ []) }
    ensures room { IfOk result (λ starts. count < vec_capacity starts) }
{
    let mut starts = Vec::with_capacity(alloc, count + 1)?;
    starts.push(0)?;
    starts.push(0)?;
    Ok(starts)
}

/// Adds `more` to the numbers from an index on, and takes `less` off.
fn shift(starts: &mut [u32], from: usize, less: u32, more: u32)
    requires from { from ≤ length starts.old }
    requires less { All (λ start. less ≤ start) (drop from starts.old) }
    requires more { All (λ start. start - less + more < 2 ^ 32) (drop from starts.old) }
    ensures { starts.new
        ≡ take from starts.old ++ map (λ start. start - less + more) (drop from starts.old) }
{
    if less == more {
        return;
    }
    for start in &mut starts[from..] {
        *start = *start - less + more;
    }
}

impl Leaves {
    /// One leaf without records, with room for `count` leaves.
    ///
    /// # Errors
    /// The allocator refused memory.
    pub(crate) fn new(alloc: Global, count: usize) -> Result<Leaves, AllocError>
        requires { (1 ≤ count) × (count ≤ MAX_LEAVES) }
        ensures { IfOk result (λ l. l ≡ record { leaves = [] ∷ []; capacity = count; moved = 0 }) }
    {
        let starts = empty_directory(alloc, count)?;
        let mut firsts = Vec::with_capacity(alloc, count)?;
        firsts.push(0)?;
        let mut leaves = LeafList::new(alloc, count)?;
        leaves.open(0);
        Ok(Leaves {
            leaves,
            starts,
            firsts,
            recent: NO_SPAN,
            data_count: 0,
            moved: GhostNumber::zero(),
        })
    }

    /// The number of records.
    pub(crate) fn count(&self) -> usize
        ensures { result ≡ length (joined self.now.leaves) }
    {
        self.starts[self.starts.len() - 1] as usize
    }

    /// The number of addresses of all records that have data.
    pub(crate) fn data_count(&self) -> u64
        ensures { result ≡ data_in (joined self.now.leaves) }
    {
        self.data_count
    }

    /// The number of leaves.
    pub(crate) fn used(&self) -> usize
        ensures value { result ≡ length self.now.leaves }
        ensures not_empty { 0 < result }
        ensures capacity { result ≤ self.now.capacity }
        ensures fits { result ≤ MAX_LEAVES }
    {
        self.starts.len() - 1
    }

    /// The number of records of a leaf.
    pub(crate) fn len(&self, leaf: usize) -> usize
        requires { leaf < length self.now.leaves }
        ensures value { result ≡ length (leaf_at self.now.leaves leaf) }
        ensures fits { result ≤ MAX_LEAF }
        ensures used { length self.now.leaves ≤ MAX_LEAVES }
    {
        self.leaves.leaf(leaf).len()
    }

    /// The first addresses of all leaves except the first one, for a search.
    fn other_firsts(&self) -> Probed<'_, u64>
        ensures starts { result.starts ≡ drop 1 (first_addresses self.now.leaves) }
        ensures fresh { result.probes ≡ 0 }
        ensures not_empty { 1 ≤ length self.now.leaves }
        ensures fits { All FitsLeaf self.now.leaves }
    {
        Probed::new(&self.firsts[1..])
    }

    /// The records of a leaf, for a search.
    fn probed(&self, leaf: usize) -> Probed<'_, Run>
        requires { leaf < length self.now.leaves }
        ensures starts { result.starts ≡ addresses (leaf_at self.now.leaves leaf) }
        ensures fresh { result.probes ≡ 0 }
    {
        Probed::new(self.leaves.leaf(leaf).records())
    }

    /// The record at a place.
    pub(crate) fn record(&self, place: Place) -> Run
        requires leaf { place.leaf < length self.now.leaves }
        requires offset { place.offset < length (leaf_at self.now.leaves place.leaf) }
        ensures { slice_index_or (leaf_at self.now.leaves place.leaf) place.offset result ≡ result }
    {
        self.leaves.leaf(place.leaf).record(place.offset)
    }

    /// The leaf of the record at an index, or the last leaf, found by binary search.
    fn leaf_of(&self, index: usize) -> usize
        requires { index ≤ length (joined self.now.leaves) }
        ensures { IsLeafOf self.now.leaves index result }
    {
        let mut low = 0;
        let mut count = self.used();
        while 1 < count {
            let half = count / 2;
            count -= half;
            if self.starts[low + half] as usize <= index {
                low += half;
            }
        }
        low
    }

    /// A leaf with its indexes.
    fn span(&self, leaf: usize) -> Span
        requires { leaf < length self.now.leaves }
        ensures span { IsSpan self.now.leaves result }
        ensures leaf { result.leaf ≡ leaf }
    {
        Span {
            leaf,
            start: self.starts[leaf] as usize,
            end: self.starts[leaf + 1] as usize,
        }
    }

    /// A leaf with its indexes. Later calls will mostly look for records of this leaf.
    fn enter(&mut self, leaf: usize) -> Span
        requires { leaf < length self.old.leaves }
        ensures span { IsSpan self.old.leaves result }
        ensures leaf { result.leaf ≡ leaf }
        ensures leaves { self.new ≡ self.old }
    {
        self.recent = self.span(leaf);
        self.recent
    }

    /// The place of the record at an index, or the end of the last leaf.
    pub(crate) fn locate(&mut self, index: usize) -> Place
        requires { index ≤ length (joined self.old.leaves) }
        ensures place { IsPlace self.old.leaves index result }
        ensures within { index < length (joined self.old.leaves)
            → result.offset < length (leaf_at self.old.leaves result.leaf) }
        ensures leaves { self.new ≡ self.old }
    {
        let recent = self.recent;
        if recent.start <= index && index < recent.end {
            return recent.place(index);
        }
        let leaf = self.leaf_of(index);
        self.enter(leaf).place(index)
    }

    /// The place of an index where a record may end. It is in the first leaf from one on that has
    /// this place.
    pub(crate) fn locate_end(&self, leaf: usize, index: usize) -> Place
        requires leaf { leaf < length self.now.leaves }
        requires start { count_before self.now.leaves leaf ≤ index }
        requires end { index ≤ length (joined self.now.leaves) }
        ensures place { IsPlace self.now.leaves index result }
        ensures order { leaf ≤ result.leaf }
    {
        let mut last = leaf;
        while (self.starts[last + 1] as usize) < index {
            last += 1;
        }
        Place {
            leaf: last,
            offset: index - self.starts[last] as usize,
        }
    }

    /// Replaces the records of a leaf from one offset to another.
    pub(crate) fn edit(&mut self, leaf: usize, from: usize, to: usize, runs: &[Run])
        requires leaf { leaf < length self.old.leaves }
        requires range { (from ≤ to) × (to ≤ length (leaf_at self.old.leaves leaf)) }
        requires room { length (leaf_at self.old.leaves leaf) + length runs.now ≤ MAX_LEAF + (to - from) }
        requires count { length (joined self.old.leaves) + length runs.now ≤ MAX_RECORDS + (to - from) }
        ensures { self.new ≡ record self.old {
          leaves = slice_set self.old.leaves leaf
              (splice_list (leaf_at self.old.leaves leaf) from to runs.now);
          moved = self.old.moved + (length (leaf_at self.old.leaves leaf) - from)
              + (length (leaf_at self.old.leaves leaf) - to + length runs.now);
        } }
    {
        let before = self.leaves.leaf(leaf).len();
        let removed = data_count(&self.leaves.leaf(leaf).records()[from..to]);
        self.data_count = self.data_count - removed + data_count(runs);
        self.leaves.splice(leaf, from, to, runs);
        let after = self.leaves.leaf(leaf).len();
        self.moved = self.moved.increased(before - from).increased(after - from);
        shift(&mut self.starts, leaf + 1, before as u32, after as u32);
        self.firsts[leaf] = self.leaves.leaf(leaf).start();
        self.recent = NO_SPAN;
    }

    /// Adds a leaf without records at an index.
    pub(crate) fn open(&mut self, leaf: usize)
        requires leaf { leaf ≤ length self.old.leaves }
        requires room { length self.old.leaves < self.old.capacity }
        ensures { self.new ≡ record self.old { leaves = insert self.old.leaves leaf [] } }
    {
        self.leaves.open(leaf);
        let start = self.starts[leaf];
        let inserted = self.starts.insert(leaf, start);
        prove!(inserted.is_ok());
        let _ = inserted;
        let inserted = self.firsts.insert(leaf, 0);
        prove!(inserted.is_ok());
        let _ = inserted;
        self.recent = NO_SPAN;
    }

    /// Removes a leaf with its records.
    pub(crate) fn close(&mut self, leaf: usize)
        requires leaf { leaf < length self.old.leaves }
        requires others { 1 < length self.old.leaves }
        requires count { length (joined self.old.leaves) ≤ MAX_RECORDS }
        ensures { self.new ≡ record self.old { leaves = remove self.old.leaves leaf } }
    {
        let count = self.leaves.leaf(leaf).len();
        self.data_count -= data_count(self.leaves.leaf(leaf).records());
        shift(&mut self.starts, leaf + 1, count as u32, 0);
        self.starts.remove(leaf);
        self.firsts.remove(leaf);
        self.leaves.close(leaf);
        self.recent = NO_SPAN;
    }

    /// Appends the records of a leaf from an offset on to a list.
    pub(crate) fn copy(&mut self, leaf: usize, from: usize, copied: &mut ArrayVec<Run, TWO_LEAVES>)
        requires leaf { leaf < length self.old.leaves }
        requires offset { from ≤ length (leaf_at self.old.leaves leaf) }
        requires room { length copied.old.items + MAX_LEAF ≤ TWO_LEAVES }
        ensures copied { copied.new.items ≡ copied.old.items ++ drop from (leaf_at self.old.leaves leaf) }
        ensures fits { length copied.new.items ≤ length copied.old.items + MAX_LEAF }
        ensures used { length self.old.leaves ≤ MAX_LEAVES }
        ensures leaves { self.new ≡ record self.old {
          moved = self.old.moved + (length (leaf_at self.old.leaves leaf) - from);
        } }
    {
        let records = self.leaves.leaf(leaf).records();
        let extended = copied.try_extend_from_slice(&records[from..]);
        prove!(extended.is_ok());
        let _ = extended;
        self.moved = self.moved.increased(records.len() - from);
    }
}
