// The search for an address: by the first addresses for its leaf, and then in the leaf. The search
// reads addresses only through `Probed`.
ghost use Rattle.std.specs.Prelude.{◌≡◌, ◌≤◌, length};
ghost use Rattle.sg_table.specs.Leaves.{AreBalanced, joined};
ghost use Rattle.sg_table.specs.Records.{IsSorted, IsLowerBound};
ghost use Rattle.sg_table.specs.Search.{AreRising, CostsHalving, CostsSearch, IsFirstFrom};

use crate::leaves::Leaves;
use crate::leaves::probed::{HasStart, Probed};
use crate::table::MAX_RECORDS;

/// The end of a search, and the number of addresses that it compared.
#[derive(Clone, Copy)]
pub(crate) struct Found {
    pub(crate) index: usize,
    pub(crate) probes: u64,
}

/// The index of the first record that is not before an address.
pub(crate) fn lower_bound(leaves: &mut Leaves, address: u64) -> Found
    requires sorted { IsSorted (joined leaves.old.leaves) }
    requires balanced { AreBalanced leaves.old.leaves }
    requires count { length (joined leaves.old.leaves) ≤ MAX_RECORDS }
    ensures index { IsLowerBound (joined leaves.old.leaves) result.index address }
    ensures search { CostsSearch (length (joined leaves.old.leaves)) result.probes }
    ensures leaves { leaves.new ≡ leaves.old }
{
    let mut firsts = leaves.other_firsts();
    let leaf = search(&mut firsts, address);
    let mut records = leaves.probed(leaf);
    let offset = search(&mut records, address);
    let probes = firsts.probes() + records.probes();
    let span = leaves.enter(leaf);
    Found {
        index: span.start + offset,
        probes,
    }
}

/// The index of the first start that is not before an address.
fn search<T: HasStart>(starts: &mut Probed<'_, T>, address: u64) -> usize
    requires fresh { starts.old.probes ≡ 0 }
    requires rising { AreRising starts.old.starts }
    ensures index { IsFirstFrom starts.old.starts result address }
    ensures halving { CostsHalving (length starts.old.starts) starts.new.probes }
{
    let mut low = 0;
    let mut high = starts.len();
    while low < high {
        let middle = low + (high - low) / 2;
        if starts.start(middle) < address {
            low = middle + 1;
        } else {
            high = middle;
        }
    }
    low
}
