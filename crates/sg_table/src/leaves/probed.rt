// Addresses that only a counting call can compare. This file knows no leaf and no table.
ghost use Rattle.std.specs.Prelude.{◌≡◌, ℕ, ◌+◌, ◌<◌, length, map};
ghost use Rattle.sg_table.specs.Search.{address_at};

use crate::run::Run;
use std::marker::Model;

/// An item that begins at an address.
pub(crate) trait HasStart {
    ghost start_of: { Self → ℕ };

    /// The first address.
    fn start(&self) -> u64
        ensures { result ≡ start_of self.now };
}

impl HasStart for Run {
    ghost start_of = { λ run. run.start };

    fn start(&self) -> u64 {
        self.start
    }
}

/// An address by itself, in place of the record that begins there.
impl HasStart for u64 {
    ghost start_of = { λ address. address };

    fn start(&self) -> u64 {
        *self
    }
}

/// Starts in a row for a search, and the number of starts that it compared. Only `Probed::start`
/// reads one.
#[derive(Drop)]
pub(crate) struct Probed<'a, T: HasStart> {
    items: &'a [T],
    probes: u64,
}

impl<'a, T: HasStart> Model for Probed<'a, T> {
    ghost use Rattle.std.specs.Prelude.{map};
    ghost use Rattle.sg_table.specs.Search.{ProbedStarts};

    ghost Value = { ProbedStarts };

    ghost view = { λ p. record { starts = map T.start_of p.items.now; probes = p.probes } };
}

impl<'a, T: HasStart> Probed<'a, T> {
    /// Starts before the first comparison.
    pub(crate) fn new(items: &'a [T]) -> Probed<'a, T>
        ensures { result ≡ record { starts = map T.start_of items.now; probes = 0 } }
    {
        Probed { items, probes: 0 }
    }

    /// The number of starts.
    pub(crate) fn len(&self) -> usize
        ensures { result ≡ length self.now.starts }
    {
        self.items.len()
    }

    /// The number of starts that were compared.
    pub(crate) fn probes(&self) -> u64
        ensures { result ≡ self.now.probes }
    {
        self.probes
    }

    /// The start at an index, which counts as a probe.
    pub(crate) fn start(&mut self, index: usize) -> u64
        requires index { index < length self.old.starts }
        requires headroom { self.old.probes < u64.MAX }
        ensures value { result ≡ address_at self.old.starts index }
        ensures probed { self.new ≡ record self.old { probes = self.old.probes + 1 } }
    {
        self.probes += 1;
        self.items[index].start()
    }
}
