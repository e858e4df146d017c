// Numbers that only proofs read. They take no bytes, and their functions do nothing at run time.
ghost use Rattle.std.specs.Prelude.{◌≡◌, ℕ, ◌+◌};
ghost use Rattle.std.specs.Borrow.{ftrue};

use std::marker::Model;

/// A number without bound, on which no code depends.
#[derive(Drop)]
pub(crate) struct GhostNumber {
    pub(crate) ghost value: { ℕ },
}

impl Model for GhostNumber {
    ghost also_owns = { λ _. ftrue };
}

// It owns nothing.
unsafe impl Send for GhostNumber {}

impl GhostNumber {
    pub(crate) fn zero() -> GhostNumber
        ensures { result.value ≡ 0 }
    {
        GhostNumber {}
    }

    pub(crate) fn of(number: u64) -> GhostNumber
        ensures { result.value ≡ number }
    {
        let _ = number;
        GhostNumber {}
    }

    pub(crate) fn increased(&self, count: usize) -> GhostNumber
        ensures { result.value ≡ self.now.value + count }
    {
        let _ = count;
        GhostNumber {}
    }
}
