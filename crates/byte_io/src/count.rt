//! A count that only proofs see, for devices to say how often they failed.
ghost use Rattle.std.specs.Prelude.{◌≡◌, ℕ, ◌+◌};
ghost use Rattle.std.specs.Borrow.{ftrue};

use std::marker::Model;

/// A count without bytes and without a limit. Contracts read its `total`.
#[derive(Drop)]
pub struct GhostCount {
    /// The count.
    pub ghost total: { ℕ },
}

impl Model for GhostCount {
    ghost also_owns = { λ _. ftrue };
}

impl GhostCount {
    /// Returns zero.
    pub fn zero() -> GhostCount
        ensures { result.total ≡ 0 }
    {
        GhostCount {}
    }

    /// Returns one more.
    pub fn next(&self) -> GhostCount
        ensures { result.total ≡ self.now.total + 1 }
    {
        GhostCount {}
    }
}
