//! Passes: that a ring of a shape, rounded, goes from one hot centre to the next, by their numbers.
ghost use Rattle.std.specs.Prelude.{◌≡◌, ◌↔◌, IsTrue};
ghost use Rattle.snap_chains.specs.Passes.{pass_between};
ghost use Rattle.snap_chains.specs.Reading.{numbered_edge};

use crate::owner::Owner;

/// That a ring of a shape goes between the centres of two numbers, whichever way. Passes are in the order of the
/// lesser numbers, then of the greater, then of the owners.
#[derive(Clone, Copy, Debug, PartialEq, Eq, PartialOrd, Ord)]
pub struct Pass {
    /// The lesser number.
    pub low: u32,
    /// The greater number.
    pub high: u32,
    /// The shape.
    pub owner: Owner,
}

/// Returns the pass between two numbers.
pub(crate) fn pass_between(a: u32, b: u32, owner: Owner) -> Pass
    ensures { result ≡ pass_between owner (a, b) }
{
    if a < b {
        return Pass {
            low: a,
            high: b,
            owner,
        };
    }
    Pass {
        low: b,
        high: a,
        owner,
    }
}

/// Returns whether both passes are between the same centres.
pub(crate) fn is_same_edge(a: Pass, b: Pass) -> bool
    ensures { IsTrue result ↔ (numbered_edge a ≡ numbered_edge b) }
{
    a.low == b.low && a.high == b.high
}
