//! Why there is no flattening.

use lay_point::NoMemory;
use thiserror::Error;

/// Why there is no flattening. The faults are tested in this order, and out of memory can come in place of
/// any answer.
#[derive(Clone, Copy, Debug, PartialEq, Eq, Error)]
pub enum FlatFault {
    /// The cell isn't there.
    #[error("the cell isn't there")]
    NoCell,
    /// A walk has more than 64 calls.
    #[error("a walk has more than 64 calls")]
    TooDeep,
    /// There are more than 65,536 walks or rings.
    #[error("there are more than 65,536 walks or rings")]
    TooMany,
    /// The turn of a walk or a turned point is out of range.
    #[error("the turn of a walk or a turned point is out of range")]
    OutOfRange,
    /// An allocation failed.
    #[error("out of memory")]
    NoMemory,
}

impl From<NoMemory> for FlatFault {
    ghost use Rattle.std.specs.Prelude.{◌≡◌};
    ghost use Rattle.lay_flat.specs.declared.fault.FlatFault.TheVariants.{NoMemory};

    ghost from_gives = { λ _ fault. fault ≡ NoMemory };

    fn from(_refused: NoMemory) -> FlatFault {
        FlatFault::NoMemory
    }
}
