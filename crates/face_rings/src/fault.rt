//! Why edges aren't linked.

use lay_point::NoMemory;
use std::alloc::AllocFailed;
use thiserror::Error;

/// Why edges aren't linked to rings.
#[derive(Clone, Copy, Debug, PartialEq, Eq, Error)]
pub enum LinkFault {
    /// A ring has more than `MAX_RING_POINTS` points.
    #[error("a ring has too many points")]
    TooMany,
    /// An allocation failed.
    #[error("out of memory")]
    NoMemory,
}

impl From<NoMemory> for LinkFault {
    ghost use Rattle.std.specs.Prelude.{◌≡◌};
    ghost use Rattle.face_rings.specs.declared.fault.LinkFault.TheVariants.{NoMemory};

    ghost from_gives = { λ _ fault. fault ≡ NoMemory };

    fn from(_refused: NoMemory) -> LinkFault {
        LinkFault::NoMemory
    }
}

impl<T: Drop> From<AllocFailed<T>> for LinkFault {
    ghost use Rattle.std.specs.Prelude.{◌≡◌};
    ghost use Rattle.face_rings.specs.declared.fault.LinkFault.TheVariants.{NoMemory};

    ghost from_gives = { λ _ fault. fault ≡ NoMemory };

    fn from(_refused: AllocFailed<T>) -> LinkFault {
        LinkFault::NoMemory
    }
}
