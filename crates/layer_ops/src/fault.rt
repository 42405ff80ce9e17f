//! Why an operation has no shapes.

use face_rings::LinkFault;
use lay_point::NoMemory;
use thiserror::Error;

/// Why an operation has no shapes.
#[derive(Clone, Copy, Debug, PartialEq, Eq, Error)]
pub enum OpFault {
    /// The rings have more than `MAX_SEGMENTS` sides, or a ring of the operation or the path round
    /// a shape's rings has more than `MAX_RING_POINTS` points.
    #[error("too many points")]
    TooMany,
    /// An allocation failed.
    #[error("out of memory")]
    NoMemory,
}

impl From<NoMemory> for OpFault {
    ghost use Rattle.std.specs.Prelude.{◌≡◌};
    ghost use Rattle.layer_ops.specs.declared.fault.OpFault.TheVariants.{NoMemory};

    ghost from_gives = { λ _ fault. fault ≡ NoMemory };

    fn from(_refused: NoMemory) -> OpFault {
        OpFault::NoMemory
    }
}

impl From<LinkFault> for OpFault {
    ghost use Rattle.std.specs.Prelude.{◌≡◌};
    ghost use Rattle.layer_ops.specs.Faults.{fault_of};

    ghost from_gives = { λ link fault. fault ≡ fault_of link };

    fn from(fault: LinkFault) -> OpFault {
        match fault {
            LinkFault::TooMany => OpFault::TooMany,
            LinkFault::NoMemory => OpFault::NoMemory,
        }
    }
}
