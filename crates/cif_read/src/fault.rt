//! Why a text is refused.
ghost use Rattle.std.specs.Prelude.{◌≡◌};
ghost use Rattle.cif_read.specs.Faults.{fault_label, fault_name, fault_number};
ghost use Rattle.cif_read.specs.declared.fault.FaultKind.TheVariants as kinds;

use lay_point::{MAX_LAYER_NAME, NoMemory};
use thiserror::Error;

/// What is wrong with a text.
#[derive(Clone, Copy, Debug, PartialEq, Eq, Error)]
pub enum FaultKind {
    /// The text ends before a command's semicolon, or before its `E`.
    #[error("the text ends before its `E` or a semicolon")]
    NoEnd,
    /// A command that is not in the grammar, a definition inside another, or an end outside of all.
    #[error("the command is malformed or unknown")]
    Syntax,
    /// A wire, `W`.
    #[error("wires are not supported")]
    Wire,
    /// A round flash, `R`.
    #[error("round flashes are not supported")]
    Flash,
    /// A deletion of definitions, `D D`.
    #[error("deletions of definitions are not supported")]
    DeleteDef,
    /// A direction that isn't along an axis.
    #[error("a direction is not along an axis")]
    OffAxis,
    /// A box or a polygon where no layer is set.
    #[error("no layer is set")]
    NoLayer,
    /// A distance that isn't whole in database units.
    #[error("a distance is not whole in database units")]
    OffGrid,
    /// A number, a coordinate or a shift beyond its limit.
    #[error("a number or a coordinate is too big")]
    TooBig,
    /// A second definition of a symbol's number.
    #[error("the symbol is defined twice")]
    TwoSymbols,
    /// A call of a symbol that the text doesn't define.
    #[error("the called symbol is not defined")]
    NoSymbol,
    /// A call in a definition whose symbol the called one contains.
    #[error("the symbol contains itself")]
    Cycle,
    /// Something other than blanks behind the `E`.
    #[error("the text goes on behind its `E`")]
    AfterEnd,
    /// A layer name of more than `MAX_LAYER_NAME` bytes.
    #[error("the layer name is longer than {} bytes", MAX_LAYER_NAME)]
    LongName,
    /// A scale with a zero.
    #[error("a number of the scale is zero")]
    ZeroScale,
    /// The text is longer than `MAX_TEXT`, it defines more than `MAX_SYMBOLS` symbols, or more than
    /// `MAX_RING_POINTS` points of a polygon remain without repeats.
    #[error("there are too many bytes, symbols or points")]
    TooMany,
    /// An allocation failed.
    #[error("out of memory")]
    NoMemory,
}

impl FaultKind {
    /// Returns the number by which the product names this kind.
    pub fn number(self) -> u32
        ensures { result ≡ fault_number self }
    {
        self.label().0
    }

    /// Returns the word by which the product names this kind.
    pub fn name(self) -> &'static str
        ensures { result.now ≡ fault_name self }
    {
        self.label().1
    }

    fn label(self) -> (u32, &'static str)
        ensures { (result.0, result.1.now) ≡ fault_label self }
    {
        match self {
            FaultKind::NoEnd => (1, "NoEnd"),
            FaultKind::Syntax => (2, "Syntax"),
            FaultKind::Wire => (3, "Wire"),
            FaultKind::Flash => (4, "Flash"),
            FaultKind::DeleteDef => (5, "DeleteDef"),
            FaultKind::OffAxis => (6, "OffAxis"),
            FaultKind::NoLayer => (7, "NoLayer"),
            FaultKind::OffGrid => (8, "OffGrid"),
            FaultKind::TooBig => (9, "TooBig"),
            FaultKind::TwoSymbols => (10, "TwoSymbols"),
            FaultKind::NoSymbol => (11, "NoSymbol"),
            FaultKind::Cycle => (12, "Cycle"),
            FaultKind::AfterEnd => (13, "AfterEnd"),
            FaultKind::LongName => (14, "LongName"),
            FaultKind::ZeroScale => (15, "ZeroScale"),
            FaultKind::TooMany => (16, "TooMany"),
            FaultKind::NoMemory => (17, "NoMemory"),
        }
    }
}

impl From<NoMemory> for FaultKind {
    ghost from_gives = { λ _ kind. kind ≡ kinds.NoMemory };

    fn from(_failed: NoMemory) -> FaultKind {
        FaultKind::NoMemory
    }
}

/// The first fault of a text.
#[derive(Clone, Copy, Debug, PartialEq, Eq, Error)]
#[error("{kind} at byte {offset}")]
pub struct CifFault {
    /// What is wrong.
    pub kind: FaultKind,
    /// How many bytes of the text are before the faulty command or byte; for `TooMany` before the definition or
    /// the polygon that is beyond the limit, and 0 where the text is too long. 0 for `NoMemory`.
    pub offset: usize,
}

impl From<NoMemory> for CifFault {
    ghost use Rattle.cif_read.specs.Meaning.{no_memory};

    ghost from_gives = { λ _ fault. fault ≡ no_memory };

    fn from(_failed: NoMemory) -> CifFault {
        CifFault {
            kind: FaultKind::NoMemory,
            offset: 0,
        }
    }
}
