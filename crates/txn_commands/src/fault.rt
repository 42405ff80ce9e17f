//! Refusals of commands.
ghost use Rattle.std.specs.Prelude.{◌≡◌};
ghost use Rattle.txn_commands.specs.Refusals.{command_code};

use lay_point::NoMemory;
use thiserror::Error;

/// Why a command is refused. A refused command changes nothing.
#[derive(Clone, Copy, Debug, PartialEq, Eq, Error)]
pub enum CmdFault {
    /// A cell that the command names isn't there.
    #[error("there is no such cell")]
    NoCell,
    /// There is no item of this id.
    #[error("there is no such item")]
    NoItem,
    /// The item is a call.
    #[error("the item isn't a shape")]
    NotShape,
    /// A side of the box is zero, or fewer than three points of the path differ from the one before.
    #[error("the ring has fewer than three points")]
    FewPoints,
    /// A coordinate's magnitude is above the limit, or the number of a symbol is.
    #[error("a coordinate or a number is out of range")]
    OutOfRange,
    /// The symbol to call is the cell of the call, or calls lead from it to that.
    #[error("the symbol would contain itself")]
    Cycle,
    /// A walk of calls below the cell has too many calls.
    #[error("calls lead too deep")]
    TooDeep,
    /// The ring has more points than it may have; or there are more walks, rings or sides below the cell, or
    /// more points in a new ring or round the rings of a new shape, than there may be.
    #[error("there are too many points, rings, sides or walks")]
    TooMany,
    /// The transaction has as many accepted commands, or new items, as it may have.
    #[error("the transaction has as many commands or new items as it may have")]
    TxnFull,
    /// An allocation failed.
    #[error("out of memory")]
    NoMemory,
    /// A symbol of this number is there already.
    #[error("the symbol is there already")]
    CellThere,
    /// The symbol holds an item, or is called.
    #[error("the symbol isn't empty, or is called")]
    CellUsed,
}

impl CmdFault {
    /// The number and the name by which a reply reports the refusal.
    pub fn code(self) -> (u8, &'static str)
        ensures { (result.0, result.1.now) ≡ command_code self }
    {
        match self {
            CmdFault::NoCell => (1, "NoCell"),
            CmdFault::NoItem => (2, "NoItem"),
            CmdFault::NotShape => (3, "NotShape"),
            CmdFault::FewPoints => (4, "FewPoints"),
            CmdFault::OutOfRange => (5, "OutOfRange"),
            CmdFault::Cycle => (6, "Cycle"),
            CmdFault::TooDeep => (7, "TooDeep"),
            CmdFault::TooMany => (8, "TooMany"),
            CmdFault::TxnFull => (10, "TxnFull"),
            CmdFault::NoMemory => (11, "NoMemory"),
            CmdFault::CellThere => (12, "CellThere"),
            CmdFault::CellUsed => (13, "CellUsed"),
        }
    }
}

impl From<NoMemory> for CmdFault {
    ghost use Rattle.txn_commands.specs.declared.fault.CmdFault.TheVariants.{NoMemory as no_memory};

    ghost from_gives = { λ _ e. e ≡ no_memory };

    fn from(_refused: NoMemory) -> CmdFault {
        CmdFault::NoMemory
    }
}
