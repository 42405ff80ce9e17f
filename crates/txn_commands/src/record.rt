//! What a transaction wrote.

use lay_layouts::{CellSlot, Item, ItemId};

/// An item that a transaction wrote, with its value before the first command and after the last.
#[derive(Debug, Drop, PartialEq, Eq)]
pub struct Record {
    /// The item.
    pub id: ItemId,
    /// What stood under the id, or `None`.
    pub before: Option<Item>,
    /// What stands under it, or `None`.
    pub after: Option<Item>,
}

/// A symbol that a transaction wrote, with its slot before the first command and after the last.
#[derive(Clone, Copy, Debug, PartialEq, Eq)]
pub struct CellRecord {
    /// The number of the symbol.
    pub number: u32,
    /// Its slot, or `None` where it wasn't there.
    pub before: Option<CellSlot>,
    /// Its slot, or `None` where it isn't there.
    pub after: Option<CellSlot>,
}
