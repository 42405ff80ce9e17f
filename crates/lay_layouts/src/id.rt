//! The names of items.

use lay_pages::PageKey;
use std::fmt;

/// The name of an item: the session and the transaction that made it, and its number among the
/// items that the transaction made, from 1. Items of a text have session and transaction 0, and the
/// number of their element. Ids are ordered by session, then transaction, then number.
#[derive(Clone, Copy, Debug, PartialEq, Eq, PartialOrd, Ord)]
pub struct ItemId {
    /// The session, 1 to 64, or 0.
    pub session: u8,
    /// The transaction of that session, from 1, or 0.
    pub txn: u16,
    /// The item of that transaction, from 1.
    pub seq: u32,
}

impl PageKey for ItemId {
    ghost use Rattle.lay_layouts.specs.IdOrder.{ids_exact};

    ghost exact = { ids_exact };
}

impl fmt::Display for ItemId {
    ghost use Rattle.std.specs.Prelude.{Some};
    ghost use Rattle.lay_layouts.specs.IdText.{item_text};

    ghost output = { λ id. Some (item_text id) };

    fn fmt<W: fmt::Write>(&self, f: &mut fmt::Formatter<W>) -> fmt::Result {
        let ItemId { session, txn, seq } = *self;
        write!(f, "{session}.{txn}.{seq}")
    }
}
