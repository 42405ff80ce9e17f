//! A symbol's slot.
use lay_pages::PageValue;

/// Where a symbol stands among the symbols of a layout.
#[derive(Clone, Copy, Debug, PartialEq, Eq)]
pub enum CellSlot {
    /// It comes from a text, as its symbol with this index, from 1.
    Base(u32),
    /// A transaction made it.
    Made,
}

impl PageValue for CellSlot {
    ghost same = { λ value copy is. is };
}
