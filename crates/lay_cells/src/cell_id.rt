//! The names of cells.

/// A cell of a layout: the top cell, or the symbol of a number.
#[derive(Clone, Copy, Debug, PartialEq, Eq)]
pub enum CellId {
    /// The cell of all that stands outside symbols.
    Top,
    /// The symbol with this number.
    Symbol(u32),
}
