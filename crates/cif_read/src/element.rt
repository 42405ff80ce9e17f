//! What a text draws: elements, in text order.

use lay_cells::CellId;
use lay_point::{LayerName, Ring, Turn};

/// What an element is.
#[derive(Debug, Drop, PartialEq, Eq)]
pub enum Figure {
    /// The inside of a ring on a layer.
    Polygon {
        /// The layer.
        layer: LayerName,
        /// The ring, in database units.
        ring: Ring,
    },
    /// A symbol's content, turned.
    Call {
        /// The number of the symbol.
        target: u32,
        /// How the symbol's content is turned.
        turn: Turn,
    },
}

/// A kept element of a text.
#[derive(Debug, Drop, PartialEq, Eq)]
pub struct Element {
    /// The cell in which it stands.
    pub cell: CellId,
    /// What it is.
    pub figure: Figure,
}
