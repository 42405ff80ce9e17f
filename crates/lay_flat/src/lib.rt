//! Flattening: all rings on a layer below a cell, through every walk of calls.
//!
//! A walk is a list of calls, each in the cell that the one before calls. A flattening has, for
//! each walk from a cell, the rings of the shapes on a layer in the walk's last cell, and the turn
//! of the walk: its last call's turn is applied first, and its first call's last.
//!
//! # Model
//!
//! - [`FlatRing`] is a slice of the snapshot, a turn and the number of its shape. Contracts see the
//!   triple of the list of points, not turned, the turn and the number.
//! - [`Flat`] is a `Vec` of them. Contracts see the list of its rings (`flat_of` of
//!   `specs/Flattening.antt`).
//! - [`Walks`] is the ends of the walks from a cell, each its cell and its turn, from which any
//!   number of layers is flattened. Contracts see the layout and the cell.
//!
//! No point is copied. A refusal is a [`FlatFault`]: NoCell, TooDeep, TooMany or OutOfRange, in
//! this order; NoCell is never replaced by NoMemory.
//!
//! # Invariants
//!
//! - `Flat`: each ring's points are a ring's, and in range where its turn takes them (`IsFlat` of
//!   `specs/Flat.antt`).
//! - `Walks`: its cell is there, the depth of the walks is at most [`MAX_DEPTH`] and their number
//!   at most [`MAX_RINGS`], and its list has the ends of all (`AreListed` of `specs/Walked.antt`).
//!   [`Walks::from`] tests depth and number before it makes a walk.
//! - The lists of calls and of shapes (`call_lists.rt`, `shape_lists.rt`): what is kept under a
//!   symbol's number is the list of the calls in it, or of its shapes on the layer (`AreListsOf` of
//!   `specs/Lists.antt`); of the top cell the list of its calls. Each is made once, for all walks
//!   that end there.
//!
//! # Files
//!
//! - `flattening.rt`, `walks.rt`, `ends.rt`, `graph.rt`: the walks and their ends.
//! - `lending.rt`, `flat.rt`: the rings at the ends, lent as far as there is room.
//! - `flat_laws.rt`: [`flattening_reads_what_is_below`]. A flattening depends on the calls, and on
//!   the shapes of its layer, in the cells that walks from its cell lead to, and on nothing else of
//!   the layout.
//! - `order_laws.rt`: [`shapes_are_numbered_in_order`]. A walk comes before those that continue it,
//!   else the ids of the first calls that differ decide; at the end of one walk shapes come by
//!   their ids. Each walk and each shape is listed once.
//!
//! # Example
//!
//! ```text
//! let flat = flatten(alloc, &snapshot, CellId::Top, &layer)?;
//! for ring in flat.rings() { .. }
//!
//! let walks = Walks::from(alloc, &snapshot, CellId::Top)?;
//! let (first, second) = (walks.layer(alloc, &a)?, walks.layer(alloc, &b)?);
//! ```
#![tactic(auto)]

mod call_lists;
mod ends;
mod fault;
mod flat;
mod flat_laws;
mod flattening;
mod graph;
mod lending;
mod order_laws;
mod shape_lists;
mod shared;
mod walks;

pub use fault::FlatFault;
pub use flat::{Flat, FlatRing, MAX_DEPTH, MAX_RINGS};
pub use flat_laws::flattening_reads_what_is_below;
pub use flattening::flatten;
pub use order_laws::shapes_are_numbered_in_order;
pub use walks::Walks;
