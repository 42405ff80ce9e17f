//! The cells of a layout, and who calls whom.
//!
//! A cell is the top cell or a symbol, which is declared once under its number; cells call symbols.
//! So that a layout is kept free of symbols that contain themselves, a graph of the calls says
//! whether one cell leads to another, and which call is the first that closes a cycle.
//!
//! # Model
//!
//! - [`CellId`] is the top cell or the symbol of a number.
//! - [`Cells`] is kept as a set in a hash table. Contracts see the list of the symbols' numbers, in
//!   the order of their declarations (`specs/Symbols.antt`).
//! - [`CallGraph`] also keeps the targets of each cell, by position. Contracts see a record of its
//!   symbols and of its calls, each a caller and the number of its target, in the order in which
//!   they were added (`Calls` of `specs/Walks.antt`).
//!
//! A walk is a list of calls, each in the cell that the one before calls (`specs/WalkLists.antt`).
//! `Walks` of `specs/Walks.antt` says that one cell leads to another; a cell leads to itself by no
//! call.
//!
//! # Invariants
//!
//! - `Cells`: no number is in it twice ([`Cells::add`] returns whether it was new). That a number
//!   is at most [`MAX_SYMBOL`] is kept by layouts, not here.
//! - `CallGraph`: the targets are those of its calls (`AreRowsOf` of `specs/Graph.antt`).
//!   [`CallGraph::add`] requires that the caller and the target are cells of the graph.
//!
//! # Files
//!
//! - `cell_id.rt`, `cells.rt`, `call_graph.rt`: a type each.
//! - `search.rt`: a search from a cell, which looks at each cell and each call at most once, for
//!   [`CallGraph::reaches`] (`specs/Marks.antt`).
//! - `places.rt`: an order in which callers come before what they call, as far as there is one
//!   (`specs/Places.antt`); [`CallGraph::first_cycle`] looks at each cell and each call a few
//!   times.
//! - `tally.rt`: how deep walks go and how many there are, without making one
//!   (`specs/Tallies.antt`). They are counted up to [`MAX_COUNTED_WALKS`]; [`CallGraph::depth`] and
//!   [`CallGraph::walks`] require a graph without cycles.
//!
//! # Example
//!
//! ```text
//! let mut cells = Cells::new(alloc);
//! cells.add(7)?;
//! let mut graph = CallGraph::new(alloc, &cells)?;
//! graph.add(CellId::Top, 7)?;
//! assert!(rt; graph.reaches(alloc, CellId::Top, CellId::Symbol(7))?);
//! ```
#![tactic(auto)]

mod call_graph;
mod cell_id;
mod cells;
mod places;
mod search;
mod tally;

pub use call_graph::CallGraph;
pub use cell_id::CellId;
pub use cells::{Cells, MAX_SYMBOL};
pub use tally::MAX_COUNTED_WALKS;
