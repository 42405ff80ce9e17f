//! Labels: for each edge that begins in a band of rows, whether it is one of an operation's edges.
//!
//! An operation's edges are those on whose two sides its answers differ
//! (`face_rows/specs/Labels.antt`). They tell its answer: a place is to the left of an odd number
//! of them exactly where the operation holds there.
//!
//! [`label`] sweeps over the points of a band of rows at which edges begin or end
//! (`face_sweep/specs/Points.antt`, `face_rows/specs/Bands.antt`). What holds on the two sides of an
//! edge is the same all along it, so it has its label at the stop where it begins. What holds left of it is kept
//! until it ends (`face_sweep/specs/Sides.antt`), and so long the edge is in the lists of those of its owners that
//! need one (`face_sweep/specs/OwnRows.antt`). The edges of the row below the band are found once, when its sweep
//! begins.
//!
//! At a stop the edges that end there are found by a search for the point, and taken out of the lists. A level
//! edge that begins there is judged by the edges right of the point. Then those that end are replaced by those
//! that rise from the point, and these are judged, from right to left, and put into the lists.
//!
//! [`Shared`] is what the sweeps of all bands look at: the stops, the boxes of the shapes, and which shapes need
//! lists. It is made once and lent to each band ([`label_sharing`]). The lists are each band's own. [`label_edges`]
//! gives the labels of all edges as one list.
//!
//! # Example
//!
//! The test `examples::edges_are_labelled` of `geometry_tests` runs this.
//!
//! ```text
//! let clean = round(&rt, alloc, &rings)?;
//! let band = Band { low: 0, high: 1_000 };
//! let labels = label(alloc, &clean, band, Op::And)?;
//! ```
#![tactic(auto)]

mod begun;
mod finds;
mod group;
mod labels;
mod shared;
mod sweep_row;

pub use labels::{label, label_edges, label_sharing};
pub use shared::Shared;
