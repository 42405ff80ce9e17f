//! Snap rounding: segments become chains of edges between hot centres, which meet at their ends
//! only.
//!
//! Lengths are in database units of 5 nanometres, and a coordinate may be any `i32`. The chain of a
//! segment has the hot centres whose pixels it meets, in the order in which it meets them
//! (`IsChain` of `snap_edge_laws/specs/Chains.antt`). A rounded ring joins the chains of its sides.
//! [`round`] rounds the rings of all shapes over the hot pixels of all their sides together. It
//! returns the edges that the rounded rings go, each once, with the shapes that own it: those whose
//! rings go it an odd number of times (`IsRoundOf` of `specs/Round.antt`).
//!
//! `round` goes by the numbers of hot centres, which rise as the centres do. A pass is two numbers and an
//! owner: that one of the owner's rings goes from the one centre to the other. The chain of a side along an axis is a
//! run of numbers (`snap_slabs::Numbers`), so its passes are written without a list of points; that of a slanted
//! side is found, and its centres numbered. Sorted passes are in the order of edges, and those of one edge are
//! neighbours, in the order of owners.
//!
//! # Model
//!
//! - [`Owner`] is a shape of one of two inputs ([`Input`]), by its number. [`OwnedRing`] is an
//!   owner and a borrowed slice. Contracts see the pair of the owner and the list of points.
//! - [`Rounded`] and [`CleanEdges`] are kept as a `Vec` of edges, one of all owners, and one that
//!   says for each edge where its own are. Contracts see the pair of the list of edges and the list
//!   of their lists of owners. Edges have no direction, and are in the order of their lesser ends,
//!   then of their greater ones.
//! - [`RowOrder`] has the ends of clean edges in the order of rows, as a sweep comes to them: the points, and where
//!   among these each edge has its ends ([`Span`], `specs/RowOrder.antt`).
//! - A visit (`specs/Visits.antt`) is an edge that a rounded ring goes, with the ring's owner. A pass
//!   (`pass.rt`, `specs/Passes.antt`) is the same by numbers. What sorted passes are read to
//!   (`specs/Reading.antt`) is by points the edges of the visits, and their owners.
//!
//! # Invariants
//!
//! - `Rounded`: its edges rise, so each is there once; the owners of each edge rise; of the edges
//!   that list an owner an even number have a given point for an end (`IsRounded` of
//!   `specs/Rounded.antt`). [`Rounded::from_edges`] sorts edges from elsewhere, which have no
//!   owners.
//! - `CleanEdges`: besides, a place on two different edges is an end of both (`AreClean` of
//!   `specs/Rounded.antt`). `round` makes such by the laws of `snap_edge_laws`, without a test.
//!   [`check_clean`] tests it exactly for edges from elsewhere, or names the first two that fail
//!   ([`CleanFault`], `specs/Clean.antt`), in as many steps as there are pairs. Their `RowOrder` is kept with them:
//!   `round` has it from the hot centres, which are in the order of rows for the sake of level sides, and `check_clean`
//!   sorts the ends.
//!
//! # Files
//!
//! - `rounding.rt`: all of it in order.
//! - `owned.rt`, `rings.rt`, `chains.rt`: rings, their sides, and chains by points.
//! - `centres.rt`, `pass.rt`, `passes.rt`: the passes of rings, by numbers.
//! - `reading.rt`, `owner_lists.rt`: from passes to edges with owners.
//! - `rounded.rt`, `clean_edges.rt`, `row_order.rt`, `checking.rt`: the results, and the test.
//!
//! # Example
//!
//! The test `examples::a_ring_is_rounded` of `geometry_tests` runs this.
//!
//! ```text
//! let owner = Owner { input: Input::First, shape: 0 };
//! let points = ring.points();
//! let clean = round(&rt, alloc, &[OwnedRing { owner, points }])?;
//! for number in 0..clean.edges().len() {
//!     assert_eq!(rt; clean.owners(number), [owner].as_slice());
//! }
//! ```
#![tactic(auto)]

mod centres;
mod chains;
mod checking;
mod clean_edges;
mod owned;
mod owner;
mod owner_lists;
mod pass;
mod passes;
mod reading;
mod rings;
mod rounded;
mod rounding;
mod row_order;

pub use chains::chain;
pub use checking::check_clean;
pub use clean_edges::{CleanEdges, CleanFault};
pub use owned::OwnedRing;
pub use owner::{Input, Owner};
pub use rings::{ring_sides, round_ring};
pub use rounded::Rounded;
pub use rounding::round;
pub use row_order::{RowOrder, Span};
