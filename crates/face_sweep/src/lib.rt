//! A sweep over clean edges from point to point, and the shapes that hold on the two sides of an edge.
//!
//! The sweep stops at each point at which edges begin or end: row by row upward, and in a row from right to
//! left. At a stop the edges that end there are replaced by those that begin there; between stops nothing is
//! done. What holds right of an edge is the same all along it, so it is found once, where the edge begins, and
//! kept.
//!
//! # Model
//!
//! The row r is the height r + 1/2 (`face_rows/specs/Rows.antt`). The list of a sweep has numbers of edges from
//! left to right. At a point it is made of two parts (`specs/Points.antt`): the edges of the row below the point
//! that are left of it or end there, and then those of its own row that are right of it. All edges left of the
//! point stand before those that end there, and these before the others, so one search tells all three
//! ([`points_pass`]).
//!
//! - [`Stops`] has all points at which edges begin or end, in the order of the sweep, with the edges that begin
//!   at each: those that rise, from left to right, and then a level one (`specs/Stops.antt`). They are made of
//!   the places at which edges end, which are flagged, and those at which they begin, as numbers that are sorted
//!   (`specs/Ends.antt`), in threads if the caller has a runtime.
//! - [`place_of_point`] searches the list for a point, from a hint on: left of the place of the stop before, which is
//!   near in a row. It compares two products for each edge that it looks at. [`group_end`] is where the edges
//!   that end at the point end.
//! - [`BlockList`] keeps the list in blocks (`specs/Blocks.antt`). Edges are replaced near where they were replaced
//!   last, so a block or two are moved and not all edges to the right: rows of thousands of edges cost no more.
//! - [`Sides`] has how many shapes of each input hold on each side of an edge (`specs/Counts.antt`,
//!   `specs/Sides.antt`). Right of an edge holds what holds left of the next; left of it the owners of the edge
//!   are turned. Above a level edge holds what the edges right of its left end tell.
//! - [`LeftCounts`] is what a row keeps beside each of its edges: how many shapes hold left of it. So
//!   [`counts_before`] tells what holds in the gap before an edge, and nothing is as long as there are edges.
//! - [`Reach`] is the box round each shape's edges (`specs/Reaches.antt`). Of an edge on its border
//!   the box tells at once whether the shape holds beside it: right of a left side and above a
//!   bottom it does, right of a right side and above a top it doesn't. Most edges have one owner: what its box
//!   tells of the edge, or which list has it, is found before the sweep (`turns.rt`), which then needn't look at
//!   owners and boxes.
//! - [`OwnRows`] has, for each shape with other edges than these, those of the row's edges that it owns
//!   (`specs/OwnRows.antt`). A shape holds right of a point exactly if an odd number of its edges is right of
//!   it, and one search in the shape's own list tells how many there are. An edge comes to the lists of its
//!   owners where it begins, and goes where it ends.
//!
//! # What callers must keep
//!
//! No type keeps what the list is: each call requires it. Of the clauses of [`Sides::of`],
//! `IsReach` says that the boxes are those of the edges, `AreRight` that the lists of single shapes have the
//! edges right of the point, and `AreCounts` that so many shapes hold right of the edge.
//!
//! # Files
//!
//! - `stops.rt`: the points of the sweep; `ends.rt`: the ends of edges in its order.
//! - `place.rt`, `side.rt`: where a point is among the edges of the list.
//! - `passing.rt`: how the list passes a point; `laws.rt`: why it is then that of the next.
//! - `block_list.rt`, `blocks.rt`, `replacing.rt`: the list in blocks.
//! - `sides.rt`, `counts.rt`: what holds beside an edge.
//! - `reach.rt`, `boxes.rt`, `extent.rt`, `traced.rt`, `turns.rt`, `own_rows.rt`: whether one shape holds beside an edge.
#![tactic(auto)]

mod block_list;
mod blocks;
mod boxes;
mod counts;
mod ends;
mod extent;
mod laws;
mod own_rows;
mod passing;
mod place;
mod reach;
mod replacing;
mod side;
mod sides;
mod stops;
mod traced;
mod turns;

pub use block_list::BlockList;
pub use counts::{Counts, LeftCounts};
pub use laws::{nexts_tell, points_pass};
pub use own_rows::OwnRows;
pub use passing::group_end;
pub use place::place_of_point;
pub use reach::Reach;
pub use sides::{Sides, counts_before};
pub use stops::{Stop, Stops};
