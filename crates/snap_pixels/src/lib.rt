//! Hot pixels: those that hold an end of a segment, or a point common to two segments that aren't
//! parallel.
//!
//! Snap rounding draws segments through the centres of the hot pixels that they meet. Lengths are
//! in database units of 5 nanometres, and a coordinate may be any `i32`. All arithmetic is exact,
//! in 64 and 128 bits.
//!
//! # Model
//!
//! - The pixel of a point is the unit square round it, with its left and lower sides and without
//!   the other two, so that each place is in one pixel. A place between points is a fraction, as
//!   two whole numbers and a scale (`specs/Pixels.antt`).
//! - [`Segment`] is its two ends. Contracts see both; its points are those of
//!   `specs/Segments.antt`.
//! - [`HotSet`] is kept as a `Vec` of its centres. Contracts see the list of them.
//! - [`meets`] says whether a segment meets a pixel: the four sides of the pixel leave an interval
//!   of the segment's points (`specs/Sides.antt`). [`crossing`] is the centre of the pixel that
//!   holds the point common to two segments that aren't parallel.
//! - [`hot`] and [`hot_plain`] return exactly the hot pixels (`AreHotCentres` of `specs/Hot.antt`),
//!   or that an allocation failed. `hot` searches and sorts in as many threads as there are
//!   processors.
//!
//! # Invariants
//!
//! - `Segment`: its ends differ (`differ` in `segment.rt`), tested by [`Segment::new`].
//! - `HotSet`: its centres rise, by x and then by y (`ArePointsRising` of `specs/Order.antt`).
//!   They are gathered as numbers in the same order, which are sorted (`gathered.rt`).
//!
//! # Files
//!
//! - `search.rt`: the search; `parts.rt`, `division.rt`, `cell.rt`, `strips.rt`, `measure.rt`: segments divided
//!   into parts, each pair that may meet in one of them (`specs/Parts.antt`, `specs/Strips.antt`).
//! - `gathered.rt`, `hot_set.rt`, `coordinates.rt`: centres as they are found, kept as numbers, and the set of them.
//! - `kind.rt`, `counts.rt`, `repeats.rt`: parallel and equal segments, which needn't be asked.
//! - `meeting.rt`, `side.rt`, `span.rt`, `common_point.rt`, `rounding.rt`: one segment and one
//!   pixel, and two segments.
//! - `exact.rt`, `boxes.rt`: arithmetic for all coordinates, and a quick test of boxes.
//! - `sorting.rt`: sorts in threads; `partition.rt`: a search by halving that begins at a hint, for any indices.
//!
//! # Example
//!
//! The test `examples::a_crossing_is_hot` of `geometry_tests` runs this.
//!
//! ```text
//! let ends = [
//!     (Point { x: 0, y: 0 }, Point { x: 639, y: 639 }),
//!     (Point { x: 0, y: 639 }, Point { x: 639, y: 0 }),
//! ];
//! let mut segments = Vec::new(alloc);
//! for (a, b) in ends {
//!     if let Some(segment) = Segment::new(a, b) {
//!         segments.push(segment)?;
//!     }
//! }
//! let found = hot(&rt, alloc, &segments)?;
//! assert!(rt; found.contains(Point { x: 320, y: 320 }));
//! ```
#![tactic(auto)]

mod boxes;
mod cell;
mod common_point;
mod coordinates;
mod counts;
mod division;
mod exact;
mod gathered;
mod hot_set;
mod kind;
mod measure;
mod meeting;
mod partition;
mod parts;
mod repeats;
mod rounding;
mod search;
mod segment;
mod side;
mod sorting;
mod span;
mod strips;
#[cfg(test)]
mod tests;

pub use common_point::crossing;
pub use coordinates::{coordinate_from, from_least};
pub use exact::{MAX_AREA, area};
pub use hot_set::{HotSet, turned, turned_all};
pub use meeting::meets;
pub use partition::partition_from;
pub use search::{hot, hot_plain};
pub use segment::Segment;
pub use sorting::{sort_in_threads, sort_once, sorted_in_threads};
