//! `--oriented`: layouts whose shapes are written by paths that all readers see alike.
//!
//! A place is inside a shape by the parity of its rings. A reader by winding number sees the same
//! places where the path that is written goes once round each of them and not round any other.
//! [`oriented_layout`] turns the rings of each shape whose path doesn't, as far as directions are
//! found. All else of the layout stays. A shape for which none are found stays too and is counted,
//! as where its edges cross or partly lie on one another, or where the path would be longer than a
//! ring may be.
//!
//! Shapes are turned one by one, so less is said of a whole layer: where shapes overlap their
//! winding numbers add up, and a call that mirrors turns the sign of what it draws.
//!
//! # Model
//!
//! - [`Directed`] is the new layout, the number of shapes that stay though readers may see them
//!   otherwise, and the first three of these. Contracts see them (`IsDirectedNaming` of
//!   `specs/Directed.antt`).
//! - The winding number of edges about a place counts those to its right: one more for each that
//!   rises, one less for each that falls (`specs/Winding.antt`). [`winding_has_laws`] carries its
//!   laws: it is odd where the parity is, and that of the one path round rings is that of the
//!   rings.
//! - The edges of a shape that is turned are the old ones, an edge that stands an even number of
//!   times left out (`KeepEdges` of `specs/Oriented.antt`): no point is added on one.
//!
//! # How directions are found and checked
//!
//! A shape whose rings all run the same way round its holes has the winding number 2 in them. All
//! rings turned round are tried first, as where a shape is drawn clockwise. Else a sweep directs
//! each edge so that what is inside is on its left, edges that occur an even number of times left
//! out, and links the edges to rings. That step is not proved. Its answer is checked before it is
//! given: the edges are the same, and in each band of heights the edges from right to left rise and
//! fall in turn, which a second sweep tests (`specs/Slants.antt`). Ways that are gone both out and
//! back are left out there (`specs/Net.antt`). That rings whose edges meet at ends alone always
//! find directions is tested, and not proved.
//!
//! # How rings are joined
//!
//! A shape of several rings becomes one of one ring, which goes once round each and along each way
//! between two of them out and back. A sweep goes over the corners from left to right, and keeps for
//! each gap between two sides the corners that can be seen from the right in it: a corner is joined
//! to those that it sees, so these ways cross no side and no other way. Of the ways the shortest are
//! taken that join all rings. Rings that touch at a corner are joined there by no way at all.
//!
//! The boxes of two shapes of one result of an operation have no place in common. So ways are first
//! taken that stay within the boxes of the shape's rings: they cross no side of another such shape.
//! Where these don't join all rings, as of rings beside one another, a way may go straight up or
//! down towards a level side and along it, one unit off, to its end: it crosses nothing where sides
//! are level or upright. What is left is joined along straight ways that may leave the boxes.
//!
//! None of that is proved; what is made of it is checked: its edges with their directions are those
//! of the rings, but for ways that are gone both out and back (`GoAlike` of `specs/Net.antt`). Where
//! the ring would be longer than a ring may be, the rings stay apart.
//!
//! # Files
//!
//! - `directing.rt`: the layout, item by item; `orienting.rt`: the rings of one shape.
//! - `net.rt`, `winding_directing.rt`, `linking.rt`: edges, their directions, and rings of them.
//! - `joining.rt`, `uniting.rt`, `walk.rt`: one ring of several.
//! - `finding.rt`, `gaps.rt`, `fronts.rt`, `corner.rt`, `ways.rt`, `outline.rt`: ways between rings.
//! - `directed_net.rt`: edges with their directions, without those that stand there in both.
//! - `once.rt`, `sweep.rt`, `band.rt`, `slant.rt`, `edges.rt`: the check that rings go round each
//!   place at most once (`specs/Once.antt`).
//!
//! # Example
//!
//! ```text
//! let directed = oriented_layout(alloc, &snapshot)?;
//! write(alloc, &directed.layout, &mut out)?; // `write` of `cif_write`
//! ```
#![tactic(auto)]

mod band;
mod corner;
mod directed_net;
mod directing;
mod edges;
mod finding;
mod fronts;
mod gaps;
mod joining;
mod laws;
mod linking;
mod net;
mod once;
mod orienting;
mod outline;
mod slant;
mod sweep;
mod uniting;
mod walk;
mod ways;
mod winding_directing;

pub use directing::{Directed, oriented_layout};
pub use laws::winding_has_laws;
