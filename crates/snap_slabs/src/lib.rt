//! Which hot centres a segment meets, found without asking all of them.
//!
//! Hot centres rise, by x and then by y. A segment meets centres of its own columns alone, from the lesser
//! of its ends' x to the greater (`specs/Columns.antt`).
//!
//! - [`Numbers`] finds what a segment between two hot centres meets along an axis, without asking any. The number
//!   of a centre is its index in the order of points, and a second list has all numbers by rows. The chain
//!   of an upright segment is all numbers from one end's to the other's, and that of a level one is a part of
//!   the second list (`specs/Runs.antt`). Once chains are found, [`Numbers::into_rows`] gives the centres by rows, and
//!   where each is among them.
//! - [`Finder`] finds what any segment meets. The centres are cut into slabs, runs of neighbours that are in
//!   order of y (`specs/Slabs.antt`): in each slab the segment is clipped to the slab's columns, and only the rows
//!   that it reaches there are asked (`specs/Clips.antt`). What it answers is what asking each centre would.
//!
//! Searches of all centres begin at a hint (`buckets`, [`Finder::add_met`]). Any hint is right, and a near one saves most
//! steps.
#![tactic(auto)]

mod buckets;
mod candidates;
mod clip;
mod columns_of;
mod finder;
mod numbers;
mod rows;
mod slab;
mod slabs;

pub use finder::Finder;
pub use numbers::Numbers;
