//! Laws of CIF texts: what is written is read back, faults are where they are reported, and
//! commands mean what the standard says.
//!
//! The grammar and the meaning are those of `cif_grammar` and `cif_read`, the text and the wrapping
//! those of `cif_write`. Functions with an empty body carry the laws; [`reread`] and
//! [`look_at_layers`] alone do something. The program calls none of them.
//!
//! # The laws
//!
//! - [`what_is_written_is_read_back`] (`specs/Laws.antt`): the text of a sound layout whose layers
//!   have names, and that needs no more symbols than a text may define, is commands of the grammar,
//!   and they mean that layout, with what its top cell holds wrapped in a symbol. What is wrapped
//!   is sound, and is written by the same text. [`reread`] writes a layout and reads it again.
//! - [`boxes_are_read_back`] (`specs/SameRings.antt`): with upright rectangles written as boxes it is
//!   read back as that layout too, but for where its rings begin and which way they run, and each
//!   place is inside both such rings or inside neither.
//! - [`names_change_nothing`] (`specs/Named.antt`): the text of such a layout, with the names and
//!   labels of any text in it, is the same but for their lines, and is read back as that layout. So
//!   it is with boxes.
//! - [`faults_are_where_they_stand`] (`specs/Refusals.antt`): a text that means a fault begins with
//!   good commands, up to the fault. There a command of the grammar has the fault, or no command
//!   follows, or the text ends too early or not at all. Or all its commands are good, and a call
//!   isn't.
//! - [`checks_come_in_order`] (`specs/Checks.antt`): the fault that a command has is that of the first
//!   check, in one list, that it fails.
//! - [`distances_are_scaled`] (`specs/Distances.antt`): a distance in a symbol is the written one,
//!   times the scale's first number and divided by the second.
//! - [`calls_move_points`] (`specs/Changes.antt`): a call takes a point where its changes take it,
//!   one after the other.
//! - [`boxes_hold_their_points`] (`specs/Boxes.antt`, `specs/Directions.antt`): a box holds the
//!   points that are at most half a side from its centre, along its direction and across it.
//!
//! # Files
//!
//! - `trip_laws.rt` and `again.rt`: writing and reading again.
//! - `fault_laws.rt`: where a text is refused.
//! - `meaning_laws.rt`: what commands mean, said of points.
#![tactic(auto)]

mod again;
mod fault_laws;
mod meaning_laws;
mod trip_laws;

pub use again::{look_at_layers, reread};
pub use fault_laws::{checks_come_in_order, faults_are_where_they_stand};
pub use meaning_laws::{boxes_hold_their_points, calls_move_points, distances_are_scaled};
pub use trip_laws::{boxes_are_read_back, names_change_nothing, what_is_written_is_read_back};
