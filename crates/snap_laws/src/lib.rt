//! Laws of pixels and of rounding: the definitions say what they should, and rounding is a
//! function.
//!
//! Nothing of this runs: functions with an empty body carry the laws.
//!
//! # The laws
//!
//! - [`pixels_have_laws`] (`specs/PixelLaws.antt`): each place is in one pixel, whatever the scale
//!   that it is written at. A segment meets the pixels of its ends and of its crossings, whichever
//!   way round it is taken.
//! - [`hot_centres_have_laws`]: the hot centres of segments are one list, so any two searches for
//!   them have one result.
//! - [`roundings_are_unique`] (`specs/RoundLaws.antt`): `rounded_of` of `specs/Rounding.antt`
//!   computes hot centres, chains, walks, edges and owners from the rings of shapes alone, with no
//!   bounds on coordinates. It is what `snap_chains` calls rounding (`IsRoundOf`), and nothing else
//!   is. Its edges rise, meet at their ends only, and have their ends in the range of a layout.
//!
//! # Files
//!
//! - `pixel_laws.rt`: of pixels, `snap_pixels`. `specs/Crossings.antt` and `specs/Meeting.antt`
//!   compute where two segments cross, and whether a segment meets a pixel.
//! - `round_laws.rt`: of rounding, `snap_chains`. `specs/Sorting.antt` has the sorted lists.
//! - `proofs/Exists.antt`, `proofs/Unique.antt`, `proofs/InRange.antt`: the three parts of the
//!   proof.
#![tactic(auto)]

mod pixel_laws;
mod round_laws;

pub use pixel_laws::{hot_centres_have_laws, pixels_have_laws};
pub use round_laws::roundings_are_unique;
