//! Laws of rings and their parts: edges of which an even number has a given point for an end make
//! rings, and rings whose bounding boxes touch are one part.
//!
//! Nothing of this runs: functions with an empty body carry the laws. `face_rings` computes what is
//! defined here.
//!
//! # Rings
//!
//! `specs/Linking.antt` makes the rings step by step, and `specs/Linked.antt` says what they are;
//! [`rings_have_laws`] says that the rule names one list of rings. The rings made are those
//! (`proofs/LinkedLemmas.antt`), each a ring (`proofs/RingLaws.antt`), and for each test of edges
//! as many pass of the rings' edges as of the edges (`proofs/CountLemmas.antt`).
//!
//! # Parts
//!
//! `specs/Parts.antt` says what the parts are: rings whose boxes have a point in common, sides
//! included, directly or through others, are in one part, and no part could be divided. A ring is
//! even about a place outside its box (`proofs/BoxLaws.antt`), so one part at most is odd about a
//! place, and [`parts_tell_places`] says that some part is odd about a place exactly where all
//! rings together are (`proofs/PartLaws.antt`). How parts are found, by the first ring that each is
//! joined to, is `specs/Heads.antt` and `proofs/PartLemmas.antt`.
#![tactic(auto)]

mod link_laws;
mod part_laws;

pub use link_laws::rings_have_laws;
pub use part_laws::parts_tell_places;
