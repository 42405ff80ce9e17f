//! An index of a history: who wrote and who touched what, so that conflicts are looked up by
//! elements and not asked of each transaction.
//!
//! A place is the index of a transaction in its history, a plain number.
//!
//! # Model
//!
//! - [`Index`] is two listings: the places of the live transactions that wrote an element, and of
//!   those that touched it, that is read or wrote it. Under an item the transaction that made it is
//!   in neither: the item's id tells which one that is, so listing it would tell nothing more.
//! - [`Listing`] is kept as a tree of pairs for items, whose ids take less room, and for each other
//!   element the places under it (`parts.rt`). Contracts see the finite set of its pairs of element
//!   and place (`specs/Listed.antt`).
//! - The places under one element (`place_set.rt`) are a sole one in place, or a tree. Contracts ask
//!   which places are there, and of a search that it finds the first one from a place on that
//!   passes a test (`specs/First.antt`); [`lesser`] joins two searches.
//! - [`Places`] is a list of places. Contracts see the list. [`first_apart`] finds the least place
//!   that one of two such lists has and the other hasn't: so the places that are linked are
//!   compared with those that were.
//!
//! # Invariants
//!
//! - `Places`: they rise, each once ([`Places::of`] sorts them).
//! - `Index` keeps nothing in its type. That it has just the live transactions of a history is kept
//!   by the book of `undo_book`, which finds makers by their names. Where memory runs out, [`Index::enter`] and [`Listing::add`] take
//!   back what they listed, so a place that is new leaves the listing as it was.
//!
//! # Files
//!
//! - `index.rt`, `listing.rt`, `under.rt`, `parts.rt`, `place_set.rt`: what is listed under elements.
//! - `places.rt`, `apart.rt`, `least.rt`: what is asked with, and what is found.
#![tactic(auto)]

mod apart;
mod index;
mod least;
mod listing;
mod parts;
mod place_set;
mod places;
mod under;

pub use apart::first_apart;
pub use index::Index;
pub use least::lesser;
pub use listing::{Listing, element_id};
pub use places::Places;
