//! What a transaction leaves: what it wrote, and what it read or wrote.
//!
//! # Model
//!
//! - [`Writes`] has a record of each item and of each symbol that differ between two layouts, with
//!   both values ([`ItemChange`], [`CellChange`]), in order. It is kept as a `BTreeMap` of items
//!   and one of symbols, each value of an item before and after shared on its own. It grows write
//!   by write: [`Writes::set_item`] and [`Writes::set_symbol`] merge a write with those before it,
//!   so that what is written back to its first value has no record. Contracts see the records of
//!   both, in order (`Records` of `txn_commands/specs/Records.antt`).
//! - [`Records`] is what a committed transaction keeps of them: the same in two lists, without room
//!   for others; a sole item is in place. Contracts see the same records. [`Records::applied`] and
//!   [`Records::reverted`] lead from the one layout to the other and back; no command is run again.
//! - [`Footprint`] is kept as a `BTreeSet` of elements (`Element` of `txn_commands`). Contracts see
//!   the finite set of its elements.
//! - [`Elements`] are those of a footprint, or those that records meet, in a list that doesn't
//!   grow. Contracts see the finite set of them.
//! - [`Marks`] are what a history keeps of a transaction: its records, the elements that they meet, and
//!   its footprint, in such lists.
//! - [`OneOrMany`] is kept as one element in place, else as a `Vec`. Contracts see the list of its
//!   elements.
//!
//! Whether two layouts have the same in each element of a footprint is [`agrees`], and whether some
//! record meets one of them is [`Records::touch`]: each record is looked up by the few elements in
//! which its values lie, so the footprint isn't gone over.
#![tactic(auto)]

mod change;
mod elements;
mod footprint;
mod listed;
mod marks;
mod met;
mod one_or_many;
mod records;
mod same;
mod values;
mod writes;

pub use change::{CellChange, ItemChange};
pub use footprint::Footprint;
pub use listed::Elements;
pub use marks::Marks;
pub use one_or_many::OneOrMany;
pub use records::Records;
pub use same::agrees;
pub use writes::Writes;
