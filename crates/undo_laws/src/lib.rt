//! Laws of histories in the user's words: what operations drew stays, footprints have no more than
//! they owe, and refusals name their cause.
//!
//! Nothing of this runs: functions with an empty body carry the laws.
//!
//! # What a Boolean command draws, and how long it stays
//!
//! Such a command computes an operation on two layers: it removes the shapes of its cell on an
//! output layer and writes those of the operation there. `bool_rules` says where the shapes of an
//! operation are, and `txn_rules` what a command writes.
//!
//! - [`commands_draw_operations`] (`specs/Laws.antt`): directly after the command a place is inside
//!   some shape of the cell on the output layer exactly where the operation holds of the two layers
//!   as they were, rounded together. So it is of the rings of the shapes, and of the one path for
//!   each shape that the text of a layout has. Shapes elsewhere and calls stay, where the ids of
//!   the new shapes are free.
//! - [`operations_stay_in_histories`] (`specs/Staying.antt`): in a history that began on a sound
//!   layout the same holds at the end, of an operation of a live transaction, unless that
//!   transaction changed the shapes after it or a later live one wrote there.
//!
//! # What a footprint has
//!
//! - [`footprints_are_owed`] (`specs/Owed.antt`): each element comes from a command that looked at
//!   it or wrote it, by the kind of the command. And layouts that agree on a footprint are found
//!   to, so that no work is turned away as another history's without cause. That a footprint has
//!   all that a transaction reads and writes follows from the laws of `txn_rules`.
//!
//! # What a refusal names
//!
//! `undo_rules` computes the answers. Here those that name a transaction are said in words
//! (`specs/Refusing.antt`), where no two transactions have one name and the log has room.
//!
//! - [`undos_are_refused_for_cause`]: Depends comes exactly where the transaction is live and a
//!   later live one touched what it wrote; the first of them is named.
//! - [`redos_are_refused_for_cause`]: Depends comes exactly where the transaction is undone and a
//!   later live one touched what it wrote; Moved where none did, and an earlier one is linked now
//!   and wasn't seen, or the other way round.
//! - [`commits_are_refused_for_cause`]: Foreign comes exactly where the work isn't the pending one
//!   of its session, or the layout at its open and its snapshot don't agree on what it touched;
//!   Stale where neither is so, and a call since its open changed a transaction that wrote what the
//!   work touched.
//!
//! # Files
//!
//! - `region_laws.rt`, `footprint_laws.rt`, `refusal_laws.rt`: the laws, in this order.
#![tactic(auto)]

mod footprint_laws;
mod refusal_laws;
mod region_laws;

pub use footprint_laws::footprints_are_owed;
pub use refusal_laws::{
    commits_are_refused_for_cause, redos_are_refused_for_cause, undos_are_refused_for_cause,
};
pub use region_laws::{commands_draw_operations, operations_stay_in_histories};
