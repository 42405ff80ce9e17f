//! Laws of whole runs: whatever steps sessions take lead to a history in which undo is exact, and
//! the printed order of a run answers as the run did.
//!
//! Nothing of this runs: functions with an empty body carry the laws. `session_core` says what a
//! step answers and leaves, `undo_rules` what a history is, and `undo_laws` what stays of an
//! operation in a history; the laws here join them.
//!
//! # The laws
//!
//! - [`steps_lead_to_histories`] (`specs/Histories.antt`): whatever steps sessions take from a
//!   sound layout, in whatever order, also where memory is refused to some, what they leave is a
//!   history from that layout. So at its end, which is what is written, the shapes of each
//!   operation of a live transaction still hold where the operation did, until another live one
//!   writes on the layer.
//! - [`undos_take_out`] (`specs/Undoing.antt`): at each of these steps an undo of a live
//!   transaction whose writes no later live one touched takes it out of the history exactly, and a
//!   redo at once puts it back, whatever opens, commands, looks, cancels and refused calls come
//!   between. Out of memory, or that the log is full, can be answered in place of each.
//! - [`logs_lead_to_histories`] (`specs/Logs.antt`): the same of sessions in threads, whose steps
//!   are in no order but that of the calls in the log which they share. Where that is legal, as a
//!   closed desk's is (`desk_rules`), it leads to such a history.
//! - [`the_printed_order_answers_alike`] (`specs/Rearranged.antt`): the same steps, taken in the
//!   order that is printed after them, lead to the same state, and each session has the same
//!   replies, where no step was out of memory. A job may name the printed order as its own.
//!
//! # Files
//!
//! - `history_laws.rt`: the first three; `order_laws.rt`: the last.
#![tactic(auto)]

mod history_laws;
mod order_laws;

pub use history_laws::{logs_lead_to_histories, steps_lead_to_histories, undos_take_out};
pub use order_laws::the_printed_order_answers_alike;
