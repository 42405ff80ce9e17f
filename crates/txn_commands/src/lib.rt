//! Commands of transactions: what each makes of a layout, and what it reads.
//!
//! A [`Command`] is refused, with a [`CmdFault`], and then changes nothing, or it is accepted: it has an
//! answer, leads to a layout, and has touched parts of the layout, its [`Element`]s. What it does is `effect` of
//! `specs/Effects.antt`; the refusals in their order, and then its act, are `plan` of `specs/Plans.antt`.
//! What a transaction wrote is read off the layouts before and after it, as [`Record`]s and
//! [`CellRecord`]s (`specs/Records.antt`). Layouts agree on an element where all values that lie in it
//! are equal (`specs/Lies.antt`, `specs/Agreement.antt`).
//!
//! The laws of commands are stated in `specs/Laws.antt`, and proved in `txn_rules`.
#![tactic(auto)]

mod command;
mod element;
mod fault;
mod record;

pub use command::{Command, Done, MAX_COMMANDS, TxnId};
pub use element::Element;
pub use fault::CmdFault;
pub use record::{CellRecord, Record};
