//! Histories of transactions: what undo and redo of any of them does, and the laws of that.
//!
//! A history is a base, and committed transactions in the order of their commits, each live or undone
//! (`specs/Histories.antt`). Its layout is that of running the live ones, in this order, from the base. A
//! transaction is linked to the live earlier ones that wrote what it touched; `specs/Links.antt`. It can be
//! undone unless a later live one is linked to it, and redone unless it wrote what a later live one
//! touched, or is linked to others than at its commit.
//!
//! A [`SessionId`] is the number of a session, a [`SessionCount`] how many there are: each is from 1 to
//! [`MAX_SESSIONS`], tested where it is made.
//!
//! The calls of `laws` do nothing. Their clauses say that an undo leads to the layout of the same history
//! without the transaction, that a redo at once leads back, and that a commit appends what its commands do
//! on the layout as it then is; although no command is run again.
#![tactic(auto)]

mod laws;
mod log;
mod session;

pub use laws::{calls_keep_the_book, histories_have_laws};
pub use log::{Answer, BookFault, Call, Logged};
pub use session::{MAX_SESSIONS, SessionCount, SessionId};
