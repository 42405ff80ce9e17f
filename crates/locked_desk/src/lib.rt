//! `--threaded`: sessions that run in threads of their own, over one book under a lock.
//!
//! Each call of a session goes through the lock to the book. A transaction runs its commands on its
//! own `Work` of `txn_work`, which has no desk, so no command runs under the lock.
//!
//! # Model
//!
//! - [`Desk`] is a book under a lock, with a fixed number of sessions. Contracts see the layout
//!   that it was made with, the number of sessions and the most logged calls.
//! - [`Seat`] is a session's token, which can't be copied: its logged calls, with their answers and
//!   places, and its share of the desk's count of calls. Contracts see the session and its calls.
//! - Behind the lock (`guarded.rt`) are the book, the number of each session's calls in its log,
//!   and a ledger that counts all of them. Contracts see these (`Guard` of
//!   `desk_rules/specs/Guards.antt`).
//! - [`Closed`] is what is left of a desk: its book.
//!
//! What is known of a call that is logged: there is a legal log whose last call it is, with the
//! answer and at the place that the seat keeps (`specs/Desks.antt`). Of one that isn't, as where the
//! log is full: there is a legal log after which the book's step refuses it so (`IsRefused` of
//! `desk_rules/specs/Refusals.antt`). Once a desk is closed with all
//! its seats, its log is legal from the layout that the desk was made with, and has just the calls
//! that the seats keep, each once (`IsClosed` of `desk_rules/specs/Close.antt`).
//!
//! # Invariants
//!
//! - Behind the lock: the log is legal, and each session has as many calls in it as are counted
//!   (`IsGuard` of `desk_rules/specs/Guards.antt`). Each call does what the book's does and, where
//!   it is logged, adds it to the seat's calls.
//! - `Seat`: its calls rise, and its share is their number.
//! - `Desk`: 1 to `MAX_SESSIONS` sessions, as many as its ledger has parts. That its lock has its layout, sessions
//!   and limit no type says, so calls compare them: the layout, which takes longest, at an open, and
//!   where a refusal isn't logged.
//!
//! A seat whose calls the log doesn't have is answered `Differs` ([`DeskFault`]), and closing
//! without all seats `MissingSeat` ([`CloseRefusal`]); all is handed back.
//!
//! # Files
//!
//! - `desk.rt`, `origin.rt`, `seat.rt`, `way.rt`: the desk.
//! - `guarded.rt`, `guarded_calls.rt`, `guarded_shown.rt`: what is behind its lock, the calls that it takes, and its layout.
//!   Nothing in them waits.
//! - `calls.rt`, `shown.rt`, `close.rt`: what a session may ask of it: calls, the layout, its end.
//! - `entering.rt`: how they get behind its lock.
//! - `steps.rt`, `sessions.rt`, `run.rt`: the steps of a session, a thread for each, and
//!   [`run_scripts`], which makes the desk and runs a script for each session. [`SessionGate`] is
//!   called before each step; no answer depends on it.
//!
//! # Example
//!
//! The test `examples::a_script_runs_in_a_thread` of `history_tests` runs this.
//!
//! ```text
//! let run = run_scripts(&rt, alloc, 1, base, scripts)?;
//! let order = order_of(alloc, run.closed.book.log(), run.replies.as_slice())?;
//! ```
#![tactic(auto)]

mod calls;
mod close;
mod desk;
mod entering;
mod fault;
mod guarded;
mod guarded_calls;
mod guarded_shown;
mod origin;
mod run;
mod seat;
mod sessions;
mod shown;
mod steps;
mod way;

pub use close::{CloseRefusal, Closed};
pub use desk::Desk;
pub use fault::{DeskFault, RunFault};
pub use run::run_scripts;
pub use seat::Seat;
pub use sessions::{Run, run_sessions};
pub use steps::SessionGate;
