//! Legal logs of a book that several sessions share, and the calls of each session in them.
//!
//! A log is legal where each of its calls is of a session that is there and has the answer of the
//! book's step at its place (`specs/Legal.antt`). A session keeps its own logged calls with their
//! places, each as [`SeatCall`]. [`is_last_in`] tests whether a log has the last of them at its place,
//! and [`missing_place`] names the first that it hasn't; that a log has them, and no others of the
//! session, is said in `specs/Seats.antt`. What is behind the lock of a desk is
//! `specs/Guards.antt`, how a call is refused `specs/Refusals.antt`, and its end `specs/Close.antt`.
//!
//! Nothing here takes a lock or starts a thread.
#![tactic(auto)]

mod laws;
mod seat_call;

pub use laws::logs_have_laws;
pub use seat_call::{SeatCall, is_in, is_last_in, missing_place};
