//! Tests of commands, books, sessions, desks and live runs, by their public calls alone.
//!
//! A crate with tests is proved twice, with them and without, so they are in a crate of their own.
//! Nothing depends on it.
#![tactic(auto)]

#[cfg(test)]
mod book_tests;
#[cfg(test)]
mod calls;
#[cfg(test)]
mod core_tests;
#[cfg(test)]
mod desk_runs;
#[cfg(test)]
mod drawn;
#[cfg(test)]
mod examples;
#[cfg(test)]
mod live_runs;
#[cfg(test)]
mod printing;
#[cfg(test)]
mod refusals;
