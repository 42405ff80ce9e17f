//! Tests of the layout's crates, by their public calls alone.
//!
//! A crate with tests is proved twice, with them and without, so they are in a crate of their own.
//! Nothing depends on it.
#![tactic(auto)]

#[cfg(test)]
mod cells;
#[cfg(test)]
mod flat;
#[cfg(test)]
mod items;
#[cfg(test)]
mod oriented;
#[cfg(test)]
mod pages;
#[cfg(test)]
mod points;
#[cfg(test)]
mod runs;
#[cfg(test)]
mod winding;
