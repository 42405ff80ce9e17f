//! Tests of rounding, faces and operations, by their public calls alone.
//!
//! A crate with tests is proved twice, with them and without, so they are in a crate of their own.
//! Nothing depends on it.
#![tactic(auto)]

#[cfg(test)]
mod bands;
#[cfg(test)]
mod drawn;
#[cfg(test)]
mod examples;
#[cfg(test)]
mod joins;
#[cfg(test)]
mod labels;
#[cfg(test)]
mod operations;
#[cfg(test)]
mod rings;
#[cfg(test)]
mod rounding;
#[cfg(test)]
mod shapes;
