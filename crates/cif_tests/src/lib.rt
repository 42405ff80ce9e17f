//! Tests of `byte_io`, `cif_names`, `cif_laws` and `job_advice`, by their public calls alone.
//!
//! A crate with tests is proved twice, with them and without, so they are in a crate of their own.
//! Nothing depends on it.
#![tactic(auto)]

#[cfg(test)]
mod advice;
#[cfg(test)]
mod examples;
#[cfg(test)]
mod names;
#[cfg(test)]
mod reread;
#[cfg(test)]
mod streams;
