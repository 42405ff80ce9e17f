//! Bytes in and out: devices, decimal numbers as text, and lines.
//!
//! # Model
//!
//! - [`Out`] takes bytes and [`In`] gives them. Each has ghost members, which contracts read: what
//!   was written or remains to be read, `None` where the device can't know it, and counts of its
//!   calls. So a contract over any device says which bytes were written and how often it failed.
//!   [`put_all`] writes a whole text, or a prefix of it up to the first failure.
//! - [`OutBuffer`] is put before a device that is to take many small pieces. It is kept as 16,384
//!   bytes in place, and whether the device has failed; it takes no memory. Contracts see the bytes
//!   that are held back, or none once it has. It keeps the first failure until `flush` reports it.
//! - [`MemoryOut`] and [`MemoryIn`] are devices in memory that fail where they are told to: texts
//!   are put into them to be read again, and tests use them in place of files.
//! - [`push_unsigned`] appends a number's decimal digits to a text. [`capped_decimal`] is the way
//!   back: the value of digits of any length, up to a limit and one more. [`number_of`] is the
//!   number that a word spells, where it is a number.
//! - [`split_line`] cuts the first line off a text, and [`content`] is what a line says without its
//!   end (`specs/Lines.antt`).
//!
//! # Example
//!
//! The test `examples::a_number_is_put_to_a_device` of `cif_tests` runs this.
//!
//! ```text
//! let mut text = Vec::new(alloc);
//! push_unsigned(&mut text, 40)?;
//! let mut out = MemoryOut::new(alloc, 7, 1000, Failing::ByErr);
//! assert!(rt; put_all(&mut out, &text).is_ok());
//! assert_eq!(rt; out.written(), b"40".as_slice());
//! ```
#![tactic(auto)]

mod buffer;
mod count;
mod decimal;
mod device;
mod input;
mod lines;
mod memory;
mod numbers;

pub use buffer::OutBuffer;
pub use count::GhostCount;
pub use decimal::{capped_decimal, push_signed, push_unsigned};
pub use device::{Out, OutFault, put_all};
pub use input::{In, InFault, ReadCounts};
pub use lines::{content, find_byte, split_line};
pub use memory::{Failing, MemoryIn, MemoryOut};
pub use numbers::{are_digits, is_number, number_of};
