//! Sorted maps that share their pages: a map after a write shares all but what the write changed.
//!
//! # Model
//!
//! - [`Pages`] is a map as the list of its entries: in pages of 1 to 64 entries, and books of 1 to
//!   64 pages. Each page, each book and the list of the books is shared. Contracts see the list of
//!   the entries, in order of their keys.
//! - [`PagesBuilder`] takes entries one after another, in order of their keys, and makes full pages
//!   of them. Contracts see the list of the entries so far; where memory runs out, some may be
//!   lost.
//! - [`Entries`] lends a map's entries, in order. It is kept as what is left of a page, of its book
//!   and of the books. Contracts see the list of those that are left.
//! - [`PageKey`] is a key whose order ties only equal keys, and [`PageValue`] a value whose clone is
//!   equal to it.
//!
//! A write makes a page, its book and the list of the books anew ([`Pages::with`]): up to 64
//! entries, 64 pages and one book for some 2,000 to 4,096 entries. Writes whose keys rise
//! ([`Pages::with_rising`]) are made in groups of up to 64 that fall into the same page, and each
//! group makes those anew once. [`Pages::share`] copies nothing.
//!
//! # Invariants
//!
//! - `Pages`: keys rise strictly, pages and books have 1 to 64 elements each, and the count is that
//!   of all entries (`AreCountedBooks` of `specs/Shared.antt`). The empty map has this and each
//!   write keeps it, so nothing is tested.
//! - `PagesBuilder`: what it has taken is cut into full lists, and its count is that of all
//!   (`AreTaken` of `specs/Shared.antt`).
//!
//! # Files
//!
//! - `pages.rt`, `builder.rt`, `entries.rt`: a type each; `keys.rt`: the traits of keys and values.
//! - `page.rt`: a page. A key is found in it by halving, and a group of writes makes it anew
//!   (`specs/Written.antt`).
//! - `page_place.rt`, `place.rt`: into which book and which page a key falls (`specs/Places.antt`).
//! - `look.rt`, `beside.rt`: the value under a key, and the entry before it.
//! - `update.rt`: which writes are a group, and what they make anew; `share.rt` and `lists.rt`:
//!   lists of shared lists of up to 64, spliced, appended to, or filled in one pass.
#![tactic(auto)]

mod beside;
mod builder;
mod entries;
mod keys;
mod lists;
mod look;
pub mod page;
mod page_place;
mod pages;
mod place;
mod share;
mod update;

pub use builder::PagesBuilder;
pub use entries::Entries;
pub use keys::{PageKey, PageValue};
pub use pages::Pages;
