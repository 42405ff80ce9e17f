//! Versions and snapshots of a layout: they lend what they hold, and share what didn't change.
//!
//! What a snapshot lends is of the layout as it was when the snapshot was taken, whatever came
//! after. Nothing here knows of a file format: a reader's crate gives the items of a text one after
//! another, as `cif_layout` does.
//!
//! # Model
//!
//! - [`Version`] is kept as an `Arc` of a map of symbols and one of a map of items. Contracts see
//!   the record `Layout` of `lay_layouts/specs/Layout.antt`, however it is kept.
//! - [`Snapshot`] is kept as an `Arc` of a version. Contracts see its `Layout`. Sharing it copies
//!   nothing.
//! - The map of items (`item_map.rt`) is kept as pages of items in order of the ids, and pages of
//!   the marks of their runs, by cell and by cell and layer. Contracts see the finite map from ids
//!   to items.
//! - [`NumberedItems`] takes the items of a text: pages under their ids, the last of which grows,
//!   and a count. Contracts see the list of its items; where memory runs out, some may be lost.
//! - [`Entries`] lends all items, and the iterators of [`Snapshot::items`], [`Snapshot::shapes`]
//!   and [`Snapshot::calls`] those of a cell, its shapes on a layer and its calls, in order of
//!   their ids: these are kept as the pages of items, the marks of runs, a group, and what is left
//!   of the items from its run on. Contracts see the list of those that are left
//!   (`lay_layouts/specs/Lent.antt`).
//!
//! A run is items that follow each other and are of one group: a cell's items, its shapes on layers
//! of a tag, or its calls. A [`Mark`] says where a run begins; marks are in order of group and id.
//! A group's items are read run by run: from a mark on up to the first item of another group, which
//! is the only other item that is read, then from the group's next mark on.
//!
//! # Invariants
//!
//! - `Snapshot`: the layout is sound (`IsSound` of `lay_layouts/specs/Sound.antt`).
//!   [`Snapshot::of`] requires it of the version; it isn't tested at run time.
//! - The map of items: items are in order of their ids; each item that begins a run has a mark, and
//!   each mark is that of an item, with its group (`AreHeld` of `specs/Runs.antt`). An item that no
//!   longer begins a run may keep its mark.
//! - `NumberedItems`: its q-th item has the id 0.0.q, and its count is that of all (`AreNumbered`
//!   of `specs/Numbered.antt`).
//! - What an iterator of a group has left is the end of all items, which are in order and marked
//!   (`AreLent` of `specs/Runs.antt`).
//!
//! # Files
//!
//! - `version.rt`, `snapshot.rt`, `item_map.rt`: layouts. Writes make anew the pages that they fall
//!   in, of items, and of marks where runs begin or end by them; more writes than one in thirty-two
//!   of the items go into them in one pass (`entries.rt`).
//! - `builder.rt`, `numbered.rt`, `beginnings.rt`: items that come one after another, and their
//!   marks.
//! - `iter.rt`: what is lent; `group.rt`, `marks.rt`, `runs.rt`: groups, marks and runs.
//!
//! # Example
//!
//! ```text
//! let mut items = NumberedItems::new(alloc);
//! items.push(alloc, item)?;
//! let snapshot = Snapshot::of(alloc, Version::of_numbered(alloc, &symbols, items)?)?;
//! for (id, item) in snapshot.items(CellId::Top) { .. }
//! ```
#![tactic(auto)]

mod beginnings;
mod builder;
mod entries;
mod group;
mod item_map;
mod iter;
mod marks;
mod numbered;
mod runs;
mod snapshot;
mod version;

pub use builder::ItemsBuilder;
pub use group::{By, Group};
pub use iter::{Calls, Entries, Items, Shapes};
pub use marks::{Mark, Marks};
pub use numbered::NumberedItems;
pub use runs::Runs;
pub use snapshot::Snapshot;
pub use version::Version;
