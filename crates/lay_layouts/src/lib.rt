//! Layouts: symbols by their numbers, and items by their ids.
//!
//! A layout is a finite map from item ids to items, and one from symbol numbers to slots: the
//! record `Layout` of `specs/Layout.antt`, with what writes make of it.
//!
//! # Model
//!
//! - [`Item`] is a shape of rings on a layer, or a call with a turn; each is in a cell. [`ItemId`]
//!   is its session, transaction and number; items of a text have the session and the transaction
//!   0.
//! - [`Rings`] is kept as a sole ring of four points in place, else as an `Arc` of a ring or of a
//!   `Vec` of several, so items share them. Contracts see the list of its rings.
//! - [`CellSlot`] is a symbol's place in a text, or says that a transaction made it. Symbols are in
//!   the order of their slots (`specs/SlotOrder.antt`).
//! - [`SymbolMap`] is kept as pages of slots in order of the numbers, and the numbers in order of
//!   the slots. Contracts see the finite map from numbers to slots.
//!
//! # Invariants
//!
//! - `SymbolMap`: its list of numbers is that of its map, in the order of their slots
//!   (`in_slot_order` of `specs/SlotOrder.antt`).
//! - A sound layout (`IsSound` of `specs/Sound.antt`) has numbers up to `MAX_SYMBOL` of
//!   `lay_cells`, no two symbols with one place of a text, items in cells that are there, shapes of
//!   one ring or more whose bridged path is no longer than a ring, calls of symbols that are there
//!   with shifts in range, and no symbol that contains itself. No type of this crate keeps that;
//!   `Snapshot` of `lay_items` does.
//!
//! Maps of items, and versions and snapshots of layouts, are in `lay_items`.
#![tactic(auto)]

mod id;
mod item;
mod parts;
mod slot;
mod symbol_map;
mod trees;

pub use id::ItemId;
pub use item::{Item, Rings};
pub use parts::one_more;
pub use slot::CellSlot;
pub use symbol_map::SymbolMap;
pub use trees::are_same_pages;
