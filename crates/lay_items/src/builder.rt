//! Items that come in order of their ids.
//!
//! `push` and `Beginnings::take` are inlined, so that an item is moved straight into its page.
ghost use Rattle.std.specs.Prelude.{◌≡◌, ◌++◌, [], ◌∷◌, IfOk, OnOk};
ghost use Rattle.std.specs.List.Sorted.{IsStrictlySortedBy};
ghost use Rattle.std.specs.Map.{keys_of};
ghost use Rattle.lay_items.specs.Runs.{AreHeld};
ghost use Rattle.lay_layouts.specs.Ids.{id_cmp};

use crate::beginnings::Beginnings;
use crate::group::By;
use crate::runs::Runs;
use lay_layouts::{Item, ItemId};
use lay_pages::{Pages, PagesBuilder};
use lay_point::NoMemory;
use std::alloc::Global;
use std::marker::Model;

/// Takes items one after another, and makes full pages of them and the marks of their runs, so that they needn't be
/// gone over once more for these. Contracts see the list of the items under their ids.
#[derive(Drop)]
pub struct ItemsBuilder {
    items: PagesBuilder<ItemId, Item>,
    cells: Beginnings,
    layers: Beginnings,
}

impl Model for ItemsBuilder {
    ghost use Rattle.std.specs.Prelude.{List};
    ghost use Rattle.lay_items.specs.Begun.{AreMarked};
    ghost use Rattle.lay_items.specs.Runs.{HeldItem};

    ghost Value = { List HeldItem };

    ghost view = { λ b. b.items };

    ghost invariant = { λ b. AreMarked b.items b.cells b.layers };
}

impl ItemsBuilder {
    /// Returns no items.
    pub fn new(alloc: Global) -> ItemsBuilder
        ensures { result ≡ [] }
    {
        ItemsBuilder {
            items: PagesBuilder::new(alloc),
            cells: Beginnings::new(alloc),
            layers: Beginnings::new(alloc),
        }
    }

    // Inlined, so that an item is made where it stays.
    /// Puts an item after them, under its id. Where memory runs out, items may be lost.
    ///
    /// # Errors
    ///
    /// `NoMemory`, if an allocation fails.
    #[inline(always)]
    pub fn push(&mut self, alloc: Global, id: ItemId, item: Item) -> Result<(), NoMemory>
        ensures { OnOk result (self.new ≡ self.old ++ ((id, item) ∷ [])) }
    {
        let in_cells = self.cells.take(By::Cell, id, &item);
        let in_layers = self.layers.take(By::Layer, id, &item);
        let pushed = self.items.push(alloc, id, item);
        if in_cells.is_ok() && in_layers.is_ok() && pushed.is_ok() {
            return Ok(());
        }
        *self = ItemsBuilder::new(alloc);
        Err(NoMemory)
    }

    /// Returns the pages of the items, and where their runs begin.
    ///
    /// # Errors
    ///
    /// `NoMemory`, if an allocation fails.
    ///
    /// # Cost
    ///
    /// A sort of the marks of the runs.
    pub fn build(self, alloc: Global) -> Result<(Pages<ItemId, Item>, Runs), NoMemory>
        requires { IsStrictlySortedBy id_cmp (keys_of self) }
        ensures items { IfOk result (λ made. made.0 ≡ self) }
        ensures runs { IfOk result (λ made. AreHeld self made.1.cells made.1.layers) }
    {
        let ItemsBuilder {
            items,
            cells,
            layers,
        } = self;
        let cells = cells.end(alloc)?;
        let layers = layers.end(alloc)?;
        let items = items.build(alloc)?;
        Ok((items, Runs { cells, layers }))
    }
}
