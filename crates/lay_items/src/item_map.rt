//! The items of a layout, by id and by cell.
ghost use Rattle.std.specs.Prelude.{◌≡◌, ◌≤◌, ◌*◌, IfOk, option_copied};
ghost use Rattle.std.specs.FinMap as map;
ghost use Rattle.std.specs.List.Sorted.{IsStrictlySortedBy};
ghost use Rattle.std.specs.Map.{keys_of};
ghost use Rattle.lay_layouts.specs.Ids.{id_cmp};
ghost use Rattle.lay_layouts.specs.Items.{standing_in};
ghost use Rattle.lay_layouts.specs.Layout.{AreRising, map_of_items, put_all};
ghost use Rattle.lay_layouts.specs.LayoutWith.{numbered_from};
ghost use Rattle.lay_layouts.specs.Lent.{calls_lent, shapes_among};
ghost use Rattle.lay_layouts.specs.SameLayout.{items_eq};

use crate::builder::ItemsBuilder;
use crate::entries::{listed, taken};
use crate::iter::{Calls, Entries, Items, Shapes};
use crate::numbered::NumberedItems;
use crate::runs::Runs;
use lay_cells::CellId;
use lay_layouts::{Item, ItemId, are_same_pages};
use lay_pages::{Pages, page};
use lay_point::{LayerName, NoMemory};
use std::alloc::Global;
use std::marker::Model;

/// The items of a layout. Contracts see the finite map from ids to items.
#[derive(Drop)]
pub(crate) struct ItemMap {
    items: Pages<ItemId, Item>,
    /// The runs of those that stand in a cell, and there on a layer.
    runs: Runs,
}

impl Model for ItemMap {
    ghost use Rattle.std.specs.FinMap as map;
    ghost use Rattle.std.specs.FinMap.{FinMap};
    ghost use Rattle.lay_layouts.specs.contracts.item.Item as item;
    ghost use Rattle.lay_layouts.specs.declared.item.Item.{Item};
    ghost use Rattle.lay_items.specs.Runs.{AreHeld};
    ghost use Rattle.lay_layouts.specs.Ids.{coded_id, id_cmp};
    ghost use Rattle.lay_layouts.specs.Layout.{map_of_items};

    ghost Value = { FinMap id_cmp Item };

    ghost coded = { map.code coded_id item.the_row.coded };

    ghost view = { λ m. map_of_items m.items };

    ghost invariant = { λ m. AreHeld m.items m.runs.cells m.runs.layers };
}

impl ItemMap {
    /// Returns no items.
    pub(crate) fn new(alloc: Global) -> ItemMap
        ensures { result ≡ map.empty }
    {
        ItemMap {
            items: Pages::new(alloc),
            runs: Runs::new(alloc),
        }
    }

    /// Returns the items under the ids 0.0.1 and on.
    pub(crate) fn of_numbered(alloc: Global, items: NumberedItems) -> Result<ItemMap, NoMemory>
        ensures { IfOk result (λ numbered. numbered ≡ map_of_items (numbered_from 1 items)) }
    {
        ItemMap::of(alloc, items.entries())
    }

    /// Returns the map of these items.
    fn of(alloc: Global, items: ItemsBuilder) -> Result<ItemMap, NoMemory>
        requires { IsStrictlySortedBy id_cmp (keys_of items) }
        ensures { IfOk result (λ map. map ≡ map_of_items items) }
    {
        let (items, runs) = items.build(alloc)?;
        Ok(ItemMap { items, runs })
    }

    /// Returns the item of this id.
    pub(crate) fn get(&self, id: ItemId) -> Option<&Item>
        ensures { option_copied result ≡ map.get self.now id }
    {
        self.items.get(id)
    }

    /// Returns the number of items.
    pub(crate) fn len(&self) -> usize
        ensures { result ≡ map.len self.now }
    {
        self.items.len()
    }

    /// Returns the number of pages of items.
    pub(crate) fn pages(&self) -> usize
        ensures few { result ≤ map.len self.now }
        ensures full { map.len self.now ≤ 64 * result }
    {
        self.items.pages()
    }

    /// Returns the ids and the items, in order of the ids.
    pub(crate) fn iter(&self) -> Entries<'_>
        ensures { result ≡ map.entries self.now }
    {
        Entries::new(self.items.iter())
    }

    /// Lends the items of a cell, in order of their ids.
    pub(crate) fn in_cell(&self, cell: CellId) -> Items<'_>
        ensures { result ≡ standing_in cell (map.entries self.now) }
    {
        Items::new(&self.items, &self.runs, cell)
    }

    /// Lends the shapes of a cell on a layer, in order of their ids.
    pub(crate) fn shapes(&self, cell: CellId, layer: LayerName) -> Shapes<'_>
        ensures { result ≡ shapes_among layer (standing_in cell (map.entries self.now)) }
    {
        Shapes::new(&self.items, &self.runs, cell, layer)
    }

    /// Lends the calls that stand in a cell, in order of their ids.
    pub(crate) fn calls(&self, cell: CellId) -> Calls<'_>
        ensures { result ≡ calls_lent (standing_in cell (map.entries self.now)) }
    {
        Calls::new(&self.items, &self.runs, cell)
    }

    /// Returns whether others are the same items under the same ids.
    pub(crate) fn is_same(&self, other: &ItemMap) -> bool
        ensures { result ≡ items_eq self.now other.now }
    {
        are_same_pages(&self.items, &other.items)
    }

    /// Returns the items after these writes. Where they are many, one pass over all items is faster.
    pub(crate) fn with(
        &self,
        alloc: Global,
        writes: &[(ItemId, Option<Item>)],
    ) -> Result<ItemMap, NoMemory>
        requires { AreRising id_cmp writes.now }
        ensures { IfOk result (λ new. new ≡ put_all self.now writes.now) }
    {
        let new = if writes.len() > self.items.len() / 32 {
            self.merged(alloc, writes)?
        } else {
            self.written_all(alloc, writes)?
        };
        Ok(new)
    }

    /// Returns the items after these writes, made by one pass over all of them.
    fn merged(&self, alloc: Global, writes: &[(ItemId, Option<Item>)]) -> Result<ItemMap, NoMemory>
        requires { AreRising id_cmp writes.now }
        ensures { IfOk result (λ new. new ≡ put_all self.now writes.now) }
    {
        let entries = listed(alloc, &self.items)?;
        let entries = page::with_all(alloc, &entries, writes)?;
        let new = ItemMap::of(alloc, taken(alloc, entries)?)?;
        Ok(new)
    }

    /// Returns the items after these writes. The pages that they fall in are made anew, and of the marks of runs a
    /// few where runs begin or end.
    fn written_all(
        &self,
        alloc: Global,
        writes: &[(ItemId, Option<Item>)],
    ) -> Result<ItemMap, NoMemory>
        requires { AreRising id_cmp writes.now }
        ensures { IfOk result (λ new. new ≡ put_all self.now writes.now) }
    {
        let items = self.items.with_rising(alloc, writes)?;
        let runs = self.runs.with_all(alloc, &self.items, &items, writes)?;
        Ok(ItemMap { items, runs })
    }
}
