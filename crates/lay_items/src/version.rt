//! Versions of a layout, each a map of symbols and one of items, which they share.
ghost use Rattle.std.specs.Prelude.{◌≡◌, ◌≤◌, ◌*◌, IfOk, Ok, option_copied};
ghost use Rattle.std.specs.Arc.{arc_value};
ghost use Rattle.std.specs.FinMap as map;
ghost use Rattle.std.specs.Ordering.{nat_cmp};
ghost use Rattle.lay_point.specs.Memory.{IsAnswer};
ghost use Rattle.lay_layouts.specs.Ids.{id_cmp};
ghost use Rattle.lay_layouts.specs.Items.{items_in};
ghost use Rattle.lay_layouts.specs.Layout.{AreRising, changed, is_cell, item_at, no_items, put_all};
ghost use Rattle.lay_layouts.specs.LayoutWith.{layout_with};
ghost use Rattle.lay_layouts.specs.Lent.{calls_in, shapes_in};
ghost use Rattle.lay_layouts.specs.Same.{symbols_eq};
ghost use Rattle.lay_layouts.specs.SlotOrder.{in_slot_order};

use crate::item_map::ItemMap;
use crate::iter::{Calls, Entries, Items, Shapes};
use crate::numbered::{NumberedItems, numbered};
use lay_cells::{CellId, Cells};
use lay_layouts::{CellSlot, Item, ItemId, SymbolMap};
use lay_point::{LayerName, NoMemory};
use std::alloc::Global;
use std::marker::Model;
use std::sync::Arc;

/// A layout as it is at one time. Contracts see the finite maps of its symbols and of its items. Versions
/// that differ in items alone share their symbols, and the other way round.
#[derive(Drop)]
pub struct Version {
    symbols: Arc<SymbolMap>,
    items: Arc<ItemMap>,
}

impl Model for Version {
    ghost use Rattle.std.specs.Arc.{arc_value};
    ghost use Rattle.lay_layouts.specs.Layout.{Layout, coded_layout};

    ghost Value = { Layout };

    ghost coded = { coded_layout };

    ghost view = { λ v. record { symbols = arc_value v.symbols; items = arc_value v.items } };
}

impl Version {
    /// Returns the layout without symbols and items.
    ///
    /// # Errors
    ///
    /// `NoMemory`, if an allocation fails.
    pub fn new(alloc: Global) -> Result<Version, NoMemory>
        ensures { IsAnswer (record {}) result (Ok no_items) }
    {
        let symbols = Arc::new(alloc, SymbolMap::new(alloc))?;
        let items = Arc::new(alloc, ItemMap::new(alloc))?;
        Ok(Version { symbols, items })
    }

    /// Returns the layout of these symbols, in this order, and of these items, of which the q-th has the id
    /// 0.0.q. Where there are more symbols or items than a `u32` counts, that is out of memory.
    ///
    /// # Errors
    ///
    /// `NoMemory`, if an allocation fails.
    ///
    /// # Cost
    ///
    /// A pass over the items, and a sort of where runs of a cell or a layer begin.
    pub fn of_parts(alloc: Global, symbols: &Cells, items: Vec<Item>) -> Result<Version, NoMemory>
        ensures { IsAnswer (record {}) result (Ok (layout_with symbols.now items.items)) }
    {
        Version::of_numbered(alloc, symbols, numbered(alloc, items)?)
    }

    /// Returns the layout of these symbols and of items that have their ids, as `of_parts` does: so who makes items one
    /// after another needn't list them first.
    ///
    /// # Errors
    ///
    /// `NoMemory`, if an allocation fails.
    ///
    /// # Cost
    ///
    /// As that of `of_parts`.
    pub fn of_numbered(
        alloc: Global,
        symbols: &Cells,
        items: NumberedItems,
    ) -> Result<Version, NoMemory>
        ensures { IsAnswer (record {}) result (Ok (layout_with symbols.now items)) }
    {
        let symbols = Arc::new(alloc, SymbolMap::of_text(alloc, symbols)?)?;
        let items = Arc::new(alloc, ItemMap::of_numbered(alloc, items)?)?;
        Ok(Version { symbols, items })
    }

    /// Returns the item of this id.
    ///
    /// # Cost
    ///
    /// Comparisons in proportion to the logarithm of the number of items.
    pub fn item(&self, id: ItemId) -> Option<&Item>
        ensures { option_copied result ≡ item_at self.now id }
    {
        self.item_map().get(id)
    }

    /// Returns the number of items.
    pub fn size(&self) -> usize
        ensures { result ≡ map.len self.now.items }
    {
        self.item_map().len()
    }

    /// Returns the number of pages of items. A page has 64 at most, and versions share those that no write
    /// between them falls in.
    ///
    /// # Cost
    ///
    /// That of `Pages::pages`.
    pub fn pages(&self) -> usize
        ensures few { result ≤ map.len self.now.items }
        ensures full { map.len self.now.items ≤ 64 * result }
    {
        self.item_map().pages()
    }

    /// Returns whether the cell is there: the top cell, and each symbol.
    ///
    /// # Cost
    ///
    /// Comparisons in proportion to the logarithm of the number of symbols.
    pub fn is_cell(&self, cell: CellId) -> bool
        ensures { result ≡ is_cell self.now cell }
    {
        match cell {
            CellId::Top => true,
            CellId::Symbol(number) => self.symbol_map().has(number),
        }
    }

    /// Returns the symbols' numbers in the order of their slots: those of a text by their places, then those
    /// that transactions made, by number.
    pub fn cells(&self) -> &Cells
        ensures { result.now ≡ in_slot_order self.now.symbols }
    {
        self.symbol_map().cells()
    }

    /// Returns the slot of the symbol of this number, where there is one.
    ///
    /// # Cost
    ///
    /// As that of `is_cell`.
    pub fn slot(&self, number: u32) -> Option<CellSlot>
        ensures { result ≡ map.get self.now.symbols number }
    {
        self.symbol_map().get(number)
    }

    /// Returns whether another layout has the same symbols in the same slots.
    ///
    /// # Cost
    ///
    /// A pass over the symbols.
    pub fn has_symbols_of(&self, other: &Version) -> bool
        ensures { result ≡ symbols_eq self.now.symbols other.now.symbols }
    {
        self.symbol_map().is_same(other.symbol_map())
    }

    /// Returns the ids and the items, in order of the ids.
    pub fn iter(&self) -> Entries<'_>
        ensures { result ≡ map.entries self.now.items }
    {
        self.item_map().iter()
    }

    /// Lends the items of a cell, in order of their ids, as `Snapshot::items` does.
    #[tactic(auto, unfolding(lay_layouts::specs::Items::items_in))]
    pub fn items(&self, cell: CellId) -> Items<'_>
        ensures { result ≡ items_in self.now cell }
    {
        self.item_map().in_cell(cell)
    }

    /// Lends the shapes of a cell on a layer, as `Snapshot::shapes` does.
    #[tactic(auto, unfolding(lay_layouts::specs::Items::items_in, lay_layouts::specs::Lent::shapes_in))]
    pub(crate) fn shapes(&self, cell: CellId, layer: LayerName) -> Shapes<'_>
        ensures { result ≡ shapes_in self.now cell layer }
    {
        self.item_map().shapes(cell, layer)
    }

    /// Lends the calls that stand in a cell, as `Snapshot::calls` does.
    #[tactic(auto, unfolding(lay_layouts::specs::Items::items_in, lay_layouts::specs::Lent::calls_in))]
    pub(crate) fn calls(&self, cell: CellId) -> Calls<'_>
        ensures { result ≡ calls_in self.now cell }
    {
        self.item_map().calls(cell)
    }

    /// Returns the layout after these writes: under an id or a number stands this item or slot from then on,
    /// or none. What isn't written is shared.
    ///
    /// # Errors
    ///
    /// `NoMemory`, if an allocation fails.
    ///
    /// # Cost
    ///
    /// Where few items are written, those that fall into the same page make it, its book and the list of the books
    /// anew, 64 at a time, and each that begins or ends a run as much of the marks of runs; where many are, all pages
    /// are made anew in one pass. Where symbols are written, each makes a page of theirs anew, and the list of their
    /// numbers is copied.
    pub fn with(
        &self,
        alloc: Global,
        items: &[(ItemId, Option<Item>)],
        symbols: &[(u32, Option<CellSlot>)],
    ) -> Result<Version, NoMemory>
        requires items { AreRising id_cmp items.now }
        requires symbols { AreRising nat_cmp symbols.now }
        ensures { IsAnswer (record {}) result
            (Ok (changed self.now (record { items = items.now; symbols = symbols.now }))) }
    {
        let symbols = self.symbols_with(alloc, symbols)?;
        let items = self.items_with(alloc, items)?;
        Ok(Version { symbols, items })
    }

    /// Returns the symbols after these writes.
    fn symbols_with(
        &self,
        alloc: Global,
        writes: &[(u32, Option<CellSlot>)],
    ) -> Result<Arc<SymbolMap>, NoMemory>
        ensures { IfOk result (λ new. arc_value new ≡ put_all self.now.symbols writes.now) }
    {
        if writes.is_empty() {
            return Ok(Arc::try_clone(&self.symbols)?);
        }
        Ok(Arc::new(alloc, self.symbol_map().with(alloc, writes)?)?)
    }

    /// Returns the items after these writes.
    fn items_with(
        &self,
        alloc: Global,
        writes: &[(ItemId, Option<Item>)],
    ) -> Result<Arc<ItemMap>, NoMemory>
        requires { AreRising id_cmp writes.now }
        ensures { IfOk result (λ new. arc_value new ≡ put_all self.now.items writes.now) }
    {
        if writes.is_empty() {
            return Ok(Arc::try_clone(&self.items)?);
        }
        Ok(Arc::new(alloc, self.item_map().with(alloc, writes)?)?)
    }

    /// Returns the symbols.
    fn symbol_map(&self) -> &SymbolMap
        ensures { result.now ≡ self.now.symbols }
    {
        &self.symbols
    }

    /// Returns the items.
    fn item_map(&self) -> &ItemMap
        ensures { result.now ≡ self.now.items }
    {
        &self.items
    }
}

impl PartialEq for Version {
    ghost use Rattle.lay_layouts.specs.SameLayout.{layout_eq, layout_eq_partial};

    ghost eq = { layout_eq };

    ghost laws = { layout_eq_partial };

    fn eq(&self, other: &Version) -> bool {
        self.has_symbols_of(other) && self.item_map().is_same(other.item_map())
    }
}

impl Eq for Version {
    ghost use Rattle.lay_layouts.specs.SameLayout.{layout_eq_equiv};

    ghost laws = { layout_eq_equiv };
}
