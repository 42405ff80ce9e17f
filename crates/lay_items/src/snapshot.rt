//! Snapshots: shared, sound layouts that lend what they hold.
ghost use Rattle.std.specs.Prelude.{◌≡◌, Ok, option_copied};
ghost use Rattle.std.specs.FinMap as map;
ghost use Rattle.lay_point.specs.Memory.{IsAnswer};
ghost use Rattle.lay_layouts.specs.Items.{items_in};
ghost use Rattle.lay_layouts.specs.Layout.{item_at};
ghost use Rattle.lay_layouts.specs.Lent.{calls_in, points_at, shapes_in};
ghost use Rattle.lay_layouts.specs.SlotOrder.{in_slot_order};
ghost use Rattle.lay_layouts.specs.Sound.{IsSound};

use crate::iter::{Calls, Items, Shapes};
use crate::version::Version;
use lay_cells::{CellId, Cells};
use lay_layouts::{CellSlot, Item, ItemId};
use lay_point::{LayerName, NoMemory, Point};
use std::alloc::Global;
use std::marker::Model;
use std::sync::Arc;

/// A sound layout as it was at one time, shared by all who hold it. Contracts see the layout.
#[derive(Drop)]
pub struct Snapshot {
    version: Arc<Version>,
}

impl Model for Snapshot {
    ghost use Rattle.std.specs.Arc.{arc_value};
    ghost use Rattle.lay_layouts.specs.Layout.{Layout, coded_layout};
    ghost use Rattle.lay_layouts.specs.Sound.{IsSound};

    ghost Value = { Layout };

    ghost coded = { coded_layout };

    ghost view = { λ s. arc_value s.version };

    ghost invariant = { λ s. IsSound (arc_value s.version) };
}

impl Snapshot {
    /// Returns the snapshot of a sound version.
    ///
    /// # Errors
    ///
    /// `NoMemory`, if an allocation fails.
    pub fn of(alloc: Global, version: Version) -> Result<Snapshot, NoMemory>
        requires { IsSound version }
        ensures { IsAnswer (record {}) result (Ok version) }
    {
        let version = Arc::new(alloc, version)?;
        Ok(Snapshot { version })
    }

    /// Returns one more owner of the same layout. The allocator is not used.
    ///
    /// # Errors
    ///
    /// `NoMemory`, if an allocation fails.
    pub fn share(&self, _alloc: Global) -> Result<Snapshot, NoMemory>
        ensures { IsAnswer (record {}) result (Ok self.now) }
    {
        let version = Arc::try_clone(&self.version)?;
        Ok(Snapshot { version })
    }

    /// Returns the layout as a version.
    pub fn version(&self) -> &Version
        ensures value { result.now ≡ self.now }
        ensures sound { IsSound self.now }
    {
        &self.version
    }

    /// Returns the item of this id.
    ///
    /// # Cost
    ///
    /// Comparisons in proportion to the logarithm of the number of items.
    pub fn item(&self, id: ItemId) -> Option<&Item>
        ensures { option_copied result ≡ item_at self.now id }
    {
        self.version().item(id)
    }

    /// Returns the symbols' numbers in the order of their slots: those of a text by their places, then those
    /// that transactions made, by number.
    pub fn cells(&self) -> &Cells
        ensures { result.now ≡ in_slot_order self.now.symbols }
    {
        self.version().cells()
    }

    /// Returns the slot of the symbol of this number, where there is one.
    ///
    /// # Cost
    ///
    /// Comparisons in proportion to the logarithm of the number of symbols.
    pub fn slot(&self, number: u32) -> Option<CellSlot>
        ensures { result ≡ map.get self.now.symbols number }
    {
        self.version().slot(number)
    }

    /// Returns the number of items.
    pub fn size(&self) -> usize
        ensures { result ≡ map.len self.now.items }
    {
        self.version().size()
    }

    /// Lends the points of an item's ring, where it is a shape that has one of this index.
    ///
    /// # Cost
    ///
    /// As that of `item`.
    pub fn points(&self, id: ItemId, ring: usize) -> Option<&[Point]>
        ensures { option_copied result ≡ points_at self.now id ring }
    {
        match self.item(id)? {
            Item::Shape { rings, .. } => Some(rings.as_slice().get(ring)?.points()),
            Item::Placed { .. } => None,
        }
    }

    /// Lends the items of a cell, in order of their ids.
    ///
    /// # Cost
    ///
    /// It goes over the runs of the cell's items, those that follow each other in order of all ids. For each run it
    /// takes two searches by halving, and reads one item of another cell.
    pub fn items(&self, cell: CellId) -> Items<'_>
        ensures { result ≡ items_in self.now cell }
    {
        self.version().items(cell)
    }

    /// Lends the shapes of a cell on a layer, each its id and its rings, in order of their ids.
    ///
    /// # Cost
    ///
    /// It goes over the runs of the cell's shapes on the layer, as `items` does over those of the cell's items. Shapes
    /// on another layer of the cell are passed over one by one only where the two names have the same tag, which few
    /// of 2³² have.
    pub fn shapes(&self, cell: CellId, layer: &LayerName) -> Shapes<'_>
        ensures { result ≡ shapes_in self.now cell layer.now }
    {
        self.version().shapes(cell, *layer)
    }

    /// Lends the calls that stand in a cell, each its id, the number of the symbol that it calls and what is
    /// done to that, in order of their ids.
    ///
    /// # Cost
    ///
    /// It goes over the runs of the cell's calls, as `items` does over those of its items.
    pub fn calls(&self, cell: CellId) -> Calls<'_>
        ensures { result ≡ calls_in self.now cell }
    {
        self.version().calls(cell)
    }
}

impl PartialEq for Snapshot {
    ghost use Rattle.lay_layouts.specs.SameLayout.{layout_eq, layout_eq_partial};

    ghost eq = { layout_eq };

    ghost laws = { layout_eq_partial };

    fn eq(&self, other: &Snapshot) -> bool {
        self.version() == other.version()
    }
}

impl Eq for Snapshot {
    ghost use Rattle.lay_layouts.specs.SameLayout.{layout_eq_equiv};

    ghost laws = { layout_eq_equiv };
}
