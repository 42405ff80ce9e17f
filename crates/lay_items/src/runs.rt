//! The runs of items, by cell and by layer.
ghost use Rattle.std.specs.Prelude.{◌≡◌, [], IfOk};
ghost use Rattle.std.specs.List.Sorted.{IsStrictlySortedBy};
ghost use Rattle.std.specs.Map.{keys_of};
ghost use Rattle.lay_pages.specs.Written.{written_all};
ghost use Rattle.lay_items.specs.Runs.{AreHeld};
ghost use Rattle.lay_layouts.specs.Ids.{id_cmp};

use crate::group::By;
use crate::marks::{Marks, site_of, written};
use lay_layouts::{Item, ItemId};
use lay_pages::Pages;
use lay_point::NoMemory;
use std::alloc::Global;

/// Where the runs of items begin: those of a cell, and those of a cell's layer or of its calls.
#[derive(Drop)]
pub struct Runs {
    /// The marks of runs of a cell's items.
    pub cells: Marks,
    /// The marks of runs of a cell's shapes on layers of a tag, and of its calls.
    pub layers: Marks,
}

impl Runs {
    /// Returns the runs of no items.
    pub fn new(alloc: Global) -> Runs
        ensures { AreHeld [] result.cells result.layers }
    {
        Runs {
            cells: Pages::new(alloc),
            layers: Pages::new(alloc),
        }
    }

    /// Returns the runs after these writes, whose ids rise: under each id is this item from then on, or none. The
    /// items are those before all of the writes and those after all of them.
    ///
    /// # Errors
    ///
    /// `NoMemory`, if an allocation fails.
    ///
    /// # Cost
    ///
    /// For each write a few searches by halving, and where runs begin or end by it, that of `Pages::with` once to six
    /// times.
    pub fn with_all(
        &self,
        alloc: Global,
        old: &Pages<ItemId, Item>,
        new: &Pages<ItemId, Item>,
        writes: &[(ItemId, Option<Item>)],
    ) -> Result<Runs, NoMemory>
        requires held { AreHeld old.now self.now.cells self.now.layers }
        requires rising { IsStrictlySortedBy id_cmp (keys_of writes.now) }
        requires new { new.now ≡ written_all id_cmp old.now writes.now }
        ensures { IfOk result (λ runs. AreHeld new.now runs.cells runs.layers) }
    {
        let mut cells = self.cells.share(alloc)?;
        let mut layers = self.layers.share(alloc)?;
        for (id, item) in writes {
            let site = site_of(old, new, *id);
            cells = written(alloc, &cells, By::Cell, &site, *id, item.as_ref())?;
            layers = written(alloc, &layers, By::Layer, &site, *id, item.as_ref())?;
        }
        Ok(Runs { cells, layers })
    }
}
