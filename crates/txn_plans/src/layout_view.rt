//! The layout as a transaction sees it.
ghost use Rattle.std.specs.Prelude.{◌≡◌, IfOk, IfSome, option_copied};
ghost use Rattle.std.specs.FinMap as map;
ghost use Rattle.lay_layouts.specs.Layout.{is_cell, item_at};
ghost use Rattle.lay_layouts.specs.Sound.{IsSound};
ghost use Rattle.txn_commands.specs.Records.{applied};
ghost use Rattle.txn_plans.specs.Seeing.{Overlays};

use lay_cells::CellId;
use lay_items::Snapshot;
use lay_layouts::{CellSlot, Item, ItemId};
use lay_point::NoMemory;
use std::alloc::Global;
use std::marker::Model;
use txn_marks::Writes;

/// A snapshot with writes over it, and the layout that they make, where it is kept. Contracts see that
/// layout.
#[derive(Drop)]
pub struct LayoutView<'a> {
    snapshot: &'a Snapshot,
    writes: &'a Writes,
    whole: Option<&'a Snapshot>,
}

impl<'a> Model for LayoutView<'a> {
    ghost use Rattle.lay_layouts.specs.Layout.{Layout, coded_layout};
    ghost use Rattle.txn_plans.specs.Seeing.{IsSeen, seen_layout};

    ghost Value = { Layout };

    ghost coded = { coded_layout };

    ghost view = { seen_layout };

    ghost invariant = { IsSeen };
}

impl<'a> LayoutView<'a> {
    /// Returns the snapshot with the writes over it. `whole` is the layout that they make, where it is kept.
    pub fn new(
        snapshot: &'a Snapshot,
        writes: &'a Writes,
        whole: Option<&'a Snapshot>,
    ) -> LayoutView<'a>
        requires over { Overlays snapshot.now writes.now }
        requires whole { IfSome (option_copied whole) (λ l. l ≡ applied snapshot.now writes.now) }
        ensures { result ≡ applied snapshot.now writes.now }
    {
        LayoutView {
            snapshot,
            writes,
            whole,
        }
    }

    /// Returns the item of this id.
    ///
    /// # Cost
    ///
    /// Comparisons in proportion to the logarithm of the number of items.
    pub fn item(&self, id: ItemId) -> Option<&'a Item>
        ensures { option_copied result ≡ item_at self.now id }
    {
        match self.writes.item(id) {
            Some(change) => change.after(),
            None => self.snapshot.item(id),
        }
    }

    /// Returns the slot of the symbol of this number.
    ///
    /// # Cost
    ///
    /// Comparisons in proportion to the logarithm of the number of symbols.
    pub fn slot(&self, number: u32) -> Option<CellSlot>
        ensures { result ≡ map.get self.now.symbols number }
    {
        match self.writes.symbol(number) {
            Some(change) => change.after(),
            None => self.snapshot.slot(number),
        }
    }

    /// Returns whether there is such a cell. The top cell is always there.
    pub(crate) fn is_cell(&self, cell: CellId) -> bool
        ensures { result ≡ is_cell self.now cell }
    {
        match cell {
            CellId::Top => true,
            CellId::Symbol(number) => self.slot(number).is_some(),
        }
    }

    /// Returns the layout as a snapshot of its own.
    ///
    /// # Errors
    ///
    /// `NoMemory`, if an allocation fails.
    ///
    /// # Cost
    ///
    /// That of `Version::with`, where the layout isn't kept.
    pub fn whole(&self, alloc: Global) -> Result<Snapshot, NoMemory>
        ensures value { IfOk result (λ whole. whole ≡ self.now) }
    {
        match self.whole {
            Some(whole) => whole.share(alloc),
            None => self.writes.applied(alloc, self.snapshot),
        }
    }
}
