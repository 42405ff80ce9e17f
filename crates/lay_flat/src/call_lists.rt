//! The calls that stand in cells, listed once for each cell.
ghost use Rattle.std.specs.Prelude.{◌≡◌, IfOk, OnOk};
ghost use Rattle.lay_cells.specs.declared.cell_id.CellId.TheVariants.{Symbol, Top};
ghost use Rattle.lay_layouts.specs.Lent.{calls_in};
ghost use Rattle.lay_layouts.specs.Sound.{IsSound};

use crate::shared::Shared;
use lay_cells::CellId;
use lay_items::{Snapshot, Version};
use lay_layouts::ItemId;
use lay_point::{NoMemory, Turn};
use std::alloc::Global;
use std::collections::BTreeMap;
use std::marker::Model;

/// A call: its id, the number of the symbol that it calls, and what is done to all points of that.
pub(crate) type Call = (ItemId, u32, Turn);

/// The calls in each cell that was asked for, listed once. Contracts see the layout.
#[derive(Drop)]
pub(crate) struct CallLists<'s> {
    snapshot: &'s Snapshot,
    top: Option<Shared<Call>>,
    symbols: BTreeMap<u32, Shared<Call>>,
}

impl<'s> Model for CallLists<'s> {
    ghost use Rattle.std.specs.Prelude.{◌≡◌, IfSome};
    ghost use Rattle.lay_cells.specs.declared.cell_id.CellId.TheVariants.{Symbol, Top};
    ghost use Rattle.lay_layouts.specs.Layout.{Layout, coded_layout};
    ghost use Rattle.lay_layouts.specs.Lent.{calls_in};
    ghost use Rattle.lay_flat.specs.Lists.{AreListsOf};

    ghost Value = { Layout };

    ghost coded = { coded_layout };

    ghost view = { λ l. l.snapshot.now };

    ghost invariant = { λ l. IfSome l.top (λ list. list ≡ calls_in l.snapshot.now Top)
        × AreListsOf (λ n. calls_in l.snapshot.now (Symbol n)) l.symbols.entries };
}

impl<'s> CallLists<'s> {
    /// Returns no lists.
    pub(crate) fn new(alloc: Global, snapshot: &'s Snapshot) -> CallLists<'s>
        ensures { result ≡ snapshot.now }
    {
        CallLists {
            snapshot,
            top: None,
            symbols: BTreeMap::new(alloc),
        }
    }

    /// Lends the layout, which is sound.
    pub(crate) fn version(&self) -> &Version
        ensures value { result.now ≡ self.now }
        ensures sound { IsSound self.now }
    {
        self.snapshot.version()
    }

    /// Returns the calls that stand in a cell, in order of their ids, and keeps the list.
    pub(crate) fn of(&mut self, alloc: Global, cell: CellId) -> Result<Shared<Call>, NoMemory>
        ensures list { IfOk result (λ list. list ≡ calls_in self.old cell) }
        ensures same { OnOk result (self.new ≡ self.old) }
    {
        match cell {
            CellId::Top => self.of_top(alloc),
            CellId::Symbol(number) => self.of_symbol(alloc, number),
        }
    }

    /// Returns the calls that stand in the top cell, in order of their ids, and keeps the list.
    fn of_top(&mut self, alloc: Global) -> Result<Shared<Call>, NoMemory>
        ensures list { IfOk result (λ list. list ≡ calls_in self.old Top) }
        ensures same { OnOk result (self.new ≡ self.old) }
    {
        if let Some(list) = &self.top {
            return list.share();
        }
        let list = listed(alloc, self.snapshot, CellId::Top)?;
        let kept = list.share()?;
        self.top = Some(kept);
        Ok(list)
    }

    /// Returns the calls that stand in a symbol, in order of their ids, and keeps the list.
    fn of_symbol(&mut self, alloc: Global, number: u32) -> Result<Shared<Call>, NoMemory>
        ensures list { IfOk result (λ list. list ≡ calls_in self.old (Symbol number)) }
        ensures same { OnOk result (self.new ≡ self.old) }
    {
        if let Some(list) = self.symbols.get(&number) {
            return list.share();
        }
        let list = listed(alloc, self.snapshot, CellId::Symbol(number))?;
        let kept = list.share()?;
        self.symbols.insert(number, kept)?;
        Ok(list)
    }
}

/// Returns a list of the calls that stand in a cell, in order of their ids.
fn listed(alloc: Global, snapshot: &Snapshot, cell: CellId) -> Result<Shared<Call>, NoMemory>
    ensures { IfOk result (λ list. list ≡ calls_in snapshot.now cell) }
{
    let mut list = Vec::new(alloc);
    for call in snapshot.calls(cell) {
        list.push(call)?;
    }
    Shared::of(alloc, list)
}
