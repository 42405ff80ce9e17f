//! What a transaction wrote, once it writes no more.
ghost use Rattle.std.specs.Prelude.{◌≡◌, IfOk, map};
ghost use Rattle.std.specs.FinSet as set;
ghost use Rattle.lay_layouts.specs.Sound.{IsSound};
ghost use Rattle.txn_commands.specs.Meets.{meets_touched};
ghost use Rattle.txn_commands.specs.Records.{
  AreProper,
  applied,
  cell_record_of,
  record_of,
  reverted,
};
ghost use Rattle.txn_marks.specs.Homes.{AreMetBy};

use crate::change::{CellChange, ItemChange};
use crate::elements::{add_items, add_symbols};
use crate::footprint::Footprint;
use crate::met::{items_touch, symbols_touch};
use crate::one_or_many::OneOrMany;
use crate::values::{item_afters, item_befores, symbol_afters, symbol_befores};
use crate::writes::Writes;
use lay_items::Snapshot;
use lay_layouts::ItemId;
use lay_point::NoMemory;
use std::alloc::Global;
use std::collections::BTreeMap;
use std::marker::Model;
use txn_commands::Element;

/// The records of [`Writes`] that don't grow any more, in lists without room for others: most transactions
/// write a few items, for which a node of a tree is ten times as large. A sole item stands in place. Contracts
/// see the records, in order of ids and of numbers.
#[derive(Debug, Drop)]
pub struct Records {
    items: OneOrMany<(ItemId, ItemChange)>,
    symbols: Vec<(u32, CellChange)>,
}

impl Model for Records {
    ghost use Rattle.txn_commands.specs.Records.{Records};
    ghost use Rattle.txn_marks.specs.Coded.{coded_records};
    ghost use Rattle.txn_marks.specs.WritesOf.{records_listed};

    ghost Value = { Records };

    ghost coded = { coded_records };

    ghost view = { records_listed };
}

impl Records {
    /// Returns those of the writes. The values of items are shared.
    ///
    /// # Errors
    ///
    /// `NoMemory`, if an allocation fails.
    ///
    /// # Cost
    ///
    /// A pass over the records.
    pub fn of(alloc: Global, writes: &Writes) -> Result<Records, NoMemory>
        ensures { IfOk result (λ records. records ≡ writes.now) }
    {
        let items = few_items(alloc, writes.items())?;
        let symbols = listed_symbols(alloc, writes.symbols())?;
        Ok(Records { items, symbols })
    }

    /// Lends the changes of items, in order of their ids.
    pub fn items(&self) -> &[(ItemId, ItemChange)]
        ensures { map record_of result.now ≡ self.now.items }
    {
        self.items.as_slice()
    }

    /// Lends the changes of symbols, in order of their numbers.
    pub fn symbols(&self) -> &[(u32, CellChange)]
        ensures { map cell_record_of result.now ≡ self.now.symbols }
    {
        self.symbols.as_slice()
    }

    /// Returns the layout with the values after. Where nothing was written it is the same layout, shared.
    ///
    /// # Errors
    ///
    /// `NoMemory`, if an allocation fails.
    ///
    /// # Cost
    ///
    /// That of `Version::with`.
    pub fn applied(&self, alloc: Global, layout: &Snapshot) -> Result<Snapshot, NoMemory>
        requires proper { AreProper self.now }
        requires sound { IsSound (applied layout.now self.now) }
        ensures { IfOk result (λ new. new ≡ applied layout.now self.now) }
    {
        let items = item_afters(alloc, self.items.as_slice())?;
        let symbols = symbol_afters(alloc, &self.symbols)?;
        Snapshot::of(alloc, layout.version().with(alloc, &items, &symbols)?)
    }

    /// Returns the layout with the values before. Where nothing was written it is the same layout, shared.
    ///
    /// # Errors
    ///
    /// `NoMemory`, if an allocation fails.
    ///
    /// # Cost
    ///
    /// That of `Version::with`.
    pub fn reverted(&self, alloc: Global, layout: &Snapshot) -> Result<Snapshot, NoMemory>
        requires proper { AreProper self.now }
        requires sound { IsSound (reverted layout.now self.now) }
        ensures { IfOk result (λ new. new ≡ reverted layout.now self.now) }
    {
        let items = item_befores(alloc, self.items.as_slice())?;
        let symbols = symbol_befores(alloc, &self.symbols)?;
        Snapshot::of(alloc, layout.version().with(alloc, &items, &symbols)?)
    }

    /// Returns the elements that some record meets: those in which a value lies, before or after. They are in no
    /// order, and one may stand there several times.
    ///
    /// # Errors
    ///
    /// `NoMemory`, if an allocation fails.
    ///
    /// # Cost
    ///
    /// A few elements for each record, each compared with a few.
    pub fn elements(&self, alloc: Global) -> Result<Vec<Element>, NoMemory>
        ensures { IfOk result (λ met. AreMetBy self.now (set.from_list met.items)) }
    {
        let mut met = Vec::new(alloc);
        add_items(&mut met, self.items.as_slice())?;
        add_symbols(&mut met, &self.symbols)?;
        Ok(met)
    }

    /// Returns whether some record meets an element of the footprint.
    ///
    /// # Cost
    ///
    /// A few look-ups for each record.
    pub fn touch(&self, footprint: &Footprint) -> bool
        ensures { result ≡ meets_touched self.now footprint.now }
    {
        items_touch(self.items.as_slice(), footprint) || symbols_touch(&self.symbols, footprint)
    }
}

/// Returns the changes of items. A sole one takes no allocation.
fn few_items(
    alloc: Global,
    items: &BTreeMap<ItemId, ItemChange>,
) -> Result<OneOrMany<(ItemId, ItemChange)>, NoMemory>
    ensures { IfOk result (λ list. list ≡ items.now.entries) }
{
    if items.len() == 1
        && let Some((id, change)) = items.first_key_value()
    {
        return Ok(OneOrMany::one((*id, change.clone()?)));
    }
    Ok(OneOrMany::of(listed_items(alloc, items)?))
}

/// Returns the changes of items in a list.
fn listed_items(
    alloc: Global,
    items: &BTreeMap<ItemId, ItemChange>,
) -> Result<Vec<(ItemId, ItemChange)>, NoMemory>
    ensures { IfOk result (λ list. list.items ≡ items.now.entries) }
{
    let mut list = Vec::with_capacity(alloc, items.len())?;
    for (id, change) in items {
        list.push((*id, change.clone()?))?;
    }
    Ok(list)
}

/// Returns the changes of symbols in a list.
fn listed_symbols(
    alloc: Global,
    symbols: &BTreeMap<u32, CellChange>,
) -> Result<Vec<(u32, CellChange)>, NoMemory>
    ensures { IfOk result (λ list. list.items ≡ symbols.now.entries) }
{
    let mut list = Vec::with_capacity(alloc, symbols.len())?;
    for (number, change) in symbols {
        list.push((*number, *change))?;
    }
    Ok(list)
}
