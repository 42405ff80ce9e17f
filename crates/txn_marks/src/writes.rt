//! What a transaction wrote.
ghost use Rattle.std.specs.Prelude.{◌≡◌, [], IfOk, OnErr, OnOk, map, option_copied};
ghost use Rattle.std.specs.BTreeMap.{IsOrdered, IsUnchanged, Updates};
ghost use Rattle.lay_layouts.specs.Sound.{IsSound};
ghost use Rattle.txn_commands.specs.Records.{
  AreProper,
  applied,
  cell_record_of,
  recorded_change,
  record_of,
  slot_change_at,
};
ghost use Rattle.txn_marks.specs.WritesOf.{Merges, MergesSymbol};

use crate::change::{CellChange, ItemChange, cell_change, item_change};
use crate::records::Records;
use lay_items::Snapshot;
use lay_layouts::{CellSlot, Item, ItemId};
use lay_point::NoMemory;
use std::alloc::Global;
use std::collections::BTreeMap;
use std::marker::Model;

/// The items and the symbols that differ between two layouts, with both values. Contracts see the records,
/// in order of ids and of numbers.
#[derive(Debug, Drop)]
pub struct Writes {
    items: BTreeMap<ItemId, ItemChange>,
    symbols: BTreeMap<u32, CellChange>,
    alloc: Global,
}

impl Model for Writes {
    ghost use Rattle.txn_commands.specs.Records.{Records};
    ghost use Rattle.txn_marks.specs.Coded.{coded_records};
    ghost use Rattle.txn_marks.specs.WritesOf.{records_in};

    ghost Value = { Records };

    ghost coded = { coded_records };

    ghost view = { records_in };
}

impl Writes {
    /// Returns no writes.
    pub fn new(alloc: Global) -> Writes
        ensures { result ≡ record { items = []; symbols = [] } }
    {
        Writes {
            items: BTreeMap::new(alloc),
            symbols: BTreeMap::new(alloc),
            alloc,
        }
    }

    /// Returns equal writes. The rings of items are shared.
    ///
    /// # Errors
    ///
    /// `NoMemory`, if an allocation fails.
    ///
    /// # Cost
    ///
    /// A pass over the records.
    pub fn copy(&self) -> Result<Writes, NoMemory>
        ensures { IfOk result (λ copy. copy ≡ self.now) }
    {
        Ok(Writes {
            items: self.items.clone()?,
            symbols: self.symbols.clone()?,
            alloc: self.alloc,
        })
    }

    /// Returns what was written under the id, if anything was.
    ///
    /// # Cost
    ///
    /// Comparisons in proportion to the logarithm of the number of records.
    pub fn item(&self, id: ItemId) -> Option<&ItemChange>
        ensures { option_copied result ≡ recorded_change self.now.items id }
    {
        self.items.get(&id)
    }

    /// Returns what was written of the symbol of this number, if anything was.
    ///
    /// # Cost
    ///
    /// As that of `item`.
    pub fn symbol(&self, number: u32) -> Option<&CellChange>
        ensures { option_copied result ≡ slot_change_at self.now.symbols number }
    {
        self.symbols.get(&number)
    }

    /// Lends the changes of items, in order of their ids.
    pub fn items(&self) -> &BTreeMap<ItemId, ItemChange>
        ensures { map record_of result.now.entries ≡ self.now.items }
    {
        &self.items
    }

    /// Lends the changes of symbols, in order of their numbers.
    pub fn symbols(&self) -> &BTreeMap<u32, CellChange>
        ensures { map cell_record_of result.now.entries ≡ self.now.symbols }
    {
        &self.symbols
    }

    /// Writes an item, which had the value `before` in the first of the two layouts.
    ///
    /// # Errors
    ///
    /// `NoMemory`, if an allocation fails; nothing is changed then.
    ///
    /// # Cost
    ///
    /// As that of `item`.
    pub fn set_item(
        &mut self,
        id: ItemId,
        before: Option<Item>,
        after: Option<Item>,
    ) -> Result<(), NoMemory>
        ensures ok { OnOk result (Merges self.old id before after self.new) }
        ensures err { OnErr result (self.new ≡ self.old) }
    {
        let change = item_change(self.alloc, before, after)?;
        keep(&mut self.items, id, change)
    }

    /// Writes a symbol, which had the slot `before` in the first of the two layouts.
    ///
    /// # Errors
    ///
    /// `NoMemory`, if an allocation fails; nothing is changed then.
    ///
    /// # Cost
    ///
    /// As that of `item`.
    pub fn set_symbol(
        &mut self,
        number: u32,
        before: Option<CellSlot>,
        after: Option<CellSlot>,
    ) -> Result<(), NoMemory>
        ensures ok { OnOk result (MergesSymbol self.old number before after self.new) }
        ensures err { OnErr result (self.new ≡ self.old) }
    {
        keep(&mut self.symbols, number, cell_change(before, after))
    }

    /// Returns the layout with the values after. Where nothing was written it is the same layout, shared.
    ///
    /// # Errors
    ///
    /// `NoMemory`, if an allocation fails.
    ///
    /// # Cost
    ///
    /// That of `Version::with`.
    pub fn applied(&self, alloc: Global, layout: &Snapshot) -> Result<Snapshot, NoMemory>
        requires proper { AreProper self.now }
        requires sound { IsSound (applied layout.now self.now) }
        ensures { IfOk result (λ new. new ≡ applied layout.now self.now) }
    {
        Records::of(alloc, self)?.applied(alloc, layout)
    }
}

/// Keeps the value under the key, or removes what is there where it is `None`.
fn keep<K: Ord + Drop, V: Drop>(
    tree: &mut BTreeMap<K, V>,
    key: K,
    value: Option<V>,
) -> Result<(), NoMemory>
    ensures ok { OnOk result (Updates K.cmp tree.old tree.new key value) }
    ensures ordered { IsOrdered K.cmp tree.new }
    ensures err { OnErr result (IsUnchanged tree.old tree.new) }
{
    match value {
        Some(value) => {
            tree.insert(key, value)?;
        }
        None => {
            tree.remove(&key);
        }
    }
    Ok(())
}
