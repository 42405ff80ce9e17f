//! The symbols of a layout, by number and in the order of their slots.
ghost use Rattle.std.specs.Prelude.{◌≡◌, ◌&&◌, IfOk, IfSome, OnOk, is_none, is_some};
ghost use Rattle.std.specs.FinMap as finite;
ghost use Rattle.lay_layouts.specs.Layout.{put_all, symbols_of};
ghost use Rattle.lay_layouts.specs.LayoutWith.{placed_from};
ghost use Rattle.lay_layouts.specs.Same.{symbols_eq};
ghost use Rattle.lay_layouts.specs.SlotOrder.{
  AreMadeUpTo,
  by_slot_order,
  in_slot_order,
  is_behind,
  is_made,
};
ghost use Rattle.lay_layouts.specs.SlotOrder.{rank, standing_cmp};

use crate::parts::base_symbols;
use crate::slot::CellSlot;
use crate::trees::are_same_pages;
use lay_cells::Cells;
use lay_pages::Pages;
use lay_point::NoMemory;
use std::alloc::Global;
use std::collections::BTreeMap;
use std::marker::Model;

/// The symbols of a layout. Contracts see the finite map from numbers to slots.
#[derive(Drop)]
pub struct SymbolMap {
    slots: Pages<u32, CellSlot>,
    /// Their numbers in the order of their slots.
    cells: Cells,
}

impl Model for SymbolMap {
    ghost use Rattle.std.specs.Prelude.{◌≡◌};
    ghost use Rattle.std.specs.Coded.{coded_ℕ};
    ghost use Rattle.std.specs.FinMap as finite;
    ghost use Rattle.std.specs.FinMap.{FinMap};
    ghost use Rattle.std.specs.Ordering.{nat_cmp};
    ghost use Rattle.lay_layouts.specs.contracts.slot.CellSlot as slot;
    ghost use Rattle.lay_layouts.specs.declared.slot.CellSlot.{CellSlot};
    ghost use Rattle.lay_layouts.specs.Layout.{symbols_of};
    ghost use Rattle.lay_layouts.specs.SlotOrder.{in_slot_order};

    ghost Value = { FinMap nat_cmp CellSlot };

    ghost coded = { finite.code coded_ℕ slot.the_row.coded };

    ghost view = { λ s. symbols_of s.slots };

    ghost invariant = { λ s. s.cells ≡ in_slot_order (symbols_of s.slots) };
}

impl SymbolMap {
    /// Returns no symbols.
    pub fn new(alloc: Global) -> SymbolMap
        ensures { result ≡ finite.empty }
    {
        SymbolMap {
            slots: Pages::new(alloc),
            cells: Cells::new(alloc),
        }
    }

    /// Returns the symbols of a text, in this order.
    ///
    /// # Errors
    ///
    /// `NoMemory`, if an allocation fails.
    ///
    /// # Cost
    ///
    /// A sort of the symbols.
    pub fn of_text(alloc: Global, symbols: &Cells) -> Result<SymbolMap, NoMemory>
        ensures { IfOk result (λ base. base ≡ symbols_of (placed_from 1 symbols.now)) }
    {
        let slots = base_symbols(alloc, symbols)?;
        let cells = symbols.clone()?;
        Ok(SymbolMap { slots, cells })
    }

    /// Returns the slot of the symbol of this number.
    ///
    /// # Cost
    ///
    /// Comparisons in proportion to the logarithm of the number of symbols.
    pub fn get(&self, number: u32) -> Option<CellSlot>
        ensures { result ≡ finite.get self.now number }
    {
        self.slots.get(number).copied()
    }

    /// Returns whether there is a symbol of this number.
    ///
    /// # Cost
    ///
    /// As that of `get`.
    pub fn has(&self, number: u32) -> bool
        ensures { result ≡ is_some (finite.get self.now number) }
    {
        self.get(number).is_some()
    }

    /// Returns the symbols' numbers in the order of their slots.
    pub fn cells(&self) -> &Cells
        ensures { result.now ≡ in_slot_order self.now }
    {
        &self.cells
    }

    /// Returns whether others are the same symbols in the same slots.
    ///
    /// # Cost
    ///
    /// A pass over the symbols.
    pub fn is_same(&self, other: &SymbolMap) -> bool
        ensures { result ≡ symbols_eq self.now other.now }
    {
        self.slots.len() == other.slots.len() && are_same_pages(&self.slots, &other.slots)
    }

    /// Returns the symbols after these writes.
    ///
    /// # Errors
    ///
    /// `NoMemory`, if an allocation fails.
    ///
    /// # Cost
    ///
    /// For each write that of `Pages::with`, and a copy of the list of numbers. Where a write is of another kind
    /// than a made symbol behind all others, that list is made anew by a sort of the symbols.
    pub fn with(
        &self,
        alloc: Global,
        writes: &[(u32, Option<CellSlot>)],
    ) -> Result<SymbolMap, NoMemory>
        ensures { IfOk result (λ new. new ≡ put_all self.now writes.now) }
    {
        let slots = self.slots.with_all(alloc, writes)?;
        let cells = match self.with_made(writes)? {
            Some(cells) => cells,
            None => in_slot_order(alloc, &slots)?,
        };
        Ok(SymbolMap { slots, cells })
    }

    /// Returns the numbers in slot order after these writes, where each write puts a made symbol behind all others.
    fn with_made(&self, writes: &[(u32, Option<CellSlot>)]) -> Result<Option<Cells>, NoMemory>
        ensures { IfOk result (λ made. IfSome made (λ cells. cells ≡ in_slot_order (put_all self.now writes.now))) }
    {
        let mut cells = self.cells.clone()?;
        let mut last = self.last_made();
        for (number, slot) in writes {
            if !self.is_next(last, *number, *slot) {
                return Ok(None);
            }
            cells.add(*number)?;
            last = Some(*number);
        }
        Ok(Some(cells))
    }

    /// Returns the number of the last symbol in slot order, where it was made: no symbol that was made has a
    /// greater one.
    fn last_made(&self) -> Option<u32>
        ensures { AreMadeUpTo self.now result }
    {
        let position = self.cells.len().checked_sub(1)?;
        let last = self.cells.at(position)?;
        match self.get(last)? {
            CellSlot::Made => Some(last),
            CellSlot::Base(_) => None,
        }
    }

    /// Returns whether a write puts a made symbol that is new, and greater than the last that was made.
    fn is_next(&self, last: Option<u32>, number: u32, slot: Option<CellSlot>) -> bool
        ensures { result ≡ (is_made slot && (is_behind last number && is_none (finite.get self.now number))) }
    {
        matches!(slot, Some(CellSlot::Made)) && is_behind(last, number) && !self.has(number)
    }
}

/// Returns whether a number is greater than the last, if there is one.
fn is_behind(last: Option<u32>, number: u32) -> bool
    ensures { result ≡ is_behind last number }
{
    match last {
        Some(last) => last < number,
        None => true,
    }
}

/// Returns the numbers of the symbols in the order of their slots.
fn in_slot_order(alloc: Global, slots: &Pages<u32, CellSlot>) -> Result<Cells, NoMemory>
    ensures { IfOk result (λ cells. cells ≡ in_slot_order (symbols_of slots.now)) }
{
    let standings = by_slot_order(alloc, slots)?;
    let mut cells = Cells::new(alloc);
    for (_, number) in standings.iter() {
        cells.add(*number)?;
    }
    Ok(cells)
}

/// Returns the numbers of the symbols under what they are ordered by.
fn by_slot_order(
    alloc: Global,
    slots: &Pages<u32, CellSlot>,
) -> Result<BTreeMap<((u8, u32), u32), u32>, NoMemory>
    ensures { IfOk result (λ standings. finite.from_entries {R = standing_cmp} standings.entries
        ≡ by_slot_order (finite.entries (symbols_of slots.now))) }
{
    let mut standings = BTreeMap::new(alloc);
    for (number, slot) in slots.iter() {
        stand(&mut standings, number, *slot)?;
    }
    Ok(standings)
}

/// Inserts the number of a symbol under what it is ordered by.
fn stand(
    standings: &mut BTreeMap<((u8, u32), u32), u32>,
    number: u32,
    slot: CellSlot,
) -> Result<(), NoMemory>
    ensures { OnOk result (finite.from_entries {R = standing_cmp} standings.new.entries
        ≡ finite.insert (finite.from_entries standings.old.entries) (rank slot, number) number) }
{
    standings.insert((rank(slot), number), number)?;
    Ok(())
}

/// Returns whether a slot comes from a text, 0, or was made, 1; then its place in the text.
fn rank(slot: CellSlot) -> (u8, u32)
    ensures { result ≡ rank slot }
{
    match slot {
        CellSlot::Base(place) => (0, place),
        CellSlot::Made => (1, 0),
    }
}
