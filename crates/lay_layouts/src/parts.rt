//! The map of symbols that is made of a list.
ghost use Rattle.std.specs.Prelude.{◌≡◌, ◌+◌, IfOk, OnOk, nat_eq};
ghost use Rattle.std.specs.List.{IsDistinct};
ghost use Rattle.std.specs.FinMap as map;
ghost use Rattle.lay_layouts.specs.declared.slot.CellSlot.TheVariants.{Base};
ghost use Rattle.lay_layouts.specs.Layout.{symbols_of};
ghost use Rattle.lay_layouts.specs.LayoutWith.{placed_from};

use crate::slot::CellSlot;
use lay_cells::Cells;
use lay_pages::{Pages, PagesBuilder};
use lay_point::NoMemory;
use std::alloc::Global;
use std::collections::BTreeMap;

/// Returns the symbols in slots of a text, in this order.
pub(crate) fn base_symbols(alloc: Global, symbols: &Cells) -> Result<Pages<u32, CellSlot>, NoMemory>
    ensures map { IfOk result (λ base. symbols_of base ≡ symbols_of (placed_from 1 symbols.now)) }
    ensures distinct { IsDistinct nat_eq symbols.now }
{
    let base = by_number(alloc, symbols)?;
    paged(alloc, &base)
}

/// Returns the symbols in slots of a text as a tree.
fn by_number(alloc: Global, symbols: &Cells) -> Result<BTreeMap<u32, CellSlot>, NoMemory>
    ensures map { IfOk result (λ base. symbols_of base.entries ≡ symbols_of (placed_from 1 symbols.now)) }
    ensures distinct { IsDistinct nat_eq symbols.now }
{
    let mut base = BTreeMap::new(alloc);
    let mut place: u32 = 0;
    for position in 0..symbols.len() {
        place = one_more(place)?;
        insert_symbol(&mut base, symbols.at(position).unwrap(), place)?;
    }
    Ok(base)
}

/// Returns the pages of a tree's symbols.
fn paged(alloc: Global, slots: &BTreeMap<u32, CellSlot>) -> Result<Pages<u32, CellSlot>, NoMemory>
    ensures { IfOk result (λ pages. pages ≡ slots.now.entries) }
{
    let mut pages = PagesBuilder::new(alloc);
    for (number, slot) in slots.iter() {
        pages.push(alloc, *number, *slot)?;
    }
    let pages = pages.build(alloc)?;
    Ok(pages)
}

/// Inserts the symbol of this number with its place.
fn insert_symbol(
    base: &mut BTreeMap<u32, CellSlot>,
    number: u32,
    place: u32,
) -> Result<(), NoMemory>
    ensures { OnOk result (symbols_of base.new.entries
        ≡ map.insert (symbols_of base.old.entries) number (Base place)) }
{
    base.insert(number, CellSlot::Base(place))?;
    Ok(())
}

/// Returns the next number, where a `u32` has it.
///
/// # Errors
///
/// `NoMemory`, if an allocation fails.
pub fn one_more(number: u32) -> Result<u32, NoMemory>
    ensures { IfOk result (λ next. next ≡ number + 1) }
{
    number.checked_add(1).ok_or(NoMemory)
}
