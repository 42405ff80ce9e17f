//! Whether what was written lies in an element of a footprint.
ghost use Rattle.std.specs.Prelude.{◌≡◌, option_copied};
ghost use Rattle.txn_marks.specs.Met.{
  are_met,
  has_content,
  is_item_met,
  is_symbol_met,
  symbols_are_met,
};

use crate::change::{CellChange, ItemChange};
use crate::footprint::Footprint;
use lay_cells::CellId;
use lay_layouts::{Item, ItemId};
use txn_commands::Element;

/// Returns whether a value of one of these items, before or after, lies in an element of the footprint.
pub(crate) fn items_touch(items: &[(ItemId, ItemChange)], footprint: &Footprint) -> bool
    ensures { result ≡ are_met footprint.now items.now }
{
    for (id, change) in items {
        if is_met(footprint, *id, change.before()) || is_met(footprint, *id, change.after()) {
            return true;
        }
    }
    false
}

/// Returns whether one of these symbols, there before or after, is an element of the footprint.
pub(crate) fn symbols_touch(symbols: &[(u32, CellChange)], footprint: &Footprint) -> bool
    ensures { result ≡ symbols_are_met footprint.now symbols.now }
{
    for (number, change) in symbols {
        if is_symbol_met(footprint, *number, change) {
            return true;
        }
    }
    false
}

/// Returns whether the symbol is there before or after, and is an element of the footprint.
fn is_symbol_met(footprint: &Footprint, number: u32, change: &CellChange) -> bool
    ensures { result ≡ is_symbol_met footprint.now number change.now }
{
    let is_there = change.before().is_some() || change.after().is_some();
    is_there && footprint.contains(Element::Cell(number))
}

/// Returns whether there is a value, and it lies in an element of the footprint.
fn is_met(footprint: &Footprint, id: ItemId, item: Option<&Item>) -> bool
    ensures { result ≡ is_item_met footprint.now id (option_copied item.entry) }
{
    match item {
        None => false,
        Some(Item::Shape { cell, layer, .. }) => {
            footprint.contains(Element::Item(id))
                || footprint.contains(Element::Layer(*cell, *layer))
                || has_content(footprint, *cell)
        }
        Some(Item::Placed { cell, target, .. }) => {
            footprint.contains(Element::Item(id))
                || footprint.contains(Element::Calls(*cell))
                || footprint.contains(Element::Uses(*target))
                || has_content(footprint, *cell)
        }
    }
}

/// Returns whether the content of the cell is in the footprint. That of the top cell never is.
fn has_content(footprint: &Footprint, cell: CellId) -> bool
    ensures { result ≡ has_content footprint.now cell }
{
    match cell {
        CellId::Top => false,
        CellId::Symbol(number) => footprint.contains(Element::Content(number)),
    }
}
