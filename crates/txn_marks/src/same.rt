//! Whether two layouts have the same in each element of a footprint.
ghost use Rattle.std.specs.Prelude.{◌≡◌, true, option_copied};
ghost use Rattle.std.specs.Cmp.Lexicographic.{pointwise};
ghost use Rattle.std.specs.List.{list_all};
ghost use Rattle.lay_layouts.specs.Same.{option_item_eq};
ghost use Rattle.txn_commands.specs.declared.element.Element.TheVariants.{Uses};
ghost use Rattle.txn_commands.specs.Agreement.{AgreeOn};
ghost use Rattle.txn_commands.specs.Compared.{agrees, entry_eq, lying, same_in};
ghost use Rattle.txn_commands.specs.Lies.{lies};

use crate::footprint::Footprint;
use lay_cells::CellId;
use lay_items::{Entries, Snapshot};
use lay_layouts::{Item, ItemId};
use std::collections::BTreeSet;
use txn_commands::Element;

/// Returns whether two layouts have the same in each element of the footprint: then they agree on it.
///
/// # Cost
///
/// A look-up in both layouts for an item or a symbol. For the shapes of a cell on a layer and for the calls in
/// a cell as `Snapshot::shapes` and `Snapshot::calls`, which go over those alone. For the content of a symbol its
/// items are gone over, and for its calls all items are. An element that differs is gone over up to the first
/// difference, and is the last.
pub fn agrees(l: &Snapshot, m: &Snapshot, footprint: &Footprint) -> bool
    ensures value { result ≡ agrees l.now m.now footprint.now }
    ensures agree { result ≡ true → AgreeOn l.now m.now footprint.now }
{
    all_same(l, m, &footprint.elements)
}

/// Returns whether two layouts have the same in each of the elements.
fn all_same(l: &Snapshot, m: &Snapshot, elements: &BTreeSet<Element>) -> bool
    ensures { result ≡ list_all (same_in l.now m.now) elements.now.keys }
{
    for element in elements {
        if !same_in(l, m, element) {
            return false;
        }
    }
    true
}

/// Returns whether two layouts have the same in the element. Only the items of its cell are gone over,
/// but for the calls of a symbol, which may stand in any cell.
fn same_in(l: &Snapshot, m: &Snapshot, element: &Element) -> bool
    ensures { result ≡ same_in l.now m.now element.now }
{
    match element {
        Element::Item(id) => same_items(l.item(*id), m.item(*id)),
        Element::Layer(cell, layer) => l.shapes(*cell, layer).eq(m.shapes(*cell, layer)),
        Element::Calls(cell) => l.calls(*cell).eq(m.calls(*cell)),
        Element::Cell(number) => l.slot(*number) == m.slot(*number),
        Element::Content(number) => {
            let cell = CellId::Symbol(*number);
            l.items(cell).eq(m.items(cell))
        }
        Element::Uses(number) => same_uses(*number, l.version().iter(), m.version().iter()),
    }
}

/// Returns whether the items are equal, or there is none in both.
fn same_items(x: Option<&Item>, y: Option<&Item>) -> bool
    ensures { result ≡ option_item_eq (option_copied x.entry) (option_copied y.entry) }
{
    match (x, y) {
        (Some(x), Some(y)) => x == y,
        (None, None) => true,
        _ => false,
    }
}

/// Returns whether the calls of the symbol among the items of two layouts are the same.
fn same_uses(number: u32, l: Entries<'_>, m: Entries<'_>) -> bool
    ensures { result ≡ pointwise entry_eq (lying (Uses number) l.entry) (lying (Uses number) m.entry) }
{
    l.filter(|entry| is_use(number, entry))
        .eq(m.filter(|entry| is_use(number, entry)))
}

/// Returns whether the item is a call of the symbol.
fn is_use(number: u32, entry: &(ItemId, &Item)) -> bool
    ensures { result ≡ lies (Uses number) entry.now.0 entry.now.1.now }
{
    match entry.1 {
        Item::Shape { .. } => false,
        Item::Placed { target, .. } => number == *target,
    }
}
