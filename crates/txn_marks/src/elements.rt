//! The elements in which written values lie, in lists.
ghost use Rattle.std.specs.Prelude.{[], ◌∷◌, OnOk, map, option_copied};
ghost use Rattle.std.specs.List.{flat_map};
ghost use Rattle.txn_commands.specs.Records.{cell_record_of, record_of};
ghost use Rattle.txn_marks.specs.Homes.{
  Gathers,
  cell_homes,
  content_elements,
  homes_of,
  record_homes,
};

use crate::change::{CellChange, ItemChange};
use lay_cells::CellId;
use lay_layouts::{Item, ItemId};
use lay_point::NoMemory;
use txn_commands::Element;

/// How many of the last elements are looked at before another one is added.
const LAST: usize = 4;

/// Adds the elements in which the values of these items lie, before and after.
pub(crate) fn add_items(
    met: &mut Vec<Element>,
    items: &[(ItemId, ItemChange)],
) -> Result<(), NoMemory>
    ensures { OnOk result (Gathers met.old.items (flat_map record_homes (map record_of items.now)) met.new.items) }
{
    for (id, change) in items {
        add_item(met, *id, change.before())?;
        add_item(met, *id, change.after())?;
    }
    Ok(())
}

/// Adds the elements of these symbols, where they are there before or after.
pub(crate) fn add_symbols(
    met: &mut Vec<Element>,
    symbols: &[(u32, CellChange)],
) -> Result<(), NoMemory>
    ensures { OnOk result (Gathers met.old.items
        (flat_map cell_homes (map cell_record_of symbols.now)) met.new.items) }
{
    for (number, change) in symbols {
        if change.before().is_some() || change.after().is_some() {
            add(met, Element::Cell(*number))?;
        }
    }
    Ok(())
}

/// Adds the elements in which the item lies, if there is one.
fn add_item(met: &mut Vec<Element>, id: ItemId, item: Option<&Item>) -> Result<(), NoMemory>
    ensures { OnOk result (Gathers met.old.items (homes_of id (option_copied item.entry)) met.new.items) }
{
    match item {
        None => Ok(()),
        Some(Item::Shape { cell, layer, .. }) => {
            add(met, Element::Item(id))?;
            add(met, Element::Layer(*cell, *layer))?;
            add_content(met, *cell)
        }
        Some(Item::Placed { cell, target, .. }) => {
            add(met, Element::Item(id))?;
            add(met, Element::Calls(*cell))?;
            add(met, Element::Uses(*target))?;
            add_content(met, *cell)
        }
    }
}

/// Adds the content of the cell. That of the top cell is no element.
fn add_content(met: &mut Vec<Element>, cell: CellId) -> Result<(), NoMemory>
    ensures { OnOk result (Gathers met.old.items (content_elements cell) met.new.items) }
{
    match cell {
        CellId::Top => Ok(()),
        CellId::Symbol(number) => add(met, Element::Content(number)),
    }
}

/// Adds the element, unless it is one of the last: items that are written one after the other mostly lie on
/// one layer.
fn add(met: &mut Vec<Element>, element: Element) -> Result<(), NoMemory>
    ensures { OnOk result (Gathers met.old.items (element ∷ []) met.new.items) }
{
    let last = &met[met.len().saturating_sub(LAST)..];
    if last.contains(&element) {
        return Ok(());
    }
    met.push(element)?;
    Ok(())
}
