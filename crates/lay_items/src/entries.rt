//! Items under their ids, in order of the ids: copied from a map, and taken into one.
ghost use Rattle.std.specs.Prelude.{◌≡◌, IfOk};

use crate::builder::ItemsBuilder;
use lay_layouts::{Item, ItemId};
use lay_pages::Pages;
use lay_point::{NoMemory, ShrinkingIntoIter};
use std::alloc::Global;

/// An item under its id.
type Entry = (ItemId, Item);

/// Returns copies of the items, in order of their ids.
///
/// # Cost
///
/// A pass over the items.
pub(crate) fn listed(alloc: Global, items: &Pages<ItemId, Item>) -> Result<Vec<Entry>, NoMemory>
    ensures { IfOk result (λ entries. entries.items ≡ items.now) }
{
    let mut entries = Vec::with_capacity(alloc, items.len())?;
    for (id, item) in items.iter() {
        entries.push((id, item.clone()?))?;
    }
    Ok(entries)
}

/// Takes the entries one after another.
///
/// # Cost
///
/// A pass over the entries.
pub(crate) fn taken(alloc: Global, entries: Vec<Entry>) -> Result<ItemsBuilder, NoMemory>
    ensures { IfOk result (λ items. items ≡ entries.items) }
{
    let mut items = ItemsBuilder::new(alloc);
    for (id, item) in ShrinkingIntoIter::of(entries) {
        items.push(alloc, id, item)?;
    }
    Ok(items)
}
