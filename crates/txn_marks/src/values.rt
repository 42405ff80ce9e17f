//! The writes that apply changes, and those that revert them.
ghost use Rattle.std.specs.Prelude.{◌≡◌, IfOk, map};
ghost use Rattle.txn_commands.specs.Records.{applying, reverting, cell_record_of, record_of};
ghost use Rattle.txn_commands.specs.Records.{slot_afters, slot_befores};

use crate::change::{CellChange, ItemChange, cloned};
use lay_layouts::{CellSlot, Item, ItemId};
use lay_point::NoMemory;
use std::alloc::Global;

/// Returns the writes of items that apply the changes.
pub(crate) fn item_afters(
    alloc: Global,
    items: &[(ItemId, ItemChange)],
) -> Result<Vec<(ItemId, Option<Item>)>, NoMemory>
    ensures { IfOk result (λ writes. writes.items ≡ applying (map record_of items.now)) }
{
    let mut writes = Vec::with_capacity(alloc, items.len())?;
    for (id, change) in items {
        writes.push((*id, cloned(change.after())?))?;
    }
    Ok(writes)
}

/// Returns the writes of items that revert the changes.
pub(crate) fn item_befores(
    alloc: Global,
    items: &[(ItemId, ItemChange)],
) -> Result<Vec<(ItemId, Option<Item>)>, NoMemory>
    ensures { IfOk result (λ writes. writes.items ≡ reverting (map record_of items.now)) }
{
    let mut writes = Vec::with_capacity(alloc, items.len())?;
    for (id, change) in items {
        writes.push((*id, cloned(change.before())?))?;
    }
    Ok(writes)
}

/// Returns the writes of symbols that apply the changes.
pub(crate) fn symbol_afters(
    alloc: Global,
    symbols: &[(u32, CellChange)],
) -> Result<Vec<(u32, Option<CellSlot>)>, NoMemory>
    ensures { IfOk result (λ writes.
        writes.items ≡ slot_afters (map cell_record_of symbols.now)) }
{
    let mut writes = Vec::with_capacity(alloc, symbols.len())?;
    for (number, change) in symbols {
        writes.push((*number, change.after()))?;
    }
    Ok(writes)
}

/// Returns the writes of symbols that revert the changes.
pub(crate) fn symbol_befores(
    alloc: Global,
    symbols: &[(u32, CellChange)],
) -> Result<Vec<(u32, Option<CellSlot>)>, NoMemory>
    ensures { IfOk result (λ writes.
        writes.items ≡ slot_befores (map cell_record_of symbols.now)) }
{
    let mut writes = Vec::with_capacity(alloc, symbols.len())?;
    for (number, change) in symbols {
        writes.push((*number, change.before()))?;
    }
    Ok(writes)
}
