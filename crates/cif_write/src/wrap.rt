//! What the top cell is wrapped in.
ghost use Rattle.std.specs.Prelude.{◌≡◌, IfOk, map};
ghost use Rattle.cif_write.specs.Wrap.{entry_item, least_unused, plain_target};

use lay_cells::Cells;
use lay_items::Items;
use lay_layouts::Item;
use lay_point::{NoMemory, Turn};

/// Returns the symbol that the items call, where they are one call with no mirror, turn or shift.
pub(crate) fn plain_target(items: Items<'_>) -> Option<u32>
    ensures { result ≡ plain_target (map entry_item items.entry) }
{
    let mut items = items;
    let (_, first) = items.next()?;
    if items.next().is_some() {
        return None;
    }
    match first {
        Item::Placed { target, turn, .. } if *turn == Turn::unturned() => Some(*target),
        _ => None,
    }
}

/// Returns the least positive number that no symbol has. Where a `u32` has none, that is out of memory.
pub(crate) fn least_unused(cells: &Cells) -> Result<u32, NoMemory>
    ensures { IfOk result (λ number. number ≡ least_unused cells.now) }
{
    let mut number: u32 = 1;
    for _symbol in 0..cells.len() {
        if cells.position(number).is_none() {
            return Ok(number);
        }
        number = number.checked_add(1).ok_or(NoMemory)?;
    }
    Ok(number)
}
