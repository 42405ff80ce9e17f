//! Places under items.
ghost use Rattle.std.specs.Prelude.{◌≡◌, ◌++◌, OnOk, map};
ghost use Rattle.lay_layouts.specs.Ids.{id_cmp};
ghost use Rattle.undo_index.specs.First.{IsFirst};
ghost use Rattle.undo_index.specs.Under.{is_under, pairs_below};

use lay_layouts::ItemId;
use lay_point::NoMemory;
use std::collections::BTreeSet;

/// Returns the least place from this one on that stands under the item.
pub(crate) fn first_under(
    pairs: &BTreeSet<(ItemId, usize)>,
    id: ItemId,
    from: usize,
) -> Option<usize>
    ensures { IsFirst (is_under id_cmp pairs.now id) from result }
{
    match pairs.range((id, from)..).next() {
        Some((found, place)) if found.cmp(&id).is_eq() => Some(*place),
        _ => None,
    }
}

/// Adds the places below this one of the pairs of the item, in their order.
pub(crate) fn gather_under(
    pairs: &BTreeSet<(ItemId, usize)>,
    id: ItemId,
    below: usize,
    places: &mut Vec<usize>,
) -> Result<(), NoMemory>
    ensures { OnOk result (places.new.items
        ≡ places.old.items ++ map (λ k. k.1) (pairs_below id_cmp id below pairs.now)) }
{
    for pair in pairs.range((id, 0)..(id, below)) {
        places.push(pair.1)?;
    }
    Ok(())
}
