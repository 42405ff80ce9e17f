//! Flattening a layer below a cell.
ghost use Rattle.std.specs.Prelude.{◌≡◌, Err, false};
ghost use Rattle.lay_point.specs.Memory.{IsAnswer};
ghost use Rattle.lay_layouts.specs.Layout.{is_cell};
ghost use Rattle.lay_flat.specs.Flattening.{AreWalks, flat_of};

use crate::fault::FlatFault;
use crate::flat::Flat;
use crate::walks::Walks;
use lay_cells::CellId;
use lay_items::Snapshot;
use lay_point::LayerName;
use std::alloc::Global;

/// Returns all rings on a layer below a cell, through every walk of calls. A cell's own shapes come first, in
/// order of their ids, then what its calls lead to, in order of theirs. Of more than one layer, `Walks` has
/// the walks made once.
///
/// # Errors
///
/// `NoCell`, `TooDeep`, `TooMany` (walks, then rings) and `OutOfRange`, tested in this order; `NoMemory` in place of all
/// but `NoCell`, if an allocation fails.
///
/// # Cost
///
/// That of `Walks::from` and of one `layer`.
pub fn flatten<'s>(
    alloc: Global,
    snapshot: &'s Snapshot,
    cell: CellId,
    layer: &LayerName,
) -> Result<Flat<'s>, FlatFault>
    ensures answer { IsAnswer FlatFault.NoMemory result (flat_of snapshot.now cell layer.now) }
    ensures no_cell { is_cell snapshot.now cell ≡ false → result ≡ Err FlatFault.NoCell }
    ensures walks { AreWalks snapshot.now cell }
{
    let walks = Walks::from(alloc, snapshot, cell)?;
    walks.layer(alloc, layer)
}
