//! The layers of a layout.

use lay_cells::CellId;
use lay_items::Snapshot;
use lay_layouts::Item;
use lay_point::{LayerName, NoMemory};
use std::alloc::Global;

/// Returns the layers of all shapes of the layout, each once, in order.
pub(crate) fn layers_of(alloc: Global, snapshot: &Snapshot) -> Result<Vec<LayerName>, NoMemory> {
    let mut names = Vec::new(alloc);
    add_names(&mut names, snapshot, CellId::Top)?;
    for place in 0..snapshot.cells().len() {
        if let Some(number) = snapshot.cells().at(place) {
            add_names(&mut names, snapshot, CellId::Symbol(number))?;
        }
    }
    sort(&mut names);
    Ok(names)
}

/// Returns the place of a layer among them.
pub(crate) fn place_of_layer(layers: &[LayerName], layer: &LayerName) -> Option<usize> {
    layers
        .binary_search_by(|name| name.as_bytes().cmp(layer.as_bytes()))
        .ok()
}

/// Brings the names in order, and takes repeats out.
fn sort(names: &mut Vec<LayerName>) {
    names.sort_unstable_by(|first: &LayerName, second: &LayerName| {
        first.as_bytes().cmp(second.as_bytes())
    });
    names.dedup();
}

/// Adds the layers of the cell's own shapes, a layer once for each change to it.
fn add_names(
    names: &mut Vec<LayerName>,
    snapshot: &Snapshot,
    cell: CellId,
) -> Result<(), NoMemory> {
    for (_, item) in snapshot.items(cell) {
        if let Item::Shape { layer, .. } = item {
            if names.last() != Some(layer) {
                names.push(*layer)?;
            }
        }
    }
    Ok(())
}
