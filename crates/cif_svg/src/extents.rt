//! What each cell holds of each layer, its calls with it.

use crate::area::double_area;
use crate::bounds::Bounds;
use crate::layers::{layers_of, place_of_layer};
use crate::order::place_of;
use lay_cells::CellId;
use lay_items::Snapshot;
use lay_layouts::Item;
use lay_point::{LayerName, NoMemory, Ring, Turn};
use std::alloc::Global;
use std::collections::BTreeMap;

/// What a cell holds of a layer.
#[derive(Clone, Copy, Debug)]
pub(crate) struct Extent {
    /// The box of it.
    pub(crate) bounds: Bounds,
    /// Twice the area of its shapes, each counted for itself; one that has no 128 bits is the greatest that has.
    pub(crate) area: u128,
    /// How many shapes it is, each as often as calls show it.
    pub(crate) shapes: u64,
}

impl Extent {
    /// Both together.
    fn with(self, other: Extent) -> Extent {
        Extent {
            bounds: self.bounds.with(other.bounds),
            area: self.area.saturating_add(other.area),
            shapes: self.shapes.saturating_add(other.shapes),
        }
    }

    /// What a call with this turn shows.
    fn turned(self, turn: Turn) -> Extent {
        Extent {
            bounds: self.bounds.turned(turn),
            area: self.area,
            shapes: self.shapes,
        }
    }
}

/// What a cell holds, by the places of layers among all.
pub(crate) type Held = BTreeMap<usize, Extent>;

/// What the cells of a layout hold.
#[derive(Drop)]
pub(crate) struct Extents {
    layers: Vec<LayerName>,
    /// By the places of cells.
    cells: Vec<Held>,
}

impl Extents {
    /// Returns what these cells hold, each of which comes behind those that it calls.
    pub(crate) fn of(
        alloc: Global,
        snapshot: &Snapshot,
        cells: &[CellId],
    ) -> Result<Extents, NoMemory> {
        let mut extents = Extents::none(alloc, snapshot)?;
        for cell in cells {
            let held = extents.held_by(alloc, snapshot, *cell)?;
            if let Some(before) = extents.cells.get_mut(place_of(snapshot, *cell)) {
                *before = held;
            }
        }
        Ok(extents)
    }

    /// Returns all layers, in order of their names.
    pub(crate) fn layers(&self) -> &[LayerName] {
        self.layers.as_slice()
    }

    /// Returns what the cell at this place holds.
    pub(crate) fn held(&self, place: usize) -> Option<&Held> {
        self.cells.get(place)
    }

    /// Returns whether the cell at this place holds something of the layer at that one.
    pub(crate) fn holds(&self, place: usize, layer: usize) -> bool {
        match self.cells.get(place) {
            None => false,
            Some(held) => held.contains_key(&layer),
        }
    }

    /// Returns the box of all that the cell at this place holds.
    pub(crate) fn bounds(&self, place: usize) -> Option<Bounds> {
        let mut bounds: Option<Bounds> = None;
        for extent in self.cells.get(place)?.values() {
            bounds = Some(bounds.map_or(extent.bounds, |bounds| bounds.with(extent.bounds)));
        }
        bounds
    }

    /// Returns that no cell holds anything.
    fn none(alloc: Global, snapshot: &Snapshot) -> Result<Extents, NoMemory> {
        let mut extents = Extents {
            layers: layers_of(alloc, snapshot)?,
            cells: Vec::new(alloc),
        };
        for _ in 0..=snapshot.cells().len() {
            extents.cells.push(BTreeMap::new(alloc))?;
        }
        Ok(extents)
    }

    /// Returns what a cell holds, where it is known of all that it calls.
    fn held_by(&self, alloc: Global, snapshot: &Snapshot, cell: CellId) -> Result<Held, NoMemory> {
        let mut held = BTreeMap::new(alloc);
        for (_, item) in snapshot.items(cell) {
            match item {
                Item::Shape { layer, rings, .. } => {
                    self.add_shape(&mut held, layer, rings.as_slice())?;
                }
                Item::Placed { target, turn, .. } => {
                    let place = place_of(snapshot, CellId::Symbol(*target));
                    self.add_call(&mut held, place, *turn)?;
                }
            }
        }
        Ok(held)
    }

    /// Adds a shape on a layer.
    fn add_shape(
        &self,
        held: &mut Held,
        layer: &LayerName,
        rings: &[Ring],
    ) -> Result<(), NoMemory> {
        if let (Some(place), Some(bounds)) = (
            place_of_layer(&self.layers, layer),
            bounds_of(rings),
        ) {
            let extent = Extent {
                bounds,
                area: double_area(rings),
                shapes: 1,
            };
            add(held, place, extent)?;
        }
        Ok(())
    }

    /// Adds what a call shows of the cell at this place.
    fn add_call(&self, held: &mut Held, place: usize, turn: Turn) -> Result<(), NoMemory> {
        let Some(called) = self.cells.get(place) else {
            return Ok(());
        };
        for (layer, extent) in called.iter() {
            add(held, *layer, extent.turned(turn))?;
        }
        Ok(())
    }
}

/// Adds to what a cell holds of a layer.
fn add(held: &mut Held, layer: usize, extent: Extent) -> Result<(), NoMemory> {
    let both = match held.get(&layer) {
        None => extent,
        Some(before) => before.with(extent),
    };
    held.insert(layer, both).map_err(|_| NoMemory)?;
    Ok(())
}

/// Returns the box of a shape's rings.
fn bounds_of(rings: &[Ring]) -> Option<Bounds> {
    let mut bounds = None;
    for ring in rings {
        bounds = widened(bounds, ring);
    }
    bounds
}

/// Returns the box with a ring.
fn widened(bounds: Option<Bounds>, ring: &Ring) -> Option<Bounds> {
    let mut bounds = bounds;
    for point in ring.points() {
        let place = Bounds::of(*point);
        bounds = Some(bounds.map_or(place, |bounds: Bounds| bounds.with(place)));
    }
    bounds
}
