//! The items of a layout, their shapes directed.
ghost use Rattle.std.specs.Prelude.{◌≡◌, ◌≤◌, [], ◌∷◌, ◌++◌, IfOk, OnOk, length, take, true};
ghost use Rattle.std.specs.FinMap as map;
ghost use Rattle.lay_layouts.specs.Sound.{IsDrawn};
ghost use Rattle.lay_oriented.specs.Directed.{IsDirectedNaming};
ghost use Rattle.lay_oriented.specs.Steps.{AreFound, IsFoundFor};

use crate::orienting::{Oriented, are_rings, orient};
use face_rings::is_path_short;
use lay_cells::CellId;
use lay_items::{Snapshot, Version};
use lay_layouts::{Item, ItemId, Rings};
use lay_point::{NoMemory, Ring};
use std::alloc::Global;

/// A layout with its shapes directed.
#[derive(Drop)]
pub struct Directed {
    /// The layout.
    pub layout: Snapshot,
    /// How many shapes stay as they were, though readers by winding number may see them otherwise.
    pub staying: usize,
    /// The first three of these, or as many as there are, in order of their ids, each with its cell.
    pub first: Vec<(CellId, ItemId)>,
}

/// What is found for the items of a layout.
#[derive(Drop)]
struct Found {
    /// The writes of the shapes that are turned, in order of their ids.
    writes: Vec<(ItemId, Option<Item>)>,
    /// How many shapes readers may see otherwise.
    staying: usize,
    /// The first three of these.
    first: Vec<(CellId, ItemId)>,
}

/// What is found for an item.
#[derive(Drop)]
enum Step {
    /// It is a call, or a shape that all readers see alike.
    Alike,
    /// This shape has the same places inside, and all readers see it alike.
    Turned(Item),
    /// It is a shape of this cell for which no such path was found.
    Otherwise(CellId),
}

/// Returns the layout with its shapes directed: the path that is written of each goes once round each place
/// that is inside by parity, and not round any other. A shape of several rings becomes one of one ring, along
/// short ways between them, where that ring isn't longer than a ring may be. Another stays as it was where its
/// path does so already. It stays too, and is counted, where no such path was found, as where its edges
/// cross, and where that path would be longer than a ring may be. Calls, symbols and ids stay.
///
/// # Errors
///
/// `NoMemory`, if an allocation fails.
///
/// # Cost
///
/// For each shape, sorts of its edges, its corners and the ways between its rings, of each of these ways that
/// isn't within the boxes of two rings a pass over the rings, and at each height at which an edge ends a pass
/// over the edges that reach it; and a version made anew.
pub fn oriented_layout(alloc: Global, layout: &Snapshot) -> Result<Directed, NoMemory>
    ensures { IfOk result (λ directed. IsDirectedNaming layout.now directed.layout directed.staying directed.first.items) }
{
    let old = layout.version();
    let Found {
        writes,
        staying,
        first,
    } = found_in(alloc, old, old.size())?;
    let new = old.with(alloc, writes.as_slice(), &[])?;
    let layout = Snapshot::of(alloc, new)?;
    Ok(Directed {
        layout,
        staying,
        first,
    })
}

/// Returns the writes of the shapes that are turned, in order of their ids, and how many shapes readers may
/// see otherwise, with the first of them.
fn found_in(alloc: Global, layout: &Version, _size: usize) -> Result<Found, NoMemory>
    requires { length (map.entries layout.now.items) ≤ _size }
    ensures { IfOk result (λ found. AreFound (map.entries layout.now.items) found.writes.items found.staying found.first.items) }
{
    let mut writes = Vec::new(alloc);
    let mut staying = 0;
    let mut first = Vec::new(alloc);
    for (id, item) in layout.iter() {
        match step_of(alloc, item)? {
            Step::Alike => {}
            Step::Turned(new) => writes.push((id, Some(new)))?,
            Step::Otherwise(cell) => {
                staying += 1;
                add_first(&mut first, cell, id)?;
            }
        }
    }
    Ok(Found {
        writes,
        staying,
        first,
    })
}

/// Adds the shape of this cell, and keeps the first three.
fn add_first(first: &mut Vec<(CellId, ItemId)>, cell: CellId, id: ItemId) -> Result<(), NoMemory>
    ensures { OnOk result (first.new.items ≡ take 3 (first.old.items ++ (cell, id) ∷ [])) }
{
    first.push((cell, id))?;
    first.truncate(3);
    Ok(())
}

/// Returns what is found for the item.
fn step_of(alloc: Global, item: &Item) -> Result<Step, NoMemory>
    ensures { IfOk result (IsFoundFor item.now) }
{
    let Item::Shape { cell, layer, rings } = item else {
        return Ok(Step::Alike);
    };
    match orient(alloc, rings.as_slice())? {
        Oriented::Already => Ok(Step::Alike),
        Oriented::No => Ok(Step::Otherwise(*cell)),
        Oriented::Turned(new) => {
            if !are_drawn(new.as_slice()) {
                return Ok(Step::Otherwise(*cell));
            }
            let rings = Rings::new(alloc, new)?;
            Ok(Step::Turned(Item::Shape {
                cell: *cell,
                layer: *layer,
                rings,
            }))
        }
    }
}

/// Returns whether rings draw a shape: there are some, and the path round them is no longer than a ring may be.
fn are_drawn(rings: &[Ring]) -> bool
    ensures { result ≡ true → IsDrawn rings.now }
{
    are_rings(rings);
    !rings.is_empty() && is_path_short(rings)
}
