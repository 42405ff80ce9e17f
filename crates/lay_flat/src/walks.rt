//! The walks from a cell, from which any of its layers is flattened.
ghost use Rattle.std.specs.Prelude.{◌≡◌, Err, IsTrue, OnOk, false};
ghost use Rattle.std.specs.List.{list_all, list_any};
ghost use Rattle.std.specs.Prelude.{is_none};
ghost use Rattle.lay_point.specs.Memory.{IsAnswer};
ghost use Rattle.lay_point.specs.Points.{is_in_range};
ghost use Rattle.lay_point.specs.Turns.{turned};
ghost use Rattle.lay_layouts.specs.Layout.{is_cell};
ghost use Rattle.lay_flat.specs.Flat.{is_within};
ghost use Rattle.lay_flat.specs.Flattening.{AreWalks, flat_of, tested};
ghost use Rattle.lay_flat.specs.Walked.{walked};

use crate::call_lists::CallLists;
use crate::ends::{End, list_ends};
use crate::fault::FlatFault;
use crate::flat::{Flat, FlatRing, MAX_DEPTH, MAX_RINGS};
use crate::graph::depth_and_walks;
use crate::lending::lend_rings;
use lay_cells::CellId;
use lay_items::Snapshot;
use lay_point::{LayerName, Point, Turn};
use std::alloc::Global;
use std::marker::Model;

/// The walks from a cell, where they are no more and no deeper than a flattening may have. Contracts see the
/// layout and the cell.
#[derive(Drop)]
pub struct Walks<'s> {
    snapshot: &'s Snapshot,
    cell: CellId,
    ends: Vec<End>,
    /// Whether the turn of some end is out of range.
    outside: bool,
}

impl<'s> Model for Walks<'s> {
    ghost use Rattle.lay_flat.specs.Walked.{AreListed, Start, coded_start};

    ghost Value = { Start };

    ghost coded = { coded_start };

    ghost view = { λ w. record { layout = w.snapshot.now; cell = w.cell } };

    ghost invariant = { λ w. AreListed w.snapshot.now w.cell w.ends.items w.outside };
}

impl<'s> Walks<'s> {
    /// Returns the walks from a cell, or the first of `NoCell`, `TooDeep` and `TooMany` of walks that holds.
    /// A turn that is out of range is refused by `layer`, after too many rings.
    ///
    /// # Errors
    ///
    /// `NoCell`, `TooDeep` and `TooMany` of walks, tested in this order; `NoMemory` in place of all but `NoCell`, if an
    /// allocation fails.
    ///
    /// # Cost
    ///
    /// The items of each cell that the cell leads to are gone over once, for its calls, however many walks end
    /// there. Then each call takes a few steps, and each walk one, and comparisons in proportion to the logarithm
    /// of the number of these cells.
    pub fn from(alloc: Global, snapshot: &'s Snapshot, cell: CellId) -> Result<Walks<'s>, FlatFault>
        ensures answer { IsAnswer FlatFault.NoMemory result (walked snapshot.now cell) }
        ensures no_cell { is_cell snapshot.now cell ≡ false → result ≡ Err FlatFault.NoCell }
        ensures walks { AreWalks snapshot.now cell }
    {
        if !snapshot.version().is_cell(cell) {
            return Err(FlatFault::NoCell);
        }
        let mut lists = CallLists::new(alloc, snapshot);
        test_walks(alloc, &mut lists, cell)?;
        let mut ends = Vec::new(alloc);
        let turn = Some(Turn::unturned());
        list_ends(alloc, &mut lists, cell, turn, MAX_DEPTH, &mut ends)?;
        let outside = is_any_outside(&ends);
        Ok(Walks {
            snapshot,
            cell,
            ends,
            outside,
        })
    }

    /// Returns all rings on a layer at the ends of the walks. A cell's own shapes come first, in order of
    /// their ids, then what its calls lead to, in order of theirs.
    ///
    /// # Errors
    ///
    /// `TooMany`, if there are more than `MAX_RINGS` rings, then `OutOfRange`, if a walk's turn or a turned point is out of
    /// range; `NoMemory`, if an allocation fails.
    ///
    /// # Cost
    ///
    /// The items of each cell in which walks end are gone over once, for its shapes, and a reference to each
    /// shape is held until the end. Then each walk takes comparisons in proportion to the logarithm of the
    /// number of these cells, and a step for each ring that is lent. Each point that is lent is tested once.
    pub fn layer(&self, alloc: Global, layer: &LayerName) -> Result<Flat<'s>, FlatFault>
        ensures { IsAnswer FlatFault.NoMemory result (flat_of self.now.layout self.now.cell layer.now) }
    {
        let rings = lend_rings(alloc, self.snapshot, &self.ends, layer)?;
        if self.outside || !are_within(&rings) {
            return Err(FlatFault::OutOfRange);
        }
        Ok(Flat { rings })
    }
}

/// Tests the depth and the number of the walks from a cell.
fn test_walks(alloc: Global, lists: &mut CallLists<'_>, cell: CellId) -> Result<(), FlatFault>
    requires { IsTrue (is_cell lists.old cell) }
    ensures tested { IsAnswer FlatFault.NoMemory result (tested lists.old cell) }
    ensures same { OnOk result (lists.new ≡ lists.old) }
{
    let (depth, walks) = depth_and_walks(alloc, lists, cell)?;
    if depth > MAX_DEPTH {
        return Err(FlatFault::TooDeep);
    }
    if walks > MAX_RINGS {
        return Err(FlatFault::TooMany);
    }
    Ok(())
}

/// Returns whether the turn of some end is out of range.
fn is_any_outside(ends: &[End]) -> bool
    ensures { result ≡ list_any (λ end. is_none end.turn) ends.now }
{
    ends.iter().any(|end| end.turn.is_none())
}

/// Returns whether all turned points are in range.
fn are_within(rings: &[FlatRing]) -> bool
    ensures { result ≡ list_all is_within rings.now }
{
    rings.iter().all(|ring| is_within(ring.points, ring.turn))
}

/// Returns whether all points are in range where the turn takes them.
fn is_within(points: &[Point], turn: Turn) -> bool
    ensures { result ≡ list_all (λ p. is_in_range (turned turn p)) points.now }
{
    points.iter().all(|point| is_inside(turn, *point))
}

/// Returns whether a point is in range where the turn takes it.
fn is_inside(turn: Turn, point: Point) -> bool
    ensures { result ≡ is_in_range (turned turn point) }
{
    turn.apply(point).is_some()
}
