//! Commands that make a shape.
ghost use Rattle.std.specs.Prelude.{◌≡◌, ◌&&◌, ◌||◌, ◌∷◌, [], IfOk, false, true};
ghost use Rattle.std.specs.Ordering.{int_eq};
ghost use Rattle.lay_point.specs.Memory.{IsAnswer};
ghost use Rattle.lay_point.specs.Points.{is_in_range};
ghost use Rattle.txn_commands.specs.declared.command.Command.TheVariants as command;
ghost use Rattle.txn_commands.specs.Acts.{shape_act};
ghost use Rattle.txn_commands.specs.Figures.{box_ring, lower_left, shape_of, upper_right};
ghost use Rattle.txn_commands.specs.Plans.{fault_of_ring, plan};

use crate::act::{Act, make_act};
use crate::layout_view::LayoutView;
use lay_cells::CellId;
use lay_layouts::{Item, ItemId, Rings};
use lay_point::{LayerName, NoMemory, Point, Ring, RingFault};
use std::alloc::Global;
use txn_commands::{CmdFault, Element};

/// Plans a box with these opposite corners.
#[tactic(auto, unfolding(txn_commands::specs::Plans::plan))]
pub(crate) fn plan_box(
    alloc: Global,
    seen: &LayoutView<'_>,
    new: ItemId,
    cell: CellId,
    layer: LayerName,
    a: Point,
    b: Point,
) -> Result<Act, CmdFault>
    ensures { IsAnswer CmdFault.NoMemory result (plan new (command.Box cell layer a b) seen.now) }
{
    if !seen.is_cell(cell) {
        return Err(CmdFault::NoCell);
    }
    if is_flat(a, b) {
        return Err(CmdFault::FewPoints);
    }
    if !are_in_range(a, b) {
        return Err(CmdFault::OutOfRange);
    }
    let ring = box_ring(alloc, a, b);
    Ok(shape_act(alloc, new, cell, layer, ring)?)
}

/// Plans a polygon through these points.
#[tactic(auto, unfolding(txn_commands::specs::Plans::plan))]
pub(crate) fn plan_poly(
    alloc: Global,
    seen: &LayoutView<'_>,
    new: ItemId,
    cell: CellId,
    layer: LayerName,
    points: &[Point],
) -> Result<Act, CmdFault>
    ensures { IsAnswer CmdFault.NoMemory result (plan new (command.Poly cell layer points.now) seen.now) }
{
    if !seen.is_cell(cell) {
        return Err(CmdFault::NoCell);
    }
    match Ring::new(alloc, points) {
        Ok(ring) => Ok(shape_act(alloc, new, cell, layer, ring)?),
        Err(fault) => Err(fault_of_ring(fault)),
    }
}

/// Returns the refusal of a command whose ring can't be drawn.
pub(crate) fn fault_of_ring(fault: RingFault) -> CmdFault
    ensures { result ≡ fault_of_ring fault }
{
    match fault {
        RingFault::FewPoints => CmdFault::FewPoints,
        RingFault::OutOfRange => CmdFault::OutOfRange,
        RingFault::TooMany => CmdFault::TooMany,
        RingFault::NoMemory => CmdFault::NoMemory,
    }
}

/// Returns whether a box with these opposite corners has a side of length 0.
fn is_flat(a: Point, b: Point) -> bool
    ensures { result ≡ (int_eq a.x b.x || int_eq a.y b.y) }
{
    a.x == b.x || a.y == b.y
}

/// Returns the ring of a box with these opposite corners.
fn box_ring(alloc: Global, a: Point, b: Point) -> Ring
    requires sides { (int_eq a.x b.x || int_eq a.y b.y) ≡ false }
    requires near { (is_in_range a && is_in_range b) ≡ true }
    ensures { result ≡ box_ring a b }
{
    Ring::rectangle(alloc, lower_left(a, b), upper_right(a, b))
}

/// Returns whether both points are in range.
fn are_in_range(a: Point, b: Point) -> bool
    ensures { result ≡ (is_in_range a && is_in_range b) }
{
    a.is_in_range() && b.is_in_range()
}

/// Returns the lower left corner of a box with these opposite corners.
fn lower_left(a: Point, b: Point) -> Point
    ensures { result ≡ lower_left a b }
{
    Point {
        x: a.x.min(b.x),
        y: a.y.min(b.y),
    }
}

/// Returns the upper right corner of a box with these opposite corners.
fn upper_right(a: Point, b: Point) -> Point
    ensures { result ≡ upper_right a b }
{
    Point {
        x: a.x.max(b.x),
        y: a.y.max(b.y),
    }
}

/// A shape of this ring is made.
fn shape_act(
    alloc: Global,
    new: ItemId,
    cell: CellId,
    layer: LayerName,
    ring: Ring,
) -> Result<Act, NoMemory>
    ensures { IfOk result (λ act. act ≡ shape_act new cell (shape_of cell layer ring)) }
{
    let mut elements = Vec::with_capacity(alloc, 2)?;
    elements.push(Element::Item(new))?;
    if let CellId::Symbol(number) = cell {
        elements.push(Element::Cell(number))?;
    }
    let rings = one_ring(alloc, ring)?;
    Ok(make_act(new, Item::Shape { cell, layer, rings }, elements))
}

/// Returns the rings of a shape of one ring.
fn one_ring(alloc: Global, ring: Ring) -> Result<Rings, NoMemory>
    ensures { IfOk result (λ rings. rings ≡ ring ∷ []) }
{
    let mut rings = Vec::with_capacity(alloc, 1)?;
    rings.push(ring)?;
    Rings::new(alloc, rings)
}
