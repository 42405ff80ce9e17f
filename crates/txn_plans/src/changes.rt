//! Commands on an item that is there.
ghost use Rattle.std.specs.Prelude.{◌≡◌, IfOk, IfSome, Some, is_some, option_map};
ghost use Rattle.lay_point.specs.Memory.{IsAnswer};
ghost use Rattle.lay_point.specs.Points.{is_in_range};
ghost use Rattle.lay_point.specs.Rings.{IsRing};
ghost use Rattle.lay_point.specs.Turns.{shifted};
ghost use Rattle.lay_layouts.specs.declared.item.Item.TheVariants.{Placed};
ghost use Rattle.txn_commands.specs.declared.command.Command.TheVariants as command;
ghost use Rattle.txn_commands.specs.Plans.{plan};
ghost use Rattle.txn_plans.specs.Moving.{item_moved, ring_moved, rings_moved};

use crate::act::{Act, change_act, look_act};
use crate::layout_view::LayoutView;
use lay_cells::CellId;
use lay_layouts::{Item, ItemId, Rings};
use lay_point::{LayerName, NoMemory, Point, Quarter, Ring, RingFault, Turn};
use std::alloc::Global;
use txn_commands::CmdFault;

/// Plans that an item goes.
#[tactic(auto, unfolding(txn_commands::specs::Plans::plan))]
pub(crate) fn plan_delete(
    alloc: Global,
    seen: &LayoutView<'_>,
    new: ItemId,
    id: ItemId,
) -> Result<Act, CmdFault>
    ensures { IsAnswer CmdFault.NoMemory result (plan new (command.Delete id) seen.now) }
{
    match seen.item(id) {
        Some(_) => Ok(change_act(alloc, id, None)?),
        None => Err(CmdFault::NoItem),
    }
}

/// Plans that an item is read.
#[tactic(auto, unfolding(txn_commands::specs::Plans::plan))]
pub(crate) fn plan_look(
    alloc: Global,
    seen: &LayoutView<'_>,
    new: ItemId,
    id: ItemId,
) -> Result<Act, CmdFault>
    ensures { IsAnswer CmdFault.NoMemory result (plan new (command.Look id) seen.now) }
{
    match seen.item(id) {
        Some(item) => Ok(look_act(alloc, id, item.copy(alloc)?)?),
        None => Err(CmdFault::NoItem),
    }
}

/// Plans that a shape comes to another layer.
#[tactic(auto, unfolding(txn_commands::specs::Plans::plan))]
pub(crate) fn plan_layer(
    alloc: Global,
    seen: &LayoutView<'_>,
    new: ItemId,
    id: ItemId,
    layer: LayerName,
) -> Result<Act, CmdFault>
    ensures { IsAnswer CmdFault.NoMemory result (plan new (command.SetLayer id layer) seen.now) }
{
    match seen.item(id) {
        Some(item) => match item.copy(alloc)? {
            Item::Shape { cell, rings, .. } => {
                Ok(change_act(alloc, id, Some(Item::Shape { cell, layer, rings }))?)
            }
            Item::Placed { .. } => Err(CmdFault::NotShape),
        },
        None => Err(CmdFault::NoItem),
    }
}

/// Plans that an item moves.
#[tactic(auto, unfolding(txn_commands::specs::Plans::plan))]
pub(crate) fn plan_move(
    alloc: Global,
    seen: &LayoutView<'_>,
    new: ItemId,
    id: ItemId,
    dx: i32,
    dy: i32,
) -> Result<Act, CmdFault>
    ensures { IsAnswer CmdFault.NoMemory result (plan new (command.Move id dx dy) seen.now) }
{
    match seen.item(id) {
        Some(item) => match moved(alloc, item, Point { x: dx, y: dy })? {
            Some(moved) => Ok(change_act(alloc, id, Some(moved))?),
            None => Err(CmdFault::OutOfRange),
        },
        None => Err(CmdFault::NoItem),
    }
}

/// Returns the item moved so far, where that is in range.
fn moved(alloc: Global, item: &Item, by: Point) -> Result<Option<Item>, NoMemory>
    ensures { IfOk result (λ moved. moved ≡ item_moved by item.now) }
{
    match item {
        Item::Shape { cell, layer, rings } => {
            let Some(rings) = moved_rings(alloc, rings.as_slice(), by)? else {
                return Ok(None);
            };
            let rings = Rings::new(alloc, rings)?;
            Ok(Some(Item::Shape {
                cell: *cell,
                layer: *layer,
                rings,
            }))
        }
        Item::Placed { cell, target, turn } => Ok(moved_call(*cell, *target, *turn, by)),
    }
}

/// Returns the call moved so far, where that is in range.
fn moved_call(cell: CellId, target: u32, turn: Turn, by: Point) -> Option<Item>
    ensures { result ≡ item_moved by (Placed cell target turn) }
{
    let shift = moved_point(turn.shift, by)?;
    let Turn {
        mirror,
        quarter,
        ..
    } = turn;
    let turn = Turn {
        mirror,
        quarter,
        shift,
    };
    Some(Item::Placed { cell, target, turn })
}

/// Returns the point shifted, where that is in range.
fn moved_point(point: Point, by: Point) -> Option<Point>
    ensures fits { is_some result ≡ is_in_range (shifted by point) }
    ensures value { IfSome result (λ moved. moved ≡ shifted by point) }
{
    let turn = Turn {
        mirror: false,
        quarter: Quarter::R0,
        shift: by,
    };
    turn.apply(point)
}

/// Returns the rings with all their points shifted, where these are in range.
fn moved_rings(alloc: Global, rings: &[Ring], by: Point) -> Result<Option<Vec<Ring>>, NoMemory>
    ensures { IfOk result (λ moved. option_map (λ v. v.items) moved ≡ rings_moved by rings.now) }
{
    let mut moved = Vec::with_capacity(alloc, rings.len())?;
    for ring in rings {
        match moved_ring(alloc, ring, by)? {
            Some(ring) => moved.push(ring)?,
            None => return Ok(None),
        }
    }
    Ok(Some(moved))
}

/// Returns the ring with its points shifted, where these are in range.
fn moved_ring(alloc: Global, ring: &Ring, by: Point) -> Result<Option<Ring>, NoMemory>
    ensures { IfOk result (λ moved. moved ≡ ring_moved by ring.now) }
{
    match moved_points(alloc, ring.points(), by)? {
        Some(points) => same_ring(alloc, &points),
        None => Ok(None),
    }
}

/// Returns the points shifted, where they are in range.
fn moved_points(alloc: Global, points: &[Point], by: Point) -> Result<Option<Vec<Point>>, NoMemory>
    ensures { IfOk result (λ moved. option_map (λ v. v.items) moved ≡ ring_moved by points.now) }
{
    let mut moved = Vec::with_capacity(alloc, points.len())?;
    for point in points {
        match moved_point(*point, by) {
            Some(shifted) => moved.push(shifted)?,
            None => return Ok(None),
        }
    }
    Ok(Some(moved))
}

/// Returns the ring of points that are those of one.
fn same_ring(alloc: Global, points: &[Point]) -> Result<Option<Ring>, NoMemory>
    requires { IsRing points.now }
    ensures { IfOk result (λ ring. ring ≡ Some points.now) }
{
    match Ring::new(alloc, points) {
        Ok(ring) => Ok(Some(ring)),
        Err(RingFault::NoMemory) => Err(NoMemory {}),
        Err(_) => Ok(None),
    }
}
