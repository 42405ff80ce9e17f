//! What the box round a shape's edges tells of the edges on its border.
ghost use Rattle.std.specs.Prelude.{◌≡◌};
ghost use Rattle.face_sweep.specs.Reaches.{
  is_first,
  is_last,
  is_level_at,
  is_upright_at,
  told_by,
};

use lay_point::{Edge, Rect};

/// Returns whether the shape that has the box, if there is one, holds right of an edge of its own, or above it
/// if it is level, where the edge is on the box's border.
pub(crate) fn told_by(extent: Option<Rect>, edge: Edge) -> Option<bool>
    ensures { result ≡ told_by extent edge }
{
    let extent = extent?;
    if is_first(extent, edge) {
        return Some(true);
    }
    if is_last(extent, edge) {
        return Some(false);
    }
    None
}

/// Returns whether the edge is on the box's left side or on its bottom.
fn is_first(extent: Rect, edge: Edge) -> bool
    ensures { result ≡ is_first extent edge }
{
    is_upright_at(edge, extent.low.x) || is_level_at(edge, extent.low.y)
}

/// Returns whether the edge is on the box's right side or on its top.
fn is_last(extent: Rect, edge: Edge) -> bool
    ensures { result ≡ is_last extent edge }
{
    is_upright_at(edge, extent.high.x) || is_level_at(edge, extent.high.y)
}

/// Returns whether both ends of the edge are in the column.
fn is_upright_at(edge: Edge, x: i32) -> bool
    ensures { result ≡ is_upright_at x edge }
{
    edge.low().x == x && edge.high().x == x
}

/// Returns whether both ends of the edge are at the height.
fn is_level_at(edge: Edge, y: i32) -> bool
    ensures { result ≡ is_level_at y edge }
{
    edge.low().y == y && edge.high().y == y
}
