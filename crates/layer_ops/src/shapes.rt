//! The shapes that the edges of an operation make.
ghost use Rattle.std.specs.Prelude.{◌≡◌, ◌&&◌, All, IsTrue, false, map};
ghost use Rattle.lay_point.specs.declared.point.Point.{Point};
ghost use Rattle.lay_point.specs.Edges.{IsEdgeBefore, touches};
ghost use Rattle.lay_point.specs.Memory.{IsAnswer};
ghost use Rattle.lay_point.specs.Parity.{parity};
ghost use Rattle.lay_point.specs.Points.{is_in_range};
ghost use Rattle.lay_point.specs.Rising.{IsRising};
ghost use Rattle.layer_ops.specs.Combining.{shape_lists, shaped, tested_shapes};

use crate::fault::OpFault;
use face_rings::{is_path_short, link, parts};
use lay_point::{Edge, Ring};
use std::alloc::Global;

/// Returns the parts of the rings that the edges make.
pub(crate) fn shapes(alloc: Global, edges: &[Edge]) -> Result<Vec<Vec<Ring>>, OpFault>
    requires rising { IsRising IsEdgeBefore edges.now }
    requires in_range { All (λ e. IsTrue (is_in_range e.0 && is_in_range e.1)) edges.now }
    requires even { (v : Point) → parity (touches v) edges.now ≡ false }
    ensures { IsAnswer OpFault.NoMemory (shape_lists result) (shaped edges.now) }
{
    let rings = link(alloc, edges)?;
    let shapes = parts(alloc, rings)?;
    test_paths(&shapes)?;
    Ok(shapes)
}

/// Tests that one path round each of the shapes is short enough for a polygon.
fn test_paths(shapes: &[Vec<Ring>]) -> Result<(), OpFault>
    ensures { result ≡ tested_shapes (map (λ shape. shape.items) shapes.now) }
{
    for shape in shapes {
        if !is_path_short(shape) {
            return Err(OpFault::TooMany);
        }
    }
    Ok(())
}
