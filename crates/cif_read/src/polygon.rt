//! What a polygon draws.
ghost use Rattle.std.specs.Prelude.{◌≡◌, [], IfOk, false, option_map};
ghost use Rattle.std.specs.List.{list_all, list_any};
ghost use Rattle.lay_point.specs.Memory.{IsAnswer};
ghost use Rattle.cif_read.specs.declared.fault.FaultKind.TheVariants.{NoMemory as OutOfMemory};
ghost use Rattle.cif_read.specs.Polygons.{is_above_written, is_too_big, points_from, polygon_at};
ghost use Rattle.cif_read.specs.Scales.{is_whole_vertex};

use crate::fault::FaultKind;
use crate::ratio::Ratio;
use cif_grammar::{MAX_MAGNITUDE, Vertex};
use lay_point::{NoMemory, Point, Ring, RingFault};
use std::alloc::Global;

/// Returns whether some number of the vertices is above all that a text may write.
pub(crate) fn is_big_path(vertices: &[Vertex]) -> bool
    ensures { result ≡ list_any is_too_big vertices.now }
{
    vertices.iter().any(|vertex| is_too_big(*vertex))
}

/// Returns whether a number of the vertex is above all that a text may write.
pub(crate) fn is_too_big(vertex: Vertex) -> bool
    ensures { result ≡ is_too_big vertex }
{
    is_above_written(vertex.x.magnitude) || is_above_written(vertex.y.magnitude)
}

/// Returns whether the magnitude is above all that a text may write.
pub(crate) fn is_above_written(magnitude: u32) -> bool
    ensures { result ≡ is_above_written magnitude }
{
    magnitude > MAX_MAGNITUDE
}

/// Returns the ring of the polygon, or `None` where it is dropped.
#[tactic(auto, unfolding(crate::specs::Polygons::polygon_at))]
pub(crate) fn polygon_ring(
    alloc: Global,
    scale: Ratio,
    vertices: &[Vertex],
) -> Result<Option<Ring>, FaultKind>
    requires { list_any is_too_big vertices.now ≡ false }
    ensures { IsAnswer OutOfMemory result (polygon_at scale vertices.now) }
{
    if !are_whole(scale, vertices) {
        return Err(FaultKind::OffGrid);
    }
    let points = points(alloc, scale, vertices)?.ok_or(FaultKind::TooBig)?;
    match Ring::new(alloc, &points) {
        Ok(ring) => Ok(Some(ring)),
        Err(RingFault::FewPoints) => Ok(None),
        Err(RingFault::OutOfRange) => Err(FaultKind::TooBig),
        Err(RingFault::TooMany) => Err(FaultKind::TooMany),
        Err(RingFault::NoMemory) => Err(FaultKind::NoMemory),
    }
}

/// Returns whether all distances of the vertices are whole.
fn are_whole(scale: Ratio, vertices: &[Vertex]) -> bool
    requires { list_any is_too_big vertices.now ≡ false }
    ensures { result ≡ list_all (is_whole_vertex scale) vertices.now }
{
    for vertex in vertices {
        if !scale.is_whole_vertex(*vertex) {
            return false;
        }
    }
    true
}

/// Returns the points of the vertices, or `None` where one is out of range.
#[tactic(auto, unfolding(crate::specs::Polygons::points_from))]
fn points(alloc: Global, scale: Ratio, vertices: &[Vertex]) -> Result<Option<Vec<Point>>, NoMemory>
    requires { list_any is_too_big vertices.now ≡ false }
    ensures { IfOk result (λ found. option_map (λ points. points.items) found ≡ points_from scale [] vertices.now) }
{
    let mut points = Vec::new(alloc);
    for vertex in vertices {
        let Some(point) = scale.point(*vertex) else {
            return Ok(None);
        };
        points.push(point)?;
    }
    Ok(Some(points))
}
