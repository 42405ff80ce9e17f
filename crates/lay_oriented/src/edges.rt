//! The edges of rings, in the directions in which the rings go.
ghost use Rattle.std.specs.Prelude.{◌≡◌, ◌++◌, IfOk, OnOk};
ghost use Rattle.lay_point.specs.RingEdges.{edges_of, edges_of_ring};

use lay_point::{Point, Ring};
use std::alloc::{AllocError, Global};

/// Returns the edges of the rings.
pub(crate) fn edges_of(alloc: Global, rings: &[Ring]) -> Result<Vec<(Point, Point)>, AllocError>
    ensures { IfOk result (λ edges. edges.items ≡ edges_of rings.now) }
{
    let mut edges = Vec::new(alloc);
    let mut left = rings;
    while let Some((ring, behind)) = left.split_first() {
        add_ring(&mut edges, ring.points())?;
        left = behind;
    }
    Ok(edges)
}

/// Adds the edges of a ring with these points.
fn add_ring(edges: &mut Vec<(Point, Point)>, points: &[Point]) -> Result<(), AllocError>
    ensures { OnOk result (edges.new.items ≡ edges.old.items ++ edges_of_ring points.now) }
{
    let Some((first, others)) = points.split_first() else {
        return Ok(());
    };
    let mut from = *first;
    let mut left = others;
    while let Some((to, behind)) = left.split_first() {
        edges.push((from, *to))?;
        from = *to;
        left = behind;
    }
    edges.push((from, *first))?;
    Ok(())
}
