//! Rings of edges with directions.
ghost use Rattle.std.specs.Prelude.{◌≡◌, length};

use lay_point::{NoMemory, Point, Ring, RingFault};
use std::alloc::{AllocError, Global};

/// Returns rings of which these are the edges, in the directions that the edges have, or `None` if from
/// some point on there is no way back.
pub(crate) fn linked(
    alloc: Global,
    mut edges: Vec<(Point, Point)>,
) -> Result<Option<Vec<Ring>>, NoMemory> {
    edges.sort_unstable();
    let edges = edges.as_slice();
    let mut unused = numbers(alloc, edges.len())?;
    let mut rings = Vec::new(alloc);
    for (start, _) in edges {
        let Some(to) = take_from(edges, unused.as_mut_slice(), *start) else {
            continue;
        };
        let Some(points) = way_back(alloc, edges, unused.as_mut_slice(), *start, to)? else {
            return Ok(None);
        };
        let Some(ring) = ring_round(alloc, points.as_slice())? else {
            return Ok(None);
        };
        rings.push(ring)?;
    }
    Ok(Some(rings))
}

/// Returns the ring of the points, or `None` where they make none.
pub(crate) fn ring_round(alloc: Global, points: &[Point]) -> Result<Option<Ring>, NoMemory> {
    match Ring::new(alloc, points) {
        Ok(ring) => Ok(Some(ring)),
        Err(RingFault::NoMemory) => Err(NoMemory),
        Err(_) => Ok(None),
    }
}

/// Returns the numbers below `count`.
pub(crate) fn numbers(alloc: Global, count: usize) -> Result<Vec<usize>, AllocError> {
    let mut all = Vec::with_capacity(alloc, count)?;
    for number in 0..count {
        all.push(number)?;
    }
    Ok(all)
}

/// Takes the first edge from the point that isn't taken, and returns its other end. At the number of the
/// first edge from a point stands the number of the first that isn't taken.
fn take_from(edges: &[(Point, Point)], unused: &mut [usize], at: Point) -> Option<Point> {
    let first = edges.partition_point(|edge: &(Point, Point)| edge.0 < at);
    let number = *unused.get(first)?;
    let (from, to) = *edges.get(number)?;
    if from != at {
        return None;
    }
    let unused_at = unused.get_mut(first)?;
    *unused_at = number + 1;
    Some(to)
}

/// Returns the points from the start on, and then from `to` back to it.
fn way_back(
    alloc: Global,
    edges: &[(Point, Point)],
    unused: &mut [usize],
    start: Point,
    to: Point,
) -> Result<Option<Vec<Point>>, AllocError> {
    let mut points = Vec::new(alloc);
    points.push(start)?;
    let mut at = to;
    for _ in 0..edges.len() {
        if at == start {
            return Ok(Some(points));
        }
        points.push(at)?;
        let Some(next) = take_from(edges, unused, at) else {
            return Ok(None);
        };
        at = next;
    }
    Ok(None)
}
