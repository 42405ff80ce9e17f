//! Directions of edges, so that what is inside lies on the left of each.

use crate::slant::{Slant, slants_of};
use crate::sweep::{add_begun, ending_above, heights_of};
use lay_point::Point;
use snap_pixels::area;
use std::alloc::{AllocError, Global};

/// Returns the edges, each in the direction in which what is inside by parity lies on its left. Of the
/// edges, each of which is there once, no two cross or lie on one another.
pub(crate) fn directed(
    alloc: Global,
    edges: &[(Point, Point)],
) -> Result<Vec<(Point, Point)>, AllocError> {
    let mut slants = slants_of(alloc, edges)?;
    slants.sort_unstable_by_key(|slant: &Slant| slant.low.y);
    let heights = heights_of(alloc, slants.as_slice())?;
    let levels = level_edges(alloc, edges)?;
    let mut directed = Vec::with_capacity(alloc, edges.len())?;
    let mut active = Vec::new(alloc);
    let mut left = slants.as_slice();
    let mut left_level = levels.as_slice();
    for height in heights.as_slice() {
        active = ending_above(alloc, active.as_slice(), *height)?;
        left = add_begun(&mut active, left, *height)?;
        add_slants(&mut directed, active.as_slice(), *height)?;
        left_level = add_levels(&mut directed, active.as_slice(), left_level, *height)?;
    }
    Ok(directed)
}

/// Returns the level edges, by their heights.
fn level_edges(alloc: Global, edges: &[(Point, Point)]) -> Result<Vec<(Point, Point)>, AllocError> {
    let mut levels = Vec::new(alloc);
    for edge in edges {
        if edge.0.y == edge.1.y {
            levels.push(*edge)?;
        }
    }
    levels.sort_unstable_by_key(|edge: &(Point, Point)| edge.0.y);
    Ok(levels)
}

/// Adds the edges of those slants that begin at this height. The slants, from right to left, go upward
/// and downward by turns.
fn add_slants(
    directed: &mut Vec<(Point, Point)>,
    slants: &[Slant],
    height: i32,
) -> Result<(), AllocError> {
    let mut up = true;
    for slant in slants {
        if slant.low.y == height {
            directed.push(along(slant.low, slant.high, up))?;
        }
        up = !up;
    }
    Ok(())
}

/// Adds those of the level edges that are at this height or below it, and returns the others. Each goes
/// to the right where an odd number of the slants of its height is on its right.
fn add_levels<'a>(
    directed: &mut Vec<(Point, Point)>,
    slants: &[Slant],
    levels: &'a [(Point, Point)],
    height: i32,
) -> Result<&'a [(Point, Point)], AllocError> {
    let mut left = levels;
    while let Some((edge, behind)) = left.split_first() {
        if edge.0.y > height {
            return Ok(left);
        }
        let inside_above = count_right(slants, edge.1) % 2 == 1;
        directed.push(along(edge.0, edge.1, inside_above))?;
        left = behind;
    }
    Ok(left)
}

/// Returns how many of the slants, from right to left, aren't left of the point.
fn count_right(slants: &[Slant], point: Point) -> usize {
    slants.partition_point(|slant: &Slant| is_not_left_of(*slant, point))
}

/// Returns whether the slant isn't left of the point.
fn is_not_left_of(slant: Slant, point: Point) -> bool {
    area(point, slant.low, slant.low, slant.high) >= 0
}

/// Returns the edge from the first point to the second, or back.
fn along(first: Point, second: Point, forth: bool) -> (Point, Point) {
    if forth {
        (first, second)
    } else {
        (second, first)
    }
}
