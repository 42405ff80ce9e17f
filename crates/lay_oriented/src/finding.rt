//! The search for ways between rings.

use crate::corner::{Corner, Side};
use crate::gaps::Gaps;
use crate::ways::Found;
use lay_point::Point;
use std::alloc::{AllocError, Global};

/// Finds ways between the rings of these corners, which are in order, and sides, which are in that of their
/// starts.
pub(crate) fn find_ways(
    alloc: Global,
    found: &mut Found,
    corners: &[Corner],
    sides: &[Side],
) -> Result<(), AllocError> {
    let mut gaps = Gaps::new(alloc, found.outlines.len())?;
    let mut last = None;
    let mut left = corners;
    let mut left_sides = sides;
    while let Some((corner, after)) = left.split_first() {
        found.pass(corner.ring, gaps.under(corner.at));
        match last_at(last, corner.at) {
            Some(same) => found.add_straight(same, *corner)?,
            None => gaps.pass(found, *corner, last, next_place(after, corner.at))?,
        }
        left_sides = begin_all(&mut gaps, left_sides, corner.at)?;
        last = Some(*corner);
        left = after;
    }
    Ok(())
}

/// Returns the last corner, if it is at this place.
fn last_at(last: Option<Corner>, at: Point) -> Option<Corner> {
    let corner = last?;
    if corner.at == at { Some(corner) } else { None }
}

/// Returns the first of the corners that isn't at this place.
fn next_place(corners: &[Corner], at: Point) -> Option<Corner> {
    for corner in corners {
        if corner.at != at {
            return Some(*corner);
        }
    }
    None
}

/// Begins those of the sides that start at this place, and returns the others.
fn begin_all<'a>(gaps: &mut Gaps, sides: &'a [Side], at: Point) -> Result<&'a [Side], AllocError> {
    let mut left = sides;
    while let Some((side, after)) = left.split_first() {
        if side.start.at != at {
            return Ok(left);
        }
        gaps.begin(*side)?;
        left = after;
    }
    Ok(left)
}
