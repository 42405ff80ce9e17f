//! Closed walks over points.

use lay_point::Point;
use std::alloc::{AllocError, Global};

/// A stop of a walk.
#[derive(Clone, Copy, Debug)]
pub(crate) struct Stop {
    /// Where it is.
    pub at: Point,
    /// The number of the next stop.
    pub next: usize,
}

/// Joins two walks: from the one stop out to the other, round from there, and back. Both stops stand twice
/// then.
pub(crate) fn join(walk: &mut Vec<Stop>, from: usize, to: usize) -> Result<(), AllocError> {
    let (Some(start), Some(end)) = (walk.get(from).copied(), walk.get(to).copied()) else {
        return Ok(());
    };
    let out = walk.len();
    walk.push(end)?;
    let back = walk.len();
    walk.push(start)?;
    go_on(walk.as_mut_slice(), from, out);
    go_on(walk.as_mut_slice(), to, back);
    Ok(())
}

/// Joins two walks that have a place in common, at which these stops are: the first goes on as the second did,
/// and the second as the first.
pub(crate) fn splice(walk: &mut [Stop], first: usize, second: usize) {
    let (Some(one), Some(other)) = (walk.get(first).copied(), walk.get(second).copied()) else {
        return;
    };
    go_on(walk, first, other.next);
    go_on(walk, second, one.next);
}

/// Makes this the next stop after that of the number.
fn go_on(walk: &mut [Stop], number: usize, next: usize) {
    if let Some(stop) = walk.get_mut(number) {
        stop.next = next;
    }
}

/// Returns the points of the walk from the first stop on, as many as it has stops.
pub(crate) fn path_of(alloc: Global, walk: &[Stop]) -> Result<Vec<Point>, AllocError> {
    let mut path = Vec::with_capacity(alloc, walk.len())?;
    let mut number = 0;
    for _ in walk {
        let Some(stop) = walk.get(number) else {
            return Ok(path);
        };
        path.push(stop.at)?;
        number = stop.next;
    }
    Ok(path)
}
