//! Edges of the sweep that end or begin at one point.
use lay_point::Point;

/// Where the edges of a line stand that end at a point, or those that begin there.
#[derive(Clone, Copy, Debug)]
pub(crate) struct Group {
    pub point: Point,
    pub from: usize,
    pub to: usize,
}
