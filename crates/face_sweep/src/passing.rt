//! How the list of a row's edges passes a point.
ghost use Rattle.std.specs.Prelude.{◌≡◌, ◌<◌, length};
ghost use Rattle.lay_point.specs.Points.{point_eq};
ghost use Rattle.face_rows.specs.Lines.{edge_at};
ghost use Rattle.face_rows.specs.Rows.{upward};
ghost use Rattle.face_rows.specs.Sound.{AreSound};
ghost use Rattle.face_sweep.specs.Points.{IsEndPoint, IsEndedGroup, IsPlaceAmong, IsStatus};

use crate::block_list::BlockList;
use face_rows::upward;
use lay_point::Point;
use snap_chains::CleanEdges;

/// Returns up to where the edges from this place on end at the point.
///
/// # Cost
///
/// A pass over the edges that end at the point.
pub fn group_end(edges: &CleanEdges, numbers: &BlockList<usize>, point: Point, from: usize) -> usize
    requires sound { AreSound edges.now }
    requires end { IsEndPoint edges.now point }
    requires status { IsStatus edges.now point numbers.now }
    requires place { IsPlaceAmong edges.now point numbers.now from }
    ensures { IsEndedGroup edges.now point numbers.now from result }
{
    for index in from..numbers.len() {
        if !ends_at(edges, numbers.get(index), point) {
            return index;
        }
    }
    numbers.len()
}

/// Returns whether the edge of this number ends at the point.
fn ends_at(edges: &CleanEdges, number: usize, point: Point) -> bool
    requires { number < length edges.now.0 }
    ensures { result ≡ point_eq (upward (edge_at edges.now number)).1 point }
{
    let (_, high) = upward(edges.edges()[number]);
    high == point
}
