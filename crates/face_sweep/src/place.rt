//! Where a point is among the edges of a row.
ghost use Rattle.std.specs.Prelude.{◌≡◌, ◌<◌, All, int_lt, length, pos, slice_index};
ghost use Rattle.face_sweep.specs.Points.{IsPlaceAmong, distance_from};

use crate::block_list::BlockList;
use crate::side::is_left_of;
use lay_point::Point;
use snap_chains::CleanEdges;
use snap_pixels::partition_from;

/// Returns where those of the edges begin that aren't left of the point, if the others stand before them. The
/// search begins at the hint.
///
/// # Cost
///
/// Tests in proportion to the logarithm of how far the place is from the hint; at most twice the logarithm of the
/// number of edges.
pub fn place_of_point(
    edges: &CleanEdges,
    numbers: &BlockList<usize>,
    point: Point,
    hint: usize,
) -> usize
    requires { All (λ n. n < length edges.now.0) numbers.now }
    ensures { IsPlaceAmong edges.now point numbers.now result }
{
    partition_from(numbers.len(), hint, |index| {
        is_left(edges, numbers.get(index), point)
    })
}

/// Returns whether the edge at this index is left of the point.
pub(crate) fn is_left_at(edges: &CleanEdges, numbers: &[usize], index: usize, point: Point) -> bool
    requires given { All (λ n. n < length edges.now.0) numbers.now }
    requires index { index < length numbers.now }
    ensures { result ≡ int_lt (distance_from edges.now point (slice_index numbers.now index)) (pos 0) }
{
    is_left(edges, numbers[index], point)
}

/// Returns whether the edge of this number is left of the point.
fn is_left(edges: &CleanEdges, number: usize, point: Point) -> bool
    requires { number < length edges.now.0 }
    ensures { result ≡ int_lt (distance_from edges.now point number) (pos 0) }
{
    is_left_of(edges.edges()[number], point)
}
