//! Edges from their lower ends to their upper ones.
ghost use Rattle.std.specs.Prelude.{◌≡◌, IsTrue};
ghost use Rattle.lay_point.specs.Edges.{is_before};
ghost use Rattle.face_rows.specs.Rows.{crosses_row, upward};

use lay_point::{Edge, Point};

/// Returns the lower end of the edge, and the upper one. Of a level edge the lesser comes first.
pub fn upward(edge: Edge) -> (Point, Point)
    ensures value { result ≡ upward edge }
    ensures lesser { IsTrue (is_before edge.0 edge.1) }
{
    let (low, high) = (edge.low(), edge.high());
    if low.y <= high.y {
        (low, high)
    } else {
        (high, low)
    }
}

/// Returns whether the edge crosses the height `row + 1/2`.
pub fn crosses_row(edge: Edge, row: i32) -> bool
    ensures value { result ≡ crosses_row row edge }
    ensures lesser { IsTrue (is_before edge.0 edge.1) }
{
    let (low, high) = upward(edge);
    low.y <= row && row < high.y
}
