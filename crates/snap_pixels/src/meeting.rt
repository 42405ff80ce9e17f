//! The test whether a segment meets a pixel.
ghost use Rattle.std.specs.Prelude.{◌↔◌, IsTrue};
ghost use Rattle.snap_pixels.specs.Segments.{Meets};

use crate::boxes::boxes_are_apart;
use crate::segment::Segment;
use crate::span::Span;
use lay_point::Point;

/// Returns whether some point of the segment is in the pixel of `centre`.
pub fn meets(segment: &Segment, centre: Point) -> bool
    ensures { IsTrue result ↔ Meets segment.now.a segment.now.b centre }
{
    let (a, b) = (segment.a(), segment.b());
    if boxes_are_apart(a, b, centre, centre) {
        return false;
    }
    let columns = Span::whole().cut(a.x, b.x, centre.x);
    columns.cut(a.y, b.y, centre.y).holds_some()
}
