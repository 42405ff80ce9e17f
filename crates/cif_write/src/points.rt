//! Points in decimal digits, and the one path round all rings of a shape, which is put without being
//! made.
//!
//! The last point is held back until the next shows whether it stays, so repeats are dropped
//! without a list of the points.
ghost use Rattle.std.specs.Prelude.{◌≡◌, ◌∷◌};
ghost use Rattle.byte_io.specs.Buffered.{Buffered};
ghost use Rattle.lay_point.specs.Bridges.{bridged};
ghost use Rattle.lay_point.specs.Rings.{closed};
ghost use Rattle.cif_write.specs.Lines.{path_text, point_text};
ghost use Rattle.cif_write.specs.Ways.{kept_by, kept_of, last_point, ways};

use byte_io::{Out, OutBuffer};
use lay_point::{Point, Ring};

/// Puts the points of the one path round the rings. The last point that came is held back: it isn't
/// put where the next equals it, nor at the end where it is the first again.
pub(crate) fn put_bridged<O: Out>(out: &mut O, buffer: &mut OutBuffer, rings: &[Ring])
    ensures { Buffered O.written O.failures out.old buffer.old out.new buffer.new
        (path_text (bridged rings.now)) }
{
    let Some((first, others)) = rings.split_first() else {
        return;
    };
    let points = first.points();
    put_point(out, buffer, points[0]);
    let round = put_behind(out, buffer, points[1], &points[2..]);
    let last = put_ways(out, buffer, round, points[0], others);
    put_unless_next(out, buffer, last, points[0]);
}

/// Puts the ways from the start out to the rings, behind the point that is held back. Returns the
/// last point.
fn put_ways<O: Out>(
    out: &mut O,
    buffer: &mut OutBuffer,
    held: Point,
    start: Point,
    rings: &[Ring],
) -> Point
    ensures put { Buffered O.written O.failures out.old buffer.old out.new buffer.new
        (path_text (kept_of held (ways start rings.now))) }
    ensures last { result ≡ last_point held (ways start rings.now) }
{
    let mut last = held;
    for ring in rings {
        last = put_way(out, buffer, last, start, ring);
    }
    last
}

/// Puts the start, the ring's points and its first point again, behind the point that is held back.
/// Returns the last point.
fn put_way<O: Out>(
    out: &mut O,
    buffer: &mut OutBuffer,
    held: Point,
    start: Point,
    ring: &Ring,
) -> Point
    ensures put { Buffered O.written O.failures out.old buffer.old out.new buffer.new
        (path_text (kept_of held (start ∷ closed ring.now))) }
    ensures last { result ≡ last_point held (start ∷ closed ring.now) }
{
    let points = ring.points();
    put_unless_next(out, buffer, held, start);
    let round = put_behind(out, buffer, start, points);
    put_unless_next(out, buffer, round, points[0]);
    points[0]
}

/// Puts the point that is held back and those that come behind it, but the last of them, which it
/// returns. A point that the next equals isn't put.
fn put_behind<O: Out>(out: &mut O, buffer: &mut OutBuffer, held: Point, points: &[Point]) -> Point
    ensures put { Buffered O.written O.failures out.old buffer.old out.new buffer.new
        (path_text (kept_of held points.now)) }
    ensures last { result ≡ last_point held points.now }
{
    let mut last = held;
    for point in points {
        put_unless_next(out, buffer, last, *point);
        last = *point;
    }
    last
}

/// Puts the point that is held back, unless the next equals it.
fn put_unless_next<O: Out>(out: &mut O, buffer: &mut OutBuffer, held: Point, next: Point)
    ensures { Buffered O.written O.failures out.old buffer.old out.new buffer.new
        (path_text (kept_by held next)) }
{
    if held != next {
        put_point(out, buffer, held);
    }
}

/// Puts a point's coordinates, each after a space.
pub(crate) fn put_point<O: Out>(out: &mut O, buffer: &mut OutBuffer, point: Point)
    ensures { Buffered O.written O.failures out.old buffer.old out.new buffer.new
        (point_text point) }
{
    buffer.put_pair(out, point.x, point.y);
}
