//! Upright rectangles as boxes.
//!
//! A box is written by its length, its width and its centre, so its middle has to be on the grid.
ghost use Rattle.std.specs.Prelude.{◌≡◌};
ghost use Rattle.byte_io.specs.Buffered.{Buffered};
ghost use Rattle.cif_write.specs.Boxes.{
  are_corners,
  box_as,
  box_across,
  corner_box,
  box_text,
  goes_round,
  is_side,
  side_between,
};
ghost use Rattle.lay_point.specs.Bridges.{bridged};

use crate::points::put_point;
use byte_io::{Out, OutBuffer};
use cif_grammar::MAX_MAGNITUDE;
use lay_point::{Point, Ring};

/// How upright rectangles are written.
#[derive(Clone, Copy, Debug, PartialEq, Eq)]
pub enum Rectangles {
    /// As polygons, `P`, like all other shapes.
    Polygons,
    /// As boxes, `B`, where their middle is on the grid. What is read of a box begins at its lower left
    /// corner and runs anticlockwise.
    Boxes,
}

/// A box as a text writes it, its length along the x axis. Only contracts cite it.
#[derive(Clone, Copy)]
pub struct UprightBox {
    /// The side along the x axis.
    pub length: i32,
    /// The side along the y axis.
    pub width: i32,
    /// The middle.
    pub centre: Point,
}

/// Returns the box that the one path round the rings is written as, if it is.
pub(crate) fn box_as(rectangles: Rectangles, rings: &[Ring]) -> Option<UprightBox>
    ensures { result ≡ box_as rectangles (bridged rings.now) }
{
    match rectangles {
        Rectangles::Polygons => None,
        Rectangles::Boxes => corner_box(rings),
    }
}

/// Returns the box that the one path round the rings goes round, if it does. That of several rings has
/// too many points.
fn corner_box(rings: &[Ring]) -> Option<UprightBox>
    ensures { result ≡ corner_box (bridged rings.now) }
{
    match rings {
        [] => None,
        [ring] => box_round(ring.points()),
        [first, second, ..] => {
            first.points();
            second.points();
            None
        }
    }
}

/// Returns the box that the path goes round, if it does.
#[tactic(auto, unfolding(crate::specs::Boxes::corner_box))]
fn box_round(points: &[Point]) -> Option<UprightBox>
    ensures { result ≡ corner_box points.now }
{
    let [a, b, c, d] = points else {
        return None;
    };
    if !are_corners(*a, *b, *c, *d) {
        return None;
    }
    box_across(*a, *c)
}

/// Returns whether the points are the corners of an upright rectangle in turn. Its sides may be empty.
fn are_corners(a: Point, b: Point, c: Point, d: Point) -> bool
    ensures { result ≡ are_corners a b c d }
{
    goes_round(a, b, c, d) || goes_round(a, d, c, b)
}

/// Returns whether they are, where the way from `a` to `b` is along the x axis.
fn goes_round(a: Point, b: Point, c: Point, d: Point) -> bool
    ensures { result ≡ goes_round a b c d }
{
    b == (Point { x: c.x, y: a.y }) && d == (Point { x: a.x, y: c.y })
}

/// Returns the box between two opposite corners, if its middle is on the grid and its sides can be written.
#[tactic(auto, unfolding(crate::specs::Boxes::box_across))]
fn box_across(a: Point, c: Point) -> Option<UprightBox>
    ensures { result ≡ box_across a c }
{
    let (length, x) = side_between(a.x, c.x)?;
    let (width, y) = side_between(a.y, c.y)?;
    Some(UprightBox {
        length,
        width,
        centre: Point { x, y },
    })
}

/// Returns the length and the middle of the side between two places of an axis, unless it is empty, its middle is
/// off the grid or it is longer than a text may write.
fn side_between(a: i32, b: i32) -> Option<(i32, i32)>
    ensures { result ≡ side_between a b }
{
    let length = a.abs_diff(b);
    if !is_side(length) {
        return None;
    }
    Some((length as i32, a.min(b) + (length / 2) as i32))
}

/// Returns whether a side of this length isn't empty, has its middle on the grid and may be written.
fn is_side(length: u32) -> bool
    ensures { result ≡ is_side length }
{
    length != 0 && length % 2 == 0 && length <= MAX_MAGNITUDE
}

/// Puts the line that draws a box.
pub(crate) fn put_box<O: Out>(out: &mut O, buffer: &mut OutBuffer, figure: UprightBox)
    ensures { Buffered O.written O.failures out.old buffer.old out.new buffer.new
        (box_text figure) }
{
    buffer.put_byte(out, b'B');
    buffer.put_pair(out, figure.length, figure.width);
    put_point(out, buffer, figure.centre);
    buffer.put(out, b";\n");
}
