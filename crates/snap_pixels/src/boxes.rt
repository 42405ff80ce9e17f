//! A quick test of two segments, by the boxes round them.
ghost use Rattle.std.specs.Prelude.{◌⊎◌, IsTrue};
ghost use Rattle.snap_pixels.specs.Boxes.{ArePairsApart, IsPairBelow};

use lay_point::Point;

/// Returns whether the box round `a` and `b` has nothing in common with the one round `c` and `d`. The
/// clause leaves open when the answer is false: the exact tests follow then.
pub(crate) fn boxes_are_apart(a: Point, b: Point, c: Point, d: Point) -> bool
    ensures { IsTrue result → (ArePairsApart a.x b.x c.x d.x ⊎ ArePairsApart a.y b.y c.y d.y) }
{
    is_left_or_lower(a, b, c, d) | is_left_or_lower(c, d, a, b)
}

/// Returns whether the box round `a` and `b` is to the left of the one round `c` and `d`, or below it.
fn is_left_or_lower(a: Point, b: Point, c: Point, d: Point) -> bool
    ensures { IsTrue result → (IsPairBelow a.x b.x c.x d.x ⊎ IsPairBelow a.y b.y c.y d.y) }
{
    is_left(a, b, c, d) | is_lower(a, b, c, d)
}

/// Returns whether `a` and `b` are to the left of `c` and `d`.
fn is_left(a: Point, b: Point, c: Point, d: Point) -> bool
    ensures { IsTrue result → IsPairBelow a.x b.x c.x d.x }
{
    a.x.max(b.x) < c.x.min(d.x)
}

/// Returns whether `a` and `b` are below `c` and `d`.
fn is_lower(a: Point, b: Point, c: Point, d: Point) -> bool
    ensures { IsTrue result → IsPairBelow a.y b.y c.y d.y }
{
    a.y.max(b.y) < c.y.min(d.y)
}
