//! Chains of segments: the hot centres that they meet, in the order in which they go.
ghost use Rattle.std.specs.Prelude.{◌≡◌, ◌^◌, neg_ℤ, pos, ◌-ℤ◌, ◌*ℤ◌, ◌≤ℤ◌, Contains, IfOk, OnOk};
ghost use Rattle.std.specs.Int.{int_signum};
ghost use Rattle.lay_point.specs.declared.point.Point.{Point};
ghost use Rattle.snap_edge_laws.specs.Edges.{key};
ghost use Rattle.snap_edge_laws.specs.Chains.{IsChain};

use lay_point::{NoMemory, Point};
use snap_pixels::{HotSet, Segment};
use snap_slabs::Finder;
use std::alloc::{AllocError, Global};
use std::cmp::Ordering;

/// Returns the hot centres whose pixels the segment meets, in the order in which it goes.
///
/// Source: Hobby, Practical segment intersection with finite precision output, 1999.
///
/// # Errors
///
/// `NoMemory`, if an allocation fails.
///
/// # Cost
///
/// Each hot centre in the segment's columns is asked.
pub fn chain(alloc: Global, segment: &Segment, hot: &HotSet) -> Result<Vec<Point>, NoMemory>
    ensures { IfOk result (λ points. IsChain (Contains hot.now) segment.now points.items) }
{
    let finder = Finder::plain(alloc, hot);
    let mut points = Vec::new(alloc);
    put_chain(&mut points, segment, &finder, (0, 0))?;
    Ok(points)
}

/// Puts the chain of the segment, as `chain` returns it, of the centres of the finder in place of the points. `near`
/// are indices of centres near the segment's ends, the lesser first, where the search begins; any will do.
pub(crate) fn put_chain(
    points: &mut Vec<Point>,
    segment: &Segment,
    finder: &Finder,
    near: (usize, usize),
) -> Result<(), AllocError>
    ensures { OnOk result (IsChain (Contains finder.now) segment.now points.new.items) }
{
    points.clear();
    finder.add_met(points, segment, near)?;
    points.sort_unstable_by_key(|point: &Point| (key(segment, *point), *point));
    points.dedup();
    Ok(())
}

/// Returns how far `centre` lies along the direction of the segment, of which only the signs count.
fn key(segment: &Segment, centre: Point) -> i64
    ensures { result ≡ key segment.now centre }
{
    let (a, b) = (segment.a(), segment.b());
    advance(a.x, b.x, centre.x) + advance(a.y, b.y, centre.y)
}

/// Returns how far `at` lies in the direction from `from` to `to`.
fn advance(from: i32, to: i32, at: i32) -> i64
    ensures value { result ≡ int_signum (to -ℤ from) *ℤ at }
    ensures low { neg_ℤ (pos (2 ^ 31)) ≤ℤ result }
    ensures high { result ≤ℤ pos (2 ^ 31) }
{
    match to.cmp(&from) {
        Ordering::Less => -i64::from(at),
        Ordering::Equal => 0,
        Ordering::Greater => i64::from(at),
    }
}
