//! Points and rings as tests write them.
ghost use Rattle.std.specs.Prelude.{◌≡◌};

use lay_point::{NoMemory, Point, Ring};
use snap_chains::{CleanEdges, Input, OwnedRing, Owner, round};
use std::alloc::Global;
use std::thread::Threads;

/// Returns the point of these coordinates.
pub(crate) fn at(x: i32, y: i32) -> Point
    ensures { result ≡ record { x = x; y = y } }
{
    Point { x, y }
}

/// Returns the ring of the first shape of an input.
pub(crate) fn owned(input: Input, points: &[Point]) -> OwnedRing<'_>
    ensures { result.1 ≡ points.now }
{
    OwnedRing {
        owner: Owner { input, shape: 0 },
        points,
    }
}

/// Returns the edges of two rounded rings, one of each input.
pub(crate) fn rounded(
    rt: &(impl Threads + Sync),
    alloc: Global,
    first: &Ring,
    second: &Ring,
) -> Result<CleanEdges, NoMemory> {
    let rings = [
        owned(Input::First, first.points()),
        owned(Input::Second, second.points()),
    ];
    round(rt, alloc, &rings)
}

/// Returns the edges of two rounded squares that overlap, one of each input.
pub(crate) fn two_squares(
    rt: &(impl Threads + Sync),
    alloc: Global,
) -> Result<CleanEdges, NoMemory> {
    let low = Ring::rectangle(alloc, at(0, 0), at(20, 20));
    let high = Ring::rectangle(alloc, at(10, 10), at(30, 30));
    rounded(rt, alloc, &low, &high)
}
