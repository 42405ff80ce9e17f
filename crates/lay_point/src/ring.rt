//! Rings: closed paths. Four points are kept in place.
ghost use Rattle.std.specs.Prelude.{◌≡◌, ◌≤◌, ◌<ℤ◌, IfOk, IsTrue, length};
ghost use Rattle.std.specs.List.{list_all};
ghost use Rattle.lay_point.specs.RingStorage.{kept_points};
ghost use Rattle.lay_point.specs.Memory.{IsAnswer};
ghost use Rattle.lay_point.specs.Points.{is_in_range};
ghost use Rattle.lay_point.specs.Rings.{IsRing, NeighboursDiffer, closed, opened, rectangle};
ghost use Rattle.lay_point.specs.Rings.{checked_ring, ring_of, without_neighbours, without_repeats};

use crate::memory::NoMemory;
use crate::point::Point;
use smallvec::SmallVec;
use std::alloc::{AllocError, Global};
use std::marker::Model;
use thiserror::Error;

/// The most points of a ring.
pub const MAX_RING_POINTS: usize = 65_536;

const _: () = prove!(MAX_RING_POINTS == 65_536);

/// Why points make no ring. The faults but `NoMemory` are tested in this order.
#[derive(Clone, Copy, Debug, PartialEq, Eq, Error)]
pub enum RingFault {
    /// Fewer than three points remain without repeats.
    #[error("a ring needs at least three points")]
    FewPoints,
    /// A coordinate's magnitude is above `LIMIT`.
    #[error("a point of the ring is out of range")]
    OutOfRange,
    /// More than `MAX_RING_POINTS` points remain without repeats.
    #[error("the ring has too many points")]
    TooMany,
    /// An allocation failed.
    #[error("out of memory")]
    NoMemory,
}

/// A closed path of 3 to `MAX_RING_POINTS` points in range, no two neighbours of which are equal, the
/// last and the first among them. Contracts see the list of its points.
#[derive(Debug, Drop)]
pub struct Ring {
    kept: RingStorage,
}

/// How a ring's points are kept. Four stand in place, and need no list.
#[derive(Debug, Drop)]
enum RingStorage {
    Four([Point; 4]),
    Other(Vec<Point>),
}

impl Model for Ring {
    ghost use Rattle.std.specs.Prelude.{List};
    ghost use Rattle.lay_point.specs.declared.point.Point.{Point};
    ghost use Rattle.lay_point.specs.RingStorage.{kept_points};
    ghost use Rattle.lay_point.specs.Rings.{IsRing};

    ghost Value = { List Point };

    ghost view = { λ r. kept_points r.kept };

    ghost invariant = { λ r. IsRing (kept_points r.kept) };
}

impl Ring {
    /// Returns the ring of these points. A point that equals the one before it is dropped, then the last
    /// one where it equals the first.
    ///
    /// # Errors
    ///
    /// `FewPoints`, `OutOfRange` and `TooMany`, tested in this order on the points that are left; `NoMemory`, if an
    /// allocation fails.
    ///
    /// # Cost
    ///
    /// A pass over the points.
    pub fn new(alloc: Global, points: &[Point]) -> Result<Ring, RingFault>
        ensures { IsAnswer RingFault.NoMemory result (ring_of points.now) }
    {
        let kept = without_neighbours(alloc, points).map_err(|_| RingFault::NoMemory)?;
        checked(opened(kept))
    }

    /// Returns the upright rectangle with these corners, from `low` anticlockwise. It doesn't allocate.
    pub fn rectangle(_alloc: Global, low: Point, high: Point) -> Ring
        requires low { IsTrue (is_in_range low) }
        requires high { IsTrue (is_in_range high) }
        requires wide { low.x <ℤ high.x }
        requires tall { low.y <ℤ high.y }
        ensures value { result ≡ rectangle low high }
        ensures ring { IsRing result }
    {
        let right = Point {
            x: high.x,
            y: low.y,
        };
        let left = Point {
            x: low.x,
            y: high.y,
        };
        let kept = RingStorage::Four([low, right, high, left]);
        Ring { kept }
    }

    /// Returns the points of the ring, in order.
    pub fn points(&self) -> &[Point]
        ensures value { result.now ≡ self.now }
        ensures ring { IsRing self.now }
    {
        self.kept.as_slice()
    }
}

impl RingStorage {
    /// Returns the points as they are kept.
    fn of(points: SmallVec<Point, 4>) -> Result<RingStorage, NoMemory>
        ensures { IfOk result (λ kept. kept_points kept ≡ points.items) }
    {
        if let [first, second, third, fourth] = points.as_slice() {
            return Ok(RingStorage::Four([*first, *second, *third, *fourth]));
        }
        Ok(RingStorage::Other(points.into_vec()?))
    }

    /// Returns the points, in order.
    fn as_slice(&self) -> &[Point]
        ensures { result.now ≡ kept_points self.now }
    {
        match self {
            RingStorage::Four(points) => points.as_slice(),
            RingStorage::Other(points) => points.as_slice(),
        }
    }
}

impl Clone for Ring {
    ghost is_clone = { λ ring copy. copy ≡ ring };

    /// Returns an equal ring. Four points take no memory.
    fn clone(&self) -> Result<Ring, AllocError> {
        let kept = match &self.kept {
            RingStorage::Four(points) => RingStorage::Four(*points),
            RingStorage::Other(points) => RingStorage::Other(points.clone()?),
        };
        Ok(Ring { kept })
    }
}

impl PartialEq for Ring {
    ghost use Rattle.lay_point.specs.Same.{points_eq, points_eq_partial};

    ghost eq = { points_eq };

    ghost laws = { points_eq_partial };

    fn eq(&self, other: &Ring) -> bool {
        self.points() == other.points()
    }
}

impl Eq for Ring {
    ghost use Rattle.lay_point.specs.Same.{points_eq_equiv};

    ghost laws = { points_eq_equiv };
}

/// Returns the points as a ring keeps them: a point that equals the one before it is dropped, then the
/// last one where it equals the first.
///
/// # Errors
///
/// `NoMemory`, if an allocation fails.
///
/// # Cost
///
/// A pass over the points.
#[tactic(auto, unfolding(crate::specs::Rings::without_repeats))]
pub fn without_repeats(alloc: Global, points: &[Point]) -> Result<Vec<Point>, NoMemory>
    ensures { IfOk result (λ kept. kept.items ≡ without_repeats points.now) }
{
    let kept = without_neighbours(alloc, points)?;
    Ok(opened(kept).into_vec()?)
}

/// Drops each point that equals the one before it.
fn without_neighbours(alloc: Global, points: &[Point]) -> Result<SmallVec<Point, 4>, AllocError>
    ensures { IfOk result (λ kept. kept.items ≡ without_neighbours points.now) }
{
    let mut kept = SmallVec::new(alloc);
    let Some((first, behind)) = points.split_first() else {
        return Ok(kept);
    };
    kept.push(*first)?;
    let mut last = *first;
    for point in behind {
        if last != *point {
            kept.push(*point)?;
            last = *point;
        }
    }
    Ok(kept)
}

/// Drops the last point of a path where that is the first again.
fn opened(mut path: SmallVec<Point, 4>) -> SmallVec<Point, 4>
    ensures { result.items ≡ opened path.items }
{
    if let [first, .., last] = path.as_slice() {
        if first == last {
            path.pop();
        }
    }
    path
}

/// Returns the ring of points without repeats.
fn checked(points: SmallVec<Point, 4>) -> Result<Ring, RingFault>
    requires { 2 ≤ length points.items → NeighboursDiffer (closed points.items) }
    ensures { IsAnswer RingFault.NoMemory result (checked_ring points.items) }
{
    if points.len() < 3 {
        return Err(RingFault::FewPoints);
    }
    if !are_in_range(points.as_slice()) {
        return Err(RingFault::OutOfRange);
    }
    if points.len() > MAX_RING_POINTS {
        return Err(RingFault::TooMany);
    }
    let kept = RingStorage::of(points).map_err(|_| RingFault::NoMemory)?;
    Ok(Ring { kept })
}

fn are_in_range(points: &[Point]) -> bool
    ensures { result ≡ list_all is_in_range points.now }
{
    points.iter().all(|p| p.is_in_range())
}
