//! Numbers of hot centres, and the chains of sides along an axis as runs of numbers.
ghost use Rattle.std.specs.Prelude.{◌≡◌, ℕ, ◌<◌, ◌≤◌, ◌+◌, ◌-◌, Contains, IfOk, IsTrue, ◌↔◌, ◌^◌, Some, length, slice_get};
ghost use Rattle.std.specs.List.{range_with_len};
ghost use Rattle.lay_point.specs.Points.{IsBefore};
ghost use Rattle.lay_point.specs.Rising.{IsRising};
ghost use Rattle.snap_pixels.specs.declared.segment.Segment.{Segment};
ghost use Rattle.snap_slabs.specs.Runs.{AreEnds, AreRanked, IsChainRun, IsSide};

use crate::buckets::Buckets;
use crate::columns_of::is_before;
use crate::rows::{centres_of, places_of, rows_of};
use lay_point::{NoMemory, Point};
use snap_pixels::{HotSet, partition_from};
use std::alloc::{AllocError, Global};
use std::marker::Model;
use std::thread::Threads;

/// Hot centres with their numbers: the index of each in the order of points. Contracts see the list of the centres.
#[derive(Debug, Drop)]
pub struct Numbers<'h> {
    hot: &'h HotSet,
    /// The numbers by rows upward, in a row from right to left.
    rows: Vec<u32>,
    /// The index of each number in `rows`.
    places: Vec<u32>,
    /// Where searches of centres begin.
    buckets: Buckets,
}

impl<'h> Model for Numbers<'h> {
    ghost use Rattle.std.specs.Prelude.{List};
    ghost use Rattle.lay_point.specs.declared.point.Point.{Point};
    ghost use Rattle.snap_slabs.specs.Runs.{AreByRows};

    ghost Value = { List Point };

    ghost view = { λ n. n.hot.now };

    ghost invariant = { λ n. AreByRows n.hot.now n.rows.items n.places.items };
}

impl<'h> Numbers<'h> {
    /// Returns the numbers of the hot centres. They are sorted in as many threads as there are processors.
    ///
    /// # Errors
    ///
    /// `NoMemory`, if an allocation fails, and where there are 2^32 centres or more.
    ///
    /// # Cost
    ///
    /// A sort of the centres by rows.
    pub fn new(
        rt: &(impl Threads + Sync),
        alloc: Global,
        hot: &'h HotSet,
    ) -> Result<Numbers<'h>, NoMemory>
        ensures { IfOk result (λ numbers. numbers ≡ hot.now) }
    {
        let centres = hot.centres();
        if is_many(centres.len()) {
            return Err(NoMemory);
        }
        let rows = rows_of(rt, alloc, centres)?;
        if is_many(rows.len()) {
            return Err(NoMemory);
        }
        let places = places_of(alloc, rows.as_slice(), centres.len())?;
        let buckets = Buckets::of(alloc, centres)?;
        Ok(Numbers {
            hot,
            rows,
            places,
            buckets,
        })
    }

    /// Returns the hot centres, in the order of points.
    pub fn centres(&self) -> &[Point]
        ensures value { result.now ≡ self.now }
        ensures rising { IsRising IsBefore self.now }
        ensures few { length self.now < 2 ^ 32 }
    {
        self.hot.centres()
    }

    /// Returns the number of a hot centre.
    ///
    /// # Cost
    ///
    /// A few tests where the centres lie evenly; at most twice the logarithm of their number.
    pub fn number(&self, centre: Point) -> u32
        requires { Contains self.now centre }
        ensures { slice_get self.now result ≡ Some centre }
    {
        let centres = self.hot.centres();
        let found = partition_from(
            centres.len(),
            self.buckets.near(centre),
            |i| is_before(centres[i], centre),
        );
        found as u32
    }

    /// Returns the number of a hot centre, which is looked for at these numbers before others.
    ///
    /// # Cost
    ///
    /// Two looks, if it is there; else that of [`Numbers::number`].
    pub fn number_among(&self, centre: Point, ends: (u32, u32)) -> u32
        requires { Contains self.now centre }
        ensures { slice_get self.now result ≡ Some centre }
    {
        if self.is_at(centre, ends.0) {
            return ends.0;
        }
        if self.is_at(centre, ends.1) {
            return ends.1;
        }
        self.number(centre)
    }

    /// Returns whether the centre has this number.
    fn is_at(&self, centre: Point, number: u32) -> bool
        ensures { IsTrue result → slice_get self.now number ≡ Some centre }
    {
        match self.hot.centres().get(number as usize) {
            Some(found) => *found == centre,
            None => false,
        }
    }

    /// Returns the hot centres by rows upward, in a row from right to left, and the index there of each, by its number.
    ///
    /// # Errors
    ///
    /// `AllocError`, if an allocation fails.
    ///
    /// # Cost
    ///
    /// A pass over the centres.
    pub fn into_rows(self, alloc: Global) -> Result<(Vec<Point>, Vec<u32>), AllocError>
        ensures rising { IfOk result (λ r. IsRising IsBefore self.entry) }
        ensures ranked { IfOk result (λ r. AreRanked self.entry r.0.items r.1.items) }
    {
        let points = centres_of(alloc, self.hot.centres(), self.rows.as_slice())?;
        Ok((points, self.places))
    }

    /// Returns the numbers of the chain of a level side, forth or back.
    pub fn row(&self, from: u32, to: u32) -> &[u32]
        requires from { from < length self.now }
        requires to { to < length self.now }
        ensures rising { IsRising IsBefore self.now }
        ensures inside { (k : ℕ) → Contains result.now k → k < length self.now }
        ensures run { (s : Segment) → IsSide self.now s from to → s.a.y ≡ s.b.y → IsChainRun self.now s result.now }
    {
        let a = self.places[from as usize];
        let b = self.places[to as usize];
        let (first, last) = ends(a, b);
        &self.rows[first as usize..last as usize + 1]
    }

    /// Returns the first and the last number of the chain of an upright side. All between them are in it.
    pub fn column(&self, from: u32, to: u32) -> (u32, u32)
        requires from { from < length self.now }
        requires to { to < length self.now }
        ensures rising { IsRising IsBefore self.now }
        ensures ordered { result.0 ≤ result.1 }
        ensures inside { result.1 < length self.now }
        ensures run { (s : Segment) → IsSide self.now s from to → s.a.x ≡ s.b.x
            → IsChainRun self.now s (range_with_len result.0 (result.1 + 1 - result.0)) }
    {
        // A field is named, which brings the type's invariant.
        let _ = &self.rows;
        ends(from, to)
    }
}

/// Returns whether numbers of 32 bits are too few for so many.
fn is_many(count: usize) -> bool
    ensures { IsTrue result ↔ (2 ^ 32 ≤ count) }
{
    count >= 4_294_967_296
}

/// Returns the lesser number and the greater.
fn ends(a: u32, b: u32) -> (u32, u32)
    ensures { AreEnds a b result.0 result.1 }
{
    if a <= b {
        return (a, b);
    }
    (b, a)
}
