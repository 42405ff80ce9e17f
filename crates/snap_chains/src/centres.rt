//! Hot centres, by number and by search.
ghost use Rattle.std.specs.Prelude.{◌≡◌, ◌<◌, ℕ, Contains, IfOk, OnOk, length};
ghost use Rattle.lay_point.specs.Points.{IsBefore};
ghost use Rattle.lay_point.specs.Rising.{IsRising};
ghost use Rattle.snap_edge_laws.specs.Chains.{IsChain};
ghost use Rattle.snap_slabs.specs.Runs.{AreRanked, centres_at};

use crate::chains::put_chain;
use lay_point::{NoMemory, Point};
use snap_pixels::{HotSet, Segment};
use snap_slabs::{Finder, Numbers};
use std::alloc::{AllocError, Global};
use std::marker::Model;
use std::thread::{self, Threads};

/// Fewer segments than this aren't worth a thread.
const LEAST: usize = 4096;

/// The hot centres of some segments: their numbers serve the segments along an axis, and a finder the slanted ones.
/// Contracts see the list of the centres.
#[derive(Debug, Drop)]
pub(crate) struct Centres<'h> {
    pub numbers: Numbers<'h>,
    pub finder: Finder<'h>,
}

impl<'h> Model for Centres<'h> {
    ghost use Rattle.std.specs.Prelude.{◌≡◌, List};
    ghost use Rattle.lay_point.specs.declared.point.Point.{Point};

    ghost Value = { List Point };

    ghost view = { λ c. c.numbers };

    ghost invariant = { λ c. c.finder ≡ c.numbers };
}

impl<'h> Centres<'h> {
    /// Returns the hot centres of the segments. Slabs are made only where one of these is slanted, and in a thread of
    /// their own where there are many segments.
    ///
    /// # Errors
    ///
    /// `NoMemory`, if an allocation fails, and where there are 2^32 centres or more.
    pub fn of(
        rt: &(impl Threads + Sync),
        alloc: Global,
        segments: &[Segment],
        found: &'h HotSet,
    ) -> Result<Centres<'h>, NoMemory>
        ensures { IfOk result (λ centres. centres ≡ found.now) }
    {
        if segments.len() < LEAST {
            let numbers = Numbers::new(rt, alloc, found)?;
            let finder = finder_of(alloc, segments, found)?;
            return Ok(Centres { numbers, finder });
        }
        let finder = || -> Result<Finder<'_>, AllocError>
            ensures { IfOk result (λ finder. finder ≡ found.entry.now) }
        { finder_of(alloc, segments, found) };
        let numbers = || -> Result<Numbers<'_>, NoMemory>
            ensures { IfOk result (λ numbers. numbers ≡ found.entry.now) }
        { Numbers::new(rt, alloc, found) };
        let (finder, numbers) = thread::join(rt, finder, numbers);
        Ok(Centres {
            numbers: numbers?,
            finder: finder?,
        })
    }

    /// Returns the centres by rows upward, in a row from right to left, and the index there of each, by its number.
    ///
    /// # Errors
    ///
    /// `AllocError`, if an allocation fails.
    pub fn into_rows(self, alloc: Global) -> Result<(Vec<Point>, Vec<u32>), AllocError>
        ensures rising { IfOk result (λ r. IsRising IsBefore self.entry) }
        ensures ranked { IfOk result (λ r. AreRanked self.entry r.0.items r.1.items) }
    {
        self.numbers.into_rows(alloc)
    }

    /// Puts the numbers of the chain of a segment, in the order in which it goes, in place of those of the chain before.
    /// The searches begin at `from` and `to`, the numbers of its ends; any will do.
    ///
    /// # Errors
    ///
    /// `AllocError`, if an allocation fails.
    ///
    /// # Cost
    ///
    /// That of the chain, and for each of its centres that of its number.
    pub fn put_chain(
        &self,
        room: &mut ChainRoom,
        segment: &Segment,
        from: u32,
        to: u32,
    ) -> Result<(), AllocError>
        ensures inside { OnOk result ((k : ℕ) → Contains room.new.numbers.items k → k < length self.now) }
        ensures chain { OnOk result (IsChain (Contains self.now) segment.now (centres_at self.now room.new.numbers.items)) }
    {
        let near = (from.min(to) as usize, from.max(to) as usize);
        put_chain(&mut room.points, segment, &self.finder, near)?;
        put_numbers(
            &mut room.numbers,
            &self.numbers,
            room.points.as_slice(),
            (from, to),
        )?;
        Ok(())
    }
}

/// Room for the chain of one slanted side after another, so that none needs an allocation of its own.
#[derive(Debug, Drop)]
pub(crate) struct ChainRoom {
    points: Vec<Point>,
    /// The numbers of the chain's centres.
    pub numbers: Vec<u32>,
}

impl ChainRoom {
    /// Returns room that grows as it is needed.
    pub fn new(alloc: Global) -> ChainRoom {
        ChainRoom {
            points: Vec::new(alloc),
            numbers: Vec::new(alloc),
        }
    }
}

/// Returns a finder in these centres. Slabs serve slanted segments alone.
fn finder_of<'h>(
    alloc: Global,
    segments: &[Segment],
    found: &'h HotSet,
) -> Result<Finder<'h>, AllocError>
    ensures { IfOk result (λ finder. finder ≡ found.now) }
{
    if segments.iter().any(is_slanted) {
        return Finder::with_slabs(alloc, found);
    }
    Ok(Finder::plain(alloc, found))
}

/// Returns whether the segment is neither level nor upright.
fn is_slanted(segment: &Segment) -> bool {
    segment.a().x != segment.b().x && segment.a().y != segment.b().y
}

/// Puts the numbers of these centres in place of those that are there. Two of them mostly have the numbers `ends`.
fn put_numbers(
    found: &mut Vec<u32>,
    numbers: &Numbers,
    points: &[Point],
    ends: (u32, u32),
) -> Result<(), AllocError>
    requires { (c : Point) → Contains points.now c → Contains numbers.now c }
    ensures centres { OnOk result (centres_at numbers.now found.new.items ≡ points.now) }
    ensures inside { OnOk result ((k : ℕ) → Contains found.new.items k → k < length numbers.now) }
{
    found.clear();
    for point in points {
        found.push(numbers.number_among(*point, ends))?;
    }
    Ok(())
}
