//! Centres as they are found, kept as numbers that are sorted in place of points, which takes longer.
ghost use Rattle.std.specs.Prelude.{
  ◌≡◌,
  ◌↔◌,
  ◌⊎◌,
  ◌++◌,
  [],
  Contains,
  IfOk,
  OnOk,
  length,
  map,
  ℕ,
};
ghost use Rattle.lay_point.specs.declared.point.Point.{Point};
ghost use Rattle.snap_pixels.specs.Gathered.{centre_of};
ghost use Rattle.snap_pixels.specs.Order.{ArePointsRising};

use crate::coordinates::{coordinate_from, from_least};
use crate::sorting::{sort_in_threads, sort_once};
use lay_point::Point;
use std::alloc::{AllocError, Global};
use std::marker::Model;
use std::thread::Threads;

/// Up to this many keys are kept as they come.
const MANY: usize = 65_536;

/// Centres, in any order and perhaps more than once. Contracts see the list of them.
#[derive(Debug, Drop)]
pub(crate) struct Gathered {
    keys: Vec<u64>,
    /// Repeats are removed where there are more keys.
    limit: usize,
}

impl Model for Gathered {
    ghost use Rattle.std.specs.Prelude.{List, map};
    ghost use Rattle.lay_point.specs.declared.point.Point.{Point};
    ghost use Rattle.snap_pixels.specs.Gathered.{centre_of};

    ghost Value = { List Point };

    ghost view = { λ g. map centre_of g.keys.items };
}

impl Gathered {
    /// Returns no centres.
    pub fn new(alloc: Global) -> Gathered
        ensures { result ≡ [] }
    {
        Gathered {
            keys: Vec::new(alloc),
            limit: MANY,
        }
    }

    /// Returns no centres, and room for so many.
    ///
    /// # Errors
    ///
    /// `AllocError`, if an allocation fails.
    pub fn with_room(alloc: Global, room: usize) -> Result<Gathered, AllocError>
        ensures { IfOk result (λ gathered. gathered ≡ []) }
    {
        Ok(Gathered {
            keys: Vec::with_capacity(alloc, room)?,
            limit: MANY,
        })
    }

    /// Returns how many centres there are, with repeats.
    pub fn len(&self) -> usize
        ensures { result ≡ length self.now }
    {
        self.keys.len()
    }

    /// Adds a centre. One that is the last already isn't added again, as most ends of a ring's sides are.
    ///
    /// # Errors
    ///
    /// `AllocError`, if an allocation fails.
    pub fn push(&mut self, centre: Point) -> Result<(), AllocError>
        ensures { OnOk result ((c : Point) → Contains self.new c ↔ (Contains self.old c ⊎ (centre ≡ c))) }
    {
        push_key(&mut self.keys, packed(centre))?;
        Ok(())
    }

    /// Adds the centres of another list.
    ///
    /// # Errors
    ///
    /// `AllocError`, if an allocation fails.
    pub fn append(&mut self, others: &Gathered) -> Result<(), AllocError>
        ensures { OnOk result (self.new ≡ self.old ++ others.now) }
    {
        self.keys.extend_from_slice(others.keys.as_slice())
    }

    /// Removes repeats where there are many more centres than were left the last time. So their number stays
    /// within twice that of the distinct ones.
    ///
    /// # Cost
    ///
    /// A sort, where repeats are removed.
    pub fn thin(&mut self)
        ensures { (c : Point) → Contains self.new c ↔ Contains self.old c }
    {
        if self.keys.len() > self.limit {
            sort_once(&mut self.keys);
            self.limit = self.keys.len().saturating_mul(2).max(self.limit);
        }
    }

    /// Sorts the keys in as many threads as there are processors. What sorts them again takes one pass.
    pub fn sort(&mut self, rt: &(impl Threads + Sync))
        ensures { (c : Point) → Contains self.new c ↔ Contains self.old c }
    {
        sort_in_threads(rt, self.keys.as_mut_slice());
    }

    /// Returns the centres, each once, in the order of points.
    ///
    /// # Errors
    ///
    /// `AllocError`, if an allocation fails.
    ///
    /// # Cost
    ///
    /// A sort of the centres.
    pub fn into_rising(mut self, alloc: Global) -> Result<Vec<Point>, AllocError>
        ensures rising { IfOk result (λ centres. ArePointsRising centres.items) }
        ensures members { IfOk result (λ centres. (c : Point) → Contains centres.items c ↔ Contains self c) }
    {
        sort_once(&mut self.keys);
        let centres = unpacked_all(alloc, self.keys.as_slice())?;
        Ok(centres)
    }
}

/// Adds a key, if it isn't the last one.
fn push_key(keys: &mut Vec<u64>, key: u64) -> Result<(), AllocError>
    ensures { OnOk result ((k : ℕ) → Contains keys.new.items k ↔ (Contains keys.old.items k ⊎ (key ≡ k))) }
{
    if let Some(last) = keys.last() {
        if *last == key {
            return Ok(());
        }
    }
    keys.push(key)?;
    Ok(())
}

/// Returns the centres of the keys.
fn unpacked_all(alloc: Global, keys: &[u64]) -> Result<Vec<Point>, AllocError>
    ensures { IfOk result (λ centres. centres.items ≡ map centre_of keys.now) }
{
    let mut centres = Vec::with_capacity(alloc, keys.len())?;
    for key in keys {
        centres.push(unpacked(*key))?;
    }
    Ok(centres)
}

/// Returns the key of the centre.
fn packed(centre: Point) -> u64
    ensures { centre_of result ≡ centre }
{
    from_least(centre.x) * 4_294_967_296 + from_least(centre.y)
}

/// Returns the centre of the key.
fn unpacked(key: u64) -> Point
    ensures { result ≡ centre_of key }
{
    Point {
        x: coordinate_from(key / 4_294_967_296),
        y: coordinate_from(key % 4_294_967_296),
    }
}
