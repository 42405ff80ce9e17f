//! Walks that are joined along ways.

use crate::corner::Corner;
use crate::linking::numbers;
use crate::outline::Outline;
use crate::walk::{Stop, join, splice};
use crate::ways::{Found, Kind, Way};
use lay_point::Point;
use std::alloc::{AllocError, Global};

/// Along how many boxes a way may go that isn't within those of its two rings.
const MOST: usize = 64;

/// Of how many ways that may leave the boxes of their two rings it is asked whether they stay within others: each asks
/// all boxes.
const MOST_ASKED: usize = 4_096;

/// Walks round rings, and which of these are joined.
#[derive(Drop)]
pub(crate) struct Walks {
    pub walk: Vec<Stop>,
    parents: Vec<usize>,
}

impl Walks {
    /// Returns the walks round so many rings.
    pub fn new(alloc: Global, walk: Vec<Stop>, rings: usize) -> Result<Walks, AllocError> {
        let parents = numbers(alloc, rings)?;
        Ok(Walks { walk, parents })
    }

    /// Joins the walks along the first of the ways that stay within the outlines.
    pub fn join_within(&mut self, alloc: Global, found: &Found) -> Result<(), AllocError> {
        let outlines = found.outlines.as_slice();
        let mut asked = 0;
        for way in found.ways.as_slice() {
            if !self.are_apart(*way) || asked >= MOST_ASKED {
                continue;
            }
            if way.kind != Kind::Near {
                asked += 1;
            }
            if stays_within(alloc, outlines, *way)? {
                self.go(*way)?;
            }
        }
        Ok(())
    }

    /// Joins the walks that are left along the first of the straight ways.
    pub fn join_rest(&mut self, found: &Found) -> Result<(), AllocError> {
        for way in found.ways.as_slice() {
            if way.kind != Kind::Bent && self.are_apart(*way) {
                self.go(*way)?;
            }
        }
        Ok(())
    }

    /// Returns whether the way is between two walks.
    fn are_apart(&mut self, way: Way) -> bool {
        let parents = self.parents.as_mut_slice();
        root(parents, way.from.ring) != root(parents, way.to.ring)
    }

    /// Joins two walks along the way.
    fn go(&mut self, way: Way) -> Result<(), AllocError> {
        unite(self.parents.as_mut_slice(), way.from.ring, way.to.ring);
        if way.from.at == way.to.at {
            splice(self.walk.as_mut_slice(), way.from.stop, way.to.stop);
            return Ok(());
        }
        let Some(bend) = way.bend() else {
            return join(&mut self.walk, way.from.stop, way.to.stop);
        };
        let turn = self.walk.len();
        self.walk.push(Stop {
            at: bend,
            next: turn,
        })?;
        join(&mut self.walk, way.from.stop, turn)?;
        join(&mut self.walk, turn, way.to.stop)
    }
}

/// Returns whether the way, up to the side that it is bent at, is known to stay within the outlines.
fn stays_within(alloc: Global, outlines: &[Outline], way: Way) -> Result<bool, AllocError> {
    if way.kind == Kind::Near {
        return Ok(true);
    }
    let (Some(first), Some(last)) = (outlines.get(way.from.ring), outlines.get(way.to.ring)) else {
        return Ok(false);
    };
    let mut met = Vec::new(alloc);
    met.push(*first)?;
    met.push(*last)?;
    let (from, to) = (way.from.at, way.first_end());
    for outline in outlines {
        if outline.is_met(from, to) && met.len() < MOST {
            met.push(*outline)?;
        }
    }
    are_linked(alloc, met.as_slice(), from, to)
}

/// Returns whether each place between these two that lies between the first box and the second is in a box.
fn are_linked(alloc: Global, met: &[Outline], from: Point, to: Point) -> Result<bool, AllocError> {
    let mut parents = numbers(alloc, met.len())?;
    for (number, outline) in met.iter().enumerate() {
        unite_met(parents.as_mut_slice(), met, number, *outline, from, to);
    }
    Ok(root(parents.as_mut_slice(), 0) == root(parents.as_mut_slice(), 1))
}

/// Unites the box of this number with those that it has a place in common with between the two places.
fn unite_met(
    parents: &mut [usize],
    met: &[Outline],
    number: usize,
    outline: Outline,
    from: Point,
    to: Point,
) {
    for (other, box_of_other) in met.iter().enumerate() {
        if outline.meets(*box_of_other, from, to) {
            unite(parents, number, other);
        }
    }
}

/// Returns the number that stands for all that are united with this one. Each on the way there gets the one
/// after the next for its next.
fn root(parents: &mut [usize], number: usize) -> usize {
    let mut at = number;
    for _ in 0..parents.len() {
        let next = next_of(parents, at);
        if next == at {
            return at;
        }
        let after = next_of(parents, next);
        set_next(parents, at, after);
        at = after;
    }
    at
}

/// Unites two numbers and those that are united with them.
fn unite(parents: &mut [usize], number: usize, other: usize) {
    let first = root(parents, number);
    let second = root(parents, other);
    set_next(parents, first.max(second), first.min(second));
}

fn next_of(parents: &[usize], number: usize) -> usize {
    parents.get(number).copied().unwrap_or(number)
}

fn set_next(parents: &mut [usize], number: usize, next: usize) {
    if let Some(parent) = parents.get_mut(number) {
        *parent = next;
    }
}
