//! A sweep over the corners of rings, which finds ways between them that cross no side.

use crate::corner::{Corner, Side};
use crate::fronts::Fronts;
use crate::outline::Outline;
use crate::ways::Found;
use lay_point::Point;
use std::alloc::{AllocError, Global};

/// A side that was begun, and the gap above it.
#[derive(Clone, Copy, Debug)]
struct Begun {
    side: Side,
    /// The front at its start in the gap below it.
    below: usize,
    /// The front at its start in the gap above it.
    above: usize,
    /// The last front in the gap above it.
    last: Option<usize>,
}

/// The sides and the gaps between them where the sweep stands, which goes over the corners in their order. To
/// begin a side or to end one moves the numbers of those above it.
#[derive(Drop)]
pub(crate) struct Gaps {
    /// The sides that were begun, first one of no ring that is below all.
    begun: Vec<Begun>,
    /// The numbers of those that go on, from the lowest up.
    crossed: Vec<usize>,
    fronts: Fronts,
}

impl Gaps {
    /// Returns the gap below the first corner of so many rings.
    pub fn new(alloc: Global, rings: usize) -> Result<Gaps, AllocError> {
        let mut begun = Vec::new(alloc);
        begun.push(Begun {
            side: Side::below_all(rings),
            below: 0,
            above: 0,
            last: None,
        })?;
        let mut crossed = Vec::new(alloc);
        crossed.push(0)?;
        let fronts = Fronts::new(alloc);
        Ok(Gaps {
            begun,
            crossed,
            fronts,
        })
    }

    /// Returns the side that is next below the place, if any side of a ring is.
    pub fn under(&self, at: Point) -> Option<Side> {
        let number = self.number_under(self.place_of(at))?;
        Some(self.begun.get(number)?.side)
    }

    /// Goes on to the corner, and adds the ways from it that are straight or end at a level side next above or
    /// below it. Those before and next are the corners between which it comes, at other places.
    pub fn pass(
        &mut self,
        found: &mut Found,
        corner: Corner,
        before: Option<Corner>,
        next: Option<Corner>,
    ) -> Result<(), AllocError> {
        let place = self.place_of(corner.at);
        let Some(under) = self.number_under(place) else {
            return Ok(());
        };
        let last = self.last_above(under);
        let lower = match self.ending(place, corner.at) {
            None => last,
            Some(side) => Some(side.below),
        };
        let lower = self.fronts.look(found, corner, lower, false)?;
        let upper = match self.end_all(found, corner, place)? {
            None => self.fronts.look(found, corner, last, true)?,
            Some(front) => Some(front),
        };
        self.look_at(found, corner, Some(under), before)?;
        self.look_at(found, corner, self.crossed.get(place).copied(), next)?;
        let front = self.fronts.add(corner, lower, upper)?;
        self.set_last(under, front);
        Ok(())
    }

    /// Ends the sides that end at the corner, the lowest of which has this place. Returns the last front that
    /// is seen above them, or `None` where no side ends.
    fn end_all(
        &mut self,
        found: &mut Found,
        corner: Corner,
        place: usize,
    ) -> Result<Option<usize>, AllocError> {
        let mut upper = None;
        for _ in 0..self.crossed.len() {
            let Some(side) = self.ending(place, corner.at) else {
                return Ok(upper);
            };
            upper = self.fronts.look(found, corner, Some(side.above), true)?;
            if place < self.crossed.len() {
                self.crossed.remove(place);
            }
        }
        Ok(upper)
    }

    /// Adds the way from the corner to the side of this number, if that is level, next above or below it, and
    /// not hidden by the neighbour.
    fn look_at(
        &self,
        found: &mut Found,
        corner: Corner,
        number: Option<usize>,
        neighbour: Option<Corner>,
    ) -> Result<(), AllocError> {
        if let Some(number) = number
            && let Some(begun) = self.begun.get(number)
            && begun.side.is_level_round(corner.at)
            && !begun.side.is_hidden(corner.at, neighbour)
        {
            found.add_bent(corner, begun.side.nearer_end(corner.at))?;
        }
        Ok(())
    }

    /// Begins a side at the corner that was passed last.
    pub fn begin(&mut self, side: Side) -> Result<(), AllocError> {
        let place = self.place_of_side(side);
        let Some(under) = self.number_under(place) else {
            return Ok(());
        };
        let Some(below) = self.last_above(under) else {
            return Ok(());
        };
        let above = self.fronts.divide(side.start, below)?;
        let next = self.crossed.get(place).copied();
        self.raise(next, below, above);
        if place <= self.crossed.len() {
            self.crossed.insert(place, self.begun.len())?;
        }
        self.begun.push(Begun {
            side,
            below,
            above,
            last: Some(above),
        })?;
        Ok(())
    }

    /// Puts the new front in the place of the old one where the side of this number starts, if it is that.
    fn raise(&mut self, number: Option<usize>, old: usize, new: usize) {
        if let Some(number) = number
            && let Some(begun) = self.begun.get_mut(number)
            && begun.below == old
        {
            begun.below = new;
        }
    }

    /// Returns how many of the sides that go on are below the place.
    fn place_of(&self, at: Point) -> usize {
        let begun = self.begun.as_slice();
        self.crossed
            .partition_point(|number: &usize| is_below(begun, *number, at))
    }

    /// Returns how many of the sides that go on are below the side.
    fn place_of_side(&self, side: Side) -> usize {
        let begun = self.begun.as_slice();
        self.crossed
            .partition_point(|number: &usize| is_below_side(begun, *number, side))
    }

    /// Returns the number of the side next below the one that has this place.
    fn number_under(&self, place: usize) -> Option<usize> {
        self.crossed.get(place.checked_sub(1)?).copied()
    }

    /// Returns the side that has this place, if it ends there.
    fn ending(&self, place: usize, at: Point) -> Option<Begun> {
        let begun = self.begun.get(*self.crossed.get(place)?)?;
        if begun.side.end.at == at {
            Some(*begun)
        } else {
            None
        }
    }

    /// Returns the last front of the gap above the side of this number.
    fn last_above(&self, number: usize) -> Option<usize> {
        self.begun.get(number)?.last
    }

    /// Makes this the last front of the gap above the side of this number.
    fn set_last(&mut self, number: usize, front: usize) {
        if let Some(begun) = self.begun.get_mut(number) {
            begun.last = Some(front);
        }
    }
}

/// Returns whether the side of this number is below the place.
fn is_below(begun: &[Begun], number: usize, at: Point) -> bool {
    match begun.get(number) {
        None => false,
        Some(begun) => begun.side.is_below(at),
    }
}

/// Returns whether the side of this number is below the other side.
fn is_below_side(begun: &[Begun], number: usize, other: Side) -> bool {
    match begun.get(number) {
        None => false,
        Some(begun) => begun.side.is_below_side(other),
    }
}
