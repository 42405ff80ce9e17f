//! Corners that can be seen from the right in the gaps between sides.

use crate::corner::Corner;
use crate::ways::Found;
use lay_point::Point;
use snap_pixels::area;
use std::alloc::{AllocError, Global};

/// A corner that can be seen from the right in a gap, and its neighbours there. Those of a gap go from the
/// start of the side below it to the start of that above, and no line between two neighbours has another
/// corner of the gap on its right.
#[derive(Clone, Copy, Debug)]
struct Front {
    corner: Corner,
    below: Option<usize>,
    above: Option<usize>,
}

/// The fronts of all gaps, by their numbers.
#[derive(Drop)]
pub(crate) struct Fronts {
    fronts: Vec<Front>,
}

impl Fronts {
    /// Returns no fronts.
    pub fn new(alloc: Global) -> Fronts {
        Fronts {
            fronts: Vec::new(alloc),
        }
    }

    /// Adds the ways from the corner to the front `start`, if there is one, and to those above or below that
    /// front that can be seen from the corner. Returns the last of these.
    pub fn look(
        &self,
        found: &mut Found,
        corner: Corner,
        start: Option<usize>,
        is_upward: bool,
    ) -> Result<Option<usize>, AllocError> {
        let Some(mut at) = start else {
            return Ok(None);
        };
        for _ in 0..self.fronts.len() {
            self.add_way(found, corner, at)?;
            match self.seen_after(at, corner.at, is_upward) {
                None => return Ok(Some(at)),
                Some(next) => at = next,
            }
        }
        Ok(Some(at))
    }

    /// Adds the way from the front of this number to the corner.
    fn add_way(&self, found: &mut Found, corner: Corner, number: usize) -> Result<(), AllocError> {
        if let Some(front) = self.fronts.get(number) {
            found.add_straight(front.corner, corner)?;
        }
        Ok(())
    }

    /// Returns the front next above or below the one of this number, if it can be seen from the place.
    fn seen_after(&self, number: usize, from: Point, is_upward: bool) -> Option<usize> {
        let front = self.fronts.get(number)?;
        let next = if is_upward { front.above } else { front.below }?;
        let other = self.fronts.get(next)?.corner.at;
        let turn = area(front.corner.at, other, front.corner.at, from);
        let is_seen = if is_upward { turn < 0 } else { turn > 0 };
        if is_seen { Some(next) } else { None }
    }

    /// Adds a front between two, and returns its number.
    pub fn add(
        &mut self,
        corner: Corner,
        below: Option<usize>,
        above: Option<usize>,
    ) -> Result<usize, AllocError> {
        let number = self.fronts.len();
        self.fronts.push(Front {
            corner,
            below,
            above,
        })?;
        self.set_above(below, Some(number));
        self.set_below(above, Some(number));
        Ok(number)
    }

    /// Divides the front of this number, at which a side begins: that keeps what is below, and the new one,
    /// whose number is returned, gets what is above.
    pub fn divide(&mut self, corner: Corner, number: usize) -> Result<usize, AllocError> {
        let above = match self.fronts.get(number) {
            None => None,
            Some(front) => front.above,
        };
        self.set_above(Some(number), None);
        self.add(corner, None, above)
    }

    fn set_above(&mut self, number: Option<usize>, above: Option<usize>) {
        if let Some(number) = number
            && let Some(front) = self.fronts.get_mut(number)
        {
            front.above = above;
        }
    }

    fn set_below(&mut self, number: Option<usize>, below: Option<usize>) {
        if let Some(number) = number
            && let Some(front) = self.fronts.get_mut(number)
        {
            front.below = below;
        }
    }
}
