//! Ways between corners of two rings.

use crate::corner::{Corner, Side};
use crate::outline::Outline;
use lay_point::Point;
use std::alloc::{AllocError, Global};

/// How a way goes. Those that come first are tried first.
#[derive(Clone, Copy, Debug, PartialEq, Eq, PartialOrd, Ord)]
pub(crate) enum Kind {
    /// Straight, and within the outlines of both rings.
    Near,
    /// Straight.
    Far,
    /// Straight up or down to within one unit of a level side, and on to an end of that side.
    Bent,
}

/// A way from a corner of one ring to a corner of another.
#[derive(Clone, Copy, Debug, PartialEq, Eq, PartialOrd, Ord)]
pub(crate) struct Way {
    pub kind: Kind,
    /// How far it is along both axes.
    length: u64,
    pub from: Corner,
    pub to: Corner,
}

impl Way {
    /// Returns where the way is bent, if it is so.
    pub fn bend(self) -> Option<Point> {
        if self.kind != Kind::Bent {
            return None;
        }
        let side = self.to.at.y;
        let y = if self.from.at.y < side {
            side.saturating_sub(1)
        } else {
            side.saturating_add(1)
        };
        Some(Point {
            x: self.from.at.x,
            y,
        })
    }

    /// Returns where its first piece would reach the level side, or where it ends.
    pub fn first_end(self) -> Point {
        let x = match self.kind {
            Kind::Near | Kind::Far => self.to.at.x,
            Kind::Bent => self.from.at.x,
        };
        Point { x, y: self.to.at.y }
    }
}

/// The ways that were found between rings, and the rings' outlines.
#[derive(Drop)]
pub(crate) struct Found {
    pub ways: Vec<Way>,
    /// The outline of each ring; that of an outermost one round it once the ring's first corner was passed.
    pub outlines: Vec<Outline>,
    is_passed: Vec<bool>,
}

impl Found {
    /// Returns that nothing was found yet between rings of these outlines.
    pub fn new(alloc: Global, outlines: Vec<Outline>) -> Result<Found, AllocError> {
        let mut is_passed = Vec::new(alloc);
        is_passed.resize(outlines.len(), false)?;
        Ok(Found {
            ways: Vec::new(alloc),
            outlines,
            is_passed,
        })
    }

    /// Notes that a corner of the ring is passed, where this side is next below it.
    pub fn pass(&mut self, ring: usize, under: Option<Side>) {
        let is_first = match self.is_passed.get_mut(ring) {
            None => false,
            Some(passed) => !std::mem::replace(passed, true),
        };
        if is_first
            && let Some(round) = self.outline_round(under)
            && let Some(outline) = self.outlines.get_mut(ring)
        {
            *outline = round;
        }
    }

    /// Returns the outline of a ring that lies within that of this side, or within the same ring as that one.
    fn outline_round(&self, under: Option<Side>) -> Option<Outline> {
        let side = under?;
        let outline = *self.outlines.get(side.start.ring)?;
        if side.is_inside_above || outline.is_nested {
            Some(outline.nested())
        } else {
            None
        }
    }

    /// Adds the straight way, if it is one between two rings.
    pub fn add_straight(&mut self, from: Corner, to: Corner) -> Result<(), AllocError> {
        let (Some(outline), Some(other)) = (
            self.outlines.get(from.ring),
            self.outlines.get(to.ring),
        ) else {
            return Ok(());
        };
        let kind = if outline.meets(*other, from.at, to.at) {
            Kind::Near
        } else {
            Kind::Far
        };
        self.add(kind, from, to)
    }

    /// Adds the way that is bent near a level side which ends there, if it is one between two rings.
    pub fn add_bent(&mut self, from: Corner, to: Corner) -> Result<(), AllocError> {
        self.add(Kind::Bent, from, to)
    }

    fn add(&mut self, kind: Kind, from: Corner, to: Corner) -> Result<(), AllocError> {
        if from.ring == to.ring {
            return Ok(());
        }
        let length = distance(from.at, to.at);
        self.ways.push(Way {
            kind,
            length,
            from,
            to,
        })?;
        Ok(())
    }
}

/// Returns how far one place is from the other along both axes.
fn distance(from: Point, to: Point) -> u64 {
    u64::from(from.x.abs_diff(to.x)) + u64::from(from.y.abs_diff(to.y))
}
