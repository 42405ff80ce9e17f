//! The search of the hot centres that a segment meets.
ghost use Rattle.std.specs.Prelude.{◌≡◌, ◌↔◌, ◌⊎◌, ◌<◌, ◌≤◌, Contains, IfOk, IfSome, OnOk, length};
ghost use Rattle.lay_point.specs.declared.point.Point.{Point};
ghost use Rattle.snap_pixels.specs.Order.{transposed};
ghost use Rattle.snap_pixels.specs.Segments.{Meets};
ghost use Rattle.snap_slabs.specs.Slabs.{HoldPlaces, points_in};

use crate::candidates::add_met;
use crate::columns_of::places_near;
use crate::slab::Slab;
use crate::slabs::{add_met_in_each, slabs_of};
use lay_point::Point;
use snap_pixels::{HotSet, Segment};
use std::alloc::{AllocError, Global};
use std::marker::Model;

/// The fewest centres in a slab.
const LEAST_SIZE: usize = 8;

/// As many centres are asked in the time in which one slab is searched, about.
const SLAB_STEPS: usize = 16;

/// Hot centres, in which a segment finds those that it meets. Contracts see the list of the centres.
#[derive(Debug, Drop)]
pub struct Finder<'h> {
    hot: &'h HotSet,
    /// How many centres are in a slab.
    size: usize,
    slabs: Vec<Slab>,
}

impl<'h> Model for Finder<'h> {
    ghost use Rattle.std.specs.Prelude.{◌<◌, List};
    ghost use Rattle.lay_point.specs.declared.point.Point.{Point};
    ghost use Rattle.snap_slabs.specs.Slabs.{AreSlabs};

    ghost Value = { List Point };

    ghost view = { λ f. f.hot.now };

    ghost invariant = { λ f. (0 < f.size) × AreSlabs f.size f.hot.now f.slabs.items };
}

impl<'h> Finder<'h> {
    /// Returns a finder without slabs, for a few segments.
    pub fn plain(alloc: Global, hot: &'h HotSet) -> Finder<'h>
        ensures { result ≡ hot.now }
    {
        Finder {
            hot,
            size: 1,
            slabs: Vec::new(alloc),
        }
    }

    /// Returns a finder for many segments. Where centres lie evenly, a slab is four times as wide as one
    /// centre is from the next, so that a short segment goes through one slab mostly.
    ///
    /// # Errors
    ///
    /// `AllocError`, if an allocation fails.
    ///
    /// # Cost
    ///
    /// A sort of the centres in each slab.
    pub fn with_slabs(alloc: Global, hot: &'h HotSet) -> Result<Finder<'h>, AllocError>
        ensures { IfOk result (λ finder. finder ≡ hot.now) }
    {
        let centres = hot.centres();
        let size = (centres.len().isqrt() * 4).max(LEAST_SIZE);
        let slabs = slabs_of(alloc, centres, size)?;
        Ok(Finder { hot, size, slabs })
    }

    /// Adds the hot centres whose pixels the segment meets. Asked are those in its columns where they are few or
    /// there are no slabs, else those in its rows of the slabs that it goes through.
    ///
    /// `near` are indices of centres near the segment's ends, the lesser first, where the search begins; any will
    /// do.
    ///
    /// # Errors
    ///
    /// `AllocError`, if an allocation fails.
    ///
    /// # Cost
    ///
    /// Each centre is asked that is in the rows which the segment reaches in a slab, or in the segment's
    /// columns. The columns are found in a few steps where `near` are near, and in a search by halving elsewhere.
    pub fn add_met(
        &self,
        points: &mut Vec<Point>,
        segment: &Segment,
        near: (usize, usize),
    ) -> Result<(), AllocError>
        ensures { OnOk result ((c : Point) → Contains points.new.items c
            ↔ (Contains points.old.items c ⊎ (Contains self.now c × Meets segment.now.a segment.now.b c))) }
    {
        let (from, to) = places_near(segment, self.hot.centres(), near);
        if let Some(slabs) = self.slabs_between(from, to) {
            add_met_in_each(points, &segment.turned(), slabs)?;
            return Ok(());
        }
        add_met(points, segment, &self.hot.centres()[from..to])?;
        Ok(())
    }

    /// Returns the slabs of the centres from the index `from` on, before `to`, where it takes less time to
    /// search them than to ask all these centres.
    fn slabs_between(&self, from: usize, to: usize) -> Option<&[Slab]>
        requires ordered { from ≤ to }
        requires inside { to ≤ length self.now }
        ensures inside { IfSome result (λ slabs. (c : Point) → Contains (points_in slabs.now) c
            → Contains self.now (transposed c)) }
        ensures all { IfSome result (λ slabs. HoldPlaces self.now from to slabs.now) }
    {
        let first = from / self.size;
        let last = to / self.size;
        if last >= self.slabs.len() || (to - from) / SLAB_STEPS <= last - first {
            return None;
        }
        Some(&self.slabs[first..last + 1])
    }
}
