//! The rings of shapes, and their sides.
ghost use Rattle.std.specs.Prelude.{All, IfOk};
ghost use Rattle.lay_point.specs.Rings.{IsRing};
ghost use Rattle.snap_chains.specs.OwnedRings.{AreSides};

use crate::owner::Owner;
use crate::rings::put_sides;
use lay_point::{NoMemory, Point};
use snap_pixels::Segment;
use std::alloc::Global;
use std::marker::Model;

/// A ring of a shape. Contracts see the pair of its owner and the list of its points.
#[derive(Debug, Drop)]
pub struct OwnedRing<'s> {
    /// The shape.
    pub owner: Owner,
    /// The points of the ring, in order.
    pub points: &'s [Point],
}

impl<'s> Model for OwnedRing<'s> {
    ghost use Rattle.std.specs.Prelude.{List};
    ghost use Rattle.lay_point.specs.declared.point.Point.{Point};
    ghost use Rattle.snap_chains.specs.declared.owner.Owner.{Owner};

    ghost Value = { Owner × List Point };

    ghost view = { λ r. (r.owner, r.points.now) };
}

/// Returns the sides of all rings, ring by ring.
pub(crate) fn all_sides(alloc: Global, rings: &[OwnedRing]) -> Result<Vec<Segment>, NoMemory>
    requires { All (λ r. IsRing r.1) rings.now }
    ensures { IfOk result (λ segments. AreSides rings.now segments.items) }
{
    let mut segments = Vec::with_capacity(alloc, count_points(rings))?;
    let mut sides = Vec::new(alloc);
    for ring in rings {
        put_sides(&mut sides, ring.points)?;
        segments.extend_from_slice(sides.as_slice())?;
    }
    Ok(segments)
}

/// Returns how many points the rings have.
fn count_points(rings: &[OwnedRing]) -> usize {
    let mut count: usize = 0;
    for ring in rings {
        count = count.saturating_add(ring.points.len());
    }
    count
}
