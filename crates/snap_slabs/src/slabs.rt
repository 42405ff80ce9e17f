//! Slabs: hot centres in parts that are neighbours in the order of points, each in the order of its rows.
ghost use Rattle.std.specs.Prelude.{◌↔◌, ◌⊎◌, ◌<◌, Contains, IfOk, OnOk};
ghost use Rattle.lay_point.specs.declared.point.Point.{Point};
ghost use Rattle.snap_pixels.specs.Order.{transposed};
ghost use Rattle.snap_pixels.specs.Segments.{Meets};
ghost use Rattle.snap_slabs.specs.Slabs.{AreSlabs, points_in};

use crate::candidates::add_met_turned;
use crate::slab::Slab;
use lay_point::Point;
use snap_pixels::Segment;
use std::alloc::{AllocError, Global};

/// Returns the slabs of the centres: so many in each, from the first on, with x and y exchanged. The last
/// slab has the rest, which may be none.
pub(crate) fn slabs_of(
    alloc: Global,
    centres: &[Point],
    size: usize,
) -> Result<Vec<Slab>, AllocError>
    requires { 0 < size }
    ensures { IfOk result (λ slabs. AreSlabs size centres.now slabs.items) }
{
    let mut slabs = Vec::new(alloc);
    let mut rest = centres;
    for _ in 0..centres.len() / size + 1 {
        let (part, later) = rest.split_at(size.min(rest.len()));
        let slab = Slab::of(alloc, part)?;
        slabs.push(slab)?;
        rest = later;
    }
    Ok(slabs)
}

/// Adds the points of the slabs whose pixels the segment meets, with x and y exchanged.
pub(crate) fn add_met_in_each(
    points: &mut Vec<Point>,
    segment: &Segment,
    slabs: &[Slab],
) -> Result<(), AllocError>
    ensures { OnOk result ((c : Point) → Contains points.new.items c ↔ (Contains points.old.items c
        ⊎ (Contains (points_in slabs.now) (transposed c) × Meets segment.now.a segment.now.b (transposed c)))) }
{
    for slab in slabs {
        add_met_turned(points, segment, slab.near(segment))?;
    }
    Ok(())
}
