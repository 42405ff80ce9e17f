//! The question which of some centres a segment meets.
ghost use Rattle.std.specs.Prelude.{◌↔◌, ◌⊎◌, Contains, OnOk};
ghost use Rattle.lay_point.specs.declared.point.Point.{Point};
ghost use Rattle.snap_pixels.specs.Order.{transposed};
ghost use Rattle.snap_pixels.specs.Segments.{Meets};

use lay_point::Point;
use snap_pixels::{Segment, meets, turned};
use std::alloc::AllocError;

/// Adds those of the centres whose pixels the segment meets.
pub(crate) fn add_met(
    points: &mut Vec<Point>,
    segment: &Segment,
    centres: &[Point],
) -> Result<(), AllocError>
    ensures { OnOk result ((c : Point) → Contains points.new.items c
        ↔ (Contains points.old.items c ⊎ (Contains centres.now c × Meets segment.now.a segment.now.b c))) }
{
    for centre in centres {
        if meets(segment, *centre) {
            points.push(*centre)?;
        }
    }
    Ok(())
}

/// Adds those of the centres whose pixels the segment meets, with x and y exchanged.
pub(crate) fn add_met_turned(
    points: &mut Vec<Point>,
    segment: &Segment,
    centres: &[Point],
) -> Result<(), AllocError>
    ensures { OnOk result ((c : Point) → Contains points.new.items c ↔ (Contains points.old.items c
        ⊎ (Contains centres.now (transposed c) × Meets segment.now.a segment.now.b (transposed c)))) }
{
    for centre in centres {
        if meets(segment, *centre) {
            points.push(turned(*centre))?;
        }
    }
    Ok(())
}
