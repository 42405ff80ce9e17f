//! How many sides the rings of flattenings have.
ghost use Rattle.std.specs.Prelude.{◌≡◌, ◌+◌, All, length, min, nat_le, sum_by};
ghost use Rattle.lay_flat.specs.Flat.{IsFlat};
ghost use Rattle.bool_rules.specs.Shapes.{max_segments, segments_of};
ghost use Rattle.layer_ops.specs.declared.limits.TheConstants.{MAX_SEGMENTS};

use crate::limits::MAX_SEGMENTS;
use lay_flat::{Flat, FlatRing};

/// Returns whether the rings of both have few enough sides for an operation.
pub(crate) fn are_few(a: &Flat, b: &Flat) -> bool
    ensures { result ≡ nat_le (segments_of a.now b.now) max_segments }
{
    sides(a.rings()) + sides(b.rings()) <= MAX_SEGMENTS
}

/// Returns how many sides the rings have, or one more than an operation may have if that is less.
fn sides(rings: &[FlatRing]) -> usize
    requires { All IsFlat rings.now }
    ensures { result ≡ min (sum_by (λ ring. length ring.0) rings.now) (MAX_SEGMENTS + 1) }
{
    let mut count = 0;
    for ring in rings {
        count = (count + ring.points.len()).min(MAX_SEGMENTS + 1);
    }
    count
}
