//! Flattened rings.
ghost use Rattle.std.specs.Prelude.{◌≡◌, All};
ghost use Rattle.lay_flat.specs.Flat.{IsFlat};

use lay_point::{Point, Turn};
use std::marker::Model;

/// The most calls of a walk.
pub const MAX_DEPTH: usize = 64;

/// The most walks of a flattening, and its most rings.
pub const MAX_RINGS: usize = 65_536;

const _: () = prove!(MAX_DEPTH == 64);

const _: () = prove!(MAX_RINGS == 65_536);

/// A ring of a shape at the end of a walk. Contracts see the list of its points, the turn and the number.
#[derive(Debug, Drop)]
pub struct FlatRing<'s> {
    /// The points as the snapshot has them, not turned.
    pub points: &'s [Point],
    /// The turn of the walk.
    pub turn: Turn,
    /// The number of the shape among those of the flattening, from 0. Its rings are read together.
    pub shape_no: u32,
}

impl<'s> Model for FlatRing<'s> {
    ghost use Rattle.lay_flat.specs.Flat.{FlatRing};

    ghost Value = { FlatRing };

    ghost view = { λ r. (r.points.now, r.turn, r.shape_no) };
}

/// The rings on a layer below a cell. Contracts see the list of them.
#[derive(Debug, Drop)]
pub struct Flat<'s> {
    pub(crate) rings: Vec<FlatRing<'s>>,
}

impl<'s> Model for Flat<'s> {
    ghost use Rattle.std.specs.Prelude.{All, List};
    ghost use Rattle.lay_flat.specs.Flat.{FlatRing, IsFlat};

    ghost Value = { List FlatRing };

    ghost view = { λ f. f.rings.items };

    ghost invariant = { λ f. All IsFlat f.rings.items };
}

impl<'s> Flat<'s> {
    /// Returns the rings, in order of the walks, and of the shapes in each.
    pub fn rings(&self) -> &[FlatRing<'s>]
        ensures value { result.now ≡ self.now }
        ensures flat { All IsFlat self.now }
    {
        self.rings.as_slice()
    }
}
