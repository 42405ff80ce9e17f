//! Distances in database units, half-hundredths of a micrometre.
ghost use Rattle.std.specs.Prelude.{◌≡◌, ◌≤◌, ◌*◌, ◌/◌, ◌^◌, ◌*ℤ◌, ◌<ℤ◌, pos, neg_ℤ, unsigned_abs};
ghost use Rattle.cif_grammar.specs.declared.number.TheConstants.{MAX_MAGNITUDE};
ghost use Rattle.cif_read.specs.Scales.{
  IsRatio,
  doubled,
  is_whole,
  is_whole_vertex,
  product,
  scaled,
  scaled_vertex,
  value_of,
};
ghost use Rattle.lay_point.specs.Turns.{within_range};

use cif_grammar::{Number, Scale, Vertex};
use lay_point::Point;
use std::marker::Model;

/// A scale that a definition may have. Contracts see it as it is written.
#[derive(Clone, Copy, Debug)]
pub struct Ratio {
    scale: Scale,
}

impl Model for Ratio {
    ghost use Rattle.cif_grammar.specs.declared.definitions.Scale.{Scale};
    ghost use Rattle.cif_read.specs.Scales.{IsRatio};

    ghost Value = { Scale };

    ghost view = { λ r. r.scale };

    ghost invariant = { λ r. IsRatio r.scale };

    ghost inverse = { λ s. record { scale = s } };
}

impl Ratio {
    /// Returns the scale as a ratio.
    pub fn of(scale: Scale) -> Ratio
        requires { IsRatio scale }
        ensures { result ≡ scale }
    {
        Ratio { scale }
    }

    /// Returns whether the distance is whole at this scale.
    #[tactic(auto, unfolding(crate::specs::Scales::is_whole))]
    pub fn is_whole(self, distance: i64) -> bool
        requires { unsigned_abs distance ≤ 3 * MAX_MAGNITUDE }
        ensures { result ≡ is_whole self distance }
    {
        self.scale.denominator == 1
            || self.product(distance) % u64::from(self.scale.denominator) == 0
    }

    /// Returns the distance at this scale, where it is whole.
    #[tactic(auto, unfolding(crate::specs::Scales::scaled))]
    pub fn scaled(self, distance: i64) -> i128
        requires { unsigned_abs distance ≤ 3 * MAX_MAGNITUDE }
        ensures value { result ≡ scaled self distance }
        ensures low { neg_ℤ (pos (2 ^ 64)) <ℤ result }
        ensures high { result <ℤ pos (2 ^ 64) }
    {
        let magnitude = i128::from(self.quotient(distance));
        if distance < 0 { -magnitude } else { magnitude }
    }

    /// Returns the magnitude of the distance at this scale, rounded down. Most scales need no division.
    fn quotient(self, distance: i64) -> u64
        requires { unsigned_abs distance ≤ 3 * MAX_MAGNITUDE }
        ensures { result ≡ product self distance / self.denominator }
    {
        let product = self.product(distance);
        match self.scale.denominator {
            1 => product,
            denominator => product / u64::from(denominator),
        }
    }

    /// Returns the magnitude of the distance times the numerator. Both factors are bounded so that it is
    /// below 2^64.
    fn product(self, distance: i64) -> u64
        requires { unsigned_abs distance ≤ 3 * MAX_MAGNITUDE }
        ensures { result ≡ product self distance }
    {
        distance.unsigned_abs() * u64::from(self.scale.numerator)
    }

    /// Returns whether both distances of the vertex are whole.
    pub fn is_whole_vertex(self, vertex: Vertex) -> bool
        requires x { vertex.x.magnitude ≤ MAX_MAGNITUDE }
        requires y { vertex.y.magnitude ≤ MAX_MAGNITUDE }
        ensures { result ≡ is_whole_vertex self vertex }
    {
        self.is_whole(doubled(vertex.x)) && self.is_whole(doubled(vertex.y))
    }

    /// Returns the point of the vertex, or `None` where it is out of range.
    pub fn point(self, vertex: Vertex) -> Option<Point>
        requires x { vertex.x.magnitude ≤ MAX_MAGNITUDE }
        requires y { vertex.y.magnitude ≤ MAX_MAGNITUDE }
        ensures { result ≡ within_range (scaled_vertex self vertex) }
    {
        Point::within_range(
            self.scaled(doubled(vertex.x)),
            self.scaled(doubled(vertex.y)),
        )
    }
}

/// Returns the number in database units.
pub(crate) fn doubled(number: Number) -> i64
    ensures value { result ≡ doubled number }
    ensures bound { unsigned_abs result ≤ 2 * number.magnitude }
{
    2 * value_of(number)
}

fn value_of(number: Number) -> i64
    ensures value { result ≡ value_of number }
    ensures bound { unsigned_abs result ≤ number.magnitude }
{
    let magnitude = i64::from(number.magnitude);
    if number.negative {
        -magnitude
    } else {
        magnitude
    }
}
