//! Places where edges cross a row, as fractions. All arithmetic is exact, in 128 bits.
ghost use Rattle.std.specs.Prelude.{
  ◌≡◌,
  ◌^◌,
  pos,
  neg_ℤ,
  ◌+ℤ◌,
  ◌-ℤ◌,
  ◌*ℤ◌,
  ◌≤ℤ◌,
  ◌<ℤ◌,
  IsTrue,
};
ghost use Rattle.std.specs.Ordering.{int_cmp};
ghost use Rattle.face_rows.specs.Rows.{crosses_row, crossing, rise};

use crate::directed::upward;
use crate::exact::{scaled, twice};
use lay_point::Edge;
use std::cmp::Ordering;

/// Where an edge crosses a row: at `x / rise`.
#[derive(Clone, Copy, Debug)]
pub struct Crossing {
    /// The numerator of the place's x.
    pub x: i128,
    /// The denominator: how far the edge rises.
    pub rise: i64,
    /// The number of the edge.
    pub number: usize,
    pub ghost positive: { pos 0 <ℤ rise },
    pub ghost small: { rise ≤ℤ pos (2 ^ 33) },
    pub ghost low: { neg_ℤ (pos (2 ^ 66)) ≤ℤ x },
    pub ghost high: { x ≤ℤ pos (2 ^ 66) },
}

impl Crossing {
    /// Returns where the edge of this number crosses the row.
    pub fn new(edge: Edge, number: usize, row: i32) -> Crossing
        requires { IsTrue (crosses_row row edge) }
        ensures x { result.x ≡ crossing row edge }
        ensures rise { result.rise ≡ rise edge }
        ensures number { result.number ≡ number }
    {
        let (low, high) = upward(edge);
        Crossing {
            x: weighed(above(high.y, row), low.x, below(low.y, row), high.x),
            rise: twice(low.y, high.y),
            number,
        }
    }

    /// Returns the order of the two places, from left to right.
    pub fn compare(self, other: Crossing) -> Ordering
        ensures { result ≡ int_cmp (other.rise *ℤ self.x) (self.rise *ℤ other.x) }
    {
        scaled(self.x, other.rise).cmp(&scaled(other.x, self.rise))
    }
}

/// Returns twice how far `y` is above the row.
fn above(y: i32, row: i32) -> i64
    ensures value { result ≡ pos 2 *ℤ y -ℤ (pos 2 *ℤ row +ℤ pos 1) }
    ensures high { result ≤ℤ pos (2 ^ 33) }
{
    twice(row, y) - 1
}

/// Returns twice how far `y` is below the row.
fn below(y: i32, row: i32) -> i64
    ensures value { result ≡ (pos 2 *ℤ row +ℤ pos 1) -ℤ pos 2 *ℤ y }
    ensures high { result ≤ℤ pos (2 ^ 33) }
{
    twice(y, row) + 1
}

/// Returns the sum of two coordinates with weights. Each product is at most 2^65.
fn weighed(first_weight: i64, first: i32, second_weight: i64, second: i32) -> i128
    requires first { pos 0 ≤ℤ first_weight }
    requires first_small { first_weight ≤ℤ pos (2 ^ 33) }
    requires second { pos 0 ≤ℤ second_weight }
    requires second_small { second_weight ≤ℤ pos (2 ^ 33) }
    ensures value { result ≡ first_weight *ℤ first +ℤ second_weight *ℤ second }
    ensures low { neg_ℤ (pos (2 ^ 66)) ≤ℤ result }
    ensures high { result ≤ℤ pos (2 ^ 66) }
{
    scaled(i128::from(first), first_weight) + scaled(i128::from(second), second_weight)
}
