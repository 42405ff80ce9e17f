//! Undirected edges.
ghost use Rattle.std.specs.Prelude.{◌≡◌, ◌↔◌, IsNone, IfSome, IsTrue};
ghost use Rattle.lay_point.specs.Edges.{is_before, undirected};

use crate::point::Point;
use std::cmp::Ordering;
use std::marker::Model;

/// An edge between two different points, without a direction. Contracts see the pair of its ends, the
/// lesser first: by x, then by y. Edges are in the order of their lesser ends, then of their greater.
#[derive(Clone, Copy, Debug, PartialEq, Eq, PartialOrd, Ord)]
pub struct Edge {
    low: Point,
    high: Point,
}

impl Model for Edge {
    ghost use Rattle.std.specs.Prelude.{IsTrue};
    ghost use Rattle.lay_point.specs.declared.point.Point.{Point};
    ghost use Rattle.lay_point.specs.Edges.{is_before};

    ghost Value = { Point × Point };

    ghost view = { λ e. (e.low, e.high) };

    ghost invariant = { λ e. IsTrue (is_before e.low e.high) };

    ghost inverse = { λ e. record { low = e.0; high = e.1 } };
}

impl Edge {
    /// Returns the edge between `a` and `b`, or `None` where they are one point.
    pub fn new(a: Point, b: Point) -> Option<Edge>
        ensures none { IsNone result ↔ (a ≡ b) }
        ensures some { IfSome result (λ e. e ≡ undirected (a, b)) }
    {
        match a.cmp(&b) {
            Ordering::Less => Some(Edge { low: a, high: b }),
            Ordering::Equal => None,
            Ordering::Greater => Some(Edge { low: b, high: a }),
        }
    }

    /// Returns the lesser end.
    pub fn low(&self) -> Point
        ensures value { result ≡ self.now.0 }
        ensures lesser { IsTrue (is_before self.now.0 self.now.1) }
    {
        self.low
    }

    /// Returns the greater end.
    pub fn high(&self) -> Point
        ensures value { result ≡ self.now.1 }
        ensures greater { IsTrue (is_before self.now.0 self.now.1) }
    {
        self.high
    }
}
