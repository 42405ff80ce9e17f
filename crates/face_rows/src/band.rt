//! Bands of rows.
ghost use Rattle.std.specs.Prelude.{◌≡◌, Contains, IsTrue};
ghost use Rattle.lay_point.specs.declared.point.Point.{Point};
ghost use Rattle.lay_point.specs.Edges.{is_before};
ghost use Rattle.face_rows.specs.Bands.{begins_in};

use crate::directed::upward;
use lay_point::Edge;

/// The rows from `low` up to `high`, without `high`.
#[derive(Clone, Copy, Debug, PartialEq, Eq)]
pub struct Band {
    /// The first row.
    pub low: i64,
    /// The first row above the band.
    pub high: i64,
}

impl Band {
    /// Returns a band in which all of the edges begin.
    ///
    /// # Cost
    ///
    /// A pass over the edges.
    pub fn of(edges: &[Edge]) -> Band
        ensures { (e : Point × Point) → Contains edges.now e → IsTrue (begins_in result e) }
    {
        let mut band = Band { low: 0, high: 0 };
        for edge in edges {
            let (low, _) = upward(*edge);
            let y = i64::from(low.y);
            band = Band {
                low: band.low.min(y),
                high: band.high.max(y + 1),
            };
        }
        band
    }

    /// Returns whether the lower end of the edge is at the height of a row of the band.
    pub fn has(self, edge: Edge) -> bool
        ensures value { result ≡ begins_in self edge }
        ensures lesser { IsTrue (is_before edge.0 edge.1) }
    {
        let (low, _) = upward(edge);
        let y = i64::from(low.y);
        self.low <= y && y < self.high
    }
}
