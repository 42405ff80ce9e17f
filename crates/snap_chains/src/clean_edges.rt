//! Clean edges: those that meet at their ends only.
ghost use Rattle.std.specs.Prelude.{◌≡◌, ◌<◌, ◌≤◌, IfErr, IfOk, MatchOption, OnOk, Some, length, slice_get};
ghost use Rattle.lay_point.specs.Rising.{IsRising};
ghost use Rattle.lay_point.specs.Edges.{IsEdgeBefore};
ghost use Rattle.snap_chains.specs.Owners.{IsOwnerBefore};
ghost use Rattle.snap_chains.specs.Rounded.{AreClean, AreEven};
ghost use Rattle.snap_chains.specs.RowOrder.{AreInRowOrder};

use crate::owner::Owner;
use crate::rounded::Rounded;
use crate::row_order::RowOrder;
use lay_point::Edge;
use std::marker::Model;
use thiserror::Error;

/// Why edges aren't clean.
#[derive(Clone, Copy, Debug, PartialEq, Eq, Error)]
pub enum CleanFault {
    /// The edges of these numbers have more in common than an end.
    #[error("edges {first} and {second} have more in common than an end")]
    NotClean {
        /// The number of the first edge.
        first: usize,
        /// The number of the second edge.
        second: usize,
    },
    /// An allocation failed.
    #[error("out of memory")]
    NoMemory,
}

/// Edges with their owners, where a place on two different edges is an end of both. Contracts see what
/// they see of a `Rounded`.
#[derive(Debug, Drop)]
pub struct CleanEdges {
    pub(crate) rounded: Rounded,
    /// Their ends in the order of rows.
    pub(crate) order: RowOrder,
    /// A number above those of the shapes that own them, as a hint.
    pub(crate) shapes: usize,
}

impl Model for CleanEdges {
    ghost use Rattle.snap_chains.specs.Rounded.{AreClean, Owned};
    ghost use Rattle.snap_chains.specs.RowOrder.{AreInRowOrder};

    ghost Value = { Owned };

    ghost view = { λ c. c.rounded };

    ghost invariant = { λ c. AreClean c.rounded.0 × AreInRowOrder c.rounded.0 c.order };
}

impl CleanEdges {
    /// Returns the edges, in order.
    pub fn edges(&self) -> &[Edge]
        ensures value { result.now ≡ self.now.0 }
        ensures rising { IsRising IsEdgeBefore self.now.0 }
        ensures paired { length self.now.1 ≡ length self.now.0 }
        ensures even { AreEven self.now }
        ensures clean { AreClean self.now.0 }
    {
        self.rounded.edges()
    }

    /// Returns the ends of the edges in the order of rows.
    pub fn order(&self) -> &RowOrder
        ensures { AreInRowOrder self.now.0 result.now }
    {
        &self.order
    }

    /// Returns a number above those of all shapes that own edges, for lists with room for each shape. It is a hint: no
    /// clause rests on it.
    pub fn shapes(&self) -> usize {
        self.shapes
    }

    /// Returns the owners of the edge of this number, in order: by input, then by number.
    pub fn owners(&self, edge: usize) -> &[Owner]
        requires { edge < length self.now.0 }
        ensures value { slice_get self.now.1 edge ≡ Some result.now }
        ensures rising { IsRising IsOwnerBefore result.now }
    {
        self.rounded.owners(edge)
    }
}
