//! Edges of rounded rings, with the shapes that own them.
ghost use Rattle.std.specs.Prelude.{◌≡◌, ◌↔◌, ◌<◌, [], All, Contains, IfOk, Some, length, replicate, slice_get};
ghost use Rattle.lay_point.specs.declared.point.Point.{Point};
ghost use Rattle.lay_point.specs.Rising.{IsRising};
ghost use Rattle.lay_point.specs.Edges.{IsEdgeBefore};
ghost use Rattle.snap_chains.specs.Owners.{IsOwnerBefore};
ghost use Rattle.snap_chains.specs.Rounded.{AreEven};

use crate::owner::Owner;
use crate::owner_lists::OwnerLists;
use lay_point::{Edge, NoMemory};
use std::alloc::Global;
use std::marker::Model;

/// Distinct edges in order, each with the shapes that own it, in order and each once. Of the edges that
/// list an owner an even number stand at each point. Contracts see the list of the edges, and that of
/// their lists of owners.
#[derive(Debug, Drop)]
pub struct Rounded {
    pub(crate) edges: Vec<Edge>,
    pub(crate) owners: OwnerLists,
}

impl Model for Rounded {
    ghost use Rattle.snap_chains.specs.Rounded.{IsRounded, Owned};

    ghost Value = { Owned };

    ghost view = { λ r. (r.edges.items, r.owners) };

    ghost invariant = { λ r. IsRounded (r.edges.items, r.owners) };
}

impl Rounded {
    /// Returns the distinct edges of these, in order, without owners.
    ///
    /// # Errors
    ///
    /// `NoMemory`, if an allocation fails.
    ///
    /// # Cost
    ///
    /// A sort of the edges.
    pub fn from_edges(alloc: Global, edges: &[Edge]) -> Result<Rounded, NoMemory>
        ensures edges { IfOk result (λ r. (e : Point × Point) → Contains r.0 e ↔ Contains edges.now e) }
        ensures owners { IfOk result (λ r. r.1 ≡ replicate (length r.0) []) }
    {
        let mut kept = Vec::from_slice(alloc, edges)?;
        kept.sort_unstable();
        kept.dedup();
        let owners = OwnerLists::empty(alloc, kept.len())?;
        Ok(Rounded {
            edges: kept,
            owners,
        })
    }

    /// Returns the edges, in order.
    pub fn edges(&self) -> &[Edge]
        ensures value { result.now ≡ self.now.0 }
        ensures rising { IsRising IsEdgeBefore self.now.0 }
        ensures paired { length self.now.1 ≡ length self.now.0 }
        ensures even { AreEven self.now }
    {
        self.edges.as_slice()
    }

    /// Returns the owners of the edge of this number, in order: by input, then by number.
    pub fn owners(&self, edge: usize) -> &[Owner]
        requires { edge < length self.now.0 }
        ensures value { slice_get self.now.1 edge ≡ Some result.now }
        ensures rising { IsRising IsOwnerBefore result.now }
    {
        self.owners.get(edge)
    }
}
