//! The boxes round the edges of shapes.
ghost use Rattle.std.specs.Prelude.{◌≡◌, IfOk, Some, slice_get, true};
ghost use Rattle.lay_point.specs.declared.rect.Rect.{Rect};
ghost use Rattle.snap_chains.specs.declared.owner.Owner.{Owner};
ghost use Rattle.snap_chains.specs.Rounded.{is_owner_listed};
ghost use Rattle.face_sweep.specs.Reaches.{IsEdgeIn, HaveGrown, AreBoxes, extent_of};

use lay_point::{Edge, Point, Rect};
use snap_chains::{CleanEdges, Input, Owner};
use std::alloc::{AllocError, Global};

/// For each shape of each input, by its number, the box round its edges. Shapes of numbers from `CleanEdges::shapes`
/// on, or of greater ones than there are edges, have none.
#[derive(Debug, Drop)]
pub(crate) struct Boxes {
    pub first: Vec<Rect>,
    pub second: Vec<Rect>,
}

impl Boxes {
    /// Returns the boxes of the shapes of these edges.
    pub fn of_edges(alloc: Global, edges: &CleanEdges) -> Result<Boxes, AllocError>
        ensures { IfOk result (AreBoxes edges.now) }
    {
        let count = edges.edges().len();
        let shapes = edges.shapes().min(count);
        let mut boxes = Boxes {
            first: vec![in alloc; no_box(); shapes]?,
            second: vec![in alloc; no_box(); shapes]?,
        };
        for number in 0..count {
            let edge = edges.edges()[number];
            boxes.extend(edges.owners(number), edge);
        }
        Ok(boxes)
    }

    /// Returns how many boxes there are, those of shapes without edges among them.
    pub fn count(&self) -> usize {
        self.first.len().saturating_add(self.second.len())
    }

    /// Widens the boxes of the shapes round the edge.
    fn extend(&mut self, owners: &[Owner], edge: Edge)
        ensures first { HaveGrown self.old.first.items self.new.first.items }
        ensures second { HaveGrown self.old.second.items self.new.second.items }
        ensures reached { (o : Owner) (extent : Rect) → is_owner_listed o owners.now ≡ true
            → extent_of self.new o ≡ Some extent → IsEdgeIn extent edge }
    {
        for owner in owners {
            self.extend_one(*owner, edge);
        }
    }

    /// Widens the shape's box round the edge.
    fn extend_one(&mut self, owner: Owner, edge: Edge)
        ensures first { HaveGrown self.old.first.items self.new.first.items }
        ensures second { HaveGrown self.old.second.items self.new.second.items }
        ensures reached { (extent : Rect) → extent_of self.new owner ≡ Some extent → IsEdgeIn extent edge }
    {
        match owner.input {
            Input::First => widen(&mut self.first, owner.shape, edge),
            Input::Second => widen(&mut self.second, owner.shape, edge),
        }
    }

    /// Returns the box round the edges of the shape, where it is known.
    pub fn extent(&self, owner: Owner) -> Option<Rect>
        ensures { result ≡ extent_of self.now owner }
    {
        match owner.input {
            Input::First => self.first.get(owner.shape as usize).copied(),
            Input::Second => self.second.get(owner.shape as usize).copied(),
        }
    }
}

/// Returns the box of no edges.
fn no_box() -> Rect {
    Rect {
        low: Point {
            x: i32::MAX,
            y: i32::MAX,
        },
        high: Point {
            x: i32::MIN,
            y: i32::MIN,
        },
    }
}

/// Widens the box of this number, if there is one, so that it has both ends of the edge.
fn widen(extents: &mut Vec<Rect>, shape: u32, edge: Edge)
    ensures grown { HaveGrown extents.old.items extents.new.items }
    ensures reached { (extent : Rect) → slice_get extents.new.items shape ≡ Some extent → IsEdgeIn extent edge }
{
    let index = shape as usize;
    if index < extents.len() {
        extents[index] = extents[index].grown(edge.low()).grown(edge.high());
    }
}
