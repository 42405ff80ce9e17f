//! What is known of each shape before the sweep.
ghost use Rattle.std.specs.Prelude.{IfOk};
ghost use Rattle.face_sweep.specs.Reaches.{IsReach};

use crate::boxes::Boxes;
use crate::traced::{hint_of, hints_of};
use crate::turns::{Turn, told_turns, turns_of};
use snap_chains::{CleanEdges, Owner};
use snap_pixels::sort_once;
use std::alloc::{AllocError, Global};

/// The boxes round the edges of the shapes, which shapes have edges of which these don't tell, and what is known
/// of each edge.
#[derive(Debug, Drop)]
pub struct Reach {
    pub(crate) boxes: Boxes,
    /// The keys of those shapes, in order. The sweep traces the edges of each.
    pub(crate) traced: Vec<u64>,
    /// Where the search for a key begins.
    hints: Vec<u32>,
    /// Of each edge, by its number.
    pub(crate) turns: Vec<Turn>,
}

impl Reach {
    /// Returns how far the shapes of these edges reach.
    ///
    /// # Errors
    ///
    /// `AllocError`, if an allocation fails.
    ///
    /// # Cost
    ///
    /// Two passes over the edges and their owners. Where some edges aren't on the border of their shape's box, one more,
    /// and a sort of the owners of these.
    pub fn of_edges(alloc: Global, edges: &CleanEdges) -> Result<Reach, AllocError>
        ensures { IfOk result (IsReach edges.now) }
    {
        let boxes = Boxes::of_edges(alloc, edges)?;
        let mut traced = Vec::new(alloc);
        let turns = told_turns(alloc, edges, &boxes, &mut traced)?;
        if traced.is_empty() {
            return Ok(Reach {
                boxes,
                traced,
                hints: Vec::new(alloc),
                turns,
            });
        }
        sort_once(&mut traced);
        let hints = hints_of(alloc, traced.as_slice(), boxes.count())?;
        let turns = turns_of(alloc, edges, &boxes, traced.as_slice(), hints.as_slice())?;
        Ok(Reach {
            boxes,
            traced,
            hints,
            turns,
        })
    }

    /// Returns where the search for the shape's key begins.
    pub(crate) fn hint(&self, owner: Owner) -> usize {
        hint_of(self.hints.as_slice(), owner)
    }
}
