//! The parts of rings: rings whose bounding boxes touch, directly or through others.
ghost use Rattle.std.specs.Prelude.{
  ◌≡◌,
  ◌+◌,
  ◌<◌,
  ◌≤◌,
  All,
  IfOk,
  OnOk,
  length,
  map,
  pos,
  slice_index,
  ℕ,
  ℤ,
  ◌≤ℤ◌,
};
ghost use Rattle.std.specs.List.{list_any};
ghost use Rattle.lay_point.specs.declared.point.Point.{Point};
ghost use Rattle.lay_point.specs.Parity.{odd};
ghost use Rattle.lay_point.specs.RingEdges.{edges_of};
ghost use Rattle.face_ring_laws.specs.Parts.{AreParts, bounding_box};
ghost use Rattle.face_ring_laws.specs.Heads.{AreDivided, AreFirst, IsNumbered};

use crate::joining::joined_heads;
use lay_point::{NoMemory, Rect, Ring};
use std::alloc::{AllocError, Global};

/// Returns the parts of the rings: rings whose bounding boxes have a point in common, their sides
/// included, are in one part, and no part could be divided. Parts are in the order of their first rings,
/// and the rings of a part in theirs. The work is that of `joined_heads`: boxes are
/// compared, and not all pairs of them.
///
/// A place is in the boxes of one part at most. So some part has an odd number of edges to the right of
/// it exactly where all rings together have.
///
/// # Errors
///
/// `NoMemory`, if an allocation fails.
pub fn parts(alloc: Global, rings: Vec<Ring>) -> Result<Vec<Vec<Ring>>, NoMemory>
    ensures parts { IfOk result (λ parts. AreParts rings.items (map (λ part. part.items) parts.items)) }

    // The place (x, y) at scale k stands for (x / k, y / k).
    ensures parity { IfOk result (λ parts. (k x y : ℤ) → pos 1 ≤ℤ k →
        list_any (λ part. odd (edges_of part) k x y) (map (λ part. part.items) parts.items)
        ≡ odd (edges_of rings.items) k x y) }
{
    let boxes = boxes_of(alloc, &rings)?;
    let heads = joined_heads(alloc, &boxes)?;
    let (labels, count) = labels_of(alloc, &heads)?;
    Ok(divided(alloc, rings, &labels, count)?)
}

/// Returns the bounding boxes of the rings.
fn boxes_of(alloc: Global, rings: &[Ring]) -> Result<Vec<Rect>, AllocError>
    ensures { IfOk result (λ boxes. boxes.items ≡ map bounding_box rings.now) }
{
    let mut boxes = Vec::with_capacity(alloc, rings.len())?;
    for ring in rings {
        boxes.push(bounds_of(ring))?;
    }
    Ok(boxes)
}

/// Returns the bounding box of the ring.
fn bounds_of(ring: &Ring) -> Rect
    ensures { result ≡ bounding_box ring.now }
{
    let points = ring.points();
    let mut bounds = Rect::of(points[0]);
    for point in &points[1..] {
        bounds = bounds.grown(*point);
    }
    bounds
}

/// Returns the number of each one's part, in the order of the heads, and how many parts there are.
fn labels_of(alloc: Global, heads: &[usize]) -> Result<(Vec<usize>, usize), AllocError>
    requires { AreFirst heads.now }
    ensures { IfOk result (λ r. IsNumbered heads.now (length heads.now) r.0.items r.1) }
{
    let mut labels: Vec<usize> = Vec::with_capacity(alloc, heads.len())?;
    let mut count = 0;
    for (number, head) in heads.iter().enumerate() {
        if *head == number {
            labels.push(count)?;
            count += 1;
        } else {
            labels.push(labels[*head])?;
        }
    }
    Ok((labels, count))
}

/// Divides the rings into so many parts, by their labels.
fn divided(
    alloc: Global,
    rings: Vec<Ring>,
    labels: &[usize],
    count: usize,
) -> Result<Vec<Vec<Ring>>, AllocError>
    requires each { length labels.now ≡ length rings.items }
    requires within { All (λ l. l < count) labels.now }
    ensures { IfOk result (λ parts.
        AreDivided count labels.now rings.items (map (λ part. part.items) parts.items)) }
{
    let mut parts = empty_parts(alloc, count)?;
    let mut number = 0;
    for ring in rings {
        parts[labels[number]].push(ring)?;
        number += 1;
    }
    Ok(parts)
}

/// Returns so many parts without rings.
fn empty_parts(alloc: Global, count: usize) -> Result<Vec<Vec<Ring>>, AllocError>
    ensures count { IfOk result (λ parts. length parts.items ≡ count) }
    ensures empty { IfOk result (λ parts. All (λ part. length part.items ≡ 0) parts.items) }
{
    let mut parts = Vec::with_capacity(alloc, count)?;
    for _ in 0..count {
        parts.push(Vec::new(alloc))?;
    }
    Ok(parts)
}
