//! One ring round several ones, along short ways between them.
ghost use Rattle.std.specs.Prelude.{◌≡◌, IfOk, IfSome, true};
ghost use Rattle.lay_oriented.specs.Net.{AreJoinedRings, GoAlike};
ghost use Rattle.lay_point.specs.RingEdges.{edges_of};

use crate::corner::{Corner, Side};
use crate::directed_net::directed_net;
use crate::finding::find_ways;
use crate::linking::ring_round;
use crate::net::are_same;
use crate::orienting::are_rings;
use crate::outline::Outline;
use crate::uniting::Walks;
use crate::walk::{Stop, path_of};
use crate::ways::Found;
use lay_point::{NoMemory, Point, Ring};
use std::alloc::{AllocError, Global};

/// Returns one ring that goes round each of these once, and along each way between two of them out and
/// back, or `None` where there is one ring or none, or where that ring isn't found to be so or would be
/// longer than a ring may be.
pub(crate) fn joined(alloc: Global, rings: &[Ring]) -> Result<Option<Vec<Ring>>, NoMemory>
    ensures { IfOk result (λ found. IfSome found (λ one. AreJoinedRings one.items rings.now)) }
{
    if rings.len() < 2 {
        return Ok(None);
    }
    let path = path_round(alloc, rings)?;
    let Some(ring) = ring_round(alloc, path.as_slice())? else {
        return Ok(None);
    };
    let mut one = Vec::new(alloc);
    one.push(ring)?;
    if !go_alike(alloc, one.as_slice(), rings)? {
        return Ok(None);
    }
    are_rings(one.as_slice());
    Ok(Some(one))
}

/// Returns whether the rings have the same edges in the same directions, those out that stand there in both.
fn go_alike(alloc: Global, new: &[Ring], old: &[Ring]) -> Result<bool, NoMemory>
    ensures { IfOk result (λ alike. alike ≡ true → GoAlike (edges_of new.now) (edges_of old.now)) }
{
    let new_net = directed_net(alloc, new)?;
    let old_net = directed_net(alloc, old)?;
    Ok(are_same(new_net.as_slice(), old_net.as_slice()))
}

/// Returns the path round the rings, which is joined along ways between their corners.
fn path_round(alloc: Global, rings: &[Ring]) -> Result<Vec<Point>, NoMemory> {
    let (walk, mut corners) = walks_of(alloc, rings)?;
    let mut sides = sides_of(alloc, corners.as_slice(), walk.as_slice())?;
    corners.sort_unstable();
    sides.sort_unstable_by_key(|side: &Side| side.start.at);
    let mut found = Found::new(alloc, outlines_of(alloc, rings)?)?;
    find_ways(alloc, &mut found, corners.as_slice(), sides.as_slice())?;
    found.ways.sort_unstable();
    let mut walks = Walks::new(alloc, walk, rings.len())?;
    walks.join_within(alloc, &found)?;
    walks.join_rest(&found)?;
    Ok(path_of(alloc, walks.walk.as_slice())?)
}

/// Returns the walks round each of the rings, and the rings' corners.
fn walks_of(alloc: Global, rings: &[Ring]) -> Result<(Vec<Stop>, Vec<Corner>), AllocError> {
    let mut walk = Vec::new(alloc);
    let mut corners = Vec::new(alloc);
    for (number, ring) in rings.iter().enumerate() {
        add_walk(&mut walk, &mut corners, number, ring.points())?;
    }
    Ok((walk, corners))
}

/// Adds the walk round the ring of this number, and its corners.
fn add_walk(
    walk: &mut Vec<Stop>,
    corners: &mut Vec<Corner>,
    ring: usize,
    points: &[Point],
) -> Result<(), AllocError> {
    let start = walk.len();
    let mut left = points;
    while let Some((point, after)) = left.split_first() {
        let number = walk.len();
        let next = if after.is_empty() { start } else { number + 1 };
        corners.push(Corner {
            at: *point,
            ring,
            stop: number,
        })?;
        walk.push(Stop { at: *point, next })?;
        left = after;
    }
    Ok(())
}

/// Returns the sides between the corners, which are in the order of the walk's stops.
fn sides_of(alloc: Global, corners: &[Corner], walk: &[Stop]) -> Result<Vec<Side>, AllocError> {
    let mut sides = Vec::with_capacity(alloc, walk.len())?;
    for (corner, stop) in corners.iter().zip(walk) {
        if let Some(next) = corners.get(stop.next) {
            sides.push(Side::between(*corner, *next))?;
        }
    }
    Ok(sides)
}

/// Returns the boxes round the rings.
fn outlines_of(alloc: Global, rings: &[Ring]) -> Result<Vec<Outline>, AllocError> {
    let mut outlines = Vec::with_capacity(alloc, rings.len())?;
    for ring in rings {
        outlines.push(Outline::round(ring.points()))?;
    }
    Ok(outlines)
}
